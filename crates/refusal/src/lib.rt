#![tactic(auto)]

ghost use Rattle.std.specs.Prelude.{◌≡◌, Some};
ghost use Rattle.std.specs.Result.{result_err};
ghost use Rattle.refusal.specs.Number.{number_of};
ghost use Rattle.refusal.specs.Grounds.{unless};

// The grounds for turning work away, by their numbers. The first in the paper's checking order that
// holds is reported, as `Some` or as an error; `None` says that none does.
#[derive(Clone, Copy, Debug, PartialEq, Eq)]
pub enum Refusal {
    // 1: the window is not 1 to 64.
    Window,
    // 2: the scanner is not sound.
    Unsound,
    // 3: the job is empty or longer than 16,777,216 bytes.
    JobLength,
    // 4: the pool, the directory or the recipe is over its limit, or the directory's count is odd.
    MemoryLimit,
    // 5: the head does not fit pool and directory.
    Head,
    // 6: at this chunk, the recipe is full.
    RecipeFull,
    // 7: this chunk is new and the directory has no unused entry.
    DirectoryFull,
    // 8: this chunk is new and longer than the pool bytes after filled.
    PoolFull,
    // 9: a chunk number is not below the number of chunks.
    ChunkNumber,
    // 10: the output is shorter than the rebuilt job.
    OutputShort,
    // 11: the index has another length than 1,024 and the directory's entries.
    IndexLength,
    // 12: the index's chains do not meet every chunk just once under its own sum, and nothing else.
    Index,
}

// The paper's number of a ground.
impl From<Refusal> for u8 {
    ghost from_gives = { λ refusal number. number ≡ number_of (Some refusal) };

    fn from(ground: Refusal) -> u8 {
        match ground {
            Refusal::Window => 1,
            Refusal::Unsound => 2,
            Refusal::JobLength => 3,
            Refusal::MemoryLimit => 4,
            Refusal::Head => 5,
            Refusal::RecipeFull => 6,
            Refusal::DirectoryFull => 7,
            Refusal::PoolFull => 8,
            Refusal::ChunkNumber => 9,
            Refusal::OutputShort => 10,
            Refusal::IndexLength => 11,
            Refusal::Index => 12,
        }
    }
}

// The paper's number of the ground that is reported; 0 where none holds.
pub fn number(refusal: Option<Refusal>) -> u8
    ensures { result ≡ number_of refusal }
{
    refusal.map_or(0, u8::from)
}

// Turns work away by a ground unless its test passes. The grounds of an operation follow one another with `?`.
pub fn unless(passes: bool, ground: Refusal) -> Result<(), Refusal>
    ensures { result_err result ≡ unless passes ground }
{
    if passes { Ok(()) } else { Err(ground) }
}
