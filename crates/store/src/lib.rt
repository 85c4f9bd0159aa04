// The store: a head, a lent pool of chunk bytes and a lent directory of their places. They are handed in one by one, as C lends
// them: a quote reads pool and directory and a take writes them, so a struct would be needed twice, with the same fields.
#![tactic(auto)]

ghost use Rattle.std.specs.Prelude.{◌≡◌};
ghost use Rattle.std.specs.Result.{result_err};
ghost use Rattle.store.specs.Opening.{fresh, opened};
ghost use Rattle.store.specs.Grounds.{look_ground};
ghost use Rattle.store.specs.Looking.{stretch_of, shown};

mod grounds;

use directory::STRIDE;
pub use directory::{ChunkNumber, PoolOffset};
pub use grounds::{recipe_allowed, store_ground};
use refusal::Refusal;

// The most bytes of a pool, numbers of a directory and numbers of a recipe.
pub const POOL_LIMIT: usize = 67108864;

pub const DIRECTORY_LIMIT: usize = 131070;

pub const RECIPE_LIMIT: usize = 65535;

// A place in a job, counted from 0.
#[derive(Clone, Copy)]
pub struct JobPosition(pub u32);

// The window, the number that the next new chunk gets, and where its bytes go.
#[derive(Clone, Copy)]
pub struct Head {
    pub window: u32,
    pub chunks: ChunkNumber,
    pub filled: PoolOffset,
}

// As the chunker's: a refused opening gives all zeros (`opened`), so the refusal stands beside the head. A struct for both would have
// one name for a scanner and a head.
#[derive(Clone, Copy)]
pub struct Opened {
    pub refusal: Option<Refusal>,
    pub head: Head,
}

// A stretch of the pool: where it starts and how many bytes it has.
#[derive(Clone, Copy)]
pub struct Stretch {
    pub offset: PoolOffset,
    pub length: u32,
}

// The head of a store that holds no chunk.
fn fresh(window: u32) -> Head
    ensures { result ≡ fresh window }
{
    Head {
        window,
        chunks: ChunkNumber(0),
        filled: PoolOffset(0),
    }
}

// The head of a fresh store. Refused by ground 1, with all zeros.
pub fn open(window: u32) -> Opened
    ensures { result ≡ opened window }
{
    if chunker::window_allowed(window) {
        return Opened {
            refusal: None,
            head: fresh(window),
        };
    }
    Opened {
        refusal: Some(Refusal::Window),
        head: fresh(0),
    }
}

// The first of the grounds 1, 4, 5 and 9 on which a look at a chunk is refused, if any.
pub fn look_ground(
    head: Head,
    pool: &[u8],
    directory: &[u32],
    number: ChunkNumber,
) -> Result<(), Refusal>
    ensures { result_err result ≡ look_ground head pool.now directory.now number }
{
    store_ground(head, pool, directory)?;
    refusal::unless(number.0 < head.chunks.0, Refusal::ChunkNumber)
}

// Where a number's entry says that its bytes are, for a caller that has tested the grounds; zeros, as
// the definition lays down, where the directory has no such entry.
pub fn stretch_of(directory: &[u32], number: ChunkNumber) -> Stretch
    ensures { result ≡ stretch_of directory.now number.0 }
{
    let at = number.0 as usize * STRIDE;
    if directory.len() <= at + 1 {
        return Stretch {
            offset: PoolOffset(0),
            length: 0,
        };
    }
    Stretch {
        offset: PoolOffset(directory[at]),
        length: directory[at + 1],
    }
}

// A chunk's own stretch of the pool; the empty stretch where the look is refused.
pub fn look<'p, 'd>(
    head: Head,
    pool: &'p [u8],
    directory: &'d [u32],
    number: ChunkNumber,
) -> &'p [u8]
    ensures { record { bytes = result.now; start = result.ref_ptr }
        ≡ shown head pool.entry.ref_ptr pool.now directory.now number }
{
    match look_ground(head, pool, directory, number) {
        Ok(()) => {
            let stretch = stretch_of(directory, number);
            let from = stretch.offset.0 as usize;
            &pool[from..from + stretch.length as usize]
        }
        Err(_) => &pool[..0],
    }
}
