// The marks that stand in a recipe while a quote is under way: the search for a chunk among the job's earlier ones, and the
// last pass, which turns marks into numbers. The layer below the survey of a job.
#![tactic(auto)]

ghost use Rattle.std.specs.Prelude.{◌≡◌, cond, [], ◌+◌, ◌/◌, ◌%◌, ◌≤◌, ◌<◌, ◌^◌, eqb, leb, length, get_or, take, set, replicate, MatchOption};
ghost use Rattle.store.specs.Limits.{job_limit};
ghost use Rattle.store.specs.Contents.{number as number_of};
ghost use Rattle.marks.specs.Marks.{own_chains, own_chain, mark_of, code_of, size_of, repeat_code, first_base, first_code, no_place, sizes, firsts, settled};
ghost use Rattle.marks.specs.internal.Kinds.{Says};
ghost use Rattle.marks.specs.internal.Places.{start_stride, Starts, Placed, NamesEarlier};

use directory::ChunkNumber;
use store::JobPosition;

// A mark has the chunk's length below this, and above it a code.
const MARK_BASE: u32 = 16386;

// Codes below this are numbers of stored chunks; the others below `FIRST` name an earlier place.
const REPEAT: u32 = 65536;

// Codes from here on are those of first appearances; they name the place before in the chunk's chain.
const FIRST: u32 = 131072;

// No place of a recipe is as large: it ends a chain, in arrays of numbers as in marks, which have no room for an `Option`.
const NO_PLACE: u32 = 65535;

// The positions of every 64th place's chunk are kept.
const START_STRIDE: usize = 64;

// As many positions as a recipe's places need.
const STARTS: usize = 1024;

// The chains of a job's own new chunks.
const OWN_CHAINS: usize = 4096;

// The one that a Gear sum's top twelve bits choose.
pub fn own_chain(sum: u32) -> usize
    ensures chain { result ≡ sum / 2 ^ 20 }
    ensures below { result < 4096 }
{
    (sum >> 20) as usize
}

// The mark of a code and a chunk's length.
fn mark_of(code: u32, size: usize) -> u32
    requires code_bound { code < 196608 }
    requires size_bound { size < 16386 }
    ensures { result ≡ mark_of code size }
{
    code * MARK_BASE + size as u32
}

// The mark of a chunk that the store holds.
pub fn stored(number: ChunkNumber, size: usize) -> u32
    requires number_bound { number.0 < 65536 }
    requires size_bound { size < 16386 }
    ensures { result ≡ mark_of number.0 size }
{
    mark_of(number.0, size)
}

// The mark of a chunk that the job has at an earlier place.
pub fn repeat(place: usize, size: usize) -> u32
    requires place_bound { place < 65536 }
    requires size_bound { size < 16386 }
    ensures { result ≡ mark_of (repeat_code place) size }
{
    mark_of(REPEAT + place as u32, size)
}

// The mark of a chunk that appears for the first time; `earlier` is the last place of its chain.
fn first(earlier: u32, size: usize) -> u32
    requires earlier_bound { earlier ≤ 65535 }
    requires size_bound { size < 16386 }
    ensures { result ≡ mark_of (first_code earlier) size }
{
    mark_of(FIRST + earlier, size)
}

// The length of a mark's chunk.
pub fn size_of(mark: u32) -> usize
    ensures { result ≡ size_of mark }
{
    (mark % MARK_BASE) as usize
}

// What a mark says of its chunk.
#[derive(Clone, Copy)]
enum Kind {
    // The store holds it, under this number.
    Stored(u32),
    // The job has it at this earlier place.
    Repeat(usize),
    // It appears for the first time; this is the last place of its chain before.
    First(usize),
}

// The kind of a mark.
fn kind_of(mark: u32) -> Kind
    ensures { Says result (code_of mark) }
{
    let code = mark / MARK_BASE;
    if FIRST <= code {
        Kind::First((code - FIRST) as usize)
    } else if REPEAT <= code {
        Kind::Repeat((code - REPEAT) as usize)
    } else {
        Kind::Stored(code)
    }
}

// Whether a mark says that its chunk appears for the first time.
pub fn is_first(mark: u32) -> bool
    ensures { result ≡ leb first_base (code_of mark) }
{
    matches!(kind_of(mark), Kind::First(_))
}

// What a survey keeps of its own of the chunks so far, by their places in the recipe.
#[derive(Drop)]
pub struct Places {
    // For each chain of the job's own new chunks, the last place at which a chunk of it appears first.
    pub heads: [u32; OWN_CHAINS],
    // Where the chunk of every 64th place starts in the job.
    pub starts: [u32; STARTS],
}

impl Places {
    // Of no chunk yet.
    pub fn new() -> Self
        ensures heads { result.heads ≡ replicate own_chains no_place }
        ensures starts { result.starts ≡ replicate 1024 no_place }
    {
        Places {
            heads: [NO_PLACE; OWN_CHAINS],
            starts: [NO_PLACE; STARTS],
        }
    }

    // Keeps the position of a place's chunk where the place is one of every 64.
    pub fn note_start(&mut self, place: usize, at: JobPosition)
        requires { place < 65536 }
        ensures heads { self.new.heads ≡ self.old.heads }
        ensures starts { self.new.starts ≡ cond (eqb (place % start_stride) 0)
            (set self.old.starts (place / start_stride) at.0) self.old.starts }
    {
        if place % START_STRIDE == 0 {
            self.starts[place / START_STRIDE] = at.0;
        }
    }

    // Where the chunk of a place starts in the job.
    fn start_of(&self, recipe: &[u32], place: usize) -> usize
        requires place_bound { place < 65536 }
        requires place_in_bounds { place ≤ length recipe.now }
        requires starts { Starts recipe.now self.now.starts (place + 1) }
        requires recipe_bound { sizes (take place recipe.now) ≤ job_limit }
        ensures { result ≡ sizes (take place recipe.now) }
    {
        let first = place / START_STRIDE;
        let mut from = self.starts[first] as usize;
        for index in first * START_STRIDE..place {
            from += size_of(recipe[index]);
        }
        from
    }

    // The first of the first `used` places at which an equal chunk of the job appears, if there is one. Only the places of the
    // chunk's chain are looked at, the last one first. `Placed` speaks of the first places of a recipe that a survey goes on
    // filling, so it is not handed a part of it.
    pub fn find(
        &self,
        recipe: &[u32],
        used: usize,
        job: &[u8],
        chain: usize,
        chunk: &[u8],
    ) -> Option<usize>
        requires placed { Placed job.now recipe.now self.now.heads self.now.starts used }
        requires in_bounds { 1 ≤ length chunk.now }
        requires chain_value { chain ≡ own_chain chunk.now }
        requires job_len_bound { length job.now ≤ job_limit }
        ensures { let first = number_of (firsts job.now 0 (take used recipe.now)) chunk.now in
            MatchOption result (used ≡ first) (λ place. (place ≡ first) × (place < used)) }
    {
        let mut place = self.heads[chain] as usize;
        while place < used {
            let mark = recipe[place];
            if size_of(mark) == chunk.len() {
                let from = self.start_of(recipe, place);
                if search::stands_at(job, from, chunk) {
                    return Some(place);
                }
            }
            place = match kind_of(mark) {
                Kind::First(earlier) => earlier,
                // Only marks of first appearances stand in a chain.
                _ => unreachable!(),
            };
        }
        None
    }

    // Enters the place of a chunk that appears for the first time at the head of its chain: its mark.
    pub fn enter(&mut self, chain: usize, place: usize, size: usize) -> u32
        requires chain_lt_own_chains { chain < own_chains }
        requires earlier_bound { get_or self.old.heads chain 0 ≤ no_place }
        requires place_bound { place ≤ no_place }
        requires size_bound { size < 16386 }
        ensures mark { result ≡ mark_of (first_code (get_or self.old.heads chain 0)) size }
        ensures heads { self.new.heads ≡ set self.old.heads chain place }
        ensures starts { self.new.starts ≡ self.old.starts }
    {
        let earlier = self.heads[chain];
        self.heads[chain] = place as u32;
        first(earlier, size)
    }
}

// Turns marks into numbers, in order: first appearances get the numbers from `chunks` on.
pub fn settle(recipe: &mut [u32], chunks: ChunkNumber)
    requires length_bound { chunks.0 + length recipe.old < 2 ^ 32 }
    requires names_earlier { NamesEarlier recipe.old (length recipe.old) }
    ensures { recipe.new ≡ settled chunks.0 [] recipe.old }
{
    let mut next = chunks.0;
    for place in 0..recipe.len() {
        match kind_of(recipe[place]) {
            Kind::Stored(number) => recipe[place] = number,
            Kind::Repeat(earlier) => recipe[place] = recipe[earlier],
            Kind::First(_) => {
                recipe[place] = next;
                next += 1;
            }
        }
    }
}
