// The directory of a store: two numbers per entry, the chunk's offset in the pool and its length. C lends it as a slice
// of numbers, so these are functions over one. The layer below the store.
#![tactic(auto)]

ghost use Rattle.std.specs.Prelude.{◌≡◌, ◌+◌, ◌*◌, ◌<◌, length};
ghost use Rattle.directory.specs.Entry.{stride, offset_at, length_at, entries, entered};

mod layout;

pub use layout::laid_out;

// The numbers of an entry.
pub const STRIDE: usize = 2;

// A place in the pool, counted from 0.
#[derive(Clone, Copy)]
pub struct PoolOffset(pub u32);

// The number of a chunk in the directory, counted from 0.
#[derive(Clone, Copy)]
pub struct ChunkNumber(pub u32);

// The entries that a directory has room for.
pub fn entries(directory: &[u32]) -> usize
    ensures { result ≡ entries directory.now }
{
    directory.len() / STRIDE
}

// Where an entry's bytes start in the pool.
pub fn offset_of(directory: &[u32], entry: usize) -> PoolOffset
    requires { entry * stride + 1 < length directory.now }
    ensures { result.0 ≡ offset_at directory.now entry }
{
    PoolOffset(directory[entry * STRIDE])
}

// How many bytes an entry has.
pub fn length_of(directory: &[u32], entry: usize) -> usize
    requires { entry * stride + 1 < length directory.now }
    ensures { result ≡ length_at directory.now entry }
{
    directory[entry * STRIDE + 1] as usize
}

// Enters a chunk's place and length under a number.
pub fn enter(directory: &mut [u32], number: ChunkNumber, at: PoolOffset, size: u32)
    requires { number.0 * stride + 1 < length directory.old }
    ensures { directory.new ≡ entered directory.old number.0 at.0 size }
{
    let entry = number.0 as usize * STRIDE;
    directory[entry] = at.0;
    directory[entry + 1] = size;
}
