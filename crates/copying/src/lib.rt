// Copying bytes into lent memory: a layer below admission and rebuilding.
#![tactic(auto)]

ghost use Rattle.std.specs.Prelude.{◌≡◌, ◌+◌, ◌≤◌, length, take, drop};
ghost use Rattle.copying.specs.Written.{written};
ghost use Rattle.copying.specs.internal.Covered.{Covered};

use directory::PoolOffset;

// The bytes of a block, in which chunks are moved from the pool.
const BLOCK: usize = 32;

// Writes bytes to a place.
pub fn copy(memory: &mut [u8], at: usize, bytes: &[u8])
    requires { at + length bytes.now ≤ length memory.old }
    ensures { memory.new ≡ written memory.old at bytes.now }
{
    memory[at..at + bytes.len()].copy_from_slice(bytes);
}

// Writes a chunk of the pool to a place of the output, a block at a time, and with it up to 32 bytes that follow it in the
// pool. The first block is written whatever the length, so that every chunk of up to 32 bytes takes the same branches.
fn copy_blocks(output: &mut [u8], at: usize, pool: &[u8], from: usize, size: usize)
    requires size_in_bounds { at + size + 32 ≤ length output.old }
    requires size_in_bounds_2 { from + size + 32 ≤ length pool.now }
    ensures { Covered output.old at (at + size + 32) (take size (drop from pool.now)) output.new }
{
    for block in 0..size.div_ceil(BLOCK).max(1) {
        let done = block * BLOCK;
        let next = from + done;
        copy(output, at + done, &pool[next..next + BLOCK]);
    }
}

// Writes a chunk of the pool to a place of the output, which ends where the job does. Past the chunk it may write any bytes of
// the output: the chunks that follow are written over them. Near the output's end and the pool's end it writes the chunk
// alone; if it did so everywhere, short chunks would take up to 1.7 times as long.
pub fn copy_chunk(output: &mut [u8], at: usize, pool: &[u8], offset: PoolOffset, size: usize)
    requires size_in_bounds { offset.0 + size ≤ length pool.now }
    requires size_in_bounds_2 { at + size ≤ length output.old }
    ensures { Covered output.old at (length output.old) (take size (drop offset.0 pool.now)) output.new }
{
    let from = offset.0 as usize;
    if at + size + BLOCK <= output.len() && from + size + BLOCK <= pool.len() {
        copy_blocks(output, at, pool, from, size);
    } else {
        copy(output, at, &pool[from..from + size]);
    }
}
