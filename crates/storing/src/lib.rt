// The pass that stores the new chunks of a surveyed job. It cannot refuse. The layer below admission.
#![tactic(auto)]

ghost use Rattle.std.specs.Prelude.{◌≡◌, length};
ghost use Rattle.marks.specs.Marks.{new_chunks};
ghost use Rattle.storing.specs.Storing.{stored};
ghost use Rattle.storing.specs.internal.Storable.{Storable};

use store::{ChunkNumber, Head, PoolOffset};

// Stores the chunks that the marks of a recipe say are new, in order: their bytes from `filled` on, their entries from the
// next number on, and each at the front of its chain.
pub fn store_new(
    head: Head,
    pool: &mut [u8],
    directory: &mut [u32],
    index: &mut [u32],
    recipe: &[u32],
    job: &[u8],
)
    requires { Storable head pool.old directory.old index.old recipe.now (length recipe.now) job.now }
    ensures { record { pool = pool.exit.now; directory = directory.new; index = index.new }
        ≡ stored head pool.entry.now directory.old index.old (new_chunks job.now 0 recipe.now) }
{
    let chunks = head.chunks;
    let offset = head.filled;
    let mut number = chunks.0;
    let mut filled = offset.0;
    let mut end = 0;
    for mark in recipe {
        let from = end;
        end += marks::size_of(*mark);
        if marks::is_first(*mark) {
            let chunk = &job[from..end];
            let own = gear::chain(chunk);
            let size = (end - from) as u32;
            copying::copy(pool, filled as usize, chunk);
            directory::enter(directory, ChunkNumber(number), PoolOffset(filled), size);
            index::enter(index, ChunkNumber(number), own);
            number += 1;
            filled += size;
        }
    }
}
