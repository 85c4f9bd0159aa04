// The grounds on which a rebuilding is turned away.
ghost use Rattle.std.specs.Prelude.{◌≡◌, ◌≤◌, length, IfOk};
ghost use Rattle.std.specs.Result.{result_err};
ghost use Rattle.rebuild.specs.Rebuilding.{rebuilt_bytes, rebuild_ground};
ghost use Rattle.rebuild.specs.internal.Located.{Located};
ghost use Rattle.store.specs.Grounds.{all_below};
ghost use Rattle.store.specs.Limits.{pool_limit, recipe_limit};

use refusal::Refusal;
use store::{ChunkNumber, Head};

// Whether every number of a recipe has a chunk (ground 9). All are tested, without a branch: with a return at the first that
// has none, or by `all`, it takes 1.25 times as long by Rattle's compiler, which unrolls the loop, and 9 times by LLVM, which
// makes vectors of it.
fn all_below(chunks: ChunkNumber, recipe: &[u32]) -> bool
    ensures { result ≡ all_below chunks.0 recipe.now }
{
    let mut below = true;
    for number in recipe {
        if chunks.0 <= *number {
            below = false;
        }
    }
    below
}

// The length of a rebuilt job. It is summed in 64 bits, since all that is asked here is that each chunk lies in the pool.
fn rebuilt_length(pool: &[u8], directory: &[u32], recipe: &[u32]) -> u64
    requires pool_len_bound { length pool.now ≤ pool_limit }
    requires recipe_len_bound { length recipe.now ≤ recipe_limit }
    requires located { Located pool.now directory.now recipe.now }
    ensures { result ≡ length (rebuilt_bytes pool.now directory.now recipe.now) }
{
    let mut total: u64 = 0;
    for number in recipe {
        total += directory::length_of(directory, *number as usize) as u64;
    }
    total
}

// The rebuilt job's length, or the first of the grounds 1, 4, 5, 9 and 10 that holds. A recipe over its limit is ground 4, so
// it is tested before the store's grounds.
pub fn rebuild_ground(
    head: Head,
    pool: &[u8],
    directory: &[u32],
    recipe: &[u32],
    output: &[u8],
) -> Result<u64, Refusal>
    ensures refusal { result_err result
        ≡ rebuild_ground head pool.now directory.now recipe.now output.now }
    ensures counted { IfOk result
        (λ total. total ≡ length (rebuilt_bytes pool.now directory.now recipe.now)) }
{
    refusal::unless(chunker::window_allowed(head.window), Refusal::Window)?;
    refusal::unless(store::recipe_allowed(recipe), Refusal::MemoryLimit)?;
    store::store_ground(head, pool, directory)?;
    refusal::unless(all_below(head.chunks, recipe), Refusal::ChunkNumber)?;
    let total = rebuilt_length(pool, directory, recipe);
    refusal::unless(total <= output.len() as u64, Refusal::OutputShort)?;
    Ok(total)
}
