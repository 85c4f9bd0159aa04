// The grounds on which a store is turned away.
ghost use Rattle.std.specs.Prelude.{◌≡◌};
ghost use Rattle.std.specs.Result.{result_err};
ghost use Rattle.store.specs.Grounds.{fits, memory_allowed, recipe_allowed, store_ground};

use crate::{DIRECTORY_LIMIT, Head, POOL_LIMIT, RECIPE_LIMIT};
use directory::STRIDE;
use refusal::Refusal;

// Whether pool and directory are within their limits (ground 4).
fn memory_allowed(pool: &[u8], directory: &[u32]) -> bool
    ensures { result ≡ memory_allowed pool.now directory.now }
{
    pool.len() <= POOL_LIMIT && directory.len() <= DIRECTORY_LIMIT && directory.len() % STRIDE == 0
}

// Whether a recipe is within its limit (ground 4).
pub fn recipe_allowed(recipe: &[u32]) -> bool
    ensures { result ≡ recipe_allowed recipe.now }
{
    recipe.len() <= RECIPE_LIMIT
}

// Whether the head fits pool and directory (ground 5).
fn fits(head: Head, pool: &[u8], directory: &[u32]) -> bool
    ensures { result ≡ fits head pool.now directory.now }
{
    let count = head.chunks.0 as usize;
    let filled = head.filled.0 as usize;
    count <= directory::entries(directory)
        && filled <= pool.len()
        && directory::laid_out(head.window, directory, count, filled as u64)
}

// The first of the grounds 1, 4 and 5 that holds of a store, if any.
pub fn store_ground(head: Head, pool: &[u8], directory: &[u32]) -> Result<(), Refusal>
    ensures { result_err result ≡ store_ground head pool.now directory.now }
{
    refusal::unless(chunker::window_allowed(head.window), Refusal::Window)?;
    refusal::unless(memory_allowed(pool, directory), Refusal::MemoryLimit)?;
    refusal::unless(fits(head, pool, directory), Refusal::Head)
}
