// The grounds on which a quote or a take is turned away before its first chunk.
ghost use Rattle.std.specs.Prelude.{◌≡◌};
ghost use Rattle.std.specs.Result.{result_err};
ghost use Rattle.admission.specs.Grounds.{job_allowed, admission_ground};

use crate::JOB_LIMIT;
use refusal::Refusal;
use store::Head;

// Whether the job's length is allowed (ground 3).
fn job_allowed(job: &[u8]) -> bool
    ensures { result ≡ job_allowed job.now }
{
    1 <= job.len() && job.len() <= JOB_LIMIT
}

// The first of the grounds 1, 3 to 5, 11 and 12 that holds, if any. A recipe over its limit is ground 4, so it is
// tested before the store's grounds.
pub fn admission_ground(
    head: Head,
    pool: &[u8],
    directory: &[u32],
    index: &[u32],
    recipe: &[u32],
    job: &[u8],
) -> Result<(), Refusal>
    ensures { result_err result ≡ admission_ground head pool.now directory.now index.now recipe.now job.now }
{
    refusal::unless(chunker::window_allowed(head.window), Refusal::Window)?;
    refusal::unless(job_allowed(job), Refusal::JobLength)?;
    refusal::unless(store::recipe_allowed(recipe), Refusal::MemoryLimit)?;
    store::store_ground(head, pool, directory)?;
    index::index_ground(head, pool, directory, index)
}
