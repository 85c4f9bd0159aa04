// Admission of a job to a store, in two operations: a quote tells what the job costs and writes only its recipe; a take
// answers the same and stores the job's new chunks.
#![tactic(auto)]

ghost use Rattle.std.specs.Prelude.{◌≡◌, ◌≤◌, Some};
ghost use Rattle.store.specs.Limits.{job_limit};
ghost use Rattle.admission.specs.Quote.{refused, quoted};
ghost use Rattle.admission.specs.Take.{taken};
ghost use Rattle.admission.specs.internal.Answers.{answered, head_after};

mod grounds;

use cut_counts::CutCounts;
use refusal::Refusal;
use store::Head;
use survey::{Progress, Surveyed};

// The most bytes of a job.
pub const JOB_LIMIT: usize = 16777216;

// The recipe's length, the bytes of the new chunks and of the others, what the job saves on the link, and its cuts by the
// values of their maximum points. All counts of a refused quote are 0 (`refused`), so the refusal stands beside them.
#[derive(Clone, Copy)]
pub struct Quoted {
    pub refusal: Option<Refusal>,
    pub recipe_length: u32,
    pub new_bytes: u32,
    pub repeated_bytes: u32,
    pub saving: i64,
    pub cuts: CutCounts,
}

// The answer of the job's quote, and the new head.
#[derive(Clone, Copy)]
pub struct Taken {
    pub quoted: Quoted,
    pub head: Head,
}

// All counts 0.
fn refused(ground: Refusal) -> Quoted
    ensures { result ≡ refused (Some ground) }
{
    Quoted {
        refusal: Some(ground),
        recipe_length: 0,
        new_bytes: 0,
        repeated_bytes: 0,
        saving: 0,
        cuts: cut_counts::NONE,
    }
}

// The answer to a job that was surveyed: its counts, or the ground on which a chunk was refused.
fn answered(job_length: usize, surveyed: Surveyed) -> Quoted
    requires { job_length ≤ job_limit }
    ensures { result ≡ answered job_length surveyed.refusal surveyed.progress surveyed.cuts }
{
    if let Some(ground) = surveyed.refusal {
        return refused(ground);
    }
    let progress = surveyed.progress;
    Quoted {
        refusal: None,
        recipe_length: progress.recipe_length,
        new_bytes: progress.new_bytes,
        repeated_bytes: progress.repeated_bytes,
        saving: tariff::saving(
            job_length as u32,
            progress.new_bytes,
            progress.recipe_length,
        ),
        cuts: surveyed.cuts,
    }
}

// The head of a store with the chunks that a survey counted as new.
fn head_after(head: Head, progress: Progress) -> Head
    ensures { result ≡ head_after head progress }
{
    Head {
        window: head.window,
        chunks: progress.chunks,
        filled: progress.filled,
    }
}

// Quotes a job: what its take would answer. Writes only the recipe. Refused by grounds 1, 3 to 8, 11 and 12.
pub fn quote(
    head: Head,
    pool: &[u8],
    directory: &[u32],
    index: &[u32],
    recipe: &mut [u32],
    job: &[u8],
) -> Quoted
    ensures { record { answer = result; recipe = recipe.new }
        ≡ quoted head pool.now directory.now index.now recipe.old job.now }
{
    if let Err(ground) = grounds::admission_ground(head, pool, directory, index, recipe, job) {
        return refused(ground);
    }
    let surveyed = survey::survey(head, pool, directory, index, recipe, job);
    let used = surveyed.progress.recipe_length as usize;
    marks::settle(&mut recipe[..used], head.chunks);
    answered(job.len(), surveyed)
}

// Takes a job: its new chunks go into the store and its index. Refused as its quote is, with the head handed back, and store
// and index untouched.
pub fn take(
    head: Head,
    pool: &mut [u8],
    directory: &mut [u32],
    index: &mut [u32],
    recipe: &mut [u32],
    job: &[u8],
) -> Taken
    ensures { record {
      answer = result;
      pool = pool.new;
      directory = directory.new;
      index = index.new;
      recipe = recipe.new;
    }
        ≡ taken head pool.old directory.old index.old recipe.old job.now }
{
    if let Err(ground) = grounds::admission_ground(head, pool, directory, index, recipe, job) {
        return Taken {
            quoted: refused(ground),
            head,
        };
    }
    let surveyed = survey::survey(head, pool, directory, index, recipe, job);
    let used = surveyed.progress.recipe_length as usize;
    if let Some(ground) = surveyed.refusal {
        marks::settle(&mut recipe[..used], head.chunks);
        return Taken {
            quoted: refused(ground),
            head,
        };
    }
    storing::store_new(head, pool, directory, index, &recipe[..used], job);
    marks::settle(&mut recipe[..used], head.chunks);
    Taken {
        quoted: answered(job.len(), surveyed),
        head: head_after(head, surveyed.progress),
    }
}
