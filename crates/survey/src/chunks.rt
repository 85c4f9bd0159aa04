// The chunks of a job on which none of the grounds 1, 3 to 5, 11 and 12 holds, one after another.
ghost use Rattle.std.specs.Prelude.{◌≡◌, true};
ghost use Rattle.refusal.specs.Number.{accepted};
ghost use Rattle.cut_counts.specs.CutCounts.{cut_counts};
ghost use Rattle.survey.specs.internal.Snapshot.{snapshot};
ghost use Rattle.survey.specs.internal.Surveyed.{surveyed};
ghost use Rattle.survey.specs.internal.Begun.{Begun};

use crate::{Lent, Progress};
use cut_counts::CutCounts;
use marks::Places;
use refusal::Refusal;
use store::{Head, JobPosition};

// The ground on which a chunk of a job was refused, if one was, and what is counted of the chunks before it; the cuts are
// the job's where none was. No `Result`, since the marks of the chunks before are settled where one is refused too.
#[derive(Clone, Copy)]
pub struct Surveyed {
    pub refusal: Option<Refusal>,
    pub progress: Progress,
    pub cuts: CutCounts,
}

// Surveys a job: its chunks in order, each found in what the job has left, up to the first that is refused.
pub fn survey(
    head: Head,
    pool: &[u8],
    directory: &[u32],
    index: &[u32],
    recipe: &mut [u32],
    job: &[u8],
) -> Surveyed
    requires { Begun head pool.now directory.now index.now recipe.old job.now }
    ensures outcome { record { refusal = result.refusal; snapshot = snapshot result.progress recipe.new }
        ≡ surveyed head pool.now directory.now recipe.old job.now }
    ensures cuts { accepted result.refusal ≡ true → result.cuts ≡ cut_counts head.window job.now }
{
    let lent = Lent {
        head,
        pool,
        directory,
        index,
        job,
    };
    let mut places = Places::new();
    let mut progress = Progress::begun(head);
    let mut cuts = cut_counts::NONE;
    let mut at = 0;
    while at < job.len() {
        let first = block_scan::first_chunk(head.window, &job[at..]);
        cuts = cuts.with_chunk(first);
        let end = at + first.length;
        let chunk = &job[at..end];
        places.note_start(progress.recipe_length as usize, JobPosition(at as u32));
        match lent.survey_chunk(progress, recipe, &mut places, chunk) {
            Ok(next) => progress = next,
            Err(ground) => {
                return Surveyed {
                    refusal: Some(ground),
                    progress,
                    cuts,
                };
            }
        }
        at = end;
    }
    Surveyed {
        refusal: None,
        progress,
        cuts,
    }
}
