// The listing of a job: one frame per chunk, and a last frame with the counts.
#![tactic(auto)]

ghost use Rattle.std.specs.Prelude.{◌≡◌, Some};
ghost use Rattle.listing_frames.specs.Frames.{refused_frame, written, listed};

mod chunks;

use frame_text::FRAME_BYTES;
use refusal::Refusal;

// A longer job is refused by ground 3.
pub const LONGEST_JOB: usize = 16384;

// The window of the store that a job is taken into, the bytes of its pool, the numbers of its directory of
// 1,024 entries and of its index, and the places of the recipe.
const WINDOW: u32 = 4;

const POOL_BYTES: usize = 32768;

const DIRECTORY_NUMBERS: usize = 1024 * directory::STRIDE;

const INDEX_NUMBERS: usize = index::HEADS + 1024;

const RECIPE_PLACES: usize = 1024;

// One frame per place of the recipe, and the last one.
pub const OUTPUT_BYTES: usize = (RECIPE_PLACES + 1) * FRAME_BYTES;

// The refusal of a job, and how many bytes of frames were written.
#[derive(Clone, Copy)]
pub struct Listed {
    pub refusal: Option<Refusal>,
    pub written: usize,
}

// Writes the one frame of a refused job.
fn refused(output: &mut [u8; OUTPUT_BYTES], ground: Refusal) -> Listed
    ensures { record { answer = result; output = output.new }
        ≡ written (Some ground) (refused_frame (Some ground)) output.old }
{
    let refusal = Some(ground);
    let written = frame_text::last_frame(output, 0, 0, 0, refusal);
    Listed { refusal, written }
}

// Writes the frames of a job that a fresh store quotes, and takes where the quote is accepted. Refused by ground 3
// over `LONGEST_JOB`, and else as its quote is.
pub fn frames(job: &[u8], output: &mut [u8; OUTPUT_BYTES]) -> Listed
    ensures { record { answer = result; output = output.new } ≡ listed job.now output.old }
{
    if LONGEST_JOB < job.len() {
        return refused(output, Refusal::JobLength);
    }
    let mut pool = [0u8; POOL_BYTES];
    let mut directory = [0u32; DIRECTORY_NUMBERS];
    let mut index = [index::NONE; INDEX_NUMBERS];
    let mut recipe = [0u32; RECIPE_PLACES];
    let head = store::open(WINDOW).head;
    let quoted = admission::quote(head, &pool, &directory, &index, &mut recipe, job);
    if let Some(ground) = quoted.refusal {
        return refused(output, ground);
    }
    let taken = admission::take(
        head,
        &mut pool,
        &mut directory,
        &mut index,
        &mut recipe,
        job,
    );
    let end = chunks::frames(job, &recipe, output);
    let written = frame_text::last_frame(
        output,
        end,
        taken.quoted.new_bytes,
        job.len() as u32,
        None,
    );
    Listed {
        refusal: None,
        written,
    }
}
