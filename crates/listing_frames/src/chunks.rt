// The frames of the chunks of an accepted job.
ghost use Rattle.std.specs.Prelude.{◌≡◌, ◌*◌, ◌≤◌, length};
ghost use Rattle.std.proofs.lemmas.List.Edits.{sets};
ghost use Rattle.chunker.specs.Chunks.{chunks};
ghost use Rattle.frame_text.specs.Frame.{frame_bytes};
ghost use Rattle.listing_frames.specs.Frames.{window, longest_job};
ghost use Rattle.listing_frames.specs.internal.Counted.{mark, counted_frames};

use crate::WINDOW;
use frame_text::{FRAME_BYTES, Frame};
use store::{ChunkNumber, JobPosition};

// 1 where a chunk is new: it has the number that the next new chunk gets.
fn mark(number: ChunkNumber, next: ChunkNumber) -> u8
    ensures { result ≡ mark number.0 next.0 }
{
    u8::from(number.0 == next.0)
}

// Writes one frame per chunk of a job, and tells how many bytes they are. The chunks are found once
// more, and their numbers are in the recipe. The place in the job goes on by the length that is found, so no range counts it.
pub fn frames(job: &[u8], recipe: &[u32], output: &mut [u8]) -> usize
    requires job_len_bound { length job.now ≤ longest_job }
    requires job_in_bounds { length (chunks window job.now) ≤ length recipe.now }
    requires job_in_bounds_2 { frame_bytes * length (chunks window job.now) ≤ length output.old }
    ensures value { result ≡ frame_bytes * length (chunks window job.now) }
    ensures output_after { output.new ≡ sets output.old 0 (counted_frames 0 0 (chunks window job.now) recipe.now) }
{
    let mut next = 0;
    let mut used = 0;
    let mut at = 0;
    while at < job.len() {
        let size = chunker::next_chunk(WINDOW, &job[at..]).length;
        let number = ChunkNumber(recipe[used]);
        let new = mark(number, ChunkNumber(next));
        let frame = Frame::of_chunk(number, JobPosition(at as u32), size as u32, new);
        frame.write(output, FRAME_BYTES * used);
        next += u32::from(new);
        used += 1;
        at += size;
    }
    FRAME_BYTES * used
}
