// The text of one frame. The layer below the listing.
#![tactic(auto)]

ghost use Rattle.std.specs.Prelude.{◌≡◌, ◌+◌, ◌≤◌, ◌<◌, length};
ghost use Rattle.std.proofs.lemmas.List.Edits.{sets};
ghost use Rattle.frame_text.specs.Frame.{frame_bytes, digit, hex, frame, last_frame};

use refusal::Refusal;
use store::{ChunkNumber, JobPosition};

// The bytes of a frame: 22 digits and a line feed.
pub const FRAME_BYTES: usize = 23;

// The character of a hexadecimal digit, in upper case. The program `gear_table` has such digits too; neither crate sees the other.
fn digit(value: u32) -> u8
    requires { value < 16 }
    ensures { result ≡ digit value }
{
    match value as u8 {
        value @ 0..=9 => b'0' + value,
        value => b'A' + (value - 10),
    }
}

// Writes the last `width` hexadecimal digits of a number, from the last one back.
fn write_hex(output: &mut [u8], at: usize, width: usize, value: u32)
    requires { at + width ≤ length output.old }
    ensures { output.new ≡ sets output.old at (hex width value) }
{
    let mut rest = value;
    for place in (0..width).rev() {
        output[at + place] = digit(rest % 16);
        rest /= 16;
    }
}

// The numbers of a frame. Those of the last frame are no chunk's, so they are plain here; a chunk's come with their types.
#[derive(Clone, Copy)]
pub struct Frame {
    number: u32,
    position: u32,
    size: u32,
    mark: u8,
}

impl Frame {
    // The frame of a chunk.
    pub fn of_chunk(number: ChunkNumber, position: JobPosition, size: u32, mark: u8) -> Self
        ensures { result ≡ record { number = number.0; position = position.0; size = size; mark = mark } }
    {
        Frame {
            number: number.0,
            position: position.0,
            size,
            mark,
        }
    }

    // Writes the frame, and tells where it ends.
    pub fn write(self, output: &mut [u8], at: usize) -> usize
        requires { at + frame_bytes ≤ length output.old }
        ensures value { result ≡ at + frame_bytes }
        ensures output_after { output.new
            ≡ sets output.old at (frame self.number self.position self.size self.mark) }
    {
        write_hex(output, at, 4, self.number);
        write_hex(output, at + 4, 8, self.position);
        write_hex(output, at + 12, 8, self.size);
        write_hex(output, at + 20, 2, u32::from(self.mark));
        output[at + 22] = b'\n';
        at + FRAME_BYTES
    }
}

// The last frame.
pub fn last_frame(
    output: &mut [u8],
    at: usize,
    new_bytes: u32,
    job_length: u32,
    refusal: Option<Refusal>,
) -> usize
    requires { at + frame_bytes ≤ length output.old }
    ensures value { result ≡ at + frame_bytes }
    ensures output_after { output.new ≡ sets output.old at (last_frame new_bytes job_length refusal) }
{
    let frame = Frame {
        number: 0xFFFF,
        position: new_bytes,
        size: job_length,
        mark: refusal::number(refusal),
    };
    frame.write(output, at)
}
