// A scanner, and the scan of a part of a job byte by byte for the byte that ends the open chunk: a layer below
// the chunker, which tests what is asked for here.
#![tactic(auto)]

ghost use Rattle.std.specs.Prelude.{◌≡◌, length, ◌≤◌};
ghost use Rattle.scan.specs.Limits.{window_limit};
ghost use Rattle.scan.specs.Scanner.{fresh};
ghost use Rattle.scan.specs.Scan.{uncut, scan};

pub mod run;

use refusal::Refusal;
use run::Run;

// What is known of the open chunk: its window, the bytes since the last cut, the place of the
// largest byte so far (first on a tie, counted from 1) and its value.
#[derive(Clone, Copy)]
pub struct Scanner {
    pub window: u32,
    pub count: u32,
    pub place: u32,
    pub value: u8,
}

// How many bytes of the part were consumed, and whether a cut follows them. At a cut, the place of the chunk's maximum
// point, counted from 1 in the chunk, and its value; without one both are 0 (`uncut`), as C is told, and so they stand beside the
// flag. Every field of a refused answer is laid down (`unmoved` in chunker), so the refusal is no `Err`.
#[derive(Clone, Copy)]
pub struct Fed {
    pub refusal: Option<Refusal>,
    pub scanner: Scanner,
    pub consumed: usize,
    pub cut: bool,
    pub place: u32,
    pub value: u8,
}

impl Fed {
    // The answer to a part of which `consumed` bytes are passed, with no cut.
    pub fn uncut(scanner: Scanner, consumed: usize) -> Self
        ensures { result ≡ uncut scanner consumed }
    {
        Fed {
            refusal: None,
            scanner,
            consumed,
            cut: false,
            place: 0,
            value: 0,
        }
    }
}

// The first chunk of a job: its length, whether a cut ends it, and as in `Fed` its maximum point.
#[derive(Clone, Copy)]
pub struct FirstChunk {
    pub length: usize,
    pub cut: bool,
    pub place: u32,
    pub value: u8,
}

// A scanner with no byte since the last cut.
pub fn fresh(window: u32) -> Scanner
    ensures { result ≡ fresh window }
{
    Scanner {
        window,
        count: 0,
        place: 0,
        value: 0,
    }
}

// Moves a fresh scanner on over a part that is not empty, byte by byte.
pub fn from_start(window: u32, part: &[u8]) -> Fed
    requires le_window { 1 ≤ window }
    requires window_le_window_limit { window ≤ window_limit }
    requires in_bounds { 1 ≤ length part.now }
    ensures { result ≡ scan (fresh window) 0 part.now }
{
    let run = Run::begun(fresh(window), part);
    run.pass_one().by_bytes()
}
