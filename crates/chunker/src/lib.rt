// Content-defined chunking by Asymmetric Extremum: a scanner that is handed a job in parts and
// says where its chunks end.
#![tactic(auto)]

ghost use Rattle.std.specs.Prelude.{◌≡◌};
ghost use Rattle.chunker.specs.Answers.{opened, unmoved, fed, fed_in_place, finished};
ghost use Rattle.scan.specs.Scanner.{fresh};
ghost use Rattle.scan.specs.Scan.{first_chunk};

mod ground;

pub use ground::window_allowed;
use refusal::Refusal;
pub use scan::{Fed, FirstChunk, Scanner};

// The widest window.
pub const WINDOW_LIMIT: u32 = 64;

// The bytes of the longest chunk: memory of this length holds any one.
pub const CHUNK_LIMIT: u32 = 256 * WINDOW_LIMIT + 1;

// What is told of the first chunk of no bytes: zeros, as `first_chunk` lays down.
const NO_CHUNK: FirstChunk = FirstChunk {
    length: 0,
    cut: false,
    place: 0,
    value: 0,
};

// Every field of a refused answer is laid down (`opened`), so the refusal stands beside the scanner and is no `Err`.
#[derive(Clone, Copy)]
pub struct Opened {
    pub refusal: Option<Refusal>,
    pub scanner: Scanner,
}

// The count is the length of the last chunk, 0 where there is none. Of a refused answer see `finished`.
#[derive(Clone, Copy)]
pub struct Finished {
    pub refusal: Option<Refusal>,
    pub scanner: Scanner,
    pub count: u32,
}

// A fresh scanner. Refused by ground 1, with all zeros.
pub fn open(window: u32) -> Opened
    ensures { result ≡ opened window }
{
    if window_allowed(window) {
        return Opened {
            refusal: None,
            scanner: scan::fresh(window),
        };
    }
    Opened {
        refusal: Some(Refusal::Window),
        scanner: scan::fresh(0),
    }
}

// Moves the scanner on over a part, up to and including the byte that ends a chunk, or over the
// whole part. At a cut it tells the chunk's maximum point. Refused by grounds 1 and 2, with the scanner handed back.
pub fn feed(scanner: Scanner, part: &[u8]) -> Fed
    ensures { result ≡ fed scanner part.now }
{
    match ground::scanner_ground(scanner) {
        Ok(()) => block_scan::scan(scanner, part),
        Err(ground) => unmoved(Some(ground), scanner),
    }
}

// Moves a fresh scanner on over a part, with the same answer. Refused by ground 1.
pub fn feed_fresh(window: u32, part: &[u8]) -> Fed
    ensures { result ≡ fed (fresh window) part.now }
{
    let scanner = scan::fresh(window);
    if !window_allowed(window) {
        return unmoved(Some(Refusal::Window), scanner);
    }
    if part.is_empty() {
        return unmoved(None, scanner);
    }
    block_scan::from_start(window, part)
}

// The answer where no byte is passed.
fn unmoved(refusal: Option<Refusal>, scanner: Scanner) -> Fed
    ensures { result ≡ unmoved refusal scanner }
{
    Fed {
        refusal,
        scanner,
        consumed: 0,
        cut: false,
        place: 0,
        value: 0,
    }
}

// The first chunk of a job, with its maximum point where a cut ends it; the last chunk may end without one. All
// zeros where the job is empty or ground 1 holds.
pub fn next_chunk(window: u32, job: &[u8]) -> FirstChunk
    ensures { result ≡ first_chunk (fed (fresh window) job.now) }
{
    if !window_allowed(window) {
        return NO_CHUNK;
    }
    if job.is_empty() {
        return NO_CHUNK;
    }
    block_scan::first_chunk(window, job)
}

// Tells the length of the chunk that no cut has ended, and starts afresh with the same window.
// Refused by grounds 1 and 2, with the scanner handed back.
pub fn finish(scanner: Scanner) -> Finished
    ensures { result ≡ finished scanner }
{
    match ground::scanner_ground(scanner) {
        Ok(()) => Finished {
            refusal: None,
            scanner: scan::fresh(scanner.window),
            count: scanner.count,
        },
        Err(ground) => Finished {
            refusal: Some(ground),
            scanner,
            count: 0,
        },
    }
}

// Moves the line controller's own scanner on in its place, with the same answer.
pub fn feed_in_place(scanner: &mut Scanner, part: &[u8]) -> Fed
    ensures { record { answer = result; scanner = scanner.new }
        ≡ fed_in_place scanner.old part.now }
{
    let answer = feed(*scanner, part);
    *scanner = answer.scanner;
    answer
}
