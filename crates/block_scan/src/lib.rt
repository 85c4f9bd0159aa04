// The scan of a part window by window, where a window holds a block of 8 bytes: the layer between the scan byte by byte and
// the chunker.
#![tactic(auto)]

ghost use Rattle.std.specs.Prelude.{◌≡◌, MatchOption, length, get_or, ◌+◌, ◌-◌, ◌≤◌, ◌<◌};
ghost use Rattle.scan.specs.Limits.{window_limit};
ghost use Rattle.scan.specs.Scanner.{fresh};
ghost use Rattle.scan.specs.Scan.{scan, first_chunk};
ghost use Rattle.scan.specs.internal.Sound.{Sound};
ghost use Rattle.scan.specs.internal.Run.{onward, rest};
ghost use Rattle.scan.specs.internal.Order.{InOrder};
ghost use Rattle.block_scan.specs.internal.Advance.{CutAtDeadline, Advanced, Ended};
ghost use Rattle.block_scan.specs.internal.Peaks.{Settled, AtLargest, AtPeak};

mod windows;

use scan::run::Run;
use scan::{Fed, FirstChunk, Scanner, run};

// The smallest window that is scanned by blocks.
const SMALLEST: usize = 8;

// Moves a sound scanner on over a part.
pub fn scan(scanner: Scanner, part: &[u8]) -> Fed
    requires { Sound scanner }
    ensures { result ≡ scan scanner 0 part.now }
{
    if part.len() == 0 {
        return Fed::uncut(scanner, 0);
    }
    let run = Run::begun(scanner, part);
    if run.window < SMALLEST {
        return run.pass_one().by_bytes();
    }
    if scanner.count == 0 {
        return by_windows(part, run.window, run.base, run.value, run.at);
    }
    from_middle(run)
}

// Moves a fresh scanner on over a part that is not empty.
pub fn from_start(window: u32, part: &[u8]) -> Fed
    requires le_window { 1 ≤ window }
    requires window_le_window_limit { window ≤ window_limit }
    requires in_bounds { 1 ≤ length part.now }
    ensures { result ≡ scan (fresh window) 0 part.now }
{
    let run = Run::begun(scan::fresh(window), part);
    if run.window < SMALLEST {
        return run.pass_one().by_bytes();
    }
    by_windows(part, run.window, run.base, run.value, run.at)
}

// The first chunk of a job that is not empty. Where no cut ends it, its last bytes are not looked at.
pub fn first_chunk(window: u32, job: &[u8]) -> FirstChunk
    requires le_window { 1 ≤ window }
    requires window_le_window_limit { window ≤ window_limit }
    requires in_bounds { 1 ≤ length job.now }
    ensures { result ≡ first_chunk (scan (fresh window) 0 job.now) }
{
    let run = Run::begun(scan::fresh(window), job);
    if run.window < SMALLEST {
        let answer = run.pass_one().by_bytes();
        return FirstChunk {
            length: answer.consumed,
            cut: answer.cut,
            place: answer.place,
            value: answer.value,
        };
    }
    let after = windows::settled(run.window, job, run.at, run.value);
    let deadline = after + run.window;
    if job.len() < deadline {
        return FirstChunk {
            length: job.len(),
            cut: false,
            place: 0,
            value: 0,
        };
    }
    FirstChunk {
        length: deadline,
        cut: true,
        place: after as u32,
        value: job[after - 1],
    }
}

// Window by window, from a byte that is the largest so far and stands before index `at`. It is handed the numbers one by one: a
// run would go through memory, and with it a feed from C would take more than 1 KiB of stack.
fn by_windows(part: &[u8], window: usize, base: usize, value: u8, at: usize) -> Fed
    requires order { InOrder part.now window base (at + window) value at }
    requires largest { (1 ≤ at) × (value ≡ get_or part.now (at - 1) 0) }
    requires le_window { 8 ≤ window }
    ensures { result ≡ onward part.now window base (at + window) value at }
{
    let after = windows::settled(window, part, at, value);
    let deadline = after + window;
    if part.len() < deadline {
        let run = Run {
            part,
            window,
            base,
            deadline: at + window,
            value,
            at,
        };
        return to_end(at_peak(run, after)).passed();
    }
    run::cut(window, base, deadline, part[after - 1])
}

// The run where it has settled, past its largest byte so far. Where it stayed, the byte is not read again.
fn at_peak(run: Run, after: usize) -> Run
    requires at_largest { AtLargest run }
    requires settled { Settled run.part.now run.window run.at run.value after }
    ensures { AtPeak run.entry result after }
{
    if run.at == after {
        return run;
    }
    Run {
        part: run.part,
        window: run.window,
        base: run.base,
        deadline: after + run.window,
        value: run.part[after - 1],
        at: after,
    }
}

// From the middle of a window: first byte by byte, up to one that is larger.
fn from_middle(run: Run) -> Fed
    requires { 8 ≤ run.window }
    ensures { result ≡ rest run.entry }
{
    let Some(next) = to_larger(run) else {
        return run.cut();
    };
    if next.at == next.part.len() {
        return next.passed();
    }
    by_windows(next.part, next.window, next.base, next.value, next.at)
}

// Passes bytes up to and including one that is larger than the value, or to the part's end; nothing where the chunk ends
// before.
fn to_larger(run: Run) -> Option<Run>
    ensures { MatchOption result (CutAtDeadline run.entry) (λ next. Advanced run.entry next) }
{
    let part = run.part;
    let stop = run.deadline.min(part.len());
    for at in run.at..stop {
        let byte = part[at];
        if byte > run.value {
            return Some(Run {
                part,
                window: run.window,
                base: run.base,
                deadline: at + 1 + run.window,
                value: byte,
                at: at + 1,
            });
        }
    }
    if stop == run.deadline {
        return None;
    }
    Some(Run {
        part,
        window: run.window,
        base: run.base,
        deadline: run.deadline,
        value: run.value,
        at: stop,
    })
}

// Passes the rest of a part that ends before the deadline: only the first of its largest bytes matters.
fn to_end(run: Run) -> Run
    requires { length run.part.now < run.deadline }
    ensures { Ended run.entry result }
{
    let part = run.part;
    let mut value = run.value;
    let mut deadline = run.deadline;
    let most = blocks::largest_from(part, run.at);
    if most > value {
        value = most;
        deadline = blocks::place_of(part, run.at, most) + 1 + run.window;
    }
    Run {
        part,
        window: run.window,
        base: run.base,
        deadline,
        value,
        at: part.len(),
    }
}
