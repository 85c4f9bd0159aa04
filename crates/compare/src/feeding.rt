// The scanner's chunks of a job that is fed in random splittings.
ghost use Rattle.std.specs.Prelude.{◌≡◌, ◌≤◌, true, None};
ghost use Rattle.difference.specs.Difference.{Same};

use crate::list::List;
use crate::random;
use chunker::{Fed, Scanner};

// Whether the answer to a part of `rest` bytes is accepted, and consumes at least one of them before a cut; where no cut
// follows, it has to consume all of them and tell no maximum point.
fn allowed(fed: Fed, rest: usize) -> bool
    ensures { result ≡ true → fed.consumed ≤ rest }
{
    if fed.refusal.is_some() {
        return false;
    }
    if fed.cut {
        return (1..=rest).contains(&fed.consumed);
    }
    fed.consumed == rest && fed.place == 0 && fed.value == 0
}

// Ends the list with the last chunk, which has to be as long as the `open` bytes since the last cut.
fn finish(scanner: Scanner, open: usize, list: &mut List) {
    let answer = chunker::finish(scanner);
    let last = answer.count as usize;
    if answer.refusal.is_some() || last != open {
        list.spoil();
        return;
    }
    list.end(last);
}

// Lists the chunks of a job. It is fed in parts of random lengths up to a most that the seed gives, and ends
// with an empty part. An answer that is not allowed ends it with more numbers than the list has room for.
fn chunks(job: &[u8], window: u32, seed: u32, memory: &mut [usize]) {
    let mut list = List::new(memory);
    let opened = chunker::open(window);
    let mut scanner = opened.scanner;
    let mut random = seed;
    let mut at = 0;
    let mut open = 0;
    for _ in 0..100_000 {
        random = random::next(random);
        let end = at + random::up_to(random, 1 << (seed % 14), job.len() - at);
        let fed = chunker::feed(scanner, &job[at..end]);
        if !allowed(fed, end - at) {
            break;
        }
        scanner = fed.scanner;
        if at == job.len() {
            finish(scanner, open, &mut list);
            return;
        }
        at += fed.consumed;
        open = open.wrapping_add(fed.consumed);
        if fed.cut {
            list.add_cut(open, fed.place as usize, fed.value);
            open = 0;
        }
    }
    list.spoil();
}

// Feeds the job in each splitting, up to the first whose list differs from the expected one. Where no
// difference is told, `found` keeps the list of the last splitting.
pub fn compared(
    job: &[u8],
    window: u32,
    seed: u32,
    splittings: u32,
    expected: &[usize],
    found: &mut [usize],
) -> Option<usize>
    ensures { result ≡ None → 1 ≤ splittings → Same expected.now found.new }
{
    let mut random = seed;
    for _ in 0..splittings {
        random = random::next(random);
        chunks(job, window, random, found);
        if let Some(place) = difference::first_difference(expected, found) {
            return Some(place);
        }
    }
    None
}
