// A second AE cutter, written from the two conditions of the customer's scope and from nothing
// else: every place of a chunk is tried from the first on, and for each both conditions are tested
// on the bytes themselves. It keeps nothing from one place to the next.
ghost use Rattle.std.specs.Prelude.{◌+◌, ◌≤◌, length, IfSome};

use crate::list::List;

// Whether the place is a maximum point: its byte is larger than every byte of the chunk before it,
// and not smaller than any of the `window` bytes after it.
fn maximum_point(rest: &[u8], place: usize, window: usize) -> bool
    requires le_place { 1 ≤ place }
    requires window_in_bounds { place + window ≤ length rest.now }
{
    let byte = rest[place - 1];
    rest[..place - 1].iter().all(|before| *before < byte)
        && rest[place..place + window]
            .iter()
            .all(|after| *after <= byte)
}

// The first place that is a maximum point of the chunk that starts with the first byte of `rest`, if there is one.
fn first_maximum_point(rest: &[u8], window: usize) -> Option<usize>
    ensures { IfSome result (λ place. (1 ≤ place) × (place + window ≤ length rest.now)) }
{
    for place in 1..=rest.len() {
        if window <= rest.len() - place && maximum_point(rest, place, window) {
            return Some(place);
        }
    }
    None
}

// Lists the chunks of a job. A cut ends a chunk `window` places after its first maximum point.
pub fn chunks(job: &[u8], window: usize, memory: &mut [usize]) {
    let mut list = List::new(memory);
    let mut rest = job;
    while let Some(place) = first_maximum_point(rest, window) {
        let length = place + window;
        list.add_cut(length, place, rest[place - 1]);
        rest = &rest[length..];
    }
    list.end(rest.len());
}
