// The jobs that the customer's scope and the readings of it work by hand.
use crate::random::Kind;
use crate::tally::Tally;
use crate::{feeding, method, random, tally};

// Compares both cutters with the list that is stated of a job. No list here has more than 16 numbers.
fn stated(rt: &impl Print, tally: Tally, window: u32, job: &[u8], expected: &[usize]) -> Tally {
    let mut found = [0usize; 17];
    method::chunks(job, window as usize, &mut found);
    let count = found[0];
    let cutter = difference::first_difference(expected, &found);
    let scanner = feeding::compared(job, window, 1, 64, expected, &mut found);
    tally::print_difference(rt, cutter);
    tally::print_difference(rt, scanner);
    tally.counted(count, cutter).counted(count, scanner)
}

// Compares twelve bytes 41, the empty job, a job that tells whether the largest byte is carried across a cut, and equal bytes
// behind different beginnings.
fn short_jobs(rt: &impl Print) -> Tally {
    let jobs: [(u32, &[u8], &[usize]); 7] = [
        (4, b"AAAAAAAAAAAA", &[7, 5, 1, 0x41, 5, 1, 0x41, 2]),
        (3, b"", &[1, 0]),
        (
            2,
            b"\x05\x01\x01\x01\x02\x01\x01\x01",
            &[7, 3, 1, 5, 4, 2, 2, 1],
        ),
        (
            2,
            b"\x05\x05\x05\x05\x05\x05\x05\x05",
            &[7, 3, 1, 5, 3, 1, 5, 2],
        ),
        (
            2,
            b"\x09\x05\x05\x05\x05\x05\x05\x05\x05",
            &[10, 3, 1, 9, 3, 1, 5, 3, 1, 5, 0],
        ),
        (
            2,
            b"\x09\x09\x05\x05\x05\x05\x05\x05\x05\x05",
            &[10, 3, 1, 9, 3, 1, 5, 3, 1, 5, 1],
        ),
        (
            2,
            b"\x01\x05\x05\x05\x05\x05\x05\x05\x05",
            &[7, 4, 2, 5, 3, 1, 5, 2],
        ),
    ];
    let mut tally = Tally::default();
    for (window, job, list) in jobs {
        tally = stated(rt, tally, window, job, list);
    }
    tally
}

// The longest chunks of a window, where there is room for them: the 256 values in order, each
// `window` times, give no cut, and a cut after one byte more, FF again. The first FF is then the maximum point.
pub fn longest_chunks(rt: &impl Print, window: u32, job: &mut [u8]) -> Tally {
    let whole = 256 * window as usize;
    if job.len() <= whole {
        return Tally::default();
    }
    let rarity = window.wrapping_sub(1);
    random::fill(job, Kind::Rising { rarity }, 0);
    job[whole] = 255;
    let uncut = stated(rt, Tally::default(), window, &job[..whole], &[1, whole]);
    let first = 255 * window as usize + 1;
    stated(
        rt,
        uncut,
        window,
        &job[..whole + 1],
        &[4, whole + 1, first, 255, 0],
    )
}

// Compares every job that is worked by hand, and prints their line.
pub fn worked(rt: &impl Print) {
    let tally = short_jobs(rt);
    let _ = println!(rt; "worked by hand: {tally}");
}
