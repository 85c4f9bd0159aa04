// Groups of pseudo-random jobs, one group to a window.
use crate::random::Kind;
use crate::tally::Tally;
use crate::{feeding, handworked, method, random, tally};

// Memory for the longest job.
const JOB_ROOM: usize = 8192;

// The kind of the job of a number.
fn kind_of(window: u32, number: u32) -> Kind {
    match number % 6 {
        0 => Kind::Drawn { largest: 1 },
        1 => Kind::Drawn { largest: 2 },
        2 => Kind::Drawn { largest: 3 },
        3 => Kind::Drawn { largest: 15 },
        4 => Kind::Drawn { largest: 255 },
        _ => Kind::Rising { rarity: window / 2 },
    }
}

// Makes the job of a number, which gives its kind, length, bytes and splittings, and compares it. A chunk that a
// cut ends has at least two bytes and adds three numbers, so each list has room for any job, of up to 8191 bytes.
fn compared(rt: &impl Print, tally: Tally, window: u32, number: u32) -> Tally {
    let mut room = [0u8; JOB_ROOM];
    let mut expected = [0usize; 16384];
    let mut found = [0usize; 16384];
    let seed = random::next((window << 20) ^ number);
    let length = random::up_to(seed, 8191 >> (number % 7), JOB_ROOM);
    random::fill(&mut room[..length], kind_of(window, number), seed);
    let job = &room[..length];
    method::chunks(job, window as usize, &mut expected);
    let difference = feeding::compared(job, window, seed, 3, &expected, &mut found);
    tally::print_difference(rt, difference);
    tally.counted(expected[0], difference)
}

// Compares the longest chunks of a window and 400 jobs, and prints their line.
pub fn group(rt: &impl Print, window: u32) {
    let mut room = [0u8; chunker::CHUNK_LIMIT as usize];
    let mut tally = handworked::longest_chunks(rt, window, &mut room);
    for number in 0..400 {
        tally = compared(rt, tally, window, number);
    }
    let _ = println!(rt; "window {window}: {tally}");
}
