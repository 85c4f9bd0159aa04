// Lists standard input: takes it as a job into a fresh store, and prints one frame per line. Input that cannot be read is an
// empty job, after a message.
#![tactic(auto)]

ghost use Rattle.std.specs.Prelude.{◌≤◌, length, IfOk};

use listing_frames::OUTPUT_BYTES;
use refusal::Refusal;
use std::io::{Error, Input, Read};

// One byte over the limit, so that a longer input is noticed.
const INPUT_BYTES: usize = listing_frames::LONGEST_JOB + 1;

// Reads until the input ends or the buffer is full, and tells how many bytes came. A read may bring fewer bytes than asked; the
// library's `read_exact` makes an early end an error, and its `read_to_end` needs a heap.
fn read_job(rt: &impl Input, job: &mut [u8]) -> Result<usize, Error>
    ensures { IfOk result (λ count. count ≤ length job.new) }
{
    let mut input = rt.reader();
    let mut have = 0;
    while have < job.len() {
        match input.read(&mut job[have..])? {
            0 => break,
            count => have += count,
        }
    }
    Ok(have)
}

// Writes frames to standard output, with a message on standard error if that fails.
fn print(rt: &(impl Print + Eprint), frames: &[u8]) {
    if let Err(error) = rt.write_all(frames) {
        let _ = eprintln!(rt; "listing: standard output: {error}");
    }
}

// Writes a sentence to standard error.
fn say(rt: &impl Eprint, sentence: &str) {
    let _ = rt.eprintln(sentence);
}

// Says on standard error by which ground a job is refused; nothing for an accepted job.
fn tell_refusal(rt: &impl Eprint, refusal: Option<Refusal>) {
    let sentence = match refusal {
        None => return,
        Some(Refusal::JobLength) => {
            "listing: refused by ground 3: the job is empty or longer than 16,384 bytes"
        }
        Some(Refusal::RecipeFull) =>
            "listing: refused by ground 6: the job has more than 1,024 chunks",
        Some(Refusal::DirectoryFull) => {
            "listing: refused by ground 7: the job has more than 1,024 different chunks"
        }
        Some(Refusal::PoolFull) => "listing: refused by ground 8: the pool of 32,768 bytes is full",
        Some(_) => "listing: the job is refused",
    };
    say(rt, sentence);
}

fn main(rt: HostRuntime) {
    let mut job = [0u8; INPUT_BYTES];
    let job_length = match read_job(&rt, &mut job) {
        Ok(length) => length,
        Err(error) => {
            let _ = eprintln!(rt; "listing: standard input: {error}");
            0
        }
    };
    let mut output = [0u8; OUTPUT_BYTES];
    let listed = listing_frames::frames(&job[..job_length], &mut output);
    print(&rt, &output[..listed.written]);
    tell_refusal(&rt, listed.refusal);
}
