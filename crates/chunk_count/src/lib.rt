// The number of chunks of a job, with which a window is chosen and the chunker is measured from
// outside.
#![tactic(auto)]

ghost use Rattle.std.specs.Prelude.{◌≡◌};
ghost use Rattle.chunk_count.specs.ChunkCount.{chunk_count};

// The number of chunks of a job, one feed for each chunk; 0 where the window is refused, since C gets one number. After a cut the
// scanner is fresh, so each is the feed of a fresh one.
#[unsafe(no_mangle)]
pub extern "C" fn hirunvel_chunk_count(window: u32, job: &[u8]) -> u64
    ensures { result ≡ chunk_count window job.now }
{
    if !chunker::window_allowed(window) {
        return 0;
    }
    let mut n: u64 = 0;
    let mut rest = job;
    while !rest.is_empty() {
        let fed = chunker::feed_fresh(window, rest);
        rest = &rest[fed.consumed..];
        n += 1;
    }
    n
}
