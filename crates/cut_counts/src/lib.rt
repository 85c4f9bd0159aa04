// How many of a job's cuts are due to bytes of each of three kinds, counted chunk by chunk. The layer below the survey.
#![tactic(auto)]

ghost use Rattle.std.specs.Prelude.{◌≡◌, ◌+◌, ◌^◌, ◌<◌};
ghost use Rattle.cut_counts.specs.internal.Counting.{with_chunk};

use chunker::FirstChunk;

// The printable bytes of ASCII.
const FIRST_PRINTABLE: u8 = 0x20;

const LAST_PRINTABLE: u8 = 0x7E;

// The cuts whose maximum point has a value below 20, from 20 to 7E, and above 7E, hexadecimal.
#[derive(Clone, Copy)]
pub struct CutCounts {
    pub low: u32,
    pub printable: u32,
    pub high: u32,
}

// No cut is counted yet. A constant and no `Default`: callers compute with it in their proofs, and need no call.
pub const NONE: CutCounts = CutCounts {
    low: 0,
    printable: 0,
    high: 0,
};

impl CutCounts {
    // The counts with a job's next chunk, which counts only if a cut ends it. The kinds are added without a branch: a job took
    // up to a tenth longer with branches by the value.
    pub fn with_chunk(self, chunk: FirstChunk) -> CutCounts
        requires { self.low + self.printable + self.high + 1 < 2 ^ 32 }
        ensures { result ≡ with_chunk self chunk }
    {
        if !chunk.cut {
            return self;
        }
        let low = u32::from(chunk.value < FIRST_PRINTABLE);
        let high = u32::from(LAST_PRINTABLE < chunk.value);
        CutCounts {
            low: self.low + low,
            printable: self.printable + (1 - low - high),
            high: self.high + high,
        }
    }
}
