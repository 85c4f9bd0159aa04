// A head and the counts of a quote as numbers.
ghost use Rattle.std.specs.Prelude.{◌≡◌};
ghost use Rattle.numbers.specs.Storing.{head_of, head_numbers, counts_of};

use admission::Quoted;
use store::{ChunkNumber, Head, PoolOffset};

// A head's window, chunks and filled.
#[derive(Clone, Copy)]
pub struct HeadNumbers(pub [u32; 3]);

// A quote's recipe length, new bytes and repeated bytes, and its cuts of low, printable and high values.
#[derive(Clone, Copy)]
pub struct Counts(pub [u64; 6]);

// The head of three numbers.
impl From<HeadNumbers> for Head {
    ghost from_gives = { λ numbers head. head ≡ head_of numbers.0 };

    fn from(numbers: HeadNumbers) -> Head {
        let [window, chunks, filled] = numbers.0;
        Head {
            window,
            chunks: ChunkNumber(chunks),
            filled: PoolOffset(filled),
        }
    }
}

// The numbers of a head.
impl From<Head> for HeadNumbers {
    ghost from_gives = { λ head numbers. numbers.0 ≡ head_numbers head };

    fn from(head: Head) -> HeadNumbers {
        HeadNumbers([head.window, head.chunks.0, head.filled.0])
    }
}

// The counts of a quote.
impl From<Quoted> for Counts {
    ghost from_gives = { λ quoted counts. counts.0 ≡ counts_of quoted };

    fn from(quoted: Quoted) -> Counts {
        let cuts = quoted.cuts;
        Counts([
            u64::from(quoted.recipe_length),
            u64::from(quoted.new_bytes),
            u64::from(quoted.repeated_bytes),
            u64::from(cuts.low),
            u64::from(cuts.printable),
            u64::from(cuts.high),
        ])
    }
}
