// A scanner and the answer of a feed as numbers.
ghost use Rattle.std.specs.Prelude.{◌≡◌, true, Some, get_or};
ghost use Rattle.scan.specs.Scanner.{fresh};
ghost use Rattle.chunker.specs.Scanner.{untouched};
ghost use Rattle.numbers.specs.Scanning.{numbers_of, scanner_of, Reads, unsound_ground, told};

use chunker::{Fed, Scanner};
use refusal::Refusal;

// A scanner's window, count, place and value.
#[derive(Clone, Copy)]
pub struct ScannerNumbers(pub [u32; 4]);

// The bytes that a feed consumed, 1 if a cut follows them, and the place and the value of the chunk's maximum point.
#[derive(Clone, Copy)]
pub struct FedNumbers(pub [u64; 4]);

impl ScannerNumbers {
    // Whether no byte came since the last cut, so that the numbers are those of a fresh scanner.
    #[tactic(auto, unfolding(chunker::specs::Scanner::untouched))]
    pub fn untouched(self) -> bool
        ensures value { result ≡ untouched (scanner_of self.0) }
        ensures numbers_value { result ≡ true → self.0 ≡ numbers_of (fresh (get_or self.0 0 0)) }
    {
        matches!(self.0, [_, 0, 0, 0])
    }
}

// The numbers of a scanner.
impl From<Scanner> for ScannerNumbers {
    ghost from_gives = { λ scanner numbers. numbers.0 ≡ numbers_of scanner };

    fn from(scanner: Scanner) -> ScannerNumbers {
        ScannerNumbers([
            scanner.window,
            scanner.count,
            scanner.place,
            u32::from(scanner.value),
        ])
    }
}

// The scanner of four numbers, of which the last is to be a byte. Refused by grounds 1 and 2 where it is none.
impl TryFrom<ScannerNumbers> for Scanner {
    type Error = Refusal;

    ghost try_from_gives = { λ numbers r. Reads numbers.0 r };

    fn try_from(numbers: ScannerNumbers) -> Result<Scanner, Refusal> {
        let [window, count, place, value] = numbers.0;
        let Ok(value) = u8::try_from(value) else {
            return Err(unsound(window));
        };
        Ok(Scanner {
            window,
            count,
            place,
            value,
        })
    }
}

// The ground for a scanner that is not sound: the first of 1 and 2.
pub fn unsound(window: u32) -> Refusal
    ensures { Some result ≡ unsound_ground window }
{
    if chunker::window_allowed(window) {
        Refusal::Unsound
    } else {
        Refusal::Window
    }
}

// The numbers of a feed's answer.
impl From<Fed> for FedNumbers {
    ghost from_gives = { λ fed numbers. numbers.0 ≡ told fed };

    fn from(fed: Fed) -> FedNumbers {
        FedNumbers([
            fed.consumed as u64,
            u64::from(fed.cut),
            u64::from(fed.place),
            u64::from(fed.value),
        ])
    }
}
