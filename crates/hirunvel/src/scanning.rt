// The scanner over numbers.
ghost use Rattle.std.specs.Prelude.{◌≡◌, get_or};
ghost use Rattle.hirunvel.specs.Scanning.{scanner_opened, scanner_fed, scanner_finished};
ghost use Rattle.hirunvel.specs.internal.Fresh.{handed_over};

use numbers::{FedNumbers, ScannerNumbers};
use scan::{Fed, Scanner};

// Opens a scanner. Refused by ground 1, with all zeros.
pub fn hirunvel_scanner_open(window: u32, scanner: &mut [u32; 4]) -> u32
    ensures { record { refusal = result; scanner = scanner.new } ≡ scanner_opened window }
{
    let answer = chunker::open(window);
    ScannerNumbers(*scanner) = answer.scanner.into();
    numbers::of_refusal(answer.refusal)
}

// Moves the scanner on over a part; tells the bytes consumed, 1 if a cut follows them, and then the place and the value of
// the chunk's maximum point. Refused by grounds 1 and 2, with the scanner untouched and zeros told. Fed once per chunk, a
// scanner is fresh at each call: a small window then takes a fast path, byte by byte. What is refused or empty goes the
// other way, and the part is lent on as a slice of its own, so that the fast path needs few registers.
pub fn hirunvel_scanner_feed(scanner: &mut [u32; 4], part: &[u8], fed: &mut [u64; 4]) -> u32
    ensures { record { refusal = result; scanner = scanner.new; fed = fed.new }
        ≡ scanner_fed scanner.old part.now }
{
    let lent = *scanner;
    if lent[0] < 1 || 8 <= lent[0] || part.is_empty() {
        return feed_general(scanner, &part[0..], fed);
    }
    if !ScannerNumbers(lent).untouched() {
        return feed_general(scanner, &part[0..], fed);
    }
    hand_over(scan::from_start(lent[0], part), scanner, fed)
}

// The same for any scanner. Called from two places so that it is not inlined; the fast path then saves no
// registers. Scanner, part and fed are C's parameters and go on as they are: a struct of them would be made for each
// call only to be taken apart in the next function.
fn feed_general(scanner: &mut [u32; 4], part: &[u8], fed: &mut [u64; 4]) -> u32
    ensures { record { refusal = result; scanner = scanner.new; fed = fed.new }
        ≡ scanner_fed scanner.old part.now }
{
    let lent = *scanner;
    if lent[1] == 0 {
        return feed_start(scanner, part, fed);
    }
    match Scanner::try_from(ScannerNumbers(lent)) {
        Ok(read) => {
            let answer = chunker::feed(read, part);
            FedNumbers(*fed) = answer.into();
            if answer.refusal.is_none() {
                ScannerNumbers(*scanner) = answer.scanner.into();
            }
            numbers::of_refusal(answer.refusal)
        }
        Err(ground) => {
            *fed = [0; 4];
            numbers::of_refusal(Some(ground))
        }
    }
}

// The same for a scanner whose count is 0: it is fresh, or not sound. Apart from feed_general, which then knows of a
// count: with one test of all three numbers there, parts of one byte took 1.03 to 1.06 times as long.
fn feed_start(scanner: &mut [u32; 4], part: &[u8], fed: &mut [u64; 4]) -> u32
    requires { get_or scanner.old 1 0 ≡ 0 }
    ensures { record { refusal = result; scanner = scanner.new; fed = fed.new }
        ≡ scanner_fed scanner.old part.now }
{
    let lent = *scanner;
    if ScannerNumbers(lent).untouched() {
        return hand_over(chunker::feed_fresh(lent[0], part), scanner, fed);
    }
    *fed = [0; 4];
    numbers::of_refusal(Some(numbers::unsound(lent[0])))
}

// Hands over the answer of a fresh scanner's feed. After a cut the scanner is fresh again, so its numbers stay.
fn hand_over(answer: Fed, scanner: &mut [u32; 4], fed: &mut [u64; 4]) -> u32
    ensures { record { refusal = result; scanner = scanner.new; fed = fed.new }
        ≡ handed_over answer scanner.old }
{
    FedNumbers(*fed) = answer.into();
    if !answer.cut {
        ScannerNumbers(*scanner) = answer.scanner.into();
    }
    numbers::of_refusal(answer.refusal)
}

// Ends a job: tells the length of the last chunk, which no cut has ended. Refused by grounds 1 and 2,
// with the scanner untouched and 0 told.
pub fn hirunvel_scanner_finish(scanner: &mut [u32; 4], count: &mut u64) -> u32
    ensures { record { refusal = result; scanner = scanner.new; count = count.new }
        ≡ scanner_finished scanner.old }
{
    match Scanner::try_from(ScannerNumbers(*scanner)) {
        Ok(read) => {
            let answer = chunker::finish(read);
            *count = u64::from(answer.count);
            if answer.refusal.is_none() {
                ScannerNumbers(*scanner) = answer.scanner.into();
            }
            numbers::of_refusal(answer.refusal)
        }
        Err(ground) => {
            *count = 0;
            numbers::of_refusal(Some(ground))
        }
    }
}
