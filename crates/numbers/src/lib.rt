// Scanners, heads and answers as the numbers that C hands in and gets back. The layer below the library for C, which reads
// C's memory as `ScannerNumbers(*scanner)` and writes it by `ScannerNumbers(*scanner) = answer.scanner.into()`.
#![tactic(auto)]

ghost use Rattle.std.specs.Prelude.{◌≡◌};
ghost use Rattle.refusal.specs.Number.{number_of};

mod scanning;
mod stores;

use refusal::Refusal;
pub use scanning::{FedNumbers, ScannerNumbers, unsound};
pub use stores::{Counts, HeadNumbers};

// A refusal's number. A function and no `From`: it is the number alone that is wanted, and a type around it would be taken
// off again at each call.
pub fn of_refusal(refusal: Option<Refusal>) -> u32
    ensures { result ≡ number_of refusal }
{
    u32::from(refusal::number(refusal))
}
