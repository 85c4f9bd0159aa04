// The grounds on which a scanner is turned away.
ghost use Rattle.std.specs.Prelude.{◌≡◌};
ghost use Rattle.std.specs.Result.{result_err};
ghost use Rattle.chunker.specs.Scanner.{window_allowed, untouched, consistent, scanner_ground};

use crate::{Scanner, WINDOW_LIMIT};
use refusal::Refusal;

// Whether a window is allowed (ground 1).
pub fn window_allowed(window: u32) -> bool
    ensures { result ≡ window_allowed window }
{
    1 <= window && window <= WINDOW_LIMIT
}

// Whether no byte came since the last cut.
fn untouched(scanner: Scanner) -> bool
    ensures { result ≡ untouched scanner }
{
    scanner.count == 0 && scanner.place == 0 && scanner.value == 0
}

// Whether the numbers are those that some feed of at least a byte leaves. Every sum and product is taken
// in 64 bits, since a forged scanner holds any numbers.
fn consistent(scanner: Scanner) -> bool
    ensures { result ≡ consistent scanner }
{
    let place = u64::from(scanner.place);
    let count = u64::from(scanner.count);
    let window = u64::from(scanner.window);
    let value = u64::from(scanner.value);
    1 <= place && place <= count && count < place + window && place <= value * window + 1
}

// The first of the grounds 1 and 2 that holds, if any.
pub fn scanner_ground(scanner: Scanner) -> Result<(), Refusal>
    ensures { result_err result ≡ scanner_ground scanner }
{
    refusal::unless(window_allowed(scanner.window), Refusal::Window)?;
    refusal::unless(untouched(scanner) || consistent(scanner), Refusal::Unsound)
}
