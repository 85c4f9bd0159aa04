// What a group of jobs came to, and what is printed of it.
ghost use Rattle.std.specs.Prelude.{◌≡◌, ◌+◌, ◌%◌, ◌^◌};
ghost use Rattle.difference.specs.Difference.{differences};

use std::fmt;

// The comparisons, the numbers compared, and the comparisons with a difference.
#[derive(Clone, Copy, Default)]
pub struct Tally {
    pub comparisons: u64,
    pub numbers: u64,
    pub differences: u64,
}

impl Tally {
    // One comparison more.
    pub fn counted(self, numbers: usize, difference: Option<usize>) -> Tally
        ensures { result.differences ≡ (self.differences + differences difference) % 2 ^ 64 }
    {
        Tally {
            comparisons: self.comparisons.wrapping_add(1),
            numbers: self.numbers.wrapping_add(numbers as u64),
            differences: self
                .differences
                .wrapping_add(u64::from(difference.is_some())),
        }
    }
}

impl fmt::Display for Tally {
    fn fmt<W: fmt::Write>(&self, f: &mut fmt::Formatter<W>) -> fmt::Result {
        write!(
            f,
            "comparisons {}, numbers {}, differences {}",
            self.comparisons, self.numbers, self.differences
        )
    }
}

// Prints a difference, above the line of its group; nothing where there is none. Like every line of this program, it is lost
// where standard output fails.
pub fn print_difference(rt: &impl Print, difference: Option<usize>) {
    if let Some(place) = difference {
        let _ = println!(rt; "a difference at place {place} in");
    }
}
