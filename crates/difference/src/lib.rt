// Where two lists of chunks differ: the comparison of the program `compare`. A list is memory that begins with how many
// numbers follow: for each chunk that a cut ends its length, and the place and the value of its maximum point; then the
// length of the last chunk, 0 where there is none. The definition and the theorem `no_difference` speak of such memory.
#![tactic(auto)]

ghost use Rattle.std.specs.Prelude.{◌≡◌};
ghost use Rattle.difference.specs.Difference.{difference};

// The first place at which two lists differ, counted from 0. A list that its memory does not hold whole is a difference.
pub fn first_difference(expected: &[usize], found: &[usize]) -> Option<usize>
    ensures { result ≡ difference expected.now found.now }
{
    let Some(&count) = expected.first() else {
        return Some(0);
    };
    if expected.len() <= count || found.len() <= count {
        return Some(0);
    }
    expected[..=count]
        .iter()
        .zip(found)
        .position(|(wanted, told)| *wanted != *told)
}
