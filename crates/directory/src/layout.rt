// How the entries of a directory are laid out in the pool.
ghost use Rattle.std.specs.Prelude.{◌≡◌, ◌+◌, ◌*◌, ◌^◌, ◌<◌, ◌≤◌, length};
ghost use Rattle.directory.specs.Entry.{stride, offset_at, length_at, entries};
ghost use Rattle.directory.specs.Layout.{entry_allowed, laid_out};

// Whether an entry starts at `from`, and its length is 1 to `longest`. One less than length 0 wraps around to
// the largest number, so that one comparison tests both bounds: with two the test takes 1.2 times as long.
fn entry_allowed(directory: &[u32], entry: usize, from: u64, longest: u64) -> bool
    requires { entry * stride + 1 < length directory.now }
    ensures { result ≡ entry_allowed (offset_at directory.now entry) (length_at directory.now entry) from longest }
{
    let offset = crate::offset_of(directory, entry);
    let length = crate::length_of(directory, entry) as u64;
    u64::from(offset.0) == from && length.wrapping_sub(1) < longest
}

// Whether each of the first `count` entries starts where the last ended, with an allowed length, and the
// last ends at `end`. Ends are summed in 64 bits, since a forged directory holds any numbers.
pub fn laid_out(window: u32, directory: &[u32], count: usize, end: u64) -> bool
    requires count_bound { count ≤ entries directory.now }
    requires count_bound_2 { count < 2 ^ 32 }
    ensures { result ≡ laid_out window directory.now 0 0 end count }
{
    let longest = 256 * u64::from(window) + 1;
    let mut from: u64 = 0;
    for entry in 0..count {
        if !entry_allowed(directory, entry, from, longest) {
            return false;
        }
        from += crate::length_of(directory, entry) as u64;
    }
    from == end
}
