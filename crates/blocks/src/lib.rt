// The first of the largest bytes of a stretch: the layer below the scan. A window of n to 2n bytes is looked at as two
// overlapping blocks of n, the first from `from` on and the second from `last` on.
#![tactic(auto)]

ghost use Rattle.std.specs.Prelude.{◌≡◌, ◌+◌, ◌/◌, ◌%◌, ◌-◌, ◌^◌, max, ◌≤◌, ◌<◌, length, drop, fold};
ghost use Rattle.blocks.specs.internal.Largest.{Stands, FirstAt, AnyLarger, FirstLargest};
ghost use Rattle.blocks.specs.internal.Key.{key_of, key_limit};

// A byte that is the largest so far: the index after it, and its value.
#[derive(Clone, Copy)]
pub struct Peak {
    pub after: usize,
    pub value: u8,
}

// A key is (255 - byte) * PLACES + place, so the least key of a window is that of the first of its largest bytes.
const PLACES: u16 = 64;

const KEY_LIMIT: u16 = 256 * PLACES;

// The key of a byte at a place of a window. Its sum has no term that is 0 at the first place, so that the places of a
// block compile to one vector.
fn key(byte: u8, place: u16) -> u16
    requires { place < 64 }
    ensures { result ≡ key_of byte place }
{
    (255 * PLACES + place) - u16::from(byte) * PLACES
}

// The byte and the place of a key, in a window that starts at `from`.
fn peak_of(from: usize, key: u16) -> Peak
    requires key_lt_key_limit { key < key_limit }
    requires from_bound { from + 64 < 2 ^ 64 }
    ensures { result ≡ record { after = from + key % 64 + 1; value = 255 - key / 64 } }
{
    Peak {
        after: from + usize::from(key % PLACES) + 1,
        value: (255 - key / PLACES) as u8,
    }
}

// Whether a byte of a window is larger than the value, by blocks of N.
pub fn any_larger<const N: usize>(part: &[u8], from: usize, last: usize, value: u8) -> bool
    requires from_le_last { from ≤ last }
    requires last_bound { last ≤ from + N }
    requires last_in_bounds { last + N ≤ length part.now }
    ensures { AnyLarger part.now from (last + N) value result }
{
    let mut any = false;
    for i in 0..N {
        if part[from + i].max(part[last + i]) > value {
            any = true;
        }
    }
    any
}

// The first of the largest bytes of a window, by blocks of N.
pub fn first_largest<const N: usize>(part: &[u8], from: usize, last: usize, shift: u16) -> Peak
    requires nonzero { 1 ≤ N }
    requires block_bound { N ≤ 32 }
    requires last_value { last ≡ from + shift }
    requires shift_bound { shift ≤ N }
    requires last_in_bounds { last + N ≤ length part.now }
    ensures { FirstLargest part.now from (last + N) result }
{
    let mut least = KEY_LIMIT;
    for i in 0..N {
        let place = i as u16;
        let one = key(part[from + i], place);
        let two = key(part[last + i], place + shift);
        least = least.min(one.min(two));
    }
    peak_of(from, least)
}

// The largest byte from `from` on, 0 where there is none. By its index: with the library's `fold` a feed takes 32 bytes of stack more.
pub fn largest_from(part: &[u8], from: usize) -> u8
    requires { from ≤ length part.now }
    ensures { result ≡ fold max 0 (drop from part.now) }
{
    let mut most = 0;
    for at in from..part.len() {
        most = most.max(part[at]);
    }
    most
}

// The first index from `from` on at which `byte` stands. It is proved to be there, so the end of the part is not tested:
// with a `for`, which tests it, a feed of parts of 20 rising bytes takes up to 1.3 times as long.
pub fn place_of(part: &[u8], from: usize, byte: u8) -> usize
    requires { Stands part.now from (length part.now) byte }
    ensures { FirstAt part.now from byte result }
{
    let mut at = from;
    while part[at] != byte {
        at += 1;
    }
    at
}
