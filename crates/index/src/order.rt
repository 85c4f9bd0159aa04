// One pass over a store's chunks in the order of their numbers, which accepts the index that takes leave.
ghost use Rattle.std.specs.Prelude.{◌≡◌, true, map, ◌+◌, ◌≤◌, length, take};
ghost use Rattle.gear.specs.Gear.{chains};
ghost use Rattle.store.specs.Contents.{same};
ghost use Rattle.store.specs.Grounds.{fits};
ghost use Rattle.store.specs.Memory.{contents};
ghost use Rattle.index.specs.Ordered.{no_number, as_link, ordered};

use crate::{HEADS, NONE};
use store::Head;

// The head of a chain that has no number yet. An array of `NONE` would compile to a call of memset, and the library takes no
// symbol from elsewhere.
const NO_NUMBER: u32 = 65535;

// A head as the index has it.
fn as_link(head: u32) -> u32
    ensures { result ≡ as_link head }
{
    if head == NO_NUMBER { NONE } else { head }
}

// Whether the index begins with these heads. All are compared, without a branch: with a return at the first that differs it
// takes 1.24 times as long by Rattle's compiler, which unrolls the loop, and 3.7 times by LLVM, which makes vectors of it.
fn same_heads(heads: &[u32; HEADS], index: &[u32]) -> bool
    requires { chains ≤ length index.now }
    ensures { result ≡ same (map as_link heads.now) (take chains index.now) }
{
    let mut same = true;
    for chain in 0..HEADS {
        if as_link(heads[chain]) != index[chain] {
            same = false;
        }
    }
    same
}

// Whether each chunk's link is its chain's head so far, which the chunk then becomes, and the heads at the end are the
// index's. A chunk's sum is that of the pool up to its end without that up to its start, so that no loop's length depends on
// the chunk's.
pub fn ordered(head: Head, pool: &[u8], directory: &[u32], index: &[u32]) -> bool
    requires directory_value { fits head pool.now directory.now ≡ true }
    requires chunks_in_bounds { chains + head.chunks.0 ≤ length index.now }
    requires chunks_le_no_number { head.chunks.0 ≤ no_number }
    ensures { result ≡ ordered index.now
        (contents pool.now directory.now head.chunks.0) }
{
    let mut heads = [NO_NUMBER; HEADS];
    let chunks = head.chunks;
    let count = chunks.0 as usize;
    let mut before: u32 = 0;
    let mut end = 0;
    for number in 0..count {
        let size = directory::length_of(directory, number);
        end += size;
        let whole = gear::sum_to(pool, end);
        let chain = gear::chain_of(gear::without(whole, before, size));
        before = whole;
        if index[HEADS + number] != as_link(heads[chain]) {
            return false;
        }
        heads[chain] = number as u32;
    }
    same_heads(&heads, index)
}
