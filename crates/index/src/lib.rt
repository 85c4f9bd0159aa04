// The index of a store: chains of chunk numbers by the chunks' Gear sums. The layer below search and storing.
#![tactic(auto)]

ghost use Rattle.std.specs.Prelude.{◌≡◌, true, [], ◌∷◌, ◌+◌, ◌≤◌, ◌<◌, length, set};
ghost use Rattle.std.specs.Result.{result_err};
ghost use Rattle.refusal.specs.Grounds.{first};
ghost use Rattle.gear.specs.Gear.{chains};
ghost use Rattle.store.specs.Grounds.{fits};
ghost use Rattle.store.specs.Limits.{directory_limit};
ghost use Rattle.store.specs.Memory.{contents};
ghost use Rattle.index.specs.Index.{head_at};
ghost use Rattle.index.specs.Grounds.{length_allowed, meets, index_length_ground, index_ground};

mod chains;
mod order;

use refusal::Refusal;
use store::{ChunkNumber, Head};

// The heads of the chains, which come before the links.
pub const HEADS: usize = gear::CHAINS;

// The end of a chain.
pub const NONE: u32 = 4294967295;

// Whether the index has a head for each chain and a link for each entry of the directory (ground 11).
fn length_allowed(directory: &[u32], index: &[u32]) -> bool
    ensures { result ≡ length_allowed directory.now index.now }
{
    index.len() == HEADS + directory::entries(directory)
}

// Whether the chains meet every chunk of the store (ground 12). The pass in order is the quicker test, and accepts what
// takes leave; the steps along the chains decide of any other index.
fn meets(head: Head, pool: &[u8], directory: &[u32], index: &[u32]) -> bool
    requires directory_value { fits head pool.now directory.now ≡ true }
    requires directory_len_bound { length directory.now ≤ directory_limit }
    requires allowed { length_allowed directory.now index.now ≡ true }
    ensures { result ≡ meets index.now (contents pool.now directory.now head.chunks.0) }
{
    order::ordered(head, pool, directory, index)
        || chains::along_all(pool, directory, index, head.chunks.0 as usize)
}

// The first of the grounds 11 and 12 that holds of an index, if any.
pub fn index_ground(
    head: Head,
    pool: &[u8],
    directory: &[u32],
    index: &[u32],
) -> Result<(), Refusal>
    requires directory_value { fits head pool.now directory.now ≡ true }
    requires directory_len_bound { length directory.now ≤ directory_limit }
    ensures { result_err result ≡ first
        (index_length_ground directory.now index.now
        ∷ index_ground index.now (contents pool.now directory.now head.chunks.0)
        ∷ []) }
{
    refusal::unless(length_allowed(directory, index), Refusal::IndexLength)?;
    refusal::unless(meets(head, pool, directory, index), Refusal::Index)
}

// Enters a number at the front of a chain.
pub fn enter(index: &mut [u32], number: ChunkNumber, chain: usize)
    requires chain_lt_chains { chain < chains }
    requires number_in_bounds { chains + number.0 < length index.old }
    ensures { index.new
        ≡ set (set index.old (chains + number.0) (head_at index.old chain)) chain number.0 }
{
    let first = index[chain];
    index[HEADS + number.0 as usize] = first;
    index[chain] = number.0;
}
