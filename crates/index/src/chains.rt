// The test of ground 12 by steps along the chains, for any index.
ghost use Rattle.std.specs.Prelude.{◌≡◌, ◌+◌, ◌≤◌, ◌<◌, length};
ghost use Rattle.gear.specs.Gear.{chains, chain};
ghost use Rattle.store.specs.Memory.{chunk_at, contents};
ghost use Rattle.store.specs.internal.EntriesIn.{EntriesIn};
ghost use Rattle.index.specs.Index.{head_at};
ghost use Rattle.index.specs.Grounds.{meets};
ghost use Rattle.index.specs.Along.{along};
ghost use Rattle.index.specs.Ordered.{no_number};

use crate::{HEADS, NONE};

// The first `count` chunks of a store, and the index whose chains are to meet them.
#[derive(Clone, Copy)]
struct Indexed<'a> {
    pool: &'a [u8],
    directory: &'a [u32],
    index: &'a [u32],
    count: usize,
    ghost entries_in: { EntriesIn pool.now directory.now count },
    ghost long: { chains + count ≤ length index.now },
}

impl<'a> Indexed<'a> {
    // The chain of the chunk that has a number.
    fn chain_at(&self, number: usize) -> usize
        requires { number < self.now.count }
        ensures { result ≡ chain (chunk_at self.now.pool.now self.now.directory.now number) }
    {
        let offset = directory::offset_of(self.directory, number);
        let from = offset.0 as usize;
        let to = from + directory::length_of(self.directory, number);
        gear::chain(&self.pool[from..to])
    }

    // Follows one chain: what is left of a budget of steps, or 0 where a step leads to no chunk of the chain or none is
    // left.
    fn along(&self, chain: usize, budget: u32) -> u32
        requires { chain < chains }
        ensures { result ≡ along self.now.index.now (contents self.now.pool.now self.now.directory.now self.now.count)
            chain budget (head_at self.now.index.now chain) }
    {
        let mut at = self.index[chain];
        for taken in 0..budget {
            if at == NONE {
                return budget - taken;
            }
            let number = at as usize;
            if self.count <= number {
                return 0;
            }
            if self.chain_at(number) != chain {
                return 0;
            }
            at = self.index[HEADS + number];
        }
        0
    }
}

// Whether all chains end, and take as many steps as there are chunks.
pub fn along_all(pool: &[u8], directory: &[u32], index: &[u32], count: usize) -> bool
    requires entries_in { EntriesIn pool.now directory.now count }
    requires count_in_bounds { chains + count ≤ length index.now }
    requires count_le_no_number { count ≤ no_number }
    ensures { result ≡ meets index.now (contents pool.now directory.now count) }
{
    let indexed = Indexed {
        pool,
        directory,
        index,
        count,
    };
    let mut left = count as u32 + 1;
    for chain in 0..HEADS {
        left = indexed.along(chain, left);
    }
    left == 1
}
