// The search for a chunk in a store, along the chain of its Gear sum: a layer below admission.
#![tactic(auto)]

ghost use Rattle.std.specs.Prelude.{◌≡◌, true, false, ◌+◌, ◌≤◌, length, take, drop};
ghost use Rattle.gear.specs.Gear.{chains, chain};
ghost use Rattle.store.specs.Contents.{same, number};
ghost use Rattle.store.specs.Memory.{contents};
ghost use Rattle.store.specs.internal.EntriesIn.{EntriesIn};
ghost use Rattle.index.specs.Grounds.{meets};
ghost use Rattle.search.specs.internal.Comparing.{Differs, Agree};

use directory::ChunkNumber;

// The bytes of a block, which are compared at once.
const BLOCK: usize = 16;

// Whether a block of the chunk, from `at` on, is not the one at its place. All bytes are compared, without a branch, so that LLVM
// makes vectors of them: byte by byte the listing's frames of a job that repeats itself take up to 1.4 times as long to make.
fn block_differs(bytes: &[u8], from: usize, chunk: &[u8], at: usize) -> bool
    requires chunk_in_bounds { from + length chunk.now ≤ length bytes.now }
    requires at_in_bounds { at + 16 ≤ length chunk.now }
    ensures differs { result ≡ true → Differs bytes.now from chunk.now (at + 16) }
    ensures agrees { result ≡ false → Agree bytes.now from chunk.now at (at + 16) }
{
    let mut differs = false;
    for index in 0..BLOCK {
        if bytes[from + (at + index)] != chunk[at + index] {
            differs = true;
        }
    }
    differs
}

// Whether the chunk's bytes from `at` on stand at their place, byte by byte.
fn rest_stands(bytes: &[u8], from: usize, chunk: &[u8], at: usize) -> bool
    requires chunk_in_bounds { from + length chunk.now ≤ length bytes.now }
    requires at_in_bounds { at ≤ length chunk.now }
    ensures stands { result ≡ true → Agree bytes.now from chunk.now at (length chunk.now) }
    ensures differs { result ≡ false → Differs bytes.now from chunk.now (length chunk.now) }
{
    for i in at..chunk.len() {
        if bytes[from + i] != chunk[i] {
            return false;
        }
    }
    true
}

// Whether the chunk's bytes stand at a place: its whole blocks, and then what is left of it.
pub fn stands_at(bytes: &[u8], from: usize, chunk: &[u8]) -> bool
    requires { from + length chunk.now ≤ length bytes.now }
    ensures { result ≡ same (take (length chunk.now) (drop from bytes.now)) chunk.now }
{
    let blocks = chunk.len() / BLOCK;
    for block in 0..blocks {
        if block_differs(bytes, from, chunk, block * BLOCK) {
            return false;
        }
    }
    rest_stands(bytes, from, chunk, blocks * BLOCK)
}

// The lowest number of an equal chunk, or the next unused number: by the links of the chunk's own chain, which may
// be in any order. A candidate has the same length, and is dropped at its first unequal byte. The bytes are compared here, and
// not by a call of `stands_at`: the search is to be one labelled loop over entries, with a loop over bytes in it that goes on
// to the next entry. With `zip` in place of its index the search takes up to 1.8 times as long.
pub fn search(
    pool: &[u8],
    directory: &[u32],
    index: &[u32],
    chunks: ChunkNumber,
    own: usize,
    chunk: &[u8],
) -> ChunkNumber
    requires entries_in { EntriesIn pool.now directory.now chunks.0 }
    requires chunks_in_bounds { chains + chunks.0 ≤ length index.now }
    requires chunks_value { meets index.now (contents pool.now directory.now chunks.0) ≡ true }
    requires own_value { own ≡ chain chunk.now }
    ensures { result.0 ≡ number (contents pool.now directory.now chunks.0) chunk.now }
{
    let count = chunks.0;
    let mut next = index[own];
    let mut best = count;
    'entries: for _ in 0..count {
        let number = next;
        if count <= number {
            break 'entries;
        }
        let entry = number as usize;
        next = index[gear::CHAINS + entry];
        if directory::length_of(directory, entry) != chunk.len() {
            continue 'entries;
        }
        let from = directory::offset_of(directory, entry).0 as usize;
        let stored = &pool[from..from + chunk.len()];
        for i in 0..chunk.len() {
            if stored[i] != chunk[i] {
                continue 'entries;
            }
        }
        best = best.min(number);
    }
    ChunkNumber(best)
}
