// The store over numbers.
ghost use Rattle.std.specs.Prelude.{◌≡◌};
ghost use Rattle.hirunvel.specs.Storing.{store_opened, store_quoted, store_taken, store_looked};

use numbers::{Counts, HeadNumbers};
use store::{ChunkNumber, Head};

// Opens a store. Refused by ground 1, with all zeros.
pub fn hirunvel_store_open(window: u32, head: &mut [u32; 3]) -> u32
    ensures { record { refusal = result; head = head.new } ≡ store_opened window }
{
    let answer = store::open(window);
    HeadNumbers(*head) = answer.head.into();
    numbers::of_refusal(answer.refusal)
}

// Quotes a job: tells the recipe's length, the new and the repeated bytes, the cuts of each kind, and the saving, and writes
// only the recipe. Refused by grounds 1, 3 to 8, 11 and 12, with zeros told.
pub fn hirunvel_store_quote(
    head: &[u32; 3],
    pool: &[u8],
    directory: &[u32],
    index: &[u32],
    recipe: &mut [u32],
    job: &[u8],
    counts: &mut [u64; 6],
    saving: &mut [i64; 1],
) -> u32
    ensures { record {
      refusal = result;
      recipe = recipe.new;
      counts = counts.new;
      saving = saving.new;
    }
        ≡ store_quoted head.now pool.now directory.now index.now recipe.old job.now }
{
    let head = Head::from(HeadNumbers(*head));
    let answer = admission::quote(head, pool, directory, index, recipe, job);
    Counts(*counts) = answer.into();
    *saving = [answer.saving];
    numbers::of_refusal(answer.refusal)
}

// Takes a job: tells what its quote tells, and stores its new chunks. Refused by grounds 1, 3 to 8, 11 and 12, with head,
// pool, directory and index untouched and zeros told.
pub fn hirunvel_store_take(
    head: &mut [u32; 3],
    pool: &mut [u8],
    directory: &mut [u32],
    index: &mut [u32],
    recipe: &mut [u32],
    job: &[u8],
    counts: &mut [u64; 6],
    saving: &mut [i64; 1],
) -> u32
    ensures { record {
      refusal = result;
      head = head.new;
      pool = pool.new;
      directory = directory.new;
      index = index.new;
      recipe = recipe.new;
      counts = counts.new;
      saving = saving.new;
    }
        ≡ store_taken head.old pool.old directory.old index.old recipe.old job.now }
{
    let before = Head::from(HeadNumbers(*head));
    let answer = admission::take(before, pool, directory, index, recipe, job);
    let quoted = answer.quoted;
    Counts(*counts) = quoted.into();
    *saving = [quoted.saving];
    if quoted.refusal.is_none() {
        HeadNumbers(*head) = answer.head.into();
    }
    numbers::of_refusal(quoted.refusal)
}

// Tells a chunk's offset in the pool and its length. Refused by grounds 1, 4, 5 and 9, with zeros
// told.
pub fn hirunvel_store_look(
    head: &[u32; 3],
    pool: &[u8],
    directory: &[u32],
    number: u32,
    stretch: &mut [u64; 2],
) -> u32
    ensures { record { refusal = result; stretch = stretch.new }
        ≡ store_looked head.now pool.now directory.now number }
{
    let head = Head::from(HeadNumbers(*head));
    let number = ChunkNumber(number);
    if let Err(ground) = store::look_ground(head, pool, directory, number) {
        *stretch = [0, 0];
        return numbers::of_refusal(Some(ground));
    }
    let found = store::stretch_of(directory, number);
    *stretch = [u64::from(found.offset.0), u64::from(found.length)];
    numbers::of_refusal(None)
}
