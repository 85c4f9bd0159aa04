// The archive for other languages: each function of hirunvel under its C name, with the same contract. A crate is a library or
// a static library, and not both, so this one stands over hirunvel.
#![tactic(auto)]

ghost use Rattle.std.specs.Prelude.{◌≡◌};
ghost use Rattle.hirunvel.specs.Rebuilding.{job_rebuilt};
ghost use Rattle.hirunvel.specs.Scanning.{scanner_opened, scanner_fed, scanner_finished};
ghost use Rattle.hirunvel.specs.Storing.{store_opened, store_quoted, store_taken, store_looked};

// Opens a scanner. Refused by ground 1, with all zeros.
#[unsafe(no_mangle)]
pub extern "C" fn hirunvel_scanner_open(window: u32, scanner: &mut [u32; 4]) -> u32
    ensures { record { refusal = result; scanner = scanner.new } ≡ scanner_opened window }
{
    hirunvel::hirunvel_scanner_open(window, scanner)
}

// Moves the scanner on over a part; tells the bytes consumed, 1 if a cut follows them, and then the place and the value of
// the chunk's maximum point. Refused by grounds 1 and 2, with the scanner untouched and zeros told.
#[unsafe(no_mangle)]
pub extern "C" fn hirunvel_scanner_feed(
    scanner: &mut [u32; 4],
    part: &[u8],
    fed: &mut [u64; 4],
) -> u32
    ensures { record { refusal = result; scanner = scanner.new; fed = fed.new }
        ≡ scanner_fed scanner.old part.now }
{
    hirunvel::hirunvel_scanner_feed(scanner, part, fed)
}

// Ends a job: tells the length of the last chunk, which no cut has ended. Refused by grounds 1 and 2,
// with the scanner untouched and 0 told.
#[unsafe(no_mangle)]
pub extern "C" fn hirunvel_scanner_finish(scanner: &mut [u32; 4], count: &mut u64) -> u32
    ensures { record { refusal = result; scanner = scanner.new; count = count.new }
        ≡ scanner_finished scanner.old }
{
    hirunvel::hirunvel_scanner_finish(scanner, count)
}

// Opens a store. Refused by ground 1, with all zeros.
#[unsafe(no_mangle)]
pub extern "C" fn hirunvel_store_open(window: u32, head: &mut [u32; 3]) -> u32
    ensures { record { refusal = result; head = head.new } ≡ store_opened window }
{
    hirunvel::hirunvel_store_open(window, head)
}

// Quotes a job: tells the recipe's length, the new and the repeated bytes, the cuts of each kind, and the saving, and writes
// only the recipe. Refused by grounds 1, 3 to 8, 11 and 12, with zeros told.
#[unsafe(no_mangle)]
pub extern "C" fn hirunvel_store_quote(
    head: &[u32; 3],
    pool: &[u8],
    directory: &[u32],
    index: &[u32],
    recipe: &mut [u32],
    job: &[u8],
    counts: &mut [u64; 6],
    saving: &mut [i64; 1],
) -> u32
    ensures { record {
      refusal = result;
      recipe = recipe.new;
      counts = counts.new;
      saving = saving.new;
    }
        ≡ store_quoted head.now pool.now directory.now index.now recipe.old job.now }
{
    hirunvel::hirunvel_store_quote(head, pool, directory, index, recipe, job, counts, saving)
}

// Takes a job: tells what its quote tells, and stores its new chunks. Refused by grounds 1, 3 to 8, 11 and 12, with head,
// pool, directory and index untouched and zeros told.
#[unsafe(no_mangle)]
pub extern "C" fn hirunvel_store_take(
    head: &mut [u32; 3],
    pool: &mut [u8],
    directory: &mut [u32],
    index: &mut [u32],
    recipe: &mut [u32],
    job: &[u8],
    counts: &mut [u64; 6],
    saving: &mut [i64; 1],
) -> u32
    ensures { record {
      refusal = result;
      head = head.new;
      pool = pool.new;
      directory = directory.new;
      index = index.new;
      recipe = recipe.new;
      counts = counts.new;
      saving = saving.new;
    }
        ≡ store_taken head.old pool.old directory.old index.old recipe.old job.now }
{
    hirunvel::hirunvel_store_take(head, pool, directory, index, recipe, job, counts, saving)
}

// Tells a chunk's offset in the pool and its length. Refused by grounds 1, 4, 5 and 9, with zeros
// told.
#[unsafe(no_mangle)]
pub extern "C" fn hirunvel_store_look(
    head: &[u32; 3],
    pool: &[u8],
    directory: &[u32],
    number: u32,
    stretch: &mut [u64; 2],
) -> u32
    ensures { record { refusal = result; stretch = stretch.new }
        ≡ store_looked head.now pool.now directory.now number }
{
    hirunvel::hirunvel_store_look(head, pool, directory, number, stretch)
}

// Writes the chunks that a recipe names to the output and tells how many bytes they are. Refused by
// grounds 1, 4, 5, 9 and 10, with the output untouched and 0 told.
#[unsafe(no_mangle)]
pub extern "C" fn hirunvel_rebuild(
    head: &[u32; 3],
    pool: &[u8],
    directory: &[u32],
    recipe: &[u32],
    output: &mut [u8],
    written: &mut [u64; 1],
) -> u32
    ensures { record { refusal = result; output = output.new; written = written.new }
        ≡ job_rebuilt head.now pool.now directory.now recipe.now output.old }
{
    hirunvel::hirunvel_rebuild(head, pool, directory, recipe, output, written)
}
