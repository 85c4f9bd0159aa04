// Rebuilding: a recipe's chunks back as bytes.
#![tactic(auto)]

ghost use Rattle.std.specs.Prelude.{◌≡◌, length};
ghost use Rattle.rebuild.specs.Rebuilding.{rebuilt_bytes, rebuilt};
ghost use Rattle.rebuild.specs.internal.Located.{Located};

mod grounds;

use refusal::Refusal;
use store::Head;

// How many bytes were written, 0 when refused (`rebuilt`), and so beside the refusal.
#[derive(Clone, Copy)]
pub struct Rebuilt {
    pub refusal: Option<Refusal>,
    pub written: u64,
}

// Writes the chunks that a recipe names to the output, one after another. Refused by grounds 1, 4,
// 5, 9 and 10, with the output untouched.
pub fn rebuild(
    head: Head,
    pool: &[u8],
    directory: &[u32],
    recipe: &[u32],
    output: &mut [u8],
) -> Rebuilt
    ensures { record { answer = result; output = output.new }
        ≡ rebuilt head pool.now directory.now recipe.now output.old }
{
    match grounds::rebuild_ground(head, pool, directory, recipe, output) {
        Ok(total) => {
            write_chunks(pool, directory, recipe, &mut output[..total as usize]);
            Rebuilt {
                refusal: None,
                written: total,
            }
        }
        Err(ground) => Rebuilt {
            refusal: Some(ground),
            written: 0,
        },
    }
}

// Writes a recipe's chunks to an output that is as long as they are.
fn write_chunks(pool: &[u8], directory: &[u32], recipe: &[u32], output: &mut [u8])
    requires located { Located pool.now directory.now recipe.now }
    requires output_len { length output.old ≡ length (rebuilt_bytes pool.now directory.now recipe.now) }
    ensures { output.new ≡ rebuilt_bytes pool.now directory.now recipe.now }
{
    let mut at = 0;
    for number in recipe {
        let entry = *number as usize;
        let from = directory::offset_of(directory, entry);
        let size = directory::length_of(directory, entry);
        copying::copy_chunk(output, at, pool, from, size);
        at += size;
    }
}
