// Rebuilding over numbers.
ghost use Rattle.std.specs.Prelude.{◌≡◌};
ghost use Rattle.hirunvel.specs.Rebuilding.{job_rebuilt};

use numbers::HeadNumbers;
use store::Head;

// Writes the chunks that a recipe names to the output and tells how many bytes they are. Refused by
// grounds 1, 4, 5, 9 and 10, with the output untouched and 0 told.
pub fn hirunvel_rebuild(
    head: &[u32; 3],
    pool: &[u8],
    directory: &[u32],
    recipe: &[u32],
    output: &mut [u8],
    written: &mut [u64; 1],
) -> u32
    ensures { record { refusal = result; output = output.new; written = written.new }
        ≡ job_rebuilt head.now pool.now directory.now recipe.now output.old }
{
    let head = Head::from(HeadNumbers(*head));
    let answer = rebuild::rebuild(head, pool, directory, recipe, output);
    *written = [answer.written];
    numbers::of_refusal(answer.refusal)
}
