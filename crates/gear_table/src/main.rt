// Prints the table of the Gear sum from its rule, one entry per line.
#![tactic(auto)]

ghost use Rattle.std.specs.Prelude.{◌≡◌, ◌<◌};
ghost use Rattle.gear.specs.Gear.{next};
ghost use Rattle.gear_table.specs.Line.{digit_at, line};

// Entry 0 of the table.
const FIRST_ENTRY: u32 = 270369;

// How many entries it has.
const ENTRIES: usize = 256;

// The next entry: the xorshift steps left 13, right 17, left 5. The program `compare` draws its numbers by such steps too; no
// program sees another.
fn next(x: u32) -> u32
    ensures { result ≡ next x }
{
    let a = x ^ (x << 13);
    let b = a ^ (a >> 17);
    b ^ (b << 5)
}

// The character of the hexadecimal digit at a place, counted from 0 at the last.
fn digit_at(entry: u32, place: u32) -> u8
    requires { place < 8 }
    ensures { result ≡ digit_at entry place }
{
    let digits = b"0123456789ABCDEF";
    let value = (entry >> (4 * place)) % 16;
    digits[value as usize]
}

// The line of an entry: eight upper-case hexadecimal digits and a line feed. Written out as its definition is: a loop over the
// places is no plainer, since its invariant has to say the nine bytes one by one, and of `{:08X}` the library's lemmas tell the
// text of a byte alone.
fn line(entry: u32) -> [u8; 9]
    ensures { result ≡ line entry }
{
    [
        digit_at(entry, 7),
        digit_at(entry, 6),
        digit_at(entry, 5),
        digit_at(entry, 4),
        digit_at(entry, 3),
        digit_at(entry, 2),
        digit_at(entry, 1),
        digit_at(entry, 0),
        b'\n',
    ]
}

// Stops with a message on standard error where standard output fails.
fn main(rt: HostRuntime) {
    let mut entry = FIRST_ENTRY;
    for _ in 0..ENTRIES {
        if let Err(error) = rt.write_all(&line(entry)) {
            let _ = eprintln!(rt; "gear_table: standard output: {error}");
            return;
        }
        entry = next(entry);
    }
}
