// Pseudo-random numbers, the same in every run, and jobs made of them. They are plain numbers and no generator with a state: one
// number is at once a job's seed, the draw of its length, and the seed of its splittings.
ghost use Rattle.std.specs.Prelude.{◌≤◌};

// How the bytes of a job are made.
#[derive(Clone, Copy)]
pub enum Kind {
    // Each byte is drawn from 0 to a largest one.
    Drawn { largest: u8 },
    // The bytes rise by one, with 0 after 255, in one case of `rarity` + 1.
    Rising { rarity: u32 },
}

// The number after `seed` by xorshift32; 0 only after 0. The Gear table's rule has the same steps, but no program sees another,
// and the table is no source of random numbers.
pub fn next(seed: u32) -> u32 {
    let a = seed ^ (seed << 13);
    let b = a ^ (a >> 17);
    b ^ (b << 5)
}

// A random number from 0 to `most`, or `room` where that is less.
pub fn up_to(random: u32, most: u32, room: usize) -> usize
    ensures { result ≤ room }
{
    let drawn = random as usize % (most as usize + 1);
    drawn.min(room)
}

// The byte of a job after `before`.
fn next_byte(kind: Kind, before: u8, draw: usize) -> u8 {
    match kind {
        Kind::Drawn { largest } => (draw % (usize::from(largest) + 1)) as u8,
        Kind::Rising { rarity } if draw % (rarity as usize + 1) == 0 => before.wrapping_add(1),
        Kind::Rising { .. } => before,
    }
}

// Fills a job with bytes of a kind. With seed 0 every random number is 0, and a rise is steady: each
// value stands `rarity` + 1 times.
pub fn fill(job: &mut [u8], kind: Kind, seed: u32) {
    let mut random = seed;
    let mut last = 255;
    for (i, byte) in job.iter_mut().enumerate() {
        random = next(random);
        let draw = i.wrapping_add(random as usize);
        last = next_byte(kind, last, draw);
        *byte = last;
    }
}
