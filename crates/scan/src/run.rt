// A scan under way over a part, byte by byte.
ghost use Rattle.std.specs.Prelude.{◌≡◌, length, ◌+◌, ◌-◌, ◌^◌, ◌≤◌, ◌<◌};
ghost use Rattle.scan.specs.Scan.{cut_after};
ghost use Rattle.scan.specs.internal.Sound.{Sound};
ghost use Rattle.scan.specs.internal.Order.{InOrder};

use crate::{Fed, Scanner, fresh};

// A scan under way over a part: `base` bytes of the open chunk came before the part, `at` bytes of
// the part are passed, and the chunk ends after `deadline` of them unless a byte larger than
// `value` comes. Its numbers are in order at every step.
#[derive(Clone, Copy)]
pub struct Run<'p> {
    pub part: &'p [u8],
    pub window: usize,
    pub base: usize,
    pub deadline: usize,
    pub value: u8,
    pub at: usize,
    pub ghost order: { InOrder part.now window base deadline value at },
}

// A cut follows `deadline` bytes of a part, before which the open chunk had `base` bytes. The maximum point is the largest byte so
// far.
pub fn cut(window: usize, base: usize, deadline: usize, value: u8) -> Fed
    requires deadline_bound { base + deadline < 2 ^ 32 }
    requires window_bound { window < base + deadline }
    ensures { result ≡ cut_after window deadline (base + deadline - window) value }
{
    Fed {
        refusal: None,
        scanner: fresh(window as u32),
        consumed: deadline,
        cut: true,
        place: (base + deadline - window) as u32,
        value,
    }
}

impl<'p> Run<'p> {
    ghost use Rattle.scan.specs.internal.Run.{rest, uncut_at, cut_at, Further, Begun};

    // The start of a scan. The first byte of a chunk is its largest so far.
    pub fn begun(scanner: Scanner, part: &'p [u8]) -> Self
        requires sound { Sound scanner }
        requires in_bounds { 1 ≤ length part.now }
        ensures { Begun scanner result part.now }
    {
        let window = scanner.window as usize;
        let count = scanner.count as usize;
        if count != 0 {
            return Run {
                part,
                window,
                base: count,
                deadline: scanner.place as usize + window - count,
                value: scanner.value,
                at: 0,
            };
        }
        Run {
            part,
            window,
            base: 0,
            deadline: 1 + window,
            value: part[0],
            at: 1,
        }
    }

    // The part is passed, and no cut follows it.
    pub fn passed(self) -> Fed
        ensures { result ≡ uncut_at self.entry }
    {
        let scanner = Scanner {
            window: self.window as u32,
            count: (self.base + self.at) as u32,
            place: (self.base + self.deadline - self.window) as u32,
            value: self.value,
        };
        Fed::uncut(scanner, self.at)
    }

    // A cut follows the bytes up to the deadline.
    pub fn cut(self) -> Fed
        ensures { result ≡ cut_at self.entry }
    {
        cut(self.window, self.base, self.deadline, self.value)
    }

    // Passes one byte, unless the chunk can end with it. Whether the second byte of a chunk is larger than the
    // first is unpredictable, so this form compiles to a select.
    pub fn pass_one(self) -> Self
        ensures { Further self.entry result }
    {
        let at = self.at;
        let next = at + 1;
        if self.part.len() <= at {
            return self;
        }
        if self.deadline <= next {
            return self;
        }
        let byte = self.part[at];
        let mut value = self.value;
        let mut deadline = self.deadline;
        if byte > value {
            value = byte;
            deadline = next + self.window;
        }
        Run {
            part: self.part,
            window: self.window,
            base: self.base,
            deadline,
            value,
            at: next,
        }
    }

    // Byte by byte, up to the chunk's end or the part's: each byte is compared with the largest, and where it
    // is not larger, its index with that of the byte that ends the chunk.
    pub fn by_bytes(self) -> Fed
        ensures { result ≡ rest self.entry }
    {
        let part = self.part;
        let mut last = self.deadline - 1;
        let mut value = self.value;
        for at in self.at..part.len() {
            let byte = part[at];
            if byte <= value {
                if at == last {
                    return cut(self.window, self.base, at + 1, value);
                }
            } else {
                value = byte;
                last = at + self.window;
            }
        }
        let run = Run {
            part,
            window: self.window,
            base: self.base,
            deadline: last + 1,
            value,
            at: part.len(),
        };
        run.passed()
    }
}
