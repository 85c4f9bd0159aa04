// Steps of a whole window: of the w bytes after the largest so far, either none is larger, and the chunk ends with them, or
// the first of their largest is the largest from then on. One unpredictable branch a step.
ghost use Rattle.std.specs.Prelude.{◌*◌, ◌≤◌, length};
ghost use Rattle.scan.specs.Limits.{window_limit};
ghost use Rattle.block_scan.specs.internal.Peaks.{Rising, Settled};

use blocks::Peak;

// From a byte that is the largest so far, up to one that no byte of the window after it exceeds, or whose window reaches
// beyond the part: the index after it.
pub fn settled(window: usize, part: &[u8], after: usize, value: u8) -> usize
    requires le_window { 8 ≤ window }
    requires window_le_window_limit { window ≤ window_limit }
    requires after_in_bounds { after ≤ length part.now }
    ensures { Settled part.now window after value result }
{
    if window <= 16 {
        return settled_by::<8>(window, part, after, value);
    }
    if window <= 32 {
        return settled_by::<16>(window, part, after, value);
    }
    settled_by::<32>(window, part, after, value)
}

// Windows of N to 2N bytes, by blocks of N. The index goes on by what is found: it jumps to the first of the largest bytes.
fn settled_by<const N: usize>(window: usize, part: &[u8], after: usize, value: u8) -> usize
    requires nonzero { 1 ≤ N }
    requires block_bound { N ≤ 32 }
    requires le_window { N ≤ window }
    requires window_bound { window ≤ 2 * N }
    requires after_in_bounds { after ≤ length part.now }
    ensures { Settled part.now window after value result }
{
    let shift = window - N;
    let mut peak = Peak { after, value };
    while peak.after + window <= part.len() {
        let at = peak.after;
        if !blocks::any_larger::<N>(part, at, at + shift, peak.value) {
            return at;
        }
        peak = blocks::first_largest::<N>(part, at, at + shift, shift as u16);
        if peak.after == at + window {
            peak = while_larger(part, peak);
        }
    }
    peak.after
}

// Passes bytes that are each larger than the largest so far. While bytes keep rising, another window would gain nothing.
fn while_larger(part: &[u8], peak: Peak) -> Peak
    requires { peak.after ≤ length part.now }
    ensures { Rising part.now peak.after peak.value result.after result.value }
{
    let mut peak = peak;
    for at in peak.after..part.len() {
        let byte = part[at];
        if byte <= peak.value {
            return peak;
        }
        peak = Peak {
            after: at + 1,
            value: byte,
        };
    }
    peak
}
