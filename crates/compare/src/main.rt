// Compares the scanner with a second AE cutter that is written from the paper's two conditions: the
// lengths of the chunks, and the places and the values of their maximum points. The jobs are those that
// the papers work by hand and some thousands of pseudo-random ones, each fed to the scanner in random
// splittings.
#![tactic(auto)]

mod feeding;
mod generated;
mod handworked;
mod list;
mod method;
mod random;
mod tally;

// The windows compared are 1 to 17, 31 to 33, 48, 63 and 64. The scanner scans byte by byte below 8, and by blocks of 8, 16 and
// 32 bytes up to 16, 32 and 64.
fn main(rt: HostRuntime) {
    handworked::worked(&rt);
    for window in (1..=17).chain(31..=33).chain([48, 63, 64]) {
        generated::group(&rt, window);
    }
}
