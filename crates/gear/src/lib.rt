// The Gear sum of bytes, by a constant table, and the chain that it chooses.
#![tactic(auto)]

ghost use Rattle.std.specs.Prelude.{◌≡◌, ◌+◌, ◌-◌, ◌*◌, ◌/◌, ◌%◌, ◌^◌, ◌<◌, ◌≤◌, length, take, drop, slice_index};
ghost use Rattle.gear.specs.Gear.{table, sum, chain};
ghost use Rattle.gear.specs.internal.After.{after_sum};

// The chains of an index: one for each number of ten bits.
pub const CHAINS: usize = 1024;

// The constant table, one entry for each byte. Entry 0 is 270369; three xorshift steps make each next entry from the last.
// A static is never written, and is read where it lies; a `const` would be copied at each use.
static TABLE: [u32; 256] = [
    270369, 67634689, 2647435461, 307599695, 2398689233, 745495504, 632435482, 435756210,
    2005365029, 2916098932, 2657092299, 1495045943, 3031976842, 82049198, 87470069, 3385103793,
    891394312, 3323190024, 321008529, 4283899417, 2383559219, 3822316985, 1391776747, 3652395599,
    44632818, 1562130985, 2440533925, 333695716, 1028688091, 2771657022, 57526103, 3412600852,
    53684993, 2889104680, 1504982240, 975386100, 3475959034, 1149571554, 832402814, 2037229063,
    2013870833, 3048316442, 1210136899, 2384770599, 82514103, 3108354793, 3440058693, 2371448660,
    3066322605, 2670584965, 1410858555, 3519656371, 403434444, 3409541077, 1572275124, 100300756,
    723163348, 2013576788, 369590227, 3327198861, 916089965, 434752806, 703511808, 932611783,
    244103520, 2914927536, 3703987156, 3760640330, 2080245229, 3543986636, 3987717774, 1437599121,
    4114869520, 2496955744, 2338876636, 1485200133, 4012960822, 2759653581, 1473112735, 3109127632,
    3029591429, 3427210004, 3935634630, 196204992, 565309700, 3988694860, 330319623, 1900412751,
    455310137, 4240982651, 1684823864, 518928221, 3636105407, 3742075081, 1816987584, 1511609050,
    2013754779, 1077905121, 2895916176, 147405559, 3715001020, 386250400, 2616012616, 4269947146,
    2378669755, 3154704339, 4239004650, 1681300641, 1140722032, 3638119192, 3338423141, 3179895053,
    1136589177, 245592337, 1890405233, 3785618832, 2099706136, 3803229018, 212436567, 2953606310,
    3985495722, 3159301574, 2701768093, 1626445376, 353260764, 757258710, 3038542234, 2144056621,
    615260890, 3188811393, 3403740097, 1200588845, 1740906088, 1696915948, 3661279584, 247994891,
    3165054255, 1617268974, 2642346898, 3701661588, 1834195900, 3668345198, 1541652811, 1520215406,
    135351478, 292819669, 4143026946, 1453824010, 293065209, 2186809341, 4149881838, 4140952925,
    2755605728, 381789073, 1958857672, 4205137812, 967516639, 4018998775, 2286589742, 2403890521,
    3179389096, 3137890338, 2005014436, 2611425023, 2976303523, 1644244170, 3029446598, 2890711346,
    3107584999, 1324236901, 1521926548, 3523484182, 2040046613, 3462160792, 260527439, 1089879256,
    1791136430, 712938053, 4278158750, 3351516600, 3944077089, 1875518713, 1106721587, 1957693211,
    4265147250, 3415191801, 2407614481, 1994674512, 1695271383, 2585124399, 467007015, 121229647,
    2669008679, 2614468159, 710880502, 938535382, 1938664147, 472030904, 2973929730, 2402727635,
    1685307013, 1740766676, 1460759753, 730218541, 2482089068, 1777571090, 1902825466, 975629744,
    360927608, 2317466478, 348691656, 3982652256, 3268050439, 743557314, 3162099366, 805618288,
    2702728437, 4199784310, 3189665448, 178372333, 2465991219, 1693851182, 1094859607, 3274952739,
    2680847288, 3340726054, 1972171067, 2664921390, 1336064823, 5160437, 704559021, 510029096,
    2879626729, 3687116070, 2321665238, 3432116299, 2709899751, 261984987, 85142328, 1861712706,
    2993687085, 3582690647, 17288999, 3834198422, 3033043243, 2069490173, 2326475534, 1973037067,
    603019398, 349307446, 3322537980, 2754955879, 2722903995, 3017013542, 1377613053, 1424859452,
];

// A sum after one more byte: twice itself plus the byte's entry, kept to 32 bits.
fn step(sum: u32, b: u8) -> u32
    ensures { result ≡ (sum * 2 + slice_index table b) % 2 ^ 32 }
{
    sum.wrapping_add(sum).wrapping_add(TABLE[b as usize])
}

// The sum of some bytes and eight more, from the sum of each: eight bytes double the first eight times.
fn joined(high: u32, low: u32) -> u32
    ensures { result ≡ (high * 2 ^ 8 + low) % 2 ^ 32 }
{
    (high << 8).wrapping_add(low)
}

// The sum of the 32 bytes before a place. Each step waits for the one before it, so four stretches of
// eight bytes are summed side by side.
fn last_32(bytes: &[u8], end: usize) -> u32
    requires { (32 ≤ end) × (end ≤ length bytes.now) }
    ensures { result ≡ sum (take 32 (drop (end - 32) bytes.now)) }
{
    let mut first: u32 = 0;
    let mut second: u32 = 0;
    let mut third: u32 = 0;
    let mut fourth: u32 = 0;
    for at in end - 32..end - 24 {
        first = step(first, bytes[at]);
        second = step(second, bytes[at + 8]);
        third = step(third, bytes[at + 16]);
        fourth = step(fourth, bytes[at + 24]);
    }
    joined(joined(joined(first, second), third), fourth)
}

// The sum of the bytes before a place. At most the last 32 of them are summed, since no others show: each byte doubles the
// sum, and 32 doublings leave nothing of it in 32 bits.
pub fn sum_to(bytes: &[u8], end: usize) -> u32
    requires { end ≤ length bytes.now }
    ensures { result ≡ sum (take end bytes.now) }
{
    if 32 <= end {
        return last_32(bytes, end);
    }
    let mut sum: u32 = 0;
    for byte in &bytes[..end] {
        sum = step(sum, *byte);
    }
    sum
}

// The sum of the last `size` bytes, from the sum of all of them and the sum of those before.
pub fn without(whole: u32, before: u32, size: usize) -> u32
    ensures { result ≡ after_sum whole before size }
{
    if 32 <= size {
        return whole;
    }
    whole.wrapping_sub(before << size as u32)
}

// The chain that a sum's top ten bits choose.
pub fn chain_of(sum: u32) -> usize
    ensures chain { result ≡ sum / 2 ^ 22 }
    ensures below { result < 1024 }
{
    (sum >> 22) as usize
}

// The chain of some bytes.
pub fn chain(bytes: &[u8]) -> usize
    ensures chain { result ≡ chain bytes.now }
    ensures below { result < 1024 }
{
    chain_of(sum_to(bytes, bytes.len()))
}
