// The tariff of the link: what a recipe costs there, and what a job saves.
#![tactic(auto)]

ghost use Rattle.std.specs.Prelude.{◌≡◌};
ghost use Rattle.tariff.specs.Tariff.{packets, saving_of};

// The bytes of a recipe number on the link.
const NUMBER_BYTES: u64 = 2;

// The bytes of recipe numbers in a full packet.
const PACKET_BYTES: u64 = 64;

// The bytes that a packet is charged at, full or not.
const PACKET_CHARGE: u64 = 72;

// The packets in which recipe numbers travel; the last may be part filled.
pub fn packets(numbers: u32) -> u64
    ensures { result ≡ packets numbers }
{
    (NUMBER_BYTES * u64::from(numbers)).div_ceil(PACKET_BYTES)
}

// The job's length less its new bytes and the charge of the packets; it can be negative.
pub fn saving(job_length: u32, new_bytes: u32, numbers: u32) -> i64
    ensures { result ≡ saving_of job_length new_bytes numbers }
{
    let charged = u64::from(new_bytes) + PACKET_CHARGE * packets(numbers);
    i64::from(job_length) - charged as i64
}
