//! Random choices, by integers alone, so that each run of a seed is the same.

ghost use Rattle.std.specs.Prelude.{◌≤◌, ◌*◌};

use rand_core::Rng;
use rand_pcg::Pcg32;

/// One, as a fraction of 16 bits.
pub(crate) const ONE: u64 = 65_536;

/// Random choices.
#[derive(Drop)]
pub(crate) struct Chance(Pcg32);

impl Chance {
    pub(crate) fn new(seed: u64) -> Chance {
        Chance(Pcg32::new(seed, 54))
    }

    /// Returns a number below `count`, or 0 if that is 0.
    pub(crate) fn below(&mut self, count: u64) -> u64 {
        u64::from(self.0.next_u32()).saturating_mul(count & 0xffff_ffff) >> 32
    }

    /// Returns an exponential number of mean 1 / ln 2, as a fraction of 16 bits: the negative binary
    /// logarithm of a uniform number.
    pub(crate) fn halvings(&mut self) -> u64
        ensures { result ≤ 32 * 65536 }
    {
        minus_log2(self.0.next_u32())
    }
}

/// Returns the negative binary logarithm of `(word + 1) / 2^32`, as a fraction of 16 bits, rounded
/// up.
pub(crate) fn minus_log2(word: u32) -> u64
    ensures { result ≤ 32 * 65536 }
{
    let number = u64::from(word).saturating_add(1);
    let whole = u64::from(63u32.saturating_sub(number.leading_zeros().min(63)));
    let mut part = number << 31u64.saturating_sub(whole).min(31);
    if whole == 32 {
        part = number >> 1;
    }
    let mut log = whole.saturating_mul(ONE);
    let mut bit = ONE / 2;
    for _ in 0..16 {
        part = part.saturating_mul(part) >> 31;
        if part >= 1 << 32 {
            part >>= 1;
            log = log.saturating_add(bit);
        }
        bit /= 2;
    }
    (32 * ONE).saturating_sub(log)
}

/// The powers of two with the exponents 1/2, 1/4, .. 1/65536, as fractions of 31 bits.
static ROOTS: [u64; 16] = [
    3_037_000_500,
    2_553_802_834,
    2_341_847_524,
    2_242_560_872,
    2_194_507_417,
    2_170_868_212,
    2_159_144_272,
    2_153_306_067,
    2_150_392_887,
    2_148_937_775,
    2_148_210_589,
    2_147_847_087,
    2_147_665_360,
    2_147_574_502,
    2_147_529_075,
    2_147_506_361,
];

/// Returns a number times two to the power of a fraction of 16 bits. A power above 2^20 counts as
/// 2^20.
pub(crate) fn times_power(number: u64, exponent: u64) -> u64 {
    let exponent = exponent.min(20 * ONE);
    let mut part = 1u64 << 31;
    let mut bit = ONE / 2;
    for root in ROOTS.iter() {
        if exponent & bit != 0 {
            part = part.saturating_mul(*root) >> 31;
        }
        bit /= 2;
    }
    let scaled = number.saturating_mul(part) >> 31;
    scaled.saturating_mul(1u64 << (exponent / ONE).min(20))
}
