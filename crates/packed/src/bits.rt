// Reading the bits and fields of a file.
ghost use Rattle.std.specs.Prelude.{◌≡◌, ◌+◌, ◌*◌, ◌^◌, ◌<◌, ◌≤◌, length, vec_len, IfOk};
ghost use Rattle.packed.specs.declared.bits.TheConstants.{MOST_BYTES};
ghost use Rattle.packed.specs.Bits.{bit, field, field_at, Moves};
ghost use Rattle.packed.specs.Numbers.{digits_write};

use crate::BitFault;

// The most bytes that a file may have, and the most bits.
pub(crate) const MOST_BYTES: usize = 65536;

pub(crate) const MOST_BITS: usize = 8 * MOST_BYTES;

// Bit k, the most significant of each byte first; 0 past the end.
#[tactic(auto, unfolding(crate::specs::Bits::bit))]
pub(crate) fn bit_at(bytes: &[u8], k: usize) -> u8
    ensures { result ≡ bit bytes.now k }
{
    bytes.get(k / 8).map_or(0, |byte| (byte >> (7 - k % 8)) % 2)
}

// The number that `width` bits from `at` on write. A loop: the step of a fold is proved for every
// number, and not every number can be doubled.
#[tactic(auto, using(crate::proofs::Numbers::fields_are_numbers))]
fn number_at(bytes: &[u8], at: usize, width: usize) -> u64
    requires small { width ≤ 64 }
    requires inside { at + width ≤ 8 * length bytes.now }
    requires short { length bytes.now ≤ MOST_BYTES }
    ensures value { result ≡ field bytes.now at width }
    ensures number { result ≡ digits_write bytes.now at width }
{
    let mut number = 0;
    for k in at..at + width {
        number = 2 * number + u64::from(bit_at(bytes, k));
    }
    number
}

// A place in a file, from which its fields are read one after the other.
#[derive(Drop)]
pub(crate) struct BitReader<'a> {
    pub bytes: &'a [u8],
    pub at: usize,
}

impl BitReader<'_> {
    // The next field of `width` bits; the place moves past it.
    #[tactic(auto, using(crate::proofs::Fields::field_below), unfolding(crate::specs::Bits::field_at))]
    pub(crate) fn field(&mut self, width: usize) -> Result<u64, BitFault>
        requires { width ≤ 64 }
        ensures value { result ≡ field_at self.old.bytes.now self.old.at width }
        ensures moves { Moves self.old width result self.new }
        ensures inside { IfOk result (λ n. (length self.old.bytes.now ≤ MOST_BYTES) × (self.new.at ≤ 8 * length self.old.bytes.now) × (n < 2 ^ width)) }
        ensures number { IfOk result (λ n. n ≡ digits_write self.old.bytes.now self.old.at width) }
    {
        if self.bytes.len() > MOST_BYTES {
            return Err(BitFault::TooLong);
        }
        let bits = 8 * self.bytes.len();
        if self.at > bits || width > bits - self.at {
            return Err(BitFault::Ends { bit: self.at });
        }
        let number = number_at(self.bytes, self.at, width);
        self.at += width;
        Ok(number)
    }
}

// Bytes of zeros, in which digits are set one after the other.
#[derive(Drop)]
pub(crate) struct BitWriter {
    pub bytes: Vec<u8>,
    pub at: usize,
    ghost short: { vec_len bytes ≤ MOST_BYTES },
}
