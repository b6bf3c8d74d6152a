//! LEB128 numbers (DWARF 5, section 7.6).

ghost use Rattle.std.specs.Prelude.{◌≡◌, ◌<◌, ◌≤◌, ◌^◌, ◌+◌, length, ℕ, ℤ, IfOk};
ghost use Rattle.sf_bytes.specs.Cursor.{Cursor, cursor, Gives, EndStays};
ghost use Rattle.sf_bytes.specs.Leb.{Uleb, Sleb, leb_sum, leb_signed, run_length, uleb_at, sleb_at};
ghost use Rattle.sf_bytes.specs.Standing.{Stands};

use crate::fault::ByteFault;
use crate::part::Part;

/// The most bytes that a number of 64 bits has.
const MOST_BYTES: usize = 10;

// Returns how many bytes the number at the front has, which is at `place`.
#[inline(always)]
fn number_length(bytes: &[u8], place: u64) -> Result<usize, ByteFault>
    ensures exact { result ≡ run_length place 10 bytes.now }
    ensures within { IfOk result (λ n. n ≤ length bytes.now) }
    ensures some { IfOk result (λ n. 0 < n) }
    ensures most { IfOk result (λ n. n ≤ 10) }
{
    let mut count = 0;
    for byte in bytes {
        if count == MOST_BYTES {
            return Err(ByteFault::Leb(place));
        }
        count += 1;
        if *byte < 128 {
            return Ok(count);
        }
    }
    if count == MOST_BYTES {
        return Err(ByteFault::Leb(place));
    }
    Err(ByteFault::Short(place))
}

// Returns the sum of the low seven bits times the powers of 128.
#[inline(always)]
fn sum_of(run: &[u8]) -> u128
    requires { length run.now ≤ 10 }
    ensures value { result ≡ leb_sum run.now }
    ensures bound { result < 2 ^ 70 }
{
    let mut sum: u128 = 0;
    let mut left = run.len();
    while left > 0 {
        left -= 1;
        sum = sum * 128 + u128::from(run[left] % 128);
    }
    sum
}

// Returns the sum in two's complement of seven bits a byte.
#[inline(always)]
fn signed_sum_of(run: &[u8]) -> i128
    requires some { 0 < length run.now }
    requires most { length run.now ≤ 10 }
    ensures { result ≡ leb_signed run.now }
{
    let sum = sum_of(run).cast_signed();
    if run[run.len() - 1] % 128 > 63 {
        sum - 128u128.pow(run.len() as u32).cast_signed()
    } else {
        sum
    }
}

impl Part<'_> {
    // Reads a number of one byte, as most are, or else of any length.
    #[tactic(auto, using(crate::proofs::ShortLeb::one_byte), unfolding(crate::specs::Leb::uleb_at))]
    #[inline(always)]
    fn read_uleb(&mut self) -> Result<u64, ByteFault>
        ensures exact { Gives (λ x. x) self.old self.new result (uleb_at (cursor self.old)) }
        ensures end { EndStays self.old self.new }
    {
        if let Some((first, rest)) = self.bytes.split_first() {
            if *first < 128 {
                let number = u64::from(*first);
                *self = Part {
                    bytes: rest,
                    place: self.place + 1,
                };
                return Ok(number);
            }
        }
        self.read_long_uleb()
    }

    #[tactic(auto, unfolding(crate::specs::Leb::uleb_at))]
    #[inline(never)]
    fn read_long_uleb(&mut self) -> Result<u64, ByteFault>
        ensures exact { Gives (λ x. x) self.old self.new result (uleb_at (cursor self.old)) }
        ensures end { EndStays self.old self.new }
    {
        let place = self.place;
        let len = number_length(self.bytes, place)?;
        let (run, rest) = self.bytes.split_at(len);
        let sum = sum_of(run);
        if sum > u128::from(u64::MAX) {
            return Err(ByteFault::Leb(place));
        }
        *self = Part {
            bytes: rest,
            place: place + len as u64,
        };
        Ok(sum as u64)
    }

    #[tactic(auto, unfolding(crate::specs::Leb::sleb_at))]
    #[inline(never)]
    fn read_sleb(&mut self) -> Result<i64, ByteFault>
        ensures exact { Gives (λ x. x) self.old self.new result (sleb_at (cursor self.old)) }
        ensures end { EndStays self.old self.new }
    {
        let place = self.place;
        let len = number_length(self.bytes, place)?;
        let (run, rest) = self.bytes.split_at(len);
        let number = signed_sum_of(run);
        if number < i128::from(i64::MIN) || number > i128::from(i64::MAX) {
            return Err(ByteFault::Leb(place));
        }
        *self = Part {
            bytes: rest,
            place: place + len as u64,
        };
        Ok(number as i64)
    }

    /// Reads the unsigned LEB128 number at the front, of at most ten bytes and below 2^64.
    ///
    /// `Leb` if ten bytes all continue or the value doesn't fit, `Short` if fewer than ten are left and all
    /// continue.
    #[inline(always)]
    pub fn uleb(&mut self) -> Result<u64, ByteFault>
        // What is returned is there.
        ensures found { IfOk result (λ v. Stands Uleb v (cursor self.old) (cursor self.new)) }
        // What is there is returned.
        ensures only { (v : ℕ) (after : Cursor) → Stands Uleb v (cursor self.old) after → (result ≡ Ok v) × (cursor self.new ≡ after) }
        // Which fault it is, and that the part is unchanged then.
        ensures exact { Gives (λ x. x) self.old self.new result (uleb_at (cursor self.old)) }
        // The part ends where it did.
        ensures end { EndStays self.old self.new }
    {
        self.read_uleb()
    }

    /// Reads the signed LEB128 number at the front, of at most ten bytes and within 64 bits.
    ///
    /// `Leb` if ten bytes all continue or the value doesn't fit, `Short` if fewer than ten are left and all
    /// continue.
    #[inline(always)]
    pub fn sleb(&mut self) -> Result<i64, ByteFault>
        // What is returned is there.
        ensures found { IfOk result (λ z. Stands Sleb z (cursor self.old) (cursor self.new)) }
        // What is there is returned.
        ensures only { (z : ℤ) (after : Cursor) → Stands Sleb z (cursor self.old) after → (result ≡ Ok z) × (cursor self.new ≡ after) }
        // Which fault it is, and that the part is unchanged then.
        ensures exact { Gives (λ x. x) self.old self.new result (sleb_at (cursor self.old)) }
        // The part ends where it did.
        ensures end { EndStays self.old self.new }
    {
        self.read_sleb()
    }
}
