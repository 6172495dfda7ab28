//! Values that an eye, the reader of bits, reads: bits, numbers and vectors, or the first fault. The bits of a known
//! number are compared one by one only if they don't come next, to name the first one that differs.

ghost use Rattle.std.specs.Prelude.{◌≡◌, ℕ, ◌+◌, ◌-◌, ◌/◌, ◌^◌, ◌<◌, ◌≤◌, ◌↔◌, ◌++◌, Bool, List, length, take, drop, IsOk, IfOk, IsErr, IfErr, OnOk, OnErr, IsTrue};
ghost use Rattle.std.specs.Bool.{OnTrue};
ghost use Rattle.std.specs.Int.{bit_at};
ghost use Rattle.bit_vectors.specs.Vectors.{number_bits};
ghost use Rattle.bit_vectors.specs.Reading.{bits_left, MovesOn, Gives, IsFirstFault, any_bit, bit_where, allowed, parse_front, parse_number, parse_word};

use crate::bits::Bits;
use crate::eye::BitEye;
use crate::fault::BitFault;

impl<'a> BitEye<'a> {
    /// Takes the next bit, whatever it is, or says that the bits have ended.
    pub fn take_bit(&mut self) -> Result<bool, BitFault>
        ensures moves { MovesOn self.old self.new }
        ensures reading { Gives (λ bit. bit) result self.new (any_bit (bits_left self.old)) }
    {
        self.take().ok_or(BitFault::EndsEarly { bit: self.size() })
    }

    /// Takes a bit, which is wrong if it is not allowed.
    pub fn take_allowed(&mut self, zero: bool, one: bool) -> Result<bool, BitFault>
        ensures moves { MovesOn self.old self.new }
        ensures right { IfOk result (λ bit. IsTrue (allowed zero one bit)) }
        ensures reading { Gives (λ bit. bit) result self.new
            (bit_where (allowed zero one) (bits_left self.old)) }
    {
        let Some(bit) = self.take() else {
            return Err(BitFault::EndsEarly { bit: self.size() });
        };
        if bit && one || !bit && zero {
            Ok(bit)
        } else {
            Err(BitFault::Wrong { bit: self.at() - 1 })
        }
    }

    /// Takes a number of `width` bits, at most 64, the bit of the greatest weight first. No bit is wrong. If the bits
    /// end early, the eye is then at the end.
    #[inline(always)]
    pub fn take_word(&mut self, width: u32) -> Result<u64, BitFault>
        requires { width ≤ 64 }
        ensures moves { MovesOn self.old self.new }
        ensures number { IfOk result
            (λ n. bits_left self.old ≡ number_bits width n ++ bits_left self.new) }
        ensures fits { IfOk result (λ n. n < 2 ^ width) }
        ensures early { IsErr result ↔ (length (bits_left self.old) < width) }
        ensures fault { IfErr result (λ fault. fault ≡ BitFault.EndsEarly (length self.old.bits)) }
        ensures at_end { OnErr result (self.new.place ≡ length self.old.bits) }
        ensures reading { Gives (λ n. n) result self.new (parse_number width (bits_left self.old)) }
    {
        let left = self.left();
        if left < width {
            self.pass(left);
            return Err(BitFault::EndsEarly { bit: self.size() });
        }
        let word = high_bits(self.ahead(), width);
        self.pass(width);
        Ok(word)
    }

    /// Takes a number of `width` bits, at most 32, the bit of the greatest weight first. No bit is wrong. If the bits
    /// end early, the eye is then at the end.
    #[inline(always)]
    pub fn take_number(&mut self, width: u32) -> Result<u32, BitFault>
        requires { width ≤ 32 }
        ensures moves { MovesOn self.old self.new }
        ensures number { IfOk result
            (λ n. bits_left self.old ≡ number_bits width n ++ bits_left self.new) }
        ensures fits { IfOk result (λ n. n < 2 ^ width) }
        ensures early { IsErr result ↔ (length (bits_left self.old) < width) }
        ensures fault { IfErr result (λ fault. fault ≡ BitFault.EndsEarly (length self.old.bits)) }
        ensures at_end { OnErr result (self.new.place ≡ length self.old.bits) }
        ensures reading { Gives (λ n. n) result self.new (parse_number width (bits_left self.old)) }
    {
        let number = self.take_word(width)?;
        Ok(number as u32)
    }

    /// Takes the `width` lowest bits of a number, at most 64, the bit of the greatest weight first. The first bit that
    /// differs from them is wrong, and the bits end early if all that are left are a proper prefix of them.
    #[inline(always)]
    pub fn match_word(&mut self, value: u64, width: u32) -> Result<(), BitFault>
        requires { width ≤ 64 }
        ensures moves { MovesOn self.old self.new }
        ensures word { OnOk result
            (bits_left self.old ≡ number_bits width value ++ bits_left self.new) }
        ensures only { (rest : List Bool) → bits_left self.old ≡ number_bits width value ++ rest
            → IsOk result }
        ensures fault { IfErr result
            (λ fault. IsFirstFault
            (λ word. word ≡ number_bits width value) self.old self.new fault) }
        ensures reading { Gives (λ _. tt) result self.new
            (parse_word (number_bits width value) (bits_left self.old)) }
    {
        self.match_ahead(value, width)
    }

    /// Whether the next bits are the `width` lowest bits of a number, at most 32, the bit of the greatest weight first.
    #[inline(always)]
    pub fn comes_next(&self, value: u32, width: u32) -> bool
        requires { width ≤ 32 }
        ensures next { IsTrue result ↔ (take width (bits_left self.now) ≡ number_bits width value) }
        ensures enough { OnTrue result (width ≤ length (bits_left self.now)) }
    {
        width <= self.left() && high_bits(self.ahead(), width) == u64::from(value) % (1 << width)
    }

    /// Takes as many bits as `into` has places, from place 0 up. No bit is wrong. If the bits end early, those that
    /// were left are the first bits of `into`, its other places are unchanged, and the eye is at the end.
    pub fn take_bits(&mut self, into: &mut Bits) -> Result<(), BitFault>
        ensures places { length into.new ≡ length into.old }
        ensures bits { let left = bits_left self.old in
            into.new ≡ take (length into.old) left ++ drop (length left) into.old }
        ensures moves { MovesOn self.old self.new }
        ensures taken { OnOk result (bits_left self.old ≡ into.new ++ bits_left self.new) }
        ensures early { IsErr result ↔ (length (bits_left self.old) < length into.old) }
        ensures fault { IfErr result (λ fault. fault ≡ BitFault.EndsEarly (length self.old.bits)) }
        ensures at_end { OnErr result (self.new.place ≡ length self.old.bits) }
        ensures reading { Gives (λ _. into.new) result self.new
            (parse_front (length into.old) (bits_left self.old)) }
    {
        let left = self.left();
        if left < into.len() {
            self.take_front(into, left);
            return Err(BitFault::EndsEarly { bit: self.size() });
        }
        self.take_front(into, into.len());
        Ok(())
    }

    /// Takes the given number of bits into the first places of `into`. Its other places are unchanged.
    fn take_front(&mut self, into: &mut Bits, count: u32)
        requires left { count ≤ length (bits_left self.old) }
        requires places { count ≤ length into.old }
        ensures bits { into.new ≡ take count (bits_left self.old) ++ drop count into.old }
        ensures places { length into.new ≡ length into.old }
        ensures left { bits_left self.new ≡ drop count (bits_left self.old) }
        ensures place { self.new.place ≡ self.old.place + count }
        ensures same { self.new.bits ≡ self.old.bits }
    {
        for index in 0..count / 64 {
            into.set_word(index, self.ahead());
            self.pass(64);
        }
        let rest = count % 64;
        if rest == 0 {
            return;
        }
        let word = with_front(into.word(count / 64), self.ahead(), rest);
        into.set_word(count / 64, word);
        self.pass(rest);
    }

    /// Takes the bits of a number: at once if they come next, else bit by bit.
    #[inline(always)]
    fn match_ahead(&mut self, value: u64, width: u32) -> Result<(), BitFault>
        requires { width ≤ 64 }
        ensures moves { MovesOn self.old self.new }
        ensures reading { Gives (λ _. tt) result self.new
            (parse_word (number_bits width value) (bits_left self.old)) }
    {
        if width <= self.left() && high_bits(self.ahead(), width) == value {
            self.pass(width);
            return Ok(());
        }
        self.match_bits(value, width)
    }

    /// Takes the bits of a number one by one, to name the first one that differs.
    #[cold]
    fn match_bits(&mut self, value: u64, width: u32) -> Result<(), BitFault>
        requires { width ≤ 64 }
        ensures moves { MovesOn self.old self.new }
        ensures reading { Gives (λ _. tt) result self.new
            (parse_word (number_bits width value) (bits_left self.old)) }
    {
        for weight in (0..width).rev() {
            let bit = (value >> weight) & 1 == 1;
            self.take_allowed(!bit, bit)?;
        }
        Ok(())
    }
}

/// The number of the first `width` bits of a word.
fn high_bits(word: u64, width: u32) -> u64
    requires { width ≤ 64 }
    ensures { result ≡ word / 2 ^ (64 - width) }
{
    if width == 0 { 0 } else { word >> (64 - width) }
}

/// The first `width` bits of `front`, and the others of `word`.
fn with_front(word: u64, front: u64, width: u32) -> u64
    requires some { 1 ≤ width }
    requires most { width < 64 }
    ensures front { (k : ℕ) → k < width → bit_at result (63 - k) ≡ bit_at front (63 - k) }
    ensures others { (k : ℕ) → width ≤ k → k < 64 → bit_at result (63 - k) ≡ bit_at word (63 - k) }
{
    let low = 64 - width;
    (front >> low << low) + word % (1 << low)
}
