//! Words of counts joined to one number, so that a pen or an eye takes several at once.

ghost use Rattle.std.specs.Prelude.{◌≡◌, ◌+◌, ◌^◌, ◌<◌, ◌≤◌, ◌++◌};
ghost use Rattle.bit_vectors.specs.Vectors.{IsPlaces, number_bits};
ghost use Rattle.count_code.specs.Code.{count_bits, end_bits};

use count_code::count_word;

/// With more bits than these a count's word, of at most 29, and the end's may not fit beside them in 64.
pub const MANY_BITS: u32 = 33;

/// Bits as a number, the first with the greatest weight.
#[derive(Clone, Copy)]
pub struct Held {
    pub value: u64,
    pub width: u32,
}

impl Held {
    /// No bits.
    #[inline(always)]
    pub fn none() -> Held
        ensures value { result.value ≡ 0 }
        ensures width { result.width ≡ 0 }
    {
        Held { value: 0, width: 0 }
    }

    /// These bits and the word of a count. Most counts are 1, with a 0 for a word.
    #[inline(always)]
    pub fn with_count(self, a: u32) -> Held
        requires valid { IsPlaces a }
        requires fits { self.value < 2 ^ self.width }
        requires room { self.width ≤ 33 }
        ensures bits { number_bits result.width result.value
            ≡ number_bits self.width self.value ++ count_bits a }
        ensures fits { result.value < 2 ^ result.width }
        ensures most { result.width ≤ self.width + 29 }
    {
        if a == 1 {
            return Held {
                value: self.value << 1,
                width: self.width + 1,
            };
        }
        let word = count_word(a);
        Held {
            value: (self.value << word.width) + u64::from(word.value),
            width: self.width + word.width,
        }
    }

    /// These bits and the end.
    #[inline(always)]
    pub fn with_end(self) -> Held
        requires fits { self.value < 2 ^ self.width }
        requires room { self.width ≤ 62 }
        ensures bits { number_bits result.width result.value
            ≡ number_bits self.width self.value ++ end_bits }
        ensures fits { result.value < 2 ^ result.width }
        ensures width { result.width ≡ self.width + 2 }
    {
        Held {
            value: (self.value << 2) + 0b10,
            width: self.width + 2,
        }
    }
}
