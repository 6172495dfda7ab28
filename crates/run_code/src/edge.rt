//! The edges of masks (CCSDS 124.0-B-1).

ghost use Rattle.std.specs.Prelude.{◌≡◌, ◌*◌, ◌%◌, ◌^◌, ◌<◌, bit_xor, length};
ghost use Rattle.run_code.specs.Runs.{edges, edges as edges_of};

use bit_vectors::Bits;

/// Makes `into`, which has as many places as `mask`, its edges: 1 at each place at which the bit of the mask
/// differs from that of the next place. A 0 is taken to follow the last place.
pub fn edges(mask: &Bits, into: &mut Bits)
    requires { length mask.now ≡ length into.old }
    ensures places { length into.new ≡ length into.old }
    ensures edges { into.new ≡ edges mask.now }
{
    let mut next = 0;
    for index in (0..mask.word_count()).rev() {
        let word = mask.word(index);
        into.set_word(index, word ^ ((word << 1) + next));
        next = word >> 63;
    }
}

/// Makes `into`, which has as many places as `edges`, the only mask that has these edges.
pub fn from_edges(edges: &Bits, into: &mut Bits)
    requires { length edges.now ≡ length into.old }
    ensures places { length into.new ≡ length into.old }
    ensures edges { edges_of into.new ≡ edges.now }
{
    let mut next = 0;
    for index in (0..edges.word_count()).rev() {
        let word = summed(edges.word(index)) ^ (u64::MAX * next);
        into.set_word(index, word);
        next = word >> 63;
    }
}

/// The word that gives `word` when it is added, without carries, to itself shifted by one place. After each
/// step every bit is the sum of twice as many bits: itself and bits below it.
pub fn summed(word: u64) -> u64
    ensures { bit_xor result (result * 2 ^ 1 % 2 ^ 64) ≡ word }
{
    let mut sum = with_shifted(word, 32);
    sum = with_shifted(sum, 16);
    sum = with_shifted(sum, 8);
    sum = with_shifted(sum, 4);
    sum = with_shifted(sum, 2);
    with_shifted(sum, 1)
}

/// A word added, without carries, to itself shifted by the given number of places.
fn with_shifted(word: u64, by: u32) -> u64
    requires { by < 64 }
    ensures { result ≡ bit_xor word (word * 2 ^ by % 2 ^ 64) }
{
    word ^ (word << by)
}
