//! Bits in words of 64, by place: bit k % 64 of word k / 64.

ghost use Rattle.std.specs.Prelude.{◌≡◌, ◌≢◌, ℕ, ◌*◌, ◌/◌, ◌<◌, ◌≤◌, ◌==◌, true, length, OnOk};
ghost use Rattle.std.specs.Prelude.{MatchOption, vec_len};
ghost use Rattle.std.specs.Int.{bit_at};
ghost use Rattle.index_maps.specs.Bits.{bit_in, has_bits, word_at, word_end, NoneWithin};
ghost use Rattle.index_maps.specs.Bits.{IsFirst, IsFirstFound};

use std::alloc::AllocError;

/// Whether a word has a bit.
pub(crate) fn has_bits(words: &[u64], at: usize) -> bool
    requires { at < length words.now }
    ensures { result ≡ has_bits words.now at }
{
    words[at] != 0
}

/// The place of the lowest bit of a word that has one.
pub(crate) fn lowest(words: &[u64], at: usize) -> usize
    requires has { has_bits words.now at ≡ true }
    requires small { length words.now ≤ 67108864 }
    ensures { IsFirst (bit_in words.now) (at * 64) result }
{
    at * 64 + words[at].trailing_zeros() as usize
}

/// The first place from one on, in its own word alone.
pub(crate) fn in_word(words: &[u64], from: usize) -> Option<usize>
    requires { from ≤ 4294967296 }
    ensures { MatchOption result (NoneWithin (bit_in words.now) from (word_end from))
        (λ k. IsFirst (bit_in words.now) from k) }
{
    let at = from / 64;
    if at >= words.len() {
        return None;
    }
    let rest = words[at] >> (from % 64);
    if rest == 0 {
        return None;
    }
    Some(from + rest.trailing_zeros() as usize)
}

/// The first word from one on that has a bit.
pub(crate) fn scan(words: &[u64], from: usize) -> Option<usize>
    ensures { IsFirstFound (has_bits words.now) from result }
{
    for at in from..words.len() {
        if words[at] != 0 {
            return Some(at);
        }
    }
    None
}

/// The word with a bit set or not.
fn with_bit(word: u64, place: usize, value: bool) -> u64
    requires { place < 64 }
    ensures same { (bit_at result place == 1) ≡ value }
    ensures others { (i : ℕ) → i < 64 → i ≢ place → bit_at result i ≡ bit_at word i }
{
    let bit: u64 = 1 << place;
    if value {
        return word | bit;
    }
    word & !bit
}

/// Puts a place into the set or takes it out.
pub(crate) fn mark(words: &mut Vec<u64>, at: usize, value: bool)
    requires { at / 64 < vec_len words.old }
    ensures length { vec_len words.new ≡ vec_len words.old }
    ensures same { bit_in words.new.items at ≡ value }
    ensures others { (k : ℕ) → k ≢ at → bit_in words.new.items k ≡ bit_in words.old.items k }
    ensures words { (w : ℕ) → w ≢ at / 64
        → word_at words.new.items w ≡ word_at words.old.items w }
{
    words[at / 64] = with_bit(words[at / 64], at % 64, value);
}

/// Makes as many words, the new ones without bits. The error is want of memory.
pub(crate) fn reach(words: &mut Vec<u64>, count: usize) -> Result<(), AllocError>
    ensures same { (w : ℕ) → word_at words.new.items w ≡ word_at words.old.items w }
    ensures room { OnOk result (count ≤ vec_len words.new) }
    ensures bound { (n : ℕ) → vec_len words.old ≤ n → count ≤ n → vec_len words.new ≤ n }
    ensures more { vec_len words.old ≤ vec_len words.new }
{
    if words.len() < count {
        words.resize(count, 0)?;
    }
    Ok(())
}
