//! A set of places as bits in words, with two levels of summary.

ghost use Rattle.std.specs.Prelude.{◌*◌, ◌≤◌, vec_len};
ghost use Rattle.index_maps.specs.Bits.{Sums};

use crate::words::{has_bits, in_word, lowest, mark, reach, scan};
use std::alloc::{AllocError, Global};

/// A set of places below 2^32. A bit of `words` says whether a word of `items` has one, and a bit
/// of `tops` whether a word of `words` has one, so that the next place is found in a few steps.
#[derive(Drop)]
pub(crate) struct Bits {
    items: Vec<u64>,
    words: Vec<u64>,
    tops: Vec<u64>,
    ghost summed: { Sums words.items items.items },
    ghost topped: { Sums tops.items words.items },
    ghost under: { vec_len items ≤ 64 * vec_len words },
    ghost below: { vec_len words ≤ 64 * vec_len tops },
    ghost small: { vec_len items ≤ 67108864 },
    ghost smaller: { vec_len words ≤ 67108864 },
    ghost smallest: { vec_len tops ≤ 67108864 },
}

impl Bits {
    ghost use Rattle.std.specs.Prelude.{◌≡◌, ◌≢◌, ℕ, ◌/◌, ◌<◌, false, OnOk};
    ghost use Rattle.index_maps.specs.Bits.{has_bits, IsFirstFound};
    ghost use Rattle.index_maps.specs.BitViews.{is_marked, words_of};

    /// The empty set.
    pub(crate) fn new(alloc: Global) -> Bits
        ensures { (k : ℕ) → is_marked result k ≡ false }
    {
        Bits {
            items: Vec::new(alloc),
            words: Vec::new(alloc),
            tops: Vec::new(alloc),
        }
    }

    /// Makes room for a place. The error is want of memory.
    pub(crate) fn reach(&mut self, at: u32) -> Result<(), AllocError>
        ensures same { (k : ℕ) → is_marked self.new k ≡ is_marked self.old k }
        ensures room { OnOk result (at / 64 < words_of self.new) }
        ensures more { words_of self.old ≤ words_of self.new }
    {
        let at = at as usize;
        reach(&mut self.tops, at / 64 / 64 / 64 + 1)?;
        reach(&mut self.words, at / 64 / 64 + 1)?;
        reach(&mut self.items, at / 64 + 1)
    }

    /// Puts a place into the set, or takes it out.
    pub(crate) fn mark(&mut self, at: u32, value: bool)
        requires { at / 64 < words_of self.old }
        ensures same { is_marked self.new at ≡ value }
        ensures others { (k : ℕ) → k ≢ at → is_marked self.new k ≡ is_marked self.old k }
        ensures words { words_of self.new ≡ words_of self.old }
    {
        let at = at as usize;
        mark(&mut self.items, at, value);
        let has = has_bits(self.items.as_slice(), at / 64);
        mark(&mut self.words, at / 64, has);
        let has = has_bits(self.words.as_slice(), at / 64 / 64);
        mark(&mut self.tops, at / 64 / 64, has);
    }

    /// The first place from one on.
    pub(crate) fn first(&self, from: usize) -> Option<usize>
        requires { from ≤ 4294967296 }
        ensures { IsFirstFound (is_marked self.now) from result }
    {
        let items = self.items.as_slice();
        match in_word(items, from) {
            Some(at) => Some(at),
            None => match self.first_word(from / 64 + 1) {
                Some(word) => Some(lowest(items, word)),
                None => None,
            },
        }
    }

    /// The first word of the items from one on that has a bit.
    fn first_word(&self, from: usize) -> Option<usize>
        requires { from ≤ 4294967296 }
        ensures { IsFirstFound (has_bits self.now.items.items) from result }
    {
        let words = self.words.as_slice();
        match in_word(words, from) {
            Some(at) => Some(at),
            None => match self.first_top(from / 64 + 1) {
                Some(word) => Some(lowest(words, word)),
                None => None,
            },
        }
    }

    /// The first word of the words from one on that has a bit.
    fn first_top(&self, from: usize) -> Option<usize>
        requires { from ≤ 4294967296 }
        ensures { IsFirstFound (has_bits self.now.words.items) from result }
    {
        let tops = self.tops.as_slice();
        match in_word(tops, from) {
            Some(at) => Some(at),
            None => match scan(tops, from / 64 + 1) {
                Some(word) => Some(lowest(tops, word)),
                None => None,
            },
        }
    }

    /// Takes all places out.
    pub(crate) fn clear(&mut self)
        ensures { (k : ℕ) → is_marked self.new k ≡ false }
    {
        self.items.clear();
        self.words.clear();
        self.tops.clear();
    }
}
