//! Words at the places of a form: whether they fit, and what they say.

ghost use Rattle.std.specs.Prelude.{◌≡◌, ℕ, ◌≤◌, length, true, map, IfOk, IfSome};
ghost use Rattle.std.specs.List.{list_all};
ghost use Rattle.script_words.specs.Slots as slots;
ghost use Rattle.script_words.specs.Slots.{word_at};
ghost use Rattle.script_words.specs.Code.{slot_of, reach};

use crate::commands::{Direction, MapType};
use crate::forms::Place;
use base_items::ItemSort;
use std::alloc::{AllocError, Global};
use token_text::{Text, Token, copy_text};

/// How many of the first tokens go on at these places.
pub fn reach(places: &[Place], tokens: &[Token]) -> usize
    ensures reach { result ≡ reach (map slot_of places.now) tokens.now }
    ensures within { result ≤ length tokens.now }
{
    match places {
        [] => 0,
        [place, more @ ..] => match tokens {
            [] => 0,
            [token, rest @ ..] => {
                if fits(*place, token.bytes.as_bytes()) {
                    reach(more, rest) + 1
                } else {
                    0
                }
            }
        },
    }
}

// Whether the word may stand at the place.
fn fits(place: Place, word: &[u8]) -> bool
    ensures { result ≡ slots.fits (slot_of place) word.now }
{
    match place {
        Place::Word(fixed) => word == fixed,
        Place::Name => true,
        Place::NewMap => !is_dash(word),
        Place::MapOrDash => true,
        Place::Sort => is_sort(word),
        Place::TypeName => is_type(word),
        Place::InOrOut => is_direction(word),
        Place::Amount(low, high) => is_amount(low, high, word),
    }
}

// Whether the word is `-`.
fn is_dash(word: &[u8]) -> bool
    ensures { result ≡ slots.is_dash word.now }
{
    word == b"-".as_slice()
}

// Whether the word is `node` or `arc`.
fn is_sort(word: &[u8]) -> bool
    ensures { result ≡ slots.fits slots.Slot.Sort word.now }
{
    word == b"node".as_slice() || word == b"arc".as_slice()
}

// Whether the word is `int`, `bool` or `text`.
fn is_type(word: &[u8]) -> bool
    ensures { result ≡ slots.fits slots.Slot.TypeName word.now }
{
    if word == b"int".as_slice() {
        return true;
    }
    word == b"bool".as_slice() || word == b"text".as_slice()
}

// Whether the word is `in` or `out`.
fn is_direction(word: &[u8]) -> bool
    ensures { result ≡ slots.fits slots.Slot.InOrOut word.now }
{
    word == b"in".as_slice() || word == b"out".as_slice()
}

// Whether the word has one to seven digits, whose number lies between these two.
fn is_amount(low: u32, high: u32, word: &[u8]) -> bool
    ensures { result ≡ slots.is_amount low high word.now }
{
    if word.is_empty() || word.len() > 7 {
        return false;
    }
    if !has_digits(word) {
        return false;
    }
    let number = number_of(word);
    low <= number && number <= high
}

// Whether the word has digits only.
fn has_digits(word: &[u8]) -> bool
    ensures { result ≡ list_all slots.is_digit word.now }
{
    word.iter().all(|byte| is_digit(*byte))
}

fn is_digit(byte: u8) -> bool
    ensures { result ≡ slots.is_digit byte }
{
    b'0' <= byte && byte <= b'9'
}

// The number that the digits spell.
fn number_of(word: &[u8]) -> u32
    requires digits { list_all slots.is_digit word.now ≡ true }
    requires short { length word.now ≤ 7 }
    ensures { result ≡ slots.number_of word.now }
{
    let mut number = 0;
    for byte in word {
        number = number * 10 + u32::from(*byte - b'0');
    }
    number
}

/// A copy of the word at this place, or an empty text where there is none.
pub fn text_at(alloc: Global, tokens: &[Token], place: usize) -> Result<Text, AllocError>
    ensures { IfOk result (λ text. text ≡ word_at tokens.now place) }
{
    match tokens.get(place) {
        Some(token) => copy_text(alloc, token.bytes.as_bytes()),
        None => copy_text(alloc, &[]),
    }
}

/// The map of this name, or none for `-`.
pub fn map_of(name: Text) -> Option<Text>
    ensures { result ≡ slots.map_of name }
{
    if is_dash(name.as_bytes()) {
        None
    } else {
        Some(name)
    }
}

/// The sort that the word `node` or `arc` names.
pub fn sort_of(word: &Text) -> ItemSort
    ensures { result ≡ slots.sort_of word.now }
{
    if word.as_bytes() == b"node".as_slice() {
        ItemSort::Node
    } else {
        ItemSort::Arc
    }
}

/// The type that the word `int`, `bool` or `text` names.
pub fn type_of(word: &Text) -> MapType
    ensures { result ≡ slots.type_of word.now }
{
    if word.as_bytes() == b"int".as_slice() {
        return MapType::Ints;
    }
    if word.as_bytes() == b"bool".as_slice() {
        MapType::Bools
    } else {
        MapType::Texts
    }
}

/// The direction that the word `in` or `out` names.
pub fn direction_of(word: &Text) -> Direction
    ensures { result ≡ slots.direction_of word.now }
{
    if word.as_bytes() == b"in".as_slice() {
        Direction::In
    } else {
        Direction::Out
    }
}

/// The number of a word that has digits only, at most seven.
pub fn amount_of(word: &Text) -> Option<u32>
    ensures spelled { IfSome result (λ number. number ≡ slots.number_of word.now) }
    ensures exact { (low high : ℕ) → slots.is_amount low high word.now ≡ true
        → result ≡ Some (slots.number_of word.now) }
{
    let bytes = word.as_bytes();
    if bytes.len() > 7 {
        return None;
    }
    if !has_digits(bytes) {
        return None;
    }
    Some(number_of(bytes))
}
