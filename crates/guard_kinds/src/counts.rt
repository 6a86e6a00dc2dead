//! How often each key stands, for keys that come and go.
//!
//! The entries stand in the order of their making, and those of one bucket are linked from the last
//! to the first. An entry whose count came to 0 stays until its place is needed, so that a count
//! which comes back takes no memory. There are twice as many places as keys may stand, so that at
//! least as many new keys come between two clearings as there is room for.

ghost use Rattle.std.specs.Prelude.{◌≡◌, ℕ, ◌+◌, ◌<◌, ◌≤◌, ◌==◌, ◌^◌, if◌then◌else◌, IsTrue};
ghost use Rattle.std.specs.Prelude.{length, vec_len, OnOk};
ghost use Rattle.std.specs.Vec.{vec_capacity};
ghost use Rattle.guard_kinds.specs.Counting.{keys_of, own_keys, IsLinked, IsHeaded};

use std::alloc::{AllocError, Global};

/// A key, its count, and the place of the entry before it in its bucket, counted from 1.
#[derive(Clone, Copy)]
struct KeyCount {
    key: u64,
    count: u32,
    next: u32,
}

/// How often each key stands.
#[derive(Drop)]
pub struct KeyCounts {
    entries: Vec<KeyCount>,
    heads: Vec<u32>,
    ghost own: { IsTrue (own_keys (keys_of entries.items)) },
    ghost linked: { IsLinked (vec_len heads) entries.items (vec_len entries) },
    ghost headed: { IsHeaded (vec_len heads) heads.items entries.items (vec_len entries) },
    ghost within: { vec_len entries ≤ 2 * vec_len heads },
    ghost room: { 2 * vec_len heads ≤ vec_capacity entries },
    ghost small: { vec_len heads ≤ 16777216 },
}

ghost use Rattle.std.specs.Prelude.{◌%◌, false, ◌-◌, ◌*◌};
ghost use Rattle.observe_core.specs.Items.{has_id, number_id};
ghost use Rattle.guard_kinds.specs.Counting.{bucket as bucket_of, unlinked, last_where};
ghost use Rattle.guard_kinds.specs.Keys.{is_key, is_keyed};

/// The bucket of a key, of so many: the upper half of its product with 2^64 over the golden ratio,
/// so that the pairs of ends of a dense graph are spread (Knuth's multiplicative hashing).
fn bucket(key: u64, size: usize) -> usize
    requires { 0 < size }
    ensures is { result ≡ bucket_of size key }
    ensures within { result < size }
{
    let product = key as u128 * 11400714819323198485 % 18446744073709551616;
    (product / 4294967296) as usize % size
}

/// 1 where this is the key, and 0 elsewhere.
fn one(key: Option<u64>, n: u64) -> u64
    ensures { result ≡ (if is_key n key then 1 else 0) }
{
    match key {
        Some(m) => (m == n) as u64,
        None => 0,
    }
}

/// Links all entries anew.
fn relink(entries: &mut Vec<KeyCount>, heads: &mut Vec<u32>)
    requires room { vec_len entries.old ≤ 2 * vec_len heads.old }
    requires small { vec_len heads.old ≤ 16777216 }
    ensures same { unlinked entries.new.items ≡ unlinked entries.old.items }
    ensures len { vec_len entries.new ≡ vec_len entries.old }
    ensures capacity { vec_capacity entries.new ≡ vec_capacity entries.old }
    ensures size { vec_len heads.new ≡ vec_len heads.old }
    ensures linked { IsLinked (vec_len heads.new) entries.new.items (vec_len entries.new) }
    ensures headed { IsHeaded (vec_len heads.new) heads.new.items entries.new.items
        (vec_len entries.new) }
{
    heads.fill(0);
    for i in 0..entries.len() {
        let at = bucket(entries[i].key, heads.len());
        entries[i].next = heads[at];
        heads[at] = i as u32 + 1;
    }
}

impl KeyCounts {
    ghost use Rattle.guard_kinds.specs.CountViews.{counted, total, room};

    pub fn new(alloc: Global) -> KeyCounts
        ensures empty { (n : ℕ) → counted result n ≡ 0 }
        ensures total { total result ≡ 0 }
    {
        KeyCounts {
            entries: Vec::new(alloc),
            heads: Vec::new(alloc),
        }
    }

    /// The place of a key's entry, counted from 1, or 0.
    fn place(&self, key: u64) -> usize
        ensures is { result ≡ last_where (λ k. k == key) (keys_of self.now.entries.items)
            (vec_len self.now.entries) }
        ensures within { result ≤ vec_len self.now.entries }
    {
        if self.entries.is_empty() {
            return 0;
        }
        let mut at = self.heads[bucket(key, self.heads.len())] as usize;
        while at > 0 {
            let entry = self.entries[at - 1];
            if entry.key == key {
                return at;
            }
            at = entry.next as usize;
        }
        0
    }

    fn get(&self, key: u64) -> u32
        ensures { result ≡ counted self.now key }
    {
        let at = self.place(key);
        if at == 0 {
            return 0;
        }
        self.entries[at - 1].count
    }

    fn raise_key(&mut self, key: u64)
        requires room { counted self.old key ≡ 0 → total self.old < room self.old }
        requires small { counted self.old key < 4294967295 }
        ensures counted { (n : ℕ) → counted self.new n ≡ (if key == n then 1 else 0)
            + counted self.old n }
        ensures total { total self.new ≡ total self.old + 1 }
        ensures room { room self.new ≡ room self.old }
    {
        let at = self.place(key);
        if at > 0 {
            self.entries[at - 1].count += 1;
            return;
        }
        self.make_place();
        self.append(key);
    }

    fn lower_key(&mut self, key: u64)
        requires { 0 < counted self.old key }
        ensures counted { (n : ℕ) → counted self.old n ≡ (if key == n then 1 else 0)
            + counted self.new n }
        ensures total { total self.old ≡ total self.new + 1 }
        ensures room { room self.new ≡ room self.old }
    {
        let at = self.place(key);
        if at > 0 {
            self.entries[at - 1].count -= 1;
        }
    }

    /// Counts a key once more, if there is one. A key that doesn't stand yet needs room.
    pub fn raise(&mut self, key: Option<u64>)
        requires room { (n : ℕ) → IsTrue (is_key n key) → counted self.old n ≡ 0 → total self.old
            < room self.old }
        requires small { (n : ℕ) → counted self.old n < 4294967295 }
        ensures counted { (n : ℕ) → counted self.new n ≡ (if is_key n key then 1 else 0)
            + counted self.old n }
        ensures total { total self.new ≡ (if is_keyed key then 1 else 0) + total self.old }
        ensures room { room self.new ≡ room self.old }
    {
        match key {
            Some(n) => self.raise_key(n),
            None => {}
        }
    }

    /// Counts a key once less, if there is one.
    pub fn lower(&mut self, key: Option<u64>)
        requires { (n : ℕ) → IsTrue (is_key n key) → 0 < counted self.old n }
        ensures counted { (n : ℕ) → counted self.old n ≡ (if is_key n key then 1 else 0)
            + counted self.new n }
        ensures total { total self.old ≡ (if is_keyed key then 1 else 0) + total self.new }
        ensures room { room self.new ≡ room self.old }
    {
        match key {
            Some(n) => self.lower_key(n),
            None => {}
        }
    }

    /// Whether a key has reached its limit, not counting one that goes.
    pub fn is_full(&self, gone: Option<u64>, key: Option<u64>, limit: u32) -> bool
        ensures full { IsTrue result → (n : ℕ) × IsTrue (is_key n key)
            × (limit + (if is_key n gone then 1 else 0) ≤ counted self.now n) }
        ensures open { result ≡ false → (n : ℕ) → IsTrue (is_key n key) → counted self.now n
            < limit + (if is_key n gone then 1 else 0) }
    {
        let Some(n) = key else {
            return false;
        };
        let there = self.get(n) as u64;
        there >= limit as u64 + one(gone, n)
    }

    pub fn clear(&mut self)
        ensures counted { (n : ℕ) → counted self.new n ≡ 0 }
        ensures total { total self.new ≡ 0 }
        ensures room { room self.new ≡ room self.old }
    {
        self.entries.clear();
        relink(&mut self.entries, &mut self.heads);
    }

    /// Makes room for so many in all.
    pub fn make_room(&mut self, n: u32) -> Result<(), AllocError>
        requires { n ≤ 8388608 }
        ensures ok { OnOk result (n ≤ room self.new) }
        ensures counted { (k : ℕ) → counted self.new k ≡ counted self.old k }
        ensures total { total self.new ≡ total self.old }
        ensures room { room self.old ≤ room self.new }
    {
        let wide = 2 * n as usize;
        if n as usize <= self.heads.len() {
            return Ok(());
        }
        self.entries.reserve(2 * wide - self.entries.len())?;
        self.heads.resize(wide, 0)?;
        relink(&mut self.entries, &mut self.heads);
        Ok(())
    }

    /// Where there is no place for a new entry, gives up those whose count is 0.
    fn make_place(&mut self)
        requires { total self.old < room self.old }
        ensures place { vec_len self.new.entries < 2 * vec_len self.new.heads }
        ensures lacks { (n : ℕ) → has_id number_id n (keys_of self.old.entries.items) ≡ false
            → has_id number_id n (keys_of self.new.entries.items) ≡ false }
        ensures counted { (n : ℕ) → counted self.new n ≡ counted self.old n }
        ensures total { total self.new ≡ total self.old }
        ensures room { room self.new ≡ room self.old }
    {
        if self.entries.len() < 2 * self.heads.len() {
            return;
        }
        self.entries.retain(|e| e.count > 0);
        relink(&mut self.entries, &mut self.heads);
    }

    /// Puts in an entry for a key that has none.
    fn append(&mut self, key: u64)
        requires place { vec_len self.old.entries < 2 * vec_len self.old.heads }
        requires free { has_id number_id key (keys_of self.old.entries.items) ≡ false }
        ensures counted { (n : ℕ) → counted self.new n ≡ (if key == n then 1 else 0)
            + counted self.old n }
        ensures total { total self.new ≡ total self.old + 1 }
        ensures room { room self.new ≡ room self.old }
    {
        let at = bucket(key, self.heads.len());
        let next = self.heads[at];
        let entry = KeyCount {
            key,
            count: 1,
            next,
        };
        if self.entries.push(entry).is_err() {
            unreachable!();
        }
        self.heads[at] = self.entries.len() as u32;
    }
}
