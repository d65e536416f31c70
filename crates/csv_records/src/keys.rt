// The keys of lines, and the first that comes again.
ghost use Rattle.std.specs.Prelude.{◌≡◌, ◌+◌, ◌++◌, [], ◌∷◌, ℕ, List as Listed, length, MatchOption, OnOk, OnErr};
ghost use Rattle.cite_schema.specs.Values.{text_cmp};
ghost use Rattle.cite_schema.specs.declared.value.Value.{Value as Cell};
ghost use Rattle.csv_records.specs.Keys.{AreKeys, AreApart, IsFirstAgain};

use cite_schema::{NoMemory, Value};
use std::alloc::Global;

/// The keys of lines, each with the number of its line, counted from 1. A text is held as a `T`: as its own bytes, or
/// as those of someone else.
#[derive(Drop)]
pub struct Keys<T> {
    numbers: Vec<(i64, u32)>,
    texts: Vec<(T, u32)>,
}

impl<T: Ord + Drop> Keys<T> {
    /// No keys. It takes no memory.
    pub fn new(alloc: Global) -> Keys<T>
        ensures { (bytes : T → Listed ℕ) → AreKeys bytes result [] }
    {
        Keys {
            numbers: Vec::new(alloc),
            texts: Vec::new(alloc),
        }
    }

    /// The first line whose key an earlier line has. `None` exactly where no two lines have one key. It sorts the keys,
    /// of n with about n log n comparisons, and takes no memory.
    pub fn first_again(self) -> Option<u32>
        ensures { (bytes : T → Listed ℕ) (keys : Listed Cell) → ((a b : T) → T.cmp a b ≡ text_cmp (bytes a) (bytes b)) → AreKeys bytes self keys → MatchOption result (AreApart keys) (λ n. IsFirstAgain keys n) }
    {
        let Keys {
            mut numbers,
            mut texts,
        } = self;
        let number = least_again(numbers.as_mut_slice());
        let text = least_again(texts.as_mut_slice());
        lesser(number, text)
    }
}

impl Keys<Vec<u8>> {
    /// Puts the key of the next line behind the others; a text is copied. Without memory the keys stay as they were.
    pub fn push_copy(&mut self, line: u32, key: &Value) -> Result<(), NoMemory>
        ensures ok { OnOk result ((keys : Listed Cell) → line ≡ length keys + 1 → AreKeys (λ t. t.items) self.old keys → AreKeys (λ t. t.items) self.new (keys ++ key.now ∷ [])) }
        ensures err { OnErr result ((keys : Listed Cell) → AreKeys (λ t. t.items) self.old keys → AreKeys (λ t. t.items) self.new keys) }
    {
        match key {
            Value::Int(number) => self.numbers.push((*number, line))?,
            Value::Text(text) => self.texts.push((text.copy()?.into_vec(), line))?,
        }
        Ok(())
    }
}

impl<'a> Keys<&'a [u8]> {
    /// Puts the key of the next line behind the others; a text stays where it is. Without memory the keys stay as they
    /// were.
    pub fn push_borrowed(&mut self, line: u32, key: &'a Value) -> Result<(), NoMemory>
        ensures ok { OnOk result ((keys : Listed Cell) → line ≡ length keys + 1 → AreKeys (λ t. t.now) self.old keys → AreKeys (λ t. t.now) self.new (keys ++ key.now ∷ [])) }
        ensures err { OnErr result ((keys : Listed Cell) → AreKeys (λ t. t.now) self.old keys → AreKeys (λ t. t.now) self.new keys) }
    {
        match key {
            Value::Int(number) => self.numbers.push((*number, line))?,
            Value::Text(text) => self.texts.push((text.as_slice(), line))?,
        }
        Ok(())
    }
}

ghost use Rattle.csv_records.specs.Keys.{ComesAgain, IsLeast};

// The least line of which a key is held with an earlier line too.
fn least_again<K: Ord>(held: &mut [(K, u32)]) -> Option<u32>
    ensures { IsLeast (ComesAgain K.cmp held.old) result }
{
    held.sort_unstable();
    least_neighbour(held)
}

ghost use Rattle.std.specs.Ordering.{nat_cmp, ordering_then};
ghost use Rattle.std.specs.List.Sorted.{IsSorted};

// The same, where they stand in the order of their keys, and then of their lines: neighbours tell it.
fn least_neighbour<K: Ord>(held: &[(K, u32)]) -> Option<u32>
    requires { IsSorted (λ a b. ordering_then (K.cmp a.0 b.0) (nat_cmp a.1 b.1)) held.now }
    ensures { IsLeast (ComesAgain K.cmp held.now) result }
{
    let mut least = None;
    for i in 1..held.len() {
        least = lesser(least, line_again(&held[i - 1], &held[i]));
    }
    least
}

ghost use Rattle.csv_records.specs.Keys.{Follows};

// The line of the later one, where it has the key of the earlier one.
fn line_again<K: Ord>(earlier: &(K, u32), later: &(K, u32)) -> Option<u32>
    ensures { IsLeast (Follows K.cmp earlier.now later.now) result }
{
    let (key, line) = later;
    if earlier.1 < *line && earlier.0.cmp(key).is_eq() {
        Some(*line)
    } else {
        None
    }
}

ghost use Rattle.csv_records.specs.Keys.{lesser};

// The lesser of two numbers, where both are there.
fn lesser(a: Option<u32>, b: Option<u32>) -> Option<u32>
    ensures { result ≡ lesser a b }
{
    match (a, b) {
        (Some(a), Some(b)) => Some(if b < a { b } else { a }),
        (Some(a), None) => Some(a),
        (None, b) => b,
    }
}
