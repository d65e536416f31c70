// Identifiers that are read.
ghost use Rattle.identifiers.specs.Names.{IsReading};

use crate::named::Named;
use itoa::Buffer;

/// What a text names: the bare identifier, or behind `doi:` or `https://doi.org/`, all without regard to the case of ASCII
/// letters. N is 1 to 4,294,967,295 without a sign or a leading zero. `None` exactly where the text is no such identifier.
/// It takes no memory.
pub fn read(prefix: &[u8], text: &[u8]) -> Option<Named>
    ensures { IsReading prefix.now text.now result }
{
    if let Some(named) = read_behind(b"", prefix, text) {
        return Some(named);
    }
    if let Some(named) = read_behind(b"doi:", prefix, text) {
        return Some(named);
    }
    read_behind(b"https://doi.org/", prefix, text)
}

ghost use Rattle.std.specs.Prelude.{◌++◌};
ghost use Rattle.identifiers.specs.Names.{name_of, suffix_of};
ghost use Rattle.identifiers.specs.Parts.{IsReadBy};

// What a text names behind a lead.
fn read_behind(lead: &[u8], prefix: &[u8], text: &[u8]) -> Option<Named>
    ensures { IsReadBy (λ named. lead.now ++ name_of prefix.now named) text.now result }
{
    let name = behind(lead, text)?;
    read_suffix(behind(prefix, name)?)
}

// What is named by the part behind the prefix.
fn read_suffix(suffix: &[u8]) -> Option<Named>
    ensures { IsReadBy suffix_of suffix.now result }
{
    if suffix.eq_ignore_ascii_case(b"/d1") {
        return Some(Named::Superset);
    }
    let number = read_number(behind(b"/c", suffix)?)?;
    Some(Named::Subset(number))
}

ghost use Rattle.std.specs.Prelude.{◌≡◌, ℕ, MatchOption, Some};
ghost use Rattle.identifiers.specs.Parts.{IsNumber};

// The number from 1 on that prints as these digits.
fn read_number(digits: &[u8]) -> Option<u32>
    ensures { MatchOption result ((n : ℕ) → IsNumber digits.now n → ⊥) (λ n. IsNumber digits.now n) }
{
    let number = parse_number(digits)?;
    if number >= 1 && prints_as(number, digits) {
        Some(number)
    } else {
        None
    }
}

// The number that digits spell, with or without leading zeros.
fn parse_number(digits: &[u8]) -> Option<u32>
    ensures { (n : ℕ) → IsNumber digits.now n → result ≡ Some n }
{
    match str::from_utf8(digits) {
        Ok(digits) => digits.parse::<u32>().ok(),
        Err(_) => None,
    }
}

ghost use Rattle.std.specs.Prelude.{◌↔◌, IsTrue, decimal};

fn prints_as(number: u32, digits: &[u8]) -> bool
    ensures { IsTrue result ↔ (decimal number ≡ digits.now) }
{
    Buffer::new().format(number).as_bytes() == digits
}

ghost use Rattle.std.specs.Prelude.{length, drop};
ghost use Rattle.identifiers.specs.Parts.{BeginsWith};

// What stands behind a front, whatever the case of its letters.
fn behind<'a>(front: &[u8], text: &'a [u8]) -> Option<&'a [u8]>
    ensures { MatchOption result (BeginsWith front.now text.now → ⊥) (λ rest. BeginsWith front.now text.now × (rest.now ≡ drop (length front.now) text.now)) }
{
    if text.len() < front.len() {
        return None;
    }
    let (head, rest) = text.split_at(front.len());
    if front.eq_ignore_ascii_case(head) {
        Some(rest)
    } else {
        None
    }
}
