// Which metadata a citation may have.
ghost use Rattle.std.specs.Prelude.{◌≡◌, ◌&&◌, not, nat_le, nat_eq};
ghost use Rattle.std.specs.List.{list_all};
ghost use Rattle.std.specs.Str.{is_utf8};
ghost use Rattle.cite_schema.specs.Metadata.{is_plain, is_plain_within, are_creators, meta_fault};

use crate::list::ByteText;
use crate::query::Meta;

/// Whether the bytes are a plain text: UTF-8 without a byte below 32 and without byte 127. It takes no memory, and
/// goes through the text once.
pub fn is_plain(text: &[u8]) -> bool
    ensures { result ≡ is_plain text.now }
{
    is_utf8(text) && has_no_control(text)
}

fn is_utf8(text: &[u8]) -> bool
    ensures { result ≡ is_utf8 text.now }
{
    match std::str::from_utf8(text) {
        Ok(_) => true,
        Err(_) => false,
    }
}

fn has_no_control(text: &[u8]) -> bool
    ensures { result ≡ list_all (λ b. nat_le 32 b && not (nat_eq b 127)) text.now }
{
    text.iter().all(|byte| *byte >= 32 && *byte != 127)
}

/// Whether the bytes are a plain text of at least `least` and at most `most` bytes. It takes no memory.
pub fn is_plain_within(least: usize, most: usize, text: &[u8]) -> bool
    ensures { result ≡ is_plain_within least most text.now }
{
    least <= text.len() && text.len() <= most && is_plain(text)
}

/// The first rule that metadata break, or none: 1 where there are not 1 to 16 creators, each a plain text of 1 to 1,024
/// bytes; 2 where the title is no plain text of 1 to 1,024 bytes; 3 where the description is no plain text of at most
/// 4,096 bytes. It takes no memory, and time in the bytes of the metadata.
pub fn meta_fault(meta: &Meta) -> Option<u8>
    ensures { result ≡ meta_fault meta.now }
{
    if !are_creators(meta.creators.as_slice()) {
        Some(1)
    } else if !is_plain_within(1, 1_024, meta.title.as_slice()) {
        Some(2)
    } else if !is_plain_within(0, 4_096, meta.description.as_slice()) {
        Some(3)
    } else {
        None
    }
}

fn are_creators(names: &[ByteText]) -> bool
    ensures { result ≡ are_creators names.now }
{
    (1..=16).contains(&names.len()) && are_plain_names(names)
}

fn are_plain_names(names: &[ByteText]) -> bool
    ensures { result ≡ list_all (is_plain_within 1 1024) names.now }
{
    names
        .iter()
        .all(|name| is_plain_within(1, 1_024, name.as_slice()))
}

#[cfg(test)]
mod tests;
