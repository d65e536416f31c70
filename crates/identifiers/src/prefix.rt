// Prefixes.
ghost use Rattle.std.specs.Prelude.{◌≡◌};
ghost use Rattle.identifiers.specs.Prefixes.{is_prefix};

/// Whether the text is a prefix: `10.` and then four to nine decimal digits, as of a DOI registrant without
/// subdivisions (ISO 26324). It takes no memory.
pub fn prefix_ok(text: &[u8]) -> bool
    ensures { result ≡ is_prefix text.now }
{
    match text {
        [b'1', b'0', b'.', digits @ ..] => are_digits(digits) && (4..=9).contains(&digits.len()),
        _ => false,
    }
}

ghost use Rattle.std.specs.List.{list_all};
ghost use Rattle.std.specs.Char.{is_ascii_digit};

fn are_digits(text: &[u8]) -> bool
    ensures { result ≡ list_all is_ascii_digit text.now }
{
    text.iter().all(|b| b.is_ascii_digit())
}
