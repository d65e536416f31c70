// Texts that spell numbers.
ghost use Rattle.std.specs.Prelude.{◌≡◌};
ghost use Rattle.cite_schema.specs.Numbers.{number_of};

/// The number that a text spells: an optional `-` or `+`, then 1 to 32 decimal digits, and a value that fits an
/// `i64`. `None` exactly where the text spells none. It takes no memory.
pub fn read_int(text: &[u8]) -> Option<i64>
    ensures { result ≡ number_of text.now }
{
    if digit_count(text) > 32 {
        return None;
    }
    match str::from_utf8(text) {
        Ok(text) => text.parse::<i64>().ok(),
        Err(_) => None,
    }
}

ghost use Rattle.std.specs.Prelude.{length};
ghost use Rattle.std.specs.Str.Parse.{without_leading_sign};

// How many bytes stand behind an optional sign.
fn digit_count(text: &[u8]) -> usize
    ensures { result ≡ length (without_leading_sign text.now) }
{
    match text {
        [b'-' | b'+', digits @ ..] => digits.len(),
        _ => text.len(),
    }
}
