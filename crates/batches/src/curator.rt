// The names of curators.
ghost use Rattle.std.specs.Prelude.{◌≡◌};
ghost use Rattle.batches.specs.Curators.{is_curator};

/// Whether the text names a curator: 1 to 64 ASCII letters, digits, `_` or `-`. It takes no memory.
pub fn curator_ok(name: &[u8]) -> bool
    ensures { result ≡ is_curator name.now }
{
    (1..=64).contains(&name.len()) && has_curator_bytes(name)
}

ghost use Rattle.std.specs.Prelude.{◌||◌, nat_eq};
ghost use Rattle.std.specs.List.{list_all};
ghost use Rattle.std.specs.Char.{is_ascii_alphanumeric};

fn has_curator_bytes(name: &[u8]) -> bool
    ensures { result ≡ list_all (λ b. is_ascii_alphanumeric b || (nat_eq b 95 || nat_eq b 45)) name.now }
{
    name.iter()
        .all(|b| b.is_ascii_alphanumeric() || *b == b'_' || *b == b'-')
}
