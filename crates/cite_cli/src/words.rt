// The forms of a run's words.
ghost use Rattle.std.specs.Prelude.{◌≡◌, ◌↔◌, IsTrue, List, ℕ, map, string_bytes, MatchOption};
ghost use Rattle.cite_schema.specs.declared.schema.Column.{Column};
ghost use Rattle.cite_schema.specs.declared.dataset.Dataset.{Dataset};
ghost use Rattle.cite_cli.specs.declared.bounds.Bounds.{Bounds as Read};
ghost use Rattle.cite_cli.specs.Select.{IsSelect};
ghost use Rattle.cite_cli.specs.Init.{IsInit};
ghost use Rattle.cite_cli.specs.Verify.{IsVerify};
ghost use Rattle.cite_cli.specs.Session.{IsSession};

use crate::bounds::Bounds;

/// The words of a `select`.
#[derive(Clone, Copy)]
pub struct SelectWords<'a> {
    pub column: &'a [u8],
    pub bounds: Bounds,
}

/// The words of an `init`: what is told of the data set, and a word for each column.
#[derive(Clone, Copy)]
pub struct InitWords<'a> {
    pub prefix: &'a [u8],
    pub publisher: &'a [u8],
    pub creator: &'a [u8],
    pub title: &'a [u8],
    pub columns: &'a [String],
}

ghost use Rattle.cite_cli.specs.Parts.{told_by, columns_by};

/// The words `select COLUMN LO HI`, with bounds that LO and HI say; `None` exactly where they are others.
pub fn select_words(words: &[String]) -> Option<SelectWords<'_>>
    ensures { MatchOption result ((column : List ℕ) (bounds : Read) → IsSelect (map string_bytes words.now) column bounds → ⊥) (λ w. IsSelect (map string_bytes words.now) w.column.now w.bounds) }
{
    let [command, column, low, high] = words else {
        return None;
    };
    if !says(command, "select") {
        return None;
    }
    match Bounds::read(low.as_bytes(), high.as_bytes()) {
        Some(bounds) => Some(SelectWords {
            column: column.as_bytes(),
            bounds,
        }),
        None => None,
    }
}

/// The words `init PREFIX PUBLISHER CREATOR TITLE COLUMN..`, with one COLUMN or more; `None` exactly where they are others.
pub fn init_words(words: &[String]) -> Option<InitWords<'_>>
    ensures { MatchOption result ((dataset : Dataset) (columns : List Column) → IsInit (map string_bytes words.now) dataset columns → ⊥) (λ w. IsInit (map string_bytes words.now) (told_by w) (columns_by w)) }
{
    let [command, prefix, publisher, creator, title, columns @ ..] = words else {
        return None;
    };
    if columns.is_empty() || !says(command, "init") {
        return None;
    }
    Some(InitWords {
        prefix: prefix.as_bytes(),
        publisher: publisher.as_bytes(),
        creator: creator.as_bytes(),
        title: title.as_bytes(),
        columns,
    })
}

/// Whether the one word is `verify`.
pub fn is_verify(words: &[String]) -> bool
    ensures { IsTrue result ↔ IsVerify (map string_bytes words.now) }
{
    let [command] = words else {
        return false;
    };
    says(command, "verify")
}

/// Whether the one word is `session`.
pub fn is_session(words: &[String]) -> bool
    ensures { IsTrue result ↔ IsSession (map string_bytes words.now) }
{
    let [command] = words else {
        return false;
    };
    says(command, "session")
}

fn says(word: &String, name: &str) -> bool
    ensures { IsTrue result ↔ (string_bytes word.now ≡ name.now) }
{
    word.as_str() == name
}
