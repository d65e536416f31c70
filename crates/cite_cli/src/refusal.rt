// Why an input or words are refused.
ghost use Rattle.std.specs.Prelude.{◌≡◌, Some, IfOk};
ghost use Rattle.cite_cli.specs.Refusals.{told, refusal_line};
ghost use Rattle.cite_cli.specs.declared.refusal.Fault.TheVariants as faults;

use cite_schema::{ByteText, NoMemory};
use std::alloc::{AllocError, Global};
use std::fmt;

/// The rule that an input, or the words of a founding, break. Lines are counted from 1 after the header record, columns
/// from 0.
#[derive(Clone, Copy, Debug, PartialEq, Eq)]
pub enum Refusal {
    /// There is no record, or the first one is no header.
    BadHeader,
    /// No column has the name that is asked for.
    UnknownColumn,
    /// The column that is asked for holds texts.
    WrongKind,
    /// The line has another number of fields than there are columns.
    BadWidth { line: u32 },
    /// The field in this column of the line says no value there, and is the first such field of the line.
    BadCell { line: u32, column: u16 },
    /// An earlier line has the key of this line.
    KeyTwice { line: u32 },
    /// The result would have so many bytes, more than the 67,108,864 that a result may have.
    ResultTooLarge { bytes: u64 },
    /// The prefix is not `10.` and four to nine digits.
    BadPrefix,
    /// The publisher (4), the creator (1) or the title (2) is no plain text of 1 to 1,024 bytes.
    BadMeta { part: u8 },
    /// There is no column.
    NoColumns,
    /// There are more than 64 columns.
    TooManyColumns,
    /// The name of this column is not of the form of names, or its word spells no column.
    BadName { place: u16 },
    /// An earlier column has the name of this one.
    NameTwice { place: u16 },
    /// The moment, in seconds since 1970, has no stamp: it is in the year 10000 or later.
    ClockRange { moment: u64 },
}

/// The name of the rule, and its numbers, each after a space.
impl fmt::Display for Refusal {
    ghost output = { λ refusal. Some (told refusal) };

    fn fmt<W: fmt::Write>(&self, f: &mut fmt::Formatter<W>) -> fmt::Result {
        match self {
            Refusal::BadHeader => write!(f, "BadHeader"),
            Refusal::UnknownColumn => write!(f, "UnknownColumn"),
            Refusal::WrongKind => write!(f, "WrongKind"),
            Refusal::BadWidth { line } => write!(f, "BadWidth {line}"),
            Refusal::BadCell { line, column } => write!(f, "BadCell {line} {column}"),
            Refusal::KeyTwice { line } => write!(f, "KeyTwice {line}"),
            Refusal::ResultTooLarge { bytes } => write!(f, "ResultTooLarge {bytes}"),
            Refusal::BadPrefix => write!(f, "BadPrefix"),
            Refusal::BadMeta { part } => write!(f, "BadMeta {part}"),
            Refusal::NoColumns => write!(f, "NoColumns"),
            Refusal::TooManyColumns => write!(f, "TooManyColumns"),
            Refusal::BadName { place } => write!(f, "BadName {place}"),
            Refusal::NameTwice { place } => write!(f, "NameTwice {place}"),
            Refusal::ClockRange { moment } => write!(f, "ClockRange {moment}"),
        }
    }
}

/// The line that tells a rule which is broken.
pub fn refusal_line(alloc: Global, refusal: Refusal) -> Result<ByteText, NoMemory>
    ensures { IfOk result (λ line. line ≡ refusal_line refusal) }
{
    let line = format!(in alloc; "Refused {refusal}\n")?;
    Ok(ByteText::from_slice(alloc, line.as_bytes())?)
}

/// Why there is no result.
#[derive(Clone, Copy, Debug, PartialEq, Eq)]
pub enum Fault {
    /// The input breaks a rule.
    Refused(Refusal),
    /// Want of memory.
    NoMemory,
}

impl From<AllocError> for Fault {
    ghost from_gives = { λ _ fault. fault ≡ faults.NoMemory };

    fn from(_: AllocError) -> Fault {
        Fault::NoMemory
    }
}

impl From<NoMemory> for Fault {
    ghost from_gives = { λ _ fault. fault ≡ faults.NoMemory };

    fn from(_: NoMemory) -> Fault {
        Fault::NoMemory
    }
}
