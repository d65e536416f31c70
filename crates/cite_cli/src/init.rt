// The command `init`.
ghost use Rattle.std.specs.Prelude.{◌≡◌, IfOk, map, string_bytes};
ghost use Rattle.cite_cli.specs.Seen.{on_disk};
ghost use Rattle.cite_cli.specs.Init.{said_column, founding_rule, name_line, Inits};
ghost use Rattle.cite_cli.specs.Parts.{told_by, columns_by, InitDue};

use crate::ending::Ending;
use crate::output::Due;
use crate::refusal::{Refusal, refusal_line};
use crate::words::InitWords;
use archive_core::Desk;
use archive_model::FoundFault;
use cite_disk::Disk;
use cite_ports::{Clock, Sink};
use cite_schema::{ByteText, Column, Dataset, Kind, List, NoMemory, SchemaFault};
use csv_records::read_column;
use identifiers::superset;
use std::alloc::Global;

/// Founds the archive that the words tell, at the clock's moment, and writes the name of its data set. The words are
/// tested first, then the moment, then the disk, which is touched by no refusal. All memory but that of a line that
/// refuses is taken before the disk is asked.
pub fn init<K: Sink, D: Disk, C: Clock>(
    alloc: Global,
    words: &InitWords<'_>,
    sink: &mut K,
    disk: &mut D,
    clock: &mut C,
) -> Ending
    ensures { (left : Option (Listed ℕ)) (reads : ℕ) → Inits (told_by words.now) (columns_by words.now) (record {
      left_before = left;
      left_after = left;
      reads_before = reads;
      reads_after = reads;
      written_before = K.written sink.old;
      written_after = K.written sink.new;
      writes_before = K.faults_of sink.old;
      writes_after = K.faults_of sink.new;
      given_before = C.given clock.old;
      given_after = C.given clock.new;
    }) (on_disk D.honest D.seen D.images D.moment D.left_since D.fault_count disk.old disk.new) result }
{
    let now = clock.now();
    let due = founded(alloc, words, disk, now);
    due.deliver(sink)
}

ghost use Rattle.std.specs.Prelude.{ℕ, Option, List as Listed};

// Founds the archive at a moment, and tells what is due.
fn founded<D: Disk>(alloc: Global, words: &InitWords<'_>, disk: &mut D, now: u64) -> Due
    ensures { InitDue (record { stamp = now; dataset = told_by words.now; columns = columns_by words.now }) (on_disk D.honest D.seen D.images D.moment D.left_since D.fault_count disk.old disk.new) result }
{
    let Ok(told) = read_founding(alloc, words) else {
        return Due::NoMemory;
    };
    let Founding {
        dataset,
        columns,
        name,
    } = told;
    match Desk::found(alloc, disk, &dataset, columns, now) {
        Ok(_desk) => Due::Writes(Ending::Done, name),
        Err(fault) => match founding_rule(&fault) {
            Some(refusal) => Due::of(Ending::Refused, refusal_line(alloc, refusal)),
            None => match fault {
                FoundFault::Occupied => Due::of(Ending::Occupied, occupied_line(alloc)),
                FoundFault::DiskFailed => Due::DiskFault,
                FoundFault::NoMemory => Due::NoMemory,
                FoundFault::BadPrefix
                | FoundFault::BadMeta(_)
                | FoundFault::Schema(_)
                | FoundFault::ClockRange { .. } => unreachable!(),
            },
        },
    }
}

// What the words of an `init` tell, and the line to write once it is founded.
#[derive(Drop)]
struct Founding {
    dataset: Dataset,
    columns: List<Column>,
    name: ByteText,
}

fn read_founding(alloc: Global, words: &InitWords<'_>) -> Result<Founding, NoMemory>
    ensures dataset { IfOk result (λ told. told.dataset ≡ told_by words.now) }
    ensures columns { IfOk result (λ told. told.columns ≡ columns_by words.now) }
    ensures name { IfOk result (λ told. told.name ≡ name_line (told_by words.now)) }
{
    let dataset = Dataset {
        prefix: ByteText::from_slice(alloc, words.prefix)?,
        publisher: ByteText::from_slice(alloc, words.publisher)?,
        creator: ByteText::from_slice(alloc, words.creator)?,
        title: ByteText::from_slice(alloc, words.title)?,
    };
    let columns = read_columns(alloc, words.columns)?;
    let name = superset_line(alloc, words.prefix)?;
    Ok(Founding {
        dataset,
        columns,
        name,
    })
}

// The column that each word spells. A word of another form spells one with an empty name, which is none.
fn read_columns(alloc: Global, words: &[String]) -> Result<List<Column>, NoMemory>
    ensures { IfOk result (λ columns. columns ≡ map (λ w. said_column (string_bytes w)) words.now) }
{
    let mut columns = List::new(alloc);
    for word in words {
        columns.push(read_word(alloc, word.as_bytes())?)?;
    }
    Ok(columns)
}

fn read_word(alloc: Global, word: &[u8]) -> Result<Column, NoMemory>
    ensures { IfOk result (λ column. column ≡ said_column word.now) }
{
    match read_column(alloc, word)? {
        Some(column) => Ok(column),
        None => Ok(Column {
            name: ByteText::new(alloc),
            kind: Kind::Int,
        }),
    }
}

// The line of the data set's name.
fn superset_line(alloc: Global, prefix: &[u8]) -> Result<ByteText, NoMemory>
    ensures { IfOk result (λ line. line ≡ name_of prefix.now named.Superset ++ codes "\n") }
{
    let mut line = superset(alloc, prefix)?;
    line.push(b'\n')?;
    Ok(line)
}

ghost use Rattle.std.specs.Prelude.{◌++◌, codes};
ghost use Rattle.identifiers.specs.Names.{name_of};
ghost use Rattle.identifiers.specs.declared.named.Named.TheVariants as named;

fn occupied_line(alloc: Global) -> Result<ByteText, NoMemory>
    ensures { IfOk result (λ line. line ≡ codes "Occupied\n") }
{
    Ok(ByteText::from_slice(alloc, b"Occupied\n")?)
}

// The rule that a founding breaks, as it is told; `None` for the other faults.
fn founding_rule(fault: &FoundFault) -> Option<Refusal>
    ensures { result ≡ founding_rule fault.now }
{
    match fault {
        FoundFault::BadPrefix => Some(Refusal::BadPrefix),
        FoundFault::BadMeta(part) => Some(Refusal::BadMeta { part: *part }),
        FoundFault::Schema(fault) => Some(schema_rule(fault)),
        FoundFault::ClockRange { moment } => Some(Refusal::ClockRange { moment: *moment }),
        FoundFault::NoMemory | FoundFault::DiskFailed | FoundFault::Occupied => None,
    }
}

ghost use Rattle.cite_cli.specs.Init.{schema_rule};

fn schema_rule(fault: &SchemaFault) -> Refusal
    ensures { result ≡ schema_rule fault.now }
{
    match fault {
        SchemaFault::NoColumns => Refusal::NoColumns,
        SchemaFault::TooManyColumns => Refusal::TooManyColumns,
        SchemaFault::BadName(place) => Refusal::BadName { place: *place },
        SchemaFault::NameTwice(place) => Refusal::NameTwice { place: *place },
    }
}
