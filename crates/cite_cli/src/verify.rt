// The command `verify`.
ghost use Rattle.std.specs.Prelude.{◌≡◌, ◌++◌, ◌≤◌, ℕ, Option, List as Listed, IfOk, OnOk, length, codes};
ghost use Rattle.std.specs.Fmt.{decimal};
ghost use Rattle.sha2.specs.Sha256.{sha256};
ghost use Rattle.hex.specs.Hex.{encode_lower};
ghost use Rattle.cite_cli.specs.Seen.{on_disk};
ghost use Rattle.versioned_rows.specs.Histories.{last_table};
ghost use Rattle.entry_codec.specs.declared.entry.Entry.{Entry as Told};
ghost use Rattle.archive_model.specs.Archives.{Archive};
ghost use Rattle.archive_model.specs.Histories.{LeadsTo};
ghost use Rattle.archive_state.specs.Standing.{PartsStand, Shows};
ghost use Rattle.cite_cli.specs.Verify.{counts, verify_text, LosesNothing, Verifies};
ghost use Rattle.cite_cli.specs.Parts.{VerifyDue, AddsCitation};

use crate::ending::Ending;
use crate::opening::open;
use crate::output::Due;
use archive_core::{LookFault, Snapshot};
use cite_disk::Disk;
use cite_ports::Sink;
use cite_schema::{ByteText, NoMemory};
use result_bytes::{digest_text, fingerprint};
use std::alloc::Global;

/// Opens the archive of the disk, resolves each of its citations, and writes what it has and the digest of each result.
/// It costs what opening costs, for each citation what resolving it costs, and memory for the text.
pub fn verify<K: Sink, D: Disk>(alloc: Global, sink: &mut K, disk: &mut D) -> Ending
    ensures { (left given : Option (Listed ℕ)) (reads : ℕ) → Verifies (record {
      left_before = left;
      left_after = left;
      reads_before = reads;
      reads_after = reads;
      written_before = K.written sink.old;
      written_after = K.written sink.new;
      writes_before = K.faults_of sink.old;
      writes_after = K.faults_of sink.new;
      given_before = given;
      given_after = given;
    }) (on_disk D.honest D.seen D.images D.moment D.left_since D.fault_count disk.old disk.new) result }
{
    let due = verified(alloc, disk);
    due.deliver(sink)
}

// Opens the archive, and tells what is due.
fn verified<D: Disk>(alloc: Global, disk: &mut D) -> Due
    ensures due { VerifyDue (on_disk D.honest D.seen D.images D.moment D.left_since D.fault_count disk.old disk.new) result }
    ensures safe { D.honest → LosesNothing (on_disk D.honest D.seen D.images D.moment D.left_since D.fault_count disk.old disk.new) }
{
    match open(alloc, disk) {
        Ok(desk) => Due::of(Ending::Done, text_of(alloc, desk.snapshot())),
        Err(due) => due,
    }
}

// What is told of an archive that readers see.
fn text_of(alloc: Global, seen: &Snapshot) -> Result<ByteText, NoMemory>
    requires { PartsStand seen.now.rows seen.now.store }
    ensures { IfOk result (λ text. (history : Listed Told) (a : Archive) → LeadsTo history a → Shows seen.now a → text ≡ verify_text a) }
{
    let mut text = counts_of(alloc, seen)?;
    for place in 0..seen.issued() {
        push_citation(alloc, &mut text, seen, place + 1)?;
    }
    Ok(ByteText::from_vec(text))
}

// The lines of what is counted.
fn counts_of(alloc: Global, seen: &Snapshot) -> Result<Vec<u8>, NoMemory>
    ensures { IfOk result (λ text. text.items ≡ counts seen.now.rows.last seen.now.schema.number (length (last_table seen.now.rows)) (length seen.now.store)) }
{
    let schema = seen.schema().number();
    count_lines(alloc, seen.version(), schema, seen.rows(), seen.issued())
}

fn count_lines(
    alloc: Global,
    version: u32,
    schema: u32,
    rows: u64,
    citations: u32,
) -> Result<Vec<u8>, NoMemory>
    ensures { IfOk result (λ text. text.items ≡ counts version schema rows citations) }
{
    let text = format!(in alloc;
        "version {version}\nschema {schema}\nrows {rows}\ncitations {citations}\n"
    )?;
    Ok(text.into_bytes())
}

// Puts the line of a citation behind the others: the query is executed again.
fn push_citation(
    alloc: Global,
    text: &mut Vec<u8>,
    seen: &Snapshot,
    number: u32,
) -> Result<(), NoMemory>
    requires parts { PartsStand seen.now.rows seen.now.store }
    requires first { 1 ≤ number }
    requires last { number ≤ length seen.now.store }
    ensures { OnOk result ((history : Listed Told) (a : Archive) → LeadsTo history a → Shows seen.now a → AddsCitation a number text.old.items text.new.items) }
{
    let bytes = match Snapshot::resolve(alloc, seen.table(), seen.store(), number) {
        Ok(bytes) => bytes,
        Err(fault) => match fault {
            LookFault::NoMemory => return Err(NoMemory),
            LookFault::NotIssued { .. } => unreachable!(),
        },
    };
    let line = digest_line(alloc, number, bytes.as_slice())?;
    text.extend_from_slice(line.as_slice())?;
    Ok(())
}

// The number of a citation, and the digest of its bytes.
fn digest_line(alloc: Global, number: u32, bytes: &[u8]) -> Result<ByteText, NoMemory>
    ensures { IfOk result (λ line. line ≡ codes "c" ++ decimal number ++ codes " " ++ encode_lower (sha256 bytes.now) ++ codes "\n") }
{
    let mut line = format!(in alloc; "c{number} ")?.into_bytes();
    let digest = digest_text(alloc, &fingerprint(bytes))?;
    line.extend_from_slice(digest.as_slice())?;
    line.push(b'\n')?;
    Ok(ByteText::from_vec(line))
}
