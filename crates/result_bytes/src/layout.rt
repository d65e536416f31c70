// Laying out a result.
ghost use Rattle.std.specs.Prelude.{◌≡◌, ◌≤◌, ◌<◌, ◌+◌, ◌^◌, ◌++◌, ◌∷◌, [], true, length, IfErr, IfOk, OnOk};
ghost use Rattle.csv.specs.Writing.{fields_written, has_written, next_sep, writer_setup};
ghost use Rattle.cite_schema.specs.Layout.{cells, labels, laid_out, line, quoted};
ghost use Rattle.result_bytes.specs.Refusal.{TellsSize};
ghost use Rattle.result_bytes.specs.Writer.{IsBetweenLines, all_quoted, written};

use crate::fault::{LIMIT, LayFault};
use crate::field::shown_text;
use crate::size::result_size;
use cite_schema::{ByteText, Item, List, NoMemory, Row};
use csv::{QuoteStyle, Writer, WriterBuilder};
use itoa::Buffer;
use std::alloc::Global;

/// The bytes of a result: the line of the items' labels, and a line for each row in order, with what the items show of
/// it. Each field stands in double quotes, with inner ones doubled; commas stand between fields, and a line feed ends
/// each line. A column that a row lacks shows nothing.
///
/// A result of more than 67,108,864 bytes is `TooLarge`, with their number, before any memory is taken. One of 2^64 bytes
/// or more, whose number no `u64` holds, is want of memory.
///
/// It goes over items times rows twice: once to measure, and once to write. Numbers are printed on the stack, texts
/// are copied once, into memory of the measured size.
pub fn lay_out(alloc: Global, items: &List<Item>, rows: &List<Row>) -> Result<ByteText, LayFault>
    requires { 0 < length items.now }
    ensures ok { IfOk result (λ text. text ≡ laid_out items.now rows.now) }
    ensures within { OnOk result (length (laid_out items.now rows.now) ≤ 67108864) }
    ensures too_large { IfErr result (λ fault. TellsSize 67108864 (length (laid_out items.now rows.now)) fault) }

    // A result that is too large is never answered by want of memory.
    ensures refused { let size = length (laid_out items.now rows.now)
        in 67108864 < size → size < 2 ^ 64 → result ≡ Err (LayFault.TooLarge size) }
{
    let Some(bytes) = result_size(items.as_slice(), rows.as_slice()) else {
        return Err(LayFault::NoMemory);
    };
    if bytes > LIMIT {
        return Err(LayFault::TooLarge { bytes });
    }
    Ok(lines(alloc, items.as_slice(), rows.as_slice(), bytes as usize)?)
}

// The lines of a result that has so many bytes.
fn lines(alloc: Global, items: &[Item], rows: &[Row], size: usize) -> Result<ByteText, NoMemory>
    requires { 0 < length items.now }
    ensures { IfOk result (λ text. text ≡ laid_out items.now rows.now) }
{
    let mut out = WriterBuilder::new()
        .quote_style(QuoteStyle::Always)
        .from_writer(Vec::with_capacity(alloc, size)?);
    write_labels(&mut out, items)?;
    for row in rows {
        write_row(&mut out, items, row)?;
    }
    match out.into_inner() {
        Ok(bytes) => Ok(ByteText::from_vec(bytes)),
        Err(_) => Err(NoMemory),
    }
}

fn write_labels(out: &mut Writer<Vec<u8>>, items: &[Item]) -> Result<(), NoMemory>
    requires some { 0 < length items.now }
    requires between { IsBetweenLines out.old }
    ensures between { OnOk result (IsBetweenLines out.new) }
    ensures text { OnOk result (written out.new ≡ written out.old ++ line (labels items.now)) }
{
    for item in items {
        write_field(out, item.label.as_slice())?;
    }
    end_line(out)
}

fn write_row(out: &mut Writer<Vec<u8>>, items: &[Item], row: &Row) -> Result<(), NoMemory>
    requires some { 0 < length items.now }
    requires between { IsBetweenLines out.old }
    ensures between { OnOk result (IsBetweenLines out.new) }
    ensures text { OnOk result (written out.new ≡ written out.old ++ line (cells items.now row.now)) }
{
    let mut buffer = Buffer::new();
    for item in items {
        write_field(out, shown_text(&mut buffer, &item.what, row))?;
    }
    end_line(out)
}

// Writes a field of the present line, and a comma before it where it isn't the first.
#[tactic(auto, using(crate::proofs::Fields::field_text_quoted))]
fn write_field(out: &mut Writer<Vec<u8>>, text: &[u8]) -> Result<(), NoMemory>
    requires setup { writer_setup out.old ≡ all_quoted }
    requires room { fields_written out.old + 1 < 2 ^ 64 }
    ensures setup { OnOk result (writer_setup out.new ≡ all_quoted) }
    ensures count { OnOk result (fields_written out.new ≡ fields_written out.old + 1) }
    ensures shows { OnOk result (has_written out.new ≡ true) }
    ensures text { OnOk result (written out.new ≡ written out.old ++ (next_sep all_quoted (fields_written out.old) ++ quoted text.now)) }
{
    if out.write_field(text).is_err() {
        return Err(NoMemory);
    }
    Ok(())
}

// Ends the present line, which has a field.
fn end_line(out: &mut Writer<Vec<u8>>) -> Result<(), NoMemory>
    requires setup { writer_setup out.old ≡ all_quoted }
    requires shows { has_written out.old ≡ true }
    ensures between { OnOk result (IsBetweenLines out.new) }
    ensures text { OnOk result (written out.new ≡ written out.old ++ (10 ∷ [])) }
{
    if out.end_record().is_err() {
        return Err(NoMemory);
    }
    Ok(())
}
