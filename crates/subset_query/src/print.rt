// The printed form of a query.
ghost use Rattle.std.specs.Prelude.{◌≡◌, ◌++◌, ℕ, IfOk, OnOk, List as Listed, codes};
ghost use Rattle.std.specs.List.{flat_map};
ghost use Rattle.std.specs.String.{string_bytes};
ghost use Rattle.std.specs.Fmt.{signed_decimal};
ghost use Rattle.hex.specs.Hex.{encode_lower};
ghost use Rattle.subset_query.specs.Printed.{is_whole, span_text, spans_line, set_line, set_lines, shown_text, label_line, item_line, order_line, printed_form};

use crate::form::{ColumnSet, Normal};
use cite_schema::{ByteText, Dir, Item, List, NoMemory, Shown};
use interval_normal::{Point, Set, Span};
use std::alloc::Global;

impl Normal {
    /// The printed form: lines of ASCII text, with numbers in decimal and texts in lower-case hexadecimal. A column whose
    /// set is full has no line. The lines are written into one growing buffer.
    pub fn print(&self, alloc: Global) -> Result<ByteText, NoMemory>
        ensures { IfOk result (λ text. text ≡ printed_form self.now) }
    {
        let text = match self {
            Normal::Nothing { labels } => labels_text(alloc, labels.as_slice())?,
            Normal::Some { sets, items, order } => parts_text(
                alloc,
                sets.as_slice(),
                items.as_slice(),
                order.as_slice(),
            )?,
        };
        Ok(List::from_vec(text.into_bytes()))
    }
}

/// Points that have a spelling.
trait Spelled: Point {
    ghost spelling: { Self → Listed ℕ };

    fn spell(&self, alloc: Global) -> Result<String, NoMemory>
        ensures { IfOk result (λ text. string_bytes text ≡ spelling self.now) };
}

impl Spelled for i64 {
    ghost spelling = { signed_decimal };

    fn spell(&self, alloc: Global) -> Result<String, NoMemory> {
        let number = *self;
        Ok(format!(in alloc; "{number}")?)
    }
}

impl Spelled for ByteText {
    ghost spelling = { encode_lower };

    fn spell(&self, alloc: Global) -> Result<String, NoMemory> {
        Ok(hex::encode(alloc, self.as_slice())?)
    }
}

fn labels_text(alloc: Global, labels: &[ByteText]) -> Result<String, NoMemory>
    ensures { IfOk result (λ text. string_bytes text ≡ codes "none\n" ++ flat_map label_line labels.now) }
{
    let mut out = String::new(alloc);
    out.push_str("none\n")?;
    for label in labels {
        write_label(alloc, &mut out, label)?;
    }
    Ok(out)
}

fn parts_text(
    alloc: Global,
    sets: &[ColumnSet],
    items: &[Item],
    order: &[Dir],
) -> Result<String, NoMemory>
    ensures { IfOk result (λ text. string_bytes text ≡ codes "some\n" ++ (set_lines 0 sets.now ++ (flat_map item_line items.now ++ flat_map order_line order.now))) }
{
    let mut out = String::new(alloc);
    out.push_str("some\n")?;
    write_sets(alloc, &mut out, sets)?;
    write_items(alloc, &mut out, items)?;
    write_order(&mut out, order)?;
    Ok(out)
}

fn write_sets(alloc: Global, out: &mut String, sets: &[ColumnSet]) -> Result<(), NoMemory>
    ensures { OnOk result (string_bytes out.new ≡ string_bytes out.old ++ set_lines 0 sets.now) }
{
    for i in 0..sets.len() {
        write_set(alloc, out, i, &sets[i])?;
    }
    Ok(())
}

fn write_set(
    alloc: Global,
    out: &mut String,
    column: usize,
    set: &ColumnSet,
) -> Result<(), NoMemory>
    ensures { OnOk result (string_bytes out.new ≡ string_bytes out.old ++ set_line column set.now) }
{
    match set {
        ColumnSet::Ints(numbers) => write_spans(alloc, out, column, numbers),
        ColumnSet::Texts(texts) => write_spans(alloc, out, column, texts),
    }
}

fn write_spans<P: Spelled>(
    alloc: Global,
    out: &mut String,
    column: usize,
    set: &Set<P>,
) -> Result<(), NoMemory>
    ensures { OnOk result (string_bytes out.new ≡ string_bytes out.old ++ spans_line P.cmp P.bottom P.spelling column set.now) }
{
    if is_whole(alloc, set)? {
        return Ok(());
    }
    write!(out, "column {column}")?;
    for span in set.spans().as_slice() {
        write_span(alloc, out, span)?;
    }
    out.push_str("\n")?;
    Ok(())
}

fn is_whole<P: Point>(alloc: Global, set: &Set<P>) -> Result<bool, NoMemory>
    ensures { IfOk result (λ whole. whole ≡ is_whole P.cmp P.bottom set.now) }
{
    // That its list is canonical is known once it was looked at.
    let _spans = set.spans();
    let full = set.is_full(alloc)?;
    Ok(full)
}

fn write_span<P: Spelled>(alloc: Global, out: &mut String, span: &Span<P>) -> Result<(), NoMemory>
    ensures { OnOk result (string_bytes out.new ≡ string_bytes out.old ++ span_text P.spelling span.now) }
{
    let low = span.low.spell(alloc)?;
    match &span.high {
        Some(high) => {
            let high = high.spell(alloc)?;
            write!(out, " [{low},{high})")?;
            Ok(())
        }
        None => {
            write!(out, " [{low},none)")?;
            Ok(())
        }
    }
}

fn write_items(alloc: Global, out: &mut String, items: &[Item]) -> Result<(), NoMemory>
    ensures { OnOk result (string_bytes out.new ≡ string_bytes out.old ++ flat_map item_line items.now) }
{
    for item in items {
        write_item(alloc, out, item)?;
    }
    Ok(())
}

fn write_item(alloc: Global, out: &mut String, item: &Item) -> Result<(), NoMemory>
    ensures { OnOk result (string_bytes out.new ≡ string_bytes out.old ++ item_line item.now) }
{
    out.push_str("item ")?;
    write_shown(alloc, out, &item.what)?;
    out.push_str(" ")?;
    write_label(alloc, out, &item.label)
}

fn write_shown(alloc: Global, out: &mut String, shown: &Shown) -> Result<(), NoMemory>
    ensures { OnOk result (string_bytes out.new ≡ string_bytes out.old ++ shown_text shown.now) }
{
    match shown {
        Shown::Column(column) => {
            let column = *column;
            write!(out, "column {column}")?;
            Ok(())
        }
        Shown::Constant(text) => write_constant(alloc, out, text),
    }
}

fn write_constant(alloc: Global, out: &mut String, text: &ByteText) -> Result<(), NoMemory>
    ensures { OnOk result (string_bytes out.new ≡ string_bytes out.old ++ (codes "constant " ++ encode_lower text.now)) }
{
    let text = text.spell(alloc)?;
    write!(out, "constant {text}")?;
    Ok(())
}

fn write_label(alloc: Global, out: &mut String, label: &ByteText) -> Result<(), NoMemory>
    ensures { OnOk result (string_bytes out.new ≡ string_bytes out.old ++ label_line label.now) }
{
    let text = label.spell(alloc)?;
    write!(out, "label {text}\n")?;
    Ok(())
}

fn write_order(out: &mut String, order: &[Dir]) -> Result<(), NoMemory>
    ensures { OnOk result (string_bytes out.new ≡ string_bytes out.old ++ flat_map order_line order.now) }
{
    for along in order {
        write_direction(out, along)?;
    }
    Ok(())
}

fn write_direction(out: &mut String, along: &Dir) -> Result<(), NoMemory>
    ensures { OnOk result (string_bytes out.new ≡ string_bytes out.old ++ order_line along.now) }
{
    let column = along.column;
    if along.down {
        write!(out, "order {column} desc\n")?;
    } else {
        write!(out, "order {column} asc\n")?;
    }
    Ok(())
}

#[cfg(test)]
mod tests;
