// The size of a result, before it is laid out.
ghost use Rattle.std.specs.Prelude.{◌≡◌, ◌≤◌, ◌<◌, ◌+◌, ◌^◌, length, IfNone, IfSome};
ghost use Rattle.cite_schema.specs.Layout.{cells, doubled, labels, laid_out, line};

use crate::field::shown_text;
use cite_schema::{Item, Row};
use itoa::Buffer;

// How many bytes a result has, if the number fits a `u64`. It takes no memory, and reads each cell and each constant
// once for each row.
pub(crate) fn result_size(items: &[Item], rows: &[Row]) -> Option<u64>
    requires { 0 < length items.now }
    ensures some { IfSome result (λ size. size ≡ length (laid_out items.now rows.now)) }
    ensures none { IfNone result (2 ^ 64 ≤ length (laid_out items.now rows.now)) }
{
    let mut size = labels_size(items)?;
    for row in rows {
        size = with_row(size, items, row)?;
    }
    Some(size)
}

// The size of the line of labels.
fn labels_size(items: &[Item]) -> Option<u64>
    requires { 0 < length items.now }
    ensures some { IfSome result (λ size. size ≡ length (line (labels items.now))) }
    ensures none { IfNone result (2 ^ 64 ≤ length (line (labels items.now))) }
{
    let mut size = 0;
    for item in items {
        size = with_field(size, item.label.as_slice())?;
    }
    Some(size)
}

// A size, and that of a row's line.
fn with_row(size: u64, items: &[Item], row: &Row) -> Option<u64>
    requires { 0 < length items.now }
    ensures some { IfSome result (λ sum. sum ≡ size + length (line (cells items.now row.now))) }
    ensures none { IfNone result (2 ^ 64 ≤ size + length (line (cells items.now row.now))) }
{
    let mut buffer = Buffer::new();
    let mut sum = size;
    for item in items {
        sum = with_field(sum, shown_text(&mut buffer, &item.what, row))?;
    }
    Some(sum)
}

// A size, and that of a field: its text with inner quotes doubled, the two quotes around it, and the comma or the line
// feed behind it.
#[tactic(auto, using(crate::proofs::Sizes::doubled_size))]
fn with_field(size: u64, text: &[u8]) -> Option<u64>
    ensures some { IfSome result (λ sum. sum ≡ size + (length (doubled text.now) + 3)) }
    ensures none { IfNone result (2 ^ 64 ≤ size + (length (doubled text.now) + 3)) }
{
    let inner_quotes = text.iter().filter(|byte| **byte == b'"').count();
    match size.checked_add(text.len() as u64) {
        Some(sum) => sum.checked_add(inner_quotes as u64 + 3),
        None => None,
    }
}
