// The header record of a batch.
ghost use Rattle.std.specs.Prelude.{◌≡◌, ◌≤◌, length};
ghost use Rattle.csv.specs.Records.{fields_of};
ghost use Rattle.batches.specs.Bodies.{is_header};

use cite_schema::Column;
use csv::ByteRecord;
use csv_records::field;

/// Whether the record is `op` and then the names of the columns.
pub(crate) fn is_header(columns: &[Column], head: &ByteRecord) -> bool
    requires { length columns.now ≤ 64 }
    ensures { result ≡ is_header columns.now (fields_of head.now) }
{
    if head.len() != columns.len() + 1 {
        return false;
    }
    is_text(field(head, 0), b"op") && has_names(columns, head)
}

ghost use Rattle.std.specs.Prelude.{◌+◌, ◌↔◌, IsTrue, drop, map};

// Whether the fields from 1 on are the names of the columns.
fn has_names(columns: &[Column], head: &ByteRecord) -> bool
    requires few { length columns.now ≤ 64 }
    requires width { length (fields_of head.now) ≡ length columns.now + 1 }
    ensures { IsTrue result ↔ (drop 1 (fields_of head.now) ≡ map (λ c. c.name) columns.now) }
{
    for i in 0..columns.len() {
        if !is_text(field(head, i + 1), columns[i].name.as_slice()) {
            return false;
        }
    }
    true
}

fn is_text(text: &[u8], other: &[u8]) -> bool
    ensures { IsTrue result ↔ (text.now ≡ other.now) }
{
    text == other
}
