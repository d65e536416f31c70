// The keys of the lines of a batch.
ghost use Rattle.std.specs.Prelude.{◌≡◌, [], IfOk};
ghost use Rattle.batches.specs.Parts.{key_twice_in, HaveKeys};

use cite_schema::{Line, NoMemory, Value};
use csv_records::Keys;
use std::alloc::Global;

/// The number of the first line whose key a line before it names. The keys are sorted: n log n in the lines, and no text
/// is copied.
pub(crate) fn key_twice(alloc: Global, lines: &[Line]) -> Result<Option<u32>, NoMemory>
    requires keys { HaveKeys lines.now }
    requires few { length lines.now ≤ 20000 }
    ensures { IfOk result (λ twice. twice ≡ key_twice_in [] 1 lines.now) }
{
    let mut keys = Keys::new(alloc);
    for (i, line) in lines.iter().enumerate() {
        keys.push_borrowed(i as u32 + 1, key_of(line))?;
    }
    Ok(keys.first_again())
}

ghost use Rattle.std.specs.Prelude.{◌≤◌, ◌≢◌, Some, None, length};
ghost use Rattle.cite_schema.specs.Lines.{key_in};

// The key that a line names.
fn key_of(line: &Line) -> &Value
    requires { key_in line.now ≢ None }
    ensures { key_in line.now ≡ Some result.now }
{
    match line {
        Line::Put(row) | Line::Change(row) => match row.values().get(0) {
            Some(key) => key,
            None => unreachable!(),
        },
        Line::Remove(key) => key,
    }
}
