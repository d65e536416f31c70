// Rows of tables, compared at columns.
ghost use Rattle.std.specs.Prelude.{◌≡◌};
ghost use Rattle.std.specs.Option.{option_copied};
ghost use Rattle.cite_schema.specs.Values.{value_cmp};
ghost use Rattle.cite_schema.specs.Tables.{cell_cmp};
ghost use Rattle.stable_order.specs.Rows.{at_column, column_total};

use crate::keyed::Keyed;
use cite_schema::{Row, Value};
use std::cmp::Ordering;

/// Numbers come before texts, and a missing cell before any other; two missing ones are equal.
impl Keyed for Row {
    ghost at = { at_column };

    fn compare_at(&self, other: &Row, column: u16) -> Ordering {
        let place = column as usize;
        compare_cells(self.values().get(place), other.values().get(place))
    }

    ghost comparison = { column_total };
}

/// Which of two cells at one place comes first: numbers before texts, and a missing cell before any other. It takes no
/// memory.
pub fn compare_cells(a: Option<&Value>, b: Option<&Value>) -> Ordering
    ensures { result ≡ cell_cmp (option_copied a.entry) (option_copied b.entry) }
{
    match (a, b) {
        (None, None) => Ordering::Equal,
        (None, Some(_)) => Ordering::Less,
        (Some(_), None) => Ordering::Greater,
        (Some(a), Some(b)) => compare_values(a, b),
    }
}

fn compare_values(a: &Value, b: &Value) -> Ordering
    ensures { result ≡ value_cmp a.now b.now }
{
    match (a, b) {
        (Value::Int(_), Value::Text(_)) => Ordering::Less,
        (Value::Text(_), Value::Int(_)) => Ordering::Greater,
        (Value::Int(a), Value::Int(b)) => a.cmp(b),
        (Value::Text(a), Value::Text(b)) => a.as_slice().cmp(b.as_slice()),
    }
}
