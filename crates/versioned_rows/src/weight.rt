// What rows weigh.
ghost use Rattle.std.specs.Prelude.{◌≡◌, ◌+◌, ◌-◌, ◌^◌, min};
ghost use Rattle.versioned_rows.specs.Weights.{value_weight, row_weight};

use cite_schema::{List, Value};

/// A weight and that of a row: 16 for each cell, and the length of each text. Where it would be 2^64 or more, it is
/// 2^64 − 1.
pub fn heavier(weight: u64, row: &List<Value>) -> u64
    ensures { result ≡ min (weight + row_weight row.now) (2 ^ 64 - 1) }
{
    let mut sum = weight;
    for value in row.as_slice() {
        sum = heavier_by_cell(sum, value);
    }
    sum
}

fn heavier_by_cell(weight: u64, value: &Value) -> u64
    ensures { result ≡ min (weight + value_weight value.now) (2 ^ 64 - 1) }
{
    let length = match value {
        Value::Int(_) => 0,
        Value::Text(text) => text.len() as u64,
    };
    weight.saturating_add(16).saturating_add(length)
}
