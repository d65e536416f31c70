ghost use Rattle.std.specs.Prelude.{◌≡◌, [], ◌∷◌, IfOk};
ghost use Rattle.cite_schema.specs.declared.value.Value.TheVariants.{Int, Text};
ghost use Rattle.stable_order.specs.Rows.{at_column, ToldApart};

use crate::{Keyed, arrange, one_arrangement, rows_stand_as_in_answers};
use cite_schema::{ByteText, Dir, List, NoMemory, Row, Value};
use std::alloc::Global;
use std::test::Fail;

fn row(alloc: Global, key: i64, name: &[u8]) -> Result<Row, NoMemory>
    ensures { IfOk result (λ r. r ≡ Int key ∷ Text name.now ∷ []) }
{
    let mut values = List::new(alloc);
    values.push(Value::Int(key))?;
    values.push(Value::Text(ByteText::from_slice(alloc, name)?))?;
    Ok(Row::make(values))
}

fn key_alone(alloc: Global, key: i64) -> Result<Row, NoMemory>
    ensures { IfOk result (λ r. r ≡ Int key ∷ []) }
{
    let mut values = List::new(alloc);
    values.push(Value::Int(key))?;
    Ok(Row::make(values))
}

fn boreholes(alloc: Global) -> Result<List<Row>, NoMemory>
    ensures { IfOk result (λ rows. ToldApart at_column rows) }
{
    let mut rows = List::new(alloc);
    rows.push(row(alloc, 3, b"b")?)?;
    rows.push(row(alloc, 1, b"a")?)?;
    rows.push(key_alone(alloc, 4)?)?;
    rows.push(row(alloc, 2, b"b")?)?;
    Ok(rows)
}

fn has_keys(rows: &List<Row>, keys: &[i64]) -> bool {
    if rows.len() != keys.len() {
        return false;
    }
    rows.as_slice().iter().zip(keys.iter()).all(|(
        row,
        key,
    )| matches!(row.values().get(0), Some(Value::Int(n)) if *n == *key))
}

#[test]
fn arranges_by_the_key(rt: HostRuntime) -> Result<(), Fail> {
    let alloc = rt.alloc();
    let order = List::new(alloc);
    let rows = arrange(alloc, boreholes(alloc)?, &order)?;
    assert!(rt; has_keys(&rows, &[1, 2, 3, 4]));
    Ok(())
}

#[test]
fn arranges_by_a_column_and_then_the_key(rt: HostRuntime) -> Result<(), Fail> {
    let alloc = rt.alloc();
    let mut order = List::new(alloc);
    order.push(Dir {
        column: 1,
        down: false,
    })?;
    let rows = arrange(alloc, boreholes(alloc)?, &order)?;
    assert!(rt; has_keys(&rows, &[4, 1, 2, 3]));
    Ok(())
}

#[test]
fn arranges_downwards(rt: HostRuntime) -> Result<(), Fail> {
    let alloc = rt.alloc();
    let mut order = List::new(alloc);
    order.push(Dir {
        column: 1,
        down: true,
    })?;
    let rows = arrange(alloc, boreholes(alloc)?, &order)?;
    assert!(rt; has_keys(&rows, &[2, 3, 1, 4]));
    let mut order = List::new(alloc);
    order.push(Dir {
        column: 0,
        down: true,
    })?;
    let rows = arrange(alloc, boreholes(alloc)?, &order)?;
    assert!(rt; has_keys(&rows, &[4, 3, 2, 1]));
    Ok(())
}

#[test]
fn compares_cells(rt: HostRuntime) -> Result<(), Fail> {
    let alloc = rt.alloc();
    let short = key_alone(alloc, 7)?;
    let long = row(alloc, 7, b"x")?;
    assert!(rt; short.compare_at(&long, 0).is_eq());
    assert!(rt; short.compare_at(&long, 1).is_lt());
    assert!(rt; long.compare_at(&short, 1).is_gt());
    assert!(rt; long.compare_at(&short, 2).is_eq());
    let mut values = List::new(alloc);
    values.push(Value::Text(ByteText::from_slice(alloc, b"")?))?;
    let text = Row::make(values);
    assert!(rt; long.compare_at(&text, 0).is_lt());
    assert!(rt; text.compare_at(&long, 0).is_gt());
    one_arrangement::<Row>();
    rows_stand_as_in_answers();
    Ok(())
}
