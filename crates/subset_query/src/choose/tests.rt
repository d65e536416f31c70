// What forms pick, how they head it, and in which order.
ghost use Rattle.std.specs.Prelude.{◌≡◌, [], ◌∷◌, IfOk};
ghost use Rattle.cite_schema.specs.declared.value.Value.TheVariants.{Int, Text};
ghost use Rattle.subset_query.specs.Keys.{HaveOwnKeys};

use crate::{ColumnSet, Normal};
use cite_schema::{ByteText, Dir, Item, List, NoMemory, Row, Same, Shown, Value};
use interval_normal::Set;
use std::alloc::Global;
use std::test::Fail;

fn text(alloc: Global, bytes: &[u8]) -> Result<ByteText, NoMemory>
    ensures { IfOk result (λ text. text ≡ bytes.now) }
{
    let text = ByteText::from_slice(alloc, bytes)?;
    Ok(text)
}

// The row of a key and a text.
fn row(alloc: Global, key: i64, bytes: &[u8]) -> Result<Row, NoMemory>
    ensures { IfOk result (λ row. row ≡ Int key ∷ Text bytes.now ∷ []) }
{
    let text = text(alloc, bytes)?;
    let mut values = List::new(alloc);
    values.push(Value::Int(key))?;
    values.push(Value::Text(text))?;
    Ok(Row::make(values))
}

fn rows(alloc: Global) -> Result<List<Row>, NoMemory>
    ensures { IfOk result (λ rows. HaveOwnKeys rows) }
{
    let mut rows = List::new(alloc);
    rows.push(row(alloc, 7, b"a")?)?;
    rows.push(row(alloc, 2, b"")?)?;
    rows.push(row(alloc, 9, b"b")?)?;
    rows.push(row(alloc, 3, b"a")?)?;
    rows.push(row(alloc, 5, b"a\0")?)?;
    Ok(rows)
}

// The texts up to `a`.
fn up_to_a(alloc: Global) -> Result<ColumnSet, NoMemory> {
    let a = text(alloc, b"a")?;
    let above = Set::above(alloc, &a)?;
    let up_to = above.complement(alloc)?;
    Ok(ColumnSet::Texts(up_to))
}

// The item of a text column.
fn shown_text(alloc: Global, what: Shown) -> Result<List<Item>, NoMemory> {
    let label = text(alloc, b"t")?;
    let mut items = List::new(alloc);
    items.push(Item { label, what })?;
    Ok(items)
}

// The order by the text descending and then by the key.
fn down_texts(alloc: Global) -> Result<List<Dir>, NoMemory> {
    let mut order = List::new(alloc);
    order.push(Dir {
        column: 1,
        down: true,
    })?;
    order.push(Dir {
        column: 0,
        down: false,
    })?;
    Ok(order)
}

// The form that picks the texts up to `a`, by the text descending and then by the key.
fn some(alloc: Global) -> Result<Normal, NoMemory> {
    let items = shown_text(alloc, Shown::Column(1))?;
    let order = down_texts(alloc)?;
    let full = Set::full(alloc)?;
    let texts = up_to_a(alloc)?;
    let mut sets = List::new(alloc);
    sets.push(ColumnSet::Ints(full))?;
    sets.push(texts)?;
    Ok(Normal::Some { sets, items, order })
}

fn nothing(alloc: Global) -> Result<Normal, NoMemory> {
    let label = text(alloc, b"t")?;
    let mut labels = List::new(alloc);
    labels.push(label)?;
    Ok(Normal::Nothing { labels })
}

fn picks(alloc: Global, form: &Normal, cell: &[u8]) -> Result<bool, NoMemory> {
    let row = row(alloc, 1, cell)?;
    Ok(form.picks(&row))
}

fn is_row(row: &Row, key: i64, cell: &[u8]) -> bool {
    match row.values().as_slice() {
        [Value::Int(number), Value::Text(text)] => *number == key && text.as_slice() == cell,
        _ => false,
    }
}

#[test]
fn a_form_picks_the_rows_of_its_sets(rt: HostRuntime) -> Result<(), Fail> {
    let alloc = rt.alloc();
    let form = some(alloc)?;
    let is_picked = picks(alloc, &form, b"a")?;
    assert!(rt; is_picked);
    let is_picked = picks(alloc, &form, b"a\0")?;
    assert!(rt; !is_picked);
    let is_picked = picks(alloc, &form, b"b")?;
    assert!(rt; !is_picked);
    Ok(())
}

#[test]
fn nothing_picks_no_row(rt: HostRuntime) -> Result<(), Fail> {
    let alloc = rt.alloc();
    let form = nothing(alloc)?;
    let is_picked = picks(alloc, &form, b"a")?;
    assert!(rt; !is_picked);
    let is_picked = picks(alloc, &form, b"")?;
    assert!(rt; !is_picked);
    Ok(())
}

#[test]
fn a_form_heads_its_results(rt: HostRuntime) -> Result<(), Fail> {
    let alloc = rt.alloc();
    let form = some(alloc)?;
    let heads = form.heads(alloc)?;
    let shown = shown_text(alloc, Shown::Column(1))?;
    assert!(rt; heads.same(&shown));
    Ok(())
}

#[test]
fn nothing_is_headed_by_its_labels(rt: HostRuntime) -> Result<(), Fail> {
    let alloc = rt.alloc();
    let form = nothing(alloc)?;
    let heads = form.heads(alloc)?;
    let shown = shown_text(alloc, Shown::Constant(List::new(alloc)))?;
    assert!(rt; heads.same(&shown));
    Ok(())
}

fn has_rows(rows: &[Row], expected: &[(i64, &[u8])]) -> bool {
    if rows.len() != expected.len() {
        return false;
    }
    for i in 0..rows.len() {
        let (key, cell) = expected[i];
        if !is_row(&rows[i], key, cell) {
            return false;
        }
    }
    true
}

#[test]
fn a_form_gives_its_rows_in_order(rt: HostRuntime) -> Result<(), Fail> {
    let alloc = rt.alloc();
    let rows = rows(alloc)?;
    let form = some(alloc)?;
    let picked = form.rows(alloc, rows)?;
    assert!(rt; has_rows(picked.as_slice(), &[(3, b"a"), (7, b"a"), (2, b"")]));
    Ok(())
}

#[test]
fn nothing_gives_no_row(rt: HostRuntime) -> Result<(), Fail> {
    let alloc = rt.alloc();
    let rows = rows(alloc)?;
    let form = nothing(alloc)?;
    let picked = form.rows(alloc, rows)?;
    assert!(rt; picked.is_empty());
    Ok(())
}
