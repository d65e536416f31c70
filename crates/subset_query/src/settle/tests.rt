// Parts are settled, also with a constant among them, which no query asks for.
ghost use Rattle.std.specs.Prelude.{◌≡◌, ◌≢◌, ◌<◌, [], ◌∷◌, IfOk, IsTrue, length, codes, List as Listed};
ghost use Rattle.cite_schema.specs.declared.value.Kind.TheVariants as kinds;
ghost use Rattle.cite_schema.specs.declared.schema.Column as schema_column;
ghost use Rattle.subset_query.specs.Forms.{are_sets_for, AreShownIn, AreColumnsIn};

use crate::{ColumnSet, settle_form};
use cite_schema::{ByteText, Column, Dir, Item, Kind, List, NoMemory, Schema, Shown};
use interval_normal::Set;
use std::alloc::Global;
use std::test::Fail;

fn text(alloc: Global, bytes: &[u8]) -> Result<ByteText, NoMemory>
    ensures { IfOk result (λ text. text ≡ bytes.now) }
{
    let text = ByteText::from_slice(alloc, bytes)?;
    Ok(text)
}

fn number_column(alloc: Global, name: &[u8]) -> Result<Column, NoMemory>
    ensures { IfOk result (λ column. column ≡ record { name = name.now; kind = kinds.Int }) }
{
    let name = text(alloc, name)?;
    let kind = Kind::Int;
    Ok(Column { name, kind })
}

fn two_columns(alloc: Global) -> Result<List<Column>, NoMemory>
    ensures { IfOk result (λ columns. columns ≡ record { name = codes "sid"; kind = kinds.Int } ∷ record { name = codes "x"; kind = kinds.Int } ∷ []) }
{
    let sid = number_column(alloc, b"sid")?;
    let x = number_column(alloc, b"x")?;
    let mut columns = List::new(alloc);
    columns.push(sid)?;
    columns.push(x)?;
    Ok(columns)
}

// All numbers, and 5 alone.
fn all_and_five(alloc: Global) -> Result<List<ColumnSet>, NoMemory>
    ensures { IfOk result (λ sets. (c d : schema_column.Column) → c.kind ≡ kinds.Int → d.kind ≡ kinds.Int → IsTrue (are_sets_for (c ∷ d ∷ []) sets)) }
{
    let all = Set::full(alloc)?;
    let five = Set::one(alloc, &5)?;
    let mut sets = List::new(alloc);
    sets.push(ColumnSet::Ints(all))?;
    sets.push(ColumnSet::Ints(five))?;
    Ok(sets)
}

fn item(alloc: Global, label: &[u8], what: Shown) -> Result<Item, NoMemory>
    ensures { IfOk result (λ item. item.what ≡ what) }
{
    let label = text(alloc, label)?;
    Ok(Item { label, what })
}

// A constant between the two columns.
fn three_items(alloc: Global) -> Result<List<Item>, NoMemory>
    ensures some { IfOk result (λ items. items ≢ []) }
    ensures known { IfOk result (λ items. (columns : Listed schema_column.Column) → 1 < length columns → AreShownIn columns items) }
{
    let dash = text(alloc, b"-")?;
    let x = item(alloc, b"x", Shown::Column(1))?;
    let constant = item(alloc, b"c", Shown::Constant(dash))?;
    let sid = item(alloc, b"sid", Shown::Column(0))?;
    let mut items = List::new(alloc);
    items.push(x)?;
    items.push(constant)?;
    items.push(sid)?;
    Ok(items)
}

// Both columns, descending.
fn down_both(alloc: Global) -> Result<List<Dir>, NoMemory>
    ensures { IfOk result (λ order. (columns : Listed schema_column.Column) → 1 < length columns → AreColumnsIn columns order) }
{
    let x = Dir {
        column: 1,
        down: true,
    };
    let sid = Dir {
        column: 0,
        down: true,
    };
    let mut order = List::new(alloc);
    order.push(x)?;
    order.push(sid)?;
    Ok(order)
}

// No number, and 5 alone.
fn none_and_five(alloc: Global) -> Result<List<ColumnSet>, NoMemory>
    ensures { IfOk result (λ sets. (c d : schema_column.Column) → c.kind ≡ kinds.Int → d.kind ≡ kinds.Int → IsTrue (are_sets_for (c ∷ d ∷ []) sets)) }
{
    let none = Set::empty(alloc);
    let five = Set::one(alloc, &5)?;
    let mut sets = List::new(alloc);
    sets.push(ColumnSet::Ints(none))?;
    sets.push(ColumnSet::Ints(five))?;
    Ok(sets)
}

// What the settled form of the three items prints for those sets, or `None` where the columns make no schema.
fn settled(
    alloc: Global,
    sets: Result<List<ColumnSet>, NoMemory>,
) -> Result<Option<ByteText>, NoMemory>
    requires { IfOk sets (λ sets. (c d : schema_column.Column) → c.kind ≡ kinds.Int → d.kind ≡ kinds.Int → IsTrue (are_sets_for (c ∷ d ∷ []) sets)) }
{
    let columns = two_columns(alloc)?;
    let Ok(schema) = Schema::make(1, columns) else {
        return Ok(None);
    };
    let sets = sets?;
    let items = three_items(alloc)?;
    let order = down_both(alloc)?;
    let form = settle_form(alloc, &schema, sets, items, order)?;
    let text = form.print(alloc)?;
    Ok(Some(text))
}

#[test]
fn parts_are_settled(rt: HostRuntime) -> Result<(), Fail> {
    let alloc = rt.alloc();
    let text = settled(alloc, all_and_five(alloc))?.expect(&rt, "a schema");
    assert_eq!(rt;
        text.as_slice(),
        b"some\ncolumn 1 [5,6)\nitem constant 35 label 78\nitem constant 2d label 63\nitem column 0 label 736964\norder 0 desc\n".as_slice()
    );
    Ok(())
}

// Where a set is empty the labels are left, those of constants too.
#[test]
fn parts_that_choose_nothing_are_settled(rt: HostRuntime) -> Result<(), Fail> {
    let alloc = rt.alloc();
    let text = settled(alloc, none_and_five(alloc))?.expect(&rt, "a schema");
    assert_eq!(rt;
        text.as_slice(),
        b"none\nlabel 78\nlabel 63\nlabel 736964\n".as_slice()
    );
    Ok(())
}
