// Printed forms, written out by hand.
use crate::{ColumnSet, Normal};
use cite_schema::{ByteText, Dir, Item, List, NoMemory, Shown};
use interval_normal::{Set, prefix_set};
use std::alloc::Global;
use std::test::Fail;

fn text(alloc: Global, bytes: &[u8]) -> Result<ByteText, NoMemory> {
    let text = ByteText::from_slice(alloc, bytes)?;
    Ok(text)
}

fn labelled(alloc: Global, label: &[u8], what: Shown) -> Result<List<Item>, NoMemory> {
    let mut items = List::new(alloc);
    let label = text(alloc, label)?;
    items.push(Item { label, what })?;
    Ok(items)
}

fn along(alloc: Global, order: &[(u16, bool)]) -> Result<List<Dir>, NoMemory> {
    let mut dirs = List::new(alloc);
    for (column, down) in order {
        dirs.push(Dir {
            column: *column,
            down: *down,
        })?;
    }
    Ok(dirs)
}

// What a form prints that has a full set of numbers for column 0, this set for column 1, and the order by these columns,
// `true` for descending.
fn printed(
    alloc: Global,
    set: ColumnSet,
    items: List<Item>,
    order: &[(u16, bool)],
) -> Result<ByteText, NoMemory> {
    let order = along(alloc, order)?;
    let full = Set::full(alloc)?;
    let mut sets = List::new(alloc);
    sets.push(ColumnSet::Ints(full))?;
    sets.push(set)?;
    let form = Normal::Some { sets, items, order };
    form.print(alloc)
}

// What a form prints that shows the key, ordered by it.
fn printed_keys(alloc: Global, set: Set<i64>) -> Result<ByteText, NoMemory> {
    let items = labelled(alloc, b"sid", Shown::Column(0))?;
    printed(alloc, ColumnSet::Ints(set), items, &[(0, false)])
}

// What a form prints that shows the empty text, ordered by column 1 descending and then by the key.
fn printed_texts(alloc: Global, set: Set<ByteText>) -> Result<ByteText, NoMemory> {
    let items = labelled(alloc, b"t", Shown::Constant(List::new(alloc)))?;
    let order = [(1, true), (0, false)];
    printed(alloc, ColumnSet::Texts(set), items, &order)
}

fn beginning_with(alloc: Global, bytes: &[u8]) -> Result<ByteText, NoMemory> {
    let prefix = text(alloc, bytes)?;
    let set = prefix_set(alloc, &prefix)?;
    printed_texts(alloc, set)
}

#[test]
fn the_greatest_number_has_no_upper_end(rt: HostRuntime) -> Result<(), Fail> {
    let alloc = rt.alloc();
    let greatest = Set::one(alloc, &i64::MAX)?;
    let constant = text(alloc, b"9223372036854775807")?;
    let items = labelled(alloc, b"x", Shown::Constant(constant))?;
    let text = printed(alloc, ColumnSet::Ints(greatest), items, &[])?;
    assert_eq!(rt;
        text.as_slice(),
        b"some\ncolumn 1 [9223372036854775807,none)\nitem constant 39323233333732303336383534373735383037 label 78\n".as_slice()
    );
    Ok(())
}

#[test]
fn all_numbers_but_one(rt: HostRuntime) -> Result<(), Fail> {
    let alloc = rt.alloc();
    let zero = Set::one(alloc, &0)?;
    let others = zero.complement(alloc)?;
    let text = printed_keys(alloc, others)?;
    assert_eq!(rt;
        text.as_slice(),
        b"some\ncolumn 1 [-9223372036854775808,0) [1,none)\nitem column 0 label 736964\norder 0 asc\n".as_slice()
    );
    Ok(())
}

#[test]
fn one_number(rt: HostRuntime) -> Result<(), Fail> {
    let alloc = rt.alloc();
    let five = Set::one(alloc, &5)?;
    let text = printed_keys(alloc, five)?;
    assert_eq!(rt;
        text.as_slice(),
        b"some\ncolumn 1 [5,6)\nitem column 0 label 736964\norder 0 asc\n".as_slice()
    );
    Ok(())
}

#[test]
fn texts_up_to_one(rt: HostRuntime) -> Result<(), Fail> {
    let alloc = rt.alloc();
    let a = text(alloc, b"a")?;
    let above = Set::above(alloc, &a)?;
    let up_to = above.complement(alloc)?;
    let text = printed_texts(alloc, up_to)?;
    assert_eq!(rt;
        text.as_slice(),
        b"some\ncolumn 1 [,6100)\nitem constant  label 74\norder 1 desc\norder 0 asc\n".as_slice()
    );
    Ok(())
}

#[test]
fn prefixes(rt: HostRuntime) -> Result<(), Fail> {
    let alloc = rt.alloc();
    let top = beginning_with(alloc, &[255])?;
    assert_eq!(rt;
        top.as_slice(),
        b"some\ncolumn 1 [ff,none)\nitem constant  label 74\norder 1 desc\norder 0 asc\n".as_slice()
    );
    let carried = beginning_with(alloc, &[97, 255])?;
    assert_eq!(rt;
        carried.as_slice(),
        b"some\ncolumn 1 [61ff,62)\nitem constant  label 74\norder 1 desc\norder 0 asc\n".as_slice()
    );
    Ok(())
}

#[test]
fn a_full_set_has_no_line(rt: HostRuntime) -> Result<(), Fail> {
    let alloc = rt.alloc();
    let all = beginning_with(alloc, &[])?;
    assert_eq!(rt;
        all.as_slice(),
        b"some\nitem constant  label 74\norder 1 desc\norder 0 asc\n".as_slice()
    );
    Ok(())
}

#[test]
fn a_form_that_picks_nothing_prints_its_labels(rt: HostRuntime) -> Result<(), Fail> {
    let alloc = rt.alloc();
    let mut labels = List::new(alloc);
    let label = text(alloc, b"sid")?;
    labels.push(label)?;
    let text = Normal::Nothing { labels }.print(alloc)?;
    assert_eq!(rt; text.as_slice(), b"none\nlabel 736964\n".as_slice());
    Ok(())
}
