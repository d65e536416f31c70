// Each public call with ample memory.
use crate::{Cells, Keys, field, read_cells, read_column, read_next, read_schema, records_in};
use cite_schema::{ByteText, Column, Kind, List, NoMemory, Row, Value};
use csv::ByteRecord;
use std::alloc::{AllocError, Global};
use std::test::Fail;

// The first record of a text, or a record without a field where the text has none.
fn first_record(alloc: Global, text: &[u8]) -> Result<ByteRecord, NoMemory> {
    let mut reader = records_in(alloc, text);
    let mut line = ByteRecord::new(alloc);
    read_next(&mut reader, &mut line)?;
    Ok(line)
}

// The columns `sid:int` and `name:text`.
fn sid_and_name(alloc: Global) -> Result<List<Column>, AllocError> {
    let mut columns = List::new(alloc);
    columns.push(Column {
        name: ByteText::from_slice(alloc, b"sid")?,
        kind: Kind::Int,
    })?;
    columns.push(Column {
        name: ByteText::from_slice(alloc, b"name")?,
        kind: Kind::Text,
    })?;
    Ok(columns)
}

// What the fields of the first record say under the two columns, from the field at 1 on.
fn cells_of(alloc: Global, text: &[u8]) -> Result<Option<Cells>, NoMemory> {
    let columns = sid_and_name(alloc)?;
    let line = first_record(alloc, text)?;
    let columns = columns.as_slice();
    if columns.len() > 64 || line.len() < columns.len() || line.len() - columns.len() != 1 {
        return Ok(None);
    }
    Ok(Some(read_cells(alloc, columns, &line, 1)?))
}

fn row_of(cells: Option<Cells>) -> Option<Row> {
    match cells {
        Some(Cells::Row(row)) => Some(row),
        _ => None,
    }
}

fn bad_in(cells: Option<Cells>) -> Option<u16> {
    match cells {
        Some(Cells::Bad(column)) => Some(column),
        _ => None,
    }
}

fn is_field(line: &ByteRecord, at: usize, want: &[u8]) -> bool {
    match line.get(at) {
        Some(field) => field == want,
        None => false,
    }
}

#[test]
fn a_mark_and_empty_lines_are_passed_over(rt: HostRuntime) -> Result<(), Fail> {
    let alloc = rt.alloc();
    let line = first_record(alloc, b"\xEF\xBB\xBF\r\n\nop,\"a\"\"b\"\r\n+,1,2")?;
    assert_eq!(rt; line.len(), 2);
    assert!(rt; is_field(&line, 0, b"op"));
    assert!(rt; is_field(&line, 1, b"a\"b"));
    Ok(())
}

#[test]
fn records_have_any_width(rt: HostRuntime) -> Result<(), Fail> {
    let alloc = rt.alloc();
    let mut reader = records_in(alloc, b"op,sid\n+,7,,x".as_slice());
    let mut line = ByteRecord::new(alloc);
    let first = read_next(&mut reader, &mut line)?;
    assert_eq!(rt; (first, line.len()), (true, 2));
    if first {
        let second = read_next(&mut reader, &mut line)?;
        assert_eq!(rt; (second, line.len()), (true, 4));
        if second {
            let third = read_next(&mut reader, &mut line)?;
            assert_eq!(rt; third, false);
        }
    }
    Ok(())
}

#[test]
fn cells_are_read_behind_the_first_field(rt: HostRuntime) -> Result<(), Fail> {
    let alloc = rt.alloc();
    let row = row_of(cells_of(alloc, b"+,7,Foyle")?);
    assert_eq!(rt; row.map(|row| row.values().len()), Some(2));
    assert_eq!(rt; bad_in(cells_of(alloc, b"7,seven,Foyle")?), Some(0));
    Ok(())
}

#[test]
fn headers_are_read(rt: HostRuntime) -> Result<(), Fail> {
    let alloc = rt.alloc();
    let head = first_record(alloc, b"sid:int,name:text")?;
    let schema = read_schema(alloc, &head)?;
    assert_eq!(rt; schema.map(|schema| schema.columns().len()), Some(2));
    let twice = first_record(alloc, b"sid:int,sid:text")?;
    assert_eq!(rt; read_schema(alloc, &twice)?.is_none(), true);
    assert_eq!(rt; read_column(alloc, b"depth:float")?.is_none(), true);
    let depth = read_column(alloc, b"depth:int")?;
    assert_eq!(rt; depth.map(|column| column.kind), Some(Kind::Int));
    Ok(())
}

#[test]
fn a_field_is_that_at_its_place(rt: HostRuntime) -> Result<(), Fail> {
    let alloc = rt.alloc();
    let line = first_record(alloc, b"a,b,c")?;
    assert_eq!(rt; line.len(), 3);
    if line.len() == 3 {
        assert_eq!(rt; field(&line, 1), b"b".as_slice());
    }
    Ok(())
}

fn text_value(alloc: Global, bytes: &[u8]) -> Result<Value, AllocError> {
    Ok(Value::Text(ByteText::from_slice(alloc, bytes)?))
}

// The first line whose key comes again, where the keys are copied.
fn first_copied(alloc: Global, keys: &[Value]) -> Result<Option<u32>, NoMemory> {
    let mut held = Keys::new(alloc);
    let mut line = 0u32;
    for key in keys {
        line = line.saturating_add(1);
        held.push_copy(line, key)?;
    }
    Ok(held.first_again())
}

// The same, where the texts stay where they are.
fn first_borrowed(alloc: Global, keys: &[Value]) -> Result<Option<u32>, NoMemory> {
    let mut held = Keys::new(alloc);
    let mut line = 0u32;
    for key in keys {
        line = line.saturating_add(1);
        held.push_borrowed(line, key)?;
    }
    Ok(held.first_again())
}

#[test]
fn no_key_comes_again(rt: HostRuntime) -> Result<(), Fail> {
    let alloc = rt.alloc();
    assert_eq!(rt; first_copied(alloc, &[])?, None);
    assert_eq!(rt; first_borrowed(alloc, &[])?, None);
    let one = [Value::Int(7)];
    assert_eq!(rt; first_copied(alloc, &one)?, None);
    assert_eq!(rt; first_borrowed(alloc, &one)?, None);
    let apart = [Value::Int(7), Value::Int(-7), Value::Int(0)];
    assert_eq!(rt; first_copied(alloc, &apart)?, None);
    Ok(())
}

// Of 5 4 4 5 4 the third comes again first, and not the fourth or the second.
#[test]
fn the_first_number_that_comes_again(rt: HostRuntime) -> Result<(), Fail> {
    let alloc = rt.alloc();
    let keys = [
        Value::Int(5),
        Value::Int(4),
        Value::Int(4),
        Value::Int(5),
        Value::Int(4),
    ];
    assert_eq!(rt; first_copied(alloc, &keys)?, Some(3));
    assert_eq!(rt; first_borrowed(alloc, &keys)?, Some(3));
    Ok(())
}

// A number and the text that it prints are two keys, and so are a text and a longer one.
#[test]
fn the_first_text_that_comes_again(rt: HostRuntime) -> Result<(), Fail> {
    let alloc = rt.alloc();
    let keys = [
        Value::Int(3),
        text_value(alloc, b"3")?,
        text_value(alloc, b"33")?,
        text_value(alloc, b"")?,
        text_value(alloc, b"3")?,
        Value::Int(3),
    ];
    assert_eq!(rt; first_copied(alloc, &keys)?, Some(5));
    assert_eq!(rt; first_borrowed(alloc, &keys)?, Some(5));
    assert_eq!(rt; first_copied(alloc, &keys[..4])?, None);
    Ok(())
}
