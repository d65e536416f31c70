// Each public call with ample memory, and the ends of what is read.
use crate::{
    Boxed, ByteText, Column, Item, Kind, List, NoMemory, Row, Same, Schema, SchemaFault, Shared,
    Shown, Value, compare, known_bytes, print_value, read_int, same_slice,
};
use std::alloc::{AllocError, Global};
use std::cmp::Ordering;
use std::test::Fail;

fn text(alloc: Global, bytes: &[u8]) -> Result<Value, AllocError> {
    Ok(Value::Text(ByteText::from_slice(alloc, bytes)?))
}

fn columns(alloc: Global, names: &[&[u8]]) -> Result<List<Column>, AllocError> {
    let mut columns = List::new(alloc);
    for name in names {
        let name = ByteText::from_slice(alloc, name)?;
        columns.push(Column {
            name,
            kind: Kind::Int,
        })?;
    }
    Ok(columns)
}

// That many columns `c`, `cc`, `ccc` and so on.
fn many_columns(alloc: Global, count: usize) -> Result<List<Column>, AllocError> {
    let mut columns = List::new(alloc);
    let mut name: List<u8> = List::new(alloc);
    for _ in 0..count {
        name.push(b'c')?;
        columns.push(Column {
            name: ByteText::from_slice(alloc, name.as_slice())?,
            kind: Kind::Text,
        })?;
    }
    Ok(columns)
}

fn fault_of(made: Result<Schema, SchemaFault>) -> Option<SchemaFault> {
    match made {
        Ok(_) => None,
        Err(fault) => Some(fault),
    }
}

// Whether two values are one, through the trait.
fn is_same<T: Same>(a: &T, b: &T) -> bool {
    a.same(b)
}

#[test]
fn values_have_their_order(rt: HostRuntime) -> Result<(), Fail> {
    let alloc = rt.alloc();
    let numbers = [
        (-2, 10, Ordering::Less),
        (7, 7, Ordering::Equal),
        (i64::MAX, i64::MIN, Ordering::Greater),
    ];
    for (a, b, want) in numbers {
        assert_eq!(rt;
            compare(&Value::Int(a), &Value::Int(b)),
            want,
            "{a} against {b}"
        );
    }
    let texts: [(&[u8], &[u8], Ordering); 4] = [
        (b"b", b"ab", Ordering::Greater),
        (b"a", b"a\0", Ordering::Less),
        (b"\xFF", b"z", Ordering::Greater),
        (b"", b"", Ordering::Equal),
    ];
    for (a, b, want) in texts {
        let a = ByteText::from_slice(alloc, a)?;
        let b = ByteText::from_slice(alloc, b)?;
        assert_eq!(rt; compare(&Value::Text(a), &Value::Text(b)), want);
    }
    Ok(())
}

#[test]
fn values_print(rt: HostRuntime) -> Result<(), Fail> {
    let alloc = rt.alloc();
    let printed: [(i64, &[u8]); 4] = [
        (0, b"0"),
        (-70, b"-70"),
        (i64::MAX, b"9223372036854775807"),
        (i64::MIN, b"-9223372036854775808"),
    ];
    for (number, want) in printed {
        assert_eq!(rt; print_value(alloc, &Value::Int(number))?.as_slice(), want);
    }
    assert_eq!(rt;
        print_value(alloc, &text(alloc, b"a \"b\"\xFF")?)?.as_slice(),
        b"a \"b\"\xFF".as_slice()
    );
    assert_eq!(rt; Value::Int(3).kind(), Kind::Int);
    assert_eq!(rt; text(alloc, b"3")?.kind(), Kind::Text);
    Ok(())
}

#[test]
fn number_texts_are_read(rt: HostRuntime) {
    let cases: [(&[u8], Option<i64>); 17] = [
        (b"0", Some(0)),
        (b"-0", Some(0)),
        (b"+12", Some(12)),
        (b"-12", Some(-12)),
        (b"007", Some(7)),
        (b"-00000000000000000000000000000009", Some(-9)),
        (b"00000000000000000000000000000009", Some(9)),
        (b"000000000000000000000000000000009", None),
        (b"9223372036854775807", Some(i64::MAX)),
        (b"9223372036854775808", None),
        (b"-9223372036854775808", Some(i64::MIN)),
        (b"-9223372036854775809", None),
        (b"", None),
        (b"+", None),
        (b"1 ", None),
        (b"-+1", None),
        (b"1\xFF", None),
    ];
    for (text, want) in cases {
        assert_eq!(rt; read_int(text), want);
    }
}

#[test]
fn fields_are_read(rt: HostRuntime) -> Result<(), Fail> {
    let alloc = rt.alloc();
    let number = Value::read(alloc, Kind::Int, b"-5")?.ok_or("a number")?;
    assert!(rt; is_same(&number, &Value::Int(-5)));
    assert!(rt; Value::read(alloc, Kind::Int, b"5x")?.is_none());
    let digits = Value::read(alloc, Kind::Text, b"5")?.ok_or("a text")?;
    assert!(rt; is_same(&digits, &text(alloc, b"5")?));
    let longest = [b'q'; 65_535];
    let kept = Value::read(alloc, Kind::Text, &longest)?.ok_or("the longest text")?;
    assert!(rt; is_same(&kept, &text(alloc, &longest)?));
    assert!(rt; Value::read(alloc, Kind::Text, &[b'q'; 65_536])?.is_none());
    known_bytes(&longest);
    Ok(())
}

#[test]
fn schemas_are_made_or_refused(rt: HostRuntime) -> Result<(), Fail> {
    let alloc = rt.alloc();
    let longest: &[u8] = b"a234567890123456789012345678901234567890123456789012345678901234";
    let refused: [(&[&[u8]], Option<SchemaFault>); 9] = [
        (&[], Some(SchemaFault::NoColumns)),
        (&[b"a", b"a", b"1x"], Some(SchemaFault::NameTwice(1))),
        (&[b"1x", b"a", b"a"], Some(SchemaFault::BadName(0))),
        (&[b"a", b"", b"a"], Some(SchemaFault::BadName(1))),
        (&[b"a", b"b-c"], Some(SchemaFault::BadName(1))),
        (&[b"a", b"\xC3\xA9"], Some(SchemaFault::BadName(1))),
        (&[b"a", b"b", b"c", b"b"], Some(SchemaFault::NameTwice(3))),
        (
            &[b"a234567890123456789012345678901234567890123456789012345678901234_"],
            Some(SchemaFault::BadName(0)),
        ),
        (&[longest, b"_9", b"A", b"a"], None),
    ];
    for (names, want) in refused {
        assert_eq!(rt; fault_of(Schema::make(1, columns(alloc, names)?)), want);
    }
    assert_eq!(rt; fault_of(Schema::make(1, many_columns(alloc, 64)?)), None);
    assert_eq!(rt;
        fault_of(Schema::make(1, many_columns(alloc, 65)?)),
        Some(SchemaFault::TooManyColumns)
    );
    let schema = Schema::make(7, columns(alloc, &[b"key", b"depth"])?)?;
    assert_eq!(rt; schema.number(), 7);
    assert_eq!(rt; schema.columns().len(), 2);
    let depth = schema.columns().get(1).ok_or("a second column")?;
    assert_eq!(rt; depth.name.as_slice(), b"depth".as_slice());
    assert_eq!(rt; depth.kind, Kind::Int);
    Ok(())
}

// The least number, and a text.
fn cells(alloc: Global, note: &[u8]) -> Result<List<Value>, AllocError> {
    let mut cells = List::with_capacity(alloc, 2)?;
    cells.push(Value::Int(i64::MIN))?;
    cells.push(text(alloc, note)?)?;
    Ok(cells)
}

#[test]
fn copies_of_a_row_have_its_values(rt: HostRuntime) -> Result<(), Fail> {
    let values = cells(rt.alloc(), b"quay")?;
    let row = Row::make(cells(rt.alloc(), b"quay")?);
    let copied = row.copy()?;
    let again = copied.copy()?;
    drop(copied);
    assert!(rt; is_same(row.values(), &values));
    assert!(rt; is_same(again.values(), &values));
    assert!(rt; is_same(&again.to_values()?, &values));
    assert!(rt; is_same(row.into_shared()?.get(), &values));
    assert!(rt; is_same(again.into_shared()?.get(), &values));
    Ok(())
}

#[test]
fn a_shared_value_stays_for_its_other_owners(rt: HostRuntime) -> Result<(), Fail> {
    let shared = Shared::make(rt.alloc(), 7)?;
    let other = shared.share()?;
    drop(shared);
    assert_eq!(rt; *other.get(), 7);
    Ok(())
}

#[test]
fn rows_fit_by_width_kind_and_length(rt: HostRuntime) -> Result<(), Fail> {
    let alloc = rt.alloc();
    let mut both = columns(alloc, &[b"key"])?;
    let name = ByteText::from_slice(alloc, b"note")?;
    both.push(Column {
        name,
        kind: Kind::Text,
    })?;
    let schema = Schema::make(1, both)?;
    assert!(rt; !schema.fits(&Row::make(List::from_vec(Vec::new(alloc)))));
    assert!(rt; schema.fits(&Row::make(cells(alloc, &[b'q'; 65_535])?)));
    assert!(rt; !schema.fits(&Row::make(cells(alloc, &[b'q'; 65_536])?)));
    let mut wide = cells(alloc, b"q")?;
    wide.push(Value::Int(0))?;
    assert!(rt; !schema.fits(&Row::make(wide)));
    let mut turned = List::new(alloc);
    turned.push(text(alloc, b"1")?)?;
    turned.push(Value::Int(1))?;
    assert!(rt; !schema.fits(&Row::make(turned)));
    Ok(())
}

#[test]
fn lists_and_boxes_give_what_they_hold(rt: HostRuntime) -> Result<(), Fail> {
    let alloc = rt.alloc();
    let mut list: List<i64> = List::new(alloc);
    assert!(rt; list.is_empty());
    list.push(4)?;
    list.push(5)?;
    assert_eq!(rt; list.as_slice(), [4, 5].as_slice());
    assert_eq!(rt; (list.len(), list.is_empty()), (2, false));
    assert_eq!(rt;
        (list.get(1).copied(), list.get(2).copied()),
        (Some(5), None)
    );
    let items = list.into_vec();
    assert_eq!(rt; items.as_slice(), [4, 5].as_slice());
    assert!(rt; is_same(&List::from_vec(items), &List::from_slice(alloc, &[4, 5])?));
    let bytes = ByteText::from_slice(alloc, b"xyz")?;
    assert_eq!(rt; bytes.bytes(), b"xyz".as_slice());
    assert_eq!(rt; bytes.copy()?.as_slice(), b"xyz".as_slice());
    let boxed = Boxed::new(alloc, 9)?;
    assert_eq!(rt; *boxed.get(), 9);
    assert_eq!(rt; boxed.into_inner(), 9);
    assert_eq!(rt; NoMemory::from(AllocError), NoMemory);
    Ok(())
}

#[test]
fn data_is_told_apart(rt: HostRuntime) -> Result<(), Fail> {
    let alloc = rt.alloc();
    assert!(rt; is_same(&Some(3_u8), &Some(3)) && !is_same(&Some(3_u8), &None));
    assert!(rt;
        same_slice(b"ab", b"ab") && !same_slice(b"ab", b"abc") && !same_slice(b"ab", b"ac")
    );
    let value = text(alloc, b"1")?;
    assert!(rt; is_same(&value.copy()?, &value) && !is_same(&value, &Value::Int(1)));
    let shown = Item {
        label: ByteText::from_slice(alloc, b"l")?,
        what: Shown::Column(1),
    };
    let constant = Item {
        label: ByteText::from_slice(alloc, b"l")?,
        what: Shown::Constant(ByteText::from_slice(alloc, b"1")?),
    };
    assert!(rt;
        is_same(&shown, &shown) && is_same(&constant, &constant) && !is_same(&shown, &constant)
    );
    let down = crate::Dir {
        column: 1,
        down: true,
    };
    let up = crate::Dir {
        column: 1,
        down: false,
    };
    assert!(rt; is_same(&down, &down) && !is_same(&down, &up));
    Ok(())
}
