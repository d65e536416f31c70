ghost use Rattle.std.specs.Prelude.{◌<◌, length, IfOk};

use crate::{LIMIT, LayFault, digest_text, fingerprint, lay_out};
use cite_schema::{ByteText, Item, List, Row, Shown, Value};
use std::alloc::{AllocError, Global};
use std::test::Fail;

fn column(alloc: Global, label: &[u8], column: u16) -> Result<Item, AllocError> {
    Ok(Item {
        label: ByteText::from_slice(alloc, label)?,
        what: Shown::Column(column),
    })
}

// The items `sid` and `depth` over the first two columns.
fn sid_and_depth(alloc: Global) -> Result<List<Item>, AllocError>
    ensures { IfOk result (λ items. 0 < length items) }
{
    let mut items = List::new(alloc);
    items.push(column(alloc, b"sid", 0)?)?;
    items.push(column(alloc, b"depth", 1)?)?;
    Ok(items)
}

fn push_depth(rows: &mut List<Row>, alloc: Global, sid: i64, depth: i64) -> Result<(), AllocError> {
    let mut values = List::new(alloc);
    values.push(Value::Int(sid))?;
    values.push(Value::Int(depth))?;
    rows.push(Row::make(values))
}

fn push_text(rows: &mut List<Row>, alloc: Global, text: &[u8]) -> Result<(), AllocError> {
    let mut values = List::new(alloc);
    values.push(Value::Text(ByteText::from_slice(alloc, text)?))?;
    rows.push(Row::make(values))
}

#[test]
fn one_row(rt: HostRuntime) -> Result<(), Fail> {
    let alloc = rt.alloc();
    let items = sid_and_depth(alloc)?;
    let mut rows = List::new(alloc);
    push_depth(&mut rows, alloc, 2, 12)?;
    let result = lay_out(alloc, &items, &rows)?;
    assert_eq!(rt;
        result.as_slice(),
        b"\"sid\",\"depth\"\n\"2\",\"12\"\n".as_slice()
    );
    Ok(())
}

#[test]
fn no_row(rt: HostRuntime) -> Result<(), Fail> {
    let alloc = rt.alloc();
    let items = sid_and_depth(alloc)?;
    let result = lay_out(alloc, &items, &List::new(alloc))?;
    assert_eq!(rt; result.as_slice(), b"\"sid\",\"depth\"\n".as_slice());
    Ok(())
}

#[test]
fn rows_in_the_order_given(rt: HostRuntime) -> Result<(), Fail> {
    let alloc = rt.alloc();
    let items = sid_and_depth(alloc)?;
    let mut rows = List::new(alloc);
    push_depth(&mut rows, alloc, 2, 19)?;
    push_depth(&mut rows, alloc, 1, i64::MIN)?;
    let result = lay_out(alloc, &items, &rows)?;
    assert_eq!(rt;
        result.as_slice(),
        b"\"sid\",\"depth\"\n\"2\",\"19\"\n\"1\",\"-9223372036854775808\"\n".as_slice()
    );
    Ok(())
}

#[test]
fn quotes_line_feeds_and_nothing(rt: HostRuntime) -> Result<(), Fail> {
    let alloc = rt.alloc();
    let mut items = List::new(alloc);
    items.push(column(alloc, b"t", 0)?)?;
    let mut rows = List::new(alloc);
    push_text(&mut rows, alloc, b"a\"b,c\nd")?;
    push_text(&mut rows, alloc, b"")?;
    let result = lay_out(alloc, &items, &rows)?;
    assert_eq!(rt;
        result.as_slice(),
        b"\"t\"\n\"a\"\"b,c\nd\"\n\"\"\n".as_slice()
    );
    Ok(())
}

#[test]
fn constants_beside_columns(rt: HostRuntime) -> Result<(), Fail> {
    let alloc = rt.alloc();
    let mut items = List::new(alloc);
    items.push(column(alloc, b"say \"depth\"", 1)?)?;
    items.push(Item {
        label: ByteText::from_slice(alloc, b"")?,
        what: Shown::Constant(ByteText::from_slice(alloc, b"\"5\"")?),
    })?;
    items.push(column(alloc, b"sid", 0)?)?;
    let mut rows = List::new(alloc);
    push_depth(&mut rows, alloc, 1, 0)?;
    let result = lay_out(alloc, &items, &rows)?;
    assert_eq!(rt;
        result.as_slice(),
        b"\"say \"\"depth\"\"\",\"\",\"sid\"\n\"0\",\"\"\"5\"\"\",\"1\"\n".as_slice()
    );
    Ok(())
}

// The size of four rows that show a constant of 16,777,212 bytes, under a label: four lines of 16,777,215 bytes, and
// one of the label's length and three more.
fn laid_out_size(alloc: Global, label: &[u8]) -> Result<Result<usize, LayFault>, AllocError> {
    let bytes = vec![in alloc; b'x'; 16_777_212]?;
    let mut items = List::new(alloc);
    items.push(Item {
        label: ByteText::from_slice(alloc, label)?,
        what: Shown::Constant(List::from_vec(bytes)),
    })?;
    let mut rows = List::new(alloc);
    for _ in 0..4 {
        rows.push(Row::make(List::new(alloc)))?;
    }
    Ok(lay_out(alloc, &items, &rows).map(|text| text.len()))
}

#[test]
fn the_most_bytes(rt: HostRuntime) -> Result<(), Fail> {
    let alloc = rt.alloc();
    assert_eq!(rt; LIMIT, 67_108_864);
    assert_eq!(rt; laid_out_size(alloc, b"x")?, Ok(67_108_864));
    assert_eq!(rt;
        laid_out_size(alloc, b"xx")?,
        Err(LayFault::TooLarge { bytes: 67_108_865 })
    );
    Ok(())
}

// The digest of the bytes in hexadecimal is this text.
fn prints_as(alloc: Global, bytes: &[u8], want: &[u8]) -> Result<bool, Fail> {
    let text = digest_text(alloc, &fingerprint(bytes))?;
    Ok(text.as_slice() == want)
}

// The examples of NIST for SHA-256: one block, two blocks, and no byte.
#[test]
fn digests_are_those_of_the_standard(rt: HostRuntime) -> Result<(), Fail> {
    let alloc = rt.alloc();
    let abc = b"ba7816bf8f01cfea414140de5dae2223b00361a396177a9cb410ff61f20015ad";
    assert!(rt; prints_as(alloc, b"abc", abc)?);
    let blocks = b"abcdbcdecdefdefgefghfghighijhijkijkljklmklmnlmnomnopnopq";
    let two = b"248d6a61d20638b8e5c026930c3e6039a33ce45964ff2167f6ecedd419db06c1";
    assert!(rt; prints_as(alloc, blocks, two)?);
    let none = b"e3b0c44298fc1c149afbf4c8996fb92427ae41e4649b934ca495991b7852b855";
    assert!(rt; prints_as(alloc, b"", none)?);
    Ok(())
}
