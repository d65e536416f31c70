// Each public call with ample memory, and a body for each fault.
use crate::{BatchFault, body_digest, curator_ok, read_batch};
use cite_schema::{ByteText, Column, Kind, Line, List, Schema};
use std::alloc::{AllocError, Global};
use std::test::Fail;

fn push_column(
    columns: &mut List<Column>,
    alloc: Global,
    name: &[u8],
    kind: Kind,
) -> Result<(), AllocError> {
    let name = ByteText::from_slice(alloc, name)?;
    columns.push(Column { name, kind })
}

// The schema `sid:int,name:text`.
fn sid_and_name(alloc: Global) -> Result<Option<Schema>, AllocError> {
    let mut columns = List::new(alloc);
    push_column(&mut columns, alloc, b"sid", Kind::Int)?;
    push_column(&mut columns, alloc, b"name", Kind::Text)?;
    Ok(Schema::make(1, columns).ok())
}

// How many lines a body spells, or its fault.
fn lines_in(alloc: Global, body: &[u8]) -> Result<usize, BatchFault> {
    match sid_and_name(alloc)? {
        Some(schema) => Ok(read_batch(alloc, &schema, body)?.len()),
        None => Ok(0),
    }
}

// A body with so many lines, each of which puts a key of its own, but for the last, which is this.
fn long_body(alloc: Global, lines: u32, last: &[u8]) -> Result<Vec<u8>, AllocError> {
    let mut body = Vec::from_slice(alloc, b"op,sid,name\n")?;
    for i in 1..lines {
        body.extend_from_slice(b"+,")?;
        body.extend_from_slice(i.to_string(alloc)?.as_bytes())?;
        body.extend_from_slice(b",x\n")?;
    }
    body.extend_from_slice(last)?;
    Ok(body)
}

// A body with one line, whose text has so many bytes.
fn wide_body(alloc: Global, bytes: u32) -> Result<Vec<u8>, AllocError> {
    let mut body = Vec::from_slice(alloc, b"op,sid,name\n+,1,")?;
    for _ in 0..bytes {
        body.push(b'x')?;
    }
    Ok(body)
}

#[test]
fn lines_are_read(rt: HostRuntime) -> Result<(), Fail> {
    let alloc = rt.alloc();
    let body = b"\xEF\xBB\xBFop,sid,name\r\n+,+07,\"Foyle, east\"\r\n\r\n~,-3,\n-,12,";
    assert_eq!(rt; lines_in(alloc, body), Ok(3));
    Ok(())
}

// The operation of the only line, and its first value where it is a number.
fn only_line(alloc: Global, body: &[u8]) -> Result<Option<(u8, bool)>, BatchFault> {
    let Some(schema) = sid_and_name(alloc)? else {
        return Ok(None);
    };
    let lines = read_batch(alloc, &schema, body)?;
    Ok(match lines.get(0) {
        Some(Line::Put(row)) => Some((b'+', row.values().len() == 2)),
        Some(Line::Change(row)) => Some((b'~', row.values().len() == 2)),
        Some(Line::Remove(_)) => Some((b'-', true)),
        None => None,
    })
}

#[test]
fn operations_are_told_apart(rt: HostRuntime) -> Result<(), Fail> {
    let alloc = rt.alloc();
    let lines: [(&[u8], u8); 3] = [
        (b"op,sid,name\n+,7,Foyle", b'+'),
        (b"op,sid,name\n~,7,Foyle", b'~'),
        (b"op,sid,name\n-,7,", b'-'),
    ];
    for (body, op) in lines {
        assert_eq!(rt; only_line(alloc, body), Ok(Some((op, true))));
    }
    Ok(())
}

#[test]
fn headers_are_refused(rt: HostRuntime) -> Result<(), Fail> {
    let alloc = rt.alloc();
    let bodies: [&[u8]; 7] = [
        b"",
        b"\n\r\n",
        b"\xEF\xBB\xBF\xEF\xBB\xBFop,sid,name\n+,1,a",
        b"op,sid,nam\n+,1,a",
        b"op,sid\n+,1",
        b"op,name,sid\n+,a,1",
        b"OP,sid,name\n+,1,a",
    ];
    for body in bodies {
        assert_eq!(rt; lines_in(alloc, body), Err(BatchFault::BadHeader));
    }
    Ok(())
}

#[test]
fn lines_are_refused(rt: HostRuntime) -> Result<(), Fail> {
    let alloc = rt.alloc();
    let bodies: [(&[u8], BatchFault); 9] = [
        (b"op,sid,name\n", BatchFault::EmptyBatch),
        (b"op,sid,name\n+,1,a\n+,2", BatchFault::BadWidth(2)),
        (b"op,sid,name\n\"\",1,a", BatchFault::BadOp(1)),
        (b"op,sid,name\n++,1,a", BatchFault::BadOp(1)),
        (
            b"op,sid,name\n+,000000000000000000000000000000001,a",
            BatchFault::BadCell { line: 1, column: 0 },
        ),
        (
            b"op,sid,name\n-,1,a",
            BatchFault::BadCell { line: 1, column: 1 },
        ),
        (
            b"op,sid,name\n-,x,a",
            BatchFault::BadCell { line: 1, column: 0 },
        ),
        (
            b"op,sid,name\n+,1,a\n-,+01,\n*,2,b",
            BatchFault::KeyTwice(2),
        ),
        (b"op,sid,name\n+,1,a\n*,2,b\n~,1,c", BatchFault::BadOp(2)),
    ];
    for (body, fault) in bodies {
        assert_eq!(rt; lines_in(alloc, body), Err(fault));
    }
    Ok(())
}

#[test]
fn the_number_of_lines_comes_before_a_line(rt: HostRuntime) -> Result<(), Fail> {
    let alloc = rt.alloc();
    let most = long_body(alloc, 20_000, b"+,none,x")?;
    let last = BatchFault::BadCell {
        line: 20_000,
        column: 0,
    };
    assert_eq!(rt; lines_in(alloc, most.as_slice()), Err(last));
    let more = long_body(alloc, 20_001, b"+,none,x")?;
    assert_eq!(rt;
        lines_in(alloc, more.as_slice()),
        Err(BatchFault::TooManyLines)
    );
    Ok(())
}

#[test]
fn a_key_comes_again_in_the_last_line(rt: HostRuntime) -> Result<(), Fail> {
    let alloc = rt.alloc();
    let body = long_body(alloc, 20_000, b"-,+1,")?;
    assert_eq!(rt;
        lines_in(alloc, body.as_slice()),
        Err(BatchFault::KeyTwice(20_000))
    );
    Ok(())
}

#[test]
fn the_most_lines_are_read(rt: HostRuntime) -> Result<(), Fail> {
    let alloc = rt.alloc();
    let body = long_body(alloc, 20_000, b"-,20000,")?;
    assert_eq!(rt; lines_in(alloc, body.as_slice()), Ok(20_000));
    Ok(())
}

#[test]
fn texts_have_at_most_65535_bytes(rt: HostRuntime) -> Result<(), Fail> {
    let alloc = rt.alloc();
    let longest = wide_body(alloc, 65_535)?;
    assert_eq!(rt; lines_in(alloc, longest.as_slice()), Ok(1));
    let longer = wide_body(alloc, 65_536)?;
    let fault = BatchFault::BadCell { line: 1, column: 1 };
    assert_eq!(rt; lines_in(alloc, longer.as_slice()), Err(fault));
    Ok(())
}

#[test]
fn curators_have_names(rt: HostRuntime) -> Result<(), Fail> {
    let names: [(&[u8], bool); 6] = [
        (b"rey-A_1", true),
        (
            b"0123456789012345678901234567890123456789012345678901234567890123",
            true,
        ),
        (
            b"01234567890123456789012345678901234567890123456789012345678901234",
            false,
        ),
        (b"", false),
        (b"rey.a", false),
        (b"r\xC3\xA9y", false),
    ];
    for (name, good) in names {
        assert_eq!(rt; curator_ok(name), good);
    }
    Ok(())
}

// The example of NIST for one block.
#[test]
fn a_body_has_its_digest(rt: HostRuntime) -> Result<(), Fail> {
    let digest = body_digest(b"abc");
    assert_eq!(rt; (digest[0], digest[1], digest[31]), (0xba, 0x78, 0xad));
    Ok(())
}
