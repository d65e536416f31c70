// Refusals, each the first that applies.
use crate::tests::asks::{
    cite_ask, cite_depths, columns, dataset, depths, founded, items, post, send, text,
};
use crate::tests::kept::Archive;
use archive_model::{FoundFault, Refused};
use archive_state::CLOCK_END;
use cite_schema::{Asked, BatchAsk, ByteText, CiteAsk, Cond, List, NoMemory, Value};
use std::alloc::Global;
use std::test::Fail;
use subset_query::QueryFault;
use versioned_rows::ApplyFault;

#[test]
fn a_missing_key_is_told_by_its_line(rt: HostRuntime) -> Result<(), Fail> {
    let alloc = rt.alloc();
    let mut archive = founded(alloc, 100)?;
    let lines = b"+,1,5,a\n+,2,6,b\n~,9,1,c\n+,3,7,d\n";
    let refused = send(&mut archive, alloc, 1, lines, 110);
    assert!(rt; matches!(&refused, Err(Refused::Lines(ApplyFault::KeyMissing(3)))));
    assert_eq!(rt;
        (archive.snapshot().version(), archive.snapshot().rows()),
        (1, 0)
    );
    Ok(())
}

#[test]
fn another_schema_is_told_before_a_bad_body(rt: HostRuntime) -> Result<(), Fail> {
    let alloc = rt.alloc();
    let mut archive = founded(alloc, 100)?;
    let mut ask = BatchAsk {
        schema: 2,
        curator: text(alloc, b"ann")?,
        number: 1,
        body: text(alloc, b"no header")?,
    };
    let refused = post(&mut archive, alloc, &ask, 110);
    assert!(rt; matches!(&refused, Err(Refused::WrongSchema { current: 1 })));
    ask.schema = 1;
    let refused = post(&mut archive, alloc, &ask, 110);
    assert!(rt; matches!(&refused, Err(Refused::Body(_))));
    Ok(())
}

#[test]
fn the_year_10000_is_no_stamp(rt: HostRuntime) -> Result<(), Fail> {
    let alloc = rt.alloc();
    let founding = founded(alloc, CLOCK_END);
    assert!(rt;
        matches!(
            &founding,
            Err(FoundFault::ClockRange {
                moment: 253_402_300_800
            })
        )
    );
    let mut archive = founded(alloc, 100)?;
    let late = send(&mut archive, alloc, 1, b"+,1,5,a\n", CLOCK_END);
    assert!(rt;
        matches!(
            &late,
            Err(Refused::ClockRange {
                moment: 253_402_300_800
            })
        )
    );
    let late = cite_depths(&mut archive, alloc, CLOCK_END);
    assert!(rt; matches!(&late, Err(Refused::ClockRange { .. })));
    assert!(rt; send(&mut archive, alloc, 1, b"+,1,5,a\n", 253_402_300_799).is_ok());
    Ok(())
}

#[test]
fn a_founding_keeps_its_rules(rt: HostRuntime) -> Result<(), Fail> {
    let alloc = rt.alloc();
    let mut told = dataset(alloc)?;
    told.title = List::new(alloc);
    let refused = Archive::found(alloc, &told, columns(alloc)?, 100);
    assert!(rt; matches!(&refused, Err(FoundFault::BadMeta(2))));
    told.prefix = text(alloc, b"10.123")?;
    let refused = Archive::found(alloc, &told, columns(alloc)?, 100);
    assert!(rt; matches!(&refused, Err(FoundFault::BadPrefix)));
    let refused = Archive::found(alloc, &dataset(alloc)?, List::new(alloc), 100);
    assert!(rt; matches!(&refused, Err(FoundFault::Schema(_))));
    Ok(())
}

#[test]
fn a_query_is_judged_before_the_metadata(rt: HostRuntime) -> Result<(), Fail> {
    let alloc = rt.alloc();
    let mut archive = founded(alloc, 100)?;
    let mut ask = depths(alloc)?;
    ask.meta.title = List::new(alloc);
    let refused = archive.cite(alloc, &ask, 200);
    assert!(rt; matches!(&refused, Err(Refused::BadMeta(2))));
    ask.query.items = List::new(alloc);
    let refused = archive.cite(alloc, &ask, 200);
    assert!(rt; matches!(&refused, Err(Refused::Query(QueryFault::NoItems))));
    assert_eq!(rt; archive.entries(), 1);
    Ok(())
}

// The text column 128 times.
fn wide(alloc: Global) -> Result<CiteAsk, NoMemory> {
    let mut shown: List<Asked> = List::new(alloc);
    for _ in 0..128u32 {
        let column = text(alloc, b"name")?;
        let label = text(alloc, b"t")?;
        shown.push(Asked { column, label })?;
    }
    cite_ask(
        alloc,
        b"sid",
        Cond::Gt(Value::Int(0)),
        shown,
        List::new(alloc),
    )
}

// Nine rows, each with a text of 65,535 bytes.
fn long_rows(alloc: Global) -> Result<Vec<u8>, NoMemory> {
    let mut lines = Vec::new(alloc);
    for key in b"123456789" {
        lines.extend_from_slice(b"+,")?;
        lines.push(*key)?;
        lines.extend_from_slice(b",0,")?;
        lines.extend_from_slice(&vec![in alloc; b'x'; 65_535]?)?;
        lines.push(b'\n')?;
    }
    Ok(lines)
}

// A line of 128 labels takes 128 · 3 + 127 + 1 = 512 bytes, and one of texts 128 · 65,537 + 127 + 1 = 8,388,864.
#[test]
fn a_result_that_is_too_large_is_told_with_its_size(rt: HostRuntime) -> Result<(), Fail> {
    let alloc = rt.alloc();
    let mut archive = founded(alloc, 100)?;
    let lines = long_rows(alloc)?;
    let _ = send(&mut archive, alloc, 1, lines.as_slice(), 110)?;
    let refused = archive.cite(alloc, &wide(alloc)?, 200);
    assert!(rt; matches!(&refused, Err(Refused::ResultTooLarge { bytes: 75_500_288 })));
    assert_eq!(rt; archive.snapshot().issued(), 0);
    let narrow = cite_ask(
        alloc,
        b"sid",
        Cond::Gt(Value::Int(0)),
        items(alloc, &[b"name"])?,
        List::new(alloc),
    )?;
    let cited = archive.cite(alloc, &narrow, 200)?;
    assert_eq!(rt; cited.number, 1);
    Ok(())
}

// Appends fifteen texts of 65,535 bytes, which begin with a byte and differ in the next.
fn push_texts(alloc: Global, texts: &mut List<Value>, first: u8) -> Result<(), NoMemory> {
    for second in b"abcdefghijklmno" {
        let mut long = Vec::new(alloc);
        long.push(first)?;
        long.push(*second)?;
        long.extend_from_slice(&vec![in alloc; b'y'; 65_533]?)?;
        texts.push(Value::Text(ByteText::from_vec(long)))?;
    }
    Ok(())
}

// A condition of 300 different texts of 65,535 bytes each.
fn many_texts(alloc: Global) -> Result<Cond, NoMemory> {
    let mut texts = List::new(alloc);
    for first in b"abcdefghijklmnopqrst" {
        push_texts(alloc, &mut texts, *first)?;
    }
    Ok(Cond::Among(texts))
}

// The payload has 1 byte of kind, 8, 4, 4 and 32 bytes of stamp, number, version and digest, a query of 2 + (2 + 4) +
// (1 + 4 + 300 · (1 + 2 + 65,535)) + 2 + (2 + 3 + 2 + 3) + 2, and metadata of 2 + (2 + 3) + (2 + 9) + 2 bytes.
#[test]
fn an_entry_that_is_too_large_is_told_with_its_size(rt: HostRuntime) -> Result<(), Fail> {
    let alloc = rt.alloc();
    let mut archive = founded(alloc, 100)?;
    let ask = cite_ask(
        alloc,
        b"name",
        many_texts(alloc)?,
        items(alloc, &[b"sid"])?,
        List::new(alloc),
    )?;
    let refused = archive.cite(alloc, &ask, 200);
    assert!(rt; matches!(&refused, Err(Refused::EntryTooLarge { bytes: 19_661_496 })));
    assert_eq!(rt; archive.entries(), 1);
    Ok(())
}
