// Which requests get one number.
use crate::tests::asks::{between, cite_ask, depths, founded, items, order, text};
use crate::tests::kept::Archive;
use archive_model::Refused;
use cite_schema::{Asked, CiteAsk, Cond, List, NoMemory, Value};
use std::alloc::Global;
use std::test::Fail;

// The number that a request gets.
fn number(archive: &mut Archive, alloc: Global, ask: &CiteAsk) -> Result<u32, Refused> {
    let cited = archive.cite(alloc, ask, 200)?;
    Ok(cited.number)
}

fn of_keys(alloc: Global, cond: Cond, names: &[&[u8]]) -> Result<CiteAsk, NoMemory> {
    cite_ask(
        alloc,
        b"sid",
        cond,
        items(alloc, &[b"sid"])?,
        order(alloc, names)?,
    )
}

fn of_all(alloc: Global, shown: &[&[u8]], names: &[&[u8]]) -> Result<CiteAsk, NoMemory> {
    let all = Cond::AllOf(List::new(alloc));
    cite_ask(
        alloc,
        b"sid",
        all,
        items(alloc, shown)?,
        order(alloc, names)?,
    )
}

#[test]
fn requests_that_ask_the_same_get_one_number(rt: HostRuntime) -> Result<(), Fail> {
    let alloc = rt.alloc();
    let mut archive = founded(alloc, 100)?;
    let equal = of_keys(alloc, Cond::Eq(Value::Int(5)), &[b"-sid"])?;
    let within = of_keys(alloc, between(alloc, 5, 6)?, &[])?;
    assert_eq!(rt; number(&mut archive, alloc, &equal)?, 1);
    assert_eq!(rt; number(&mut archive, alloc, &within)?, 1);
    Ok(())
}

// The number of all rows, shown and ordered so.
fn ordered(
    archive: &mut Archive,
    alloc: Global,
    shown: &[&[u8]],
    names: &[&[u8]],
) -> Result<u32, Fail> {
    let ask = of_all(alloc, shown, names)?;
    Ok(number(archive, alloc, &ask)?)
}

#[test]
fn an_order_that_shows_makes_another_number(rt: HostRuntime) -> Result<(), Fail> {
    let alloc = rt.alloc();
    let mut archive = founded(alloc, 100)?;
    let one: &[&[u8]] = &[b"depth"];
    let two: &[&[u8]] = &[b"sid", b"depth"];
    let down: &[&[u8]] = &[b"depth", b"-name"];
    assert_eq!(rt; ordered(&mut archive, alloc, one, down)?, 1);
    assert_eq!(rt; ordered(&mut archive, alloc, one, one)?, 1);
    assert_eq!(rt; ordered(&mut archive, alloc, two, down)?, 2);
    assert_eq!(rt; ordered(&mut archive, alloc, two, one)?, 3);
    Ok(())
}

#[test]
fn labels_make_another_number(rt: HostRuntime) -> Result<(), Fail> {
    let alloc = rt.alloc();
    let mut archive = founded(alloc, 100)?;
    let mut labelled = List::new(alloc);
    let column = text(alloc, b"sid")?;
    let label = text(alloc, b"Station")?;
    labelled.push(Asked { column, label })?;
    let plain = of_keys(alloc, between(alloc, 1, 9)?, &[])?;
    let other = cite_ask(
        alloc,
        b"sid",
        between(alloc, 1, 9)?,
        labelled,
        List::new(alloc),
    )?;
    assert_eq!(rt; number(&mut archive, alloc, &plain)?, 1);
    assert_eq!(rt; number(&mut archive, alloc, &other)?, 2);
    Ok(())
}

// The number of the rows of some depths, under a title.
fn titled(archive: &mut Archive, alloc: Global, title: &[u8]) -> Result<u32, Fail> {
    let mut ask = depths(alloc)?;
    ask.meta.title = text(alloc, title)?;
    Ok(number(archive, alloc, &ask)?)
}

#[test]
fn metadata_of_a_repeat_are_dropped(rt: HostRuntime) -> Result<(), Fail> {
    let alloc = rt.alloc();
    let mut archive = founded(alloc, 100)?;
    assert_eq!(rt; titled(&mut archive, alloc, b"Some rows")?, 1);
    assert_eq!(rt; titled(&mut archive, alloc, b"Other rows")?, 1);
    let seen = archive.snapshot();
    let citation = seen.citation(1)?;
    assert_eq!(rt;
        citation.issue.meta.title.as_slice(),
        b"Some rows".as_slice()
    );
    Ok(())
}
