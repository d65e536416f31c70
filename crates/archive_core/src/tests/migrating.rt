// Migrations, and what they make of citations. No citation may lose its bytes.
use crate::tests::asks::{between, cite_ask, cite_depths, founded, items, order, send, text};
use crate::tests::kept::Archive;
use crate::tests::sessions::resolved;
use archive_model::{Cited, Moved, Refused};
use archive_state::CLOCK_END;
use cite_schema::{Cond, List, NoMemory, Step, Value};
use migration::StepFault;
use std::alloc::Global;
use std::test::Fail;

// What becomes of a migration by one step from the first schema.
fn migrate(
    archive: &mut Archive,
    alloc: Global,
    step: Result<Step, NoMemory>,
    now: u64,
) -> Result<Moved, Refused> {
    let mut steps = List::new(alloc);
    let Ok(step) = step else {
        return Err(Refused::NoMemory);
    };
    if steps.push(step).is_err() {
        return Err(Refused::NoMemory);
    }
    archive.migrate(alloc, 1, &steps, now)
}

fn scale(alloc: Global, by: i64) -> Result<Step, NoMemory> {
    let column = text(alloc, b"depth")?;
    Ok(Step::Scale {
        column,
        by,
        plus: 0,
    })
}

fn recode(alloc: Global, old: i64, new: i64) -> Result<Step, NoMemory> {
    let column = text(alloc, b"depth")?;
    Ok(Step::Recode {
        column,
        old: Value::Int(old),
        new: Value::Int(new),
    })
}

fn drop_column(alloc: Global, name: &[u8]) -> Result<Step, NoMemory> {
    let column = text(alloc, name)?;
    Ok(Step::DropColumn { column })
}

fn retype(alloc: Global) -> Result<Step, NoMemory> {
    let column = text(alloc, b"depth")?;
    Ok(Step::RetypeToText { column })
}

// What becomes of a request for the keys of the rows with a condition on their depth.
fn cite_keys(archive: &mut Archive, alloc: Global, cond: Cond, now: u64) -> Result<Cited, Refused> {
    let Ok(items) = items(alloc, &[b"sid"]) else {
        return Err(Refused::NoMemory);
    };
    match cite_ask(alloc, b"depth", cond, items, List::new(alloc)) {
        Ok(ask) => archive.cite(alloc, &ask, now),
        Err(NoMemory) => Err(Refused::NoMemory),
    }
}

#[test]
fn a_citation_keeps_its_bytes_and_its_number(rt: HostRuntime) -> Result<(), Fail> {
    let alloc = rt.alloc();
    let mut archive = founded(alloc, 100)?;
    let _ = send(&mut archive, alloc, 1, b"+,1,5,a\n+,2,12,b\n", 110)?;
    let first = cite_keys(&mut archive, alloc, Cond::Eq(Value::Int(5)), 120)?;
    assert_eq!(rt; (first.number, first.new), (1, true));
    let moved = migrate(&mut archive, alloc, scale(alloc, 100), 130)?;
    assert_eq!(rt; (moved.schema, moved.version), (2, 3));
    let again = resolved(&archive, alloc, 1)?;
    assert_eq!(rt; again.as_slice(), b"\"sid\"\n\"1\"\n".as_slice());
    let other = cite_keys(&mut archive, alloc, Cond::Eq(Value::Int(500)), 140)?;
    assert_eq!(rt; (other.number, other.new), (1, false));
    Ok(())
}

#[test]
fn the_first_citation_that_is_harmed_is_named(rt: HostRuntime) -> Result<(), Fail> {
    let alloc = rt.alloc();
    let mut archive = founded(alloc, 100)?;
    let _ = send(&mut archive, alloc, 1, b"+,1,15,a\n", 110)?;
    let _ = cite_depths(&mut archive, alloc, 120)?;
    let _ = send(&mut archive, alloc, 2, b"~,1,16,a\n", 130)?;
    let second = cite_depths(&mut archive, alloc, 140)?;
    assert_eq!(rt; second.number, 2);
    let refused = migrate(&mut archive, alloc, scale(alloc, 100), 150);
    assert!(rt; matches!(&refused, Err(Refused::CitedSubset { number: 1 })));
    assert_eq!(rt; (archive.entries(), archive.snapshot().version()), (5, 3));
    Ok(())
}

#[test]
fn a_citation_without_rows_is_not_harmed(rt: HostRuntime) -> Result<(), Fail> {
    let alloc = rt.alloc();
    let mut archive = founded(alloc, 100)?;
    let _ = send(&mut archive, alloc, 1, b"+,1,5,a\n+,2,12,b\n", 110)?;
    let items = items(alloc, &[b"sid", b"depth"])?;
    let high = between(alloc, 100, 200)?;
    let ask = cite_ask(alloc, b"depth", high, items, List::new(alloc))?;
    let _ = archive.cite(alloc, &ask, 120)?;
    let moved = migrate(&mut archive, alloc, scale(alloc, 100), 130)?;
    assert_eq!(rt; (moved.schema, moved.version), (2, 3));
    Ok(())
}

#[test]
fn a_column_that_orders_nothing_may_be_dropped(rt: HostRuntime) -> Result<(), Fail> {
    let alloc = rt.alloc();
    let mut archive = founded(alloc, 100)?;
    let _ = send(&mut archive, alloc, 1, b"+,1,5,a\n+,2,12,b\n", 110)?;
    let ask = cite_ask(
        alloc,
        b"sid",
        Cond::Gt(Value::Int(0)),
        items(alloc, &[b"depth"])?,
        order(alloc, &[b"depth", b"-name"])?,
    )?;
    let _ = archive.cite(alloc, &ask, 120)?;
    let moved = migrate(&mut archive, alloc, drop_column(alloc, b"name"), 130)?;
    assert_eq!(rt; (moved.schema, moved.version), (2, 3));
    Ok(())
}

#[test]
fn a_column_that_picks_rows_may_not(rt: HostRuntime) -> Result<(), Fail> {
    let alloc = rt.alloc();
    let mut archive = founded(alloc, 100)?;
    let _ = send(&mut archive, alloc, 1, b"+,1,5,a\n+,2,1,b\n", 110)?;
    let _ = cite_keys(&mut archive, alloc, Cond::Eq(Value::Int(1)), 120)?;
    let refused = migrate(&mut archive, alloc, drop_column(alloc, b"depth"), 130);
    assert!(rt; matches!(&refused, Err(Refused::CitedSubset { number: 1 })));
    let mut archive = founded(alloc, 100)?;
    let _ = send(&mut archive, alloc, 1, b"+,1,5,a\n+,2,1,b\n", 110)?;
    let _ = cite_keys(&mut archive, alloc, Cond::Ge(Value::Int(1)), 120)?;
    let refused = migrate(&mut archive, alloc, retype(alloc), 130);
    assert!(rt; matches!(&refused, Err(Refused::CitedSubset { number: 1 })));
    Ok(())
}

#[test]
fn a_carried_form_that_picks_another_row_harms(rt: HostRuntime) -> Result<(), Fail> {
    let alloc = rt.alloc();
    let mut archive = founded(alloc, 100)?;
    let _ = send(&mut archive, alloc, 1, b"+,1,1,a\n+,2,2,b\n", 110)?;
    let _ = cite_keys(&mut archive, alloc, Cond::Eq(Value::Int(1)), 120)?;
    let refused = migrate(&mut archive, alloc, recode(alloc, 1, 2), 130);
    assert!(rt; matches!(&refused, Err(Refused::CitedSubset { number: 1 })));
    Ok(())
}

#[test]
fn a_number_that_leaves_the_range_is_told(rt: HostRuntime) -> Result<(), Fail> {
    let alloc = rt.alloc();
    let mut archive = founded(alloc, 100)?;
    let _ = send(&mut archive, alloc, 1, b"+,1,2,a\n", 110)?;
    let refused = migrate(&mut archive, alloc, scale(alloc, i64::MAX), 120);
    assert!(rt;
        matches!(
            &refused,
            Err(Refused::Overflow {
                version: 2,
                key: Value::Int(1)
            })
        )
    );
    Ok(())
}

#[test]
fn a_migration_is_judged_in_order(rt: HostRuntime) -> Result<(), Fail> {
    let alloc = rt.alloc();
    let mut archive = founded(alloc, 100)?;
    let refused = archive.migrate(alloc, 2, &List::new(alloc), CLOCK_END);
    assert!(rt; matches!(&refused, Err(Refused::WrongSchema { current: 1 })));
    let refused = archive.migrate(alloc, 1, &List::new(alloc), CLOCK_END);
    assert!(rt; matches!(&refused, Err(Refused::Steps(StepFault::BadStep(0)))));
    let refused = migrate(&mut archive, alloc, scale(alloc, 2), CLOCK_END);
    assert!(rt;
        matches!(
            &refused,
            Err(Refused::ClockRange {
                moment: 253_402_300_800
            })
        )
    );
    assert_eq!(rt; archive.entries(), 1);
    Ok(())
}

#[test]
fn batches_are_repeats_after_a_migration(rt: HostRuntime) -> Result<(), Fail> {
    let alloc = rt.alloc();
    let mut archive = founded(alloc, 100)?;
    let _ = send(&mut archive, alloc, 7, b"+,1,5,a\n", 110)?;
    let _ = migrate(&mut archive, alloc, scale(alloc, 2), 120)?;
    let again = send(&mut archive, alloc, 7, b"+,1,5,a\n", 130)?;
    assert_eq!(rt; (again.version, again.new), (2, false));
    let refused = send(&mut archive, alloc, 8, b"+,2,5,a\n", 140);
    assert!(rt; matches!(&refused, Err(Refused::WrongSchema { current: 2 })));
    Ok(())
}

// What becomes of a request for the keys and depths of the rows whose key lies between these.
fn cite_depths_of(
    archive: &mut Archive,
    alloc: Global,
    low: i64,
    high: i64,
) -> Result<Cited, Refused> {
    let (Ok(items), Ok(keys)) = (items(alloc, &[b"sid", b"depth"]), between(alloc, low, high))
    else {
        return Err(Refused::NoMemory);
    };
    match cite_ask(alloc, b"sid", keys, items, List::new(alloc)) {
        Ok(ask) => archive.cite(alloc, &ask, 120),
        Err(NoMemory) => Err(Refused::NoMemory),
    }
}

// An archive of two rows of depth 1, and the citation of their keys.
fn keys_cited(alloc: Global) -> Result<Archive, Fail> {
    let mut archive = founded(alloc, 100)?;
    let _ = send(&mut archive, alloc, 1, b"+,1,1,a\n+,2,1,b\n", 110)?;
    let keys = cite_keys(&mut archive, alloc, Cond::Ge(Value::Int(1)), 120)?;
    if (keys.number, keys.new) == (1, true) {
        Ok(archive)
    } else {
        Err(Fail::new("the keys have another number"))
    }
}

// Of the citations that print the depth the first is named, though one before it stands.
#[test]
fn a_harmed_citation_is_named_behind_one_that_stays(rt: HostRuntime) -> Result<(), Fail> {
    let alloc = rt.alloc();
    let mut archive = keys_cited(alloc)?;
    assert_eq!(rt; cite_depths_of(&mut archive, alloc, 0, 2)?.number, 2);
    assert_eq!(rt; cite_depths_of(&mut archive, alloc, 2, 4)?.number, 3);
    let refused = migrate(&mut archive, alloc, scale(alloc, 2), 130);
    assert!(rt; matches!(&refused, Err(Refused::CitedSubset { number: 2 })));
    Ok(())
}

#[test]
fn a_citation_of_keys_alone_stays(rt: HostRuntime) -> Result<(), Fail> {
    let alloc = rt.alloc();
    let mut archive = keys_cited(alloc)?;
    let moved = migrate(&mut archive, alloc, scale(alloc, 2), 130)?;
    assert_eq!(rt; (moved.schema, moved.version), (2, 3));
    let again = resolved(&archive, alloc, 1)?;
    assert_eq!(rt; again.as_slice(), b"\"sid\"\n\"1\"\n\"2\"\n".as_slice());
    Ok(())
}
