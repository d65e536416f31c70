// Batches, and what was cited before and after them.
use crate::tests::asks::{cite_depths, founded, send};
use crate::tests::kept::Archive;
use crate::{LookFault, Snapshot};
use archive_model::{Cited, Refused, Stored};
use cite_schema::ByteText;
use std::alloc::Global;
use std::test::Fail;

/// What the number resolves to now.
pub fn resolved(archive: &Archive, alloc: Global, number: u32) -> Result<ByteText, LookFault> {
    let seen = archive.snapshot();
    Snapshot::resolve(alloc, seen.table(), seen.store(), number)
}

fn is_new(version: u32) -> Stored {
    Stored { version, new: true }
}

fn is_old(version: u32) -> Stored {
    Stored {
        version,
        new: false,
    }
}

#[test]
fn a_citation_gets_an_old_number_where_the_same_rows_come_back(
    rt: HostRuntime,
) -> Result<(), Fail> {
    let alloc = rt.alloc();
    let mut archive = founded(alloc, 100)?;
    assert_eq!(rt;
        send(&mut archive, alloc, 1, b"+,1,5,a\n+,2,12,b\n", 110)?,
        is_new(2)
    );
    let cited = cite_depths(&mut archive, alloc, 120)?;
    assert_eq!(rt; (cited.number, cited.new), (1, true));
    assert_eq!(rt;
        send(&mut archive, alloc, 2, b"~,2,30,b\n", 130)?,
        is_new(3)
    );
    let cited = cite_depths(&mut archive, alloc, 140)?;
    assert_eq!(rt; (cited.number, cited.new), (2, true));
    assert_eq!(rt;
        send(&mut archive, alloc, 3, b"~,2,12,c\n", 150)?,
        is_new(4)
    );
    let cited = cite_depths(&mut archive, alloc, 160)?;
    assert_eq!(rt; (cited.number, cited.new), (1, false));
    Ok(())
}

#[test]
fn numbers_resolve_to_the_bytes_of_their_versions(rt: HostRuntime) -> Result<(), Fail> {
    let alloc = rt.alloc();
    let mut archive = founded(alloc, 100)?;
    let _ = send(&mut archive, alloc, 1, b"+,1,5,a\n+,2,12,b\n", 110)?;
    let _ = cite_depths(&mut archive, alloc, 120)?;
    let _ = send(&mut archive, alloc, 2, b"~,2,30,b\n", 130)?;
    let _ = cite_depths(&mut archive, alloc, 140)?;
    let first = resolved(&archive, alloc, 1)?;
    assert_eq!(rt;
        first.as_slice(),
        b"\"sid\",\"depth\"\n\"2\",\"12\"\n".as_slice()
    );
    let second = resolved(&archive, alloc, 2)?;
    assert_eq!(rt; second.as_slice(), b"\"sid\",\"depth\"\n".as_slice());
    Ok(())
}

#[test]
fn a_batch_is_stored_once(rt: HostRuntime) -> Result<(), Fail> {
    let alloc = rt.alloc();
    let mut archive = founded(alloc, 100)?;
    assert_eq!(rt; send(&mut archive, alloc, 7, b"+,1,5,a\n", 110)?, is_new(2));
    assert_eq!(rt; send(&mut archive, alloc, 7, b"+,1,5,a\n", 120)?, is_old(2));
    assert_eq!(rt; (archive.entries(), archive.snapshot().version()), (2, 2));
    let other = send(&mut archive, alloc, 7, b"+,2,5,a\n", 130);
    assert!(rt; matches!(&other, Err(Refused::NumberUsed { version: 2 })));
    assert_eq!(rt; (archive.entries(), archive.snapshot().rows()), (2, 1));
    Ok(())
}

#[test]
fn a_refused_batch_leaves_its_number_free(rt: HostRuntime) -> Result<(), Fail> {
    let alloc = rt.alloc();
    let mut archive = founded(alloc, 100)?;
    let refused = send(&mut archive, alloc, 1, b"~,9,5,a\n", 110);
    assert!(rt; matches!(&refused, Err(Refused::Lines(_))));
    assert_eq!(rt; send(&mut archive, alloc, 1, b"+,9,5,a\n", 120)?, is_new(2));
    Ok(())
}

#[test]
fn what_was_seen_before_stays(rt: HostRuntime) -> Result<(), Fail> {
    let alloc = rt.alloc();
    let mut archive = founded(alloc, 100)?;
    let _ = send(&mut archive, alloc, 1, b"+,1,5,a\n", 110)?;
    let Some(before) = archive.ready() else {
        return Err(Fail::new("nothing is ready"));
    };
    let _ = send(&mut archive, alloc, 2, b"-,1,,\n", 120)?;
    assert_eq!(rt; (before.version(), before.rows(), before.kept()), (2, 1, 1));
    let now = archive.snapshot();
    assert_eq!(rt; (now.version(), now.rows(), now.kept()), (3, 0, 1));
    Ok(())
}

#[test]
fn a_snapshot_is_ready_once(rt: HostRuntime) -> Result<(), Fail> {
    let alloc = rt.alloc();
    let mut archive = founded(alloc, 100)?;
    assert!(rt; archive.ready().is_some());
    assert!(rt; archive.ready().is_none());
    let _ = send(&mut archive, alloc, 1, b"+,1,5,a\n", 110)?;
    let _ = send(&mut archive, alloc, 1, b"+,1,5,a\n", 120)?;
    assert!(rt; archive.ready().is_some());
    let _ = send(&mut archive, alloc, 1, b"+,1,5,a\n", 130)?;
    assert!(rt; archive.ready().is_none());
    Ok(())
}

#[test]
fn stamps_do_not_fall(rt: HostRuntime) -> Result<(), Fail> {
    let alloc = rt.alloc();
    let mut archive = founded(alloc, 100)?;
    let _ = send(&mut archive, alloc, 1, b"+,1,15,a\n", 50)?;
    let seen = archive.snapshot();
    assert_eq!(rt; (seen.founded(), seen.stamp()), (100, 100));
    let _ = cite_depths(&mut archive, alloc, 300)?;
    let _ = send(&mut archive, alloc, 2, b"+,2,5,a\n", 200)?;
    assert_eq!(rt; archive.snapshot().stamp(), 300);
    let seen = archive.snapshot();
    let citation = seen.citation(1)?;
    assert_eq!(rt;
        (
            citation.issue.cited,
            citation.issue.updated,
            citation.issue.version
        ),
        (300, 100, 2)
    );
    Ok(())
}

#[test]
fn numbers_that_were_not_issued_are_told(rt: HostRuntime) -> Result<(), Fail> {
    let alloc = rt.alloc();
    let mut archive = founded(alloc, 100)?;
    let _ = cite_depths(&mut archive, alloc, 120)?;
    let none = resolved(&archive, alloc, 0);
    assert!(rt; matches!(&none, Err(LookFault::NotIssued { issued: 1 })));
    let next = resolved(&archive, alloc, 2);
    assert!(rt; matches!(&next, Err(LookFault::NotIssued { issued: 1 })));
    assert_eq!(rt; archive.snapshot().issued(), 1);
    Ok(())
}
