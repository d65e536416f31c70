// Changes: a batch, a citation and a migration, made and sent again.
use crate::tests::served::{MID_DEPTHS, THREE_ROWS, batch, cite, founded, migrate};
use std::test::Fail;

#[test]
fn a_batch_is_stored_once(rt: HostRuntime) -> Result<(), Fail> {
    let alloc = rt.alloc();
    let mut served = founded(alloc, &[])?;
    let first = batch(&mut served, alloc, 1, 1, THREE_ROWS)?;
    assert_eq!(rt;
        first.as_slice(),
        b"201 {\"new\":true,\"version\":2}".as_slice()
    );
    let again = batch(&mut served, alloc, 1, 1, THREE_ROWS)?;
    assert_eq!(rt;
        again.as_slice(),
        b"200 {\"new\":false,\"version\":2}".as_slice()
    );
    Ok(())
}

#[test]
fn a_citation_is_told_with_its_text(rt: HostRuntime) -> Result<(), Fail> {
    let alloc = rt.alloc();
    let mut served = founded(alloc, &[])?;
    let _ = batch(&mut served, alloc, 1, 1, THREE_ROWS)?;
    let first = cite(&mut served, alloc, MID_DEPTHS)?;
    assert_eq!(rt;
        first.as_slice(),
        b"201 {\"id\":\"10.5072/c1\",\"new\":true,\"text\":\"Rey, A. (2024): Mid depths. Version 2. Lab. Dataset. https://doi.org/10.5072/c1\"}".as_slice()
    );
    let again = cite(&mut served, alloc, MID_DEPTHS)?;
    assert_eq!(rt;
        again.as_slice(),
        b"200 {\"id\":\"10.5072/c1\",\"new\":false,\"text\":\"Rey, A. (2024): Mid depths. Version 2. Lab. Dataset. https://doi.org/10.5072/c1\"}".as_slice()
    );
    Ok(())
}

#[test]
fn a_migration_is_told(rt: HostRuntime) -> Result<(), Fail> {
    let alloc = rt.alloc();
    let mut served = founded(alloc, &[])?;
    let steps = b"[{\"rename\":{\"column\":\"depth\",\"to\":\"metres\"}}]";
    let moved = migrate(&mut served, alloc, steps)?;
    assert_eq!(rt;
        moved.as_slice(),
        b"201 {\"schema\":2,\"version\":2}".as_slice()
    );
    let again = migrate(&mut served, alloc, steps)?;
    assert_eq!(rt; again.as_slice(), b"409 WrongSchema 2\n".as_slice());
    Ok(())
}
