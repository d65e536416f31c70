// A disk that fails is told once, and not again.
use crate::tests::served::{THREE_ROWS, batch, founded};
use std::test::Fail;

#[test]
fn a_failing_disk_is_told_and_forgotten(rt: HostRuntime) -> Result<(), Fail> {
    let alloc = rt.alloc();
    let mut served = founded(alloc, &[6])?;
    let failed = batch(&mut served, alloc, 1, 1, THREE_ROWS)?;
    assert_eq!(rt; failed.as_slice(), b"503 DiskFailed\n".as_slice());
    let again = batch(&mut served, alloc, 1, 1, THREE_ROWS)?;
    assert_eq!(rt;
        again.as_slice(),
        b"201 {\"new\":true,\"version\":2}".as_slice()
    );
    Ok(())
}
