// Limits, at their edges.
use archive_state::{passed_by_citation, passed_by_migration, passed_by_version};
use std::test::Fail;

#[test]
fn limits_are_told_in_their_order(rt: HostRuntime) -> Result<(), Fail> {
    let at = passed_by_version(200_000, 1_000_000, 1_073_741_824, 1_073_741_824);
    assert_eq!(rt; at, None);
    let all = passed_by_version(200_001, 1_000_001, 1_073_741_825, 1_073_741_825);
    assert_eq!(rt; all, Some(2));
    let kept = passed_by_version(200_000, 1_000_001, 1_073_741_825, 1_073_741_825);
    assert_eq!(rt; kept, Some(1));
    let weight = passed_by_version(200_000, 1_000_000, 1_073_741_825, 1_073_741_825);
    assert_eq!(rt; weight, Some(4));
    let journal = passed_by_version(200_000, 1_000_000, 1_073_741_824, 1_073_741_825);
    assert_eq!(rt; journal, Some(5));
    Ok(())
}

#[test]
fn limits_of_citations_are_told_in_their_order(rt: HostRuntime) -> Result<(), Fail> {
    assert_eq!(rt; passed_by_citation(100_000, 1_073_741_824), None);
    assert_eq!(rt; passed_by_citation(100_001, 1_073_741_825), Some(3));
    assert_eq!(rt; passed_by_citation(100_000, 1_073_741_825), Some(5));
    Ok(())
}

#[test]
fn limits_of_migrations_are_told_in_their_order(rt: HostRuntime) -> Result<(), Fail> {
    assert_eq!(rt; passed_by_migration(1_073_741_824, 1_073_741_824), None);
    assert_eq!(rt; passed_by_migration(1_073_741_825, 1_073_741_825), Some(4));
    assert_eq!(rt; passed_by_migration(1_073_741_824, 1_073_741_825), Some(5));
    Ok(())
}
