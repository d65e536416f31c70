// Histories that are followed, from payloads that are written out here: a founding at 100 of the columns `sid` and
// `depth` of numbers, Ann's batch 1 at 110, and a citation at 120 of the rows from depth 10 on, with the SHA-256 of
// `"sid","depth"` and `"2","12"`.
use crate::Follower;
use cite_schema::{ByteText, NoMemory};
use std::alloc::Global;
use std::test::Fail;

/// The founding.
pub const FOUNDING: &[u8] =
    b"\x01\x00\x00\x00\x00\x00\x00\x00d\x00\x0710.5072\x00\x0BData Centre\x00\x03Ann\x00\x08Stations\x00\x02\x00\x03sid\x01\x00\x05depth\x01";

/// The batch.
pub const BATCH: &[u8] =
    b"\x02\x00\x00\x00\x00\x00\x00\x00n\x00\x00\x00\x01\x00\x03ann\x00\x00\x00\x01\x00\x00\x00\x1Aop,sid,depth\n+,1,5\n+,2,12\n";

/// The citation.
pub const CITATION: &[u8] =
    b"\x03\x00\x00\x00\x00\x00\x00\x00x\x00\x00\x00\x01\x00\x00\x00\x02=&9\xCA\x14\x99\xA9\xFE\xCD\xA6M{-\x87\xB2\x04\x1D\x93f\xAB@la#\xA1\xB4_\xDA\xBE\xD8\x8F\xA6\x00\x01\x00\x05depth\x05\x01\x00\x00\x00\x00\x00\x00\x00\n\x00\x02\x00\x03sid\x00\x03sid\x00\x05depth\x00\x05depth\x00\x00\x00\x01\x00\x03Bea\x00\x09Some rows\x00\x00";

/// The payload with another byte at a place.
pub fn changed(
    alloc: Global,
    payload: &[u8],
    place: usize,
    byte: u8,
) -> Result<ByteText, NoMemory> {
    let mut other = ByteText::new(alloc);
    for (at, old) in payload.iter().enumerate() {
        other.push(if at == place { byte } else { *old })?;
    }
    Ok(other)
}

// Whether the follower takes the payload with another byte at a place.
fn takes_changed(
    follower: &mut Follower,
    alloc: Global,
    payload: &[u8],
    place: usize,
    byte: u8,
) -> Result<bool, NoMemory> {
    let other = changed(alloc, payload, place, byte)?;
    follower.take(alloc, other.as_slice())
}

// How many of the payloads a new follower takes, one after the other.
fn taken(alloc: Global, payloads: &[&[u8]]) -> Result<u32, NoMemory> {
    let mut follower = Follower::make();
    let mut count = 0u32;
    for payload in payloads {
        if follower.take(alloc, payload)? {
            count = count.saturating_add(1);
        }
    }
    Ok(count)
}

// A follower of the founding and the batch.
fn after_batch(alloc: Global) -> Result<Follower, NoMemory> {
    let mut follower = Follower::make();
    let _ = follower.take(alloc, FOUNDING)?;
    let _ = follower.take(alloc, BATCH)?;
    Ok(follower)
}

// The last version and how many citations there are; 0 and 0 where nothing was accepted.
fn seen(follower: &Follower) -> (u32, u32) {
    match follower.snapshot() {
        Some(snapshot) => (snapshot.version(), snapshot.issued()),
        None => (0, 0),
    }
}

#[test]
fn a_history_is_followed(rt: HostRuntime) -> Result<(), Fail> {
    let alloc = rt.alloc();
    let mut follower = Follower::make();
    assert!(rt; follower.snapshot().is_none());
    assert!(rt; follower.take(alloc, FOUNDING)?);
    assert_eq!(rt; seen(&follower), (1, 0));
    assert!(rt; follower.take(alloc, BATCH)?);
    assert_eq!(rt; seen(&follower), (2, 0));
    assert!(rt; follower.take(alloc, CITATION)?);
    assert_eq!(rt; seen(&follower), (2, 1));
    Ok(())
}

#[test]
fn a_citation_with_another_digest_is_not_followed(rt: HostRuntime) -> Result<(), Fail> {
    let alloc = rt.alloc();
    let mut follower = after_batch(alloc)?;
    assert!(rt; !takes_changed(&mut follower, alloc, CITATION, 17, 62)?);
    assert_eq!(rt; seen(&follower), (2, 0));
    assert!(rt; follower.take(alloc, CITATION)?);
    Ok(())
}

#[test]
fn a_stamp_that_falls_is_not_followed(rt: HostRuntime) -> Result<(), Fail> {
    let alloc = rt.alloc();
    let mut follower = after_batch(alloc)?;
    assert!(rt; !takes_changed(&mut follower, alloc, CITATION, 8, 109)?);
    assert!(rt; takes_changed(&mut follower, alloc, CITATION, 8, 110)?);
    Ok(())
}

#[test]
fn a_founding_is_first_and_never_again(rt: HostRuntime) -> Result<(), Fail> {
    let alloc = rt.alloc();
    assert_eq!(rt; taken(alloc, &[BATCH, CITATION])?, 0);
    assert_eq!(rt; taken(alloc, &[FOUNDING, FOUNDING])?, 1);
    assert_eq!(rt;
        taken(alloc, &[FOUNDING, BATCH, BATCH, CITATION, CITATION])?,
        3
    );
    Ok(())
}

#[test]
fn what_may_not_be_asked_is_not_followed(rt: HostRuntime) -> Result<(), Fail> {
    let alloc = rt.alloc();
    let mut follower = Follower::make();
    assert!(rt; !takes_changed(&mut follower, alloc, FOUNDING, 11, 48)?);
    assert!(rt; follower.take(alloc, FOUNDING)?);
    assert!(rt; !takes_changed(&mut follower, alloc, BATCH, 21, 0)?);
    assert!(rt; !takes_changed(&mut follower, alloc, BATCH, 17, 32)?);
    assert!(rt; takes_changed(&mut follower, alloc, BATCH, 21, 2)?);
    Ok(())
}

#[test]
fn a_text_that_is_no_entry_is_not_followed(rt: HostRuntime) -> Result<(), Fail> {
    let alloc = rt.alloc();
    assert_eq!(rt; taken(alloc, &[b"", b"\x01", b"\x05", b"\x01\x00\x00"])?, 0);
    let (short, _) = FOUNDING.split_at(FOUNDING.len() - 1);
    assert_eq!(rt; taken(alloc, &[short])?, 0);
    Ok(())
}
