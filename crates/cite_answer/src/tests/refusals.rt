// The codes and words of refusals.
use crate::replies::{refusal_reply, status_reply, unread_reply};
use crate::tests::served::{MID_DEPTHS, THREE_ROWS, batch, cite, founded, migrate, text};
use archive_model::Refused;
use batches::BatchFault;
use cite_http::Status;
use cite_schema::Value;
use migration::StepFault;
use query_json::JsonFault;
use std::alloc::Global;
use std::test::Fail;
use subset_query::QueryFault;
use versioned_rows::ApplyFault;

// Whether a refusal has this code and this line.
fn is_told(alloc: Global, refusal: Refused, code: u16, line: &[u8]) -> Result<bool, Fail> {
    let reply = refusal_reply(alloc, b"10.5072", false, &refusal)?;
    Ok(reply.code == code && reply.body.as_slice() == line && reply.allow == 0)
}

#[test]
fn conflicts_are_told(rt: HostRuntime) -> Result<(), Fail> {
    let alloc = rt.alloc();
    assert!(rt;
        is_told(
            alloc,
            Refused::NumberUsed { version: 2 },
            409,
            b"NumberUsed 2\n"
        )?
    );
    assert!(rt;
        is_told(
            alloc,
            Refused::WrongSchema { current: 3 },
            409,
            b"WrongSchema 3\n"
        )?
    );
    assert!(rt;
        is_told(
            alloc,
            Refused::CitedSubset { number: 7 },
            409,
            b"CitedSubset 10.5072/c7\n"
        )?
    );
    Ok(())
}

#[test]
fn rules_of_batches_are_told(rt: HostRuntime) -> Result<(), Fail> {
    let alloc = rt.alloc();
    assert!(rt;
        is_told(
            alloc,
            Refused::Body(BatchFault::BadHeader),
            422,
            b"BadHeader\n"
        )?
    );
    assert!(rt;
        is_told(
            alloc,
            Refused::Body(BatchFault::BadCell { line: 2, column: 1 }),
            422,
            b"BadCell 2 1\n"
        )?
    );
    assert!(rt;
        is_told(
            alloc,
            Refused::Body(BatchFault::KeyTwice(20_000)),
            422,
            b"KeyTwice 20000\n"
        )?
    );
    assert!(rt;
        is_told(
            alloc,
            Refused::Lines(ApplyFault::KeyMissing(1)),
            422,
            b"KeyMissing 1\n"
        )?
    );
    Ok(())
}

#[test]
fn rules_of_queries_and_steps_are_told(rt: HostRuntime) -> Result<(), Fail> {
    let alloc = rt.alloc();
    assert!(rt;
        is_told(
            alloc,
            Refused::Query(QueryFault::UnknownColumn { part: 2, place: 0 }),
            422,
            b"UnknownColumn 2 0\n"
        )?
    );
    assert!(rt;
        is_told(
            alloc,
            Refused::Query(QueryFault::NoItems),
            422,
            b"NoItems\n"
        )?
    );
    assert!(rt;
        is_told(
            alloc,
            Refused::Steps(StepFault::BadStep(0)),
            422,
            b"BadStep 0\n"
        )?
    );
    assert!(rt; is_told(alloc, Refused::BadMeta(2), 422, b"BadMeta 2\n")?);
    Ok(())
}

#[test]
fn limits_are_told(rt: HostRuntime) -> Result<(), Fail> {
    let alloc = rt.alloc();
    assert!(rt;
        is_told(
            alloc,
            Refused::ResultTooLarge { bytes: 67_108_865 },
            422,
            b"ResultTooLarge 67108865\n"
        )?
    );
    assert!(rt;
        is_told(
            alloc,
            Refused::EntryTooLarge { bytes: 16_777_217 },
            422,
            b"EntryTooLarge 16777217\n"
        )?
    );
    assert!(rt; is_told(alloc, Refused::Full { limit: 5 }, 422, b"Full 5\n")?);
    assert!(rt;
        is_told(
            alloc,
            Refused::ClockRange {
                moment: 253_402_300_800
            },
            422,
            b"ClockRange 253402300800\n"
        )?
    );
    Ok(())
}

#[test]
fn keys_that_overflow_are_told(rt: HostRuntime) -> Result<(), Fail> {
    let alloc = rt.alloc();
    let number = Refused::Overflow {
        version: 3,
        key: Value::Int(-7),
    };
    assert!(rt; is_told(alloc, number, 422, b"Overflow 3 -7\n")?);
    let word = Refused::Overflow {
        version: 1,
        key: Value::Text(text(alloc, b"ab")?),
    };
    assert!(rt; is_told(alloc, word, 422, b"Overflow 1 6162\n")?);
    let empty = Refused::Overflow {
        version: 1,
        key: Value::Text(text(alloc, b"")?),
    };
    assert!(rt; is_told(alloc, empty, 422, b"Overflow 1 \n")?);
    Ok(())
}

#[test]
fn what_is_wanting_is_told(rt: HostRuntime) -> Result<(), Fail> {
    let alloc = rt.alloc();
    assert!(rt; is_told(alloc, Refused::NoMemory, 507, b"NoMemory\n")?);
    assert!(rt; is_told(alloc, Refused::DiskFailed, 503, b"DiskFailed\n")?);
    Ok(())
}

// Whether a refused message has this code, this line and this method.
fn is_bad(alloc: Global, status: Status, code: u16, line: &[u8], allow: u8) -> Result<bool, Fail> {
    let reply = status_reply(alloc, true, status)?;
    Ok(reply.code == code && reply.body.as_slice() == line && reply.allow == allow && reply.closing)
}

#[test]
fn refused_messages_have_their_codes(rt: HostRuntime) -> Result<(), Fail> {
    let alloc = rt.alloc();
    assert!(rt; is_bad(alloc, Status::BadHead, 400, b"BadHead\n", 0)?);
    assert!(rt; is_bad(alloc, Status::HeadTooLong, 431, b"HeadTooLong\n", 0)?);
    assert!(rt; is_bad(alloc, Status::TransferCoding, 501, b"TransferCoding\n", 0)?);
    assert!(rt; is_bad(alloc, Status::BadLength, 400, b"BadLength\n", 0)?);
    Ok(())
}

#[test]
fn refused_targets_have_their_codes(rt: HostRuntime) -> Result<(), Fail> {
    let alloc = rt.alloc();
    assert!(rt; is_bad(alloc, Status::BodyTooLong, 413, b"BodyTooLong\n", 0)?);
    assert!(rt; is_bad(alloc, Status::BadTarget, 400, b"BadTarget\n", 0)?);
    assert!(rt; is_bad(alloc, Status::NoRoute, 404, b"NoRoute\n", 0)?);
    assert!(rt;
        is_bad(
            alloc,
            Status::OtherMethod { get: false },
            405,
            b"OtherMethod\n",
            2
        )?
    );
    Ok(())
}

#[test]
fn unread_bodies_are_told(rt: HostRuntime) -> Result<(), Fail> {
    let alloc = rt.alloc();
    let reply = unread_reply(alloc, false, JsonFault::NotAQuery(3))?;
    assert_eq!(rt; reply.code, 422);
    assert_eq!(rt; reply.body.as_slice(), b"NotAQuery 3\n".as_slice());
    Ok(())
}

#[test]
fn requests_that_are_none_take_no_moment(rt: HostRuntime) -> Result<(), Fail> {
    let alloc = rt.alloc();
    let mut served = founded(alloc, &[])?;
    assert_eq!(rt;
        cite(&mut served, alloc, b"{")?.as_slice(),
        b"422 NotJson\n".as_slice()
    );
    assert_eq!(rt;
        migrate(&mut served, alloc, b"{}")?.as_slice(),
        b"422 NotSteps\n".as_slice()
    );
    assert_eq!(rt;
        migrate(&mut served, alloc, b"[]")?.as_slice(),
        b"422 BadStep 0\n".as_slice()
    );
    Ok(())
}

#[test]
fn calls_that_conflict_are_refused(rt: HostRuntime) -> Result<(), Fail> {
    let alloc = rt.alloc();
    let mut served = founded(alloc, &[])?;
    assert_eq!(rt;
        batch(&mut served, alloc, 2, 1, THREE_ROWS)?.as_slice(),
        b"409 WrongSchema 1\n".as_slice()
    );
    let _ = batch(&mut served, alloc, 1, 1, THREE_ROWS)?;
    assert_eq!(rt;
        batch(&mut served, alloc, 1, 1, b"op,sid,depth\n-,1,\n")?.as_slice(),
        b"409 NumberUsed 2\n".as_slice()
    );
    assert_eq!(rt;
        batch(&mut served, alloc, 1, 2, b"op,sid,depth\n-,9,\n")?.as_slice(),
        b"422 KeyMissing 1\n".as_slice()
    );
    Ok(())
}

#[test]
fn what_a_citation_needs_is_not_dropped(rt: HostRuntime) -> Result<(), Fail> {
    let alloc = rt.alloc();
    let mut served = founded(alloc, &[])?;
    let _ = batch(&mut served, alloc, 1, 1, THREE_ROWS)?;
    let _ = cite(&mut served, alloc, MID_DEPTHS)?;
    let refused = migrate(&mut served, alloc, b"[{\"drop\":{\"column\":\"depth\"}}]")?;
    assert_eq!(rt;
        refused.as_slice(),
        b"409 CitedSubset 10.5072/c1\n".as_slice()
    );
    Ok(())
}
