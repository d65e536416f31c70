// Conversations over bytes in memory, and their faults.
mod halves;
mod kept;
mod texts;

use crate::LinkEnd;
use cite_ports::{MemoryClock, MemorySink, MemorySource, Source};
use halves::Halves;
use kept::{Archive, NEW_YEAR};
use std::alloc::Global;
use std::test::Fail;
use texts::{
    ANSWERS, BAD_HEAD, BATCH, CODED, DISK_FAILED, LARGE, NO_HEAD, REFUSED, SESSION, STATE, STORED,
    TOO_LONG,
};

/// What a conversation came to, and what was written.
#[derive(Drop)]
struct Outcome {
    end: LinkEnd,
    written: Vec<u8>,
}

// A conversation with a new archive, over a source; the disk and the sink fail at these calls.
fn heard<S: Source>(
    alloc: Global,
    source: &mut S,
    disk_fails: &[u64],
    sink_fails: &[u64],
) -> Result<Outcome, Fail> {
    let mut archive = Archive::found(alloc, disk_fails.to_vec(alloc)?)?;
    let mut sink = MemorySink::make(alloc, sink_fails.to_vec(alloc)?)?;
    let mut clock = MemoryClock::make(Vec::from_array(alloc, [NEW_YEAR])?)?;
    let end = archive.converse(alloc, source, &mut sink, &mut clock);
    let written = sink.bytes().to_vec(alloc)?;
    Ok(Outcome { end, written })
}

// The same of bytes, given in pieces of a size at most; the source fails at these calls.
fn talk(
    alloc: Global,
    bytes: &[u8],
    piece: usize,
    source_fails: &[u64],
    sink_fails: &[u64],
) -> Result<Outcome, Fail> {
    let mut source = MemorySource::make(
        bytes.to_vec(alloc)?,
        piece.max(1),
        source_fails.to_vec(alloc)?,
    )?;
    heard(alloc, &mut source, &[], sink_fails)
}

// The first answers of the session, one behind another.
fn answers(alloc: Global, count: usize) -> Result<Vec<u8>, Fail> {
    let mut all = Vec::new(alloc);
    for answer in ANSWERS.iter().take(count) {
        all.extend_from_slice(answer)?;
    }
    Ok(all)
}

#[test]
fn a_session_is_answered(rt: HostRuntime) -> Result<(), Fail> {
    let alloc = rt.alloc();
    let outcome = talk(alloc, SESSION, 65_536, &[], &[])?;
    assert_eq!(rt; outcome.end, LinkEnd::Done);
    assert_eq!(rt; outcome.written, answers(alloc, 5)?);
    Ok(())
}

#[test]
fn a_session_in_single_bytes_is_answered(rt: HostRuntime) -> Result<(), Fail> {
    let alloc = rt.alloc();
    let outcome = talk(alloc, SESSION, 1, &[], &[])?;
    assert_eq!(rt; outcome.end, LinkEnd::Done);
    assert_eq!(rt; outcome.written, answers(alloc, 5)?);
    Ok(())
}

// Cuts the session in two at each place of a range.
fn is_answered_in_two(alloc: Global, from: usize, to: usize) -> Result<bool, Fail> {
    let whole = answers(alloc, 5)?;
    for place in from..to {
        let outcome = heard(alloc, &mut Halves::of(SESSION, place), &[], &[])?;
        if outcome.end != LinkEnd::Done || outcome.written != whole {
            return Ok(false);
        }
    }
    Ok(true)
}

#[test]
fn a_session_that_is_cut_in_its_first_part_is_answered(rt: HostRuntime) -> Result<(), Fail> {
    assert!(rt; is_answered_in_two(rt.alloc(), 0, 90)?);
    Ok(())
}

#[test]
fn a_session_that_is_cut_in_its_second_part_is_answered(rt: HostRuntime) -> Result<(), Fail> {
    assert!(rt; is_answered_in_two(rt.alloc(), 90, 180)?);
    Ok(())
}

#[test]
fn a_session_that_is_cut_in_its_third_part_is_answered(rt: HostRuntime) -> Result<(), Fail> {
    assert!(rt; is_answered_in_two(rt.alloc(), 180, 270)?);
    Ok(())
}

#[test]
fn a_session_that_is_cut_in_its_fourth_part_is_answered(rt: HostRuntime) -> Result<(), Fail> {
    assert!(rt; is_answered_in_two(rt.alloc(), 270, 360)?);
    Ok(())
}

#[test]
fn a_session_that_is_cut_in_its_fifth_part_is_answered(rt: HostRuntime) -> Result<(), Fail> {
    assert!(rt; is_answered_in_two(rt.alloc(), 360, 450)?);
    Ok(())
}

#[test]
fn a_session_that_is_cut_in_its_last_part_is_answered(rt: HostRuntime) -> Result<(), Fail> {
    assert!(rt; is_answered_in_two(rt.alloc(), 450, SESSION.len())?);
    Ok(())
}

#[test]
fn nothing_is_said_to_nothing(rt: HostRuntime) -> Result<(), Fail> {
    let outcome = talk(rt.alloc(), b"", 9, &[], &[])?;
    assert_eq!(rt; outcome.end, LinkEnd::Done);
    assert_eq!(rt; outcome.written.as_slice(), b"".as_slice());
    let outcome = talk(rt.alloc(), b"\r\n\n", 9, &[], &[])?;
    assert_eq!(rt; outcome.end, LinkEnd::Done);
    assert_eq!(rt; outcome.written.as_slice(), b"".as_slice());
    Ok(())
}

#[test]
fn an_input_that_ends_inside_a_message_is_cut(rt: HostRuntime) -> Result<(), Fail> {
    let alloc = rt.alloc();
    for size in 1..BATCH.len() {
        let outcome = talk(alloc, &BATCH[..size], 65_536, &[], &[])?;
        assert_eq!(rt; outcome.end, LinkEnd::Cut);
        assert_eq!(rt; outcome.written.as_slice(), b"".as_slice());
    }
    Ok(())
}

#[test]
fn a_message_that_breaks_ends_a_conversation(rt: HostRuntime) -> Result<(), Fail> {
    let outcome = talk(rt.alloc(), CODED, 65_536, &[], &[])?;
    assert_eq!(rt; outcome.end, LinkEnd::Broken);
    assert_eq!(rt; outcome.written.as_slice(), REFUSED);
    let outcome = talk(rt.alloc(), NO_HEAD, 65_536, &[], &[])?;
    assert_eq!(rt; outcome.end, LinkEnd::Broken);
    assert_eq!(rt; outcome.written.as_slice(), BAD_HEAD);
    let outcome = talk(rt.alloc(), LARGE, 65_536, &[], &[])?;
    assert_eq!(rt; outcome.end, LinkEnd::Broken);
    assert_eq!(rt; outcome.written.as_slice(), TOO_LONG);
    Ok(())
}

#[test]
fn a_source_fails_at_each_call(rt: HostRuntime) -> Result<(), Fail> {
    let alloc = rt.alloc();
    // the session in six pieces at most, so that the calls after the sixth are not made
    let piece = SESSION.len() / 6 + 1;
    for call in 1..7u64 {
        let outcome = talk(alloc, SESSION, piece, &[call], &[])?;
        assert_eq!(rt; outcome.end, LinkEnd::ReadFault);
        let whole = answers(alloc, 5)?;
        assert!(rt; whole.starts_with(outcome.written.as_slice()));
        assert!(rt; outcome.written.len() < whole.len());
    }
    Ok(())
}

#[test]
fn a_sink_fails_at_each_call(rt: HostRuntime) -> Result<(), Fail> {
    let alloc = rt.alloc();
    for call in 1..6usize {
        let outcome = talk(alloc, SESSION, 65_536, &[], &[call as u64])?;
        assert_eq!(rt; outcome.end, LinkEnd::WriteFault);
        assert_eq!(rt; outcome.written, answers(alloc, call - 1)?);
    }
    Ok(())
}

// The founding takes five calls of the disk, and an entry four.
#[test]
fn a_disk_fails_at_each_call(rt: HostRuntime) -> Result<(), Fail> {
    let alloc = rt.alloc();
    let mut twice = BATCH.to_vec(alloc)?;
    twice.extend_from_slice(BATCH)?;
    let mut both = DISK_FAILED.to_vec(alloc)?;
    both.extend_from_slice(STORED)?;
    for call in 6..10u64 {
        let mut source = MemorySource::make(
            twice.as_slice().to_vec(alloc)?,
            65_536,
            Vec::new(alloc),
        )?;
        let outcome = heard(alloc, &mut source, &[call], &[])?;
        assert_eq!(rt; outcome.end, LinkEnd::Done);
        assert_eq!(rt; outcome.written, both);
    }
    Ok(())
}

#[test]
fn a_message_behind_a_closing_one_is_not_read(rt: HostRuntime) -> Result<(), Fail> {
    let alloc = rt.alloc();
    let mut more = SESSION.to_vec(alloc)?;
    more.extend_from_slice(STATE)?;
    let outcome = talk(alloc, more.as_slice(), 65_536, &[], &[])?;
    assert_eq!(rt; outcome.end, LinkEnd::Done);
    assert_eq!(rt; outcome.written, answers(alloc, 5)?);
    Ok(())
}
