// The calls of the source, the sink and the clock in memory, through the traits.
ghost use Rattle.std.specs.Prelude.{◌<◌, length};

use crate::{Clock, Failed, MemoryClock, MemorySink, MemorySource, NoMemory, Sink, Source};
use std::alloc::AllocError;
use std::test::Fail;

fn take_from<S: Source>(source: &mut S, into: &mut [u8]) -> (Result<usize, Failed>, u64)
    requires { 0 < length into.old }
{
    let taken = source.take(into);
    (taken, source.faults())
}

fn put_into<K: Sink>(sink: &mut K, piece: &[u8]) -> (Result<usize, Failed>, u64)
    requires { 0 < length piece.now }
{
    let put = sink.put(piece);
    (put, sink.faults())
}

// Whether all that the source gives went into the sink, in fewer calls of each than `calls`.
fn carry<S: Source, K: Sink>(source: &mut S, sink: &mut K, calls: u32) -> Result<bool, Failed> {
    let mut piece = [0; 4];
    for _ in 0..calls {
        let count = source.take(&mut piece)?;
        if count == 0 {
            return Ok(true);
        }
        if sink.put(&piece[..count])? < count {
            return Ok(false);
        }
    }
    Ok(false)
}

// A value that may go to another thread.
fn sent<T: Send>(value: T) -> T {
    value
}

#[test]
fn a_source_gives_pieces_and_fails_where_it_is_told_to(rt: HostRuntime) -> Result<(), Fail> {
    let bytes = Vec::from_array(rt.alloc(), *b"abcdefgh")?;
    let fails = Vec::from_array(rt.alloc(), [2, 9])?;
    let mut source = MemorySource::make(bytes, 3, fails)?;
    let mut into = *b"....";
    assert_eq!(rt; take_from(&mut source, &mut into), (Ok(3), 0));
    assert_eq!(rt; into, *b"abc.");
    assert_eq!(rt; take_from(&mut source, &mut into), (Err(Failed), 1));
    assert_eq!(rt; into, *b"abc.");
    assert_eq!(rt; take_from(&mut source, &mut into[..2]), (Ok(2), 1));
    assert_eq!(rt; into, *b"dec.");
    assert_eq!(rt; take_from(&mut source, &mut into), (Ok(3), 1));
    assert_eq!(rt; into, *b"fgh.");
    assert_eq!(rt; take_from(&mut source, &mut into), (Ok(0), 1));
    assert_eq!(rt; take_from(&mut source, &mut into), (Ok(0), 1));
    Ok(())
}

#[test]
fn a_sink_takes_whole_pieces_and_fails_where_it_is_told_to(rt: HostRuntime) -> Result<(), Fail> {
    let fails = Vec::from_array(rt.alloc(), [1, 3])?;
    let mut sink = MemorySink::make(rt.alloc(), fails)?;
    assert_eq!(rt; put_into(&mut sink, b"a"), (Err(Failed), 1));
    assert_eq!(rt; put_into(&mut sink, b"bc"), (Ok(2), 1));
    assert_eq!(rt; put_into(&mut sink, b"d"), (Err(Failed), 2));
    assert_eq!(rt; put_into(&mut sink, b"efg"), (Ok(3), 2));
    assert_eq!(rt; sink.bytes(), b"bcefg".as_slice());
    Ok(())
}

#[test]
fn what_a_source_gives_goes_into_a_sink(rt: HostRuntime) -> Result<(), Fail> {
    let bytes = Vec::from_array(rt.alloc(), *b"a table, line by line")?;
    let mut source = sent(MemorySource::make(bytes, 7, Vec::new(rt.alloc()))?);
    let mut sink = sent(MemorySink::make(rt.alloc(), Vec::new(rt.alloc()))?);
    assert_eq!(rt; carry(&mut source, &mut sink, 9), Ok(true));
    assert_eq!(rt; sink.bytes(), b"a table, line by line".as_slice());
    assert_eq!(rt; NoMemory::from(AllocError), NoMemory);
    Ok(())
}

fn two_moments<C: Clock>(clock: &mut C) -> (u64, u64) {
    (clock.now(), clock.now())
}

#[test]
fn a_clock_gives_its_moments_and_then_the_last_one(rt: HostRuntime) -> Result<(), Fail> {
    let moments = Vec::from_array(rt.alloc(), [9, 4, 7])?;
    let mut clock = sent(MemoryClock::make(moments)?);
    assert_eq!(rt; two_moments(&mut clock), (9, 4));
    assert_eq!(rt; two_moments(&mut clock), (7, 7));
    assert_eq!(rt; clock.now(), 7);
    Ok(())
}
