// `verify` over a disk in memory.
ghost use Rattle.archive_core.specs.Keeping.{IsKept};

use crate::tests::foundings::{FOUNDING, MOMENT, clock_of, disk_of, gives};
use crate::tests::{ended, sink_of, source_of, words_of};
use archive_core::Desk;
use archive_model::{Refused, Stored};
use batches::curator_ok;
use cite_disk::{Disk, MemoryDisk};
use cite_ports::Sink;
use cite_schema::{
    Asked, BatchAsk, ByteText, CiteAsk, Cond, List, Meta, NoMemory, OnColumn, Query, Value,
};
use result_bytes::{digest_text, fingerprint};
use std::alloc::Global;
use std::process::Abort;
use std::test::Fail;
use std::thread::Threads;

fn text(alloc: Global, bytes: &[u8]) -> Result<ByteText, NoMemory> {
    Ok(ByteText::from_slice(alloc, bytes)?)
}

fn batch(alloc: Global, number: u32, body: &[u8]) -> Result<BatchAsk, NoMemory> {
    Ok(BatchAsk {
        schema: 1,
        curator: text(alloc, b"ann")?,
        number,
        body: text(alloc, body)?,
    })
}

fn items(alloc: Global) -> Result<List<Asked>, NoMemory> {
    let mut items = List::new(alloc);
    for name in [b"sid".as_slice(), b"depth"] {
        items.push(Asked {
            column: text(alloc, name)?,
            label: text(alloc, name)?,
        })?;
    }
    Ok(items)
}

// The rows with depths from 10 on and below 20.
fn depths(alloc: Global) -> Result<CiteAsk, NoMemory> {
    let mut both = List::new(alloc);
    both.push(Cond::Ge(Value::Int(10)))?;
    both.push(Cond::Lt(Value::Int(20)))?;
    let mut conds = List::new(alloc);
    conds.push(OnColumn {
        column: text(alloc, b"depth")?,
        cond: Cond::AllOf(both),
    })?;
    let mut creators = List::new(alloc);
    creators.push(text(alloc, b"Rey, A.")?)?;
    Ok(CiteAsk {
        query: Query {
            conds,
            items: items(alloc)?,
            order: List::new(alloc),
        },
        meta: Meta {
            creators,
            title: text(alloc, b"Mid depths")?,
            description: ByteText::new(alloc),
        },
    })
}

// Stores a batch; one that may not be asked for counts as want of memory.
fn post<D: Disk>(
    alloc: Global,
    disk: &mut D,
    desk: &mut Desk,
    ask: &BatchAsk,
) -> Result<Stored, Refused>
    requires { D.honest → IsKept (D.images disk.old) desk.old }
    ensures { D.honest → IsKept (D.images disk.new) desk.new }
{
    if curator_ok(ask.curator.as_slice()) && ask.number >= 1 && ask.body.len() <= 8_388_608 {
        desk.batch(alloc, disk, ask, MOMENT)
    } else {
        Err(Refused::NoMemory)
    }
}

// Stores a batch, and cites behind it.
fn add_two<D: Disk>(
    alloc: Global,
    disk: &mut D,
    desk: &mut Desk,
    ask: &BatchAsk,
    cite: &CiteAsk,
) -> Result<u64, Refused>
    requires { D.honest → IsKept (D.images disk.old) desk.old }
    ensures { D.honest → IsKept (D.images disk.new) desk.new }
{
    let _stored = post(alloc, disk, desk, ask)?;
    let _cited = desk.cite(alloc, disk, cite, MOMENT)?;
    Ok(desk.entries())
}

// The same of a batch with this number and body, and of the rows with depths from 10 on and below 20.
fn add<D: Disk>(
    alloc: Global,
    disk: &mut D,
    desk: &mut Desk,
    number: u32,
    body: &[u8],
) -> Result<u64, Refused>
    requires { D.honest → IsKept (D.images disk.old) desk.old }
    ensures { D.honest → IsKept (D.images disk.new) desk.new }
{
    let Ok(ask) = batch(alloc, number, body) else {
        return Err(Refused::NoMemory);
    };
    let Ok(cite) = depths(alloc) else {
        return Err(Refused::NoMemory);
    };
    add_two(alloc, disk, desk, &ask, &cite)
}

// A disk with an archive of five entries that fails these calls from now on.
fn filled<R: Threads + Sync + Abort>(
    rt: &R,
    alloc: Global,
    fails: &[u64],
) -> Result<MemoryDisk, Fail> {
    let mut disk = disk_of(alloc, b"", &[], u64::MAX)?;
    gives(rt, alloc, FOUNDING, &mut disk, MOMENT, (0, b"10.5072/d1\n"))?;
    let mut desk = Desk::resume(alloc, &mut disk)?;
    let first = add(
        alloc,
        &mut disk,
        &mut desk,
        1,
        b"op,sid,depth\n+,1,5\n+,2,12\n",
    )?;
    assert_eq!(rt; first, 3);
    let second = add(alloc, &mut disk, &mut desk, 2, b"op,sid,depth\n~,2,30\n")?;
    assert_eq!(rt; second, 5);
    disk_of(alloc, disk.bytes(), fails, u64::MAX)
}

const TOLD: &[u8] = b"version 3\nschema 1\nrows 2\ncitations 2\n\
c1 3d2639ca1499a9fecda64d7b2d87b2041d9366ab406c6123a1b45fdabed88fa6\n\
c2 e198da43c8e202f801ec5907018ecfb4409c24aecd318e5ede0087128bb6ab32\n";

// The digests are those that `sha256sum` gives of the two results.
#[test]
fn each_citation_is_verified(rt: HostRuntime) -> Result<(), Fail> {
    let alloc = rt.alloc();
    let mut disk = filled(&rt, alloc, &[])?;
    let before = disk.bytes().to_vec(alloc)?;
    gives(&rt, alloc, &["verify"], &mut disk, 0, (0, TOLD))?;
    gives(&rt, alloc, &["verify"], &mut disk, 0, (0, TOLD))?;
    assert_eq!(rt; disk.bytes(), before.as_slice());
    Ok(())
}

// The archive is the file `examples/depths.archive`, byte for byte: this is what `sha256sum` gives of it.
#[test]
fn the_archive_of_the_examples(rt: HostRuntime) -> Result<(), Fail> {
    let alloc = rt.alloc();
    let disk = filled(&rt, alloc, &[])?;
    let digest = digest_text(alloc, &fingerprint(disk.bytes()))?;
    assert_eq!(rt;
        digest.as_slice(),
        b"e23a7577143c9ba2be08736f42ddebaa45c0db7489e6eaca2ddf7e6ac8c1e88b".as_slice()
    );
    Ok(())
}

// Opening makes 17 calls: it syncs and reads the head, and for each of the five records it asks how long the disk is, and
// reads a length and the rest. Whichever of these fails, nothing is written, and afterwards all is told as before.
#[test]
fn an_archive_on_a_disk_that_fails(rt: HostRuntime) -> Result<(), Fail> {
    let alloc = rt.alloc();
    for call in 1..=17 {
        let mut disk = filled(&rt, alloc, &[call])?;
        gives(&rt, alloc, &["verify"], &mut disk, 0, (5, b""))?;
        assert_eq!(rt; disk.faults(), 1);
        gives(&rt, alloc, &["verify"], &mut disk, 0, (0, TOLD))?;
    }
    let mut disk = filled(&rt, alloc, &[18])?;
    gives(&rt, alloc, &["verify"], &mut disk, 0, (0, TOLD))
}

// The text goes into the sink in one piece.
#[test]
fn a_text_that_cannot_be_written(rt: HostRuntime) -> Result<(), Fail> {
    let alloc = rt.alloc();
    let words = words_of(alloc, &["verify"])?;
    let mut source = source_of(alloc, b"", 1, &[1])?;
    let mut sink = sink_of(alloc, &[1])?;
    let mut disk = filled(&rt, alloc, &[])?;
    let mut clock = clock_of(alloc, 0)?;
    let status = ended(
        &rt,
        alloc,
        &words,
        &mut source,
        &mut sink,
        &mut disk,
        &mut clock,
    );
    assert_eq!(rt; status, 4);
    assert_eq!(rt; sink.faults(), 1);
    assert!(rt; sink.bytes().is_empty());
    Ok(())
}

// The bytes, and the line that `verify` writes.
type Bad = (&'static [u8], &'static [u8]);

// Files that are no archives: the line names the place of the gate in front of the first bad record.
const BAD: [Bad; 7] = [
    (b"", b"NotArchive\n"),
    (b"x", b"NotArchive\n"),
    (b"sid:int,depth:int\n1,5\n2,12\n", b"NotArchive\n"),
    (
        b"RDACITE\n\x00\x00\x00\x01\x00\x00\x00\x00\x00",
        b"NotArchive\n",
    ),
    (
        b"RDACITE\n\x00\x00\x00\x02\x00\x00\x00\x00\x01",
        b"NotArchive\n",
    ),
    (
        b"RDACITE\n\x00\x00\x00\x01\x00\x00\x00\x00\x01",
        b"Damaged 16\n",
    ),
    // The record is whole, and its payload `abc` is no entry.
    (
        b"RDACITE\n\x00\x00\x00\x01\x00\x00\x00\x00\x01\x00\x00\x00\x03abc\xba\x78\x16\xbf\x8f\x01\xcf\xea\x41\x41\x40\xde\x5d\xae\x22\x23\xb0\x03\x61\xa3\x96\x17\x7a\x9c\xb4\x10\xff\x61\xf2\x00\x15\xad\x00",
        b"Damaged 16\n",
    ),
];

// And a founding finds each but the empty one occupied.
#[test]
fn a_file_that_is_no_archive(rt: HostRuntime) -> Result<(), Fail> {
    let alloc = rt.alloc();
    for (bytes, line) in &BAD {
        let mut disk = disk_of(alloc, bytes, &[], u64::MAX)?;
        gives(&rt, alloc, &["verify"], &mut disk, 0, (6, line))?;
        assert_eq!(rt; disk.bytes(), *bytes);
        if !bytes.is_empty() {
            gives(&rt, alloc, FOUNDING, &mut disk, MOMENT, (7, b"Occupied\n"))?;
        }
    }
    Ok(())
}

// The first record begins at 16, the second at 109.
#[test]
fn an_archive_with_a_spoilt_record(rt: HostRuntime) -> Result<(), Fail> {
    let alloc = rt.alloc();
    let whole = filled(&rt, alloc, &[])?;
    for (at, line) in [(30, b"Damaged 16\n".as_slice()), (120, b"Damaged 109\n")] {
        let mut bytes = whole.bytes().to_vec(alloc)?;
        if let Some(byte) = bytes.get_mut(at) {
            *byte ^= 1;
        }
        let mut disk = disk_of(alloc, bytes.as_slice(), &[], u64::MAX)?;
        gives(&rt, alloc, &["verify"], &mut disk, 0, (6, line))?;
    }
    Ok(())
}

// The file of an archive of seven entries.
fn seven<R: Threads + Sync + Abort>(rt: &R, alloc: Global) -> Result<Vec<u8>, Fail> {
    let mut disk = filled(rt, alloc, &[])?;
    let mut desk = Desk::resume(alloc, &mut disk)?;
    let third = add(alloc, &mut disk, &mut desk, 3, b"op,sid,depth\n+,3,15\n")?;
    assert_eq!(rt; third, 7);
    Ok(disk.bytes().to_vec(alloc)?)
}

// A front of a file, and then the rest of a whole record: of this payload, one byte of which is changed, if there is one
// at this place.
fn with_record(
    alloc: Global,
    front: &[u8],
    payload: &[u8],
    place: usize,
) -> Result<Vec<u8>, NoMemory> {
    let mut payload = payload.to_vec(alloc)?;
    if let Some(byte) = payload.get_mut(place) {
        *byte ^= 1;
    }
    let mut file = front.to_vec(alloc)?;
    file.extend_from_slice(&payload)?;
    file.extend_from_slice(&fingerprint(&payload))?;
    file.push(0)?;
    Ok(file)
}

// The seventh gate stands at 710: the header has 16 bytes, a record 37 and its payload, and the payloads of the founding,
// the batches and the citations 56, 52, 46, 46 and 136 each. In the payload of a citation the digest of its result stands
// from byte 17 on.
#[test]
fn a_citation_with_another_digest(rt: HostRuntime) -> Result<(), Fail> {
    let alloc = rt.alloc();
    let file = seven(&rt, alloc)?;
    assert_eq!(rt; file.len(), 884);
    let (Some(front), Some(payload)) = (file.get(..715), file.get(715..851)) else {
        return Err(Fail::new("the file is too short"));
    };
    let same = with_record(alloc, front, payload, 136)?;
    assert_eq!(rt; same, file);
    for place in [17, 48] {
        let bytes = with_record(alloc, front, payload, place)?;
        let mut disk = disk_of(alloc, bytes.as_slice(), &[], u64::MAX)?;
        let line = b"Damaged 710\n";
        gives(&rt, alloc, &["verify"], &mut disk, 0, (6, line))?;
        assert_eq!(rt; disk.bytes(), bytes.as_slice());
    }
    Ok(())
}

// What stands behind the last gate is passed over, and so is a record whose gate was never opened.
#[test]
fn an_archive_cut_behind_a_gate(rt: HostRuntime) -> Result<(), Fail> {
    let alloc = rt.alloc();
    let whole = filled(&rt, alloc, &[])?;
    let mut bytes = whole.bytes().to_vec(alloc)?;
    if let Some(gate) = bytes.get_mut(109) {
        *gate = 7;
    }
    let mut disk = disk_of(alloc, bytes.as_slice(), &[], u64::MAX)?;
    let text = b"version 1\nschema 1\nrows 0\ncitations 0\n";
    gives(&rt, alloc, &["verify"], &mut disk, 0, (0, text))?;
    assert_eq!(rt; disk.bytes().get(109), Some(&0));
    Ok(())
}
