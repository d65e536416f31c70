// `session` over a source and a disk in memory: five messages with their responses, and how a session may end.
use crate::tests::foundings::{FOUNDING, MOMENT, clock_of, disk_of, gives};
use crate::tests::{ended, sink_of, source_of, words_of};
use cite_disk::MemoryDisk;
use cite_ports::{MemorySink, MemorySource, Sink, Source};
use std::alloc::Global;
use std::process::Abort;
use std::test::Fail;
use std::thread::Threads;

// A batch of three rows.
const BATCH: &[u8] =
    b"POST /batch/1/ann/1 HTTP/1.1\r\nHost: localhost\r\nUser-Agent: curl/8.0\r\nAccept: */*\r\nContent-Length: 33\r\nContent-Type: text/csv\r\n\r\nop,sid,depth\n+,1,5\n+,2,12\n+,3,19\n";

// A citation of the rows with depths from 10 on and below 20.
const CITE: &[u8] =
    b"POST /cite HTTP/1.1\r\nHost: localhost\r\nContent-Length: 158\r\n\r\n{\"meta\":{\"creators\":[\"Rey, A.\"],\"title\":\"Mid depths\"},\"query\":{\"items\":[{\"column\":\"sid\"},{\"column\":\"depth\"}],\"where\":{\"depth\":{\"and\":[{\"ge\":10},{\"lt\":20}]}}}}";

// A message that is cut inside its body.
const HALF: &[u8] =
    b"POST /cite HTTP/1.1\r\nHost: localhost\r\nContent-Length: 158\r\n\r\n{\"meta\":{\"creators\":[\"Rey, A.\"]";

// The landing page of the citation is asked for.
const PAGE: &[u8] = b"GET /id/10.5072/c1 HTTP/1.1\r\nHost: localhost\r\n\r\n";

// Its bytes are asked for, by another spelling of its name.
const DATA: &[u8] = b"GET /id/doi:10.5072/C1/data HTTP/1.1\r\nHost: localhost\r\n\r\n";

// Its metadata are asked for, and the message closes.
const META: &[u8] = b"GET /id/10.5072/c1/meta HTTP/1.1\r\nConnection: close\r\n\r\n";

// What is answered to the batch, where it is new.
const STORED: &[u8] =
    b"HTTP/1.1 201 Created\r\nContent-Type: application/json\r\nContent-Length: 24\r\n\r\n{\"new\":true,\"version\":2}";

// What is answered to it, where it was stored before.
const STORED_BEFORE: &[u8] =
    b"HTTP/1.1 200 OK\r\nContent-Type: application/json\r\nContent-Length: 25\r\n\r\n{\"new\":false,\"version\":2}";

// What is answered to it, where the disk fails.
const DISK_FAILED: &[u8] =
    b"HTTP/1.1 503 Service Unavailable\r\nContent-Type: text/plain\r\nContent-Length: 11\r\n\r\nDiskFailed\n";

// What is answered to the citation.
const CITED: &[u8] =
    b"HTTP/1.1 201 Created\r\nContent-Type: application/json\r\nContent-Length: 119\r\n\r\n{\"id\":\"10.5072/c1\",\"new\":true,\"text\":\"Rey, A. (2024): Mid depths. Version 2. Lab. Dataset. https://doi.org/10.5072/c1\"}";

// The landing page. Its digests are those that `sha256sum` gives of the bytes and of the normal form.
const PAGE_SHOWN: &[u8] =
    b"HTTP/1.1 200 OK\r\nContent-Type: text/html; charset=utf-8\r\nContent-Length: 876\r\n\r\n<!DOCTYPE html>\n<html lang=\"en\"><head><meta charset=\"utf-8\"><title>Mid depths</title></head><body>\n<h1>Mid depths</h1>\n<p>Rey, A. (2024): Mid depths. Version 2. Lab. Dataset. https://doi.org/10.5072/c1</p>\n<dl>\n<dt>Identifier</dt><dd>10.5072/c1</dd>\n<dt>Superset</dt><dd><a href=\"/id/10.5072/d1\">10.5072/d1</a></dd>\n<dt>Version</dt><dd>2</dd>\n<dt>Data updated</dt><dd>2024-01-01T00:00:00Z</dd>\n<dt>Cited</dt><dd>2024-01-01T00:00:00Z</dd>\n<dt>Description</dt><dd></dd>\n<dt>Result SHA-256</dt><dd>ddbf33cda5c1c1df43c967dfc17675bdabe3eebb14756da25a243500fdd108a3</dd>\n<dt>Query SHA-256</dt><dd>e6a023beb4f47550094d87be36e3a09529c35a68cbbf06146ac796fb17a56985</dd>\n</dl>\n<pre>\nsome\ncolumn 1 [10,20)\nitem column 0 label 736964\nitem column 1 label 6465707468\norder 0 asc\n</pre>\n<p><a href=\"/id/10.5072/c1/data\">data</a> <a href=\"/id/10.5072/c1/meta\">metadata</a></p>\n</body></html>\n";

// The bytes.
const DATA_SHOWN: &[u8] =
    b"HTTP/1.1 200 OK\r\nContent-Type: text/csv\r\nContent-Length: 32\r\n\r\n\"sid\",\"depth\"\n\"2\",\"12\"\n\"3\",\"19\"\n";

// The metadata.
const META_SHOWN: &[u8] =
    b"HTTP/1.1 200 OK\r\nContent-Type: application/json\r\nContent-Length: 526\r\nConnection: close\r\n\r\n{\"creators\":[{\"name\":\"Rey, A.\"}],\"dates\":[{\"date\":\"2024-01-01T00:00:00Z\",\"dateType\":\"Created\"},{\"date\":\"2024-01-01T00:00:00Z\",\"dateType\":\"Updated\"}],\"identifiers\":[{\"identifier\":\"10.5072/c1\",\"identifierType\":\"DOI\"}],\"publicationYear\":2024,\"publisher\":\"Lab\",\"relatedIdentifiers\":[{\"relatedIdentifier\":\"10.5072/d1\",\"relatedIdentifierType\":\"DOI\",\"relationType\":\"IsPartOf\"}],\"schemaVersion\":\"http://datacite.org/schema/kernel-4\",\"titles\":[{\"title\":\"Mid depths\"}],\"types\":{\"resourceType\":\"Dataset\",\"resourceTypeGeneral\":\"Dataset\"}}";

// What is answered to what is no head.
const BAD_HEAD: &[u8] =
    b"HTTP/1.1 400 Bad Request\r\nContent-Type: text/plain\r\nContent-Length: 8\r\nConnection: close\r\n\r\nBadHead\n";

// What is answered where a path has no such method.
const OTHER_METHOD: &[u8] =
    b"HTTP/1.1 405 Method Not Allowed\r\nContent-Type: text/plain\r\nAllow: GET\r\nContent-Length: 12\r\n\r\nOtherMethod\n";

const MESSAGES: &[&[u8]] = &[BATCH, CITE, PAGE, DATA, META];

const RESPONSES: &[&[u8]] = &[STORED, CITED, PAGE_SHOWN, DATA_SHOWN, META_SHOWN];

// Some bytes, one behind another.
fn joined(alloc: Global, pieces: &[&[u8]]) -> Result<Vec<u8>, Fail> {
    let mut all = Vec::new(alloc);
    for piece in pieces {
        all.extend_from_slice(piece)?;
    }
    Ok(all)
}

// A disk with a new archive that fails these calls from now on.
fn founded<R: Threads + Sync + Abort>(
    rt: &R,
    alloc: Global,
    fails: &[u64],
) -> Result<MemoryDisk, Fail> {
    let mut disk = disk_of(alloc, b"", &[], u64::MAX)?;
    gives(rt, alloc, FOUNDING, &mut disk, MOMENT, (0, b"10.5072/d1\n"))?;
    disk_of(alloc, disk.bytes(), fails, u64::MAX)
}

// The status of a session at one moment.
fn talk<R: Threads + Sync>(
    rt: &R,
    alloc: Global,
    source: &mut MemorySource,
    sink: &mut MemorySink,
    disk: &mut MemoryDisk,
) -> Result<u8, Fail> {
    let words = words_of(alloc, &["session"])?;
    let mut clock = clock_of(alloc, MOMENT)?;
    Ok(ended(rt, alloc, &words, source, sink, disk, &mut clock))
}

// A session over the disk, of which the messages come in pieces of this size, ends with this status and writes this.
fn answers<R: Threads + Sync + Abort>(
    rt: &R,
    alloc: Global,
    disk: &mut MemoryDisk,
    input: (&[u8], usize),
    status: u8,
    output: &[&[u8]],
) -> Result<(), Fail> {
    let mut source = source_of(alloc, input.0, input.1, &[])?;
    let mut sink = sink_of(alloc, &[])?;
    let answered = talk(rt, alloc, &mut source, &mut sink, disk)?;
    assert_eq!(rt; answered, status);
    let whole = joined(alloc, output)?;
    assert_eq!(rt; sink.bytes(), whole.as_slice());
    Ok(())
}

// The same over a new archive, whole and in single bytes.
fn answers_anew<R: Threads + Sync + Abort>(
    rt: &R,
    alloc: Global,
    input: &[&[u8]],
    status: u8,
    output: &[&[u8]],
) -> Result<(), Fail> {
    let bytes = joined(alloc, input)?;
    for piece in [65_536, 1] {
        let mut disk = founded(rt, alloc, &[])?;
        answers(
            rt,
            alloc,
            &mut disk,
            (bytes.as_slice(), piece),
            status,
            output,
        )?;
    }
    Ok(())
}

#[test]
fn a_session_of_five_messages(rt: HostRuntime) -> Result<(), Fail> {
    answers_anew(&rt, rt.alloc(), MESSAGES, 0, RESPONSES)
}

// What one session stored, another one reads; what it stores again was there.
#[test]
fn a_session_behind_another(rt: HostRuntime) -> Result<(), Fail> {
    let alloc = rt.alloc();
    let mut disk = founded(&rt, alloc, &[])?;
    let first = joined(alloc, &[BATCH, CITE])?;
    let wrote: &[&[u8]] = &[STORED, CITED];
    answers(&rt, alloc, &mut disk, (first.as_slice(), 65_536), 0, wrote)?;
    let second = joined(alloc, &[DATA, BATCH])?;
    let told: &[&[u8]] = &[DATA_SHOWN, STORED_BEFORE];
    answers(&rt, alloc, &mut disk, (second.as_slice(), 65_536), 0, told)
}

#[test]
fn a_session_of_nothing(rt: HostRuntime) -> Result<(), Fail> {
    let alloc = rt.alloc();
    answers_anew(&rt, alloc, &[], 0, &[])?;
    answers_anew(&rt, alloc, &[b"\r\n\n"], 0, &[])
}

// What came whole before the cut is answered.
#[test]
fn an_input_that_is_cut_inside_a_message(rt: HostRuntime) -> Result<(), Fail> {
    let alloc = rt.alloc();
    answers_anew(&rt, alloc, &[b"G"], 11, &[])?;
    answers_anew(&rt, alloc, &[b"GET /state HTTP/1.1\r\n"], 11, &[])?;
    answers_anew(&rt, alloc, &[BATCH, HALF], 11, &[STORED])
}

// Nothing behind it is read.
#[test]
fn a_head_that_is_none(rt: HostRuntime) -> Result<(), Fail> {
    let alloc = rt.alloc();
    let input: &[&[u8]] = &[BATCH, b"nonsense\r\n\r\n", CITE];
    answers_anew(&rt, alloc, input, 12, &[STORED, BAD_HEAD])
}

#[test]
fn a_method_that_a_path_has_not(rt: HostRuntime) -> Result<(), Fail> {
    let input: &[&[u8]] = &[b"POST /state HTTP/1.1\r\n\r\n", BATCH];
    answers_anew(&rt, rt.alloc(), input, 0, &[OTHER_METHOD, STORED])
}

// Opening makes five calls; whichever fails, no byte is asked of the source. The batch makes four: whichever fails, it is
// told, and stored when it comes again. The tenth call is not made, since the same batch was stored before.
#[test]
fn a_session_on_a_disk_that_fails(rt: HostRuntime) -> Result<(), Fail> {
    let alloc = rt.alloc();
    let twice = joined(alloc, &[BATCH, BATCH])?;
    for call in 1..=5 {
        let mut disk = founded(&rt, alloc, &[call])?;
        answers(&rt, alloc, &mut disk, (twice.as_slice(), 1000), 5, &[])?;
    }
    let failed: &[&[u8]] = &[DISK_FAILED, STORED];
    for call in 6..=9 {
        let mut disk = founded(&rt, alloc, &[call])?;
        answers(&rt, alloc, &mut disk, (twice.as_slice(), 1000), 0, failed)?;
    }
    let stored: &[&[u8]] = &[STORED, STORED_BEFORE];
    let mut disk = founded(&rt, alloc, &[10])?;
    answers(&rt, alloc, &mut disk, (twice.as_slice(), 1000), 0, stored)
}

// The source would fail, and is not asked.
#[test]
fn a_session_on_a_file_that_is_no_archive(rt: HostRuntime) -> Result<(), Fail> {
    let alloc = rt.alloc();
    let mut disk = disk_of(alloc, b"x", &[], u64::MAX)?;
    let mut source = source_of(alloc, BATCH, 1000, &[1])?;
    let mut sink = sink_of(alloc, &[])?;
    let status = talk(&rt, alloc, &mut source, &mut sink, &mut disk)?;
    assert_eq!(rt; status, 6);
    assert_eq!(rt; sink.bytes(), b"NotArchive\n".as_slice());
    assert_eq!(rt; source.faults(), 0);
    Ok(())
}

// The second call fails, of the source and of the sink: the first message is answered.
#[test]
fn a_session_over_streams_that_fail(rt: HostRuntime) -> Result<(), Fail> {
    let alloc = rt.alloc();
    let both = joined(alloc, &[BATCH, CITE])?;
    let mut disk = founded(&rt, alloc, &[])?;
    let mut source = source_of(alloc, both.as_slice(), BATCH.len(), &[2])?;
    let mut sink = sink_of(alloc, &[])?;
    let status = talk(&rt, alloc, &mut source, &mut sink, &mut disk)?;
    assert_eq!(rt; status, 3);
    assert_eq!(rt; sink.bytes(), STORED);
    let mut disk = founded(&rt, alloc, &[])?;
    let mut source = source_of(alloc, both.as_slice(), 1000, &[])?;
    let mut sink = sink_of(alloc, &[2])?;
    let status = talk(&rt, alloc, &mut source, &mut sink, &mut disk)?;
    assert_eq!(rt; status, 4);
    assert_eq!(rt; sink.bytes(), STORED);
    Ok(())
}
