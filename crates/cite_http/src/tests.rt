// Messages whole, in single bytes and in every cut in two, bad input, and responses.
ghost use Rattle.std.specs.Prelude.{◌<◌, ◌≢◌, IsTrue};
ghost use Rattle.cite_http.specs.Responses.{is_code};

use crate::{
    Ask, Media, Message, Reader, Reply, memory_reply, messages_come_through_pieces, read_pieces,
    respond, texts_have_messages,
};
use cite_schema::{BatchAsk, ByteText, List, NoMemory};
use std::alloc::Global;
use std::test::Fail;

fn put(text: &mut Vec<u8>, word: &str, more: &[u8]) -> Result<(), NoMemory> {
    text.extend_from_slice(word.as_bytes())?;
    text.extend_from_slice(more)?;
    Ok(())
}

fn put_number(text: &mut Vec<u8>, alloc: Global, word: &str, number: u32) -> Result<(), NoMemory> {
    put(text, word, number.to_string(alloc)?.as_bytes())
}

fn put_batch(text: &mut Vec<u8>, alloc: Global, batch: &BatchAsk) -> Result<(), NoMemory> {
    put_number(text, alloc, "batch ", batch.schema)?;
    put(text, " ", batch.curator.as_slice())?;
    put_number(text, alloc, " ", batch.number)?;
    put(text, " ", batch.body.as_slice())
}

// A message on a line, with `close` behind it where it closes.
fn put_message(text: &mut Vec<u8>, alloc: Global, message: &Message) -> Result<(), NoMemory> {
    match &message.ask {
        Ask::State => put(text, "state", b"")?,
        Ask::Page(name) => put(text, "page ", name.as_slice())?,
        Ask::Bytes(name) => put(text, "bytes ", name.as_slice())?,
        Ask::Metadata(name) => put(text, "metadata ", name.as_slice())?,
        Ask::Batch(batch) => put_batch(text, alloc, batch)?,
        Ask::Cite(body) => put(text, "cite ", body.as_slice())?,
        Ask::Migrate { schema, body } => {
            put_number(text, alloc, "migrate ", *schema)?;
            put(text, " ", body.as_slice())?;
        }
        Ask::Bad(status) => put(text, "bad ", format!(in alloc; "{status:?}")?.as_bytes())?,
    }
    put(text, if message.closing { " close\n" } else { "\n" }, b"")
}

fn transcript(alloc: Global, messages: &[Message]) -> Result<Vec<u8>, NoMemory> {
    let mut text = Vec::new(alloc);
    for message in messages {
        put_message(&mut text, alloc, message)?;
    }
    Ok(text)
}

// The messages of a text that comes in pieces of so many bytes.
fn in_pieces(alloc: Global, text: &[u8], size: usize) -> Result<Vec<u8>, NoMemory>
    requires { 0 < size }
{
    let mut pieces = Vec::new(alloc);
    for piece in text.chunks(size) {
        pieces.push(ByteText::from_slice(alloc, piece)?)?;
    }
    transcript(alloc, read_pieces(alloc, &pieces)?.as_slice())
}

// The messages of a text that comes in two pieces.
fn in_two(alloc: Global, front: &[u8], back: &[u8]) -> Result<Vec<u8>, NoMemory> {
    let mut pieces = Vec::new(alloc);
    pieces.push(ByteText::from_slice(alloc, front)?)?;
    pieces.push(ByteText::from_slice(alloc, back)?)?;
    transcript(alloc, read_pieces(alloc, &pieces)?.as_slice())
}

// Whether a text gives these messages, whole and in single bytes.
fn gives(alloc: Global, text: &[u8], wanted: &[u8]) -> Result<bool, NoMemory> {
    let whole = in_pieces(alloc, text, usize::MAX)?;
    let single = in_pieces(alloc, text, 1)?;
    Ok(whole.as_slice() == wanted && single.as_slice() == wanted)
}

// Whether each cut of a text in two gives these messages.
fn gives_in_each_cut(alloc: Global, text: &[u8], wanted: &[u8]) -> Result<bool, NoMemory> {
    for i in 0..text.len() {
        if in_two(alloc, &text[..i], &text[i..])?.as_slice() != wanted {
            return Ok(false);
        }
    }
    Ok(true)
}

const SESSION: &[u8] =
    b"POST /batch/1/ann/1 HTTP/1.1\r\nHost: localhost\r\nUser-Agent: curl/8.0\r\nAccept: */*\r\nContent-Length: 33\r\nContent-Type: text/csv\r\n\r\nop,sid,depth\n+,1,5\n+,2,12\n+,3,19\nPOST /cite HTTP/1.1\r\nHost: localhost\r\nContent-Length: 158\r\n\r\n{\"meta\":{\"creators\":[\"Rey, A.\"],\"title\":\"Mid depths\"},\"query\":{\"items\":[{\"column\":\"sid\"},{\"column\":\"depth\"}],\"where\":{\"depth\":{\"and\":[{\"ge\":10},{\"lt\":20}]}}}}GET /id/10.5072/c1 HTTP/1.1\r\nHost: localhost\r\n\r\nGET /id/doi:10.5072/C1/data HTTP/1.1\r\nHost: localhost\r\n\r\nGET /id/10.5072/c1/meta HTTP/1.1\r\nConnection: close\r\n\r\n";

const SESSION_MESSAGES: &[u8] =
    b"batch 1 ann 1 op,sid,depth\n+,1,5\n+,2,12\n+,3,19\n\ncite {\"meta\":{\"creators\":[\"Rey, A.\"],\"title\":\"Mid depths\"},\"query\":{\"items\":[{\"column\":\"sid\"},{\"column\":\"depth\"}],\"where\":{\"depth\":{\"and\":[{\"ge\":10},{\"lt\":20}]}}}}\npage 10.5072/c1\nbytes doi:10.5072/C1\nmetadata 10.5072/c1 close\n";

#[test]
fn a_session_is_read_however_it_is_cut(rt: HostRuntime) -> Result<(), Fail> {
    let alloc = rt.alloc();
    assert!(rt; gives(alloc, SESSION, SESSION_MESSAGES)?);
    assert!(rt; gives_in_each_cut(alloc, SESSION, SESSION_MESSAGES)?);
    messages_come_through_pieces();
    texts_have_messages(SESSION);
    Ok(())
}

// A text as it is written in the rows below: `|` stands for CR LF, and `~` for LF.
fn put_row(text: &mut Vec<u8>, row: &str) -> Result<(), NoMemory> {
    for b in row.as_bytes() {
        match *b {
            b'|' => text.extend_from_slice(b"\r\n")?,
            b'~' => text.push(b'\n')?,
            byte => text.push(byte)?,
        }
    }
    Ok(())
}

// Whether the front of a row with a tail gives the messages that stand behind its arrow, whole and in single bytes.
fn row_gives(alloc: Global, row: &str, tail: &str) -> Result<bool, NoMemory> {
    match row.split_once(" => ") {
        Some((front, messages)) => {
            let mut text = Vec::new(alloc);
            put_row(&mut text, front)?;
            put_row(&mut text, tail)?;
            let mut wanted = Vec::new(alloc);
            put_row(&mut wanted, messages)?;
            gives(alloc, &text, &wanted)
        }
        None => Ok(false),
    }
}

// The first row that does not give its messages with this tail, counted from 0.
fn wrong_row(alloc: Global, rows: &str, tail: &str) -> Result<Option<u32>, NoMemory> {
    let mut number = 0u32;
    for row in rows.lines() {
        if !row_gives(alloc, row, tail)? {
            return Ok(Some(number));
        }
        number = number.saturating_add(1);
    }
    Ok(None)
}

const ROUTES: &str = "GET /state?a=/b HTTP/1.1 => state~
GET /state#?/ HTTP/1.1 => state~
GET /id/a/data HTTP/1.1 => page a/data~
GET /id/a/b/data HTTP/1.1 => bytes a/b~
GET /id/a/b/meta HTTP/1.1 => metadata a/b~
GET /id/10.5072/c%31?x HTTP/1.1 => page 10.5072/c%31~
GET /id/é/c1 HTTP/1.1 => page é/c1~
POST /cite HTTP/1.1 => cite ~
POST /migrate/4294967295 HTTP/1.1 => migrate 4294967295 ~
POST /batch/2/A_b-9/10 HTTP/1.1 => batch 2 A_b-9 10 ~
|~\rGET /state HTTP/1.1 => state~
GET /state HTTP/1.1~~GET /state HTTP/1.1~|~GET /state HTTP/1.1 => state~state~state~
GET /state HTTP/1.1|Content-Length: 3||abcGET /state HTTP/1.1 => state~state~";

#[test]
fn routes_are_told_apart(rt: HostRuntime) -> Result<(), Fail> {
    assert_eq!(rt; wrong_row(rt.alloc(), ROUTES, "||")?, None);
    Ok(())
}

const OTHER_TARGETS: &str = "GET state => bad BadTarget~
GET ?/state => bad BadTarget~
GET #/state => bad BadTarget~
GET http://a/state => bad BadTarget~
GET / => bad NoRoute~
GET //state => bad NoRoute~
GET /state/ => bad NoRoute~
GET /State => bad NoRoute~
GET /?/state => bad NoRoute~
GET /id//c1 => bad NoRoute~
GET /id/10.5072/ => bad NoRoute~
GET /id/10.5072/c1/ => bad NoRoute~
GET /id/10.5072/c1/data/x => bad NoRoute~
DELETE /nowhere => bad NoRoute~
POST /migrate/ => bad NoRoute~
POST /batch/1//1 => bad NoRoute~
POST /batch/1/ann/1/ => bad NoRoute~";

#[test]
fn other_targets_are_refused(rt: HostRuntime) -> Result<(), Fail> {
    assert_eq!(rt; wrong_row(rt.alloc(), OTHER_TARGETS, " HTTP/1.1||")?, None);
    Ok(())
}

const METHODS_AND_PARAMETERS: &str = "POST /state => bad OtherMethod { get: true }~
HEAD /id/10.5072/c1 => bad OtherMethod { get: true }~
get /state => bad OtherMethod { get: true }~
GET /cite => bad OtherMethod { get: false }~
PUT /migrate/01 => bad OtherMethod { get: false }~
GET /batch/0/a!/0 => bad OtherMethod { get: false }~
POST /migrate/0 => bad BadTarget~
POST /migrate/01 => bad BadTarget~
POST /migrate/+1 => bad BadTarget~
POST /migrate/1x => bad BadTarget~
POST /migrate/4294967296 => bad BadTarget~
POST /migrate/10000000000 => bad BadTarget~
POST /batch/01/ann/1 => bad BadTarget~
POST /batch/1/ann/0 => bad BadTarget~
POST /batch/1/a.b/1 => bad BadTarget~
POST /batch/1/a23456789b123456789c123456789d123456789e123456789f123456789g12345/1 => bad BadTarget~";

#[test]
fn methods_come_before_counts_and_curators(rt: HostRuntime) -> Result<(), Fail> {
    assert_eq!(rt;
        wrong_row(rt.alloc(), METHODS_AND_PARAMETERS, " HTTP/1.1||")?,
        None
    );
    Ok(())
}

const LENGTHS: &str = "POST /cite HTTP/1.1|Content-Length: 5 => cite abcde~
POST /cite HTTP/1.1|content-LENGTH:\t 5\t  => cite abcde~
POST /cite HTTP/1.1|Content-Length: 000000000000000005 => cite abcde~
POST /cite HTTP/1.1|Content-Length: 0000000000000000000 => bad BadLength close~
POST /cite HTTP/1.1|Content-Length: 0000000000000000005 => bad BadLength close~
POST /cite HTTP/1.1|Content-Length: +5 => bad BadLength close~
POST /cite HTTP/1.1|Content-Length: -5 => bad BadLength close~
POST /cite HTTP/1.1|Content-Length: 5, 5 => bad BadLength close~
POST /cite HTTP/1.1|Content-Length: => bad BadLength close~
POST /cite HTTP/1.1|Content-Length: 5|CONTENT-LENGTH: 5 => bad BadLength close~
POST /cite HTTP/1.1|Content-Length: 8388609 => bad BodyTooLong close~
POST /nowhere HTTP/1.1|Content-Length: 999999999999999999 => bad BodyTooLong close~
POST /cite HTTP/1.1|transfer-encoding: chunked => bad TransferCoding close~
POST /cite HTTP/1.1|Content-Length: x|Transfer-Encoding: identity => bad TransferCoding close~";

#[test]
fn lengths_are_read_or_refused(rt: HostRuntime) -> Result<(), Fail> {
    assert_eq!(rt; wrong_row(rt.alloc(), LENGTHS, "||abcde")?, None);
    Ok(())
}

const NO_HEADS: &str = "GET /state => bad BadHead close~
GET  /state HTTP/1.1 => bad BadHead close~
GET /state HTTP/2.0 => bad BadHead close~
GET /state HTTP/1.1  => bad BadHead close~
GET /st\0ate HTTP/1.1 => bad BadHead close~
GÉT /state HTTP/1.1 => bad BadHead close~
GET /state HTTP/1.1|A: b| c => bad BadHead close~
GET /state HTTP/1.1|A: b\rc => bad BadHead close~
GET /state\rHTTP/1.1 => bad BadHead close~
GET /state HTTP/1.1|A: \0 => bad BadHead close~
GET /state HTTP/1.1|A : b => bad BadHead close~
GET /state HTTP/1.1|: b => bad BadHead close~
GET /state HTTP/1.1|A => bad BadHead close~";

#[test]
fn heads_that_are_none_are_refused(rt: HostRuntime) -> Result<(), Fail> {
    let alloc = rt.alloc();
    assert_eq!(rt;
        wrong_row(alloc, NO_HEADS, "||GET /state HTTP/1.1||")?,
        None
    );
    assert!(rt; gives(alloc, b"GET /\xFF HTTP/1.1\r\n\r\n", b"bad BadHead close\n")?);
    Ok(())
}

const ENDS: &str = "GET /state HTTP/1.0 => state close~
GET /state HTTP/1.1|Connection: keep-alive, Close => state close~
GET /state HTTP/1.1|A: b|connection: a|CONNECTION: \t,,\tCLOSE\t,b => state close~
POST /nowhere HTTP/1.1|Connection: close => bad NoRoute close~
GET /state HTTP/1.1|Connection: closed, clo se => state~state~
GET /state HTTP/1.1|Proxy-Connection: close => state~state~
GET /state HTTP/1.1|Connection: keep-alive|Expect: 100-continue => state~state~";

#[test]
fn connections_close(rt: HostRuntime) -> Result<(), Fail> {
    assert_eq!(rt;
        wrong_row(rt.alloc(), ENDS, "||GET /state HTTP/1.1||")?,
        None
    );
    Ok(())
}

fn put_times(text: &mut Vec<u8>, part: &[u8], times: u32) -> Result<(), NoMemory> {
    for _ in 0..times {
        text.extend_from_slice(part)?;
    }
    Ok(())
}

// A head with so many short fields, whose lines end with LF alone.
fn with_fields(alloc: Global, fields: u32) -> Result<Vec<u8>, NoMemory> {
    let mut text = Vec::from_slice(alloc, b"GET /state HTTP/1.1\n")?;
    put_times(&mut text, b"a:b\n", fields)?;
    text.extend_from_slice(b"\n")?;
    Ok(text)
}

// A head of 39 bytes more than these.
fn with_value(alloc: Global, size: u32) -> Result<Vec<u8>, NoMemory> {
    let mut text = Vec::from_slice(alloc, b"GET /state HTTP/1.1\r\nCookie: aaaaaa")?;
    put_times(&mut text, b"b", size)?;
    text.extend_from_slice(b"\r\n\r\n")?;
    Ok(text)
}

#[test]
fn heads_have_64_fields_and_16384_bytes(rt: HostRuntime) -> Result<(), Fail> {
    let alloc = rt.alloc();
    assert!(rt; gives(alloc, &with_fields(alloc, 64)?, b"state\n")?);
    assert!(rt; gives(alloc, &with_fields(alloc, 65)?, b"bad HeadTooLong close\n")?);
    let longest = with_value(alloc, 16345)?;
    assert_eq!(rt; longest.len(), 16384);
    assert!(rt; gives(alloc, &longest, b"state\n")?);
    assert!(rt;
        gives(
            alloc,
            &with_value(alloc, 16346)?,
            b"bad HeadTooLong close\n"
        )?
    );
    Ok(())
}

// Feeds a piece, and says whether a message comes.
fn comes(reader: &mut Reader, piece: &[u8]) -> Result<bool, NoMemory> {
    reader.feed(piece)?;
    Ok(reader.next()?.is_some())
}

#[test]
fn no_end_of_a_head_is_waited_for_behind_16384_bytes(rt: HostRuntime) -> Result<(), Fail> {
    let alloc = rt.alloc();
    let mut reader = Reader::make(alloc)?;
    let mut text = Vec::new(alloc);
    put_times(&mut text, b"a", 16383)?;
    assert!(rt; !comes(&mut reader, &text)?);
    assert!(rt; reader.inside());
    assert!(rt; comes(&mut reader, b"a")?);
    assert!(rt; !reader.inside());
    assert!(rt; gives(alloc, &text, b"")?);
    Ok(())
}

#[test]
fn a_message_comes_when_it_is_whole(rt: HostRuntime) -> Result<(), Fail> {
    let alloc = rt.alloc();
    let mut reader = Reader::make(alloc)?;
    assert!(rt; !reader.inside());
    assert!(rt; !comes(&mut reader, b"\r\n\r\n")?);
    assert!(rt; !reader.inside());
    assert!(rt;
        !comes(
            &mut reader,
            b"POST /cite HTTP/1.1\r\nContent-Length: 3\r\n\r"
        )?
    );
    assert!(rt; reader.inside());
    assert!(rt; !comes(&mut reader, b"\nab")?);
    assert!(rt; comes(&mut reader, b"cG")?);
    assert!(rt; reader.inside());
    assert!(rt; comes(&mut reader, b"ET /state HTTP/1.0\r\n\r\n")?);
    assert!(rt; !comes(&mut reader, b"GET /state HTTP/1.1\r\n\r\n")?);
    assert!(rt; !reader.inside());
    Ok(())
}

#[test]
fn the_longest_body_is_read(rt: HostRuntime) -> Result<(), Fail> {
    let alloc = rt.alloc();
    let head = b"POST /cite HTTP/1.1\r\nContent-Length: 8388608\r\n\r\n";
    assert!(rt; gives(alloc, head, b"")?);
    let mut text = Vec::from_slice(alloc, head)?;
    put_times(&mut text, b"x", 8388608)?;
    let mut pieces = Vec::new(alloc);
    for piece in text.chunks(1000) {
        pieces.push(ByteText::from_slice(alloc, piece)?)?;
    }
    let messages = read_pieces(alloc, &pieces)?;
    let is_whole = match messages.get(0) {
        Some(message) => match &message.ask {
            Ask::Cite(body) => body.len() == 8388608,
            _ => false,
        },
        None => false,
    };
    assert!(rt; is_whole);
    Ok(())
}

fn plain(alloc: Global, code: u16, body: &[u8], closing: bool) -> Result<ByteText, NoMemory>
    requires one { IsTrue (is_code code) }
    requires other { code ≢ 405 }
{
    let reply = Reply {
        code,
        kind: Media::Plain,
        body: List::from_slice(alloc, body)?,
        allow: 0,
        closing,
    };
    respond(alloc, &reply)
}

#[test]
fn results_are_laid_out(rt: HostRuntime) -> Result<(), Fail> {
    let alloc = rt.alloc();
    let made = respond(
        alloc,
        &Reply {
            code: 201,
            kind: Media::Json,
            body: List::from_slice(alloc, b"{\"new\":true,\"version\":2}")?,
            allow: 0,
            closing: false,
        },
    )?;
    assert_eq!(rt;
        made.as_slice(),
        b"HTTP/1.1 201 Created\r\nContent-Type: application/json\r\nContent-Length: 24\r\n\r\n{\"new\":true,\"version\":2}".as_slice()
    );
    let rows = respond(
        alloc,
        &Reply {
            code: 200,
            kind: Media::Csv,
            body: List::from_slice(alloc, b"\"sid\",\"depth\"\n\"2\",\"12\"\n\"3\",\"19\"\n")?,
            allow: 0,
            closing: true,
        },
    )?;
    assert_eq!(rt;
        rows.as_slice(),
        b"HTTP/1.1 200 OK\r\nContent-Type: text/csv\r\nContent-Length: 32\r\nConnection: close\r\n\r\n\"sid\",\"depth\"\n\"2\",\"12\"\n\"3\",\"19\"\n".as_slice()
    );
    Ok(())
}

#[test]
fn other_methods_and_pages_are_laid_out(rt: HostRuntime) -> Result<(), Fail> {
    let alloc = rt.alloc();
    let other = respond(
        alloc,
        &Reply {
            code: 405,
            kind: Media::Plain,
            body: List::from_slice(alloc, b"OtherMethod\n")?,
            allow: 1,
            closing: false,
        },
    )?;
    assert_eq!(rt;
        other.as_slice(),
        b"HTTP/1.1 405 Method Not Allowed\r\nContent-Type: text/plain\r\nAllow: GET\r\nContent-Length: 12\r\n\r\nOtherMethod\n".as_slice()
    );
    let page = respond(
        alloc,
        &Reply {
            code: 200,
            kind: Media::Html,
            body: List::new(alloc),
            allow: 0,
            closing: false,
        },
    )?;
    assert_eq!(rt;
        page.as_slice(),
        b"HTTP/1.1 200 OK\r\nContent-Type: text/html; charset=utf-8\r\nContent-Length: 0\r\n\r\n".as_slice()
    );
    Ok(())
}

fn begins(text: &ByteText, line: &[u8]) -> bool {
    text.as_slice().starts_with(line)
}

#[test]
fn codes_have_their_phrases(rt: HostRuntime) -> Result<(), Fail> {
    let alloc = rt.alloc();
    assert!(rt;
        begins(
            &plain(alloc, 400, b"", true)?,
            b"HTTP/1.1 400 Bad Request\r\n"
        )
    );
    assert!(rt;
        begins(
            &plain(alloc, 404, b"", false)?,
            b"HTTP/1.1 404 Not Found\r\n"
        )
    );
    assert!(rt;
        begins(
            &plain(alloc, 409, b"", false)?,
            b"HTTP/1.1 409 Conflict\r\n"
        )
    );
    assert!(rt;
        begins(
            &plain(alloc, 413, b"", true)?,
            b"HTTP/1.1 413 Content Too Large\r\n"
        )
    );
    assert!(rt;
        begins(
            &plain(alloc, 422, b"", false)?,
            b"HTTP/1.1 422 Unprocessable Content\r\n"
        )
    );
    Ok(())
}

#[test]
fn failures_have_their_phrases(rt: HostRuntime) -> Result<(), Fail> {
    let alloc = rt.alloc();
    assert!(rt;
        begins(
            &plain(alloc, 431, b"", true)?,
            b"HTTP/1.1 431 Request Header Fields Too Large\r\n"
        )
    );
    assert!(rt;
        begins(
            &plain(alloc, 501, b"", true)?,
            b"HTTP/1.1 501 Not Implemented\r\n"
        )
    );
    assert!(rt;
        begins(
            &plain(alloc, 503, b"", false)?,
            b"HTTP/1.1 503 Service Unavailable\r\n"
        )
    );
    assert_eq!(rt;
        plain(alloc, 507, b"NoMemory\n", false)?.as_slice(),
        memory_reply(false)
    );
    assert_eq!(rt;
        plain(alloc, 507, b"NoMemory\n", true)?.as_slice(),
        memory_reply(true)
    );
    Ok(())
}
