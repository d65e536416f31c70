// What stands at the front of a text.
ghost use Rattle.std.specs.Prelude.{◌≡◌, ℕ, List, ◌+◌, ◌-◌, ◌≤◌, ◌<◌, length, take, drop, IfSome, MatchOption, ⊤, map, count_by, ◌==◌, ◌||◌, codes, IsUtf8};
ghost use Rattle.std.specs.List.{All, list_any};
ghost use Rattle.httparse.specs.Grammar.{RequestHead};
ghost use Rattle.httparse.specs.Spans.{IsRequestWithin, IsHeaderWithin, header_bytes, span_bytes};
ghost use Rattle.cite_http.specs.Reading as meant;
ghost use Rattle.cite_http.specs.Reading.{FitsHead, ReadsHead, Reads, after_head};
ghost use Rattle.cite_http.specs.Fields.{values_named, has_close};
ghost use Rattle.cite_http.specs.Offsets.{meant_by, IsHeadAt};
ghost use Rattle.cite_http.specs.Waiting.{Searched, OnUnfinished, IsFar, LiesWithin};

use crate::fields::{body_length, closing, has_field};
use crate::found::{Found, Frame, Progress};
use crate::heads::find_end;
use crate::status::Status;
use httparse::Status as Parse;
use httparse::spans::{EMPTY_HEADER_SPAN, HeaderSpan, RequestSpans, parse_request};

// The spans of a request head of at most 64 fields, where the bytes are exactly one.
fn parse_head(head: &[u8], headers: &mut [HeaderSpan]) -> Option<RequestSpans>
    requires { length headers.old ≡ 64 }
    ensures within { IfSome result (IsRequestWithin head.now headers.new) }
    ensures target { IfSome result (λ r. IsUtf8 (span_bytes head.now r.path)) }
    ensures some { IfSome result (λ r. (h : RequestHead) × IsHeadAt head.now headers.new r h) }
    ensures none { MatchOption result ((h : RequestHead) → ¬ (FitsHead head.now h)) (λ _. ⊤) }
{
    match parse_request(head, headers) {
        Ok(Parse::Complete(spans)) => {
            if spans.len == head.len() {
                Some(spans)
            } else {
                None
            }
        }
        _ => None,
    }
}

// Whether nothing is read after the message.
fn is_last(head: &[u8], spans: RequestSpans, fields: &[HeaderSpan]) -> bool
    requires { All (IsHeaderWithin (length head.now)) fields.now }
    ensures { result ≡ (spans.version == 0 || list_any has_close (values_named (codes "connection") (map (header_bytes head.now) fields.now))) }
{
    spans.version == 0 || closing(head, fields)
}

// What the head of n bytes makes of the text.
fn answer(text: &[u8], n: usize, spans: RequestSpans, headers: &[HeaderSpan]) -> Found
    requires some { 0 < n }
    requires room { n ≤ length text.now }
    requires within { IsRequestWithin (take n text.now) headers.now spans }
    requires target { IsUtf8 (span_bytes (take n text.now) spans.path) }
    ensures found { (h : RequestHead) → IsHeadAt (take n text.now) headers.now spans h → meant_by text.now result ≡ after_head h (drop n text.now) n }
    ensures waits { OnUnfinished result (λ progress. (h : RequestHead) → IsHeadAt (take n text.now) headers.now spans h → (rest : List ℕ) → n + length rest < progress.wanted → after_head h rest n ≡ meant.Unfinished) }
    ensures searched { OnUnfinished result (λ progress. progress.searched ≡ n - 1) }
    ensures far { OnUnfinished result (λ progress. length text.now < progress.wanted) }
    ensures within { LiesWithin text.now result }
{
    let head = &text[..n];
    let fields = &headers[..spans.headers];
    if has_field(head, fields, "transfer-encoding") {
        return Found::Refused(Status::TransferCoding, n);
    }
    let Some(length) = body_length(head, fields) else {
        return Found::Refused(Status::BadLength, n);
    };
    if length > 8388608 {
        return Found::Refused(Status::BodyTooLong, n);
    }
    let size = length as usize;
    if size > text.len() - n {
        return Found::Unfinished(Progress {
            searched: n - 1,
            wanted: n + size,
        });
    }
    let closing = is_last(head, spans, fields);
    Found::Whole(Frame {
        method: spans.method,
        target: spans.path,
        closing,
        body: n,
        end: n + size,
    })
}

// What stands in a text whose first n bytes end with an empty line.
fn with_head(text: &[u8], n: usize) -> Found
    requires some { 0 < n }
    requires room { n ≤ length text.now }
    ensures found { ReadsHead text.now n (meant_by text.now result) }
    ensures waits { OnUnfinished result (λ progress. (other : List ℕ) → take n other ≡ take n text.now → n ≤ length other → length other < progress.wanted → ReadsHead other n meant.Unfinished) }
    ensures searched { OnUnfinished result (λ progress. progress.searched ≡ n - 1) }
    ensures far { OnUnfinished result (λ progress. length text.now < progress.wanted) }
    ensures within { LiesWithin text.now result }
{
    let mut headers = [EMPTY_HEADER_SPAN; 64];
    match parse_head(&text[..n], &mut headers) {
        Some(spans) => answer(text, n, spans, &headers),
        None => Found::Refused(Status::BadHead, n),
    }
}

// How many line feeds the first n bytes have.
fn feeds(text: &[u8], n: usize) -> usize
    requires { n ≤ length text.now }
    ensures { result ≡ count_by (λ b. b == 10) (take n text.now) }
{
    text[..n].iter().filter(|b| **b == 10).count()
}

/// What stands at the front of a text where a message begins, of which so much was searched in vain. Where no message is
/// whole, the answer says how far the text is searched by now, so no byte is searched twice for the end of a head; a head
/// is parsed when its end has come, and once more when its body is whole.
pub fn find(text: &[u8], progress: Progress) -> Found
    requires { Searched text.now progress }
    ensures found { Reads text.now (meant_by text.now result) }
    ensures searched { OnUnfinished result (Searched text.now) }
    ensures far { OnUnfinished result (IsFar (length text.now)) }
    ensures within { LiesWithin text.now result }
{
    if text.len() < progress.wanted {
        return Found::Unfinished(progress);
    }
    let Some(n) = find_end(text, progress.searched) else {
        if text.len() < 16384 {
            return Found::Unfinished(Progress {
                searched: text.len(),
                wanted: 0,
            });
        }
        return Found::Refused(Status::HeadTooLong, 16384);
    };
    if feeds(text, n) > 66 {
        return Found::Refused(Status::HeadTooLong, n);
    }
    with_head(text, n)
}
