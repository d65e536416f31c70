// The replies to messages.
ghost use Rattle.std.specs.Prelude.{◌≡◌, ◌++◌, codes, IfOk};
ghost use Rattle.cite_http.specs.Responses.{IsReply};
ghost use Rattle.cite_answer.specs.Replies.{reply_with, line_reply, found_reply, missing_reply, change_code, change_reply, refusal_code, refusal_reply, unread_code, unread_reply, status_code, told_method, status_reply};

use crate::words::{refusal_words, request_words, status_words};
use archive_model::Refused;
use cite_http::{Media, Reply, Status};
use cite_schema::{ByteText, NoMemory};
use query_json::JsonFault;
use std::alloc::Global;

// A code with a body.
fn reply_with(code: u16, kind: Media, body: ByteText, closing: bool) -> Reply
    ensures { result ≡ reply_with code kind body closing }
{
    Reply {
        code,
        kind,
        body,
        allow: 0,
        closing,
    }
}

/// What was asked for is there.
pub(crate) fn found_reply(kind: Media, body: ByteText, closing: bool) -> Reply
    ensures value { result ≡ found_reply kind body closing }
    ensures reply { IsReply result }
{
    reply_with(200, kind, body, closing)
}

// A code with a line.
fn line_reply(code: u16, words: Vec<u8>, closing: bool) -> Result<Reply, NoMemory>
    ensures { IfOk result (λ reply. reply ≡ line_reply code words.items closing) }
{
    let mut line = words;
    line.push(b'\n')?;
    let body = ByteText::from_vec(line);
    Ok(reply_with(code, Media::Plain, body, closing))
}

/// Nothing is there, by this name.
pub(crate) fn missing_reply(alloc: Global, words: &str, closing: bool) -> Result<Reply, NoMemory>
    ensures value { IfOk result (λ reply. reply ≡ missing_reply words.now closing) }
    ensures reply { IfOk result IsReply }
{
    line_reply(404, Vec::from_slice(alloc, words.as_bytes())?, closing)
}

/// A change was made, or had been made before.
pub(crate) fn change_reply(new: bool, body: ByteText, closing: bool) -> Reply
    ensures value { result ≡ change_reply new body closing }
    ensures reply { IsReply result }
{
    let code = if new { 201 } else { 200 };
    reply_with(code, Media::Json, body, closing)
}

fn refusal_code(refusal: &Refused) -> u16
    ensures { result ≡ refusal_code refusal.now }
{
    match refusal {
        Refused::NumberUsed { .. } | Refused::WrongSchema { .. } | Refused::CitedSubset { .. } =>
            409,
        Refused::DiskFailed => 503,
        Refused::NoMemory => 507,
        Refused::Body(_)
        | Refused::Lines(_)
        | Refused::Query(_)
        | Refused::BadMeta(_)
        | Refused::Steps(_)
        | Refused::ResultTooLarge { .. }
        | Refused::EntryTooLarge { .. }
        | Refused::Overflow { .. }
        | Refused::Full { .. }
        | Refused::ClockRange { .. } => 422,
    }
}

/// A call of an archive with this prefix is refused.
pub(crate) fn refusal_reply(
    alloc: Global,
    prefix: &[u8],
    closing: bool,
    refusal: &Refused,
) -> Result<Reply, NoMemory>
    ensures value { IfOk result (λ reply. reply ≡ refusal_reply prefix.now closing refusal.now) }
    ensures reply { IfOk result IsReply }
{
    let words = refusal_words(alloc, prefix, refusal)?;
    line_reply(refusal_code(refusal), words, closing)
}

fn unread_code(fault: JsonFault) -> u16
    ensures { result ≡ unread_code fault }
{
    match fault {
        JsonFault::NoMemory => 507,
        JsonFault::NotJson
        | JsonFault::NotARequest
        | JsonFault::NotAQuery(_)
        | JsonFault::NotAMeta
        | JsonFault::NotSteps => 422,
    }
}

/// The body of a request is none, or memory was wanting to read it.
pub(crate) fn unread_reply(
    alloc: Global,
    closing: bool,
    fault: JsonFault,
) -> Result<Reply, NoMemory>
    ensures value { IfOk result (λ reply. reply ≡ unread_reply closing fault) }
    ensures reply { IfOk result IsReply }
{
    line_reply(unread_code(fault), request_words(alloc, fault)?, closing)
}

fn status_code(status: Status) -> u16
    ensures { result ≡ status_code status }
{
    match status {
        Status::BadHead | Status::BadLength | Status::BadTarget => 400,
        Status::HeadTooLong => 431,
        Status::TransferCoding => 501,
        Status::BodyTooLong => 413,
        Status::NoRoute => 404,
        Status::OtherMethod { .. } => 405,
    }
}

fn told_method(status: Status) -> u8
    ensures { result ≡ told_method status }
{
    match status {
        Status::OtherMethod { get: true } => 1,
        Status::OtherMethod { get: false } => 2,
        _ => 0,
    }
}

/// A message is refused.
pub(crate) fn status_reply(alloc: Global, closing: bool, status: Status) -> Result<Reply, NoMemory>
    ensures value { IfOk result (λ reply. reply ≡ status_reply closing status) }
    ensures reply { IfOk result IsReply }
{
    let words = Vec::from_slice(alloc, status_words(status).as_bytes())?;
    let mut reply = line_reply(status_code(status), words, closing)?;
    reply.allow = told_method(status);
    Ok(reply)
}
