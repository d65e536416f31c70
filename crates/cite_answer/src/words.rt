// The rules that requests break, in words.
ghost use Rattle.std.specs.Prelude.{◌≡◌, ◌++◌, IfOk, codes, decimal, string_bytes};
ghost use Rattle.cite_answer.specs.Words.{body_words, line_words, query_words, step_words, request_words, key_words, refusal_words, status_words};

use archive_model::Refused;
use batches::BatchFault;
use cite_http::Status;
use cite_schema::{NoMemory, Value};
use itoa::Buffer;
use migration::StepFault;
use query_json::JsonFault;
use std::alloc::{AllocError, Global};
use subset_query::QueryFault;
use versioned_rows::ApplyFault;

// A name.
fn plain(alloc: Global, name: &str) -> Result<Vec<u8>, NoMemory>
    ensures { IfOk result (λ words. words.items ≡ name.now) }
{
    Ok(Vec::from_slice(alloc, name.as_bytes())?)
}

// A name, which ends with a space, and a number.
fn with_number(alloc: Global, name: &str, number: u64) -> Result<Vec<u8>, NoMemory>
    ensures { IfOk result (λ words. words.items ≡ name.now ++ decimal number) }
{
    let mut words = Vec::from_slice(alloc, name.as_bytes())?;
    words.extend_from_slice(Buffer::new().format(number).as_bytes())?;
    Ok(words)
}

// Such a name, and two numbers with a space between.
fn with_numbers(alloc: Global, name: &str, first: u64, second: u64) -> Result<Vec<u8>, NoMemory>
    ensures { IfOk result (λ words. words.items ≡ name.now ++ decimal first ++ codes " " ++ decimal second) }
{
    let mut words = with_number(alloc, name, first)?;
    words.push(b' ')?;
    words.extend_from_slice(Buffer::new().format(second).as_bytes())?;
    Ok(words)
}

fn body_words(alloc: Global, fault: &BatchFault) -> Result<Vec<u8>, NoMemory>
    ensures { IfOk result (λ words. words.items ≡ body_words fault.now) }
{
    match fault {
        BatchFault::BadHeader => plain(alloc, "BadHeader"),
        BatchFault::EmptyBatch => plain(alloc, "EmptyBatch"),
        BatchFault::TooManyLines => plain(alloc, "TooManyLines"),
        BatchFault::BadWidth(line) => with_number(alloc, "BadWidth ", *line as u64),
        BatchFault::BadOp(line) => with_number(alloc, "BadOp ", *line as u64),
        BatchFault::BadCell { line, column } => with_numbers(
            alloc,
            "BadCell ",
            *line as u64,
            *column as u64,
        ),
        BatchFault::KeyTwice(line) => with_number(alloc, "KeyTwice ", *line as u64),
        BatchFault::NoMemory => plain(alloc, "NoMemory"),
    }
}

fn line_words(alloc: Global, fault: &ApplyFault) -> Result<Vec<u8>, NoMemory>
    ensures { IfOk result (λ words. words.items ≡ line_words fault.now) }
{
    match fault {
        ApplyFault::KeyTaken(line) => with_number(alloc, "KeyTaken ", *line as u64),
        ApplyFault::KeyMissing(line) => with_number(alloc, "KeyMissing ", *line as u64),
        ApplyFault::NoMemory => plain(alloc, "NoMemory"),
    }
}

fn query_words(alloc: Global, fault: &QueryFault) -> Result<Vec<u8>, NoMemory>
    ensures { IfOk result (λ words. words.items ≡ query_words fault.now) }
{
    match fault {
        QueryFault::NoItems => plain(alloc, "NoItems"),
        QueryFault::TooManyParts => plain(alloc, "TooManyParts"),
        QueryFault::TooManyNodes => plain(alloc, "TooManyNodes"),
        QueryFault::TooDeep => plain(alloc, "TooDeep"),
        QueryFault::TextTooLong => plain(alloc, "TextTooLong"),
        QueryFault::ConditionTwice => plain(alloc, "ConditionTwice"),
        QueryFault::UnknownColumn { part, place } => with_numbers(
            alloc,
            "UnknownColumn ",
            *part as u64,
            *place as u64,
        ),
        QueryFault::WrongKind { place } => with_number(alloc, "WrongKind ", *place as u64),
    }
}

fn step_words(alloc: Global, fault: &StepFault) -> Result<Vec<u8>, NoMemory>
    ensures { IfOk result (λ words. words.items ≡ step_words fault.now) }
{
    match fault {
        StepFault::BadStep(step) => with_number(alloc, "BadStep ", *step as u64),
        StepFault::UnknownColumn(step) => with_number(alloc, "UnknownColumn ", *step as u64),
        StepFault::KeyColumn(step) => with_number(alloc, "KeyColumn ", *step as u64),
        StepFault::WrongKind(step) => with_number(alloc, "WrongKind ", *step as u64),
        StepFault::NameTaken(step) => with_number(alloc, "NameTaken ", *step as u64),
        StepFault::TooManyColumns(step) => with_number(alloc, "TooManyColumns ", *step as u64),
        StepFault::NoMemory => plain(alloc, "NoMemory"),
    }
}

/// The rule of a body that is JSON, in words.
pub(crate) fn request_words(alloc: Global, fault: JsonFault) -> Result<Vec<u8>, NoMemory>
    ensures { IfOk result (λ words. words.items ≡ request_words fault) }
{
    match fault {
        JsonFault::NotJson => plain(alloc, "NotJson"),
        JsonFault::NotARequest => plain(alloc, "NotARequest"),
        JsonFault::NotAQuery(part) => with_number(alloc, "NotAQuery ", part as u64),
        JsonFault::NotAMeta => plain(alloc, "NotAMeta"),
        JsonFault::NotSteps => plain(alloc, "NotSteps"),
        JsonFault::NoMemory => plain(alloc, "NoMemory"),
    }
}

// A row's key at which a number would leave the range.
fn key_words(alloc: Global, key: &Value) -> Result<String, AllocError>
    ensures { IfOk result (λ words. string_bytes words ≡ key_words key.now) }
{
    match key {
        Value::Int(number) => format!(in alloc; "{number}"),
        Value::Text(text) => hex::encode(alloc, text.as_slice()),
    }
}

fn overflow_words(alloc: Global, version: u32, key: &Value) -> Result<Vec<u8>, NoMemory>
    ensures { IfOk result (λ words. words.items ≡ codes "Overflow " ++ decimal version ++ codes " " ++ key_words key.now) }
{
    let mut words = format!(in alloc; "Overflow {version} ")?.into_bytes();
    words.extend_from_slice(key_words(alloc, key)?.as_bytes())?;
    Ok(words)
}

ghost use Rattle.identifiers.specs.Names.{name_of};
ghost use Rattle.identifiers.specs.declared.named.Named.TheVariants.{Subset};

fn cited_words(alloc: Global, prefix: &[u8], number: u32) -> Result<Vec<u8>, NoMemory>
    ensures { IfOk result (λ words. words.items ≡ codes "CitedSubset " ++ name_of prefix.now (Subset number)) }
{
    let mut words = Vec::from_slice(alloc, b"CitedSubset ")?;
    words.extend_from_slice(prefix)?;
    words.extend_from_slice(b"/c")?;
    words.extend_from_slice(Buffer::new().format(number).as_bytes())?;
    Ok(words)
}

/// The rule by which a call of an archive with this prefix is refused, in words.
pub(crate) fn refusal_words(
    alloc: Global,
    prefix: &[u8],
    refusal: &Refused,
) -> Result<Vec<u8>, NoMemory>
    ensures { IfOk result (λ words. words.items ≡ refusal_words prefix.now refusal.now) }
{
    match refusal {
        Refused::NumberUsed { version } => with_number(alloc, "NumberUsed ", *version as u64),
        Refused::WrongSchema { current } => with_number(alloc, "WrongSchema ", *current as u64),
        Refused::Body(fault) => body_words(alloc, fault),
        Refused::Lines(fault) => line_words(alloc, fault),
        Refused::Query(fault) => query_words(alloc, fault),
        Refused::BadMeta(part) => with_number(alloc, "BadMeta ", *part as u64),
        Refused::Steps(fault) => step_words(alloc, fault),
        Refused::ResultTooLarge { bytes } => with_number(alloc, "ResultTooLarge ", *bytes),
        Refused::EntryTooLarge { bytes } => with_number(alloc, "EntryTooLarge ", *bytes),
        Refused::Overflow { version, key } => overflow_words(alloc, *version, key),
        Refused::Full { limit } => with_number(alloc, "Full ", *limit as u64),
        Refused::CitedSubset { number } => cited_words(alloc, prefix, *number),
        Refused::ClockRange { moment } => with_number(alloc, "ClockRange ", *moment),
        Refused::NoMemory => plain(alloc, "NoMemory"),
        Refused::DiskFailed => plain(alloc, "DiskFailed"),
    }
}

/// The rule that a message breaks, in words.
pub(crate) fn status_words(status: Status) -> &'static str
    ensures { result.now ≡ status_words status }
{
    match status {
        Status::BadHead => "BadHead",
        Status::HeadTooLong => "HeadTooLong",
        Status::TransferCoding => "TransferCoding",
        Status::BadLength => "BadLength",
        Status::BodyTooLong => "BodyTooLong",
        Status::BadTarget => "BadTarget",
        Status::NoRoute => "NoRoute",
        Status::OtherMethod { .. } => "OtherMethod",
    }
}
