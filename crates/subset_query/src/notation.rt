// Schemas and queries in a short notation, for tests.
//
// A schema is a line of columns, each a name and a kind, as `sid:int t:text`. A query is a line of words, and a
// condition stands behind the conditions in it:
//
// - `lt:3`, `le:3`, `eq:3`, `ne:3`, `ge:3` and `gt:3` compare with a number, and `lt:'61` with the text that has these
//   bytes in hexadecimal;
// - `in:135` asks for one of the numbers 1, 3 and 5, and `prefix:61` for a text that begins with these bytes;
// - `all:2` and `any:2` join the last two conditions, and `not:1` denies the last one;
// - `on:x` puts the last condition on the column x;
// - `show:x=c` shows the column x under the label c;
// - `up:x` and `down:x` order by the column x.
use cite_schema::{
    Along, Asked, Boxed, ByteText, Column, Cond, Kind, List, NoMemory, OnColumn, Query, Schema,
    Value, read_int,
};
use std::alloc::{AllocError, AllocFailed, Global};

/// Why a line has no meaning.
#[derive(Debug, Drop)]
pub enum Misread {
    NoMemory,
    /// A word is none of the notation, or lacks the conditions that it joins.
    Word,
    /// The columns make no schema.
    Schema,
    /// The query may not be asked of the schema.
    Query,
}

impl From<NoMemory> for Misread {
    fn from(_: NoMemory) -> Misread {
        Misread::NoMemory
    }
}

impl From<AllocError> for Misread {
    fn from(_: AllocError) -> Misread {
        Misread::NoMemory
    }
}

impl<T: Drop> From<AllocFailed<T>> for Misread {
    fn from(_: AllocFailed<T>) -> Misread {
        Misread::NoMemory
    }
}

/// The text of these bytes.
pub fn text(alloc: Global, bytes: &[u8]) -> Result<ByteText, Misread> {
    let text = ByteText::from_slice(alloc, bytes)?;
    Ok(text)
}

// The two sides of a mark in a word.
fn cut(word: &str, mark: char) -> Result<(&str, &str), Misread> {
    match word.split_once(mark) {
        Some((before, behind)) => Ok((before, behind)),
        None => Err(Misread::Word),
    }
}

fn kind_of(word: &str) -> Result<Kind, Misread> {
    match word {
        "int" => Ok(Kind::Int),
        "text" => Ok(Kind::Text),
        _ => Err(Misread::Word),
    }
}

fn column_of(alloc: Global, word: &str) -> Result<Column, Misread> {
    let (name, kind) = cut(word, ':')?;
    let kind = kind_of(kind)?;
    let name = text(alloc, name.as_bytes())?;
    Ok(Column { name, kind })
}

/// The schema of a line of columns.
pub fn schema(alloc: Global, line: &str) -> Result<Schema, Misread> {
    let mut columns = List::new(alloc);
    for word in line.split_whitespace() {
        let column = column_of(alloc, word)?;
        columns.push(column)?;
    }
    match Schema::make(1, columns) {
        Ok(schema) => Ok(schema),
        Err(_) => Err(Misread::Schema),
    }
}

// The text that is written in hexadecimal.
fn decoded(alloc: Global, digits: &str) -> Result<ByteText, Misread> {
    match hex::decode(alloc, digits) {
        Ok(bytes) => Ok(List::from_vec(bytes)),
        Err(_) => Err(Misread::Word),
    }
}

fn number(word: &str) -> Result<i64, Misread> {
    match read_int(word.as_bytes()) {
        Some(number) => Ok(number),
        None => Err(Misread::Word),
    }
}

fn value(alloc: Global, word: &str) -> Result<Value, Misread> {
    match word.strip_prefix('\'') {
        Some(digits) => {
            let text = decoded(alloc, digits)?;
            Ok(Value::Text(text))
        }
        None => {
            let number = number(word)?;
            Ok(Value::Int(number))
        }
    }
}

fn comparison(key: &str, value: Value) -> Result<Cond, Misread> {
    match key {
        "lt" => Ok(Cond::Lt(value)),
        "le" => Ok(Cond::Le(value)),
        "eq" => Ok(Cond::Eq(value)),
        "ne" => Ok(Cond::Ne(value)),
        "ge" => Ok(Cond::Ge(value)),
        "gt" => Ok(Cond::Gt(value)),
        _ => Err(Misread::Word),
    }
}

// The condition that holds of each digit's number.
fn among(alloc: Global, digits: &str) -> Result<Cond, Misread> {
    let mut values = List::new(alloc);
    for digit in digits.as_bytes() {
        values.push(Value::Int(i64::from(*digit) - 48))?;
    }
    Ok(Cond::Among(values))
}

fn prefixed(alloc: Global, digits: &str) -> Result<Cond, Misread> {
    let prefix = decoded(alloc, digits)?;
    Ok(Cond::Prefix(prefix))
}

fn compared(alloc: Global, key: &str, word: &str) -> Result<Cond, Misread> {
    let value = value(alloc, word)?;
    comparison(key, value)
}

fn last(loose: &mut Vec<Cond>) -> Result<Cond, Misread> {
    match loose.pop() {
        Some(cond) => Ok(cond),
        None => Err(Misread::Word),
    }
}

// The last conditions, so many, in the order in which they were written.
fn members(alloc: Global, loose: &mut Vec<Cond>, count: &str) -> Result<List<Cond>, Misread> {
    let count = number(count)?;
    let mut members = Vec::new(alloc);
    for _ in 0..count {
        let member = last(loose)?;
        members.push(member)?;
    }
    members.reverse();
    Ok(List::from_vec(members))
}

fn joined(alloc: Global, loose: &mut Vec<Cond>, key: &str, count: &str) -> Result<Cond, Misread> {
    let members = members(alloc, loose, count)?;
    match key {
        "all" => Ok(Cond::AllOf(members)),
        _ => Ok(Cond::AnyOf(members)),
    }
}

fn denied(alloc: Global, loose: &mut Vec<Cond>) -> Result<Cond, Misread> {
    let cond = last(loose)?;
    let inner = Boxed::new(alloc, cond)?;
    Ok(Cond::Not(inner))
}

// The condition of a word, which takes those that it joins.
fn condition(alloc: Global, loose: &mut Vec<Cond>, key: &str, rest: &str) -> Result<Cond, Misread> {
    match key {
        "in" => among(alloc, rest),
        "prefix" => prefixed(alloc, rest),
        "all" | "any" => joined(alloc, loose, key, rest),
        "not" => denied(alloc, loose),
        _ => compared(alloc, key, rest),
    }
}

fn add_condition(
    alloc: Global,
    query: &mut Query,
    loose: &mut Vec<Cond>,
    name: &str,
) -> Result<(), Misread> {
    let cond = last(loose)?;
    let column = text(alloc, name.as_bytes())?;
    query.conds.push(OnColumn { column, cond })?;
    Ok(())
}

// Adds the item of a word `x=c`.
fn add_item(alloc: Global, query: &mut Query, word: &str) -> Result<(), Misread> {
    let (column, label) = cut(word, '=')?;
    let column = text(alloc, column.as_bytes())?;
    let label = text(alloc, label.as_bytes())?;
    query.items.push(Asked { column, label })?;
    Ok(())
}

fn add_order(alloc: Global, query: &mut Query, name: &str, down: bool) -> Result<(), Misread> {
    let column = text(alloc, name.as_bytes())?;
    query.order.push(Along { column, down })?;
    Ok(())
}

fn keep_condition(
    alloc: Global,
    loose: &mut Vec<Cond>,
    key: &str,
    rest: &str,
) -> Result<(), Misread> {
    let cond = condition(alloc, loose, key, rest)?;
    loose.push(cond)?;
    Ok(())
}

// Adds what a word says to the query, or to the conditions that are on no column yet.
fn add_word(
    alloc: Global,
    query: &mut Query,
    loose: &mut Vec<Cond>,
    word: &str,
) -> Result<(), Misread> {
    let (key, rest) = cut(word, ':')?;
    match key {
        "on" => add_condition(alloc, query, loose, rest),
        "show" => add_item(alloc, query, rest),
        "up" => add_order(alloc, query, rest, false),
        "down" => add_order(alloc, query, rest, true),
        _ => keep_condition(alloc, loose, key, rest),
    }
}

/// The query of a line of words.
pub fn query(alloc: Global, line: &str) -> Result<Query, Misread> {
    let mut loose = Vec::new(alloc);
    let mut query = Query {
        conds: List::new(alloc),
        items: List::new(alloc),
        order: List::new(alloc),
    };
    for word in line.split_whitespace() {
        add_word(alloc, &mut query, &mut loose, word)?;
    }
    if loose.is_empty() {
        Ok(query)
    } else {
        Err(Misread::Word)
    }
}
