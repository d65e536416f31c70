// Bodies of migrations and what they spell. Each expected answer is read off the format by hand.
use crate::{JsonFault, read_steps};
use cite_schema::{ByteText, List, Step, Value};
use std::alloc::Global;
use std::test::Fail;

// What the first step does, and its numbers or the first bytes of its names.
fn first_of(steps: &List<Step>) -> (usize, i64, i64) {
    match steps.get(0) {
        Some(Step::Rename { column, to }) => (1, first_byte(column), first_byte(to)),
        Some(Step::Add { value, .. }) => (2, number_of(value), 0),
        Some(Step::DropColumn { column }) => (3, first_byte(column), 0),
        Some(Step::Scale { by, plus, .. }) => (4, *by, *plus),
        Some(Step::Recode { old, new, .. }) => (5, number_of(old), number_of(new)),
        Some(Step::RetypeToText { column }) => (6, first_byte(column), 0),
        None => (0, 0, 0),
    }
}

fn first_byte(text: &ByteText) -> i64 {
    match text.get(0) {
        Some(byte) => i64::from(*byte),
        None => 0,
    }
}

fn number_of(value: &Value) -> i64 {
    match value {
        Value::Int(number) => *number,
        Value::Text(_) => -1,
    }
}

// How many steps a body spells, and the first of them.
fn told(alloc: Global, body: &[u8]) -> Result<(usize, (usize, i64, i64)), JsonFault> {
    let steps = read_steps(alloc, body)?;
    Ok((steps.len(), first_of(&steps)))
}

#[test]
fn each_step_is_read(rt: HostRuntime) -> Result<(), Fail> {
    let alloc = rt.alloc();
    let bodies: [(&[u8], (usize, i64, i64)); 6] = [
        (
            b"[{\"rename\":{\"to\":\"ab\",\"column\":\"depth\"}}]",
            (1, 100, 97),
        ),
        (b"[{\"add\":{\"column\":\"d\",\"value\":-7}}]", (2, -7, 0)),
        (b"[{\"drop\":{\"column\":\"site\"}}]", (3, 115, 0)),
        (
            b"[{\"scale\":{\"column\":\"d\",\"by\":10,\"plus\":-3}}]",
            (4, 10, -3),
        ),
        (
            b"[{\"recode\":{\"column\":\"d\",\"old\":1,\"new\":2}}]",
            (5, 1, 2),
        ),
        (
            b"[{\"retype\":{\"column\":\"d\",\"kind\":\"text\"}}]",
            (6, 100, 0),
        ),
    ];
    for (body, first) in bodies {
        assert_eq!(rt; told(alloc, body), Ok((1, first)));
    }
    assert_eq!(rt; told(alloc, b"[]"), Ok((0, (0, 0, 0))));
    Ok(())
}

#[test]
fn other_bodies_are_no_steps(rt: HostRuntime) -> Result<(), Fail> {
    let alloc = rt.alloc();
    let bodies: [&[u8]; 9] = [
        b"{}",
        b"[1]",
        b"[{}]",
        b"[{\"drop\":{\"column\":\"a\"},\"add\":{}}]",
        b"[{\"drop\":{}}]",
        b"[{\"drop\":{\"column\":\"a\",\"to\":\"b\"}}]",
        b"[{\"move\":{\"column\":\"a\"}}]",
        b"[{\"retype\":{\"column\":\"a\",\"kind\":\"int\"}}]",
        b"[{\"scale\":{\"column\":\"a\",\"by\":1.5,\"plus\":0}}]",
    ];
    for body in bodies {
        assert_eq!(rt; told(alloc, body), Err(JsonFault::NotSteps));
    }
    assert_eq!(rt; told(alloc, b"["), Err(JsonFault::NotJson));
    Ok(())
}
