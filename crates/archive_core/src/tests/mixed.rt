// A long session of batches, citations and migrations, opened again at its end.
//
// Each round brings a row whose key is the round's number and whose depth no other row has, and cites the keys of the
// rows with that depth. So what a citation gives is its round's key, whatever becomes of the columns later.
use crate::tests::asks::{cite_ask, founded, items, post, text};
use crate::tests::kept::Archive;
use crate::tests::sessions::resolved;
use archive_model::{Cited, Moved, Stored};
use cite_disk::Choice;
use cite_schema::{BatchAsk, ByteText, Cond, List, NoMemory, Step, Value};
use std::alloc::Global;
use std::test::Fail;

const ROUNDS: u32 = 10;

// The header of a batch for each schema.
fn header(schema: u32) -> &'static [u8] {
    match schema {
        1 | 2 => b"op,sid,depth,name\n",
        3 => b"op,sid,depth,label\n",
        4 => b"op,sid,depth,label,flag\n",
        _ => b"op,sid,depth,flag\n",
    }
}

// What stands behind the depth of a line, for each schema.
fn line_end(schema: u32) -> &'static [u8] {
    match schema {
        1 | 2 | 3 => b",x\n",
        4 => b",x,0\n",
        _ => b",0\n",
    }
}

// The step that a migration from each schema makes.
fn step_from(alloc: Global, schema: u32) -> Result<Step, NoMemory> {
    match schema {
        1 => Ok(Step::Scale {
            column: text(alloc, b"depth")?,
            by: 2,
            plus: 1,
        }),
        2 => Ok(Step::Rename {
            column: text(alloc, b"name")?,
            to: text(alloc, b"label")?,
        }),
        3 => Ok(Step::Add {
            column: text(alloc, b"flag")?,
            value: Value::Int(0),
        }),
        _ => Ok(Step::DropColumn {
            column: text(alloc, b"label")?,
        }),
    }
}

// The depth of a round's row. After a scaling by 2 plus 1 the depths of earlier rounds are others.
fn depth_of(round: u32) -> i64 {
    round as i64 * 10_000 + 1
}

// The row of a round, by a batch for this schema.
fn add_row(archive: &mut Archive, alloc: Global, schema: u32, round: u32) -> Result<Stored, Fail> {
    let depth = depth_of(round);
    let mut body = text(alloc, header(schema))?;
    for byte in format!(in alloc; "+,{round},{depth}")?.as_bytes() {
        body.push(*byte)?;
    }
    for byte in line_end(schema) {
        body.push(*byte)?;
    }
    let ask = BatchAsk {
        schema,
        curator: text(alloc, b"ann")?,
        number: round,
        body,
    };
    Ok(post(archive, alloc, &ask, 100)?)
}

// Cites the keys of the rows with the depth of a round's row.
fn cite_row(archive: &mut Archive, alloc: Global, round: u32) -> Result<Cited, Fail> {
    let cond = Cond::Eq(Value::Int(depth_of(round)));
    let items = items(alloc, &[b"sid"])?;
    let ask = cite_ask(alloc, b"depth", cond, items, List::new(alloc))?;
    Ok(archive.cite(alloc, &ask, 100)?)
}

// Moves the archive from a schema to the next.
fn move_on(archive: &mut Archive, alloc: Global, schema: u32) -> Result<Moved, Fail> {
    let mut steps = List::new(alloc);
    steps.push(step_from(alloc, schema)?)?;
    Ok(archive.migrate(alloc, schema, &steps, 100)?)
}

// A round for a schema: its row, its citation, and in each second round a migration, of which there are four. The answer
// is the schema afterwards.
fn play(archive: &mut Archive, alloc: Global, schema: u32, round: u32) -> Result<u32, Fail> {
    let stored = add_row(archive, alloc, schema, round)?;
    let cited = cite_row(archive, alloc, round)?;
    if !stored.new || !cited.new || cited.number != round {
        return Err(Fail::new("a round made no entry"));
    }
    if round % 2 == 1 || schema == 5 {
        return Ok(schema);
    }
    Ok(move_on(archive, alloc, schema)?.schema)
}

// The archive after the last round.
fn played(alloc: Global) -> Result<Archive, Fail> {
    let mut archive = founded(alloc, 100)?;
    let mut schema = 1;
    for round in 1..ROUNDS + 1 {
        schema = play(&mut archive, alloc, schema, round)?;
    }
    Ok(archive)
}

// What the citation of a round gave.
fn given(alloc: Global, round: u32) -> Result<ByteText, NoMemory> {
    let text = format!(in alloc; "\"sid\"\n\"{round}\"\n")?;
    Ok(ByteText::from_slice(alloc, text.as_bytes())?)
}

// The numbers that don't resolve to what they gave.
fn lost(archive: &Archive, alloc: Global) -> Result<Vec<u32>, Fail> {
    let mut lost = Vec::new(alloc);
    for round in 1..ROUNDS + 1 {
        let bytes = resolved(archive, alloc, round)?;
        if bytes.as_slice() != given(alloc, round)?.as_slice() {
            lost.push(round)?;
        }
    }
    Ok(lost)
}

#[test]
fn every_number_resolves_after_a_long_session(rt: HostRuntime) -> Result<(), Fail> {
    let alloc = rt.alloc();
    let archive = played(alloc)?;
    assert_eq!(rt; archive.entries(), 25);
    assert_eq!(rt; lost(&archive, alloc)?.as_slice(), [].as_slice());
    let (_, disk) = archive.into_parts();
    let again = Archive::open(alloc, disk.crash(Choice::Old)?)?;
    assert_eq!(rt; (again.entries(), again.snapshot().issued()), (25, 10));
    assert_eq!(rt; again.snapshot().version(), 15);
    assert_eq!(rt; lost(&again, alloc)?.as_slice(), [].as_slice());
    Ok(())
}

// A citation for which the steps are harmless is carried without a look at its bytes, and resolves to them all the same.
#[test]
fn harmless_migrations_keep_every_number(rt: HostRuntime) -> Result<(), Fail> {
    let alloc = rt.alloc();
    let mut archive = founded(alloc, 100)?;
    for round in 1..ROUNDS + 1 {
        let _ = add_row(&mut archive, alloc, 1, round)?;
        let _ = cite_row(&mut archive, alloc, round)?;
    }
    let moved = move_on(&mut archive, alloc, 1)?;
    assert_eq!(rt; (moved.schema, moved.version), (2, 12));
    let moved = move_on(&mut archive, alloc, 2)?;
    assert_eq!(rt; (moved.schema, moved.version), (3, 13));
    assert_eq!(rt; lost(&archive, alloc)?.as_slice(), [].as_slice());
    Ok(())
}
