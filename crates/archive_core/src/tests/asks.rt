// What is asked in the sessions.
use crate::tests::kept::Archive;
use archive_model::{Cited, FoundFault, Refused, Stored};
use batches::curator_ok;
use cite_schema::{
    Along, Asked, BatchAsk, ByteText, CiteAsk, Column, Cond, Dataset, Kind, List, Meta, NoMemory,
    OnColumn, Query, Value,
};
use std::alloc::Global;

/// A text of these bytes.
pub fn text(alloc: Global, bytes: &[u8]) -> Result<ByteText, NoMemory> {
    Ok(ByteText::from_slice(alloc, bytes)?)
}

/// What is told of the table that the sessions are about.
pub fn dataset(alloc: Global) -> Result<Dataset, NoMemory> {
    Ok(Dataset {
        prefix: text(alloc, b"10.5072")?,
        publisher: text(alloc, b"Data Centre")?,
        creator: text(alloc, b"Ann")?,
        title: text(alloc, b"Stations")?,
    })
}

/// A column.
pub fn column(alloc: Global, name: &[u8], kind: Kind) -> Result<Column, NoMemory> {
    Ok(Column {
        name: text(alloc, name)?,
        kind,
    })
}

/// The columns `sid` and `depth` of numbers, and `name` of texts.
pub fn columns(alloc: Global) -> Result<List<Column>, NoMemory> {
    let mut columns = List::new(alloc);
    columns.push(column(alloc, b"sid", Kind::Int)?)?;
    columns.push(column(alloc, b"depth", Kind::Int)?)?;
    columns.push(column(alloc, b"name", Kind::Text)?)?;
    Ok(columns)
}

/// An archive that was founded at a moment.
pub fn founded(alloc: Global, now: u64) -> Result<Archive, FoundFault> {
    let Ok(dataset) = dataset(alloc) else {
        return Err(FoundFault::NoMemory);
    };
    match columns(alloc) {
        Ok(columns) => Archive::found(alloc, &dataset, columns, now),
        Err(NoMemory) => Err(FoundFault::NoMemory),
    }
}

fn batch_ask(alloc: Global, number: u32, lines: &[u8]) -> Result<BatchAsk, NoMemory> {
    let mut body = text(alloc, b"op,sid,depth,name\n")?;
    for byte in lines {
        body.push(*byte)?;
    }
    Ok(BatchAsk {
        schema: 1,
        curator: text(alloc, b"ann")?,
        number,
        body,
    })
}

/// What becomes of a batch with these lines behind the header.
pub fn send(
    archive: &mut Archive,
    alloc: Global,
    number: u32,
    lines: &[u8],
    now: u64,
) -> Result<Stored, Refused> {
    match batch_ask(alloc, number, lines) {
        Ok(ask) => post(archive, alloc, &ask, now),
        Err(NoMemory) => Err(Refused::NoMemory),
    }
}

/// What becomes of a batch; one that may not be asked for counts as want of memory.
pub fn post(
    archive: &mut Archive,
    alloc: Global,
    ask: &BatchAsk,
    now: u64,
) -> Result<Stored, Refused> {
    if curator_ok(ask.curator.as_slice()) && ask.number >= 1 && ask.body.len() <= 8_388_608 {
        archive.batch(alloc, ask, now)
    } else {
        Err(Refused::NoMemory)
    }
}

/// From a number on, and below another one.
pub fn between(alloc: Global, low: i64, high: i64) -> Result<Cond, NoMemory> {
    let mut conds = List::new(alloc);
    conds.push(Cond::Ge(Value::Int(low)))?;
    conds.push(Cond::Lt(Value::Int(high)))?;
    Ok(Cond::AllOf(conds))
}

/// The columns of these names, labelled with them.
pub fn items(alloc: Global, names: &[&[u8]]) -> Result<List<Asked>, NoMemory> {
    let mut items = List::new(alloc);
    for name in names {
        let column = text(alloc, name)?;
        let label = text(alloc, name)?;
        items.push(Asked { column, label })?;
    }
    Ok(items)
}

/// An order by columns, rising; a `-` before a name makes it fall.
pub fn order(alloc: Global, names: &[&[u8]]) -> Result<List<Along>, NoMemory> {
    let mut order = List::new(alloc);
    for name in names {
        let (down, name) = match name.split_first() {
            Some((b'-', rest)) => (true, rest),
            _ => (false, *name),
        };
        let column = text(alloc, name)?;
        order.push(Along { column, down })?;
    }
    Ok(order)
}

/// What is told of a citation with this title.
pub fn meta(alloc: Global, title: &[u8]) -> Result<Meta, NoMemory> {
    let mut creators = List::new(alloc);
    creators.push(text(alloc, b"Bea")?)?;
    Ok(Meta {
        creators,
        title: text(alloc, title)?,
        description: List::new(alloc),
    })
}

/// A request for the rows that meet a condition on a column.
pub fn cite_ask(
    alloc: Global,
    column: &[u8],
    cond: Cond,
    items: List<Asked>,
    order: List<Along>,
) -> Result<CiteAsk, NoMemory> {
    let mut conds = List::new(alloc);
    let column = text(alloc, column)?;
    conds.push(OnColumn { column, cond })?;
    Ok(CiteAsk {
        query: Query {
            conds,
            items,
            order,
        },
        meta: meta(alloc, b"Some rows")?,
    })
}

/// A request for the rows with a depth from 10 to below 20, by key and depth.
pub fn depths(alloc: Global) -> Result<CiteAsk, NoMemory> {
    let items = items(alloc, &[b"sid", b"depth"])?;
    cite_ask(
        alloc,
        b"depth",
        between(alloc, 10, 20)?,
        items,
        List::new(alloc),
    )
}

/// What becomes of that request.
pub fn cite_depths(archive: &mut Archive, alloc: Global, now: u64) -> Result<Cited, Refused> {
    match depths(alloc) {
        Ok(ask) => archive.cite(alloc, &ask, now),
        Err(NoMemory) => Err(Refused::NoMemory),
    }
}
