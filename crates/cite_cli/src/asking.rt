// The query that a `select` asks, and its normal form.
ghost use Rattle.std.specs.Prelude.{◌≡◌, IfOk, IfErr, OnOk, None, map};
ghost use Rattle.cite_schema.specs.Answers.{Alike};
ghost use Rattle.cite_schema.specs.Queries.{asked};
ghost use Rattle.subset_query.specs.Checks.{kind_named};
ghost use Rattle.subset_query.specs.Forms.{formed, IsSettled};
ghost use Rattle.cite_cli.specs.Select.{select_query};
ghost use Rattle.cite_cli.specs.Refusals.{column_fault};
ghost use Rattle.cite_cli.specs.Parts.{Tells};

use crate::bounds::Bounds;
use crate::refusal::{Fault, Refusal};
use cite_schema::{Asked, ByteText, Column, Cond, List, NoMemory, OnColumn, Query, Schema, Value};
use std::alloc::Global;
use subset_query::{Normal, QueryFault, check, normal};

/// The normal form of the query of `select` over the columns of a schema.
///
/// # Errors
///
/// The refusal of the column: `UnknownColumn` where the schema has none of the name, `WrongKind` where it is one of
/// texts.
pub fn select_form(
    alloc: Global,
    schema: &Schema,
    column: &[u8],
    bounds: &Bounds,
) -> Result<Normal, Fault>
    ensures good { OnOk result (column_fault schema.now.columns column.now ≡ None) }
    ensures settled { IfOk result (λ form. IsSettled schema.now.columns form) }
    ensures alike { IfOk result (λ form. Alike schema.now.columns (asked schema.now.columns (select_query schema.now.columns column.now bounds.now)) (formed form)) }
    ensures why { IfErr result (λ fault. Tells (column_fault schema.now.columns column.now) fault) }
{
    let query = select_query(alloc, schema.columns().as_slice(), column, bounds)?;
    match check(schema, &query) {
        Ok(()) => Ok(normal(alloc, schema, &query)?),
        Err(fault) => match fault {
            QueryFault::UnknownColumn { .. } => Err(Fault::Refused(Refusal::UnknownColumn)),
            QueryFault::WrongKind { .. } => Err(Fault::Refused(Refusal::WrongKind)),
            _ => unreachable!(),
        },
    }
}

fn select_query(
    alloc: Global,
    columns: &[Column],
    column: &[u8],
    bounds: &Bounds,
) -> Result<Query, NoMemory>
    ensures { IfOk result (λ query. query ≡ select_query columns.now column.now bounds.now) }
{
    let mut conds = List::new(alloc);
    conds.push(OnColumn {
        column: ByteText::from_slice(alloc, column)?,
        cond: condition(alloc, bounds)?,
    })?;
    Ok(Query {
        conds,
        items: all_columns(alloc, columns)?,
        order: List::new(alloc),
    })
}

ghost use Rattle.cite_cli.specs.Select.{within};

// From `low` on, and below `high` where there is one.
fn condition(alloc: Global, bounds: &Bounds) -> Result<Cond, NoMemory>
    ensures { IfOk result (λ cond. cond ≡ within bounds.now) }
{
    let from_low = Cond::Ge(Value::Int(bounds.low));
    let Some(high) = bounds.high else {
        return Ok(from_low);
    };
    let mut both = List::new(alloc);
    both.push(from_low)?;
    both.push(Cond::Lt(Value::Int(high)))?;
    Ok(Cond::AllOf(both))
}

// Each column, under its name.
fn all_columns(alloc: Global, columns: &[Column]) -> Result<List<Asked>, NoMemory>
    ensures { IfOk result (λ items. items ≡ map (λ c. record { column = c.name; label = c.name }) columns.now) }
{
    let mut items = List::new(alloc);
    for column in columns {
        items.push(Asked {
            column: column.name.copy()?,
            label: column.name.copy()?,
        })?;
    }
    Ok(items)
}
