// Copies of what a citation says.
ghost use Rattle.std.specs.Prelude.{◌≡◌, IfOk};

use cite_schema::{
    Along, Asked, Boxed, ByteText, Cond, List, Meta, NoMemory, OnColumn, Query, Value,
};
use std::alloc::Global;

/// A copy of a query. It goes once through the query.
pub fn copy_query(alloc: Global, query: &Query) -> Result<Query, NoMemory>
    ensures { IfOk result (λ copied. copied ≡ query.now) }
{
    let conds = copy_conditions(alloc, query.conds.as_slice())?;
    let items = copy_items(alloc, query.items.as_slice())?;
    let order = copy_order(alloc, query.order.as_slice())?;
    Ok(Query {
        conds,
        items,
        order,
    })
}

/// A copy of metadata. It goes once through the texts.
pub fn copy_meta(alloc: Global, meta: &Meta) -> Result<Meta, NoMemory>
    ensures { IfOk result (λ copied. copied ≡ meta.now) }
{
    let creators = copy_texts(alloc, meta.creators.as_slice())?;
    let title = meta.title.copy()?;
    let description = meta.description.copy()?;
    Ok(Meta {
        creators,
        title,
        description,
    })
}

fn copy_texts(alloc: Global, texts: &[ByteText]) -> Result<List<ByteText>, NoMemory>
    ensures { IfOk result (λ copied. copied ≡ texts.now) }
{
    let mut copied = List::new(alloc);
    for text in texts {
        copied.push(text.copy()?)?;
    }
    Ok(copied)
}

fn copy_items(alloc: Global, items: &[Asked]) -> Result<List<Asked>, NoMemory>
    ensures { IfOk result (λ copied. copied ≡ items.now) }
{
    let mut copied = List::new(alloc);
    for item in items {
        copied.push(copy_item(item)?)?;
    }
    Ok(copied)
}

fn copy_item(item: &Asked) -> Result<Asked, NoMemory>
    ensures { IfOk result (λ copied. copied ≡ item.now) }
{
    let column = item.column.copy()?;
    let label = item.label.copy()?;
    Ok(Asked { column, label })
}

fn copy_order(alloc: Global, order: &[Along]) -> Result<List<Along>, NoMemory>
    ensures { IfOk result (λ copied. copied ≡ order.now) }
{
    let mut copied = List::new(alloc);
    for along in order {
        copied.push(copy_along(along)?)?;
    }
    Ok(copied)
}

fn copy_along(along: &Along) -> Result<Along, NoMemory>
    ensures { IfOk result (λ copied. copied ≡ along.now) }
{
    let column = along.column.copy()?;
    Ok(Along {
        column,
        down: along.down,
    })
}

fn copy_conditions(alloc: Global, conds: &[OnColumn]) -> Result<List<OnColumn>, NoMemory>
    ensures { IfOk result (λ copied. copied ≡ conds.now) }
{
    let mut copied = List::new(alloc);
    for on in conds {
        copied.push(copy_on_column(alloc, on)?)?;
    }
    Ok(copied)
}

fn copy_on_column(alloc: Global, on: &OnColumn) -> Result<OnColumn, NoMemory>
    ensures { IfOk result (λ copied. copied ≡ on.now) }
{
    let column = on.column.copy()?;
    let cond = copy_condition(alloc, &on.cond)?;
    Ok(OnColumn { column, cond })
}

fn copy_values(alloc: Global, values: &[Value]) -> Result<List<Value>, NoMemory>
    ensures { IfOk result (λ copied. copied ≡ values.now) }
{
    let mut copied = List::new(alloc);
    for value in values {
        copied.push(value.copy()?)?;
    }
    Ok(copied)
}

// A copy of a condition. Checked queries are at most 32 deep.
#[cycle(copying)]
fn copy_condition(alloc: Global, cond: &Cond) -> Result<Cond, NoMemory>
    ensures { IfOk result (λ copied. copied ≡ cond.now) }
{
    match cond {
        Cond::Lt(value) => Ok(Cond::Lt(value.copy()?)),
        Cond::Le(value) => Ok(Cond::Le(value.copy()?)),
        Cond::Eq(value) => Ok(Cond::Eq(value.copy()?)),
        Cond::Ne(value) => Ok(Cond::Ne(value.copy()?)),
        Cond::Ge(value) => Ok(Cond::Ge(value.copy()?)),
        Cond::Gt(value) => Ok(Cond::Gt(value.copy()?)),
        Cond::Among(values) => Ok(Cond::Among(copy_values(alloc, values.as_slice())?)),
        Cond::Prefix(prefix) => Ok(Cond::Prefix(prefix.copy()?)),
        Cond::AllOf(conds) => Ok(Cond::AllOf(copy_parts(alloc, conds.as_slice())?)),
        Cond::AnyOf(conds) => Ok(Cond::AnyOf(copy_parts(alloc, conds.as_slice())?)),
        Cond::Not(inner) => {
            let inner = copy_condition(alloc, inner.get())?;
            Ok(Cond::Not(Boxed::new(alloc, inner)?))
        }
    }
}

#[cycle(copying)]
fn copy_parts(alloc: Global, conds: &[Cond]) -> Result<List<Cond>, NoMemory>
    ensures { IfOk result (λ copied. copied ≡ conds.now) }
{
    let mut copied = List::new(alloc);
    for cond in conds {
        let part = copy_condition(alloc, cond)?;
        copied.push(part)?;
    }
    Ok(copied)
}
