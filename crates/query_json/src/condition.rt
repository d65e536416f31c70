// Conditions.
ghost use Rattle.std.specs.Prelude.{◌≡◌, IfOk};
ghost use Rattle.serde_json.specs.View.{view, members_view};
ghost use Rattle.query_json.specs.Values.{list_of};
ghost use Rattle.query_json.specs.Conditions.{condition_of, condition_in, applied};

use crate::members::only_member;
use crate::operator::{Operator, read_operator};
use crate::value::{read_text, read_value, read_values};
use cite_schema::{Boxed, Cond, List, NoMemory};
use serde_json::{Map, Value as Json};
use std::alloc::Global;

/// A condition; `Ok(None)` where the value is none. It calls itself as deep as the conditions nest, which is less than
/// 127, the bound of the JSON text.
#[cycle(reading)]
pub(crate) fn read_condition(alloc: Global, value: &Json) -> Result<Option<Cond>, NoMemory>
    ensures { IfOk result (λ read. read ≡ condition_of (view value.now)) }
{
    match value {
        Json::Object(members) => read_member(alloc, members),
        _ => Ok(None),
    }
}

#[cycle(reading)]
fn read_member(alloc: Global, members: &Map<String, Json>) -> Result<Option<Cond>, NoMemory>
    ensures { IfOk result (λ read. read ≡ condition_in (members_view members.now.entries)) }
{
    let Some((name, operand)) = only_member(members) else {
        return Ok(None);
    };
    let Some(operator) = read_operator(name.as_str()) else {
        return Ok(None);
    };
    read_operand(alloc, operator, operand)
}

#[cycle(reading)]
fn read_operand(alloc: Global, operator: Operator, operand: &Json) -> Result<Option<Cond>, NoMemory>
    ensures { IfOk result (λ read. read ≡ applied operator (view operand.now)
        (condition_of (view operand.now)) (list_of condition_of (view operand.now))) }
{
    match operator {
        Operator::Lt => Ok(read_value(alloc, operand)?.map(Cond::Lt)),
        Operator::Le => Ok(read_value(alloc, operand)?.map(Cond::Le)),
        Operator::Eq => Ok(read_value(alloc, operand)?.map(Cond::Eq)),
        Operator::Ne => Ok(read_value(alloc, operand)?.map(Cond::Ne)),
        Operator::Ge => Ok(read_value(alloc, operand)?.map(Cond::Ge)),
        Operator::Gt => Ok(read_value(alloc, operand)?.map(Cond::Gt)),
        Operator::Among => Ok(read_values(alloc, operand)?.map(Cond::Among)),
        Operator::Prefix => Ok(read_text(alloc, operand)?.map(Cond::Prefix)),
        Operator::AllOf => Ok(read_conditions(alloc, operand)?.map(Cond::AllOf)),
        Operator::AnyOf => Ok(read_conditions(alloc, operand)?.map(Cond::AnyOf)),
        Operator::Not => match read_condition(alloc, operand)? {
            Some(inner) => Ok(Some(Cond::Not(Boxed::new(alloc, inner)?))),
            None => Ok(None),
        },
    }
}

#[cycle(reading)]
fn read_conditions(alloc: Global, value: &Json) -> Result<Option<List<Cond>>, NoMemory>
    ensures { IfOk result (λ read. read ≡ list_of condition_of (view value.now)) }
{
    let Json::Array(items) = value else {
        return Ok(None);
    };
    let mut conditions = List::new(alloc);
    for item in items {
        let Some(read) = read_condition(alloc, item)? else {
            return Ok(None);
        };
        conditions.push(read)?;
    }
    Ok(Some(conditions))
}
