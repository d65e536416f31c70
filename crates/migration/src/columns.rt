// What a step makes of columns, and the first fault of a step.
ghost use Rattle.std.specs.Prelude.{◌≡◌, ◌≤◌, ◌&&◌, ◌==◌, IfOk, length, is_none, not, nat_lt};
ghost use Rattle.std.specs.Ordering.{is_eq};
ghost use Rattle.cite_schema.specs.Values.{value_cmp, is_value_of, is_number};
ghost use Rattle.cite_schema.specs.Headings.{is_named_before};
ghost use Rattle.cite_schema.specs.Queries.{column_of, index_of};
ghost use Rattle.migration.specs.Columns.{column_named, place_of, columns_after, may_come_in, is_bad, is_unknown, is_of_key, is_int, kind_passes, is_wrong_kind, is_taken, is_too_wide, step_fault};
ghost use Rattle.migration.specs.Places.{changed};

use crate::fault::StepFault;
use crate::places::without;
use cite_schema::{ByteText, Column, Kind, List, NoMemory, Step, Value, has_name_form};

/// The column that a step names, or the name of the one that it adds.
pub fn column_named(step: &Step) -> &ByteText
    ensures { result.now ≡ column_named step.now }
{
    match step {
        Step::Rename { column, .. } => column,
        Step::Add { column, .. } => column,
        Step::DropColumn { column } => column,
        Step::Scale { column, .. } => column,
        Step::Recode { column, .. } => column,
        Step::RetypeToText { column } => column,
    }
}

// The place of the column with a name.
fn column_of(columns: &[Column], name: &ByteText) -> Option<usize>
    ensures { result ≡ column_of columns.now name.now }
{
    columns.iter().position(|column| column.name.as_slice().cmp(name.as_slice()).is_eq())
}

/// The place of the column that a step names. It makes a comparison for each column.
pub fn place_of(columns: &[Column], step: &Step) -> usize
    ensures { result ≡ place_of columns.now step.now }
{
    column_of(columns, column_named(step)).unwrap_or(0)
}

/// The first fault of step n. It takes no memory, and a comparison with each column for each test.
pub fn step_fault(columns: &[Column], n: u16, step: &Step) -> Option<StepFault>
    ensures { result ≡ step_fault columns.now n step.now }
{
    if is_bad(step) {
        return Some(StepFault::BadStep(n));
    }
    if is_unknown(columns, step) {
        return Some(StepFault::UnknownColumn(n));
    }
    if is_of_key(columns, step) {
        return Some(StepFault::KeyColumn(n));
    }
    if is_wrong_kind(columns, step) {
        return Some(StepFault::WrongKind(n));
    }
    if is_taken(columns, step) {
        return Some(StepFault::NameTaken(n));
    }
    if is_too_wide(columns, step) {
        return Some(StepFault::TooManyColumns(n));
    }
    None
}

// Whether the step could be done to no schema.
fn is_bad(step: &Step) -> bool
    ensures { result ≡ is_bad step.now }
{
    match step {
        Step::Rename { to, .. } => !has_name_form(to.as_slice()),
        Step::Add { column, value } => !(has_name_form(column.as_slice()) && may_come_in(value)),
        Step::Scale { by, .. } => *by < 1,
        Step::Recode { old, new, .. } => {
            is_same(old, new) || !(may_come_in(old) && may_come_in(new))
        }
        Step::DropColumn { .. } | Step::RetypeToText { .. } => false,
    }
}

// Whether the value may come in from outside: a number, or a text of at most 65,535 bytes.
fn may_come_in(value: &Value) -> bool
    ensures { result ≡ may_come_in value.now }
{
    match value {
        Value::Int(number) => is_any_number(*number),
        Value::Text(text) => text.bytes().len() <= 65_535,
    }
}

// Each number of the type is one that a cell may hold.
fn is_any_number(number: i64) -> bool
    ensures { result ≡ is_number number }
{
    number <= i64::MAX
}

/// Whether the two are one value.
pub fn is_same(a: &Value, b: &Value) -> bool
    ensures { result ≡ is_eq (value_cmp a.now b.now) }
{
    match (a, b) {
        (Value::Int(a), Value::Int(b)) => a.cmp(b).is_eq(),
        (Value::Text(a), Value::Text(b)) => a.as_slice().cmp(b.as_slice()).is_eq(),
        _ => false,
    }
}

// Whether no column has the name that has to be there.
fn is_unknown(columns: &[Column], step: &Step) -> bool
    ensures { result ≡ is_unknown columns.now step.now }
{
    match step {
        Step::Add { .. } => false,
        _ => column_of(columns, column_named(step)).is_none(),
    }
}

// Whether the key would become something else.
fn is_of_key(columns: &[Column], step: &Step) -> bool
    ensures { result ≡ is_of_key columns.now step.now }
{
    match step {
        Step::Add { .. } | Step::Rename { .. } => false,
        _ => place_of(columns, step) == 0,
    }
}

// Whether the step asks for a column of the other kind.
fn is_wrong_kind(columns: &[Column], step: &Step) -> bool
    ensures { result ≡ is_wrong_kind columns.now step.now }
{
    match step {
        Step::Scale { .. } | Step::RetypeToText { .. } => !holds_numbers(columns, step),
        Step::Recode { old, new, .. } => !holds_both(columns, step, old, new),
        Step::Rename { .. } | Step::Add { .. } | Step::DropColumn { .. } => false,
    }
}

// Whether the column that the step names is one of numbers.
fn holds_numbers(columns: &[Column], step: &Step) -> bool
    ensures { result ≡ kind_passes columns.now step.now is_int }
{
    match columns.get(place_of(columns, step)) {
        Some(column) => column.kind == Kind::Int,
        None => false,
    }
}

// Whether the column that the step names may hold both values.
fn holds_both(columns: &[Column], step: &Step, old: &Value, new: &Value) -> bool
    ensures { result ≡ kind_passes columns.now step.now (λ kind. is_value_of kind old.now && is_value_of kind new.now) }
{
    match columns.get(place_of(columns, step)) {
        Some(column) => is_of_kind(column.kind, old) && is_of_kind(column.kind, new),
        None => false,
    }
}

// Whether a column of the kind may hold the value.
fn is_of_kind(kind: Kind, value: &Value) -> bool
    ensures { result ≡ is_value_of kind value.now }
{
    match (kind, value) {
        (Kind::Int, Value::Int(number)) => is_any_number(*number),
        (Kind::Text, Value::Text(text)) => text.bytes().len() <= usize::MAX,
        _ => false,
    }
}

// Whether a column has the name that would be new.
fn is_taken(columns: &[Column], step: &Step) -> bool
    ensures { result ≡ is_taken columns.now step.now }
{
    match step {
        Step::Rename { to, .. } => has_name(columns, to),
        Step::Add { column, .. } => has_name(columns, column),
        _ => false,
    }
}

fn has_name(columns: &[Column], name: &ByteText) -> bool
    ensures { result ≡ is_named_before columns.now name.now }
{
    columns.iter().any(|column| column.name.as_slice().cmp(name.as_slice()).is_eq())
}

// Whether there would be over 64 columns.
fn is_too_wide(columns: &[Column], step: &Step) -> bool
    ensures { result ≡ is_too_wide columns.now step.now }
{
    match step {
        Step::Add { .. } => columns.len() >= 64,
        _ => false,
    }
}

/// The columns after a step. A name or a column is put in or taken out; the others are moved.
pub fn columns_after(columns: List<Column>, step: &Step) -> Result<List<Column>, NoMemory>
    ensures { IfOk result (λ after. after ≡ columns_after columns step.now) }
{
    let place = place_of(columns.as_slice(), step);
    match step {
        Step::Rename { to, .. } => {
            let name = to.copy()?;
            Ok(renamed(place, name, columns))
        }
        Step::Add { column, value } => {
            let name = column.copy()?;
            let kind = value.kind();
            let mut columns = columns;
            columns.push(Column { name, kind })?;
            Ok(columns)
        }
        Step::DropColumn { .. } => Ok(without(place, columns)),
        Step::RetypeToText { .. } => Ok(retyped(place, columns)),
        Step::Recode { .. } => Ok(columns),
        Step::Scale { .. } => Ok(columns),
    }
}

// The columns, with another name for the one at a place.
fn renamed(place: usize, name: ByteText, columns: List<Column>) -> List<Column>
    ensures { result ≡ changed (λ column. record column { name = name }) place columns }
{
    let mut columns = columns.into_vec();
    if place >= columns.len() {
        return List::from_vec(columns);
    }
    let kind = columns[place].kind;
    columns[place] = Column { name, kind };
    List::from_vec(columns)
}

// The columns, with the one at a place holding texts.
fn retyped(place: usize, columns: List<Column>) -> List<Column>
    ensures { result ≡ changed (λ column. record column { kind = Kind.Text }) place columns }
{
    let mut columns = columns.into_vec();
    if place >= columns.len() {
        return List::from_vec(columns);
    }
    columns[place].kind = Kind::Text;
    List::from_vec(columns)
}
