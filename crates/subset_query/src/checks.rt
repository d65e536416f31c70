// Which queries may be asked of a schema.
ghost use Rattle.std.specs.Prelude.{◌≡◌, ◌<◌, ◌≤◌, IfErr, IfSome, OnOk, Some, None, false, is_none, length, List as Listed, ℕ, nat_lt, not};
ghost use Rattle.std.specs.List.{list_all, list_any, position, sum_by};
ghost use Rattle.std.specs.Option.{option_map};
ghost use Rattle.std.specs.Ordering.{is_eq};
ghost use Rattle.cite_schema.specs.Values.{text_cmp};
ghost use Rattle.cite_schema.specs.Tables.{is_short};
ghost use Rattle.cite_schema.specs.Queries.{column_of};
ghost use Rattle.subset_query.specs.Checks.{nodes_of, depth_of, all_pass, has_too_many_parts, has_long_text, names_twice, unknown_in, kind_named, is_wrong_kind, first_of, size_faults, column_faults, query_fault};
ghost use Rattle.subset_query.specs.Walks.{left_of, passes};

use cite_schema::{Along, Asked, ByteText, Column, Cond, Kind, OnColumn, Query, Schema, Value};

/// Why a query may not be asked of a schema. Places are counted from 0.
#[derive(Clone, Copy, Debug, PartialEq, Eq)]
pub enum QueryFault {
    /// There is no item.
    NoItems,
    /// There are over 128 items, over 128 order columns, or over 64 conditions.
    TooManyParts,
    /// The conditions have over 1,024 nodes: each condition, those inside others included, and each member of an
    /// `Among` is one.
    TooManyNodes,
    /// A condition is deeper than 32.
    TooDeep,
    /// A value's text, a prefix or a label has over 65,535 bytes.
    TextTooLong,
    /// Two conditions name one column.
    ConditionTwice,
    /// A name isn't in the schema: of a condition (part 1), an item (part 2) or an order column (part 3), at this place
    /// of the part.
    UnknownColumn { part: u8, place: u16 },
    /// The condition at this place holds a value of another kind than its column's, or asks for a prefix of numbers.
    WrongKind { place: u16 },
}

/// Whether the query may be asked of the schema. The faults are tested in their order and the first one is told, of
/// conditions, items and order columns the one at the first place. It takes no memory. The walks over conditions end at
/// the first node over the limit, and later at the first level over the limit, so the stack stays small whatever the
/// query. The time is linear in the query, but for names: 64 conditions and 256 other names are looked for among at
/// most 64 columns.
pub fn check(schema: &Schema, query: &Query) -> Result<(), QueryFault>
    ensures ok { OnOk result (query_fault schema.now.columns query.now ≡ None) }
    ensures fault { IfErr result (λ fault. query_fault schema.now.columns query.now ≡ Some fault) }
{
    if let Some(fault) = size_fault(query) {
        return Err(fault);
    }
    match column_fault(schema.columns().as_slice(), query) {
        Some(fault) => Err(fault),
        None => Ok(()),
    }
}

// The first fault of the query's sizes.
fn size_fault(query: &Query) -> Option<QueryFault>
    ensures { result ≡ first_of (size_faults query.now) }
{
    if query.items.is_empty() {
        return Some(QueryFault::NoItems);
    }
    if has_too_many_parts(query) {
        return Some(QueryFault::TooManyParts);
    }
    if has_too_many_nodes(query.conds.as_slice()) {
        return Some(QueryFault::TooManyNodes);
    }
    if has_too_deep(query.conds.as_slice()) {
        return Some(QueryFault::TooDeep);
    }
    if has_long_text(query) {
        return Some(QueryFault::TextTooLong);
    }
    None
}

fn has_too_many_parts(query: &Query) -> bool
    ensures { result ≡ has_too_many_parts query.now }
{
    query.items.len() > 128 || query.order.len() > 128 || query.conds.len() > 64
}

fn has_too_many_nodes(conds: &[OnColumn]) -> bool
    ensures { result ≡ nat_lt 1024 (sum_by (λ o. nodes_of o.cond) conds.now) }
{
    nodes_left_by_parts(conds, 1_024).is_none()
}

fn has_too_deep(conds: &[OnColumn]) -> bool
    ensures { result ≡ list_any (λ o. nat_lt 32 (depth_of o.cond)) conds.now }
{
    conds.iter().any(|on| is_deeper(&on.cond, 32))
}

fn has_long_text(query: &Query) -> bool
    ensures { result ≡ has_long_text query.now }
{
    has_long_value(query.conds.as_slice()) || has_long_label(query.items.as_slice())
}

fn has_long_value(conds: &[OnColumn]) -> bool
    ensures { result ≡ list_any (λ o. not (all_pass is_short o.cond)) conds.now }
{
    conds
        .iter()
        .any(|on| !all_values_pass(ValueRule::Short, &on.cond))
}

fn has_long_label(items: &[Asked]) -> bool
    ensures { result ≡ list_any (λ a. nat_lt 65535 (length a.label)) items.now }
{
    items.iter().any(|item| item.label.len() > 65_535)
}

// The first fault of the query's names and kinds.
fn column_fault(columns: &[Column], query: &Query) -> Option<QueryFault>
    requires { has_too_many_parts query.now ≡ false }
    ensures { result ≡ first_of (column_faults columns.now query.now) }
{
    let conds = query.conds.as_slice();
    if names_twice(conds) {
        return Some(QueryFault::ConditionTwice);
    }
    if let Some(fault) = unknown_in(columns, 1, conds) {
        return Some(fault);
    }
    if let Some(fault) = unknown_in(columns, 2, query.items.as_slice()) {
        return Some(fault);
    }
    if let Some(fault) = unknown_in(columns, 3, query.order.as_slice()) {
        return Some(fault);
    }
    wrong_kind_in(columns, conds)
}

fn names_twice(conds: &[OnColumn]) -> bool
    ensures { result ≡ names_twice conds.now }
{
    for i in 0..conds.len() {
        if names_column(&conds[i + 1..], &conds[i].column) {
            return true;
        }
    }
    false
}

fn names_column(conds: &[OnColumn], name: &ByteText) -> bool
    ensures { result ≡ list_any (λ p. is_eq (text_cmp name.now p.column)) conds.now }
{
    conds
        .iter()
        .any(|on| name.as_slice().cmp(on.column.as_slice()).is_eq())
}

// A part of a query that names a column.
trait NamesColumn {
    ghost name: { Self → Listed ℕ };

    fn column(&self) -> &ByteText
        ensures { result.now ≡ name self.now };
}

impl NamesColumn for OnColumn {
    ghost name = { λ o. o.column };

    fn column(&self) -> &ByteText {
        &self.column
    }
}

impl NamesColumn for Asked {
    ghost name = { λ a. a.column };

    fn column(&self) -> &ByteText {
        &self.column
    }
}

impl NamesColumn for Along {
    ghost name = { λ a. a.column };

    fn column(&self) -> &ByteText {
        &self.column
    }
}

// The fault of the first part whose name no column has.
fn unknown_in<N: NamesColumn>(columns: &[Column], part: u8, parts: &[N]) -> Option<QueryFault>
    requires { length parts.now ≤ 128 }
    ensures { result ≡ unknown_in columns.now part N.name parts.now }
{
    match first_unknown(columns, parts) {
        Some(place) => Some(QueryFault::UnknownColumn {
            part,
            place: place as u16,
        }),
        None => None,
    }
}

fn first_unknown<N: NamesColumn>(columns: &[Column], parts: &[N]) -> Option<usize>
    ensures place { result ≡ position (λ x. is_none (column_of columns.now (N.name x))) parts.now }
    ensures within { IfSome result (λ i. i < length parts.now) }
{
    parts
        .iter()
        .position(|part| place_of(columns, part.column()).is_none())
}

// The fault of the first condition of another kind than its column.
fn wrong_kind_in(columns: &[Column], conds: &[OnColumn]) -> Option<QueryFault>
    requires { length conds.now ≤ 64 }
    ensures { result ≡ option_map (λ i. QueryFault.WrongKind i) (position (λ o. is_wrong_kind columns.now o) conds.now) }
{
    match first_of_wrong_kind(columns, conds) {
        Some(place) => Some(QueryFault::WrongKind {
            place: place as u16,
        }),
        None => None,
    }
}

fn first_of_wrong_kind(columns: &[Column], conds: &[OnColumn]) -> Option<usize>
    ensures place { result ≡ position (λ o. is_wrong_kind columns.now o) conds.now }
    ensures within { IfSome result (λ i. i < length conds.now) }
{
    conds.iter().position(|on| is_wrong_kind(columns, on))
}

/// The place of the column with a name, counted from 0.
pub fn place_of(columns: &[Column], name: &ByteText) -> Option<usize>
    ensures { result ≡ column_of columns.now name.now }
{
    columns.iter().position(|column| column.name.as_slice().cmp(name.as_slice()).is_eq())
}

fn kind_named(columns: &[Column], name: &ByteText) -> Option<Kind>
    ensures { result ≡ kind_named columns.now name.now }
{
    let place = place_of(columns, name)?;
    match columns.get(place) {
        Some(column) => Some(column.kind),
        None => None,
    }
}

fn is_wrong_kind(columns: &[Column], on: &OnColumn) -> bool
    ensures { result ≡ is_wrong_kind columns.now on.now }
{
    match kind_named(columns, &on.column) {
        Some(kind) => !all_values_pass(ValueRule::OfKind(kind), &on.cond),
        None => false,
    }
}

// What is left of a budget of nodes after those of a condition, or `None` where it has more. The walk ends at the first
// node over the budget, and so goes no deeper than the budget, whatever the condition's depth.
#[cycle(nodes)]
fn nodes_left(cond: &Cond, budget: usize) -> Option<usize>
    ensures { result ≡ left_of budget (nodes_of cond.now) }
{
    let left = budget.checked_sub(1)?;
    match cond {
        Cond::Among(values) => left.checked_sub(values.len()),
        Cond::AllOf(conds) => nodes_left_by_all(conds.as_slice(), left),
        Cond::AnyOf(conds) => nodes_left_by_all(conds.as_slice(), left),
        Cond::Not(inner) => nodes_left(inner.get(), left),
        Cond::Lt(_) | Cond::Le(_) | Cond::Eq(_) => Some(left),
        Cond::Ne(_) | Cond::Ge(_) | Cond::Gt(_) | Cond::Prefix(_) => Some(left),
    }
}

#[cycle(nodes)]
fn nodes_left_by_all(conds: &[Cond], budget: usize) -> Option<usize>
    ensures { result ≡ left_of budget (sum_by nodes_of conds.now) }
{
    let mut left = budget;
    for cond in conds {
        left = nodes_left(cond, left)?;
    }
    Some(left)
}

fn nodes_left_by_parts(conds: &[OnColumn], budget: usize) -> Option<usize>
    ensures { result ≡ left_of budget (sum_by (λ o. nodes_of o.cond) conds.now) }
{
    let mut left = budget;
    for on in conds {
        left = nodes_left(&on.cond, left)?;
    }
    Some(left)
}

// Whether a condition is deeper than a limit. The walk ends at the first level below the limit.
#[cycle(depth)]
fn is_deeper(cond: &Cond, limit: usize) -> bool
    ensures { result ≡ nat_lt limit (depth_of cond.now) }
{
    if limit == 0 {
        return true;
    }
    match cond {
        Cond::AllOf(conds) => any_deeper(conds.as_slice(), limit - 1),
        Cond::AnyOf(conds) => any_deeper(conds.as_slice(), limit - 1),
        Cond::Not(inner) => is_deeper(inner.get(), limit - 1),
        Cond::Lt(_) | Cond::Le(_) | Cond::Eq(_) | Cond::Ne(_) => false,
        Cond::Ge(_) | Cond::Gt(_) | Cond::Among(_) | Cond::Prefix(_) => false,
    }
}

#[cycle(depth)]
fn any_deeper(conds: &[Cond], limit: usize) -> bool
    ensures { result ≡ list_any (λ c. nat_lt limit (depth_of c)) conds.now }
{
    for cond in conds {
        if is_deeper(cond, limit) {
            return true;
        }
    }
    false
}

// What each value in a condition is tested for.
#[derive(Clone, Copy)]
enum ValueRule {
    // A text of at most 65,535 bytes, or any number.
    Short,
    // A value of the kind.
    OfKind(Kind),
}

fn number_passes(rule: ValueRule, number: i64) -> bool
    ensures { result ≡ passes rule (Value.Int number) }
{
    match rule {
        ValueRule::Short => number <= i64::MAX,
        ValueRule::OfKind(kind) => kind == Kind::Int,
    }
}

fn text_passes(rule: ValueRule, text: &ByteText) -> bool
    ensures { result ≡ passes rule (Value.Text text.now) }
{
    match rule {
        ValueRule::Short => text.len() <= 65_535,
        ValueRule::OfKind(kind) => kind == Kind::Text,
    }
}

fn value_passes(rule: ValueRule, value: &Value) -> bool
    ensures { result ≡ passes rule value.now }
{
    match value {
        Value::Int(number) => number_passes(rule, *number),
        Value::Text(text) => text_passes(rule, text),
    }
}

fn values_pass(rule: ValueRule, values: &[Value]) -> bool
    ensures { result ≡ list_all (λ v. passes rule v) values.now }
{
    values.iter().all(|value| value_passes(rule, value))
}

// Whether each value in a condition passes the rule; a prefix counts as a text.
#[cycle(values)]
fn all_values_pass(rule: ValueRule, cond: &Cond) -> bool
    ensures { result ≡ all_pass (λ v. passes rule v) cond.now }
{
    match cond {
        Cond::Lt(value) | Cond::Le(value) | Cond::Eq(value) => value_passes(rule, value),
        Cond::Ne(value) | Cond::Ge(value) | Cond::Gt(value) => value_passes(rule, value),
        Cond::Among(values) => values_pass(rule, values.as_slice()),
        Cond::Prefix(prefix) => text_passes(rule, prefix),
        Cond::AllOf(conds) => all_pass_in(rule, conds.as_slice()),
        Cond::AnyOf(conds) => all_pass_in(rule, conds.as_slice()),
        Cond::Not(inner) => all_values_pass(rule, inner.get()),
    }
}

#[cycle(values)]
fn all_pass_in(rule: ValueRule, conds: &[Cond]) -> bool
    ensures { result ≡ list_all (λ c. all_pass (λ v. passes rule v) c) conds.now }
{
    for cond in conds {
        if !all_values_pass(rule, cond) {
            return false;
        }
    }
    true
}

#[cfg(test)]
mod tests;
