// Conditions on a column.
use crate::boxed::Boxed;
use crate::list::{ByteText, List};
use crate::value::Value;

/// A condition on the values of one column, as its author wrote it. A value of the other kind comes before or after
/// all values of the column's kind, as the variants of `Kind` stand.
#[cycle(condition)]
#[derive(Drop)]
pub enum Cond {
    /// Below the value.
    Lt(Value),
    /// Below the value or equal to it.
    Le(Value),
    /// Equal to the value.
    Eq(Value),
    /// Not equal to the value.
    Ne(Value),
    /// Above the value or equal to it.
    Ge(Value),
    /// Above the value.
    Gt(Value),
    /// Equal to one of the values; with no value it holds of none.
    Among(List<Value>),
    /// A text that begins with these bytes.
    Prefix(ByteText),
    /// Each of the conditions holds; with no condition it holds of every value.
    AllOf(List<Cond>),
    /// One of the conditions holds; with no condition it holds of none.
    AnyOf(List<Cond>),
    /// The condition does not hold.
    Not(Boxed<Cond>),
}
