//! Sets of values of an order, as lists of half-open intervals in one normal form.
//!
//! A `Set` holds values of a `Point` type: numbers or texts. It is seen as its list of spans, and that list is always
//! canonical: no span is empty, they rise, and none touches the next. So two sets that hold the same values have the
//! same list, for every `Point` (`same_values_same_list`), and a set can be compared, printed and kept by its list.
//! What a call gives is said by `has`, for every value of the type; `specs/Spans.antt` has the words.
#![tactic(auto)]

mod bounds;
mod complement;
mod intersection;
mod laws;
mod merge;
mod number;
mod point;
mod set;
mod text;

pub use laws::same_values_same_list;
pub use point::Point;
pub use set::{Set, Span};
pub use text::prefix_set;

#[cfg(test)]
mod tests;
