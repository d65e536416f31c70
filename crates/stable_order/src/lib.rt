//! Rows arranged by columns, each up or down, and then by column 0.
//!
//! `arrange` gives the one rearrangement of rows in which of each two neighbours the first comes before the second.
//! Since no two rows are equal in column 0, there is only one (`one_arrangement`): how the rows stood before leaves no
//! trace in it. It works on whatever is `Keyed`, and rows of tables are.
#![tactic(auto)]

mod arrangement;
mod keyed;
mod laws;
mod row;

pub use arrangement::arrange;
pub use keyed::Keyed;
pub use laws::{one_arrangement, rows_stand_as_in_answers};
pub use row::compare_cells;

#[cfg(test)]
mod tests;
