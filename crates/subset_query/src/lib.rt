//! Queries and their one normal form.
//!
//! Two queries have one normal form exactly where they give the same bytes on every table of the schema. So a normal
//! form names what a query asks for, however it was written, and a citation of it can be found again (RDA R4).
//!
//! - `check` tells which queries may be asked of a schema, and the first fault of one that may not;
//! - `normal` gives the normal form of such a query, and `settle_form` and `settle_parts` that of loose parts;
//! - `Normal::same` tells normal forms apart, exactly where some table tells them apart;
//! - `Normal::picks`, `rows` and `heads` give what a form picks of a table, and `print` gives its one spelling.
//!
//! What a form asks of a table, and which forms are settled, stands in `specs/Forms.antt`; the laws stand in
//! `specs/FormLaws.antt`, the faults of queries in `specs/Checks.antt`, and the bytes of a printed form in
//! `specs/Printed.antt`.
#![tactic(auto)]

mod checks;
mod choose;
mod column_set;
mod fixed;
mod form;
mod kind_point;
mod laws;
mod normal_form;
#[cfg(test)]
mod notation;
mod order;
mod print;
mod same;
mod settle;

pub use checks::{QueryFault, check};
pub use form::{ColumnSet, Normal};
pub use laws::{
    prints_tell_forms_apart, queries_have_a_form, queries_have_one_form,
    settled_forms_are_canonical,
};
pub use normal_form::normal;
pub use settle::{settle_form, settle_parts};

#[cfg(test)]
mod tests;
