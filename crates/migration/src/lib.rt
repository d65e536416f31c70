//! What the steps of a migration make of a schema, of a row and of a form, and which steps harm no citation.
//!
//! What a step makes of the columns, and the first fault of steps, stands in `specs/Columns.antt`; of a row, value by
//! value, in `specs/Rows.antt`; of a column's set in `specs/Sets.antt`; of a form in `specs/Forms.antt`, as a relation:
//! the carried parts are replaced by the settled form that gives the same bytes. Steps are carried one after the other,
//! and where one makes nothing of a row or a form, nothing is left. Which columns the steps name is found once, by
//! `step_places`, for all rows (`carry_row_at`) and forms (`carry_normal_at`) of a schema. The laws stand in `specs/CarryLaws.antt` and
//! `specs/Harmless.antt`.
#![tactic(auto)]

mod columns;
mod copies;
mod fault;
mod form;
mod harm;
mod laws;
mod named;
mod numbers;
mod parts;
mod places;
mod row;
mod schema;
mod sets;
mod spans;

pub use fault::StepFault;
pub use form::{carry_normal, carry_normal_at};
pub use harm::harmless;
pub use laws::{
    carried_columns_make_schemas, carried_keys_stay, carried_tables_are_tables,
    forms_are_carried_to_one_form, harmless_steps_carry, parts_have_a_form,
    rows_are_carried_at_places, scaled_sets_are_canonical, scaled_sets_are_exact,
};
pub use named::step_places;
pub use row::{carry_row, carry_row_at};
pub use schema::carry_schema;

#[cfg(test)]
mod tests;
