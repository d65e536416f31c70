//! Requests from JSON bodies.
//!
//! [`read_cite`] reads the body of a citation request, and [`read_steps`] that of a migration. The text is read once, by
//! `serde_json`, and the value is walked once. What the body spells is a definition on what `serde_json` reads the text as, and the answer is exactly that:
//!
//! - `specs/Values` and `specs/Objects`: values of cells, lists, and the members of objects;
//! - `specs/Operators` and `specs/Conditions`: conditions;
//! - `specs/Queries`: `where`, `items`, `order` and the query, with the faults by place;
//! - `specs/Requests`: the whole request, and `request_in`, what a body spells;
//! - `specs/Steps`: the steps of a migration, and `steps_in`, what a body spells.
//!
//! Whether the query fits a schema, and whether the metadata keep their bounds, is no question here.
#![tactic(auto)]

mod condition;
mod fault;
mod members;
mod operator;
mod query;
mod request;
#[cfg(test)]
mod step_tests;
mod step_word;
mod steps;
#[cfg(test)]
mod tests;
mod value;

pub use fault::JsonFault;
pub use request::read_cite;
pub use steps::read_steps;
