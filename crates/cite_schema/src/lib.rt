//! Values, columns, rows, schemas, queries and the parts of a query's form: plain types, their order and their
//! meaning.
//!
//! The crate has no input, no output and no policy. What a stranger must believe of a table, of a query's answer and
//! of the bytes of a result stands in `specs/`, and every other crate cites it from there:
//!
//! - `Values`: the order of values, and the bytes that they print;
//! - `Numbers`: which texts spell a number;
//! - `Headings`: the columns of a schema;
//! - `Conditions`: what a condition says of a value;
//! - `Tables`: the tables of a schema, in key order;
//! - `Answers`: what a query asks of a table, the one answer, the bytes that it gives, and when two queries are alike;
//! - `Layout`: the bytes of a result;
//! - `TableTexts`: which table a header record and the lines under it spell;
//! - `Lines`: what the lines of a batch name and bring;
//! - `Metadata`: which metadata a citation may have;
//! - `Tests`: results that come only after tests, so that an order of refusals reads as a text.
#![tactic(auto)]

mod batch_ask;
mod boxed;
mod condition;
mod dataset;
mod item;
mod laws;
mod line;
mod list;
mod memory;
mod metadata;
mod number;
mod query;
mod row;
mod same;
mod schema;
mod shared;
mod step;
#[cfg(test)]
mod tests;
mod text;
mod value;

pub use batch_ask::BatchAsk;
pub use boxed::Boxed;
pub use condition::Cond;
pub use dataset::{Dataset, Issue};
pub use item::{Dir, Item, Shown};
pub use laws::{
    a_table_text_spells_at_most_one_table, answers_exist_and_are_unique, schemas_are_well_named,
};
pub use line::Line;
pub use list::{ByteText, List};
pub use memory::NoMemory;
pub use metadata::{is_plain, is_plain_within, meta_fault};
pub use number::read_int;
pub use query::{Along, Asked, CiteAsk, Meta, OnColumn, Query};
pub use row::Row;
pub use same::{Same, same_slice};
pub use schema::{Column, Schema, SchemaFault, has_name_form};
pub use shared::Shared;
pub use step::Step;
pub use text::known_bytes;
pub use value::{Kind, Value, compare, print_value};
