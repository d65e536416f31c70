//! What is told of a citation and of the data set, as texts: the citation text and the metadata of DataCite as JSON.
//!
//! A stamp is a number of seconds since 1970-01-01T00:00:00Z, below 253,402,300,800, which is the year 10000. `stamp_text`
//! prints it as `2024-01-01T00:00:00Z`, `year_of` gives its year. `citation_text` is the one line by which a reader cites
//! (RDA R10). `meta_json` and `dataset_json` are the mandatory properties of the DataCite Metadata Schema 4, with Date and
//! RelatedIdentifier, for machines (RDA R12); that this JSON is valid under any version of that schema is not claimed.
//!
//! `specs/Stamps` has the calendar and the text of a stamp, `specs/Metadata` the citation text and the metadata. Each call
//! gives exactly these bytes, or finds no memory.
#![tactic(auto)]

mod citation;
mod laws;
mod metadata;
mod stamp;
mod values;

pub use citation::citation_text;
pub use laws::dates_are_those_of_the_calendar;
pub use metadata::{dataset_json, meta_json};
pub use stamp::{stamp_text, year_of};

#[cfg(test)]
mod tests;
