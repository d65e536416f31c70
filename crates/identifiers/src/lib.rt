//! The persistent identifiers of a data set and of its citations, DOIs in form: `PREFIX/d1` names the whole data set,
//! `PREFIX/cN` the citation of number N.
//!
//! `mint` and `superset` print them; `read` reads them, bare, behind `doi:` or behind `https://doi.org/`, without regard
//! to the case of ASCII letters, as DOIs are compared. A text names one thing at most, and of what was minted the number
//! is read again (`what_was_minted_is_read`).
#![tactic(auto)]

mod laws;
mod minting;
mod named;
mod prefix;
mod reading;

pub use laws::{a_text_names_one_thing, what_was_minted_is_read};
pub use minting::{mint, superset};
pub use named::Named;
pub use prefix::prefix_ok;
pub use reading::read;

#[cfg(test)]
mod tests;
