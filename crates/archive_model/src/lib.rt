//! The archive of whole past tables: what a call does to it, which histories are legal, and what is always so.
//!
//! Nothing here runs. The archive that is promised keeps every past table whole, in the schema that it had, compares
//! queries by all tables, and remembers the bytes of every citation. `archive_core` keeps much less and answers the
//! same; its clauses cite these definitions:
//!
//! - `Archives`: versions, citations, and the table of a version in the present schema;
//! - `Limits`: what is counted, and how much of each there may be;
//! - `Outcomes`: the reply of a call, the entry that it makes, and the archive afterwards;
//! - `Batching`, `Citing`, `Migrating`: what each call does, its refusals in their order;
//! - `Histories`: legal histories, and the archive to which one leads;
//! - `Agreeing`: when kept rows agree with an archive;
//! - `ArchiveLaws`, `OutcomeLaws`, `AgreeingLaws`: what is proved of all this.
#![tactic(auto)]

mod answers;
mod laws;

pub use answers::{Cited, FoundFault, Moved, Refused, Stored};
pub use laws::{
    a_history_leads_to_one_archive, bodies_spell_good_lines, citations_differ_before_migrations,
    citations_have_an_outcome, citations_resolve, counts_keep_their_limits,
    executing_again_gives_the_bytes, harmless_migrations_harm_none, histories_grow_by_entries,
    migrations_have_an_outcome, rows_stay_in_step, steps_have_one_outcome,
};
