// The plan of a citation.
ghost use Rattle.std.specs.Prelude.{◌≡◌, ◌↔◌, ◌+◌, ◌<◌, ◌≤◌, ◌^◌, IsTrue, List as Listed, IfOk, length};
ghost use Rattle.std.specs.Arc.{arc_value};
ghost use Rattle.sha2.specs.Sha256.{sha256};
ghost use Rattle.entry_codec.specs.declared.entry.Entry.{Entry as Told};
ghost use Rattle.entry_codec.specs.declared.entry.Entry.TheVariants as entries;
ghost use Rattle.subset_query.specs.Forms.{formed, IsSettled};
ghost use Rattle.subset_query.specs.Printed.{printed_form};
ghost use Rattle.cite_schema.specs.Answers.{Gives};
ghost use Rattle.versioned_rows.specs.Histories.{last_table};
ghost use Rattle.archive_model.specs.Archives.{Archive};
ghost use Rattle.archive_model.specs.Citing.{CiteStep};
ghost use Rattle.archive_state.specs.Standing.{Stands, StandsFor, IsSeen, Shows, AgreeParts, PartsStand};
ghost use Rattle.archive_model.specs.Histories.{LeadsTo};
ghost use Rattle.archive_state.specs.Planning.{Plans};
ghost use Rattle.archive_state.specs.Citations.{IsFormOf, TellsForm, TellsBytes, TellsFirst, Gave, Judges, citation_for, PlansCitation};
ghost use Rattle.entry_codec.specs.Spellable.{IsPrintable};

use crate::executing::execute;
use crate::limits::{CLOCK_END, PAYLOAD, passed_by_citation};
use crate::plan::{Made, Planned};
use crate::present::Present;
use crate::snapshot::{LookFault, Snapshot};
use archive_model::{Cited, Refused};
use cite_schema::{ByteText, CiteAsk, Issue, List, NoMemory, Schema, meta_fault};
use entry_codec::{CiteEntry, Entry, entry_length, known_entry, print_entry};
use query_store::{Citation, Store, copy_meta, copy_query};
use result_bytes::{LayFault, fingerprint};
use std::alloc::Global;
use subset_query::{Normal, check, normal};
use versioned_rows::Rows;

impl Present {
    /// What a request for a citation does at a moment, in seconds since 1970: the number of the first citation that gave
    /// the same bytes and, on every table, gives what the request's query gives; or a number of its own; or the first
    /// refusal of `Query`, `BadMeta`, `ResultTooLarge`, `EntryTooLarge`, `Full` with 3 and 5, and `ClockRange`, of which
    /// the first three come before a number that was given before, and the others behind it. It is what the archive of
    /// every history does for which this stands.
    ///
    /// It executes the query once, on the last table, and once for each citation with its form and its fingerprint, on
    /// the table of that citation's version, up to the first one that gave the same bytes (RDA R4, R6).
    ///
    /// # Errors
    /// The refusals named, and `NoMemory`; want of memory is told too where an entry has more bytes than a `u64` counts.
    pub fn plan_cite(
        &self,
        alloc: Global,
        ask: &CiteAsk,
        now: u64,
    ) -> Result<Planned<Cited>, Refused>
        requires { Stands self.now }
        ensures { (history : Listed Told) (a : Archive) → StandsFor self.now history a → Plans (CiteStep a ask.now now) history a result }
    {
        let seen = self.seen();
        let form = form_of(alloc, seen.schema(), ask)?;
        let bytes = bytes_of(alloc, seen.table(), &form)?;
        match first_with(alloc, seen, &form, bytes.as_slice()) {
            Err(NoMemory) => Err(Refused::NoMemory),
            Ok(Some(number)) => Ok(Planned::Repeat(Cited { number, new: false })),
            Ok(None) => {
                let made = self.new_citation(alloc, ask, form, bytes.as_slice(), now)?;
                Ok(Planned::New(made))
            }
        }
    }

    // What a request does that no citation fits.
    fn new_citation(
        &self,
        alloc: Global,
        ask: &CiteAsk,
        form: Normal,
        bytes: &[u8],
        now: u64,
    ) -> Result<Made<Cited>, Refused>
        requires stands { Stands self.now }
        requires form { IsFormOf (arc_value self.now.snapshot).schema.columns ask.now form }
        ensures { (history : Listed Told) (a : Archive) → StandsFor self.now history a → PlansCitation a ask.now now bytes.now form history result }
    {
        let seen = self.seen();
        let number = seen.issued() + 1;
        let stamp = self.stamped(now);
        let result_sha = fingerprint(bytes);
        let Ok(entry) = cite_entry(alloc, ask, stamp, number, seen.version(), result_sha) else {
            return Err(Refused::NoMemory);
        };
        known_entry(&entry);
        let journal = self.journal_with(&entry);
        judge(&entry, number, journal, now)?;
        let Ok(payload) = print_entry(alloc, &entry) else {
            return Err(Refused::NoMemory);
        };
        let Ok(citation) = citation_of(alloc, ask, form, seen, stamp, result_sha) else {
            return Err(Refused::NoMemory);
        };
        match self.with_citation(alloc, citation, stamp, journal) {
            Ok(next) => Ok(Made {
                reply: Cited { number, new: true },
                payload,
                next,
            }),
            Err(NoMemory) => Err(Refused::NoMemory),
        }
    }
}

// The settled form of a request's query, or the first rule that the request breaks.
fn form_of(alloc: Global, schema: &Schema, ask: &CiteAsk) -> Result<Normal, Refused>
    ensures { TellsForm schema.now.columns ask.now result }
{
    if let Err(fault) = check(schema, &ask.query) {
        return Err(Refused::Query(fault));
    }
    if let Some(part) = meta_fault(&ask.meta) {
        return Err(Refused::BadMeta(part));
    }
    match normal(alloc, schema, &ask.query) {
        Ok(form) => Ok(form),
        Err(NoMemory) => Err(Refused::NoMemory),
    }
}

// The bytes that a form gives on the last table.
fn bytes_of(alloc: Global, rows: &Rows, form: &Normal) -> Result<ByteText, Refused>
    requires some { 1 ≤ rows.now.last }
    requires items { 0 < length (formed form.now).items }
    ensures { TellsBytes form.now (last_table rows.now) result }
{
    match execute(alloc, rows, form, rows.last()) {
        Ok(bytes) => Ok(bytes),
        Err(LayFault::TooLarge { bytes }) => Err(Refused::ResultTooLarge { bytes }),
        Err(LayFault::NoMemory) => Err(Refused::NoMemory),
    }
}

// The number of the first citation that has the form and gave the bytes.
fn first_with(
    alloc: Global,
    seen: &Snapshot,
    form: &Normal,
    bytes: &[u8],
) -> Result<Option<u32>, NoMemory>
    requires seen { IsSeen seen.now }
    requires settled { IsSettled seen.now.schema.columns form.now }
    ensures { (history : Listed Told) (a : Archive) → LeadsTo history a → Shows seen.now a → IfOk result (TellsFirst form.now bytes.now a.minted) }
{
    let numbers = seen.store().candidates(alloc, form, &fingerprint(bytes))?;
    for number in numbers.as_slice() {
        if gave(alloc, seen, *number, bytes)? {
            return Ok(Some(*number));
        }
    }
    Ok(None)
}

/// Whether the citation with a number gave the bytes: its query is executed again.
pub(crate) fn gave(
    alloc: Global,
    seen: &Snapshot,
    number: u32,
    bytes: &[u8],
) -> Result<bool, NoMemory>
    requires { IsSeen seen.now }
    ensures { (history : Listed Told) (a : Archive) → LeadsTo history a → Shows seen.now a → IfOk result (λ yes. IsTrue yes ↔ Gave a number bytes.now) }
{
    match Snapshot::resolve(alloc, seen.table(), seen.store(), number) {
        Ok(again) => Ok(again.as_slice() == bytes),
        Err(LookFault::NotIssued { .. }) => Ok(false),
        Err(LookFault::NoMemory) => Err(NoMemory),
    }
}

// The first rule that the entry of a citation breaks which no other citation fits.
fn judge(entry: &Entry, number: u32, journal: u64, now: u64) -> Result<(), Refused>
    requires { IsPrintable entry.now }
    ensures { Judges entry.now number journal now result }
{
    let bytes = entry_length(entry);
    if bytes == u64::MAX {
        return Err(Refused::NoMemory);
    }
    if bytes > PAYLOAD {
        return Err(Refused::EntryTooLarge { bytes });
    }
    if let Some(limit) = passed_by_citation(number, journal) {
        return Err(Refused::Full { limit });
    }
    if now >= CLOCK_END {
        return Err(Refused::ClockRange { moment: now });
    }
    Ok(())
}

// The entry of a citation.
fn cite_entry(
    alloc: Global,
    ask: &CiteAsk,
    stamp: u64,
    number: u32,
    version: u32,
    result_sha: [u8; 32],
) -> Result<Entry, NoMemory>
    ensures { IfOk result (λ entry. entry ≡ entries.Cite (record { stamp = stamp; number = number; version = version; result_sha = result_sha; query = ask.now.query; meta = ask.now.meta })) }
{
    let query = copy_query(alloc, &ask.query)?;
    let meta = copy_meta(alloc, &ask.meta)?;
    Ok(Entry::Cite(CiteEntry {
        stamp,
        number,
        version,
        result_sha,
        query,
        meta,
    }))
}

// The citation as it is kept.
fn citation_of(
    alloc: Global,
    ask: &CiteAsk,
    form: Normal,
    seen: &Snapshot,
    stamp: u64,
    result_sha: [u8; 32],
) -> Result<Citation, NoMemory>
    requires { length seen.now.store + 1 < 2 ^ 32 }
    ensures { IfOk result (λ citation. citation ≡ citation_for seen.now ask.now form stamp result_sha) }
{
    let asked = copy_query(alloc, &ask.query)?;
    let meta = copy_meta(alloc, &ask.meta)?;
    let printed = form.print(alloc)?;
    Ok(Citation {
        issue: Issue {
            number: seen.issued() + 1,
            version: seen.version(),
            cited: stamp,
            updated: seen.stamp(),
            meta,
        },
        asked,
        normal: form,
        query_sha: fingerprint(printed.as_slice()),
        result_sha,
    })
}
