// What is kept after an entry.
ghost use Rattle.std.specs.Prelude.{◌≡◌, ◌+◌, ◌-◌, ◌<◌, ◌^◌, ◌++◌, ◌∷◌, [], IfOk, max, min, length};
ghost use Rattle.std.specs.Arc.{arc_value};
ghost use Rattle.entry_codec.specs.Payloads.{record_length};
ghost use Rattle.entry_codec.specs.Spellable.{IsPrintable};
ghost use Rattle.shared_pages.specs.Edits.{edited};
ghost use Rattle.shared_pages.specs.declared.edit.Edit.TheVariants.{Put as put};
ghost use Rattle.archive_state.specs.Used.{used_cmp};

use crate::present::Present;
use crate::snapshot::Snapshot;
use crate::used::UsedNumber;
use cite_schema::{NoMemory, Schema, Shared};
use entry_codec::{Entry, entry_length};
use query_store::{Citation, Store};
use shared_pages::Edit;
use std::alloc::Global;
use std::sync::Arc;
use versioned_rows::Rows;

impl Present {
    /// The stamp of an entry that is made at a moment: it never falls.
    pub(crate) fn stamped(&self, now: u64) -> u64
        ensures { result ≡ max now self.now.stamp }
    {
        now.max(self.stamp)
    }

    /// How many bytes the journal has with an entry, up to the greatest `u64`.
    pub(crate) fn journal_with(&self, entry: &Entry) -> u64
        requires { IsPrintable entry.now }
        ensures { result ≡ min (self.now.journal + record_length entry.now) (2 ^ 64 - 1) }
    {
        self.journal
            .saturating_add(entry_length(entry))
            .saturating_add(37)
    }

    /// What is kept after a batch: the rows of its version, and its number as used. It copies some handles.
    pub(crate) fn with_version(
        &self,
        alloc: Global,
        rows: Rows,
        used: UsedNumber,
        stamp: u64,
        journal: u64,
    ) -> Result<Present, NoMemory>
        requires { self.now.entries + 1 < 2 ^ 64 }
        ensures seen { IfOk result (λ next. arc_value next.snapshot ≡ record (arc_value self.now.snapshot) { rows = rows; updated = stamp }) }
        ensures used { IfOk result (λ next. next.used ≡ edited used_cmp self.now.used (put used ∷ [])) }
        ensures counts { IfOk result (λ next. (next.stamp ≡ stamp) × (next.entries ≡ self.now.entries + 1) × (next.journal ≡ journal)) }
    {
        let seen = self.seen();
        let snapshot = Snapshot {
            dataset: seen.dataset.share()?,
            schema: seen.schema.share()?,
            rows: Shared::make(alloc, rows)?,
            store: seen.store.share()?,
            founded: seen.founded,
            updated: stamp,
        };
        let used = self.used.edit(alloc, &[Edit::Put(used)])?;
        Ok(Present {
            snapshot: Arc::new(alloc, snapshot)?,
            used,
            stamp,
            entries: self.entries + 1,
            journal,
        })
    }

    /// What is kept after a migration: the carried schema, rows and citations. It copies some handles.
    pub(crate) fn with_migration(
        &self,
        alloc: Global,
        schema: Schema,
        rows: Rows,
        store: Store,
        stamp: u64,
        journal: u64,
    ) -> Result<Present, NoMemory>
        requires { self.now.entries + 1 < 2 ^ 64 }
        ensures seen { IfOk result (λ next. arc_value next.snapshot ≡ record (arc_value self.now.snapshot) { schema = schema; rows = rows; store = store; updated = stamp }) }
        ensures used { IfOk result (λ next. next.used ≡ self.now.used) }
        ensures counts { IfOk result (λ next. (next.stamp ≡ stamp) × (next.entries ≡ self.now.entries + 1) × (next.journal ≡ journal)) }
    {
        let seen = self.seen();
        let snapshot = Snapshot {
            dataset: seen.dataset.share()?,
            schema: Shared::make(alloc, schema)?,
            rows: Shared::make(alloc, rows)?,
            store: Shared::make(alloc, store)?,
            founded: seen.founded,
            updated: stamp,
        };
        let used = self.used.edit(alloc, &[])?;
        Ok(Present {
            snapshot: Arc::new(alloc, snapshot)?,
            used,
            stamp,
            entries: self.entries + 1,
            journal,
        })
    }

    /// What is kept after a citation. It copies some handles.
    pub(crate) fn with_citation(
        &self,
        alloc: Global,
        citation: Citation,
        stamp: u64,
        journal: u64,
    ) -> Result<Present, NoMemory>
        requires entries { self.now.entries + 1 < 2 ^ 64 }
        requires few { length (arc_value self.now.snapshot).store + 1 < 2 ^ 32 }
        ensures seen { IfOk result (λ next. arc_value next.snapshot ≡ record (arc_value self.now.snapshot) { store = (arc_value self.now.snapshot).store ++ citation ∷ [] }) }
        ensures used { IfOk result (λ next. next.used ≡ self.now.used) }
        ensures counts { IfOk result (λ next. (next.stamp ≡ stamp) × (next.entries ≡ self.now.entries + 1) × (next.journal ≡ journal)) }
    {
        let seen = self.seen();
        let store = added(alloc, seen.store(), citation)?;
        let snapshot = Snapshot {
            dataset: seen.dataset.share()?,
            schema: seen.schema.share()?,
            rows: seen.rows.share()?,
            store: Shared::make(alloc, store)?,
            founded: seen.founded,
            updated: seen.updated,
        };
        let used = self.used.edit(alloc, &[])?;
        Ok(Present {
            snapshot: Arc::new(alloc, snapshot)?,
            used,
            stamp,
            entries: self.entries + 1,
            journal,
        })
    }
}

// The store with one citation more.
fn added(alloc: Global, store: &Store, citation: Citation) -> Result<Store, NoMemory>
    requires { length store.now + 1 < 2 ^ 32 }
    ensures { IfOk result (λ more. more ≡ store.now ++ citation ∷ []) }
{
    match store.add(alloc, citation) {
        Ok(more) => Ok(more),
        Err(_) => Err(NoMemory),
    }
}
