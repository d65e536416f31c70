// The plan of a founding.
ghost use Rattle.std.specs.Prelude.{◌≡◌, [], None, IfOk, IfErr};
ghost use Rattle.std.specs.Arc.{arc_value};
ghost use Rattle.cite_schema.specs.Headings.{heading_fault};
ghost use Rattle.archive_model.specs.Histories.{found_fault};
ghost use Rattle.archive_state.specs.Founding.{TellsDataset, TellsHeading, PlansFounding, PlansFound};

use crate::limits::CLOCK_END;
use crate::plan::Made;
use crate::present::Present;
use crate::snapshot::Snapshot;
use archive_model::FoundFault;
use cite_schema::{Column, Dataset, List, NoMemory, Schema, Shared, is_plain_within};
use entry_codec::{Entry, FoundEntry, entry_length, print_entry};
use identifiers::prefix_ok;
use query_store::Store;
use shared_pages::Sequence;
use std::alloc::Global;
use std::sync::Arc;
use versioned_rows::Rows;

/// The bytes that a journal has before its records, and the gate behind them.
const FRAME: u64 = 17;

impl Present {
    /// What the founding of an archive does at a moment, in seconds since 1970: version 1, the empty table of schema 1;
    /// or the first refusal of `BadPrefix`, `BadMeta` with 4, 1 and 2, `Schema` and `ClockRange`.
    ///
    /// # Errors
    /// The refusals named, and `NoMemory`.
    pub fn plan_found(
        alloc: Global,
        dataset: &Dataset,
        columns: List<Column>,
        now: u64,
    ) -> Result<Made<()>, FoundFault>
        ensures { PlansFound (record { stamp = now; dataset = dataset.now; columns = columns }) result }
    {
        told_fault(dataset)?;
        let schema = first_schema(&columns)?;
        if now >= CLOCK_END {
            return Err(FoundFault::ClockRange { moment: now });
        }
        match first_entry(alloc, dataset, columns, schema, now) {
            Ok(made) => Ok(made),
            Err(NoMemory) => Err(FoundFault::NoMemory),
        }
    }
}

// The first rule that a data set breaks.
fn told_fault(dataset: &Dataset) -> Result<(), FoundFault>
    ensures { TellsDataset dataset.now result }
{
    if !prefix_ok(dataset.prefix.as_slice()) {
        Err(FoundFault::BadPrefix)
    } else if !is_plain_within(1, 1_024, dataset.publisher.as_slice()) {
        Err(FoundFault::BadMeta(4))
    } else if !is_plain_within(1, 1_024, dataset.creator.as_slice()) {
        Err(FoundFault::BadMeta(1))
    } else if !is_plain_within(1, 1_024, dataset.title.as_slice()) {
        Err(FoundFault::BadMeta(2))
    } else {
        Ok(())
    }
}

// The first schema, of these columns.
fn first_schema(columns: &List<Column>) -> Result<Schema, FoundFault>
    ensures schema { IfOk result (λ schema. (schema ≡ record { number = 1; columns = columns.now }) × (heading_fault columns.now ≡ None)) }
    ensures fault { IfErr result (λ fault. TellsHeading columns.now fault) }
{
    let Ok(named) = columns.clone() else {
        return Err(FoundFault::NoMemory);
    };
    match Schema::make(1, named) {
        Ok(schema) => Ok(schema),
        Err(fault) => Err(FoundFault::Schema(fault)),
    }
}

// The first entry, and what is kept after it.
fn first_entry(
    alloc: Global,
    dataset: &Dataset,
    columns: List<Column>,
    schema: Schema,
    now: u64,
) -> Result<Made<()>, NoMemory>
    requires legal { found_fault dataset.now columns now ≡ None }
    requires schema { schema ≡ record { number = 1; columns = columns } }
    ensures { IfOk result (λ made. PlansFounding (record { stamp = now; dataset = dataset.now; columns = columns }) made) }
{
    let entry = Entry::Found(FoundEntry {
        stamp: now,
        dataset: copied(dataset)?,
        columns,
    });
    let payload = print_entry(alloc, &entry)?;
    let journal = FRAME + entry_length(&entry) + 37;
    let next = first_present(alloc, dataset, schema, now, journal)?;
    Ok(Made {
        reply: (),
        payload,
        next,
    })
}

// What is kept after a founding.
fn first_present(
    alloc: Global,
    dataset: &Dataset,
    schema: Schema,
    now: u64,
    journal: u64,
) -> Result<Present, NoMemory>
    ensures seen { IfOk result (λ next. arc_value next.snapshot ≡ record { dataset = dataset.now; schema = schema; rows = record { last = 1; kept = [] }; store = []; founded = now; updated = now }) }
    ensures counts { IfOk result (λ next. (next.used ≡ []) × (next.stamp ≡ now) × (next.entries ≡ 1) × (next.journal ≡ journal)) }
{
    let snapshot = Snapshot {
        dataset: Shared::make(alloc, copied(dataset)?)?,
        schema: Shared::make(alloc, schema)?,
        rows: Shared::make(alloc, Rows::make(alloc)?)?,
        store: Shared::make(alloc, Store::make(alloc)?)?,
        founded: now,
        updated: now,
    };
    Ok(Present {
        snapshot: Arc::new(alloc, snapshot)?,
        used: Sequence::make(alloc),
        stamp: now,
        entries: 1,
        journal,
    })
}

fn copied(dataset: &Dataset) -> Result<Dataset, NoMemory>
    ensures { IfOk result (λ copy. copy ≡ dataset.now) }
{
    let copy = dataset.clone()?;
    Ok(copy)
}
