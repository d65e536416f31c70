// The plan of a migration.
ghost use Rattle.std.specs.Prelude.{◌≡◌, ◌+◌, ◌<◌, ◌^◌, List as Listed, IfOk, IsOk, Ok, length};
ghost use Rattle.std.specs.Arc.{arc_value};
ghost use Rattle.migration.specs.Columns as columns_spec;
ghost use Rattle.migration.specs.Rows.{carry_row, row_at_all};
ghost use Rattle.versioned_rows.specs.Nexts.{IsNextByRule};
ghost use Rattle.entry_codec.specs.Spellable.{IsPrintable};
ghost use Rattle.entry_codec.specs.declared.entry.Entry.{Entry as Told};
ghost use Rattle.entry_codec.specs.declared.entry.Entry.TheVariants as entries;
ghost use Rattle.archive_model.specs.Archives.{Archive};
ghost use Rattle.archive_model.specs.Migrating.{MigrateStep};
ghost use Rattle.archive_model.specs.Histories.{LeadsTo};
ghost use Rattle.archive_state.specs.Standing.{IsSeen, Shows, Stands, StandsFor};
ghost use Rattle.archive_state.specs.Planning.{Plans};
ghost use Rattle.archive_state.specs.Migrations.{TellsSchema, MovesRows, BeginsMove, TellsFormAfter, TellsForms, IsMovedTo};

use crate::citing::gave;
use crate::executing::execute;
use crate::limits::{CLOCK_END, VERSIONS, passed_by_migration};
use crate::plan::{Made, Planned};
use crate::present::Present;
use crate::snapshot::Snapshot;
use archive_model::{Moved, Refused};
use cite_schema::{List, NoMemory, Row, Schema, Step};
use entry_codec::{Entry, MigrateEntry, known_entry, print_entry};
use migration::{StepFault, carry_normal_at, carry_row_at, carry_schema, harmless, step_places};
use result_bytes::LayFault;
use std::alloc::Global;
use subset_query::Normal;
use versioned_rows::{MapFault, Rows};

/// What is planned of a migration before the citations are looked at: the schema after the steps, the places of the
/// columns that they name, the carried rows, the entry, and the moment and the bytes of the journal with it.
#[derive(Drop)]
pub(crate) struct Moving {
    pub(crate) schema: Schema,
    pub(crate) places: List<usize>,
    pub(crate) rows: Rows,
    pub(crate) entry: Entry,
    pub(crate) stamp: u64,
    pub(crate) journal: u64,
}

impl Present {
    /// What a migration does at a moment, in seconds since 1970: the steps carry the schema, every kept row and the form
    /// of every citation, and make a version; or the first refusal of `WrongSchema`, `Steps`, `Full` with 2, `Overflow`,
    /// `Full` with 4 and 5, `CitedSubset` and `ClockRange`. It is what the archive of every history does for which this
    /// stands.
    ///
    /// Every citation is verified (RDA R13, R14), in the order of their numbers: its query is executed again on the table
    /// of its version as it was, and its carried form on the same table carried. The bytes are compared. A citation for
    /// whose form the steps are `harmless` is left out: its bytes stay, by a law. So it takes one pass over the kept rows
    /// for the rows, and two for each citation that isn't left out.
    ///
    /// # Errors
    /// The refusals named, and `NoMemory`.
    pub fn plan_migrate(
        &self,
        alloc: Global,
        schema: u32,
        steps: &List<Step>,
        now: u64,
    ) -> Result<Planned<Moved>, Refused>
        requires { Stands self.now }
        ensures { (history : Listed Told) (a : Archive) → StandsFor self.now history a → Plans (MigrateStep a schema steps.now now) history a result }
    {
        let moving = self.moving(alloc, schema, steps, now)?;
        let forms = forms_after(alloc, self.seen(), &moving, steps)?;
        if now >= CLOCK_END {
            return Err(Refused::ClockRange { moment: now });
        }
        match self.moved(alloc, moving, forms) {
            Ok(made) => Ok(Planned::New(made)),
            Err(NoMemory) => Err(Refused::NoMemory),
        }
    }

    // What a migration does before the citations are looked at.
    fn moving(
        &self,
        alloc: Global,
        schema: u32,
        steps: &List<Step>,
        now: u64,
    ) -> Result<Moving, Refused>
        requires { Stands self.now }
        ensures { (history : Listed Told) (a : Archive) → StandsFor self.now history a → BeginsMove (arc_value self.now.snapshot) a schema steps.now now result }
    {
        let seen = self.seen();
        let current = seen.schema().number();
        if schema != current {
            return Err(Refused::WrongSchema { current });
        }
        let carried = schema_after(alloc, seen, steps)?;
        if seen.version() >= VERSIONS {
            return Err(Refused::Full { limit: 2 });
        }
        let Ok(places) = step_places(alloc, seen.schema(), steps) else {
            return Err(Refused::NoMemory);
        };
        let rows = rows_after(alloc, seen, &places, steps)?;
        let stamp = self.stamped(now);
        let Ok(entry) = migrate_entry(alloc, schema, steps, stamp) else {
            return Err(Refused::NoMemory);
        };
        known_entry(&entry);
        let journal = self.journal_with(&entry);
        if let Some(limit) = passed_by_migration(rows.weight(), journal) {
            return Err(Refused::Full { limit });
        }
        Ok(Moving {
            schema: carried,
            places,
            rows,
            entry,
            stamp,
            journal,
        })
    }

    // What is kept after a migration whose citations are carried to these forms.
    fn moved(
        &self,
        alloc: Global,
        moving: Moving,
        forms: List<Normal>,
    ) -> Result<Made<Moved>, NoMemory>
        requires entries { self.now.entries + 1 < 2 ^ 64 }
        requires printable { IsPrintable moving.entry }
        requires forms { length forms ≡ length (arc_value self.now.snapshot).store }
        ensures { IfOk result (IsMovedTo self.now moving forms) }
    {
        let payload = print_entry(alloc, &moving.entry)?;
        let store = self.seen().store().carried(alloc, forms)?;
        let reply = Moved {
            schema: moving.schema.number(),
            version: moving.rows.last(),
        };
        let next = self.with_migration(
            alloc,
            moving.schema,
            moving.rows,
            store,
            moving.stamp,
            moving.journal,
        )?;
        Ok(Made {
            reply,
            payload,
            next,
        })
    }
}

// The schema after the steps, or their first fault.
fn schema_after(alloc: Global, seen: &Snapshot, steps: &List<Step>) -> Result<Schema, Refused>
    requires { IsSeen seen.now }
    ensures { TellsSchema seen.now.schema steps.now result }
{
    match carry_schema(alloc, seen.schema(), steps) {
        Ok(schema) => Ok(schema),
        Err(StepFault::NoMemory) => Err(Refused::NoMemory),
        Err(fault) => Err(Refused::Steps(fault)),
    }
}

// The rows after the steps, which name the columns at the places.
fn rows_after(
    alloc: Global,
    seen: &Snapshot,
    places: &List<usize>,
    steps: &List<Step>,
) -> Result<Rows, Refused>
    requires seen { IsSeen seen.now }
    requires steps { IsOk (columns_spec.carry_schema seen.now.schema steps.now) }
    requires places { places.now ≡ columns_spec.step_places seen.now.schema.columns steps.now }
    ensures { MovesRows seen.now.schema.columns steps.now seen.now.rows result }
{
    let rows = seen.table();
    rows.known_rows();
    let carried = rows.map_rows(
        alloc,
        |row: &Row|
            ensures { IfOk result (λ carried. carried ≡ row_at_all places.entry.now steps.entry.now row.now) }
        { carry_row_at(alloc, places, steps, row) },
    );
    match carried {
        Ok(carried) => Ok(carried),
        Err(MapFault::NoMemory) => Err(Refused::NoMemory),
        Err(MapFault::Overflow { version, key }) => Err(Refused::Overflow { version, key }),
    }
}

// The forms of all citations after the steps, or the first citation that is harmed.
fn forms_after(
    alloc: Global,
    seen: &Snapshot,
    moving: &Moving,
    steps: &List<Step>,
) -> Result<List<Normal>, Refused>
    requires seen { IsSeen seen.now }
    requires steps { columns_spec.carry_schema seen.now.schema steps.now ≡ Ok moving.now.schema }
    requires places { moving.now.places ≡ columns_spec.step_places seen.now.schema.columns steps.now }
    requires rows { IsNextByRule (carry_row seen.now.schema.columns steps.now) seen.now.rows moving.now.rows }
    ensures { (history : Listed Told) (a : Archive) → LeadsTo history a → Shows seen.now a → TellsForms a steps.now result }
{
    let mut forms = List::new(alloc);
    for place in 0..seen.issued() {
        match form_after(alloc, seen, moving, steps, place + 1) {
            Err(NoMemory) => return Err(Refused::NoMemory),
            Ok(None) => return Err(Refused::CitedSubset { number: place + 1 }),
            Ok(Some(form)) => {
                if forms.push(form).is_err() {
                    return Err(Refused::NoMemory);
                }
            }
        }
    }
    Ok(forms)
}

// The form of the citation with a number after the steps, if it gives the citation's bytes; `None` where the citation is
// harmed, or there is none. Where the steps are harmless for its form, the bytes need no look; else what its own form gives
// on the rows as they were is compared with what the carried one gives.
fn form_after(
    alloc: Global,
    seen: &Snapshot,
    moving: &Moving,
    steps: &List<Step>,
    number: u32,
) -> Result<Option<Normal>, NoMemory>
    requires seen { IsSeen seen.now }
    requires steps { columns_spec.carry_schema seen.now.schema steps.now ≡ Ok moving.now.schema }
    requires places { moving.now.places ≡ columns_spec.step_places seen.now.schema.columns steps.now }
    requires rows { IsNextByRule (carry_row seen.now.schema.columns steps.now) seen.now.rows moving.now.rows }
    ensures { (history : Listed Told) (a : Archive) → LeadsTo history a → Shows seen.now a → IfOk result (TellsFormAfter a steps.now number) }
{
    let Some(citation) = seen.store().get(number) else {
        return Ok(None);
    };
    let version = citation.issue.version;
    let schema = seen.schema();
    let carried = carry_normal_at(alloc, schema, &moving.places, steps, &citation.normal)?;
    let Some(form) = carried else {
        return Ok(None);
    };
    if harmless(alloc, schema, steps, &citation.normal)? {
        return Ok(Some(form));
    }
    match execute(alloc, &moving.rows, &form, version) {
        Err(LayFault::NoMemory) => Err(NoMemory),
        Err(LayFault::TooLarge { .. }) => Ok(None),
        Ok(bytes) => {
            if gave(alloc, seen, number, bytes.as_slice())? {
                Ok(Some(form))
            } else {
                Ok(None)
            }
        }
    }
}

// The entry of a migration.
fn migrate_entry(
    alloc: Global,
    schema: u32,
    steps: &List<Step>,
    stamp: u64,
) -> Result<Entry, NoMemory>
    ensures { IfOk result (λ entry. entry ≡ entries.Migrate (record { stamp = stamp; schema = schema; steps = steps.now })) }
{
    let steps = copied_steps(alloc, steps.as_slice())?;
    Ok(Entry::Migrate(MigrateEntry {
        stamp,
        schema,
        steps,
    }))
}

// The same steps again.
fn copied_steps(alloc: Global, steps: &[Step]) -> Result<List<Step>, NoMemory>
    ensures { IfOk result (λ copied. copied ≡ steps.now) }
{
    let mut copied = List::new(alloc);
    for step in steps {
        copied.push(copied_step(step)?)?;
    }
    Ok(copied)
}

// The same step again.
fn copied_step(step: &Step) -> Result<Step, NoMemory>
    ensures { IfOk result (λ copied. copied ≡ step.now) }
{
    match step {
        Step::Rename { column, to } => Ok(Step::Rename {
            column: column.copy()?,
            to: to.copy()?,
        }),
        Step::Add { column, value } => Ok(Step::Add {
            column: column.copy()?,
            value: value.copy()?,
        }),
        Step::DropColumn { column } => Ok(Step::DropColumn {
            column: column.copy()?,
        }),
        Step::Scale { column, by, plus } => Ok(Step::Scale {
            column: column.copy()?,
            by: *by,
            plus: *plus,
        }),
        Step::Recode { column, old, new } => Ok(Step::Recode {
            column: column.copy()?,
            old: old.copy()?,
            new: new.copy()?,
        }),
        Step::RetypeToText { column } => Ok(Step::RetypeToText {
            column: column.copy()?,
        }),
    }
}
