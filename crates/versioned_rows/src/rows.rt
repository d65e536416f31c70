// The rows of all versions.
ghost use Rattle.std.specs.Prelude.{Ok, Some, List as Listed, Option as Maybe, slice_get, ◌≡◌, ◌<◌, ◌≤◌, ◌+◌, ◌-◌, ◌^◌, ◌&&◌, nat_le, [], ◌++◌, length, IfOk, IfErr, IsTrue};
ghost use Rattle.std.specs.Fn.{FnReturnsAt};
ghost use Rattle.std.specs.List.{AllByRecursion, AllZip, Contains};
ghost use Rattle.cite_schema.specs.Lines.{brought};
ghost use Rattle.cite_schema.specs.Tables.{is_keyed};
ghost use Rattle.cite_schema.specs.declared.value.Value.{Value as Cell};
ghost use Rattle.versioned_rows.specs.ChangeLaws.{NameOwnKeys, HaveKeys};
ghost use Rattle.versioned_rows.specs.Weights.{rows_weight};
ghost use Rattle.versioned_rows.specs.Histories.{rows_of, as_of, last_table, is_in_version};
ghost use Rattle.versioned_rows.specs.Presence.{WasInTable};
ghost use Rattle.versioned_rows.specs.Nexts.{IsNextByLines, TellsLine, Turns, IsNextByCalls, TellsFirstLost, FollowsRule, IsNextByRule, TellsLost};

use crate::edits::{counted, edits_for, weighed};
use crate::fault::{ApplyFault, MapFault};
use crate::mapping::turn_all;
use cite_schema::{Line, List, NoMemory, Row, Shared, Value};
use shared_pages::Sequence;
use std::alloc::Global;
use std::marker::Model;

/// A row, the version that brought it, and the version that ended it, if one did.
#[derive(Drop)]
pub struct KeptRow {
    /// The values, which copies of the kept row share.
    pub row: Shared<List<Value>>,
    /// The first version whose table has the row.
    pub from: u32,
    /// The first version whose table has the row no more.
    pub until: Option<u32>,
}

/// The rows of all versions of a table. Contracts see the number of the last version, and the list of kept rows in the
/// order of their keys and then of the versions that brought them.
///
/// A value never changes: the next version is a value of its own that shares with this one what it does not change.
#[derive(Drop)]
pub struct Rows {
    last: u32,
    kept: Sequence<KeptRow>,
    weight: u64,
    alive: u64,
}

impl Model for Rows {
    ghost use Rattle.versioned_rows.specs.Histories.{RowHistory};
    ghost use Rattle.versioned_rows.specs.Keeping.{IsRows};

    ghost Value = { RowHistory };

    ghost view = { λ s. record { last = s.last; kept = s.kept } };

    ghost invariant = { λ s. IsRows (record { last = s.last; kept = s.kept }) s.alive s.weight };
}

impl Rows {
    /// No row, in version 1. It takes no memory.
    pub fn make(alloc: Global) -> Result<Rows, NoMemory>
        ensures { IfOk result (λ rows. rows ≡ record { last = 1; kept = [] }) }
    {
        Ok(Rows {
            last: 1,
            kept: Sequence::make(alloc),
            weight: 0,
            alive: 0,
        })
    }

    /// The rows of the next version: the last table after the lines, which name no key twice. A fault names the first
    /// line that does not go with the table.
    ///
    /// For n kept rows and m lines it takes about m log n + m log m comparisons, and copies the pages that the lines
    /// fall on: some hundred handles for a line.
    pub fn apply(&self, alloc: Global, lines: &List<Line>) -> Result<Rows, ApplyFault>
        requires few { length lines.now < 2 ^ 32 }
        requires apart { NameOwnKeys lines.now }
        requires keys { HaveKeys lines.now }
        requires kept { length self.now.kept + length (brought lines.now) < 2 ^ 64 }
        requires weight { rows_weight (rows_of self.now ++ brought lines.now) < 2 ^ 64 }
        requires last { self.now.last < 2 ^ 32 - 1 }
        ensures next { IfOk result (λ new. IsNextByLines lines.now self.now new) }
        ensures fault { IfErr result (λ fault. TellsLine lines.now self.now fault) }
    {
        let version = self.last + 1;
        let lines = lines.as_slice();
        let edits = edits_for(alloc, &self.kept, version, lines)?;
        let alive = counted(self.alive, lines);
        let weight = weighed(self.weight, lines);
        let kept = self.kept.edit_in_any_order(alloc, edits)?;
        Ok(Rows {
            last: version,
            kept,
            weight,
            alive,
        })
    }

    /// The table of a version, in the order of the keys. It goes through all kept rows, and takes a handle for each row
    /// of the table.
    pub fn as_of(&self, alloc: Global, version: u32) -> Result<List<Row>, NoMemory>
        requires first { 1 ≤ version }
        requires last { version ≤ self.now.last }
        ensures table { IfOk result (λ table. table ≡ as_of self.now version) }
        ensures keyed { IfOk result (λ table. IsTrue (is_keyed table)) }
    {
        let mut table = List::new(alloc);
        for kept in self.kept.iter() {
            if is_in_version(kept, version) {
                table.push(Row::of_shared(kept.row.share()?))?;
            }
        }
        Ok(table)
    }

    /// The rows of the next version, whose table is the last one: each kept row is replaced by what the function makes of
    /// it, so each older table is replaced row by row too. Where the function makes nothing of a kept row, the fault names
    /// the lowest version whose table has such a row, and the lowest key of one in it. The function keeps keys, and what
    /// it makes weighs less than 2^64 in all.
    ///
    /// It is one pass over the kept rows, with one call for each, and makes every page anew.
    pub fn map_rows<F: Fn(&Row) -> Result<Option<Row>, NoMemory>>(
        &self,
        alloc: Global,
        f: F,
    ) -> Result<Rows, MapFault>
        requires callable { (x : _) → Contains (rows_of self.now) x.now → F.pre f x }
        requires keeps { (r t : Listed Cell) → Contains (rows_of self.now) r → FnReturnsAt F.Fn f r (Ok (Some t)) → slice_get t 0 ≡ slice_get r 0 }
        requires weight { (rows : Listed (Listed Cell)) → AllZip (Turns (FnReturnsAt F.Fn f)) (rows_of self.now) rows → rows_weight rows < 2 ^ 64 }
        requires last { self.now.last < 2 ^ 32 - 1 }
        ensures next { IfOk result (λ new. IsNextByCalls (FnReturnsAt F.Fn f) self.now new) }
        ensures fault { IfErr result (λ fault. TellsFirstLost (FnReturnsAt F.Fn f) self.now fault) }
        ensures next_by_rule { IfOk result (λ new. (rule : Listed Cell → Maybe (Listed Cell)) → FollowsRule rule (FnReturnsAt F.Fn f) → IsNextByRule rule self.now new) }
        ensures fault_by_rule { IfErr result (λ fault. (rule : Listed Cell → Maybe (Listed Cell)) → FollowsRule rule (FnReturnsAt F.Fn f) → TellsLost rule self.now fault) }
    {
        let turned = turn_all(alloc, &self.kept, f)?;
        let kept = Sequence::of_items(alloc, turned.rows)?;
        Ok(Rows {
            last: self.last + 1,
            kept,
            weight: turned.weight,
            alive: self.alive,
        })
    }

    /// A law: each kept row is in the table of the version that brought it. It takes no memory, and no time.
    pub fn known_rows(&self)
        ensures { AllByRecursion (WasInTable self.now) (rows_of self.now) }
    {
        let _kept = &self.kept;
    }

    /// The number of the last version. It takes no memory.
    pub fn last(&self) -> u32
        ensures { result ≡ self.now.last }
    {
        self.last
    }

    /// How many rows are kept: those that all versions brought. It takes no memory.
    pub fn kept(&self) -> u64
        ensures { result ≡ length self.now.kept }
    {
        self.kept.len()
    }

    /// How much the kept rows weigh: 16 for each cell, and the length of each text. It takes no memory.
    pub fn weight(&self) -> u64
        ensures { result ≡ rows_weight (rows_of self.now) }
    {
        self.weight
    }

    /// How many rows the table of the last version has. It takes no memory.
    pub fn count(&self) -> u64
        ensures { result ≡ length (last_table self.now) }
    {
        self.alive
    }
}

// Whether a row is in the table of a version.
fn is_in_version(kept: &KeptRow, version: u32) -> bool
    ensures { result ≡ is_in_version version kept.now }
{
    kept.from <= version
        && match kept.until {
            None => true,
            Some(until) => version < until,
        }
}
