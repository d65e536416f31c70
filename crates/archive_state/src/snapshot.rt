// What readers see of an archive.
ghost use Rattle.std.specs.Prelude.{◌≡◌, Some, None, length, IfOk, IfErr};
ghost use Rattle.query_store.specs.Citations.{numbered};
ghost use Rattle.versioned_rows.specs.Histories.{last_table};
ghost use Rattle.archive_state.specs.declared.snapshot.LookFault.TheVariants as faults;

use cite_schema::{Dataset, NoMemory, Schema, Shared};
use query_store::{Citation, Store};
use versioned_rows::Rows;

/// What readers see of an archive after one of its entries: the data set, the present schema, the rows of all versions
/// and the citations. It never changes. The one after the next entry shares with it all that the entry leaves as it is.
#[derive(Drop)]
pub struct Snapshot {
    pub(crate) dataset: Shared<Dataset>,
    pub(crate) schema: Shared<Schema>,
    pub(crate) rows: Shared<Rows>,
    pub(crate) store: Shared<Store>,
    pub(crate) founded: u64,
    pub(crate) updated: u64,
}

/// Why nothing is found under a number.
#[derive(Clone, Copy, Debug, PartialEq, Eq, Drop)]
pub enum LookFault {
    /// No citation has the number; so many were issued.
    NotIssued { issued: u32 },
    /// Memory was wanting.
    NoMemory,
}

impl From<NoMemory> for LookFault {
    ghost from_gives = { λ _ fault. fault ≡ faults.NoMemory };

    fn from(_: NoMemory) -> LookFault {
        LookFault::NoMemory
    }
}

impl Snapshot {
    /// The rows of all versions. It takes no memory.
    pub fn table(&self) -> &Rows
        ensures { result.now ≡ self.now.rows }
    {
        self.rows.get()
    }

    /// The citations. It takes no memory.
    pub fn store(&self) -> &Store
        ensures { result.now ≡ self.now.store }
    {
        self.store.get()
    }

    /// The citation with a number, or how many were issued where none has it. It takes no memory.
    pub fn citation(&self, number: u32) -> Result<&Citation, LookFault>
        ensures found { IfOk result (λ citation. numbered self.now.store number ≡ Some citation.now) }
        ensures fault { IfErr result (λ fault. (numbered self.now.store number ≡ None) × (fault ≡ faults.NotIssued (length self.now.store))) }
    {
        match self.store().get(number) {
            Some(citation) => Ok(citation),
            None => Err(LookFault::NotIssued {
                issued: self.issued(),
            }),
        }
    }

    /// The number of the last version. It takes no memory.
    pub fn version(&self) -> u32
        ensures { result ≡ self.now.rows.last }
    {
        self.table().last()
    }

    /// The moment of the last version, in seconds since 1970. It takes no memory.
    pub fn stamp(&self) -> u64
        ensures { result ≡ self.now.updated }
    {
        self.updated
    }

    /// The moment of the founding, in seconds since 1970. It takes no memory.
    pub fn founded(&self) -> u64
        ensures { result ≡ self.now.founded }
    {
        self.founded
    }

    /// The present schema. It takes no memory.
    pub fn schema(&self) -> &Schema
        ensures { result.now ≡ self.now.schema }
    {
        self.schema.get()
    }

    /// How many citations were issued. It takes no memory.
    pub fn issued(&self) -> u32
        ensures { result ≡ length self.now.store }
    {
        self.store().count()
    }

    /// How many rows the last table has. It takes no memory.
    pub fn rows(&self) -> u64
        ensures { result ≡ length (last_table self.now.rows) }
    {
        self.table().count()
    }

    /// How many rows are kept: those that all versions brought. It takes no memory.
    pub fn kept(&self) -> u64
        ensures { result ≡ length self.now.rows.kept }
    {
        self.table().kept()
    }

    /// What is told of the data set. It takes no memory.
    pub fn dataset(&self) -> &Dataset
        ensures { result.now ≡ self.now.dataset }
    {
        self.dataset.get()
    }
}
