// The entries of a history.
use cite_schema::{ByteText, Column, Dataset, List, Meta, Query, Step};

/// The founding of an archive: its moment in seconds since 1970, what is told of the data set, and the columns.
#[derive(Drop)]
pub struct FoundEntry {
    pub stamp: u64,
    pub dataset: Dataset,
    pub columns: List<Column>,
}

/// An accepted batch: its moment, the schema that its body is written for, the curator with the curator's own number, and the body.
#[derive(Drop)]
pub struct BatchEntry {
    pub stamp: u64,
    pub schema: u32,
    pub curator: ByteText,
    pub number: u32,
    pub body: ByteText,
}

/// A new citation: its moment, its number, the version that it cites, the SHA-256 of its result, and what was asked.
#[derive(Drop)]
pub struct CiteEntry {
    pub stamp: u64,
    pub number: u32,
    pub version: u32,
    pub result_sha: [u8; 32],
    pub query: Query,
    pub meta: Meta,
}

/// An accepted migration: its moment, the number of the schema that it starts from, and its steps.
#[derive(Drop)]
pub struct MigrateEntry {
    pub stamp: u64,
    pub schema: u32,
    pub steps: List<Step>,
}

/// An entry of a history: one change that was accepted.
#[derive(Drop)]
pub enum Entry {
    /// The founding, which is the first entry and no later one.
    Found(FoundEntry),
    /// A batch that made a version.
    Batch(BatchEntry),
    /// A citation that got a number of its own.
    Cite(CiteEntry),
    /// A migration that made a schema and a version.
    Migrate(MigrateEntry),
}
