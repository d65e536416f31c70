// The normal forms of queries.
use cite_schema::{ByteText, Dir, Item, List};
use interval_normal::Set;

/// The values that a column's cells may have, as a set of values of the column's kind.
#[derive(Drop)]
pub enum ColumnSet {
    /// Of a number column.
    Ints(Set<i64>),
    /// Of a text column.
    Texts(Set<ByteText>),
}

/// What a query asks for, in a form of its own.
#[derive(Drop)]
pub enum Normal {
    /// No row of any table. What is left of the query is its labels.
    Nothing {
        labels: List<ByteText>,
    },
    /// The rows whose cells are in the sets, in the order of `order` and then of the key, each shown by the items.
    Some {
        /// One for each column of the schema.
        sets: List<ColumnSet>,
        items: List<Item>,
        order: List<Dir>,
    },
}
