// Queries as authors write them, and citation requests.
use crate::condition::Cond;
use crate::list::{ByteText, List};

/// A condition on the column with this name.
#[derive(Drop)]
pub struct OnColumn {
    pub column: ByteText,
    pub cond: Cond,
}

/// A column that the result shows, under a label.
#[derive(Clone, Debug, Drop)]
pub struct Asked {
    pub column: ByteText,
    pub label: ByteText,
}

/// An order by the column with this name, descending where `down` is true.
#[derive(Clone, Debug, Drop)]
pub struct Along {
    pub column: ByteText,
    pub down: bool,
}

/// A query on a table: the rows that meet each condition, in the order of `order` and then of the key, each shown by
/// the items.
#[derive(Drop)]
pub struct Query {
    pub conds: List<OnColumn>,
    pub items: List<Asked>,
    pub order: List<Along>,
}

/// Who made a citation and what it is called.
#[derive(Clone, Debug, Drop)]
pub struct Meta {
    pub creators: List<ByteText>,
    pub title: ByteText,
    pub description: ByteText,
}

/// A request for a citation.
#[derive(Drop)]
pub struct CiteAsk {
    pub query: Query,
    pub meta: Meta,
}
