// A citation as it is kept.
use cite_schema::{Issue, Query};
use subset_query::Normal;

/// A citation as it is kept: what is told of it, the query as it was asked, its form in the present schema, the SHA-256
/// of that form's printed bytes, and the SHA-256 of the bytes that it gave when it was minted (RDA R4, R6).
#[derive(Drop)]
pub struct Citation {
    pub issue: Issue,
    pub asked: Query,
    pub normal: Normal,
    pub query_sha: [u8; 32],
    pub result_sha: [u8; 32],
}
