// What identifiers resolve to.
ghost use Rattle.std.specs.Prelude.{List as Listed};
ghost use Rattle.entry_codec.specs.declared.entry.Entry.{Entry as Told};
ghost use Rattle.archive_model.specs.Archives.{Archive};
ghost use Rattle.archive_model.specs.Histories.{LeadsTo};
ghost use Rattle.archive_state.specs.Standing.{AgreeParts, PartsStand};
ghost use Rattle.archive_state.specs.Executing.{Resolved};

use crate::executing::execute;
use crate::snapshot::{LookFault, Snapshot};
use cite_schema::ByteText;
use query_store::Store;
use result_bytes::LayFault;
use std::alloc::Global;
use versioned_rows::Rows;

impl Snapshot {
    /// The bytes that were minted with a citation's number: its query is executed again on the rows as of its version
    /// (RDA R10, R11). The two parts, as those of one snapshot, stand for some legal history; of every such history the
    /// number resolves to the same bytes. Nothing but the parts is in reach, and neither of them was ever given the bytes.
    ///
    /// It goes once through the kept rows, and sorts the rows of the result.
    ///
    /// # Errors
    /// `NotIssued` exactly where no citation has the number, and `NoMemory`.
    pub fn resolve(
        alloc: Global,
        rows: &Rows,
        store: &Store,
        number: u32,
    ) -> Result<ByteText, LookFault>
        requires { PartsStand rows.now store.now }
        ensures { (history : Listed Told) (a : Archive) → LeadsTo history a → AgreeParts rows.now store.now a → Resolved a number result }
    {
        let Some(citation) = store.get(number) else {
            return Err(LookFault::NotIssued {
                issued: store.count(),
            });
        };
        match execute(alloc, rows, &citation.normal, citation.issue.version) {
            Ok(bytes) => Ok(bytes),
            Err(LayFault::NoMemory) => Err(LookFault::NoMemory),
            Err(LayFault::TooLarge { .. }) => unreachable!(),
        }
    }
}
