// The order of kept rows.
ghost use Rattle.std.specs.Prelude.{◌≡◌, IfOk};
ghost use Rattle.cite_schema.specs.Tables.{key_cmp};

use crate::rows::KeptRow;
use cite_schema::{List, NoMemory, Value};
use shared_pages::Item;
use stable_order::compare_cells;
use std::cmp::Ordering;

/// By key, and then by the version that brought them.
impl Item for KeptRow {
    ghost use Rattle.versioned_rows.specs.Keeping.{kept_cmp, kept_total};

    ghost cmp = { kept_cmp };

    fn compare(&self, other: &KeptRow) -> Ordering {
        let by_key = compare_keys(self.row.get(), other.row.get());
        let by_version = self.from.cmp(&other.from);
        by_key.then(by_version)
    }

    fn share(&self) -> Result<KeptRow, NoMemory> {
        let row = self.row.share()?;
        Ok(KeptRow {
            row,
            from: self.from,
            until: self.until,
        })
    }

    ghost total = { kept_total };
}

/// Which of two rows has the lower key.
pub fn compare_keys(a: &List<Value>, b: &List<Value>) -> Ordering
    ensures { result ≡ key_cmp a.now b.now }
{
    compare_cells(a.get(0), b.get(0))
}
