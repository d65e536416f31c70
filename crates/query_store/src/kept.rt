// A citation that stores share.
ghost use Rattle.std.specs.Prelude.{◌≡◌, IfOk, IfErr};

use crate::citation::Citation;
use cite_schema::NoMemory;
use std::alloc::Global;
use std::marker::Model;
use std::sync::Arc;

/// A citation that never changes and that any number of stores hold; contracts see the citation.
#[derive(Drop)]
pub struct Kept {
    citation: Arc<Citation>,
}

impl Model for Kept {
    ghost use Rattle.std.specs.Arc.{arc_value};
    ghost use Rattle.std.specs.Coded.{codes};
    ghost use Rattle.cite_schema.specs.contracts.condition.Cond as cond_row;
    ghost use Rattle.query_store.specs.declared.citation.Citation.{Citation};

    ghost Value = { Citation };

    ghost coded = { Prim.hlevel (codes, cond_row.the_row.coded) };

    ghost view = { λ k. arc_value k.citation };
}

impl Kept {
    /// The citation, with one owner. Without memory it is handed back.
    pub fn make(alloc: Global, citation: Citation) -> Result<Kept, Citation>
        ensures kept { IfOk result (λ kept. kept ≡ citation) }
        ensures back { IfErr result (λ back. back ≡ citation) }
    {
        match Arc::new(alloc, citation) {
            Ok(citation) => Ok(Kept { citation }),
            Err(failed) => Err(failed.value),
        }
    }

    /// The citation.
    pub fn get(&self) -> &Citation
        ensures { result.now ≡ self.now }
    {
        &self.citation
    }

    /// One more owner of the same citation. It costs a handle.
    pub fn share(&self) -> Result<Kept, NoMemory>
        ensures { IfOk result (λ kept. kept ≡ self.now) }
    {
        Ok(Kept {
            citation: Arc::try_clone(&self.citation)?,
        })
    }
}
