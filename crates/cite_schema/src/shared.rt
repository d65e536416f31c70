// Values with any number of owners.
ghost use Rattle.std.specs.Prelude.{◌≡◌, IfOk};

use crate::memory::NoMemory;
use std::alloc::Global;
use std::marker::Model;
use std::sync::Arc;

/// A value that never changes and that any number of owners hold; contracts see the value.
#[derive(Debug, Drop)]
pub struct Shared<V> {
    value: Arc<V>,
}

impl<V> Model for Shared<V> {
    ghost use Rattle.std.specs.Arc.{arc_value};

    ghost Value = { V };

    ghost coded = { V.code };

    ghost view = { λ s. arc_value s.value };
}

impl<V> Shared<V> {
    /// The value.
    pub fn get(&self) -> &V
        ensures { result.now ≡ self.now }
    {
        &self.value
    }
}

impl<V: Drop> Shared<V> {
    /// The value, with one owner.
    pub fn make(alloc: Global, value: V) -> Result<Shared<V>, NoMemory>
        ensures { IfOk result (λ s. s ≡ value) }
    {
        Ok(Shared {
            value: Arc::new(alloc, value)?,
        })
    }

    /// One more owner of the same value. It costs a handle; `NoMemory` comes where the owners can't be counted on.
    pub fn share(&self) -> Result<Shared<V>, NoMemory>
        ensures { IfOk result (λ s. s ≡ self.now) }
    {
        Ok(Shared {
            value: Arc::try_clone(&self.value)?,
        })
    }
}
