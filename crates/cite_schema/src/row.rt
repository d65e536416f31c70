// Rows of tables.
ghost use Rattle.std.specs.Prelude.{◌≡◌, IfOk};

use crate::list::List;
use crate::memory::NoMemory;
use crate::shared::Shared;
use crate::value::Value;
use std::marker::Model;

/// The values of a row, one for each column; contracts see the list of them.
///
/// A row that is made of values owns them. One that is made of a handle, as each copy is, holds them together with
/// others, and a copy of it costs one more handle.
#[derive(Debug, Drop)]
pub struct Row {
    held: Held,
}

// The values of a row, and how the row holds them.
#[derive(Debug, Drop)]
enum Held {
    Owned(List<Value>),
    Shared(Shared<List<Value>>),
}

impl Model for Row {
    ghost use Rattle.std.specs.Prelude.{List as Listed};
    ghost use Rattle.cite_schema.specs.declared.value.Value.{Value as Cell};
    ghost use Rattle.cite_schema.specs.Rows.{held_values};

    ghost Value = { Listed Cell };

    ghost view = { λ r. held_values r.held };
}

impl Row {
    /// The row of these values.
    pub fn make(values: List<Value>) -> Row
        ensures { result ≡ values }
    {
        Row {
            held: Held::Owned(values),
        }
    }

    /// The row of values that others may hold too.
    pub fn of_shared(values: Shared<List<Value>>) -> Row
        ensures { result ≡ values }
    {
        Row {
            held: Held::Shared(values),
        }
    }

    /// The values, in the order of the columns.
    pub fn values(&self) -> &List<Value>
        ensures { result.now ≡ self.now }
    {
        match &self.held {
            Held::Owned(values) => values,
            Held::Shared(values) => values.get(),
        }
    }

    /// A copy of the values.
    pub fn to_values(&self) -> Result<List<Value>, NoMemory>
        ensures { IfOk result (λ values. values ≡ self.now) }
    {
        let values = self.values().clone()?;
        Ok(values)
    }

    /// A handle on the values: one more where this row has one, else the first on a copy of them.
    pub fn share(&self) -> Result<Shared<List<Value>>, NoMemory>
        ensures { IfOk result (λ values. values ≡ self.now) }
    {
        match &self.held {
            Held::Owned(values) => {
                let shared = Shared::make(values.allocator(), values.clone()?)?;
                Ok(shared)
            }
            Held::Shared(values) => {
                let shared = values.share()?;
                Ok(shared)
            }
        }
    }

    /// The row's handle on the values; values that the row owns are moved behind one.
    pub fn into_shared(self) -> Result<Shared<List<Value>>, NoMemory>
        ensures { IfOk result (λ values. values ≡ self) }
    {
        let Row { held } = self;
        match held {
            Held::Owned(values) => {
                let shared = Shared::make(values.allocator(), values)?;
                Ok(shared)
            }
            Held::Shared(values) => Ok(values),
        }
    }

    /// The same row again, with a handle on the values as `share` gives it.
    pub fn copy(&self) -> Result<Row, NoMemory>
        ensures { IfOk result (λ copied. copied ≡ self.now) }
    {
        let values = self.share()?;
        Ok(Row::of_shared(values))
    }
}
