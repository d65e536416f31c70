// Why steps carry no schema.
use cite_schema::NoMemory;

/// The first fault of a list of steps; the list is tested first, then step by step, and for each step in the order of
/// the variants. Each but `NoMemory` names its step, counted from 1.
#[derive(Clone, Copy, Debug, PartialEq, Eq, Drop)]
pub enum StepFault {
    /// A new name is not of the name form, a text has over 65,535 bytes, `by` is below 1, or `old` is `new`. With 0: there
    /// are not 1 to 16 steps.
    BadStep(u16),
    /// A step that does not add a column names none that is there.
    UnknownColumn(u16),
    /// A step that does not rename or add names the key.
    KeyColumn(u16),
    /// `Scale` or `RetypeToText` names a text column, or a value of `Recode` is not of the column's kind.
    WrongKind(u16),
    /// A column has the new name.
    NameTaken(u16),
    /// There would be more than 64 columns.
    TooManyColumns(u16),
    /// Memory was wanting.
    NoMemory,
}

impl From<NoMemory> for StepFault {
    ghost use Rattle.std.specs.Prelude.{◌≡◌};
    ghost use Rattle.migration.specs.declared.fault.StepFault.TheVariants as faults;

    ghost from_gives = { λ _ fault. fault ≡ faults.NoMemory };

    fn from(_: NoMemory) -> StepFault {
        StepFault::NoMemory
    }
}
