// Laws of carrying. Each stands on a call that does nothing.
ghost use Rattle.migration.specs.CarryLaws.{CarriedKeysStay, CarriedTablesAreTables, CarriedColumnsMakeSchemas, RowsAreCarriedAtPlaces, FormsAreCarriedToOneForm, ScaledSetsAreExact, ScaledSetsAreCanonical};
ghost use Rattle.migration.specs.Harmless.{PartsHaveAForm, HarmlessStepsCarry};

/// Steps without a fault make columns of a schema into columns of a schema.
pub fn carried_columns_make_schemas()
    ensures { CarriedColumnsMakeSchemas }
{}

/// What steps make of a row is what they make of it at the places of the columns that they name.
pub fn rows_are_carried_at_places()
    ensures { RowsAreCarriedAtPlaces }
{}

/// A row that is carried keeps its key. So rows with different keys stay apart.
pub fn carried_keys_stay()
    ensures { CarriedKeysStay }
{}

/// A table whose every row is carried gives a table of the carried columns.
pub fn carried_tables_are_tables()
    ensures { CarriedTablesAreTables }
{}

/// A form is carried to one form at most, and that one is settled for the carried columns.
pub fn forms_are_carried_to_one_form()
    ensures { FormsAreCarriedToOneForm }
{}

/// Where a step leaves parts of a settled form, the parts have a settled form. So a form is carried by a step exactly
/// where the step leaves parts of it.
pub fn parts_have_a_form()
    ensures { PartsHaveAForm }
{}

/// Cutting to the range loses nothing: of a number whose image is a number, the image is in the scaled set exactly
/// where the number is in the set.
pub fn scaled_sets_are_exact()
    ensures { ScaledSetsAreExact }
{}

/// A canonical list of spans is scaled to a canonical list.
pub fn scaled_sets_are_canonical()
    ensures { ScaledSetsAreCanonical }
{}

/// Steps that only rename, add, or scale columns that a form does not print carry the form, and the carried form gives
/// on the carried table the bytes that the form gave on the table.
pub fn harmless_steps_carry()
    ensures { HarmlessStepsCarry }
{}
