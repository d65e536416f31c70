// Laws about the definitions, each carried by a function that does nothing.
ghost use Rattle.cite_schema.specs.Answers.{AlwaysGives, GivesOnce};
ghost use Rattle.cite_schema.specs.Headings.{SchemasAreWellNamed};
ghost use Rattle.cite_schema.specs.TableTexts.{SpellsOnce, SpellsTable};

/// Every plan has an answer on every table, and gives one text there: so 'the bytes of a query on a table' is one
/// text, and executing a query again gives it again.
pub fn answers_exist_and_are_unique()
    ensures exists { AlwaysGives }
    ensures unique { GivesOnce }
{}

/// A header record and the lines under it spell at most one table, and what they spell is a table of its columns.
pub fn a_table_text_spells_at_most_one_table()
    ensures once { SpellsOnce }
    ensures table { SpellsTable }
{}

/// Columns make a schema exactly where there are 1 to 64 of them, each name is of the name form, and no two have one
/// name.
pub fn schemas_are_well_named()
    ensures { SchemasAreWellNamed }
{}
