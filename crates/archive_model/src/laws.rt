// Laws of archives.
ghost use Rattle.archive_model.specs.ArchiveLaws.{StepsHaveOneOutcome, HistoriesLeadToOneArchive, CitationsResolve, CountsKeepTheirLimits, CitationsDifferBeforeMigrations, HarmlessMigrationsHarmNone, HistoriesGrowByEntries};
ghost use Rattle.archive_model.specs.OutcomeLaws.{CitationsHaveAnOutcome, MigrationsHaveAnOutcome};
ghost use Rattle.archive_model.specs.AgreeingLaws.{ExecutingAgainGivesTheBytes, RowsStayInStep, BodiesSpellGoodLines};

/// A citation and a migration have one outcome at most, as a batch has.
pub fn steps_have_one_outcome()
    ensures { StepsHaveOneOutcome }
{}

/// In every archive to which a history leads, a citation has an outcome at every moment. So what is said of a citation's
/// outcome is said of something.
pub fn citations_have_an_outcome()
    ensures { CitationsHaveAnOutcome }
{}

/// Likewise a migration has one, whatever its steps are.
pub fn migrations_have_an_outcome()
    ensures { MigrationsHaveAnOutcome }
{}

/// A history leads to one archive at most.
pub fn a_history_leads_to_one_archive()
    ensures { HistoriesLeadToOneArchive }
{}

/// An entry that the archive makes can stand behind the history, and a history has as many entries as its archive has
/// versions and citations.
pub fn histories_grow_by_entries()
    ensures { HistoriesGrowByEntries }
{}

/// In every archive to which a history leads, each version has a table in the present schema, and each citation's
/// present form is settled for that schema and gives on the table of its version the bytes that were minted with it.
pub fn citations_resolve()
    ensures { CitationsResolve }
{}

/// In every archive to which a history leads, citations are numbered from 1 on, the stamps of versions never fall,
/// the schema's number is one more than the number of migrations, no count is over its limit, no citation's bytes are
/// more than 67,108,864, and the journal has the length of the history.
pub fn counts_keep_their_limits()
    ensures { CountsKeepTheirLimits }
{}

/// Before any migration no two citations gave the same bytes and have forms that ask the same. After one they may: with
/// the sets {5} and {5, 7}, the recoding of 5 to 7 carries both forms to one.
pub fn citations_differ_before_migrations()
    ensures { CitationsDifferBeforeMigrations }
{}

/// A migration that only renames, adds, or scales columns that a citation's form does not print does not harm that
/// citation.
pub fn harmless_migrations_harm_none()
    ensures { HarmlessMigrationsHarmNone }
{}

/// Where rows agree with an archive to which a history leads, each citation's present form gives, on the rows as of
/// its version, the bytes that were minted with it.
pub fn executing_again_gives_the_bytes()
    ensures { ExecutingAgainGivesTheBytes }
{}

/// What the calls of the rows ensure is enough: rows that agree with an archive agree after a batch and a migration,
/// and tell its count and its weight.
pub fn rows_stay_in_step()
    ensures { RowsStayInStep }
{}

/// The lines that a body spells fit the columns and name no key twice.
pub fn bodies_spell_good_lines()
    ensures { BodiesSpellGoodLines }
{}
