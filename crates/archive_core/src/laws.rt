// What the bytes of an archive mean, as laws.
ghost use Rattle.archive_core.specs.Opening.{NoArchiveStandsForNone, OneHistory, SpoiltStandsForNone};

/// A law, in the clause; it does nothing. A file stands for one legal history at most.
pub fn one_file_one_history()
    ensures { OneHistory }
{}

/// A law, in the clauses; it does nothing. A file that [`Desk::resume`](crate::Desk::resume) refuses stands for no legal
/// history: neither one that is damaged, nor one that doesn't begin as an archive's journal.
pub fn a_refused_file_stands_for_none()
    ensures damaged { SpoiltStandsForNone }
    ensures not_archive { NoArchiveStandsForNone }
{}
