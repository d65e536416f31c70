// What the bytes of a journal mean, as laws.
ghost use Rattle.archive_journal.specs.Laws.{OneList, OneOfTwo};

/// Two laws, in the clauses; it does nothing. A file stands for one list of payloads at most, and one that a crash left
/// between two lists stands for one of them.
pub fn one_file_one_list()
    ensures one_list { OneList }
    ensures one_of_two { OneOfTwo }
{}
