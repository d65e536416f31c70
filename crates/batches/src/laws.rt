// What holds of all bodies.
ghost use Rattle.batches.specs.Laws.{FirstBrokenIsTold, BatchesBreakNone};

/// A fault is told of a body exactly where it is that of the first rule that the body breaks: of its header, of the number
/// of its lines, and then of the first line that breaks one, where the lines before it are spelled, and no two of them name
/// one key. A law: the call does nothing.
pub fn the_first_broken_line_is_told()
    ensures { FirstBrokenIsTold }
{}

/// Lines are told, and no fault, exactly where the body is a batch of these lines: a header, and 1 to 20,000 records that
/// spell them, of which no two name one key. A law: the call does nothing.
pub fn batches_break_no_rule()
    ensures { BatchesBreakNone }
{}
