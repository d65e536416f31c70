// What holds of all inputs and disks.
ghost use Rattle.cite_cli.specs.Refusals.{FirstBrokenIsTold, TablesBreakNone};
ghost use Rattle.cite_cli.specs.Select.{OneOutputIsDue};
ghost use Rattle.cite_cli.specs.Seen.{on_disk};
ghost use Rattle.cite_cli.specs.Completing.{InitCompletes, SessionCompletes, VerifyCompletes};

use cite_disk::Disk;

/// For an input of `select` one output alone is due: its result, or the line of the first rule that it breaks. So each
/// refusal comes exactly where its rule is the first that is broken. A law: the call does nothing.
pub fn one_output_is_due()
    ensures { OneOutputIsDue }
{}

/// The rule of a line that is told is that of the first line that breaks one: the lines before it spell rows, of which no
/// two have one key. No rule is told exactly where the lines are those of a table. A law: the call does nothing.
pub fn the_first_broken_line_is_told()
    ensures first { FirstBrokenIsTold }
    ensures none { TablesBreakNone }
{}

/// Where neither the sink nor an honest disk counts a fault, `init` is done on an empty disk, if its words and the moment
/// break no rule, and `verify` on a disk whose bytes stand for a legal history; so is `session` there, where its source
/// counts no fault either, over an input that is whole messages, none of which breaks, and then every message was answered.
/// Or memory is wanting. No other answer can stand there. A law: the call does nothing.
pub fn a_run_without_a_fault_is_done<D: Disk>()
    ensures init { (old new : D) → InitCompletes (on_disk D.honest D.seen D.images D.moment D.left_since D.fault_count old new) }
    ensures verify { (old new : D) → VerifyCompletes (on_disk D.honest D.seen D.images D.moment D.left_since D.fault_count old new) }
    ensures session { (old new : D) → SessionCompletes (on_disk D.honest D.seen D.images D.moment D.left_since D.fault_count old new) }
{}
