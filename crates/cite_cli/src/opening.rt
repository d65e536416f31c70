// How a command opens the archive of the disk.
ghost use Rattle.std.specs.Prelude.{◌≡◌, ◌≤◌, ◌++◌, IfOk, IfErr, codes};
ghost use Rattle.std.specs.Fmt.{decimal};
ghost use Rattle.archive_journal.specs.declared.journal.Stage.TheVariants.{Settled};
ghost use Rattle.archive_core.specs.Keeping.{IsKept};
ghost use Rattle.archive_core.specs.Opening.{Resumes};
ghost use Rattle.cite_cli.specs.Seen.{on_disk};
ghost use Rattle.cite_cli.specs.Verify.{LosesNothing, UnopenedWrites, VerifyBreaks, IsQuiet};
ghost use Rattle.cite_cli.specs.Parts.{MayBeDue};

use crate::ending::Ending;
use crate::output::Due;
use archive_core::{Desk, ResumeFault};
use cite_disk::Disk;
use cite_schema::{ByteText, NoMemory};
use std::alloc::Global;

/// The desk of the archive that the disk keeps, or what is due where it can't be opened. It costs what opening costs.
pub fn open<D: Disk>(alloc: Global, disk: &mut D) -> Result<Desk, Due>
    ensures resumes { IfOk result (λ desk. Resumes D.honest (D.seen disk.old) (D.images disk.new) desk) }
    ensures settled { IfOk result (λ desk. desk.journal.stage ≡ Settled) }
    ensures kept { IfOk result (λ desk. D.honest → IsKept (D.images disk.new) desk) }
    ensures unopened { IfErr result (λ due. MayBeDue (UnopenedWrites (on_disk D.honest D.seen D.images D.moment D.left_since D.fault_count disk.old disk.new)) (VerifyBreaks (on_disk D.honest D.seen D.images D.moment D.left_since D.fault_count disk.old disk.new)) (IsQuiet (on_disk D.honest D.seen D.images D.moment D.left_since D.fault_count disk.old disk.new)) due) }
    ensures safe { D.honest → LosesNothing (on_disk D.honest D.seen D.images D.moment D.left_since D.fault_count disk.old disk.new) }
    ensures later { D.fault_count disk.old ≤ D.fault_count disk.new }
{
    match Desk::resume(alloc, disk) {
        Ok(desk) => Ok(desk),
        Err(fault) => match fault {
            ResumeFault::NotArchive => { Err(Due::of(Ending::NotArchive, no_archive_line(alloc))) }
            ResumeFault::Damaged { at } => {
                Err(Due::of(Ending::NotArchive, damaged_line(alloc, at)))
            }
            ResumeFault::DiskFailed => Err(Due::DiskFault),
            ResumeFault::NoMemory => Err(Due::NoMemory),
        },
    }
}

fn no_archive_line(alloc: Global) -> Result<ByteText, NoMemory>
    ensures { IfOk result (λ line. line ≡ codes "NotArchive\n") }
{
    Ok(ByteText::from_slice(alloc, b"NotArchive\n")?)
}

fn damaged_line(alloc: Global, at: u64) -> Result<ByteText, NoMemory>
    ensures { IfOk result (λ line. line ≡ codes "Damaged " ++ decimal at ++ codes "\n") }
{
    let line = format!(in alloc; "Damaged {at}\n")?;
    Ok(ByteText::from_vec(line.into_bytes()))
}
