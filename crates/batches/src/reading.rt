// What is read of the lines of a body.
ghost use Rattle.std.specs.Prelude.{◌≡◌, ◌≤◌, ◌<◌, ◌+◌, length, OnOk};
ghost use Rattle.csv.specs.Records.{fields_of};
ghost use Rattle.batches.specs.Parts.{read_after};

use crate::fault::BatchFault;
use crate::line::read_line;
use cite_schema::{Column, Line, List, NoMemory};
use csv::{ByteRecord, Reader};
use csv_records::read_next;
use std::alloc::Global;

/// The most lines of a batch.
const MOST_LINES: u32 = 20_000;

/// The lines up to the first that has a fault of its own, and this fault. Keys are not looked at.
#[derive(Drop)]
pub(crate) struct Collected {
    pub lines: List<Line>,
    pub fault: Option<BatchFault>,
}

impl Collected {
    // Reads the record of a line, unless one before it had a fault.
    fn take(
        &mut self,
        alloc: Global,
        columns: &[Column],
        line: u32,
        fields: &ByteRecord,
    ) -> Result<(), NoMemory>
        requires some { 0 < length columns.now }
        requires few { length columns.now ≤ 64 }
        ensures { OnOk result (self.new ≡ read_after columns.now line (fields_of fields.now) self.old.fault self.old) }
    {
        if self.fault.is_some() {
            return Ok(());
        }
        match read_line(alloc, columns, line, fields) {
            Ok(read) => self.lines.push(read)?,
            Err(BatchFault::NoMemory) => return Err(NoMemory),
            Err(fault) => self.fault = Some(fault),
        }
        Ok(())
    }
}

ghost use Rattle.std.specs.Prelude.{IfOk, IfErr};
ghost use Rattle.csv_records.specs.Records.{IsReading, left_of};
ghost use Rattle.batches.specs.Parts.{IsCollected, IsRefused, HaveKeys};

/// What the records that the reader has left say, in one pass that ends at line 20,001.
///
/// # Errors
///
/// `EmptyBatch`, where none is left; `TooManyLines`, where more than 20,000 are.
pub(crate) fn read_lines(
    alloc: Global,
    columns: &[Column],
    reader: &mut Reader<&[u8]>,
) -> Result<Collected, BatchFault>
    requires reading { IsReading reader.old }
    requires some { 0 < length columns.now }
    requires few { length columns.now ≤ 64 }
    ensures ok { IfOk result (λ read. IsCollected columns.now (left_of reader.old) read) }
    ensures keys { IfOk result (λ read. HaveKeys read.lines) }
    ensures lines { IfOk result (λ read. length read.lines ≤ 20000) }
    ensures why { IfErr result (λ fault. IsRefused (left_of reader.old) fault) }
{
    let mut read = Collected {
        lines: List::new(alloc),
        fault: None,
    };
    let mut fields = ByteRecord::new(alloc);
    let mut line = 0;
    while read_next(reader, &mut fields)? {
        if line == MOST_LINES {
            return Err(BatchFault::TooManyLines);
        }
        line += 1;
        read.take(alloc, columns, line, &fields)?;
    }
    if line == 0 {
        return Err(BatchFault::EmptyBatch);
    }
    Ok(read)
}
