// The header record of a table text.
ghost use Rattle.std.specs.Prelude.{IfOk, IfErr};
ghost use Rattle.csv_records.specs.Records.{IsReading, left_of};
ghost use Rattle.cite_cli.specs.Parts.{IsHeader, header_fault, Tells};

use crate::refusal::{Fault, Refusal};
use cite_schema::Schema;
use csv::{ByteRecord, Reader};
use csv_records::{read_next, read_schema};
use std::alloc::Global;

/// The schema of the columns that the reader's first record spells, with the other records left.
///
/// # Errors
///
/// `BadHeader`, where there is no record or it spells no columns.
pub fn read_header(alloc: Global, reader: &mut Reader<&[u8]>) -> Result<Schema, Fault>
    requires { IsReading reader.old }
    ensures ok { IfOk result (λ schema. IsHeader schema.columns (left_of reader.old) (left_of reader.new)) }
    ensures reading { IfOk result (λ schema. IsReading reader.new) }
    ensures why { IfErr result (λ fault. Tells (header_fault (left_of reader.old)) fault) }
{
    let mut head = ByteRecord::new(alloc);
    if !read_next(reader, &mut head)? {
        return Err(Fault::Refused(Refusal::BadHeader));
    }
    match read_schema(alloc, &head)? {
        Some(schema) => Ok(schema),
        None => Err(Fault::Refused(Refusal::BadHeader)),
    }
}
