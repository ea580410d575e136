// The records of a text, one by one.
ghost use Rattle.std.specs.Prelude.{◌≡◌, IfOk, IfErr, length, ◌≤◌};
ghost use Rattle.msp_results.specs.declared.limits.TheConstants.{LONGEST_FILE};
ghost use Rattle.csv.specs.Records.{fields_of};
ghost use Rattle.msp_results.specs.Records.{IsReading, NextRow, rows_left};
ghost use Rattle.csv.specs.Reading.{default_config, records, strip_bom};

use crate::fault::ResultFault;
use csv::{ByteRecord, Reader, ReaderBuilder};
use std::alloc::Global;

/// A reader of the records of a text of at most 4,194,304 bytes.
pub fn open(alloc: Global, text: &[u8]) -> Reader<&[u8]>
    requires { length text.now ≤ LONGEST_FILE }
    ensures reading { IsReading result }
    ensures rows { rows_left result ≡ records default_config (strip_bom text.now) }
{
    ReaderBuilder::new()
        .has_headers(false)
        .flexible(true)
        .from_reader(alloc, text)
}

/// Whether there is a next record, which `row` then holds.
pub fn next_row(reader: &mut Reader<&[u8]>, row: &mut ByteRecord) -> Result<bool, ResultFault>
    requires { IsReading reader.old }
    ensures row { IfOk result (λ found. NextRow found reader.old (fields_of row.new) reader.new) }
    ensures refused { IfErr result (λ fault. fault ≡ ResultFault.Memory) }
{
    match reader.read_byte_record(row) {
        Ok(found) => Ok(found),
        Err(error) => {
            drop(error);
            Err(ResultFault::Memory)
        }
    }
}
