// The entries of a file.
ghost use Rattle.std.specs.Prelude.{◌≡◌, ◌≤◌, ◌⊎◌, length, IfOk, Ok, Err, List as Items};
ghost use Rattle.msp_results.specs.declared.limits.TheConstants.{LONGEST_FILE};
ghost use Rattle.msp_closure.specs.declared.entry.Entry.{Entry};
ghost use Rattle.msp_results.specs.Reading.{entries_read, results_of};
ghost use Rattle.msp_results.specs.Records.{IsReading, rows_left};
ghost use Rattle.msp_results.specs.Results.{ResultsOf};

use crate::entries::{read_row, read_version};
use crate::fault::ResultFault;
use crate::limits::MOST_ENTRIES;
use crate::records::{next_row, open};
use crate::version::Version;
use csv::{ByteRecord, Reader};
use msp_class::List;
use msp_closure::Entry;
use std::alloc::Global;

/// The entries of the records that are left; `row` is room for one.
fn read_entries(
    alloc: Global,
    version: Version,
    reader: &mut Reader<&[u8]>,
    row: &mut ByteRecord,
) -> Result<List<Entry>, ResultFault>
    requires { IsReading reader.old }
    ensures { (result ≡ Err ResultFault.Memory) ⊎ (result ≡ entries_read version 1 (rows_left reader.old)) }
{
    let mut entries = List::new(alloc);
    let mut at: u32 = 1;
    'rows: loop {
        if !next_row(reader, row)? {
            return Ok(entries);
        }
        if at > MOST_ENTRIES {
            return Err(ResultFault::Many);
        }
        let entry = read_row(alloc, version, at, row)?;
        entries.put(entry)?;
        at += 1;
    }
}

/// The entries of the records of a file.
#[tactic(auto, unfolding(crate::specs::Reading::results_of))]
fn read_records(alloc: Global, bytes: &[u8]) -> Result<List<Entry>, ResultFault>
    requires { length bytes.now ≤ LONGEST_FILE }
    ensures { (result ≡ Err ResultFault.Memory) ⊎ (result ≡ results_of bytes.now) }
{
    let mut reader = open(alloc, bytes);
    let mut row = ByteRecord::new(alloc);
    if !next_row(&mut reader, &mut row)? {
        return Err(ResultFault::Header);
    }
    let Some(version) = read_version(&row) else {
        return Err(ResultFault::Header);
    };
    read_entries(alloc, version, &mut reader, &mut row)
}

/// The entries of a file of results, in order. A class may stand there more than once.
///
/// The file is CSV (RFC 4180). With the header `class,verdict,source` its verdicts are `easy` and `hard`, and with the header
/// `class,strength,source` they are `easy`, `pseudo`, `hard` and `strong`. Reading stops at the first fault. Out of memory, and whatever
/// else `csv` refuses, is answered as `Memory`.
pub fn read_results(alloc: Global, bytes: &[u8]) -> Result<List<Entry>, ResultFault>
    requires { length bytes.now ≤ LONGEST_FILE }
    ensures ok { IfOk result (λ entries. ResultsOf bytes.now entries) }
    ensures complete { (entries : Items Entry) → ResultsOf bytes.now entries
        → (result ≡ Err ResultFault.Memory) ⊎ (result ≡ Ok entries) }

    // The fault is the first that reading from the left comes to.
    ensures reading { (result ≡ Err ResultFault.Memory) ⊎ (result ≡ results_of bytes.now) }
{
    read_records(alloc, bytes)
}
