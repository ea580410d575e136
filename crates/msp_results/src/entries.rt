// The fields of one record.
ghost use Rattle.std.specs.Prelude.{◌≡◌, ◌<◌, ◌⊎◌, length, Err, option_map};
ghost use Rattle.csv.specs.Records.{fields_of};
ghost use Rattle.std.specs.List.{list_all};
ghost use Rattle.std.specs.Str.{is_utf8};
ghost use Rattle.msp_class.specs.declared.list.TheConstants.{PLACES};
ghost use Rattle.msp_results.specs.Reading.{column_read, fields_read, is_plain, is_printable, row_read, three_of, verdict_read, version_read, word_read};
ghost use Rattle.msp_results.specs.Records.{AreShort};
ghost use Rattle.msp_results.specs.Results.{has_verdict};

use crate::fault::ResultFault;
use crate::limits::LONGEST_SOURCE;
use crate::version::Version;
use csv::ByteRecord;
use msp_class::List;
use msp_closure::{Entry, Verdict};
use msp_name::parse;
use std::alloc::Global;

#[tactic(auto, using(crate::proofs::FieldLemmas::text_rules))]
fn is_text(source: &[u8]) -> bool
    ensures { result ≡ is_utf8 source.now }
{
    match str::from_utf8(source) {
        Ok(_) => true,
        Err(_) => false,
    }
}

fn has_no_control(source: &[u8]) -> bool
    ensures { result ≡ list_all is_printable source.now }
{
    source.iter().all(|byte| *byte >= 32 && *byte != 127)
}

#[tactic(auto, unfolding(crate::specs::Reading::is_plain))]
fn is_plain(source: &[u8]) -> bool
    ensures { result ≡ is_plain source.now }
{
    is_text(source) && has_no_control(source)
}

/// The verdict of a word, in any version.
fn read_word(word: &[u8]) -> Option<Verdict>
    ensures { result ≡ word_read word.now }
{
    if word == b"easy".as_slice() {
        Some(Verdict::Easy)
    } else if word == b"pseudo".as_slice() {
        Some(Verdict::Pseudo)
    } else if word == b"hard".as_slice() {
        Some(Verdict::Hard)
    } else if word == b"strong".as_slice() {
        Some(Verdict::Strong)
    } else {
        None
    }
}

/// Whether a file of the version may say the verdict.
fn has_verdict(version: Version, verdict: Verdict) -> bool
    ensures { result ≡ has_verdict version verdict }
{
    match version {
        Version::First => matches!(verdict, Verdict::Easy | Verdict::Hard),
        Version::Second => true,
    }
}

fn read_verdict(version: Version, word: &[u8]) -> Option<Verdict>
    ensures { result ≡ verdict_read version word.now }
{
    match read_word(word) {
        Some(verdict) if has_verdict(version, verdict) => Some(verdict),
        _ => None,
    }
}

#[tactic(auto, unfolding(crate::specs::Reading::fields_read))]
fn read_fields(
    alloc: Global,
    version: Version,
    at: u32,
    name: &[u8],
    verdict: &[u8],
    source: &[u8],
) -> Result<Entry, ResultFault>
    requires { length name.now < PLACES }
    ensures { (result ≡ Err ResultFault.Memory) ⊎ (result ≡ fields_read version at name.now verdict.now source.now) }
{
    let class = match parse(name) {
        Ok(class) => class,
        Err(fault) => return Err(ResultFault::Name { at, fault }),
    };
    let Some(verdict) = read_verdict(version, verdict) else {
        return Err(ResultFault::Verdict { at });
    };
    if !is_plain(source) {
        return Err(ResultFault::Source { at });
    }
    if source.len() > LONGEST_SOURCE {
        return Err(ResultFault::Long { at });
    }
    let bytes = source.to_vec(alloc)?;
    Ok(Entry {
        class,
        verdict,
        source: List::from_vec(bytes),
    })
}

/// The three fields of a record that has no other.
#[tactic(auto, using(crate::proofs::FieldLemmas::field_rules))]
fn three(row: &ByteRecord) -> Option<(&[u8], &[u8], &[u8])>
    ensures { option_map (λ t. (t.0.now, t.1.now, t.2.now)) result ≡ three_of (fields_of row.now) }
{
    let Some(first) = row.get(0) else {
        return None;
    };
    let Some(second) = row.get(1) else {
        return None;
    };
    let Some(third) = row.get(2) else {
        return None;
    };
    if row.len() != 3 {
        return None;
    }
    Some((first, second, third))
}

/// The version that calls its second column by the word.
fn read_column(word: &[u8]) -> Option<Version>
    ensures { result ≡ column_read word.now }
{
    if word == b"verdict".as_slice() {
        Some(Version::First)
    } else if word == b"strength".as_slice() {
        Some(Version::Second)
    } else {
        None
    }
}

/// The version of which the record is the header.
pub fn read_version(row: &ByteRecord) -> Option<Version>
    ensures { result ≡ version_read (fields_of row.now) }
{
    let Some((class, column, source)) = three(row) else {
        return None;
    };
    if class == b"class".as_slice() && source == b"source".as_slice() {
        read_column(column)
    } else {
        None
    }
}

/// The entry of the record with this number.
pub fn read_row(
    alloc: Global,
    version: Version,
    at: u32,
    row: &ByteRecord,
) -> Result<Entry, ResultFault>
    requires { AreShort (fields_of row.now) }
    ensures { (result ≡ Err ResultFault.Memory) ⊎ (result ≡ row_read version at (fields_of row.now)) }
{
    match three(row) {
        Some((name, verdict, source)) => read_fields(alloc, version, at, name, verdict, source),
        None => Err(ResultFault::Width { at }),
    }
}
