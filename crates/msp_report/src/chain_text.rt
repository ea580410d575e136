// The lines of chains.
ghost use Rattle.std.specs.Prelude.{◌≡◌, ◌++◌, OnOk};
ghost use Rattle.msp_report.specs.ChainText.{row_line, row_lines, chain_lines, headed_chain, clash_part, end_line};

use crate::lines::put_name_line;
use msp_class::{Class, NoMemory};
use msp_table::{Chain, Row, goes};
use msp_text::Part::{Number, Text};
use msp_text::{put, put_all};

/// Puts the line of a row and the class to which it leads.
#[tactic(auto, unfolding(crate::specs::ChainText::row_line))]
fn put_row(out: &mut Vec<u8>, row: Row, next: Class) -> Result<(), NoMemory>
    ensures { OnOk result (out.new.items ≡ out.old.items ++ row_line row next) }
{
    put_all(out, &[Text(b"row "), Number(u64::from(row.number()))])?;
    put_name_line(out, b" ", next)
}

fn put_rows(out: &mut Vec<u8>, from: Class, rows: &[Row]) -> Result<(), NoMemory>
    ensures { OnOk result (out.new.items ≡ out.old.items ++ row_lines from rows.now) }
{
    let mut here = from;
    for row in rows {
        match goes(*row, here) {
            Some(next) => {
                put_row(out, *row, next)?;
                here = next;
            }
            None => return Ok(()),
        }
    }
    Ok(())
}

#[tactic(auto, unfolding(crate::specs::ChainText::chain_lines))]
pub(crate) fn put_chain(out: &mut Vec<u8>, chain: &Chain) -> Result<(), NoMemory>
    ensures { OnOk result (out.new.items ≡ out.old.items ++ chain_lines chain.now) }
{
    put_name_line(out, b"start ", chain.from)?;
    put_rows(out, chain.from, chain.rows.as_slice())
}

/// Puts a chain below its heading, if there is one.
fn put_headed(out: &mut Vec<u8>, heading: &[u8], chain: &Option<Chain>) -> Result<(), NoMemory>
    ensures { OnOk result (out.new.items ≡ out.old.items ++ headed_chain heading.now chain.now) }
{
    match chain {
        None => Ok(()),
        Some(chain) => {
            put(out, heading)?;
            put_chain(out, chain)
        }
    }
}

/// Puts the chains that show a contradiction.
#[tactic(auto, unfolding(crate::specs::ChainText::clash_part))]
fn put_clash(
    out: &mut Vec<u8>,
    clash: &Option<Chain>,
    strong_clash: &Option<Chain>,
) -> Result<(), NoMemory>
    ensures { OnOk result (out.new.items ≡ out.old.items ++ clash_part clash.now strong_clash.now) }
{
    put_headed(out, b"clash\n", clash)?;
    put_headed(out, b"strong clash\n", strong_clash)
}

/// Puts the chains that show a contradiction, and the last line of the report.
pub(crate) fn put_ending(
    out: &mut Vec<u8>,
    clash: &Option<Chain>,
    strong_clash: &Option<Chain>,
) -> Result<(), NoMemory>
    ensures { OnOk result (out.new.items ≡ out.old.items ++ (clash_part clash.now strong_clash.now ++ end_line)) }
{
    put_clash(out, clash, strong_clash)?;
    put(out, b"end\n")
}
