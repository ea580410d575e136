// The report of `frontier`.
ghost use Rattle.std.specs.Prelude.{◌≡◌, ◌++◌, OnOk, IfOk};
ghost use Rattle.msp_report.specs.FrontierText.{name_line, name_lines, list_lines, decided_lists, open_lists, frontier_report};

use crate::chain_text::put_ending;
use crate::lines::{put_name_line, put_number_line};
use msp_class::{Class, List, NoMemory};
use msp_closure::FrontierLists;
use msp_table::Chain;
use msp_text::put;
use std::alloc::Global;

#[tactic(auto, unfolding(crate::specs::FrontierText::name_line))]
fn put_name_lines(out: &mut Vec<u8>, classes: &[Class]) -> Result<(), NoMemory>
    ensures { OnOk result (out.new.items ≡ out.old.items ++ name_lines classes.now) }
{
    for c in classes {
        put_name_line(out, b"", *c)?;
    }
    Ok(())
}

/// Puts how many classes a list has, behind its heading, and their names.
#[tactic(auto, unfolding(crate::specs::Lines::number_line))]
fn put_list(out: &mut Vec<u8>, heading: &[u8], classes: &List<Class>) -> Result<(), NoMemory>
    ensures { OnOk result (out.new.items ≡ out.old.items ++ list_lines heading.now classes.now) }
{
    put(out, heading)?;
    put_number_line(out, b" ", classes.len() as u64)?;
    put_name_lines(out, classes.as_slice())
}

/// Puts the easy and the hard classes.
#[tactic(auto, unfolding(crate::specs::FrontierText::decided_lists))]
fn put_decided(out: &mut Vec<u8>, frontier: &FrontierLists) -> Result<(), NoMemory>
    ensures { OnOk result (out.new.items ≡ out.old.items ++ decided_lists frontier.now) }
{
    put_list(out, b"maximal easy", &frontier.easy)?;
    put_list(out, b"minimal hard", &frontier.hard)
}

/// Puts the open classes.
#[tactic(auto, unfolding(crate::specs::FrontierText::open_lists))]
fn put_open(out: &mut Vec<u8>, frontier: &FrontierLists) -> Result<(), NoMemory>
    ensures { OnOk result (out.new.items ≡ out.old.items ++ open_lists frontier.now) }
{
    put_list(out, b"minimal open", &frontier.low)?;
    put_list(out, b"maximal open", &frontier.high)
}

/// The report of `frontier`: how many classes each of the four lists has and their names, one a line, then the chains that show a
/// contradiction.
pub fn frontier_text(
    alloc: Global,
    frontier: &FrontierLists,
    clash: &Option<Chain>,
    strong_clash: &Option<Chain>,
) -> Result<Vec<u8>, NoMemory>
    ensures { IfOk result (λ text. text.items ≡ frontier_report frontier.now clash.now strong_clash.now) }
{
    let mut out = Vec::new(alloc);
    put_decided(&mut out, frontier)?;
    put_open(&mut out, frontier)?;
    put_ending(&mut out, clash, strong_clash)?;
    Ok(out)
}
