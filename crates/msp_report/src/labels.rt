// The report of `label`.
ghost use Rattle.std.specs.Prelude.{◌≡◌, ◌++◌, OnOk, IfOk};
ghost use Rattle.msp_closure.specs.Frontier.{mark_at};
ghost use Rattle.msp_report.specs.LabelsText.{label_text, label_line, label_lines, labels_report};

use crate::chain_text::put_ending;
use msp_class::{Class, List, NoMemory};
use msp_closure::{Labels, Mark, label};
use msp_name::print;
use msp_table::Chain;
use msp_text::Part::Text;
use msp_text::{put, put_all};
use std::alloc::Global;

/// The word of a mark.
pub(crate) fn word(mark: Mark) -> &'static [u8]
    ensures { result.now ≡ label_text mark }
{
    match mark {
        Mark::Both => b"both",
        Mark::Easy => b"easy",
        Mark::Torn => b"torn",
        Mark::Weak => b"weak",
        Mark::Strong => b"strong",
        Mark::Hard => b"hard",
        Mark::Pseudo => b"pseudo",
        Mark::Unsettled => b"open",
    }
}

/// The word of the mark of a class.
fn label_word(labels: &Labels, c: Class) -> &'static [u8]
    ensures { result.now ≡ label_text (mark_at labels.now c) }
{
    word(label(labels, c))
}

#[tactic(auto, unfolding(crate::specs::LabelsText::label_line))]
fn put_label(out: &mut Vec<u8>, labels: &Labels, c: Class) -> Result<(), NoMemory>
    ensures { OnOk result (out.new.items ≡ out.old.items ++ label_line labels.now c) }
{
    put(out, print(c).bytes())?;
    put_all(out, &[Text(b" "), Text(label_word(labels, c)), Text(b"\n")])
}

fn put_labels(out: &mut Vec<u8>, labels: &Labels, classes: &[Class]) -> Result<(), NoMemory>
    ensures { OnOk result (out.new.items ≡ out.old.items ++ label_lines labels.now classes.now) }
{
    for c in classes {
        put_label(out, labels, *c)?;
    }
    Ok(())
}

/// The report of `label`: a line `NAME LABEL` for each class, then the chains that show a contradiction.
pub fn labels_text(
    alloc: Global,
    labels: &Labels,
    classes: &List<Class>,
    clash: &Option<Chain>,
    strong_clash: &Option<Chain>,
) -> Result<Vec<u8>, NoMemory>
    ensures { IfOk result (λ text. text.items ≡ labels_report labels.now classes.now clash.now strong_clash.now) }
{
    let mut out = Vec::new(alloc);
    put_labels(&mut out, labels, classes.as_slice())?;
    put_ending(&mut out, clash, strong_clash)?;
    Ok(out)
}
