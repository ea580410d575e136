// The answers to questions about a file of results.
ghost use Rattle.std.specs.Prelude.{◌≤◌, List as Items, length, IfOk};
ghost use Rattle.msp_class.specs.declared.class.Class.{Class as ClassValue};
ghost use Rattle.msp_closure.specs.declared.entry.Entry.{Entry as EntryValue};
ghost use Rattle.msp_top.specs.Results.{AreAllClasses};
ghost use Rattle.msp_top.specs.Reports.{AreClashes, HasClashStatus, AreShown, IsLabelReport, IsFrontierReport, IsWhyReport, IsReportOn, ReadsResults};
ghost use Rattle.msp_top.specs.Answers.{Answers};

use crate::answers::{INPUT_LIMIT, Report};
use crate::command::Question;
use crate::refusal::Refusal;
use crate::statuses::{NO, WRITTEN};
use msp_class::{CLASSES, Class, List, NoMemory, unrank};
use msp_closure::{
    Entry, clash, close, frontier, strong_clash, why_easy, why_hard, why_pseudo, why_strong,
};
use msp_report::{frontier_text, labels_text, why_text};
use msp_results::read_results;
use msp_table::Chain;
use std::alloc::Global;

/// The answer to a question and a whole input.
pub fn answer_question(alloc: Global, question: &Question, input: &[u8]) -> Result<Report, Refusal>
    requires { length input.now ≤ INPUT_LIMIT }
    ensures { Answers (ReadsResults question.now input.now) result }
{
    let entries = read_results(alloc, input)?;
    Ok(report_on(alloc, question, &entries)?)
}

fn report_on(alloc: Global, question: &Question, entries: &List<Entry>) -> Result<Report, NoMemory>
    ensures status { IfOk result (λ made. HasClashStatus entries.now made.status) }
    ensures text { IfOk result (λ made. IsReportOn question.now entries.now made.text.items) }
{
    let clashes = Clashes {
        clash: clash(alloc, entries)?,
        strong_clash: strong_clash(alloc, entries)?,
    };
    let text = text_on(alloc, question, entries, &clashes)?;
    Ok(Report {
        status: status_of(&clashes),
        text,
    })
}

/// The chains that show how the entries contradict themselves.
#[derive(Drop)]
struct Clashes {
    clash: Option<Chain>,
    strong_clash: Option<Chain>,
}

fn status_of(clashes: &Clashes) -> u8
    ensures { (entries : Items EntryValue) → AreClashes entries clashes.now.clash clashes.now.strong_clash → HasClashStatus entries result }
{
    if clashes.clash.is_some() || clashes.strong_clash.is_some() {
        NO
    } else {
        WRITTEN
    }
}

fn text_on(
    alloc: Global,
    question: &Question,
    entries: &List<Entry>,
    clashes: &Clashes,
) -> Result<Vec<u8>, NoMemory>
    requires { AreClashes entries.now clashes.now.clash clashes.now.strong_clash }
    ensures { IfOk result (λ text. IsReportOn question.now entries.now text.items) }
{
    match question {
        Question::Label { classes } => text_of_labels(alloc, classes, entries, clashes),
        Question::Frontier => text_of_frontier(alloc, entries, clashes),
        Question::Why { class } => text_of_why(alloc, *class, entries),
    }
}

/// The labels of the classes, or of all classes where there are none.
fn text_of_labels(
    alloc: Global,
    classes: &List<Class>,
    entries: &List<Entry>,
    clashes: &Clashes,
) -> Result<Vec<u8>, NoMemory>
    requires { AreClashes entries.now clashes.now.clash clashes.now.strong_clash }
    ensures { IfOk result (λ text. IsLabelReport classes.now entries.now text.items) }
{
    if classes.len() == 0 {
        let all = all_classes(alloc)?;
        text_of_shown(alloc, &all, entries, clashes)
    } else {
        text_of_shown(alloc, classes, entries, clashes)
    }
}

/// All classes, in order of rank.
fn all_classes(alloc: Global) -> Result<List<Class>, NoMemory>
    ensures { IfOk result (λ classes. AreAllClasses classes) }
{
    let mut classes = List::new(alloc);
    for n in 0..CLASSES {
        let Some(class) = unrank(n) else {
            unreachable!();
        };
        classes.put(class)?;
    }
    Ok(classes)
}

fn text_of_shown(
    alloc: Global,
    shown: &List<Class>,
    entries: &List<Entry>,
    clashes: &Clashes,
) -> Result<Vec<u8>, NoMemory>
    requires { AreClashes entries.now clashes.now.clash clashes.now.strong_clash }
    ensures { (classes : Items ClassValue) → AreShown classes shown.now → IfOk result (λ text. IsLabelReport classes entries.now text.items) }
{
    let labels = close(alloc, entries)?;
    labels_text(alloc, &labels, shown, &clashes.clash, &clashes.strong_clash)
}

fn text_of_frontier(
    alloc: Global,
    entries: &List<Entry>,
    clashes: &Clashes,
) -> Result<Vec<u8>, NoMemory>
    requires { AreClashes entries.now clashes.now.clash clashes.now.strong_clash }
    ensures { IfOk result (λ text. IsFrontierReport entries.now text.items) }
{
    let labels = close(alloc, entries)?;
    let lists = frontier(alloc, &labels)?;
    frontier_text(alloc, &lists, &clashes.clash, &clashes.strong_clash)
}

fn text_of_why(alloc: Global, class: Class, entries: &List<Entry>) -> Result<Vec<u8>, NoMemory>
    ensures { IfOk result (λ text. IsWhyReport class entries.now text.items) }
{
    let easy = why_easy(alloc, entries, class)?;
    let pseudo = why_pseudo(alloc, entries, class)?;
    let hard = why_hard(alloc, entries, class)?;
    let strong = why_strong(alloc, entries, class)?;
    why_text(alloc, entries, class, &easy, &pseudo, &hard, &strong)
}
