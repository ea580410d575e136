// The report of `why`.
ghost use Rattle.std.specs.Prelude.{◌≡◌, ◌++◌, ◌∷◌, [], OnOk, IfOk};
ghost use Rattle.std.specs.Option.{is_some};
ghost use Rattle.msp_table.specs.Rows.{keeps_size};
ghost use Rattle.msp_table.specs.Chains.{every_row};
ghost use Rattle.msp_closure.specs.Entries.{easy_listed, pseudo_listed, hard_listed, strong_listed, IsWay, makes, mark_of};
ghost use Rattle.msp_report.specs.WhyText.{source_text, record_line, lists, first_record, last_class, part_to, part_from, upper_part, lower_part, why_head, IsWhyText};

use crate::chain_text::{put_chain, put_ending};
use crate::labels::word;
use crate::lines::put_class_line;
use msp_class::{Class, List, NoMemory, rank};
use msp_closure::{Entry, Mark, Verdict, clash, strong_clash};
use msp_table::{Chain, goes};
use msp_text::Part::{Number, Text};
use msp_text::{put, put_all};
use std::alloc::Global;

fn put_source(out: &mut Vec<u8>, source: &[u8]) -> Result<(), NoMemory>
    ensures { OnOk result (out.new.items ≡ out.old.items ++ source_text source.now) }
{
    match source {
        [] => Ok(()),
        [..] => put_all(out, &[Text(b" "), Text(source)]),
    }
}

/// Puts the line of an entry and its number.
#[tactic(auto, unfolding(crate::specs::WhyText::record_line))]
fn put_record(out: &mut Vec<u8>, number: usize, entry: &Entry) -> Result<(), NoMemory>
    ensures { OnOk result (out.new.items ≡ out.old.items ++ record_line number entry.now) }
{
    put_all(out, &[Text(b"record "), Number(number as u64)])?;
    put_source(out, entry.source.as_slice())?;
    put(out, b"\n")
}

/// Whether an entry lists a class with a verdict that makes the claim.
fn lists(claim: Verdict, c: Class, entry: &Entry) -> bool
    ensures { result ≡ lists (makes claim) c entry.now }
{
    entry.verdict.makes(claim) && rank(entry.class) == rank(c)
}

/// Puts the line of the first entry that lists a class with a verdict that makes the claim.
#[tactic(auto, unfolding(crate::specs::WhyText::first_record))]
fn put_first_record(
    out: &mut Vec<u8>,
    claim: Verdict,
    entries: &[Entry],
    c: Class,
) -> Result<(), NoMemory>
    ensures { OnOk result (out.new.items ≡ out.old.items ++ first_record (makes claim) entries.now c) }
{
    for (at, entry) in entries.iter().enumerate() {
        if lists(claim, c, entry) {
            return put_record(out, at + 1, entry);
        }
    }
    Ok(())
}

/// The class to which a chain leads.
fn last_class(chain: &Chain) -> Class
    ensures { result ≡ last_class chain.now.from chain.now.rows }
{
    let mut here = chain.from;
    for row in chain.rows.as_slice() {
        match goes(*row, here) {
            Some(next) => here = next,
            None => return here,
        }
    }
    here
}

/// Puts a chain from the class to a listed one, and the record of that one.
fn put_part_to(
    out: &mut Vec<u8>,
    heading: &[u8],
    claim: Verdict,
    entries: &[Entry],
    chain: &Option<Chain>,
) -> Result<(), NoMemory>
    ensures { OnOk result (out.new.items ≡ out.old.items ++ part_to heading.now (makes claim) entries.now chain.now) }
{
    match chain {
        None => Ok(()),
        Some(chain) => {
            put(out, heading)?;
            put_chain(out, chain)?;
            put_first_record(out, claim, entries, last_class(chain))
        }
    }
}

/// Puts the record of a listed class, and a chain from it to the class.
fn put_part_from(
    out: &mut Vec<u8>,
    heading: &[u8],
    claim: Verdict,
    entries: &[Entry],
    chain: &Option<Chain>,
) -> Result<(), NoMemory>
    ensures { OnOk result (out.new.items ≡ out.old.items ++ part_from heading.now (makes claim) entries.now chain.now) }
{
    match chain {
        None => Ok(()),
        Some(chain) => {
            put(out, heading)?;
            put_first_record(out, claim, entries, chain.from)?;
            put_chain(out, chain)
        }
    }
}

/// Puts why the class is easy or, where it is not, why it is pseudopolynomial.
fn put_upper(
    out: &mut Vec<u8>,
    entries: &[Entry],
    easy: &Option<Chain>,
    pseudo: &Option<Chain>,
) -> Result<(), NoMemory>
    ensures { OnOk result (out.new.items ≡ out.old.items ++ upper_part entries.now easy.now pseudo.now) }
{
    match easy {
        None => put_part_to(out, b"pseudo\n", Verdict::Pseudo, entries, pseudo),
        Some(_) => put_part_to(out, b"easy\n", Verdict::Easy, entries, easy),
    }
}

/// Puts why the class is hard, and why in the strong sense.
fn put_lower(
    out: &mut Vec<u8>,
    entries: &[Entry],
    hard: &Option<Chain>,
    strong: &Option<Chain>,
) -> Result<(), NoMemory>
    ensures { OnOk result (out.new.items ≡ out.old.items ++ lower_part entries.now hard.now strong.now) }
{
    put_part_from(out, b"hard\n", Verdict::Hard, entries, hard)?;
    put_part_from(out, b"strong\n", Verdict::Strong, entries, strong)
}

/// Puts the class and its label.
#[tactic(auto, unfolding(crate::specs::Lines::class_line))]
fn put_head(out: &mut Vec<u8>, c: Class, mark: Mark) -> Result<(), NoMemory>
    ensures { OnOk result (out.new.items ≡ out.old.items ++ why_head c mark) }
{
    put_class_line(out, c)?;
    put_all(out, &[Text(b"label "), Text(word(mark)), Text(b"\n")])
}

/// The mark of a class by the chains that show what it is.
fn mark_by(
    easy: &Option<Chain>,
    pseudo: &Option<Chain>,
    hard: &Option<Chain>,
    strong: &Option<Chain>,
) -> Mark
    ensures { result ≡ mark_of (is_some easy.now) (is_some pseudo.now) (is_some hard.now) (is_some strong.now) }
{
    Mark::of(
        easy.is_some(),
        pseudo.is_some(),
        hard.is_some(),
        strong.is_some(),
    )
}

/// Puts the class, its label and the chains that show it.
fn put_shown(
    out: &mut Vec<u8>,
    entries: &List<Entry>,
    class: Class,
    easy: &Option<Chain>,
    pseudo: &Option<Chain>,
    hard: &Option<Chain>,
    strong: &Option<Chain>,
) -> Result<(), NoMemory>
    ensures { OnOk result (out.new.items ≡ out.old.items ++ (
        why_head class (mark_of (is_some easy.now) (is_some pseudo.now) (is_some hard.now) (is_some strong.now))
        ++ upper_part entries.now easy.now pseudo.now ++ lower_part entries.now hard.now strong.now)) }
{
    put_head(out, class, mark_by(easy, pseudo, hard, strong))?;
    put_upper(out, entries.as_slice(), easy, pseudo)?;
    put_lower(out, entries.as_slice(), hard, strong)
}

/// The report of `why`: the class and its label, the chains that show it, then the chains that show a contradiction. The four chains
/// are those of the closure's calls.
pub fn why_text(
    alloc: Global,
    entries: &List<Entry>,
    class: Class,
    easy: &Option<Chain>,
    pseudo: &Option<Chain>,
    hard: &Option<Chain>,
    strong: &Option<Chain>,
) -> Result<Vec<u8>, NoMemory>
    requires easy_chain { IsWay every_row (easy_listed entries.now) (class ∷ []) easy.now }
    requires pseudo_chain { IsWay keeps_size (pseudo_listed entries.now) (class ∷ []) pseudo.now }
    requires hard_chain { IsWay every_row (class ∷ []) (hard_listed entries.now) hard.now }
    requires strong_chain { IsWay keeps_size (class ∷ []) (strong_listed entries.now) strong.now }
    ensures { IfOk result (λ text. IsWhyText entries.now class easy.now pseudo.now hard.now strong.now text.items) }
{
    let clash = clash(alloc, entries)?;
    let strong_clash = strong_clash(alloc, entries)?;
    let mut out = Vec::new(alloc);
    put_shown(&mut out, entries, class, easy, pseudo, hard, strong)?;
    put_ending(&mut out, &clash, &strong_clash)?;
    Ok(out)
}
