// The frontier: the easy, hard and open classes that chains of rows lead to or from last.
ghost use Rattle.std.specs.Prelude.{◌≡◌, ◌↔◌, ◌<◌, List, true, false, IfOk, IsTrue};
ghost use Rattle.msp_class.specs.declared.class.Class.{Class};
ghost use Rattle.msp_table.specs.Chains.{every_row, Reaches};
ghost use Rattle.msp_closure.specs.Tables.{is_flagged};
ghost use Rattle.msp_closure.specs.Frontier.{IsMaximal, IsMinimal, ListsInOrder, mark_at, says_easy, says_hard, says_open, HasMark, IsFrontier};
ghost use Rattle.msp_closure.specs.Entries.{AreLabels};
ghost use Rattle.msp_closure.specs.declared.entry.Entry.{Entry};
ghost use Rattle.msp_closure.specs.Standing.{has_standing, AreEnds};

use crate::class_table::{ClassTable, class_at};
use crate::entry::Mark;
use crate::labels::{Labels, label};
use crate::reach_bits::{ReachBits, next_reached, reach, reaches};
use msp_class::{CLASSES, Class, List, NoMemory, rank};
use std::alloc::Global;

/// The classes at which what is known ends, each list in order of rank.
#[derive(Drop)]
pub struct FrontierLists {
    /// The easy classes from which chains lead to no other easy ones but those that lead back.
    pub easy: List<Class>,
    /// The hard classes to which chains lead from no other hard ones but those that are led back to.
    pub hard: List<Class>,
    /// The same of the classes that are neither.
    pub low: List<Class>,
    /// The open classes from which chains lead to no other open ones but those that lead back.
    pub high: List<Class>,
}

/// What a mark says of a class.
#[derive(Clone, Copy, PartialEq, Eq)]
enum Standing {
    Easy,
    Hard,
    Open,
}

/// The maximal easy, minimal hard, minimal open and maximal open classes.
pub fn frontier(alloc: Global, labels: &Labels) -> Result<FrontierLists, NoMemory>
    ensures easy { IfOk result (λ lists. ListsInOrder (IsMaximal (HasMark says_easy labels.now)) lists.easy) }
    ensures hard { IfOk result (λ lists. ListsInOrder (IsMinimal (HasMark says_hard labels.now)) lists.hard) }
    ensures low { IfOk result (λ lists. ListsInOrder (IsMinimal (HasMark says_open labels.now)) lists.low) }
    ensures high { IfOk result (λ lists. ListsInOrder (IsMaximal (HasMark says_open labels.now)) lists.high) }
    ensures known { IfOk result (λ lists. (es : List Entry) → AreLabels es labels.now → IsFrontier es lists) }
{
    let bits = reach(alloc)?;
    let lists = frontier_over(alloc, &bits, labels)?;
    Ok(lists)
}

/// The same, over where each class leads.
fn frontier_over(
    alloc: Global,
    bits: &ReachBits,
    labels: &Labels,
) -> Result<FrontierLists, NoMemory>
    ensures { IfOk result (λ lists. AreEnds labels.now lists) }
{
    let easy = maximal(alloc, bits, labels, Standing::Easy)?;
    let hard = minimal(alloc, bits, labels, Standing::Hard)?;
    let low = minimal(alloc, bits, labels, Standing::Open)?;
    let high = maximal(alloc, bits, labels, Standing::Open)?;
    Ok(FrontierLists {
        easy,
        hard,
        low,
        high,
    })
}

/// The maximal classes of a standing.
fn maximal(
    alloc: Global,
    bits: &ReachBits,
    labels: &Labels,
    standing: Standing,
) -> Result<List<Class>, NoMemory>
    ensures { IfOk result (λ classes. ListsInOrder (IsMaximal (HasMark (has_standing standing) labels.now)) classes) }
{
    let set = with_standing(alloc, labels, standing)?;
    let mut left = with_standing(alloc, labels, standing)?;
    keep_maximal(bits, &set, &mut left);
    in_order(alloc, &left)
}

/// The minimal classes of a standing.
fn minimal(
    alloc: Global,
    bits: &ReachBits,
    labels: &Labels,
    standing: Standing,
) -> Result<List<Class>, NoMemory>
    ensures { IfOk result (λ classes. ListsInOrder (IsMinimal (HasMark (has_standing standing) labels.now)) classes) }
{
    let set = with_standing(alloc, labels, standing)?;
    let mut left = with_standing(alloc, labels, standing)?;
    keep_minimal(bits, &set, &mut left);
    in_order(alloc, &left)
}

/// Flags the classes of a standing.
fn with_standing(
    alloc: Global,
    labels: &Labels,
    standing: Standing,
) -> Result<ClassTable<bool>, NoMemory>
    ensures { IfOk result (λ table. (c : Class) → is_flagged table c ≡ has_standing standing (mark_at labels.now c)) }
{
    let mut table = ClassTable::new(alloc, false)?;
    for n in 0..CLASSES {
        let c = class_at(n);
        table.set(c, has_standing(standing, label(labels, c)));
    }
    Ok(table)
}

/// Whether a mark puts a class on a side.
fn has_standing(standing: Standing, mark: Mark) -> bool
    ensures { result ≡ has_standing standing mark }
{
    match mark {
        Mark::Easy => standing == Standing::Easy,
        Mark::Hard | Mark::Strong | Mark::Weak | Mark::Torn => standing == Standing::Hard,
        Mark::Pseudo | Mark::Unsettled => standing == Standing::Open,
        Mark::Both => standing != Standing::Open,
    }
}

/// Takes the flag from each class that is not maximal among the flagged ones.
fn keep_maximal(bits: &ReachBits, set: &ClassTable<bool>, left: &mut ClassTable<bool>)
    requires { (c : Class) → is_flagged left.old c ≡ is_flagged set.now c }
    ensures { (c : Class) → (is_flagged left.new c ≡ true) ↔ IsMaximal (λ b. is_flagged set.now b ≡ true) c }
{
    for n in 0..CLASSES {
        let c = class_at(n);
        if is_beaten(bits, set, c) {
            left.set(c, false);
        }
    }
}

/// Takes the flag from each class that is not minimal among the flagged ones.
fn keep_minimal(bits: &ReachBits, set: &ClassTable<bool>, left: &mut ClassTable<bool>)
    requires { (c : Class) → is_flagged left.old c ≡ is_flagged set.now c }
    ensures { (c : Class) → (is_flagged left.new c ≡ true) ↔ IsMinimal (λ b. is_flagged set.now b ≡ true) c }
{
    for n in 0..CLASSES {
        let c = class_at(n);
        if set.at(c) {
            strike(bits, left, c);
        }
    }
}

/// Whether the class is flagged and leads to a flagged one that does not lead back to it.
fn is_beaten(bits: &ReachBits, set: &ClassTable<bool>, c: Class) -> bool
    ensures beaten { result ≡ true → ¬ IsMaximal (λ b. is_flagged set.now b ≡ true) c }
    ensures not_beaten { result ≡ false → is_flagged set.now c ≡ true → IsMaximal (λ b. is_flagged set.now b ≡ true) c }
{
    set.at(c) && !is_led_back(bits, set, c)
}

/// Whether each flagged class to which the class leads leads back to it.
fn is_led_back(bits: &ReachBits, set: &ClassTable<bool>, c: Class) -> bool
    ensures { IsTrue result ↔ ((b : Class) → is_flagged set.now b ≡ true → Reaches every_row c b → Reaches every_row b c) }
{
    let mut from = 0;
    'reached: while let Some(b) = next_reached(bits, c, from) {
        if set.at(b) && !reaches(bits, b, c) {
            return false;
        }
        from = rank(b) + 1;
    }
    true
}

/// Takes the flag from each class to which the class leads and that does not lead back to it.
fn strike(bits: &ReachBits, left: &mut ClassTable<bool>, c: Class)
    ensures { (b : Class) → is_flagged left.new b ≡ true ↔ ((is_flagged left.old b ≡ true) × (Reaches every_row c b → Reaches every_row b c)) }
{
    let mut from = 0;
    'reached: while let Some(b) = next_reached(bits, c, from) {
        if !reaches(bits, b, c) {
            left.set(b, false);
        }
        from = rank(b) + 1;
    }
}

/// The flagged classes in order of rank.
fn in_order(alloc: Global, table: &ClassTable<bool>) -> Result<List<Class>, NoMemory>
    ensures { IfOk result (λ classes. ListsInOrder (λ c. is_flagged table.now c ≡ true) classes) }
{
    let mut classes = List::new(alloc);
    for n in 0..CLASSES {
        let c = class_at(n);
        if table.at(c) {
            classes.put(c)?;
        }
    }
    Ok(classes)
}
