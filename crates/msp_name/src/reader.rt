// How a name is read: part by part, from the left, up to the first fault.
ghost use Rattle.std.specs.Prelude.{◌≡◌, ◌+◌, ◌<◌, ◌∷◌, [], length, MatchOption, Ok, ◌↔◌, position, ◌==◌};
ghost use Rattle.msp_class.specs.declared.list.TheConstants.{PLACES};
ghost use Rattle.msp_class.specs.declared.class.Class.{Class};
ghost use Rattle.msp_name.specs.Items.{bare, has_item, with_item, with_order, with_short, with_times};
ghost use Rattle.msp_name.specs.Names.{comma, NameOf};
ghost use Rattle.msp_name.specs.Reading.{item_read, items_read, words, fields_read, parts, reading_of};

use crate::fault::NameFault;
use crate::words::{Item, read_crit, read_env, read_item};
use msp_class::{Class, Crit, Env, Order, Times};

/// Whether the class has the item.
pub fn has_item(class: Class, item: Item) -> bool
    ensures { result ≡ has_item class item }
{
    match item {
        Item::Cut => class.cut,
        Item::Chains => matches!(class.order, Order::Chains),
        Item::Intree => matches!(class.order, Order::Intree),
        Item::Outtree => matches!(class.order, Order::Outtree),
        Item::Prec => matches!(class.order, Order::Prec),
        Item::Heads => class.heads,
        Item::Unit => matches!(class.times, Times::Unit),
        Item::Equal => matches!(class.times, Times::Equal),
        Item::Short => matches!(class.env, Env::J2Short | Env::JShort),
    }
}

fn with_order(class: Class, order: Order) -> Option<Class>
    ensures { result ≡ with_order class order }
{
    match class.order {
        Order::Free => Some(Class { order, ..class }),
        _ => None,
    }
}

fn with_times(class: Class, times: Times) -> Option<Class>
    ensures { result ≡ with_times class times }
{
    match class.times {
        Times::General => Some(Class { times, ..class }),
        _ => None,
    }
}

fn with_short(class: Class) -> Option<Class>
    ensures { result ≡ with_short class }
{
    match class.env {
        Env::J2 => Some(Class {
            env: Env::J2Short,
            ..class
        }),
        Env::J => Some(Class {
            env: Env::JShort,
            ..class
        }),
        _ => None,
    }
}

/// The class with one item more, where the item fits.
fn with_item(class: Class, item: Item) -> Option<Class>
    ensures { result ≡ with_item class item }
{
    match item {
        Item::Cut => Some(Class { cut: true, ..class }),
        Item::Chains => with_order(class, Order::Chains),
        Item::Intree => with_order(class, Order::Intree),
        Item::Outtree => with_order(class, Order::Outtree),
        Item::Prec => with_order(class, Order::Prec),
        Item::Heads => Some(Class {
            heads: true,
            ..class
        }),
        Item::Unit => with_times(class, Times::Unit),
        Item::Equal => with_times(class, Times::Equal),
        Item::Short => with_short(class),
    }
}

fn find(bytes: &[u8], separator: u8) -> Option<usize>
    ensures { result ≡ position (λ x. x == separator) bytes.now }
{
    bytes.iter().position(|byte| *byte == separator)
}

/// The text before the first separator and the text after it.
#[tactic(auto, using(crate::proofs::Parts::cut_rules))]
fn cut(bytes: &[u8], separator: u8) -> Option<(&[u8], &[u8])>
    ensures { MatchOption result
        (parts separator bytes.now ≡ bytes.now ∷ [])
        (λ p. (parts separator bytes.now ≡ p.0.now ∷ parts separator p.1.now)
        × (length p.0.now + 1 + length p.1.now ≡ length bytes.now)) }
{
    match find(bytes, separator) {
        Some(at) => Some((&bytes[..at], &bytes[at + 1..])),
        None => None,
    }
}

#[tactic(auto, unfolding(crate::specs::Reading::item_read))]
fn add_item(class: Class, word: &[u8], at: u32) -> Result<Class, NameFault>
    ensures { result ≡ item_read at class word.now }
{
    let Some(item) = read_item(word) else {
        return Err(NameFault::Item { at });
    };
    if has_item(class, item) {
        return Err(NameFault::Twice { at });
    }
    match with_item(class, item) {
        Some(more) => Ok(more),
        None => Err(NameFault::Clash { at }),
    }
}

/// The class with the items of a text that is not empty, whose first byte has the place `at`.
fn add_items(class: Class, text: &[u8], at: u32) -> Result<Class, NameFault>
    requires { at + length text.now < PLACES }
    ensures { result ≡ items_read at class (parts comma text.now) }
{
    let mut class = class;
    let mut rest = text;
    let mut at = at;
    'words: while let Some((word, more)) = cut(rest, b',') {
        class = add_item(class, word, at)?;
        at += word.len() as u32 + 1;
        rest = more;
    }
    add_item(class, rest, at)
}

/// The class of an environment and the items of a text, whose first byte has the place `at`.
fn read_items(env: Env, text: &[u8], at: u32) -> Result<Class, NameFault>
    requires { at + length text.now < PLACES }
    ensures { result ≡ items_read at (bare env) (words text.now) }
{
    let class = Class {
        env,
        cut: false,
        order: Order::Free,
        heads: false,
        times: Times::General,
        crit: Crit::Cmax,
    };
    if text.is_empty() {
        return Ok(class);
    }
    add_items(class, text, at)
}

/// The class of the three texts round the bars.
#[tactic(auto, unfolding(crate::specs::Reading::fields_read))]
fn read_fields(env: &[u8], items: &[u8], crit: &[u8]) -> Result<Class, NameFault>
    requires { length env.now + length items.now + 2 < PLACES }
    ensures { result ≡ fields_read env.now items.now crit.now }
{
    let Some(machines) = read_env(env) else {
        return Err(NameFault::Environment { at: 0 });
    };
    let at = env.len() as u32 + 1;
    let class = read_items(machines, items, at)?;
    match read_crit(crit) {
        Some(crit) => Ok(Class { crit, ..class }),
        None => Err(NameFault::Criterion {
            at: at + items.len() as u32 + 1,
        }),
    }
}

/// The class of a name, cut at its bars.
#[tactic(auto, using(crate::proofs::Bars::bar_rules))]
fn read_name(bytes: &[u8]) -> Result<Class, NameFault>
    requires { length bytes.now < PLACES }
    ensures { result ≡ reading_of bytes.now }
{
    let Some((env, rest)) = cut(bytes, b'|') else {
        return Err(NameFault::Bars);
    };
    let Some((items, crit)) = cut(rest, b'|') else {
        return Err(NameFault::Bars);
    };
    match cut(crit, b'|') {
        Some(_) => Err(NameFault::Bars),
        None => read_fields(env, items, crit),
    }
}

/// The class whose spelling the bytes are: `ENV|ITEMS|CRIT`, in the three-field notation of Graham, Lawler, Lenstra and Rinnooy Kan (1979).
///
/// The items stand in any order, with one comma between neighbours. The fault is the first in the order bars, environment, items from
/// left to right, criterion.
pub fn parse(bytes: &[u8]) -> Result<Class, NameFault>
    requires { length bytes.now < PLACES }
    ensures ok { (c : Class) → (result ≡ Ok c) ↔ NameOf bytes.now c }

    // The fault is the first that reading from the left comes to.
    ensures reading { result ≡ reading_of bytes.now }
{
    read_name(bytes)
}
