// The canonical name of a class.
ghost use Rattle.std.specs.Prelude.{◌≡◌, ◌+◌, ◌≤◌, ◌++◌, length, ◌||◌, not};
ghost use Rattle.std.specs.List.{join_with_byte};
ghost use Rattle.msp_name.specs.Names.{comma, env_text, order_text, times_text, crit_text, text_if, item_texts_of, name_of, NameOf};
ghost use Rattle.msp_name.specs.Items.{order_eq, times_eq};
ghost use Rattle.msp_name.specs.Printing.{following};
ghost use Rattle.msp_name.specs.declared.text.TheConstants.{LONGEST_CLASS_NAME, NAME_ROOM};

use crate::reader::has_item;
use crate::short_text::ShortText;
use crate::words::Item;
use msp_class::{Class, Crit, Env, Order, Times};
use std::marker::Model;

/// The greatest length of a name.
pub const LONGEST_CLASS_NAME: usize = 32;
/// How many bytes the text of a name keeps.
pub const NAME_ROOM: usize = 40;

/// The text of a class's name.
#[derive(Drop)]
pub struct NameText {
    text: ShortText<NAME_ROOM>,
}

impl Model for NameText {
    ghost use Rattle.std.specs.Prelude.{ℕ, List};

    ghost Value = { List ℕ };

    ghost view = { λ t. t.text };
}

impl NameText {
    /// The bytes of the name, of which there are at most 40.
    pub fn bytes(&self) -> &[u8]
        ensures value { result.now ≡ self.now }
        ensures kept { length self.now ≤ NAME_ROOM }
    {
        self.text.bytes()
    }
}

fn env_word(env: Env) -> &'static [u8]
    ensures text { result.now ≡ env_text env }
    ensures short { length result.now ≤ 2 }
{
    match env {
        Env::One => b"1",
        Env::P2 => b"P2",
        Env::P3 => b"P3",
        Env::P => b"P",
        Env::Q2 => b"Q2",
        Env::Q => b"Q",
        Env::R2 => b"R2",
        Env::R => b"R",
        Env::O2 => b"O2",
        Env::O3 => b"O3",
        Env::O => b"O",
        Env::F2 => b"F2",
        Env::F3 => b"F3",
        Env::F => b"F",
        Env::J2Short | Env::J2 => b"J2",
        Env::JShort | Env::J => b"J",
    }
}

fn is_ordered(order: Order) -> bool
    ensures { result ≡ not (order_eq order Order.Free) }
{
    !matches!(order, Order::Free)
}

fn order_word(order: Order) -> &'static [u8]
    ensures text { result.now ≡ order_text order }
    ensures short { length result.now ≤ 7 }
{
    match order {
        Order::Free => b"",
        Order::Chains => b"chains",
        Order::Intree => b"intree",
        Order::Outtree => b"outtree",
        Order::Prec => b"prec",
    }
}

fn is_timed(times: Times) -> bool
    ensures { result ≡ not (times_eq times Times.General) }
{
    !matches!(times, Times::General)
}

fn times_word(times: Times) -> &'static [u8]
    ensures text { result.now ≡ times_text times }
    ensures short { length result.now ≤ 3 }
{
    match times {
        Times::General => b"",
        Times::Unit => b"p=1",
        Times::Equal => b"p=p",
    }
}

fn crit_word(crit: Crit) -> &'static [u8]
    ensures text { result.now ≡ crit_text crit }
    ensures short { length result.now ≤ 5 }
{
    match crit {
        Crit::Cmax => b"Cmax",
        Crit::Lmax => b"Lmax",
        Crit::Fmax => b"fmax",
        Crit::SumC => b"sumC",
        Crit::SumWC => b"sumwC",
        Crit::SumU => b"sumU",
        Crit::SumWU => b"sumwU",
        Crit::SumT => b"sumT",
        Crit::SumWT => b"sumwT",
    }
}

/// Puts the text of an item that is wanted, with a comma before it where an item goes before. Whether an item goes before the next.
fn put_item(text: &mut ShortText<NAME_ROOM>, again: bool, wanted: bool, item: &[u8]) -> bool
    requires { length text.old + length item.now + 1 ≤ NAME_ROOM }
    ensures text { text.new ≡ text.old ++ following again (text_if wanted item.now) }
    ensures again { result ≡ (again || wanted) }
{
    if !wanted {
        return again;
    }
    if again {
        text.put(b",");
    }
    text.put(item);
    true
}

/// Puts the canonical items of a class, in the order cut, order, release dates, times, short routes.
fn put_items(text: &mut ShortText<NAME_ROOM>, class: Class)
    requires { length text.old ≤ 3 }
    ensures items { text.new ≡ text.old ++ join_with_byte comma (item_texts_of class) }
    ensures short { length text.new ≤ length text.old + 23 }
{
    let again = put_item(text, false, class.cut, b"pmtn");
    let again = put_item(
        text,
        again,
        is_ordered(class.order),
        order_word(class.order),
    );
    let again = put_item(text, again, class.heads, b"r");
    let again = put_item(text, again, is_timed(class.times), times_word(class.times));
    put_item(text, again, has_item(class, Item::Short), b"n<=2");
}

#[tactic(auto, unfolding(crate::specs::Names::name_of), using(crate::proofs::PrintLemmas::print_rules))]
fn spell(class: Class) -> ShortText<NAME_ROOM>
    ensures { result ≡ name_of class }
{
    let mut text = ShortText::new();
    text.put(env_word(class.env));
    text.put(b"|");
    put_items(&mut text, class);
    text.put(b"|");
    text.put(crit_word(class.crit));
    text
}

/// The canonical spelling of the class. `parse` of its bytes gives the class again.
pub fn print(c: Class) -> NameText
    ensures text { result ≡ name_of c }
    ensures named { NameOf result c }
    ensures longest { length result ≤ LONGEST_CLASS_NAME }
{
    NameText { text: spell(c) }
}
