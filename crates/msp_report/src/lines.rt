// Lines that several reports have.
ghost use Rattle.std.specs.Prelude.{◌≡◌, ◌++◌, OnOk, codes};
ghost use Rattle.msp_name.specs.Names.{name_of};
ghost use Rattle.msp_report.specs.Lines.{class_line, number_line, cost_line};

use msp_class::{Class, NoMemory};
use msp_grammar::put_fraction;
use msp_name::print;
use msp_pieces::Frac;
use msp_text::Part::{Number, Text};
use msp_text::{put, put_all};

/// Puts a line that ends with the name of a class, behind a word.
pub(crate) fn put_name_line(out: &mut Vec<u8>, word: &[u8], class: Class) -> Result<(), NoMemory>
    ensures { OnOk result (out.new.items ≡ out.old.items ++ (word.now ++ name_of class ++ codes "\n")) }
{
    put(out, word)?;
    put_all(out, &[Text(print(class).bytes()), Text(b"\n")])
}

#[tactic(auto, unfolding(crate::specs::Lines::class_line))]
pub(crate) fn put_class_line(out: &mut Vec<u8>, class: Class) -> Result<(), NoMemory>
    ensures { OnOk result (out.new.items ≡ out.old.items ++ class_line class) }
{
    put_name_line(out, b"class ", class)
}

/// Puts the line of a number, behind its word.
#[tactic(auto, unfolding(crate::specs::Lines::number_line))]
pub(crate) fn put_number_line(out: &mut Vec<u8>, word: &[u8], number: u64) -> Result<(), NoMemory>
    ensures { OnOk result (out.new.items ≡ out.old.items ++ number_line word.now number) }
{
    put_all(out, &[Text(word), Number(number), Text(b"\n")])
}

#[tactic(auto, unfolding(crate::specs::Lines::cost_line))]
pub(crate) fn put_cost_line(out: &mut Vec<u8>, cost: Frac) -> Result<(), NoMemory>
    ensures { OnOk result (out.new.items ≡ out.old.items ++ cost_line cost) }
{
    put(out, b"cost ")?;
    put_fraction(out, cost)?;
    put(out, b"\n")
}
