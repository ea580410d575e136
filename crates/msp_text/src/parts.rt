// Pieces of a text put at its end together.
ghost use Rattle.std.specs.Prelude.{◌≡◌, ◌++◌, OnOk, OnErr};
ghost use Rattle.msp_text.specs.Parts.{part_text, parts_text};

use crate::pieces::{put, put_integer, put_number};
use msp_class::NoMemory;

/// A piece of a text.
#[derive(Clone, Copy)]
pub enum Part<'a> {
    Text(&'a [u8]),
    Number(u64),
    Integer(i128),
}

fn put_part(out: &mut Vec<u8>, part: &Part<'_>) -> Result<(), NoMemory>
    ensures added { OnOk result (out.new.items ≡ out.old.items ++ part_text part.now) }
    ensures refused { OnErr result (out.new.items ≡ out.old.items) }
{
    match part {
        Part::Text(text) => put(out, text),
        Part::Number(number) => put_number(out, *number),
        Part::Integer(number) => put_integer(out, *number),
    }
}

/// Puts the parts at the end in order, all of them or none.
pub fn put_all(out: &mut Vec<u8>, parts: &[Part<'_>]) -> Result<(), NoMemory>
    ensures added { OnOk result (out.new.items ≡ out.old.items ++ parts_text parts.now) }
    ensures refused { OnErr result (out.new.items ≡ out.old.items) }
{
    let length = out.len();
    for part in parts {
        if put_part(out, part).is_err() {
            out.truncate(length);
            return Err(NoMemory);
        }
    }
    Ok(())
}
