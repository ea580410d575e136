// The notes, and how they are told without memory.
ghost use Rattle.std.specs.Prelude.{◌++◌, codes, decimal};
ghost use Rattle.msp_name.specs.Names.{name_of};
ghost use Rattle.msp_io.specs.Whole.{Puts};
ghost use Rattle.msp_top.specs.Usage.{misspelled_text, misnumbered_text};
ghost use Rattle.msp_top.specs.Run.{IsTold, note_line, too_long_text};
ghost use Rattle.msp_top.specs.Note.{usage_note, note_text};
ghost use Rattle.msp_top.specs.Cannots.{cannot_text, uncertified_text};

use crate::words::Misfit;
use msp_class::Class;
use msp_dispatch::{Cannot, Uncertified};
use msp_grammar::FileFault;
use msp_io::{Sink, WriteFault, write_all};
use msp_name::{NameFault, print};
use msp_results::ResultFault;

/// What a note says.
#[derive(Clone, Copy)]
pub enum Note {
    Usage(Misfit),
    /// The input has more bytes than this.
    TooLong { limit: u64 },
    File(FileFault),
    Unsolved(Cannot),
    Uncertified(Uncertified),
    /// No schedules of the class are checked.
    Unchecked { class: Class },
    Results(ResultFault),
    CannotRead,
    CannotWrite,
    OutOfMemory,
}

fn put_number<E: Sink>(notes: &mut E, number: u64) -> Result<(), WriteFault>
    ensures { Puts (E.took notes.old notes.new) (E.broke notes.old notes.new) (decimal number) result }
{
    let mut buffer = itoa::Buffer::new();
    write_all(notes, buffer.format(number).as_bytes())
}

fn put_numbered<E: Sink>(notes: &mut E, head: &[u8], number: u64) -> Result<(), WriteFault>
    ensures { Puts (E.took notes.old notes.new) (E.broke notes.old notes.new) (head.now ++ decimal number) result }
{
    write_all(notes, head)?;
    put_number(notes, number)
}

fn put_misspelled<E: Sink>(notes: &mut E, place: u64, fault: NameFault) -> Result<(), WriteFault>
    ensures { Puts (E.took notes.old notes.new) (E.broke notes.old notes.new) (misspelled_text place fault) result }
{
    put_numbered(notes, b"usage: word ", place)?;
    write_all(notes, b": name: ")?;
    write_all(notes, fault.text().bytes())
}

fn put_misnumbered<E: Sink>(
    notes: &mut E,
    place: u64,
    least: u64,
    greatest: u64,
) -> Result<(), WriteFault>
    ensures { Puts (E.took notes.old notes.new) (E.broke notes.old notes.new) (misnumbered_text place least greatest) result }
{
    put_numbered(notes, b"usage: word ", place)?;
    put_numbered(notes, b": not a number from ", least)?;
    put_numbered(notes, b" to ", greatest)
}

fn put_misfit<E: Sink>(notes: &mut E, misfit: Misfit) -> Result<(), WriteFault>
    ensures { Puts (E.took notes.old notes.new) (E.broke notes.old notes.new) (usage_note misfit) result }
{
    match misfit {
        Misfit::Form => write_all(notes, b"usage: words fit no command"),
        Misfit::Name { place, fault } => put_misspelled(notes, place, fault),
        Misfit::Number {
            place,
            least,
            greatest,
        } => put_misnumbered(notes, place, least as u64, greatest as u64),
    }
}

fn put_too_long<E: Sink>(notes: &mut E, limit: u64) -> Result<(), WriteFault>
    ensures { Puts (E.took notes.old notes.new) (E.broke notes.old notes.new) (too_long_text limit) result }
{
    put_numbered(notes, b"more than ", limit)?;
    write_all(notes, b" bytes")
}

fn put_to_class<E: Sink>(notes: &mut E, head: &[u8], class: Class) -> Result<(), WriteFault>
    ensures { Puts (E.took notes.old notes.new) (E.broke notes.old notes.new) (head.now ++ name_of class) result }
{
    write_all(notes, head)?;
    write_all(notes, print(class).bytes())
}

fn put_not_solved<E: Sink>(notes: &mut E, class: Class) -> Result<(), WriteFault>
    ensures { Puts (E.took notes.old notes.new) (E.broke notes.old notes.new) (name_of class ++ codes " is not solved") result }
{
    write_all(notes, print(class).bytes())?;
    write_all(notes, b" is not solved")
}

fn put_cannot<E: Sink>(notes: &mut E, why: Cannot) -> Result<(), WriteFault>
    ensures { Puts (E.took notes.old notes.new) (E.broke notes.old notes.new) (cannot_text why) result }
{
    match why {
        Cannot::NoSolver { class } => put_to_class(notes, b"no solver for ", class),
        Cannot::NotSolved { class } => put_not_solved(notes, class),
        Cannot::NoRoute { to, .. } => put_to_class(notes, b"no chain to ", to),
        Cannot::Unfit { class } => put_to_class(notes, b"limit of the solver for ", class),
        Cannot::Memory => write_all(notes, b"out of memory"),
    }
}

fn put_uncertified<E: Sink>(notes: &mut E, why: Uncertified) -> Result<(), WriteFault>
    ensures { Puts (E.took notes.old notes.new) (E.broke notes.old notes.new) (uncertified_text why) result }
{
    match why {
        Uncertified::NoCertificate { class } => put_to_class(notes, b"no certificate for ", class),
        Uncertified::Unfit { class } => put_cannot(notes, Cannot::Unfit { class }),
        Uncertified::Memory => write_all(notes, b"out of memory"),
    }
}

fn put_note<E: Sink>(notes: &mut E, note: &Note) -> Result<(), WriteFault>
    ensures { Puts (E.took notes.old notes.new) (E.broke notes.old notes.new) (note_text note.now) result }
{
    match note {
        Note::Usage(misfit) => put_misfit(notes, *misfit),
        Note::TooLong { limit } => put_too_long(notes, *limit),
        Note::File(fault) => write_all(notes, fault.text().bytes()),
        Note::Unsolved(why) => put_cannot(notes, *why),
        Note::Uncertified(why) => put_uncertified(notes, *why),
        Note::Unchecked { class } => put_to_class(notes, b"no check for ", *class),
        Note::Results(fault) => write_all(notes, fault.text().bytes()),
        Note::CannotRead => write_all(notes, b"cannot read"),
        Note::CannotWrite => write_all(notes, b"cannot write"),
        Note::OutOfMemory => write_all(notes, b"out of memory"),
    }
}

fn put_line<E: Sink>(notes: &mut E, note: &Note) -> Result<(), WriteFault>
    ensures { Puts (E.took notes.old notes.new) (E.broke notes.old notes.new) (note_line (note_text note.now)) result }
{
    write_all(notes, b"msp: ")?;
    put_note(notes, note)?;
    write_all(notes, b"\n")
}

/// Tells a note, as one line. A failure of `notes` changes nothing else.
pub fn tell<E: Sink>(note: &Note, notes: &mut E)
    ensures { IsTold (E.took notes.old notes.new) (E.broke notes.old notes.new) (note_text note.now) }
{
    match put_line(notes, note) {
        Ok(()) | Err(WriteFault) => (),
    }
}
