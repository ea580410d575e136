// The words of a command line.
ghost use Rattle.std.specs.Prelude.{◌≡◌, ◌↔◌, ℕ, ◌∷◌, [], List as Items, map, string_bytes, IsTrue, IfOk};
ghost use Rattle.std.specs.List.{AllZip};
ghost use Rattle.msp_class.specs.declared.class.Class.{Class as ClassValue};
ghost use Rattle.msp_top.specs.Commands.{Asks, IsNameWord};
ghost use Rattle.msp_top.specs.Run.{spelled};
ghost use Rattle.msp_top.specs.Usage.{name_then};
ghost use Rattle.msp_top.specs.Words.{AsksForLabels, ReadsWords, ReadsName, AreNames, ReadsOneName, ReadsOption, ReadsAlone};

use crate::command::{Command, Question, Request};
use crate::trial_words::read_trial;
use msp_class::{Class, List, NoMemory, PLACES};
use msp_name::{NameFault, parse};
use std::alloc::Global;

/// Why words ask for no command. A place of a word counts from 1.
#[derive(Clone, Copy)]
pub enum Misfit {
    /// They have not the form of a command.
    Form,
    /// A word that is to be a name is none.
    Name {
        place: u64,
        fault: NameFault,
    },
    /// A word that is to be a number in a range is none.
    Number {
        place: u64,
        least: u32,
        greatest: u32,
    },
}

/// The class of a name that stands at a place, counted from 1.
pub fn read_name(word: &str, place: u64) -> Result<Class, Misfit>
    ensures read { ReadsName word.now place result }
    ensures later { IfOk result (λ _. (later : Items ℕ) → name_then place word.now later ≡ later) }
{
    if word.len() >= PLACES {
        return Err(Misfit::Form);
    }
    match parse(word.as_bytes()) {
        Ok(class) => Ok(class),
        Err(fault) => Err(Misfit::Name { place, fault }),
    }
}

/// Whether the words after `label` are names, and else the first that is none.
fn check_names(names: &[String]) -> Result<(), Misfit>
    ensures { AreNames (map string_bytes names.now) result }
{
    for k in 0..names.len() {
        read_name(names[k].as_str(), k as u64 + 2)?;
    }
    Ok(())
}

/// The class of the word after `why`.
fn read_one_name(words: &[String]) -> Result<Class, Misfit>
    ensures { ReadsOneName (map string_bytes words.now) result }
{
    if words.len() == 1 {
        read_name(words[0].as_str(), 2)
    } else {
        Err(Misfit::Form)
    }
}

/// The class that the words after `solve` name, if there are any.
fn read_option(words: &[String]) -> Result<Option<Class>, Misfit>
    ensures { ReadsOption (map string_bytes words.now) result }
{
    if words.is_empty() {
        return Ok(None);
    }
    if words.len() == 2 && words[0].as_str() == "--at" {
        return Ok(Some(read_name(words[1].as_str(), 3)?));
    }
    Err(Misfit::Form)
}

/// Whether the first word is the name of a command and no word follows.
fn is_alone(name: &str, word: &str, words: &[String]) -> bool
    ensures { IsTrue result ↔ ((word.now ≡ name.now) × (words.now ≡ [])) }
{
    word == name && words.is_empty()
}

/// What a word asks for that no word follows.
fn read_alone(word: &str, words: &[String]) -> Result<Request, Misfit>
    ensures { ReadsAlone (word.now ∷ map string_bytes words.now) result }
{
    if is_alone("frontier", word, words) {
        return Ok(Request::Command(Command::Answer {
            question: Question::Frontier,
        }));
    }
    if is_alone("certify", word, words) {
        return Ok(Request::Command(Command::Certify));
    }
    if is_alone("check", word, words) {
        return Ok(Request::Command(Command::Check));
    }
    if is_alone("accept", word, words) {
        return Ok(Request::Command(Command::Accept));
    }
    if is_alone("rows", word, words) {
        return Ok(Request::Rows);
    }
    Err(Misfit::Form)
}

/// What a first word and the words after it ask for.
fn read_after(word: &str, words: &[String]) -> Result<Request, Misfit>
    ensures { ReadsWords (word.now ∷ map string_bytes words.now) result }
{
    if word == "label" {
        check_names(words)?;
        return Ok(Request::Labels);
    }
    if word == "why" {
        let class = read_one_name(words)?;
        return Ok(Request::Command(Command::Answer {
            question: Question::Why { class },
        }));
    }
    if word == "solve" {
        let at = read_option(words)?;
        return Ok(Request::Command(Command::Solve { at }));
    }
    if word == "trial" {
        let trial = read_trial(words)?;
        return Ok(Request::Trial(trial));
    }
    read_alone(word, words)
}

/// What the words of a command line ask for. It takes no memory, so words that fit no command take none.
pub fn read_words(words: &Vec<String>) -> Result<Request, Misfit>
    ensures { ReadsWords (spelled words.now) result }
{
    if words.is_empty() {
        return Err(Misfit::Form);
    }
    read_after(words[0].as_str(), &words[1..])
}

/// The classes of names.
fn classes_of(alloc: Global, names: &[String]) -> Result<List<Class>, NoMemory>
    requires { (classes : Items ClassValue) × AllZip IsNameWord (map string_bytes names.now) classes }
    ensures { IfOk result (λ classes. AllZip IsNameWord (map string_bytes names.now) classes) }
{
    let mut classes = List::new(alloc);
    for k in 0..names.len() {
        match read_name(names[k].as_str(), k as u64 + 2) {
            Ok(class) => classes.put(class)?,
            Err(_) => unreachable!(),
        }
    }
    Ok(classes)
}

/// The command of words that ask for labels.
pub fn label_command(alloc: Global, words: &Vec<String>) -> Result<Command, NoMemory>
    requires { AsksForLabels (spelled words.now) }
    ensures { IfOk result (λ command. Asks (spelled words.now) command) }
{
    let classes = classes_of(alloc, &words[1..])?;
    Ok(Command::Answer {
        question: Question::Label { classes },
    })
}
