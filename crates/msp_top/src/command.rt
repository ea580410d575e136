// What the words of a command line ask for.
use msp_class::{Class, List};
use msp_gen::SEEDS;

/// What is asked of a file of results.
#[derive(Drop)]
pub enum Question {
    /// The labels of the classes that are named, or of all classes where none is named.
    Label { classes: List<Class> },
    /// The greatest and the least of the easy, the hard and the open classes.
    Frontier,
    /// What shows the label of a class.
    Why { class: Class },
}

/// A command that reads an input.
#[derive(Drop)]
pub enum Command {
    /// To solve an instance, at a class of solvers where one is named.
    Solve { at: Option<Class> },
    /// To solve an instance, and to show that no schedule costs less.
    Certify,
    /// To check a schedule that stands after its instance.
    Check,
    /// To judge a certificate that stands after its instance.
    Accept,
    /// To answer a question from a file of results.
    Answer { question: Question },
}

/// The greatest seed of a trial.
pub const GREATEST_SEED: u32 = (SEEDS - 1) as u32;

/// A trial: an instance of a class, with so many jobs, is made from a seed and solved.
#[derive(Clone, Copy)]
pub struct Trial {
    pub class: Class,
    pub jobs: u32,
    pub seed: u32,
}

/// What words ask for, as far as no memory is taken to say it.
#[derive(Drop)]
pub enum Request {
    /// The table of rows, for which nothing is read.
    Rows,
    /// A trial, for which nothing is read either.
    Trial(Trial),
    /// The labels of the classes that the words after the first name.
    Labels,
    Command(Command),
}
