// What there is to say of a whole input, by the command.
ghost use Rattle.std.specs.Prelude.{◌≡◌, ◌≤◌, length};
ghost use Rattle.msp_io.specs.declared.whole.TheConstants.{GREATEST_LIMIT};
ghost use Rattle.msp_top.specs.Run.{IsRightWithin, limit_of};
ghost use Rattle.msp_top.specs.Answers.{Answers};

use crate::accepts::accept_answer;
use crate::certifies::certify_answer;
use crate::checks::check_answer;
use crate::command::Command;
use crate::questions::answer_question;
use crate::refusal::Refusal;
use crate::solves::solve_answer;
use msp_grammar::MOST_BYTES;
use msp_results::LONGEST_FILE;
use std::alloc::Global;

/// The most bytes of an input, but for that of `check` and `accept`.
pub const INPUT_LIMIT: u64 = LONGEST_FILE as u64;
/// The most bytes of an instance text with a schedule text or a certificate text after it.
pub const CHECK_LIMIT: u64 = MOST_BYTES as u64;

/// The most bytes of the input of a command.
pub fn limit_of(command: &Command) -> u64
    ensures limit { result ≡ limit_of command.now }
    ensures small { result ≤ GREATEST_LIMIT }
{
    match command {
        Command::Check | Command::Accept => CHECK_LIMIT,
        Command::Solve { .. } | Command::Certify | Command::Answer { .. } => INPUT_LIMIT,
    }
}

/// A report of a whole input, and its status.
#[derive(Drop)]
pub struct Report {
    pub status: u8,
    pub text: Vec<u8>,
}

/// The answer to a command and a whole input.
pub fn answer_to(alloc: Global, command: &Command, input: &[u8]) -> Result<Report, Refusal>
    requires { length input.now ≤ limit_of command.now }
    ensures { Answers (IsRightWithin command.now input.now) result }
{
    match command {
        Command::Solve { at } => solve_answer(alloc, *at, input),
        Command::Certify => certify_answer(alloc, input),
        Command::Check => check_answer(alloc, input),
        Command::Accept => accept_answer(alloc, input),
        Command::Answer { question } => answer_question(alloc, question, input),
    }
}
