// `run`: the words are read, the input is taken and answered, and what there is to say is written.
ghost use Rattle.std.specs.Prelude.{◌≡◌, ◌≢◌, ℕ, List, IfErr};
ghost use Rattle.msp_io.specs.Faults.{Rose};
ghost use Rattle.msp_top.specs.declared.command.Trial.{Trial as TrialValue};
ghost use Rattle.msp_top.specs.Commands.{Asks, AsksForRows, AsksForTrial};
ghost use Rattle.msp_top.specs.Run.{spelled, passed_between, IsTold, Leaves};
ghost use Rattle.msp_top.specs.Answers.{IsInRange};
ghost use Rattle.msp_top.specs.Ending.{unread, Serves};

use crate::answers::{answer_to, limit_of};
use crate::command::{Command, Request, Trial};
use crate::notes::tell;
use crate::refusal::{Refusal, not_taken};
use crate::statuses::WRITTEN;
use crate::trials::trial_answer;
use crate::words::{label_command, read_words};
use msp_io::{Sink, Source, read_all, write_all};
use msp_report::rows_text;
use std::alloc::Global;

/// Serves the words of a command line, and answers the status of the report that was written.
fn serve<S: Source, K: Sink>(
    alloc: Global,
    words: &Vec<String>,
    source: &mut S,
    out: &mut K,
) -> Result<u8, Refusal>
    ensures served { Serves (spelled words.now) (passed_between S.gave S.finished S.broke K.took K.broke source.old source.new out.old out.new)
        (Rose (S.seen source.old).faults (S.seen source.new).faults) (Rose (K.seen out.old).faults (K.seen out.new).faults) result }
    ensures unread { IfErr result (λ why. why.status ≡ 2 → source.new ≡ source.old) }
    ensures unwritten { IfErr result (λ why. why.status ≢ 8 → out.new ≡ out.old) }
    ensures rows { AsksForRows (spelled words.now) → source.new ≡ source.old }
    ensures trial { (trial : TrialValue) → AsksForTrial (spelled words.now) trial → source.new ≡ source.old }
{
    match read_words(words)? {
        Request::Rows => {
            write_all(out, rows_text().bytes())?;
            Ok(WRITTEN)
        }
        Request::Trial(trial) => try_out(alloc, &trial, out),
        Request::Labels => {
            let command = label_command(alloc, words)?;
            perform(alloc, &command, source, out)
        }
        Request::Command(command) => perform(alloc, &command, source, out),
    }
}

/// Solves the instance of a trial, and writes the report.
fn try_out<K: Sink>(alloc: Global, trial: &Trial, out: &mut K) -> Result<u8, Refusal>
    requires { IsInRange trial.now }
    ensures served { (words : List (List ℕ)) → AsksForTrial words trial.now
        → Serves words (unread (K.took out.old out.new) (K.broke out.old out.new)) ⊥ (Rose (K.seen out.old).faults (K.seen out.new).faults) result }
    ensures unwritten { IfErr result (λ why. why.status ≢ 8 → out.new ≡ out.old) }
{
    let made = trial_answer(alloc, trial)?;
    write_all(out, &made.text)?;
    Ok(made.status)
}

/// Reads the input of a command, and writes the report.
fn perform<S: Source, K: Sink>(
    alloc: Global,
    command: &Command,
    source: &mut S,
    out: &mut K,
) -> Result<u8, Refusal>
    ensures served { (words : List (List ℕ)) → Asks words command.now
        → Serves words (passed_between S.gave S.finished S.broke K.took K.broke source.old source.new out.old out.new)
        (Rose (S.seen source.old).faults (S.seen source.new).faults) (Rose (K.seen out.old).faults (K.seen out.new).faults) result }
    ensures not_usage { IfErr result (λ why. why.status ≢ 2) }
    ensures unwritten { IfErr result (λ why. why.status ≢ 8 → out.new ≡ out.old) }
{
    let limit = limit_of(command);
    let input = match read_all(alloc, source, limit) {
        Ok(input) => input,
        Err(why) => return Err(not_taken(why, limit)),
    };
    let report = answer_to(alloc, command, &input)?;
    write_all(out, &report.text)?;
    Ok(report.status)
}

/// Serves the words of a command line, without the program's name: reads `source` where the command reads, writes the report to
/// `out` and, for the statuses from 2 on, one line to `notes`.
///
/// The status is 0 where the report was written, 1 where it was and the known results clash, the checked schedule is not feasible or
/// has another cost, or the certificate is not accepted, 2 where the words fit no command, 3 where the input has a fault, 4 where it
/// breaks a limit or that of the solver, 5 where there is no solver or no certificate for the class of the instance or its schedules
/// are not checked, 6 where the named class has no solver or no chain leads to it, 7 and 8 where the source or `out` failed, and 9
/// when out of memory.
pub fn run<S: Source, K: Sink, E: Sink>(
    alloc: Global,
    words: &Vec<String>,
    source: &mut S,
    out: &mut K,
    notes: &mut E,
) -> u8
    ensures { Leaves (spelled words.now) (passed_between S.gave S.finished S.broke K.took K.broke source.old source.new out.old out.new)
        (IsTold (E.took notes.old notes.new) (E.broke notes.old notes.new)) S.seen source.old source.new K.seen out.old out.new notes.old notes.new result }
{
    match serve(alloc, words, source, out) {
        Ok(status) => status,
        Err(why) => {
            tell(&why.note, notes);
            why.status
        }
    }
}
