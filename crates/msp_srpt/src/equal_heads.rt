// Jobs of one time by rising head, `1|prec,r,p=p|sumC` (Simons 1983).
//
// Rule: release dates are raised along arcs to heads, before which no job can begin. The jobs run by rising head, ties to the lesser
// number, each as early as it can.
//
// In the loop (`proofs/HeadSteps.antt`): each piece begins at the end of the one before it, or at its head where that is later.
//
// Best (`proofs/HeadEnds.antt`): the job of place k ends a run of jobs without idle time, which begins at the head of its first job. Of all
// jobs only those before that one in the order can have a lesser head. So where k jobs end by a moment in any feasible schedule, as many of
// them as the run has lie between that head and the moment, which is therefore no earlier than the k-th end here. Sums of ends compare as
// the counts of ends by each moment do (`proofs/Counts.antt`). Heads rise along arcs, so arcs are kept.
ghost use Rattle.std.specs.Prelude.{◌≡◌, length, pos, AllPairs, IfOk, IsPermutation};
ghost use Rattle.std.specs.List.{range_with_len};
ghost use Rattle.msp_class.specs.declared.class.Env.TheVariants.{One};
ghost use Rattle.msp_instance.specs.Conditions.{Inner};
ghost use Rattle.msp_pieces.specs.Cost.{IsBest};
ghost use Rattle.msp_pieces.specs.BackToBack.{piece};
ghost use Rattle.msp_route.specs.Bounds.{IsAnswer};
ghost use Rattle.msp_route.specs.Heads.{AreHeads};
ghost use Rattle.msp_srpt.specs.EqualHeads.{equal_heads_class, HeadsBefore, RunInOrder, RunByHeads, EndsFirst};

use msp_class::{Class, Crit, Env, List, NoMemory, Order, Times};
use msp_instance::Instance;
use msp_pieces::{Piece, Schedule, Solution};
use msp_route::{Solver, best_solution, heads_of, jobs_by_key, time_of};
use std::alloc::Global;

/// The class that the rule solves: `1|prec,r,p=p|sumC`.
const EQUAL_HEADS_CLASS: Class = Class {
    env: Env::One,
    cut: false,
    order: Order::Prec,
    heads: true,
    times: Times::Equal,
    crit: Crit::SumC,
};

/// The job on the one machine between two moments.
fn piece_of(job: u32, from: u64, to: u64) -> Piece
    ensures { result ≡ piece job from to }
{
    Piece {
        job,
        op: 0,
        machine: 0,
        from: i128::from(from),
        to: i128::from(to),
    }
}

/// The pieces of the jobs in this order, each from its head on or from the end of the one before it, where that is later.
fn pieces_in_order(
    alloc: Global,
    inst: &Instance,
    heads: &[u64],
    order: &[u32],
) -> Result<List<Piece>, NoMemory>
    requires inner { Inner inst.now }
    requires machine { inst.now.class.env ≡ One }
    requires heads { AreHeads inst.now heads.now }
    requires all { IsPermutation (range_with_len 0 (length inst.now.jobs)) order.now }
    requires rising { AllPairs (HeadsBefore heads.now) order.now }
    ensures { IfOk result (RunInOrder inst.now heads.now) }
{
    let mut pieces = List::new(alloc);
    let mut moment: u64 = 0;
    for k in 0..order.len() {
        let job = order[k];
        let from = moment.max(heads[job as usize]);
        moment = from + time_of(inst, job);
        pieces.put(piece_of(job, from, moment))?;
    }
    Ok(pieces)
}

/// The pieces of all jobs by rising head.
fn pieces_by_head(alloc: Global, inst: &Instance) -> Result<List<Piece>, NoMemory>
    requires inner { Inner inst.now }
    requires machine { inst.now.class.env ≡ One }
    ensures { IfOk result (RunByHeads inst.now) }
{
    let heads = heads_of(alloc, inst)?;
    let order = jobs_by_key(alloc, heads.as_slice())?;
    pieces_in_order(alloc, inst, heads.as_slice(), order.as_slice())
}

/// Finds a schedule with the least sum of completion times on one machine, where jobs take one time, with precedence and release dates: by
/// rising head, each as early as it can (Simons 1983).
#[derive(Clone, Copy)]
pub struct EqualHeads;

impl Solver for EqualHeads {
    ghost solved = { λ _. equal_heads_class };

    fn target(&self) -> Class {
        EQUAL_HEADS_CLASS
    }

    fn fits(&self, _inst: &Instance) -> bool {
        true
    }

    fn solve(&self, alloc: Global, inst: &Instance) -> Result<Solution, NoMemory>
        requires inner { Inner inst.now }
        requires class { inst.now.class ≡ equal_heads_class }

        // What every solver ensures.
        ensures best { IfOk result (λ s. IsBest inst.now s) }
        ensures bounds { IfOk result (λ s. IsAnswer inst.now s.schedule) }

        // The form of the answer.
        ensures rule { IfOk result (λ s. RunByHeads inst.now s.schedule.pieces) }
        ensures unit { IfOk result (λ s. s.schedule.unit ≡ pos 1) }
        ensures ends { IfOk result (λ s. EndsFirst inst.now s.schedule) }
    {
        let pieces = pieces_by_head(alloc, inst)?;
        let schedule = Schedule { unit: 1, pieces };
        Ok(best_solution(inst, schedule))
    }
}
