// Smith's rule for `1||sumwC` (Smith 1956).
//
// Rule: the jobs run one after another by nonincreasing ratio of weight to time, ties by number. Ratios are compared by products.
//
// Best (`proofs/SmithBest.antt`): in any feasible schedule a job ends no earlier than the jobs that end by then take together, as the
// pieces of one machine do not overlap. So any schedule costs at least, for each pair of jobs, the weight of the one that ends later times
// the time of the one that ends earlier. Of the two products that a pair can give, the order of the rule has the lesser one for each pair.
// No schedule is changed by an exchange: the other schedule gives its ends and nothing else.
ghost use Rattle.std.specs.Prelude.{◌≡◌, ◌*◌, ◌<◌, ◌≤◌, ◌⊎◌, length, map, slice_index_or, All, AllPairs, IfOk, IsPermutation};
ghost use Rattle.std.specs.List.{range_with_len};
ghost use Rattle.std.specs.Ordering.{nat_cmp, ordering_then};
ghost use Rattle.msp_class.specs.declared.sizes.TheConstants.{MOST_JOBS};
ghost use Rattle.msp_instance.specs.Instance.{job_at, need_at, no_need};
ghost use Rattle.msp_instance.specs.Conditions.{Inner};
ghost use Rattle.msp_pieces.specs.Cost.{IsBest};
ghost use Rattle.msp_pieces.specs.Fraction.{IsLowest};
ghost use Rattle.msp_pieces.specs.Settled.{IsSettled};
ghost use Rattle.msp_route.specs.Bounds.{IsAnswer};
ghost use Rattle.msp_single.specs.Smith.{smith_class, IsSmithOrder};

use msp_class::{Class, Crit, Env, NoMemory, Order, Times};
use msp_instance::Instance;
use msp_pieces::Solution;
use msp_route::{Solver, first_time, solution_in_order};
use std::alloc::Global;
use std::cmp::Ordering;

/// The class that the rule solves: `1||sumwC`.
const SMITH_CLASS: Class = Class {
    env: Env::One,
    cut: false,
    order: Order::Free,
    heads: false,
    times: Times::General,
    crit: Crit::SumWC,
};

/// What the rule compares of a job: its number, its time and its weight.
#[derive(Clone, Copy)]
struct Load {
    job: u32,
    time: u64,
    weight: u64,
    ghost takes_time: { 0 < time },
}

/// Whether `a` goes before `b`: by greater weight for its time, and then by lesser number.
fn compare(a: &Load, b: &Load) -> Ordering
    ensures { result ≡ ordering_then
        (nat_cmp (b.now.weight * a.now.time) (a.now.weight * b.now.time))
        (nat_cmp a.now.job b.now.job) }
{
    let for_b = u128::from(b.weight) * u128::from(a.time);
    let for_a = u128::from(a.weight) * u128::from(b.time);
    for_b.cmp(&for_a).then(a.job.cmp(&b.job))
}

fn sort(loads: &mut Vec<Load>)
    ensures permutation { IsPermutation loads.old.items loads.new.items }
    ensures sorted { AllPairs (λ a b. (b.weight * a.time < a.weight * b.time) ⊎ ((b.weight * a.time ≡ a.weight * b.time) × (a.job ≤ b.job))) loads.new.items }
{
    loads.sort_unstable_by(|a, b| compare(a, b));
}

/// What the rule compares, of each job.
fn loads_of(alloc: Global, inst: &Instance) -> Result<Vec<Load>, NoMemory>
    requires few { length inst.now.jobs ≤ MOST_JOBS }
    requires needs { All (λ j. (0 < length j.needs) × (0 < (slice_index_or j.needs 0 no_need).time)) inst.now.jobs }
    ensures numbers { IfOk result (λ ls. map (λ l. l.job) ls.items ≡ range_with_len 0 (length inst.now.jobs)) }
    ensures each { IfOk result (λ ls. All (λ l. (l.time ≡ (need_at inst.now l.job 0).time) × (l.weight ≡ (job_at inst.now l.job).weight)) ls.items) }
{
    let jobs = inst.jobs.as_slice();
    let mut loads = Vec::new(alloc);
    for k in 0..jobs.len() {
        let time = first_time(&jobs[k]);
        let weight = jobs[k].weight;
        let load = Load {
            job: k as u32,
            time,
            weight,
        };
        loads.push(load)?;
    }
    Ok(loads)
}

fn numbers_of(alloc: Global, loads: &[Load]) -> Result<Vec<u32>, NoMemory>
    ensures { IfOk result (λ numbers. numbers.items ≡ map (λ l. l.job) loads.now) }
{
    Ok(loads.iter().map(|load| load.job).collect(alloc)?)
}

/// The numbers of the jobs by greater weight for their time, ties by number.
fn smith_order(alloc: Global, inst: &Instance) -> Result<Vec<u32>, NoMemory>
    requires few { length inst.now.jobs ≤ MOST_JOBS }
    requires needs { All (λ j. (0 < length j.needs) × (0 < (slice_index_or j.needs 0 no_need).time)) inst.now.jobs }
    ensures { IfOk result (λ o. IsSmithOrder inst.now o.items) }
{
    let mut loads = loads_of(alloc, inst)?;
    sort(&mut loads);
    numbers_of(alloc, &loads)
}

/// Finds a schedule of least weighted completion time: the jobs one after another by nonincreasing ratio of weight to time, ties by
/// number (Smith 1956).
#[derive(Clone, Copy)]
pub struct Smith;

impl Solver for Smith {
    ghost solved = { λ _. smith_class };

    fn target(&self) -> Class {
        SMITH_CLASS
    }

    fn fits(&self, _inst: &Instance) -> bool {
        true
    }

    fn solve(&self, alloc: Global, inst: &Instance) -> Result<Solution, NoMemory>
        requires inner { Inner inst.now }
        requires class { inst.now.class ≡ smith_class }

        // What every solver ensures.
        ensures best { IfOk result (λ s. IsBest inst.now s) }
        ensures bounds { IfOk result (λ s. IsAnswer inst.now s.schedule) }

        // The form of the answer.
        ensures order { IfOk result (λ s. IsSmithOrder inst.now (map (λ p. p.job) s.schedule.pieces)) }
        ensures settled { IfOk result (λ s. IsSettled s.schedule) }
        ensures lowest { IfOk result (λ s. IsLowest s.cost) }
    {
        let order = smith_order(alloc, inst)?;
        solution_in_order(alloc, inst, &order)
    }
}
