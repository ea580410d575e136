// The way back through the flags of the table, which chooses the jobs.
ghost use Rattle.std.specs.Prelude.{◌≡◌, ◌*◌, ◌<◌, ◌≤◌, true, false, length, slice_index_or, All, IfOk};
ghost use Rattle.msp_class.specs.declared.sizes.TheConstants.{MOST_JOBS, GREATEST};
ghost use Rattle.msp_instance.specs.Instance.{no_need};
ghost use Rattle.msp_weighted.specs.Values.{values_of};
ghost use Rattle.msp_weighted.specs.Steps.{AreFlags, Takes, Leaves, IsChoiceAt};

use crate::bits::is_set;
use msp_class::NoMemory;
use msp_instance::Instance;
use msp_route::first_time;
use std::alloc::Global;

/// The jobs that are on time and those that are left, and the moment at which the chosen ones begin.
#[derive(Drop)]
pub(crate) struct Choice {
    pub(crate) on_time: Vec<u32>,
    pub(crate) left: Vec<u32>,
    pub(crate) moment: usize,
}

/// Puts a job before those that are on time, or to those that are left.
fn take_or_leave(choice: &mut Choice, job: u32, time: usize, taken: bool) -> Result<(), NoMemory>
    requires { taken ≡ true → time ≤ choice.old.moment }
    ensures taken { taken ≡ true → IfOk result (λ _. Takes job time choice.old choice.new) }
    ensures left { taken ≡ false → IfOk result (λ _. Leaves job choice.old choice.new) }
{
    if taken {
        choice.moment -= time;
        choice.on_time.push(job)?;
    } else {
        choice.left.push(job)?;
    }
    Ok(())
}

/// The jobs that gave the value of a moment, in their order, and the others from the last one to the first.
pub(crate) fn chosen(
    alloc: Global,
    inst: &Instance,
    order: &[u32],
    flags: &[u64],
    width: usize,
    moment: usize,
) -> Result<Choice, NoMemory>
    requires few { length order.now ≤ MOST_JOBS }
    requires jobs { All (λ j. j < length inst.now.jobs) order.now }
    requires needs { All (λ j. (0 < length j.needs) × (0 < (slice_index_or j.needs 0 no_need).time)) inst.now.jobs }
    requires width { width ≤ GREATEST }
    requires room { length order.now * width ≤ 64 * length flags.now }
    requires inside { moment < width }
    requires flags { AreFlags inst.now order.now width flags.now }
    requires some { 0 < values_of inst.now order.now moment }
    ensures { IfOk result (IsChoiceAt inst.now order.now moment) }
{
    let jobs = inst.jobs.as_slice();
    let mut choice = Choice {
        on_time: Vec::new(alloc),
        left: Vec::new(alloc),
        moment,
    };
    let mut place = order.len();
    while place > 0 {
        place -= 1;
        let job = order[place];
        let time = first_time(&jobs[job as usize]) as usize;
        let taken = is_set(flags, place * width + choice.moment);
        take_or_leave(&mut choice, job, time, taken)?;
    }
    choice.on_time.reverse();
    Ok(choice)
}
