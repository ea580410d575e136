// Positions on unrelated machines, as columns of an assignment of jobs.
ghost use Rattle.std.specs.Prelude.{◌≡◌, ◌*◌, ◌+◌, ◌<◌, pos, length};
ghost use Rattle.msp_class.specs.declared.list.TheConstants.{PLACES};
ghost use Rattle.msp_total.specs.Positions.{time_in, position_cost};
ghost use Rattle.msp_total.specs.laws.Lines.{positions-whole, positions-rise};

use msp_assign::{Costs, Lines};
use msp_class::List;

/// Jobs as rows and positions as columns: column `i * jobs + k` is the position on machine `i` that `k` jobs follow, and a job costs
/// `k + 1` times its time on the machine there. The times stand by job and machine.
#[derive(Drop)]
pub struct Positions {
    pub jobs: u32,
    pub machines: u32,
    pub times: List<u64>,
    ghost whole: { length times ≡ jobs * machines },
    ghost few: { jobs * machines < PLACES },
}

/// The time of the job on the machine.
pub(crate) fn time_at(table: &Positions, job: u32, machine: u32) -> u64
    requires job { job < table.now.jobs }
    requires machine { machine < table.now.machines }
    ensures { result ≡ time_in table.now.machines table.now.times job machine }
{
    table.times.as_slice()[(job * table.machines + machine) as usize]
}

/// What the job adds to the sum of completion times on the machine, where so many jobs follow it.
pub(crate) fn added(table: &Positions, job: u32, machine: u32, follow: u32) -> i128
    requires job { job < table.now.jobs }
    requires machine { machine < table.now.machines }
    ensures { result ≡ pos ((follow + 1) * time_in table.now.machines table.now.times job machine) }
{
    let times = u128::from(follow) + 1;
    (times * u128::from(time_at(table, job, machine))) as i128
}

impl Costs for Positions {
    ghost row_count = { λ p. p.jobs };

    ghost column_count = { λ p. p.jobs * p.machines };

    ghost cost = { λ p. position_cost p.jobs p.machines p.times };

    fn rows(&self) -> u32 {
        self.jobs
    }

    fn columns(&self) -> u32 {
        self.jobs * self.machines
    }

    fn at(&self, row: u32, column: u32) -> i128 {
        added(self, row, column / self.jobs, column % self.jobs)
    }
}

impl Lines for Positions {
    ghost line_count = { λ p. p.machines };

    ghost line_length = { λ p. p.jobs };

    fn lines(&self) -> u32 {
        self.machines
    }

    fn length(&self) -> u32 {
        self.jobs
    }

    fn on_line(&self, row: u32, line: u32, place: u32) -> i128 {
        added(self, row, line, place)
    }

    ghost whole = { λ p. positions-whole p.jobs p.machines };

    ghost rise = { λ p. positions-rise p.jobs p.machines p.times };
}
