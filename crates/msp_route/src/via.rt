// A solver composed of a reduction and a solver of the class to which it leads.
ghost use Rattle.std.specs.Prelude.{◌≡◌, Some};
ghost use Rattle.msp_table.specs.Rows.{goes_of};

use crate::reduction::Reduction;
use crate::solver::Solver;
use msp_class::{Class, NoMemory};
use msp_instance::Instance;
use msp_pieces::Solution;
use std::alloc::Global;

/// The solver of a class that carries its instances over one row and solves them at the other end.
#[derive(Drop)]
pub struct Via<R: Reduction, S: Solver> {
    pub from: Class,
    pub first: R,
    pub second: S,
    ghost leads: { goes_of (R.number first) from ≡ Some (S.solved second) },
}

impl<R: Reduction, S: Solver> Solver for Via<R, S> {
    ghost solved = { λ via. via.from };

    ghost can_solve = { λ via i. S.can_solve via.second (R.lower_of via.first i) };

    ghost may_ask = { λ via i. S.can_solve via.second (R.lower_of via.first i) };

    fn target(&self) -> Class {
        self.from
    }

    fn fits(&self, _inst: &Instance) -> bool {
        true
    }

    fn solve(&self, alloc: Global, inst: &Instance) -> Result<Solution, NoMemory> {
        let lower = self.first.down(alloc, inst)?;
        let solution = self.second.solve(alloc, &lower)?;
        self.first.back(alloc, inst, solution)
    }
}
