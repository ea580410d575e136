// What jobs cost in places.
ghost use Rattle.std.specs.Prelude.{◌<◌, ◌≤◌, pos, length, All};
ghost use Rattle.msp_class.specs.declared.list.TheConstants.{PLACES};
ghost use Rattle.msp_class.specs.declared.sizes.TheConstants.{GREATEST_MULTIPLE};
ghost use Rattle.msp_pieces.specs.Within.{HasSmallCost};
ghost use Rattle.msp_places.specs.Assigned.{place_cost};

use crate::place::Place;
use msp_assign::Costs;
use msp_instance::Instance;
use msp_pieces::job_cost_at;

/// What the jobs of an instance cost in places, over the unit.
#[derive(Drop)]
pub(crate) struct PlaceCosts<'a> {
    pub inst: &'a Instance,
    pub unit: u64,
    pub places: &'a [Place],
    ghost some: { 1 ≤ unit },
    ghost few: { unit ≤ GREATEST_MULTIPLE },
    ghost jobs: { length inst.now.jobs < PLACES },
    ghost listed: { length places.now < PLACES },
    ghost small: { All (HasSmallCost (pos unit)) inst.now.jobs },
}

impl<'a> Costs for PlaceCosts<'a> {
    ghost row_count = { λ t. length t.inst.now.jobs };

    ghost column_count = { λ t. length t.places.now };

    ghost cost = { λ t. place_cost t.inst.now t.unit t.places.now };

    fn rows(&self) -> u32 {
        self.inst.jobs.len() as u32
    }

    fn columns(&self) -> u32 {
        self.places.len() as u32
    }

    fn at(&self, row: u32, column: u32) -> i128 {
        let job = &self.inst.jobs.as_slice()[row as usize];
        let place = &self.places[column as usize];
        job_cost_at(
            self.inst.class.crit,
            i128::from(self.unit),
            job,
            i128::from(place.end),
        )
    }
}
