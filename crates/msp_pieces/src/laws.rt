// Laws of feasible schedules, on which solvers stand.
ghost use Rattle.msp_pieces.specs.Blocks.{LawOfBlocks};
ghost use Rattle.msp_pieces.specs.LastEnds.{LawOfLastEnds};
ghost use Rattle.msp_pieces.specs.Laws.{LawOfEnds, LawOfFloors, LawOfGroups};
ghost use Rattle.msp_pieces.specs.Levels.{LawOfLevels};
ghost use Rattle.msp_pieces.specs.Limits.{AreLimits};
ghost use Rattle.msp_pieces.specs.Loads.{LawOfLines, LawOfMachines};
ghost use Rattle.msp_pieces.specs.Prices.{LawOfPrices};
ghost use Rattle.msp_pieces.specs.Segments.{LawOfSegments};
ghost use Rattle.msp_pieces.specs.Speeds.{LawOfSpeeds};

/// Jobs that do not begin before a moment end only when all machines together have had the time for them.
pub fn law_of_ends()
    ensures { LawOfEnds }
{}

/// Jobs end only when as many machines as they can use have had the time for them.
pub fn law_of_groups()
    ensures { LawOfGroups }
{}

/// Jobs have no more time than all machines up to a moment and, behind it, each job up to its end.
pub fn law_of_last_ends()
    ensures { LawOfLastEnds }
{}

/// Jobs on machines with speeds end only when the machines have had the time for them: below a threshold of speed each job is on one
/// machine at a time, and above it each machine is on one job.
pub fn law_of_speeds()
    ensures { LawOfSpeeds }
{}

/// Jobs of one unit of time may begin at multiples of the unit, and no job ends later.
pub fn law_of_floors()
    ensures { LawOfFloors }
{}

/// Prices of jobs and positions bound the sum of completion times on unrelated machines.
pub fn law_of_prices()
    ensures { LawOfPrices }
{}

/// Jobs of at least a level end only when the machines have had the time for them, and as many units earlier as the level says.
pub fn law_of_levels()
    ensures { LawOfLevels }
{}

/// Lists of jobs of one unit of time, of which each is done only after the one before it, take the machines as long as each list alone
/// does, one after another.
pub fn law_of_segments()
    ensures { LawOfSegments }
{}

/// In shops all jobs end only when each machine has had the time for its operations.
pub fn law_of_machines()
    ensures { LawOfMachines }
{}

/// In shops a job ends only when it has had the time for its operations.
pub fn law_of_lines()
    ensures { LawOfLines }
{}

/// On one machine no schedule costs less, by the greatest cost of a job, than the value of a block: the jobs cannot all be done earlier,
/// and one that leads to none of them ends last.
pub fn law_of_blocks()
    ensures { LawOfBlocks }
{}

/// The limits of moments, of units that are carried, and of fractions that are compared, by their numbers.
pub fn law_of_limits()
    ensures { AreLimits }
{}
