// The definitions hold where they should, and fail where they should.
ghost use Rattle.std.specs.Prelude.{◌≡◌, pos, [], ◌∷◌};
ghost use Rattle.msp_pieces.specs.Cost.{cost_of};
ghost use Rattle.msp_pieces.specs.Feasible.{Feasible};
ghost use Rattle.msp_pieces.specs.Loads.{machine_load, job_length};
ghost use Rattle.msp_pieces.specs.Segments.{segments_bound};
ghost use Rattle.msp_pieces.specs.Speeds.{speed_above};
ghost use Rattle.msp_tests.specs.Examples.{Costs, three_speeds, weighted, by_ratio, no_span, no_place, at_once, half_done, parallel, on_both, released, too_early, ordered};
ghost use Rattle.msp_tests.specs.Examples.{backward, flow, second_first, back_again};

fn a_schedule_by_ratio_is_feasible()
    ensures feasible { Feasible weighted by_ratio }
    ensures cost { cost_of weighted by_ratio ≡ pos 14 }
{}

fn each_criterion_has_its_cost()
    ensures { Costs }
{}

fn each_broken_condition_is_refused()
    ensures span { ¬ Feasible weighted no_span }
    ensures place { ¬ Feasible weighted no_place }
    ensures machine { ¬ Feasible weighted at_once }
    ensures job { ¬ Feasible parallel on_both }
    ensures release { ¬ Feasible released too_early }
    ensures arc { ¬ Feasible ordered backward }
    ensures route { ¬ Feasible flow second_first }
    ensures work { ¬ Feasible weighted half_done }
{}

fn loads_and_lengths_add_up_times()
    ensures loads { (machine_load back_again 0 ≡ 6) × (machine_load back_again 1 ≡ 8) }
    ensures lengths { (job_length back_again 0 ≡ 9) × (job_length back_again 1 ≡ 5) }
{}

fn speeds_and_segments_add_up()
    ensures uniform { (speed_above three_speeds 0 ≡ 9) × (speed_above three_speeds 1 ≡ 6) × (speed_above three_speeds 4 ≡ 1) }
    ensures identical { (speed_above parallel 0 ≡ 2) × (speed_above parallel 1 ≡ 0) }
    ensures segments { segments_bound parallel ((0 ∷ 1 ∷ 2 ∷ []) ∷ (3 ∷ []) ∷ (4 ∷ 5 ∷ []) ∷ []) ≡ 4 }
{}

#[test]
fn the_definitions_hold_where_they_should() {
    a_schedule_by_ratio_is_feasible();
    each_criterion_has_its_cost();
    each_broken_condition_is_refused();
    loads_and_lengths_add_up_times();
    speeds_and_segments_add_up();
}
