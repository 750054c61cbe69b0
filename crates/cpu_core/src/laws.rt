// Steps over a bus of answers make the runs of the definitions.
ghost use Rattle.std.specs.Prelude.{ℕ, suc, ◌≡◌, None};
ghost use Rattle.v32_isa.specs.declared.stepped.Stepped.{Stepped};
ghost use Rattle.v32_isa.specs.Machine.{Steps};
ghost use Rattle.v32_isa.specs.Runs.{run};
ghost use Rattle.v32_isa.specs.State.{State};
ghost use Rattle.cpu_core.specs.Answers.{Answers, Answering, Telling};
ghost use Rattle.cpu_core.specs.Stepping.{run_from};

/// Where a step over a bus of answers, with no event left in it, comes from a state to another, a
/// run of one step more is the event that the bus then has, and the run from there.
pub fn steps_make_runs()
    ensures { (n : ℕ) (s t : State) (b c : Answers) (how : Stepped) → b.made ≡ None → Steps Answering Telling s b how t c →
        run (suc n) s b.left ≡ run_from how n t c.left c.made }
{}
