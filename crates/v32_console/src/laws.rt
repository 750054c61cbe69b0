// Laws of the definitions.
ghost use Rattle.std.specs.Prelude.{ℕ, ◌≡◌};
ghost use Rattle.v32_isa.specs.Runs.{machine_runs};
ghost use Rattle.v32_console.specs.Machine.{end_of, operations_of};
ghost use Rattle.v32_console.specs.Moments.{console_at, opening_moment};
ghost use Rattle.v32_console.specs.Setup.{Setup};
ghost use Rattle.v32_console.specs.History.{HistoryIsTheRuns, RunIsTheHistorys, OperationsGoOn, RunsAreMoments};
ghost use Rattle.v32_console.specs.Runs.{RunsAreOfInstructions};
ghost use Rattle.v32_console.specs.Alike.{SameSectionsRunAlike, TablesAreNothing};

/// The console is the machine on a list of port answers: after k instructions and frame edges, with the answers that the
/// devices gave up to there, the machine has after as many instructions the same port operations, end and state.
pub fn operations_are_the_machines()
    ensures machine { (u : Setup) (k : ℕ)
        → machine_runs u.program (operations_of u k (opening_moment u)).answers u.card (operations_of u k (opening_moment u)).instructions
        ≡ record { events = (operations_of u k (opening_moment u)).events; end = end_of (console_at u k).phase; state = (console_at u k).state } }
{}

/// The history that screens and samples are drawn from has the reads and writes of ports of that machine's run, and with the devices' answers these are
/// the run's. Each answer is the devices' for the history before it, and every number of the machine's instructions is a moment of the console.
pub fn histories_are_of_the_run()
    ensures history { HistoryIsTheRuns }
    ensures operations { RunIsTheHistorys }
    ensures next_one { OperationsGoOn }
    ensures moments { RunsAreMoments }
{}

/// Cartridges with the same program, textures and sounds run alike, whatever their titles and line tables, and so in both revisions.
pub fn cartridges_run_alike()
    ensures sections { SameSectionsRunAlike }
    ensures tables { TablesAreNothing }
{}

/// A run of at most a number of frames is a number of instructions and frame edges, and the operations of its frames are those of these.
pub fn runs_are_of_instructions()
    ensures runs { RunsAreOfInstructions }
{}
