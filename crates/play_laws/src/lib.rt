//! What a console does with the cartridge of a build, told from what its source means.
//!
//! It promises, of definitions alone, that the port operations of a played run are those of the source's meaning under the answers that the
//! console's devices gave; and that one bound tells whether the source strays before the run is over, and what follows where it does not. It stands on
//! `build_core` for what is built, on `v32_console` for the console, on `run_laws` for what words have done, and on `c_watch` for the verdict.
#![tactic(auto)]

mod laws;

pub use laws::{kept_runs_are_the_sources, played_runs_are_the_sources};
