// A console's run that writes no file: how it ended, and its clear colour then.
mod laws;
mod pads;
mod run;

pub use laws::plain_pads_are_of_their_text;
pub(crate) use run::PlainRun;
