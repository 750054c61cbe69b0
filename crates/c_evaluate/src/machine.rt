// The machine and its steps.
use crate::frame::{Focus, Frame};
use crate::setting::Setting;
use crate::store::Store;

/// What is looked at, what has still to be done, and what a run has made so far.
#[derive(Drop)]
pub(crate) struct Machine<'a> {
    pub(crate) setting: Setting<'a>,
    pub(crate) focus: Focus<'a>,
    pub(crate) stack: Vec<Frame<'a>>,
    pub(crate) store: Store<'a>,
}
