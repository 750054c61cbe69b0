// Where temporaries stand.
use mid_code::Where;

/// The place of each temporary by its number, and the one that stands for those of none.
#[derive(Drop)]
pub(crate) struct Places {
    pub(crate) at: Vec<Where>,
    pub(crate) other: Where,
}
