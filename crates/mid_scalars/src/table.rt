// What becomes of the locals of a function.
use crate::roles::Role;

/// The roles of the temporaries; which locals are plain; of a plain local the temporary that it becomes, of another one its new number; and
/// how many are not plain.
#[derive(Drop)]
pub(crate) struct Table {
    pub(crate) roles: Vec<Role>,
    pub(crate) plain: Vec<bool>,
    pub(crate) numbers: Vec<u32>,
    pub(crate) kept: u32,
}
