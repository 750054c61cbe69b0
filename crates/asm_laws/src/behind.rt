// What comes behind nodes.

/// What comes right behind some nodes: the function's end, the next turn of the innermost loop around them, or neither.
#[derive(Clone, Copy)]
pub enum Behind {
    Other,
    End,
    Turn,
}
