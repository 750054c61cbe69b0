// How a drawn pixel meets the screen's.

/// How the colour of a drawn pixel meets the one that stands on the screen. `Alpha` mixes the two by the drawn colour's
/// alpha, `Add` adds the drawn colour times its alpha, and `Subtract` takes that off; both end at the limits 255 and 0.
#[derive(Clone, Copy, PartialEq, Eq, Debug)]
pub enum Blend {
    Alpha,
    Add,
    Subtract,
}
