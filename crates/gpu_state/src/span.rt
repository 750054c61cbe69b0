// One side of a drawing.
ghost use Rattle.std.specs.Prelude.{◌≡◌, ℕ, ◌≤◌, ◌<◌, ◌+◌, ◌-◌, ◌&&◌, nat_le, nat_lt};
ghost use Rattle.gpu_state.specs.Places.{raised, is_reached, texture_place};

/// The places of the screen that a region reaches along one side, from `from` to before `to`, and the texture's place that
/// comes to the first of them.
#[derive(Clone, Copy)]
pub struct Span {
    pub from: usize,
    pub to: usize,
    pub first: usize,
}

/// The signed reading of a word, raised by 2^31.
fn raise(word: u32) -> usize
    ensures raised { result ≡ raised word }
{
    word.wrapping_add(0x8000_0000) as usize
}

/// The span of a region with these sides, at a point and with a hotspot, on a screen of that size.
pub fn reach(point: u32, hotspot: u32, least: u32, most: u32, size: usize) -> Span
    requires small { size ≤ 1024 }
    ensures ordered { result.from ≤ result.to }
    ensures within { result.to ≤ size }
    ensures places { (x : ℕ) → x < size → is_reached point hotspot least most x ≡ (nat_le result.from x && nat_lt x result.to) }
    ensures texture { (x : ℕ) → result.from ≤ x → x < result.to → texture_place point hotspot x ≡ result.first + (x - result.from) }
{
    let point = raise(point);
    let hotspot = raise(hotspot);
    let from = (point + least as usize).saturating_sub(hotspot);
    let to = (point + most as usize + 1)
        .saturating_sub(hotspot)
        .min(size);
    if from < to {
        Span {
            from,
            to,
            first: from + hotspot - point,
        }
    } else {
        Span {
            from: 0,
            to: 0,
            first: 0,
        }
    }
}

impl Span {
    /// The part whose places are in a texture of that side.
    pub fn cut(self, side: usize) -> Span
        requires ordered { self.from ≤ self.to }
        ensures from { result.from ≡ self.from }
        ensures first { result.from < result.to → result.first ≡ self.first }
        ensures ordered { (result.from ≤ result.to) × (result.to ≤ self.to) }
        ensures all { (x : ℕ) → x < self.to → self.first + (x - self.from) < side → x < result.to }
        ensures within { result.first + (result.to - result.from) ≤ side }
    {
        let room = side.saturating_sub(self.first);
        let to = if self.to - self.from < room {
            self.to
        } else {
            self.from + room
        };
        Span {
            from: self.from,
            to,
            first: self.first.min(side),
        }
    }
}
