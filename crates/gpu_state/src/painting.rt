// Painting a part of a texture on the screen.
ghost use Rattle.std.specs.Prelude.{◌≡◌, ℕ, ◌≤◌, ◌<◌, ◌+◌, ◌-◌, ◌*◌, ◌⊎◌, length, slice_index};
ghost use Rattle.pix_lanes.specs.Pixels.{drawn};
ghost use Rattle.gpu_state.specs.Places.{place};
ghost use Rattle.gpu_state.specs.Colours.{texel};
ghost use Rattle.gpu_state.specs.Changes.{IsOpaque};

use crate::span::Span;
use asset_pack::Texture;
use pix_lanes::{Blend, blend_row};

/// Draws a row of texture points from a place of the screen on.
fn paint_row(screen: &mut [u32], at: usize, src: &[u32], multiply: u32, mode: Blend)
    requires room { at + length src.now ≤ length screen.old }
    ensures inside { (k : ℕ) → at ≤ k → k < at + length src.now →
        slice_index screen.new k ≡ drawn mode multiply (slice_index src.now (k - at)) (slice_index screen.old k) }
    ensures outside { (k : ℕ) → (k < at) ⊎ (at + length src.now ≤ k) → slice_index screen.new k ≡ slice_index screen.old k }
{
    let dst = &mut screen[at..at + src.len()];
    blend_row(dst, src, multiply, mode);
}

/// Draws a rectangle of texture points, all of them in the texture, on the screen.
fn paint(
    screen: &mut [u32],
    texture: &Texture,
    columns: Span,
    rows: Span,
    multiply: u32,
    mode: Blend,
)
    requires screen { length screen.old ≡ 230400 }
    requires columns { (columns.from ≤ columns.to) × (columns.to ≤ 640) × (columns.first + (columns.to - columns.from) ≤ texture.now.width) }
    requires rows { (rows.from ≤ rows.to) × (rows.to ≤ 360) × (rows.first + (rows.to - rows.from) ≤ texture.now.height) }
    ensures inside { (x y : ℕ) → columns.from ≤ x → x < columns.to → rows.from ≤ y → y < rows.to →
        slice_index screen.new (place x y) ≡ drawn mode multiply
        (slice_index texture.now.pixels ((rows.first + (y - rows.from)) * texture.now.width + (columns.first + (x - columns.from))))
        (slice_index screen.old (place x y)) }
    ensures beside { (x y : ℕ) → x < 640 → (x < columns.from) ⊎ (columns.to ≤ x) →
        slice_index screen.new (place x y) ≡ slice_index screen.old (place x y) }
    ensures above { (x y : ℕ) → x < 640 → (y < rows.from) ⊎ (rows.to ≤ y) →
        slice_index screen.new (place x y) ≡ slice_index screen.old (place x y) }
{
    let width = texture.width() as usize;
    let pixels = texture.pixels();
    let count = columns.to - columns.from;
    for y in rows.from..rows.to {
        let start = (rows.first + (y - rows.from)) * width + columns.first;
        let src = &pixels[start..start + count];
        paint_row(screen, y * 640 + columns.from, src, multiply, mode);
    }
}

/// Draws the points of a texture over columns and rows of the screen. A point outside the texture has colour 0, which leaves
/// an opaque pixel as it is: so it is passed over.
pub fn draw_on(
    screen: &mut [u32],
    texture: &Texture,
    columns: Span,
    rows: Span,
    multiply: u32,
    mode: Blend,
)
    requires screen { length screen.old ≡ 230400 }
    requires opaque { (k : ℕ) → k < 230400 → IsOpaque (slice_index screen.old k) }
    requires columns { (columns.from ≤ columns.to) × (columns.to ≤ 640) }
    requires rows { (rows.from ≤ rows.to) × (rows.to ≤ 360) }
    ensures inside { (x y : ℕ) → columns.from ≤ x → x < columns.to → rows.from ≤ y → y < rows.to →
        slice_index screen.new (place x y) ≡ drawn mode multiply
        (texel texture.now (columns.first + (x - columns.from)) (rows.first + (y - rows.from)))
        (slice_index screen.old (place x y)) }
    ensures beside { (x y : ℕ) → x < 640 → (x < columns.from) ⊎ (columns.to ≤ x) →
        slice_index screen.new (place x y) ≡ slice_index screen.old (place x y) }
    ensures above { (x y : ℕ) → x < 640 → (y < rows.from) ⊎ (rows.to ≤ y) →
        slice_index screen.new (place x y) ≡ slice_index screen.old (place x y) }
{
    let columns = columns.cut(texture.width() as usize);
    let rows = rows.cut(texture.height() as usize);
    paint(screen, texture, columns, rows, multiply, mode);
}
