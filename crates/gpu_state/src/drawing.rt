// The two commands, on a screen and what is left of the frame's pixels.
ghost use Rattle.std.specs.Prelude.{◌≡◌, ℕ, ◌≤◌, ◌<◌, length, slice_index, Some};
ghost use Rattle.gpu_state.specs.Commands.{mode_of, Clear, Draw};
ghost use Rattle.gpu_state.specs.Changes.{Does, IsOpaque, drawing_with};

use crate::painting::draw_on;
use crate::region::Region;
use crate::settings::Settings;
use crate::span::reach;
use asset_pack::Texture;
use pix_lanes::{Blend, fill_row};

/// The blending of a word.
fn blend_mode(word: u32) -> Blend
    ensures mode { result ≡ mode_of word }
{
    match word {
        0x20 => Blend::Alpha,
        0x21 => Blend::Add,
        _ => Blend::Subtract,
    }
}

/// Clears the screen, where its pixels are not more than those left, and gives what is left.
pub fn clear(screen: &mut [u32], color: u32, left: u32) -> u32
    requires screen { length screen.old ≡ 230400 }
    requires opaque { (k : ℕ) → k < 230400 → IsOpaque (slice_index screen.old k) }
    ensures done { Does (Some (Clear color)) left screen.old result screen.new }
    ensures opaque { (k : ℕ) → k < 230400 → IsOpaque (slice_index screen.new k) }
{
    if left < 230_400 {
        return left;
    }
    fill_row(screen, color % 0x100_0000 + 0xFF00_0000);
    left - 230_400
}

/// Draws a region of a texture, where its points on the screen are not more than the pixels left, and gives what is left.
pub fn draw(
    screen: &mut [u32],
    texture: &Texture,
    region: Region,
    settings: Settings,
    left: u32,
) -> u32
    requires screen { length screen.old ≡ 230400 }
    requires opaque { (k : ℕ) → k < 230400 → IsOpaque (slice_index screen.old k) }
    ensures done { Does (Some (Draw (drawing_with texture.now region settings))) left screen.old result screen.new }
    ensures opaque { (k : ℕ) → k < 230400 → IsOpaque (slice_index screen.new k) }
{
    let columns = reach(
        settings.point_x,
        region.hotspot_x,
        region.min_x,
        region.max_x,
        640,
    );
    let rows = reach(
        settings.point_y,
        region.hotspot_y,
        region.min_y,
        region.max_y,
        360,
    );
    let points = ((columns.to - columns.from) * (rows.to - rows.from)) as u32;
    if points > left {
        return left;
    }
    let mode = blend_mode(settings.blending);
    draw_on(
        screen,
        texture,
        columns,
        rows,
        settings.multiply_color,
        mode,
    );
    left - points
}
