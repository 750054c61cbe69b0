// What the ports answer.
ghost use Rattle.std.specs.Prelude.{◌≡◌};
ghost use Rattle.gpu_state.specs.Changes.{answer_with};

use crate::region::Region;
use crate::settings::Settings;

/// The answer of a port, of the pixels left, the settings and the selected region; 0 at any other number.
#[tactic(auto, unfolding(crate::specs::Changes::answer_with))]
pub fn port_answer(left: u32, settings: Settings, region: Region, port: u32) -> u32
    ensures answer { result ≡ answer_with left settings region port }
{
    match port {
        0x201 => left,
        0x202 => settings.clear_color,
        0x203 => settings.multiply_color,
        0x204 => settings.blending,
        0x205 => settings.texture,
        0x206 => settings.region,
        0x207 => settings.point_x,
        0x208 => settings.point_y,
        0x20C => region.min_x,
        0x20D => region.min_y,
        0x20E => region.max_x,
        0x20F => region.max_y,
        0x210 => region.hotspot_x,
        0x211 => region.hotspot_y,
        _ => 0,
    }
}
