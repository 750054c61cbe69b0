// The regions of textures.
ghost use Rattle.std.specs.Prelude.{◌≡◌, ℕ, ◌<◌, List, ◌∷◌};
ghost use Rattle.port_history.specs.Past.{Happening, Told};
ghost use Rattle.gpu_state.specs.Settings.{selected_texture, selected_region};
ghost use Rattle.gpu_state.specs.Regions.{is_hotspot};
ghost use Rattle.gpu_state.specs.Stand.{RegionStands};

/// The six values of a region: its sides, ends included, and the point that is drawn on the drawing point. Hotspots are
/// signed words.
#[derive(Clone, Copy)]
pub struct Region {
    pub min_x: u32,
    pub min_y: u32,
    pub max_x: u32,
    pub max_y: u32,
    pub hotspot_x: u32,
    pub hotspot_y: u32,
}

/// Whether a word may be a hotspot's.
fn is_hotspot_word(word: u32) -> bool
    ensures hotspot { result ≡ is_hotspot word }
{
    word <= 2047 || word >= 0xFFFF_FC00
}

impl Region {
    /// Takes a word that was written to a port of region values, while the region is selected.
    pub fn out(&mut self, port: u32, word: u32)
        ensures stands { (count t r : ℕ) (past : List Happening) → 0 < count → selected_texture count past ≡ t → selected_region past ≡ r →
            RegionStands count t r past self.old → RegionStands count t r (Told port word ∷ past) self.new }
    {
        match port {
            0x20C if word <= 1023 => self.min_x = word,
            0x20D if word <= 1023 => self.min_y = word,
            0x20E if word <= 1023 => self.max_x = word,
            0x20F if word <= 1023 => self.max_y = word,
            0x210 if is_hotspot_word(word) => self.hotspot_x = word,
            0x211 if is_hotspot_word(word) => self.hotspot_y = word,
            _ => {}
        }
    }
}
