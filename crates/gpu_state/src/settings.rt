// The settings of graphics.
ghost use Rattle.std.specs.Prelude.{◌≡◌, ℕ, List, [], ◌∷◌};
ghost use Rattle.port_history.specs.Past.{Happening, Told};
ghost use Rattle.gpu_state.specs.Stand.{SettingsStand};

/// What each port of a setting was told last. Colours are words with red in the lowest byte, points are signed words.
#[derive(Clone, Copy)]
pub struct Settings {
    pub clear_color: u32,
    pub multiply_color: u32,
    pub blending: u32,
    pub texture: u32,
    pub region: u32,
    pub point_x: u32,
    pub point_y: u32,
}

impl Settings {
    /// The settings before anything was written.
    pub fn open() -> Settings
        ensures stand { (count : ℕ) → SettingsStand count [] result }
    {
        Settings {
            clear_color: 0xFF00_0000,
            multiply_color: 0xFFFF_FFFF,
            blending: 0x20,
            texture: 0,
            region: 0,
            point_x: 0,
            point_y: 0,
        }
    }

    /// Takes a word that was written to a port, with `count` textures in the cartridge.
    pub fn out(&mut self, port: u32, word: u32, count: u32)
        ensures stand { (past : List Happening) → SettingsStand count past self.old → SettingsStand count (Told port word ∷ past) self.new }
    {
        match port {
            0x202 => self.clear_color = word,
            0x203 => self.multiply_color = word,
            0x204 => {
                if 0x20 <= word && word <= 0x22 {
                    self.blending = word;
                }
            }
            0x205 => {
                if word < count {
                    self.texture = word;
                }
            }
            0x206 => {
                if word < 4096 {
                    self.region = word;
                }
            }
            0x207 => self.point_x = word,
            0x208 => self.point_y = word,
            _ => {}
        }
    }
}
