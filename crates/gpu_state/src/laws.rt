// Laws of the definitions.
ghost use Rattle.std.specs.Prelude.{ℕ, ◌≡◌, ◌↔◌, ◌+◌, ◌<◌, ◌^◌, false, List, ◌∷◌, pos, ◌+ℤ◌, ◌-ℤ◌};
ghost use Rattle.asset_pack.specs.Texts.{Image};
ghost use Rattle.kit_base.specs.Word.{signed};
ghost use Rattle.port_history.specs.Past.{Asked, Happening, Mixed, Told, is_graphics_port};
ghost use Rattle.gpu_state.specs.Places.{raised};
ghost use Rattle.gpu_state.specs.Stand.{Graphics, GraphicsStand};

/// What graphics stand for goes on where a port is asked, where another device is told a word, and where samples are mixed.
pub fn other_events_leave_graphics()
    ensures asked { (textures : List Image) (past : List Happening) (g : Graphics) (port : ℕ) → GraphicsStand textures past g →
        GraphicsStand textures (Asked port ∷ past) g }
    ensures told { (textures : List Image) (past : List Happening) (g : Graphics) (port word : ℕ) → is_graphics_port port ≡ false →
        GraphicsStand textures past g → GraphicsStand textures (Told port word ∷ past) g }
    ensures mixed { (textures : List Image) (past : List Happening) (g : Graphics) → GraphicsStand textures past g →
        GraphicsStand textures (Mixed ∷ past) g }
{}

/// A texture's place u is drawn at the screen's place point + u - hotspot, in whole numbers with sign and without wrapping.
pub fn places_are_sums()
    ensures sum { (point hotspot u x : ℕ) → point < 2 ^ 32 → hotspot < 2 ^ 32 →
        (pos x ≡ (signed point +ℤ pos u) -ℤ signed hotspot) ↔ (x + raised hotspot ≡ raised point + u) }
{}
