// Graphics.
use crate::answering::port_answer;
use crate::drawing::{clear, draw};
use crate::region::Region;
use crate::settings::Settings;
use asset_pack::Texture;
use kit_base::Memory;
use std::alloc::{AllocError, Global};
use std::marker::Model;
use v32_isa::Port;

/// Textures with their regions, the settings, what is left of the frame's pixels, and the screen.
#[derive(Drop)]
pub struct Gpu {
    textures: Vec<Texture>,
    regions: Vec<Region>,
    settings: Settings,
    left: u32,
    screen: Vec<u32>,
}

impl Model for Gpu {
    ghost use Rattle.std.specs.Prelude.{ℕ, ◌≡◌, ◌≤◌, ◌<◌, length, slice_index};
    ghost use Rattle.gpu_state.specs.Changes.{IsOpaque};
    ghost use Rattle.gpu_state.specs.Stand.{Graphics};

    ghost Value = { Graphics };

    ghost view = { λ g. record { textures = g.textures.items; regions = g.regions.items; settings = g.settings; left = g.left; screen = g.screen.items } };

    ghost invariant = { λ g. (length g.screen.items ≡ 230400)
        × ((k : ℕ) → k < 230400 → IsOpaque (slice_index g.screen.items k))
        × (length g.textures.items ≤ 1048576) };
}

ghost use Rattle.std.specs.Prelude.{◌≡◌, ◌≢◌, ℕ, ◌<◌, ◌≤◌, ◌+◌, ◌*◌, true, List, [], ◌∷◌, length, slice_index, slice_get, unwrap_or, Some, IfOk};
ghost use Rattle.asset_pack.specs.Texts.{Image};
ghost use Rattle.port_history.specs.Past.{Happening, Told, Began, is_graphics_port};
ghost use Rattle.v32_isa.specs.Ports.{is_readable, is_writable};
ghost use Rattle.gpu_state.specs.Settings.{clear_color as the_clear_color, selected_texture, selected_region as the_selected_region};
ghost use Rattle.gpu_state.specs.Places.{place};
ghost use Rattle.gpu_state.specs.Commands.{done};
ghost use Rattle.gpu_state.specs.Colours.{colour};
ghost use Rattle.gpu_state.specs.Answers.{graphics_answer};
ghost use Rattle.gpu_state.specs.Stand.{GraphicsStand, RegionStands, SettingsStand};
ghost use Rattle.gpu_state.specs.Changes.{Does, asked_now, place_of_selected, zero_region};
ghost use Rattle.gpu_state.specs.declared.region.Region.{Region as ARegion};

/// So many words, all the same.
fn words(alloc: Global, word: u32, count: usize) -> Result<Vec<u32>, AllocError>
    ensures len { IfOk result (λ v. length v.items ≡ count) }
    ensures all { IfOk result (λ v. (k : ℕ) → k < count → slice_index v.items k ≡ word) }
{
    Vec::from_elem(alloc, word, count)
}

/// The region whose values are all 0.
#[tactic(auto, unfolding(crate::specs::Changes::zero_region))]
fn zeros() -> Region
    ensures zero { result ≡ zero_region }
{
    Region {
        min_x: 0,
        min_y: 0,
        max_x: 0,
        max_y: 0,
        hotspot_x: 0,
        hotspot_y: 0,
    }
}

/// So many regions, all of zeros.
fn zero_regions(alloc: Global, count: usize) -> Result<Vec<Region>, AllocError>
    ensures len { IfOk result (λ v. length v.items ≡ count) }
    ensures zero { IfOk result (λ v. (k : ℕ) (a : ARegion) → slice_get v.items k ≡ Some a → a ≡ zero_region) }
{
    Vec::from_elem(alloc, zeros(), count)
}

impl Gpu {
    /// Graphics over these textures, with an opaque black screen and all region values 0. The error is want of memory; there is
    /// none for the regions of more than 1,048,576 textures.
    pub fn open(alloc: Global, textures: Vec<Texture>) -> Result<Gpu, Memory>
        ensures opened { IfOk result (λ gpu. GraphicsStand textures.items [] gpu) }
    {
        if textures.len() > 1_048_576 {
            return Err(Memory);
        }
        let regions = zero_regions(alloc, textures.len() * 4096)?;
        let screen = words(alloc, 0xFF00_0000, 230_400)?;
        Ok(Gpu {
            textures,
            regions,
            settings: Settings::open(),
            left: 2_073_600,
            screen,
        })
    }

    /// A frame begins: it has 2,073,600 pixels to draw and clear.
    pub fn begin_frame(&mut self)
        ensures began { (textures : List Image) (past : List Happening) → GraphicsStand textures past self.old →
            GraphicsStand textures (Began ∷ past) self.new }
    {
        self.left = 2_073_600;
    }

    /// Takes a word that was written to a port: a setting, a value of the selected region, or a command. Words that the port does not accept are
    /// ignored.
    pub fn out(&mut self, port: Port, word: u32)
        requires listed { (is_graphics_port port ≡ true) × (is_writable port ≡ true) }
        ensures told { (textures : List Image) (past : List Happening) → GraphicsStand textures past self.old →
            GraphicsStand textures (Told port word ∷ past) self.new }
    {
        self.tell(port.number(), word);
    }

    /// What a port answers.
    pub fn answer(&self, port: Port) -> u32
        requires listed { (is_graphics_port port ≡ true) × (is_readable port ≡ true) }
        ensures answer { (textures : List Image) (past : List Happening) → GraphicsStand textures past self.now →
            result ≡ graphics_answer textures past port }
    {
        port_answer(
            self.left,
            self.settings,
            self.selected_region(),
            port.number(),
        )
    }

    /// The screen, 360 rows of 640 pixels each. A pixel is a word with red in its lowest byte, then green, blue and alpha.
    pub fn screen(&self) -> &[u32]
        ensures pixels { (textures : List Image) (past : List Happening) → GraphicsStand textures past self.now →
            (x y : ℕ) → x < 640 → y < 360 → slice_index result.now (place x y) ≡ colour x y (done textures past) }
        ensures size { length result.now ≡ 230400 }
    {
        &self.screen
    }

    /// The clear colour, as it was written last.
    pub fn clear_color(&self) -> u32
        ensures color { (textures : List Image) (past : List Happening) → GraphicsStand textures past self.now →
            result ≡ the_clear_color past }
    {
        self.settings.clear_color
    }

    fn tell(&mut self, port: u32, word: u32)
        ensures told { (textures : List Image) (past : List Happening) → GraphicsStand textures past self.old →
            GraphicsStand textures (Told port word ∷ past) self.new }
    {
        match port {
            0x200 => self.command(word),
            0x20C..=0x211 => self.set_region(port, word),
            _ => self.set(port, word),
        }
    }

    fn set(&mut self, port: u32, word: u32)
        ensures kept { self.new ≡ record self.old { settings = self.new.settings } }
        ensures settings { (past : List Happening) → SettingsStand (length self.old.textures) past self.old.settings →
            SettingsStand (length self.old.textures) (Told port word ∷ past) self.new.settings }
    {
        let count = self.textures.len() as u32;
        self.settings.out(port, word, count);
    }

    fn set_region(&mut self, port: u32, word: u32)
        requires port { (524 ≤ port) × (port ≤ 529) }
        ensures kept { self.new ≡ record self.old { regions = self.new.regions } }
        ensures len { length self.new.regions ≡ length self.old.regions }
        ensures others { (k : ℕ) → k ≢ place_of_selected self.old.settings → slice_get self.new.regions k ≡ slice_get self.old.regions k }
        ensures selected { (a : ARegion) (count t r : ℕ) (past : List Happening) → 0 < count → selected_texture count past ≡ t → the_selected_region past ≡ r →
            ((b : ARegion) → slice_get self.old.regions (place_of_selected self.old.settings) ≡ Some b → RegionStands count t r past b) →
            slice_get self.new.regions (place_of_selected self.old.settings) ≡ Some a →
            RegionStands count t r (Told port word ∷ past) a }
    {
        let at = self.settings.texture as usize * 4096 + self.settings.region as usize;
        if at < self.regions.len() {
            let region = &mut self.regions[at];
            region.out(port, word);
        }
    }

    /// The selected region; zeros where there is none.
    fn selected_region(&self) -> Region
        ensures region { result ≡ unwrap_or (slice_get self.now.regions (place_of_selected self.now.settings)) zero_region }
    {
        let at = self.settings.texture as usize * 4096 + self.settings.region as usize;
        self.regions.get(at).copied().unwrap_or(zeros())
    }

    fn command(&mut self, word: u32)
        ensures done { Does (asked_now self.old word) self.old.left self.old.screen self.new.left self.new.screen }
        ensures kept { self.new ≡ record self.old { left = self.new.left; screen = self.new.screen } }
    {
        match word {
            0x10 => self.clear(),
            0x11 => self.draw(),
            _ => {}
        }
    }

    fn clear(&mut self)
        ensures done { Does (asked_now self.old 16) self.old.left self.old.screen self.new.left self.new.screen }
        ensures kept { self.new ≡ record self.old { left = self.new.left; screen = self.new.screen } }
    {
        self.left = clear(&mut self.screen, self.settings.clear_color, self.left);
    }

    fn draw(&mut self)
        ensures done { Does (asked_now self.old 17) self.old.left self.old.screen self.new.left self.new.screen }
        ensures kept { self.new ≡ record self.old { left = self.new.left; screen = self.new.screen } }
    {
        let at = self.settings.texture as usize;
        let Some(texture) = self.textures.get(at) else {
            return;
        };
        let Some(region) = self
            .regions
            .get(at * 4096 + self.settings.region as usize)
            .copied()
        else {
            return;
        };
        self.left = draw(&mut self.screen, texture, region, self.settings, self.left);
    }
}
