// Whole screens, cleared and drawn.
use crate::ports::tell_graphics;
use asset_pack::Texture;
use gpu_state::Gpu;
use std::alloc::Global;

/// How many whole screens a frame's pixels allow.
const SCREENS_A_FRAME: u32 = 9;

/// The pixel of that number of the drawn texture: some colour, of alpha 128.
fn texture_pixel(number: u32) -> u32 {
    number.wrapping_mul(0x9E37_79B1) / 0x100 + 0x8000_0000
}

/// A texture as large as the screen; none for want of memory.
fn texture(alloc: Global) -> Option<Texture> {
    let mut pixels = Vec::from_elem(alloc, 0u32, 640 * 360).ok()?;
    for i in 0..pixels.len() {
        pixels[i] = texture_pixel(i as u32);
    }
    Texture::new(640, 360, pixels)
}

/// Clears the screen so many times, each time to another colour.
pub fn clears(alloc: Global, times: u32) -> Option<Gpu> {
    let mut gpu = Gpu::open(alloc, Vec::new(alloc)).ok()?;
    for time in 0..times {
        if time % SCREENS_A_FRAME == 0 {
            gpu.begin_frame();
        }
        tell_graphics(&mut gpu, 0x202, time);
        tell_graphics(&mut gpu, 0x200, 0x10);
    }
    Some(gpu)
}

/// Draws a texture as large as the screen over it so many times, mixed by its alpha.
pub fn draws(alloc: Global, times: u32) -> Option<Gpu> {
    let mut textures = Vec::new(alloc);
    textures.push(texture(alloc)?).ok()?;
    let mut gpu = Gpu::open(alloc, textures).ok()?;
    for (port, word) in [
        (0x203, 0xFFE0_C0A0),
        (0x204, 0x20),
        (0x20E, 639),
        (0x20F, 359),
    ] {
        tell_graphics(&mut gpu, port, word);
    }
    for time in 0..times {
        if time % SCREENS_A_FRAME == 0 {
            gpu.begin_frame();
        }
        tell_graphics(&mut gpu, 0x200, 0x11);
    }
    Some(gpu)
}
