// One pixel.
ghost use Rattle.std.specs.Prelude.{◌≡◌, ◌≤◌, ◌<◌, ◌*◌, ◌^◌};
ghost use Rattle.pix_lanes.specs.Pixels.{drawn, nearest_quotient, opaque, part_over, product};

use crate::blend::Blend;

/// n / 255, rounded to nearest.
#[inline(always)]
fn quotient(n: u32) -> u32
    requires range { n ≤ 65025 }
    ensures nearest { result ≡ nearest_quotient n }
{
    let t = n + 128;
    (t + (t >> 8)) >> 8
}

/// A part of the texture's colour, multiplied by that of the multiply colour.
#[inline(always)]
fn multiplied(texture: u8, multiply: u8) -> u8
    ensures product { result ≡ product texture multiply }
{
    quotient(texture as u32 * multiply as u32) as u8
}

/// A part of the drawn colour, over that of the screen.
#[inline(always)]
fn over(mode: Blend, colour: u8, alpha: u8, screen: u8) -> u8
    ensures part { result ≡ part_over mode colour alpha screen }
{
    let colour = colour as u32;
    let alpha = alpha as u32;
    let screen = screen as u32;
    match mode {
        Blend::Alpha => quotient(colour * alpha + screen * (255 - alpha)) as u8,
        Blend::Add => {
            let sum = screen + quotient(colour * alpha);
            if sum < 255 { sum as u8 } else { 255 }
        }
        Blend::Subtract => {
            let less = quotient(colour * alpha);
            if less < screen {
                (screen - less) as u8
            } else {
                0
            }
        }
    }
}

/// The colour of a screen pixel after a texture point was drawn on it.
#[inline(always)]
pub fn pixel(mode: Blend, multiply: u32, texture: u32, screen: u32) -> u32
    ensures drawn { result ≡ drawn mode multiply texture screen }
{
    let alpha = multiplied((texture / 0x100_0000) as u8, (multiply / 0x100_0000) as u8);
    let red = multiplied((texture % 0x100) as u8, (multiply % 0x100) as u8);
    let green = multiplied(
        (texture / 0x100 % 0x100) as u8,
        (multiply / 0x100 % 0x100) as u8,
    );
    let blue = multiplied(
        (texture / 0x1_0000 % 0x100) as u8,
        (multiply / 0x1_0000 % 0x100) as u8,
    );
    let red = over(mode, red, alpha, (screen % 0x100) as u8);
    let green = over(mode, green, alpha, (screen / 0x100 % 0x100) as u8);
    let blue = over(mode, blue, alpha, (screen / 0x1_0000 % 0x100) as u8);
    joined(red, green, blue)
}

/// A pixel of full alpha.
#[inline(always)]
fn joined(red: u8, green: u8, blue: u8) -> u32
    ensures word { result ≡ opaque red green blue }
{
    red as u32 + green as u32 * 0x100 + blue as u32 * 0x1_0000 + 0xFF00_0000
}
