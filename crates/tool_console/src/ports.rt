// The ports of graphics and of sound, told words by number.
use gpu_state::Gpu;
use spu_mix::Spu;
use v32_isa::{Port, listens};

/// Tells a port of graphics a word; nothing where the number is none of these.
pub fn tell_graphics(gpu: &mut Gpu, number: u32, word: u32) {
    if number < 0x200 || number > 0x2FF {
        return;
    }
    let port = Port::at(number);
    if listens(port) {
        gpu.out(port, word);
    }
}

/// Tells a port of sound a word; nothing where the number is none of these.
pub fn tell_sound(spu: &mut Spu, number: u32, word: u32) {
    if number < 0x300 || number > 0x3FF {
        return;
    }
    let port = Port::at(number);
    if listens(port) {
        spu.out(port, word);
    }
}
