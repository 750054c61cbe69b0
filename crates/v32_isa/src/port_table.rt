// The ports of the console.
ghost use Rattle.std.specs.Prelude.{◌≡◌, ◌<◌, ◌==◌, IfSome, find, map};
ghost use Rattle.std.specs.Option.{option_map};
ghost use Rattle.std.specs.Str.{bytes_eq};
ghost use Rattle.v32_isa.specs.Ports.{entry_of, first_spelling, is_readable, is_writable, listed, port_named, port_numbered, port_spelled};

use crate::port::Port;

/// A port: its name, its number, whether IN may name it (`readable`) and whether OUT may
/// (`writable`).
#[derive(Clone, Copy, PartialEq, Eq, Debug)]
pub struct PortRow {
    pub name: &'static str,
    pub number: u32,
    pub readable: bool,
    pub writable: bool,
}

/// Which way words go at a port.
#[derive(Clone, Copy, PartialEq, Eq, Debug)]
enum Direction {
    Input,
    Output,
    Both,
}

type Entry = (&'static str, u32, Direction);

const PORTS: [(&str, u32, Direction); 49] = [
    ("TIM_CurrentDate", 0x000, Direction::Input),
    ("TIM_CurrentTime", 0x001, Direction::Input),
    ("TIM_FrameCounter", 0x002, Direction::Input),
    ("TIM_CycleCounter", 0x003, Direction::Input),
    ("RNG_CurrentValue", 0x100, Direction::Both),
    ("GPU_Command", 0x200, Direction::Output),
    ("GPU_RemainingPixels", 0x201, Direction::Input),
    ("GPU_ClearColor", 0x202, Direction::Both),
    ("GPU_MultiplyColor", 0x203, Direction::Both),
    ("GPU_ActiveBlending", 0x204, Direction::Both),
    ("GPU_SelectedTexture", 0x205, Direction::Both),
    ("GPU_SelectedRegion", 0x206, Direction::Both),
    ("GPU_DrawingPointX", 0x207, Direction::Both),
    ("GPU_DrawingPointY", 0x208, Direction::Both),
    ("GPU_RegionMinX", 0x20C, Direction::Both),
    ("GPU_RegionMinY", 0x20D, Direction::Both),
    ("GPU_RegionMaxX", 0x20E, Direction::Both),
    ("GPU_RegionMaxY", 0x20F, Direction::Both),
    ("GPU_RegionHotspotX", 0x210, Direction::Both),
    ("GPU_RegionHotspotY", 0x211, Direction::Both),
    ("SPU_Command", 0x300, Direction::Output),
    ("SPU_SelectedSound", 0x302, Direction::Both),
    ("SPU_SelectedChannel", 0x303, Direction::Both),
    ("SPU_SoundLength", 0x304, Direction::Input),
    ("SPU_SoundPlayWithLoop", 0x305, Direction::Both),
    ("SPU_SoundLoopStart", 0x306, Direction::Both),
    ("SPU_SoundLoopEnd", 0x307, Direction::Both),
    ("SPU_ChannelState", 0x308, Direction::Input),
    ("SPU_ChannelAssignedSound", 0x309, Direction::Both),
    ("SPU_ChannelLoopEnabled", 0x30C, Direction::Both),
    ("SPU_ChannelPosition", 0x30D, Direction::Both),
    ("INP_SelectedGamepad", 0x400, Direction::Both),
    ("INP_GamepadConnected", 0x401, Direction::Input),
    ("INP_GamepadLeft", 0x402, Direction::Input),
    ("INP_GamepadRight", 0x403, Direction::Input),
    ("INP_GamepadUp", 0x404, Direction::Input),
    ("INP_GamepadDown", 0x405, Direction::Input),
    ("INP_GamepadButtonStart", 0x406, Direction::Input),
    ("INP_GamepadButtonA", 0x407, Direction::Input),
    ("INP_GamepadButtonB", 0x408, Direction::Input),
    ("INP_GamepadButtonX", 0x409, Direction::Input),
    ("INP_GamepadButtonY", 0x40A, Direction::Input),
    ("INP_GamepadButtonL", 0x40B, Direction::Input),
    ("INP_GamepadButtonR", 0x40C, Direction::Input),
    ("CAR_Connected", 0x500, Direction::Input),
    ("CAR_ProgramROMSize", 0x501, Direction::Input),
    ("CAR_NumberOfTextures", 0x502, Direction::Input),
    ("CAR_NumberOfSounds", 0x503, Direction::Input),
    ("MEM_Connected", 0x600, Direction::Input),
];

fn entry_by_name(entries: &[Entry], name: &str) -> Option<Entry>
    ensures { option_map listed result ≡ find (λ e. bytes_eq e.name name.now) (map listed entries.now) }
{
    for entry in entries {
        if entry.0 == name {
            return Some(*entry);
        }
    }
    None
}

fn entry_by_number(entries: &[Entry], number: u32) -> Option<Entry>
    ensures { option_map listed result ≡ find (λ e. e.number == number) (map listed entries.now) }
{
    for entry in entries {
        if entry.1 == number {
            return Some(*entry);
        }
    }
    None
}

fn row_of(entry: Entry) -> PortRow
    ensures { entry_of result ≡ listed entry.entry }
{
    let (name, number, direction) = entry;
    PortRow {
        name,
        number,
        readable: direction != Direction::Output,
        writable: direction != Direction::Input,
    }
}

/// The name's first spelling.
fn with_first_spelling(name: &str) -> &str
    ensures { result.now ≡ first_spelling name.now }
{
    match name {
        "GPU_RegionHotSpotX" => "GPU_RegionHotspotX",
        "GPU_RegionHotSpotY" => "GPU_RegionHotspotY",
        _ => name,
    }
}

fn port_spelled_as(name: &str) -> Option<PortRow>
    ensures { option_map entry_of result ≡ port_spelled name.now }
{
    let entry = entry_by_name(&PORTS, name)?;
    Some(row_of(entry))
}

/// The port of a name, in either spelling of the hotspot ports; the row has the first spelling.
/// None where no port has the name: the ports of floats have none.
#[tactic(auto, using(crate::proofs::PortNumbers::spelled_in_range), unfolding(crate::specs::Ports::port_named))]
pub fn port_by_name(name: &str) -> Option<PortRow>
    ensures row { option_map entry_of result ≡ port_named name.now }
    ensures range { IfSome result (λ r. r.number < 16384) }
{
    port_spelled_as(with_first_spelling(name))
}

/// The port of a number; none where no port has it.
#[tactic(auto, unfolding(crate::specs::Ports::port_numbered, crate::specs::Ports::port_table))]
pub fn port_by_number(number: u32) -> Option<PortRow>
    ensures row { option_map entry_of result ≡ port_numbered number }
    ensures range { IfSome result (λ r. r.number < 16384) }
{
    let entry = entry_by_number(&PORTS, number)?;
    Some(row_of(entry))
}

/// Whether the port answers: the table lists it as one that IN may name.
#[tactic(auto, unfolding(crate::specs::Ports::is_readable))]
pub fn answers(port: Port) -> bool
    ensures { result ≡ is_readable port }
{
    match port_by_number(port.number()) {
        Some(row) => row.readable,
        None => false,
    }
}

/// Whether the port takes a word: the table lists it as one that OUT may name.
#[tactic(auto, unfolding(crate::specs::Ports::is_writable))]
pub fn listens(port: Port) -> bool
    ensures { result ≡ is_writable port }
{
    match port_by_number(port.number()) {
        Some(row) => row.writable,
        None => false,
    }
}
