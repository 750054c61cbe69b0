// The instructions of a frame.
ghost use Rattle.std.specs.Prelude.{◌≡◌, ◌<◌, ◌≤◌, ◌+◌, ℕ, List};
ghost use Rattle.cpu_core.specs.Machine.{state_of};
ghost use Rattle.port_history.specs.Past.{Happening};
ghost use Rattle.v32_console.specs.Setup.{Setup};
ghost use Rattle.v32_console.specs.Moments.{Running, left_by, moment};
ghost use Rattle.v32_console.specs.Frames.{left_within};
ghost use Rattle.v32_console.specs.Runs.{operations_within};
ghost use Rattle.v32_console.specs.Stands.{BoardStands, IsNoted};

use crate::board::Board;
use crate::frame_end::FrameEnd;
use cpu_core::{Cpu, Stepped};

/// Does the instructions of a frame that has begun, up to its end.
pub fn run_frame(cpu: &mut Cpu, board: &mut Board) -> FrameEnd
    requires begun { 0 < board.old.devices.frames }
    requires first { board.old.cycles ≡ 0 }
    ensures ran { (u : Setup) (past : List Happening) → BoardStands u past board.old → (after : List Happening)
        × ((left_within 250000 u (moment (state_of cpu.old) past (Running 0)) ≡ left_by result (state_of cpu.new) after) × BoardStands u after board.new) }
    ensures frames { board.new.devices.frames ≡ board.old.devices.frames }
    // The tape has the frame's operations, and the board counts its instructions.
    ensures noted { (u : Setup) (past : List Happening) → BoardStands u past board.old
        → IsNoted (operations_within 250000 u (moment (state_of cpu.old) past (Running 0))) board.old.tape board.new }
    ensures few { board.new.cycles ≤ 250000 }
    ensures events { board.new.tape.events ≤ board.old.tape.events + board.new.cycles }
{
    for done in 0u32..250_000 {
        match cpu.step(board) {
            Stepped::Went => board.cycles = done + 1,
            Stepped::Waited => {
                board.cycles = done + 1;
                board.tape.told();
                return FrameEnd::Waited;
            }
            Stepped::Halted => {
                board.cycles = done + 1;
                return FrameEnd::Halted;
            }
            // Each port answers.
            Stepped::Starved => unreachable!(),
            Stepped::Fault(number) => {
                board.cycles = done + 1;
                let address = cpu.address();
                return FrameEnd::Fault { number, address };
            }
            Stepped::Undecodable(address) => {
                board.cycles = done + 1;
                return FrameEnd::Undecodable(address);
            }
        }
    }
    FrameEnd::Full
}
