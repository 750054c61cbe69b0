// What the processor talks to.
ghost use Rattle.std.specs.Prelude.{ℕ, Option};

use v32_isa::Port;

/// The devices behind the ports. Two relations say what its calls do: the value before, the port,
/// the answer or the word, the value after.
pub trait Bus {
    ghost input_gives: { Self → ℕ → Option ℕ → Self → Type 0 };

    ghost output_gives: { Self → ℕ → ℕ → Self → Type 0 };

    /// The port's answer; none where the bus has no more answers.
    fn input(&mut self, port: Port) -> Option<u32>
        ensures { input_gives self.old port result self.new };

    /// Gives the port a word.
    fn output(&mut self, port: Port, word: u32)
        ensures { output_gives self.old port word self.new };
}
