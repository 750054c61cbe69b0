// The outside: files by name and a sink for text, as a command sees them.
ghost use Rattle.std.specs.Prelude.{◌≡◌, ◌≤◌, ◌++◌, ◌⊎◌, List, ℕ, Option, length, take, IfOk, OnOk, OnErr, IfErr, IfSome, IsTrue, option_map};
ghost use Rattle.std.specs.FinMap.{contains_key};
ghost use Rattle.kit_base.specs.Held.{Held, emptied, appended};
ghost use Rattle.kit_base.specs.Outside.{Answers, due, HasCause, IsOfWriting, HasSinkCause};

use std::alloc::Global;

/// The longest file that is read, in bytes.
pub const FILE_LIMIT: usize = 268_435_456;

/// Why a call of the files was refused: no file has that name, the system failed, the file has
/// over 268,435,456 bytes, or memory ran out.
#[derive(Clone, Copy, Debug, PartialEq, Eq, thiserror::Error)]
pub enum FileErr {
    #[error("no file has this name")]
    Missing,
    #[error("the system failed")]
    Failed,
    #[error("the file has over 268,435,456 bytes")]
    TooLong,
    #[error("out of memory")]
    Memory,
}

/// Files that are read whole, by name. A count at 2^64 - 1, its last value, is taken as risen.
pub trait Reads {
    /// The files that are held, where that is told.
    ghost held: { Self → Option Held };

    /// How often a call failed, a name was missing, a file was too long. None of them falls.
    ghost faults: { Self → ℕ };

    ghost misses: { Self → ℕ };

    ghost overs: { Self → ℕ };

    /// The bytes of the file of that name, at most 268,435,456. No file changes.
    fn read(&mut self, alloc: Global, name: &str) -> Result<Vec<u8>, FileErr>
        ensures held { held self.new ≡ held self.old }
        // Where it is told what is held, the answer is the one that the name is due there, unless
        // the call failed or memory ran out.
        ensures told { IfSome (held self.old) (λ m. Answers result (due m name.now)) }
        ensures limit { IfOk result (λ v. length v.items ≤ 268435456) }
        // No count falls, and each refusal but want of memory comes only where its count rose.
        ensures faults { HasCause FileErr.Failed (faults self.old) (faults self.new) result }
        ensures misses { HasCause FileErr.Missing (misses self.old) (misses self.new) result }
        ensures overs { HasCause FileErr.TooLong (overs self.old) (overs self.new) result };
}

/// Files that are written too. No call changes a file of another name.
pub trait Files: Reads {
    /// Makes the file of that name empty. After a refusal it is as before, or empty.
    fn create(&mut self, name: &str) -> Result<(), FileErr>
        ensures ok { OnOk result (Self.held self.new ≡ option_map (emptied name.now) (Self.held self.old)) }
        ensures err { OnErr result ((Self.held self.new ≡ Self.held self.old)
            ⊎ (Self.held self.new ≡ option_map (emptied name.now) (Self.held self.old))) }
        ensures kinds { IfErr result IsOfWriting }
        ensures faults { HasCause FileErr.Failed (Self.faults self.old) (Self.faults self.new) result }
        ensures misses { HasCause FileErr.Missing (Self.misses self.old) (Self.misses self.new) result }
        ensures overs { HasCause FileErr.TooLong (Self.overs self.old) (Self.overs self.new) result };

    /// Adds the piece at the end of the file of that name. After a refusal the file has its old
    /// bytes and a front of the piece.
    fn append(&mut self, name: &str, piece: &[u8]) -> Result<(), FileErr>
        requires { IfSome (Self.held self.old) (λ m. IsTrue (contains_key m name.now)) }
        ensures ok { OnOk result (Self.held self.new ≡ option_map (appended name.now piece.now) (Self.held self.old)) }
        ensures err { OnErr result ((n : ℕ) × (Self.held self.new ≡ option_map (appended name.now (take n piece.now)) (Self.held self.old))) }
        ensures kinds { IfErr result IsOfWriting }
        ensures faults { HasCause FileErr.Failed (Self.faults self.old) (Self.faults self.new) result }
        ensures misses { HasCause FileErr.Missing (Self.misses self.old) (Self.misses self.new) result }
        ensures overs { HasCause FileErr.TooLong (Self.overs self.old) (Self.overs self.new) result };
}

/// Why a piece was not put whole: the system failed, or memory ran out.
#[derive(Clone, Copy, Debug, PartialEq, Eq, thiserror::Error)]
pub enum SinkErr {
    #[error("the system failed")]
    Failed,
    #[error("out of memory")]
    Memory,
}

/// Takes the text that a command puts.
pub trait Sink {
    /// What was written, where that is told.
    ghost written: { Self → Option (List ℕ) };

    /// How often a call failed. It does not fall.
    ghost faults: { Self → ℕ };

    /// Puts the piece behind what was put before. After a refusal a front of it was put.
    fn put(&mut self, piece: &[u8]) -> Result<(), SinkErr>
        ensures ok { OnOk result (written self.new ≡ option_map (λ w. w ++ piece.now) (written self.old)) }
        ensures err { OnErr result ((n : ℕ) × (written self.new ≡ option_map (λ w. w ++ take n piece.now) (written self.old))) }
        ensures faults { HasSinkCause (faults self.old) (faults self.new) result };
}
