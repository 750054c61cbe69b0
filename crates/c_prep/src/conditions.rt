// The conditions that are open in a file.
ghost use Rattle.std.specs.Prelude.{◌≡◌, []};
ghost use Rattle.c_prep.specs.Faults.{Gives};
ghost use Rattle.c_prep.specs.Conditions.{begun, closed, ended, skips, turned};

use crate::error::{Fault, FaultAt, StepErr, fault_at};
use c_lex::Token;
use std::alloc::Global;
use std::marker::Model;

/// An open condition: the line of its opening, whether what stands around it is skipped, whether its
/// part that is open is taken, and whether `#else` came.
#[derive(Clone, Copy)]
pub struct Condition {
    pub line: u32,
    pub around: bool,
    pub taken: bool,
    pub turned: bool,
}

/// Conditions, which contracts see with the innermost first.
#[derive(Drop)]
pub struct Conditions {
    open: Vec<Condition>,
}

impl Model for Conditions {
    ghost use Rattle.std.specs.Prelude.{List, reverse};
    ghost use Rattle.c_prep.specs.declared.conditions.Condition.{Condition};

    ghost Value = { List Condition };

    ghost view = { λ c. reverse c.open.items };
}

impl Conditions {
    pub fn new(alloc: Global) -> Conditions
        ensures { result ≡ [] }
    {
        Conditions {
            open: Vec::new(alloc),
        }
    }

    /// Whether a part is skipped.
    pub fn skips(&self) -> bool
        ensures { result ≡ skips self.now }
    {
        match self.open.last() {
            None => false,
            Some(c) => c.around || !c.taken,
        }
    }

    /// Opens a condition, in the directive of that `#`.
    pub fn begin(&mut self, hash: &Token, taken: bool) -> Result<(), StepErr>
        ensures { Gives self.new result (Ok (begun hash.now taken self.old)) }
    {
        let around = self.skips();
        self.open.push(Condition {
            line: hash.line,
            around,
            taken,
            turned: false,
        })?;
        Ok(())
    }

    pub fn turn(&mut self, hash: &Token) -> Result<(), StepErr>
        ensures { Gives self.new result (turned hash.now self.old) }
    {
        match self.open.pop() {
            None => Err(StepErr::Cause(fault_at(Fault::BadDirective, hash))),
            Some(c) => {
                if c.turned {
                    return Err(StepErr::Cause(fault_at(Fault::BadDirective, hash)));
                }
                self.open.push(Condition {
                    line: c.line,
                    around: c.around,
                    taken: !c.taken,
                    turned: true,
                })?;
                Ok(())
            }
        }
    }

    pub fn end(&mut self, hash: &Token) -> Result<(), StepErr>
        ensures { Gives self.new result (ended hash.now self.old) }
    {
        match self.open.pop() {
            None => Err(StepErr::Cause(fault_at(Fault::BadDirective, hash))),
            Some(_) => Ok(()),
        }
    }

    /// Whether none is open where that file ends.
    pub fn closed(&self, file: u32) -> Result<(), StepErr>
        ensures { Gives tt result (closed file self.now) }
    {
        match self.open.last() {
            None => Ok(()),
            Some(c) => Err(StepErr::Cause(FaultAt {
                fault: Fault::OpenCondition,
                file,
                line: c.line,
            })),
        }
    }
}
