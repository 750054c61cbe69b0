// The passes in their order.
ghost use Rattle.std.specs.Prelude.{IfOk};
ghost use Rattle.c_check.specs.View.{program};
ghost use Rattle.mid_code.specs.Whole.{mid};
ghost use Rattle.mid_lower.specs.LoweredFrom.{IsLoweredFrom};
ghost use Rattle.c_compile.specs.Compiling.{compiled, IsCompiled};

use crate::naming::names_of;
use crate::sharing::share_all;
use asm_emit::emit;
use asm_items::AsmItem;
use c_check::Program;
use c_facts::laws::{programs_are_sound, programs_have_few_nodes};
use kit_base::Memory;
use mid_code::{Choice, Mid, Placed};
use mid_improve::settle;
use mid_lower::lower;
use mid_replace::replace;
use pass_laws::passes_meet;
use reg_choose::choose_all;
use reg_frames::place;
use std::alloc::Global;

/// What is made of a program: settled mid code without locals that need no address, the choice of a register or slot for each temporary, that of the start
/// first, the code over these places, and its assembly items.
#[derive(Drop)]
pub struct Compiled {
    pub mid: Mid,
    pub choices: Vec<Choice>,
    pub placed: Placed,
    pub items: Vec<AsmItem>,
}

/// What is made of a program that was lowered to this code. The error is want of memory.
#[tactic(auto, using(crate::proofs::Emitting::can_be_emitted, crate::proofs::Emitting::is_compiled))]
pub fn compile_lowered(alloc: Global, checked: &Program, lowered: Mid) -> Result<Compiled, Memory>
    requires lowered { IsLoweredFrom (program checked.now) (mid lowered) }
    ensures compiled { IfOk result (λ c. IsCompiled (program checked.now) (compiled c)) }
{
    programs_are_sound(checked);
    programs_have_few_nodes(checked);
    passes_meet();
    let replaced = replace(alloc, lowered)?;
    let mid = settle(alloc, replaced)?;
    let chosen = choose_all(alloc, &mid)?;
    let choices = share_all(alloc, &mid, chosen)?;
    let placed = place(alloc, &mid, &choices)?;
    let names = names_of(alloc, checked.functions())?;
    let items = emit(alloc, &placed, &names)?;
    Ok(Compiled {
        mid,
        choices,
        placed,
        items,
    })
}

/// What is made of a program: it is lowered to mid code; the words of small structures are held in temporaries; the code is settled by promotion of locals to
/// temporaries (mem2reg), constant folding, copy propagation and dead code elimination, in rounds; a register or slot is chosen for each temporary, which
/// operands share with targets; and the code over these places becomes assembly items. The error is want of memory.
pub fn compile(alloc: Global, checked: &Program) -> Result<Compiled, Memory>
    ensures compiled { IfOk result (λ c. IsCompiled (program checked.now) (compiled c)) }
{
    let lowered = lower(alloc, checked)?;
    compile_lowered(alloc, checked, lowered)
}
