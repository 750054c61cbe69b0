// The addresses of labels.
ghost use Rattle.std.specs.Prelude.{◌≡◌, [], true, IfOk};
ghost use Rattle.asm_laws.specs.Labelled.{label_of_function};
ghost use Rattle.assembler.specs.Labels.{address_in, are_words};
ghost use Rattle.c_image.specs.inner.Labels.{added};

use assembler::Labels;
use kit_base::{Memory, Name, join_pieces};
use std::alloc::Global;

/// The labels of a program; of two with one name the first stays. The error is want of memory.
pub fn labels_in<'a>(alloc: Global, labels: &'a [(Name, u32)]) -> Result<Labels<'a>, Memory>
    ensures labels { IfOk result (λ l. l ≡ added [] labels.now) }
    ensures words { IfOk result (λ l. are_words l ≡ true) }
{
    let mut table = Labels::new(alloc);
    'each: for label in labels {
        table.add(&label.0, u64::from(label.1))?;
    }
    Ok(table)
}

/// The address of the function of that name.
pub fn address_of_function(alloc: Global, labels: &Labels<'_>, name: &Name) -> Result<u32, Memory>
    requires { are_words labels.now ≡ true }
    ensures { IfOk result (λ a. a ≡ address_in labels.now (label_of_function name.now)) }
{
    let label = join_pieces(alloc, &[b"f_", name.bytes()])?;
    let label = Name::from_bytes(alloc, &label)?;
    Ok(labels.word_of(&label))
}
