// Laws of the definitions.
ghost use Rattle.std.specs.Prelude.{ℕ, List};
ghost use Rattle.c_types.specs.Programs.{ProgramT};
ghost use Rattle.c_front.specs.declared.places.Places.{Places};
ghost use Rattle.c_image.specs.Imaging.{ImageT, IsImageOf};
ghost use Rattle.c_image.specs.Ordered.{RowsRise};

/// The functions of an image's map stand at rising addresses in the program, each at an instruction: that which is the first behind its label.
pub fn functions_stand_at_instructions()
    ensures { (p : ProgramT) (places : Places) (starts : List ℕ) (i : ImageT) → IsImageOf p places starts i → RowsRise i.items 0x20000000 i.map.frames }
{}
