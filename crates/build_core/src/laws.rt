// Laws over the definitions alone, each the contract of a function that does nothing.
ghost use Rattle.std.specs.Prelude.{ℕ, ◌≡◌, ◌<◌, List, Ok};
ghost use Rattle.kit_base.specs.Held.{Held};
ghost use Rattle.c_types.specs.Programs.{ProgramT};
ghost use Rattle.build_core.specs.declared.building.Built.{Built};
ghost use Rattle.build_core.specs.declared.error.BuildErr.{BuildErr};
ghost use Rattle.cart_format.specs.Reading.{cart_of};
ghost use Rattle.cart_format.specs.Cartridge.{total};
ghost use Rattle.build_core.specs.Due.{Assets, assets, assets_of};
ghost use Rattle.build_core.specs.Build.{HasImage, HasNoParts, IsBuilt, cartridge_of};
ghost use Rattle.build_core.specs.Checked.{IsAccepted, IsRejected};

/// A project whose files are these is accepted or rejected by a check, never both, and accepted with one program at most.
pub fn projects_are_accepted_or_rejected()
    ensures either { (m : Held) (project : List ℕ) (p : ProgramT) (e : BuildErr)
        → IsAccepted m project p → IsRejected m project e → ⊥ }
    ensures one { (m : Held) (project : List ℕ) (p q : ProgramT)
        → IsAccepted m project p → IsAccepted m project q → p ≡ q }
{}

/// What is due as built has no refused input, and where the input of a build is refused, nothing is due as built.
pub fn builds_are_due_or_refused()
    ensures either { (m : Held) (project : List ℕ) (b : Built) (e : BuildErr)
        → IsBuilt m project b → HasNoParts m project e → ⊥ }
{}

/// With one image a cartridge is due as built or is too large, never both. Which of a program's images is made is not told.
pub fn images_fit_or_are_too_large()
    ensures either { (m : Held) (project : List ℕ) (b : Built) (built : IsBuilt m project b) (of : HasImage m project) (a : Assets)
        → of.image ≡ built.of.image → assets_of m of.parts ≡ Ok a → 268435456 < total (cartridge_of of.parts.title of.image a) → ⊥ }
{}

/// From the bytes of a built cartridge the very cartridge is read again that the project's parts make: its title, the image's words and line table,
/// and its textures and sounds.
pub fn built_cartridges_are_read_back()
    ensures read { (m : Held) (project : List ℕ) (b : Built) (built : IsBuilt m project b)
        → cart_of b.cart ≡ Ok (cartridge_of built.of.parts.title built.of.image (assets built.textures built.sounds)) }
{}
