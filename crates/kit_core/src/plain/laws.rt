// A law of the definitions.
ghost use Rattle.std.specs.Prelude.{◌≡◌, Ok};
ghost use Rattle.run_files.specs.PadsReading.{pads_of};
ghost use Rattle.kit_core.specs.Plain.{plain_pads, plain_pads_text};

/// The script with no pad is the one that the pads file `pads 0 0 0` tells.
#[tactic(auto, using(crate::proofs::PlainTold::plain_is_told))]
pub fn plain_pads_are_of_their_text()
    ensures told { pads_of plain_pads_text ≡ Ok plain_pads }
{}
