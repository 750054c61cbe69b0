// A law of the definitions.
ghost use Rattle.std.specs.Prelude.{ℕ, ◌≡◌, List, Option};
ghost use Rattle.cart_format.specs.Cartridge.{Cartridge};
ghost use Rattle.cart_format.specs.declared.row.LineTable.{LineTable};
ghost use Rattle.run_files.specs.Script.{Script};
ghost use Rattle.v32_console.specs.Setup.{setup_of};

/// A cartridge runs alike whatever its title and its line table, so one of the second revision as the one of the first that has
/// its program, textures and sounds.
pub fn titles_and_tables_change_no_run()
    ensures same { (cart : Cartridge) (title : List ℕ) (table : Option LineTable) (pads : Script) (card : Option (List ℕ))
        → setup_of (record cart { title = title; table = table }) pads card ≡ setup_of cart pads card }
{}
