// Laws of the texts, over all cartridges.
ghost use Rattle.std.specs.Prelude.{◌≡◌, List, ℕ, Ok};
ghost use Rattle.asset_pack.specs.Words.{IsBytes};
ghost use Rattle.cart_format.specs.Cartridge.{Cartridge, IsCartridge, cart_text};
ghost use Rattle.cart_format.specs.Reading.{cart_of};

/// What is written is read again: each cartridge has its own text.
pub fn cartridges_read_again()
    ensures { (c : Cartridge) → IsCartridge c → cart_of (cart_text c) ≡ Ok c }
{}

/// What is read is spelled so, each byte of it: each text is of one cartridge.
pub fn texts_are_cartridges()
    ensures { (bytes : List ℕ) (c : Cartridge) → IsBytes bytes → cart_of bytes ≡ Ok c → IsCartridge c × (bytes ≡ cart_text c) }
{}
