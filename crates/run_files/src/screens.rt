// The heads of frames and samples files, and words as bytes.
ghost use Rattle.std.specs.Prelude.{◌≡◌, ◌*◌, length};
ghost use Rattle.asset_pack.specs.Words.{words_text};
ghost use Rattle.run_files.specs.Screens.{frames_header, samples_header};

use byteorder::{ByteOrder, LittleEndian};

/// The first 16 bytes of a frames file: the signature, the width and the height of a screen in pixels.
/// Each frame follows with its 230,400 pixels by rows.
pub fn frames_header() -> [u8; 16]
    ensures { result ≡ frames_header }
{
    *b"KITFRAME\x80\x02\x00\x00\x68\x01\x00\x00"
}

/// The first 16 bytes of a samples file: the signature, the samples per second and the number of sides.
/// Each frame follows with its 735 sample words.
pub fn samples_header() -> [u8; 16]
    ensures { result ≡ samples_header }
{
    *b"KITSOUND\x44\xAC\x00\x00\x02\x00\x00\x00"
}

/// Fills the bytes with the words, four bytes each, the lowest first.
pub fn put_words(words: &[u32], into: &mut [u8])
    requires { length into.old ≡ 4 * length words.now }
    ensures { into.new ≡ words_text words.now }
{
    LittleEndian::write_u32_into(words, into);
}
