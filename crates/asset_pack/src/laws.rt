// Laws of the texts, over all values.
ghost use Rattle.std.specs.Prelude.{◌≡◌, ◌++◌, ◌<◌, List, ℕ, Ok, slice_index};
ghost use Rattle.asset_pack.specs.Texts.{Image, IsTexture, IsSound, IsProgram, words_file_text, texture_text, sound_text};
ghost use Rattle.asset_pack.specs.Words.{IsBytes};
ghost use Rattle.asset_pack.specs.Reading.{words_at, texture_at};

use crate::kind::Kind;

/// What is written is read again, whatever follows it: so each value has its own text, and no text
/// begins another.
pub fn texts_read_again()
    ensures words { (ws rest : List ℕ) → IsProgram ws → words_at Kind.Words (words_file_text ws ++ rest) ≡ Ok (ws, rest) }
    ensures texture { (t : Image) (rest : List ℕ) → IsTexture t → texture_at (texture_text t ++ rest) ≡ Ok (t, rest) }
    ensures sound { (samples rest : List ℕ) → IsSound samples → words_at Kind.Sound (sound_text samples ++ rest) ≡ Ok (samples, rest) }
{}

/// What is read at the front of bytes is spelled so, each byte of it.
pub fn fronts_are_texts()
    ensures words { (bytes : List ℕ) (x : List ℕ × List ℕ) → IsBytes bytes → words_at Kind.Words bytes ≡ Ok x
        → IsProgram x.0 × (bytes ≡ words_file_text x.0 ++ x.1) }
    ensures texture { (bytes : List ℕ) (x : Image × List ℕ) → IsBytes bytes → texture_at bytes ≡ Ok x → IsTexture x.0 × (bytes ≡ texture_text x.0 ++ x.1) }
    ensures sound { (bytes : List ℕ) (x : List ℕ × List ℕ) → IsBytes bytes → words_at Kind.Sound bytes ≡ Ok x → IsSound x.0 × (bytes ≡ sound_text x.0 ++ x.1) }
{}
