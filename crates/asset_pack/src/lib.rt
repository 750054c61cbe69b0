//! Words files, textures and sounds: their limits, and their files both ways.
//!
//! Each value has one spelling, which a reader gives back and a writer makes; a refusal is the first
//! test that fails. It stands on kit_base, and on byteorder for the words.
#![tactic(auto)]

mod error;
mod front;
mod kind;
mod laws;
mod sound;
mod texture;
mod words;

pub use error::{AssetErr, AssetFault};
pub use front::front_fault;
pub use kind::Kind;
pub use laws::{fronts_are_texts, texts_read_again};
pub use sound::{Sound, put_sound, read_sound, sound_front, write_sound};
pub use texture::{Texture, put_texture, read_texture, texture_front, write_texture};
pub use words::{
    put_word, put_words, put_words_file, read_words, word_at, words_front, words_of, write_words,
};
