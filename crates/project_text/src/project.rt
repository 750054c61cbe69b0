// Projects.
use kit_base::{Name, Seq};

/// The title of a program, its first source file, its textures and its sounds, by their file names.
#[derive(Drop)]
pub struct Project {
    pub title: Name,
    pub source: Name,
    pub textures: Seq<Name>,
    pub sounds: Seq<Name>,
}
