// The three kinds of files of words.
ghost use Rattle.std.specs.Prelude.{◌≡◌};
ghost use Rattle.asset_pack.specs.Tests.{signature, head};

/// A kind of file: words alone, a texture, a sound. Each has a signature of eight bytes, its sizes,
/// and words.
#[derive(Clone, Copy, Debug, PartialEq, Eq)]
pub enum Kind {
    Words,
    Texture,
    Sound,
}

impl Kind {
    /// The first eight bytes.
    pub fn signature(self) -> &'static [u8]
        ensures { result.now ≡ signature self }
    {
        match self {
            Kind::Words => b"V32-VBIN",
            Kind::Texture => b"V32-VTEX",
            Kind::Sound => b"V32-VSND",
        }
    }

    /// The bytes before the words: the signature and one or two sizes.
    pub fn head(self) -> usize
        ensures { result ≡ head self }
    {
        match self {
            Kind::Words | Kind::Sound => 12,
            Kind::Texture => 16,
        }
    }
}
