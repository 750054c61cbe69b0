// Cartridges.
ghost use Rattle.std.specs.Prelude.{◌≡◌, Some, None, IfSome, IfNone, true, false};
ghost use Rattle.cart_format.specs.Cartridge.{is_cart, revision, total};
ghost use Rattle.cart_format.specs.Parts.{files_of, rows_of};

use crate::header::{CART_LIMIT, is_title};
use crate::row::{LineRow, LineTable};
use crate::size::{file_size, is_tail};
use asset_pack::{Sound, Texture};
use kit_base::{Name, Seq};
use std::marker::Model;

/// A cartridge: a title of 1 to 63 bytes of printable ASCII, 1 to 33,554,432 words of program, at
/// most 256 textures and 1,024 sounds, at most 268,435,456 bytes as a file. One of the first revision
/// has no line table, one of the second has one, which may be empty.
#[derive(Drop)]
pub struct Cart {
    title: Name,
    program: Seq<u32>,
    textures: Seq<Texture>,
    sounds: Seq<Sound>,
    table: Option<LineTable>,
}

impl Model for Cart {
    ghost use Rattle.std.specs.Prelude.{◌≡◌, true};
    ghost use Rattle.cart_format.specs.Cartridge.{Cartridge, is_cart};

    ghost Value = { Cartridge };

    ghost view = { λ c. record { title = c.title; program = c.program; textures = c.textures; sounds = c.sounds; table = c.table } };

    ghost invariant = { λ c. is_cart (record { title = c.title; program = c.program; textures = c.textures; sounds = c.sounds; table = c.table }) ≡ true };
}

/// What a cartridge holds but for its line table.
#[derive(Drop)]
pub struct CartParts {
    pub title: Name,
    pub program: Vec<u32>,
    pub textures: Vec<Texture>,
    pub sounds: Vec<Sound>,
}

/// Whether they are a cartridge.
#[tactic(auto, unfolding(crate::specs::Cartridge::is_cart))]
fn is_cart(
    title: &Name,
    program: &[u32],
    textures: &[Texture],
    sounds: &[Sound],
    table: &Option<LineTable>,
) -> bool
    ensures { result ≡ is_cart (record { title = title.now; program = program.now; textures = textures.now; sounds = sounds.now; table = table.now }) }
{
    is_title(title.bytes())
        && 1 <= program.len()
        && program.len() <= 33_554_432
        && textures.len() <= 256
        && sounds.len() <= 1024
        && is_tail(program.len(), table)
        && file_size(program, textures, sounds, table) <= CART_LIMIT as u64
}

/// The cartridge that was read.
pub(crate) fn of_parts(
    title: Name,
    program: Vec<u32>,
    textures: Seq<Texture>,
    sounds: Seq<Sound>,
    table: Option<LineTable>,
) -> Cart
    requires { is_cart (record { title = title; program = program.items; textures = textures; sounds = sounds; table = table }) ≡ true }
    ensures { result ≡ record { title = title; program = program.items; textures = textures; sounds = sounds; table = table } }
{
    Cart {
        title,
        program: Seq::from_vec(program),
        textures,
        sounds,
        table,
    }
}

/// The cartridge of these parts, where they are one.
pub(crate) fn make(
    title: Name,
    program: Vec<u32>,
    textures: Vec<Texture>,
    sounds: Vec<Sound>,
    table: Option<LineTable>,
) -> Option<Cart>
    ensures made { IfSome result (λ c. c ≡ record {
      title = title;
      program = program.items;
      textures = textures.items;
      sounds = sounds.items;
      table = table;
    }) }
    ensures limits { IfSome result (λ c. is_cart c ≡ true) }
    ensures none { IfNone result (is_cart (record {
      title = title;
      program = program.items;
      textures = textures.items;
      sounds = sounds.items;
      table = table;
    }) ≡ false) }
{
    if !is_cart(&title, &program, &textures, &sounds, &table) {
        return None;
    }
    Some(Cart {
        title,
        program: Seq::from_vec(program),
        textures: Seq::from_vec(textures),
        sounds: Seq::from_vec(sounds),
        table,
    })
}

impl Cart {
    /// A cartridge of the first revision; `None` where a limit or the title's form is broken.
    pub fn new(
        title: Name,
        program: Vec<u32>,
        textures: Vec<Texture>,
        sounds: Vec<Sound>,
    ) -> Option<Cart>
        ensures made { IfSome result (λ c. c ≡ record {
          title = title;
          program = program.items;
          textures = textures.items;
          sounds = sounds.items;
          table = None;
        }) }
        ensures limits { IfSome result (λ c. is_cart c ≡ true) }
        ensures none { IfNone result (is_cart (record {
          title = title;
          program = program.items;
          textures = textures.items;
          sounds = sounds.items;
          table = None;
        }) ≡ false) }
    {
        make(title, program, textures, sounds, None)
    }

    /// A cartridge of the second revision, with a line table; `None` where a limit or a form is
    /// broken: beside those of `new`, at most 40,000 files and as many rows, files' names in UTF-8,
    /// functions' names of C, lines from 1, files that are listed, addresses that rise strictly and
    /// lie in the program.
    pub fn with_lines(
        title: Name,
        program: Vec<u32>,
        textures: Vec<Texture>,
        sounds: Vec<Sound>,
        files: Vec<Name>,
        rows: Vec<LineRow>,
    ) -> Option<Cart>
        ensures made { IfSome result (λ c. c ≡ record {
          title = title;
          program = program.items;
          textures = textures.items;
          sounds = sounds.items;
          table = Some (record { files = files.items; rows = rows.items });
        }) }
        ensures limits { IfSome result (λ c. is_cart c ≡ true) }
        ensures none { IfNone result (is_cart (record {
          title = title;
          program = program.items;
          textures = textures.items;
          sounds = sounds.items;
          table = Some (record { files = files.items; rows = rows.items });
        }) ≡ false) }
    {
        let table = LineTable {
            files: Seq::from_vec(files),
            rows: Seq::from_vec(rows),
        };
        make(title, program, textures, sounds, Some(table))
    }

    /// 1 without a line table, 2 with one.
    pub fn revision(&self) -> u32
        ensures { result ≡ revision self.now.table }
    {
        match &self.table {
            None => 1,
            Some(_) => 2,
        }
    }

    pub fn title(&self) -> &Name
        ensures title { result.now ≡ self.now.title }
        ensures limits { is_cart self.now ≡ true }
    {
        &self.title
    }

    /// The words of the program.
    pub fn program(&self) -> &[u32]
        ensures program { result.now ≡ self.now.program }
        ensures limits { is_cart self.now ≡ true }
    {
        self.program.as_slice()
    }

    pub fn textures(&self) -> &[Texture]
        ensures textures { result.now ≡ self.now.textures }
        ensures limits { is_cart self.now ≡ true }
    {
        self.textures.as_slice()
    }

    pub fn sounds(&self) -> &[Sound]
        ensures sounds { result.now ≡ self.now.sounds }
        ensures limits { is_cart self.now ≡ true }
    {
        self.sounds.as_slice()
    }

    /// The files of the line table; none where there is no table.
    pub fn line_files(&self) -> &[Name]
        ensures files { result.now ≡ files_of self.now.table }
        ensures limits { is_cart self.now ≡ true }
    {
        match &self.table {
            None => &[],
            Some(table) => table.files.as_slice(),
        }
    }

    /// The rows of the line table, by address; none where there is no table.
    pub fn rows(&self) -> &[LineRow]
        ensures rows { result.now ≡ rows_of self.now.table }
        ensures limits { is_cart self.now ≡ true }
    {
        match &self.table {
            None => &[],
            Some(table) => table.rows.as_slice(),
        }
    }

    /// The size of its file in bytes.
    #[tactic(auto, using(crate::proofs::Limits::size_is))]
    pub(crate) fn size(&self) -> u32
        ensures { result ≡ total self.now }
    {
        file_size(self.program(), self.textures(), self.sounds(), self.table()) as u32
    }

    pub(crate) fn table(&self) -> &Option<LineTable>
        ensures table { result.now ≡ self.now.table }
        ensures limits { is_cart self.now ≡ true }
    {
        &self.table
    }

    /// The parts but for the line table.
    pub fn into_parts(self) -> CartParts
        ensures title { result.title ≡ self.title }
        ensures program { result.program.items ≡ self.program }
        ensures textures { result.textures.items ≡ self.textures }
        ensures sounds { result.sounds.items ≡ self.sounds }
    {
        let Cart {
            title,
            program,
            textures,
            sounds,
            table: _,
        } = self;
        CartParts {
            title,
            program: program.into_vec(),
            textures: textures.into_vec(),
            sounds: sounds.into_vec(),
        }
    }
}
