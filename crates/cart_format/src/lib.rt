//! Cartridges of both revisions, their line tables, and words files.
//!
//! Each cartridge has one text, which the reader gives back and the writer makes; a refusal is the
//! first test that fails. It stands on asset_pack for the sections that are files of their own.
#![tactic(auto)]

mod cart;
mod error;
mod header;
mod laws;
mod reading;
mod row;
mod sections;
mod size;
mod table;
mod writing;

pub use asset_pack::{read_words, write_words};
pub use cart::{Cart, CartParts};
pub use error::{CartErr, CartFault};
pub use laws::{cartridges_read_again, texts_are_cartridges};
pub use reading::read_cart;
pub use row::LineRow;
pub use writing::write_cart;
