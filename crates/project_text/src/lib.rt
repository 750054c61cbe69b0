//! The project, which names a program's parts, and the map, which tells where its functions and
//! globals came to stand: one is read, the other written.
//!
//! A project is read exactly by the grammar of its lines, and a refusal names the first faulty line.
//! It stands on kit_base, and on line_text for the lines.
#![tactic(auto)]

mod entry;
mod error;
mod laws;
mod map;
mod project;
mod reading;

pub use error::ProjectErr;
pub use laws::{lines_say_what_the_grammar_gives, projects_are_what_the_lines_give};
pub use map::{Map, write_map};
pub use project::Project;
pub use reading::read_project;
