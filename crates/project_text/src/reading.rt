// From lines to a project.
ghost use Rattle.std.specs.Prelude.{◌≡◌, ◌≤◌, length, IfOk, IfErr, Ok};
ghost use Rattle.project_text.specs.declared.project.Project.{Project};
ghost use Rattle.project_text.specs.ProjectText.{IsProject};
ghost use Rattle.project_text.specs.declared.error.ProjectErr.TheVariants.{Memory};
ghost use Rattle.project_text.specs.Reading.{Gives, Adds, project_of};

use crate::entry::{Entry, entry_of};
use crate::error::ProjectErr;
use crate::project::Project;
use kit_base::{Name, Seq};
use line_text::first_line;
use std::alloc::Global;
use std::marker::Model;

/// What was said so far.
#[derive(Drop)]
struct State {
    title: Option<Name>,
    source: Option<Name>,
    textures: Vec<Name>,
    sounds: Vec<Name>,
}

impl Model for State {
    ghost use Rattle.project_text.specs.Reading.{State};

    ghost Value = { State };

    ghost view = { λ s. record { title = s.title; source = s.source; textures = s.textures.items; sounds = s.sounds.items } };
}

fn name_of(alloc: Global, text: &[u8]) -> Result<Name, ProjectErr>
    ensures ok { IfOk result (λ n. n ≡ text.now) }
    ensures err { IfErr result (λ e. e ≡ Memory) }
{
    match Name::from_bytes(alloc, text) {
        Ok(name) => Ok(name),
        Err(_) => Err(ProjectErr::Memory),
    }
}

/// Adds the name, where there are fewer than `most`.
fn push_name(
    alloc: Global,
    names: &mut Vec<Name>,
    most: usize,
    number: u32,
    text: &[u8],
) -> Result<(), ProjectErr>
    ensures { Adds names.old.items names.new.items most number text.now result }
{
    if names.len() >= most {
        return Err(ProjectErr::At {
            code: 93,
            line: number,
        });
    }
    let name = name_of(alloc, text)?;
    match names.push(name) {
        Ok(()) => Ok(()),
        Err(_) => Err(ProjectErr::Memory),
    }
}

impl State {
    ghost use Rattle.project_text.specs.Reading.{Steps, with_title, with_source, with_texture, with_sound, step, complete, Gives};

    /// Takes the title, which may stand once.
    fn put_title(&mut self, alloc: Global, number: u32, text: &[u8]) -> Result<(), ProjectErr>
        ensures { Steps self.new number result (with_title self.old self.old.title text.now) }
    {
        if self.title.is_some() {
            return Err(ProjectErr::At {
                code: 92,
                line: number,
            });
        }
        self.title = Some(name_of(alloc, text)?);
        Ok(())
    }

    /// Takes the source, which may stand once.
    fn put_source(&mut self, alloc: Global, number: u32, text: &[u8]) -> Result<(), ProjectErr>
        ensures { Steps self.new number result (with_source self.old self.old.source text.now) }
    {
        if self.source.is_some() {
            return Err(ProjectErr::At {
                code: 92,
                line: number,
            });
        }
        self.source = Some(name_of(alloc, text)?);
        Ok(())
    }

    fn put_texture(&mut self, alloc: Global, number: u32, text: &[u8]) -> Result<(), ProjectErr>
        ensures { Steps self.new number result (with_texture self.old text.now) }
    {
        push_name(alloc, &mut self.textures, 256, number, text)
    }

    fn put_sound(&mut self, alloc: Global, number: u32, text: &[u8]) -> Result<(), ProjectErr>
        ensures { Steps self.new number result (with_sound self.old text.now) }
    {
        push_name(alloc, &mut self.sounds, 1024, number, text)
    }

    /// Takes a line of that number.
    fn take_line(&mut self, alloc: Global, number: u32, line: &[u8]) -> Result<(), ProjectErr>
        ensures { Steps self.new number result (step self.old line.now) }
    {
        match entry_of(line) {
            None => Err(ProjectErr::At {
                code: 90,
                line: number,
            }),
            Some(Entry::Nothing) => Ok(()),
            Some(Entry::Title(text)) => self.put_title(alloc, number, text),
            Some(Entry::Source(text)) => self.put_source(alloc, number, text),
            Some(Entry::Texture(text)) => self.put_texture(alloc, number, text),
            Some(Entry::Sound(text)) => self.put_sound(alloc, number, text),
        }
    }

    /// The project, after the last line; the number is that of the line after it.
    fn complete(self, number: u32) -> Result<Project, ProjectErr>
        ensures { Gives result (complete number self self.title self.source) }
    {
        let State {
            title,
            source,
            textures,
            sounds,
        } = self;
        match (title, source) {
            (Some(title), Some(source)) => Ok(Project {
                title,
                source,
                textures: Seq::from_vec(textures),
                sounds: Seq::from_vec(sounds),
            }),
            _ => Err(ProjectErr::At {
                code: 91,
                line: number,
            }),
        }
    }
}

/// The project of the lines, or the first faulty one.
fn project_of(alloc: Global, bytes: &[u8]) -> Result<Project, ProjectErr>
    requires { length bytes.now ≤ 268435456 }
    ensures { Gives result (project_of bytes.now) }
{
    let mut state = State {
        title: None,
        source: None,
        textures: Vec::new(alloc),
        sounds: Vec::new(alloc),
    };
    let mut number = 1;
    let mut rest = bytes;
    'each: while let Some((line, after)) = first_line(rest) {
        match state.take_line(alloc, number, line) {
            Ok(()) => {}
            Err(e) => return Err(e),
        }
        number += 1;
        rest = after;
    }
    state.complete(number)
}

/// The project of a file of at most 268,435,456 bytes. The error is the first faulty line, or want of
/// memory.
#[tactic(auto, using(crate::proofs::Whole::is_found, crate::proofs::Whole::only))]
pub fn read_project(alloc: Global, bytes: &[u8]) -> Result<Project, ProjectErr>
    requires { length bytes.now ≤ 268435456 }
    // What is read is what the lines say.
    ensures found { IfOk result (λ p. IsProject bytes.now p) }
    // What the lines say is read, unless memory runs out.
    ensures only { (p : Project) → IsProject bytes.now p → Gives result (Ok p) }
    // The project, or the first faulty line.
    ensures exact { Gives result (project_of bytes.now) }
{
    project_of(alloc, bytes)
}
