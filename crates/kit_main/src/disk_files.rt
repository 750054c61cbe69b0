// The files of the disk. Nothing is told of what they hold.
ghost use Rattle.std.specs.Prelude.{◌≤◌, ◌<◌, None, IfOk, IfSome, length};

use crate::counts::risen;
use crate::streams::{read_whole, write_whole};
use kit_base::{FileErr, Files, Reads};
use std::alloc::Global;
use std::fs::OpenOptions;
use std::io::{ErrorKind, Seek, SeekFrom};
use std::rt;

/// A file that is not found is missing. Every other error of the system is a fault.
fn read_named<R: rt::Files>(alloc: Global, rt: &R, name: &str) -> Result<Vec<u8>, FileErr>
    ensures { IfOk result (λ v. length v.items ≤ 268435456) }
{
    match OpenOptions::new().read(true).open(rt, name) {
        Ok(mut file) => read_whole(alloc, &mut file),
        Err(e) => {
            if e.kind() == ErrorKind::NotFound {
                Err(FileErr::Missing)
            } else {
                Err(FileErr::Failed)
            }
        }
    }
}

fn append_named<R: rt::Files>(rt: &R, name: &str, piece: &[u8]) -> bool {
    match OpenOptions::new().append(true).open(rt, name) {
        Ok(mut file) => write_whole(&mut file, piece),
        Err(_) => false,
    }
}

/// A file that was created, which stays open, so that who reads a pipe finds its end where the
/// program ends.
#[derive(Drop)]
struct Output<F> {
    name: String,
    file: F,
}

/// Writes the piece at the file's end. A pipe has no place to go to: there the seek is refused, and
/// the piece is written all the same.
fn write_at_end<F: std::io::Write + Seek>(file: &mut F, piece: &[u8]) -> bool {
    match file.seek(SeekFrom::End(0)) {
        Ok(_) | Err(_) => write_whole(file, piece),
    }
}

/// The place of the output of that name.
fn place_of<F>(outputs: &[Output<F>], name: &str) -> Option<usize>
    ensures { IfSome result (λ i. i < length outputs.now) }
{
    for i in 0..outputs.len() {
        if outputs[i].name.as_str() == name {
            return Some(i);
        }
    }
    None
}

/// Keeps the file open under its name. Where memory is refused it is closed, and each piece opens it
/// anew.
fn keep<F: Drop>(alloc: Global, outputs: &mut Vec<Output<F>>, name: &str, file: F) {
    if let Some(i) = place_of(outputs, name) {
        outputs[i].file = file;
        return;
    }
    let Ok(name) = String::from_str(alloc, name) else {
        return;
    };
    let _ = outputs.push(Output { name, file });
}

/// The files of the disk by their paths, with the counts of what went wrong.
#[derive(Drop)]
pub struct DiskFiles<'a, R: rt::Files> {
    rt: &'a R,
    alloc: Global,
    outputs: Vec<Output<R::File>>,
    faults: u64,
    misses: u64,
    overs: u64,
}

impl<'a, R: rt::Files> DiskFiles<'a, R> {
    /// The files, with no call yet.
    pub fn new(alloc: Global, rt: &'a R) -> Self {
        DiskFiles {
            rt,
            alloc,
            outputs: Vec::new(alloc),
            faults: 0,
            misses: 0,
            overs: 0,
        }
    }
}

impl<R: rt::Files> Reads for DiskFiles<'_, R> {
    ghost held = { λ _. None };

    ghost faults = { λ s. s.faults };

    ghost misses = { λ s. s.misses };

    ghost overs = { λ s. s.overs };

    fn read(&mut self, alloc: Global, name: &str) -> Result<Vec<u8>, FileErr> {
        match read_named(alloc, self.rt, name) {
            Ok(bytes) => Ok(bytes),
            Err(FileErr::Missing) => {
                self.misses = risen(self.misses);
                Err(FileErr::Missing)
            }
            Err(FileErr::Failed) => {
                self.faults = risen(self.faults);
                Err(FileErr::Failed)
            }
            Err(FileErr::TooLong) => {
                self.overs = risen(self.overs);
                Err(FileErr::TooLong)
            }
            Err(FileErr::Memory) => Err(FileErr::Memory),
        }
    }
}

impl<R: rt::Files> Files for DiskFiles<'_, R> {
    fn create(&mut self, name: &str) -> Result<(), FileErr> {
        if let Ok(file) = std::fs::create(self.rt, name) {
            keep(self.alloc, &mut self.outputs, name, file);
            return Ok(());
        }
        self.faults = risen(self.faults);
        Err(FileErr::Failed)
    }

    fn append(&mut self, name: &str, piece: &[u8]) -> Result<(), FileErr> {
        let whole = match place_of(&self.outputs, name) {
            Some(i) => write_at_end(&mut self.outputs[i].file, piece),
            None => append_named(self.rt, name, piece),
        };
        if whole {
            return Ok(());
        }
        self.faults = risen(self.faults);
        Err(FileErr::Failed)
    }
}
