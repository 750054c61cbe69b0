// Files in memory, whose calls fail where the caller says.
ghost use Rattle.std.specs.Prelude.{◌≡◌, ◌≤◌, ◌<◌, ◌+◌, ◌++◌, ◌⊎◌, ℕ, [], ◌∷◌, Some, None, IfSome, IfNone, IsTrue, OnOk, OnErr, IfOk, IfErr, length};
ghost use Rattle.std.specs.Prelude.{slice_get, take, if◌then◌else◌};
ghost use Rattle.std.specs.FinMap.{get, insert, contains_key};
ghost use Rattle.std.specs.Option.{option_copied};
ghost use Rattle.kit_base.specs.Held.{lookup, IsFirstAt, from_entries_of, emptied, appended};
ghost use Rattle.std.specs.Bool.{OnTrue};
ghost use Rattle.kit_base.specs.Counts.{Rose};
ghost use Rattle.kit_base.specs.Outside.{Answers, due, HasCause, IsOfWriting, has_failed};
ghost use Rattle.kit_base.specs.Store.{has_name, are_distinct, is_failing};

use crate::name::{Memory, Name};
use crate::outside::{FILE_LIMIT, FileErr, Files, Reads};
use crate::seq::Seq;
use std::alloc::{AllocError, Global};
use std::marker::Model;

/// The place of the first file of that name.
fn place_of(files: &[(Name, Seq<u8>)], name: &str) -> Option<usize>
    ensures some { IfSome result (λ at. IsFirstAt files.now at name.now) }
    ensures none { IfNone result (lookup name.now files.now ≡ None) }
{
    for (at, file) in files.iter().enumerate() {
        if name.as_bytes() == file.0.bytes() {
            return Some(at);
        }
    }
    None
}

/// The bytes of the file of that name.
fn content_of<'a>(files: &'a [(Name, Seq<u8>)], name: &str) -> Option<&'a [u8]>
    ensures { option_copied result ≡ get (from_entries_of files.now) name.now }
{
    match place_of(files, name) {
        Some(at) => Some(files[at].1.as_slice()),
        None => None,
    }
}

/// Adds a piece to the bytes of a file.
fn lengthen(file: &mut (Name, Seq<u8>), piece: &[u8]) -> Result<(), AllocError>
    ensures ok { OnOk result (file.new ≡ (file.old.0, file.old.1 ++ piece.now)) }
    ensures err { OnErr result (file.new ≡ file.old) }
{
    file.1.extend_from_slice(piece)
}

/// The files with a piece added to the file of that name, where there is one.
fn add_to_file(files: &mut Vec<(Name, Seq<u8>)>, name: &str, piece: &[u8]) -> Result<(), Memory>
    ensures ok { OnOk result (IsTrue (contains_key (from_entries_of files.old.items) name.now)
        → from_entries_of files.new.items ≡ appended name.now piece.now (from_entries_of files.old.items)) }
    ensures err { OnErr result (files.new.items ≡ files.old.items) }
    ensures distinct { IsTrue (are_distinct files.old.items) → IsTrue (are_distinct files.new.items) }
{
    match place_of(files, name) {
        Some(at) => {
            lengthen(&mut files[at], piece)?;
            Ok(())
        }
        None => Ok(()),
    }
}

/// The files with the file of that name anew.
fn put_file(
    alloc: Global,
    files: &mut Vec<(Name, Seq<u8>)>,
    name: &str,
    bytes: Vec<u8>,
) -> Result<(), Memory>
    ensures ok { OnOk result (from_entries_of files.new.items ≡ insert (from_entries_of files.old.items) name.now bytes.items) }
    ensures err { OnErr result (files.new.items ≡ files.old.items) }
    ensures distinct { IsTrue (are_distinct files.old.items) → IsTrue (are_distinct files.new.items) }
{
    let own = Name::new(alloc, name)?;
    match place_of(files, name) {
        Some(at) => {
            files[at] = (own, Seq::from_vec(bytes));
            Ok(())
        }
        None => {
            files.push((own, Seq::from_vec(bytes)))?;
            Ok(())
        }
    }
}

/// Whether the call of that number is to fail.
pub(crate) fn is_failing(failing: &[u32], call: u64) -> bool
    ensures { result ≡ is_failing failing.now call }
{
    failing.iter().any(|n| u64::from(*n) == call)
}

/// Files held in memory. Calls of any kind are numbered from 0, and those whose number is in the
/// list given at first raise the count of faults and answer `Failed`. An append that fails so leaves
/// the first half of its piece.
#[derive(Drop)]
pub struct FilesInMemory {
    alloc: Global,
    files: Vec<(Name, Seq<u8>)>,
    failing: Vec<u32>,
    calls: u64,
    faults: u64,
    misses: u64,
    overs: u64,
    ghost distinct: { IsTrue (are_distinct files.items) },
}

impl Model for FilesInMemory {
    ghost use Rattle.kit_base.specs.Store.{Store};

    ghost Value = { Store };

    ghost view = { λ s. record { files = s.files.items; failing = s.failing.items; calls = s.calls; faults = s.faults; misses = s.misses; overs = s.overs } };
}

fn has_name(files: &[(Name, Seq<u8>)], name: &Name) -> bool
    ensures { result ≡ has_name name.now files.now }
{
    files.iter().any(|file| file.0.bytes() == name.bytes())
}

impl FilesInMemory {
    ghost use Rattle.kit_base.specs.Store.{CountsCall};

    /// Whether the names are pairwise different.
    pub fn are_distinct(files: &[(Name, Seq<u8>)]) -> bool
        ensures { result ≡ are_distinct files.now }
    {
        let mut rest = files;
        'files: while let Some((first, after)) = rest.split_first() {
            if has_name(after, &first.0) {
                return false;
            }
            rest = after;
        }
        true
    }

    /// Files of these names and bytes, whose calls of the numbers `failing` fail. The names are
    /// pairwise different (`are_distinct`).
    pub fn new(alloc: Global, held: Vec<(Name, Seq<u8>)>, failing: Vec<u32>) -> FilesInMemory
        requires distinct { IsTrue (are_distinct held.items) }
        ensures files { result.files ≡ held.items }
        ensures failing { result.failing ≡ failing.items }
        ensures counts { (result.calls ≡ 0) × (result.faults ≡ 0) × (result.misses ≡ 0) × (result.overs ≡ 0) }
    {
        FilesInMemory {
            alloc,
            files: held,
            failing,
            calls: 0,
            faults: 0,
            misses: 0,
            overs: 0,
        }
    }

    /// The files, each name with its bytes.
    pub fn held(&self) -> &[(Name, Seq<u8>)]
        ensures files { result.now ≡ self.now.files }
        ensures distinct { IsTrue (are_distinct result.now) }
    {
        self.files.as_slice()
    }

    /// Counts a call, and answers whether it is to fail.
    fn begins_failing(&mut self) -> bool
        ensures call { CountsCall self.old self.new result }
        ensures rose { OnTrue result (Rose self.old.faults self.new.faults) }
        ensures later { self.old.faults ≤ self.new.faults }
        ensures files { self.new.files ≡ self.old.files }
        ensures misses { self.new.misses ≡ self.old.misses }
        ensures overs { self.new.overs ≡ self.old.overs }
    {
        let fails = is_failing(&self.failing, self.calls);
        self.calls = self.calls.saturating_add(1);
        if fails {
            self.faults = self.faults.saturating_add(1);
        }
        fails
    }
}

impl Reads for FilesInMemory {
    ghost use Rattle.std.specs.Prelude.{Some};
    ghost use Rattle.kit_base.specs.Held.{from_entries_of};
    ghost use Rattle.kit_base.specs.Store.{CountsCall};

    ghost held = { λ s. Some (from_entries_of s.files) };

    ghost faults = { λ s. s.faults };

    ghost misses = { λ s. s.misses };

    ghost overs = { λ s. s.overs };

    fn read(&mut self, alloc: Global, name: &str) -> Result<Vec<u8>, FileErr>
        ensures held { Some (from_entries_of self.new.files) ≡ Some (from_entries_of self.old.files) }
        ensures told { Answers result (due (from_entries_of self.old.files) name.now) }
        ensures limit { IfOk result (λ v. length v.items ≤ 268435456) }
        ensures faults { HasCause FileErr.Failed self.old.faults self.new.faults result }
        ensures misses { HasCause FileErr.Missing self.old.misses self.new.misses result }
        ensures overs { HasCause FileErr.TooLong self.old.overs self.new.overs result }
        // The call fails exactly where its number is one of those that fail.
        ensures call { CountsCall self.old self.new (has_failed result) }
    {
        if self.begins_failing() {
            return Err(FileErr::Failed);
        }
        match content_of(&self.files, name) {
            None => {
                self.misses = self.misses.saturating_add(1);
                Err(FileErr::Missing)
            }
            Some(bytes) => {
                if bytes.len() > FILE_LIMIT {
                    self.overs = self.overs.saturating_add(1);
                    return Err(FileErr::TooLong);
                }
                match Vec::from_slice(alloc, bytes) {
                    Ok(copy) => Ok(copy),
                    Err(_) => Err(FileErr::Memory),
                }
            }
        }
    }
}

impl Files for FilesInMemory {
    ghost use Rattle.std.specs.Prelude.{Some};
    ghost use Rattle.kit_base.specs.Held.{from_entries_of};
    ghost use Rattle.kit_base.specs.Store.{CountsCall};

    fn create(&mut self, name: &str) -> Result<(), FileErr>
        ensures ok { OnOk result (Some (from_entries_of self.new.files) ≡ Some (emptied name.now (from_entries_of self.old.files))) }
        ensures err { OnErr result ((Some (from_entries_of self.new.files) ≡ Some (from_entries_of self.old.files))
            ⊎ (Some (from_entries_of self.new.files) ≡ Some (emptied name.now (from_entries_of self.old.files)))) }
        ensures kinds { IfErr result IsOfWriting }
        ensures faults { HasCause FileErr.Failed self.old.faults self.new.faults result }
        ensures misses { HasCause FileErr.Missing self.old.misses self.new.misses result }
        ensures overs { HasCause FileErr.TooLong self.old.overs self.new.overs result }
        ensures call { CountsCall self.old self.new (has_failed result) }
    {
        if self.begins_failing() {
            return Err(FileErr::Failed);
        }
        match put_file(self.alloc, &mut self.files, name, Vec::new(self.alloc)) {
            Ok(()) => Ok(()),
            Err(_) => Err(FileErr::Memory),
        }
    }

    fn append(&mut self, name: &str, piece: &[u8]) -> Result<(), FileErr>
        requires { IsTrue (contains_key (from_entries_of self.old.files) name.now) }
        ensures ok { OnOk result (Some (from_entries_of self.new.files) ≡ Some (appended name.now piece.now (from_entries_of self.old.files))) }
        ensures err { OnErr result ((n : ℕ)
            × (Some (from_entries_of self.new.files) ≡ Some (appended name.now (take n piece.now) (from_entries_of self.old.files)))) }
        ensures kinds { IfErr result IsOfWriting }
        ensures faults { HasCause FileErr.Failed self.old.faults self.new.faults result }
        ensures misses { HasCause FileErr.Missing self.old.misses self.new.misses result }
        ensures overs { HasCause FileErr.TooLong self.old.overs self.new.overs result }
        ensures call { CountsCall self.old self.new (has_failed result) }
    {
        if self.begins_failing() {
            let half = &piece[..piece.len() / 2];
            return match add_to_file(&mut self.files, name, half) {
                Ok(()) => Err(FileErr::Failed),
                Err(_) => Err(FileErr::Failed),
            };
        }
        match add_to_file(&mut self.files, name, piece) {
            Ok(()) => Ok(()),
            Err(_) => Err(FileErr::Memory),
        }
    }
}
