//! The program: the command of its words, over the files of the disk and standard output.
//!
//! It is the outer edge. It promises that the calls of the disk and of standard output keep the
//! contracts of `kit_base`, of whose content nothing is told, and it answers the status that
//! `kit_core` gives, or 10 where the system does not give the words.
#![tactic(auto)]

mod counts;
mod disk_files;
mod stdout_sink;
mod streams;

use disk_files::DiskFiles;
use kit_core::kit;
use std::env;
use std::process::ExitCode;
use stdout_sink::StdoutSink;

/// The status where the system does not give the words.
const NO_WORDS: u8 = 10;

/// The words after the program's own name.
fn words_of(rt: &HostRuntime) -> std::io::Result<Vec<String>> {
    let mut words = Vec::new(rt.alloc());
    for word in env::args(rt)?.skip(1) {
        words.push(word)?;
    }
    Ok(words)
}

fn main(rt: HostRuntime) -> ExitCode {
    let Ok(words) = words_of(&rt) else {
        return ExitCode::from(NO_WORDS);
    };
    let mut files = DiskFiles::new(rt.alloc(), &rt);
    let mut out = StdoutSink::new(&rt);
    ExitCode::from(kit(rt.alloc(), &words, &mut files, &mut out))
}
