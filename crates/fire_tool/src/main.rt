//! The program: it reads the lines of a ledger node and prints the steps that its blocks bring about,
//! says what a cursor's text stands for, and checks the files of a shelf.
#![tactic(auto)]

mod run;
mod streams;
#[cfg(test)]
mod tests;
mod words;

use command_io::tell_error;
use folder_shelf::FolderShelf;
use run::run_plain;
use std::alloc::{AllocError, Global};
use std::process::ExitCode;
use std::rt::Env;
use std::{env, io};
use streams::{Reading, Writing};

/// The folder of the shelf, in the current folder.
const SHELF: &str = "shelf";

fn main(rt: HostRuntime) -> ExitCode {
    let alloc = rt.alloc();
    let mut errors = Writing::new(rt.stderr());
    let Ok(words) = words_of(&rt, alloc) else {
        tell_error(&mut errors, b"fire: out of memory\n");
        return ExitCode::from(1);
    };
    let mut input = Reading::new(rt.reader());
    let mut output = Writing::new(io::writer(&rt));
    let Ok(mut shelf) = FolderShelf::new(rt, SHELF, 0) else {
        tell_error(&mut errors, b"fire: out of memory\n");
        return ExitCode::from(1);
    };
    let status = run_plain(
        alloc,
        words.as_slice(),
        &mut input,
        &mut output,
        &mut errors,
        &mut shelf,
    );
    ExitCode::from(status.code)
}

/// The words of the command line after the program's name, and none where one of them is no UTF-8,
/// which names no command.
fn words_of(
    rt: &(impl Env + Alloc<A = Global>),
    alloc: Global,
) -> Result<Vec<Vec<u8>>, AllocError> {
    let mut words = Vec::new(alloc);
    match env::args(rt) {
        Ok(args) => {
            for arg in args.skip(1) {
                words.push(Vec::from_slice(alloc, arg.as_bytes())?)?;
            }
            Ok(words)
        }
        Err(error) if error.kind() == io::ErrorKind::OutOfMemory => Err(AllocError),
        Err(_) => Ok(words),
    }
}
