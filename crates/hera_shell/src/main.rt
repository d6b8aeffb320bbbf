//! The program `hera`: its words, real files and standard output. What each form of the words does stands at [`hera_top::hera`].
#![tactic(auto)]

ghost use Rattle.std.specs.Prelude.{◌≡◌, ◌+◌, length};
ghost use Rattle.hera_words.specs.Words.{command_of, files_in, words_of};

use hera_edge::{FileOutside, FileSource, Paths, take_closed};
use hera_meaning::Scalar;
use hera_top::{files_of, folder_of, hera};
use program_hosts::{band, bucket, clamp, is_sku, program_hosts};
use std::alloc::{AllocError, Global};
use std::fs::Files;
use std::io;
use std::os::fd::AsRawFd;
use std::process::ExitCode;
use std::rt::Env;

/// The status where standard output failed.
const OUTPUT_FAILED: u8 = 8;

/// The status where there was no memory.
const NO_MEMORY: u8 = 9;

/// The words behind the program's name. A word that is no UTF-8 makes a faulty command line, as no words do.
fn words_of<R: Env + AllocGlobal>(rt: &R) -> Result<Vec<String>, AllocError> {
    let mut words = Vec::new(rt.alloc());
    match std::env::args(rt) {
        Ok(args) => {
            for word in args.skip(1) {
                words.push(word)?;
            }
            Ok(words)
        }
        Err(error) if error.kind() == io::ErrorKind::OutOfMemory => Err(AllocError),
        Err(_) => Ok(words),
    }
}

/// The paths of the folder of the DIR word, where there is one.
fn paths_of(alloc: Global, words: &Vec<String>) -> Result<Option<Paths>, AllocError> {
    match folder_of(words) {
        Some(place) => Ok(Some(Paths::new(alloc, words[place].as_str())?)),
        None => Ok(None),
    }
}

/// Carries out the command of the words with the program's hosts, and gives the exit status.
fn answer<R: Files + Print + AllocGlobal + Drop>(
    rt: &R,
    words: &Vec<String>,
    sources: &mut Vec<FileSource<'_, R>>,
    outside: &mut FileOutside<'_, R>,
) -> Result<u8, AllocError>
    requires sources { length sources.old.items + (files_in (command_of (words_of words.now.items))).0 ≡ (files_in (command_of (words_of words.now.items))).1 }
{
    let hosts = program_hosts(
        rt.alloc(),
        Box::new(rt.alloc(), |arg: &Scalar| band(arg))?,
        Box::new(rt.alloc(), |arg: &Scalar| bucket(arg))?,
        Box::new(rt.alloc(), |arg: &Scalar| is_sku(arg))?,
        Box::new(rt.alloc(), |arg: &Scalar| clamp(arg))?,
    )?;
    Ok(hera(rt.alloc(), words, sources, outside, &hosts))
}

/// Carries out the command line, and gives the exit status.
fn status<R: Env + Files + Print + AllocGlobal + Drop>(rt: &R) -> Result<u8, AllocError> {
    let words = words_of(rt)?;
    let (first, last) = files_of(&words);
    let mut sources = FileSource::all(rt.alloc(), rt, &words[first..last])?;
    let paths = paths_of(rt.alloc(), &words)?;
    answer(rt, &words, &mut sources, &mut FileOutside::new(rt, paths))
}

/// Carries out the command line with no file behind a standard stream, and gives the exit status.
fn status_apart<R: Env + Files + Print + AllocGlobal + Drop>(rt: &R) -> u8
where
    R::File: AsRawFd,
{
    match take_closed(rt.alloc(), rt) {
        Ok(_taken) => status(rt).unwrap_or(NO_MEMORY),
        Err(error) if error.kind() == io::ErrorKind::OutOfMemory => NO_MEMORY,
        Err(_) => OUTPUT_FAILED,
    }
}

fn main(rt: HostRuntime) -> ExitCode {
    ExitCode::from(status_apart(&rt))
}
