ghost use Rattle.std.specs.Prelude.{◌≡◌, IfOk, length};

use crate::case::{Case, Shown};
use crate::trials::{Trials, write_file};
use hera_causes::MemSource;
use hera_meaning::Scalar;
use hera_top::{files_of, hera};
use hera_volume::{FileId, MemOutside};
use program_hosts::{band, bucket, clamp, is_sku, program_hosts};
use std::alloc::{AllocError, Global};
use std::io::{self, ErrorKind};

/// A folder, and an outside whose files it has.
#[derive(Drop)]
pub struct Session {
    folder: String,
    outside: MemOutside,
    /// How many bytes were emitted before the last call.
    before: usize,
}

impl Session {
    /// A folder of this name with empty files, as a `Select`, a `Left` and a `Right` that no call has touched.
    pub fn new(alloc: Global, folder: &str) -> Result<Session, AllocError> {
        Ok(Session {
            folder: String::from_str(alloc, folder)?,
            outside: MemOutside::new(alloc, Vec::new(alloc), None, Vec::new(alloc)),
            before: 0,
        })
    }

    /// Goes on with the files of this folder, which are empty where it is another one or none.
    pub(crate) fn enter(&mut self, alloc: Global, folder: &str) -> Result<(), AllocError> {
        if folder.is_empty() || folder != self.folder.as_str() {
            *self = Session::new(alloc, folder)?;
        }
        Ok(())
    }

    /// Calls with these words over the files.
    pub(crate) fn call(
        &mut self,
        alloc: Global,
        words: &Vec<String>,
        case: &Case,
    ) -> Result<Vec<u8>, AllocError> {
        self.before = self.outside.bytes().len();
        report_of(alloc, words, case, &mut self.outside)
    }

    /// What the last call emitted.
    pub(crate) fn emitted(&self) -> &[u8] {
        self.outside.bytes().get(self.before..).unwrap_or(b"")
    }

    /// Gives a file the bytes of a line `FILE HEX`, or cuts it by one `cut FILE LENGTH`.
    pub(crate) fn set_file(&mut self, alloc: Global, line: &str) -> io::Result<()> {
        let (name, rest) = parted(line)?;
        if name == "cut" {
            return self.cut_file(alloc, rest);
        }
        let bytes = bytes_of(alloc, rest)?;
        write_file(&mut self.outside, file_named(name)?, &bytes)
    }

    /// Cuts a file by a line `FILE LENGTH`. It is an error where the file has fewer bytes.
    fn cut_file(&mut self, alloc: Global, line: &str) -> io::Result<()> {
        let (name, digits) = parted(line)?;
        let file = file_named(name)?;
        let Ok(length) = digits.parse::<usize>() else {
            return Err(unread());
        };
        let Some(left) = self.outside.file(file).get(..length) else {
            return Err(unread());
        };
        let bytes = left.to_vec(alloc)?;
        write_file(&mut self.outside, file, &bytes)
    }

    /// Calls with these words over a copy of the files, in which what has this number goes wrong, and dumps what a crash
    /// leaves.
    pub(crate) fn call_with_fault(
        &self,
        alloc: Global,
        words: &Vec<String>,
        case: &Case,
        trials: Trials,
        number: u64,
    ) -> io::Result<Vec<u8>> {
        let dump = words_in(alloc, &["dump", self.folder.as_str()])?;
        let mut outside = trials.copy_of(alloc, &self.outside, number)?;
        let mut report = report_of(alloc, words, case, &mut outside)?;
        let blank = Case::new(alloc, "")?;
        let found = report_of(alloc, &dump, &blank, &mut outside.crash(trials.fill))?;
        report.extend_from_slice(&found)?;
        Ok(report)
    }
}

/// A line of a case that asks for nothing that is known.
fn unread() -> io::Error {
    io::Error::from(ErrorKind::InvalidInput)
}

/// The first word of a line, and the rest.
fn parted(line: &str) -> io::Result<(&str, &str)> {
    match line.split_once(' ') {
        Some(parts) => Ok(parts),
        None => Err(unread()),
    }
}

/// The file with this name.
fn file_named(name: &str) -> io::Result<FileId> {
    match name {
        "select" => Ok(FileId::Select),
        "left" => Ok(FileId::Left),
        "right" => Ok(FileId::Right),
        _ => Err(unread()),
    }
}

/// These words.
fn words_in(alloc: Global, line: &[&str]) -> Result<Vec<String>, AllocError> {
    let mut words = Vec::new(alloc);
    for word in line {
        words.push(String::from_str(alloc, *word)?)?;
    }
    Ok(words)
}

/// The bytes of hexadecimal digits, with blanks between the bytes.
pub(crate) fn bytes_of(alloc: Global, digits: &str) -> io::Result<Vec<u8>> {
    let mut bytes = Vec::new(alloc);
    for part in digits.split(' ') {
        match hex::decode(alloc, part) {
            Ok(some) => bytes.extend_from_slice(&some)?,
            Err(_) => return Err(unread()),
        }
    }
    Ok(bytes)
}

/// The text at this place, empty where there is none.
fn text_at(before: &[Vec<u8>], place: usize) -> &[u8] {
    match before.get(place) {
        Some(text) => text.as_slice(),
        None => b"",
    }
}

/// So many sources: the last of the script, and those before it of these texts.
fn sources_of(
    alloc: Global,
    before: &[Vec<u8>],
    script: &[u8],
    count: usize,
) -> Result<Vec<MemSource>, AllocError>
    ensures { IfOk result (λ sources. length sources.items ≡ count) }
{
    let mut sources = Vec::new(alloc);
    for place in 0..count {
        let text = if place + 1 == count {
            script
        } else {
            text_at(before, place)
        };
        sources.push(MemSource::new(text.to_vec(alloc)?, Vec::new(alloc)))?;
    }
    Ok(sources)
}

/// Calls with these words, and gives what was emitted, as the case wants it, and a line with the status.
fn report_of(
    alloc: Global,
    words: &Vec<String>,
    case: &Case,
    outside: &mut MemOutside,
) -> Result<Vec<u8>, AllocError> {
    let (first, last) = files_of(words);
    let mut sources = sources_of(alloc, &case.before, &case.script, last - first)?;
    let hosts = program_hosts(
        alloc,
        Box::new(alloc, |arg: &Scalar| band(arg))?,
        Box::new(alloc, |arg: &Scalar| bucket(arg))?,
        Box::new(alloc, |arg: &Scalar| is_sku(arg))?,
        Box::new(alloc, |arg: &Scalar| clamp(arg))?,
    )?;
    let before = outside.bytes().len();
    let status = hera(alloc, words, &mut sources, outside, &hosts);
    let emitted = outside.bytes().get(before..).unwrap_or(b"");
    let mut report = printed(alloc, emitted, case.shown)?;
    let line = format!(in alloc; "-- {status}\n")?;
    report.extend_from_slice(line.as_bytes())?;
    Ok(report)
}

/// What is printed of bytes: as they are, in hexadecimal digits on a line, or nothing.
fn printed(alloc: Global, bytes: &[u8], shown: Shown) -> Result<Vec<u8>, AllocError> {
    match shown {
        Shown::AsItIs => bytes.to_vec(alloc),
        Shown::InHex => {
            let digits = hex::encode(alloc, bytes)?;
            Ok(format!(in alloc; "{digits}\n")?.into_bytes())
        }
        Shown::NotAtAll => Ok(Vec::new(alloc)),
    }
}
