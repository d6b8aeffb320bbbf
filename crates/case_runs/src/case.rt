use crate::session::bytes_of;
use std::alloc::{AllocError, Global};
use std::fs::{self, Files};
use std::io;

/// How a case prints what is emitted.
#[derive(Clone, Copy)]
pub(crate) enum Shown {
    AsItIs,
    InHex,
    NotAtAll,
}

/// A name with a command line, the texts of its files, and lines that say what else is to be done.
#[derive(Drop)]
pub struct Case {
    pub(crate) heading: String,
    /// The texts of the files before the last.
    pub(crate) before: Vec<Vec<u8>>,
    /// The script, which is the text of the last file.
    pub(crate) script: Vec<u8>,
    /// Whether the script has a line, which may be empty.
    has_line: bool,
    pub(crate) settings: Vec<String>,
    pub(crate) shown: Shown,
}

impl Case {
    /// A case of this heading, `NAME: WORDS`, with no script and no setting yet.
    pub fn new(alloc: Global, heading: &str) -> Result<Case, AllocError> {
        Ok(Case {
            heading: String::from_str(alloc, heading)?,
            before: Vec::new(alloc),
            script: Vec::new(alloc),
            has_line: false,
            settings: Vec::new(alloc),
            shown: Shown::AsItIs,
        })
    }

    /// Appends a line to the script, or takes it as a setting where it begins with `=> `. The error is want of memory, or that
    /// the digits of a line `=> code HEX` are none.
    pub fn add_line(&mut self, alloc: Global, line: &str) -> io::Result<()> {
        if let Some(setting) = line.strip_prefix("=> ") {
            return self.add_setting(alloc, setting);
        }
        if self.has_line {
            self.script.push(b'\n')?;
        }
        self.has_line = true;
        self.script.extend_from_slice(line.as_bytes())?;
        Ok(())
    }

    /// Takes the text of the next file before the last from a setting `rules TEXT` or `before TEXT`, and bytes of the last one
    /// from `code HEX`; keeps any other setting.
    fn add_setting(&mut self, alloc: Global, setting: &str) -> io::Result<()> {
        let text = setting
            .strip_prefix("rules ")
            .or(setting.strip_prefix("before "));
        if let Some(text) = text {
            self.before.push(text.as_bytes().to_vec(alloc)?)?;
        } else if let Some(digits) = setting.strip_prefix("code ") {
            self.script.extend_from_slice(&bytes_of(alloc, digits)?)?;
        } else if setting == "hex" {
            self.shown = Shown::InHex;
        } else if setting == "unseen" {
            self.shown = Shown::NotAtAll;
        } else {
            self.settings.push(String::from_str(alloc, setting)?)?;
        }
        Ok(())
    }

    /// The words of the command line, which stand behind the name.
    pub(crate) fn words(&self, alloc: Global) -> Result<Vec<String>, AllocError> {
        let mut words = Vec::new(alloc);
        if let Some((_, line)) = self.heading.split_once(": ") {
            for word in line.split(' ') {
                words.push(String::from_str(alloc, word)?)?;
            }
        }
        Ok(words)
    }

    /// Takes the script from the last of the files, or the text of the next before it, but not for the word `-`. For the
    /// word `+` it is what was emitted before.
    pub(crate) fn load<R: Files + AllocGlobal>(
        &mut self,
        rt: &R,
        file: &str,
        is_last: bool,
        emitted: &[u8],
    ) -> io::Result<()> {
        match file {
            "-" => Ok(()),
            "+" => self.add_text(rt.alloc(), emitted, is_last),
            _ => {
                let text = fs::read_to_string(rt, file)?;
                self.add_text(rt.alloc(), text.as_bytes(), is_last)
            }
        }
    }

    /// Appends a text to the script, or has it as that of the next file before the last.
    fn add_text(&mut self, alloc: Global, text: &[u8], is_last: bool) -> io::Result<()> {
        if is_last {
            self.script.extend_from_slice(text)?;
        } else {
            self.before.push(text.to_vec(alloc)?)?;
        }
        Ok(())
    }
}
