//! Cases, each a command line and a script, run by the top call of `hera` over sources, files and an output in memory.
//!
//! A case begins with a line `== NAME: WORDS`, its name and the words of its command line. Where the words name a file,
//! its script is that file, and for the word `-` the lines up to the next case, joined by line feeds. Where they name more,
//! that is the last, and for each word `-` before it the text stands in a line behind `=> rules ` or `=> before `, in the
//! order of these words, which stand before the names of files. For the word `+` it is what the case before emitted. For
//! each case the program prints that line, what the call emitted, and a line `-- STATUS`. Cases one behind another whose
//! words name the same folder have the same files, which are empty at the first of them.
//!
//! A line of a case that begins with `=> ` is none of its script. `=> FILE HEX` gives the file `select`, `left` or `right`
//! of the folder these bytes before the call, and `=> cut FILE LENGTH` cuts it. `=> code HEX` gives the last of the files
//! these bytes. With `=> hex` what is emitted is printed in hexadecimal digits, and with `=> unseen` not at all.
//!
//! `=> FAULT FIRST..LAST FILL` runs the case once for each number, LAST left out, over a copy of the files, in place of a
//! run over the files themselves: with `fail` the call on a file with that number fails, with `stop` all fails from that
//! call on, and with `emit` an emission takes one byte and that with this number fails. It prints what was emitted, the
//! status, and then what `dump` prints of the files after a crash, in which each byte that may be any is FILL; behind
//! `-- from NUMBER on`, and only where that is something else than for the number before.
#![tactic(auto)]

mod case;
mod run;
mod session;
mod trials;

pub use case::Case;
pub use run::run_case;
pub use session::Session;
