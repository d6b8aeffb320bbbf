use crate::case::Case;
use crate::session::Session;
use crate::trials::Trials;
use hera_top::{files_of, folder_of};
use std::fs::Files;
use std::io;

/// The folder that the words name, or an empty text.
fn folder_name(words: &Vec<String>) -> &str {
    match folder_of(words) {
        Some(place) => words[place].as_str(),
        None => "",
    }
}

/// Runs the case once for each trial, and prints each outcome that differs from the one before it.
fn try_all<R: Print + AllocGlobal>(
    rt: &R,
    case: &Case,
    words: &Vec<String>,
    session: &Session,
    trials: Trials,
) -> io::Result<()> {
    let mut last = Vec::new(rt.alloc());
    for number in trials.first..trials.last {
        let outcome = session.call_with_fault(rt.alloc(), words, case, trials, number)?;
        if outcome != last {
            println!(rt; "-- from {number} on")?;
            rt.write_all(&outcome)?;
            last = outcome;
        }
    }
    Ok(())
}

/// Does what the settings of the case ask for, and says whether one of them ran it.
fn follow<R: Print + AllocGlobal>(
    rt: &R,
    case: &Case,
    words: &Vec<String>,
    session: &mut Session,
) -> io::Result<bool> {
    let mut ran = false;
    for line in &case.settings {
        match Trials::read(line.as_str()) {
            Some(trials) => {
                println!(rt; "=> {line}")?;
                try_all(rt, case, words, session, trials)?;
                ran = true;
            }
            None => session.set_file(rt.alloc(), line.as_str())?,
        }
    }
    Ok(ran)
}

/// Runs the case, and prints its heading, what was emitted, and the status. The error is that of a file that its words name,
/// of standard output, or of a line of the case that asks for nothing that is known, or want of memory.
pub fn run_case<R: Files + Print + AllocGlobal>(
    rt: &R,
    mut case: Case,
    session: &mut Session,
) -> io::Result<()> {
    let words = case.words(rt.alloc())?;
    let (first, last) = files_of(&words);
    for place in first..last {
        let word = words[place].as_str();
        case.load(rt, word, place + 1 == last, session.emitted())?;
    }
    session.enter(rt.alloc(), folder_name(&words))?;
    println!(rt; "== {}", case.heading)?;
    if follow(rt, &case, &words, session)? {
        return Ok(());
    }
    let report = session.call(rt.alloc(), &words, &case)?;
    rt.write_all(&report)
}
