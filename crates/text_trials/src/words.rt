//! The forms of the command line.
use hera_words::{Command, files_of, folder_of, read_words, relation_of};
use std::alloc::{AllocError, Global};
use std::test::Fail;

/// What weaves two scripts.
const WEAVE: Command = Command::Weave {
    turns: 9,
    order: 2,
    files: 2,
};

/// The words of a line, cut at its blanks.
fn words_of(alloc: Global, line: &str) -> Result<Vec<String>, AllocError> {
    let mut words = Vec::new(alloc);
    for word in line.split(' ') {
        words.push(String::from_str(alloc, word)?)?;
    }
    Ok(words)
}

/// Whether the words of a line are this command, with its files from the one place up to before the other and its folder here.
fn has_places(
    alloc: Global,
    line: &str,
    command: Option<Command>,
    files: (usize, usize),
    folder: Option<usize>,
) -> Result<bool, AllocError> {
    let words = words_of(alloc, line)?;
    let has = read_words(words.as_slice()) == command
        && files_of(&words) == files
        && folder_of(&words) == folder;
    drop(words);
    Ok(has)
}

/// Whether the words of a line name this relation.
fn names(alloc: Global, line: &str, relation: &str) -> Result<bool, AllocError> {
    let words = words_of(alloc, line)?;
    let names = relation_of(&words) == relation;
    drop(words);
    Ok(names)
}

/// Lines, and the command, the places of the files and that of the folder that each has.
const FORMS: &[(&str, Option<Command>, (usize, usize), Option<usize>)] = &[
    ("check F", Some(Command::Check), (1, 2), None),
    ("list F", Some(Command::List), (1, 2), None),
    ("eval 007 F", Some(Command::Eval(7)), (2, 3), None),
    ("pack F", Some(Command::Pack), (1, 2), None),
    ("exec 9 F", Some(Command::Exec(9)), (2, 3), None),
    ("drill 1000", Some(Command::Drill(1000)), (0, 0), None),
    ("init D F", Some(Command::Init), (2, 3), Some(1)),
    ("run D 1 F", Some(Command::Run(1)), (3, 4), Some(1)),
    ("dump D", Some(Command::Dump), (0, 0), Some(1)),
    ("checkpoint D", Some(Command::Checkpoint), (0, 0), Some(1)),
    ("widen D F", Some(Command::Widen), (2, 3), Some(1)),
    ("import D R F", Some(Command::Import), (3, 4), Some(1)),
    ("export D R", Some(Command::Export), (0, 0), Some(1)),
    ("guard D 1 R F", Some(Command::Guard(1)), (3, 5), Some(1)),
    ("weave D 9 2 F G", Some(WEAVE), (4, 6), Some(1)),
    ("weave D 9 2", None, (0, 0), None),
    ("import D F", None, (0, 0), None),
    ("drill 1001", None, (0, 0), None),
    ("run D 1", None, (0, 0), None),
    ("eval 18446744073709551616 F", None, (0, 0), None),
];

#[test]
fn each_form_has_its_places(rt: HostRuntime) -> Result<(), Fail> {
    let alloc = rt.alloc();
    for (line, command, files, folder) in FORMS {
        assert!(rt;
            has_places(alloc, *line, *command, *files, *folder)?,
            "{line}"
        );
    }
    assert!(rt; names(alloc, "import D Stock F", "Stock")?);
    assert!(rt; names(alloc, "dump D", "")?);
    Ok(())
}
