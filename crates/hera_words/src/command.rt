ghost use Rattle.std.specs.Prelude.{◌≡◌};
ghost use Rattle.hera_words.specs.Words.{command_named, weave_of, form_of, form, of_a_relation, of_sessions};

use crate::form::{Form, Number};

/// What the words of the command line ask for.
#[derive(Clone, Copy, PartialEq, Eq, Debug)]
pub enum Command {
    /// Says whether a script is accepted.
    Check,
    /// Lists the code of a script.
    List,
    /// Runs a script on an empty database with at most so many turns.
    Eval(u64),
    /// Prints the code file of a script.
    Pack,
    /// Runs the code of a code file on an empty database with at most so many turns.
    Exec(u64),
    /// Runs the drill over so many rows, from 1 to 1000.
    Drill(u64),
    /// Makes the database of a script's relations, without rows.
    Init,
    /// Runs a script on the database in a folder with at most so many turns.
    Run(u64),
    /// Prints every relation of the database in a folder.
    Dump,
    /// Writes the other half of the folder anew and selects it.
    Checkpoint,
    /// Widens the database in a folder to a script's relations.
    Widen,
    /// Puts the rows of a file of comma-separated values into a relation of the database in a folder.
    Import,
    /// Prints a relation of the database in a folder as comma-separated values.
    Export,
    /// Runs a script on the database in a folder with at most so many turns, under the guards of a script before it.
    Guard(u64),
    /// Runs the scripts of so many files, from 1 to 64, as sessions over the database in a folder, each with at most so many
    /// turns; a number says whose step comes next.
    Weave {
        turns: u64,
        order: u64,
        files: usize,
    },
}

impl Command {
    /// The command of a name, with these numbers and so many files where it has some.
    pub(crate) fn named(name: &str, number: u64, order: u64, files: usize) -> Option<Command>
        ensures { result ≡ command_named name.now number order files }
    {
        match name {
            "check" => Some(Command::Check),
            "list" => Some(Command::List),
            "eval" => Some(Command::Eval(number)),
            "pack" => Some(Command::Pack),
            "exec" => Some(Command::Exec(number)),
            "drill" => Some(Command::Drill(number)),
            "init" => Some(Command::Init),
            "run" => Some(Command::Run(number)),
            "dump" => Some(Command::Dump),
            "checkpoint" => Some(Command::Checkpoint),
            "widen" => Some(Command::Widen),
            "import" => Some(Command::Import),
            "export" => Some(Command::Export),
            "guard" => Some(Command::Guard(number)),
            "weave" => weave(number, order, files),
            _ => None,
        }
    }

    /// The words behind its name.
    pub(crate) fn form(self) -> Form
        ensures { result ≡ form_of self }
    {
        match self {
            Command::Check | Command::List | Command::Pack => form(false, Number::Absent, 1),
            Command::Eval(_) | Command::Exec(_) => form(false, Number::Turns, 1),
            Command::Drill(_) => form(false, Number::Rows, 0),
            Command::Init | Command::Widen => form(true, Number::Absent, 1),
            Command::Run(_) => form(true, Number::Turns, 1),
            Command::Guard(_) => form(true, Number::Turns, 2),
            Command::Dump | Command::Checkpoint => form(true, Number::Absent, 0),
            Command::Import => of_a_relation(1),
            Command::Export => of_a_relation(0),
            Command::Weave { files, .. } => of_sessions(files),
        }
    }
}

/// A weave of so many files, which are from 1 to 64.
fn weave(turns: u64, order: u64, files: usize) -> Option<Command>
    ensures { result ≡ weave_of turns order files }
{
    if 1 <= files && files <= 64 {
        Some(Command::Weave {
            turns,
            order,
            files,
        })
    } else {
        None
    }
}

/// The form with these words, and no relation.
fn form(folder: bool, number: Number, files: usize) -> Form
    ensures { result ≡ form folder number files }
{
    Form {
        folder,
        relation: false,
        number,
        order: false,
        files,
    }
}

/// The form with a folder, a relation and so many files.
fn of_a_relation(files: usize) -> Form
    ensures { result ≡ of_a_relation files }
{
    Form {
        folder: true,
        relation: true,
        number: Number::Absent,
        order: false,
        files,
    }
}

/// The form with a folder, both numbers and so many files.
fn of_sessions(files: usize) -> Form
    ensures { result ≡ of_sessions files }
{
    Form {
        folder: true,
        relation: false,
        number: Number::Turns,
        order: true,
        files,
    }
}
