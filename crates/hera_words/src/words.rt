ghost use Rattle.std.specs.Prelude.{◌≡◌, ◌≤◌, ◌<◌, ◌+◌, None, length, IfSome};
ghost use Rattle.hera_words.specs.declared.form.Form.{Form};
ghost use Rattle.hera_words.specs.Words.{words_of, word_at, command_named, form_of, relation_place, number_place, order_place, files_place, numbered_by, command_by, command_of, files_in, folder_in, relation_in};

use crate::Command;
use crate::form::{Form, order_of};

impl Form {
    /// Where the relation stands behind the name.
    fn relation_place(&self) -> usize
        ensures { result ≡ relation_place self.now }
    {
        usize::from(self.folder)
    }

    /// Where the number stands behind the name.
    fn number_place(&self) -> usize
        ensures { result ≡ number_place self.now }
    {
        self.relation_place() + usize::from(self.relation)
    }

    /// Where the number of an order stands behind the name.
    fn order_place(&self) -> usize
        ensures { result ≡ order_place self.now }
    {
        self.number_place() + self.number.width()
    }

    /// Where the first file stands behind the name.
    fn files_place(&self) -> usize
        ensures { result ≡ files_place self.now }
    {
        self.order_place() + usize::from(self.order)
    }
}

/// The word at a place, empty past the last.
fn word_at(words: &[String], place: usize) -> &str
    ensures { result.now ≡ word_at place (words_of words.now) }
{
    if place < words.len() {
        words[place].as_str()
    } else {
        ""
    }
}

/// The command of a name, the numbers that its words give and how many files there are.
fn numbered(name: &str, words: &[String]) -> Option<Command>
    ensures numbered { IfSome (command_named name.now 0 0 1) (λ first. result ≡ numbered_by (form_of first) name.now (words_of words.now)) }
    ensures unknown { command_named name.now 0 0 1 ≡ None → result ≡ None }
{
    let form = Command::named(name, 0, 0, 1)?.form();
    let number = form.number.of(word_at(words, form.number_place()))?;
    let order = order_of(form.order, word_at(words, form.order_place()))?;
    let files = words.len().saturating_sub(form.files_place());
    Command::named(name, number, order, files)
}

/// The command of a name and the words behind it.
fn read_behind(name: &str, words: &[String]) -> Option<Command>
    ensures command { result ≡ command_by (command_named name.now 0 0 1) name.now (words_of words.now) }
    ensures long { IfSome result (λ command. length words.now ≡ files_place (form_of command) + (form_of command).files) }
{
    let command = numbered(name, words)?;
    let form = command.form();
    if words.len() == form.files_place() + form.files {
        Some(command)
    } else {
        None
    }
}

/// The command of the words, where they are a listed form. It takes no memory.
pub fn read_words(words: &[String]) -> Option<Command>
    ensures command { result ≡ command_of (words_of words.now) }
    ensures long { IfSome result (λ command. length words.now ≡ 1 + files_place (form_of command) + (form_of command).files) }
{
    match words {
        [name, rest @ ..] => read_behind(name.as_str(), rest),
        [] => None,
    }
}

/// The places of the FILE words, from the first to behind the last. It is (0, 0) where there are none or the words are
/// no listed form. It takes no memory.
pub fn files_of(words: &Vec<String>) -> (usize, usize)
    ensures files { result ≡ files_in (command_of (words_of words.now.items)) }
    ensures ordered { result.0 ≤ result.1 }
    ensures within { result.1 ≤ length words.now.items }
{
    match read_words(words) {
        Some(command) => {
            let form = command.form();
            if form.files == 0 {
                (0, 0)
            } else {
                let first = 1 + form.files_place();
                (first, first + form.files)
            }
        }
        None => (0, 0),
    }
}

/// The place of the DIR word, `None` where there is none or the words are no listed form. It takes no memory.
pub fn folder_of(words: &Vec<String>) -> Option<usize>
    ensures folder { result ≡ folder_in (command_of (words_of words.now.items)) }
    ensures within { IfSome result (λ place. place < length words.now.items) }
{
    match read_words(words) {
        Some(command) if command.form().folder => Some(1),
        _ => None,
    }
}

/// The name of a relation among the words, empty where there is none or the words are no listed form. It takes no memory.
pub fn relation_of(words: &Vec<String>) -> &str
    ensures { result.now ≡ relation_in (command_of (words_of words.now.items)) (words_of words.now.items) }
{
    match read_words(words) {
        Some(command) => {
            let form = command.form();
            if form.relation {
                word_at(words, 1 + form.relation_place())
            } else {
                ""
            }
        }
        None => "",
    }
}
