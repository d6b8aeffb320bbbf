ghost use Rattle.std.specs.Prelude.{◌≡◌};
ghost use Rattle.std.specs.List.{list_all};
ghost use Rattle.std.specs.Char.{is_ascii_digit};
ghost use Rattle.hera_words.specs.Numbers.{turns_of, rows_of, width_of, number_in, order_in};

/// The words behind a command's name, in this order.
#[derive(Clone, Copy, PartialEq, Eq, Debug)]
pub(crate) struct Form {
    /// Whether a folder comes first.
    pub(crate) folder: bool,
    /// Whether the name of a relation comes behind it.
    pub(crate) relation: bool,
    /// The number behind that.
    pub(crate) number: Number,
    /// Whether a number comes behind it that tells an order, written as turns are.
    pub(crate) order: bool,
    /// How many files come last.
    pub(crate) files: usize,
}

/// A number of the command line.
#[derive(Clone, Copy, PartialEq, Eq, Debug)]
pub(crate) enum Number {
    /// There is none.
    Absent,
    /// The most turns of a run: one to twenty ASCII digits with a value below 2^64.
    Turns,
    /// The rows of a drill: a number of turns from 1 to 1000.
    Rows,
}

impl Number {
    /// How many words it takes.
    pub(crate) fn width(self) -> usize
        ensures { result ≡ width_of self }
    {
        match self {
            Number::Absent => 0,
            Number::Turns | Number::Rows => 1,
        }
    }

    /// The number that a word gives, 0 where no word does.
    pub(crate) fn of(self, word: &str) -> Option<u64>
        ensures { result ≡ number_in self word.now }
    {
        match self {
            Number::Absent => Some(0),
            Number::Turns => turns(word),
            Number::Rows => rows(word),
        }
    }
}

/// The number of an order that a word gives, 0 where no word does.
pub(crate) fn order_of(order: bool, word: &str) -> Option<u64>
    ensures { result ≡ order_in order word.now }
{
    if order { turns(word) } else { Some(0) }
}

/// Whether the bytes are ASCII digits.
fn are_digits(bytes: &[u8]) -> bool
    ensures { result ≡ list_all is_ascii_digit bytes.now }
{
    bytes.iter().all(|b| b.is_ascii_digit())
}

/// The number of turns that a word gives.
fn turns(word: &str) -> Option<u64>
    ensures { result ≡ turns_of word.now }
{
    if word.len() > 20 {
        return None;
    }
    if !are_digits(word.as_bytes()) {
        return None;
    }
    match word.parse::<u64>() {
        Ok(turns) => Some(turns),
        Err(_) => None,
    }
}

/// The number of rows that a word gives.
fn rows(word: &str) -> Option<u64>
    ensures { result ≡ rows_of (turns_of word.now) }
{
    match turns(word) {
        Some(count) if 1 <= count && count <= 1000 => Some(count),
        _ => None,
    }
}
