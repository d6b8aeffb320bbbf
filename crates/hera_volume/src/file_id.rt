/// The three files of a folder: one that says which half is the database, and the two halves.
#[derive(Clone, Copy, Debug, PartialEq, Eq)]
pub enum FileId {
    /// It says by its one byte which half is the database.
    Select,
    /// One half.
    Left,
    /// The other half.
    Right,
}
