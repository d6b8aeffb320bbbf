ghost use Rattle.std.specs.Prelude.{◌≡◌};
ghost use Rattle.hera_script.specs.Labels.{label_of};

/// Why a script is refused. The causes up to `Syntax` are looked for in this order; of the others, which are
/// faults of types, the first in the order of checking counts.
#[derive(Clone, Copy, PartialEq, Eq, Debug)]
pub enum Cause {
    /// It has more bytes than are read: 1,048,576 of a script, 67,108,864 of a file to import, 16,777,216 of a code file.
    TooLong,
    /// It is not UTF-8.
    BadUtf8,
    /// There is a place where no token stands.
    BadToken,
    /// More than 64 brackets are open at once.
    TooDeep,
    /// Its tokens are no program.
    Syntax,
    /// A name means nothing where it stands.
    Unknown,
    /// A name is taken already.
    Repeated,
    /// A type does not fit.
    Mismatch,
    /// A func has an effect.
    Impure,
    /// A func's last statement does not return.
    NoReturn,
    /// There are more relations, or more attributes of a schema, than there may be.
    TooMany,
}

impl Cause {
    /// The beginning of the line that is printed.
    pub fn label(self) -> &'static str
        ensures { result.now ≡ label_of self }
    {
        match self {
            Cause::TooLong => "refused TooLong",
            Cause::BadUtf8 => "refused BadUtf8",
            Cause::BadToken => "refused BadToken",
            Cause::TooDeep => "refused TooDeep",
            Cause::Syntax => "refused Syntax",
            Cause::Unknown => "refused Unknown",
            Cause::Repeated => "refused Repeated",
            Cause::Mismatch => "refused Mismatch",
            Cause::Impure => "refused Impure",
            Cause::NoReturn => "refused NoReturn",
            Cause::TooMany => "refused TooMany",
        }
    }
}
