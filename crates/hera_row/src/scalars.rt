//! The kind of a scalar, and the order of scalars.
ghost use Rattle.std.specs.Prelude.{◌≡◌};
ghost use Rattle.hera_meaning.specs.Scalars.{is_kind, scalar_less};
ghost use Rattle.hera_row.specs.Fields.{told};

use hera_meaning::{Kind, Scalar, ScalarRef};
use hera_sets::is_below;

/// Whether the scalar is of the kind.
pub fn is_kind(kind: Kind, scalar: &Scalar) -> bool
    ensures { result ≡ is_kind kind scalar.now }
{
    match scalar {
        Scalar::Int(_) => kind == Kind::Int,
        Scalar::Bool(_) => kind == Kind::Bool,
        Scalar::Text(_) => kind == Kind::Text,
    }
}

/// Whether the first scalar stands before the second of its kind: ints by value, false before true, texts by their bytes.
pub fn is_before(a: ScalarRef<'_>, b: ScalarRef<'_>) -> bool
    ensures { result ≡ scalar_less (told a.entry) (told b.entry) }
{
    match (a, b) {
        (ScalarRef::Int(v), ScalarRef::Int(w)) => v < w,
        (ScalarRef::Bool(v), ScalarRef::Bool(w)) => !v && w,
        (ScalarRef::Text(v), ScalarRef::Text(w)) => is_below(v, w),
        _ => false,
    }
}
