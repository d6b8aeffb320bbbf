//! Schemas of the same kinds.
ghost use Rattle.std.specs.Prelude.{◌≡◌};
ghost use Rattle.hera_meaning.specs.Scalars.{is_same_kind};
ghost use Rattle.hera_reads.specs.Kinds.{have_same_kinds};

use hera_meaning::{Attr, Schema};

/// Whether both have as many attributes, of the same kinds in order.
pub(crate) fn have_same_kinds(a: &Schema, b: &Schema) -> bool
    ensures { result ≡ have_same_kinds a.now b.now }
{
    if a.len() != b.len() {
        return false;
    }
    for i in 0..a.len() {
        if !is_same_kind(a.attr(i), b.attr(i)) {
            return false;
        }
    }
    true
}

/// Whether both have one kind.
fn is_same_kind(a: &Attr, b: &Attr) -> bool
    ensures { result ≡ is_same_kind a.now.kind b.now.kind }
{
    a.kind == b.kind
}
