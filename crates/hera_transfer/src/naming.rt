//! Relations by their names.
ghost use Rattle.std.specs.Prelude.{◌≡◌, ◌<◌, None, Some, IfSome, length};
ghost use Rattle.hera_row.specs.Numbers.{number_named};

use hera_meaning::RelId;
use hera_store::Store;

/// The number of the relation of a name in a store.
pub(crate) fn relation_named(store: &Store, name: &[u8]) -> Option<RelId>
    ensures some { IfSome result (λ rel. number_named name.now store.now.base.catalogue ≡ Some rel.0) }
    ensures within { IfSome result (λ rel. rel.0 < length store.now.base.catalogue) }
    ensures none { result ≡ None → number_named name.now store.now.base.catalogue ≡ None }
{
    store.base().catalogue().find(name)
}
