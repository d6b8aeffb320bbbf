//! The laws of guards, each the clause of a function without effect.
ghost use Rattle.std.specs.Prelude.{◌≡◌, ℕ, List, [], None};
ghost use Rattle.hera_meaning.specs.declared.schemas.RelDecl.{RelDecl};
ghost use Rattle.hera_meaning.specs.Deltas.{State, IsState, Delta, IsDelta, apply_of};
ghost use Rattle.hera_meaning.specs.Hosts.{Hosts};
ghost use Rattle.hera_meaning.specs.Trees.{Program_tree};
ghost use Rattle.hera_meaning.specs.Run.{run_of};
ghost use Rattle.hera_host.specs.Tables.{Host, specs_of};
ghost use Rattle.hera_guard.specs.declared.table.Guard.{Guard};
ghost use Rattle.hera_guard.specs.Guards.{breaks, first, added_of};
ghost use Rattle.hera_guard.specs.Guarded.{ends, guarded_of, refusal_of};

/// Where no row of a state breaks a guard, the breaks of the state after a delta are those of the rows that the delta
/// puts in.
pub fn added_rows_suffice()
    ensures all { (hosts : Hosts) (guards : List Guard) (rels : List RelDecl) (s : State) (d : Delta) → IsState rels s → IsDelta d → breaks hosts guards rels s ≡ [] → breaks hosts guards rels (apply_of s d) ≡ breaks hosts guards rels (added_of rels d) }
    ensures first { (hosts : Hosts) (guards : List Guard) (rels : List RelDecl) (s : State) (d : Delta) → IsState rels s → IsDelta d → breaks hosts guards rels s ≡ [] → first (breaks hosts guards rels (apply_of s d)) ≡ first (breaks hosts guards rels (added_of rels d)) }
{}

/// Without guards no state is refused, and a guarded run is the run itself.
pub fn no_guards_refuse_nothing()
    ensures state { (hosts : List Host) (rels : List RelDecl) (s : State) → refusal_of hosts [] rels s ≡ None }
    ensures run { (p : Program_tree) (s : State) (hosts : List Host) (n : ℕ) → let report = run_of p s (specs_of hosts) n in guarded_of p s hosts n [] ≡ record { events = report.events; finish = ends report.finish } }
{}
