//! For each phrase that may break several rules: the fault that its rule gives is the least of all that the
//! phrase breaks, by kind in the order Unknown, Repeated, Impure, TooMany, Mismatch, then by offset; and a
//! phrase that breaks none is typed. The words of a phrase stand in text order.

ghost use Rattle.std.specs.Prelude.{ℕ, Bool, List, Result};
ghost use Rattle.hera_rules.specs.declared.words.Word.{Word};
ghost use Rattle.hera_rules.specs.declared.words.Renamed.{Renamed};
ghost use Rattle.hera_rules.specs.declared.words.Aggregate.{Aggregate};
ghost use Rattle.hera_rules.specs.declared.words.Pair.TheVariants.{Join as as_join};
ghost use Rattle.hera_rules.specs.Environments.{Env};
ghost use Rattle.hera_rules.specs.Rules.{Typing, group_row, pair_row, project_row, rename_row, row_row};
ghost use Rattle.hera_rules.specs.Commands.{perform_row};
ghost use Rattle.hera_faults.specs.Broken.{BreaksGroup, BreaksJoin, BreaksPerform, BreaksProject, BreaksRename, BreaksTuple, InOrder, PairsInOrder, group_names, group_uses};
ghost use Rattle.hera_faults.specs.Least.{TellsTheLeast};

/// `project`: a name that is no attribute of the rel, a name twice, no rel.
pub fn project_tells_the_least()
    ensures { (at : ℕ) (words : List Word) (value : Typing) → InOrder 0 words → TellsTheLeast (BreaksProject at words value.type) (project_row at words value) }
{}

/// `rename`: an old name that is no attribute of the rel, an old name or a result twice, no rel.
pub fn rename_tells_the_least()
    ensures { (at : ℕ) (pairs : List Renamed) (value : Typing) → PairsInOrder 0 pairs → TellsTheLeast (BreaksRename at pairs value.type) (rename_row at pairs value) }
{}

/// `group`: a name that is no attribute of the rel, a result twice, more than 16 results, a sum of no int,
/// no rel.
pub fn group_tells_the_least()
    ensures { (at : ℕ) (by : List Word) (aggregates : List Aggregate) (value : Typing)
        → InOrder 0 (group_uses by aggregates) → InOrder 0 (group_names by aggregates)
        → TellsTheLeast (BreaksGroup at by aggregates value.type) (group_row at by aggregates value) }
{}

/// `join`: more than 16 attributes, a common name of two kinds, no rel.
pub fn join_tells_the_least()
    ensures { (at : ℕ) (left right : Typing) → TellsTheLeast (BreaksJoin at left.type right.type) (pair_row as_join at left right) }
{}

/// A tuple: a name twice, more than 16 names, a value that is no scalar.
pub fn tuple_tells_the_least()
    ensures { (at : ℕ) (words : List Word) (values : List Typing) → InOrder 0 words → TellsTheLeast (BreaksTuple at words values) (row_row at words values) }
{}

/// A call statement: a name of nothing, a proc called in a func, a name of something else, or arguments of
/// other types.
pub fn perform_tells_the_least()
    ensures { (env : Env) (in_func : Bool) (word : Word) (values : List Typing) → TellsTheLeast (BreaksPerform env in_func word values) (perform_row env in_func word values) }
{}
