//! The laws of binding.

ghost use Rattle.std.specs.Prelude.{◌≡◌};
ghost use Rattle.hera_meaning.specs.Hosts.{Hosts};
ghost use Rattle.hera_meaning.specs.Sound.{Sound};
ghost use Rattle.hera_meaning.specs.Trees.{Program_tree};
ghost use Rattle.hera_rules.specs.Bound.{bound};
ghost use Rattle.hera_bind.specs.Having.{AllHas};

/// A program has its own relations, and a sound one that is bound to them is itself.
pub fn a_program_is_bound_to_its_own_relations()
    ensures has { (p : Program_tree) → AllHas p.relations p.relations }
    ensures same { (p : Program_tree) → (hosts : Hosts) → Sound p hosts → bound p p.relations ≡ p }
{}
