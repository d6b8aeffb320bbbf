//! Committed states.
ghost use Rattle.std.specs.Prelude.{◌≡◌, ◌<◌, true, Some, length, slice_get};
ghost use Rattle.std.specs.List.{list_all};
ghost use Rattle.hera_meaning.specs.Fits.{is_delta_of};
ghost use Rattle.when_overlay.specs.Changed.{after_all};

use delta_atoms::Delta;
use rel_pages::Base;
use std::marker::Model;

/// A committed state: that of a base after commits in order, of which each is a delta of the base's catalogue.
#[derive(Drop)]
pub struct Stored<'a> {
    base: &'a Base,
    commits: &'a [Delta],
}

impl<'a> Model for Stored<'a> {
    ghost use Rattle.std.specs.Prelude.{◌≡◌, true};
    ghost use Rattle.std.specs.List.{list_all};
    ghost use Rattle.hera_meaning.specs.Fits.{is_delta_of};
    ghost use Rattle.when_overlay.specs.Changed.{after_all};
    ghost use Rattle.when_overlay.specs.Committed.{Committed};

    ghost Value = { Committed };

    ghost view = { λ s. record { catalogue = s.base.now.catalogue; base = s.base.now.state; commits = s.commits.now; state = after_all s.base.now.state s.commits.now } };

    ghost invariant = { λ s. list_all (is_delta_of s.base.now.catalogue) s.commits.now ≡ true };
}

impl<'a> Stored<'a> {
    /// The state of the base after these commits.
    pub fn new(base: &'a Base, commits: &'a [Delta]) -> Stored<'a>
        requires { list_all (is_delta_of base.now.catalogue) commits.now ≡ true }
        ensures catalogue { result.catalogue ≡ base.entry.now.catalogue }
        ensures state { result.state ≡ after_all base.entry.now.state commits.entry.now }
    {
        Stored { base, commits }
    }

    /// How many relations there are.
    pub fn len(&self) -> usize
        ensures count { result ≡ length self.now.catalogue }
        ensures relations { length self.now.state ≡ length self.now.catalogue }
    {
        self.base.catalogue().len()
    }

    /// The base.
    pub fn base(&self) -> &'a Base
        ensures catalogue { result.now.catalogue ≡ self.now.catalogue }
        ensures state { result.now.state ≡ self.now.base }
    {
        self.base
    }

    /// The commits.
    pub fn commits(&self) -> &'a [Delta]
        ensures commits { result.now ≡ self.now.commits }
        ensures state { self.now.state ≡ after_all self.now.base self.now.commits }
        ensures known { list_all (is_delta_of self.now.catalogue) self.now.commits ≡ true }
    {
        self.commits
    }
}
