//! From where ways lead to the places of a body.

ghost use Rattle.std.specs.Prelude.{◌≡◌, ◌<◌, ◌≤◌, ◌-◌, ◌+◌, ℕ, List, length, slice_get, slice_set, Some, IfOk};
ghost use Rattle.hera_code.specs.declared.instrs.Instr.{Instr as PlainInstr};
ghost use Rattle.hera_noted.specs.Spans.{target_of};
ghost use Rattle.hera_noted.specs.Ways.{widened as wider, HaveSources};

use crate::extents::Span;
use hera_code::{Instr, Instrs};
use std::alloc::{AllocError, Global};

/// From where ways lead to a place of a body: the first and the last of these places, or its own where that comes
/// first or last. A place is an address of the body, counted from its beginning.
#[derive(Clone, Copy, PartialEq, Eq, Debug)]
pub struct Sources {
    pub first: usize,
    pub last: usize,
}

/// The address that an instruction names.
fn target(instr: &Instr) -> Option<usize>
    ensures { result ≡ target_of instr.now }
{
    match instr {
        Instr::Jump(address) => Some(*address as usize),
        Instr::Unless(address) => Some(*address as usize),
        Instr::Back(address) => Some(*address as usize),
        Instr::Next(_, address) => Some(*address as usize),
        _ => None,
    }
}

/// The sources, with one place more.
fn widened(sources: Sources, from: usize) -> Sources
    ensures { result ≡ wider sources from }
{
    Sources {
        first: if from < sources.first {
            from
        } else {
            sources.first
        },
        last: if sources.last < from {
            from
        } else {
            sources.last
        },
    }
}

/// Puts other sources at a place.
fn put(all: &mut Vec<Sources>, place: usize, sources: Sources)
    requires { place < length all.old.items }
    ensures { all.new.items ≡ slice_set all.old.items place sources }
{
    all[place] = sources;
}

/// For each place its own: no way is known.
fn own_sources(alloc: Global, count: usize) -> Result<Vec<Sources>, AllocError>
    ensures long { IfOk result (λ all. length all.items ≡ count) }
    ensures own { IfOk result (λ all. (k : ℕ) → (s : Sources) → slice_get all.items k ≡ Some s → (s.first ≡ k) × (s.last ≡ k)) }
{
    let mut all = Vec::new(alloc);
    for place in 0..count {
        all.push(Sources {
            first: place,
            last: place,
        })?;
    }
    Ok(all)
}

/// Takes down the way from an instruction, where it leads to a place of the body.
fn note_way(all: &mut Vec<Sources>, instr: &Instr, body: Span, at: usize)
    requires start { body.start ≤ at }
    requires end { at < body.end }
    requires long { length all.old.items ≡ body.end - body.start }
    ensures { (instrs : List PlainInstr) → slice_get instrs at ≡ Some instr.now → HaveSources instrs body.start body.end at all.old.items → HaveSources instrs body.start body.end (at + 1) all.new.items }
{
    let Some(to) = target(instr) else {
        return;
    };
    if to < body.start {
        return;
    }
    if body.end <= to {
        return;
    }
    let place = to - body.start;
    let sources = widened(all[place], at - body.start);
    put(all, place, sources);
}

/// The sources of the ways to each place of a body.
pub fn sources_in(alloc: Global, instrs: &Instrs, body: Span) -> Result<Vec<Sources>, AllocError>
    requires { body.end ≤ length instrs.now }
    ensures { IfOk result (λ all. HaveSources instrs.now body.start body.end body.end all.items) }
{
    let mut all = own_sources(alloc, body.end.saturating_sub(body.start))?;
    for at in body.start..body.end {
        note_way(&mut all, instrs.at(at), body, at);
    }
    Ok(all)
}
