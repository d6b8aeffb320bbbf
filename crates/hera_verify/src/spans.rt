//! From where the addresses of a stretch of code are named.
ghost use Rattle.std.specs.Prelude.{◌≡◌, ◌≤◌, ◌<◌, ◌+◌, ◌*◌, ◌^◌, ℕ, List, IfOk, length, slice_set};
ghost use Rattle.hera_code.specs.declared.instrs.Instr.{Instr as PlainInstr};
ghost use Rattle.hera_verify.specs.Spans.{named, joined, noted, IsSpan, AreSpans, IsFar, AreFar, farther};

use hera_code::{Instr, Instrs};
use std::alloc::{AllocError, Global};

/// The least and the greatest address of some instructions.
#[derive(Clone, Copy)]
pub(crate) struct Span {
    pub least: u32,
    pub greatest: u32,
}

/// The address that an instruction names.
fn named(instr: &Instr) -> Option<u32>
    ensures { result ≡ named instr.now }
{
    match instr {
        Instr::Jump(at) => Some(*at),
        Instr::Unless(at) => Some(*at),
        Instr::Back(at) => Some(*at),
        Instr::Next(_, at) => Some(*at),
        _ => None,
    }
}

/// The span of all instructions of both.
fn joined(a: Option<Span>, b: Option<Span>) -> Option<Span>
    ensures { result ≡ joined a b }
{
    match (a, b) {
        (None, _) => b,
        (Some(_), None) => a,
        (Some(s), Some(t)) => Some(Span {
            least: if t.least < s.least { t.least } else { s.least },
            greatest: if s.greatest < t.greatest {
                t.greatest
            } else {
                s.greatest
            },
        }),
    }
}

/// Puts another span at a place.
fn put(spans: &mut Vec<Option<Span>>, at: usize, span: Option<Span>)
    requires { at < length spans.old.items }
    ensures { spans.new.items ≡ slice_set spans.old.items at span }
{
    spans[at] = span;
}

/// Takes down that an instruction names an address of the code.
fn note(spans: &mut Vec<Option<Span>>, named: Option<u32>, source: u32)
    ensures { spans.new.items ≡ noted spans.old.items named source }
{
    let Some(at) = named else {
        return;
    };
    let at = at as usize;
    if at < spans.len() {
        let one = Span {
            least: source,
            greatest: source,
        };
        let span = joined(spans[at], Some(one));
        put(spans, at, span);
    }
}

/// No span for any of so many addresses.
fn no_spans(alloc: Global, count: usize) -> Result<Vec<Option<Span>>, AllocError>
    ensures { (instrs : List PlainInstr) → length instrs ≡ count → IfOk result (λ spans. AreSpans instrs 0 1 spans.items) }
{
    Ok(vec![in alloc; None; count]?)
}

/// For each address from where it is named.
pub(crate) fn spans_of(alloc: Global, instrs: &Instrs) -> Result<Vec<Option<Span>>, AllocError>
    requires { length instrs.now < 2 ^ 32 }
    ensures { IfOk result (λ spans. AreSpans instrs.now (length instrs.now) 1 spans.items) }
{
    let mut spans = no_spans(alloc, instrs.len())?;
    for a in 0..instrs.len() {
        let Some(instr) = instrs.get(a) else {
            unreachable!();
        };
        note(&mut spans, named(instr), a as u32);
    }
    Ok(spans)
}

/// Makes each span that of twice as many addresses.
pub(crate) fn widen(spans: &mut Vec<Option<Span>>, width: usize)
    requires { 1 ≤ width }
    ensures { (instrs : List PlainInstr) → (count : ℕ) → AreSpans instrs count width spans.old.items → AreSpans instrs count (width + width) spans.new.items }
{
    for b in 0..spans.len().saturating_sub(width) {
        let span = joined(spans[b], spans[b + width]);
        put(spans, b, span);
    }
}

/// From where the addresses of a stretch are named that is at least as long as those of the spans, and at most twice
/// as long.
pub(crate) fn span_over(
    spans: &Vec<Option<Span>>,
    width: usize,
    from: usize,
    end: usize,
) -> Option<Span>
    requires long { from + width ≤ end }
    requires within { end ≤ length spans.now.items }
    requires some { 1 ≤ width }
    ensures { (instrs : List PlainInstr) → (count : ℕ) → AreSpans instrs count width spans.now.items → end ≤ from + width + width → IsSpan instrs count from end result }
{
    joined(spans[from], spans[end - width])
}

/// The lesser of an address behind the code and what an instruction names.
fn farther(far: Option<u32>, named: Option<u32>, len: usize) -> Option<u32>
    ensures { result ≡ farther far named len }
{
    match (far, named) {
        (_, None) => far,
        (None, Some(at)) => if (at as usize) < len { None } else { Some(at) },
        (Some(far), Some(at)) => Some(if (at as usize) < len || far <= at {
            far
        } else {
            at
        }),
    }
}

/// For each address the least address behind the code that an instruction before it names.
pub(crate) fn fars_of(alloc: Global, instrs: &Instrs) -> Result<Vec<Option<u32>>, AllocError>
    ensures { IfOk result (λ fars. AreFar instrs.now fars.items) }
{
    let mut fars = Vec::new(alloc);
    let mut far = None;
    for a in 0..instrs.len() {
        let Some(instr) = instrs.get(a) else {
            unreachable!();
        };
        fars.push(far)?;
        far = farther(far, named(instr), instrs.len());
    }
    Ok(fars)
}
