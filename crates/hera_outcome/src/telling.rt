//! What is emitted, and what is seen of that.
ghost use Rattle.std.specs.Prelude.{◌≡◌, ◌≢◌, Err, IfOk};
ghost use Rattle.hera_outcome.specs.Answers.{number_of, IsConcluded};
ghost use Rattle.hera_outcome.specs.declared.refusal.Refusal.{Refusal};
ghost use Rattle.hera_outcome.specs.Passages.{passage, KeepsFiles};
ghost use Rattle.hera_outcome.specs.Outcomes.{refused};
ghost use Rattle.hera_outcome.specs.Told.{Says, IsTold};

use crate::{Ending, Refusal, Stop};
use hera_volume::Outside;
use std::alloc::Global;

/// Emits a text, or a prefix of it up to the first failure. The files are left alone.
pub fn say<W: Outside>(outside: &mut W, text: &[u8]) -> Result<(), Stop>
    ensures said { Says text.now result (passage W.Output W.Outside.own outside.old outside.new) }
{
    match hera_volume::say(outside, text) {
        Ok(()) => Ok(()),
        Err(_) => Err(Stop::Output),
    }
}

/// Tells a refusal, and gives its status, or that of a failed output or of no memory. The files are left alone.
pub fn refuse<W: Outside>(alloc: Global, outside: &mut W, refusal: &Refusal) -> u8
    ensures told { IsTold (refused refusal.now) result (passage W.Output W.Outside.own outside.old outside.new) }
    ensures keeps { KeepsFiles (passage W.Output W.Outside.own outside.old outside.new) }
    ensures no_device { result ≢ 6 }
{
    match refusal.line(alloc) {
        Ok(line) => match say(outside, line.bytes()) {
            Ok(()) => refusal.status(),
            Err(stop) => stop.number(),
        },
        Err(_) => Stop::Memory.number(),
    }
}

/// Tells a text, and that the command is done.
pub fn tell<W: Outside>(outside: &mut W, text: &[u8]) -> Result<Ending, Stop>
    ensures said { Says text.now result (passage W.Output W.Outside.own outside.old outside.new) }
    ensures done { IfOk result (λ ending. ending ≡ Ending.Done) }
{
    say(outside, text)?;
    Ok(Ending::Done)
}

/// The status of an answer. A refusal is told first.
pub fn conclude<W: Outside>(alloc: Global, outside: &mut W, answer: Result<Ending, Stop>) -> u8
    ensures refused { (refusal : Refusal) → answer ≡ Err (Stop.Refused refusal) → IsTold (refused refusal) result (passage W.Output W.Outside.own outside.old outside.new) }
    ensures number { IsConcluded answer → result ≡ number_of answer }
    ensures still { IsConcluded answer → outside.new ≡ outside.old }
    ensures keeps { KeepsFiles (passage W.Output W.Outside.own outside.old outside.new) }
    ensures no_device { answer ≢ Err Stop.Device → result ≢ 6 }
{
    match answer {
        Ok(ending) => ending.number(),
        Err(Stop::Refused(refusal)) => refuse(alloc, outside, &refusal),
        Err(stop) => stop.number(),
    }
}
