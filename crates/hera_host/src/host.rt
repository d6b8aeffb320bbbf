//! One host function, and the closure that answers for it.
ghost use Rattle.std.specs.Prelude.{◌≡◌, true, IfOk};
ghost use Rattle.hera_meaning.specs.Hosts.{host_of, host_takes};
ghost use Rattle.hera_meaning.specs.Scalars.{is_kind, is_scalar, fits_int};
ghost use Rattle.hera_meaning.specs.Sound.{is_spec};
ghost use Rattle.hera_host.specs.Calls.{AnswersAs, has_width};

use crate::names::Listed;
use hera_meaning::{HostAnswer, HostSpec, Name, Scalar};
use std::alloc::AllocError;

/// A closure that answers for a scalar.
pub type HostCall = Box<dyn Fn(&Scalar) -> HostAnswer>;

/// A host function: its name, what it answers for its argument, and the closure that answers so.
#[derive(Drop)]
pub struct HostFn {
    pub name: Name,
    pub spec: HostSpec,
    call: HostCall,
    ghost valid: { is_spec spec ≡ true },
    ghost answers: { AnswersAs (HostCall.pre call) (HostCall.post call) spec },
}

impl HostFn {
    /// The host function of this name, whose closure answers what `spec` says. It takes no memory.
    pub fn new(name: Name, spec: HostSpec, call: HostCall) -> HostFn
        requires width { has_width spec ≡ true }
        requires answers { AnswersAs (HostCall.pre call) (HostCall.post call) spec }
        ensures name { result.name ≡ name }
        ensures spec { result.spec ≡ spec }
    {
        is_valid(&spec);
        HostFn { name, spec, call }
    }

    /// What the closure answers for a scalar of the argument's kind.
    pub(crate) fn answer(&self, arg: &Scalar) -> HostAnswer
        requires { is_kind (host_takes self.now.spec) arg.now ≡ true }
        ensures { result ≡ host_of self.now.spec arg.now }
    {
        is_known(arg);
        ask(&self.call, arg)
    }

    /// Its name and what it answers, copied.
    pub(crate) fn listed(&self) -> Result<Listed, AllocError>
        ensures name { IfOk result (λ listed. listed.name ≡ self.now.name) }
        ensures spec { IfOk result (λ listed. listed.spec ≡ self.now.spec) }
    {
        let name = self.name.copy()?;
        let spec = copy_spec(&self.spec)?;
        Ok(Listed { name, spec })
    }
}

/// Asks the closure.
fn ask(call: &HostCall, arg: &Scalar) -> HostAnswer
    requires { HostCall.pre call.now arg }
    ensures { HostCall.post call.now arg.entry result }
{
    call(arg)
}

/// A copy.
fn copy_spec(spec: &HostSpec) -> Result<HostSpec, AllocError>
    ensures { IfOk result (λ copy. copy ≡ spec.now) }
{
    Ok(match spec {
        HostSpec::Band { lo, hi } => HostSpec::Band { lo: *lo, hi: *hi },
        HostSpec::Bucket { width } => HostSpec::Bucket { width: *width },
        HostSpec::Prefix { text } => HostSpec::Prefix { text: text.copy()? },
        HostSpec::Clamp { lo, hi } => HostSpec::Clamp { lo: *lo, hi: *hi },
    })
}

/// Tells that the numbers of a spec are in range, and that its text is one.
fn is_valid(spec: &HostSpec)
    requires { has_width spec.now ≡ true }
    ensures { is_spec spec.now ≡ true }
{
    match spec {
        HostSpec::Band { lo, hi } | HostSpec::Clamp { lo, hi } => {
            is_in_range(*lo);
            is_in_range(*hi);
        }
        HostSpec::Bucket { width } => {
            let _width = *width;
        }
        HostSpec::Prefix { text } => {
            let _bytes = text.bytes();
        }
    }
}

/// Tells that an int is in range, and that a text is one.
fn is_known(scalar: &Scalar)
    ensures { is_scalar scalar.now ≡ true }
{
    match scalar {
        Scalar::Int(value) => is_in_range(*value),
        Scalar::Bool(_) => {}
        Scalar::Text(text) => {
            let _bytes = text.bytes();
        }
    }
}

/// Tells that an int is in range.
fn is_in_range(value: i64)
    ensures { fits_int value ≡ true }
{
    let _below = value >= 0;
}
