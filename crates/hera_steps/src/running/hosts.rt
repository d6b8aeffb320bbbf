//! What host functions answer for operands.
ghost use Rattle.std.specs.Prelude.{◌≡◌};
ghost use Rattle.hera_meaning.specs.Hosts.{answer_value, host_at};
ghost use Rattle.hera_meaning.specs.Scalars.{is_kind};
ghost use Rattle.delta_atoms.specs.Plain.{value_of};
ghost use Rattle.hera_values.specs.Little.{plain_of};
ghost use Rattle.hera_host.specs.Tables.{specs_of};
ghost use Rattle.hera_steps.specs.Answering.{answer_for, answer_to};

use delta_atoms::Value;
use hera_host::HostTable;
use hera_meaning::{HostAnswer, Scalar};
use hera_row::is_kind;
use hera_values::Datum;

/// What the host of this number answers for a value: nothing where there is no such host, and where the value is no
/// scalar of the kind that it takes.
pub(super) fn answer_for(hosts: &HostTable, h: u32, operand: &Value) -> Option<HostAnswer>
    ensures { result ≡ answer_for (host_at (specs_of hosts.now.names) h) (value_of operand.now) }
{
    match operand {
        Value::Scalar(scalar) => answer_to(hosts, h, scalar),
        Value::Row(_) => None,
        Value::Rel(_) => None,
        Value::Delta(_) => None,
    }
}

/// What the host of this number answers for a scalar, likewise.
fn answer_to(hosts: &HostTable, h: u32, scalar: &Scalar) -> Option<HostAnswer>
    ensures { result ≡ answer_to (host_at (specs_of hosts.now.names) h) scalar.now }
{
    if h >= hosts.len() {
        return None;
    }
    if !is_kind(hosts.param(h), scalar) {
        return None;
    }
    Some(hosts.call(h, scalar))
}

/// The answer as a value. It takes no memory.
pub(super) fn datum_of(answer: HostAnswer) -> Datum
    ensures { plain_of result ≡ answer_value answer }
{
    match answer {
        HostAnswer::Int(v) => Datum::Int(v),
        HostAnswer::Bool(b) => Datum::Bool(b),
    }
}
