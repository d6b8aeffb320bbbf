//! Calls in expressions.

ghost use Rattle.hera_host.specs.Tables.{host_named};
ghost use Rattle.hera_rules.specs.Agrees.{Gives, typing_of, typings_of};
ghost use Rattle.hera_rules.specs.Environments.{env_of};
ghost use Rattle.hera_rules.specs.Read.{word_of};
ghost use Rattle.hera_rules.specs.Rules.{call_row, host_row, kind_types, params_of, types_of};
ghost use Rattle.hera_rules.specs.Same.{same_shapes};
ghost use Rattle.std.specs.Prelude.{[], ◌∷◌, ◌≡◌};

use hera_meaning::{Core, Schema, Shape};
use hera_rules::{Local, TypeFault, Typed};
use hera_syntax::Token;
use hera_types_parts::{GlobalNames, cores, name_bytes, same_shape, type_of_kind};
use std::alloc::Global;

/// Whether the values have the types of the parameters.
pub fn take_params(params: &[Local], values: &[Typed]) -> bool
    ensures { result ≡ same_shapes (params_of params.now) (types_of (typings_of values.now)) }
{
    if params.len() != values.len() {
        return false;
    }
    for i in 0..params.len() {
        if !same_shape(&params[i].shape, &values[i].shape) {
            return false;
        }
    }
    true
}

/// Whether the values have the types of the schema's kinds.
pub fn take_kinds(schema: &Schema, values: &[Typed]) -> bool
    ensures { result ≡ same_shapes (kind_types schema.now) (types_of (typings_of values.now)) }
{
    if schema.len() != values.len() {
        return false;
    }
    for i in 0..values.len() {
        if !same_shape(&type_of_kind(schema.attr(i).kind), &values[i].shape) {
            return false;
        }
    }
    true
}

/// A call in an expression: the func of that name, else a host where no global has it; exactly its types.
#[tactic(auto, using(hera_meaning::proofs::PlainLaws::plain))]
pub fn check_call(
    alloc: Global,
    globals: &GlobalNames,
    token: &Token,
    values: Vec<Typed>,
) -> Result<Typed, TypeFault>
    ensures { Gives typing_of result (call_row (env_of globals.now) (word_of token.now) (typings_of values.items)) }
{
    let name = name_bytes(token);
    if let Some(func) = globals.func(name) {
        if !take_params(func.params.items(), &values) {
            return Err(TypeFault::Mismatch { at: token.at });
        }
        let args = cores(alloc, values)?;
        let shape = func.result.copy()?;
        return Ok(Typed {
            shape,
            core: Core::Call(func.number, args),
        });
    }
    if globals.has(name) {
        return Err(TypeFault::Mismatch { at: token.at });
    }
    check_host(alloc, globals, token, values)
}

/// A call of a host.
#[tactic(auto, using(hera_meaning::proofs::PlainLaws::plain))]
fn check_host(
    alloc: Global,
    globals: &GlobalNames,
    token: &Token,
    values: Vec<Typed>,
) -> Result<Typed, TypeFault>
    ensures { Gives typing_of result (host_row (env_of globals.now) (word_of token.now) (typings_of values.items) (host_named (word_of token.now).name globals.now.hosts.now)) }
{
    let hosts = globals.hosts();
    let Some(host) = hosts.find(name_bytes(token)) else {
        return Err(TypeFault::Unknown { at: token.at });
    };
    if !takes_one(&type_of_kind(hosts.param(host)), &values) {
        return Err(TypeFault::Mismatch { at: token.at });
    }
    let args = cores(alloc, values)?;
    Ok(Typed {
        shape: type_of_kind(hosts.result(host)),
        core: Core::Host(host, args),
    })
}

/// Whether there is one value, of this type.
fn takes_one(shape: &Shape, values: &[Typed]) -> bool
    ensures { result ≡ same_shapes (shape.now ∷ []) (types_of (typings_of values.now)) }
{
    match values {
        [value] => same_shape(shape, &value.shape),
        _ => false,
    }
}
