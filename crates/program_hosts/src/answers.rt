//! What each of them answers. An argument of another kind counts as 0, or as the empty text.
ghost use Rattle.std.specs.Prelude.{◌≡◌, take};
ghost use Rattle.hera_meaning.specs.Aggregates.{int_of};
ghost use Rattle.hera_meaning.specs.Hosts.{begins_with, host_of, max_int, min_int, text_of_scalar};
ghost use Rattle.program_hosts.specs.Lent.{band_spec, bucket_spec, clamp_spec, is_sku_spec};

use hera_meaning::{HostAnswer, Scalar};
use hera_sets::is_same;

/// Whether an int lies from 0 to 100.
pub fn band(arg: &Scalar) -> HostAnswer
    ensures { result ≡ host_of band_spec arg.now }
{
    let v = int_of(arg);
    HostAnswer::Bool(0 <= v && v <= 100)
}

/// The greatest integer not above the tenth of an int.
#[tactic(auto, using(crate::proofs::Floors::floored))]
pub fn bucket(arg: &Scalar) -> HostAnswer
    ensures { result ≡ host_of bucket_spec arg.now }
{
    HostAnswer::Int(int_of(arg).div_euclid(10))
}

/// Whether a text begins with `SKU-`.
pub fn is_sku(arg: &Scalar) -> HostAnswer
    ensures { result ≡ host_of is_sku_spec arg.now }
{
    HostAnswer::Bool(begins_with(text_of(arg), b"SKU-"))
}

/// An int, or the nearer of 0 and 100 where it lies outside.
pub fn clamp(arg: &Scalar) -> HostAnswer
    ensures { result ≡ host_of clamp_spec arg.now }
{
    HostAnswer::Int(at_most(at_least(int_of(arg), 0), 100))
}

/// The int, 0 of another kind.
fn int_of(arg: &Scalar) -> i64
    ensures { result ≡ int_of arg.now }
{
    match arg {
        Scalar::Int(v) => *v,
        Scalar::Bool(_) => 0,
        Scalar::Text(_) => 0,
    }
}

/// The bytes of the text, none of another kind.
fn text_of(arg: &Scalar) -> &[u8]
    ensures { result.now ≡ text_of_scalar arg.now }
{
    match arg {
        Scalar::Text(text) => text.bytes(),
        Scalar::Int(_) => b"",
        Scalar::Bool(_) => b"",
    }
}

/// The greater of the two.
fn at_least(v: i64, low: i64) -> i64
    ensures { result ≡ max_int v low }
{
    if v <= low { low } else { v }
}

/// The lesser of the two.
fn at_most(v: i64, high: i64) -> i64
    ensures { result ≡ min_int v high }
{
    if v <= high { v } else { high }
}

/// Whether the bytes begin with these.
fn begins_with(bytes: &[u8], front: &[u8]) -> bool
    ensures { result ≡ begins_with front.now bytes.now }
{
    is_same(first_bytes(bytes, front.len()), front)
}

/// So many of the bytes from the first, all of them where there are fewer.
fn first_bytes(bytes: &[u8], count: usize) -> &[u8]
    ensures { result.now ≡ take count bytes.now }
{
    if bytes.len() <= count {
        bytes
    } else {
        &bytes[..count]
    }
}
