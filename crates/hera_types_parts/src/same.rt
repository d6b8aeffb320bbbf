//! Tests of types and schemas.

ghost use Rattle.hera_meaning.specs.Forms.{kind_at, kinds_of};
ghost use Rattle.hera_meaning.specs.Scalars.{is_same_kind};
ghost use Rattle.hera_meaning.specs.Schemas.{place_named};
ghost use Rattle.std.specs.Prelude.{IfSome, length, ◌<◌, ◌≡◌};
ghost use Rattle.hera_rules.specs.Same as same;

use hera_meaning::{Kind, Schema, Shape};

/// Whether both kinds are the same.
pub fn same_kind(left: Kind, right: Kind) -> bool
    ensures { result ≡ is_same_kind left right }
{
    match left {
        Kind::Int => match right {
            Kind::Int => true,
            _ => false,
        },
        Kind::Bool => match right {
            Kind::Bool => true,
            _ => false,
        },
        Kind::Text => match right {
            Kind::Text => true,
            _ => false,
        },
    }
}

/// The kind of the attribute at a place.
pub fn kind_of_place(schema: &Schema, place: usize) -> Kind
    requires { place < length schema.now }
    ensures { result ≡ kind_at schema.now place }
{
    schema.attr(place).kind
}

/// The place of the attribute of a name.
pub fn place_of_name(schema: &Schema, name: &[u8]) -> Option<usize>
    ensures place { result ≡ place_named name.now schema.now }
    ensures within { IfSome result (λ i. i < length schema.now) }
{
    schema.position(name)
}

/// Whether both schemas have the same names and kinds in the same order.
pub fn same_schema(left: &Schema, right: &Schema) -> bool
    ensures { result ≡ same.same_schema left.now right.now }
{
    left.same(right)
}

/// Whether both types are the same, with the names of attributes.
pub fn same_shape(left: &Shape, right: &Shape) -> bool
    ensures { result ≡ same.same_shape left.now right.now }
{
    match left {
        Shape::Int => match right {
            Shape::Int => true,
            _ => false,
        },
        Shape::Bool => match right {
            Shape::Bool => true,
            _ => false,
        },
        Shape::Text => match right {
            Shape::Text => true,
            _ => false,
        },
        Shape::Delta => match right {
            Shape::Delta => true,
            _ => false,
        },
        Shape::Tuple(own) => match right {
            Shape::Tuple(other) => same_schema(own, other),
            _ => false,
        },
        Shape::Rel(own) => match right {
            Shape::Rel(other) => same_schema(own, other),
            _ => false,
        },
    }
}

/// Whether both schemas have the same kinds in the same order.
pub fn same_kinds(left: &Schema, right: &Schema) -> bool
    ensures { result ≡ same.same_kinds (kinds_of left.now) (kinds_of right.now) }
{
    if left.len() != right.len() {
        return false;
    }
    for i in 0..left.len() {
        if !same_kind(left.attr(i).kind, right.attr(i).kind) {
            return false;
        }
    }
    true
}
