//! The core trees of programs.
//!
//! A slot of a body holds a local; it is numbered from 0: the parameters, then every declared local and
//! walk variable in text order. A slot that was not set yet holds the int 0. `at` is the byte offset of
//! the place at which a trap is reported.

ghost use Rattle.std.specs.Prelude.{◌≡◌, IfOk};

use crate::scalars::{RelId, Scalar, Sign, Text};
use crate::schemas::{Aggs, Places, RelDecl, Schema};
use std::alloc::AllocError;

/// Why a run is stopped by a trap.
#[derive(Clone, Copy, PartialEq, Eq, Debug)]
pub enum TrapName {
    DivZero,
    Overflow,
    EmptyMin,
    ApplyFail,
    WhenFail,
    ReadFail,
    Assert,
}

/// What a value is, with the schema of its rows.
#[derive(Drop)]
pub enum Shape {
    Int,
    Bool,
    Text,
    Tuple(Schema),
    Rel(Schema),
    Delta,
}

impl Shape {
    /// A copy.
    pub fn copy(&self) -> Result<Shape, AllocError>
        ensures { IfOk result (λ shape. shape ≡ self.now) }
    {
        match self {
            Shape::Int => Ok(Shape::Int),
            Shape::Bool => Ok(Shape::Bool),
            Shape::Text => Ok(Shape::Text),
            Shape::Tuple(schema) => Ok(Shape::Tuple(schema.copy()?)),
            Shape::Rel(schema) => Ok(Shape::Rel(schema.copy()?)),
            Shape::Delta => Ok(Shape::Delta),
        }
    }
}

/// A primitive operation. A schema is that of the operand's rows; a `usize` is the place of a field.
#[derive(Drop)]
pub enum Op {
    Neg,
    Not,
    Add,
    Sub,
    Mul,
    Div,
    Rem,
    Eq,
    Ne,
    Lt,
    Le,
    Gt,
    Ge,
    In,
    Field(Schema, usize),
    MakeRow(Schema),
    MakeRel(u32),
    Project(Schema, Places),
    Union,
    Minus,
    Inter,
    Join(Schema, Schema),
    Group(Schema, Places, Aggs),
    Count,
    Empty,
    Sum(Schema, usize),
    Min(Schema, usize),
    Max(Schema, usize),
    Atom(Sign, RelId),
    Bulk(Sign, RelId),
    Ins(RelId),
    Del(RelId),
    IsFail,
    Smash,
    Merge,
}

impl Op {
    /// A copy.
    pub fn copy(&self) -> Result<Op, AllocError>
        ensures { IfOk result (λ op. op ≡ self.now) }
    {
        match self {
            Op::Neg => Ok(Op::Neg),
            Op::Not => Ok(Op::Not),
            Op::Add => Ok(Op::Add),
            Op::Sub => Ok(Op::Sub),
            Op::Mul => Ok(Op::Mul),
            Op::Div => Ok(Op::Div),
            Op::Rem => Ok(Op::Rem),
            Op::Eq => Ok(Op::Eq),
            Op::Ne => Ok(Op::Ne),
            Op::Lt => Ok(Op::Lt),
            Op::Le => Ok(Op::Le),
            Op::Gt => Ok(Op::Gt),
            Op::Ge => Ok(Op::Ge),
            Op::In => Ok(Op::In),
            Op::Field(schema, i) => Ok(Op::Field(schema.copy()?, *i)),
            Op::MakeRow(schema) => Ok(Op::MakeRow(schema.copy()?)),
            Op::MakeRel(n) => Ok(Op::MakeRel(*n)),
            Op::Project(schema, places) => Ok(Op::Project(schema.copy()?, places.copy()?)),
            Op::Union => Ok(Op::Union),
            Op::Minus => Ok(Op::Minus),
            Op::Inter => Ok(Op::Inter),
            Op::Join(left, right) => Ok(Op::Join(left.copy()?, right.copy()?)),
            Op::Group(schema, by, aggs) => Ok(Op::Group(schema.copy()?, by.copy()?, aggs.copy()?)),
            Op::Count => Ok(Op::Count),
            Op::Empty => Ok(Op::Empty),
            Op::Sum(schema, i) => Ok(Op::Sum(schema.copy()?, *i)),
            Op::Min(schema, i) => Ok(Op::Min(schema.copy()?, *i)),
            Op::Max(schema, i) => Ok(Op::Max(schema.copy()?, *i)),
            Op::Atom(sign, rel) => Ok(Op::Atom(*sign, *rel)),
            Op::Bulk(sign, rel) => Ok(Op::Bulk(*sign, *rel)),
            Op::Ins(rel) => Ok(Op::Ins(*rel)),
            Op::Del(rel) => Ok(Op::Del(*rel)),
            Op::IsFail => Ok(Op::IsFail),
            Op::Smash => Ok(Op::Smash),
            Op::Merge => Ok(Op::Merge),
        }
    }
}

/// A constant.
#[derive(Drop)]
pub enum Const {
    Scalar(Scalar),
    EmptyDelta,
    FailDelta,
}

impl Const {
    /// A copy.
    pub fn copy(&self) -> Result<Const, AllocError>
        ensures { IfOk result (λ constant. constant ≡ self.now) }
    {
        match self {
            Const::Scalar(scalar) => Ok(Const::Scalar(scalar.copy()?)),
            Const::EmptyDelta => Ok(Const::EmptyDelta),
            Const::FailDelta => Ok(Const::FailDelta),
        }
    }
}

/// One step of a chain: the operation of the value before it and of `arg`.
#[cycle(core)]
#[derive(Drop)]
pub struct Link {
    pub op: Op,
    pub arg: Core,
    pub at: u32,
}

/// One delta of a `when`.
#[cycle(core)]
#[derive(Drop)]
pub struct Hypo {
    pub delta: Core,
    pub at: u32,
}

/// An expression.
#[cycle(core)]
#[derive(Drop)]
pub enum Core {
    Const(Const),
    Local(u32),
    Rel(RelId),
    Prim(Op, Vec<Core>, u32),
    Chain(Box<Core>, Vec<Link>),
    And(Vec<Core>),
    Or(Vec<Core>),
    When(Box<Core>, Vec<Hypo>),
    Select(u32, Box<Core>, Box<Core>),
    Map(u32, Box<Core>, Box<Core>),
    Call(u32, Vec<Core>),
    Host(u32, Vec<Core>),
}

/// A condition and the block that runs where it is the first true one.
#[cycle(stmt)]
#[derive(Drop)]
pub struct Arm {
    pub cond: Core,
    pub block: Vec<Stmt>,
}

/// A statement.
#[cycle(stmt)]
#[derive(Drop)]
pub enum Stmt {
    Set(u32, Core),
    If(Vec<Arm>, Vec<Stmt>),
    While(Core, Vec<Stmt>),
    Foreach(u32, Core, Vec<Stmt>),
    Print(Core, Shape),
    Apply(Core, u32),
    /// Where there is a label it is printed behind the commit's line.
    Commit(Option<Text>),
    Rollback,
    Assert(Core, u32),
    Return(Option<Core>),
    Call(u32, Vec<Core>),
}

/// Main, a func or a proc: how many parameters and slots it has, whether it is a func, and its block.
#[derive(Drop)]
pub struct Body {
    pub params: u32,
    pub slots: u32,
    pub func: bool,
    pub block: Vec<Stmt>,
}

/// The declared relations, and the bodies: main, then the funcs and then the procs in text order.
#[derive(Drop)]
pub struct Program {
    pub relations: Vec<RelDecl>,
    pub bodies: Vec<Body>,
}
