//! What the tokens of a tree say.

ghost use Rattle.hera_rules.specs.Read.{aggregate_of, aggregates_of, fold_of, joint_at, joint_of, kind_word, measured_of, name_of, pair_of, part_of, prefix_of, renamed_all, renamed_of, sign_of, test_of, text_of, walk_of, word_of, words_of};
ghost use Rattle.std.specs.Prelude.{IfErr, IfOk, ◌≡◌};
ghost use Rattle.hera_rules.specs.declared.fault.TypeFault.TheVariants as fault;

use crate::lists::put;
use hera_meaning::{Kind, Name, Op, Sign, Text};
use hera_rules::{
    Aggregate, Fold, Joint, Measured, Pair, Prefix, Renamed, Test, TypeFault, WalkKind, Word,
};
use hera_syntax::{
    AggTree, Keyword, Level, Mark, NamedAgg, NamedAggs, Names, Renaming, Renamings, Token,
    TokenKind,
};
use std::alloc::Global;

/// The name of an identifier; no name of any other token.
pub fn name_bytes(token: &Token) -> &[u8]
    ensures { result.now ≡ name_of token.now.kind }
{
    match &token.kind {
        TokenKind::Ident(name) => name.bytes(),
        _ => &[],
    }
}

/// A copy of the name of an identifier.
pub fn name_copy(alloc: Global, token: &Token) -> Result<Name, TypeFault>
    ensures name { IfOk result (λ name. name ≡ name_of token.now.kind) }
    ensures refused { IfErr result (λ f. f ≡ fault.Memory) }
{
    match &token.kind {
        TokenKind::Ident(name) => Ok(name.copy()?),
        _ => match Text::new(alloc, &[]) {
            Ok(text) => Ok(text),
            Err(_) => Err(TypeFault::Memory),
        },
    }
}

/// A copy of the value of a text literal; the empty text of any other token.
pub fn text_copy(alloc: Global, token: &Token) -> Result<Text, TypeFault>
    ensures text { IfOk result (λ text. text ≡ text_of token.now.kind) }
    ensures refused { IfErr result (λ f. f ≡ fault.Memory) }
{
    match &token.kind {
        TokenKind::Text(text) => Ok(text.copy()?),
        _ => match Text::new(alloc, &[]) {
            Ok(text) => Ok(text),
            Err(_) => Err(TypeFault::Memory),
        },
    }
}

/// The name of a token with its place.
pub fn word(alloc: Global, token: &Token) -> Result<Word, TypeFault>
    ensures word { IfOk result (λ w. w ≡ word_of token.now) }
    ensures refused { IfErr result (λ f. f ≡ fault.Memory) }
{
    let name = name_copy(alloc, token)?;
    Ok(Word { name, at: token.at })
}

/// A list of names.
pub fn words(alloc: Global, names: &Names) -> Result<Vec<Word>, TypeFault>
    ensures words { IfOk result (λ all. all.items ≡ words_of names.now) }
    ensures refused { IfErr result (λ f. f ≡ fault.Memory) }
{
    let mut all = Vec::new(alloc);
    put(&mut all, word(alloc, &names.first)?)?;
    for token in &names.rest {
        put(&mut all, word(alloc, token)?)?;
    }
    Ok(all)
}

/// A new name and the old one.
pub fn renamed(alloc: Global, renaming: &Renaming) -> Result<Renamed, TypeFault>
    ensures renamed { IfOk result (λ r. r ≡ renamed_of renaming.now) }
    ensures refused { IfErr result (λ f. f ≡ fault.Memory) }
{
    let new = word(alloc, &renaming.new)?;
    let old = word(alloc, &renaming.old)?;
    Ok(Renamed { new, old })
}

/// The names of a `rename`.
pub fn renamings(alloc: Global, all_names: &Renamings) -> Result<Vec<Renamed>, TypeFault>
    ensures renamed { IfOk result (λ all. all.items ≡ renamed_all all_names.now) }
    ensures refused { IfErr result (λ f. f ≡ fault.Memory) }
{
    let mut all = Vec::new(alloc);
    put(&mut all, renamed(alloc, &all_names.first)?)?;
    for renaming in &all_names.rest {
        put(&mut all, renamed(alloc, renaming)?)?;
    }
    Ok(all)
}

/// What an aggregate computes.
pub fn measured(alloc: Global, tree: &AggTree) -> Result<Measured, TypeFault>
    ensures measured { IfOk result (λ m. m ≡ measured_of tree.now) }
    ensures refused { IfErr result (λ f. f ≡ fault.Memory) }
{
    match tree {
        AggTree::Count(_) => Ok(Measured::Count),
        AggTree::Of {
            word: keyword,
            name,
            ..
        } => {
            let over = word(alloc, name)?;
            Ok(Measured::Of(fold_word(keyword), over))
        }
    }
}

/// An aggregate with its name.
fn aggregate(alloc: Global, tree: &NamedAgg) -> Result<Aggregate, TypeFault>
    ensures aggregate { IfOk result (λ a. a ≡ aggregate_of tree.now) }
    ensures refused { IfErr result (λ f. f ≡ fault.Memory) }
{
    let name = word(alloc, &tree.name)?;
    let of = measured(alloc, &tree.agg)?;
    Ok(Aggregate { name, of })
}

/// The aggregates of a `group`.
pub fn aggregates(alloc: Global, trees: &NamedAggs) -> Result<Vec<Aggregate>, TypeFault>
    ensures aggregates { IfOk result (λ all. all.items ≡ aggregates_of trees.now) }
    ensures refused { IfErr result (λ f. f ≡ fault.Memory) }
{
    let mut all = Vec::new(alloc);
    put(&mut all, aggregate(alloc, &trees.first)?)?;
    for tree in &trees.rest {
        put(&mut all, aggregate(alloc, tree)?)?;
    }
    Ok(all)
}

/// The operator of a link of a chain of this level.
pub fn level_joint(level: Level, token: &Token) -> Joint
    ensures { result ≡ joint_at level token.now.kind }
{
    match level {
        Level::Whens => Joint::When,
        Level::Ors => Joint::Or,
        Level::Ands => Joint::And,
        Level::Comparisons | Level::Sums | Level::Terms | Level::Smashes | Level::Merges => {
            joint_word(token)
        }
    }
}

/// The operator of a chain's link: a punctuation, or the keyword `in`.
fn joint_word(token: &Token) -> Joint
    ensures { result ≡ joint_of token.now.kind }
{
    match &token.kind {
        TokenKind::Punct(Mark::EqualEqual) => Joint::Equality(Op::Eq),
        TokenKind::Punct(Mark::NotEqual) => Joint::Equality(Op::Ne),
        TokenKind::Punct(Mark::Less) => Joint::Order(Op::Lt),
        TokenKind::Punct(Mark::LessEqual) => Joint::Order(Op::Le),
        TokenKind::Punct(Mark::Greater) => Joint::Order(Op::Gt),
        TokenKind::Punct(Mark::GreaterEqual) => Joint::Order(Op::Ge),
        TokenKind::Punct(Mark::Plus) => Joint::Arithmetic(Op::Add),
        TokenKind::Punct(Mark::Minus) => Joint::Arithmetic(Op::Sub),
        TokenKind::Punct(Mark::Star) => Joint::Arithmetic(Op::Mul),
        TokenKind::Punct(Mark::Slash) => Joint::Arithmetic(Op::Div),
        TokenKind::Punct(Mark::Percent) => Joint::Arithmetic(Op::Rem),
        TokenKind::Punct(Mark::Bang) => Joint::Deltas(Op::Smash),
        TokenKind::Punct(_) => Joint::Deltas(Op::Merge),
        _ => Joint::Member,
    }
}

/// `-` or `!` before an operand.
pub fn prefix_word(token: &Token) -> Prefix
    ensures { result ≡ prefix_of token.now.kind }
{
    match &token.kind {
        TokenKind::Punct(Mark::Minus) => Prefix::Minus,
        _ => Prefix::Not,
    }
}

/// `+` or `-` of an atom.
pub fn sign_word(token: &Token) -> Sign
    ensures { result ≡ sign_of token.now.kind }
{
    match &token.kind {
        TokenKind::Punct(Mark::Plus) => Sign::Plus,
        _ => Sign::Minus,
    }
}

/// `ins` or `del`.
pub fn part_word(token: &Token) -> Sign
    ensures { result ≡ part_of token.now.kind }
{
    match &token.kind {
        TokenKind::Key(Keyword::Ins) => Sign::Plus,
        _ => Sign::Minus,
    }
}

/// `select` or `map`.
pub fn walk_word(token: &Token) -> WalkKind
    ensures { result ≡ walk_of token.now.kind }
{
    match &token.kind {
        TokenKind::Key(Keyword::Select) => WalkKind::Keeping,
        _ => WalkKind::Mapping,
    }
}

/// `union`, `minus`, `inter` or `join`.
pub fn pair_word(token: &Token) -> Pair
    ensures { result ≡ pair_of token.now.kind }
{
    match &token.kind {
        TokenKind::Key(Keyword::Union) => Pair::Sets(Op::Union),
        TokenKind::Key(Keyword::Minus) => Pair::Sets(Op::Minus),
        TokenKind::Key(Keyword::Inter) => Pair::Sets(Op::Inter),
        _ => Pair::Join,
    }
}

/// `count`, `empty` or `isfail`.
pub fn test_word(token: &Token) -> Test
    ensures { result ≡ test_of token.now.kind }
{
    match &token.kind {
        TokenKind::Key(Keyword::Count) => Test::Count,
        TokenKind::Key(Keyword::Empty) => Test::Empty,
        _ => Test::IsFail,
    }
}

/// `sum`, `min` or `max`.
pub fn fold_word(token: &Token) -> Fold
    ensures { result ≡ fold_of token.now.kind }
{
    match &token.kind {
        TokenKind::Key(Keyword::Sum) => Fold::Sum,
        TokenKind::Key(Keyword::Min) => Fold::Least,
        _ => Fold::Greatest,
    }
}

/// `int`, `bool` or `text`.
pub fn kind_token(token: &Token) -> Kind
    ensures { result ≡ kind_word token.now.kind }
{
    match &token.kind {
        TokenKind::Key(Keyword::Int) => Kind::Int,
        TokenKind::Key(Keyword::Bool) => Kind::Bool,
        _ => Kind::Text,
    }
}
