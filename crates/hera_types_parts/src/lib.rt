//! What the checks of the rules of typing are made of: what tokens say, what names mean, tests of types, and
//! lists of attributes and cores.
#![tactic(auto)]

mod attributes;
mod global_names;
mod lists;
mod local_names;
mod name_sets;
mod names;
mod operations;
mod same;
mod tokens;

pub use attributes::{add_attrs, kind_named, made, place_named_or, places_of, stranger_of};
pub use global_names::GlobalNames;
pub use lists::{binary, boxed, cores, into_core, number_of, put, unary};
pub use local_names::LocalNames;
pub use name_sets::{NameSet, add_new, distinct_names};
pub use names::{check_name, has_name, type_of_kind};
pub use operations::{Operation, on_one, on_two};
pub use same::{kind_of_place, place_of_name, same_kind, same_kinds, same_schema, same_shape};
pub use tokens::{
    aggregates, fold_word, kind_token, level_joint, measured, name_bytes, name_copy, pair_word,
    part_word, prefix_word, renamed, renamings, sign_word, test_word, text_copy, walk_word, word,
    words,
};
