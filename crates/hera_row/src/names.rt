//! The shape of identifiers.
ghost use Rattle.std.specs.Prelude.{◌≡◌, ◌↔◌, IsTrue, slice_get, All};
ghost use Rattle.std.specs.List.{list_all};
ghost use Rattle.std.specs.Str.{chars};
ghost use Rattle.unicode_ident.specs.Ident.{is_xid_continue};
ghost use Rattle.hera_meaning.specs.Schemas.{names_of};
ghost use Rattle.hera_meaning.specs.Identifiers.{IsIdentifier, begins_word, is_word};

use hera_meaning::{NAME_LIMIT, Schema};

/// Whether the bytes have an identifier's shape: UTF-8 of at most 255 bytes, a character with
/// XID_Start or `_`, and then characters with XID_Continue. A keyword has this shape too.
pub fn is_name(bytes: &[u8]) -> bool
    ensures { IsTrue result ↔ IsIdentifier bytes.now }
{
    if bytes.len() > NAME_LIMIT {
        return false;
    }
    match std::str::from_utf8(bytes) {
        Ok(text) => is_word(text),
        Err(_) => false,
    }
}

/// Whether the name of every attribute has an identifier's shape.
pub fn has_names(schema: &Schema) -> bool
    ensures { IsTrue result ↔ All IsIdentifier (names_of schema.now) }
{
    for i in 0..schema.len() {
        if !is_name(schema.attr(i).name.bytes()) {
            return false;
        }
    }
    true
}

/// Whether the characters are those of a word.
fn is_word(text: &str) -> bool
    ensures { result ≡ is_word (chars text.now) }
{
    match first_char(text) {
        Some(first) => begins_word(first) && all_continue(text),
        None => false,
    }
}

/// The first character of the text.
fn first_char(text: &str) -> Option<char>
    ensures { result ≡ slice_get (chars text.now) 0 }
{
    text.chars().next()
}

/// Whether a word may begin with the character.
fn begins_word(c: char) -> bool
    ensures { result ≡ begins_word c }
{
    c == '_' || unicode_ident::is_xid_start(c)
}

/// Whether all characters have XID_Continue.
fn all_continue(text: &str) -> bool
    ensures { result ≡ list_all is_xid_continue (chars text.now) }
{
    text.chars().all(|c| unicode_ident::is_xid_continue(c))
}
