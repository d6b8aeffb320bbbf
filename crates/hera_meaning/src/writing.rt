//! Printed words, numbers and quoted texts, put behind the bytes of a buffer.
ghost use Rattle.std.specs.Prelude.{◌≡◌, ◌++◌, OnOk, codes};
ghost use Rattle.hera_meaning.specs.Printed.{number_text, int_text, bool_text, quoted, quoted_byte};

use std::alloc::AllocError;

/// Puts the bytes as they are.
pub fn put(out: &mut Vec<u8>, text: &[u8]) -> Result<(), AllocError>
    ensures { OnOk result (out.new.items ≡ out.old.items ++ text.now) }
{
    out.extend_from_slice(text)
}

/// Puts the number's decimal digits.
pub fn put_number(out: &mut Vec<u8>, n: u128) -> Result<(), AllocError>
    ensures { OnOk result (out.new.items ≡ out.old.items ++ number_text n) }
{
    let digits = format!(in *out.allocator(); "{n}")?;
    put(out, digits.as_bytes())
}

/// Puts the int's decimal digits, with `-` in front of those of a negative one.
pub fn put_int(out: &mut Vec<u8>, v: i64) -> Result<(), AllocError>
    ensures { OnOk result (out.new.items ≡ out.old.items ++ int_text v) }
{
    let digits = format!(in *out.allocator(); "{v}")?;
    put(out, digits.as_bytes())
}

/// Puts `true` or `false`.
pub fn put_bool(out: &mut Vec<u8>, b: bool) -> Result<(), AllocError>
    ensures { OnOk result (out.new.items ≡ out.old.items ++ bool_text b) }
{
    if b {
        put(out, b"true")
    } else {
        put(out, b"false")
    }
}

/// Puts a text in quotes, as it stands inside a tuple: `"`, `\`, line feeds and tabs are written with
/// `\` in front.
pub fn put_quoted(out: &mut Vec<u8>, text: &[u8]) -> Result<(), AllocError>
    ensures { OnOk result (out.new.items ≡ out.old.items ++ (codes "\"" ++ quoted text.now ++ codes "\"")) }
{
    put(out, b"\"")?;
    put_quoted_bytes(out, text)?;
    put(out, b"\"")
}

/// Puts the bytes of a text that stands in quotes.
fn put_quoted_bytes(out: &mut Vec<u8>, text: &[u8]) -> Result<(), AllocError>
    ensures { OnOk result (out.new.items ≡ out.old.items ++ quoted text.now) }
{
    for byte in text {
        put_quoted_byte(out, *byte)?;
    }
    Ok(())
}

/// Puts one byte of a text that stands in quotes.
#[tactic(auto, unfolding(crate::specs::Printed::quoted_byte))]
fn put_quoted_byte(out: &mut Vec<u8>, byte: u8) -> Result<(), AllocError>
    ensures { OnOk result (out.new.items ≡ out.old.items ++ quoted_byte byte) }
{
    match byte {
        b'"' => put(out, b"\\\""),
        b'\\' => put(out, b"\\\\"),
        b'\n' => put(out, b"\\n"),
        b'\t' => put(out, b"\\t"),
        _ => put(out, &[byte]),
    }
}
