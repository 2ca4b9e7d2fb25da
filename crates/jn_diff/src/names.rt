//! Names of files as a diff has them, so that git reads them back.
ghost use Rattle.std.specs.Prelude.{◌≡◌, ◌++◌, ◌∷◌, true, IfOk};
ghost use Rattle.std.specs.List.{flat_map, list_any};
ghost use Rattle.jn_diff.specs.Names as spec;

use std::alloc::{AllocError, Global};

/// Whether a part of a name ends here.
fn ends_part(rest: &[u8]) -> bool
    ensures { result ≡ spec.ends_part rest.now }
{
    match rest {
        [] => true,
        [byte, ..] => *byte == b'/',
    }
}

/// Whether the byte is all of a part `.`, or the slash after a part that is left out.
fn is_left_out(fresh: bool, byte: u8, rest: &[u8]) -> bool
    ensures { result ≡ spec.is_left_out fresh byte rest.now }
{
    fresh && (byte == b'/' || byte == b'.' && ends_part(rest))
}

/// Puts the byte, unless it is left out, and gives whether a part begins after it.
fn put_trimmed(text: &mut Vec<u8>, fresh: bool, byte: u8, rest: &[u8]) -> Result<bool, AllocError>
    ensures { IfOk result (λ f. text.new.items ++ spec.trimmed f rest.now
        ≡ text.old.items ++ spec.trimmed fresh (byte ∷ rest.now)) }
{
    if is_left_out(fresh, byte, rest) {
        return Ok(fresh);
    }
    text.push(byte)?;
    Ok(byte == b'/')
}

/// Puts the name without empty parts and parts `.`.
fn put_name(text: &mut Vec<u8>, name: &[u8]) -> Result<(), AllocError>
    ensures { IfOk result (λ u. text.new.items ≡ text.old.items ++ spec.trimmed true name.now) }
{
    let mut fresh = true;
    let mut rest = name;
    while let [byte, more @ ..] = rest {
        fresh = put_trimmed(text, fresh, *byte, more)?;
        rest = more;
    }
    Ok(())
}

fn is_escaped(byte: u8) -> bool
    ensures { result ≡ spec.is_escaped byte }
{
    byte == b'\t' || byte == b'\n' || byte == b'\r' || byte == b'"' || byte == b'\\'
}

/// Whether the name stands in quotes.
fn has_escaped(name: &[u8]) -> bool
    ensures { result ≡ list_any spec.is_escaped name.now }
{
    name.iter().any(|byte| is_escaped(*byte))
}

/// Puts a byte as it stands in quotes.
fn put_escape(text: &mut Vec<u8>, byte: u8) -> Result<(), AllocError>
    ensures { IfOk result (λ u. text.new.items ≡ text.old.items ++ spec.escape byte) }
{
    if byte == b'\t' {
        return text.extend_from_slice(b"\\t");
    }
    if byte == b'\n' {
        return text.extend_from_slice(b"\\n");
    }
    if byte == b'\r' {
        return text.extend_from_slice(b"\\r");
    }
    if is_escaped(byte) {
        return text.extend_from_slice(&[b'\\', byte]);
    }
    text.extend_from_slice(&[byte])
}

fn put_escapes(text: &mut Vec<u8>, name: &[u8]) -> Result<(), AllocError>
    ensures { IfOk result (λ u. text.new.items
        ≡ text.old.items ++ flat_map spec.escape name.now) }
{
    for byte in name {
        put_escape(text, *byte)?;
    }
    Ok(())
}

/// Puts the name, in quotes where a byte of it would break the line or its quotes.
fn put_quoted(text: &mut Vec<u8>, name: &[u8]) -> Result<(), AllocError>
    ensures { IfOk result (λ u. text.new.items ≡ text.old.items ++ spec.quoted name.now) }
{
    if !has_escaped(name) {
        return text.extend_from_slice(name);
    }
    text.extend_from_slice(b"\"")?;
    put_escapes(text, name)?;
    text.extend_from_slice(b"\"")
}

/// Puts the name as it stands on one side of a diff.
pub(crate) fn put_side(
    alloc: Global,
    text: &mut Vec<u8>,
    side: &[u8],
    name: &str,
) -> Result<(), AllocError>
    ensures { IfOk result
        (λ u. text.new.items ≡ text.old.items ++ spec.side_name side.now name.now) }
{
    let mut whole = Vec::from_slice(alloc, side)?;
    put_name(&mut whole, name.as_bytes())?;
    put_quoted(text, &whole)
}
