//! Characters of a line as they are shown, and the columns below them.
ghost use Rattle.std.specs.Prelude.{◌≡◌, ◌++◌, chars, IfOk, OnOk};
ghost use Rattle.std.specs.List.{flat_map};
ghost use Rattle.jn_reporters.specs.Longs as spec;

use std::alloc::{AllocError, Global};

/// What is put for a character.
#[derive(Clone, Copy, Debug, PartialEq, Eq)]
pub enum Look {
    /// The character: a tab as four spaces, and a question mark for what is no mark on paper.
    Itself,
    /// Spaces below it.
    Blank,
    /// Marks below it.
    Mark,
}

/// Whether the character turns the direction of a line (Unicode Standard Annex 9).
fn is_turning(c: char) -> bool
    ensures { result ≡ spec.is_turning c }
{
    ('\u{202A}' <= c && c <= '\u{202E}') || ('\u{2066}' <= c && c <= '\u{2069}')
}

fn put_itself(out: &mut Vec<u8>, c: char) -> Result<(), AllocError>
    ensures { OnOk result (out.new.items ≡ out.old.items ++ spec.shown_char c) }
{
    if c == '\t' {
        return out.extend_from_slice(b"    ");
    }
    if c.is_control() || is_turning(c) {
        return out.extend_from_slice(b"?");
    }
    let mut bytes = [0; 4];
    out.extend_from_slice(c.encode_utf8(&mut bytes).as_bytes())
}

fn put_char(out: &mut Vec<u8>, look: Look, c: char) -> Result<(), AllocError>
    ensures { OnOk result (out.new.items ≡ out.old.items ++ spec.look_char look c) }
{
    match look {
        Look::Itself => put_itself(out, c),
        Look::Blank if c == '\t' => out.extend_from_slice(b"    "),
        Look::Blank => out.extend_from_slice(b" "),
        Look::Mark if c == '\t' => out.extend_from_slice(b"^^^^"),
        Look::Mark => out.extend_from_slice(b"^"),
    }
}

/// The characters of a text.
fn decoded(alloc: Global, text: &str) -> Result<Vec<char>, AllocError>
    ensures { IfOk result (λ cs. cs.items ≡ chars text.now) }
{
    text.chars().collect(alloc)
}

/// The characters of a text, where bytes that begin none stand for U+FFFD.
fn characters_of(alloc: Global, text: &[u8]) -> Result<Vec<char>, AllocError>
    ensures { IfOk result (λ cs. cs.items ≡ spec.characters_of text.now) }
{
    let text = String::from_utf8_lossy(alloc, text)?;
    decoded(alloc, text.as_str())
}

/// Puts the characters of the text, or what stands below them.
pub fn put_looked(
    out: &mut Vec<u8>,
    alloc: Global,
    look: Look,
    text: &[u8],
) -> Result<(), AllocError>
    ensures { OnOk result (out.new.items ≡ out.old.items ++ spec.looked look text.now) }
{
    let characters = characters_of(alloc, text)?;
    put_all(out, look, &characters)
}

fn put_all(out: &mut Vec<u8>, look: Look, characters: &[char]) -> Result<(), AllocError>
    ensures { OnOk result
        (out.new.items ≡ out.old.items ++ flat_map (spec.look_char look) characters.now) }
{
    for c in characters {
        put_char(out, look, *c)?;
    }
    Ok(())
}
