//! Where the first token of a text begins.
ghost use Rattle.std.specs.Prelude.{◌≡◌, ◌≤◌, length};
ghost use Rattle.jn_lsp.specs.Front as spec;
ghost use Rattle.jn_lsp.specs.declared.front.Gap.TheVariants.{Blank};

use jn_base::place::is_line_end;
use jn_lsp_text::{Encoding, Range, SmallText, range_of};

/// How a text goes on (JLS 8, 3.6 and 3.7).
#[derive(Clone, Copy, Debug, PartialEq, Eq)]
pub enum Gap {
    /// Outside of comments.
    Blank,
    /// Behind a slash, which may begin a comment.
    Slash,
    /// Within a comment to the line's end.
    Line,
    /// Within a comment of the other kind.
    Block,
    /// Behind a star within such a comment.
    Star,
    /// At a token, or behind one.
    Token,
}

fn is_white(byte: u8) -> bool
    ensures { result ≡ spec.is_white byte }
{
    byte == b' ' || byte == b'\t' || byte == 12 || is_line_end(byte)
}

/// What a byte is in a text that goes on so.
fn led(gap: Gap, byte: u8) -> Gap
    ensures { result ≡ spec.led gap byte }
{
    match gap {
        Gap::Blank => {
            if is_white(byte) {
                Gap::Blank
            } else if byte == b'/' {
                Gap::Slash
            } else {
                Gap::Token
            }
        }
        Gap::Slash => {
            if byte == b'/' {
                Gap::Line
            } else if byte == b'*' {
                Gap::Block
            } else {
                Gap::Token
            }
        }
        Gap::Line => {
            if is_line_end(byte) {
                Gap::Blank
            } else {
                Gap::Line
            }
        }
        Gap::Block => { if byte == b'*' { Gap::Star } else { Gap::Block } }
        Gap::Star => {
            if byte == b'/' {
                Gap::Blank
            } else if byte == b'*' {
                Gap::Star
            } else {
                Gap::Block
            }
        }
        Gap::Token => Gap::Token,
    }
}

fn is_token(gap: Gap) -> bool
    ensures { result ≡ spec.is_token gap }
{
    match gap {
        Gap::Token => true,
        _ => false,
    }
}

/// How many bytes stand before the first token; all where there is none.
fn before_token(text: &[u8]) -> usize
    ensures is { result ≡ spec.before_token Blank text.now }
    ensures within { result ≤ length text.now }
{
    let mut gap = Gap::Blank;
    for (at, byte) in text.iter().enumerate() {
        gap = led(gap, *byte);
        if is_token(gap) {
            return at;
        }
    }
    text.len()
}

/// The place of a text's first token, or of its end.
pub(crate) fn front(encoding: Encoding, text: &SmallText) -> Range
    ensures { result ≡ spec.front encoding text.now }
{
    let text = text.bytes();
    let at = before_token(text) as u32;
    range_of(encoding, text, at, at)
}
