//! Classes of characters.
ghost use Rattle.std.specs.Prelude.{◌≡◌, ◌≤◌, ◌^◌, ◌<◌, ◌+◌, length, take, drop};
ghost use Rattle.jn_lexer.specs.Characters.{is_line_end, is_in_line, is_white, is_digit, is_digit_or_low, is_start, is_part, width};

#[tactic(auto, unfolding(crate::specs::Characters::is_line_end))]
pub fn is_line_end(c: char) -> bool
    ensures { result ≡ is_line_end c }
{
    c == '\n' || c == '\r'
}

#[tactic(auto, unfolding(crate::specs::Characters::is_in_line))]
pub fn is_in_line(c: char) -> bool
    ensures { result ≡ is_in_line c }
{
    !is_line_end(c)
}

#[tactic(auto, unfolding(crate::specs::Characters::is_white))]
pub fn is_white(c: char) -> bool
    ensures { result ≡ is_white c }
{
    c == ' ' || c == '\t' || c == '\u{c}' || is_line_end(c)
}

#[tactic(auto, unfolding(crate::specs::Characters::is_digit))]
pub fn is_digit(c: char) -> bool
    ensures { result ≡ is_digit c }
{
    c >= '0' && c <= '9'
}

#[tactic(auto, unfolding(crate::specs::Characters::is_digit_or_low))]
pub fn is_digit_or_low(c: char) -> bool
    ensures { result ≡ is_digit_or_low c }
{
    is_digit(c) || c == '_'
}

#[tactic(auto, using(crate::proofs::Classes::start_ascii), unfolding(crate::specs::Characters::is_start))]
pub fn is_start(c: char) -> bool
    ensures { result ≡ is_start c }
{
    if c.is_ascii() {
        return c.is_ascii_alphabetic() | (c == '_') | (c == '$');
    }
    unicode_ident::is_xid_start(c)
}

#[tactic(auto, using(crate::proofs::Classes::letter_part, crate::proofs::Classes::part_otherwise), unfolding(crate::specs::Characters::is_part))]
pub fn is_part(c: char) -> bool
    ensures { result ≡ is_part c }
{
    if c.is_ascii_alphabetic() {
        return true;
    }
    if c.is_ascii() {
        return c.is_ascii_digit() || c == '_' || c == '$';
    }
    unicode_ident::is_xid_continue(c)
}

/// How many bytes the characters are in UTF-8.
pub fn width(text: &[char]) -> usize
    requires { width text.now < 2 ^ 32 }
    ensures { result ≡ width text.now }
{
    let mut bytes = 0;
    for c in text {
        bytes += c.len_utf8();
    }
    bytes
}

/// How many bytes the first `count` characters of a text are in UTF-8, where the whole text has so many `bytes`.
///
/// A text that has no more bytes than characters has one byte for each, so its characters aren't read.
pub fn front_width(text: &[char], count: usize, bytes: usize) -> usize
    requires within { count ≤ length text.now }
    requires whole { bytes ≡ width text.now }
    requires fits { bytes < 2 ^ 32 }
    ensures value { result ≡ width (take count text.now) }
    ensures rest { result + width (drop count text.now) ≡ bytes }
{
    if bytes == text.len() {
        count
    } else {
        width(&text[..count])
    }
}
