//! Headers.
ghost use Rattle.std.specs.Prelude.{◌≡◌, ◌<◌, ◌≤◌, ◌∷◌, ◌++◌, ◌==◌, ◌&&◌, true, [], List, ℕ, length, take, nat_le, IfSome, IfNone};
ghost use Rattle.std.specs.List.{list_all, prefix_len, position};
ghost use Rattle.std.specs.Char.{is_ascii_digit};
ghost use Rattle.std.specs.Str.Parse.{digits_value};
ghost use Rattle.jn_lsp_frames.specs.Header as spec;
ghost use Rattle.jn_lsp_frames.specs.Header.{IsHeader, IsBlock, HasNoBlock, Says};
ghost use Rattle.jn_lsp_frames.specs.Lines.{EndsAt, HasNoEnd, SaysNumber, IsFieldAs, Heard};

/// The most bytes that a header has, with its empty line.
pub(crate) const MOST: usize = 8_192;

/// The name of the field that says how many bytes follow.
const NAME: &[u8] = b"content-length";

/// A line of a header.
#[derive(Clone, Copy, Drop)]
pub(crate) enum Field {
    /// It has no colon.
    Broken,
    /// A field of another name.
    Other,
    /// Content-Length, and the number that its value is, if it is one.
    Length(Option<u32>),
}

/// What some lines of a header said.
#[derive(Clone, Copy, Drop)]
pub(crate) enum Said {
    /// They are fields of other names.
    Nothing,
    /// One isn't a field, or two are Content-Length.
    Broken,
    /// One is Content-Length, with its number, and the others are fields of other names.
    Length(Option<u32>),
}

/// The place of the first CR LF.
#[tactic(auto, using(crate::proofs::Lines::no_end_yet, crate::proofs::Lines::end_here, crate::proofs::Lines::end_later, crate::proofs::Lines::end_nowhere))]
fn line_end(text: &[u8]) -> Option<usize>
    ensures at { IfSome result (EndsAt text.now) }
    ensures none { IfNone result (HasNoEnd text.now) }
{
    for at in 0..text.len() {
        if text[at..].starts_with(b"\r\n") {
            return Some(at);
        }
    }
    None
}

/// The place after the header at the front, if one is there.
pub(crate) fn find_end(bytes: &[u8]) -> Option<usize>
    ensures within { IfSome result (λ end. end ≤ length bytes.now) }
    ensures block { IfSome result (λ end. IsBlock (take end bytes.now)) }
    ensures none { IfNone result (HasNoBlock bytes.now) }
{
    end_within(&bytes[..bytes.len().min(MOST)])
}

/// The place after the header at the front of a text that is no longer than one may be.
fn end_within(text: &[u8]) -> Option<usize>
    requires { length text.now ≤ 8192 }
    ensures within { IfSome result (λ end. end ≤ length text.now) }
    ensures block { IfSome result (λ end. IsBlock (take end text.now)) }
    ensures none { IfNone result (HasNoBlock text.now) }
{
    let mut at = 0;
    while let Some(count) = line_end(&text[at..]) {
        at += count + 2;
        if count == 0 {
            return Some(at);
        }
    }
    None
}

/// The place of the colon after the field's name.
fn colon_in(line: &[u8]) -> Option<usize>
    ensures is { result ≡ position (λ byte. byte == 58) line.now }
    ensures within { IfSome result (λ at. at < length line.now) }
{
    line.iter().position(|byte| *byte == b':')
}

fn is_blank(byte: u8) -> bool
    ensures { result ≡ spec.is_blank byte }
{
    byte == b' ' || byte == b'\t'
}

/// How many blanks stand at the front.
#[tactic(auto, using(crate::proofs::Numbers::span_here, crate::proofs::Numbers::span_later, crate::proofs::Numbers::span_all))]
fn blanks_in(bytes: &[u8]) -> usize
    ensures is { result ≡ prefix_len spec.is_blank bytes.now }
    ensures within { result ≤ length bytes.now }
{
    for at in 0..bytes.len() {
        if !is_blank(bytes[at]) {
            return at;
        }
    }
    bytes.len()
}

/// How many digits stand at the front.
#[tactic(auto, using(crate::proofs::Numbers::span_here, crate::proofs::Numbers::span_later, crate::proofs::Numbers::span_all))]
fn digits_in(bytes: &[u8]) -> usize
    ensures is { result ≡ prefix_len is_ascii_digit bytes.now }
    ensures within { result ≤ length bytes.now }
{
    for at in 0..bytes.len() {
        if !bytes[at].is_ascii_digit() {
            return at;
        }
    }
    bytes.len()
}

fn are_blanks(bytes: &[u8]) -> bool
    ensures { result ≡ list_all spec.is_blank bytes.now }
{
    bytes.iter().all(|byte| is_blank(*byte))
}

/// Whether there are one to nine digits, and blanks alone after them.
fn is_number(digits: &[u8], behind: &[u8]) -> bool
    ensures { result
        ≡ (nat_le 1 (length digits.now) && nat_le (length digits.now) 9 && list_all spec.is_blank behind.now) }
{
    1 <= digits.len() && digits.len() <= 9 && are_blanks(behind)
}

/// The number that the digits write.
#[tactic(auto, using(crate::proofs::Numbers::digit_at, crate::proofs::Numbers::small_step, crate::proofs::Numbers::number_fits, crate::proofs::Numbers::writes_more, crate::proofs::Numbers::writes_all))]
fn number_of(digits: &[u8]) -> u32
    requires few { length digits.now ≤ 9 }
    requires digits { list_all is_ascii_digit digits.now ≡ true }
    ensures { result ≡ digits_value 10 digits.now }
{
    let mut number = 0;
    for at in 0..digits.len() {
        number = number * 10 + u32::from(digits[at] - b'0');
    }
    number
}

/// The number of one to nine digits, with blanks around them.
fn number_in(value: &[u8]) -> Option<u32>
    ensures { SaysNumber value.now result }
{
    let front = &value[blanks_in(value)..];
    let (digits, behind) = front.split_at(digits_in(front));
    if is_number(digits, behind) {
        Some(number_of(digits))
    } else {
        None
    }
}

fn field_of(line: &[u8]) -> Field
    ensures { IsFieldAs line.now result }
{
    match colon_in(line) {
        None => Field::Broken,
        Some(at) => {
            if line[..at].eq_ignore_ascii_case(NAME) {
                Field::Length(number_in(&line[at + 1..]))
            } else {
                Field::Other
            }
        }
    }
}

/// What the lines and one after them said.
fn with_line(said: Said, line: &[u8]) -> Said
    ensures { (lines : List (List ℕ)) → Heard lines said
        → Heard (lines ++ line.now ∷ []) result }
{
    match field_of(line) {
        Field::Broken => Said::Broken,
        Field::Other => said,
        Field::Length(number) => match said {
            Said::Nothing => Said::Length(number),
            _ => Said::Broken,
        },
    }
}

fn length_of(said: Said) -> Option<u32>
    ensures { (lines : List (List ℕ)) → Heard lines said → Says lines result }
{
    match said {
        Said::Length(number) => number,
        _ => None,
    }
}

/// How many bytes the header says that follow it; none where it isn't legal.
pub(crate) fn content_length(block: &[u8]) -> Option<u32>
    ensures { (lines : List (List ℕ)) → IsHeader lines block.now → Says lines result }
{
    let mut rest = block;
    let mut said = Said::Nothing;
    while let Some(end) = line_end(rest) {
        if end == 0 {
            return length_of(said);
        }
        let (line, behind) = rest.split_at(end);
        said = with_line(said, line);
        rest = &behind[2..];
    }
    None
}
