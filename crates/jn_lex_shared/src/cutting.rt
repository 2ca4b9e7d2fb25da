//! Where a text is cut.
ghost use Rattle.std.specs.Prelude.{◌≤◌, length, IfSome};
ghost use Rattle.jn_lex_shared.specs.Cut.{IsCut};

/// The fewest bytes of a window, the last one excepted. Its characters, of 4 bytes each, take 64 KiB: few enough to stay in a
/// processor's own cache from one window to the next, where those of a whole file would fault in new memory; and so many that a
/// window's calls and its cut count for nothing.
const WINDOW: usize = 16_384;

/// What is known of a line up to some byte.
#[derive(Clone, Copy, Debug, PartialEq, Eq)]
enum Line {
    /// It is white space so far.
    Blank,
    /// It begins with `/` or `*`, as lines of a comment do, or its begin isn't known.
    Comment,
    /// It ends with `;`, `{` or `}`, as lines of code do, and perhaps white space.
    Code,
    /// It ends with something else.
    Other,
}

/// The line with one more byte, which is no line feed.
fn line_with(line: Line, byte: u8) -> Line {
    if line == Line::Comment {
        return line;
    }
    match byte {
        b' ' | b'\t' | b'\r' => line,
        b';' | b'{' | b'}' => Line::Code,
        b'/' | b'*' if line == Line::Blank => Line::Comment,
        _ => Line::Other,
    }
}

/// After how many bytes a line of code ends, the first one that begins after the byte `at`; none where there is none. Lines
/// that seem to stand in a comment of several lines are no code.
fn code_end_from(text: &[u8], at: usize) -> Option<usize>
    requires { at ≤ length text.now }
    ensures { IfSome result (λ cut. IsCut cut text.now) }
{
    let mut line = Line::Comment;
    for (i, byte) in text[at..].iter().enumerate() {
        if *byte != b'\n' {
            line = line_with(line, *byte);
        } else if line == Line::Code {
            return Some(at + i + 1);
        } else {
            line = Line::Blank;
        }
    }
    None
}

/// After how many bytes a line ends, the first from the byte `at` on; none where no line ends there.
fn line_end_from(text: &[u8], at: usize) -> Option<usize>
    requires { at ≤ length text.now }
    ensures { IfSome result (λ cut. IsCut cut text.now) }
{
    for (i, byte) in text[at..].iter().enumerate() {
        if *byte == b'\n' {
            return Some(at + i + 1);
        }
    }
    None
}

/// Where a text is cut between two workers: after a line's end from the byte `at` on, rather not in a comment; none where no line
/// ends there.
pub fn cut_from(text: &[u8], at: usize) -> Option<usize>
    requires { at ≤ length text.now }
    ensures { IfSome result (λ cut. IsCut cut text.now) }
{
    match code_end_from(text, at) {
        Some(cut) => Some(cut),
        None => line_end_from(text, at),
    }
}

/// Where a line of code ends among the bytes of a second window; none where none ends there.
fn code_end_near(text: &[u8]) -> Option<usize>
    requires { 16384 ≤ length text.now }
    ensures { IfSome result (λ cut. IsCut cut text.now) }
{
    let near = text.len().min(2 * WINDOW);
    code_end_from(&text[..near], WINDOW)
}

/// Where the first window of a text ends: after a line's end, rather not in a comment; none where the text is one window.
///
/// For that it reads at most as many bytes as a window has, and then those up to the cut or to the text's end, so that all windows of
/// a text are found in time in proportion to its bytes.
pub fn window_end(text: &[u8]) -> Option<usize>
    ensures { IfSome result (λ cut. IsCut cut text.now) }
{
    if text.len() <= WINDOW {
        return None;
    }
    match code_end_near(text) {
        Some(cut) => Some(cut),
        None => line_end_from(text, WINDOW),
    }
}
