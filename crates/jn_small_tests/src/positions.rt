//! Positions in units of UTF-16 and of UTF-8, their offsets, and texts with a range replaced.
use jn_lsp_text::{Encoding, Position, Range, offset_of, position_of, range_of, replace};
use std::process::Abort;

fn expect_position(
    rt: &impl Abort,
    encoding: Encoding,
    text: &[u8],
    offset: usize,
    line: u32,
    character: u32,
) {
    assert!(rt; text.len() < 100);
    assert!(rt; offset <= text.len());
    assert_eq!(rt;
        position_of(encoding, text, offset),
        Position { line, character },
        "at {offset}"
    );
}

fn expect_offset(
    rt: &impl Abort,
    encoding: Encoding,
    text: &[u8],
    line: u32,
    character: u32,
    offset: usize,
) {
    assert_eq!(rt;
        offset_of(encoding, text, Position { line, character }),
        offset,
        "at {line}:{character}"
    );
}

#[test]
fn positions_count_lines_and_units(rt: HostRuntime) {
    let text = "ab\r\nx\u{e9}\u{1F600}z\rlast".as_bytes();
    for (offset, line, character) in [
        (0, 0, 0),
        (2, 0, 2),
        (3, 1, 0),
        (4, 1, 0),
        (5, 1, 1),
        (7, 1, 2),
        (11, 1, 4),
        (12, 1, 5),
        (13, 2, 0),
        (17, 2, 4),
    ] {
        expect_position(&rt, Encoding::Utf16, text, offset, line, character);
    }
}

#[test]
fn positions_count_lines_and_bytes(rt: HostRuntime) {
    let text = "ab\r\nx\u{e9}\u{20ac}\u{1F600}z\rlast".as_bytes();
    for (offset, line, character) in [
        (0, 0, 0),
        (2, 0, 2),
        (3, 1, 0),
        (4, 1, 0),
        (5, 1, 1),
        (6, 1, 2),
        (7, 1, 3),
        (10, 1, 6),
        (12, 1, 8),
        (14, 1, 10),
        (15, 1, 11),
        (16, 2, 0),
        (20, 2, 4),
    ] {
        expect_position(&rt, Encoding::Utf8, text, offset, line, character);
    }
}

#[test]
fn offsets_stay_on_lines_and_between_characters(rt: HostRuntime) {
    let text = "ab\r\nx\u{e9}\u{1F600}z\rlast".as_bytes();
    for (line, character, offset) in [
        (0, 1, 1),
        (0, 9, 2),
        (1, 0, 4),
        (1, 2, 7),
        (1, 3, 7),
        (1, 4, 11),
        (1, 9, 12),
        (2, 9, 17),
        (3, 0, 17),
    ] {
        expect_offset(&rt, Encoding::Utf16, text, line, character, offset);
    }
}

#[test]
fn offsets_of_bytes_may_part_characters(rt: HostRuntime) {
    let text = "ab\r\nx\u{e9}\u{20ac}\u{1F600}z\rlast".as_bytes();
    for (line, character, offset) in [
        (0, 1, 1),
        (0, 9, 2),
        (1, 0, 4),
        (1, 2, 6),
        (1, 3, 7),
        (1, 5, 9),
        (1, 9, 13),
        (1, 99, 15),
        (2, 9, 20),
        (3, 0, 20),
    ] {
        expect_offset(&rt, Encoding::Utf8, text, line, character, offset);
    }
}

#[test]
fn a_range_is_replaced_whichever_end_comes_first(rt: HostRuntime) {
    let text = "ab\r\nx\u{e9}\u{1F600}z\rlast".as_bytes();
    assert!(rt; text.len() < 100);
    let range = range_of(Encoding::Utf16, text, 4, 11);
    let turned = Range {
        start: range.end,
        end: range.start,
    };
    let Ok(made) = replace(
        rt.alloc(),
        Encoding::Utf16,
        text,
        turned,
        "\u{20ac}".as_bytes(),
    ) else {
        panic!(rt; "no memory")
    };
    assert_eq!(rt; made.as_slice(), "ab\r\n\u{20ac}z\rlast".as_bytes());
}

#[test]
fn a_range_of_bytes_is_replaced(rt: HostRuntime) {
    let text = "ab\r\nx\u{e9}\u{1F600}z\rlast".as_bytes();
    let range = Range {
        start: Position {
            line: 1,
            character: 1,
        },
        end: Position {
            line: 1,
            character: 7,
        },
    };
    let Ok(made) = replace(
        rt.alloc(),
        Encoding::Utf8,
        text,
        range,
        "\u{20ac}".as_bytes(),
    ) else {
        panic!(rt; "no memory")
    };
    assert_eq!(rt; made.as_slice(), "ab\r\nx\u{20ac}z\rlast".as_bytes());
}
