//! Places of bytes, lists and names.
use jn_base::{FileNo, NameNo, Place, Seq, Span, place_of};
use jn_renumber::merge;
use jn_trees::Names;
use std::alloc::{AllocError, Global};
use std::process::Abort;

fn expect_place(rt: &impl Abort, text: &[u8], from: u32, line: u32, col: u32) {
    let file = FileNo(3);
    let at = Span {
        file,
        from,
        to: from,
    };
    assert!(rt; from < 100);
    assert!(rt; from as usize <= text.len());
    assert_eq!(rt; place_of(text, &at), Place { file, line, col }, "at {from}");
}

#[test]
fn lines_end_with_one_or_two_bytes_and_columns_count_characters(rt: HostRuntime) {
    let text = "a\nbc\rd\r\n\u{e9}\u{20ac}x\n".as_bytes();
    for (from, line, col) in [
        (0, 1, 1),
        (1, 1, 2),
        (2, 2, 1),
        (4, 2, 3),
        (5, 3, 1),
        (6, 3, 2),
        (7, 4, 1),
        (8, 4, 1),
        (10, 4, 2),
        (13, 4, 3),
        (14, 4, 4),
        (15, 5, 1),
    ] {
        expect_place(&rt, text, from, line, col);
    }
}

fn three_and_five(alloc: Global) -> Result<Seq<u8>, AllocError> {
    let mut seq = Seq::new(alloc);
    seq.push(3)?;
    seq.push(5)?;
    Ok(seq)
}

#[test]
fn lists_keep_items(rt: HostRuntime) {
    let Ok(mut seq) = three_and_five(rt.alloc()) else {
        panic!(rt; "no memory")
    };
    assert_eq!(rt; seq.as_slice(), [3u8, 5].as_slice());
    assert!(rt; seq.len() == 2);
    seq.set(1, 7);
    assert_eq!(rt; seq.at(1), 7);
    let Ok(copy) = seq.copy(rt.alloc()) else {
        panic!(rt; "no memory")
    };
    assert_eq!(rt; copy.as_slice(), [3u8, 7].as_slice());
    assert_eq!(rt; Seq::of_vec(copy.into_vec()).len(), 2);
}

fn expect_number(rt: &impl Abort, names: &mut Names, text: &str, number: u32) {
    assert!(rt; names.len() < 6);
    let found = names.intern(text);
    assert!(rt;
        matches!(found, Ok(NameNo(same)) if same == number),
        "{text}"
    );
}

#[test]
fn texts_are_numbered_once(rt: HostRuntime) {
    let mut names = Names::new(rt.alloc());
    for (text, number) in [("b", 0), ("a", 1), ("b", 0), ("", 2), ("é", 3), ("a", 1)] {
        expect_number(&rt, &mut names, text, number);
    }
    assert!(rt; names.len() == 4);
    assert!(rt; names.text(NameNo(3)) == "é");
    assert!(rt; names.number("a") == Some(NameNo(1)));
    assert!(rt; names.number("c") == None);
}

fn expect_names(rt: &impl Abort, names: &Names, texts: &[&str]) {
    assert_eq!(rt; names.len(), texts.len());
    let mut at = 0;
    for text in texts {
        assert!(rt; at < 100);
        assert!(rt; (at as usize) < names.len());
        assert!(rt; names.text(NameNo(at)) == *text, "{at}");
        at += 1;
    }
}

#[test]
fn merged_names_keep_their_numbers_or_go_last(rt: HostRuntime) {
    let mut names = Names::new(rt.alloc());
    for (text, number) in [("a", 0), ("b", 1)] {
        expect_number(&rt, &mut names, text, number);
    }
    let mut other = Names::new(rt.alloc());
    for (text, number) in [("b", 0), ("c", 1)] {
        expect_number(&rt, &mut other, text, number);
    }
    assert!(rt; names.len() == 2 && other.len() == 2);
    let Ok(numbers) = merge(rt.alloc(), &mut names, &other) else {
        panic!(rt; "no memory")
    };
    assert!(rt; numbers.as_slice() == [NameNo(1), NameNo(2)].as_slice());
    expect_names(&rt, &names, &["a", "b", "c"]);
}
