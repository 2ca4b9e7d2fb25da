//! Rows in order, and as a reader sees them.
use jn_base::{Code, FileNo, OutOfMemory, Row, Span};
use jn_diag::{order, row_text};
use std::alloc::Global;

fn row(file: u32, from: u32, to: u32, code: Code) -> Row {
    Row {
        span: Span {
            file: FileNo(file),
            from,
            to,
        },
        code,
    }
}

fn ordered(alloc: Global, rows: &[Row]) -> Result<Vec<Row>, OutOfMemory> {
    let mut rows = Vec::from_slice(alloc, rows)?;
    order(&mut rows)?;
    Ok(rows)
}

#[test]
fn orders_by_file_byte_code_and_end(rt: HostRuntime) {
    let unordered = [
        row(1, 0, 9, Code::T1),
        row(0, 5, 9, Code::Deref),
        row(0, 5, 6, Code::Deref),
        row(0, 5, 9, Code::J1),
        row(0, 5, 6, Code::Deref),
        row(0, 4, 9, Code::OvrResult),
    ];
    let Ok(rows) = ordered(rt.alloc(), &unordered) else {
        panic!(rt; "no memory")
    };
    assert_eq!(rt;
        rows.as_slice(),
        [
            row(0, 4, 9, Code::OvrResult),
            row(0, 5, 9, Code::J1),
            row(0, 5, 6, Code::Deref),
            row(0, 5, 9, Code::Deref),
            row(1, 0, 9, Code::T1)
        ]
        .as_slice()
    );
}

#[test]
fn shows_a_row(rt: HostRuntime) {
    let deref = Row {
        span: Span {
            file: FileNo(0),
            from: 6,
            to: 7,
        },
        code: Code::Deref,
    };
    let Ok(shown) = row_text(rt.alloc(), &deref, "A.java", b"ab\ncd\re") else {
        panic!(rt; "no memory")
    };
    let Ok(copy) = shown.copy(rt.alloc()) else {
        panic!(rt; "no memory")
    };
    assert_eq!(rt; copy.name.as_str(), "A.java");
    assert_eq!(rt; (copy.line, copy.col), (3, 1));
    assert!(rt; copy.code == Code::Deref);
}
