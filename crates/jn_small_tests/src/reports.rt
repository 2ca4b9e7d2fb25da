//! What each reporter writes: a row and a verdict, and then one row more; and names of files with bytes that are escaped.
use jn_base::{Code, FileNo, OutOfMemory, Seq, Span, Text};
use jn_diag::{RowText, Verdict};
use jn_report_formats::{Checkstyle, Github, Sarif};
use jn_reporters::{Long, Plain, Reporter, RowView, ShownNote, Summary, Tabbed, excerpt_for};
use std::alloc::Global;
use std::process::Abort;

fn take(
    alloc: Global,
    reporter: &mut dyn Reporter,
    line: u32,
    col: u32,
    code: Code,
) -> Result<(), OutOfMemory> {
    let name = Text::of_str(alloc, "V.java")?;
    let row = RowText {
        name,
        line,
        col,
        code,
    };
    reporter.take(&RowView::new(row, None))
}

fn expect_bytes(rt: &impl Abort, reporter: &dyn Reporter, want: &str) {
    assert_eq!(rt; reporter.bytes(), want.as_bytes());
}

#[test]
fn plain_shows_rows_and_the_last_verdict(rt: HostRuntime) -> Result<(), OutOfMemory> {
    let mut plain = Plain::new(rt.alloc());
    assert_eq!(rt; plain.name(), "plain");
    expect_bytes(&rt, &plain, "");
    take(rt.alloc(), &mut plain, 3, 18, Code::NewArray)?;
    expect_bytes(&rt, &plain, "V.java:3:18: NEW-ARRAY\n");
    plain.finish(Verdict::Accepted)?;
    plain.finish(Verdict::Refused(12))?;
    take(rt.alloc(), &mut plain, 5, 5, Code::Deref)?;
    expect_bytes(
        &rt,
        &plain,
        "V.java:3:18: NEW-ARRAY\nV.java:5:5: DEREF\nrefused 12\n",
    );
    Ok(())
}

#[test]
fn tabbed_shows_the_code_in_words(rt: HostRuntime) -> Result<(), OutOfMemory> {
    let mut tabbed = Tabbed::new(rt.alloc());
    assert_eq!(rt; tabbed.name(), "tabbed");
    take(rt.alloc(), &mut tabbed, 4, 5, Code::Deref)?;
    tabbed.finish(Verdict::Rejected(1))?;
    expect_bytes(&rt, &tabbed, "V.java\t4\t5\tDEREF\tderef\nrejected 1\n");
    Ok(())
}

#[test]
fn summary_counts_by_code(rt: HostRuntime) -> Result<(), OutOfMemory> {
    let mut summary = Summary::new(rt.alloc());
    assert_eq!(rt; summary.name(), "summary");
    take(rt.alloc(), &mut summary, 3, 18, Code::NewArray)?;
    take(rt.alloc(), &mut summary, 5, 5, Code::Deref)?;
    summary.finish(Verdict::Rejected(2))?;
    expect_bytes(&rt, &summary, "DEREF 1\nNEW-ARRAY 1\nrejected 2\n");
    take(rt.alloc(), &mut summary, 6, 5, Code::Deref)?;
    expect_bytes(&rt, &summary, "DEREF 2\nNEW-ARRAY 1\nrejected 2\n");
    Ok(())
}

/// The rows, and the verdict that rejects them.
fn take_rows(
    alloc: Global,
    reporter: &mut dyn Reporter,
    rows: &[(&str, u32, u32, Code)],
) -> Result<(), OutOfMemory> {
    for row in rows {
        let name = Text::of_str(alloc, row.0)?;
        let text = RowText {
            name,
            line: row.1,
            col: row.2,
            code: row.3,
        };
        reporter.take(&RowView::new(text, None))?;
    }
    reporter.finish(Verdict::Rejected(rows.len() as u64))
}

fn expect_report(
    rt: &impl Abort,
    alloc: Global,
    reporter: &mut dyn Reporter,
    rows: &[(&str, u32, u32, Code)],
    want: &str,
) {
    let Ok(()) = take_rows(alloc, reporter, rows) else {
        panic!(rt; "no memory");
    };
    assert_eq!(rt; reporter.bytes(), want.as_bytes());
}

#[test]
fn github_marks_lines(rt: HostRuntime) {
    let mut github = Github::new(rt.alloc());
    assert_eq!(rt; github.name(), "github");
    expect_report(
        &rt,
        rt.alloc(),
        &mut github,
        &[
            ("a%b:c,d\r\n.java", 3, 18, Code::NewArray),
            ("V.java", 5, 5, Code::S1),
        ],
        "::error file=a%25b%3Ac%2Cd%0D%0A.java,line=3,col=18::NEW-ARRAY a new array holds nulls, and its elements are not @Nullable; cure: list the elements in braces, or make an array of @Nullable elements\n::error file=V.java,line=5,col=5::S1 the statement, member or head that begins here is not well formed; cure: mend it, or write it in a form of the subset\nrejected 2\n",
    );
}

#[test]
fn checkstyle_has_an_element_for_each_run_of_a_file(rt: HostRuntime) {
    let mut checkstyle = Checkstyle::new(rt.alloc());
    assert_eq!(rt; checkstyle.name(), "checkstyle");
    expect_report(
        &rt,
        rt.alloc(),
        &mut checkstyle,
        &[
            (
                "&<>\"'\t\u{1}\u{fffe}\u{ffff}\u{ffbe}\u{e9}.java",
                3,
                18,
                Code::NewArray,
            ),
            (
                "&<>\"'\t\u{1}\u{fffe}\u{ffff}\u{ffbe}\u{e9}.java",
                5,
                5,
                Code::Deref,
            ),
            ("V.java", 1, 1, Code::L1),
        ],
        "<?xml version=\"1.0\" encoding=\"UTF-8\"?>\n<checkstyle version=\"4.3\">\n  <file name=\"&amp;&lt;&gt;&quot;&apos;&#9;\u{fffd}\u{fffd}\u{fffd}\u{ffbe}\u{e9}.java\">\n    <error line=\"3\" column=\"18\" severity=\"error\" message=\"NEW-ARRAY: a new array holds nulls, and its elements are not @Nullable; cure: list the elements in braces, or make an array of @Nullable elements\" source=\"nullcheck.NEW-ARRAY\"/>\n    <error line=\"5\" column=\"5\" severity=\"error\" message=\"DEREF: this may be null when it is dereferenced; cure: copy it to a local and test that, or mark what it comes from\" source=\"nullcheck.DEREF\"/>\n  </file>\n  <file name=\"V.java\">\n    <error line=\"1\" column=\"1\" severity=\"error\" message=\"L1: this byte begins no character in UTF-8; cure: save the file as UTF-8\" source=\"nullcheck.L1\"/>\n  </file>\n</checkstyle>\n",
    );
}

#[test]
fn sarif_has_a_rule_for_each_code_and_a_result_for_each_row(rt: HostRuntime) {
    let mut sarif = Sarif::new(rt.alloc());
    assert_eq!(rt; sarif.name(), "sarif");
    expect_report(
        &rt,
        rt.alloc(),
        &mut sarif,
        &[
            ("src/a b%\u{e9}\"~.java", 3, 18, Code::NewArray),
            ("V.java", 5, 5, Code::Deref),
            ("V.java", 7, 5, Code::NewArray),
        ],
        "{\n  \"$schema\": \"https://json.schemastore.org/sarif-2.1.0.json\",\n  \"version\": \"2.1.0\",\n  \"runs\": [\n    {\n      \"tool\": {\n        \"driver\": {\n          \"name\": \"nullcheck\",\n          \"rules\": [\n            {\"id\": \"DEREF\", \"shortDescription\": {\"text\": \"this may be null when it is dereferenced\"}, \"fullDescription\": {\"text\": \"this may be null when it is dereferenced; cure: copy it to a local and test that, or mark what it comes from\"}, \"help\": {\"text\": \"copy it to a local and test that, or mark what it comes from\"}},\n            {\"id\": \"NEW-ARRAY\", \"shortDescription\": {\"text\": \"a new array holds nulls, and its elements are not @Nullable\"}, \"fullDescription\": {\"text\": \"a new array holds nulls, and its elements are not @Nullable; cure: list the elements in braces, or make an array of @Nullable elements\"}, \"help\": {\"text\": \"list the elements in braces, or make an array of @Nullable elements\"}}\n          ]\n        }\n      },\n      \"columnKind\": \"unicodeCodePoints\",\n      \"results\": [\n        {\"ruleId\": \"NEW-ARRAY\", \"level\": \"error\", \"message\": {\"text\": \"a new array holds nulls, and its elements are not @Nullable; cure: list the elements in braces, or make an array of @Nullable elements\"}, \"locations\": [{\"physicalLocation\": {\"artifactLocation\": {\"uri\": \"src/a%20b%25%C3%A9%22~.java\"}, \"region\": {\"startLine\": 3, \"startColumn\": 18, \"endLine\": 3, \"endColumn\": 18}}}]},\n        {\"ruleId\": \"DEREF\", \"level\": \"error\", \"message\": {\"text\": \"this may be null when it is dereferenced; cure: copy it to a local and test that, or mark what it comes from\"}, \"locations\": [{\"physicalLocation\": {\"artifactLocation\": {\"uri\": \"V.java\"}, \"region\": {\"startLine\": 5, \"startColumn\": 5, \"endLine\": 5, \"endColumn\": 5}}}]},\n        {\"ruleId\": \"NEW-ARRAY\", \"level\": \"error\", \"message\": {\"text\": \"a new array holds nulls, and its elements are not @Nullable; cure: list the elements in braces, or make an array of @Nullable elements\"}, \"locations\": [{\"physicalLocation\": {\"artifactLocation\": {\"uri\": \"V.java\"}, \"region\": {\"startLine\": 7, \"startColumn\": 5, \"endLine\": 7, \"endColumn\": 5}}}]}\n      ]\n    }\n  ]\n}\n",
    );
}

/// A row of these bytes of the text, at this line and column, shown by `long`.
fn expect_long(
    rt: &impl Abort,
    alloc: Global,
    text: &[u8],
    place: (u32, u32),
    bytes: (u32, u32),
    want: &str,
) {
    let Ok(name) = Text::of_str(alloc, "V.java") else {
        panic!(rt; "no memory");
    };
    let row = RowText {
        name,
        line: place.0,
        col: place.1,
        code: Code::S2,
    };
    let span = Span {
        file: FileNo(0),
        from: bytes.0,
        to: bytes.1,
    };
    let mut long = Long::new(alloc);
    let Ok(()) = long.take(&RowView::new(row, excerpt_for(Code::S2, text, &span))) else {
        panic!(rt; "no memory");
    };
    assert_eq!(rt; long.bytes(), want.as_bytes());
}

#[test]
fn long_shows_what_stands_around_a_row(rt: HostRuntime) {
    let alloc = rt.alloc();
    expect_long(
        &rt,
        alloc,
        b"",
        (1, 1),
        (0, 0),
        "error[S2]: more than 200 brackets are open here\n --> V.java:1:1\n  |\n1 | \n  | ^\n  = cure: split the expression or the block\n\n",
    );
    expect_long(
        &rt,
        alloc,
        b"ab\r\nc\xffd",
        (2, 4),
        (9, 12),
        "error[S2]: more than 200 brackets are open here\n --> V.java:2:4\n  |\n2 | c\u{fffd}d\n  |    ^\n  = cure: split the expression or the block\n\n",
    );
}

fn noted_row(alloc: Global) -> Result<RowText, OutOfMemory> {
    let name = Text::of_str(alloc, "V.java")?;
    Ok(RowText {
        name,
        line: 12,
        col: 5,
        code: Code::Deref,
    })
}

fn note(alloc: Global, text: &str, name: &str, line: u32) -> Result<ShownNote, OutOfMemory> {
    let text = Vec::from_slice(alloc, text.as_bytes())?;
    let name = Text::of_str(alloc, name)?;
    Ok(ShownNote {
        text: Seq::of_vec(text),
        name,
        line,
        col: 7,
        joined: false,
        ends: false,
    })
}

fn notes(alloc: Global) -> Result<Seq<ShownNote>, OutOfMemory> {
    let mut notes = Seq::new(alloc);
    notes.push(note(alloc, "the field `x` may be null: written at", "V.java", 9)?)?;
    notes.push(note(alloc, "\"null\" is written at", "a b.java", 10)?)?;
    Ok(notes)
}

fn take_noted(
    alloc: Global,
    reporter: &mut dyn Reporter,
    notes: &[ShownNote],
    more: usize,
) -> Result<(), OutOfMemory> {
    reporter.take(&RowView::noted(noted_row(alloc)?, 12, 9, None, notes, more))?;
    reporter.finish(Verdict::Rejected(1))
}

/// A row with two notes, of which so many more were left out.
fn expect_noted(
    rt: &impl Abort,
    alloc: Global,
    reporter: &mut dyn Reporter,
    more: usize,
    want: &str,
) {
    let Ok(notes) = notes(alloc) else {
        panic!(rt; "no memory");
    };
    let Ok(()) = take_noted(alloc, reporter, notes.as_slice(), more) else {
        panic!(rt; "no memory");
    };
    assert_eq!(rt; reporter.bytes(), want.as_bytes());
}

#[test]
fn long_shows_notes_behind_the_cure(rt: HostRuntime) {
    let alloc = rt.alloc();
    let mut long = Long::new(alloc);
    assert!(rt; long.shows_notes());
    expect_noted(
        &rt,
        alloc,
        &mut long,
        3,
        "error[DEREF]: this may be null when it is dereferenced\n  --> V.java:12:5\n   = cure: copy it to a local and test that, or mark what it comes from\n   = note: the field `x` may be null: written at V.java:9:7\n   = note: \"null\" is written at a b.java:10:7\n   = note: .. and 3 more\n\nrejected 1\n",
    );
}

#[test]
fn sarif_has_a_related_location_for_each_note(rt: HostRuntime) {
    let alloc = rt.alloc();
    let mut sarif = Sarif::new(alloc);
    assert!(rt; sarif.shows_notes());
    expect_noted(
        &rt,
        alloc,
        &mut sarif,
        3,
        "{\n  \"$schema\": \"https://json.schemastore.org/sarif-2.1.0.json\",\n  \"version\": \"2.1.0\",\n  \"runs\": [\n    {\n      \"tool\": {\n        \"driver\": {\n          \"name\": \"nullcheck\",\n          \"rules\": [\n            {\"id\": \"DEREF\", \"shortDescription\": {\"text\": \"this may be null when it is dereferenced\"}, \"fullDescription\": {\"text\": \"this may be null when it is dereferenced; cure: copy it to a local and test that, or mark what it comes from\"}, \"help\": {\"text\": \"copy it to a local and test that, or mark what it comes from\"}}\n          ]\n        }\n      },\n      \"columnKind\": \"unicodeCodePoints\",\n      \"results\": [\n        {\"ruleId\": \"DEREF\", \"level\": \"error\", \"message\": {\"text\": \"this may be null when it is dereferenced; cure: copy it to a local and test that, or mark what it comes from\"}, \"locations\": [{\"physicalLocation\": {\"artifactLocation\": {\"uri\": \"V.java\"}, \"region\": {\"startLine\": 12, \"startColumn\": 5, \"endLine\": 12, \"endColumn\": 9}}}], \"relatedLocations\": [{\"id\": 1, \"physicalLocation\": {\"artifactLocation\": {\"uri\": \"V.java\"}, \"region\": {\"startLine\": 9, \"startColumn\": 7}}, \"message\": {\"text\": \"the field `x` may be null: written at V.java:9:7\"}}, {\"id\": 2, \"physicalLocation\": {\"artifactLocation\": {\"uri\": \"a%20b.java\"}, \"region\": {\"startLine\": 10, \"startColumn\": 7}}, \"message\": {\"text\": \"\\\"null\\\" is written at a b.java:10:7\"}}], \"properties\": {\"moreNotes\": 3}}\n      ]\n    }\n  ]\n}\n",
    );
}

#[test]
fn other_reporters_show_no_notes(rt: HostRuntime) {
    let alloc = rt.alloc();
    let mut plain = Plain::new(alloc);
    assert!(rt; !plain.shows_notes());
    expect_noted(
        &rt,
        alloc,
        &mut plain,
        3,
        "V.java:12:5: DEREF\nrejected 1\n",
    );
}
