//! The generated program.
use jn_gen::generate;
use std::process::Abort;

fn expect_length(rt: &impl Abort, alloc: std::alloc::Global, classes: u32, length: usize) {
    assert!(rt; 1 <= classes);
    assert!(rt; classes <= 500);
    let found = generate(alloc, classes).map(|text| text.len());
    assert!(rt; matches!(found, Ok(same) if same == length), "at {classes}");
}

#[test]
fn has_the_wanted_lengths(rt: HostRuntime) {
    for (classes, length) in [(1, 236), (10, 2_360), (11, 2_600), (500, 121_560)] {
        expect_length(&rt, rt.alloc(), classes, length);
    }
}

#[test]
fn begins_with_its_first_class(rt: HostRuntime) {
    let Ok(one) = generate(rt.alloc(), 1) else {
        panic!(rt; "no memory")
    };
    assert!(rt;
        one.as_slice()
            .starts_with("class G0 {\n  private @Nullable G0 next;\n".as_bytes())
    );
}
