//! Small programs run to their end.
use jn_base::{BodyNo, ClassNo, MethodNo, OutOfMemory, Text};
use jn_machine::{End, StepFail, Stepped, run, run_to, start};
use jn_outside::MemSink;
use jn_points::{BaseType, Elem, Operand, Operator, Program};
use jn_test_programs::build::{Hand, Kind, OBJECT, VOID, instance, named, plain};
use jn_test_programs::lines::{
    at, binary, cast, concat, element, end, give, int, length, new_array, null, print, put, read,
    text, write,
};
use jn_trees::Names;
use std::alloc::{AllocError, Global};
use std::process::Abort;

const INT: BaseType = BaseType::Int;

const REGISTERS: [BaseType; 6] = [INT; 6];

/// After that of Object's constructor.
const MAIN: BodyNo = BodyNo(1);

const NEW: MethodNo = MethodNo(2);

const GET: MethodNo = MethodNo(3);

const AGAIN: MethodNo = MethodNo(4);

fn of(reg: u32) -> Operand {
    at(reg, 0)
}

/// ```java
/// class C {
///   int x;
///   static void main() { the points }
///   C(int a) { this.x = a; }
///   int get() { return this.x; }
///   static void again() { again(); }
/// }
/// ```
fn program_of(hand: Hand) -> Result<Program, AllocError> {
    let mut hand = hand;
    let class = hand.class(OBJECT, &[]);
    let x = hand.field(class, 1, plain(INT));
    let main = hand.method(class, named(1, 0), Kind::Static, &[], VOID);
    let constructor = hand.method(class, named(2, 0), Kind::Constructor, &[plain(INT)], VOID);
    let get = hand.method(class, named(3, 0), instance(), &[], plain(INT));
    let again = hand.method(class, named(4, 0), Kind::Static, &[], VOID);
    hand.body(main, &REGISTERS, 6);
    hand.point(write(of(0), x, of(1)));
    hand.point(end());
    hand.body(constructor, &REGISTERS, 6);
    hand.point(read(1, of(0), x));
    hand.point(give(of(1)));
    hand.body(get, &REGISTERS, 6);
    hand.call(again, None, &[]);
    hand.body(again, &REGISTERS, 6);
    hand.finish()
}

fn made(rt: &impl Abort, hand: Hand) -> Program {
    let Ok(program) = program_of(hand) else {
        panic!(rt; "no memory")
    };
    program
}

fn texts_of(alloc: Global, text: &str) -> Result<Vec<Text>, AllocError> {
    let text = Text::of_str(alloc, text)?;
    let mut texts = Vec::new(alloc);
    texts.push(text)?;
    Ok(texts)
}

fn one_text(rt: &impl Abort, alloc: Global, text: &str) -> Vec<Text> {
    let Ok(texts) = texts_of(alloc, text) else {
        panic!(rt; "no memory")
    };
    texts
}

/// The one name `a\u{e9}\u{1d11e}`, of four UTF-16 units.
fn one_name(rt: &impl Abort, alloc: Global) -> Names {
    let mut names = Names::new(alloc);
    let Ok(_) = names.intern("a\u{e9}\u{1d11e}") else {
        panic!(rt; "no memory")
    };
    names
}

/// What the last step did, and the body and the point at which the machine then stands: after an end, those
/// that ended the run.
#[derive(Clone, Copy, Debug, PartialEq, Eq)]
struct Outcome {
    stepped: Stepped,
    body: usize,
    at: usize,
}

/// An outcome in `main`.
fn in_main(stepped: Stepped, at: usize) -> Outcome {
    Outcome {
        stepped,
        body: 1,
        at,
    }
}

/// A run of `main` with one word comes to this within so many steps, and prints this.
fn expect_run(
    rt: &impl Abort,
    alloc: Global,
    hand: Hand,
    steps: u64,
    want: Outcome,
    printed: &str,
) {
    let program = made(rt, hand);
    let names = one_name(rt, alloc);
    let words = one_text(rt, alloc, "word");
    let Ok(mut state) = start(alloc, &program, MAIN, &words) else {
        panic!(rt; "no memory")
    };
    let mut out = Vec::new(alloc);
    let Ok(stepped) = run(alloc, &program, &names, &mut state, steps, &mut out) else {
        panic!(rt; "no memory")
    };
    let got = Outcome {
        stepped,
        body: state.top.body(),
        at: state.top.at(),
    };
    assert_eq!(rt; got, want);
    assert_eq!(rt; out.as_slice(), printed.as_bytes());
}

/// Text, its length, and the least int divided by -1.
fn straight(alloc: Global) -> Hand {
    let mut hand = Hand::new(alloc);
    hand.point(text(1));
    hand.point(length(2, of(1)));
    hand.point(concat(1, of(1), of(2)));
    hand.point(print(of(1)));
    hand.point(int(3, -2147483648));
    hand.point(int(4, -1));
    hand.point(binary(5, Operator::Div, of(3), of(4)));
    hand.point(print(of(5)));
    hand.point(binary(5, Operator::Rem, of(3), of(4)));
    hand.point(print(of(5)));
    hand.point(end());
    hand
}

#[test]
fn straight_code(rt: HostRuntime) {
    let printed = "a\u{e9}\u{1d11e}4\n-2147483648\n0\n";
    let done = in_main(Stepped::Ends(End::Done), 10);
    expect_run(&rt, rt.alloc(), straight(rt.alloc()), 100, done, printed);
}

fn divides(alloc: Global) -> Hand {
    let mut hand = Hand::new(alloc);
    hand.point(int(1, 7));
    hand.point(int(2, 0));
    hand.point(binary(5, Operator::Div, of(1), of(2)));
    hand
}

#[test]
fn division_by_zero(rt: HostRuntime) {
    let ends = in_main(Stepped::Ends(End::Arithmetic), 2);
    expect_run(&rt, rt.alloc(), divides(rt.alloc()), 100, ends, "");
}

fn on_null(alloc: Global) -> Hand {
    let mut hand = Hand::new(alloc);
    hand.point(null(1));
    hand.point(length(2, of(1)));
    hand
}

#[test]
fn length_of_null(rt: HostRuntime) {
    let stuck = in_main(Stepped::Stuck, 1);
    expect_run(&rt, rt.alloc(), on_null(rt.alloc()), 100, stuck, "");
}

fn calls_itself(alloc: Global) -> Hand {
    let mut hand = Hand::new(alloc);
    hand.call(AGAIN, None, &[]);
    hand
}

#[test]
fn deepest_call(rt: HostRuntime) {
    let goes = Outcome {
        stepped: Stepped::Goes,
        body: 4,
        at: 0,
    };
    let deep = Outcome {
        stepped: Stepped::Ends(End::Deep),
        body: 4,
        at: 0,
    };
    expect_run(&rt, rt.alloc(), calls_itself(rt.alloc()), 4095, goes, "");
    expect_run(&rt, rt.alloc(), calls_itself(rt.alloc()), 4096, deep, "");
}

fn makes_an_object(alloc: Global) -> Hand {
    let mut hand = Hand::new(alloc);
    hand.point(int(1, 41));
    hand.create(2, NEW, &[of(1)]);
    hand.call_for(3, GET, of(2), &[]);
    hand.point(print(of(3)));
    hand.point(cast(4, of(2), ClassNo(1)));
    hand
}

#[test]
fn objects(rt: HostRuntime) {
    let ends = in_main(Stepped::Ends(End::ClassCast), 4);
    expect_run(
        &rt,
        rt.alloc(),
        makes_an_object(rt.alloc()),
        100,
        ends,
        "41\n",
    );
}

fn reads_elements(alloc: Global) -> Hand {
    let mut hand = Hand::new(alloc);
    hand.point(int(1, 2));
    hand.point(new_array(2, BaseType::Array(Elem::Int, false), of(1), 0));
    hand.point(int(3, 0));
    hand.point(put(of(2), of(3), of(1)));
    hand.point(element(4, of(2), of(3)));
    hand.point(print(of(4)));
    hand.point(element(4, of(0), of(3)));
    hand.point(print(of(4)));
    hand.point(element(4, of(2), of(1)));
    hand
}

#[test]
fn arrays(rt: HostRuntime) {
    let ends = in_main(Stepped::Ends(End::Index), 8);
    expect_run(
        &rt,
        rt.alloc(),
        reads_elements(rt.alloc()),
        100,
        ends,
        "2\nword\n",
    );
}

fn prints_twice(alloc: Global) -> Hand {
    let mut hand = Hand::new(alloc);
    hand.point(int(1, 7));
    hand.point(print(of(1)));
    hand.point(print(of(1)));
    hand.point(end());
    hand
}

fn sink_of(alloc: Global, failing: u32) -> Result<MemSink, OutOfMemory> {
    let failing = Vec::from_slice(alloc, &[failing])?;
    MemSink::new(alloc, failing, 10, 10)
}

/// What a run prints to a sink whose write of this number fails. In both runs the second print is done.
fn expect_printed(
    rt: &impl Abort,
    alloc: Global,
    failing: u32,
    want: Result<Stepped, StepFail>,
    printed: &str,
) {
    let program = made(rt, prints_twice(alloc));
    let none = Vec::new(alloc);
    let Ok(mut sink) = sink_of(alloc, failing) else {
        panic!(rt; "no memory")
    };
    let Ok(mut state) = start(alloc, &program, MAIN, &none) else {
        panic!(rt; "no memory")
    };
    let ended = run_to(
        alloc,
        &program,
        &Names::new(alloc),
        &mut state,
        100,
        &mut sink,
    );
    assert_eq!(rt; ended, want);
    assert_eq!(rt; state.top.at(), 3);
    assert_eq!(rt; sink.bytes(), printed.as_bytes());
}

#[test]
fn prints_to_a_sink(rt: HostRuntime) {
    let done = Ok(Stepped::Ends(End::Done));
    expect_printed(&rt, rt.alloc(), 9, done, "7\n7\n");
    expect_printed(&rt, rt.alloc(), 2, Err(StepFail::WriteFault), "7\n");
}
