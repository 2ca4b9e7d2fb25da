//! A program made by hand. A place is line times 100 plus column.
use jn_points::{BaseType, Program};
use jn_test_programs::build::{FIRST, Hand, Kind, OBJECT, STRING, VOID, inferred, instance, named};
use jn_test_programs::lines::{at, end, length, null, text};
use std::alloc::{AllocError, Global};

const CLASS: BaseType = BaseType::Ref(FIRST);

/// ```java
/// class R {
///   private void f(String s) { g(s); }
///   private void g(String s) { s.length(); h(s); }
///   private void h(String s) { f(s); }
///   void go() { f("a"); h(null); }
/// }
/// ```
///
/// With Object's constructor it has five bodies.
pub fn round_of_calls(alloc: Global) -> Result<Program, AllocError> {
    let mut hand = Hand::new(alloc);
    let class = hand.class(OBJECT, &[]);
    let s = [inferred(STRING)];
    let f = hand.method(class, named(1, 216), Kind::Private, &s, VOID);
    let g = hand.method(class, named(2, 316), Kind::Private, &s, VOID);
    let h = hand.method(class, named(3, 416), Kind::Private, &s, VOID);
    let go = hand.method(class, named(4, 508), instance(), &[], VOID);
    hand.call_private(g, at(0, 230), &[at(1, 232)]);
    hand.point(end());
    hand.body(f, &[CLASS, STRING], 2);
    hand.point(length(2, at(1, 330)));
    hand.call_private(h, at(0, 337), &[at(1, 344)]);
    hand.point(end());
    hand.body(g, &[CLASS, STRING, BaseType::Int], 2);
    hand.call_private(f, at(0, 430), &[at(1, 432)]);
    hand.point(end());
    hand.body(h, &[CLASS, STRING], 2);
    hand.point(text(1));
    hand.call_private(f, at(0, 515), &[at(1, 517)]);
    hand.point(null(2));
    hand.call_private(h, at(0, 523), &[at(2, 525)]);
    hand.point(end());
    hand.body(go, &[CLASS, STRING, BaseType::Null], 1);
    hand.finish()
}
