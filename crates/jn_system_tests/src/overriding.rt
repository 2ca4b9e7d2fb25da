//! Programs made by hand in which one class overrides a method of another. Where a place stands it is line times 100 plus column.
use jn_points::{BaseType, Program};
use jn_test_programs::build::{
    FIRST, Hand, Kind, NEW_OBJECT, OBJECT, SECOND, STRING, VOID, committed, inferred, instance,
    named, nullable,
};
use jn_test_programs::lines::{at, end, length, write};
use std::alloc::{AllocError, Global};

const BASE: BaseType = BaseType::Ref(FIRST);

const DERIVED: BaseType = BaseType::Ref(SECOND);

/// ```java
/// class Base {
///   private Base next;
///   String name;
///   Base(@Nullable Base other) { this.next = other; }
///   void take(@Nullable String text) { text.length(); }
/// }
/// class Derived extends Base {
///   void take(String text) { }
/// }
/// ```
///
/// `next` and the parameter of the last method are inferred, as where members without an access word are. The slots are: 0
/// `next`, 1 `name`, 2 `other`, 3 and 4 the parameter and the receiver of the first `take`, 5 and 6 those of the second.
pub fn overriding(alloc: Global) -> Result<Program, AllocError> {
    let mut hand = Hand::new(alloc);
    let base = hand.class(OBJECT, &[]);
    let derived = hand.class(base, &[]);
    let next = hand.field(base, 1, inferred(BASE));
    hand.field(base, 2, committed(STRING));
    let other = [nullable(BASE)];
    let new = hand.method(base, named(3, 408), Kind::Constructor, &other, VOID);
    let text = [nullable(STRING)];
    let take = hand.method(base, named(4, 508), instance(), &text, VOID);
    let text = [inferred(STRING)];
    let again = hand.method(derived, named(4, 808), instance(), &text, VOID);
    hand.construct(NEW_OBJECT, &[], false);
    hand.point(write(at(0, 432), next, at(1, 444)));
    hand.point(end());
    hand.body(new, &[BASE, BASE], 2);
    hand.point(length(2, at(1, 538)));
    hand.point(end());
    hand.body(take, &[BASE, STRING, BaseType::Int], 2);
    hand.point(end());
    hand.body(again, &[DERIVED, STRING], 2);
    hand.finish()
}
