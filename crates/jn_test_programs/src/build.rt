//! Programs made by hand. Class 0 is Object, with its constructor without parameters, and class 1 is String.
//! A constructor that Java gives a class without one is left out where nothing calls it.
use crate::lines::{call, construct, create, end, span};
use jn_base::{BodyNo, ClassNo, FieldNo, MethodNo, NameNo, RegNo, Seq, SlotNo, Span};
use jn_points::{BaseType, Body, Class, Elem, Field, Method, Operand, Point, Program, SlotInfo};
use jn_quals::Qual;
use std::alloc::{AllocError, Global};
use std::mem;

pub const OBJECT: ClassNo = ClassNo(0);

/// The constructor of Object.
pub const NEW_OBJECT: MethodNo = MethodNo(0);

/// The class that is added first, by its number, and those after it.
pub const FIRST: ClassNo = ClassNo(2);

pub const SECOND: ClassNo = ClassNo(3);

pub const STRING: BaseType = BaseType::Ref(ClassNo(1));

pub const STRINGS: BaseType = BaseType::Array(Elem::Ref(ClassNo(1)), false);

pub const NULLABLE_STRINGS: BaseType = BaseType::Array(Elem::Ref(ClassNo(1)), true);

/// The type of a field, parameter or result, and the qualifier of its slot, where it has one.
#[derive(Clone, Copy)]
pub struct Typed {
    base: BaseType,
    slot: Written,
}

/// How a slot gets its qualifier.
#[derive(Clone, Copy)]
enum Written {
    NoSlot,
    As(Qual),
    Inferred,
}

/// An int, a boolean or void.
pub fn plain(base: BaseType) -> Typed {
    Typed {
        base,
        slot: Written::NoSlot,
    }
}

pub const VOID: Typed = Typed {
    base: BaseType::Void,
    slot: Written::NoSlot,
};

/// A reference with the annotations that give it this qualifier.
pub fn with(base: BaseType, qual: Qual) -> Typed {
    Typed {
        base,
        slot: Written::As(qual),
    }
}

/// A reference without annotations, of a member that isn't private.
pub fn committed(base: BaseType) -> Typed {
    with(base, Qual::committed_only())
}

/// A `@Nullable` reference.
pub fn nullable(base: BaseType) -> Typed {
    with(base, Qual::null_or_committed())
}

/// A reference without annotations, of a private member.
pub fn inferred(base: BaseType) -> Typed {
    Typed {
        base,
        slot: Written::Inferred,
    }
}

/// What a method is.
#[derive(Clone, Copy)]
pub enum Kind {
    Constructor,
    Static,
    /// With the qualifier of its receiver.
    Instance(Qual),
    /// Abstract, with the qualifier of its receiver.
    Abstract(Qual),
    /// A private one, whose receiver is inferred.
    Private,
    PrivateStatic,
}

/// An instance method whose receiver has no annotation.
pub fn instance() -> Kind {
    Kind::Instance(Qual::committed_only())
}

/// A name, and the place where it stands.
#[derive(Clone, Copy)]
pub struct Name {
    pub number: u32,
    pub from: u32,
}

/// A program that grows. Classes, fields, methods and bodies have the numbers of the order in which they
/// are added, and points are those of the next body. A want of memory is kept until the end.
#[derive(Drop)]
pub struct Hand {
    alloc: Global,
    classes: Vec<Class>,
    fields: Vec<Field>,
    methods: Vec<Method>,
    bodies: Vec<Body>,
    slots: Vec<SlotInfo>,
    points: Vec<Point>,
    is_short: bool,
}

/// The number of what is added after so many; the programs here are small.
fn number(count: usize) -> u32 {
    if count < 1000 { count as u32 } else { 1000 }
}

/// A copy of the items; what finds no memory is noted.
fn copied<T: Copy + Drop>(alloc: Global, items: &[T], is_short: &mut bool) -> Seq<T> {
    match Vec::from_slice(alloc, items) {
        Ok(copy) => Seq::of_vec(copy),
        Err(_) => {
            *is_short = true;
            Seq::new(alloc)
        }
    }
}

/// Adds the item; what finds no memory is noted.
fn put<T: Drop>(items: &mut Vec<T>, item: T, is_short: &mut bool) {
    if items.push(item).is_err() {
        *is_short = true;
    }
}

impl Hand {
    /// Object and String.
    pub fn new(alloc: Global) -> Hand {
        let mut hand = Hand {
            alloc,
            classes: Vec::new(alloc),
            fields: Vec::new(alloc),
            methods: Vec::new(alloc),
            bodies: Vec::new(alloc),
            slots: Vec::new(alloc),
            points: Vec::new(alloc),
            is_short: false,
        };
        hand.push_class(None, &[], false, false);
        hand.push_class(Some(OBJECT), &[], false, false);
        hand.method(OBJECT, named(0, 0), Kind::Constructor, &[], VOID);
        hand.point(end());
        hand.body(NEW_OBJECT, &[BaseType::Ref(OBJECT)], 1);
        hand
    }

    fn supers(&mut self, parent: Option<ClassNo>, interfaces: &[ClassNo]) -> Seq<ClassNo> {
        let mut supers = Vec::new(self.alloc);
        if let Some(parent) = parent {
            put(&mut supers, parent, &mut self.is_short);
        }
        for interface in interfaces {
            put(&mut supers, *interface, &mut self.is_short);
        }
        Seq::of_vec(supers)
    }

    fn push_class(
        &mut self,
        parent: Option<ClassNo>,
        interfaces: &[ClassNo],
        interface: bool,
        is_abstract: bool,
    ) -> ClassNo {
        let class = number(self.classes.len());
        let supers = self.supers(parent, interfaces);
        let added = Class {
            name: NameNo(class),
            span: span(0),
            interface,
            is_abstract,
            is_final: class == 1,
            parent,
            supers,
        };
        put(&mut self.classes, added, &mut self.is_short);
        ClassNo(class)
    }

    /// `class C extends P implements I, ..`
    pub fn class(&mut self, parent: ClassNo, interfaces: &[ClassNo]) -> ClassNo {
        self.push_class(Some(parent), interfaces, false, false)
    }

    /// `interface I extends J, ..`
    pub fn interface(&mut self, interfaces: &[ClassNo]) -> ClassNo {
        self.push_class(None, interfaces, true, true)
    }

    fn slot(&mut self, written: Written) -> Option<SlotNo> {
        let info = match written {
            Written::NoSlot => return None,
            Written::As(start) => SlotInfo {
                start,
                inferred: false,
            },
            Written::Inferred => SlotInfo {
                start: Qual::none(),
                inferred: true,
            },
        };
        let slot = number(self.slots.len());
        put(&mut self.slots, info, &mut self.is_short);
        Some(SlotNo(slot))
    }

    /// A field, private where it is inferred.
    pub fn field(&mut self, owner: ClassNo, name: u32, typed: Typed) -> FieldNo {
        let field = number(self.fields.len());
        let slot = self.slot(typed.slot);
        let added = Field {
            name: NameNo(name),
            span: span(0),
            owner,
            base: typed.base,
            is_static: false,
            is_final: false,
            is_private: is_inferred(typed.slot),
            is_monotonic: false,
            first: 0,
            slot,
        };
        put(&mut self.fields, added, &mut self.is_short);
        FieldNo(field)
    }

    fn param_slots(&mut self, params: &[Typed]) -> Seq<Option<SlotNo>> {
        let mut slots = Vec::new(self.alloc);
        for param in params {
            let slot = self.slot(param.slot);
            put(&mut slots, slot, &mut self.is_short);
        }
        Seq::of_vec(slots)
    }

    fn param_bases(&mut self, params: &[Typed]) -> Seq<BaseType> {
        let mut bases = Vec::new(self.alloc);
        for param in params {
            put(&mut bases, param.base, &mut self.is_short);
        }
        Seq::of_vec(bases)
    }

    /// The parameters stand where their method does.
    fn param_spans(&mut self, params: &[Typed], from: u32) -> Seq<Span> {
        let mut spans = Vec::new(self.alloc);
        for _ in params {
            put(&mut spans, span(from), &mut self.is_short);
        }
        Seq::of_vec(spans)
    }

    /// The head of a method; its body is added after.
    pub fn method(
        &mut self,
        owner: ClassNo,
        name: Name,
        kind: Kind,
        params: &[Typed],
        gives: Typed,
    ) -> MethodNo {
        let method = number(self.methods.len());
        let bases = self.param_bases(params);
        let param_spans = self.param_spans(params, name.from);
        let param_slots = self.param_slots(params);
        let receiver = self.slot(receiver_of(kind));
        let result_slot = self.slot(gives.slot);
        let added = Method {
            name: NameNo(name.number),
            span: span(name.from),
            owner,
            params: bases,
            param_spans,
            result: gives.base,
            ctor: matches!(kind, Kind::Constructor),
            is_static: matches!(kind, Kind::Static | Kind::PrivateStatic),
            is_private: matches!(kind, Kind::Private | Kind::PrivateStatic),
            is_abstract: matches!(kind, Kind::Abstract(_)),
            is_final: false,
            is_main: false,
            body: None,
            receiver,
            param_slots,
            result_slot,
        };
        put(&mut self.methods, added, &mut self.is_short);
        MethodNo(method)
    }

    /// A point of the next body.
    pub fn point(&mut self, point: Point) {
        put(&mut self.points, point, &mut self.is_short)
    }

    /// `dst = new C(args)`
    pub fn create(&mut self, dst: u32, constructor: MethodNo, args: &[Operand]) {
        let args = copied(self.alloc, args, &mut self.is_short);
        self.point(create(dst, constructor, args))
    }

    /// `super(args)`, or `this(args)` where it is an own one.
    pub fn construct(&mut self, constructor: MethodNo, args: &[Operand], own: bool) {
        let args = copied(self.alloc, args, &mut self.is_short);
        self.point(construct(constructor, args, own))
    }

    /// `receiver.method(args)`, whose result isn't used.
    pub fn call(&mut self, method: MethodNo, receiver: Option<Operand>, args: &[Operand]) {
        let args = copied(self.alloc, args, &mut self.is_short);
        self.point(call(None, method, receiver, false, args))
    }

    /// The same of a private method.
    pub fn call_private(&mut self, method: MethodNo, receiver: Operand, args: &[Operand]) {
        let args = copied(self.alloc, args, &mut self.is_short);
        self.point(call(None, method, Some(receiver), true, args))
    }

    /// `dst = receiver.method(args)`
    pub fn call_for(&mut self, dst: u32, method: MethodNo, receiver: Operand, args: &[Operand]) {
        let args = copied(self.alloc, args, &mut self.is_short);
        self.point(call(Some(RegNo(dst)), method, Some(receiver), false, args))
    }

    /// The body of a method, of the points since the last one. The first registers are `this`, parameters and locals.
    pub fn body(&mut self, method: MethodNo, regs: &[BaseType], locals: u32) {
        let body = number(self.bodies.len());
        let points = mem::replace(&mut self.points, Vec::new(self.alloc));
        let added = Body {
            method,
            regs: copied(self.alloc, regs, &mut self.is_short),
            locals,
            points: Seq::of_vec(points),
        };
        put(&mut self.bodies, added, &mut self.is_short);
        if let Some(head) = self.methods.get_mut(method.0 as usize) {
            head.body = Some(BodyNo(body));
        }
    }

    /// The program, if memory was found for all of it.
    pub fn finish(self) -> Result<Program, AllocError> {
        let Hand {
            classes,
            fields,
            methods,
            bodies,
            slots,
            is_short,
            ..
        } = self;
        let program = Program {
            classes: Seq::of_vec(classes),
            fields: Seq::of_vec(fields),
            methods: Seq::of_vec(methods),
            bodies: Seq::of_vec(bodies),
            slots: Seq::of_vec(slots),
        };
        if is_short {
            Err(AllocError)
        } else {
            Ok(program)
        }
    }
}

pub fn named(number: u32, from: u32) -> Name {
    Name { number, from }
}

fn is_inferred(slot: Written) -> bool {
    matches!(slot, Written::Inferred)
}

fn receiver_of(kind: Kind) -> Written {
    match kind {
        Kind::Constructor => Written::NoSlot,
        Kind::Static => Written::NoSlot,
        Kind::PrivateStatic => Written::NoSlot,
        Kind::Instance(qual) => Written::As(qual),
        Kind::Abstract(qual) => Written::As(qual),
        Kind::Private => Written::Inferred,
    }
}
