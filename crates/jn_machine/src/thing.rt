//! Things on the heap.
ghost use Rattle.std.specs.Prelude.{◌≡◌, Some, None, MatchOption, IfOk};
ghost use Rattle.jn_heap.specs.Values as spec;
ghost use Rattle.jn_heap.specs.Steps.{field_in, write_in, thing_within, item_or_index, item_at, elem_in, length_in};
ghost use Rattle.jn_heap.specs.Calls.{class_in};
ghost use Rattle.jn_machine.specs.Ends.{answer_of};
ghost use Rattle.jn_machine.specs.Parts.{IsKept, put_answer, may_hold_in, store_as};

use crate::lists::put;
use crate::prim::{self, End, Got};
use crate::value::Value;
use jn_base::{ClassNo, FieldNo};
use jn_points::lookup::elem_base;
use jn_points::members::{has_field, is_subclass};
use jn_points::{BaseType, Program};
use std::alloc::AllocError;
use std::marker::Model;

#[derive(Drop)]
pub(crate) enum Node {
    Object(ClassNo, Vec<Value>),
    Elems(BaseType, Vec<Value>),
}

/// An object with a value for each field of the program, or an array; contracts see the
/// definition's.
#[derive(Drop)]
pub struct Thing {
    node: Node,
}

impl Model for Thing {
    ghost use Rattle.jn_machine.specs.ThingView.{thing_view};
    ghost use Rattle.jn_heap.specs.Values.{Thing as Defined};

    ghost Value = { Defined };

    ghost view = { λ x. thing_view x.node };
}

impl Thing {
    pub fn object(class: ClassNo, fields: Vec<Value>) -> Thing
        ensures { result ≡ spec.Object class.0 fields.items }
    {
        Thing {
            node: Node::Object(class, fields),
        }
    }

    pub fn array(base: BaseType, items: Vec<Value>) -> Thing
        ensures { result ≡ spec.Elems base items.items }
    {
        Thing {
            node: Node::Elems(base, items),
        }
    }

    /// The class of an object; None of an array.
    pub fn class(&self) -> Option<u32>
        ensures { result ≡ class_in (Some self.now) }
    {
        match &self.node {
            Node::Object(class, _) => Some(class.0),
            Node::Elems(..) => None,
        }
    }

    /// The value of an object's field; None of an array, or where its class has no such field.
    pub fn field(&self, program: &Program, field: FieldNo) -> Option<&Value>
        ensures { MatchOption result (field_in program.now (Some self.now) field.0 ≡ None)
            (λ v. field_in program.now (Some self.now) field.0 ≡ Some v.now) }
    {
        match &self.node {
            Node::Object(class, fields) => {
                if has_field(program, *class, field) {
                    fields.get(field.0 as usize)
                } else {
                    None
                }
            }
            Node::Elems(..) => None,
        }
    }

    /// Puts a value into an object's field. An array, or an object whose class has no such field,
    /// lacks it.
    pub fn set_field(&mut self, program: &Program, field: FieldNo, value: Value) -> Got<()>
        ensures put { write_in program.now (Some self.old) field.0 value
            ≡ put_answer result self.new }
        ensures kept { IsKept result self.old self.new }
    {
        match &mut self.node {
            Node::Object(class, fields) => {
                if has_field(program, *class, field) {
                    put(fields, field.0 as usize, value);
                    Got::Gives(())
                } else {
                    Got::Lacks
                }
            }
            Node::Elems(..) => Got::Lacks,
        }
    }

    /// Whether the thing is of the class; an array is an Object.
    pub fn is_within(&self, program: &Program, class: ClassNo) -> bool
        ensures { result ≡ thing_within program.now (Some self.now) class.0 }
    {
        match &self.node {
            Node::Object(own, _) => is_subclass(program, *own, class),
            Node::Elems(..) => class.0 == 0,
        }
    }

    /// The number of an array's elements, as an int.
    pub fn length(&self) -> Got<Value>
        ensures { answer_of result ≡ length_in (Some self.now) }
    {
        match &self.node {
            Node::Object(..) => Got::Lacks,
            Node::Elems(_, items) => Got::Gives(Value::plain(prim::number_of(items.len()))),
        }
    }

    /// An array's element. Out of bounds the run ends.
    pub fn element(&self, at: i32) -> Result<Got<Value>, AllocError>
        ensures { IfOk result (λ g. answer_of g ≡ elem_in (Some self.now) (spec.index at)) }
    {
        match &self.node {
            Node::Object(..) => Ok(Got::Lacks),
            Node::Elems(_, items) => element_of(items, at),
        }
    }

    /// Whether the thing is an array that may hold the value as an element.
    pub fn may_hold(&self, program: &Program, heap: &[Thing], value: &Value) -> bool
        ensures { result ≡ may_hold_in program.now heap.now (Some self.now) value.now }
    {
        match &self.node {
            Node::Object(..) => false,
            Node::Elems(base, _) => value.may_be_held(program, heap, elem_base(*base)),
        }
    }

    /// Makes a value the element at a place, where the array may hold it. Out of bounds, and
    /// then where it may not, the run ends.
    pub fn set_element(&mut self, at: Option<usize>, value: Value, may: bool) -> Got<()>
        ensures put { store_as (Some self.old) at value may ≡ put_answer result self.new }
        ensures kept { IsKept result self.old self.new }
    {
        match &mut self.node {
            Node::Object(..) => Got::Lacks,
            Node::Elems(_, items) => match at {
                None => Got::Fails(End::Index),
                Some(place) => {
                    if place >= items.len() {
                        Got::Fails(End::Index)
                    } else if may {
                        put(items, place, value);
                        Got::Gives(())
                    } else {
                        Got::Fails(End::ArrayStore)
                    }
                }
            },
        }
    }
}

/// The place of an element; None below zero.
pub fn index(at: i32) -> Option<usize>
    ensures { result ≡ spec.index at }
{
    if at < 0 {
        None
    } else {
        Some(at.unsigned_abs() as usize)
    }
}

fn element_of(items: &[Value], at: i32) -> Result<Got<Value>, AllocError>
    ensures { IfOk result (λ g. answer_of g ≡ item_or_index (item_at items.now (spec.index at))) }
{
    let Some(place) = index(at) else {
        return Ok(Got::Fails(End::Index));
    };
    match items.get(place) {
        None => Ok(Got::Fails(End::Index)),
        Some(value) => {
            let copy = value.copy()?;
            Ok(Got::Gives(copy))
        }
    }
}
