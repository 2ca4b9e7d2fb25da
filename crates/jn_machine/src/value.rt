//! Values.
ghost use Rattle.std.specs.Prelude.{◌≡◌, IfOk, Option, Some, None, MatchOption};
ghost use Rattle.jn_heap.specs.Values as spec;
ghost use Rattle.jn_heap.specs.State.{State, object_of, prim_of};
ghost use Rattle.jn_heap.specs.Steps.{str_op, test_null, is_within, may_hold, cast_of, test_inst};
ghost use Rattle.jn_machine.specs.Ends.{answer_of};
ghost use Rattle.jn_machine.specs.Parts.{goes_to};

use crate::prim::{End, Got, Plain, Primitive};
use crate::text;
use crate::thing::Thing;
use jn_base::{ClassNo, PointNo, Text};
use jn_points::members::is_subclass;
use jn_points::{BaseType, Program, StrOperation};
use std::alloc::{AllocError, Global};
use std::marker::Model;
use std::rc::Rc;

#[derive(Drop)]
pub(crate) enum Node {
    Null,
    Text(Rc<Text>),
    Plain(Primitive),
    At(usize),
}

/// A value: null, a String, an int or a boolean, or the place of a thing on the heap; contracts
/// see the definition's. Copies of a String share its text.
#[derive(Drop)]
pub struct Value {
    node: Node,
}

impl Model for Value {
    ghost use Rattle.jn_machine.specs.ValueView.{value_view};
    ghost use Rattle.jn_heap.specs.Values.{Value as Defined};

    ghost Value = { Defined };

    ghost view = { λ v. value_view v.node };
}

impl Value {
    pub fn null() -> Value
        ensures { result ≡ spec.NullRef }
    {
        Value { node: Node::Null }
    }

    pub fn text(alloc: Global, text: Text) -> Result<Value, AllocError>
        ensures { IfOk result (λ v. v ≡ spec.Text text) }
    {
        match Rc::new(alloc, text) {
            Ok(shared) => Ok(Value {
                node: Node::Text(shared),
            }),
            Err(_) => Err(AllocError),
        }
    }

    pub fn plain(prim: Primitive) -> Value
        ensures { result ≡ spec.Plain prim }
    {
        Value {
            node: Node::Plain(prim),
        }
    }

    /// A reference to the thing at a place of the heap.
    pub fn at(place: usize) -> Value
        ensures { result ≡ spec.At place }
    {
        Value {
            node: Node::At(place),
        }
    }

    /// What a field or element of a type has first.
    pub fn default_of(base: BaseType) -> Value
        ensures { result ≡ spec.default_of base }
    {
        match base {
            BaseType::Int | BaseType::Void => Value::plain(Primitive::int(0)),
            BaseType::Bool => Value::plain(Primitive::bool(false)),
            BaseType::Null | BaseType::Ref(_) | BaseType::Array(..) => Value::null(),
        }
    }

    pub fn copy(&self) -> Result<Value, AllocError>
        ensures { IfOk result (λ v. v ≡ self.now) }
    {
        match &self.node {
            Node::Null => Ok(Value::null()),
            Node::Text(text) => {
                let shared = text.clone()?;
                Ok(Value {
                    node: Node::Text(shared),
                })
            }
            Node::Plain(prim) => Ok(Value::plain(prim.copy())),
            Node::At(place) => Ok(Value::at(*place)),
        }
    }

    /// The place on the heap, of a reference to a thing.
    pub fn object(&self) -> Option<usize>
        ensures { result ≡ object_of (Some self.now) }
    {
        match &self.node {
            Node::At(place) => Some(*place),
            Node::Null | Node::Text(_) | Node::Plain(_) => None,
        }
    }

    /// The int or boolean, of such a value.
    pub fn prim(&self) -> Option<Primitive>
        ensures { result ≡ prim_of (Some self.now) }
    {
        match &self.node {
            Node::Plain(prim) => Some(prim.copy()),
            Node::Null | Node::Text(_) | Node::At(_) => None,
        }
    }

    /// The text that joins and prints of the value; None of a thing on the heap.
    pub fn shown(&self, alloc: Global) -> Result<Option<Text>, AllocError>
        ensures { IfOk result (λ t. t ≡ spec.text_of self.now) }
    {
        let text = match &self.node {
            Node::Null => Text::of_str(alloc, "null")?,
            Node::Text(text) => text.copy(alloc)?,
            Node::Plain(prim) => match prim.plain() {
                Plain::Int(number) => text::decimal(alloc, number)?,
                Plain::Bool(true) => Text::of_str(alloc, "true")?,
                Plain::Bool(false) => Text::of_str(alloc, "false")?,
            },
            Node::At(_) => return Ok(None),
        };
        Ok(Some(text))
    }

    /// Whether both are null, or the same thing on the heap.
    pub fn same(&self, other: &Value) -> bool
        ensures { result ≡ spec.same self.now other.now }
    {
        match (&self.node, &other.node) {
            (Node::Null, Node::Null) => true,
            (Node::At(a), Node::At(b)) => *a == *b,
            _ => false,
        }
    }

    /// Whether the value is this text.
    pub fn is_text(&self, text: &str) -> bool
        ensures { result ≡ spec.is_text text.now self.now }
    {
        match &self.node {
            Node::Text(own) => text == own.as_str(),
            Node::Null | Node::Plain(_) | Node::At(_) => false,
        }
    }

    /// The bytes of a String.
    pub fn as_text(&self) -> Option<&str>
        ensures { MatchOption result
            ((op : StrOperation) (other : Option spec.Value)
            → str_op op (Some self.now) other ≡ spec.Lacks)
            (λ t. self.now ≡ spec.Text t.now) }
    {
        match &self.node {
            Node::Text(text) => Some(text.as_str()),
            Node::Null | Node::Plain(_) | Node::At(_) => None,
        }
    }

    /// The one point for null, the other for another reference; None of an int or a boolean.
    pub fn null_side(&self, null: PointNo, non_null: PointNo) -> Option<PointNo>
        ensures { (st : State)
            → test_null st null.0 non_null.0 (Some self.now) ≡ goes_to st result }
    {
        match &self.node {
            Node::Null => Some(null),
            Node::Text(_) | Node::At(_) => Some(non_null),
            Node::Plain(_) => None,
        }
    }

    /// Whether the value, if it isn't null, is of the class.
    pub fn is_within(&self, program: &Program, heap: &[Thing], class: ClassNo) -> bool
        ensures { result ≡ is_within program.now heap.now self.now class.0 }
    {
        match &self.node {
            Node::Null | Node::Plain(_) => false,
            Node::Text(_) => is_subclass(program, ClassNo(1), class),
            Node::At(place) => match heap.get(*place) {
                None => false,
                Some(thing) => thing.is_within(program, class),
            },
        }
    }

    /// Whether an array of elements of the type may hold the value.
    pub fn may_be_held(&self, program: &Program, heap: &[Thing], base: BaseType) -> bool
        ensures { result ≡ may_hold program.now heap.now base self.now }
    {
        match &self.node {
            Node::Null => matches!(base, BaseType::Ref(_)),
            Node::Text(_) | Node::At(_) => match base {
                BaseType::Ref(class) => self.is_within(program, heap, class),
                _ => false,
            },
            Node::Plain(prim) => match prim.plain() {
                Plain::Int(_) => matches!(base, BaseType::Int),
                Plain::Bool(_) => matches!(base, BaseType::Bool),
            },
        }
    }

    /// The value, where it is null or of the class; another reference ends the run.
    pub fn cast(
        &self,
        program: &Program,
        heap: &[Thing],
        class: ClassNo,
    ) -> Result<Got<Value>, AllocError>
        ensures { IfOk result
            (λ g. answer_of g ≡ cast_of program.now heap.now (Some self.now) class.0) }
    {
        match &self.node {
            Node::Null => Ok(Got::Gives(Value::null())),
            Node::Plain(_) => Ok(Got::Lacks),
            Node::Text(_) | Node::At(_) => {
                if self.is_within(program, heap, class) {
                    let copy = self.copy()?;
                    Ok(Got::Gives(copy))
                } else {
                    Ok(Got::Fails(End::ClassCast))
                }
            }
        }
    }

    /// The one point where the value is of the class, the other where it is null or isn't; None
    /// of an int or a boolean.
    pub fn inst_side(
        &self,
        program: &Program,
        heap: &[Thing],
        class: ClassNo,
        yes: PointNo,
        no: PointNo,
    ) -> Option<PointNo>
        ensures { (st : State) → st.heap ≡ heap.now
            → test_inst program.now st class.0 yes.0 no.0 (Some self.now) ≡ goes_to st result }
    {
        match &self.node {
            Node::Null => Some(no),
            Node::Plain(_) => None,
            Node::Text(_) | Node::At(_) => {
                if self.is_within(program, heap, class) {
                    Some(yes)
                } else {
                    Some(no)
                }
            }
        }
    }
}
