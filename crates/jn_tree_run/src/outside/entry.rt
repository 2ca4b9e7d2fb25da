//! The body that a call from outside enters, and with which values (JLS 15.9 and 15.12).
use crate::outside::caller::Caller;
use jn_base::{ClassNo, MethodNo, NameNo};
use jn_machine::{Thing, Value};
use jn_points::Program;
use jn_points::members::{is_named, selected};
use jn_tree_world::frames::defaults;
use jn_trees::Names;
use std::alloc::{AllocError, Global};

#[derive(Drop)]
pub struct Entry {
    /// The number of the method or constructor.
    pub method: usize,
    /// The first locals, `this` first where it has one.
    pub values: Vec<Value>,
    /// The place of the object that a constructor builds.
    pub made: Option<usize>,
}

/// The number of a text, where names have numbers of 32 bits.
fn number_of(names: &Names, text: &str) -> Option<NameNo> {
    if names.len() > u32::MAX as usize {
        return None;
    }
    names.number(text)
}

/// The class of a name.
fn class_named(program: &Program, names: &Names, text: &str) -> Option<ClassNo> {
    let name = number_of(names, text)?;
    let mut number: u32 = 0;
    for class in program.classes.as_slice() {
        if class.name.0 == name.0 {
            return Some(ClassNo(number));
        }
        number = number.saturating_add(1);
    }
    None
}

/// The constructor of a class with so many parameters.
fn constructor_of(program: &Program, class: ClassNo, arity: usize) -> Option<MethodNo> {
    let mut number: u32 = 0;
    for method in program.methods.as_slice() {
        if method.ctor && method.owner.0 == class.0 && method.params.len() == arity {
            return Some(MethodNo(number));
        }
        number = number.saturating_add(1);
    }
    None
}

/// The method of a name that a class declares with so many parameters.
fn method_of(
    program: &Program,
    names: &Names,
    class: ClassNo,
    text: &str,
    arity: usize,
) -> Option<MethodNo> {
    let name = number_of(names, text)?;
    let mut number: u32 = 0;
    for method in program.methods.as_slice() {
        if is_named(method, name, arity) && method.owner.0 == class.0 {
            return Some(MethodNo(number));
        }
        number = number.saturating_add(1);
    }
    None
}

/// The values, copied after the first ones.
fn behind(values: Vec<Value>, more: &[Value]) -> Result<Vec<Value>, AllocError> {
    let mut all = values;
    for value in more {
        all.push(value.copy()?)?;
    }
    Ok(all)
}

/// `new CLASS(..)`. The object comes onto the heap, with the default value in each field.
pub fn construction(
    alloc: Global,
    program: &Program,
    names: &Names,
    caller: &mut Caller,
    class: &str,
    args: &[Value],
) -> Result<Option<Entry>, AllocError> {
    let Some(class) = class_named(program, names, class) else {
        return Ok(None);
    };
    let Some(ctor) = constructor_of(program, class, args.len()) else {
        return Ok(None);
    };
    let place = caller.heap.len();
    let fields = defaults(alloc, program.fields.as_slice())?;
    caller.heap.push(Thing::object(class, fields))?;
    let mut this = Vec::new(alloc);
    this.push(Value::at(place))?;
    Ok(Some(Entry {
        method: ctor.0 as usize,
        values: behind(this, args)?,
        made: Some(place),
    }))
}

/// `CLASS.METHOD(..)` of a static method.
pub fn static_call(
    alloc: Global,
    program: &Program,
    names: &Names,
    class: &str,
    name: &str,
    args: &[Value],
) -> Result<Option<Entry>, AllocError> {
    let Some(class) = class_named(program, names, class) else {
        return Ok(None);
    };
    let Some(method) = method_of(program, names, class, name, args.len()) else {
        return Ok(None);
    };
    Ok(Some(Entry {
        method: method.0 as usize,
        values: behind(Vec::new(alloc), args)?,
        made: None,
    }))
}

/// The method that the object runs for the one that a class declares by this name.
fn method_on(
    program: &Program,
    names: &Names,
    caller: &Caller,
    class: &str,
    name: &str,
    object: &Value,
    arity: usize,
) -> Option<usize> {
    let declaring = class_named(program, names, class)?;
    let named = method_of(program, names, declaring, name, arity)?;
    let own = caller.heap.get(object.object()?)?.class()?;
    selected(program, ClassNo(own), named)
}

/// A method that a class declares, called on an object.
pub fn call_on(
    alloc: Global,
    program: &Program,
    names: &Names,
    caller: &Caller,
    class: &str,
    name: &str,
    values: &[Value],
) -> Result<Option<Entry>, AllocError> {
    let [object, args @ ..] = values else {
        return Ok(None);
    };
    match method_on(program, names, caller, class, name, object, args.len()) {
        None => Ok(None),
        Some(method) => Ok(Some(Entry {
            method,
            values: behind(Vec::new(alloc), values)?,
            made: None,
        })),
    }
}
