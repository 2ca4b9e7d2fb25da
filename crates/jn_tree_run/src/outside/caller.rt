//! What a caller holds between its calls: the heap, the static numbers, and what earlier calls gave, by name.
use jn_base::{FieldNo, NameNo, Text};
use jn_machine::{Got, Primitive, Thing, Value};
use jn_points::Program;
use jn_tree_world::World;
use jn_tree_world::frames::start;
use jn_trees::Names;
use std::alloc::{AllocError, Global};

/// The most elements of an array that are shown.
const SHOWN: i32 = 16;

#[derive(Drop)]
pub struct Caller {
    pub heap: Vec<Thing>,
    pub statics: Vec<Primitive>,
    results: Vec<(String, Value)>,
}

/// The text of a name.
fn name_text(names: &Names, name: NameNo) -> &str {
    if (name.0 as usize) < names.len() {
        names.text(name)
    } else {
        "?"
    }
}

/// The simple name of a class.
fn class_text<'a>(program: &Program, names: &'a Names, class: u32) -> &'a str {
    match program.classes.as_slice().get(class as usize) {
        None => "?",
        Some(info) => name_text(names, info.name),
    }
}

/// The simple name of an object's class.
fn kind_text<'a>(program: &Program, names: &'a Names, thing: &Thing) -> &'a str {
    match thing.class() {
        None => "array",
        Some(class) => class_text(program, names, class),
    }
}

impl Caller {
    /// Nothing on the heap, each static number as it is first, and no result.
    pub fn new(alloc: Global, program: &Program) -> Result<Caller, AllocError> {
        let World { statics, .. } = start(alloc, program, &[], 0)?;
        Ok(Caller {
            heap: Vec::new(alloc),
            statics,
            results: Vec::new(alloc),
        })
    }

    /// What a call gave is kept by this name.
    pub fn keep(&mut self, alloc: Global, name: &str, value: Value) -> Result<(), AllocError> {
        let name = name.to_string(alloc)?;
        self.results.push((name, value))?;
        Ok(())
    }

    /// What the last call of the name gave.
    fn result(&self, word: &str) -> Result<Option<Value>, AllocError> {
        let mut found = None;
        for (name, value) in &self.results {
            if name.as_str() == word {
                found = Some(value.copy()?);
            }
        }
        Ok(found)
    }

    /// The value that a word of a table stands for: `null`, `true`, `false`, a number, a text after an apostrophe, or
    /// the last result of the name.
    pub fn value(&self, alloc: Global, word: &str) -> Result<Option<Value>, AllocError> {
        if word == "null" {
            return Ok(Some(Value::null()));
        }
        if word == "true" || word == "false" {
            return Ok(Some(Value::plain(Primitive::bool(word == "true"))));
        }
        if let Some(text) = word.strip_prefix("'") {
            let text = Text::of_str(alloc, text)?;
            return Ok(Some(Value::text(alloc, text)?));
        }
        if let Some(number) = word.parse().ok() {
            return Ok(Some(Value::plain(Primitive::int(number))));
        }
        self.result(word)
    }

    /// A value as the tables write it, or the class and the place of an object.
    pub fn value_text(
        &self,
        alloc: Global,
        program: &Program,
        names: &Names,
        value: &Value,
    ) -> Result<String, AllocError> {
        if let Some(text) = value.as_text() {
            return format!(in alloc; "'{text}");
        }
        if let Some(place) = value.object() {
            let class = match self.heap.get(place) {
                None => "?",
                Some(thing) => kind_text(program, names, thing),
            };
            return format!(in alloc; "{class}@{place}");
        }
        match value.shown(alloc)? {
            None => "?".to_string(alloc),
            Some(text) => text.as_str().to_string(alloc),
        }
    }

    /// The fields that an object has.
    fn fields_text(
        &self,
        alloc: Global,
        program: &Program,
        names: &Names,
        thing: &Thing,
    ) -> Result<String, AllocError> {
        let mut parts = String::new(alloc);
        let mut number: u32 = 0;
        for field in program.fields.as_slice() {
            if let Some(value) = thing.field(program, FieldNo(number)) {
                let shown = self.value_text(alloc, program, names, value)?;
                let name = name_text(names, field.name);
                let part = format!(in alloc; " {name}={shown}")?;
                parts.push_str(part.as_str())?;
            }
            number = number.saturating_add(1);
        }
        Ok(parts)
    }

    /// The first elements of an array.
    fn elements_text(
        &self,
        alloc: Global,
        program: &Program,
        names: &Names,
        thing: &Thing,
    ) -> Result<String, AllocError> {
        let mut parts = String::new(alloc);
        for at in 0..SHOWN {
            if let Got::Gives(value) = thing.element(at)? {
                let shown = self.value_text(alloc, program, names, &value)?;
                let part = format!(in alloc; " {shown}")?;
                parts.push_str(part.as_str())?;
            }
        }
        Ok(parts)
    }

    /// The line of a thing on the heap.
    fn thing_text(
        &self,
        alloc: Global,
        program: &Program,
        names: &Names,
        place: usize,
        thing: &Thing,
    ) -> Result<String, AllocError> {
        let kind = kind_text(program, names, thing);
        let fields = self.fields_text(alloc, program, names, thing)?;
        let elements = self.elements_text(alloc, program, names, thing)?;
        format!(in alloc; "  {kind}@{place}{fields}{elements}\n")
    }

    /// A line for each thing on the heap.
    pub fn heap_text(
        &self,
        alloc: Global,
        program: &Program,
        names: &Names,
    ) -> Result<String, AllocError> {
        let mut lines = String::new(alloc);
        for (place, thing) in self.heap.iter().enumerate() {
            let line = self.thing_text(alloc, program, names, place, thing)?;
            lines.push_str(line.as_str())?;
        }
        Ok(lines)
    }
}
