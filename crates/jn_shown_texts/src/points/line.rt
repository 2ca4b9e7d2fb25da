//! What a point has, part by part. A want of memory is kept until the end, so that what puts parts has no `?`.
use jn_base::{ClassNo, FieldNo, MethodNo, OutOfMemory, PointNo, RegNo};
use jn_points::{BaseType, Literal, Operand, Origin};
use jn_quals::Qual;
use std::alloc::Global;

/// One of the things that a point has.
#[derive(Clone, Copy)]
pub enum Part {
    /// Its kind, or a word for one of several.
    Word(&'static str),
    /// A register to which it writes.
    To(RegNo),
    /// A value that it reads.
    Value(Operand),
    Constant(Literal),
    Field(FieldNo),
    Method(MethodNo),
    Class(ClassNo),
    Base(BaseType),
    /// The field of a register of which a test tells.
    Origin(Origin),
    /// Where it goes.
    Target(PointNo),
}

/// What stands for something that is absent.
const ABSENT: Part = Part::Word("-");

/// The parts of a point so far.
#[derive(Drop)]
pub struct Line {
    parts: Vec<Part>,
    is_short: bool,
}

impl Line {
    pub fn new(alloc: Global) -> Line {
        Line {
            parts: Vec::new(alloc),
            is_short: false,
        }
    }

    fn push(&mut self, part: Part) {
        if self.parts.push(part).is_err() {
            self.is_short = true;
        }
    }

    pub fn put(&mut self, parts: &[Part]) {
        for part in parts {
            self.push(*part);
        }
    }

    pub fn values(&mut self, values: &[Operand]) {
        for value in values {
            self.push(Part::Value(*value));
        }
    }

    pub fn to(&mut self, register: Option<RegNo>) {
        match register {
            Some(register) => self.push(Part::To(register)),
            None => self.push(ABSENT),
        }
    }

    pub fn value(&mut self, value: Option<Operand>) {
        match value {
            Some(value) => self.push(Part::Value(value)),
            None => self.push(ABSENT),
        }
    }

    pub fn origin(&mut self, origin: Option<Origin>) {
        match origin {
            Some(origin) => self.push(Part::Origin(origin)),
            None => self.push(ABSENT),
        }
    }

    pub fn bound(&mut self, bound: Option<Qual>) {
        match bound {
            Some(bound) => self.push(Part::Word(bits_word(bound.bits()))),
            None => self.push(ABSENT),
        }
    }

    /// The parts, if memory was found for all of them.
    pub fn finish(self) -> Result<Vec<Part>, OutOfMemory> {
        let Line { parts, is_short } = self;
        if is_short {
            Err(OutOfMemory)
        } else {
            Ok(parts)
        }
    }
}

/// The letters of a set of bits.
fn bits_word(bits: u8) -> &'static str {
    match bits {
        0 => "none",
        1 => "N",
        2 => "C",
        3 => "NC",
        4 => "F",
        5 => "NF",
        6 => "CF",
        _ => "NCF",
    }
}
