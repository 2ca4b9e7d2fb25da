//! What a row J2 may mean: the methods, constructors or fields of the name that stands there.
ghost use Rattle.std.specs.Prelude.{◌≡◌, ◌++◌, eqb, flat_map, find, IfOk, OnOk, Some};
ghost use Rattle.jn_points.specs.Lookup.{class_info};
ghost use Rattle.jn_points.specs.Members.{first_at};
ghost use Rattle.jn_notes.specs.Asked as asked;
ghost use Rattle.jn_phase_notes.specs.Possible as spec;

use crate::mentioning::{Kind, Mention};
use jn_base::{ClassNo, FileNo, NameNo, Seq, Span};
use jn_notes::reads::same_span;
use jn_points::lookup::class_at;
use jn_points::{Class, Field, Method, Program};
use std::alloc::{AllocError, Global};

/// What a candidate is to the name that stands there.
#[derive(Clone, Copy)]
pub enum How {
    OtherArity,
    OtherMaker,
    StaticMethod,
    AbstractMethod,
    ObjectMethod,
    StaticField,
    ObjectField,
    AbstractClass,
    InterfaceType,
}

/// A member or a class that a name may mean, with the name of its class, and how many parameters it has.
#[derive(Clone, Copy)]
pub struct Candidate {
    pub how: How,
    pub name: NameNo,
    pub owner: NameNo,
    pub params: usize,
    pub span: Span,
}

const NOWHERE: Span = Span {
    file: FileNo(0),
    from: 0,
    to: 0,
};

fn method_how(arguments: usize, method: &Method) -> How
    ensures { result ≡ spec.method_how arguments method.now }
{
    if method.params.len() != arguments {
        How::OtherArity
    } else if method.is_static {
        How::StaticMethod
    } else if method.is_abstract {
        How::AbstractMethod
    } else {
        How::ObjectMethod
    }
}

/// The name of a class by its number, or else this one.
fn owner_name(program: &Program, name: NameNo, class: ClassNo) -> NameNo
    ensures { result ≡ spec.name_or name (class_info program.now class.0) }
{
    match class_at(program, class.0 as usize) {
        None => name,
        Some(info) => info.name,
    }
}

/// Puts a method, if it has that name.
fn put_called(
    program: &Program,
    name: NameNo,
    arguments: usize,
    method: &Method,
    found: &mut Seq<Candidate>,
) -> Result<(), AllocError>
    ensures { OnOk result
        (found.new ≡ found.old ++ spec.called program.now name.0 arguments method.now) }
{
    if method.ctor || method.name.0 != name.0 {
        return Ok(());
    }
    found.push(Candidate {
        how: method_how(arguments, method),
        name: method.name,
        owner: owner_name(program, method.name, method.owner),
        params: method.params.len(),
        span: method.span,
    })
}

fn put_all_called(
    program: &Program,
    name: NameNo,
    arguments: usize,
    found: &mut Seq<Candidate>,
) -> Result<(), AllocError>
    ensures { OnOk result (found.new
        ≡ found.old ++ flat_map (spec.called program.now name.0 arguments) program.now.methods) }
{
    for method in program.methods.as_slice() {
        put_called(program, name, arguments, method, found)?;
    }
    Ok(())
}

/// Puts a constructor that is written, if it is that class's and takes another number of arguments.
fn put_maker(
    program: &Program,
    class: usize,
    arguments: usize,
    method: &Method,
    found: &mut Seq<Candidate>,
) -> Result<(), AllocError>
    ensures { OnOk result
        (found.new ≡ found.old ++ spec.maker program.now class arguments method.now) }
{
    if !method.ctor
        || method.owner.0 as usize != class
        || method.params.len() == arguments
        || same_span(method.span, NOWHERE)
    {
        return Ok(());
    }
    found.push(Candidate {
        how: How::OtherMaker,
        name: method.name,
        owner: owner_name(program, method.name, method.owner),
        params: method.params.len(),
        span: method.span,
    })
}

fn put_makers(
    program: &Program,
    class: usize,
    arguments: usize,
    found: &mut Seq<Candidate>,
) -> Result<(), AllocError>
    ensures { OnOk result (found.new
        ≡ found.old ++ flat_map (spec.maker program.now class arguments) program.now.methods) }
{
    for method in program.methods.as_slice() {
        put_maker(program, class, arguments, method, found)?;
    }
    Ok(())
}

fn put_field(
    program: &Program,
    name: NameNo,
    field: &Field,
    found: &mut Seq<Candidate>,
) -> Result<(), AllocError>
    ensures { OnOk result (found.new ≡ found.old ++ spec.read program.now name.0 field.now) }
{
    if field.name.0 != name.0 {
        return Ok(());
    }
    let how = if field.is_static {
        How::StaticField
    } else {
        How::ObjectField
    };
    found.push(Candidate {
        how,
        name: field.name,
        owner: owner_name(program, field.name, field.owner),
        params: 0,
        span: field.span,
    })
}

fn put_fields(program: &Program, name: NameNo, found: &mut Seq<Candidate>) -> Result<(), AllocError>
    ensures { OnOk result (found.new
        ≡ found.old ++ flat_map (spec.read program.now name.0) program.now.fields) }
{
    for field in program.fields.as_slice() {
        put_field(program, name, field, found)?;
    }
    Ok(())
}

/// Puts a class, if `new` makes no object of it.
fn put_bare(class: &Class, found: &mut Seq<Candidate>) -> Result<(), AllocError>
    ensures { OnOk result (found.new ≡ found.old ++ spec.bare_class (Some class.now)) }
{
    if !class.interface && !class.is_abstract {
        return Ok(());
    }
    let how = if class.interface {
        How::InterfaceType
    } else {
        How::AbstractClass
    };
    found.push(Candidate {
        how,
        name: class.name,
        owner: class.name,
        params: 0,
        span: class.span,
    })
}

/// The number of the first class of the name.
fn class_number(classes: &[Class], name: NameNo) -> Option<usize>
    ensures { result ≡ first_at (λ x. eqb x.name.0 name.0) 0 classes.now }
{
    for (c, class) in classes.iter().enumerate() {
        if class.name.0 == name.0 {
            return Some(c);
        }
    }
    None
}

/// Puts what the making of an object of that class may mean.
fn put_made(
    program: &Program,
    class: Option<usize>,
    arguments: usize,
    found: &mut Seq<Candidate>,
) -> Result<(), AllocError>
    ensures { OnOk result (found.new ≡ found.old ++ spec.makers program.now arguments class) }
{
    let Some(c) = class else {
        return Ok(());
    };
    match class_at(program, c) {
        None => put_makers(program, c, arguments, found),
        Some(info) => {
            put_bare(info, found)?;
            put_makers(program, c, arguments, found)
        }
    }
}

/// Puts what a call of that class's constructor by another one may mean.
fn put_built(
    program: &Program,
    class: Option<usize>,
    arguments: usize,
    found: &mut Seq<Candidate>,
) -> Result<(), AllocError>
    ensures { OnOk result (found.new ≡ found.old ++ spec.builders program.now arguments class) }
{
    match class {
        None => Ok(()),
        Some(c) => put_makers(program, c, arguments, found),
    }
}

/// What has the name, by what it is named as.
fn put_candidates(
    program: &Program,
    mention: Mention,
    found: &mut Seq<Candidate>,
) -> Result<(), AllocError>
    ensures { OnOk result (found.new
        ≡ found.old
        ++ spec.candidates program.now mention.name.0 mention.arguments mention.kind) }
{
    match mention.kind {
        Kind::Calls => put_all_called(program, mention.name, mention.arguments, found),
        Kind::Makes => {
            let class = class_number(program.classes.as_slice(), mention.name);
            put_made(program, class, mention.arguments, found)
        }
        Kind::Builds => {
            let class = class_number(program.classes.as_slice(), mention.name);
            put_built(program, class, mention.arguments, found)
        }
        Kind::Reads => put_fields(program, mention.name, found),
    }
}

/// What a member where it is named may mean.
pub(crate) fn candidates(
    alloc: Global,
    program: &Program,
    mention: Mention,
) -> Result<Seq<Candidate>, AllocError>
    ensures { IfOk result (λ found. found
        ≡ spec.candidates program.now mention.name.0 mention.arguments mention.kind) }
{
    let mut found = Seq::new(alloc);
    put_candidates(program, mention, &mut found)?;
    Ok(found)
}

/// The member that is named at a place.
pub(crate) fn mention_at(mentions: &[Mention], span: Span) -> Option<Mention>
    ensures { result ≡ find (λ m. asked.same_span m.span span) mentions.now }
{
    for mention in mentions {
        if same_span(mention.span, span) {
            return Some(*mention);
        }
    }
    None
}
