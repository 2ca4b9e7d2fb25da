//! What the bodies of files are made of, in the order of their numbers (JLS 8.4, 8.8 and 8.8.9).
ghost use Rattle.std.specs.Prelude.{◌≡◌, ◌++◌, ◌∷◌, [], false, flat_map, length, map, Some, None, IfOk, OnOk};
ghost use Rattle.jn_heads.specs.Extract.{has_constructor, method_heads};
ghost use Rattle.jn_places.specs.PlacedView.{placed_file, placed_member, placed_members, placed_parameters, placed_statements, placed_type};
ghost use Rattle.jn_program_law.specs.FileSources as spec;
ghost use Rattle.jn_program.specs.Gathering.{class_trees, gathered, numbered_of};
ghost use Rattle.jn_program.specs.Starts.{AreStarts};
ghost use Rattle.jn_lower_stmt.specs.Sources.{source_of, sources_of};

use jn_base::lists::put;
use jn_base::{MethodNo, OutOfMemory};
use jn_lower_stmt::body::Source;
use jn_trees::{FileTree, Member, Parameter, Stmt, TypeTree};
use std::alloc::Global;

/// The sources so far, and the number of the next method.
#[derive(Drop)]
struct Gathered<'a> {
    sources: Vec<Source<'a>>,
    next: u32,
}

fn push<'a>(sources: &mut Vec<Source<'a>>, source: Source<'a>) -> Result<(), OutOfMemory>
    ensures { OnOk result (sources_of sources.new.items
        ≡ sources_of sources.old.items ++ source_of source.entry ∷ []) }
{
    match sources.push(source) {
        Ok(()) => Ok(()),
        Err(_) => Err(OutOfMemory),
    }
}

impl<'a> Gathered<'a> {
    /// Goes on to the next method. More than 2^32 - 1 count as want of memory.
    fn pass(&mut self) -> Result<(), OutOfMemory>
        ensures { OnOk result (numbered_of self.new ≡ gathered (numbered_of self.old) (None ∷ [])) }
    {
        match self.next.checked_add(1) {
            Some(next) => {
                self.next = next;
                Ok(())
            }
            None => Err(OutOfMemory),
        }
    }

    /// Adds the body of the next method.
    fn add(
        &mut self,
        parameters: &'a [Parameter],
        body: &'a [Stmt],
        members: &'a [Member],
    ) -> Result<(), OutOfMemory>
        ensures { OnOk result (numbered_of self.new
            ≡ gathered (numbered_of self.old) (Some (record {
              parameters = placed_parameters
                  parameters.now;
              body = placed_statements body.now;
              members = placed_members members.now;
            })
            ∷ [])) }
    {
        let source = Source {
            method: MethodNo(self.next),
            parameters,
            body,
            members,
        };
        push(&mut self.sources, source)?;
        self.pass()
    }
}

/// Adds the body of a method or constructor that the member declares; an interface has no constructor.
fn member<'a>(
    made: &mut Gathered<'a>,
    interface: bool,
    all: &'a [Member],
    member: &'a Member,
) -> Result<(), OutOfMemory>
    ensures { OnOk result (numbered_of made.new
        ≡ gathered (numbered_of made.old)
        (spec.member_trees interface (placed_members all.now) (placed_member member.now))) }
{
    match member {
        Member::Field { .. } => Ok(()),
        Member::Method {
            parameters,
            body,
            ..
        } => match body {
            None => made.pass(),
            Some(body) => made.add(parameters, body, all),
        },
        Member::Constructor {
            parameters,
            body,
            ..
        } => {
            if interface {
                Ok(())
            } else {
                made.add(parameters, body, all)
            }
        }
    }
}

fn members<'a>(
    made: &mut Gathered<'a>,
    interface: bool,
    all: &'a [Member],
) -> Result<(), OutOfMemory>
    ensures { OnOk result (numbered_of made.new
        ≡ gathered (numbered_of made.old)
        (spec.members_trees interface (placed_members all.now) (placed_members all.now))) }
{
    for declared in all {
        member(made, interface, all, declared)?;
    }
    Ok(())
}

fn is_constructor(member: &Member) -> bool
    ensures { result ≡ has_constructor (method_heads false (placed_member member.now)) }
{
    match member {
        Member::Constructor { .. } => true,
        _ => false,
    }
}

fn writes_constructor(members: &[Member]) -> bool
    ensures { result
        ≡ has_constructor (flat_map (method_heads false) (placed_members members.now)) }
{
    for member in members {
        if is_constructor(member) {
            return true;
        }
    }
    false
}

/// Adds the bodies of a class, that of a constructor that isn't written after the others.
fn class<'a>(made: &mut Gathered<'a>, all: &'a [Member]) -> Result<(), OutOfMemory>
    ensures { OnOk result (numbered_of made.new
        ≡ gathered (numbered_of made.old) (class_trees (placed_members all.now))) }
{
    members(made, false, all)?;
    if writes_constructor(all) {
        return Ok(());
    }
    made.add(&[], &[], all)?;
    Ok(())
}

fn declared<'a>(made: &mut Gathered<'a>, tree: &'a TypeTree) -> Result<(), OutOfMemory>
    ensures { OnOk result (numbered_of made.new
        ≡ gathered (numbered_of made.old) (spec.type_trees (placed_type tree.now))) }
{
    match tree {
        TypeTree::Class { members: all, .. } => class(made, all),
        TypeTree::Interface { members: all, .. } => members(made, true, all),
    }
}

fn types<'a>(made: &mut Gathered<'a>, trees: &'a [TypeTree]) -> Result<(), OutOfMemory>
    ensures { OnOk result (numbered_of made.new
        ≡ gathered (numbered_of made.old)
        (flat_map (spec.type_trees) (map placed_type trees.now))) }
{
    for tree in trees {
        declared(made, tree)?;
    }
    Ok(())
}

fn all_types<'a>(made: &mut Gathered<'a>, files: &'a [FileTree]) -> Result<(), OutOfMemory>
    ensures { OnOk result (numbered_of made.new
        ≡ gathered (numbered_of made.old)
        (flat_map (spec.type_trees) (spec.types_of (map placed_file files.now)))) }
{
    for file in files {
        types(made, &file.types)?;
    }
    Ok(())
}

/// The sources of all bodies: Object's constructor, then the bodies of each class by file and text, a constructor that isn't
/// written after the others (JLS 8.8.9). More than 2^32 - 1 methods count as want of memory.
pub fn sources_of_files<'a>(
    alloc: Global,
    files: &'a [FileTree],
) -> Result<Vec<Source<'a>>, OutOfMemory>
    ensures { IfOk result (λ ss. sources_of ss.items ≡ spec.sources (map placed_file files.now)) }
{
    let mut made = Gathered {
        sources: Vec::new(alloc),
        next: 0,
    };
    made.add(&[], &[], &[])?;
    all_types(&mut made, files)?;
    Ok(made.sources)
}

/// Where the methods and the bodies of a file begin, by the numbers that they have through all files.
#[derive(Clone, Copy, Debug, PartialEq, Eq)]
pub struct Start {
    pub method: u32,
    pub body: usize,
}

/// Where the next file would begin.
fn start_of(made: &Gathered) -> Start
    ensures { result ≡ record { method = made.now.next; body = length made.now.sources.items } }
{
    Start {
        method: made.next,
        body: made.sources.len(),
    }
}

/// Where each file begins, and where one after the last would.
///
/// # Errors
/// No memory was found, or there are more than 2^32 - 1 methods.
pub fn starts_of_files(alloc: Global, files: &[FileTree]) -> Result<Vec<Start>, OutOfMemory>
    ensures { IfOk result (λ starts. AreStarts (map placed_file files.now) starts.items) }
{
    let mut made = Gathered {
        sources: Vec::new(alloc),
        next: 0,
    };
    made.add(&[], &[], &[])?;
    let mut starts = Vec::new(alloc);
    for at in 0..files.len() {
        put(&mut starts, start_of(&made))?;
        types(&mut made, &files[at].types)?;
    }
    put(&mut starts, start_of(&made))?;
    Ok(starts)
}
