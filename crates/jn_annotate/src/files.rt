//! Where the words of a file's inferred slots stand, type by type.
ghost use Rattle.std.specs.Prelude.{◌≡◌, ◌++◌, ◌+◌, cond, drop, map, IfOk, OnOk};
ghost use Rattle.jn_trees.specs.View.{file_view, member_view, member_views, type_view};
ghost use Rattle.jn_annotate.specs.Insertions as spec;
ghost use Rattle.jn_annotate.specs.Puts.{insertions};

use crate::insert::Put;
use crate::members::{fields_behind, methods_behind, next_methods, put_members};
use crate::parts::bytes_at;
use crate::steps::{
    behind_imports, behind_interfaces, behind_marks, behind_package, behind_parent, behind_parents,
    behind_type, front, step,
};
use jn_base::OutOfMemory;
use jn_points::{Field, Method, Program};
use jn_sigs::Sig;
use jn_trees::{FileTree, Member, Token, TypeTree};
use std::alloc::Global;

/// The fields after those of members.
#[tactic(auto, using(crate::proofs::Cursors::drop_twice))]
pub fn fields_after<'p>(fields: &'p [Field], members: &[Member]) -> &'p [Field]
    ensures { result.now ≡ drop (spec.in_all spec.fields_in (member_views members.now)) fields.now }
{
    let mut rest = fields;
    for member in members {
        rest = fields_behind(rest, member);
    }
    rest
}

/// The methods after those of members.
#[tactic(auto, using(crate::proofs::Cursors::drop_twice))]
fn methods_after<'p>(methods: &'p [Method], members: &[Member]) -> &'p [Method]
    ensures { result.now ≡ drop (spec.in_all spec.methods_in (member_views members.now)) methods.now }
{
    let mut rest = methods;
    for member in members {
        rest = methods_behind(rest, member);
    }
    rest
}

/// Whether the member is a constructor.
fn is_constructor(member: &Member) -> bool
    ensures { spec.constructors_in (member_view member.now) ≡ cond result 1 0 }
{
    match member {
        Member::Field { .. } => false,
        Member::Method { .. } => false,
        Member::Constructor { .. } => true,
    }
}

/// Whether a constructor is written.
#[tactic(auto, using(crate::proofs::Walking::none_more, crate::proofs::Walking::some_more))]
fn has_constructor(members: &[Member]) -> bool
    ensures { spec.unwritten (spec.in_all spec.constructors_in (member_views members.now))
        ≡ cond result 0 1 }
{
    for member in members {
        if is_constructor(member) {
            return true;
        }
    }
    false
}

/// The methods after those of a class, whose constructor stands after them where none is written.
#[tactic(auto, using(crate::proofs::Walking::class_methods))]
fn class_methods_after<'p>(methods: &'p [Method], members: &[Member]) -> &'p [Method]
    ensures { result.now
        ≡ drop (spec.in_all spec.methods_in (member_views members.now)
        + spec.unwritten (spec.in_all spec.constructors_in (member_views members.now)))
        methods.now }
{
    let rest = methods_after(methods, members);
    if has_constructor(members) {
        rest
    } else {
        next_methods(rest)
    }
}

/// The fields after those of a type.
pub fn fields_behind_type<'p>(fields: &'p [Field], declared: &TypeTree) -> &'p [Field]
    ensures { result.now ≡ drop (spec.type_fields (type_view declared.now)) fields.now }
{
    match declared {
        TypeTree::Class { members, .. } => fields_after(fields, members),
        TypeTree::Interface { members, .. } => fields_after(fields, members),
    }
}

/// The methods after those of a type.
pub fn methods_behind_type<'p>(methods: &'p [Method], declared: &TypeTree) -> &'p [Method]
    ensures { result.now ≡ drop (spec.type_methods (type_view declared.now)) methods.now }
{
    match declared {
        TypeTree::Class { members, .. } => class_methods_after(methods, members),
        TypeTree::Interface { members, .. } => methods_after(methods, members),
    }
}

/// Puts the words of a type's members.
#[tactic(auto, using(crate::proofs::Cursors::behind_append))]
fn put_type(
    alloc: Global,
    puts: &mut Vec<Put>,
    program: &Program,
    sig: &Sig,
    text: &[u8],
    tokens: &[Token],
    declared: &TypeTree,
    fields: &[Field],
    methods: &[Method],
) -> Result<(), OutOfMemory>
    ensures { OnOk result (insertions puts.new.items
        ≡ insertions puts.old.items
        ++ spec.in_type program.now.slots sig.now text.now tokens.now
        (type_view declared.now) fields.now methods.now) }
{
    match declared {
        TypeTree::Class {
            modifiers,
            parent,
            interfaces,
            members,
            ..
        } => {
            let name = step(behind_marks(tokens, modifiers));
            let class = bytes_at(text, front(name));
            let inside = step(behind_interfaces(behind_parent(step(name), parent), interfaces));
            put_members(
                alloc, puts, program, sig, class, inside, members, fields, methods,
            )
        }
        TypeTree::Interface {
            modifiers,
            parents,
            members,
            ..
        } => {
            let name = step(behind_marks(tokens, modifiers));
            let class = bytes_at(text, front(name));
            let inside = step(behind_parents(step(name), parents));
            put_members(
                alloc, puts, program, sig, class, inside, members, fields, methods,
            )
        }
    }
}

/// Puts the words of types, in their order.
#[tactic(auto, using(crate::proofs::Walking::next_part))]
fn put_types(
    alloc: Global,
    puts: &mut Vec<Put>,
    program: &Program,
    sig: &Sig,
    text: &[u8],
    tokens: &[Token],
    types: &[TypeTree],
    fields: &[Field],
    methods: &[Method],
) -> Result<(), OutOfMemory>
    ensures { OnOk result (insertions puts.new.items
        ≡ insertions puts.old.items
        ++ spec.in_types program.now.slots sig.now text.now tokens.now
        (map type_view types.now) fields.now methods.now) }
{
    let mut rest = tokens;
    let mut fields = fields;
    let mut methods = methods;
    for declared in types {
        put_type(
            alloc, puts, program, sig, text, rest, declared, fields, methods,
        )?;
        rest = behind_type(alloc, rest, declared)?;
        fields = fields_behind_type(fields, declared);
        methods = methods_behind_type(methods, declared);
    }
    Ok(())
}

/// The words of a file, in the order of their places; the first fields and methods are those that it declares.
#[tactic(auto, using(crate::proofs::Cursors::behind_append))]
pub fn file_puts(
    alloc: Global,
    program: &Program,
    sig: &Sig,
    text: &[u8],
    tokens: &[Token],
    tree: &FileTree,
    fields: &[Field],
    methods: &[Method],
) -> Result<Vec<Put>, OutOfMemory>
    ensures { IfOk result (λ puts. insertions puts.items
        ≡ spec.in_file program.now.slots sig.now text.now tokens.now (file_view tree.now)
        fields.now methods.now) }
{
    let mut puts = Vec::new(alloc);
    let rest = behind_imports(behind_package(tokens, &tree.package), &tree.imports);
    put_types(
        alloc,
        &mut puts,
        program,
        sig,
        text,
        rest,
        &tree.types,
        fields,
        methods,
    )?;
    Ok(puts)
}

/// The fields after those of a file.
#[tactic(auto, using(crate::proofs::Cursors::drop_twice))]
pub fn fields_behind_types<'p>(fields: &'p [Field], types: &[TypeTree]) -> &'p [Field]
    ensures { result.now ≡ drop (spec.file_fields (map type_view types.now)) fields.now }
{
    let mut rest = fields;
    for declared in types {
        rest = fields_behind_type(rest, declared);
    }
    rest
}

/// The methods after those of a file.
#[tactic(auto, using(crate::proofs::Cursors::drop_twice))]
pub fn methods_behind_types<'p>(methods: &'p [Method], types: &[TypeTree]) -> &'p [Method]
    ensures { result.now ≡ drop (spec.file_methods (map type_view types.now)) methods.now }
{
    let mut rest = methods;
    for declared in types {
        rest = methods_behind_type(rest, declared);
    }
    rest
}
