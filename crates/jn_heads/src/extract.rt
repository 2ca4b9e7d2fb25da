//! What the types of files declare (JLS 8.1, 9.1).
ghost use Rattle.std.specs.Prelude.{◌≡◌, ◌++◌, ◌∷◌, map, flat_map, IfOk, OnOk};
ghost use Rattle.jn_heads.specs.Extract as spec;
ghost use Rattle.jn_heads.specs.Heads.{unwritten_constructor};
ghost use Rattle.jn_places.specs.PlacedView.{placed_type_use, placed_declarator, placed_declarators, placed_parameter, placed_parameters, placed_receiver, placed_result, placed_member, placed_members, placed_type, placed_file};

use crate::head::{ClassHead, FieldHead, MethodHead, Notes, ParamHead, TypeHead};
use crate::notes::{Word, has_word, local_notes, modifier_notes, no_notes, notes_of};
use crate::values::{first_call, first_value};
use jn_base::Seq;
use jn_trees::{
    Declarator, FileTree, Identifier, Member, Modifier, Parameter, Receiver, ResultUse, TypeTree,
    TypeUse,
};
use std::alloc::{AllocError, Global};

fn type_head(leading: Notes, use_of: &TypeUse) -> TypeHead
    ensures { result ≡ spec.type_head leading (placed_type_use use_of.now) }
{
    match &use_of.array {
        None => TypeHead {
            base: use_of.base,
            array: false,
            notes: leading,
            elements: no_notes(),
        },
        Some(own) => TypeHead {
            base: use_of.base,
            array: true,
            notes: notes_of(own),
            elements: leading,
        },
    }
}

fn field_head(modifiers: &[Modifier], use_of: &TypeUse, declarator: &Declarator) -> FieldHead
    ensures { result
        ≡ spec.field_head modifiers.now (placed_type_use use_of.now)
        (placed_declarator declarator.now) }
{
    FieldHead {
        name: declarator.name,
        kind: type_head(modifier_notes(modifiers), use_of),
        is_static: has_word(modifiers, Word::Static),
        is_final: has_word(modifiers, Word::Final),
        is_private: has_word(modifiers, Word::Private),
        first: first_value(has_word(modifiers, Word::Static), &declarator.value),
    }
}

fn param_head(parameter: &Parameter) -> ParamHead
    ensures { result ≡ spec.param_head (placed_parameter parameter.now) }
{
    ParamHead {
        name: parameter.name,
        kind: type_head(local_notes(&parameter.modifiers), &parameter.type_use),
    }
}

fn param_heads(alloc: Global, parameters: &[Parameter]) -> Result<Seq<ParamHead>, AllocError>
    ensures { IfOk result
        (λ heads. heads ≡ map (spec.param_head) (placed_parameters parameters.now)) }
{
    let mut heads = Seq::new(alloc);
    for parameter in parameters {
        heads.push(param_head(parameter))?;
    }
    Ok(heads)
}

fn result_head(modifiers: &[Modifier], result_use: &ResultUse) -> Option<TypeHead>
    ensures { result ≡ spec.result_head modifiers.now (placed_result result_use.now) }
{
    match result_use {
        ResultUse::Void(_) => None,
        ResultUse::Value(use_of) => { Some(type_head(modifier_notes(modifiers), use_of)) }
    }
}

fn receiver_notes(receiver: &Option<Receiver>) -> Notes
    ensures { result ≡ spec.receiver_notes (placed_receiver receiver.now) }
{
    match receiver {
        None => no_notes(),
        Some(written) => notes_of(&written.annotations),
    }
}

fn push_declarators(
    heads: &mut Seq<FieldHead>,
    modifiers: &[Modifier],
    use_of: &TypeUse,
    declarators: &[Declarator],
) -> Result<(), AllocError>
    ensures { OnOk result (heads.new
        ≡ heads.old
        ++ map (spec.field_head modifiers.now (placed_type_use use_of.now))
        (placed_declarators declarators.now)) }
{
    for declarator in declarators {
        heads.push(field_head(modifiers, use_of, declarator))?;
    }
    Ok(())
}

#[tactic(auto, using(crate::proofs::Views::one_more))]
fn push_declaration(
    heads: &mut Seq<FieldHead>,
    modifiers: &[Modifier],
    use_of: &TypeUse,
    first: &Declarator,
    more: &[Declarator],
) -> Result<(), AllocError>
    ensures { OnOk result (heads.new
        ≡ heads.old
        ++ map (spec.field_head modifiers.now (placed_type_use use_of.now))
        (placed_declarator first.now ∷ placed_declarators more.now)) }
{
    heads.push(field_head(modifiers, use_of, first))?;
    push_declarators(heads, modifiers, use_of, more)
}

/// Adds the fields that a member declares.
pub(crate) fn push_fields(heads: &mut Seq<FieldHead>, member: &Member) -> Result<(), AllocError>
    ensures { OnOk result (heads.new ≡ heads.old ++ spec.field_heads (placed_member member.now)) }
{
    match member {
        Member::Field {
            modifiers,
            type_use,
            first,
            more,
            ..
        } => { push_declaration(heads, modifiers, type_use, first, more) }
        _ => Ok(()),
    }
}

fn field_heads(alloc: Global, members: &[Member]) -> Result<Seq<FieldHead>, AllocError>
    ensures { IfOk result
        (λ heads. heads ≡ flat_map (spec.field_heads) (placed_members members.now)) }
{
    let mut heads = Seq::new(alloc);
    for member in members {
        push_fields(&mut heads, member)?;
    }
    Ok(heads)
}

/// Adds the method or constructor that a member declares.
pub(crate) fn push_method(
    alloc: Global,
    heads: &mut Seq<MethodHead>,
    interface: bool,
    member: &Member,
) -> Result<(), AllocError>
    ensures { OnOk result
        (heads.new ≡ heads.old ++ spec.method_heads interface (placed_member member.now)) }
{
    match member {
        Member::Field { .. } => Ok(()),
        Member::Method {
            modifiers,
            result,
            name,
            receiver,
            parameters,
            body,
            ..
        } => {
            let params = param_heads(alloc, parameters)?;
            heads.push(MethodHead {
                name: *name,
                result: result_head(modifiers, result),
                receiver: receiver_notes(receiver),
                params,
                ctor: false,
                is_public: has_word(modifiers, Word::Public),
                is_static: has_word(modifiers, Word::Static),
                is_private: has_word(modifiers, Word::Private),
                is_abstract: interface || has_word(modifiers, Word::Abstract),
                is_final: has_word(modifiers, Word::Final),
                has_body: body.is_some(),
                calls: None,
            })?;
            Ok(())
        }
        Member::Constructor {
            modifiers,
            name,
            parameters,
            body,
            ..
        } => {
            if interface {
                return Ok(());
            }
            let params = param_heads(alloc, parameters)?;
            heads.push(MethodHead {
                name: *name,
                result: None,
                receiver: no_notes(),
                params,
                ctor: true,
                is_public: has_word(modifiers, Word::Public),
                is_static: false,
                is_private: has_word(modifiers, Word::Private),
                is_abstract: false,
                is_final: false,
                has_body: true,
                calls: first_call(body),
            })?;
            Ok(())
        }
    }
}

fn method_heads(
    alloc: Global,
    interface: bool,
    members: &[Member],
) -> Result<Seq<MethodHead>, AllocError>
    ensures { IfOk result
        (λ heads. heads ≡ flat_map (spec.method_heads interface) (placed_members members.now)) }
{
    let mut heads = Seq::new(alloc);
    for member in members {
        push_method(alloc, &mut heads, interface, member)?;
    }
    Ok(heads)
}

fn has_constructor(heads: &[MethodHead]) -> bool
    ensures { result ≡ spec.has_constructor heads.now }
{
    for head in heads {
        if head.ctor {
            return true;
        }
    }
    false
}

fn unwritten_constructor(alloc: Global, name: Identifier) -> MethodHead
    ensures { result ≡ unwritten_constructor name }
{
    MethodHead {
        name,
        result: None,
        receiver: no_notes(),
        params: Seq::new(alloc),
        ctor: true,
        is_public: false,
        is_static: false,
        is_private: false,
        is_abstract: false,
        is_final: false,
        has_body: true,
        calls: None,
    }
}

fn with_constructor(
    alloc: Global,
    name: Identifier,
    heads: Seq<MethodHead>,
) -> Result<Seq<MethodHead>, AllocError>
    ensures { IfOk result (λ all. all ≡ spec.with_constructor name heads) }
{
    let mut heads = heads;
    if has_constructor(heads.as_slice()) {
        return Ok(heads);
    }
    heads.push(unwritten_constructor(alloc, name))?;
    Ok(heads)
}

fn names_of(alloc: Global, names: &[Identifier]) -> Result<Seq<Identifier>, AllocError>
    ensures { IfOk result (λ all. all ≡ names.now) }
{
    Ok(Seq::of_vec(Vec::from_slice(alloc, names)?))
}

fn class_head(alloc: Global, tree: &TypeTree) -> Result<ClassHead, AllocError>
    ensures { IfOk result (λ head. head ≡ spec.class_head (placed_type tree.now)) }
{
    match tree {
        TypeTree::Class {
            modifiers,
            name,
            parent,
            interfaces,
            members,
            ..
        } => {
            let interfaces = names_of(alloc, interfaces)?;
            let fields = field_heads(alloc, members)?;
            let methods = method_heads(alloc, false, members)?;
            let methods = with_constructor(alloc, *name, methods)?;
            Ok(ClassHead {
                name: *name,
                interface: false,
                is_abstract: has_word(modifiers, Word::Abstract),
                is_final: has_word(modifiers, Word::Final),
                parent: *parent,
                interfaces,
                fields,
                methods,
            })
        }
        TypeTree::Interface {
            modifiers,
            name,
            parents,
            members,
            ..
        } => {
            let interfaces = names_of(alloc, parents)?;
            let fields = field_heads(alloc, members)?;
            let methods = method_heads(alloc, true, members)?;
            Ok(ClassHead {
                name: *name,
                interface: true,
                is_abstract: has_word(modifiers, Word::Abstract),
                is_final: has_word(modifiers, Word::Final),
                parent: None,
                interfaces,
                fields,
                methods,
            })
        }
    }
}

fn push_heads(
    alloc: Global,
    heads: &mut Seq<ClassHead>,
    types: &[TypeTree],
) -> Result<(), AllocError>
    ensures { OnOk result
        (heads.new ≡ heads.old ++ map (spec.class_head) (map placed_type types.now)) }
{
    for tree in types {
        let head = class_head(alloc, tree)?;
        heads.push(head)?;
    }
    Ok(())
}

/// What the types of the files declare, by file and text.
pub fn heads(alloc: Global, files: &[FileTree]) -> Result<Seq<ClassHead>, AllocError>
    ensures { IfOk result (λ all. all ≡ spec.heads (map placed_file files.now)) }
{
    let mut all = Seq::new(alloc);
    for file in files {
        push_heads(alloc, &mut all, &file.types)?;
    }
    Ok(all)
}
