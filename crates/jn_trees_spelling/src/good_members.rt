//! Which members, types and files are well formed.
ghost use Rattle.std.specs.Prelude.{◌↔◌, IsTrue, map};
ghost use Rattle.jn_trees.specs.WellFormed.{GoodParameters, GoodReceiver, GoodMethodMarks, GoodMethodHead, GoodConstructorHead, GoodField, GoodMethodBody, GoodMember, GoodMembers, GoodType, GoodTypes, GoodFile};
ghost use Rattle.jn_trees.specs.View.{marks, parameter_views, receiver_view, declarator_view, declarator_views, body_view, member_view, member_views, type_view, file_view};

use crate::good_locals::{good_declarators, good_optional, nesting_first};
use crate::good_statements::good_body;
use crate::marks::good_marks;
use jn_base::NameNo;
use jn_trees::{
    Bearer, DEEPEST, Declarator, FileTree, Member, Modifier, Owner, Parameter, Receiver, Stmt,
    TypeTree, final_once, has_static,
};

fn good_parameters(parameters: &[Parameter]) -> bool
    ensures { IsTrue result ↔ GoodParameters (parameter_views parameters.now) }
{
    for parameter in parameters {
        if !final_once(&parameter.modifiers) {
            return false;
        }
    }
    true
}

/// Whether the receiver, where there is one, stands in a method that is not static and has its type's name.
fn good_receiver(owner: NameNo, modifiers: &[Modifier], receiver: &Option<Receiver>) -> bool
    ensures { IsTrue result
        ↔ GoodReceiver owner (marks modifiers.now) (receiver_view receiver.now) }
{
    match receiver {
        None => true,
        Some(receiver) => !has_static(modifiers) && receiver.class.name == owner,
    }
}

fn good_method_marks(interface: bool, modifiers: &[Modifier]) -> bool
    ensures { IsTrue result ↔ GoodMethodMarks interface (marks modifiers.now) }
{
    if interface {
        good_marks(Bearer::InterfaceMethod, modifiers)
    } else {
        good_marks(Bearer::Method, modifiers)
    }
}

fn good_method_head(
    owner: Owner,
    modifiers: &[Modifier],
    receiver: &Option<Receiver>,
    parameters: &[Parameter],
) -> bool
    ensures { IsTrue result
        ↔ GoodMethodHead owner (marks modifiers.now) (receiver_view receiver.now)
        (parameter_views parameters.now) }
{
    good_method_marks(owner.interface, modifiers)
        && good_receiver(owner.name, modifiers, receiver)
        && good_parameters(parameters)
}

/// Whether a constructor is well formed but for its body: it stands in a class and has its name.
fn good_constructor_head(
    owner: Owner,
    modifiers: &[Modifier],
    name: NameNo,
    parameters: &[Parameter],
) -> bool
    ensures { IsTrue result
        ↔ GoodConstructorHead owner (marks modifiers.now) name (parameter_views parameters.now) }
{
    good_marks(Bearer::Constructor, modifiers)
        && !owner.interface
        && name == owner.name
        && good_parameters(parameters)
}

fn good_field(modifiers: &[Modifier], first: &Declarator, more: &[Declarator]) -> bool
    ensures { IsTrue result
        ↔ GoodField (marks modifiers.now) (declarator_view first.now) (declarator_views more.now) }
{
    good_marks(Bearer::Field, modifiers)
        && (good_optional(&first.value) && good_declarators(more))
        && nesting_first(first, more) <= DEEPEST
}

/// Whether a method's body is well formed; a method of an interface has none.
fn good_method_body(interface: bool, body: &Option<Vec<Stmt>>) -> bool
    ensures { IsTrue result ↔ GoodMethodBody interface (body_view body.now) }
{
    match body {
        None => true,
        Some(statements) => !interface && good_body(false, statements),
    }
}

fn good_member(owner: Owner, member: &Member) -> bool
    ensures { IsTrue result ↔ GoodMember owner (member_view member.now) }
{
    match member {
        Member::Field {
            modifiers,
            first,
            more,
            ..
        } => good_field(modifiers, first, more),
        Member::Method {
            modifiers,
            receiver,
            parameters,
            body,
            ..
        } => {
            good_method_head(owner, modifiers, receiver, parameters)
                && good_method_body(owner.interface, body)
        }
        Member::Constructor {
            modifiers,
            name,
            parameters,
            body,
            ..
        } => {
            good_constructor_head(owner, modifiers, name.name, parameters) && good_body(true, body)
        }
    }
}

fn good_members(owner: Owner, members: &[Member]) -> bool
    ensures { IsTrue result ↔ GoodMembers owner (member_views members.now) }
{
    for member in members {
        if !good_member(owner, member) {
            return false;
        }
    }
    true
}

fn good_type(declaration: &TypeTree) -> bool
    ensures { IsTrue result ↔ GoodType (type_view declaration.now) }
{
    match declaration {
        TypeTree::Class {
            modifiers,
            name,
            members,
            ..
        } => {
            let owner = Owner {
                interface: false,
                name: name.name,
            };
            good_marks(Bearer::Class, modifiers) && good_members(owner, members)
        }
        TypeTree::Interface {
            modifiers,
            name,
            members,
            ..
        } => {
            let owner = Owner {
                interface: true,
                name: name.name,
            };
            good_marks(Bearer::Interface, modifiers) && good_members(owner, members)
        }
    }
}

fn good_types(types: &[TypeTree]) -> bool
    ensures { IsTrue result ↔ GoodTypes (map type_view types.now) }
{
    for declaration in types {
        if !good_type(declaration) {
            return false;
        }
    }
    true
}

/// Whether a file's tree is well formed. Takes no memory.
pub fn well_formed_file(tree: &FileTree) -> bool
    ensures { IsTrue result ↔ GoodFile (file_view tree.now) }
{
    good_types(&tree.types)
}
