//! What stands at a row's place, and the first declaration that is like it (T1, T4).
ghost use Rattle.std.specs.Prelude.{◌≡◌, ◌<◌, length, find, option_map, IfSome};
ghost use Rattle.jn_declaration_rules.specs.Rows.{same_field, same_method};
ghost use Rattle.jn_classtable.specs.Rows.{same_class_name, same_param_name};
ghost use Rattle.jn_notes.specs.Asked as asked;
ghost use Rattle.jn_note_words.specs.Owned.{first_of};
ghost use Rattle.jn_phase_notes.specs.Others as spec;

use jn_base::Span;
use jn_heads::head::{ClassHead, MethodHead, ParamHead};
use jn_notes::reads::same_span;
use jn_points::lookup::{class_at, field_at, method_at};
use jn_points::{Class, Field, Method, Program};
use jn_trees::Identifier;

fn class_name(class: &Class) -> Identifier
    ensures { result ≡ spec.class_name class.now }
{
    Identifier {
        name: class.name,
        span: class.span,
    }
}

pub(crate) fn field_name(field: &Field) -> Identifier
    ensures { result ≡ spec.field_name field.now }
{
    Identifier {
        name: field.name,
        span: field.span,
    }
}

pub(crate) fn method_name(method: &Method) -> Identifier
    ensures { result ≡ spec.method_name method.now }
{
    Identifier {
        name: method.name,
        span: method.span,
    }
}

/// The number of the class that is declared there.
pub(crate) fn class_there(classes: &[Class], span: Span) -> Option<usize>
    ensures is { result ≡ spec.class_there span classes.now }
    ensures inside { IfSome result (λ n. n < length classes.now) }
{
    for (c, class) in classes.iter().enumerate() {
        if same_span(class.span, span) {
            return Some(c);
        }
    }
    None
}

/// The number of the field.
pub(crate) fn field_there(fields: &[Field], span: Span) -> Option<usize>
    ensures is { result ≡ spec.field_there span fields.now }
    ensures inside { IfSome result (λ n. n < length fields.now) }
{
    for (f, field) in fields.iter().enumerate() {
        if same_span(field.span, span) {
            return Some(f);
        }
    }
    None
}

/// The number of the method or the constructor.
pub(crate) fn method_there(methods: &[Method], span: Span) -> Option<usize>
    ensures is { result ≡ spec.method_there span methods.now }
    ensures inside { IfSome result (λ n. n < length methods.now) }
{
    for (m, method) in methods.iter().enumerate() {
        if same_span(method.span, span) {
            return Some(m);
        }
    }
    None
}

fn like_class(classes: &[Class], class: &Class) -> Option<Identifier>
    ensures { result ≡ option_map spec.class_name (find (same_class_name class.now) classes.now) }
{
    for other in classes {
        if class.name.0 == other.name.0 {
            return Some(class_name(other));
        }
    }
    None
}

fn is_same_field(x: &Field, y: &Field) -> bool
    ensures { result ≡ same_field x.now y.now }
{
    x.owner.0 == y.owner.0 && x.name.0 == y.name.0
}

fn like_field(fields: &[Field], field: &Field) -> Option<Identifier>
    ensures { result ≡ option_map spec.field_name (find (same_field field.now) fields.now) }
{
    for other in fields {
        if is_same_field(field, other) {
            return Some(field_name(other));
        }
    }
    None
}

fn is_same_method(x: &Method, y: &Method) -> bool
    ensures { result ≡ same_method x.now y.now }
{
    x.owner.0 == y.owner.0 && x.name.0 == y.name.0 && x.params.len() == y.params.len()
}

fn like_method(methods: &[Method], method: &Method) -> Option<Identifier>
    ensures { result ≡ option_map spec.method_name (find (same_method method.now) methods.now) }
{
    for other in methods {
        if is_same_method(method, other) {
            return Some(method_name(other));
        }
    }
    None
}

/// T1: the first class of the name of the one that is declared there.
pub(crate) fn first_class(program: &Program, span: Span) -> Option<Identifier>
    ensures { result ≡ spec.first_class program.now span }
{
    let c = class_there(program.classes.as_slice(), span)?;
    let class = class_at(program, c)?;
    like_class(program.classes.as_slice(), class)
}

/// T1: the first field of that class and name.
pub(crate) fn first_field(program: &Program, span: Span) -> Option<Identifier>
    ensures { result ≡ spec.first_field program.now span }
{
    let f = field_there(program.fields.as_slice(), span)?;
    let field = field_at(program, f)?;
    like_field(program.fields.as_slice(), field)
}

/// T4: the first method or constructor of that class, name and arity.
pub(crate) fn first_method(program: &Program, span: Span) -> Option<Identifier>
    ensures { result ≡ spec.first_method program.now span }
{
    let m = method_there(program.methods.as_slice(), span)?;
    let method = method_at(program, m)?;
    like_method(program.methods.as_slice(), method)
}

fn param_there(params: &[ParamHead], span: Span) -> Option<ParamHead>
    ensures { result
        ≡ find (λ p. asked.same_span p.name.span span) params.now }
{
    for param in params {
        if same_span(param.name.span, span) {
            return Some(*param);
        }
    }
    None
}

fn like_param(params: &[ParamHead], param: ParamHead) -> Option<Identifier>
    ensures { result ≡ option_map (λ p. p.name) (find (same_param_name param) params.now) }
{
    for other in params {
        if param.name.name.0 == other.name.name.0 {
            return Some(other.name);
        }
    }
    None
}

fn first_param(method: &MethodHead, span: Span) -> Option<Identifier>
    ensures { result ≡ spec.first_param span method.now }
{
    let param = param_there(method.params.as_slice(), span)?;
    like_param(method.params.as_slice(), param)
}

fn first_param_among(methods: &[MethodHead], span: Span) -> Option<Identifier>
    ensures { result ≡ first_of (spec.first_param span) methods.now }
{
    for method in methods {
        let found = first_param(method, span);
        if found.is_some() {
            return found;
        }
    }
    None
}

/// T1 of a parameter: the first one of its method with its name.
pub(crate) fn first_param_of(heads: &[ClassHead], span: Span) -> Option<Identifier>
    ensures { result ≡ spec.first_param_of span heads.now }
{
    for head in heads {
        let found = first_param_among(head.methods.as_slice(), span);
        if found.is_some() {
            return found;
        }
    }
    None
}
