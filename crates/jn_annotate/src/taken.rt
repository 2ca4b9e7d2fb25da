//! The words of annotations whose names types of the files have, so that no import can bring them.
ghost use Rattle.std.specs.Prelude.{◌≡◌, ◌&&◌, length, map, not, IfNone, IfSome};
ghost use Rattle.jn_points.specs.Members.{some_of};
ghost use Rattle.jn_sigs.specs.Signature as sigs;
ghost use Rattle.jn_trees.specs.View.{file_view, type_view};
ghost use Rattle.jn_annotate.specs.Annotated.{has_taken_name, has_taken_word, HasNone, IsFirst};
ghost use Rattle.jn_annotate.specs.Taken as spec;

use jn_base::{NameNo, SlotNo};
use jn_known::{INITIALIZED, NON_NULL, NULLABLE, UNDER_INITIALIZATION, UNKNOWN_INITIALIZATION};
use jn_points::{Field, Method, Program};
use jn_quals::Qual;
use jn_sigs::Sig;
use jn_trees::{FileTree, TypeTree};

/// Of each word, whether a type of the files has its name.
#[derive(Clone, Copy, Debug, PartialEq, Eq)]
pub struct TakenWords {
    pub non_null: bool,
    pub nullable: bool,
    pub initialized: bool,
    pub under: bool,
    pub unknown: bool,
}

/// The name of a type.
fn type_name(declared: &TypeTree) -> NameNo
    ensures { result ≡ spec.type_name (type_view declared.now) }
{
    match declared {
        TypeTree::Class { name, .. } => name.name,
        TypeTree::Interface { name, .. } => name.name,
    }
}

/// Whether the type has this name.
fn is_called(name: NameNo, declared: &TypeTree) -> bool
    ensures { result ≡ spec.is_called name.0 (type_view declared.now) }
{
    type_name(declared).0 == name.0
}

/// Whether one of the types has this name.
fn has_type(name: NameNo, types: &[TypeTree]) -> bool
    ensures { result ≡ some_of (spec.is_called name.0) (map type_view types.now) }
{
    for declared in types {
        if is_called(name, declared) {
            return true;
        }
    }
    false
}

/// Whether a type of the file has this name.
fn declares_in(name: NameNo, tree: &FileTree) -> bool
    ensures { result ≡ spec.declares_in name.0 (file_view tree.now) }
{
    has_type(name, &tree.types)
}

/// Whether a type of the files has this name, so that no import brings an annotation of it (JLS 6.4.1).
pub fn declares(trees: &[FileTree], name: NameNo) -> bool
    ensures { result ≡ spec.declares (map file_view trees.now) name.0 }
{
    for tree in trees {
        if declares_in(name, tree) {
            return true;
        }
    }
    false
}

/// The words whose names types of the files have.
fn taken_words(trees: &[FileTree]) -> TakenWords
    ensures { result ≡ spec.taken_words (map file_view trees.now) }
{
    TakenWords {
        non_null: declares(trees, NON_NULL),
        nullable: declares(trees, NULLABLE),
        initialized: declares(trees, INITIALIZED),
        under: declares(trees, UNDER_INITIALIZATION),
        unknown: declares(trees, UNKNOWN_INITIALIZATION),
    }
}

/// Whether the word for null is such a word.
fn is_nullity_taken(taken: TakenWords, q: Qual) -> bool
    ensures { result ≡ spec.is_nullity_taken taken q }
{
    if q.has_null() {
        taken.nullable
    } else {
        taken.non_null
    }
}

/// Whether the word for initialization is such a word.
fn is_initialization_taken(taken: TakenWords, q: Qual) -> bool
    ensures { result ≡ spec.is_initialization_taken taken q }
{
    if q.has_free() {
        if q.has_committed() {
            taken.unknown
        } else {
            taken.under
        }
    } else {
        taken.initialized
    }
}

/// Whether it is the slot.
pub fn is_slot(slot: u32, has: Option<SlotNo>) -> bool
    ensures { result ≡ sigs.is_slot slot has }
{
    match has {
        None => false,
        Some(has) => has.0 == slot,
    }
}

/// Whether the slot is of a field.
fn is_of_field(slot: u32, fields: &[Field]) -> bool
    ensures { result ≡ some_of (spec.is_of_field slot) fields.now }
{
    for field in fields {
        if is_slot(slot, field.slot) {
            return true;
        }
    }
    false
}

/// Whether the slot is of a receiver.
fn is_of_receiver(slot: u32, methods: &[Method]) -> bool
    ensures { result ≡ some_of (spec.is_of_receiver slot) methods.now }
{
    for method in methods {
        if is_slot(slot, method.receiver) {
            return true;
        }
    }
    false
}

/// Whether the slot gets a word for null that is such a word.
fn gets_taken_nullity(taken: TakenWords, program: &Program, q: Qual, slot: u32) -> bool
    ensures { result
        ≡ (spec.is_nullity_taken taken q
        && not (some_of (spec.is_of_receiver slot) program.now.methods)) }
{
    is_nullity_taken(taken, q) && !is_of_receiver(slot, program.methods.as_slice())
}

/// Whether the slot gets a word for initialization that is such a word.
fn gets_taken_initialization(taken: TakenWords, program: &Program, q: Qual, slot: u32) -> bool
    ensures { result
        ≡ (spec.is_initialization_taken taken q
        && not (some_of (spec.is_of_field slot) program.now.fields)) }
{
    is_initialization_taken(taken, q) && !is_of_field(slot, program.fields.as_slice())
}

/// Whether the slot, which has this qualifier, gets such a word.
#[tactic(auto, unfolding(crate::specs::Taken::is_taken))]
fn is_taken(taken: TakenWords, program: &Program, q: Qual, slot: u32) -> bool
    ensures { result ≡ spec.is_taken taken program.now q slot }
{
    gets_taken_nullity(taken, program, q, slot)
        || gets_taken_initialization(taken, program, q, slot)
}

/// The slot counts as inferred, imports are asked for, and it gets such a word.
fn has_taken_word(
    imports: bool,
    taken: TakenWords,
    program: &Program,
    said: &Program,
    sig: &Sig,
    slot: u32,
) -> bool
    ensures { result ≡ has_taken_word imports taken said.now.slots program.now sig.now slot }
{
    match said.slots.as_slice().get(slot as usize) {
        None => false,
        Some(info) => {
            info.inferred && imports && is_taken(taken, program, sig.get(SlotNo(slot)), slot)
        }
    }
}

/// The first slot of which it is so.
fn first_with_word(
    imports: bool,
    taken: TakenWords,
    program: &Program,
    said: &Program,
    sig: &Sig,
) -> Option<u32>
    requires { length sig.now ≡ length said.now.slots }
    ensures first { IfSome result
        (λ i. IsFirst (has_taken_word imports taken said.now.slots program.now sig.now) i) }
    ensures none { IfNone result
        (HasNone (has_taken_word imports taken said.now.slots program.now sig.now)) }
{
    for slot in 0..sig.slots() {
        if has_taken_word(imports, taken, program, said, sig, slot) {
            return Some(slot);
        }
    }
    None
}

/// The first slot that counts as inferred and gets a word whose name a type of the files has; none where no import is asked for. The slots of
/// `said` are those that count.
pub fn first_taken(
    imports: bool,
    program: &Program,
    said: &Program,
    sig: &Sig,
    trees: &[FileTree],
) -> Option<u32>
    requires { length sig.now ≡ length said.now.slots }
    ensures first { IfSome result (λ i. IsFirst
        (has_taken_name imports said.now.slots program.now sig.now (map file_view trees.now)) i) }
    ensures none { IfNone result (HasNone
        (has_taken_name imports said.now.slots program.now sig.now (map file_view trees.now))) }
{
    let taken = taken_words(trees);
    first_with_word(imports, taken, program, said, sig)
}
