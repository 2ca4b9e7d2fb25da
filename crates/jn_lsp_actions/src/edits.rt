//! What writes the annotation of a slot.
ghost use Rattle.std.specs.Prelude.{◌≡◌, ◌<◌, ◌^◌, drop, length, map, option_to_list, IfOk};
ghost use Rattle.jn_recheck.specs.Files.{AllFit};
ghost use Rattle.jn_trees.specs.View.{file_view};
ghost use Rattle.jn_annotate.specs.Puts.{insertion, insertions};
ghost use Rattle.jn_annotate.specs.Shared.{IsLeast, shared_slots};
ghost use Rattle.jn_lsp_text.specs.Positions.{position_at};
ghost use Rattle.jn_note_words.specs.Owned.{owner_of};
ghost use Rattle.jn_note_words.specs.Worded.{owner_words};
ghost use Rattle.jn_lsp_actions.specs.declared.edits.Writing.TheVariants.{Inferred, Null};
ghost use Rattle.jn_lsp_actions.specs.Mended.{mended};
ghost use Rattle.jn_lsp_actions.specs.Written as spec;

use crate::alone::alone_program;
use crate::mending::{Mending, mended};
use crate::nullable::null_puts;
use jn_annotate::files::{fields_behind_types, file_puts, methods_behind_types};
use jn_annotate::insert::Put;
use jn_annotate::lines::with_lines;
use jn_annotate::members::next_methods;
use jn_annotate::shared::first_shared;
use jn_annotate::taken::declares;
use jn_annotate::words::is_unspelled;
use jn_base::{OutOfMemory, Seq, SlotNo, Text};
use jn_front::SourceFile;
use jn_known::NULLABLE;
use jn_lsp_solved::Traced;
use jn_lsp_text::{Action, Encoding, Insertion, Position, SmallText, position_of};
use jn_note_words::owners::owner_at;
use jn_note_words::words::owner_words;
use jn_points::{Field, Method, Program};
use jn_sigs::Sig;
use jn_trees::{FileTree, Token};
use std::alloc::{AllocError, Global};

/// What is written of a slot: what is inferred of it, or that it may be null.
#[derive(Clone, Copy, Debug, PartialEq, Eq)]
pub enum Writing {
    Inferred,
    Null,
}

/// Insertions into the file of a name.
#[derive(Drop)]
pub struct Edit {
    pub name: Text,
    pub insertions: Seq<Insertion>,
}

/// Solved files whose causes are asked for, with the tokens and trees of each.
#[derive(Clone, Copy)]
pub struct Lexed<'a> {
    pub traced: &'a Traced<'a>,
    pub tokens: &'a [Seq<Token>],
    pub trees: &'a [FileTree],
}

/// The position of a byte; that of the text's end where the text is shorter.
fn position_within(encoding: Encoding, text: &SmallText, at: usize) -> Position
    ensures { result ≡ position_at encoding text.now at }
{
    let text = text.bytes();
    position_of(encoding, text, at.min(text.len()))
}

fn insertion_of(
    alloc: Global,
    encoding: Encoding,
    text: &SmallText,
    put: &Put,
) -> Result<Insertion, AllocError>
    ensures { IfOk result (λ made. made ≡ spec.insertion_at encoding text.now (insertion put.now)) }
{
    Ok(Insertion {
        at: position_within(encoding, text, put.at),
        text: Text::of_string(String::from_utf8_lossy(alloc, put.words.as_slice())?),
    })
}

fn insertions_of(
    alloc: Global,
    encoding: Encoding,
    text: &SmallText,
    puts: &[Put],
) -> Result<Seq<Insertion>, AllocError>
    ensures { IfOk result (λ made. made ≡ map (spec.insertion_at encoding text.now) (insertions puts.now)) }
{
    let mut made = Seq::new(alloc);
    for put in puts {
        made.push(insertion_of(alloc, encoding, text, put)?)?;
    }
    Ok(made)
}

/// The edit of a file that gets these words.
fn edit_of(
    alloc: Global,
    encoding: Encoding,
    file: &SourceFile,
    puts: &[Put],
) -> Result<Option<Edit>, AllocError>
    requires small { length file.now.bytes < 2 ^ 30 }
    ensures { IfOk result (λ edit. edit ≡ spec.edit_of encoding file.now (insertions puts.now)) }
{
    match puts {
        [] => Ok(None),
        [_, ..] => {
            let text = SmallText::of(file.bytes.as_slice());
            Ok(Some(Edit {
                name: file.name.copy(alloc)?,
                insertions: insertions_of(alloc, encoding, &text, puts)?,
            }))
        }
    }
}

/// The words of a file that declares the first of these fields and methods.
fn words_of(
    alloc: Global,
    writing: Writing,
    slot: u32,
    program: &Program,
    sig: &Sig,
    file: &SourceFile,
    tokens: &[Token],
    tree: &FileTree,
    fields: &[Field],
    methods: &[Method],
) -> Result<Vec<Put>, OutOfMemory>
    ensures { IfOk result (λ puts. insertions puts.items
        ≡ spec.words_of writing slot program.now.slots sig.now file.now tokens.now
        (file_view tree.now) fields.now methods.now) }
{
    match writing {
        Writing::Inferred => {
            let text = file.bytes.as_slice();
            file_puts(alloc, program, sig, text, tokens, tree, fields, methods)
        }
        Writing::Null => null_puts(alloc, slot, tokens, tree, fields, methods),
    }
}

/// The edit of a file that declares the first of these fields and methods.
fn file_edit(
    alloc: Global,
    encoding: Encoding,
    writing: Writing,
    slot: u32,
    program: &Program,
    sig: &Sig,
    file: &SourceFile,
    tokens: &[Token],
    tree: &FileTree,
    fields: &[Field],
    methods: &[Method],
) -> Result<Option<Edit>, OutOfMemory>
    requires small { length file.now.bytes < 2 ^ 30 }
    ensures { IfOk result (λ edit. edit
        ≡ spec.edit_of encoding file.now
        (spec.words_in writing slot program.now.slots sig.now file.now tokens.now
        (file_view tree.now) fields.now methods.now)) }
{
    let text = file.bytes.as_slice();
    let puts = words_of(
        alloc, writing, slot, program, sig, file, tokens, tree, fields, methods,
    )?;
    let puts = with_lines(alloc, true, text, tokens, tree, puts)?;
    Ok(edit_of(alloc, encoding, file, &puts)?)
}

/// The edit of the first file that gets words; the first fields and methods are those that the files declare.
fn first_edit(
    files: &[SourceFile],
    alloc: Global,
    encoding: Encoding,
    writing: Writing,
    slot: u32,
    program: &Program,
    sig: &Sig,
    tokens: &[Seq<Token>],
    trees: &[FileTree],
    fields: &[Field],
    methods: &[Method],
) -> Result<Option<Edit>, OutOfMemory>
    requires fit { AllFit files.now }
    ensures { IfOk result (λ edit. edit
        ≡ spec.first_edit writing slot program.now.slots sig.now encoding files.now tokens.now
        (map file_view trees.now) fields.now methods.now) }
{
    match files {
        [] => Ok(None),
        [file, other_files @ ..] => match tokens {
            [] => Ok(None),
            [first, other_tokens @ ..] => match trees {
                [] => Ok(None),
                [tree, other_trees @ ..] => {
                    let first = first.as_slice();
                    let found = file_edit(
                        alloc, encoding, writing, slot, program, sig, file, first, tree, fields,
                        methods,
                    )?;
                    match found {
                        Some(edit) => Ok(Some(edit)),
                        None => first_edit(
                            other_files,
                            alloc,
                            encoding,
                            writing,
                            slot,
                            program,
                            sig,
                            other_tokens,
                            other_trees,
                            fields_behind_types(fields, &tree.types),
                            methods_behind_types(methods, &tree.types),
                        ),
                    }
                }
            },
        },
    }
}

/// How a title begins.
fn title_front(writing: Writing) -> &'static [u8]
    ensures { result.now ≡ spec.title_front writing }
{
    match writing {
        Writing::Inferred => b"write what is inferred of ",
        Writing::Null => b"write `@Nullable` at ",
    }
}

impl<'a> Lexed<'a> {
    /// What writes the slot's annotation, of a program that has these slots.
    fn edit_with(
        &self,
        alloc: Global,
        writing: Writing,
        slot: u32,
        program: &Program,
    ) -> Result<Option<Edit>, OutOfMemory>
        ensures { IfOk result (λ edit. edit
            ≡ spec.first_edit writing slot program.now.slots self.now.traced.now.sig self.now.traced.now.encoding self.now.traced.now.files
            self.now.tokens.now (map file_view self.now.trees.now) self.now.traced.now.program.fields
            (drop 1 self.now.traced.now.program.methods)) }
    {
        let parts = self.traced.parts();
        first_edit(
            parts.files.as_slice(),
            alloc,
            parts.encoding,
            writing,
            slot,
            program,
            parts.sig,
            self.tokens,
            self.trees,
            parts.program.fields.as_slice(),
            next_methods(parts.program.methods.as_slice()),
        )
    }

    /// What writes the inferred annotation of a slot.
    fn inferred_edit(&self, alloc: Global, slot: u32) -> Result<Option<Edit>, OutOfMemory>
        ensures { IfOk result (λ edit. edit
            ≡ spec.edit_of_slot self.now.traced.now.encoding self.now.traced.now.files self.now.tokens.now
            (map file_view self.now.trees.now) self.now.traced.now.program self.now.traced.now.sig Inferred
            slot) }
    {
        let parts = self.traced.parts();
        if is_unspelled(parts.sig.get(SlotNo(slot))) {
            return Ok(None);
        }
        let alone = alone_program(alloc, parts.program, slot)?;
        self.edit_with(alloc, Writing::Inferred, slot, &alone)
    }

    /// What writes `@Nullable` for a slot.
    fn null_edit(&self, alloc: Global, slot: u32) -> Result<Option<Edit>, OutOfMemory>
        ensures { IfOk result (λ edit. edit
            ≡ spec.edit_of_slot self.now.traced.now.encoding self.now.traced.now.files self.now.tokens.now
            (map file_view self.now.trees.now) self.now.traced.now.program self.now.traced.now.sig Null slot) }
    {
        if declares(self.trees, NULLABLE) {
            return Ok(None);
        }
        self.edit_with(alloc, Writing::Null, slot, self.traced.parts().program)
    }

    /// What is written of a slot; none where it can't be written alone. What is inferred isn't where no annotation says it, nor of a slot that
    /// isn't inferred.
    ///
    /// # Errors
    /// No memory was found.
    pub fn edit_of_slot(
        &self,
        alloc: Global,
        writing: Writing,
        slot: u32,
    ) -> Result<Option<Edit>, OutOfMemory>
        ensures { IfOk result (λ edit. edit
            ≡ spec.edit_of_slot self.now.traced.now.encoding self.now.traced.now.files self.now.tokens.now
            (map file_view self.now.trees.now) self.now.traced.now.program self.now.traced.now.sig writing
            slot) }
    {
        match writing {
            Writing::Inferred => self.inferred_edit(alloc, slot),
            Writing::Null => self.null_edit(alloc, slot),
        }
    }

    /// Whether the slot's inferred annotation can be written.
    ///
    /// # Errors
    /// No memory was found.
    pub fn is_written(&self, alloc: Global, slot: u32) -> Result<bool, OutOfMemory>
        ensures { IfOk result (λ written. written
            ≡ spec.is_written self.now.traced.now.encoding self.now.traced.now.files self.now.tokens.now
            (map file_view self.now.trees.now) self.now.traced.now.program self.now.traced.now.sig slot) }
    {
        let edit = self.inferred_edit(alloc, slot)?;
        Ok(edit.is_some())
    }

    /// The least slot of a field that shares its type with one of another qualifier, where there is one.
    ///
    /// # Errors
    /// No memory was found.
    pub fn first_shared(&self, alloc: Global) -> Result<Option<u32>, OutOfMemory>
        ensures { IfOk result (λ slot.
            IsLeast slot
            (shared_slots self.now.traced.now.program self.now.traced.now.sig
            (map file_view self.now.trees.now) self.now.traced.now.program.fields)) }
    {
        let parts = self.traced.parts();
        first_shared(alloc, parts.program, parts.sig, self.trees)
    }

    /// What has the slot, in words.
    fn owner_of(&self, alloc: Global, slot: u32) -> Result<Vec<u8>, AllocError>
        ensures { IfOk result (λ words. words.items
            ≡ owner_words self.now.traced.now.program self.now.traced.now.names
            (owner_of self.now.traced.now.program slot)) }
    {
        let parts = self.traced.parts();
        let owner = owner_at(parts.owners, slot);
        let words = owner_words(alloc, parts.program, parts.names, owner)?;
        Ok(words)
    }

    fn title_of(&self, alloc: Global, writing: Writing, slot: u32) -> Result<Text, AllocError>
        ensures { IfOk result (λ title. title
            ≡ spec.title_of self.now.traced.now.program self.now.traced.now.names writing slot) }
    {
        let mut words = Vec::from_slice(alloc, title_front(writing))?;
        let owner = self.owner_of(alloc, slot)?;
        words.extend_from_slice(&owner)?;
        Ok(Text::of_string(String::from_utf8_lossy(alloc, &words)?))
    }

    /// The action of a slot, where it can be written.
    ///
    /// # Errors
    /// No memory was found.
    pub fn action_of_slot(
        &self,
        alloc: Global,
        writing: Writing,
        mending: &Mending,
        slot: u32,
    ) -> Result<Option<Action>, OutOfMemory>
        ensures { IfOk result (λ action. option_to_list action
            ≡ spec.give self.now.traced.now.encoding self.now.traced.now.files self.now.traced.now.names self.now.tokens.now
            (map file_view self.now.trees.now) self.now.traced.now.program self.now.traced.now.sig writing
            (mended mending.now.wants.now mending.now.diagnostics.now) slot) }
    {
        match self.edit_of_slot(alloc, writing, slot)? {
            None => Ok(None),
            Some(edit) => Ok(Some(Action {
                title: self.title_of(alloc, writing, slot)?,
                diagnostics: mended(alloc, mending, slot)?,
                name: edit.name,
                insertions: edit.insertions,
            })),
        }
    }
}
