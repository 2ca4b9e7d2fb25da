//! Laws of annotated files.
ghost use Rattle.std.specs.Prelude.{◌≡◌, ◌<◌, ◌^◌, ◌∷◌, ◌++◌, [], Bool, drop, false, length, List, map, slice_get, slice_index_or, take, true, ℕ};
ghost use Rattle.jn_base.specs.declared.number.FileNo.{FileNo};
ghost use Rattle.jn_base.specs.declared.infer.Infer.{Infer};
ghost use Rattle.jn_annotate_law.specs.Again.{NoneInferred};
ghost use Rattle.jn_known.specs.Known.{known_names};
ghost use Rattle.jn_quals.specs.Qualifier.{Qualifier};
ghost use Rattle.jn_points.specs.declared.program.Field.{Field};
ghost use Rattle.jn_points.specs.declared.program.Method.{Method};
ghost use Rattle.jn_points.specs.declared.program.SlotInfo.{SlotInfo};
ghost use Rattle.jn_lexer.specs.Lexed.{Lexed};
ghost use Rattle.jn_trees.specs.Pieces.{IsFile};
ghost use Rattle.jn_trees.specs.Trees.{SourceTree};
ghost use Rattle.jn_trees.specs.declared.token.Token.{Token};
ghost use Rattle.jn_trees.specs.declared.declaration.FileTree.{FileTree};
ghost use Rattle.jn_trees.specs.View.{file_view};
ghost use Rattle.jn_places.specs.Forget.{forget_file};
ghost use Rattle.jn_places.specs.PlacedView.{placed_file};
ghost use Rattle.jn_places.specs.Placed.{PlacedFile};
ghost use Rattle.jn_splice_law.specs.Inserted.{inserted};
ghost use Rattle.jn_splice_law.specs.Woven.{IsNamed};
ghost use Rattle.jn_places_law.specs.Bare.{Alike, codes_of};
ghost use Rattle.jn_classtable.specs.Rows.{t_rows};
ghost use Rattle.jn_heads.specs.Extract.{heads, notes_by};
ghost use Rattle.jn_classtable.specs.Table.{table};
ghost use Rattle.jn_places_law.specs.Written.{IsWritten, written_slot};
ghost use Rattle.jn_heads.specs.Types.{field_qual, is_written, receiver_qual, slot_of, written_qual};
ghost use Rattle.jn_tables_law.specs.Inferable.{IsInferable};
ghost use Rattle.jn_quals.specs.Order.{no_qual};
ghost use Rattle.jn_sigs.specs.Signature.{start_signature};
ghost use Rattle.jn_transfer.specs.Contributions.{is_inferred};
ghost use Rattle.jn_inference_law.specs.Solution.{IsLeastSignature};
ghost use Rattle.jn_points.specs.declared.program.Program.{Program};
ghost use Rattle.jn_annotate_law.specs.Meaning.{AllPlaced, Means, TextsLexed};
ghost use Rattle.jn_annotate.specs.Annotated.{annotated_from, Annotated, AreWorded, has_no_spelling, has_shared_type, HasNone, is_too_large};
ghost use Rattle.jn_annotate.specs.Chosen.{chosen_slots, is_default};
ghost use Rattle.jn_annotate_law.specs.Fits.{FilesFit, TypesFit};
ghost use Rattle.jn_annotate.specs.Insertions.{in_file};
ghost use Rattle.jn_annotate_law.specs.Trees.{AreNoted, both_names, noted_file, noted_files, nullity_names};
ghost use Rattle.jn_annotate_law.specs.Says.{AllSpelled, FilesSay};
ghost use Rattle.jn_annotate_law.specs.Worded.{Narrows, worded_from};
ghost use Rattle.jn_annotate_law.specs.Kept.{Kept, KeptRowless};
ghost use Rattle.jn_lowering.specs.BodyRows.{rows_of_bodies};
ghost use Rattle.jn_program_law.specs.FileSources.{sources};
ghost use Rattle.jn_program_law.specs.FileProgram.{inferring, j_rows, program_of_files, rows_of_files};
ghost use Rattle.jn_annotate_law.specs.Noted.{notes_with};
ghost use Rattle.jn_annotate.specs.Words.{initialization_name, is_unspelled};

use jn_classtable::ClassTable;

/// A file's text with the words of its inferred slots has the annotated tree, and no name more.
pub fn annotated_texts_have_the_annotated_tree()
    ensures { (file : FileNo) (text : List ℕ) (old new : List (List ℕ)) (tokens : List Token)
        (tree : SourceTree) (slots : List SlotInfo) (s : List Qualifier) (fields : List Field)
        (methods : List Method)
        → ((name : List ℕ) (n : ℕ) → IsNamed known_names name n → IsNamed old name n)
        → Lexed file text old tokens new → IsFile tokens tree → TypesFit slots s tree.types methods
        → (others : List Token)
        × Lexed file (inserted text (in_file slots s text tokens tree fields methods)) old others new
        × IsFile others (noted_file slots s tree fields methods) }
{}

/// The annotated texts of files lex and parse, with the names of the files, and their trees are the annotated trees.
pub fn annotated_files_have_annotated_trees()
    ensures { (slots : List SlotInfo) (s : List Qualifier) (texts : List (List ℕ))
        (tokens : List (List Token)) (trees : List PlacedFile) (names : List (List ℕ))
        (fields : List Field) (methods : List Method)
        → TextsLexed 0 known_names texts tokens names → AllPlaced tokens trees
        → FilesFit slots s (map forget_file trees) methods
        → (others : List (List Token)) × (places : List PlacedFile)
        × TextsLexed 0 known_names
        (annotated_from false slots s texts tokens (map forget_file trees) fields methods) others names
        × AllPlaced others places
        × (map forget_file places ≡ noted_files slots s (map forget_file trees) fields methods) }
{}

/// With the lines that import annotations, if these are asked for, they lex and parse with the same names, too, and the trees have these imports more.
pub fn annotated_files_have_their_imports()
    ensures { (imports : Bool) (slots : List SlotInfo) (s : List Qualifier)
        (texts : List (List ℕ)) (tokens : List (List Token)) (trees : List PlacedFile)
        (names : List (List ℕ)) (fields : List Field) (methods : List Method)
        → TextsLexed 0 known_names texts tokens names → AllPlaced tokens trees
        → FilesFit slots s (map forget_file trees) methods
        → (others : List (List Token)) × (places : List PlacedFile)
        × TextsLexed 0 known_names
        (annotated_from imports slots s texts tokens (map forget_file trees) fields methods) others
        names
        × AllPlaced others places
        × AreNoted imports (noted_files slots s (map forget_file trees) fields methods)
        (map forget_file places) }
{}

/// The class tables of annotated files are those of the files, but for places and what is written: their heads differ in nothing else.
pub fn annotated_files_have_alike_tables()
    ensures { (slots : List SlotInfo) (s : List Qualifier) (tokens others : List (List Token))
        (trees places : List PlacedFile) (fields : List Field) (methods : List Method)
        → AllPlaced tokens trees → AllPlaced others places
        → map forget_file places ≡ noted_files slots s (map forget_file trees) fields methods
        → Alike (table (heads trees)) (table (heads places)) }
{}

/// So are their programs: bodies are lowered to the same points.
pub fn annotated_files_have_alike_programs()
    ensures { (slots : List SlotInfo) (s : List Qualifier) (tokens others : List (List Token))
        (trees places : List PlacedFile) (fields : List Field) (methods : List Method)
        → AllPlaced tokens trees → AllPlaced others places
        → map forget_file places ≡ noted_files slots s (map forget_file trees) fields methods
        → Alike (program_of_files trees) (program_of_files places) }
{}

/// Their class tables have the same codes of rows T1 to T10, in one order: none where the files had none.
pub fn annotated_files_have_the_same_class_rows()
    ensures { (slots : List SlotInfo) (s : List Qualifier) (tokens others : List (List Token))
        (trees places : List PlacedFile) (fields : List Field) (methods : List Method)
        → AllPlaced tokens trees → AllPlaced others places
        → map forget_file places ≡ noted_files slots s (map forget_file trees) fields methods
        → codes_of (t_rows (heads trees)) ≡ codes_of (t_rows (heads places)) }
{}

/// Where files have no row, their annotated files have none but those of bodies: no row of class tables, and no row J5 of packages,
/// imports, names and annotations, since each annotation has a meaning where it stands and is the one of its kind.
pub fn annotated_files_have_no_rows_outside_bodies()
    ensures { (infer : Infer) (tokens others : List (List Token)) (trees places : List PlacedFile)
        (said : List SlotInfo) (s : List Qualifier)
        → Narrows said (inferring infer trees).slots
        → AllPlaced tokens trees → AllPlaced others places
        → map forget_file places
        ≡ noted_files said s (map forget_file trees)
        (inferring infer trees).fields (drop 1 (inferring infer trees).methods)
        → rows_of_files trees ≡ []
        → rows_of_files places ≡ rows_of_bodies (table (heads places)) (sources places) }
{}

/// So they have no row at all: the rows of their bodies, J1 to J6, have the same codes, in one order.
pub fn annotated_files_have_no_rows()
    ensures bodies { (slots : List SlotInfo) (s : List Qualifier)
        (tokens others : List (List Token)) (trees places : List PlacedFile) (fields : List Field)
        (methods : List Method)
        → AllPlaced tokens trees → AllPlaced others places
        → map forget_file places ≡ noted_files slots s (map forget_file trees) fields methods
        → codes_of (rows_of_bodies (table (heads trees)) (sources trees))
        ≡ codes_of (rows_of_bodies (table (heads places)) (sources places)) }
    ensures none { (infer : Infer) (tokens others : List (List Token))
        (trees places : List PlacedFile) (said : List SlotInfo) (s : List Qualifier)
        → Narrows said (inferring infer trees).slots
        → AllPlaced tokens trees → AllPlaced others places
        → map forget_file places
        ≡ noted_files said s (map forget_file trees)
        (inferring infer trees).fields (drop 1 (inferring infer trees).methods)
        → rows_of_files trees ≡ [] → rows_of_files places ≡ [] }
{}

/// Where nothing was written on a position, the words of a qualifier, put after what else stands there, make a slot that isn't
/// inferred and has this qualifier: both words of a value, that of nullity of a field, that of initialization of a receiver.
pub fn written_words_say_the_qualifier()
    ensures values { (has : ℕ → Bool) (q : Qualifier) (secret : Bool)
        → is_written (notes_by has) ≡ false → is_unspelled q ≡ false
        → slot_of secret (notes_with has (both_names q))
        (written_qual (notes_with has (both_names q)))
        ≡ written_slot q }
    ensures fields { (has : ℕ → Bool) (q : Qualifier) (secret : Bool)
        → is_written (notes_by has) ≡ false → q.committed ≡ true → q.free ≡ false
        → slot_of secret (notes_with has (nullity_names q))
        (field_qual (notes_with has (nullity_names q)))
        ≡ written_slot q }
    ensures receivers { (has : ℕ → Bool) (q : Qualifier) (secret : Bool)
        → is_written (notes_by has) ≡ false → q.null ≡ false → is_unspelled q ≡ false
        → slot_of secret (notes_with has (initialization_name q ∷ []))
        (receiver_qual (notes_with has (initialization_name q ∷ [])))
        ≡ written_slot q }
{}

/// The slots of annotated files that count as inferred are written as the signature says, where each of them is inferred and has a
/// spelling, and it says of fields and receivers what can be written there; all other slots are as they were.
pub fn annotated_files_have_written_slots()
    ensures { (infer : Infer) (tokens others : List (List Token)) (trees places : List PlacedFile)
        (said : List SlotInfo) (s : List Qualifier)
        → Narrows said (inferring infer trees).slots
        → AllSpelled said s → AllPlaced tokens trees
        → AllPlaced others places
        → map forget_file places
        ≡ noted_files said s (map forget_file trees)
        (inferring infer trees).fields (drop 1 (inferring infer trees).methods)
        → FilesSay said s (map forget_file trees)
        (inferring infer trees).fields (drop 1 (inferring infer trees).methods)
        → (inferring infer places).slots ≡ worded_from said s 0 (inferring infer trees).slots }
{}

/// A program that differs from another one in places alone, and has each slot written as a signature says, means the same.
pub fn written_programs_mean_what_was_inferred()
    ensures { (P Q : Program) (s : List Qualifier) → Alike P Q → IsWritten Q s → Means P Q s }
{}

/// So does one of whose slots some, whichever, are written as the least signature says: what is still inferred of it stays within what
/// was inferred, and nothing less is closed, since what is sent grows with what it is sent under.
pub fn partly_written_programs_mean_what_was_inferred()
    ensures { (P Q : Program) (s : List Qualifier) (said : List SlotInfo) → IsInferable P
        → IsLeastSignature P s → Alike P Q → Q.slots ≡ worded_from said s 0 P.slots → Means P Q s }
{}

/// Where each inferred slot has a spelling, and words aren't terse, all inferred slots get words.
pub fn all_slots_are_chosen()
    ensures { (P : Program) (s : List Qualifier) → HasNone (has_no_spelling P s)
        → chosen_slots false P s ≡ P.slots }
{}

/// What counts as the default is what a position without annotations says that isn't inferred: a value, a field and a receiver.
pub fn unwritten_positions_say_the_default()
    ensures { (has : ℕ → Bool) → is_written (notes_by has) ≡ false
        → (is_default (written_qual (notes_by has)) ≡ true)
        × (is_default (field_qual (notes_by has)) ≡ true)
        × (is_default (receiver_qual (notes_by has)) ≡ true) }
{}

/// In the least signature a slot that isn't inferred has what it starts with.
pub fn least_signatures_keep_what_is_written()
    ensures { (P : Program) (s : List Qualifier) (i : ℕ) → IsInferable P → IsLeastSignature P s
        → i < length s → is_inferred (slice_get P.slots i) ≡ false
        → slice_index_or s i no_qual ≡ slice_index_or (start_signature P) i no_qual }
{}

/// The least signature says of fields and receivers what words can say there: an inferred field isn't free, an inferred receiver isn't
/// null, and the fields of one declaration agree, where they get words, and where no type is shared by fields that differ.
pub fn least_signatures_say_what_can_be_written()
    ensures { (terse : Bool) (infer : Infer) (tokens : List (List Token)) (trees : List PlacedFile)
        (s : List Qualifier)
        → AllPlaced tokens trees → IsInferable (inferring infer trees)
        → IsLeastSignature (inferring infer trees) s
        → HasNone (has_shared_type (inferring infer trees) s (map forget_file trees))
        → FilesSay (chosen_slots terse (inferring infer trees) s) s (map forget_file trees)
        (inferring infer trees).fields (drop 1 (inferring infer trees).methods) }
{}

/// Where no slot counts as inferred, texts stay as they are; and a program without inferred slots is annotated to itself, where its texts
/// are small enough, so that annotating twice is annotating once.
pub fn nothing_is_annotated_twice()
    ensures same { (said : List SlotInfo) (imports : Bool) (P : Program) (s : List Qualifier)
        (texts names new : List (List ℕ)) (tokens : List (List Token)) (trees : List PlacedFile)
        → TextsLexed 0 known_names texts tokens names → AllPlaced tokens trees
        → NoneInferred said
        → AreWorded said imports P s texts tokens (map forget_file trees) new
        → new ≡ texts }
    ensures again { (imports : Bool) (P : Program) (s : List Qualifier) (texts names : List (List ℕ))
        (tokens : List (List Token)) (trees : List PlacedFile)
        → TextsLexed 0 known_names texts tokens names → AllPlaced tokens trees
        → NoneInferred P.slots → HasNone (is_too_large texts)
        → Annotated imports P s texts tokens (map forget_file trees) texts }
{}

/// Annotated files lex and parse, with the same names, and mean the same, under either choice of members that are inferred: their program is that
/// of the files but for places, those slots of it are inferred that got no words, its least signature is what was inferred, and the same rules
/// are broken at the same points, constructors and pairs, both ways; rows of types (J7 to J10) have the same codes, both ways, and annotating
/// again changes nothing. Words aren't put where none say what was inferred, and, where they are terse, where it is the default.
/// So it is with imports of annotations, which stand in the trees before those of the files, and without.
/// Files without rows T and J keep that they have none; their programs can be inferred, since the two numbers are below 2 ^ 32 wherever a class
/// table was built.
pub fn annotating_keeps_meaning()
    ensures inferable { (terse imports : Bool) (infer : Infer) (texts names new : List (List ℕ))
        (tokens : List (List Token)) (trees : List PlacedFile) (s : List Qualifier)
        → TextsLexed 0 known_names texts tokens names → AllPlaced tokens trees
        → IsInferable (inferring infer trees) → IsLeastSignature (inferring infer trees) s
        → AreWorded (chosen_slots terse (inferring infer trees) s) imports (inferring infer trees) s
        texts tokens (map forget_file trees) new
        → Kept terse imports infer names trees s
        (noted_files (chosen_slots terse (inferring infer trees) s) s (map forget_file trees)
        (inferring infer trees).fields (drop 1 (inferring infer trees).methods))
        new }
    ensures rowless { (terse imports : Bool) (infer : Infer) (texts names new : List (List ℕ))
        (tokens : List (List Token)) (trees : List PlacedFile) (s : List Qualifier)
        → TextsLexed 0 known_names texts tokens names → AllPlaced tokens trees
        → rows_of_files trees ≡ [] → length (inferring infer trees).fields < 2 ^ 32
        → length (inferring infer trees).methods < 2 ^ 32
        → IsLeastSignature (inferring infer trees) s
        → AreWorded (chosen_slots terse (inferring infer trees) s) imports (inferring infer trees) s
        texts tokens (map forget_file trees) new
        → KeptRowless terse imports infer names trees s
        (noted_files (chosen_slots terse (inferring infer trees) s) s (map forget_file trees)
        (inferring infer trees).fields (drop 1 (inferring infer trees).methods))
        new }
{}

/// Where only the first files were replaced by their annotated texts, however many, the files as they stand then lex and parse, with the
/// same names, and have the program of the files but for places and for what is inferred of it and what slots start with.
pub fn mixed_files_have_alike_programs()
    ensures { (imports : Bool) (slots : List SlotInfo) (s : List Qualifier)
        (texts names : List (List ℕ)) (tokens : List (List Token)) (trees : List PlacedFile) (count : ℕ)
        → TextsLexed 0 known_names texts tokens names → AllPlaced tokens trees
        → (others : List (List Token)) × (places : List PlacedFile)
        × TextsLexed 0 known_names
        (take count
        (annotated_from imports slots s texts tokens (map forget_file trees)
        (program_of_files trees).fields (drop 1 (program_of_files trees).methods))
        ++ drop count texts) others names
        × AllPlaced others places
        × Alike (program_of_files trees) (program_of_files places) }
{}

/// So does what `annotate` answers, of trees in memory.
pub fn annotated_answers_keep_meaning()
    ensures { (terse imports : Bool) (infer : Infer) (texts names new : List (List ℕ)) (tokens : List (List Token))
        (files : List FileTree) (s : List Qualifier)
        → TextsLexed 0 known_names texts tokens names → AllPlaced tokens (map placed_file files)
        → rows_of_files (map placed_file files) ≡ []
        → length (inferring infer (map placed_file files)).fields < 2 ^ 32
        → length (inferring infer (map placed_file files)).methods < 2 ^ 32
        → IsLeastSignature (inferring infer (map placed_file files)) s
        → AreWorded (chosen_slots terse (inferring infer (map placed_file files)) s) imports
        (inferring infer (map placed_file files)) s texts tokens (map file_view files) new
        → KeptRowless terse imports infer names (map placed_file files) s
        (noted_files (chosen_slots terse (inferring infer (map placed_file files)) s) s (map file_view files)
        (inferring infer (map placed_file files)).fields
        (drop 1 (inferring infer (map placed_file files)).methods))
        new }
{}

/// Of files for which a class table was built no premise is left but that they have no row J1 to J6: trees of the texts, the least signature under
/// either choice, and the annotated texts.
pub fn annotating_keeps_the_meaning_of_tables(table: &ClassTable)
    ensures { (terse imports : Bool) (infer : Infer) (texts names new : List (List ℕ)) (tokens : List (List Token))
        (trees : List PlacedFile) (s : List Qualifier)
        → table.now.heads ≡ heads trees → j_rows trees ≡ []
        → TextsLexed 0 known_names texts tokens names → AllPlaced tokens trees
        → IsLeastSignature (inferring infer trees) s
        → AreWorded (chosen_slots terse (inferring infer trees) s) imports (inferring infer trees) s
        texts tokens (map forget_file trees) new
        → KeptRowless terse imports infer names trees s
        (noted_files (chosen_slots terse (inferring infer trees) s) s (map forget_file trees)
        (inferring infer trees).fields (drop 1 (inferring infer trees).methods))
        new }
{
    table.facts();
}
