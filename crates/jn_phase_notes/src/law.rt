//! Laws of the notes of rows before the rules.
ghost use Rattle.std.specs.Prelude.{◌≡◌, ◌<◌, ◌&&◌, ◌∷◌, [], ℕ, List, length, not};
ghost use Rattle.jn_base.specs.declared.place.Row.{Row};
ghost use Rattle.jn_points.specs.declared.program.Class.{Class as ClassOf};
ghost use Rattle.jn_points.specs.declared.program.Field.{Field as FieldOf};
ghost use Rattle.jn_points.specs.declared.program.Method.{Method as MethodOf};
ghost use Rattle.jn_points.specs.declared.program.Program.{Program as ProgramOf};
ghost use Rattle.jn_points.specs.Members.{some_of};
ghost use Rattle.jn_declaration_rules.specs.Rows.{is_bad_override, is_hiding, lacks_body, some_at};
ghost use Rattle.jn_front.specs.declared.source.SourceFile.{SourceFile};
ghost use Rattle.jn_note_words.specs.declared.note.Notes.{Notes};
ghost use Rattle.jn_places.specs.Placed.{PlacedFile};
ghost use Rattle.jn_command.specs.Stands.{StandIn};
ghost use Rattle.jn_front.specs.declared.source.SourceRead.{SourceRead};
ghost use Rattle.jn_front.specs.Files.{AreReads, files_of_reads, most_files};
ghost use Rattle.jn_front.specs.Limits.{row_at};
ghost use Rattle.jn_base.specs.declared.code.Code.TheVariants.{B1, J7};
ghost use Rattle.jn_base.specs.declared.infer.Infer.{Infer};
ghost use Rattle.jn_classtable.specs.Rows.{t_rows};
ghost use Rattle.jn_heads.specs.Extract.{heads};
ghost use Rattle.jn_note_words.specs.declared.note.Note.{Note};
ghost use Rattle.jn_points.specs.BaseRows.{IsBaseRow};
ghost use Rattle.jn_program_law.specs.FileProgram.{inferring, j_rows};
ghost use Rattle.jn_phase_notes.specs.Trees.{row_notes};
ghost use Rattle.jn_phases.specs.Phases.{AreTreesOrNone};
ghost use Rattle.jn_phase_notes.specs.Others.{clashes, has_abstract, hides};
ghost use Rattle.jn_phase_notes.specs.Phases.{AreNotesBy, PhaseNotes};
ghost use Rattle.jn_phase_notes.specs.Stops.{AreStops};

use jn_follow::law::rows_have_one_stop_note;
use jn_type_notes::law::rows_have_notes;

/// Rows of files without trees have one list of notes: a text stops being of the subset at one place.
pub fn texts_have_one_list_of_notes()
    ensures { (files : List SourceFile) (rows : List Row) (one other : List Notes)
        → AreStops files rows one → AreStops files rows other → one ≡ other }
{
    rows_have_one_stop_note();
}

/// A method has a row T5, a class a row T6 and a field a row T7 exactly where some member stands to it as the one that its note names.
pub fn rows_speak_of_what_makes_them()
    ensures overriding { (P : ProgramOf) (m : ℕ) (x : MethodOf)
        → is_bad_override P m x ≡ some_at (clashes P m x) 0 P.methods }
    ensures bodies { (P : ProgramOf) (c : ℕ) (x : ClassOf)
        → lacks_body P c x
        ≡ (not x.interface && not x.is_abstract && some_at (has_abstract P c) 0 P.methods) }
    ensures hiding { (P : ProgramOf) (x : FieldOf)
        → is_hiding P x ≡ some_of (hides P x) P.fields }
{}

/// The notes of rows of a phase by what was read are those of the files, where the rows stand in what was read; so it is with the one row of too many
/// files.
pub fn notes_by_what_was_read_are_those_of_files()
    ensures read { (reads : List SourceRead) (files : List SourceFile) (names : List (List ℕ))
        (trees : List PlacedFile) (rows : List Row) (notes : List Notes)
        → AreReads reads files → StandIn reads rows → AreTreesOrNone files names trees
        → AreNotesBy (files_of_reads reads) names trees rows notes → PhaseNotes files rows notes }
    ensures many { (some files : List SourceFile) (rows : List Row) (notes : List Notes)
        → most_files < length files → row_at most_files B1 ∷ [] ≡ rows
        → AreStops some rows notes → PhaseNotes files rows notes }
{}

/// Each row J7 of files has a note, which says what type is found and what is wanted.
pub fn rows_of_types_have_notes()
    ensures { (names : List (List ℕ)) (infer : Infer) (trees : List PlacedFile) (row : Row)
        → t_rows (heads trees) ≡ [] → j_rows trees ≡ []
        → IsBaseRow (inferring infer trees) row → row.code ≡ J7
        → (note : Note) × ((row_notes names trees row).shown ≡ note ∷ []) }
{
    rows_have_notes();
}
