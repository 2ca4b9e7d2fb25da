//! Laws of the notes of rows J7.
ghost use Rattle.std.specs.Prelude.{◌≡◌, [], ℕ, Contains, List, filter, map};
ghost use Rattle.jn_base.specs.declared.code.Code.TheVariants.{J7};
ghost use Rattle.jn_base.specs.declared.infer.Infer.{Infer};
ghost use Rattle.jn_base.specs.declared.place.Row.{Row};
ghost use Rattle.jn_points.specs.BaseRows.{IsBaseRow, type_rows};
ghost use Rattle.jn_points.specs.declared.point.PointKind.{PointKind as Kind};
ghost use Rattle.jn_points.specs.declared.program.Program.{Program as ProgramOf};
ghost use Rattle.jn_places.specs.Placed.{PlacedFile};
ghost use Rattle.jn_classtable.specs.Rows.{t_rows};
ghost use Rattle.jn_heads.specs.Extract.{heads};
ghost use Rattle.jn_program_law.specs.FileProgram.{inferring, j_rows};
ghost use Rattle.jn_type_notes.specs.Mismatched.{is_type_row, kind_found, row_of};
ghost use Rattle.jn_type_notes.specs.Wording.{note_span, type_notes};

use jn_program_law::law::{choices_refuse_alike, more_members_are_inferred};

/// The rows J7 of a point are those of its operands whose types don't fit.
pub fn rows_are_of_operands()
    ensures { (P : ProgramOf) (b : ℕ) (kind : Kind)
        → filter is_type_row (type_rows P b kind) ≡ map row_of (kind_found P b kind) }
{}

/// Each row J7 of files has a note at its place.
pub fn rows_have_notes()
    ensures { (names : List (List ℕ)) (infer : Infer) (trees : List PlacedFile) (row : Row)
        → t_rows (heads trees) ≡ [] → j_rows trees ≡ []
        → IsBaseRow (inferring infer trees) row → row.code ≡ J7
        → Contains (map note_span (type_notes names trees)) row.span }
{
    choices_refuse_alike();
    more_members_are_inferred();
}
