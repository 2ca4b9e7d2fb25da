//! The law of what is shown at a position.
ghost use Rattle.std.specs.Prelude.{◌≡◌, ℕ, List, Option, None};
ghost use Rattle.jn_base.specs.declared.infer.Infer.{Infer};
ghost use Rattle.jn_base.specs.declared.place.Row.{Row};
ghost use Rattle.jn_env.specs.Order.{Table};
ghost use Rattle.jn_front.specs.declared.source.SourceFile.{SourceFile};
ghost use Rattle.jn_heads.specs.Extract.{heads};
ghost use Rattle.jn_inference_law.specs.Solution.{IsLeastSignature};
ghost use Rattle.jn_lsp_text.specs.declared.encoding.Encoding.{Encoding};
ghost use Rattle.jn_lsp_text.specs.declared.position.Position.{Position};
ghost use Rattle.jn_lsp_text.specs.declared.reply.Hover.{Hover};
ghost use Rattle.jn_notes.specs.Noted.{AreLeastTables};
ghost use Rattle.jn_phases.specs.Phases.{IsPhase, TypedProgramOf};
ghost use Rattle.jn_points.specs.declared.program.Program.{Program};
ghost use Rattle.jn_quals.specs.Qualifier.{Qualifier};
ghost use Rattle.jn_recheck.specs.Files.{place_of};
ghost use Rattle.jn_lsp_hover.specs.Hovered.{IsAtPlace, IsHover};

use jn_front::law::files_have_one_front;
use jn_inference_law::law::least_signatures_are_unique;
use jn_phases::law::files_have_one_typing;
use jn_tables_law::law::rounds_give_the_least_table;

/// What is shown is what the least signature of the files' program and the least tables of its bodies say, whoever found these: files have one
/// program, and it has one of each. Of files that a phase before the rules refuses, nothing is shown.
pub fn hover_is_by_the_least_table()
    ensures solved { (infer : Infer) (encoding : Encoding) (files : List SourceFile) (name : List ℕ)
        (position : Position) (names : List (List ℕ)) (P : Program) (s : List Qualifier)
        (tables : List Table) (hover : Option Hover)
        → (typed : TypedProgramOf infer files names P) → IsLeastSignature P s
        → AreLeastTables P s tables → IsHover infer encoding files name position hover
        → IsAtPlace encoding files names P s tables (heads typed.of_files.trees) position
        (place_of name files) hover }
    ensures refused { (infer : Infer) (encoding : Encoding) (files : List SourceFile) (name : List ℕ)
        (position : Position) (rows : List Row) (hover : Option Hover)
        → IsPhase infer files rows → IsHover infer encoding files name position hover → hover ≡ None }
{
    files_have_one_front();
    files_have_one_typing();
    least_signatures_are_unique();
    rounds_give_the_least_table();
}
