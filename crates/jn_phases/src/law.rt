//! Files come to one list of rows, or to one program.
ghost use Rattle.std.specs.Prelude.{◌≡◌, List, ℕ};
ghost use Rattle.jn_base.specs.declared.infer.Infer.{Infer};
ghost use Rattle.jn_base.specs.declared.place.Row.{Row};
ghost use Rattle.jn_points.specs.declared.program.Program.{Program};
ghost use Rattle.jn_front.specs.declared.source.SourceFile.{SourceFile};
ghost use Rattle.jn_phases.specs.Phases.{IsPhase, ProgramOf, TypedProgramOf};

use jn_diag::rows_have_one_order;
use jn_front::law::files_have_one_front;

/// Files have the rows of one phase, in one way, or a program whose types fit and the texts of its names, in one way, and never both.
pub fn files_have_one_typing()
    ensures rows { (infer : Infer) (files : List SourceFile) (rows others : List Row)
        → IsPhase infer files rows → IsPhase infer files others → rows ≡ others }
    ensures program { (infer : Infer) (files : List SourceFile) (names others : List (List ℕ))
        (P Q : Program)
        → ProgramOf infer files names P → ProgramOf infer files others Q
        → (names ≡ others) × (P ≡ Q) }
    ensures apart { (infer : Infer) (files : List SourceFile) (names : List (List ℕ)) (P : Program)
        (rows : List Row)
        → TypedProgramOf infer files names P → IsPhase infer files rows → ⊥ }
{
    files_have_one_front();
    rows_have_one_order();
}
