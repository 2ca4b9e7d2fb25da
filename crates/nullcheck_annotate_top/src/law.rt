//! Laws of annotated files.
ghost use Rattle.std.specs.Prelude.{Bool, List, ℕ};
ghost use Rattle.jn_base.specs.declared.infer.Infer.{Infer};
ghost use Rattle.jn_front.specs.declared.source.SourceFile.{SourceFile};
ghost use Rattle.nullcheck_annotate_top.specs.declared.study.Left.{Left};
ghost use Rattle.nullcheck_annotate_top.specs.Kept.{KeptBetween, KeptFiles};
ghost use Rattle.nullcheck_annotate_top.specs.Study.{AreAnnotated};

use jn_annotate_law::law::{annotating_keeps_meaning, mixed_files_have_alike_programs};

/// What is shown or written of files means the same as they do: the new texts lex and parse, with the same names, and have no row T or J
/// before types; their program is that of the files but for places, those slots of it are inferred that got no words, its least signature is what was inferred,
/// the same rules are broken at the same points, constructors and pairs, and rows of types have the same codes, all of it both ways;
/// and they are annotated to themselves. Imports of annotations, where they are asked for, change none of it. So they are accepted exactly where the files are, as long as no limit on files is passed.
pub fn annotated_files_mean_the_same()
    ensures { (infer : Infer) (terse imports : Bool) (files : List SourceFile) (new : List (List ℕ))
        (left : List Left)
        (a : AreAnnotated infer terse imports files new left) → KeptFiles infer terse imports files new left a }
{
    annotating_keeps_meaning();
}

/// Where a fault of writing left only the first files replaced, however many, the files as they stand then lex and parse, with the same
/// names, and have the program of the files but for places and for what is inferred of it.
pub fn partly_written_files_have_the_program()
    ensures { (infer : Infer) (terse imports : Bool) (files : List SourceFile) (new : List (List ℕ))
        (left : List Left)
        (a : AreAnnotated infer terse imports files new left) (count : ℕ)
        → KeptBetween infer terse imports files new left a count }
{
    mixed_files_have_alike_programs();
}
