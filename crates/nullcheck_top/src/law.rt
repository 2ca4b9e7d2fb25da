//! Laws of reports.
ghost use Rattle.std.specs.Prelude.{◌≡◌, List, ℕ};
ghost use Rattle.jn_base.specs.declared.infer.Infer.{Infer};
ghost use Rattle.jn_front.specs.declared.source.SourceFile.{SourceFile};
ghost use Rattle.jn_command.specs.declared.noted.Noted.{Noted};
ghost use Rattle.jn_command.specs.declared.report.Report.{Report};
ghost use Rattle.jn_command.specs.declared.status.Status.{Status};
ghost use Rattle.nullcheck_top.specs.Report.{AreNotes, RunsTo};

use jn_front::law::files_have_one_front;
use jn_inference_law::law::least_signatures_are_unique;
use jn_notes::law::rows_have_one_list_of_notes as notes_are_unique;
use jn_phase_notes::law::texts_have_one_list_of_notes;
pub use jn_report::law::files_have_one_report;
pub use jn_safe_files::law::accepted_files_are_safe;

/// The rows of a report of files have one list of notes: the least tables and the first chains are one each, and a text stops being
/// of the subset at one place.
pub fn rows_have_one_list_of_notes()
    ensures { (infer : Infer) (files : List SourceFile) (report : Report) (one other : List Noted)
        → AreNotes infer files report one → AreNotes infer files report other → one ≡ other }
{
    texts_have_one_list_of_notes();
    files_have_one_front();
    least_signatures_are_unique();
    notes_are_unique();
}

/// The run of files' main with these words, of at most so many steps, has one status and one text.
pub fn files_have_one_run()
    ensures status { (infer : Infer) (files : List SourceFile) (words : List (List ℕ)) (steps : ℕ)
        (one other : Status) (text more : List ℕ)
        → RunsTo infer files words steps one text → RunsTo infer files words steps other more → one ≡ other }
    ensures text { (infer : Infer) (files : List SourceFile) (words : List (List ℕ)) (steps : ℕ)
        (one other : Status) (text more : List ℕ)
        → RunsTo infer files words steps one text → RunsTo infer files words steps other more → text ≡ more }
{
    files_have_one_front();
}
