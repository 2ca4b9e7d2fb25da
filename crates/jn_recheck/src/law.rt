//! Laws of sessions.
ghost use Rattle.std.specs.Prelude.{◌≡◌, List, ℕ};
ghost use Rattle.jn_base.specs.declared.infer.Infer.{Infer};
ghost use Rattle.jn_base.specs.declared.place.Row.{Row};
ghost use Rattle.jn_command.specs.declared.report.Report.{Report};
ghost use Rattle.jn_diag.specs.declared.shown.RowText.{RowText};
ghost use Rattle.jn_diag.specs.declared.shown.Verdict.{Verdict};
ghost use Rattle.jn_front.specs.declared.source.SourceFile.{SourceFile};
ghost use Rattle.jn_report.specs.Report.{IsReport};
ghost use Rattle.jn_recheck.specs.Sessions.{Reports, SessionOf};

use jn_inference_law::law::least_signatures_are_unique;
use jn_phases::law::files_have_one_typing;
use jn_report::law::files_have_one_report;

/// Files have at most one report, and a session reports in one way: its rows, its verdict, its numbers and what is kept are those of the
/// session, whatever the number of workers, and whoever of them did what.
pub fn sessions_report_one_way()
    ensures report { (infer : Infer) (files : List SourceFile) (one other : Report)
        → IsReport infer files one → IsReport infer files other → one ≡ other }
    ensures outcome { (before one other : SessionOf) (rows others : List RowText)
        (places seconds : List Row) (verdict second : Verdict) (files count made bodies : ℕ)
        → Reports before one rows places verdict files made
        → Reports before other others seconds second count bodies
        → (rows ≡ others) × (places ≡ seconds) × (verdict ≡ second) × (files ≡ count) × (made ≡ bodies) × (one ≡ other) }
{
    files_have_one_report();
    files_have_one_typing();
    least_signatures_are_unique();
}
