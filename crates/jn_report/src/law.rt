//! Files have one report.
ghost use Rattle.std.specs.Prelude.{◌≡◌, List};
ghost use Rattle.jn_base.specs.declared.infer.Infer.{Infer};
ghost use Rattle.jn_front.specs.declared.source.SourceFile.{SourceFile};
ghost use Rattle.jn_command.specs.declared.report.Report.{Report};
ghost use Rattle.jn_report.specs.Report.{IsReport};

use jn_diag::rows_have_one_order;
use jn_inference_law::law::least_signatures_are_unique;
use jn_phases::law::files_have_one_typing;
use jn_tables_law::law::rounds_give_the_least_table;

/// Files have at most one report: the signatures are the least ones, whatever workers found them and in which order.
pub fn files_have_one_report()
    ensures { (infer : Infer) (files : List SourceFile) (one other : Report) → IsReport infer files one
        → IsReport infer files other → one ≡ other }
{
    files_have_one_typing();
    least_signatures_are_unique();
    rounds_give_the_least_table();
    rows_have_one_order();
}
