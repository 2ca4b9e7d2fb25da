//! The law of runs of files, said of their trees.

ghost use Rattle.std.specs.Prelude.{◌≡◌, ◌+◌, List, [], ℕ};
ghost use Rattle.jn_base.specs.declared.infer.Infer.{Infer};
ghost use Rattle.jn_points.specs.BaseRows.{NoBaseRows};
ghost use Rattle.jn_points.specs.Regular.{Regular};
ghost use Rattle.jn_points.specs.declared.program.Program.{Program};
ghost use Rattle.jn_places.specs.Placed.{PlacedFile};
ghost use Rattle.jn_program_law.specs.FileProgram.{inferring, rows_of_files};
ghost use Rattle.jn_program_law.specs.FileSources.{sources as sources_of};
ghost use Rattle.jn_heap.specs.Values.{usual_limits};
ghost use Rattle.jn_heap.specs.Runs.{MainForm};
ghost use Rattle.jn_accept.specs.Mains.{IsOnlyMain};
ghost use Rattle.jn_front.specs.declared.source.SourceFile.{SourceFile};
ghost use Rattle.jn_command.specs.declared.status.Status.{Status};
ghost use Rattle.jn_run.specs.Main.{RunsTo};
ghost use Rattle.jn_meaning.specs.Bodies.{Told, tree};
ghost use Rattle.jn_meaning_run.specs.Written.{IsOver, IsRunOver, IsWritten, RunsWrite};

use jn_meaning_law::law::files_mean_what_they_do;

/// What the trees of the one main come to is what `--run` writes of it, within the interpreter's limits: where they are over with some
/// units of fuel, each run of enough steps has their text, the line of their end, and its status (`over`). Where a run is over, be it
/// as `done`, by an exception, as `long` or as `deep`, so are they, with one unit more than it had steps (`written`).
pub fn runs_write_what_trees_mean()
    ensures over { (infer : Infer) (files : List SourceFile) (trees : List PlacedFile)
        (names words : List (List ℕ)) (m b n : ℕ)
        → rows_of_files trees ≡ []
        → (let P : Program = inferring infer trees in
        Regular P → NoBaseRows P → IsOnlyMain P m → MainForm P m b
        → (let t : Told = tree P (sources_of trees) names usual_limits m words n in
        IsOver t.end → RunsWrite files P names words t.end t.text)) }
    ensures written { (infer : Infer) (files : List SourceFile) (trees : List PlacedFile)
        (names words : List (List ℕ)) (m b steps : ℕ) (status : Status) (bytes : List ℕ)
        → rows_of_files trees ≡ []
        → (let P : Program = inferring infer trees in
        Regular P → NoBaseRows P → IsOnlyMain P m → MainForm P m b
        → IsRunOver status bytes → RunsTo files P names words steps status bytes
        → (let t : Told = tree P (sources_of trees) names usual_limits m words (steps + 1) in
        IsWritten files t.end t.text status bytes)) }
{
    files_mean_what_they_do();
}
