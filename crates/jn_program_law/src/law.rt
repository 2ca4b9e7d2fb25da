//! Laws on the program of files.

ghost use Rattle.std.specs.Prelude.{◌≡◌, ◌↔◌, ◌<◌, ◌^◌, [], List, length};
ghost use Rattle.jn_base.specs.declared.infer.Infer.{Infer};
ghost use Rattle.jn_base.specs.declared.place.Row.{Row};
ghost use Rattle.jn_base.specs.declared.infer.Infer.TheVariants.{Private, Package};
ghost use Rattle.jn_heads.specs.Extract.{heads};
ghost use Rattle.jn_heads.specs.Inferred.{Opens, slots_by, tabled};
ghost use Rattle.jn_classtable.specs.Table.{table};
ghost use Rattle.jn_places.specs.Placed.{PlacedFile};
ghost use Rattle.jn_points.specs.BaseRows.{IsBaseRow, NoBaseRows};
ghost use Rattle.jn_points.specs.Regular.{Regular};
ghost use Rattle.jn_program_law.specs.FileProgram.{j_rows, program_of_files, rows_of_files, inferring};

use jn_classtable::ClassTable;

/// Files without rows T1 to T10 and J1 to J6 have a regular program. Its fields and methods have numbers of 32 bits wherever a
/// class table was built (`jn_classtable::ClassTable::facts`); the limits T10 and J6 bound all else.
pub fn programs_of_files_are_regular()
    ensures { (files : List PlacedFile) → rows_of_files files ≡ []
        → length (table (heads files)).fields < 2 ^ 32
        → length (table (heads files)).methods < 2 ^ 32 → Regular (program_of_files files) }
{}

/// The class table of files without rows J1 to J6 becomes a regular program; no premise is left.
pub fn programs_of_tables_are_regular(table: &ClassTable)
    ensures { (files : List PlacedFile) → table.now.heads ≡ heads files → j_rows files ≡ []
        → Regular (program_of_files files) }
{
    table.facts();
}

/// With private members alone it is the program of files as it was; with those without an access word, too, each slot is as it was, or inferred
/// and empty.
pub fn more_members_are_inferred()
    ensures private_ones { (files : List PlacedFile)
        → inferring Private files ≡ program_of_files files }
    ensures open_ones { (files : List PlacedFile)
        → Opens (slots_by Private files) (slots_by Package files) }
{}

/// Where the program of files is regular, it is so by either choice: nothing but a field's slot that isn't inferred is asked of slots.
pub fn inferring_programs_are_regular()
    ensures { (infer : Infer) (files : List PlacedFile) → Regular (program_of_files files)
        → Regular (inferring infer files) }
{}

/// No choice changes what refuses files: classes and members, of which rows T1 to T10 and J1 to J6 are made (`rows_of_files`), are the
/// same, and so are the rows of types, J7 to J10.
pub fn choices_refuse_alike()
    ensures heads { (one other : Infer) (files : List PlacedFile)
        → (tabled one files).heads ≡ (tabled other files).heads }
    ensures rows { (infer : Infer) (files : List PlacedFile) (row : Row)
        → IsBaseRow (inferring infer files) row ↔ IsBaseRow (program_of_files files) row }
    ensures typed { (infer : Infer) (files : List PlacedFile)
        → NoBaseRows (inferring infer files) ↔ NoBaseRows (program_of_files files) }
{}
