//! The laws of hints, and of null that is written.
ghost use Rattle.jn_heads.specs.Types.{field_qual, written_qual};
ghost use Rattle.jn_lsp_actions.specs.Annotating.{AreOfAnnotated};
ghost use Rattle.jn_lsp_actions.specs.Taking.{SaysNull};

/// Where files have annotated texts, what is shown in a range of a file is, of the words which its annotated text has more, those in
/// that range.
pub fn hints_are_what_annotating_puts()
    ensures { AreOfAnnotated }
{}

/// Where `@Nullable` stands among the annotations of a parameter, a result or a field, its slot isn't inferred and may be null.
pub fn written_null_is_taken()
    ensures values { SaysNull written_qual }
    ensures fields { SaysNull field_qual }
{}
