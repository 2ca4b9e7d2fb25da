//! What a reporter is.
ghost use Rattle.std.specs.Prelude.{◌≡◌, ◌∷◌, [], Option, Some, OnOk, OnErr};
ghost use Rattle.jn_diag.specs.declared.shown.Verdict.{Verdict};
ghost use Rattle.jn_reporters.specs.Forms.{Form, linked_at, with_rows};

use crate::view::RowView;
use jn_base::OutOfMemory;
use jn_diag::Verdict;

/// Takes rows and a verdict, and makes the bytes of a report from them.
pub trait Reporter: Drop {
    /// Its name, what kind of report it makes, the rows that were taken, and the bytes that it makes of rows and a verdict.
    ghost form: { Self → Form };

    /// The verdict that was given last, if one was given.
    ghost given: { Self → Option Verdict };

    /// The name by which the reporter is chosen.
    fn name(&self) -> &str
        ensures { result.now ≡ (form self.now).title };

    /// Whether the bytes are one document, before which no line can stand.
    fn is_document(&self) -> bool
        ensures { result ≡ (form self.now).document };

    /// Whether notes are shown. Where they aren't, rows need no notes.
    fn shows_notes(&self) -> bool
        ensures { result ≡ (form self.now).notes };

    /// Lets what it shows say that codes are explained at this address, where it shows links. On want of memory the reporter is as before.
    fn link(&mut self, address: &str) -> Result<(), OutOfMemory>
        ensures ok { OnOk result (form self.new ≡ linked_at (form self.old) address.now) }
        ensures err { OnErr result (self.new ≡ self.old) }
        ensures given { given self.new ≡ given self.old };

    /// Takes the row after the others. On want of memory the reporter is as before.
    fn take(&mut self, row: &RowView<'_>) -> Result<(), OutOfMemory>
        ensures ok { OnOk result (form self.new ≡ with_rows (form self.old) (row.now ∷ [])) }
        ensures err { OnErr result (self.new ≡ self.old) }
        ensures given { given self.new ≡ given self.old };

    /// Gives the verdict, in place of an earlier one. On want of memory the reporter is as before.
    fn finish(&mut self, verdict: Verdict) -> Result<(), OutOfMemory>
        ensures ok { OnOk result (given self.new ≡ Some verdict) }
        ensures err { OnErr result (self.new ≡ self.old) }
        ensures form { form self.new ≡ form self.old };

    /// The bytes of the rows and the verdict so far.
    fn bytes(&self) -> &[u8]
        ensures { result.now ≡ (form self.now).shown (form self.now).rows (given self.now) };
}
