//! A session: files that are edited, and reports of them.
ghost use Rattle.std.specs.Prelude.{◌≡◌, ◌≢◌, ◌≤◌, ◌↔◌, [], None, Some, OnOk, OnErr, IfOk, length, true};
ghost use Rattle.jn_recheck.specs.Files.{AllFit, HaveOwnNames, place_of, with_file, without_file};
ghost use Rattle.jn_recheck.specs.Sessions.{HaveNotes, Reports, or_else};

use crate::file_set::FileSet;
use crate::kept::Kept;
use crate::notes::notes_of;
use crate::recheck::{FilesAgain, Rechecked, recheck_files};
use crate::telling::{tell, told_again};
use jn_base::{Infer, OutOfMemory, Row};
use jn_command::Report;
use jn_diag::{RowText, Verdict};
use jn_front::SourceFile;
use jn_kept_points::KeptTyping;
use jn_kept_trees::KeptTree;
use jn_note_words::Notes;
use jn_sharing::{Gate, Workers};
use std::alloc::Global;
use std::marker::Model;
use std::mem::replace;
use std::thread::Threads;

/// A report of a session's files.
#[derive(Drop)]
pub struct Checked {
    /// Its rows in order, as a reader sees them.
    pub rows: Vec<RowText>,
    /// The same rows, each with the bytes of its file that it points to.
    pub places: Vec<Row>,
    /// What they come to.
    pub verdict: Verdict,
    /// How many files have another text than at the last report.
    pub files: u64,
    /// Of how many bodies the rows were made anew.
    pub bodies: u32,
}

/// What is new is kept in place of what was.
fn keep(kept: &mut Option<Kept>, new: Option<Kept>)
    ensures { kept.new ≡ or_else new kept.old }
{
    if let Some(new) = new {
        *kept = Some(new);
    }
}

/// Files that are edited name by name, no two of one name, and what is kept of their reports, for which the same members are inferred
/// throughout. Contracts see which ones, the files, those of the last report,
/// and the program of the last one that came to the rules, with the texts of its names and its least signature. What they don't see is the last
/// report itself, which is given again where no file has changed, the trees of its files, which spare lexing and parsing the texts that stay, and what is
/// kept beside the program, which spares rows and index of its class table where that stays, and lowering and typing bodies.
#[derive(Drop)]
pub struct Session {
    alloc: Global,
    infer: Infer,
    files: FileSet,
    last: Vec<SourceFile>,
    trees: Vec<Option<KeptTree>>,
    kept: Option<Kept>,
    typing: Option<KeptTyping>,
    told: Option<Report>,
}

impl Model for Session {
    ghost use Rattle.jn_kept_trees.specs.KeptTrees.{AreKeptTrees};
    ghost use Rattle.jn_recheck.specs.Sessions.{SessionOf};
    ghost use Rattle.jn_recheck.specs.Told.{IsLastTold};
    ghost use Rattle.jn_recheck.specs.Standing.{StandsOn};

    ghost Value = { SessionOf };

    ghost view = { λ s. record { infer = s.infer; files = s.files; last = s.last.items; kept = s.kept } };

    ghost invariant = { λ s. AreKeptTrees s.last.items s.trees.items × IsLastTold s.infer s.last.items s.kept s.told × StandsOn s.infer s.trees.items s.kept s.typing };
}

impl Session {
    /// A session without files, whose reports infer these members.
    pub fn new(alloc: Global, infer: Infer) -> Session
        ensures { result ≡ record { infer = infer; files = []; last = []; kept = None } }
    {
        Session {
            alloc,
            infer,
            files: FileSet::new(alloc),
            last: Vec::new(alloc),
            trees: Vec::new(alloc),
            kept: None,
            typing: None,
            told: None,
        }
    }

    /// The members that its reports infer.
    pub fn infer(&self) -> Infer
        ensures { result ≡ self.now.infer }
    {
        self.infer
    }

    /// The files, in the order in which their names came.
    pub fn files(&self) -> &[SourceFile]
        ensures are { result.now ≡ self.now.files }
        ensures fit { AllFit self.now.files }
        ensures distinct { HaveOwnNames self.now.files }
    {
        self.files.as_slice()
    }

    /// Gives a known name its new text in its place, and puts a new name last.
    ///
    /// # Errors
    /// No memory was found, and the session is as before.
    pub fn set(&mut self, name: &str, text: &[u8]) -> Result<(), OutOfMemory>
        requires { length text.now ≤ 1048577 }
        ensures files { OnOk result (self.new.files ≡ with_file name.now text.now self.old.files) }
        ensures unchanged { OnErr result (self.new.files ≡ self.old.files) }
        ensures infer { self.new.infer ≡ self.old.infer }
        ensures last { self.new.last ≡ self.old.last }
        ensures kept { self.new.kept ≡ self.old.kept }
    {
        self.files.set(self.alloc, name, text)
    }

    /// Removes the file of this name; says whether it was there.
    pub fn remove(&mut self, name: &str) -> bool
        ensures files { self.new.files ≡ without_file name.now self.old.files }
        ensures there { (result ≡ true) ↔ (place_of name.now self.old.files ≢ None) }
        ensures infer { self.new.infer ≡ self.old.infer }
        ensures last { self.new.last ≡ self.old.last }
        ensures kept { self.new.kept ≡ self.old.kept }
    {
        self.files.remove(name)
    }

    /// Has these files, with copies of their texts, in place of all that were there.
    ///
    /// # Errors
    /// No memory was found, and the session is as before.
    pub fn replace(&mut self, files: &FileSet) -> Result<(), OutOfMemory>
        ensures files { OnOk result (self.new.files ≡ files.now) }
        ensures unchanged { OnErr result (self.new.files ≡ self.old.files) }
        ensures infer { self.new.infer ≡ self.old.infer }
        ensures last { self.new.last ≡ self.old.last }
        ensures kept { self.new.kept ≡ self.old.kept }
    {
        self.files.replace(self.alloc, files)
    }

    /// The report of the files, by so many workers; the last one again, where no file has changed. A file whose text is as it was at the last report, at the same
    /// place, is neither lexed nor parsed. Each enters the gate `solving` when it takes another file, or a body where inference begins anew, and
    /// `bodies` before it makes a body's rows anew.
    ///
    /// # Errors
    /// No memory was found, and the session is as before.
    #[tactic(auto, using(crate::proofs::Standing::stands_without))]
    pub fn report<R: Threads + Sync, G: Gate + Sync, H: Gate + Sync>(
        &mut self,
        rt: &R,
        workers: Workers,
        solving: &G,
        bodies: &H,
    ) -> Result<Checked, OutOfMemory>
        ensures reports { IfOk result (λ checked. Reports self.old self.new checked.rows.items
            checked.places.items checked.verdict checked.files checked.bodies) }
        ensures unchanged { OnErr result (self.new ≡ self.old) }
    {
        let alloc = self.alloc;
        let again = told_again(
            alloc,
            self.infer,
            &self.files,
            self.last.as_slice(),
            &self.told,
            &self.kept,
        )?;
        if let Some(checked) = again {
            return Ok(checked);
        }
        let trees = replace(&mut self.trees, Vec::new(alloc));
        let FilesAgain {
            found,
            trees,
            typing,
        } = recheck_files(
            rt,
            alloc,
            workers,
            self.infer,
            self.files.as_slice(),
            self.last.as_slice(),
            trees,
            &mut self.kept,
            &self.typing,
            solving,
            bodies,
        )?;
        let Rechecked { report, kept, made } = found;
        let told = tell(alloc, &self.files, self.last.as_slice(), &report, made);
        match told {
            Ok((checked, last)) => {
                self.last = last;
                self.trees = trees;
                self.typing = typing;
                keep(&mut self.kept, kept);
                self.told = Some(report);
                return Ok(checked);
            }
            Err(_) => {
                drop(report);
                drop(trees);
                drop(typing);
                drop(kept);
                return Err(OutOfMemory);
            }
        }
    }

    /// The notes of these rows, in their order, in the program of the last report that came to the rules; none where none did. They are those of
    /// a report's rows where it came to the rules.
    ///
    /// # Errors
    /// No memory was found.
    pub fn notes_of(&self, rows: &[Row]) -> Result<Vec<Notes>, OutOfMemory>
        ensures { IfOk result (λ notes. HaveNotes self.now.kept rows.now notes.items) }
    {
        notes_of(self.alloc, &self.kept, rows)
    }
}
