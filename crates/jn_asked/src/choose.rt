//! The reporter that a command takes.
ghost use Rattle.std.specs.Prelude.{◌≡◌, map, None, Some};
ghost use Rattle.std.specs.Option.{option_map};
ghost use Rattle.jn_command.specs.Reporters.{first_named};

use jn_base::OutOfMemory;
use jn_diag::Verdict;
use jn_reporters::{Reporter, RowView};

/// A reporter out of its list.
#[derive(Drop)]
pub struct Chosen {
    reporter: Box<dyn Reporter>,
}

impl Reporter for Chosen {
    ghost given = { λ a. (Reporter-box a.reporter).given a.reporter.value };

    ghost form = { λ a. (Reporter-box a.reporter).form a.reporter.value };

    fn name(&self) -> &str {
        self.reporter.name()
    }

    fn is_document(&self) -> bool {
        self.reporter.is_document()
    }

    fn shows_notes(&self) -> bool {
        self.reporter.shows_notes()
    }

    fn link(&mut self, address: &str) -> Result<(), OutOfMemory> {
        self.reporter.link(address)
    }

    fn take(&mut self, row: &RowView<'_>) -> Result<(), OutOfMemory> {
        self.reporter.take(row)
    }

    fn finish(&mut self, verdict: Verdict) -> Result<(), OutOfMemory> {
        self.reporter.finish(verdict)
    }

    fn bytes(&self) -> &[u8] {
        self.reporter.bytes()
    }
}

/// The first reporter of the list that has the name.
pub fn choose(reporters: Vec<Box<dyn Reporter>>, name: &str) -> Option<Chosen>
    ensures { first_named name.now
        (map (λ b. form b) reporters.items)
        ≡ option_map (λ a. form a.reporter) result }
{
    for reporter in reporters {
        if reporter.name() == name {
            return Some(Chosen { reporter });
        }
    }
    None
}
