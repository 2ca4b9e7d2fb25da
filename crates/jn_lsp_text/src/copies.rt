//! Diagnostics once more.
ghost use Rattle.std.specs.Prelude.{◌≡◌, IfOk};

use crate::reply::{Diagnostic, Related, Said};
use jn_base::Seq;
use std::alloc::{AllocError, Global};

/// The same diagnostics once more.
pub fn copy_diagnostics(
    alloc: Global,
    diagnostics: &[Diagnostic],
) -> Result<Seq<Diagnostic>, AllocError>
    ensures { IfOk result (λ copies. copies ≡ diagnostics.now) }
{
    let mut copies = Seq::new(alloc);
    for diagnostic in diagnostics {
        copies.push(diagnostic.copy(alloc)?)?;
    }
    Ok(copies)
}

impl Diagnostic {
    /// The same diagnostic once more.
    pub fn copy(&self, alloc: Global) -> Result<Diagnostic, AllocError>
        ensures { IfOk result (λ copy. copy ≡ self.now) }
    {
        Ok(Diagnostic {
            range: self.range,
            said: self.said.copy(alloc)?,
            related: copy_related(alloc, self.related.as_slice())?,
        })
    }
}

impl Said {
    /// The same once more.
    pub fn copy(&self, alloc: Global) -> Result<Said, AllocError>
        ensures { IfOk result (λ copy. copy ≡ self.now) }
    {
        match self {
            Said::Row(code) => Ok(Said::Row(*code)),
            Said::Unchecked(words) => Ok(Said::Unchecked(words.copy(alloc)?)),
        }
    }
}

fn copy_related(alloc: Global, related: &[Related]) -> Result<Seq<Related>, AllocError>
    ensures { IfOk result (λ copies. copies ≡ related.now) }
{
    let mut copies = Seq::new(alloc);
    for place in related {
        copies.push(place.copy(alloc)?)?;
    }
    Ok(copies)
}

impl Related {
    /// The same place once more.
    pub fn copy(&self, alloc: Global) -> Result<Related, AllocError>
        ensures { IfOk result (λ copy. copy ≡ self.now) }
    {
        Ok(Related {
            name: self.name.copy(alloc)?,
            range: self.range,
            words: self.words.copy(alloc)?,
        })
    }
}
