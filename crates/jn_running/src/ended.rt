//! How a run ended.
ghost use Rattle.std.specs.Prelude.{◌≡◌};
ghost use Rattle.jn_running.specs.Ending.{ended_at};

use jn_base::Span;
use jn_machine::End;

/// An exception of Java that ends a run. That of a null dereference isn't among them: no run of an accepted program
/// has one.
#[derive(Clone, Copy, Debug, PartialEq, Eq)]
pub enum FaultKind {
    /// ArithmeticException: a division or a remainder by zero.
    Arithmetic,
    /// ArrayIndexOutOfBoundsException: an index below zero, or not below the array's length.
    Index,
    /// NegativeArraySizeException: a length below zero.
    NegativeSize,
    /// ClassCastException: a cast of what isn't of the class.
    ClassCast,
    /// ArrayStoreException: a value that the array's elements may not hold.
    ArrayStore,
}

/// How a run ended, or why no more of it was run.
#[derive(Clone, Copy, Debug, PartialEq, Eq)]
pub enum Ended {
    /// `main` returned.
    Done,
    /// An exception of Java, and where in the source the point stands that made it.
    Fault(FaultKind, Span),
    /// All steps that were asked for are done, and the machine still goes on.
    Steps,
    /// A call would make more than 4,096 frames.
    Deep,
    /// A new array would have more than 16,777,216 elements, or a joined text more UTF-16 units than that.
    Long,
    /// The sink failed, and a prefix of what the run printed went out.
    WriteFault,
    /// No memory was found. The sink took all that was printed before.
    OutOfMemory,
}

/// How a run ended whose last point stands there.
pub(crate) fn ended_at(end: End, span: Span) -> Ended
    ensures { result ≡ ended_at end span }
{
    match end {
        End::Done => Ended::Done,
        End::Arithmetic => Ended::Fault(FaultKind::Arithmetic, span),
        End::Index => Ended::Fault(FaultKind::Index, span),
        End::NegativeSize => Ended::Fault(FaultKind::NegativeSize, span),
        End::ClassCast => Ended::Fault(FaultKind::ClassCast, span),
        End::ArrayStore => Ended::Fault(FaultKind::ArrayStore, span),
        End::Deep => Ended::Deep,
        End::Long => Ended::Long,
    }
}
