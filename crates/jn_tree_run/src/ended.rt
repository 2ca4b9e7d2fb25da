//! How a run by trees ends.
ghost use Rattle.std.specs.Prelude.{◌≡◌, IfSome};
ghost use Rattle.jn_machine.specs.Ends as machine;
ghost use Rattle.jn_meaning.specs.Bodies as spec;
ghost use Rattle.jn_tree_run.specs.Ends.{IsEnd, IsEndOf};

use jn_base::Span;
use jn_machine::End;
use jn_tree_world::Halt;

/// An exception of Java that ends a run. That of a null dereference is an end of its own.
#[derive(Clone, Copy, Debug, PartialEq, Eq)]
pub enum FaultKind {
    /// ArithmeticException: a division or a remainder by zero (JLS 15.17.2, 15.17.3).
    Arithmetic,
    /// ArrayIndexOutOfBoundsException: an index below zero, or not below the array's length (JLS 15.10.4).
    Index,
    /// NegativeArraySizeException: a length below zero (JLS 15.10.2).
    NegativeSize,
    /// ClassCastException: a cast of what isn't of the class (JLS 15.16).
    ClassCast,
    /// ArrayStoreException: a value that the array's elements may not hold (JLS 15.26.1).
    ArrayStore,
}

/// How a run by trees ended, or why no more of it was run.
#[derive(Clone, Copy, Debug, PartialEq, Eq)]
pub enum TreeEnd {
    /// `main` returned.
    Done,
    /// An exception of Java, and where the form stands that made it.
    Fault(FaultKind, Span),
    /// A new array would have more than 16,777,216 elements, or a joined text more UTF-16 units than that.
    Long,
    /// A null was dereferenced (JLS 15.6), and where its operand stands.
    Null(Span),
    /// A unit of fuel wasn't there.
    Out,
    /// A call would make one frame too many.
    Deep,
    /// The sink failed, and a prefix of the text went out.
    WriteFault,
    /// No memory was found. Nothing went out.
    OutOfMemory,
}

/// What an exception of Java, or the limit of a length, ends a run with. No operation on values comes to the other two ends.
fn fault(end: End, span: Span) -> TreeEnd
    requires meant { spec.fault (machine.end_of end) span ≡ spec.Stuck → ⊥ }
    ensures { IsEnd (spec.fault (machine.end_of end) span) result }
{
    match end {
        End::Arithmetic => TreeEnd::Fault(FaultKind::Arithmetic, span),
        End::Index => TreeEnd::Fault(FaultKind::Index, span),
        End::NegativeSize => TreeEnd::Fault(FaultKind::NegativeSize, span),
        End::ClassCast => TreeEnd::Fault(FaultKind::ClassCast, span),
        End::ArrayStore => TreeEnd::Fault(FaultKind::ArrayStore, span),
        End::Long => TreeEnd::Long,
        End::Done => unreachable!(),
        End::Deep => unreachable!(),
    }
}

/// What a stop ends a run with; None where no memory was found.
pub fn stopped(halt: Halt) -> Option<TreeEnd>
    requires meant { (end : spec.TreeEnd) × IsEndOf halt end × (end ≡ spec.Stuck → ⊥) }
    ensures { IfSome result
        (λ e. (halt ≡ Halt.OutOfMemory → ⊥) × ((end : spec.TreeEnd) → IsEndOf halt end → IsEnd end e)) }
{
    match halt {
        Halt::Faulted(end, span) => Some(fault(end, span)),
        Halt::NullAt(span) => Some(TreeEnd::Null(span)),
        Halt::FuelOut => Some(TreeEnd::Out),
        Halt::TooDeep => Some(TreeEnd::Deep),
        Halt::Senseless => unreachable!(),
        Halt::OutOfMemory => None,
    }
}
