//! The words that spell a qualifier.
ghost use Rattle.std.specs.Prelude.{◌≡◌};
ghost use Rattle.jn_annotate.specs.Words.{initialization_text, is_unspelled, nullity_text};

use jn_quals::Qual;

/// The word for null, with a space after it.
pub fn nullity_text(q: Qual) -> &'static [u8]
    ensures { result.now ≡ nullity_text q }
{
    if q.has_null() {
        b"@Nullable "
    } else {
        b"@NonNull "
    }
}

/// The word for initialization, with a space after it.
pub fn initialization_text(q: Qual) -> &'static [u8]
    ensures { result.now ≡ initialization_text q }
{
    if q.has_free() {
        if q.has_committed() {
            b"@UnknownInitialization "
        } else {
            b"@UnderInitialization "
        }
    } else {
        b"@Initialized "
    }
}

/// A qualifier that has no spelling.
pub fn is_unspelled(q: Qual) -> bool
    ensures { result ≡ is_unspelled q }
{
    !(q.has_committed() || q.has_free())
}
