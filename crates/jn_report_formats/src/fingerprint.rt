//! Fingerprints of rows.
ghost use Rattle.std.specs.Prelude.{◌≡◌};
ghost use Rattle.jn_reporters.specs.Excerpts.{extract_of};
ghost use Rattle.jn_report_formats.specs.Fingerprints as spec;

use jn_base::Code;
use jn_reporters::excerpt::Excerpt;
use jn_reporters::view::RowView;

/// FNV-1a of 64 bits of no bytes.
const BEGIN: u64 = 14_695_981_039_346_656_037;

/// The factor for each byte.
const FACTOR: u64 = 1_099_511_628_211;

fn is_blank(byte: u8) -> bool
    ensures { result ≡ spec.is_blank byte }
{
    byte == b' ' || byte == b'\t'
}

/// One byte more, which is left out where it is blank.
fn print_byte(print: u64, byte: u8) -> u64
    ensures { result ≡ spec.print_byte print byte }
{
    if is_blank(byte) {
        print
    } else {
        (print ^ u64::from(byte)).wrapping_mul(FACTOR)
    }
}

/// The bytes of a text more, but its blanks.
fn printed(begin: u64, text: &[u8]) -> u64
    ensures { result ≡ spec.printed begin text.now }
{
    let mut print = begin;
    for byte in text {
        print = print_byte(print, *byte);
    }
    print
}

fn print_of(code: Code, excerpt: &Excerpt<'_>) -> u64
    ensures { result ≡ spec.print_of code (extract_of excerpt.now) }
{
    let of_code = printed(BEGIN, code.name().as_bytes());
    let before = printed(of_code, excerpt.before);
    let marked = printed(before, excerpt.marked);
    let behind = printed(marked, excerpt.behind);
    printed(behind, excerpt.marked)
}

/// The fingerprint of the row; none where no line is shown.
pub fn print_for(row: &RowView<'_>) -> Option<u64>
    ensures { result ≡ spec.print_for row.now.text.code row.now.extract }
{
    match row.excerpt() {
        None => None,
        Some(excerpt) => Some(print_of(row.row().code, &excerpt)),
    }
}
