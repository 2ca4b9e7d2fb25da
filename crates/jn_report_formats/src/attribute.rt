//! The value of an attribute of XML.
ghost use Rattle.std.specs.Prelude.{◌≡◌, ◌++◌, OnOk};
ghost use Rattle.jn_report_formats.specs.Escapes as spec;

use std::alloc::AllocError;

/// Puts the text, as an attribute's value between double quotes, after what is there.
pub fn put_value(out: &mut Vec<u8>, text: &[u8]) -> Result<(), AllocError>
    ensures { OnOk result (out.new.items ≡ out.old.items ++ spec.xml_text text.now) }
{
    let mut second = 0;
    let mut last = 0;
    for byte in text {
        put_behind(out, second, last, *byte)?;
        second = last;
        last = *byte;
    }
    Ok(())
}

/// Puts the byte that stands after these two.
fn put_behind(out: &mut Vec<u8>, second: u8, last: u8, byte: u8) -> Result<(), AllocError>
    ensures { OnOk result (out.new.items ≡ out.old.items ++ spec.xml_behind second last byte) }
{
    if ends_unfit(second, last, byte) {
        return out.extend_from_slice(&[0xBD]);
    }
    put_byte(out, byte)
}

/// Whether the bytes are those of U+FFFE or U+FFFF, which XML can't hold.
fn ends_unfit(second: u8, last: u8, byte: u8) -> bool
    ensures { result ≡ spec.ends_unfit second last byte }
{
    second == 0xEF && last == 0xBF && (byte == 0xBE || byte == 0xBF)
}

fn put_byte(out: &mut Vec<u8>, byte: u8) -> Result<(), AllocError>
    ensures { OnOk result (out.new.items ≡ out.old.items ++ spec.xml_byte byte) }
{
    match byte {
        b'&' => out.extend_from_slice(b"&amp;"),
        b'<' => out.extend_from_slice(b"&lt;"),
        b'>' => out.extend_from_slice(b"&gt;"),
        b'"' => out.extend_from_slice(b"&quot;"),
        b'\'' => out.extend_from_slice(b"&apos;"),
        _ if byte < b' ' => put_control(out, byte),
        _ => out.extend_from_slice(&[byte]),
    }
}

fn put_control(out: &mut Vec<u8>, byte: u8) -> Result<(), AllocError>
    ensures { OnOk result (out.new.items ≡ out.old.items ++ spec.xml_control byte) }
{
    match byte {
        b'\t' => out.extend_from_slice(b"&#9;"),
        b'\n' => out.extend_from_slice(b"&#10;"),
        b'\r' => out.extend_from_slice(b"&#13;"),
        _ => out.extend_from_slice(&[0xEF, 0xBF, 0xBD]),
    }
}
