//! Texts that are written where some bytes have a meaning of their own.
ghost use Rattle.std.specs.Prelude.{◌≡◌, ◌++◌, ◌<◌, OnOk};
ghost use Rattle.jn_report_formats.specs.Escapes as spec;

use std::alloc::AllocError;

/// What a text is written into, and so which of its bytes are written otherwise.
#[derive(Clone, Copy, Debug, PartialEq, Eq)]
pub enum Escape {
    /// The message of a workflow command of GitHub.
    Message,
    /// A property of a workflow command of GitHub.
    Property,
    /// A string, between double quotes.
    Json,
    /// The path of a URI.
    Uri,
}

/// Puts the text after what is there.
pub fn put(out: &mut Vec<u8>, escape: Escape, text: &[u8]) -> Result<(), AllocError>
    ensures { OnOk result (out.new.items ≡ out.old.items ++ spec.escaped escape text.now) }
{
    for byte in text {
        put_byte(out, escape, *byte)?;
    }
    Ok(())
}

fn put_byte(out: &mut Vec<u8>, escape: Escape, byte: u8) -> Result<(), AllocError>
    ensures { OnOk result (out.new.items ≡ out.old.items ++ spec.escaped_byte escape byte) }
{
    match escape {
        Escape::Message => put_message(out, byte),
        Escape::Property => put_property(out, byte),
        Escape::Json => put_json(out, byte),
        Escape::Uri => put_uri(out, byte),
    }
}

fn put_message(out: &mut Vec<u8>, byte: u8) -> Result<(), AllocError>
    ensures { OnOk result (out.new.items ≡ out.old.items ++ spec.message_byte byte) }
{
    match byte {
        b'%' => out.extend_from_slice(b"%25"),
        b'\r' => out.extend_from_slice(b"%0D"),
        b'\n' => out.extend_from_slice(b"%0A"),
        _ => out.extend_from_slice(&[byte]),
    }
}

fn put_property(out: &mut Vec<u8>, byte: u8) -> Result<(), AllocError>
    ensures { OnOk result (out.new.items ≡ out.old.items ++ spec.property_byte byte) }
{
    match byte {
        b':' => out.extend_from_slice(b"%3A"),
        b',' => out.extend_from_slice(b"%2C"),
        _ => put_message(out, byte),
    }
}

fn put_json(out: &mut Vec<u8>, byte: u8) -> Result<(), AllocError>
    ensures { OnOk result (out.new.items ≡ out.old.items ++ spec.json_byte byte) }
{
    match byte {
        b'"' => out.extend_from_slice(b"\\\""),
        b'\\' => out.extend_from_slice(b"\\\\"),
        _ if byte < b' ' => put_number(out, b"\\u00", byte),
        _ => out.extend_from_slice(&[byte]),
    }
}

fn put_uri(out: &mut Vec<u8>, byte: u8) -> Result<(), AllocError>
    ensures { OnOk result (out.new.items ≡ out.old.items ++ spec.uri_byte byte) }
{
    if stands_in_uri(byte) {
        return out.extend_from_slice(&[byte]);
    }
    put_number(out, b"%", byte)
}

/// Whether the byte stands for itself in a URI's path.
fn stands_in_uri(byte: u8) -> bool
    ensures { result ≡ spec.stands_in_uri byte }
{
    byte.is_ascii_alphanumeric()
        || byte == b'-'
        || byte == b'.'
        || byte == b'_'
        || byte == b'~'
        || byte == b'/'
}

/// Puts the mark and the two hexadecimal digits of the byte.
fn put_number(out: &mut Vec<u8>, mark: &[u8], byte: u8) -> Result<(), AllocError>
    ensures { OnOk result (out.new.items ≡ out.old.items ++ (mark.now ++ spec.hex_pair byte)) }
{
    out.extend_from_slice(mark)?;
    out.extend_from_slice(&[hex_digit(byte / 16), hex_digit(byte % 16)])
}

/// The hexadecimal digit of a number below 16.
fn hex_digit(value: u8) -> u8
    requires { value < 16 }
    ensures { result ≡ spec.hex_digit value }
{
    if value < 10 {
        b'0' + value
    } else {
        b'A' - 10 + value
    }
}
