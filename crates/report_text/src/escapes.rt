//! Names in fields of a table and in JSON strings, where some bytes have to be written differently.
ghost use Rattle.std.specs.Prelude.{◌≡◌, ◌++◌, ◌<◌, OnOk};
ghost use Rattle.std.specs.List.{flat_map};
ghost use Rattle.report_text.specs.Format.{field, field_byte};
ghost use Rattle.report_text.specs.Pieces.{hex_digit, json_string, string_byte};

use crate::text::Text;
use std::alloc::AllocError;

/// Adds a field of a table.
#[tactic(auto, unfolding(crate::specs::Format::field))]
pub(crate) fn push_field(text: &mut Text, bytes: &[u8]) -> Result<(), AllocError>
    ensures { OnOk result (text.new ≡ text.old ++ field bytes.now) }
{
    for byte in bytes {
        push_field_byte(text, *byte)?;
    }
    Ok(())
}

/// Adds a byte of a field.
#[tactic(auto, unfolding(crate::specs::Format::field_byte))]
fn push_field_byte(text: &mut Text, byte: u8) -> Result<(), AllocError>
    ensures { OnOk result (text.new ≡ text.old ++ field_byte byte) }
{
    if byte == b'\t' {
        return text.push(b"\\t");
    }
    if byte == b'\n' {
        return text.push(b"\\n");
    }
    if byte == b'\r' {
        return text.push(b"\\r");
    }
    if byte == b'\\' {
        return text.push(b"\\\\");
    }
    text.push(&[byte])
}

/// Adds a JSON string.
#[tactic(auto, unfolding(crate::specs::Pieces::json_string))]
pub fn push_json_string(text: &mut Text, bytes: &[u8]) -> Result<(), AllocError>
    ensures { OnOk result (text.new ≡ text.old ++ json_string bytes.now) }
{
    text.push(b"\"")?;
    push_inside(text, bytes)?;
    text.push(b"\"")
}

/// Adds what is between the quotation marks of a JSON string.
pub(crate) fn push_inside(text: &mut Text, bytes: &[u8]) -> Result<(), AllocError>
    ensures { OnOk result (text.new ≡ text.old ++ flat_map string_byte bytes.now) }
{
    for byte in bytes {
        push_string_byte(text, *byte)?;
    }
    Ok(())
}

/// Adds a byte of a JSON string.
#[tactic(auto, unfolding(crate::specs::Pieces::string_byte))]
fn push_string_byte(text: &mut Text, byte: u8) -> Result<(), AllocError>
    ensures { OnOk result (text.new ≡ text.old ++ string_byte byte) }
{
    if byte == b'"' {
        return text.push(b"\\\"");
    }
    if byte == b'\\' {
        return text.push(b"\\\\");
    }
    if byte < 32 {
        return text.push(&[
            b'\\',
            b'u',
            b'0',
            b'0',
            hex_digit(byte / 16),
            hex_digit(byte % 16),
        ]);
    }
    text.push(&[byte])
}

/// A digit of a number to the base 16.
#[tactic(auto, unfolding(crate::specs::Pieces::hex_digit))]
fn hex_digit(digit: u8) -> u8
    requires { digit < 16 }
    ensures { result ≡ hex_digit digit }
{
    if digit < 10 {
        b'0' + digit
    } else {
        b'a' - 10 + digit
    }
}
