//! Pieces of XML appended to a text.
ghost use Rattle.std.specs.Prelude.{◌≡◌, ◌++◌, ◌∷◌, [], codes, decimal, OnOk};
ghost use Rattle.stamp_picture.specs.Markup as markup;
ghost use Rattle.stamp_picture.specs.Markup.{escape, escaped, attribute_text, element_text};

use itoa::Buffer;
use std::alloc::AllocError;

/// Appends a piece of text as it is.
pub(crate) fn push_text(text: &mut Vec<u8>, piece: &str) -> Result<(), AllocError>
    ensures { OnOk result (text.new.items ≡ text.old.items ++ piece.now) }
{
    text.extend_from_slice(piece.as_bytes())
}

fn is_plain(byte: u8) -> bool
    ensures { result ≡ markup.is_plain byte }
{
    (32 <= byte && byte <= 126 && !(byte == 34 || byte == 38 || byte == 60 || byte == 62))
        || byte == 10
}

fn push_byte(text: &mut Vec<u8>, byte: u8) -> Result<(), AllocError>
    ensures { OnOk result (text.new.items ≡ text.old.items ++ escape byte) }
{
    match byte {
        b'<' => push_text(text, "&lt;"),
        b'>' => push_text(text, "&gt;"),
        b'&' => push_text(text, "&amp;"),
        b'"' => push_text(text, "&quot;"),
        _ if is_plain(byte) => {
            text.push(byte)?;
            Ok(())
        }
        _ => push_text(text, "?"),
    }
}

/// Appends a text with its markup escaped.
pub(crate) fn push_escaped(text: &mut Vec<u8>, piece: &[u8]) -> Result<(), AllocError>
    ensures { OnOk result (text.new.items ≡ text.old.items ++ escaped piece.now) }
{
    for byte in piece {
        push_byte(text, *byte)?;
    }
    Ok(())
}

/// Appends an attribute.
pub(crate) fn push_attribute(text: &mut Vec<u8>, name: &str, value: &str) -> Result<(), AllocError>
    ensures { OnOk result (text.new.items ≡ text.old.items ++ attribute_text (name.now, value.now)) }
{
    push_text(text, " ")?;
    push_text(text, name)?;
    push_text(text, "=\"")?;
    push_escaped(text, value.as_bytes())?;
    push_text(text, "\"")
}

/// Appends an attribute that is a number.
pub(crate) fn push_number(text: &mut Vec<u8>, name: &str, value: u64) -> Result<(), AllocError>
    ensures { OnOk result (text.new.items
        ≡ text.old.items ++ attribute_text (name.now, decimal value)) }
{
    let mut digits = Buffer::new();
    push_attribute(text, name, digits.format(value))
}

/// Appends an element without attributes that holds a text.
pub(crate) fn push_plain(text: &mut Vec<u8>, name: &str, inside: &str) -> Result<(), AllocError>
    ensures { OnOk result (text.new.items
        ≡ text.old.items ++ element_text name.now [] (escaped inside.now)) }
{
    push_text(text, "<")?;
    push_text(text, name)?;
    push_text(text, ">")?;
    push_escaped(text, inside.as_bytes())?;
    push_text(text, "</")?;
    push_text(text, name)?;
    push_text(text, ">")
}
