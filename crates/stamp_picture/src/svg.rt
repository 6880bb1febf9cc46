//! The text of a sheet as SVG.
ghost use Rattle.std.specs.Prelude.{◌≡◌, ◌++◌, ◌∷◌, [], codes, OnOk, IfOk, string_bytes};
ghost use Rattle.stamp_picture.specs.Markup.{escaped, element_text, IsDocument};
ghost use Rattle.stamp_picture.specs.Svg.{class_name, fitted, inside_text, box_text, boxes_text, sheet_text, svg_text};
ghost use Rattle.stamp_picture.specs.Svg as spec;

use crate::frames::Class;
use crate::markup::{push_attribute, push_escaped, push_number, push_plain, push_text};
use crate::sheet::{LabelledBox, Sheet};
use std::alloc::{AllocError, Global};

fn class_name(class: Class) -> &'static str
    ensures { result.now ≡ class_name class }
{
    match class {
        Class::Free => "free",
        Class::Reading => "reading",
        Class::Writing => "writing",
        Class::Content => "content",
        Class::Lane => "lane",
        Class::Axis => "axis",
        Class::Bar => "bar",
        Class::Bad => "bad",
        // A style names the classes, so this one keeps the name that it was printed with first.
        Class::Point => "mark",
        Class::Note => "note",
    }
}

fn push_rect(text: &mut Vec<u8>) -> Result<(), AllocError>
    ensures { OnOk result (text.new.items ≡ text.old.items ++ spec.rect_text) }
{
    push_text(text, "<rect width=\"100%\" height=\"100%\"></rect>")
}

/// As much of a line as has room in a box of this width; where it is cut, it ends in a sign of it.
fn push_fitted(text: &mut Vec<u8>, width: u64, line: &[u8]) -> Result<(), AllocError>
    ensures { OnOk result (text.new.items ≡ text.old.items ++ escaped (fitted width line.now)) }
{
    let room = (width.saturating_sub(4) / 7) as usize;
    if line.len() <= room {
        push_escaped(text, line)?;
    } else if room > 0 {
        push_escaped(text, &line[..room - 1])?;
        push_text(text, "&gt;")?;
    }
    Ok(())
}

fn push_line(text: &mut Vec<u8>, y: &str, width: u64, line: &str) -> Result<(), AllocError>
    ensures { OnOk result (text.new.items ≡ text.old.items ++ spec.line_text y.now (fitted width line.now)) }
{
    push_text(text, "<text x=\"4\"")?;
    push_attribute(text, "y", y)?;
    push_text(text, ">")?;
    push_fitted(text, width, line.as_bytes())?;
    push_text(text, "</text>")?;
    Ok(())
}

fn push_inside(text: &mut Vec<u8>, labelled: &LabelledBox) -> Result<(), AllocError>
    ensures { OnOk result (text.new.items ≡ text.old.items ++ inside_text labelled.now) }
{
    let width = labelled.frame.width;
    push_plain(text, "title", &labelled.title)?;
    push_rect(text)?;
    push_line(text, "15", width, &labelled.upper)?;
    push_line(text, "29", width, &labelled.lower)?;
    Ok(())
}

fn push_box(text: &mut Vec<u8>, labelled: &LabelledBox) -> Result<(), AllocError>
    ensures { OnOk result (text.new.items ≡ text.old.items ++ box_text labelled.now) }
{
    push_text(text, "<svg")?;
    push_attribute(text, "class", class_name(labelled.frame.class))?;
    push_number(text, "x", labelled.frame.x)?;
    push_number(text, "y", labelled.frame.y)?;
    push_number(text, "width", labelled.frame.width)?;
    push_number(text, "height", labelled.frame.height)?;
    push_text(text, ">")?;
    push_inside(text, labelled)?;
    push_text(text, "</svg>")?;
    Ok(())
}

fn push_boxes(text: &mut Vec<u8>, boxes: &[LabelledBox]) -> Result<(), AllocError>
    ensures { OnOk result (text.new.items ≡ text.old.items ++ boxes_text boxes.now) }
{
    for labelled in boxes {
        push_box(text, labelled)?;
    }
    Ok(())
}

fn push_sheet(text: &mut Vec<u8>, sheet: &Sheet) -> Result<(), AllocError>
    ensures { OnOk result (text.new.items ≡ text.old.items ++ sheet_text sheet.now) }
{
    push_boxes(text, &sheet.lanes)?;
    push_boxes(text, &sheet.axis)?;
    push_boxes(text, &sheet.ribbon)?;
    push_boxes(text, &sheet.content)?;
    push_boxes(text, &sheet.bars)?;
    push_boxes(text, &sheet.points)?;
    push_boxes(text, &sheet.notes)?;
    Ok(())
}

fn view_of(alloc: Global, width: u64, height: u64) -> Result<String, AllocError>
    ensures { IfOk result (λ view. string_bytes view ≡ spec.view_text width height) }
{
    format!(in alloc; "0 0 {width} {height}")
}

/// The sheet as one SVG document under a style (CSS). The style is escaped as any text is: write no
/// markup in it. It refuses only for want of memory.
pub fn svg_of(alloc: Global, style: &str, sheet: &Sheet) -> Result<Vec<u8>, AllocError>
    ensures text { IfOk result (λ text. text.items ≡ svg_text style.now sheet.now) }
    ensures document { IfOk result (λ text. IsDocument text.items) }
{
    let view = view_of(alloc, sheet.width, sheet.height)?;
    let mut text = Vec::new(alloc);
    push_text(&mut text, "<svg")?;
    push_attribute(&mut text, "xmlns", "http://www.w3.org/2000/svg")?;
    push_attribute(&mut text, "viewBox", &view)?;
    push_number(&mut text, "width", sheet.width)?;
    push_number(&mut text, "height", sheet.height)?;
    push_text(&mut text, ">")?;
    push_plain(&mut text, "style", style)?;
    push_sheet(&mut text, sheet)?;
    push_text(&mut text, "</svg>\n")?;
    Ok(text)
}
