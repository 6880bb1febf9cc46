//! Laws of the SVG. Each function does nothing; its contract is the law, over the definitions alone.
ghost use Rattle.stamp_picture.specs.SvgLaws.{SvgIsWellFormed};

/// The SVG of a sheet is well-formed, whatever stands on the sheet and in the style.
pub fn svg_is_well_formed()
    ensures { SvgIsWellFormed }
{}
