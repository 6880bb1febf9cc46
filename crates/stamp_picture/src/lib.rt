//! A recorded history as a picture: a bar for each call, and what lock and record were after each
//! point. The picture is drawn as boxes on a sheet and the sheet's text as SVG, or as lines of
//! characters.
//!
//! Want of memory may come in place of any other answer. Tested, not proved: that memory is wanting
//! only where an allocation was refused, and that a refusal leaves no block of memory.
#![tactic(auto)]

mod bar;
mod frames;
mod labels;
mod markup;
mod picture;
pub mod picture_laws;
mod rows;
mod sheet;
mod state;
mod svg;
pub mod svg_laws;
mod track;
mod window;

pub use bar::Bar;
pub use frames::{Class, Frame};
pub use picture::{Fault, MOST_BARS, Picture, PictureError, judged, picture_of};
pub use rows::text_of;
pub use sheet::{LabelledBox, Sheet, sheet_of};
pub use state::{Mode, Moment, State};
pub use svg::svg_of;
pub use window::Window;
