//! The bytes of a header.

ghost use Rattle.std.specs.Prelude.{◌≡◌, ◌≢◌, ◌↔◌, IfErr, IfOk, IsTrue, MatchOption, Bool, ℕ};
ghost use Rattle.stamp_core.specs.declared.layout.Layout.{Layout};
ghost use Rattle.stamped_watch.specs.Header.{HasLetters, HasWidth, IsFront, IsNoFront, form_byte, layout_byte, readers_in};

use crate::event_bytes::{are_zeros, number_in};
use stamp_core::{Layout, Limits};

/// What a stream's header says.
#[derive(Clone, Copy)]
pub(crate) struct Header {
    /// The limits of the lock.
    pub(crate) limits: Limits,
    /// How many words the record has, in a stream with data.
    pub(crate) width: Option<usize>,
}

/// Why bytes are no header.
#[derive(Clone, Copy, Debug, PartialEq, Eq)]
pub(crate) enum BadHeader {
    /// They don't begin with the letters `stmp`.
    Letters,
    /// The form is neither 1 nor 2.
    Form,
    /// The layout is neither 1 nor 2.
    Layout,
    /// There is no reader, or there are more readers or versions than the layout has room for.
    Limits,
    /// The record has no word or more than 16, or one of the seven bytes behind that number is not zero.
    Width,
}

/// What the first 16 bytes of a header say.
#[derive(Clone, Copy)]
pub(crate) struct HeaderFront {
    pub(crate) limits: Limits,
    /// Whether the stream has data, so that eight bytes more are the header's.
    pub(crate) has_data: bool,
}

fn has_letters(bytes: &[u8; 16]) -> bool
    ensures { IsTrue result ↔ HasLetters bytes.now }
{
    bytes.starts_with(b"stmp")
}

/// Whether a stream of this form has data.
fn form_in(byte: u8) -> Option<bool>
    ensures { MatchOption result ((has_data : Bool) → byte ≢ form_byte has_data) (λ has_data. byte ≡ form_byte has_data) }
{
    match byte {
        1 => Some(false),
        2 => Some(true),
        _ => None,
    }
}

/// The layout of this number.
fn layout_in(byte: u8) -> Option<Layout>
    ensures { MatchOption result ((layout : Layout) → byte ≢ layout_byte layout) (λ layout. byte ≡ layout_byte layout) }
{
    match byte {
        1 => Some(Layout::One),
        2 => Some(Layout::Two),
        _ => None,
    }
}

/// The number of the bytes 6 and 7.
fn readers_in(bytes: &[u8; 16]) -> u64
    ensures { result ≡ readers_in bytes.now }
{
    match bytes[6..].first_chunk::<2>() {
        Some(readers) => u16::from_le_bytes(*readers) as u64,
        None => unreachable!(),
    }
}

/// What the first 16 bytes of a header say, or the first thing that is wrong with them.
pub(crate) fn front_in(bytes: &[u8; 16]) -> Result<HeaderFront, BadHeader>
    ensures front { IfOk result (λ front. IsFront front.limits front.has_data bytes.now) }
    ensures fault { IfErr result (λ fault. IsNoFront fault bytes.now) }
{
    if !has_letters(bytes) {
        return Err(BadHeader::Letters);
    }
    let Some(has_data) = form_in(bytes[4]) else {
        return Err(BadHeader::Form);
    };
    let Some(layout) = layout_in(bytes[5]) else {
        return Err(BadHeader::Layout);
    };
    match Limits::in_layout(layout, readers_in(bytes), number_in(bytes)) {
        Ok(limits) => Ok(HeaderFront { limits, has_data }),
        Err(_) => Err(BadHeader::Limits),
    }
}

/// How many words the record has by the last eight bytes of a header, if they are such.
pub(crate) fn width_in(bytes: &[u8; 8]) -> Option<usize>
    ensures { MatchOption result ((width : ℕ) → ¬ HasWidth width bytes.now) (λ width. HasWidth width bytes.now) }
{
    let width = bytes[0] as usize;
    if width < 1 || width > 16 || !are_zeros(&bytes[1..]) {
        return None;
    }
    Some(width)
}
