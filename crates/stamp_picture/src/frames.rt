//! Where bars, points and moments stand on the sheet.
ghost use Rattle.std.specs.Prelude.{◌≡◌, ◌≤◌, ◌<◌, ◌*◌, length, IfOk, All};
ghost use Rattle.stamp_picture.specs.Frames as frames;
ghost use Rattle.stamp_picture.specs.Frames.{positions_of, ArePositionsInOrder};

use crate::bar::Bar;
use crate::picture::Fault;
use crate::state::{Mode, State};
use std::alloc::{AllocError, Global};

/// The border with the threads of the lanes.
pub(crate) const BORDER: u64 = 96;

/// Where the first column begins.
const LEFT: u64 = 112;

/// Behind the last column: room for what the last point left.
const RIGHT: u64 = 28;

/// A lane.
const LANE_HEIGHT: u64 = 44;

/// Where the first lane begins.
const LANES_TOP: u64 = 120;

/// Where the axis begins.
const AXIS_TOP: u64 = 98;

/// What a box is, by which it has its colour.
#[derive(Clone, Copy, Debug, PartialEq, Eq)]
pub enum Class {
    /// Nobody holds the lock.
    Free,
    /// Readers hold it.
    Reading,
    /// A writer holds it.
    Writing,
    /// What the record holds.
    Content,
    /// The lane of a thread.
    Lane,
    /// A position.
    Axis,
    /// A call.
    Bar,
    /// The call of the first fault.
    Bad,
    /// Where a call took effect.
    Point,
    /// Words beside the picture.
    Note,
}

/// A box's class, place and size, in pixels from the left upper corner of the sheet.
#[derive(Clone, Copy, Debug, PartialEq, Eq)]
pub struct Frame {
    /// What it is.
    pub class: Class,
    /// Its left side.
    pub x: u64,
    /// Its upper side.
    pub y: u64,
    /// How wide it is.
    pub width: u64,
    /// How high it is.
    pub height: u64,
}

/// The positions at which the drawn parts of the bars begin and end, and the points that are shown.
pub(crate) fn positions_of(alloc: Global, bars: &[Bar]) -> Result<Vec<u64>, AllocError>
    ensures is { IfOk result (λ positions. positions.items ≡ positions_of bars.now) }
    ensures three { IfOk result (λ positions. length positions.items ≤ 3 * length bars.now) }
{
    let mut positions = Vec::new(alloc);
    for bar in bars {
        positions.push(bar.begin)?;
        if bar.point_shown {
            positions.push(bar.point)?;
        }
        positions.push(bar.end)?;
    }
    Ok(positions)
}

/// Each of them once, in rising order.
pub(crate) fn positions_in_order(alloc: Global, bars: &[Bar]) -> Result<Vec<u64>, AllocError>
    ensures is { IfOk result (λ positions. ArePositionsInOrder bars.now positions.items) }
    ensures three { IfOk result (λ positions. length positions.items ≤ 3 * length bars.now) }
{
    let mut positions = positions_of(alloc, bars)?;
    positions.sort_unstable();
    positions.dedup();
    Ok(positions)
}

fn column(positions: &[u64], position: u64) -> u64
    ensures is { result ≡ frames.column positions.now position }
    ensures few { result ≤ length positions.now }
{
    positions.iter().filter(|other| **other < position).count() as u64
}

fn column_after(positions: &[u64], position: u64) -> u64
    ensures is { result ≡ frames.column_after positions.now position }
    ensures few { result ≤ length positions.now }
{
    positions.iter().filter(|other| **other <= position).count() as u64
}

/// A column, in pixels.
fn unit(positions: &[u64]) -> u64
    ensures is { result ≡ frames.unit positions.now }
    ensures some { 0 < result }
    ensures few { result ≤ 60 }
{
    let columns = positions.len() as u64;
    if columns <= 2000 {
        (1200 / columns.max(1)).min(60).max(16)
    } else {
        5
    }
}

fn x_of(positions: &[u64], columns: u64) -> u64
    requires { columns ≤ 12000 }
    ensures is { result ≡ frames.x_of positions.now columns }
    ensures few { result ≤ 1000000 }
{
    LEFT + unit(positions) * columns
}

fn lane_y(lane: u64) -> u64
    requires { lane ≤ 64 }
    ensures { result ≡ frames.lane_y lane }
{
    LANES_TOP + LANE_HEIGHT * lane
}

/// How many lanes there are: one more than the number of the last that a bar has.
pub(crate) fn lanes_in(bars: &[Bar]) -> u64
    requires { All (λ bar. bar.lane < 64) bars.now }
    ensures is { result ≡ frames.lanes_in bars.now }
    ensures few { result ≤ 64 }
{
    let mut lanes: u64 = 0;
    for bar in bars {
        lanes = lanes.max(bar.lane + 1);
    }
    lanes
}

/// The right side of the picture, after the last column.
pub(crate) fn right_of(positions: &[u64]) -> u64
    requires { length positions.now ≤ 6000 }
    ensures is { result ≡ frames.right_of positions.now }
    ensures few { result ≤ 32140 }
{
    x_of(positions, positions.len() as u64) + RIGHT
}

/// Whether the bar is that of the first fault.
pub(crate) fn is_bad(verdict: &Result<u64, Fault>, bar: &Bar) -> bool
    ensures { result ≡ frames.is_bad verdict.now bar.now }
{
    match verdict {
        Ok(_) => false,
        Err(fault) => fault.bad.entry == bar.entry,
    }
}

fn bar_class(verdict: &Result<u64, Fault>, bar: &Bar) -> Class
    ensures { result ≡ frames.bar_class verdict.now bar.now }
{
    if is_bad(verdict, bar) {
        Class::Bad
    } else {
        Class::Bar
    }
}

/// The box of a call, in the lane of its thread.
pub(crate) fn bar_frame(verdict: &Result<u64, Fault>, positions: &[u64], bar: &Bar) -> Frame
    requires few { length positions.now ≤ 6000 }
    requires lane { bar.now.lane < 64 }
    ensures { result ≡ frames.bar_frame verdict.now positions.now bar.now }
{
    let begin = column(positions, bar.begin);
    let end = column_after(positions, bar.end);
    let x = x_of(positions, begin);
    Frame {
        class: bar_class(verdict, bar),
        x,
        y: lane_y(bar.lane) + 4,
        width: x_of(positions, end).saturating_sub(x),
        height: 36,
    }
}

/// The middle of the column of a point.
pub(crate) fn point_x(positions: &[u64], point: u64) -> u64
    requires { length positions.now ≤ 6000 }
    ensures { result ≡ frames.point_x positions.now point }
{
    x_of(positions, column(positions, point)) + unit(positions) / 2
}

/// The box at the point of a call.
pub(crate) fn point_frame(positions: &[u64], bar: &Bar) -> Frame
    requires few { length positions.now ≤ 6000 }
    requires lane { bar.now.lane < 64 }
    ensures { result ≡ frames.point_frame positions.now bar.now }
{
    Frame {
        class: Class::Point,
        x: point_x(positions, bar.point) - 3,
        y: lane_y(bar.lane) + 33,
        width: 6,
        height: 11,
    }
}

/// What a box of this mode is.
pub(crate) fn class_of(mode: Mode) -> Class
    ensures { result ≡ frames.class_of mode }
{
    match mode {
        Mode::Free => Class::Free,
        Mode::Reading(_) => Class::Reading,
        Mode::Writing => Class::Writing,
    }
}

/// The box of what the lock is, from one side to another.
pub(crate) fn state_frame(x: u64, until: u64, state: &State) -> Frame
    ensures { result ≡ frames.state_frame x until state.now }
{
    Frame {
        class: class_of(state.mode),
        x,
        y: 32,
        width: until.saturating_sub(x),
        height: 36,
    }
}

/// The box of what the record holds.
pub(crate) fn content_frame(x: u64, until: u64) -> Frame
    ensures { result ≡ frames.content_frame x until }
{
    Frame {
        class: Class::Content,
        x,
        y: 72,
        width: until.saturating_sub(x),
        height: 22,
    }
}

/// The box of a lane.
pub(crate) fn lane_frame(positions: &[u64], lane: u64) -> Frame
    requires few { length positions.now ≤ 6000 }
    requires lane { lane ≤ 64 }
    ensures { result ≡ frames.lane_frame positions.now lane }
{
    Frame {
        class: Class::Lane,
        x: 4,
        y: lane_y(lane),
        width: right_of(positions),
        height: LANE_HEIGHT,
    }
}

/// Below the lanes.
pub(crate) fn foot_of(bars: &[Bar]) -> u64
    requires { All (λ bar. bar.lane < 64) bars.now }
    ensures { result ≡ frames.foot_of bars.now }
{
    lane_y(lanes_in(bars)) + 10
}

/// Every how many columns there is a position on the axis.
pub(crate) fn stride(positions: &[u64]) -> u64
    ensures is { result ≡ frames.stride positions.now }
    ensures some { 0 < result }
    ensures few { result ≤ 49 }
{
    48 / unit(positions) + 1
}

/// The box of a position where this column begins, above so many lanes.
pub(crate) fn axis_frame(positions: &[u64], lanes: u64, column: u64) -> Frame
    requires few { length positions.now ≤ 6000 }
    requires lanes { lanes ≤ 64 }
    requires column { column ≤ 6000 }
    ensures { result ≡ frames.axis_frame positions.now lanes column }
{
    let x = x_of(positions, column);
    let next = x_of(positions, column + stride(positions));
    Frame {
        class: Class::Axis,
        x,
        y: AXIS_TOP,
        width: next.min(right_of(positions)).saturating_sub(x),
        height: lane_y(lanes) - AXIS_TOP,
    }
}
