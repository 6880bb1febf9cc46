//! The boxes of a picture, with their labels.
ghost use Rattle.std.specs.Prelude.{◌≡◌, ◌≤◌, ◌<◌, map, length, IfOk, All, string_bytes};
ghost use Rattle.std.specs.List.{range_with_len};
ghost use Rattle.stamp_picture.specs.Picture.{most_bars};
ghost use Rattle.stamp_picture.specs.Frames.{border};
ghost use Rattle.stamp_picture.specs.Sheet as spec;
ghost use Rattle.stamp_picture.specs.Sheet.{IsSheet, box_of, boxes_of, bar_box, point_box, point_boxes};
ghost use Rattle.stamp_picture.specs.Sheet.{state_box, ribbon_boxes, plain_box, content_box, content_boxes};
ghost use Rattle.stamp_picture.specs.Sheet.{lane_box, axis_box, axis_boxes, legend_box, note_boxes};

use crate::bar::Bar;
use crate::frames::{
    BORDER, Class, Frame, axis_frame, bar_frame, content_frame, foot_of, lane_frame, lanes_in,
    point_frame, point_x, positions_in_order, right_of, state_frame, stride,
};
use crate::labels::{AnsweredLabel, ContentLabel, ShortModeLabel, StateLabel, VerdictLabel};
use crate::picture::{Fault, Picture};
use crate::state::{Moment, State};
use stamp_core::Words;
use std::alloc::{AllocError, Global};

/// A box with its labels.
#[derive(Drop)]
pub struct LabelledBox {
    /// Where it stands.
    pub frame: Frame,
    /// What is told of it where a reader points at it.
    pub title: String,
    /// Its upper line.
    pub upper: String,
    /// Its lower line.
    pub lower: String,
}

/// A picture as boxes. Later ones cover earlier ones, and each list the lists before it.
#[derive(Drop)]
pub struct Sheet {
    /// In pixels.
    pub width: u64,
    /// In pixels.
    pub height: u64,
    /// The lanes of the threads.
    pub lanes: Vec<LabelledBox>,
    /// Positions, of which the axis names as many as have room.
    pub axis: Vec<LabelledBox>,
    /// What the lock was at first, and after each point.
    pub ribbon: Vec<LabelledBox>,
    /// What the record held at first, and from each change on, behind its name.
    pub content: Vec<LabelledBox>,
    /// The calls.
    pub bars: Vec<LabelledBox>,
    /// Where the calls take effect, in the window.
    pub points: Vec<LabelledBox>,
    /// The verdict and the legend.
    pub notes: Vec<LabelledBox>,
}

fn bar_title(alloc: Global, bar: &Bar) -> Result<String, AllocError>
    ensures { IfOk result (λ title. string_bytes title ≡ spec.bar_title bar.now) }
{
    let (entry, lane, answered) = (bar.entry, bar.lane, AnsweredLabel(*bar));
    let (first, point, last) = (bar.first, bar.point, bar.last);
    format!(in alloc; "entry {entry}, thread {lane}: {answered}, {first} to {last}, point {point}")
}

fn bar_box(
    alloc: Global,
    verdict: &Result<u64, Fault>,
    positions: &[u64],
    bar: &Bar,
) -> Result<LabelledBox, AllocError>
    requires few { length positions.now ≤ 6000 }
    requires lane { bar.now.lane < 64 }
    ensures { IfOk result (λ labelled. box_of labelled ≡ bar_box verdict.now positions.now bar.now) }
{
    Ok(LabelledBox {
        frame: bar_frame(verdict, positions, bar),
        title: bar_title(alloc, bar)?,
        upper: bar.call.to_string(alloc)?,
        lower: format!(in alloc; "= {}", bar.reply)?,
    })
}

fn bar_boxes(
    alloc: Global,
    verdict: &Result<u64, Fault>,
    bars: &[Bar],
    positions: &[u64],
) -> Result<Vec<LabelledBox>, AllocError>
    requires few { length positions.now ≤ 6000 }
    requires lanes { All (λ bar. bar.lane < 64) bars.now }
    ensures { IfOk result (λ boxes. boxes_of boxes.items ≡ map (bar_box verdict.now positions.now) bars.now) }
{
    let mut boxes = Vec::new(alloc);
    for bar in bars {
        boxes.push(bar_box(alloc, verdict, positions, bar)?)?;
    }
    Ok(boxes)
}

fn point_box(alloc: Global, positions: &[u64], bar: &Bar) -> Result<LabelledBox, AllocError>
    requires few { length positions.now ≤ 6000 }
    requires lane { bar.now.lane < 64 }
    ensures { IfOk result (λ labelled. box_of labelled ≡ point_box positions.now bar.now) }
{
    Ok(LabelledBox {
        frame: point_frame(positions, bar),
        title: bar_title(alloc, bar)?,
        upper: String::new(alloc),
        lower: String::new(alloc),
    })
}

/// A box for each point in the window.
fn point_boxes(
    alloc: Global,
    bars: &[Bar],
    positions: &[u64],
) -> Result<Vec<LabelledBox>, AllocError>
    requires few { length positions.now ≤ 6000 }
    requires lanes { All (λ bar. bar.lane < 64) bars.now }
    ensures { IfOk result (λ boxes. boxes_of boxes.items ≡ point_boxes positions.now bars.now) }
{
    let mut boxes = Vec::new(alloc);
    for bar in bars {
        if bar.point_shown {
            boxes.push(point_box(alloc, positions, bar)?)?;
        }
    }
    Ok(boxes)
}

fn state_box(alloc: Global, x: u64, until: u64, state: &State) -> Result<LabelledBox, AllocError>
    ensures { IfOk result (λ labelled. box_of labelled ≡ state_box x until state.now) }
{
    let version = state.version;
    Ok(LabelledBox {
        frame: state_frame(x, until, state),
        title: StateLabel(*state).to_string(alloc)?,
        upper: ShortModeLabel(state.mode).to_string(alloc)?,
        lower: format!(in alloc; "v {version}")?,
    })
}

/// A box for each state, to where the next begins.
fn ribbon_boxes(
    alloc: Global,
    opening: &State,
    ribbon: &[Moment],
    positions: &[u64],
) -> Result<Vec<LabelledBox>, AllocError>
    requires { length positions.now ≤ 6000 }
    ensures { IfOk result (λ boxes. boxes_of boxes.items
        ≡ ribbon_boxes positions.now border opening.now ribbon.now) }
{
    let mut boxes = Vec::new(alloc);
    let mut x = BORDER;
    let mut state = *opening;
    for moment in ribbon {
        let until = point_x(positions, moment.point);
        boxes.push(state_box(alloc, x, until, &state)?)?;
        x = until;
        state = moment.state;
    }
    boxes.push(state_box(alloc, x, right_of(positions), &state)?)?;
    Ok(boxes)
}

/// A box that says the same as its title.
fn plain_box(alloc: Global, frame: Frame, label: &str) -> Result<LabelledBox, AllocError>
    ensures { IfOk result (λ labelled. box_of labelled ≡ plain_box frame label.now) }
{
    Ok(LabelledBox {
        frame,
        title: String::from_str(alloc, label)?,
        upper: String::from_str(alloc, label)?,
        lower: String::new(alloc),
    })
}

fn name_box(alloc: Global, y: u64, name: &str) -> Result<LabelledBox, AllocError>
    ensures { IfOk result (λ labelled. box_of labelled ≡ spec.name_box y name.now) }
{
    let frame = Frame {
        class: Class::Note,
        x: 4,
        y,
        width: 90,
        height: 22,
    };
    plain_box(alloc, frame, name)
}

fn content_box(
    alloc: Global,
    x: u64,
    until: u64,
    content: Option<Words>,
) -> Result<LabelledBox, AllocError>
    ensures { IfOk result (λ labelled. box_of labelled ≡ content_box x until content) }
{
    let label = ContentLabel(content).to_string(alloc)?;
    plain_box(alloc, content_frame(x, until), &label)
}

fn same_content(one: &Option<Words>, other: &Option<Words>) -> bool
    ensures { result ≡ spec.same_content one.now other.now }
{
    match (one, other) {
        (None, None) => true,
        (Some(one), Some(other)) => one.is_same(other),
        _ => false,
    }
}

/// What the record held, each time to where it changes.
fn content_boxes(
    alloc: Global,
    opening: &State,
    ribbon: &[Moment],
    positions: &[u64],
) -> Result<Vec<LabelledBox>, AllocError>
    requires { length positions.now ≤ 6000 }
    ensures { IfOk result (λ boxes. boxes_of boxes.items
        ≡ content_boxes positions.now opening.now.content ribbon.now) }
{
    let mut boxes = Vec::new(alloc);
    if opening.content.is_none() {
        return Ok(boxes);
    }
    boxes.push(name_box(alloc, 72, "record")?)?;
    let mut x = BORDER;
    let mut held = opening.content;
    for moment in ribbon {
        let content = moment.state.content;
        if !same_content(&held, &content) {
            let until = point_x(positions, moment.point);
            boxes.push(content_box(alloc, x, until, held)?)?;
            x = until;
            held = content;
        }
    }
    boxes.push(content_box(alloc, x, right_of(positions), held)?)?;
    Ok(boxes)
}

fn lane_box(alloc: Global, positions: &[u64], lane: u64) -> Result<LabelledBox, AllocError>
    requires few { length positions.now ≤ 6000 }
    requires lane { lane ≤ 64 }
    ensures { IfOk result (λ labelled. box_of labelled ≡ lane_box positions.now lane) }
{
    Ok(LabelledBox {
        frame: lane_frame(positions, lane),
        title: format!(in alloc; "thread {lane}")?,
        upper: String::new(alloc),
        lower: format!(in alloc; "thread {lane}")?,
    })
}

fn lane_boxes(alloc: Global, lanes: u64, positions: &[u64]) -> Result<Vec<LabelledBox>, AllocError>
    requires few { length positions.now ≤ 6000 }
    requires lanes { lanes ≤ 64 }
    ensures { IfOk result (λ boxes. boxes_of boxes.items ≡ map (lane_box positions.now) (range_with_len 0 lanes)) }
{
    let mut boxes = Vec::new(alloc);
    for lane in 0..lanes {
        boxes.push(lane_box(alloc, positions, lane)?)?;
    }
    Ok(boxes)
}

/// A position where its column begins.
fn axis_box(
    alloc: Global,
    positions: &[u64],
    lanes: u64,
    column: usize,
) -> Result<LabelledBox, AllocError>
    requires few { length positions.now ≤ 6000 }
    requires lanes { lanes ≤ 64 }
    requires column { column < length positions.now }
    ensures { IfOk result (λ labelled. box_of labelled ≡ axis_box positions.now lanes column) }
{
    let position = positions[column];
    Ok(LabelledBox {
        frame: axis_frame(positions, lanes, column as u64),
        title: format!(in alloc; "position {position}")?,
        upper: position.to_string(alloc)?,
        lower: String::new(alloc),
    })
}

/// A box for each position that the axis names.
fn axis_boxes(alloc: Global, lanes: u64, positions: &[u64]) -> Result<Vec<LabelledBox>, AllocError>
    requires few { length positions.now ≤ 6000 }
    requires lanes { lanes ≤ 64 }
    ensures { IfOk result (λ boxes. boxes_of boxes.items ≡ axis_boxes positions.now lanes) }
{
    let mut boxes = Vec::new(alloc);
    let stride = stride(positions) as usize;
    for column in 0..positions.len() {
        if column % stride == 0 {
            boxes.push(axis_box(alloc, positions, lanes, column)?)?;
        }
    }
    Ok(boxes)
}

/// A box of the legend, from a left side on and so wide.
fn legend_box(
    alloc: Global,
    y: u64,
    class: Class,
    at: (u64, u64),
    label: &str,
) -> Result<LabelledBox, AllocError>
    ensures { IfOk result (λ labelled. box_of labelled ≡ legend_box y class at.0 at.1 label.now) }
{
    let (x, width) = at;
    let frame = Frame {
        class,
        x,
        y,
        width,
        height: 22,
    };
    plain_box(alloc, frame, label)
}

fn verdict_box(alloc: Global, verdict: &Result<u64, Fault>) -> Result<LabelledBox, AllocError>
    ensures { IfOk result (λ labelled. box_of labelled ≡ spec.verdict_box verdict.now) }
{
    let class = match verdict {
        Ok(_) => Class::Note,
        Err(_) => Class::Bad,
    };
    let label = VerdictLabel(*verdict).to_string(alloc)?;
    legend_box(alloc, 4, class, (BORDER, 620), &label)
}

/// The verdict above the picture, and the legend below it.
fn note_boxes(
    alloc: Global,
    verdict: &Result<u64, Fault>,
    y: u64,
) -> Result<Vec<LabelledBox>, AllocError>
    ensures { IfOk result (λ boxes. boxes_of boxes.items ≡ note_boxes verdict.now y) }
{
    let verdict = verdict_box(alloc, verdict)?;
    let lock = name_box(alloc, 40, "lock")?;
    let free = legend_box(alloc, y, Class::Free, (96, 60), "free")?;
    let reading = legend_box(alloc, y, Class::Reading, (160, 76), "n readers")?;
    let writing = legend_box(alloc, y, Class::Writing, (240, 60), "writing")?;
    let call = legend_box(alloc, y, Class::Bar, (304, 60), "call")?;
    let fault = legend_box(alloc, y, Class::Bad, (368, 60), "fault")?;
    let point = legend_box(alloc, y, Class::Point, (440, 6), "")?;
    let note = legend_box(
        alloc,
        y,
        Class::Note,
        (448, 268),
        "takes effect; v: the version",
    )?;
    Ok(vec![in alloc;
        verdict, lock, free, reading, writing, call, fault, point, note,
    ]?)
}

/// The picture as boxes with their labels, on a sheet of at most 32,152 by 2,978 pixels, which viewers
/// take. Each position at which a bar begins or ends, and each point, has a column. Each call stands in
/// its thread's lane, from its first position to its last as far as the window has them, and in the
/// ribbon stands what the lock was from each point to the next. The picture has at most 2,000 bars, in
/// lanes below 64, as each of `picture_of` has. It refuses only for want of memory.
pub fn sheet_of(alloc: Global, picture: &Picture) -> Result<Sheet, AllocError>
    requires few { length picture.now.bars ≤ most_bars }
    requires lanes { All (λ bar. bar.lane < 64) picture.now.bars }
    ensures sheet { IfOk result (λ sheet. IsSheet picture.now sheet) }
    ensures wide { IfOk result (λ sheet. sheet.width ≤ 32152) }
    ensures high { IfOk result (λ sheet. sheet.height ≤ 2978) }
{
    let bars = picture.bars();
    let positions = positions_in_order(alloc, bars)?;
    let (lanes, foot) = (lanes_in(bars), foot_of(bars));
    let (opening, ribbon) = (picture.opening(), picture.ribbon());
    Ok(Sheet {
        width: right_of(&positions).max(716) + 12,
        height: foot + 32,
        lanes: lane_boxes(alloc, lanes, &positions)?,
        axis: axis_boxes(alloc, lanes, &positions)?,
        ribbon: ribbon_boxes(alloc, &opening, ribbon, &positions)?,
        content: content_boxes(alloc, &opening, ribbon, &positions)?,
        bars: bar_boxes(alloc, picture.verdict(), bars, &positions)?,
        points: point_boxes(alloc, bars, &positions)?,
        notes: note_boxes(alloc, picture.verdict(), foot)?,
    })
}
