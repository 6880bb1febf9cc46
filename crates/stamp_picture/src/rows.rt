//! A picture in characters, in which time goes down.
ghost use Rattle.std.specs.Prelude.{◌≡◌, ◌<◌, ◌==◌, ◌++◌, map, reverse, option_map, OnOk, IfOk, All, string_bytes};
ghost use Rattle.std.specs.List.{concat, find};
ghost use Rattle.stamp_picture.specs.Frames.{lanes_in};
ghost use Rattle.stamp_picture.specs.Rows as rows;
ghost use Rattle.stamp_picture.specs.Rows.{IsRows, AreNarrow};
ghost use Rattle.stamp_picture.specs.Rows.{sign_text, lane_text, lanes_text, position_text, told_text, left_text};
ghost use Rattle.stamp_picture.specs.Rows.{row_text, number_text, heading_text, at_first_text, cut_text};

use crate::bar::Bar;
use crate::frames::{is_bad, lanes_in, positions_in_order};
use crate::labels::{AnsweredLabel, BriefLabel, VerdictLabel};
use crate::markup::push_text;
use crate::picture::{Fault, Picture};
use crate::state::{Moment, State};
use std::alloc::{AllocError, Global};

const LEGEND: &str = ", begins  | goes on  * takes effect  ' ends; the faulty entry has ! and X";

const HEADING_TAIL: &str =
    "    at  thread: call = reply -> what the lock was then (v: its version)";

fn is_at(bar: &Bar, position: u64) -> bool
    ensures { result ≡ rows.is_at position bar.now }
{
    (bar.begin <= position && position <= bar.end) || bar.point == position
}

fn bars_at(alloc: Global, bars: &[Bar], position: u64) -> Result<Vec<Bar>, AllocError>
    ensures { IfOk result (λ there. there.items ≡ rows.bars_at position bars.now) }
{
    bars.iter()
        .copied()
        .filter(|bar| is_at(bar, position))
        .collect(alloc)
}

fn sign(verdict: &Result<u64, Fault>, bar: &Bar, position: u64) -> &'static str
    ensures { result.now ≡ sign_text verdict.now position bar.now }
{
    let bad = is_bad(verdict, bar);
    if bar.point == position {
        if bad { "X  " } else { "*  " }
    } else if bad {
        "!  "
    } else if bar.first == position {
        ",  "
    } else if bar.last == position {
        "'  "
    } else {
        "|  "
    }
}

/// The last of these bars in a lane.
fn last_in(there: &[Bar], lane: u64) -> Option<&Bar>
    ensures { option_map (λ bar. bar.now) result ≡ find (λ bar. bar.lane == lane) (reverse there.now) }
{
    there.iter().rev().find(|bar| bar.lane == lane)
}

/// A lane's column, where these bars are.
fn lane_sign(verdict: &Result<u64, Fault>, there: &[Bar], lane: u64, position: u64) -> &'static str
    ensures { result.now ≡ lane_text verdict.now position there.now lane }
{
    match last_in(there, lane) {
        Some(bar) => sign(verdict, bar, position),
        None => "   ",
    }
}

fn push_lanes(
    row: &mut Vec<u8>,
    picture: &Picture,
    there: &[Bar],
    position: u64,
) -> Result<(), AllocError>
    requires { All (λ bar. bar.lane < 64) picture.now.bars }
    ensures { OnOk result (row.new.items
        ≡ row.old.items ++ lanes_text picture.now.verdict position there.now (lanes_in picture.now.bars)) }
{
    for lane in 0..lanes_in(picture.bars()) {
        push_text(row, lane_sign(picture.verdict(), there, lane, position))?;
    }
    Ok(())
}

fn position_text(alloc: Global, position: u64) -> Result<String, AllocError>
    ensures { IfOk result (λ text. string_bytes text ≡ position_text position) }
{
    format!(in alloc; "{position:>6}")
}

/// What is told of a bar.
fn told_text(alloc: Global, bar: &Bar, position: u64) -> Result<String, AllocError>
    ensures { IfOk result (λ text. string_bytes text ≡ told_text position bar.now) }
{
    let (lane, entry) = (bar.lane, bar.entry);
    if bar.point == position {
        format!(in alloc; "  {lane}: {} (entry {entry})", AnsweredLabel(*bar))
    } else if bar.first == position {
        format!(in alloc; "  {lane}: {}", bar.call)
    } else if bar.last == position {
        format!(in alloc; "  {lane}: = {}", bar.reply)
    } else {
        Ok(String::new(alloc))
    }
}

fn push_told(
    alloc: Global,
    row: &mut Vec<u8>,
    there: &[Bar],
    position: u64,
) -> Result<(), AllocError>
    ensures { OnOk result (row.new.items ≡ row.old.items ++ concat (map (told_text position) there.now)) }
{
    for bar in there {
        let told = told_text(alloc, bar, position)?;
        push_text(row, &told)?;
    }
    Ok(())
}

/// What the point left.
fn left_text(alloc: Global, moment: &Moment, position: u64) -> Result<String, AllocError>
    ensures { IfOk result (λ text. string_bytes text ≡ left_text position moment.now) }
{
    if moment.point == position {
        format!(in alloc; " -> {}", BriefLabel(moment.state))
    } else {
        Ok(String::new(alloc))
    }
}

fn push_left(
    alloc: Global,
    row: &mut Vec<u8>,
    ribbon: &[Moment],
    position: u64,
) -> Result<(), AllocError>
    ensures { OnOk result (row.new.items ≡ row.old.items ++ concat (map (left_text position) ribbon.now)) }
{
    for moment in ribbon {
        let left = left_text(alloc, moment, position)?;
        push_text(row, &left)?;
    }
    Ok(())
}

/// The line of a position.
fn row_of(alloc: Global, picture: &Picture, position: u64) -> Result<Vec<u8>, AllocError>
    requires { All (λ bar. bar.lane < 64) picture.now.bars }
    ensures { IfOk result (λ row. row.items ≡ row_text picture.now position) }
{
    let there = bars_at(alloc, picture.bars(), position)?;
    let mut row = Vec::new(alloc);
    push_lanes(&mut row, picture, &there, position)?;
    let position_text = position_text(alloc, position)?;
    push_text(&mut row, &position_text)?;
    push_told(alloc, &mut row, &there, position)?;
    push_left(alloc, &mut row, picture.ribbon(), position)?;
    Ok(row)
}

fn number_text(alloc: Global, lane: u64) -> Result<String, AllocError>
    ensures { IfOk result (λ text. string_bytes text ≡ number_text lane) }
{
    let space = if lane < 10 { "  " } else { " " };
    format!(in alloc; "{lane}{space}")
}

/// The threads' numbers, each above its lane.
fn heading_of(alloc: Global, lanes: u64) -> Result<Vec<u8>, AllocError>
    ensures { IfOk result (λ heading. heading.items ≡ heading_text lanes) }
{
    let mut heading = Vec::new(alloc);
    for lane in 0..lanes {
        let number = number_text(alloc, lane)?;
        push_text(&mut heading, &number)?;
    }
    push_text(&mut heading, HEADING_TAIL)?;
    Ok(heading)
}

fn at_first(alloc: Global, opening: State) -> Result<String, AllocError>
    ensures { IfOk result (λ text. string_bytes text ≡ at_first_text opening) }
{
    format!(in alloc; "at first: {}", BriefLabel(opening))
}

/// Appends a line. One that is longer than the width is cut off there, and ends in a sign of it.
fn push_line(text: &mut Vec<u8>, line: &[u8], width: usize) -> Result<(), AllocError>
    ensures { OnOk result (text.new.items ≡ text.old.items ++ cut_text width line.now) }
{
    if line.len() <= width {
        text.extend_from_slice(line)?;
    } else if width > 0 {
        text.extend_from_slice(&line[..width - 1])?;
        text.push(b'>')?;
    }
    text.push(b'\n')?;
    Ok(())
}

fn push_rows(
    alloc: Global,
    text: &mut Vec<u8>,
    picture: &Picture,
    positions: &[u64],
    width: usize,
) -> Result<(), AllocError>
    requires { All (λ bar. bar.lane < 64) picture.now.bars }
    ensures { OnOk result (text.new.items
        ≡ text.old.items ++ concat (map (λ t. cut_text width (row_text picture.now t)) positions.now)) }
{
    for position in positions {
        let row = row_of(alloc, picture, *position)?;
        push_line(text, &row, width)?;
    }
    Ok(())
}

/// The picture in characters, in lines of at most so many. The lanes of the threads stand side by
/// side, with a line for each position at which a call begins, takes effect or ends in the window,
/// and the verdict last. A longer line is cut off, and ends in a sign of it. The lanes are below
/// 64, as in each picture of `picture_of`. It refuses only for want of memory.
pub fn text_of(alloc: Global, picture: &Picture, width: usize) -> Result<Vec<u8>, AllocError>
    requires { All (λ bar. bar.lane < 64) picture.now.bars }
    ensures rows { IfOk result (λ text. IsRows width picture.now text.items) }
    ensures narrow { IfOk result (λ text. AreNarrow width text.items) }
{
    let mut text = Vec::new(alloc);
    push_line(&mut text, LEGEND.as_bytes(), width)?;
    let first = at_first(alloc, picture.opening())?;
    push_line(&mut text, first.as_bytes(), width)?;
    let heading = heading_of(alloc, lanes_in(picture.bars()))?;
    push_line(&mut text, &heading, width)?;
    let positions = positions_in_order(alloc, picture.bars())?;
    push_rows(alloc, &mut text, picture, &positions, width)?;
    let verdict = VerdictLabel(*picture.verdict()).to_string(alloc)?;
    push_line(&mut text, verdict.as_bytes(), width)?;
    Ok(text)
}
