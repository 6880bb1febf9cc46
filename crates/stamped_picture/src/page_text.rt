//! What stands around the data of a page, the same in all pages: how it looks, and the script that draws it.
//!
//! The data is in a script element of its own, in which a browser looks for `</script` alone. No data has
//! a `<`: its strings are names of calls, replies and faults.

/// What stands before the data.
pub(crate) const PAGE_HEAD: &str = r#"<!DOCTYPE html>
<html lang="en">
<head>
<meta charset="utf-8">
<meta name="viewport" content="width=device-width, initial-scale=1">
<meta http-equiv="Content-Security-Policy"
 content="default-src 'none'; style-src 'unsafe-inline'; script-src 'unsafe-inline'">
<title>stamped_picture</title>
<style>
:root{color-scheme:light dark;--ground:#fff;--ink:#1a1a1a;--faint:#666;--line:#ddd;--lane:#f6f6f6;
--call:#0072b2;--on-call:#fff;--fault:#bf5000;--on-fault:#fff;--assumed:#007f5f;--on-assumed:#fff;
--unseen:#b8c4cc;--on-unseen:#1a1a1a;--point:#f0e442;--rim:#1a1a1a;--focus:#cc79a7;--shade:rgba(90,90,90,.13)}
@media (prefers-color-scheme:dark){:root{--ground:#14171a;--ink:#eee;--faint:#a5adb3;--line:#3a4046;--lane:#1b1f23;
--call:#1f74b3;--on-call:#fff;--fault:#f07b28;--on-fault:#14171a;--assumed:#1fb58a;--on-assumed:#14171a;
--unseen:#4a5359;--on-unseen:#eee;--point:#f0e442;--rim:#14171a;--focus:#e79ac4;--shade:rgba(200,200,200,.13)}}
*{box-sizing:border-box}
html,body{height:100%;margin:0}
body{display:flex;flex-direction:column;background:var(--ground);color:var(--ink);font:14px/1.35 system-ui,sans-serif}
header{padding:8px 12px 6px;border-bottom:1px solid var(--line)}
h1{font-size:15px;margin:0 0 6px;max-height:5.4em;overflow:auto;overflow-wrap:anywhere}
h1.bad{border-left:6px solid var(--fault);padding-left:8px}
.row{display:flex;flex-wrap:wrap;gap:6px 14px;align-items:center;font-size:12px;color:var(--faint)}
.key{display:inline-block;width:22px;height:12px;margin-right:5px;vertical-align:-1px;border-radius:2px}
.key.call{background:var(--call)}
.key.fault{background:var(--fault);outline:2px solid var(--ink);outline-offset:-2px}
.key.assumed{background:repeating-linear-gradient(135deg,var(--assumed) 0 3px,var(--ground) 3px 5px)}
.key.replaced{background:var(--fault);border-top:5px solid var(--assumed)}
.key.idle{border:1px dashed var(--faint)}
.key.unseen{background:var(--unseen)}
.key.within{border:2px solid var(--focus)}
.key.point{width:10px;height:10px;background:var(--point);border:1px solid var(--rim);transform:rotate(45deg);border-radius:0}
button,input{font:12px system-ui,sans-serif;color:var(--ink);background:var(--lane);border:1px solid var(--line);
border-radius:4px;padding:2px 8px}
input{width:84px}
button:focus-visible,input:focus-visible,summary:focus-visible,canvas:focus-visible{outline:2px solid var(--focus);outline-offset:-2px}
main{flex:1;min-height:0;position:relative}
canvas{position:absolute;inset:0;width:100%;height:100%;touch-action:none;cursor:grab}
canvas.held{cursor:grabbing}
#tip{position:absolute;display:none;max-width:min(460px,90%);padding:6px 9px;pointer-events:none;white-space:pre-wrap;
overflow-wrap:anywhere;font:12px/1.4 ui-monospace,monospace;background:var(--ground);border:1px solid var(--ink);
border-radius:4px;box-shadow:0 2px 8px rgba(0,0,0,.3)}
footer{border-top:1px solid var(--line);padding:6px 12px;min-height:5.4em;max-height:30vh;overflow:auto;
font:12px/1.4 ui-monospace,monospace;white-space:pre-wrap;overflow-wrap:anywhere}
</style>
</head>
<body>
<header>
<h1 id="verdict">stamped_picture</h1>
<div class="row" id="legend"></div>
<div class="row" style="margin-top:6px">
<button id="fit">all (0)</button><button id="fault">fault (F)</button>
<button id="out" aria-label="zoom out">&minus;</button><button id="in" aria-label="zoom in">+</button>
<label>entry <input id="entry" inputmode="numeric" aria-label="go to entry"></label>
<details><summary>mouse and keys</summary>Drag: move. Wheel: zoom; with Shift: along the positions; with Alt: over the lanes.
Click: a call's text, below. Left, Right: next call of the lane; Up, Down: of the lane above or below.
N, P: next or previous call to take effect. Enter: to the call. Home, End: first or last entry.
Page Up, Page Down: over the lanes. Plus, Minus: zoom. Escape: no call.</details>
</div>
</header>
<main><canvas id="view" tabindex="0" role="application" aria-label="calls, a lane for each thread"
 aria-describedby="told"></canvas><div id="tip"></div></main>
<footer id="told" aria-live="polite"></footer>
<noscript>This page draws by a script, which is in it.</noscript>
<script type="application/json" id="data">
"#;

/// What stands behind it.
pub(crate) const PAGE_TAIL: &str = r#"</script>
<script>
'use strict';
const $ = id => document.getElementById(id);

// Numbers become strings, so that stamps and positions of any size stay exact. No string of the data has a digit.
const data = JSON.parse($('data').textContent.replace(/\d+/g, '"$&"'));
const observed = data.observed || null;
const told = observed || data.recorded;

const callText = call => [call[0], ...call.slice(1).map(replyText)].join(' ');
function replyText(reply) {
  if (Array.isArray(reply)) return '[' + reply.join(', ') + ']';
  return typeof reply === 'object' ? 'count ' + reply.count : String(reply);
}

// The calls: each has its entry's number, lane, positions, and how it is drawn.
const origin = told.entries.reduce((least, e) => {
  const first = BigInt(e.first), last = BigInt(e.last === undefined ? e.first : e.last);
  const low = first < last ? first : last;
  return least === null || low < least ? low : least;
}, null) || 0n;
const at = position => Number(BigInt(position) - origin);

// What explains an observed history: the reply and the point of each call that took effect, by lane and beginning.
const explained = data.order || null;
const effects = new Map();
if (observed && explained) explained.entries.forEach((e, place) => {
  effects.set(e.thread + ' ' + BigInt(e.first) / 64n, { reply: e.reply, point: e.point, place });
});
const wrong = data.wrong || {};
const entryOf = text => text === undefined ? null : Number(text);
const stuck = entryOf(data.stuck);
const fault = entryOf([wrong.entry, data.stuck, data.unexplained, data.undecided].find(text => text !== undefined));
const judgedTo = stuck === null ? null : told.entries[stuck];

// Whether the call had returned when what was judged ends.
function hasReturned(e, n) {
  if (e.last === undefined) return false;
  if (judgedTo === null) return true;
  const last = BigInt(e.last), end = BigInt(judgedTo.last);
  return last < end || (last === end && n <= stuck);
}

// How a call is drawn, and the point and reply that it has in the explanation.
function shown(e, n) {
  if (!observed) {
    const kind = n === fault ? 'fault' : fault !== null && n > fault ? 'unseen' : 'call';
    return { kind, point: e.point, reply: e.reply, place: n };
  }
  const effect = explained ? effects.get(e.thread + ' ' + e.first) : undefined;
  if (n === fault) return { kind: 'fault', ...effect };
  if (judgedTo !== null && BigInt(e.first) > BigInt(judgedTo.last)) return { kind: 'unseen' };
  if (!explained) return { kind: e.last === undefined ? 'idle' : 'call' };
  if (hasReturned(e, n)) return { kind: 'call', ...effect };
  return effect ? { kind: 'assumed', ...effect } : { kind: 'idle' };
}

const calls = told.entries.map((e, n) => ({ n, e, lane: Number(e.thread), row: 0, from: at(e.first),
  to: e.last === undefined ? null : at(e.last), name: callText(e.call), ...shown(e, n) }));
const end = calls.reduce((most, c) => Math.max(most, c.from, c.to === null ? 0 : c.to), 0) + 1;
for (const c of calls) {
  c.open = c.to === null;
  if (c.open) c.to = end - 1;
  if (c.to < c.from) [c.from, c.to] = [c.to, c.from];
  if (c.point !== undefined) c.mark = observed
    ? Number(BigInt(c.point) / 64n - origin) + (Number(BigInt(c.point) % 64n) + 0.5) / 64
    : at(c.point) + 0.5;
}
const inOrder = calls.filter(c => c.place !== undefined).sort((a, b) => a.place - b.place);
inOrder.forEach((c, rank) => { c.rank = rank; });

// Lanes, one for each thread. Calls of a thread that overlap stand in rows below one another.
const lanes = [...new Set(calls.map(c => c.lane))].sort((a, b) => a - b)
  .map(thread => ({ thread, rows: [] }));
const laneOf = new Map(lanes.map((lane, i) => [lane.thread, i]));
for (const c of [...calls].sort((a, b) => a.from - b.from || a.n - b.n)) {
  const lane = lanes[laneOf.get(c.lane)];
  let row = lane.rows.findIndex(rowCalls => rowCalls[rowCalls.length - 1].to < c.from);
  if (row < 0) row = lane.rows.push([]) - 1;
  c.row = row;
  lane.rows[row].push(c);
}
for (const lane of lanes) lane.calls = lane.rows.flat().sort((a, b) => a.from - b.from || a.n - b.n);

// A get or put of guarded data may have calls of the lock within it. Recorders give its thread another lane for
// these, with calls of the lock alone, so any that lie within it may be its own: most often the first, and its lane's.
const isGuarded = c => ['get', 'put', 'put_if'].includes(c.e.call[0]);
for (const lane of lanes) lane.isMixed = new Set(lane.calls.map(isGuarded)).size > 1;
const isMixed = c => lanes[laneOf.get(c.lane)].isMixed;
const isWithin = (c, around) => isGuarded(around) && !isGuarded(c) && !isMixed(around) && !isMixed(c) &&
  around.from <= c.from && c.to <= around.to && (around.open || !c.open);
const relatedTo = c => c.related ||= isGuarded(c) ? callsWithin(c)
  : calls.filter(d => isWithin(c, d)).sort((a, b) => b.from - a.from);
function callsWithin(c) {
  const within = calls.filter(d => isWithin(d, c)).sort((a, b) => a.from - b.from);
  const order = [...new Set(within.map(d => d.lane))];
  return within.sort((a, b) => order.indexOf(a.lane) - order.indexOf(b.lane) || a.from - b.from);
}

// So many calls within another one are named.
const MOST_NAMED = 8;

// Whether a reply was put in place of the one that it answered.
const isReplaced = c => c.n === stuck && c.reply !== undefined;
const answered = c => c.e.reply === undefined ? null : replyText(c.e.reply);
function barText(c) {
  const own = answered(c);
  if (c.kind === 'assumed') return c.name + ' = ' + replyText(c.reply) + ' (assumed)';
  return own === null ? c.name : c.name + ' = ' + own;
}
function possibleText() {
  if (data.possible === null) return 'what was possible is undecided';
  if (!data.possible.length) return 'no reply was possible, it would have waited';
  return 'possible: ' + data.possible.map(replyText).join(', ');
}
const whys = {
  interval: observed ? 'it ended before it began' : 'its point is not between its first and last',
  order: 'its point is not above the one before',
  overlap: observed ? 'it overlaps an earlier entry of its thread' : 'it began before its thread\'s last call ended',
};
function whyText(c) {
  if (wrong.why !== 'reply') return whys[wrong.why];
  const due = wrong.due === null ? 'it would wait here' : 'due here: ' + replyText(wrong.due);
  return 'the ' + (isGuarded(c) ? 'record' : 'lock') + ' would have answered otherwise (' + due + ')';
}
// What the entry is at which a history isn't explained, or breaks a rule.
const faultName = data.undecided !== undefined ? 'undecided from this return on'
  : data.unexplained !== undefined ? 'no order from this return on, or a later one' : 'the fault';
function faultText(c) {
  if (stuck !== null) return 'no order explains this return; ' + possibleText();
  if (data.unexplained !== undefined) return 'no order explains the history, from this return or a later one on';
  if (data.undecided !== undefined) return 'undecided from this return on: too many positions are possible';
  return whyText(c);
}
function factsOf(c) {
  const facts = ['entry ' + c.n + ', thread ' + c.lane + ': ' + c.name];
  const own = answered(c);
  facts.push(own === null ? 'under way' : 'answered ' + own);
  if (c.n === fault) facts.push(faultText(c));
  if (isReplaced(c)) facts.push('put in place of its answer here: ' + replyText(c.reply));
  if (c.kind === 'assumed') facts.push((own === null ? '' : 'had not returned yet; ') +
    'assumed to have taken effect, with reply ' + replyText(c.reply));
  if (c.kind === 'idle' && explained) facts.push((own === null ? '' : 'had not returned yet; ') +
    'took no effect in this explanation');
  if (c.kind === 'unseen') facts.push(observed ? 'began later: not looked at' : 'behind the fault: not judged');
  facts.push('from ' + c.e.first + (c.e.last === undefined ? ' on' : ' to ' + c.e.last));
  if (c.point !== undefined) facts.push('takes effect at ' + (observed ? BigInt(c.point) / 64n : c.point) +
    ', as number ' + (c.rank + 1) + ' of ' + inOrder.length);
  return [...facts, ...relatedFacts(c)];
}
function relatedFacts(c) {
  const named = relatedTo(c).slice(0, MOST_NAMED), more = relatedTo(c).length - named.length;
  const facts = !isGuarded(c) ? named.map(d => 'within entry ' + d.n + ', thread ' + d.lane + ': ' + barText(d))
    : [...new Set(named.map(d => d.lane))].map(lane => 'within it, thread ' + lane + ': ' +
      named.filter(d => d.lane === lane).map(d => barText(d) + ' (entry ' + d.n + ')').join(', '));
  return more ? [...facts, 'and ' + more + ' more'] : facts;
}

const count = calls.length + (calls.length === 1 ? ' call' : ' calls');
const verdict = fault === null ? count + (observed ? ', explained' : ', in order')
  : 'entry ' + fault + ' of thread ' + calls[fault].lane + ': ' + barText(calls[fault]) +
    '; ' + faultText(calls[fault]);
$('verdict').textContent = verdict;
$('verdict').className = fault === null ? '' : 'bad';
document.title = verdict;
const legend = [['call', 'call'], ['fault', faultName],
  ['assumed', 'under way, assumed to have taken effect'], ['idle', 'under way, no effect'],
  ['unseen', observed ? 'began later: not looked at' : 'behind the fault: not judged']]
  .filter(([kind]) => calls.some(c => c.kind === kind));
if (calls.some(isReplaced)) legend.push(['replaced', 'here: a possible reply, put in place of the answer']);
if (inOrder.length) legend.push(['point', 'takes effect']);
if (lanes.some(lane => !lane.isMixed && isGuarded(lane.calls[0])) &&
  lanes.some(lane => !lane.isMixed && !isGuarded(lane.calls[0]))) legend.push(['within', 'within it, or around it']);
for (const [kind, words] of legend) {
  const item = $('legend').appendChild(document.createElement('span'));
  item.appendChild(document.createElement('i')).className = 'key ' + kind;
  item.append(words);
}
$('fault').hidden = fault === null;
$('fault').textContent = (faultName === 'the fault' ? 'fault' : 'entry ' + fault) + ' (F)';

// The view: so many pixels a position, the position at the left side, how far the lanes are scrolled.
const canvas = $('view'), pen = canvas.getContext('2d'), tip = $('tip');
const GUTTER = 76, AXIS = 26, FONT = 11, LETTER = 6.7;
const view = { scale: 1, left: 0, down: 0, width: 0, height: 0, row: 24 };
let picked = null, under = null, colours = {}, frames = [];

const rowCount = lanes.reduce((sum, lane) => sum + lane.rows.length, 0);
function place() {
  view.row = Math.max(15, Math.min(40, (view.height - AXIS - 8) / Math.max(1, rowCount) - 6));
  const gap = view.row < 20 ? 3 : 6;
  let top = AXIS + 4;
  for (const lane of lanes) {
    lane.top = top;
    lane.bottom = top + lane.rows.length * view.row + gap;
    top = lane.bottom;
  }
  view.floor = top;
}
const x = position => GUTTER + (position - view.left) * view.scale;
const positionAt = px => view.left + (px - GUTTER) / view.scale;
// At the greatest scale numbers still tell two positions beside each other apart. At the least one, all calls
// take half of the width, so that any can stand in the middle.
const most = () => Math.min(160, 2 ** 53 / end);
const whole = () => (view.width - GUTTER) / (end * 1.1 + 1);
const least = () => whole() / 2;
const mostDown = () => view.floor > view.height ? view.floor + 8 - view.height : 0;
function settle() {
  view.scale = Math.min(most(), Math.max(least(), view.scale));
  const across = (view.width - GUTTER) / view.scale;
  view.left = Math.min(end - across / 4, Math.max(-across * 0.75, view.left));
  view.down = Math.max(0, Math.min(mostDown(), view.down));
}
let due = 0;
function draw() {
  if (!due) due = requestAnimationFrame(() => { due = 0; paint(); });
}
function fitAcross() {
  view.scale = whole();
  view.left = -end * 0.02;
  settle();
  draw();
}
function fit() {
  view.down = 0;
  fitAcross();
}
function centre(c, scale) {
  if (scale) view.scale = scale;
  view.scale = Math.min(most(), Math.max(least(), view.scale));
  view.left = (c.from + c.to + 1) / 2 - (view.width - GUTTER) / view.scale / 2;
  const lane = lanes[laneOf.get(c.lane)];
  view.down = lane.top + (c.row + 0.5) * view.row - (view.height + AXIS) / 2;
  settle();
  draw();
}
// A scale at which a call and the calls around it are to be read.
function scaleAround(c) {
  const near = inNear(c, 12);
  return (view.width - GUTTER) * 0.8 / (2 * near + c.to - c.from + 1);
}
function inNear(c, wanted) {
  const middle = (c.from + c.to) / 2;
  const gaps = calls.map(d => Math.max(Math.abs(d.from - middle), Math.abs(d.to - middle))).sort((a, b) => a - b);
  return gaps[Math.min(gaps.length - 1, wanted)] || 1;
}
function zoom(factor, px) {
  const kept = positionAt(px);
  view.scale = Math.min(most(), Math.max(least(), view.scale * factor));
  view.left = kept - (px - GUTTER) / view.scale;
  settle();
  draw();
}

function readColours() {
  const style = getComputedStyle(document.documentElement);
  for (const name of ['ground', 'ink', 'faint', 'line', 'lane', 'call', 'on-call', 'fault', 'on-fault', 'assumed',
    'on-assumed', 'unseen', 'on-unseen', 'point', 'rim', 'focus', 'shade']) {
    colours[name] = style.getPropertyValue('--' + name).trim();
  }
  const tile = document.createElement('canvas');
  tile.width = tile.height = 8;
  const brush = tile.getContext('2d');
  brush.fillStyle = colours.assumed;
  brush.fillRect(0, 0, 8, 8);
  brush.strokeStyle = colours.ground;
  brush.lineWidth = 1.5;
  for (const shift of [-8, 0, 8]) {
    brush.beginPath();
    brush.moveTo(shift - 1, 9);
    brush.lineTo(shift + 9, -1);
    brush.stroke();
  }
  colours.hatch = pen.createPattern(tile, 'repeat');
}

// The step between two marks of the axis: 1, 2 or 5 of a power of ten, at least so many pixels apart.
function stepOf(pixels) {
  let power = 1;
  for (;;) {
    for (const digit of [1, 2, 5]) if (digit * power * view.scale >= pixels) return digit * power;
    power *= 10;
  }
}
function paintAxis() {
  pen.fillStyle = colours.ground;
  pen.fillRect(0, 0, view.width, AXIS);
  pen.fillStyle = colours.faint;
  pen.strokeStyle = colours.line;
  pen.beginPath();
  const digits = String(origin + BigInt(Math.ceil(end))).length;
  const step = stepOf(Math.max(60, digits * LETTER + 16));
  const shift = Number(origin % BigInt(step));
  const from = Math.max(0, Math.floor(positionAt(GUTTER)));
  for (let p = Math.ceil((from + shift) / step) * step - shift; x(p) < view.width && p <= end; p += step) {
    pen.moveTo(x(p), AXIS - 6);
    pen.lineTo(x(p), AXIS);
    pen.fillText(String(origin + BigInt(p)), x(p) + 3, AXIS - 9);
  }
  pen.moveTo(0, AXIS - 0.5);
  pen.lineTo(view.width, AXIS - 0.5);
  pen.stroke();
  pen.fillStyle = colours.ground;
  pen.fillRect(0, 0, GUTTER, AXIS - 1);
  pen.fillStyle = colours.faint;
  pen.fillText('position', 8, AXIS - 9);
}
function paintLanes() {
  lanes.forEach((lane, i) => {
    const top = lane.top - view.down;
    if (i % 2 === 0) {
      pen.fillStyle = colours.lane;
      pen.fillRect(0, top, view.width, lane.bottom - lane.top);
    }
  });
}
function paintNames() {
  pen.fillStyle = colours.ground;
  pen.fillRect(0, AXIS, GUTTER - 4, view.height);
  lanes.forEach((lane, i) => {
    const top = lane.top - view.down;
    if (i % 2 === 0) {
      pen.fillStyle = colours.lane;
      pen.fillRect(0, top, GUTTER - 4, lane.bottom - lane.top);
    }
    pen.fillStyle = colours.ink;
    pen.fillText('thread ' + lane.thread, 8, (top + lane.bottom - view.down) / 2 + 4);
  });
}
// The first of the calls of a row that isn't over before this position; they are in order.
function firstFrom(row, position) {
  let low = 0, high = row.length;
  while (low < high) {
    const middle = (low + high) >> 1;
    if (row[middle].to + 1 < position) low = middle + 1; else high = middle;
  }
  return low;
}
function box(c) {
  const lane = lanes[laneOf.get(c.lane)];
  const left = x(c.from), right = Math.max(left + 1.5, x(c.to + 1) - (view.scale > 3 ? 1 : 0));
  return { left, width: right - left, top: lane.top - view.down + 3 + c.row * view.row, height: view.row - 2 };
}
function paintBar(c) {
  const b = box(c), left = Math.max(b.left, GUTTER - 20), right = Math.min(b.left + b.width, view.width + 20);
  const width = right - left;
  if (c.kind === 'idle') {
    pen.strokeStyle = colours.faint;
    pen.setLineDash([4, 3]);
    pen.strokeRect(left + 0.5, b.top + 0.5, Math.max(1, width - 1), b.height - 1);
    pen.setLineDash([]);
  } else {
    pen.fillStyle = c.kind === 'assumed' ? colours.hatch : colours[c.kind];
    pen.fillRect(left, b.top, width, b.height);
  }
  if (c.open && width > 8) {
    pen.fillStyle = colours.ground;
    pen.beginPath();
    pen.moveTo(right, b.top);
    pen.lineTo(right - 6, b.top + b.height / 2);
    pen.lineTo(right, b.top + b.height);
    pen.fill();
  }
  if (c.kind === 'fault') {
    pen.strokeStyle = colours.ink;
    pen.lineWidth = 2;
    pen.strokeRect(left, b.top, width, b.height);
    pen.lineWidth = 1;
  }
  if (isReplaced(c)) {
    pen.fillStyle = colours.hatch;
    pen.fillRect(left + 1, b.top + 1, width - 2, 5);
  }
  const textLeft = Math.max(left, GUTTER) + 4;
  const behind = paintWords(barText(c), c.kind, textLeft, right - 4, b);
  if (isReplaced(c)) paintWords('here: ' + replyText(c.reply), 'assumed', behind + 8, right - 4, b);
}
// Writes as many of the words as there is room for, and answers where they end.
function paintWords(words, kind, left, right, b) {
  const room = Math.floor((right - left) / LETTER);
  if (room < 3) return left;
  const text = words.length <= room ? words : words.slice(0, room - 1) + '\u2026';
  if (kind === 'assumed') {
    pen.fillStyle = colours.assumed;
    pen.fillRect(left - 2, b.top + 2, text.length * LETTER + 4, b.height - 4);
  }
  pen.fillStyle = kind === 'idle' ? colours.ink : colours['on-' + kind];
  pen.fillText(text, left, b.top + b.height / 2 + 4);
  return left + text.length * LETTER;
}
function paintPoint(c) {
  if (c.mark === undefined) return;
  const b = box(c), middle = x(c.mark), size = Math.min(4.5, b.height / 4);
  if (middle < GUTTER - 6 || middle > view.width + 6) return;
  const bottom = b.top + b.height - size - 0.5;
  pen.fillStyle = colours.point;
  pen.strokeStyle = colours.rim;
  pen.beginPath();
  pen.moveTo(middle, bottom - size);
  pen.lineTo(middle + size, bottom);
  pen.lineTo(middle, bottom + size);
  pen.lineTo(middle - size, bottom);
  pen.closePath();
  pen.fill();
  pen.stroke();
}
// Calls that are too small to be told apart are drawn once for each pixel; none but a plain one is left out.
const isPlain = c => c.kind === 'call' || c.kind === 'unseen';
function paintRow(row) {
  const marked = [];
  let done = -Infinity, last = null;
  for (let i = firstFrom(row, positionAt(GUTTER)); i < row.length; i += 1) {
    const c = row[i], left = x(c.from), right = x(c.to + 1);
    if (left > view.width) break;
    if (isPlain(c) && c.kind === last && right - left < 1.5 && right < done + 0.5) continue;
    done = Math.max(right, left + 1.5);
    last = c.kind;
    paintBar(c);
    if (right - left > 3) marked.push(c);
  }
  marked.forEach(paintPoint);
}
function paintEnd() {
  if (judgedTo === null) return;
  const line = x(at(judgedTo.last) + 1);
  pen.fillStyle = colours.shade;
  pen.fillRect(Math.max(GUTTER, line), AXIS, view.width, view.height);
  pen.strokeStyle = colours.fault;
  pen.setLineDash([2, 3]);
  pen.beginPath();
  pen.moveTo(line, AXIS);
  pen.lineTo(line, view.height);
  pen.stroke();
  pen.setLineDash([]);
}
function outline(c, width) {
  const b = box(c);
  pen.strokeStyle = colours.focus;
  pen.lineWidth = width;
  pen.strokeRect(b.left - 1.5, b.top - 1.5, b.width + 3, b.height + 3);
  pen.lineWidth = 1;
}
function paintRelated(c) {
  if (c !== null) relatedTo(c).forEach(d => outline(d, 2));
}
function paintPicked() {
  const c = picked;
  if (c === null) return;
  if (c.mark !== undefined) {
    pen.strokeStyle = colours.focus;
    pen.beginPath();
    pen.moveTo(x(c.mark), AXIS);
    pen.lineTo(x(c.mark), view.height);
    pen.stroke();
  }
  outline(c, 3);
  paintPoint(c);
}
// Which part of the lanes is in view, where not all are.
function paintPart() {
  if (!mostDown()) return;
  const room = view.height - AXIS, share = room / (room + mostDown());
  pen.fillStyle = colours.line;
  pen.fillRect(view.width - 8, AXIS, 8, room);
  pen.fillStyle = colours.faint;
  pen.fillRect(view.width - 7, AXIS + view.down * share, 6, room * share);
}
function paint() {
  const begun = performance.now();
  const dots = window.devicePixelRatio || 1;
  if (canvas.width !== Math.round(view.width * dots) || canvas.height !== Math.round(view.height * dots)) {
    canvas.width = Math.round(view.width * dots);
    canvas.height = Math.round(view.height * dots);
  }
  pen.setTransform(dots, 0, 0, dots, 0, 0);
  pen.font = FONT + 'px ui-monospace, monospace';
  pen.fillStyle = colours.ground;
  pen.fillRect(0, 0, view.width, view.height);
  paintLanes();
  paintEnd();
  for (const lane of lanes) {
    if (lane.bottom - view.down < AXIS || lane.top - view.down > view.height) continue;
    lane.rows.forEach(paintRow);
  }
  if (fault !== null) {
    paintBar(calls[fault]);
    paintPoint(calls[fault]);
  }
  paintRelated(picked);
  paintRelated(under);
  paintPicked();
  paintNames();
  paintAxis();
  paintPart();
  frames.push(performance.now() - begun);
  if (frames.length > 600) frames.shift();
}

function tell(c) {
  $('told').textContent = c === null ? '' : factsOf(c).join('\n');
}
function pick(c) {
  if (!c) return;
  picked = c;
  tell(c);
  const b = box(c);
  const hidden = b.left + b.width < GUTTER + 20 || b.left > view.width - 20 || b.top < AXIS ||
    b.top + b.height > view.height;
  if (hidden) centre(c); else draw();
}
function callAt(px, py) {
  if (px < GUTTER || py < AXIS) return null;
  const lane = lanes.find(l => py >= l.top - view.down && py < l.bottom - view.down);
  if (!lane) return null;
  const row = lane.rows[Math.floor((py - lane.top + view.down - 3) / view.row)] || [];
  const slack = 3 / view.scale, position = positionAt(px);
  let found = null;
  for (let i = firstFrom(row, position - slack); i < row.length && row[i].from <= position + slack; i += 1) {
    if (found === null || row[i].from <= position) found = row[i];
  }
  return found;
}
function hint(c, px, py) {
  if (c !== under) {
    under = c;
    tip.style.display = c === null ? 'none' : 'block';
    if (c !== null) tip.textContent = factsOf(c).join('\n');
    draw();
  }
  if (c === null) return;
  tip.style.left = Math.max(0, Math.min(px + 14, view.width - tip.offsetWidth - 6)) + 'px';
  tip.style.top = (py + 18 + tip.offsetHeight > view.height ? Math.max(0, py - 12 - tip.offsetHeight) : py + 18) + 'px';
}

// Moving by hand: one finger or the mouse moves, two fingers zoom.
const held = new Map();
let moved = 0;
canvas.addEventListener('pointerdown', event => {
  canvas.setPointerCapture(event.pointerId);
  held.set(event.pointerId, [event.offsetX, event.offsetY]);
  moved = 0;
  canvas.classList.add('held');
});
canvas.addEventListener('pointermove', event => {
  const before = held.get(event.pointerId), now = [event.offsetX, event.offsetY];
  if (!before) return hint(callAt(...now), ...now);
  const other = [...held].find(([id]) => id !== event.pointerId);
  held.set(event.pointerId, now);
  moved += Math.abs(now[0] - before[0]) + Math.abs(now[1] - before[1]);
  if (other) {
    const apart = at => Math.max(8, Math.abs(at[0] - other[1][0]));
    zoom(apart(now) / apart(before), (now[0] + other[1][0]) / 2);
  }
  const share = other ? 2 : 1;
  view.left -= (now[0] - before[0]) / view.scale / share;
  view.down -= (now[1] - before[1]) / share;
  hint(null);
  settle();
  draw();
});
function letGo(event) {
  if (held.delete(event.pointerId) && moved < 5 && event.type === 'pointerup') {
    pick(callAt(event.offsetX, event.offsetY));
  }
  if (!held.size) canvas.classList.remove('held');
}
canvas.addEventListener('pointerup', letGo);
canvas.addEventListener('pointercancel', letGo);
canvas.addEventListener('pointerleave', () => hint(null));
canvas.addEventListener('wheel', event => {
  event.preventDefault();
  const unit = event.deltaMode === 1 ? 16 : 1;
  if (event.shiftKey || Math.abs(event.deltaX) > Math.abs(event.deltaY)) {
    view.left += (event.deltaX || event.deltaY) * unit / view.scale;
    settle();
    draw();
  } else if (event.altKey) {
    view.down += event.deltaY * unit;
    settle();
    draw();
  } else zoom(Math.exp(-event.deltaY * unit * 0.002), Math.max(GUTTER, event.offsetX));
}, { passive: false });

function nextInLane(c, by) {
  const list = lanes[laneOf.get(c.lane)].calls;
  return list[list.indexOf(c) + by];
}
function inOtherLane(c, by) {
  const lane = lanes[laneOf.get(c.lane) + by];
  if (!lane) return null;
  const middle = (c.from + c.to) / 2;
  const gap = d => Math.max(d.from - middle, middle - d.to, 0);
  return lane.calls.reduce((best, d) => best === null || gap(d) < gap(best) ? d : best, null);
}
function nextInOrder(c, by) {
  return c.rank === undefined ? inOrder[0] : inOrder[c.rank + by];
}
// Where no call is picked yet, a key that goes from one to another picks this one.
const start = () => calls[fault === null ? 0 : fault];
const goes = new Set(['ArrowRight', 'ArrowLeft', 'ArrowDown', 'ArrowUp', 'n', 'p', 'Enter']);
const keys = {
  ArrowRight: c => pick(nextInLane(c, 1)),
  ArrowLeft: c => pick(nextInLane(c, -1)),
  ArrowDown: c => pick(inOtherLane(c, 1)),
  ArrowUp: c => pick(inOtherLane(c, -1)),
  n: c => pick(nextInOrder(c, 1)),
  p: c => pick(nextInOrder(c, -1)),
  Home: () => pick(calls[0]),
  End: () => pick(calls[calls.length - 1]),
  Enter: c => centre(c, scaleAround(c)),
  f: () => toFault(),
  0: () => fit(),
  '+': () => zoom(1.5, (view.width + GUTTER) / 2),
  '=': () => zoom(1.5, (view.width + GUTTER) / 2),
  '-': () => zoom(1 / 1.5, (view.width + GUTTER) / 2),
  PageDown: () => { view.down += view.height / 2; settle(); draw(); },
  PageUp: () => { view.down -= view.height / 2; settle(); draw(); },
  Escape: () => { picked = null; tell(null); hint(null); draw(); },
};
document.addEventListener('keydown', event => {
  const key = event.key.length === 1 ? event.key.toLowerCase() : event.key, on = event.target.tagName;
  if (on === 'INPUT' || (['BUTTON', 'SUMMARY'].includes(on) && key === 'Enter')) return;
  if (event.ctrlKey || event.metaKey || event.altKey || !keys[key] || !calls.length) return;
  event.preventDefault();
  if (picked === null && goes.has(key)) pick(start()); else keys[key](picked);
});
function toFault() {
  if (fault === null) return;
  picked = calls[fault];
  tell(picked);
  centre(picked, scaleAround(picked));
}
// At first a few calls are all in view, with the fault marked; of many, those around the fault.
const FEW = 60;
function begin() {
  if (fault === null) return fit();
  toFault();
  if (calls.length <= FEW) fitAcross();
}
$('fit').onclick = fit;
$('fault').onclick = toFault;
$('in').onclick = () => keys['+']();
$('out').onclick = () => keys['-']();
$('entry').onchange = event => {
  const c = calls[Number(event.target.value)];
  if (c) {
    picked = c;
    tell(c);
    centre(c, scaleAround(c));
  }
};

function resize() {
  view.width = canvas.clientWidth;
  view.height = canvas.clientHeight;
  place();
}
new ResizeObserver(() => { resize(); settle(); paint(); }).observe(canvas);
matchMedia('(prefers-color-scheme:dark)').addEventListener('change', () => { readColours(); draw(); });
readColours();
resize();
begin();
paint();
</script>
</body>
</html>
"#;
