//! The constant pieces of the page. `tools/gen/page.py` writes this file from `tools/html/page.html`.

/// The page before the title of the file.
pub(crate) const BEFORE_TITLE: &str = "\
<!DOCTYPE html>
<html lang=\"en\">
<head>
<meta charset=\"utf-8\">
<meta name=\"viewport\" content=\"width=device-width, initial-scale=1\">
<title>";

/// The page between the title of the file and the heading.
pub(crate) const BEFORE_HEADING: &str = "\
</title>
<script>document.documentElement.className = 'scripted';</script>
<style>
:root {
  color-scheme: light dark;
  --back: #f3f4f6; --card: #fff; --ink: #1d2430; --soft: #4f5963; --line: #7b848d; --grid: #d5dae0; --change: #1769c4;
  --amber: #8a4a00; --hatch: #d99a3d; --hatched: #fff6e3;
  --k0: #332288; --k1: #b04600; --k2: #117733; --k3: #882255; --k4: #006d77; --k5: #6b6400; --k6: #93308f; --k7: #444;
}
@media (prefers-color-scheme: dark) {
  :root {
    --back: #101418; --card: #1a2027; --ink: #e8ecf1; --soft: #a4afbb; --line: #8792a0; --grid: #3d4854;
    --change: #6cb2ff; --amber: #f0b45c; --hatch: #8a5f1e; --hatched: #2c2517;
    --k0: #a9a0f0; --k1: #f09a5a; --k2: #6fc98a; --k3: #e08ab5; --k4: #5cc8d2; --k5: #d0c750; --k6: #dc8ed8;
    --k7: #c4c9cf;
  }
}
html:not(.scripted) main, .scripted #frames { display: none; }
* { box-sizing: border-box; }
html { scrollbar-gutter: stable; }
body { margin: 0; padding: 12px 16px; background: var(--back); color: var(--ink); font: 14px/1.4 sans-serif; }
h1, h2, p, ul { margin: 0; padding: 0; list-style: none; }
h1 { font-size: 18px; overflow-wrap: anywhere; }
h2 { margin-bottom: 4px; font-size: 13px; color: var(--soft); }
pre, #line { font-family: 'DejaVu Sans Mono', Menlo, Consolas, monospace; overflow-wrap: anywhere; }
pre { white-space: pre-wrap; font-size: 12px; }
:focus-visible { outline: 3px solid var(--change); outline-offset: 2px; }
header { position: sticky; top: 0; z-index: 3; padding: 8px 0; background: var(--back); }
.controls { display: flex; flex-wrap: wrap; align-items: center; gap: 8px; }
.controls input { flex: 1 1 160px; min-width: 0; }
button { min-width: 96px; padding: 6px 10px; font: inherit; }
li button { padding: 0; border: 0; background: none; color: inherit; text-align: left; text-decoration: underline; }
button[aria-disabled=true] { opacity: .55; }
#line { padding-top: 8px; }
#answer { font-weight: bold; }
.facts { display: grid; grid-template-columns: repeat(auto-fit, minmax(min(100%, 300px), 1fr)); gap: 8px; }
.facts > section, #heap { padding: 10px; background: var(--card); border: 1px solid var(--grid); border-radius: 6px; }
.facts > section { min-height: 100px; }
.facts li, .facts span, #meshes:empty::before { display: block; width: fit-content; margin: 5px 4px; }
#meshes:empty::before { content: 'no mesh is running'; color: var(--soft); }
#heap { position: relative; margin: 8px 0; }
#arrows { position: absolute; inset: 0; width: 100%; height: 100%; pointer-events: none; }
#virtual, .members, #physical { display: flex; flex-wrap: wrap; align-items: flex-start; gap: 14px; }
#virtual { margin: 4px 0 60px; }
.group, .page { position: relative; flex: none; background: var(--card); font-size: 12px; line-height: 1.35; }
.group { border-top: 3px solid var(--group); }
.head { color: var(--group); }
.head *, .caption span { display: inline-block; margin-right: .7em; }
.member { margin-top: 4px; }
.pages { display: flex; gap: 4px; }
.page { width: var(--page); margin-top: 3px; }
.bytes { position: relative; height: 52px; border: 1px solid var(--line); }
.bytes.slots { background: repeating-linear-gradient(to right, var(--grid) var(--start),
  var(--grid) calc(var(--start) + 1px), transparent calc(var(--start) + 1px),
  transparent calc(var(--start) + var(--slot))); }
.bytes.read-only { background: repeating-linear-gradient(-45deg, var(--hatched) 0 6px, var(--hatch) 6px 8px); }
.bar { position: absolute; top: 0; bottom: 0; min-width: 2px; overflow: hidden; text-align: center;
  font-weight: bold; line-height: 50px; white-space: nowrap; }
.rest { opacity: .3; }
.caption b { display: inline-block; color: var(--amber); }
.new, .changed { outline: 2px solid var(--change); outline-offset: 1px; }
.bar.new, .bar.changed { outline-width: 3px; outline-offset: -3px; box-shadow: inset 0 0 0 5px var(--card); }
.gone > .bytes, .bar.gone { border: 2px dashed var(--soft); }
.bar.gone { background: none !important; color: var(--ink) !important; line-height: 46px; }
path { fill: none; stroke: var(--group); stroke-width: 1.6; }
path.read-only { stroke-dasharray: 6 4; }
path.was { stroke: var(--soft); stroke-dasharray: 2 4; }
path.moved { stroke: var(--change); stroke-width: 3; }
.many path:not(.moved) { opacity: .4; }
.legend { padding: 4px 0 8px; color: var(--soft); font-size: 12px; }
</style>
</head>
<body>
<h1>";

/// The page between the heading and the frames.
pub(crate) const BEFORE_FRAMES: &str = "\
</h1>
<noscript>Stepping through the frames needs scripts. This is the text of all frames.</noscript>
<pre id=\"frames\">";

/// The page behind the frames.
pub(crate) const BEHIND_FRAMES: &str = "\
</pre>
<main>
<header>
  <div class=\"controls\">
    <button type=\"button\" id=\"previous\">Previous</button>
    <button type=\"button\" id=\"next\">Next</button>
    <label for=\"slider\">Frame <span id=\"place\"></span></label>
    <input type=\"range\" id=\"slider\" min=\"1\">
  </div>
  <p id=\"line\" aria-live=\"polite\" aria-atomic=\"true\">line <span id=\"number\"></span>: <span id=\"words\"></span> &rarr;
    <span id=\"answer\"></span></p>
</header>
<div class=\"facts\">
  <section><h2>What changed</h2><ul id=\"changes\"></ul></section>
  <section><h2>Running meshes, and pages</h2><ul id=\"meshes\"></ul><p id=\"counts\"></p></section>
</div>
<div id=\"heap\">
  <svg id=\"arrows\" aria-hidden=\"true\"></svg>
  <h2>Virtual pages, and below them the physical pages that they are mapped to</h2>
  <div id=\"virtual\"></div>
  <div id=\"physical\"></div>
</div>
<p class=\"legend\">The arrow keys, Home and End step through the frames. Outlined: new or changed. Dashed: gone. Hatched:
  read-only, so that stores are blocked. Pale: the rest of an object's slot.</p>
<details><summary>as text</summary><pre id=\"text\"></pre></details>
</main>
<script>
'use strict';

const PAGE_BYTES = 4096;
const SPAN_PAGES = 3;
const SPAN_GAP = 14;
const PAGE_GAP = 4;
const LABEL_WIDTH = 96;
const SVG = 'http://www.w3.org/2000/svg';
const OBJECT_COLOURS = [
  ['#0072b2', '#fff'], ['#e69f00', '#000'], ['#009e73', '#000'], ['#cc79a7', '#000'], ['#56b4e9', '#000'],
  ['#d55e00', '#000'], ['#e0d33a', '#000'], ['#882255', '#fff'], ['#44aa99', '#000'], ['#999933', '#000'],
  ['#4b3fa0', '#fff'], ['#aa4499', '#fff'],
];

const part = id => document.getElementById(id);

// A frame is a line of the plan with its answer, and rows, which begin with two spaces.
function framesOf(text) {
  const found = [];
  for (const line of text.split('\\n')) {
    const head = line.startsWith('line ') && /^line (\\d+): (.*?) -> (.*)$/.exec(line);
    if (head) found.push({ line, number: head[1], words: head[2], answer: head[3], rows: [] });
    else if (line.startsWith('  ')) found.at(-1).rows.push(line.slice(2));
  }
  return found;
}

// The most spans of a frame, the pages of the longest span, and the smallest class: all frames have one scale.
function largestOf(all) {
  const most = { spans: 1, pages: 1, slot: PAGE_BYTES };
  for (const { rows } of all) {
    const groups = rows.filter(row => row.startsWith('group '));
    const pages = rows.filter(row => row.startsWith('page '));
    most.spans = Math.max(most.spans, groups.length);
    if (pages.length > groups.length) most.pages = SPAN_PAGES;
    for (const group of groups) most.slot = Math.min(most.slot, Number(group.split(' ')[3]));
  }
  return most;
}

// A row as a record. `page 2 at 1 read-only` has the kind `page` and the fields page 2, at 1 and read-only true.
function rowOf(text) {
  const words = text.split(' ');
  const row = { text, kind: words[0], state: 'same' };
  while (words.length > 0) {
    const word = words.shift();
    row[word] = /^\\d/.test(words[0]) ? valueOf(words.shift()) : true;
  }
  row.key = `${row.kind} ${keyOf(row)}`;
  return row;
}

const valueOf = word => word.includes(':') ? word : Number(word);

// What a row keeps while it changes. A physical page may be released by one group and taken for another.
function keyOf(row) {
  if (row.kind === 'group') return row.span;
  return row.kind === 'physical' ? `${row.physical} ${row.group}` : row[row.kind];
}

// The rows of a frame with their states, and behind them those that are gone since the frame before.
function rowsAt(index) {
  const rows = frames[index].rows.map(rowOf);
  const before = new Map(frames[Math.max(0, index - 1)].rows.map(rowOf).map(row => [row.key, row]));
  for (const row of rows) {
    row.was = before.get(row.key);
    if (row.was?.text !== row.text) row.state = row.was ? 'changed' : 'new';
    before.delete(row.key);
  }
  for (const row of before.values()) row.state = 'gone';
  return [...rows, ...before.values()];
}

// The sentences about a row that is new, gone or changed, for each kind of row.
const NEW = {
  group: row => [`span ${row.span} is new: group ${row.group} class ${row.class}`],
  page: row => [`page ${row.page} is new: physical ${row.at}`],
  object: row => [`object ${row.object} is new: span ${row.span} slot ${row.slot}`],
  physical: row => [`physical ${row.physical} taken for group ${row.group}`],
  mesh: row => [`mesh ${row.mesh} began`],
  pages: () => [],
};
const GONE = {
  group: row => [`span ${row.span} of group ${row.group} freed`],
  page: row => [`page ${row.page} unmapped`],
  object: row => [`object ${row.object} freed`],
  physical: row => [`physical ${row.physical} ${row.released ? `is no longer of group ${row.group}` : 'released'}`],
  mesh: row => [`mesh ${row.mesh} ended`],
};
const CHANGED = {
  group: row => fieldChanges(row, `span ${row.span}: `, ['group', 'class']),
  page: row => [...remapping(row), ...writability(row)],
  object: row => fieldChanges(row, `object ${row.object}: `, ['span', 'slot', 'length']),
  physical: row => row.released ? [`physical ${row.physical} released`] : NEW.physical(row),
  mesh: row => [`mesh ${row.mesh} ${row.cancelled && !row.was.cancelled ? 'cancelled' : progressOf(row)}`],
  pages: row => fieldChanges(row, 'pages ', ['mapped', 'taken', 'saved']),
};
const SENTENCES = { new: NEW, gone: GONE, changed: CHANGED };

const fieldChanges = (row, start, names) => names.filter(name => row[name] !== row.was[name])
  .map(name => `${start}${name} ${row.was[name]} -> ${row[name]}`);

const remapping = row => row.at === row.was.at ? [] : [`page ${row.page}: physical ${row.was.at} -> ${row.at}`];

const writability = row => row['read-only'] === row.was['read-only'] ? []
  : [`page ${row.page} is ${row['read-only'] ? 'read-only' : 'writable'}`];

function progressOf(mesh) {
  if (!mesh.cancelled) return `made ${counted(mesh.steps, 'step')}`;
  return `made ${mesh.unprotected} of ${counted(mesh.protected, 'page')} writable again`;
}

const counted = (count, word) => `${count} ${word}${count === 1 ? '' : 's'}`;

function add(parent, tag, name, text = '') {
  const element = document.createElement(tag);
  element.className = name;
  element.textContent = text;
  parent.append(element);
  return element;
}

// Shows an element as a row's drawing. Parts of a drawing other than the first don't count as the row.
function mark(element, row, isFirst = true) {
  element.classList.add(row.state);
  element.title = row.text;
  row.element = element;
  if (isFirst && row.state !== 'gone') element.dataset.row = row.text;
  return element;
}

function listed(rows, keyOfRow) {
  const lists = new Map();
  for (const row of rows) {
    const key = keyOfRow(row);
    if (!lists.has(key)) lists.set(key, []);
    lists.get(key).push(row);
  }
  return lists;
}

const isTaken = home => !home.released && home.state !== 'gone';

// The rows by their kinds, and the span of each page. `places` will have the elements of the pages.
function heapOf(rows) {
  const kind = name => rows.filter(row => row.kind === name);
  const members = kind('group').sort((a, b) => a.group - b.group);
  const firsts = members.map(member => member.span).sort((a, b) => a - b);
  const pages = kind('page');
  for (const page of pages) page.span = firsts.findLast(first => first <= page.page);
  return {
    members,
    memberAt: new Map(members.map(member => [member.span, member])),
    pages: listed(pages, page => page.span),
    objects: listed(kind('object'), object => object.span),
    homes: kind('physical').sort((a, b) => a.physical - b.physical || isTaken(a) - isTaken(b)),
    mapped: listed(pages.filter(page => page.state !== 'gone'), page => page.at),
    places: new Map(),
  };
}

function drawHeap(heap) {
  for (const id of ['virtual', 'physical', 'arrows']) part(id).replaceChildren();
  setPageWidth();
  drawMembers(heap);
  drawHomes(heap);
  drawArrows(heap);
}

// As many spans side by side as have room for their labels, and pages as wide as fits. Small slots need wide pages.
function setPageWidth() {
  room = part('virtual').clientWidth + SPAN_GAP;
  const gaps = PAGE_GAP * (largest.pages - 1) + SPAN_GAP;
  const fitting = Math.floor(room / (largest.pages * LABEL_WIDTH + gaps));
  const columns = Math.max(1, Math.min(fitting, largest.spans));
  const width = Math.floor((room / columns - gaps) / largest.pages);
  pageWidth = largest.slot < 128 ? width : Math.min(width, 400);
  part('heap').style.setProperty('--page', `${pageWidth}px`);
  part('physical').style.gap = `14px ${largest.pages > 1 ? PAGE_GAP : SPAN_GAP}px`;
}

// The width of a group's members side by side, as many as fit.
function groupWidth(members, heap) {
  const pages = heap.pages.get(members[0].span)?.length ?? 1;
  const span = pages * (pageWidth + PAGE_GAP) - PAGE_GAP + SPAN_GAP;
  const fitting = Math.floor(room / span);
  return span * Math.max(1, Math.min(fitting, members.length)) - SPAN_GAP;
}

const colourOf = group => `var(--k${group % 8})`;

function drawMembers(heap) {
  for (const [number, members] of listed(heap.members, member => member.group)) {
    const group = add(part('virtual'), 'div', 'group');
    group.style.setProperty('--group', colourOf(number));
    group.style.width = `${groupWidth(members, heap)}px`;
    const head = add(group, 'div', 'head');
    add(head, 'b', '', `group ${number}`);
    add(head, 'span', '', `class ${members[0].class}`);
    const box = add(group, 'div', 'members');
    for (const member of members) drawMember(box, member, heap);
  }
}

function drawMember(box, member, heap) {
  const element = mark(add(box, 'div', 'member'), member);
  add(element, 'div', '', `span ${member.span}${member.state === 'gone' ? ' freed' : ''}`);
  const pages = add(element, 'div', 'pages');
  for (const page of heap.pages.get(member.span) ?? []) drawPage(pages, page, heap);
}

function drawPage(parent, page, heap) {
  const element = mark(add(parent, 'div', 'page'), page);
  const bytes = addBytes(element, page, heap);
  bytes.classList.toggle('read-only', Boolean(page['read-only']));
  const small = drawObjects(bytes, page, heap, true);
  addCaption(element, [`page ${page.page}`, `\\u2192 physical ${page.at}`], page['read-only'] && 'read-only', small);
  heap.places.set(page.key, element);
}

function drawHomes(heap) {
  for (const home of heap.homes) {
    const element = mark(add(part('physical'), 'div', 'page'), home);
    const pages = isTaken(home) ? heap.mapped.get(home.physical) ?? [] : [];
    const bytes = addBytes(element, pages[0], heap);
    const small = pages.flatMap(page => drawObjects(bytes, page, heap, false));
    addCaption(element, [`physical ${home.physical}`, `group ${home.group}`], !isTaken(home) && 'released', small);
    heap.places.set(`physical ${home.physical}`, element);
  }
}

function addCaption(element, words, state, small) {
  const caption = add(element, 'div', 'caption');
  for (const word of words) add(caption, 'span', '', word);
  if (state) add(caption, 'b', '', state);
  if (small.length > 0) add(caption, 'div', '', `${small.length > 1 ? 'objects' : 'object'} ${small.join(', ')}`);
}

// The first byte of a page in its span.
const startOf = page => (page.page - page.span) * PAGE_BYTES;
const percent = bytes => `${bytes / PAGE_BYTES * 100}%`;
const pixels = bytes => bytes / PAGE_BYTES * pageWidth;

// The box of a page's bytes, with a line at the beginning of each slot unless slots are too narrow.
function addBytes(element, page, heap) {
  const bytes = add(element, 'div', 'bytes');
  const slot = page ? heap.memberAt.get(page.span).class : 0;
  bytes.classList.toggle('slots', pixels(slot) >= 6);
  bytes.style.setProperty('--slot', percent(slot));
  bytes.style.setProperty('--start', percent(page ? -(startOf(page) % slot) : 0));
  return bytes;
}

// Draws what a page has of its span's objects. Returns the serials of those that begin there and have no label.
function drawObjects(bytes, page, heap, isVirtual) {
  const slot = heap.memberAt.get(page.span).class;
  const objects = heap.objects.get(page.span) ?? [];
  const small = [];
  for (const object of objects.filter(object => isVirtual || object.state !== 'gone')) {
    const start = object.slot * slot - startOf(page);
    addBar(bytes, object, 'rest', start + object.length, start + slot);
    const bar = addBar(bytes, object, 'object', start, start + object.length);
    if (bar && isVirtual) mark(bar, object, start >= 0);
    if (bar?.textContent === '' && start >= 0 && object.state !== 'gone') small.push(object.object);
  }
  return small;
}

// Draws the part of an object or of its slot that is in a page, from one byte of the page to another.
function addBar(bytes, object, name, from, to) {
  const [first, behind] = [Math.max(from, 0), Math.min(to, PAGE_BYTES)];
  if (first >= behind || (name === 'rest' && object.state === 'gone')) return null;
  const bar = add(bytes, 'div', `bar ${name}`);
  [bar.style.backgroundColor, bar.style.color] = OBJECT_COLOURS[object.object % OBJECT_COLOURS.length];
  bar.dataset.object = object.object;
  bar.style.left = percent(first);
  bar.style.width = percent(behind - first);
  const label = `${object.object}${object.state === 'gone' ? ' freed' : ''}`;
  if (name === 'object' && pixels(behind - first) >= label.length * 9 + 4) bar.textContent = label;
  return bar;
}

// All boxes are measured before the first arrow is added, because each arrow makes the browser lay out the page again.
function drawArrows(heap) {
  const boxes = new Map([...heap.places].map(([key, element]) => [key, boxIn(element)]));
  const pages = [...heap.mapped.values()].flat();
  part('arrows').classList.toggle('many', pages.length > 40);
  for (const page of pages) {
    const isMoved = page.was && page.was.at !== page.at;
    if (isMoved) addArrow(heap, boxes, page, page.was.at, 'was');
    const name = isMoved || page.state === 'new' ? 'moved' : '';
    addArrow(heap, boxes, page, page.at, `${name} ${page['read-only'] ? 'read-only' : ''}`);
  }
}

function addArrow(heap, boxes, page, physical, name) {
  const [from, to] = [boxes.get(page.key), boxes.get(`physical ${physical}`)];
  const [x, y, left, top] = [from.middle, from.bottom, to.middle, to.top - 2];
  const bend = Math.max(20, (top - y) / 2);
  const arrow = part('arrows').appendChild(document.createElementNS(SVG, 'path'));
  arrow.setAttribute('d', `M${x} ${y}C${x} ${y + bend} ${left} ${top - bend} ${left} ${top}m-4 -7l4 7l4 -7`);
  arrow.setAttribute('class', name);
  arrow.style.setProperty('--group', colourOf(heap.memberAt.get(page.span).group));
}

function boxIn(element) {
  const [outer, box] = [part('arrows'), element].map(one => one.getBoundingClientRect());
  return { middle: box.left + box.width / 2 - outer.left, top: box.top - outer.top, bottom: box.bottom - outer.top };
}

function tellLine(frame) {
  part('number').textContent = frame.number;
  part('words').textContent = frame.words;
  part('answer').textContent = frame.answer;
  part('text').textContent = [frame.line, ...frame.rows.map(row => `  ${row}`)].join('\\n');
}

function tellPlace(frame) {
  part('place').textContent = `${current + 1} of ${frames.length}`;
  part('slider').value = current + 1;
  part('slider').setAttribute('aria-valuetext', `frame ${current + 1} of ${frames.length}, line ${frame.number}`);
  part('previous').setAttribute('aria-disabled', current === 0);
  part('next').setAttribute('aria-disabled', current === frames.length - 1);
  clearTimeout(hashTimer);
  hashTimer = setTimeout(() => history.replaceState(null, '', `#${frame.number}`), 100);
}

function tellChanges(rows) {
  const sorted = Object.keys(CHANGED).flatMap(kind => rows.filter(row => row.kind === kind && row.state !== 'same'));
  part('changes').replaceChildren();
  for (const row of sorted) for (const sentence of SENTENCES[row.state][row.kind](row)) addChange(row, sentence);
  if (sorted.length > 0) return;
  add(part('changes'), 'li', '', current === 0 ? 'this is the first frame' : 'nothing changed');
}

// Adds a sentence that leads to the row's drawing, which may be far below in a large heap.
function addChange(row, sentence) {
  const button = add(add(part('changes'), 'li', ''), 'button', '', sentence);
  button.addEventListener('click', () => row.element?.scrollIntoView({ block: 'center' }));
}

function tellMeshes(rows) {
  part('meshes').replaceChildren();
  for (const row of rows.filter(row => row.kind === 'mesh' && row.state !== 'gone')) {
    const words = row.cancelled ? `cancelled, ${progressOf(row)}` : progressOf(row);
    mark(add(part('meshes'), 'li', '', `mesh ${row.mesh}, class ${row.class}: ${words}`), row);
  }
  const counts = rows.find(row => row.kind === 'pages');
  part('counts').replaceChildren();
  const words = `${counts.mapped} mapped, ${counts.taken} taken, ${counts.saved} saved`;
  mark(add(part('counts'), 'span', '', `pages: ${words}`), counts);
}

function show(index) {
  current = Math.max(0, Math.min(index, frames.length - 1));
  const rows = rowsAt(current);
  tellLine(frames[current]);
  tellPlace(frames[current]);
  tellChanges(rows);
  tellMeshes(rows);
  drawHeap(heapOf(rows));
}

const showHash = hash => show(frames.findIndex(frame => `#${frame.number}` === hash));

const KEYS = {
  ArrowLeft: () => current - 1, ArrowRight: () => current + 1, Home: () => 0, End: () => frames.length - 1,
};

function onKey(event) {
  if (!(event.key in KEYS) || event.altKey || event.ctrlKey || event.metaKey) return;
  event.preventDefault();
  show(KEYS[event.key]());
}

function start() {
  part('slider').max = frames.length;
  part('slider').addEventListener('input', () => show(part('slider').valueAsNumber - 1));
  part('previous').addEventListener('click', () => show(current - 1));
  part('next').addEventListener('click', () => show(current + 1));
  addEventListener('keydown', onKey);
  addEventListener('hashchange', event => showHash(new URL(event.newURL).hash));
  addEventListener('resize', () => show(current));
  showHash(location.hash);
}

const frames = framesOf(part('frames').textContent);
const largest = largestOf(frames);
let current = 0;
let room = 0;
let pageWidth = 0;
let hashTimer = 0;

if (frames.length > 0) start();
</script>
</body>
</html>
";
