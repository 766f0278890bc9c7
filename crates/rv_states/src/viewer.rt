//! The text of the page's viewer, in two parts. viewer/embed makes this file out of the files beside it.

/// The viewer up to the place for the lines of a run.
pub(crate) const BEFORE: &[u8] = br#"<!DOCTYPE html>
<html lang="en">
<head>
<meta charset="utf-8">
<meta http-equiv="Content-Security-Policy" content="default-src 'none'; script-src 'sha256-zEqppLiY2e3BBIm+oWhLnaJao4ZVzDpyfsVWDqqqtXo='; style-src 'sha256-ktK5HCYH1BzdCxeiBhA5X0g8EDwFf4jccRx1zldW1mw='; img-src data:; frame-src 'self' file:; base-uri 'none'; form-action 'none'">
<meta name="viewport" content="width=device-width, initial-scale=1">
<title>rv_sim: a run, cycle by cycle</title>
<style>
/* Sizes are in rem, which follows the window, so that the page fills a lecture's screen. Each mark differs in form or lightness too. */
:root {
  color-scheme: light dark;
  --ground: #fff; --panel: #fff; --text: #111; --quiet: #555; --edge: #bbb; --rim: #858585; --free: #6e6e6e; --title: #eef1f5; --accent: #0b57d0; --mark: #fff1b8; --fault: #a00;
  --f: #e3eefc; --d: #b5d3f5; --i: #7fb2ea; --e: #fbe3a3; --b: #f0a848; --c: #1f7a3d; --t: #8c1616; --x: #6f6f6f; --w: #f1f1f1; --r: #9a5d00; --on: #000;
}
@media screen and (prefers-color-scheme: dark) {
  :root {
    --ground: #16181c; --panel: #1b1e23; --text: #e4e4e4; --quiet: #a8a8a8; --edge: #484c54; --rim: #868b95; --free: #8e939c; --title: #272b32; --accent: #8ab4f8; --mark: #463a0a; --fault: #ff8080;
    --w: #2c3038; --r: #f0a848;
  }
  .w { color: #bbb; }
}
* { box-sizing: border-box; margin: 0; }
html { font-size: calc(var(--size, 1) * clamp(9px, min(0.84vw, 1.5vh), 24px)); }
html.framed { font-size: calc(var(--size, 1) * clamp(8px, min(1.55vw, 1.5vh), 24px)); }
@media screen and (max-width: 60rem) { html:not(.framed) { font-size: calc(var(--size, 1) * 11px); } }
[hidden] { display: none !important; }
body { font: 1rem/1.25rem "DejaVu Sans Mono", Menlo, Consolas, monospace; background: var(--ground); color: var(--text); height: 100vh; display: flex; flex-direction: column; padding: 0.4rem; gap: 0.4rem; }
h1, h2 { font: inherit; font-weight: bold; }
header { display: grid; grid-template-columns: auto 1fr; column-gap: 1rem; flex: none; }
header p { grid-column: 1 / 3; }
#happened, #following { height: 2.5rem; overflow: auto; scrollbar-width: thin; }
#following { color: var(--accent); }
#tools { display: flex; flex-wrap: wrap; align-items: center; gap: 0.3rem 0.5rem; }
#slider { flex: 1 1 10rem; min-width: 6rem; }
button, input, select { font: inherit; color: inherit; background: var(--title); border: 1px solid var(--rim); border-radius: 0.25rem; padding: 0 0.4rem; }
input[type=number] { width: 6.5rem; }
:focus-visible { outline: 2px solid var(--accent); outline-offset: -1px; }
main { flex: 1 1 auto; min-height: 0; display: flex; gap: 0.4rem; }
#left { flex: 23 1 0; } #middle { flex: 43 1 0; } #right { flex: 31 1 0; } #last { flex: 27 1 0; }
.framed main { flex-wrap: wrap; }
.framed #middle { flex: 1 1 100%; height: 66%; } .framed #right, .framed #last, .framed #left { flex: 1 1 40%; height: 32%; }
.column { display: flex; flex-direction: column; gap: 0.4rem; min-width: 0; min-height: 0; }
.panel { border: 1px solid var(--edge); border-radius: 0.3rem; background: var(--panel); display: grid; grid-template: auto minmax(0, 1fr) / auto 1fr; min-height: 0; min-width: 0; overflow: hidden; flex: 0 1 auto; }
.panel.grows { flex: 1 1 0; min-height: 6rem; }
.panel.drawing { min-height: 16rem; }
.panel.tall { flex: 3 1 0; }
.drawing:has(~ .tall:not([hidden])) { min-height: 12rem; }
[data-panel="textbook"] td, [data-panel="textbook"] th { font-size: 0.85rem; height: 1.05rem; line-height: 1.05rem; }
.framed #tools label:has(#address), .framed #tools label:has(#what), .framed [data-step=previous], .framed [data-step=next] { display: none; }
.panel h2 { background: var(--title); padding: 0 0.4rem; white-space: nowrap; }
h2[data-phase]::after { content: attr(data-phase); margin-left: 0.4rem; padding: 0 0.25rem; border-radius: 0.5rem; background: var(--edge); color: var(--text); font-size: 0.75rem; font-weight: normal; }
.note { background: var(--title); color: var(--quiet); padding: 0 0.4rem; text-align: right; white-space: nowrap; overflow: hidden; text-overflow: ellipsis; font-size: 0.9rem; }
#stations-note, #fetch-note, #predictor-note { font-size: 0.8rem; }
#machine { color: var(--quiet); font-size: 0.85rem; line-height: 1.1rem; max-height: 2.2rem; overflow: auto; scrollbar-width: thin; }
#switches, #keys { grid-column: 1 / 3; }
#switches { display: flex; flex-wrap: wrap; gap: 0 1rem; }
#stop, #quiz, #beside { background: var(--mark); font-size: 1.4rem; line-height: 1.8rem; padding: 0 0.4rem; }
.unseen th { height: 0; line-height: 0; font-size: 0; padding: 0; }
[data-panel="registers"], [data-panel="units"], [data-panel="bus"] { flex: none; }
#stations, #fetch, [data-panel="fetch"] thead, #asked, #tables, #stores { font-size: 0.85rem; } #stations td { height: 1.1rem; line-height: 1.1rem; } [data-panel="accesses"] table { font-size: 0.76rem; } [data-panel="accesses"] td, [data-panel="accesses"] th { padding: 0 0.12rem; } [data-panel="accesses"] tr > :first-child { padding-left: 0.3rem; }
.missed, .differs { color: var(--fault); font-weight: bold; }
.differs { outline: 2px dashed var(--fault); outline-offset: -2px; }
tr.differs { color: inherit; font-weight: normal; outline-width: 1px; outline-offset: -1px; }
.scroll, .list, #picture { grid-column: 1 / 3; overflow: auto; min-height: 0; scrollbar-width: thin; position: relative; contain: layout paint style; }
table { border-collapse: collapse; width: 100%; table-layout: auto; }
th, td { padding: 0 0.25rem; white-space: nowrap; text-align: left; font-weight: normal; height: 1.25rem; overflow: hidden; }
th { color: var(--quiet); }
/* One for all heads of a table: each that keeps its place by itself costs a key some time. */
thead { position: sticky; top: 0; z-index: 1; }
thead th { background: var(--panel); }
td.wide { width: 99%; max-width: 0; text-overflow: ellipsis; }
/* What comes after an address that leaves no room for it takes its line; the address is out of sight below. */
.placed { display: flex; flex-wrap: wrap-reverse; align-content: flex-end; column-gap: 0.5rem; height: 1.25rem; overflow: hidden; }
.placed > .pc { flex: none; width: 8ch; } .placed > .text { flex: none; max-width: 100%; overflow: hidden; text-overflow: ellipsis; }
#rob td:nth-child(2), #fetch td:first-child, #stores td:first-child { min-width: 2.8rem; }
#rob td:nth-child(n + 5):nth-child(-n + 7) { min-width: 2.4rem; }
#rob td:nth-child(8) { min-width: 8.6rem; max-width: 12.6rem; text-overflow: ellipsis; }
#rob th { min-width: 3.1rem; }
.free { color: var(--free); }
.tag { border: 0; background: none; padding: 0; color: var(--accent); cursor: pointer; border-radius: 0; }
.list > div { position: relative; min-width: 100%; }
.list .row { position: absolute; left: 0; right: 0; height: 1.25rem; white-space: pre; overflow: hidden; display: flex; gap: 0.4rem; padding: 0 0.25rem; }
.list .text { white-space: nowrap; overflow: hidden; text-overflow: ellipsis; }
#memory .row { gap: 0; justify-content: space-between; font-size: 0.9rem; }
#source .row { font-size: 0.88rem; gap: 0.3rem; }
.list .line { width: 2.2rem; text-align: right; color: var(--quiet); flex: none; }
.list .pc, .list .mark { color: var(--quiet); flex: none; }
.list .placed { flex: 1 1 0; min-width: 0; column-gap: 0.3rem; } .list .placed > .pc { width: auto; }
.list .placed > .placed { flex: none; max-width: 100%; }
.stops .mark { color: var(--fault); font-weight: bold; }
.list .tags { flex: none; min-width: 1.9rem; display: flex; gap: 0.1rem; }
.flying { background: var(--title); font-weight: bold; }
/* (WebKit takes the line and its style apart alone) */
.stale { text-decoration-line: underline; text-decoration-style: dotted; }
.changed { background: var(--mark); font-weight: bold; }
.touched { outline: 2px solid var(--accent); outline-offset: -2px; font-weight: bold; }
.dirty { font-style: italic; }
.fault { color: var(--fault); font-weight: bold; }
.waits { font-style: italic; }
.followed { background: var(--mark); box-shadow: inset 0.2rem 0 var(--accent); }
.producing { outline: 1px dashed var(--accent); outline-offset: -1px; }
.consuming { outline: 1px dotted var(--accent); outline-offset: -1px; }
.tag.followed { box-shadow: none; font-weight: bold; text-decoration: underline; }
.tag.producing, .tag.consuming { outline: none; text-decoration-line: underline; text-decoration-style: dashed; }
.tag.consuming { text-decoration-style: dotted; }
#letters { position: absolute; visibility: hidden; }
#picture-space { position: relative; min-width: 100%; min-height: 100%; }
#picture-heads { position: sticky; top: 0; height: 1.25rem; background: var(--panel); z-index: 3; }
.head { position: absolute; top: 0; color: var(--quiet); cursor: pointer; font-size: 0.85rem; }
.now { background: var(--accent); color: var(--panel); z-index: 1; padding: 0 0.2rem; }
.interrupt { color: var(--fault); font-weight: bold; }
.now.interrupt { color: var(--panel); }
.corner { position: sticky; left: 0; width: 19rem; background: var(--panel); color: var(--quiet); z-index: 1; padding-left: 0.25rem; }
#picture .row { position: absolute; left: 0; right: 0; height: 1.25rem; cursor: pointer; display: flex; }
#picture .row.followed, #picture .row.producing, #picture .row.consuming { background: none; box-shadow: none; outline: none; }
/* One for all labels, as for heads. */
#picture-labels { position: sticky; left: 0; width: 18.8rem; height: 0; z-index: 2; }
.label { position: absolute; left: 0; width: 100%; height: 1.25rem; overflow: hidden; text-overflow: ellipsis; white-space: nowrap; background: var(--panel); padding-left: 0.25rem; cursor: pointer; }
.label.followed { background: var(--mark); }
.label.gone { color: var(--quiet); font-style: italic; }
.label.trap { color: var(--fault); }
#picture .cell { flex: none; width: 1.05rem; height: 1.25rem; text-align: center; border: 1px solid var(--panel); line-height: 1.15rem; }
#picture-arrows { position: absolute; top: 0; left: 0; z-index: 1; pointer-events: none; }
#picture-arrows svg { display: block; }
.arrow { fill: none; stroke: var(--fault); stroke-width: 0.15; }
/* The critical path: rings around its events, lines between them, and above them the cause of each cycle. Each sort has a letter besides. */
.sort-refill { --sort: #c0392b; } .sort-front { --sort: #3b6fb5; } .sort-room { --sort: #9b59b6; } .sort-operand { --sort: #0c7c8c; }
.sort-unit { --sort: #9c6633; } .sort-execution { --sort: #96640f; } .sort-load { --sort: #d81b60; } .sort-port { --sort: #6b7700; }
.sort-bus { --sort: #c94700; } .sort-commit { --sort: #2e7d32; } .sort-interrupt { --sort: #6b7280; } .sort-rest { --sort: #6b7280; }
.badge { display: inline-block; width: 1.05rem; text-align: center; background: var(--sort); color: #fff; font-weight: bold; }
.bar[class*="sort-"] { background: var(--sort); }
#picture .cell.on-path, #legend .on-path { outline: 2px solid var(--text); font-weight: bold; }
#legend .on-path { outline-offset: -1px; }
.cause { position: absolute; top: 1.25rem; height: 1.25rem; border: 1px solid var(--panel); line-height: 1.1rem; cursor: pointer; }
.with-path #picture-heads { height: 2.5rem; }
#picture-path { position: absolute; top: 0; left: 0; z-index: 1; pointer-events: none; }
#picture-path svg { position: absolute; display: block; }
.step { fill: none; stroke: var(--sort); stroke-width: 0.24; stroke-linejoin: round; stroke-linecap: round; }
#causes, [data-panel="path"] thead { font-size: 0.85rem; } #waits, [data-panel="waits"] thead { font-size: 0.78rem; }
[data-panel="waits"], [data-panel="path"] { flex: none; }
.drawing:has(~ [data-panel="waits"]:not([hidden])) { min-height: 20rem; }
#waits .cell { width: 1.4rem; } #waits .badge, #causes .badge { line-height: 1rem; }
tr.on-path { background: var(--title); }
#path-words { padding: 0 0.4rem; } #path-words:empty { display: none; }
#picture-cursor { position: absolute; top: 0; bottom: 0; width: 1.05rem; border: solid var(--accent); border-width: 0 2px; z-index: 1; pointer-events: none; }
.cell { text-align: center; }
.f { background: var(--f); color: var(--on); } .d { background: var(--d); color: var(--on); } .i { background: var(--i); color: var(--on); } .e { background: var(--e); color: var(--on); }
.b { background: var(--b); color: var(--on); } .c { background: var(--c); color: #fff; } .t { background: var(--t); color: #fff; } .x { background: var(--x); color: #fff; }
.w { background: var(--w); } .r { color: var(--r); box-shadow: inset 0 0 0 1px var(--r); }
.panel.counting { min-height: 13.2rem; grid-template-rows: auto auto auto minmax(0, 1fr); }
#counted, #stack, #legend { grid-column: 1 / 3; padding: 0 0.4rem; white-space: nowrap; overflow: hidden; }
#counted { display: flex; flex-wrap: wrap; gap: 0 0.5rem; font-size: 0.95rem; }
#stack { display: flex; height: 1.4rem; }
.panel.drawing { grid-template-rows: auto auto minmax(0, 1fr); }
#legend { display: flex; flex-wrap: wrap; gap: 0 0.8rem; font-size: 0.9rem; color: var(--quiet); }
#legend b { display: inline-block; width: 1.05rem; text-align: center; font-weight: normal; line-height: 1.1rem; }
.part { overflow: hidden; text-align: center; border: 1px solid var(--panel); height: 1.3rem; }
.bar { display: block; height: 0.8rem; min-width: 1px; }
.busy { background: #1f7a3d; color: #fff; } .fetch { background: #e3eefc; color: #000; } .serial { background: #8c1616; color: #fff; }
.rob { background: #7fb2ea; color: #000; } .station { background: #fbe3a3; color: #000; } .store { background: #f0a848; color: #000; }
.six { max-height: 6.4rem; } .ten { max-height: 10.2rem; } [data-panel="fetch"] .ten, [data-panel="stores"] .ten { max-height: 11.4rem; } .fourteen { max-height: 15.2rem; } .eighteen { max-height: 21.4rem; }
/* In a narrow window the columns stand below each other, first that of the pipeline, and a list is no higher than what it holds. */
@media screen and (max-width: 60rem) {
  html:not(.framed) body { height: auto; } html:not(.framed) main { display: grid; grid-template-columns: minmax(0, 1fr); gap: 0; } html:not(.framed) .column { margin-bottom: 0.4rem; }
  html:not(.framed) #middle { order: -1; }
  html:not(.framed) .panel.grows { height: 24rem; flex: none; } html:not(.framed) .panel:is([data-panel="source"], [data-panel="memory"]) { height: auto; max-height: 24rem; }
}
/* Two runs side by side. */
body.pair > header, body.pair > main { display: none; }
#pair { display: flex; flex-direction: column; height: 100%; gap: 0.4rem; }
#pair p { display: flex; gap: 1rem; align-items: center; }
#pair label:first-child { flex: 1; display: flex; gap: 0.4rem; } #pair-slider { flex: 1; }
#sides { flex: 1; display: flex; gap: 0.4rem; min-height: 0; }
#sides iframe { flex: 1 1 0; width: 0; border: 1px solid var(--edge); }
@page { size: A4 landscape; margin: 8mm; }
/* On paper nothing is scrolled: the picture is moved to where it was, and its labels with it, and so are the lists. */
@media print {
  html { font-size: 10.5px; }
  body { width: 1262px; height: 850px; }
  #tools, #keys, #switches, #quiz, #beside { display: none; }
  * { print-color-adjust: exact; -webkit-print-color-adjust: exact; }
  #picture { overflow: clip; }
  #picture-space { top: calc(-1rem * var(--down)); left: calc(-1rem * var(--along)); }
  #picture-heads { position: absolute; width: 100%; top: calc(1rem * var(--down)); }
  .corner, #picture-labels { position: absolute; left: calc(1rem * var(--along)); }
  .corner + .corner, .with-path .corner ~ .corner { top: 1.25rem; }
  #picture-labels { top: 1.25rem; } .with-path #picture-labels { top: 2.5rem; }
  .list { overflow: clip; } .list > div { top: calc(-1rem * var(--down)); }
}
</style>
</head>
<body>
<noscript>This page needs JavaScript.</noscript>
<header>
<h1>rv_sim</h1>
<div role="toolbar" aria-label="Cursor" id="tools">
<button type="button" data-step="first" title="first (Home)" aria-label="first cycle">|&lt;</button>
<button type="button" data-step="back" title="a cycle back (left arrow)" aria-label="a cycle back">&lt;</button>
<button type="button" data-step="on" title="a cycle on (right arrow)" aria-label="a cycle on">&gt;</button>
<button type="button" data-step="last" title="last (End)" aria-label="last cycle">&gt;|</button>
<button type="button" id="play" aria-pressed="false" title="play and pause (space); + and - change the speed">play</button>
<input type="range" id="slider" aria-label="cycle" step="1">
<label>cycle <input type="number" id="cycle" title="type a cycle (g)"></label> <span id="range"></span>
<label>next <select id="what" title="what to jump to">
<option value="retirement">retirement</option><option value="wrong">wrong prediction</option><option value="trap">trap</option><option value="interrupt">interrupt</option>
<option value="stall">stall, any</option><option value="fetch">stall fetch</option><option value="serial">stall serial</option><option value="rob">stall rob</option><option value="station">stall station</option><option value="store">stall store</option>
<option value="access">cache access</option><option value="miss">cache miss</option><option value="register">register written</option><option value="stored">address stored</option><option value="breakpoint">breakpoint</option>
</select></label>
<button type="button" data-step="previous" title="the one before (N)" aria-label="jump back">&lt;&lt;</button>
<button type="button" data-step="next" title="the next one (n)" aria-label="jump on">&gt;&gt;</button>
<label>go to <input type="text" id="address" size="8" title="an address, hexadecimal: the next cycle that fetches it, and its place in source and memory; a register: the next cycle that writes it (d)"></label>
<label title="a"><input type="checkbox" id="abi"> ABI</label>
<label title="leave out of the picture what was squashed, and words after the program's end (h)"><input type="checkbox" id="hide"> hide squashed</label>
<label title="Tomasulo's tables as in the textbook (o)"><input type="checkbox" id="textbook"> tables</label>
<label title="mark the events that waited for one another, back from the last step of the page, and the cause of each cycle (l)"><input type="checkbox" id="path"> critical path</label>
<button type="button" id="panels" aria-expanded="false" aria-controls="switches" title="which panels are shown (p)">panels</button>
<button type="button" id="help" aria-expanded="false" aria-controls="keys" title="keys (?)" aria-label="keys">?</button>
</div>
<p id="machine" tabindex="0" role="region" aria-label="machine"></p>
<div id="switches" role="group" aria-label="Panels" hidden></div>
<p id="keys" hidden>Arrow left and right: a cycle back and on. Page up and down: ten. Home, End: first and last. Space: play; + and -: its speed.
r, w, t, i, s: the next retirement, wrong prediction, trap, interrupt, stall; c, m: the next access and miss of the cache; x: the next write of the
register that was typed or of the followed one's; y: the next store, to the address that was typed; with shift the one before. n and N: what the list says.
j, k: follow the next instruction, the one before; Escape: follow none. b: a breakpoint there; B: to its next retirement. g: type a cycle. d: type an address or
a register. a: ABI names. h: hide what was squashed. o: tables as in the textbook. l: the critical path in the
picture; e: to the event that the one here waited for last; E: back. p: panels. ] and [: size of type; 0: as at first. v, V: save the
panel with the focus, else the page, as SVG, PNG. . and , : the next stop of the lecture, the one before. q: quiz. 2: another run beside this one, then: by cycle or by
retired instructions; 3: to the other one; 1: this one alone. A click on an instruction follows it: blue and double are its places, dashed its producers, dotted its consumers.</p>
<p id="stop" role="status" aria-live="polite" hidden></p>
<p id="quiz" hidden><span id="question" role="status" aria-live="polite"></span> <input type="text" id="answer" aria-labelledby="question" size="16"> <span id="verdict" role="status" aria-live="polite"></span></p>
<p id="beside" hidden><label>The page of the other run: <input type="text" id="other" size="40"></label></p>
<p id="happened" role="status" aria-live="polite" aria-label="what happened" tabindex="0"></p>
<p id="following" role="status" aria-live="polite" aria-label="the followed instruction" tabindex="0"></p>
</header>
<main>
<div class="column" id="left">
<section class="panel grows" data-panel="source" aria-labelledby="h-source"><h2 id="h-source">Source</h2><span class="note" id="source-note"></span><div class="list" id="source" tabindex="0" role="region" aria-labelledby="h-source"><div></div></div></section>
<section class="panel" data-panel="fetch" aria-labelledby="h-fetch"><h2 id="h-fetch" data-phase="7" title="phase 7 of 7 of a cycle: fetch">Fetch buffer</h2><span class="note" id="fetch-note"></span><div class="scroll ten" tabindex="0" role="region" aria-labelledby="h-fetch"><table aria-labelledby="h-fetch">
<thead><tr><th scope="col">no.</th><th scope="col"><div class="placed"><span class="pc">pc</span><span>statement</span></div></th><th scope="col" title="the pc that was fetched next, where it is not the next word">then</th></tr></thead><tbody id="fetch"></tbody></table></div></section>
<section class="panel" data-panel="predictor" aria-labelledby="h-predictor"><h2 id="h-predictor" data-phase="7" title="phase 7 of 7 of a cycle: fetch">Predictor</h2><span class="note" id="predictor-note"></span><div class="scroll ten" tabindex="0" role="region" aria-labelledby="h-predictor">
<table aria-label="Words that the predictor was asked of"><thead><tr><th scope="col">no.</th><th scope="col">pc</th><th scope="col" title="the place in the predictor's tables">place</th><th scope="col" title="where the predictor says that the program goes on">answer</th></tr></thead><tbody id="asked"></tbody></table>
<table aria-label="The predictor's tables"><thead><tr><th scope="col">place</th><th scope="col" colspan="2" title="2 or 3: a branch is predicted taken">counter</th><th scope="col" title="the last target that a JALR had">target</th><th scope="col" title="the branches and JALR of the program that have the place">of</th></tr></thead><tbody id="tables"></tbody></table></div></section>
<section class="panel" data-panel="stores" aria-labelledby="h-stores"><h2 id="h-stores" data-phase="3" title="phase 3 of 7 of a cycle: drain">Store queue</h2><span class="note" id="stores-note"></span><div class="scroll ten" tabindex="0" role="region" aria-labelledby="h-stores"><table aria-labelledby="h-stores">
<thead><tr><th scope="col">no.</th><th scope="col">state</th><th scope="col">address</th><th scope="col">bytes</th></tr></thead><tbody id="stores"></tbody></table></div></section>
</div>
<div class="column" id="middle">
<section class="panel grows drawing" data-panel="pipeline" aria-labelledby="h-picture"><h2 id="h-picture">Pipeline</h2><span class="note" id="picture-note"></span><p id="legend"></p>
<div id="picture" tabindex="0" role="region" aria-labelledby="h-picture"><span id="letters" aria-hidden="true">0000000000</span><div id="picture-space"><div id="picture-heads"></div><div id="picture-cursor"></div><div id="picture-labels"></div><div id="picture-rows" role="table" aria-labelledby="h-picture"></div><div id="picture-path" aria-hidden="true"></div><div id="picture-arrows" aria-hidden="true"></div></div></div></section>
<section class="panel" data-panel="rob" aria-labelledby="h-rob"><h2 id="h-rob" data-phase="2" title="phase 2 of 7 of a cycle: commit">Reorder buffer</h2><span class="note" id="rob-note"></span><div class="scroll eighteen" tabindex="0" role="region" aria-labelledby="h-rob"><table aria-labelledby="h-rob">
<thead><tr><th scope="col"></th><th scope="col">no.</th><th scope="col"><div class="placed"><span class="pc">pc</span><span>statement</span></div></th><th scope="col"></th><th scope="col" title="dispatched in cycle">D</th><th scope="col" title="issued in cycle">I</th><th scope="col" title="broadcast in cycle, or after an arrow the first in which it can be">B</th><th scope="col" title="the register and its value; after an arrow where the program is predicted to go on, where that is not the next word">result</th></tr></thead><tbody id="rob"></tbody></table></div></section>
<section class="panel" data-panel="waits" aria-labelledby="h-waits"><h2 id="h-waits">Waits</h2><span class="note" id="waits-note"></span><div class="scroll" tabindex="0" role="region" aria-labelledby="h-waits"><table aria-labelledby="h-waits">
<thead><tr><th scope="col" title="event: fetch, dispatch, issue, broadcast, commit or trap, drain">ev.</th><th scope="col">cycle</th><th scope="col">waited last for</th><th scope="col">cause</th><th scope="col">cycles</th><th scope="col" title="whether it is on the critical path">path</th></tr></thead><tbody id="waits"></tbody></table></div></section>
<section class="panel grows tall" data-panel="textbook" aria-labelledby="h-textbook"><h2 id="h-textbook">As in the textbook</h2><span class="note" title="issue is the cycle of dispatch, execute the cycles in a unit, write result the cycle of the broadcast; ROBn is entry n of the reorder buffer">issue: dispatch; write result: broadcast</span><div class="scroll" tabindex="0" role="region" aria-labelledby="h-textbook">
<table aria-label="Instruction status"><thead><tr><th scope="col">entry</th><th scope="col">no.</th><th scope="col">instruction status</th><th scope="col">issue</th><th scope="col">execute</th><th scope="col">write result</th><th scope="col">commit</th></tr></thead><tbody id="status"></tbody></table>
<table aria-label="Reservation stations"><thead><tr><th scope="col">station</th><th scope="col">busy</th><th scope="col">op</th><th scope="col">Vj</th><th scope="col">Vk</th><th scope="col">Qj</th><th scope="col">Qk</th><th scope="col">dest</th><th scope="col">A</th></tr></thead><tbody id="waiting"></tbody></table>
<table aria-label="Register result status"><thead><tr><th scope="colgroup" colspan="16">register result status: the entry that writes it</th></tr></thead><tbody id="results"></tbody></table></div></section>
</div>
<div class="column" id="right">
<section class="panel" data-panel="stations" aria-labelledby="h-stations"><h2 id="h-stations" data-phase="6" title="phase 6 of 7 of a cycle: dispatch">Stations</h2><span class="note" id="stations-note"></span><div class="scroll fourteen" tabindex="0" role="region" aria-labelledby="h-stations"><table aria-labelledby="h-stations">
<thead><tr><th scope="col">kind</th><th scope="col">no.</th><th scope="col">statement</th><th scope="col">operands</th></tr></thead><tbody id="stations"></tbody></table></div></section>
<section class="panel" data-panel="units" aria-labelledby="h-units"><h2 id="h-units" data-phase="4" title="phase 4 of 7 of a cycle: issue">Units and port</h2><span class="note">held of all; &#8594; end</span><div class="scroll six" tabindex="0" role="region" aria-labelledby="h-units"><table aria-labelledby="h-units"><thead class="unseen"><tr><th scope="col">unit</th><th scope="col">held</th><th scope="col">executes</th></tr></thead><tbody id="units"></tbody></table></div></section>
<section class="panel" data-panel="bus" aria-labelledby="h-bus"><h2 id="h-bus" data-phase="5" title="phase 5 of 7 of a cycle: broadcast">Common data bus</h2><span class="note" id="bus-note"></span><div class="scroll six" tabindex="0" role="region" aria-labelledby="h-bus"><table aria-labelledby="h-bus"><thead class="unseen"><tr><th scope="col">stage</th><th scope="col">no.</th><th scope="col">result</th></tr></thead><tbody id="bus"></tbody></table></div></section>
<section class="panel" data-panel="csrs" aria-labelledby="h-csrs"><h2 id="h-csrs" data-phase="2" title="phase 2 of 7 of a cycle: commit">CSRs</h2><span class="note" id="csrs-note"></span><div class="scroll ten" tabindex="0" role="region" aria-labelledby="h-csrs"><table aria-labelledby="h-csrs"><thead class="unseen"><tr><th scope="col">name</th><th scope="col">value</th><th scope="col">meaning</th></tr></thead><tbody id="csrs"></tbody></table></div></section>
<section class="panel" data-panel="path" aria-labelledby="h-path"><h2 id="h-path">Critical path</h2><span class="note" id="path-note"></span><div class="scroll fourteen" tabindex="0" role="region" aria-labelledby="h-path"><p id="path-words"></p><table aria-labelledby="h-path">
<thead><tr><th scope="col" title="the mark of the cause in the picture">m.</th><th scope="col">cause</th><th scope="col">cycles</th><th scope="col">share</th><th scope="col"></th></tr></thead><tbody id="causes"></tbody></table></div></section>
<section class="panel grows counting" data-panel="counts" aria-labelledby="h-counts"><h2 id="h-counts">Counts</h2><span class="note" id="counts-note"></span><p id="counted"></p><p id="stack" role="img" aria-label="where the cycles went; the table below has the numbers"></p><div class="scroll" tabindex="0" role="region" aria-labelledby="h-counts"><table aria-labelledby="h-counts"><thead class="unseen"><tr><th scope="col">count</th><th scope="col">cycles</th><th scope="col">share</th></tr></thead><tbody id="counts"></tbody></table></div></section>
</div>
<div class="column" id="last">
<section class="panel" data-panel="registers" aria-labelledby="h-registers"><h2 id="h-registers" data-phase="2" title="phase 2 of 7 of a cycle: commit">Registers</h2><span class="note">and who writes them</span><div class="scroll" tabindex="0" role="region" aria-labelledby="h-registers"><table aria-labelledby="h-registers"><thead class="unseen"><tr><th scope="col">register</th><th scope="col">value</th><th scope="col">writer</th><th scope="col">register</th><th scope="col">value</th><th scope="col">writer</th></tr></thead><tbody id="registers"></tbody></table></div></section>
<section class="panel" data-panel="cache" aria-labelledby="h-cache"><h2 id="h-cache" data-phase="3" title="phase 3 of 7 of a cycle: drain">Cache</h2><span class="note" id="cache-note" title="sets, ways, bytes of a line; replayed: what the accesses of each cycle leave in the sets, where each cost what it would then cost"></span><div class="scroll eighteen" tabindex="0" role="region" aria-labelledby="h-cache"><table aria-labelledby="h-cache"><thead><tr><th scope="col">set</th><th scope="col">last used</th><th scope="col">used before</th></tr></thead><tbody id="cache"></tbody></table></div></section>
<section class="panel" data-panel="accesses" aria-labelledby="h-accesses"><h2 id="h-accesses" data-phase="3" title="phase 3 of 7 of a cycle: drain">Accesses</h2><span class="note" id="accesses-note"></span><div class="scroll six" tabindex="0" role="region" aria-labelledby="h-accesses"><table aria-labelledby="h-accesses"><thead><tr><th scope="col">cycle</th><th scope="col">no.</th><th scope="col">what</th><th scope="col">address</th><th scope="col">outcome</th><th scope="col">cost</th><th scope="col">end</th></tr></thead><tbody id="accesses"></tbody></table></div></section>
<section class="panel grows" data-panel="memory" aria-labelledby="h-memory"><h2 id="h-memory">Memory</h2><span class="note">as programs see it</span><div class="list" id="memory" tabindex="0" role="region" aria-labelledby="h-memory"><div></div></div></section>
</div>
</main>
<div id="pair" hidden><p><label>cycle <input type="range" id="pair-slider" step="1"></label> <span id="pair-note" role="status"></span> <label title="2"><input type="checkbox" id="pair-by"> by retired instructions</label></p><div id="sides"></div></div>
<script type="text/plain" id="notes"></script>
<script type="application/json" id="run">"#;

/// The rest of the viewer.
pub(crate) const AFTER: &[u8] = br##"</script>
<script>
"use strict";
// Words, names, and the sentences on a cycle and on an instruction.

const abiNames = ("zero ra sp gp tp t0 t1 t2 s0 s1 a0 a1 a2 a3 a4 a5 a6 a7 s2 s3 s4 s5 s6 s7 s8 s9 s10 s11 t3 t4 t5 t6").split(" ");
const kinds = ["alu", "mul", "div", "mem"];
const stallWords = {
  fetch: "the fetch buffer is empty", serial: "a serialising instruction is in flight", rob: "the reorder buffer is full",
  station: "its stations are full", store: "the store queue is full",
};
const letterWords = {
  F: "fetch", D: "dispatch", I: "issue", "=": "execution", "~": "wait for the bus", B: "broadcast", ".": "wait", C: "retirement",
  T: "trap", x: "squash",
};
const causeWords = {
  0: "instruction address misaligned", 1: "instruction access fault", 2: "illegal instruction", 3: "breakpoint", 4: "load address misaligned",
  5: "load access fault", 6: "store address misaligned", 7: "store access fault", 11: "environment call",
  0x80000003: "software interrupt", 0x80000007: "timer interrupt", 0x8000000b: "external interrupt",
};

function hex(word) { return word.toString(16).padStart(8, "0"); }
function registerName(register) { return settings.abi ? abiNames[register] : "x" + register; }
function causeName(cause) { return causeWords[cause] || "cause " + hex(cause); }
function listed(words) { return words.length < 2 ? words.join("") : words.slice(0, -1).join(", ") + " and " + words[words.length - 1]; }
// Numbers of instructions: three or more that follow each other by the first and the last of them.
function numbered(numbers) {
  const runs = [];
  for (const number of numbers) {
    const last = runs[runs.length - 1];
    if (last && last[last.length - 1] === number - 1) last.push(number); else runs.push([number]);
  }
  return listed(runs.flatMap((run) => run.length < 3 ? run.map((number) => "#" + number) : "#" + run[0] + " to #" + run[run.length - 1]));
}
function counted(number, word) { return number + " " + word + (number === 1 ? "" : "s"); }
// A part of all in percent, to the nearest tenth, half of one upwards, as the program has it.
function percent(part, all) { return (Math.floor((2000 * part + all) / (2 * all)) / 10).toFixed(1); }

// An instruction by its number and statement.
function called(run, number) {
  const instruction = run.table[number];
  return instruction ? "#" + number + " " + run.statement(instruction).replace(/\s+/g, " ").slice(0, 32) : "#" + number;
}

function writtenBy(written) { return written ? " (" + registerName(written.register) + "=" + hex(written.value) + ")" : ""; }

// Why a cycle dispatched nothing, and which instruction waited.
function stallSentence(run, here) {
  if (here.stalled === undefined) return stallWords[here.stall];
  const kind = kindOf(run.table[here.stalled].word), full = counted(run.machine[kind].stations, "station") + " of " + kind;
  return (here.stall === "station" ? "the " + full + (run.machine[kind].stations === 1 ? " is taken" : " are full") : stallWords[here.stall]) +
    " (" + called(run, here.stalled) + " waits)";
}

// What happened in the cycle before a place.
function cycleSentence(run, place) {
  const here = run.places[place];
  if (place === 0) return run.first === 0 ? "The hardware before the first cycle." : "The hardware before cycle " + run.first + ".";
  const parts = [];
  for (const interrupt of here.interrupts) {
    parts.push("the " + causeName(interrupt.cause) + " is taken before " + hex(interrupt.pc) + ": everything in flight is squashed");
  }
  const ends = (end) => here.ended.filter((each) => each.end === end);
  const retired = ends("retired"), squashed = ends("squashed");
  if (retired.length) {
    parts.push(listed(retired.map((each) => "#" + each.number + writtenBy(each.written))) + (retired.length > 1 ? " retire" : " retires"));
  }
  for (const each of ends("trapped")) parts.push(called(run, each.number) + " traps: " + causeName(each.cause));
  if (here.wrong !== undefined) parts.push("the prediction after " + called(run, here.wrong) + " was wrong");
  if (squashed.length) parts.push(counted(squashed.length, "instruction") + (squashed.length > 1 ? " are" : " is") + " squashed");
  if (here.access) parts.push("the " + here.access.what + " of #" + here.access.number + " accesses the cache at " + hex(here.access.address));
  const phases = here.phases;
  if (phases.issue.length) parts.push(numbered(phases.issue) + (phases.issue.length > 1 ? " issue" : " issues"));
  if (phases.broadcast.length) parts.push("broadcast of " + numbered(phases.broadcast));
  if (phases.dispatch.length) parts.push("dispatch of " + numbered(phases.dispatch));
  else if (here.stall) parts.push("nothing is dispatched, since " + stallSentence(run, here));
  if (phases.fetch.length) parts.push("fetch of " + numbered(phases.fetch));
  const text = parts.length ? parts.join("; ") + "." : "nothing happens.";
  if (!run.stop || place < run.places.length - 1) return "Cycle " + here.cycle + ": " + text;
  return "Cycle " + here.cycle + ": " + text + (run.stop.stop === "limit" ? " The page ends here." : " The run ends: " + run.stop.stop + ".");
}

// What an instruction is doing after the cycle before a place, and what it waits for.
function instructionSentence(run, number, place) {
  const instruction = run.table[number], cycle = run.cycleOf(place);
  const name = called(run, number) + " ";
  if (instruction.fetched > cycle) return name + "will be fetched in cycle " + instruction.fetched + ".";
  if (instruction.left <= cycle) return name + endSentence(instruction);
  const line = run.at(place), k = line.in_flight.indexOf(number), buffer = line.state.reorder_buffer;
  if (k < 0) return name + "left the hardware.";
  if (k >= buffer.length) return name + fetchedSentence(run, line, place, k - buffer.length);
  const entry = buffer[k];
  if (entry.issued === undefined && entry.kind) return name + stationSentence(run, line, place, entry, k);
  if (entry.issued !== undefined && entry.broadcast === undefined) return name + executionSentence(run, entry, cycle);
  return name + headSentence(run, line, entry, k);
}

function endSentence(instruction) {
  const cycle = " in cycle " + instruction.left;
  if (instruction.end === "retired") return "retired" + cycle + writtenBy(instruction.written) + ".";
  if (instruction.end === "trapped") return "trapped" + cycle + ": " + causeName(instruction.cause) + ".";
  return "was squashed" + cycle + ": it never takes effect.";
}

function fetchedSentence(run, line, place, older) {
  const here = run.places[place];
  if (older > 0) return "waits in the fetch buffer for the dispatch of " + counted(older, "older word") + ".";
  return here.stall && here.stall !== "fetch" ? "waits for its dispatch, since " + stallSentence(run, here) + "."
    : "can be dispatched in cycle " + (run.cycleOf(place) + 1) + ".";
}

function stationSentence(run, line, place, entry, k) {
  const buffer = line.state.reorder_buffer, cycle = run.cycleOf(place);
  const missing = entry.operands.filter((operand) => operand.producer !== undefined);
  if (missing.length) {
    return "waits in a station for " + listed(missing.map((operand) => {
      const producer = run.numberOf(operand.producer, line);
      return registerName(operand.register) + " of " + called(run, producer) + ", which " + doing(run, producer, line, cycle);
    })) + ".";
  }
  const store = isLoad(entry.word) && buffer.findIndex((each, j) => j < k && isStore(each.word) && each.broadcast === undefined);
  if (store !== false && store >= 0) {
    return "has its operands, and waits for the older store " + called(run, line.in_flight[store]) + ", whose address is not known.";
  }
  if (isLoad(entry.word) && line.state.port_free > cycle + 1) {
    return "has its operands, and may wait for the port of the cache, which is busy until cycle " + line.state.port_free + ".";
  }
  const busy = line.state.units[entry.kind].filter((unit) => unit.since + unit.cycles > cycle + 1);
  if (busy.length >= run.machine[entry.kind].units) {
    return "has its operands, and waits for a unit: one is free in cycle " + Math.min(...busy.map((unit) => unit.since + unit.cycles)) + ".";
  }
  const isReady = (each) => each.kind === entry.kind && each.issued === undefined && each.operands.every((operand) => operand.value !== undefined);
  const older = buffer.slice(0, k).filter(isReady);
  return "has its operands, and can issue in cycle " + (cycle + 1) +
    (older.length ? " where a unit is left after " + counted(older.length, "older one") + " of its kind." : ".");
}

// What a producer is doing, in a word.
function doing(run, number, line, cycle) {
  const entry = line.state.reorder_buffer[line.in_flight.indexOf(number)];
  if (!entry || entry.issued === undefined) return "waits itself";
  return entry.issued + entry.cost <= cycle ? "waits for the bus" : "executes until cycle " + (entry.issued + entry.cost);
}

function executionSentence(run, entry, cycle) {
  const end = entry.issued + entry.cost;
  if (end <= cycle) return "waits for the common data bus since cycle " + end + ": older results went first.";
  return "executes since cycle " + entry.issued + "; its result can be broadcast in cycle " + end + ".";
}

function headSentence(run, line, entry, k) {
  const head = "the head of the reorder buffer", next = line.cycle + 1;
  const older = k + " older " + (k === 1 ? "instruction is" : "instructions are") + " in front of it, first " + called(run, line.in_flight[0]);
  if (entry.finished === undefined) {
    if (k > 0) return "is executed at its commit, when it is " + head + ": " + older + ".";
    const writes = isFenceI(entry.word) && (line.state.port_free > next || line.state.store_queue.length > 0);
    return "is " + head + (writes ? ", and waits until the retired stores are in the cache and it is written back." : ", and can be executed in cycle " + next + ".");
  }
  const end = entry.fault ? "trap (" + causeName(entry.fault.cause) + ")" : "retire";
  return k > 0 ? "is done, and can " + end + " when it is " + head + ": " + older + "." : "is done, and can " + end + " in cycle " + next + ".";
}
// The run: what the lines of `./rv_sim states` say, and what follows from them.
// A place is a state of the window: place 0 is the hardware before its first cycle, place n the hardware after its nth cycle.

// Values that change at some places only: for each key its values, each with the place from which on it holds.
class Changes {
  constructor() { this.all = new Map(); }

  put(key, place, value) {
    let changes = this.all.get(key);
    if (!changes) this.all.set(key, changes = []);
    changes.push({ place, value });
  }

  // The last change of a key up to a place, or undefined.
  at(key, place) {
    const changes = this.all.get(key) || [];
    let low = 0, high = changes.length;
    while (low < high) {
      const middle = (low + high) >> 1;
      if (changes[middle].place <= place) low = middle + 1; else high = middle;
    }
    return changes[low - 1];
  }

  last(key) { const changes = this.all.get(key); return changes && changes[changes.length - 1].value; }

  keys() { return [...this.all.keys()].sort((a, b) => a - b); }
}

class Run {
  constructor(text) {
    this.texts = text.trim().split("\n");
    const header = JSON.parse(this.texts[0]);
    this.machine = header.machine;
    this.first = header.first;
    this.listing = [];           // the words that come from source lines, by address
    this.statements = new Map(); // their texts, by address
    this.words = new Changes();  // memory as programs see it, by address
    this.stale = new Changes();  // places at which a store made a word stale
    this.cleaned = [];           // places at which FENCE.I retired
    this.rewritten = [];         // places at which a store changed a word of the program
    this.sets = new Changes();   // the lines of each cache set
    this.predicted = new Changes(); // what the predictor's tables hold at each place that is not as at first
    this.table = [];             // each instruction by its number
    this.accesses = [];          // the accesses of the cache, in order
    this.places = [];            // what happened in the cycle before each place, and where its line stands
    this.stop = null;
    this.replays = false;        // whether the sets follow from accesses, since the lines do not tell them
    this.replayFits = true;      // and whether what these cost fits them
    this.kept = new Map();       // states that were read lately
    this.numbers = new Map();    // the number of each retired instruction, by its sequence number
    let before = null;
    this.texts.forEach((line, index) => {
      if (index === 0 || line === "") return;
      const value = readLine(line);
      if (value.state) { this.readPlace(value, before, index); before = value; }
      else this.readOther(value);
    });
    this.last = this.first + this.places.length - 2;
    this.firstNumber = Math.max(0, this.table.findIndex((each) => each !== undefined));
    this.countSteps();
    this.memoryRows = [...new Set(this.words.keys().map((address) => address - address % 16))];
    this.lineOf = new Map(this.listing.map((each, k) => [each.address, k]));
    this.usedSets = this.sets.keys();
  }

  readOther(value) {
    if (value.line !== undefined) {
      // A line's text stands at the first of its words alone.
      value.text ??= this.listing.at(-1).text;
      this.listing.push(value);
      this.statements.set(value.address, unlabelled(value.text.trim()));
    } else if (value.memory !== undefined) {
      this.words.put(value.memory, 0, value.word);
      if (value.stale) this.stale.put(value.memory, 0, true);
    } else if (value.set !== undefined) this.sets.put(value.set, 0, value.lines);
    else if (value.place !== undefined) this.predicted.put(value.place, 0, value);
    else if (value.stop) this.stop = value;
  }

  // A cycle's line, or that of the start.
  readPlace(value, before, index) {
    const place = this.places.length, { cycle, state } = value;
    this.readInstructions(value, place);
    value.ended.forEach((ended) => this.readEnd(ended, cycle, before));
    const here = {
      index, cycle, ended: value.ended, interrupts: (value.steps || []).filter((step) => step.step === "interrupt"),
      stall: value.stall, phases: this.phasesIn(value), stored: before ? storedIn(state, before.state) : [], fetchedBefore: this.table.length,
      room: roomIn(state), oldest: state.reorder_buffer.length ? value.in_flight[0] : undefined,
      changedSets: (value.sets || []).map((each) => each.set), head: state.reorder_buffer.length ? state.reorder_buffer[0].sequence : undefined,
      learned: value.learned || [], asked: this.askedIn(value),
    };
    if (value.stall && value.stall !== "fetch") here.stalled = value.in_flight[state.reorder_buffer.length];
    this.places.push(here);
    for (const each of here.learned) this.predicted.put(each.place, place, each);
    here.wrong = wronglyPredicted(here, value, before);
    if (here.wrong !== undefined) this.table[here.wrong].wrong = cycle;
    for (const store of here.stored) this.readStore(store, place);
    if (here.ended.some((each) => each.end === "retired" && isFenceI(each.word))) this.cleaned.push(place);
    here.access = accessIn(this, here, value, before);
    if (here.access) this.accesses.push(here.access);
    if (value.sets) for (const each of value.sets) this.sets.put(each.set, place, each.lines);
    else replay(this, here, value, before, place);
  }

  // The words that a line's cycle fetched and the predictor was asked of, with what it answered: they are the youngest in flight.
  askedIn(value) {
    const words = value.state.fetch_buffer.map((each, k) => ({ ...each, number: value.in_flight[value.state.reorder_buffer.length + k] }));
    return (value.asked || []).map((each) => {
      const { word, number } = words.filter((other) => other.pc === each.pc && other.fetched === value.cycle).pop();
      return { ...each, word, number };
    });
  }

  // Which instructions did a phase in a line's cycle, in order of fetch.
  phasesIn(value) {
    const numbers = value.instructions.map((each) => each.number);
    const did = (stamp) => numbers.filter((number) => value.cycle !== undefined && this.table[number][stamp] === value.cycle);
    return { fetch: did("fetched"), dispatch: did("dispatched"), issue: did("issued"), broadcast: did("broadcast") };
  }

  // How many instructions have retired up to each place, and how many traps and interrupts came in the window. Sequence numbers count
  // retired instructions, so the head's tells how many retired before the window.
  countSteps() {
    let retired = 0, traps = 0, interrupts = 0;
    for (const here of this.places) {
      retired += here.ended.filter((each) => each.end === "retired").length;
      traps += here.ended.filter((each) => each.end === "trapped").length;
      interrupts += here.interrupts.length;
      Object.assign(here, { retired, traps, interrupted: interrupts });
    }
    const known = this.places.find((here) => here.head !== undefined);
    const before = known ? known.head - known.retired : 0;
    for (const here of this.places) here.retired += before;
  }

  readInstructions(value, place) {
    const buffer = value.state.reorder_buffer, all = buffer.concat(value.state.fetch_buffer);
    value.in_flight.forEach((number, k) => {
      const entry = all[k];
      const { pc, word, fetched, predicted } = entry;
      const known = this.table[number] || (this.table[number] = { number, pc, word, fetched, predicted, producers: [], consumers: [] });
      if (k >= buffer.length) return;
      if (known.dispatched === undefined) {
        known.dispatched = entry.dispatched;
        known.kind = entry.kind;
        known.target = entry.target;
        for (const operand of entry.operands) this.connect(known, operand.register, value.in_flight, buffer, k);
      }
      for (const member of ["issued", "cost", "broadcast", "value", "fault"]) if (entry[member] !== undefined) known[member] = entry[member];
    });
  }

  // The producer of an operand is the youngest older instruction in flight that writes the register.
  connect(consumer, register, numbers, buffer, place) {
    for (let k = place - 1; k >= 0 && register !== 0; k -= 1) {
      if (buffer[k].target !== register) continue;
      const producer = this.table[numbers[k]];
      if (consumer.producers.some((each) => each.number === producer.number)) return;
      consumer.producers.push({ register, number: producer.number });
      producer.consumers.push(consumer.number);
      return;
    }
  }

  readEnd(ended, cycle, before) {
    const known = this.table[ended.number] || (this.table[ended.number] = { producers: [], consumers: [] });
    Object.assign(known, ended, { left: cycle });
    const k = before && ended.end === "retired" ? before.in_flight.indexOf(ended.number) : -1;
    if (k >= 0) this.numbers.set(before.state.reorder_buffer[k].sequence, ended.number);
  }

  readStore(store, place) {
    store.bytes.forEach((byte, k) => {
      const address = store.address + k, word = address - address % 4, shift = 8 * (address % 4);
      const old = this.words.last(word) || 0;
      this.words.put(word, place, ((old & ~(255 << shift)) | (byte << shift)) >>> 0);
      this.stale.put(word, place, true);
      if (this.statements.has(word)) this.rewritten.push(place);
    });
  }

  // The line of a place, whole.
  at(place) {
    let value = this.kept.get(place);
    if (!value) {
      if (this.kept.size > 200) this.kept.clear();
      this.kept.set(place, value = readLine(this.texts[this.places[place].index]));
    }
    return value;
  }

  cycleOf(place) { return this.first - 1 + place; }

  statement(instruction) {
    const text = this.statements.get(instruction.pc);
    if (text !== undefined) return text;
    return instruction.word === undefined ? "-" : hex(instruction.word);
  }

  // Whether an instruction was fetched in vain: it was squashed, or it is no word of the program and never retired.
  isGone(instruction) {
    return instruction.end === "squashed" || (instruction.end === undefined && !this.statements.has(instruction.pc));
  }

  wordAt(address, place) { const change = this.words.at(address, place); return change ? change.value : 0; }

  isStale(address, place) {
    const stored = this.stale.at(address, place);
    return Boolean(stored) && !this.cleaned.some((clean) => clean >= stored.place && clean <= place);
  }

  isStored(address, place) {
    return this.places[place].stored.some((store) => store.address < address + 4 && address < store.address + store.bytes.length);
  }

  // The number of the instruction with a sequence number in the state of a place.
  numberOf(sequence, line) {
    const head = line.state.reorder_buffer[0];
    const k = head ? sequence - head.sequence : -1;
    return k >= 0 && k < line.state.reorder_buffer.length ? line.in_flight[k] : this.numbers.get(sequence);
  }
}

// A statement without the labels in front of it: where it stands, its address or its line says already.
function unlabelled(text) { return text.replace(/^([A-Za-z_.$][\w.$]*|[0-9]+):\s*(?=\S)/, ""); }

const isFenceI = (word) => word !== undefined && (word & 0x707f) === 0x100f;
const isLoad = (word) => word !== undefined && (word & 0x7f) === 0x03;
const isStore = (word) => word !== undefined && (word & 0x7f) === 0x23;
const isSerial = (word) => word !== undefined && ((word & 0x7f) === 0x73 || isFenceI(word));
const isRetired = (store) => store.state === "committed" || store.state === "draining";

// The kind of unit that a word uses.
function kindOf(word) {
  if (isLoad(word) || isStore(word)) return "mem";
  const isMul = (word & 0x7f) === 0x33 && word >>> 25 === 1;
  return isMul ? ((word >>> 12) & 7) < 4 ? "mul" : "div" : "alu";
}

// A line. That of a place gets in_flight and ended, its instructions apart, and what an instruction of the reorder buffer waits for and
// has come to: operands, broadcast, fault.
function readLine(text) {
  const value = JSON.parse(text);
  if (!value.state) return value;
  value.in_flight = value.instructions.filter((each) => each.end === undefined).map((each) => each.number);
  value.ended = value.instructions.filter((each) => each.end !== undefined);
  for (const entry of value.state.reorder_buffer) {
    entry.operands = [entry.first, entry.second].filter((operand) => operand !== undefined);
    if (entry.issued !== undefined) entry.broadcast = entry.finished;
    if (entry.cause !== undefined) entry.fault = { cause: entry.cause, value: entry.mtval };
  }
  for (const each of value.ended) if (each.register !== undefined) each.written = { register: each.register, value: each.value };
  return value;
}

// The stores that retired between two states: programs see their bytes from now on.
function storedIn(state, before) {
  const old = before.store_queue.filter(isRetired).map((store) => store.sequence);
  return state.store_queue.filter((store) => isRetired(store) && !old.includes(store.sequence));
}

// The instruction whose wrong prediction was mended in a cycle: a retired jump or branch that went on elsewhere than predicted, or, with
// early recovery, one whose prediction changed at its broadcast.
function wronglyPredicted(here, value, before) {
  if (!before) return undefined;
  const entryIn = (line, number) => line.state.reorder_buffer[line.in_flight.indexOf(number)];
  const early = here.phases.broadcast.find((number) => {
    const old = entryIn(before, number), now = entryIn(value, number);
    return old && now && old.predicted !== now.predicted;
  });
  if (early !== undefined) return early;
  const retired = here.ended.filter((ended) => ended.end === "retired").pop();
  const entry = retired && entryIn(before, retired.number);
  return entry && entry.next_pc !== undefined && entry.next_pc !== entry.predicted ? retired.number : undefined;
}

// The letter of an instruction in a cycle, as in pictures: nothing before its fetch and after its end.
function letterOf(instruction, cycle) {
  const { fetched, dispatched, issued, cost, broadcast, left, end } = instruction;
  if (cycle < fetched || cycle > left) return "";
  if (cycle === left) return { retired: "C", trapped: "T", squashed: "x" }[end];
  if (cycle === broadcast) return "B";
  if (cycle === issued) return "I";
  if (cycle === dispatched) return "D";
  if (cycle === fetched) return "F";
  if (issued < cycle && !(broadcast < cycle)) return issued + cost <= cycle ? "~" : "=";
  return ".";
}
// The data cache: which line a cycle touched, which lines each set holds, and what each access cost.

// The access of the cache that began in a cycle: a store's drain, or a load that did not get all its bytes from stores.
function accessIn(run, here, value, before) {
  const port = value.state.port_free;
  if (!before || port <= value.cycle || port === before.state.port_free) return undefined;
  const size = run.machine.cache.line;
  const made = (number, address, what) => ({ number, address, what, line: (address - address % size) / size, cost: port - value.cycle,
    outcome: outcomeOf(run, port - value.cycle), place: run.places.length - 1, cycle: value.cycle });
  const oldest = value.state.store_queue[0], was = oldest && before.state.store_queue.find((store) => store.sequence === oldest.sequence);
  const drains = oldest && oldest.state === "draining" && !(was && was.state === "draining");
  if (drains) return made(run.numberOf(oldest.sequence, value), oldest.address, "drain");
  for (const number of here.phases.issue) {
    const load = run.table[number];
    if (!isLoad(load.word) || load.issued + load.cost !== port) continue;
    const address = addressOf(load, before);
    if (address !== undefined && !isForwarded(load, address, value)) return made(number, address, "load");
  }
  return undefined;
}

// The address of a load whose operands are known in a line: its base register and the offset in its word.
function addressOf(load, line) {
  const entry = line.state.reorder_buffer[line.in_flight.indexOf(load.number)], offset = load.word >> 20;
  const base = entry && entry.operands.find((operand) => operand.value !== undefined);
  return base && (base.value + offset) >>> 0;
}

// All bytes of a load come from older stores.
function isForwarded(load, address, line) {
  const k = line.in_flight.indexOf(load.number), width = 1 << ((load.word >>> 12) & 3);
  const sequence = line.state.reorder_buffer[k].sequence;
  const older = line.state.store_queue.filter((store) => store.sequence < sequence && store.bytes);
  for (let at = address; at < address + width; at += 1) {
    if (!older.some((store) => store.address <= at && at < store.address + store.bytes.length)) return false;
  }
  return true;
}

// Where the lines do not say how the sets change, an access does: its line comes to the front of its set, a set that is full drops its last
// line, and a write-back leaves all lines clean. What the access cost says whether that is right; where it does not fit, nothing is shown.
function replay(run, here, value, before, place) {
  run.replays = run.replays || place > 0;
  const { sets, ways, hit, miss, write_back } = run.machine.cache;
  if (here.access) {
    const { line, what, cost } = here.access, set = line % sets, old = run.sets.last(set) || [];
    const held = old.find((each) => each.line === line), dropped = !held && old.length >= ways ? old[old.length - 1] : undefined;
    const rest = old.filter((each) => each !== held && each !== dropped);
    if (cost !== hit + (held ? 0 : miss) + (dropped && dropped.dirty ? write_back : 0)) run.replayFits = false;
    const by = held ? held.by : { number: here.access.number, cycle: value.cycle };
    run.sets.put(set, place, [{ line, by, dirty: what === "drain" || Boolean(held && held.dirty) }, ...rest]);
    here.changedSets = [set];
  } else if (before && isFenceI((before.state.reorder_buffer[0] || {}).word) && value.state.port_free !== before.state.port_free) {
    for (const set of run.sets.keys()) run.sets.put(set, place, run.sets.last(set).map((each) => ({ ...each, dirty: false })));
  }
}

// An access in a word: what it cost says whether its line was there.
function outcomeOf(run, cost) {
  const { hit, miss, write_back } = run.machine.cache;
  if (cost === hit && (miss > 0 || write_back > 0)) return "hit";
  if (cost === hit + miss) return miss > 0 ? "miss" : "hit or miss";
  return cost === hit + miss + write_back ? "miss, write-back" : "cost " + cost;
}

function isMiss(access) { return access !== undefined && access.outcome.startsWith("miss"); }

function showCache(view) {
  const { run, place } = view, { sets, ways, line } = run.machine.cache, touched = run.places[place].access, changed = run.places[place].changedSets;
  const shown = sets <= 4 ? [...Array(sets).keys()] : run.usedSets, rows = [];
  for (const set of shown) {
    const lines = run.replayFits ? (run.sets.at(set, place) || { value: [] }).value : [];
    if (sets > 4 && lines.length === 0) continue;
    const cells = [];
    for (let way = 0; way < Math.min(ways, Math.max(lines.length, 2)); way += 1) {
      const held = lines[way], is = held && touched && touched.line === held.line, by = held && held.by;
      const title = held && (is ? "touched in this cycle; " : "") + (held.dirty ? "dirty: differs from RAM" : "clean") +
        (by ? "; brought by #" + by.number + " in cycle " + by.cycle : "");
      const data = { class: words(is && "touched", held && held.dirty && "dirty"), title };
      cells.push(element("td", data, held ? hex(held.line * line) + (held.dirty ? "*" : "") : "-"));
    }
    rows.push(element("tr", { class: changed.includes(set) ? "changed" : "" }, heading(set), ...cells));
  }
  const size = (run.replays ? "replayed; " : "") + [sets, ways, line].join("\u00d7") + " bytes; * dirty";
  note("cache-note", run.replayFits ? size : "not known: the costs do not fit");
  fill("cache", rows, Math.min(sets, 4), 3);
}

// The accesses up to the cursor, the last one first.
function showAccesses(view) {
  const { run, place } = view, until = run.accesses.filter((access) => access.place <= place);
  const hits = until.filter((access) => !isMiss(access)).length;
  note("accesses-note", until.length ? "hits " + hits + " of " + until.length + ", " + percent(hits, until.length) + "%" : "none yet");
  const cycle = run.cycleOf(place), ends = { retired: "retires", squashed: "squashed", trapped: "traps" };
  fill("accesses", until.slice(-40).reverse().map((access) => {
    const { left, end } = run.table[access.number] || {}, known = end !== undefined && (left <= cycle || !settings.quiz);
    return row({ "data-number": access.number, key: access.place, class: access.place === place ? "changed" : "" }, access.cycle, tag(access.number), access.what, hex(access.address),
      element("td", { class: isMiss(access) ? "missed" : "" }, access.outcome), access.cost, known ? ends[end] : "");
  }), 4, 7);
}
// The branch predictor: what it knows after a cycle, and what it answered of the words that the cycle fetched.

// Branches and JALR alone are looked up in the tables, and change them.
function usesTables(word) {
  const code = word & 0x7f, form = (word >>> 12) & 7;
  return (code === 0x63 && form !== 2 && form !== 3) || (code === 0x67 && form === 0);
}

// The place of a pc in the tables, where there are tables: instructions with one place share its counter and its target.
function placeOf(run, pc) {
  const { kind, entries } = run.machine.predictor;
  return kind === "bimodal" ? (pc >>> 2) % entries : undefined;
}

// What a place of the tables holds: of one that is as at first the lines say nothing.
function knownAt(run, at, place) {
  const change = run.predicted.at(at, place);
  return change ? change.value : { counter: 1 };
}

// The branches and JALR of the program by their places. They are looked up anew where a store changed a word of the program.
function sharersOf(run, place) {
  const changes = run.rewritten.filter((each) => each <= place).length;
  if (run.sharers && run.sharers.changes === changes) return run.sharers.found;
  const found = new Map();
  for (const { address } of run.listing) {
    if (!usesTables(run.wordAt(address, place))) continue;
    const at = placeOf(run, address);
    found.set(at, (found.get(at) || []).concat(address));
  }
  run.sharers = { changes, found };
  return found;
}

// The place of the instruction that is followed, where the tables are looked up for it.
function followedPlace(view) {
  const { run, followed } = view, instruction = followed === undefined ? undefined : run.table[followed];
  return instruction && usesTables(instruction.word) ? placeOf(run, instruction.pc) : undefined;
}

function showPredictor(view) {
  const { kind, entries } = view.run.machine.predictor, followed = followedPlace(view);
  note("predictor-note", kind + (kind === "bimodal" ? " " + entries : "") + (followed === undefined ? "" : "; #" + view.followed + ": place " + followed));
  showAsked(view);
  showTables(view, followed);
}

// The words that the cycle fetched: for each its place, and where the predictor says that the program goes on.
function showAsked(view) {
  const { run, place } = view;
  fill("asked", run.places[place].asked.map((each) => {
    const used = usesTables(each.word), answer = each.answer === ((each.pc + 4) >>> 0) ? "next" : "\u2192" + hex(each.answer);
    return row({ "data-number": each.number }, tag(each.number), hex(each.pc), used && each.place !== undefined ? each.place : "",
      wide(answer + (used || each.place === undefined ? "" : ", no table")));
  }), 2, 4);
}

function showTables(view, followed) {
  const { run, place } = view;
  byId("tables").parentNode.hidden = run.machine.predictor.kind !== "bimodal";
  if (byId("tables").parentNode.hidden) return;
  const sharers = sharersOf(run, place), taught = new Set(run.places[place].learned.map((each) => each.place));
  const asked = new Set(run.places[place].asked.filter((each) => usesTables(each.word)).map((each) => each.place));
  const isKnown = (at) => knownAt(run, at, place).counter !== 1 || knownAt(run, at, place).target !== undefined;
  const shown = [...new Set([...sharers.keys(), ...run.predicted.keys()])].filter((at) => sharers.has(at) || isKnown(at)).sort((a, b) => a - b);
  fill("tables", shown.map((at) => {
    const { counter, target } = knownAt(run, at, place), pcs = sharers.get(at) || [];
    const title = "counter " + counter + ": a branch is predicted " + (counter >= 2 ? "taken" : "not taken") + (pcs.length > 1 ? "; shared by " + listed(pcs.map(hex)) : "") +
      (taught.has(at) ? "; taught in this cycle" : "") + (asked.has(at) ? "; asked in this cycle" : "");
    return element("tr", { key: at, class: words(taught.has(at) && "changed", at === followed && "followed", asked.has(at) && "touched"), title },
      heading(at), element("td", {}, counter), element("td", {}, counter >= 2 ? "taken" : "not"), element("td", {}, target === undefined ? "-" : hex(target)),
      wide(pcs.map(hex).join(" ")));
  }), 2, 5);
}
// The critical path, by the rules of `./rv_sim path`. An event of a run (a fetch, dispatch, issue, broadcast or commit of an instruction, the
// start of its drain or of its write-back of lines, an interrupt) waited last for one other event: what stood in its way in the cycle before, or
// the stage before where nothing did. Walking back so from the last step that the page shows, each cycle is on account of exactly one cause
// (Fields, Rubin and Bodik, "Focusing processor policies via critical-path prediction", ISCA 2001).

// The stamp of an instruction that says when an event came.
const stamps = { fetch: "fetched", dispatch: "dispatched", issue: "issued", broadcast: "broadcast", commit: "left" };

// What executes at its commit, after which everything younger is fetched anew: CSR instructions, mret and fence.i.
function isSerialising(word) { return isFenceI(word) || word === 0x30200073 || ((word & 0x7f) === 0x73 && (word & 0x3000) !== 0); }

// How full the hardware is between two cycles, and until when its port is held.
function roomIn({ reorder_buffer: buffer, store_queue: stores, port_free: port }) {
  const waiting = { alu: 0, mul: 0, div: 0, mem: 0 };
  for (const entry of buffer) if (entry.kind && entry.issued === undefined) waiting[entry.kind] += 1;
  return { buffered: buffer.length, waiting, stores: stores.length, port };
}

class CriticalPath {
  constructor(run) {
    this.run = run;
    this.events = new Map(); // each event once, by its name
    this.port = new Map();   // the event from which on the port was held, by the cycle in which it was idle again
    this.drains = new Map(); // the same, of drains alone
    this.units = new Map();  // the oldest issue that held a unit which is not pipelined, by its kind and the cycle in which it was free again
    this.starts = new Map(); // the start of a drain or of a write-back of lines, by the instruction's number
    this.seeStart();
    this.seePort();
    this.seeUnits();
  }

  // An event by its kind, its instruction's number and its cycle. One before the page has neither number nor cycle where they are not known.
  event(kind, number, at) {
    const cycle = at === undefined && this.run.table[number] ? this.run.table[number][stamps[kind]] : at, name = [kind, number, cycle].join(" ");
    if (!this.events.has(name)) this.events.set(name, { name, kind, number, at: cycle });
    return this.events.get(name);
  }

  isShown(event) { return event.at >= this.run.first; }
  isFence(number) { return number !== undefined && isFenceI(this.run.table[number].word); }

  // A cycle of the page, and which instructions retired or trapped in it. Of the cycle before the page the room alone is known.
  here(cycle) { return this.run.places[cycle - this.run.first + 1]; }
  left(cycle) { return this.here(cycle).ended.filter((each) => each.end !== "squashed").map((each) => each.number); }

  // What held port and units when the page begins.
  seeStart() {
    const { state, in_flight } = this.run.at(0), { port_free: until, store_queue: stores, reorder_buffer: [head] } = state;
    const load = in_flight.find((number) => this.isLoadUntil(number, until)), isDrain = stores.some((store) => store.state === "draining");
    const isCleaning = head !== undefined && isFenceI(head.word) && stores.length === 0;
    const others = isCleaning ? this.event("lines", in_flight[0]) : this.event("issue", load);
    const event = isDrain ? this.event("drain") : others;
    if (this.run.first > 0) this.port.set(until, event);
    if (isDrain) this.drains.set(until, event);
    const held = kinds.flatMap((kind) => state.units[kind].map((unit) => ({ kind, ...unit })));
    for (const { kind, since, cycles } of held) this.units.set(kind + (since + cycles), this.event("issue", undefined, since));
  }

  // The port is taken in a cycle after which it is held, until another one than before: by a drain, a load, or the lines that a fence.i writes back.
  // A load that is squashed in the cycle of its issue, which no line shows, has no event.
  seePort() {
    const { places } = this.run;
    for (let place = 1; place < places.length; place += 1) {
      const { cycle, room, access, phases, oldest } = places[place], until = room.port, isDrain = access !== undefined && access.what === "drain";
      if (until <= cycle || until === places[place - 1].room.port) continue;
      const load = isDrain ? undefined : phases.issue.find((number) => this.isLoadUntil(number, until));
      if (!isDrain && load === undefined && !this.isFence(oldest)) continue;
      const event = load !== undefined ? this.event("issue", load) : this.event(isDrain ? "drain" : "lines", isDrain ? access.number : oldest, cycle);
      this.port.set(until, event);
      if (isDrain) this.drains.set(until, event);
      if (event.kind !== "issue") this.starts.set(event.number, event);
    }
  }

  isLoadUntil(number, cycle) { const { word, issued, cost } = this.run.table[number]; return isLoad(word) && issued + cost === cycle; }

  seeUnits() {
    const issued = this.run.table.filter((each) => each && each.issued !== undefined);
    for (const { number, kind, issued: since, cost } of issued.reverse()) this.units.set(kind + (since + cost), this.event("issue", number));
  }

  // The event that one waited for last, and the cause: none of a run's first event, and of events before the page.
  before(event) {
    if (event.wait === undefined) event.wait = this.isShown(event) ? this[event.kind](event, this.run.table[event.number]) || null : null;
    return event.wait;
  }

  after(event, cause) { return { event, cause }; }
  // No rule says for what. That comes in a page's first cycle alone, where the one before it is not shown.
  otherwise(at, event) { return at > this.run.first ? this.after(event, "another cause") : undefined; }

  // The event that sent the fetch elsewhere in a cycle, if one did.
  redirection(cycle) {
    const { interrupts, wrong, ended } = this.here(cycle), last = ended.filter((each) => each.end !== "squashed").pop();
    if (interrupts.length) return this.after(this.event("interrupt", undefined, cycle), "refill: interrupt");
    if (last && last.end === "trapped") return this.after(this.event("commit", last.number), "refill: trap");
    if (last && isSerialising(last.word)) return this.after(this.event("commit", last.number), "refill: serialising instruction");
    if (wrong === undefined) return undefined;
    return this.after(this.event(last && last.number === wrong ? "commit" : "broadcast", wrong), "refill: wrong prediction");
  }

  fetch({ number, at }) {
    const { table, machine } = this.run, last = table[number - 1], room = table[number - machine.fetch_buffer];
    const anew = this.here(at).phases.fetch[0] === number && this.redirection(at);
    if (anew) return anew;
    if (!last) return undefined;
    const lastFetch = this.event("fetch", number - 1), isNext = last.fetched === at - 1;
    if (last.fetched === at) return this.after(lastFetch, "fetch in order");
    if (isNext && this.here(at - 1).phases.fetch.length === machine.fetch_width) return this.after(lastFetch, "fetch width");
    if (isNext && last.predicted !== (last.pc + 4) >>> 0) return this.after(lastFetch, "fetch ends at a predicted jump");
    if (room && room.dispatched === at) return this.after(this.event("dispatch", room.number), "fetch buffer full");
    return this.otherwise(at, lastFetch);
  }

  dispatch({ number, at }, it) {
    const { table, machine } = this.run, last = table[number - 1] || {}, { room, phases } = this.here(at - 1);
    if (it.fetched === at - 1) return this.after(this.event("fetch", number), "front end");
    if (last.dispatched === at) return this.after(this.event("dispatch", number - 1), "dispatch in order");
    const isWide = phases.dispatch.length === machine.dispatch_width;
    if (last.dispatched === at - 1 && isWide) return this.after(this.event("dispatch", number - 1), "dispatch width");
    return this.roomAt(at, it.kind, room) || this.otherwise(at, this.event("fetch", number));
  }

  // The event that made room for a dispatch in a cycle, where the hardware was full in the one before.
  roomAt(at, kind, { buffered, waiting, stores }) {
    const { table, machine } = this.run, [left] = this.left(at), issued = this.here(at).phases.issue.find((number) => table[number].kind === kind);
    if (buffered === machine.rob && left !== undefined) return this.after(this.event("commit", left), "reorder buffer full");
    const isFull = kind !== undefined && waiting[kind] === machine[kind].stations;
    if (isFull && issued !== undefined) return this.after(this.event("issue", issued), kind + " stations full");
    return stores === machine.store_queue && this.drains.has(at) ? this.after(this.drains.get(at), "store queue full") : undefined;
  }

  issue({ number, at }, it) {
    const { table } = this.run, { phases } = this.here(at - 1);
    if (it.dispatched === at - 1) return this.after(this.event("dispatch", number), "dispatch to issue");
    const producer = it.producers.find((each) => table[each.number].broadcast === at - 1);
    if (producer) return this.after(this.event("broadcast", producer.number), "operand");
    const store = phases.broadcast.find((each) => isStore(table[each].word) && each < number);
    if (isLoad(it.word) && store !== undefined) return this.after(this.event("broadcast", store), "address of an older store");
    const unit = this.unitUntil(it.kind, at);
    return unit ? this.after(unit, it.kind + " units busy") : this.portUntil(at) || this.otherwise(at, this.event("dispatch", number));
  }

  // The issue by which the units of a kind were held until a cycle: of pipelined ones the last that began in the cycle before.
  unitUntil(kind, at) {
    const { pipelined, units } = this.run.machine[kind], began = this.here(at - 1).phases.issue.filter((each) => this.run.table[each].kind === kind);
    if (!pipelined) return this.units.get(kind + at);
    return began.length === units ? this.event("issue", began[units - 1]) : undefined;
  }

  // The event from which on the port was held until a cycle.
  portUntil(at) {
    const event = this.port.get(at);
    return event && this.after(event, { drain: "port: a store", issue: "port: a load", lines: "port: lines written back" }[event.kind]);
  }

  broadcast({ number, at }, it) {
    const issue = this.event("issue", number), went = this.here(at - 1).phases.broadcast;
    if (it.issued + it.cost === at) return this.after(issue, this.execution(it, issue, at));
    if (went.length === this.run.machine.bus_width) return this.after(this.event("broadcast", went[went.length - 1]), "common data bus full");
    return this.otherwise(at, issue);
  }

  execution(it, issue, at) {
    if (!isLoad(it.word)) return "execution: " + it.kind;
    if (this.port.get(at) !== issue) return "load: forwarded, or faulted";
    return it.cost === this.run.machine.cache.hit ? "load: hit" : "load: miss";
  }

  commit({ number, at }, it) {
    const done = this.event(it.broadcast === undefined ? "dispatch" : "broadcast", number), left = this.left(at), place = left.indexOf(number);
    if (done.at === at - 1) return this.after(done, "commit");
    if (place > 0) return this.after(this.event("commit", left[place - 1]), "commit in order");
    const held = this.port.get(at), isOwn = held !== undefined && held.kind === "lines" && held.number === number;
    const ofFence = () => isOwn ? this.after(held, "lines written back") : this.afterStores(at);
    return (isFenceI(it.word) ? ofFence() : this.afterLeft(at, this.run.machine.commit_width)) || this.otherwise(at, done);
  }

  // The last that left in the cycle before.
  afterLeft(at, width) {
    const went = this.left(at - 1), cause = went.length === width ? "commit width" : "commit in order";
    return went.length ? this.after(this.event("commit", went[went.length - 1]), cause) : undefined;
  }

  // What a fence.i waits for: the older stores, which leave the queue after the commit of a cycle, the port, and before both to be the oldest.
  afterStores(at) {
    const drain = this.drains.get(at - 1);
    return drain ? this.after(drain, "port: a store") : this.portUntil(at) || this.afterLeft(at);
  }

  lines({ number, at }, it) {
    const left = this.left(at), dispatch = this.event("dispatch", number);
    if (it.dispatched === at - 1) return this.after(dispatch, "commit");
    if (left.length) return this.after(this.event("commit", left[left.length - 1]), "commit in order");
    return this.afterStores(at) || this.otherwise(at, dispatch);
  }

  drain({ number, at }, it) {
    if (it && it.left === at) return this.after(this.event("commit", number), "drain");
    return this.portUntil(at) || (it && this.otherwise(at, this.event("commit", number)));
  }

  interrupt({ at }) {
    const last = this.lastStep(at - 1);
    return last ? this.after(last, "until the interrupt") : this.run.first > 0 ? this.after(this.event("commit"), "until the interrupt") : undefined;
  }

  // The last step up to a cycle: a retirement, a trap or an interrupt.
  lastStep(until) {
    for (let cycle = until; cycle >= this.run.first; cycle -= 1) {
      const left = this.left(cycle);
      if (left.length) return this.event("commit", left[left.length - 1]);
      if (this.here(cycle).interrupts.length) return this.event("interrupt", undefined, cycle);
    }
    return undefined;
  }
}
// The account of a page: the critical path to the last step that it shows, and the one cause that each of its cycles is on account of.

// The causes of `./rv_sim path`, in its order, by the sorts in which they are marked; those at the end have no cycles.
const causeSorts = {
  "refill: wrong prediction": "refill", "refill: trap": "refill", "refill: interrupt": "refill", "refill: serialising instruction": "refill",
  "fetch width": "front", "fetch ends at a predicted jump": "front", "front end": "front", "dispatch width": "front", "store queue full": "room",
  "dispatch to issue": "front", operand: "operand", "address of an older store": "operand",
  "alu units busy": "unit", "mul units busy": "unit", "div units busy": "unit", "mem units busy": "unit",
  "port: a store": "port", "port: a load": "port", "port: lines written back": "port",
  "execution: alu": "execution", "execution: mul": "execution", "execution: div": "execution", "execution: mem": "execution",
  "load: forwarded, or faulted": "load", "load: hit": "load", "load: miss": "load", "common data bus full": "bus",
  commit: "commit", "commit in order": "commit", "commit width": "commit", "lines written back": "port", "until the interrupt": "interrupt",
  "another cause": "rest",
  "fetch in order": "front", "dispatch in order": "front", "fetch buffer full": "room", "reorder buffer full": "room",
  "alu stations full": "room", "mul stations full": "room", "div stations full": "room", "mem stations full": "room", drain: "commit",
};

// Each sort has a letter, so that its marks are told apart without their colours.
const sorts = {
  refill: ["r", "refill"], front: ["f", "front end"], room: ["n", "no room"], operand: ["o", "operand"], unit: ["u", "unit busy"],
  execution: ["e", "execution"], load: ["l", "load"], port: ["p", "port"], bus: ["b", "bus full"], commit: ["c", "commit"],
  interrupt: ["i", "until an interrupt"], rest: ["-", "no cause"],
};

const beforeFirst = "before the first event", afterLast = "after the last step";
function sortOf(cause) { return causeSorts[cause] || "rest"; }

class Account {
  constructor(run) {
    this.run = run;
    this.path = new CriticalPath(run);
    this.end = this.path.lastStep(run.last);
    this.steps = this.stepsTo(this.end);
    this.spans = this.spansOf();
    this.shares = this.sharesOf();
    this.marked = new Set(this.steps.map(({ event }) => event.name));
    // (of a store that drains in the cycle of its commit the letter is that of the commit)
    this.cells = new Map([...this.steps].reverse().map((step) => [step.event.number + " " + step.to, step]));
  }

  // The path from its first event to the last one, which it waited for and why: a step of the path begins in the cycle of the event that was
  // waited for, or with the page.
  stepsTo(end) {
    const { path } = this, { first } = this.run, found = [];
    for (let event = end; event && path.isShown(event);) {
      const wait = path.before(event), from = wait && path.isShown(wait.event) ? wait.event.at : first;
      found.push({ event, wait, from, to: event.at, cause: wait ? this.causeOf(event) : beforeFirst });
      event = wait && wait.event;
    }
    return found.reverse();
  }

  // The cause of the cycles between an event and the one that it waited for: where the fetch began anew, that of it, up to the first issue or
  // commit after it.
  causeOf(event) {
    const { event: other, cause } = this.path.before(event);
    return (event.kind !== "lines" && this.refillTo(other)) || cause;
  }

  // Why the fetch began anew before an event, where no instruction issued or left since.
  refillTo(event) {
    const passed = [];
    let found = "", at = event;
    while (at.kind === "fetch" || at.kind === "dispatch") {
      const wait = this.path.before(at);
      if (at.refill !== undefined) { found = at.refill; break; }
      passed.push(at);
      if (wait && wait.cause.startsWith("refill")) found = wait.cause;
      if (!wait || found) break;
      at = wait.event;
    }
    for (const each of passed.reverse()) {
      if (found && this.goesOnBetween(at.at, each.at)) found = "";
      each.refill = found;
      at = each;
    }
    return found;
  }

  // Whether an instruction issued or left in the cycles after one up to another.
  goesOnBetween(from, to) {
    for (let cycle = from + 1; cycle <= to; cycle += 1) if (this.path.here(cycle).phases.issue.length || this.path.left(cycle).length) return true;
    return false;
  }

  // The cycles of the page from the first to the last, each with the step that it belongs to; after the last step there is none.
  spansOf() {
    const { first, last } = this.run, found = Array(last + 1 - first);
    for (const step of this.steps) found.fill(step, step.from - first, step.to - first);
    return found;
  }

  // How many cycles each cause has, the greatest first, and at the end those before the first event and after the last step.
  sharesOf() {
    const cycles = new Map([...Object.keys(causeSorts), beforeFirst, afterLast].map((cause) => [cause, 0]));
    for (let k = 0; k < this.spans.length; k += 1) {
      const cause = this.spans[k] ? this.spans[k].cause : afterLast;
      cycles.set(cause, cycles.get(cause) + 1);
    }
    const all = [...cycles].map(([cause, count]) => ({ cause, cycles: count })), isEnd = ({ cause }) => cause === beforeFirst || cause === afterLast;
    return [...all.filter((each) => !isEnd(each) && each.cycles > 0).sort((a, b) => b.cycles - a.cycles), ...all.filter(isEnd)];
  }

  // The step of a cycle.
  stepIn(cycle) { return this.spans[cycle - this.run.first]; }

  // The last event of the path up to a cycle, and the one of it that waited for an event.
  eventUpTo(cycle) { return (this.steps.filter((each) => each.to <= cycle).pop() || {}).event; }
  eventAfter(event) { return (this.steps.find((each) => each.wait && each.wait.event === event) || {}).event; }
}
// What is drawn. An element is described by a plain object, and the document is brought to the description: a step changes only what differs.
// All text of a program goes into text nodes, never into markup.

function byId(id) { return document.getElementById(id); }

// The description of an element. An attribute that is undefined or false is left out, and a child that is no description is text. Among the
// children of one parent an element with a key stays the same element wherever it comes to stand.
function element(tag, attributes, ...children) {
  const { key, ...others } = attributes;
  return { tag, key, attributes: others, children: children.flat().filter((child) => child !== undefined && child !== "") };
}

const drawings = ["svg", "path", "defs", "marker"];

function put(node, name, value) {
  if (value === undefined || value === false) node.removeAttribute(name);
  else if (name === "style") node.style.cssText = value;
  else node.setAttribute(name, value === true ? "" : value);
}

function make(wanted) {
  if (!wanted.tag) return document.createTextNode(wanted);
  const made = drawings.includes(wanted.tag) ? document.createElementNS("http://www.w3.org/2000/svg", wanted.tag) : document.createElement(wanted.tag);
  made.drawn = { tag: wanted.tag, key: wanted.key, attributes: {}, children: [] };
  bring(made, wanted);
  return made;
}

// What an element was drawn from says what differs: the document is asked for nothing, and told that alone.
function bring(node, wanted) {
  if (node.drawn === wanted) return;
  if (!wanted.tag) { if (node.data !== String(wanted)) node.data = wanted; return; }
  const old = node.drawn.attributes, now = wanted.attributes;
  for (const name in old) if (!(name in now)) put(node, name, undefined);
  for (const name in now) if (now[name] !== old[name]) put(node, name, now[name]);
  node.drawn = wanted;
  bringChildren(node, wanted.children);
}

function isAlike(one, other) { return one.tag === other.tag && one.key === other.key; }

function isKind(node, wanted) {
  if (!node) return false;
  if (!wanted.tag) return node.nodeType === Node.TEXT_NODE;
  return Boolean(node.drawn) && node.drawn.tag === wanted.tag && node.drawn.key === undefined;
}

function bringChildren(box, wanted) {
  const held = box.held || [];
  box.held = wanted;
  if (held.length !== wanted.length || !wanted.every((each, k) => isAlike(each, held[k]))) return arrange(box, wanted);
  let node = box.firstChild;
  wanted.forEach((each, k) => {
    if (each !== held[k]) bring(node, each);
    node = node.nextSibling;
  });
}

// Brings the children in their order: some are new, some have gone.
function arrange(box, wanted) {
  const keys = new Set(wanted.map((each) => each.key).filter((key) => key !== undefined)), kept = new Map();
  for (const node of [...box.childNodes]) {
    const key = node.drawn && node.drawn.key;
    if (key === undefined) continue;
    if (keys.has(key)) kept.set(key, node); else node.remove();
  }
  let next = box.firstChild;
  for (const each of wanted) {
    let node = each.key === undefined ? (isKind(next, each) ? next : undefined) : kept.get(each.key);
    kept.delete(each.key);
    if (node) bring(node, each); else node = make(each);
    if (node === next) next = next.nextSibling; else box.insertBefore(node, next);
  }
  while (next) {
    const gone = next;
    next = next.nextSibling;
    gone.remove();
  }
}

function draw(id, ...children) { bringChildren(byId(id), children.flat()); }

// A row of a table, which an instruction's number tells from the others; its heading; and the cell that takes the room that is left.
function row(attributes, ...cells) {
  const isCell = (cell) => cell && (cell.tag === "td" || cell.tag === "th");
  return element("tr", { key: attributes["data-number"], ...attributes }, ...cells.map((cell) => isCell(cell) ? cell : element("td", {}, cell)));
}
function heading(text) { return element("th", { scope: "row" }, text); }
function wide(...children) { return element("td", { class: "wide" }, ...children); }
// A statement after its address, which is left off where it would cut the statement. One that has no room alone is smaller.
function placed(pc, statement) {
  return element("td", { class: "wide", title: hex(pc) + " " + statement },
    element("div", { class: "placed" }, span("pc", hex(pc)), span("text", statement, { style: smaller(statement, 22) })));
}
function smaller(text, room) { return text.length > room ? "font-size:" + Math.max(0.7, room / text.length).toFixed(2) + "em" : undefined; }
function span(kind, text, attributes) { return element("span", { class: kind, ...attributes }, text); }
function words(...kinds) { return kinds.filter((kind) => kind).join(" "); }

// A button that follows an instruction.
function tag(number, text, title) {
  if (number === undefined) return element("span", {}, "-");
  return element("button", { class: "tag", type: "button", "data-number": number, title, tabindex: -1 }, text || "#" + number);
}

// Fills a table with rows, and with as many empty ones as make it so long.
function fill(id, rows, least, columns) {
  while (rows.length < least) rows.push(element("tr", { class: "free" }, element("td", { colspan: columns }, "\u00a0")));
  draw(id, rows);
}

function note(id, text) { if (byId(id).textContent !== text) byId(id).textContent = text; }
function markChange(changed) { return changed ? { class: "changed", title: "changed in this cycle" } : {}; }
// The layout: what is measured of it, what is scrolled into view, the size of type, and which panels are shown.

// The layout is measured once a step, when the panels are filled: reading it between changes would lay the page out each time.
const measures = { rem: 11, letter: 6.6 };
const scrolled = ["source", "memory", "picture"];
function measure() {
  measures.rem = parseFloat(getComputedStyle(document.documentElement).fontSize);
  measures.letter = byId("letters").getBoundingClientRect().width / byId("letters").textContent.length;
  for (const id of scrolled) {
    const box = byId(id);
    measures[id] = { width: box.clientWidth, height: box.clientHeight, top: box.scrollTop, left: box.scrollLeft };
  }
}
function scrollBox(id, top, left) {
  const box = byId(id);
  if (top !== measures[id].top) box.scrollTop = top;
  if (left !== measures[id].left) box.scrollLeft = left;
  Object.assign(measures[id], { top: box.scrollTop, left: box.scrollLeft });
}

// On paper nothing is scrolled: what was, is moved there as far; and a sheet has room for more rows than a window.
function layOutForPrint(view) {
  for (const id of scrolled) {
    byId(id).style.setProperty("--down", measures[id].top / measures.rem);
    byId(id).style.setProperty("--along", measures[id].left / measures.rem);
    measures[id].height += 30 * measures.rem;
  }
  for (const show of [showSource, showMemory, drawPicture]) show(view);
  markFollowed(view);
}

// A list of which only the rows in view are in the document: it is scrolled first, where a row is wanted, and drawn with the rest.
const lists = {};
function scrollList(id, wanted) {
  const height = 1.25 * measures.rem, { top, height: high } = measures[id];
  if (wanted >= 0 && (wanted * height < top || (wanted + 2) * height > top + high)) scrollBox(id, Math.max(0, Math.floor(wanted - high / height / 3) * height), 0);
}
function drawList(id) {
  const { count, rowAt } = lists[id], { top, height: high } = measures[id], height = 1.25 * measures.rem, rows = [];
  const from = Math.max(0, Math.floor(top / height) - 4), to = Math.min(count - 1, Math.ceil((top + high) / height) + 4);
  for (let k = from; k <= to; k += 1) {
    const made = rowAt(k);
    Object.assign(made, { key: k, attributes: { ...made.attributes, style: "top:" + 1.25 * k + "rem" } });
    rows.push(made);
  }
  bringChildren(byId(id).firstElementChild, rows);
}
function sizeList(id, count) { byId(id).firstElementChild.style.height = 1.25 * count + "rem"; }

// A table that may be long: past so many rows only those in view are in the document, between gaps as high as the others.
const longest = 40, drawnRows = 28, tops = { rob: 0, stations: 0 };
function boxOf(id) { return byId(id).closest(".scroll"); }
function fillLong(id, count, rowAt, least, columns) {
  const height = rowHeights[id], isLong = count > longest;
  const from = isLong ? Math.max(0, Math.min(count - drawnRows, Math.floor(tops[id] / (height * measures.rem)) - 4)) : 0, to = isLong ? from + drawnRows : count;
  const gap = (name, rows) => rows > 0 ? [element("tr", { key: name, class: "gap", style: "height:" + rows * height + "rem" }, element("td", { colspan: columns }))] : [];
  const rows = [];
  for (let k = from; k < to; k += 1) rows.push(rowAt(k));
  fill(id, [...gap("above", from), ...rows, ...gap("below", count - to)], least, columns);
}
const rowHeights = { rob: 1.25, stations: 1.1 };

// Scrolls to what a view wants to be seen, before the lists and the picture are drawn.
function scrollAll(view) {
  const { run, place, line } = view, stored = run.places[place].stored[0];
  const first = line.in_flight.length ? run.table[line.in_flight[0]].pc : line.state.pc;
  scrollList("source", run.lineOf.get(view.address !== undefined ? view.address : first));
  const wanted = view.address !== undefined ? view.address : stored && stored.address;
  scrollList("memory", wanted === undefined ? -1 : run.memoryRows.indexOf(wanted - wanted % 16));
  scrollPicture(view);
}

// The size of type: 1 is that at which all panels are in view.
function sizeType(factor) {
  settings.size = Math.min(4, Math.max(0.5, Math.round(100 * factor) / 100));
  document.documentElement.style.setProperty("--size", settings.size);
}

// The panels that a switch brings, and those that make room for them.
function isLeftOut(name) {
  const brought = { textbook: settings.textbook, waits: showsPath(), path: showsPath() };
  const left = { rob: settings.textbook || showsPath(), stations: settings.textbook, csrs: showsPath() };
  return name in brought ? !brought[name] : Boolean(left[name]);
}

// The panels by name, and those that are left out. A column without a panel gives its room to the others.
function panelNames() { return [...document.querySelectorAll("[data-panel]")].map((each) => each.dataset.panel); }
function showPanels() {
  for (const each of document.querySelectorAll("[data-panel]")) {
    const name = each.dataset.panel;
    each.hidden = isLeftOut(name) || settings.without.has(name);
  }
  for (const each of document.querySelectorAll(".column")) each.hidden = !each.querySelector(".panel:not([hidden])");
}
function drawSwitches() {
  draw("switches", panelNames().map((name) => element("label", {},
    element("input", { type: "checkbox", "data-switch": name, checked: !settings.without.has(name) }), " " + name)));
}
// Which machine and which run: on the page, on its print and in the title of its tab.

// The name of the run: that of the file, or what the address says.
function runName() {
  const named = new URLSearchParams(location.hash.slice(1)).get("name");
  const file = location.protocol === "about:" || location.protocol === "blob:" ? "" : decodeURIComponent(location.pathname.split("/").pop() || "");
  return named || file.replace(/\.x?html?$/, "") || "rv_sim";
}

function kindWords(name, kind) {
  return name + " " + counted(kind.units, "unit") + ", " + counted(kind.stations, "station") + ", latency " + kind.latency + (kind.pipelined ? "" : ", not pipelined");
}

function machineWords(machine) {
  const { cache, predictor } = machine;
  return [
    "fetch " + machine.fetch_width + ", dispatch " + machine.dispatch_width + ", commit " + machine.commit_width + ", bus " + machine.bus_width,
    "reorder buffer " + machine.rob + ", fetch buffer " + machine.fetch_buffer + ", store queue " + machine.store_queue,
    ...kinds.map((kind) => kindWords(kind, machine[kind])),
    "forward " + machine.forward,
    "cache " + [cache.sets, cache.ways, cache.line].join("\u00d7") + " bytes, hit " + cache.hit + ", miss " + cache.miss + ", write-back " + cache.write_back,
    "predictor " + predictor.kind + (predictor.entries === undefined ? "" : " " + predictor.entries) + ", recovery " + machine.recovery,
  ].join("; ");
}

function showMachine(run) {
  const { machine } = run, name = runName();
  draw("machine", element("b", {}, name), " " + machineWords(machine));
  document.title = name + ": width " + machine.fetch_width + ", reorder buffer " + machine.rob + ", " + machine.predictor.kind;
}
// The hardware after a cycle, panel by panel.

// The instructions of the reorder buffer with their numbers, and whether one is on its way to the bus.
function entriesOf(line) { return line.state.reorder_buffer.map((entry, k) => ({ entry, number: line.in_flight[k] })); }
function isRunning(entry) { return entry.issued !== undefined && entry.broadcast === undefined; }
function isJump(entry) { return entry.predicted !== ((entry.pc + 4) >>> 0); }

// A line of the program: its label is left off after its address, where the statement has no room beside it.
function labelled(text) {
  const statement = unlabelled(text), label = text.slice(0, text.length - statement.length).trim();
  return label ? element("div", { class: "placed" }, span("name", label), span("text", statement)) : span("text", statement);
}

function showSource(view) {
  const { run, place, line } = view, cycle = run.cycleOf(place), flying = new Map();
  line.in_flight.forEach((number) => {
    const pc = run.table[number].pc;
    flying.set(pc, (flying.get(pc) || []).concat(number));
  });
  const rowAt = (k) => {
    const { address, line: of, text } = run.listing[k], numbers = flying.get(address) || [];
    const tags = numbers.slice(0, 4).map((number) => {
      const letter = letterOf(run.table[number], cycle);
      return tag(number, letter, "#" + number + ": " + letterWords[letter]);
    });
    if (numbers.length > 4) tags.push("+" + (numbers.length - 4));
    const stale = run.isStale(address, place), stops = view.breakpoints.has(address);
    const title = hex(address) + ": " + hex(run.wordAt(address, place)) + (stale ? ", stale" : "") + (stops ? ", breakpoint" : "");
    return element("div", { class: words("row", numbers.length && "flying", stale && "stale", stops && "stops"), "data-address": address, title: title + "\n" + text.trim() },
      span("line", of), span("mark", address === line.state.pc ? ">" : stops ? "*" : "\u00a0"), element("span", { class: "tags" }, ...tags),
      element("div", { class: "placed" }, span("pc", hex(address)), labelled(text.trim())));
  };
  note("source-note", "> " + hex(line.state.pc) + " is next to retire");
  lists.source = { count: run.listing.length, rowAt };
  drawList("source");
}

function showFetch(view) {
  const { run, line } = view, buffer = line.state.fetch_buffer, from = line.state.reorder_buffer.length, size = run.machine.fetch_buffer;
  note("fetch-note", buffer.length + " of " + size + (line.state.halted ? ", halted" : ", next " + hex(line.state.next_fetch)));
  fill("fetch", buffer.map((word, k) => {
    const number = line.in_flight[from + k];
    return row({ "data-number": number }, tag(number), placed(word.pc, run.statement(word)), isJump(word) ? "\u2192" + hex(word.predicted) : "");
  }), Math.min(size, 8), 3);
}

function showReorderBuffer(view) {
  const { run, line } = view, buffer = line.state.reorder_buffer, size = run.machine.rob;
  note("rob-note", buffer.length + " of " + size + ", tail at the bottom");
  fillLong("rob", buffer.length, (k) => entryRow(view, k), Math.min(size, 16), 8);
}

// What an entry of the reorder buffer is shown to have come to: stage, cycles of dispatch, issue and broadcast, result.
function entryParts({ run, line, place }, k) {
  const entry = line.state.reorder_buffer[k], stamp = (value) => value === undefined ? "-" : value;
  const target = entry.target ? registerName(entry.target) + "=" + (entry.value === undefined ? "?" : hex(entry.value)) : "";
  const result = entry.fault ? causeName(entry.fault.cause) : target + (isJump(entry) ? "\u2192" + hex(entry.predicted) : "") || "-";
  const finish = isRunning(entry) ? "\u2192" + (entry.issued + entry.cost) : stamp(entry.broadcast);
  return [letterOf(run.table[line.in_flight[k]], run.cycleOf(place)), entry.dispatched, stamp(entry.issued), finish, result];
}

// The same as a fact of two runs: that of its sequence number.
function entryFact(view, k) {
  const entry = view.line.state.reorder_buffer[k];
  return ["entry " + entry.sequence, [hex(entry.pc), ...entryParts(view, k)].join(" ")];
}

function entryRow(view, k) {
  const { run, line } = view, buffer = line.state.reorder_buffer, entry = buffer[k], number = line.in_flight[k];
  const [letter, dispatched, issued, finish, result] = entryParts(view, k);
  const ends = (k === 0 ? "head" : "") + (k === buffer.length - 1 ? (k === 0 ? "+tail" : "tail") : "");
  const title = "fetched in cycle " + entry.fetched + ", sequence number " + entry.sequence;
  return row({ "data-number": number, "data-entry": entry.sequence, title }, heading(ends), tag(number), placed(entry.pc, run.statement(entry)),
    element("td", { class: "cell " + cellClass(letter), title: letterWords[letter] }, letter), dispatched, issued, finish,
    element("td", { class: entry.fault ? "fault" : "", title: "predicted to go on at " + hex(entry.predicted) }, result));
}

function showStations(view) {
  const { run, line } = view, rows = [], counts = [];
  for (const kind of kinds) {
    const waiting = entriesOf(line).filter(({ entry }) => entry.kind === kind && entry.issued === undefined);
    const size = run.machine[kind].stations;
    counts.push(kind + " " + waiting.length + "/" + size);
    for (const each of waiting) rows.push({ kind, ...each });
    for (let k = waiting.length; k < Math.min(size, 4); k += 1) rows.push({ kind });
  }
  note("stations-note", counts.join(" "));
  fillLong("stations", rows.length, (k) => stationRow(view, rows[k]), Math.min(12, rows.length), 4);
}

function stationRow(view, { kind, entry, number }) {
  if (!entry) return element("tr", { class: "free" }, element("td", {}, kind), element("td", { colspan: 3 }));
  return row({ "data-number": number }, kind, tag(number), wide(view.run.statement(entry)),
    element("td", {}, ...entry.operands.flatMap((operand) => operandOf(view, operand))));
}

function operandOf(view, operand) {
  const name = registerName(operand.register);
  if (operand.producer === undefined) return [span("operand", name + "=" + hex(operand.value)), " "];
  return [element("span", { class: "operand waits" }, name + "\u2190", tag(view.run.numberOf(operand.producer, view.line))), " "];
}

function showUnits(view) {
  const { run, line, place } = view, cycle = run.cycleOf(place), machine = run.machine;
  const rows = kinds.map((kind) => {
    const held = line.state.units[kind].filter((unit) => unit.since + unit.cycles > cycle).length;
    const under = entriesOf(line).filter(({ entry }) => entry.kind === kind && isRunning(entry) && entry.issued + entry.cost > cycle);
    return row({}, heading(kind), held + "/" + machine[kind].units, wide(...under.flatMap(({ entry, number }) => {
      const end = entry.issued + entry.cost;
      return [tag(number, "#" + number + "\u2192" + end, "executes until cycle " + end), " "];
    })));
  });
  const port = line.state.port_free, access = run.places[place].access;
  const began = access ? [access.what + " ", tag(access.number), " " + hex(access.address)] : [];
  rows.push(row({}, heading("port"), port > cycle + 1 ? "busy" : "free", wide(port > cycle ? "\u2192" + port + " " : "", ...began)));
  fill("units", rows, 5, 3);
}

function showBus(view) {
  const { run, line, place } = view, cycle = run.cycleOf(place), now = run.places[place].phases.broadcast;
  const rows = now.map((number) => {
    const { target, value } = run.table[number];
    const result = target && value !== undefined ? registerName(target) + "=" + hex(value) : run.statement(run.table[number]);
    return row({ "data-number": number }, "B", tag(number), wide(result));
  });
  while (rows.length < Math.min(run.machine.bus_width, 2)) rows.push(row({ class: "free" }, "B", "", ""));
  for (const { entry, number } of entriesOf(line)) {
    const ready = entry.issued + entry.cost;
    if (!isRunning(entry) || ready > cycle + 1) continue;
    rows.push(row({ "data-number": number }, ready <= cycle ? "~" : "", tag(number), wide((ready <= cycle ? "waits since " : "ready in ") + ready)));
  }
  note("bus-note", "of width " + run.machine.bus_width);
  fill("bus", rows, 5, 3);
}

function showStores(view) {
  const { run, line } = view, queue = line.state.store_queue, size = run.machine.store_queue;
  note("stores-note", queue.length + " of " + size);
  fill("stores", queue.map((store) => {
    const number = run.numberOf(store.sequence, line);
    const bytes = store.bytes ? store.bytes.map((byte) => byte.toString(16).padStart(2, "0")).join(" ") : "";
    return row({ "data-number": number }, tag(number), store.state, store.address === undefined ? "" : hex(store.address), bytes);
  }), Math.min(size, 8), 4);
}

function showRegisters(view) {
  const { line, before } = view, producers = new Map(), rows = [];
  line.state.reorder_buffer.forEach((entry, k) => { if (entry.target) producers.set(entry.target, line.in_flight[k]); });
  const cells = line.state.registers.map((value, register) => {
    const changed = before && before.state.registers[register] !== value, producer = producers.get(register);
    return [heading(registerName(register)), element("td", { "data-fact": "x" + register, ...markChange(changed) }, hex(value)),
      element("td", {}, producer === undefined ? "" : tag(producer, undefined, "#" + producer + " in flight writes " + registerName(register)))];
  });
  for (let k = 0; k < 16; k += 1) rows.push(element("tr", {}, ...cells[k], ...cells[k + 16]));
  draw("registers", rows);
}

function showCsrs(view) {
  const { line, before } = view;
  const shown = Object.entries(line.state.csrs).filter(([name, value]) => value !== 0 || (before && before.state.csrs[name] !== 0));
  const rows = shown.map(([name, value]) => {
    const changed = before && before.state.csrs[name] !== value;
    return row({}, heading(name), element("td", { "data-fact": name, ...markChange(changed) }, hex(value)), wide(name === "mcause" && value !== 0 ? causeName(value) : ""));
  });
  note("csrs-note", ["software", "timer", "external"].filter((name) => line.state[name]).map((name) => name + " line high").join(", "));
  fill("csrs", rows, 6, 3);
}

function showMemory(view) {
  const { run, place } = view;
  const rowAt = (k) => {
    const address = run.memoryRows[k], four = [0, 4, 8, 12].map((offset) => {
      const at = address + offset, stale = run.isStale(at, place);
      const title = hex(at) + (stale ? ": stale until fence.i" : "");
      return span(words("word", run.isStored(at, place) && "changed", stale && "stale"), hex(run.wordAt(at, place)), { title });
    });
    return element("div", { class: "row" }, span("pc", hex(address)), ...four);
  };
  lists.memory = { count: run.memoryRows.length, rowAt };
  drawList("memory");
}

function showCounts(view) {
  const { run, line, place } = view, counts = line.counts, here = run.places[place];
  const parts = ["busy", ...Object.keys(stallWords)].map((name) => [name, counts[name]]);
  const cpi = here.retired ? (Math.floor(1000 * counts.cycles / here.retired) / 1000).toFixed(3) : "-";
  note("counts-note", "CPI " + cpi);
  const numbers = { cycles: counts.cycles, retired: here.retired, traps: here.traps, interrupts: here.interrupted };
  draw("counted", Object.entries(numbers).map(([name, value]) => element("span", { "data-fact": name },
    name + (run.first > 0 && name !== "cycles" && name !== "retired" ? " here " : " ") + value)));
  const total = Math.max(1, counts.cycles), share = (value) => percent(value, total);
  // (a part too narrow for its name has it in its tip)
  draw("stack", parts.filter(([, value]) => value > 0).map(([name, value]) =>
    element("span", { class: "part " + name, style: "width:" + share(value) + "%", title: name + ": " + share(value) + "% of the cycles" }, share(value) > 2.6 * name.length ? name : "")));
  fill("counts", parts.map(([name, value]) => row({}, heading(name === "busy" ? name : "stall " + name), element("td", { "data-fact": name }, value),
    share(value) + "%", wide(span("bar " + name, "", { style: "width:" + share(value) + "%" })))), 6, 4);
}

// The places of the followed instruction, its producers and its consumers. Where none is followed, marks that stand are looked for alone.
const marks = ["followed", "producing", "consuming"];
function markFollowed(view, box) {
  const followed = view.run.table[view.followed], kinds = new Map();
  if (followed) {
    for (const number of followed.consumers) kinds.set(number, "consuming");
    for (const { number } of followed.producers) kinds.set(number, "producing");
    kinds.set(view.followed, "followed");
  }
  const looked = followed ? "[data-number]" : marks.map((name) => "[data-number]." + name).join();
  for (const each of (box || document).querySelectorAll(looked)) {
    const kind = kinds.get(Number(each.dataset.number));
    for (const name of marks) each.classList.toggle(name, name === kind);
  }
}

const panels = {
  fetch: showFetch, predictor: showPredictor, rob: showReorderBuffer, textbook: showTextbook, stations: showStations, units: showUnits, bus: showBus,
  stores: showStores, registers: showRegisters, csrs: showCsrs, cache: showCache, accesses: showAccesses, counts: showCounts,
  waits: showWaits, path: showPath,
};
// These are drawn though they are left out, since their texts are compared where two runs stand side by side.
const compared = ["registers", "csrs", "counts"];

// The panels are filled first, since how high they are says how much room the lists and the picture have.
function showAll(view) {
  for (const [name, show] of Object.entries(panels)) if (compared.includes(name) || !byId("h-" + name).closest(".panel").hidden) show(view);
  measure();
  scrollAll(view);
  for (const show of [showSource, showMemory, drawPicture]) show(view);
}
// Tomasulo's tables as the textbook prints them, of the same cycle: instruction status, reservation stations, register result status. There
// an instruction issues where it is dispatched here, and writes its result where it is broadcast. A producer is an entry of the reorder
// buffer, by its place: entries are used in turn.

function entryName(run, sequence) { return "ROB" + (sequence % run.machine.rob + 1); }

function mnemonic(run, instruction) { return run.statement(instruction).split(/\s/)[0]; }

// The offset of a load or store, which is all of its address that is known before its operands are.
function offsetOf(word) {
  if (isLoad(word)) return word >> 20;
  return isStore(word) ? ((word >> 25) << 5) | ((word >> 7) & 31) : undefined;
}

function showTextbook(view) {
  showStatus(view);
  showStationTable(view);
  showResultStatus(view);
}

function showStatus({ run, line, place }) {
  const cycle = run.cycleOf(place), buffer = line.state.reorder_buffer, entered = line.in_flight.slice(0, buffer.length);
  const last = entered.length ? entered[entered.length - 1] : run.places[place].fetchedBefore - 1;
  const oldest = entered.length ? entered[0] : last;
  const shown = run.table.slice(Math.max(run.firstNumber, oldest - 6), last + 1).filter((each) => each.dispatched <= cycle && !(hidesGone() && run.isGone(each)));
  const upTo = (at) => at !== undefined && at <= cycle ? at : "";
  fill("status", shown.map((each) => {
    const k = entered.indexOf(each.number), done = each.issued + each.cost <= cycle ? each.issued + "\u2013" + (each.issued + each.cost - 1) : upTo(each.issued);
    const left = each.left <= cycle ? (each.end === "retired" ? each.left : each.end) : "";
    return row({ "data-number": each.number }, k < 0 ? "" : entryName(run, buffer[k].sequence), tag(each.number), wide(run.statement(each)), each.dispatched, done, upTo(each.broadcast), left);
  }), 8, 7);
}

function showStationTable({ run, line }) {
  const rows = [];
  for (const kind of kinds) {
    const waiting = entriesOf(line).filter(({ entry }) => entry.kind === kind && entry.issued === undefined), size = run.machine[kind].stations;
    waiting.forEach(({ entry, number }, k) => {
      const value = (operand) => operand && operand.value !== undefined ? hex(operand.value) : "";
      const producer = (operand) => operand && operand.producer !== undefined ? entryName(run, operand.producer) : "";
      const offset = offsetOf(entry.word);
      rows.push(row({ "data-number": number }, heading(kind + (k + 1)), "yes", mnemonic(run, entry), value(entry.first), value(entry.second),
        producer(entry.first), producer(entry.second), entryName(run, entry.sequence), offset === undefined ? "" : offset));
    });
    for (let k = waiting.length; k < Math.min(size, 4); k += 1) rows.push(element("tr", { class: "free" }, heading(kind + (k + 1)), element("td", {}, "no"), element("td", { colspan: 7 })));
  }
  fill("waiting", rows, 0, 9);
}

function showResultStatus({ run, line }) {
  const producers = new Map();
  for (const entry of line.state.reorder_buffer) if (entry.target) producers.set(entry.target, entryName(run, entry.sequence));
  const rows = [];
  for (let from = 0; from < 32; from += 8) {
    const registers = [...Array(8).keys()].map((k) => from + k);
    rows.push(element("tr", {}, registers.flatMap((register) => [heading(registerName(register)), element("td", {}, producers.get(register) || "")])));
  }
  fill("results", rows, 4, 16);
}
// The pipeline picture: a row for each fetched instruction, a column for each cycle. Only the part that is in view is in the document; the
// labels and the cycles' numbers stay in view. Measures in rem.

const picture = { row: 1.25, column: 1.05, label: 19 };

// The instructions that have a row, and the row of each: all, or those that were not fetched in vain.
const pictured = { numbers: [], rows: new Map() };

// The quiz would tell by it what will be squashed.
function hidesGone() { return settings.hide && !settings.quiz; }

function sizePicture(run) {
  const all = run.table.filter((each) => each !== undefined), shown = hidesGone() ? all.filter((each) => !run.isGone(each)) : all;
  pictured.numbers = shown.map((each) => each.number);
  pictured.rows = new Map(pictured.numbers.map((number, k) => [number, k]));
  byId("picture-space").style.width = picture.label + run.places.length * picture.column + "rem";
  byId("picture-space").style.height = (shown.length + 1 + headRows()) * picture.row + "rem";
  byId("picture").classList.toggle("with-path", showsPath());
  note("picture-note", counted(all.length, "instruction") + " fetched in cycles " + run.first + " to " + run.last +
    (all.length > shown.length ? ", " + (all.length - shown.length) + " hidden" : ""));
}

// The heads are the cycles, and with the critical path the cause of each.
function headRows() { return showsPath() ? 2 : 1; }

// The row of the first instruction that is not older than a number.
function rowFrom(number) {
  const k = pictured.numbers.findIndex((each) => each >= number);
  return k < 0 ? pictured.numbers.length : k;
}

// Scrolls to the cursor's column, and to the rows of what is in flight: all of them where they fit, else as many of the oldest as do; and to
// that of the followed instruction.
function scrollPicture(view) {
  const { run, place, line } = view, rem = measures.rem, width = picture.column * rem, height = picture.row * rem;
  let { top, left, width: wide, height: high } = measures.picture;
  wide -= picture.label * rem;
  const column = Math.max(place - 1, 0) * width;
  if (column < left + 3 * width || column + 4 * width > left + wide) left = Math.max(0, Math.floor((column - wide * 0.7) / width) * width);
  const flying = line.in_flight.map((number) => pictured.rows.get(number)).filter((k) => k !== undefined);
  const beside = Math.max(0, rowFrom(run.places[place].fetchedBefore) - 1);
  const first = flying.length ? flying[0] : Math.max(0, beside - 2), last = flying.length ? flying[flying.length - 1] : beside;
  // A row stands below the heads, which stay at the top of the box.
  const see = (first, last) => {
    const least = Math.ceil(last + 1 + headRows() - high / height) * height, most = first * height;
    if (top < least) top = least;
    if (top > most) top = most;
  };
  see(first, last);
  // The followed one is seen before others, while it is in flight and where it has just left.
  const followed = run.table[view.followed], its = pictured.rows.get(view.followed), cycle = run.cycleOf(place);
  const isPresent = its !== undefined && followed.fetched <= cycle && !(followed.left < cycle), isEvent = view.event && view.event.at === cycle;
  if (isPresent || (its !== undefined && isEvent && view.event.number === view.followed)) see(its, its);
  scrollBox("picture", Math.max(0, top), left);
}

function columnAt(column) { return picture.label + column * picture.column + "rem"; }

function drawPicture(view) {
  const { run } = view, { top, left, width: wide, height: high } = measures.picture;
  const height = picture.row * measures.rem, width = picture.column * measures.rem, last = settings.quiz ? view.place - 1 : run.places.length - 2;
  const firstRow = Math.max(0, Math.floor(top / height) - 4), lastRow = Math.ceil((top + high) / height) + 4;
  const firstColumn = Math.max(0, Math.floor(left / width) - 4), lastColumn = Math.min(last, Math.ceil((left + wide - picture.label * measures.rem) / width) + 4);
  const shown = pictured.numbers.slice(firstRow, lastRow + 1).filter((number) => !settings.quiz || run.table[number].fetched <= run.cycleOf(view.place));
  const rows = pictureRows(view, shown, firstRow, firstColumn, lastColumn);
  draw("picture-labels", rows.map((each) => each.label));
  draw("picture-rows", rows.map((each) => each.row));
  const heads = [element("div", { class: "corner" }, "instruction")];
  for (let column = firstColumn; column <= lastColumn; column += 1) {
    const cycle = run.first + column, now = column === view.place - 1, interrupt = run.places[column + 1].interrupts.length > 0;
    if (!now && !interrupt && (cycle % 5 !== 0 || Math.abs(column - view.place + 1) < 4)) continue;
    if (!now && column * width < left) continue; // (it would stand half under the labels)
    const title = "cycle " + cycle + (interrupt ? ": interrupt" : "");
    const text = (interrupt ? "!" : "") + (now || !interrupt ? cycle : "");
    const kinds = words("head", interrupt && "interrupt", now && "now");
    heads.push(element("div", { class: kinds, "data-go": cycle, style: "left:" + columnAt(column), title }, text));
  }
  draw("picture-heads", showsPath() ? [...heads, ...causeHeads(run, firstColumn, lastColumn)] : heads);
  draw("picture-path", showsPath() ? pathLines(run, firstRow, lastRow, firstColumn, lastColumn) : []);
  byId("picture-cursor").style.left = columnAt(view.place - 1);
  byId("picture-cursor").hidden = view.place === 0;
}

// What a label has room for, in characters: the address is left off where it would cut the statement. (A browser may draw letters wider.)
const mostRoom = 30;
function labelRoom() { return Math.min(mostRoom, Math.floor(18.5 * measures.rem / measures.letter)); }
function labelOf(number, pc, statement) {
  const gap = "\u00a0".repeat(Math.max(1, 5 - String(number).length));
  const whole = "#" + number + gap + hex(pc) + " " + statement;
  return whole.length <= labelRoom() || statement === hex(pc) ? whole : "#" + number + gap + statement;
}

// The rows as they were drawn last, by their numbers: one that is as it was is not described anew.
let drawnBefore = new Map();
function pictureRows(view, numbers, firstRow, firstColumn, lastColumn) {
  const { run } = view, now = run.cycleOf(view.place), drawn = new Map();
  numbers.forEach((number, k) => {
    const instruction = run.table[number], { fetched, left } = instruction;
    const end = left !== undefined && (!settings.quiz || left <= now) ? instruction.end : undefined;
    const from = Math.max(fetched, run.first + firstColumn), to = Math.min(left === undefined ? run.last : left, run.first + lastColumn);
    const sign = [firstRow + k, from, to, end, showsPath(), labelRoom()].join(), before = drawnBefore.get(number);
    drawn.set(number, before && before.sign === sign ? before : { sign, ...pictureRow(run, instruction, firstRow + k, from, to, end) });
  });
  drawnBefore = drawn;
  return [...drawn.values()];
}

// A row: its label, which stands in a box of its own, since one box that stays in view costs a step less than many; and its cells, which
// stand beside each other from the first that is drawn.
function pictureRow(run, instruction, k, from, to, end) {
  const { number, pc } = instruction, cells = [];
  for (let cycle = from; cycle <= to; cycle += 1) {
    const letter = letterOf(instruction, cycle), step = pathMark(number, cycle);
    const title = "#" + number + " in cycle " + cycle + ": " + letterWords[letter] + (step ? "; on the critical path: " + stepWords(step) : "");
    const kind = "cell " + cellClass(letter) + (step ? " on-path sort-" + sortOf(step.cause) : "");
    cells.push(span(kind, letter, { key: cycle, role: "cell", title, "data-cycle": cycle }));
  }
  const statement = run.statement(instruction).replace(/\s+/g, " "), id = "label-" + number, label = labelOf(number, pc, statement);
  return {
    label: element("div", { class: words("label", { squashed: "gone", trapped: "trap" }[end]), key: number, id, role: "rowheader", "data-number": number,
      title: hex(pc) + " " + statement, style: "top:" + k * picture.row + "rem;" + (smaller(label, labelRoom()) || "") }, label),
    row: element("div", { class: "row", key: number, role: "row", "aria-owns": id, "data-number": number,
      style: "top:" + (k + headRows()) * picture.row + "rem;padding-left:" + columnAt(from - run.first) }, ...cells),
  };
}

// A cell's tip says for what an instruction waits, worked out when the cell is pointed at.
function tellWait(view, cell) {
  const number = Number(cell.parentNode.dataset.number), cycle = Number(cell.dataset.cycle);
  cell.title = "In cycle " + cycle + ": " + instructionSentence(view.run, number, cycle - view.run.first + 1);
}

// Lines from the broadcasts of the followed instruction's producers to its issue.
function drawArrows(view) {
  const { run } = view, followed = run.table[view.followed], row = pictured.rows.get(view.followed), lines = [];
  const cycle = run.cycleOf(view.place), isKnown = (at) => at !== undefined && (!settings.quiz || at <= cycle);
  for (const { number } of row === undefined ? [] : followed.producers) {
    const from = pictured.rows.get(number), { broadcast } = run.table[number];
    if (from === undefined || !isKnown(broadcast)) continue;
    const to = isKnown(followed.issued) ? followed.issued : Math.max(broadcast + 1, Math.min(cycle, run.last));
    const x = (at) => picture.label + (at - run.first + 0.5) * picture.column, y = (k) => (k + headRows() + 0.5) * picture.row;
    lines.push(element("path", { class: "arrow", d: "M" + x(broadcast) + " " + (y(from) + 0.5) + " L" + x(to) + " " + (y(row) - 0.5), "data-from": number }));
  }
  const size = [byId("picture-space").style.width, byId("picture-space").style.height].map(parseFloat);
  draw("picture-arrows", lines.length ? [element("svg", { viewBox: "0 0 " + size.join(" "), style: "width:" + size[0] + "rem;height:" + size[1] + "rem" }, ...lines)] : []);
}

function showLegend() {
  const item = (kind, letter, word) => element("span", {}, element("b", { class: kind }, letter), " " + word);
  const items = Object.entries(letterWords).map(([letter, word]) => item(cellClass(letter), letter, word));
  draw("legend", [...items, item("interrupt", "!", "interrupt"), ...(showsPath() ? pathLegend() : [])]);
}

function cellClass(letter) {
  return { F: "f", D: "d", I: "i", "=": "e", "~": "r", B: "b", C: "c", T: "t", x: "x", ".": "w" }[letter];
}
// What the page says of the critical path: for what each event of the followed instruction waited last, the causes of all cycles, and the keys
// that go from an event to the one that it waited for, and back.

// In the quiz the path would say what comes.
function showsPath() { return settings.path && !settings.quiz; }

// It is worked out when it is asked for first.
function account() { return view.account || (view.account = new Account(run)); }

const eventNames = { lines: "write-back" };
const eventLetters = { fetch: "F", dispatch: "D", issue: "I", broadcast: "B", commit: "C", trap: "T" };
function eventName({ kind, number }) {
  const isTrap = kind === "commit" && number !== undefined && run.table[number].end === "trapped";
  return isTrap ? "trap" : eventNames[kind] || kind;
}

// The events of an instruction that the page knows, in their order.
function eventsOf(number) {
  const { path } = account(), it = run.table[number], start = path.starts.get(number), isLines = start !== undefined && start.kind === "lines";
  const stages = ["fetch", "dispatch", "issue", "broadcast"].map((kind) => path.event(kind, number));
  const end = it.end === "retired" || it.end === "trapped" ? [path.event("commit", number)] : [];
  const all = isLines ? [...stages, start, ...end] : [...stages, ...end, start];
  return all.filter((event) => event !== undefined && event.at !== undefined);
}

// An event as one of an instruction speaks of it: as its own, or by the number of the other instruction.
function eventWords(event, number) {
  const { kind, number: its } = event;
  if (kind === "interrupt") return "the interrupt";
  if (its === undefined) return kind === "commit" ? "an earlier step" : "an earlier " + eventName(event);
  return its === number ? "its " + eventName(event) : "the " + eventName(event) + " of #" + its;
}

function cyclesOf(event, wait) { return wait.event.at === undefined ? undefined : event.at - wait.event.at; }

// For what an event waited last, in a sentence.
function eventSentence(event) {
  const words = eventWords(event), wait = account().path.before(event), isFirst = event.at >= run.first && run.first === 0;
  const said = words[0].toUpperCase() + words.slice(1) + " in cycle " + event.at + ": ";
  if (!wait) return said + (isFirst ? "the first event of the run." : "what it waited for came before this page.");
  const cycles = cyclesOf(event, wait), since = wait.event.at === undefined ? " before this page" : " in cycle " + wait.event.at;
  const count = cycles === undefined ? "." : ", " + counted(cycles, "cycle") + ".";
  return said + "it waited last for " + eventWords(wait.event, event.number) + since + ": " + account().causeOf(event) + count;
}

function badge(cause) {
  const sort = sortOf(cause), [letter, words] = sorts[sort];
  return element("b", { class: "badge sort-" + sort, title: words }, letter);
}

// A row for each event of the followed instruction.
function showWaits(view) {
  const it = run.table[view.followed];
  note("waits-note", it ? called(run, view.followed) : "follow an instruction: a click on it, or j");
  fill("waits", it ? eventsOf(view.followed).map((event) => waitRow(event)) : [], 6, 6);
}

function waitRow(event) {
  const { path, marked } = account(), wait = path.before(event), isOn = marked.has(event.name), name = eventName(event), letter = eventLetters[name];
  const head = element("th", { scope: "row", class: letter ? "cell " + cellClass(letter) : "", title: name }, letter || name);
  const on = element("td", { title: isOn ? "on the critical path" : "not on the critical path" }, isOn ? "on" : "");
  if (!wait) return row({}, head, event.at, wide(event.at > 0 ? "not on this page" : "nothing: the first event"), "", "", on);
  const cause = account().causeOf(event), cycles = cyclesOf(event, wait), { event: other } = wait;
  const words = eventWords(other, event.number) + (other.at === undefined ? "" : " in " + other.at);
  const button = element("button", { class: "tag", type: "button", "data-event": event.name, title: "go there (e): " + words, tabindex: -1 }, words);
  const why = element("td", {}, badge(cause), " " + cause), count = cycles === undefined ? "" : cycles;
  return row({ class: isOn ? "on-path" : "" }, head, event.at, wide(path.isShown(other) ? button : words), why, count, on);
}

// How many of the page's cycles each cause has.
function showPath() {
  const { end, shares } = account(), all = run.last + 1 - run.first;
  note("path-note", end === undefined ? "no step here" : "to " + eventWords(end) + " in " + end.at);
  const from = "The page begins with cycle " + run.first + ": the path is counted from there, and what came before is not known.";
  note("path-words", run.first > 0 ? from : "");
  const share = (cycles) => all === 0 ? "-" : percent(cycles, all) + "%";
  fill("causes", shares.map(({ cause, cycles }) => row({}, element("td", {}, badge(cause)), heading(cause), cycles, share(cycles),
    wide(span("bar sort-" + sortOf(cause), "", { style: "width:" + share(cycles) })))), 6, 5);
}

// The event at which the reader is: the one that a key went to, else the last one of the followed instruction up to the cursor.
function eventNow() {
  const cycle = run.cycleOf(view.place), { event, followed } = view;
  if (event && event.at === cycle && event.number === followed) return event;
  Object.assign(view, { event: undefined, trail: [] });
  const known = followed === undefined ? [] : eventsOf(followed).filter((each) => each.at <= cycle);
  return known.sort((a, b) => a.at - b.at).pop();
}

// What a key went to, in words.
function toldEvent() {
  const now = view.event && eventNow();
  return now && now === view.event ? eventSentence(now) + " " : "";
}

function goToEvent(event) {
  view.event = event;
  view.followed = event.number;
  go(event.at - run.first + 1);
}

// Goes to the event that an event waited for last.
function goBefore(event) {
  const { path } = account(), wait = path.before(event);
  view.event = event;
  if (!wait || !path.isShown(wait.event)) return showFollowed();
  view.trail = [...(view.trail || []), event];
  goToEvent(wait.event);
}

// The key there: where no instruction is followed, first to the last event of the path up to the cursor.
function stepBefore() {
  const now = eventNow(), last = account().eventUpTo(run.cycleOf(view.place));
  if (now) return goBefore(now);
  if (last) return goToEvent(last);
  say("No event of the critical path comes up to this cycle.");
}

// And back: to the event from which the reader came, else to that of the path which waited for this one.
function stepAfter() {
  const now = eventNow(), back = (view.trail || []).pop() || (now && account().eventAfter(now));
  if (back) return goToEvent(back);
  say("No event waited for this one on the critical path.");
}

// A click on what an event waited for.
function goFromRow(name) {
  eventNow();
  goBefore(account().path.events.get(name));
}
// The critical path through the picture: a ring around each event on it, a line from event to event, and above them the cause of each cycle.

// The step of the path that ends with an instruction's event in a cycle.
function pathMark(number, cycle) { return showsPath() ? account().cells.get(number + " " + cycle) : undefined; }

function stepWords({ event, wait, cause }) {
  if (!wait) return "the first event";
  return eventName(event) + " waited last for " + eventWords(wait.event, event.number) + ": " + cause;
}

// The cause of each cycle that is drawn, by its letter.
function causeHeads(run, firstColumn, lastColumn) {
  const heads = [element("div", { class: "corner", key: "causes" }, "critical path")];
  for (let column = firstColumn; column <= lastColumn; column += 1) {
    const cycle = run.first + column, step = account().stepIn(cycle), cause = step ? step.cause : afterLast, sort = sortOf(cause);
    const title = "cycle " + cycle + ": " + cause + (step && step.event.number !== undefined ? ", #" + step.event.number : "");
    const place = { key: cycle, "data-go": cycle, style: "left:" + columnAt(column), title };
    heads.push(element("div", { class: "cause badge sort-" + sort, ...place }, sorts[sort][0]));
  }
  return heads;
}

// The row of an event; an interrupt and a hidden instruction have none.
function rowOf(event) { return pictured.rows.get(event.number); }

// A line for each step that is in view, below the letters: in the cycle of the event that was waited for to the row of the one that waited, and
// along to it. Of a step between a row and none, as of an interrupt, the row's part is drawn.
function pathLines(run, firstRow, lastRow, firstColumn, lastColumn) {
  if (lastColumn < firstColumn) return []; // (the panel is left out)
  const first = run.first + firstColumn, last = run.first + lastColumn, lines = [];
  const wide = (lastColumn - firstColumn + 1) * picture.column, high = (lastRow - firstRow + 1) * picture.row;
  const x = (cycle) => ((cycle - first + 0.5) * picture.column).toFixed(2), y = (k) => ((k - firstRow + 0.92) * picture.row).toFixed(2);
  for (const { event, wait, from, to, cause } of account().steps) {
    if (to < first || from > last || !wait) continue;
    const own = rowOf(event), other = account().path.isShown(wait.event) ? rowOf(wait.event) : undefined;
    const end = own === undefined ? other : own, start = other === undefined ? own : other;
    if (end === undefined || Math.max(start, end) < firstRow || Math.min(start, end) > lastRow) continue;
    lines.push(element("path", { class: "step sort-" + sortOf(cause), d: "M" + x(from) + " " + y(start) + "V" + y(end) + "H" + x(to) }));
  }
  const top = (firstRow + headRows()) * picture.row, place = "left:" + columnAt(firstColumn) + ";top:" + top + "rem;width:" + wide + "rem;height:" + high + "rem";
  return [element("svg", { viewBox: "0 0 " + wide + " " + high, style: place }, ...lines)];
}

// The sorts of causes that the page's cycles have.
function pathLegend() {
  const known = new Set(account().shares.filter(({ cycles }) => cycles > 0).map(({ cause }) => sortOf(cause)));
  const item = (key, kind, letter, word) => element("span", { key }, element("b", { class: kind }, letter), " " + word);
  const own = Object.entries(sorts).filter(([sort]) => known.has(sort)), badges = own.map(([sort, [letter, word]]) => item(sort, "badge sort-" + sort, letter, word));
  return [item("event", "on-path", "F", "on the critical path, which waited for"), ...badges];
}
// Jumps: to the next cycle, or the one before, in which something happens; to an address, a register; and breakpoints.

const tests = {
  retirement: (here) => here.ended.some((each) => each.end === "retired"),
  wrong: (here) => here.wrong !== undefined,
  trap: (here) => here.ended.some((each) => each.end === "trapped"),
  interrupt: (here) => here.interrupts.length > 0,
  stall: (here) => here.stall !== undefined,
  access: (here) => here.access !== undefined,
  miss: (here) => isMiss(here.access),
  register: (here) => here.ended.some((each) => each.written && (chosenRegister() || each.written.register) === each.written.register),
  stored: (here) => here.stored.some((store) => view.address === undefined || (store.address <= view.address + 3 && view.address < store.address + store.bytes.length)),
  breakpoint: (here) => here.ended.some((each) => each.end === "retired" && view.breakpoints.has(each.pc)),
};

const testNames = {
  wrong: () => "wrong prediction", register: () => "write of " + (chosenRegister() ? registerName(chosenRegister()) : "a register"),
  stored: () => "store" + (view.address === undefined ? "" : " to " + hex(view.address)), breakpoint: () => "breakpoint that retires",
  access: () => "access of the cache", miss: () => "miss of the cache",
};

// The register that was typed, else that of the followed instruction.
function chosenRegister() {
  const followed = run.table[view.followed];
  return view.register || (followed && followed.target) || 0;
}

function jump(what, way) {
  const test = tests[what] || ((here) => here.stall === what);
  for (let place = view.place + way; place > 0 && place <= lastPlace; place += way) if (test(run.places[place])) return go(place);
  say("No " + (testNames[what] ? testNames[what]() : tests[what] ? what : "stall " + what) + (way > 0 ? " after" : " before") + " this cycle.");
}

function registerCalled(text) {
  const named = abiNames.indexOf(text === "fp" ? "s0" : text);
  if (named >= 0) return named;
  return /^x([12]?[0-9]|3[01])$/.test(text) ? Number(text.slice(1)) : undefined;
}

// A register's name: the next cycle that writes it. An address: the next cycle that fetches it, and its place in source and memory.
function goToTyped(text) {
  const register = registerCalled(text.toLowerCase());
  if (register === undefined) return goToAddress(text);
  view.register = register;
  jump("register", 1);
}

function goToAddress(text) {
  const address = /^(0x)?[0-9a-f]{1,8}$/i.test(text) ? parseInt(text.replace(/^0x/i, ""), 16) : -1;
  if (address < 0) return say("An address has up to eight hexadecimal digits, and a register a name such as x5 or t0.");
  view.address = address;
  for (let k = 1; k <= lastPlace; k += 1) {
    const place = (view.place + k - 1) % lastPlace + 1;
    const found = run.places[place].phases.fetch.find((number) => run.table[number].pc === address);
    if (found !== undefined) { view.followed = found; return go(place); }
  }
  show();
  say("No cycle of this page fetches " + hex(address) + ".");
}

// Sets a breakpoint where the followed instruction stands, or takes it away. Play stops where such an instruction retires.
function turnBreakpoint() {
  const followed = run.table[view.followed], at = followed ? followed.pc : view.address;
  if (at === undefined) return say("A breakpoint stands at the followed instruction: press j, or type an address.");
  const had = view.breakpoints.delete(at);
  if (!had) view.breakpoints.add(at);
  show();
  say("Breakpoint " + (had ? "taken from " : "at ") + hex(at) + ". Play stops there, and B goes to where it retires next.");
}
// A lecture: a script of stops, and a quiz on what the next cycle does.

// The stops: a line for each, or `|` between them in the address: a cycle, the number of the followed instruction after `#` (may be left
// out), and a sentence.
function readStops(text) {
  const found = text.split(/[\n|]/).map((line) => /^\s*([0-9]+)\s*(?:#([0-9]+))?\s*(.*)$/.exec(line)).filter((each) => each);
  return found.map(([, cycle, followed, sentence]) => ({ cycle: Number(cycle), followed: followed === undefined ? undefined : Number(followed), sentence: sentence.trim() }));
}

const lecture = { stops: [], at: -1 };

function goToStop(way) {
  const { stops } = lecture, next = lecture.at + way;
  if (!stops.length) return say("This page has no stops: its address may give them, as in #notes=3 %230 The division issues.|8 It is broadcast.");
  if (next < 0 || next >= stops.length) return say(way > 0 ? "This is the last stop." : "This is the first stop.");
  lecture.at = next;
  const { cycle, followed } = stops[next];
  view.followed = run.table[followed] ? followed : undefined;
  go(cycle - run.first + 1);
  showStop();
}

function showStop() {
  const stop = lecture.stops[lecture.at];
  byId("stop").hidden = !stop;
  if (stop) note("stop", lecture.at + 1 + " of " + lecture.stops.length + ", cycle " + stop.cycle + ": " + stop.sentence);
}

// The stop at which an address stands, so that a page that is loaded anew goes on from there.
function findStop(cycle, followed) {
  lecture.at = lecture.stops.findIndex((stop) => stop.cycle === cycle && stop.followed === followed);
  showStop();
}

// The quiz: the next cycle is hidden until Enter. Each question is made from the states: its text, and its answer as words.
const quiz = { asked: 0, right: 0, question: undefined, answered: false };

function quizCount() { return quiz.right + " of " + quiz.asked + " right"; }

function numbersWords(numbers) { return numbers.length ? numbers.join(" ") : "none"; }

function questionAt(place) {
  const here = run.places[place + 1], now = run.at(place), next = run.at(place + 1), cycle = run.cycleOf(place + 1), made = [];
  const retired = here.ended.filter((each) => each.end === "retired").map((each) => each.number);
  const written = next.state.registers.findIndex((value, register) => value !== now.state.registers[register]);
  const numbers = " (numbers, or none)";
  if (now.state.reorder_buffer.some((entry) => entry.issued === undefined)) made.push({ text: "Which instructions issue in cycle " + cycle + "?" + numbers, answer: numbersWords(here.phases.issue) });
  if (written > 0) made.push({ text: "What does " + registerName(written) + " hold after cycle " + cycle + "? (hexadecimal)", answer: hex(next.state.registers[written]), isWord: true });
  if (now.state.reorder_buffer.length) made.push({ text: "Which entries of the reorder buffer retire in cycle " + cycle + "?" + numbers, answer: numbersWords(retired) });
  if (now.state.reorder_buffer.some(isRunning)) made.push({ text: "Whose results are broadcast in cycle " + cycle + "?" + numbers, answer: numbersWords(here.phases.broadcast) });
  if (now.state.fetch_buffer.length) made.push({ text: "Which instructions are dispatched in cycle " + cycle + "?" + numbers, answer: numbersWords(here.phases.dispatch) });
  if (!made.length) made.push({ text: "Which instructions are fetched in cycle " + cycle + "?" + numbers, answer: numbersWords(here.phases.fetch) });
  return made[place % made.length];
}

function isAnswer(question, text) {
  if (question.isWord) return /^(0x)?[0-9a-f]{1,8}$/i.test(text) && parseInt(text.replace(/^0x/i, ""), 16) === parseInt(question.answer, 16);
  const said = (text.match(/[0-9]+/g) || []).map(Number).sort((a, b) => a - b).join(" ");
  return said === "" ? question.answer === "none" && /^(none|-|no)$/i.test(text) : said === question.answer;
}

function turnQuiz() {
  const count = quizCount();
  settings.quiz = !settings.quiz;
  byId("quiz").hidden = !settings.quiz;
  Object.assign(quiz, { asked: 0, right: 0 });
  showPanels();
  showLegend();
  sizePicture(run);
  show();
  if (settings.quiz) { ask(); return byId("answer").focus(); }
  document.activeElement.blur();
  say("Quiz: " + count + ".");
}

// Asks what the cycle after the cursor's does, however the cursor came there.
function ask() {
  if (view.place >= lastPlace) {
    note("question", "The page ends here: " + quizCount() + ".");
    quiz.question = undefined;
    return;
  }
  Object.assign(quiz, { question: questionAt(view.place), answered: false });
  note("question", quiz.question.text);
  byId("answer").value = "";
  note("verdict", quizCount());
}

// Enter: the first time it answers, the second time the next cycle is shown, with its question.
function answer() {
  if (!quiz.question) return;
  if (quiz.answered) return go(view.place + 1);
  const right = isAnswer(quiz.question, byId("answer").value.trim());
  Object.assign(quiz, { answered: true, asked: quiz.asked + 1, right: quiz.right + (right ? 1 : 0) });
  note("verdict", (right ? "Right" : "No: " + quiz.question.answer) + ". " + quizCount() + ". Enter: the next cycle.");
}
// A panel, or the page, as a picture for a slide: an SVG of rectangles and texts that stand where the browser has them, or a PNG of it.

function svgText(text) { return text.replace(/[\u0000- ]+/g, " ").replace(/[&<>"]/g, (sign) => "&#" + sign.charCodeAt(0) + ";"); }
function svgBox(box) { return `x="${box.left.toFixed(2)}" y="${box.top.toFixed(2)}" width="${box.width.toFixed(2)}" height="${box.height.toFixed(2)}"`; }
function isSeen(colour) { return colour !== "transparent" && !/, 0\)$/.test(colour); }

// The lines of a text node, each with its box.
function linesOf(node) {
  const found = [], range = document.createRange();
  for (const word of node.data.matchAll(/\S+/g)) {
    range.setStart(node, word.index);
    range.setEnd(node, word.index + word[0].length);
    const box = range.getBoundingClientRect(), last = found[found.length - 1];
    if (box.width === 0) continue;
    if (last && Math.abs(last.top - box.top) < 2) Object.assign(last, { text: node.data.slice(last.from, word.index + word[0].length), width: box.right - last.left });
    else found.push({ text: word[0], from: word.index, left: box.left, top: box.top, width: box.width, height: box.height });
  }
  return found;
}

function drawnText(node, style) {
  const kind = `font-size="${parseFloat(style.fontSize)}" font-weight="${style.fontWeight}" font-style="${style.fontStyle}" fill="${style.color}"`;
  return linesOf(node).map((line) => `<text x="${line.left.toFixed(2)}" y="${(line.top + 0.8 * line.height).toFixed(2)}" ` +
    `textLength="${line.width.toFixed(2)}" lengthAdjust="spacingAndGlyphs" xml:space="preserve" ${kind}>${svgText(line.text)}</text>`).join("");
}

function drawnBox(style, box, hasOutline) {
  let text = isSeen(style.backgroundColor) ? `<rect ${svgBox(box)} fill="${style.backgroundColor}"/>` : "";
  const line = (x1, y1, x2, y2, width, colour) => `<line x1="${x1}" y1="${y1}" x2="${x2}" y2="${y2}" stroke="${colour}" stroke-width="${width}"/>`;
  const [top, right, bottom, left] = ["Top", "Right", "Bottom", "Left"].map((side) => style["border" + side + "Style"] === "none" ? 0 : parseFloat(style["border" + side + "Width"]));
  if (top) text += line(box.left, box.top + top / 2, box.right, box.top + top / 2, top, style.borderTopColor);
  if (bottom) text += line(box.left, box.bottom - bottom / 2, box.right, box.bottom - bottom / 2, bottom, style.borderBottomColor);
  if (left) text += line(box.left + left / 2, box.top, box.left + left / 2, box.bottom, left, style.borderLeftColor);
  if (right) text += line(box.right - right / 2, box.top, box.right - right / 2, box.bottom, right, style.borderRightColor);
  if (hasOutline && style.outlineStyle !== "none" && parseFloat(style.outlineWidth) > 0) {
    text += `<rect ${svgBox(box)} fill="none" stroke="${style.outlineColor}" stroke-width="${style.outlineWidth}"${style.outlineStyle === "solid" ? "" : ' stroke-dasharray="3 2"'}/>`;
  }
  return text;
}

function drawnElement(each) {
  if (each.tagName === "svg") return drawnLines(each);
  const style = getComputedStyle(each), box = each.getBoundingClientRect();
  const isEmpty = (box.width === 0 || box.height === 0) && !each.firstElementChild;
  if (style.display === "none" || style.visibility === "hidden" || isEmpty) return "";
  const layer = (child) => child.nodeType === 1 ? parseInt(getComputedStyle(child).zIndex, 10) || 0 : 0;
  const children = [...each.childNodes].sort((a, b) => layer(a) - layer(b));
  const inside = children.map((child) => child.nodeType === 3 ? drawnText(child, style) : child.nodeType === 1 ? drawnElement(child) : "").join("");
  const clipped = style.overflowX === "visible" ? inside
    : inside && `<svg ${svgBox(box)} viewBox="${[box.left, box.top, box.width, box.height].join(" ")}">${inside}</svg>`;
  return drawnBox(style, box, each !== document.activeElement) + clipped;
}

// The lines from producers and along the critical path are drawn already.
function drawnLines(svg) {
  const box = svg.getBoundingClientRect();
  const drawn = (path, { stroke, strokeWidth }) => `<path d="${path.getAttribute("d")}" fill="none" stroke="${stroke}" stroke-width="${parseFloat(strokeWidth)}"/>`;
  const paths = [...svg.querySelectorAll("path")].map((path) => drawn(path, getComputedStyle(path)));
  return `<svg ${svgBox(box)} viewBox="${svg.getAttribute("viewBox")}">${paths.join("")}</svg>`;
}

function savedName(each) { return runName() + "-" + (each.dataset.panel || "page") + "-" + run.cycleOf(view.place); }

function svgOf(each) {
  const box = each.getBoundingClientRect(), style = getComputedStyle(document.body);
  const title = (each.dataset.panel ? each.querySelector("h2").textContent : "The page") + " of " + runName() + " after cycle " + run.cycleOf(view.place);
  return `<svg xmlns="http://www.w3.org/2000/svg" width="${box.width}" height="${box.height}" viewBox="${[box.left, box.top, box.width, box.height].join(" ")}" ` +
    `font-family="${svgText(style.fontFamily)}" role="img"><title>${svgText(title)}</title><desc>${svgText(byId("machine").textContent + ". " + byId("happened").textContent)}</desc>` +
    `<rect ${svgBox(box)} fill="${style.backgroundColor}"/>${drawnElement(each)}</svg>`;
}

function give(blob, name) {
  const link = document.createElement("a");
  link.href = URL.createObjectURL(blob);
  link.download = name;
  link.click();
  setTimeout(() => URL.revokeObjectURL(link.href), 10000);
  say("Saved as " + name + ".");
}

// Saves the panel that has the focus, else the page.
function save(asImage) {
  const each = document.activeElement.closest("[data-panel]") || document.body, name = savedName(each), svg = svgOf(each);
  if (!asImage) return give(new Blob([svg], { type: "image/svg+xml" }), name + ".svg");
  const image = new Image(), canvas = document.createElement("canvas");
  image.onload = () => {
    Object.assign(canvas, { width: 2 * image.width, height: 2 * image.height });
    canvas.getContext("2d").drawImage(image, 0, 0, canvas.width, canvas.height);
    canvas.toBlob((blob) => give(blob, name + ".png"), "image/png");
  };
  image.onerror = () => say("This browser makes no PNG of it; v saves an SVG.");
  image.src = "data:image/svg+xml;charset=utf-8," + encodeURIComponent(svg);
}
// Two runs side by side: this page and another in two frames, with one cursor. Where one goes the other follows, to the same cycle or to
// as many retired instructions. The frames and the page around them speak by messages, since files are of different origins.

const framed = window.parent !== window && new URLSearchParams(location.hash.slice(1)).has("side");

// What the page shows that may differ: texts, and what entries of the reorder buffer have come to.
function factsOf(view) {
  const facts = Object.fromEntries(view.line.state.reorder_buffer.map((_, k) => entryFact(view, k)));
  for (const each of document.querySelectorAll("[data-fact]")) facts[each.dataset.fact] = each.textContent;
  return facts;
}

// What a frame tells the page around it: where it stands, and what it shows that may differ.
function tell(asked) {
  if (!framed) return;
  window.parent.postMessage({
    rv_sim: "shown", asked: Boolean(asked), cycle: run.cycleOf(view.place), retired: run.places[view.place].retired, first: run.first, last: run.last,
    facts: factsOf(view),
  }, "*");
}

function tellPair(wish) { if (framed) window.parent.postMessage({ rv_sim: wish }, "*"); }

// Marks what differs from the other run.
let othersFacts = null;
function markDifferences() {
  if (!othersFacts) return;
  const facts = factsOf(view);
  for (const each of document.querySelectorAll("[data-fact], [data-entry]")) {
    const name = each.dataset.fact || "entry " + each.dataset.entry, other = othersFacts[name];
    each.classList.toggle("differs", (other === undefined ? "00000000" : other) !== facts[name]);
  }
}

// The first place with as many retired instructions, else the last one before it.
function placeOfRetired(retired) {
  const place = run.places.findIndex((here) => here.retired >= retired);
  return place < 0 ? lastPlace : place;
}

function hear(event) {
  const said = event.data;
  if (event.source !== window.parent || !said || typeof said !== "object") return;
  if (said.rv_sim === "go" && Number.isInteger(said.cycle)) go(said.cycle - run.first + 1, true);
  if (said.rv_sim === "retired" && Number.isInteger(said.retired)) go(placeOfRetired(said.retired), true);
  if (said.rv_sim === "differ" && said.facts && typeof said.facts === "object") { othersFacts = said.facts; markDifferences(); }
}

// The page around the frames.
const pair = { frames: [], shown: [], byRetired: false, missing: "" };

function besideName() { return framed ? null : new URLSearchParams(location.hash.slice(1)).get("beside"); }

function frameOf(address, title) {
  const frame = document.createElement("iframe");
  Object.assign(frame, { src: address, title });
  return frame;
}

// The address of the page that was typed, and its name; what is no address is no page.
function pageNamed(typed) {
  try {
    const { href, pathname } = new URL(typed.split("#")[0], location.href), name = pathname.split("/").pop();
    return { href, name: /%(?![0-9a-f]{2})/i.test(name) ? name : decodeURIComponent(name) };
  } catch {
    pair.missing = typed;
    return { href: "about:blank", name: typed };
  }
}

function startPair(other) {
  const words = new URLSearchParams(location.hash.slice(1));
  words.delete("beside");
  words.set("side", "");
  const own = location.href.split("#")[0] + "#" + words, that = pageNamed(other);
  document.body.className = "pair";
  pair.frames = [frameOf(own, "this run"), frameOf(that.href + "#" + words, "the other run")];
  // A page of a run has said where it stands by the time it is loaded.
  pair.frames[1].addEventListener("load", () => setTimeout(() => { pair.missing = that.name; showNote(); }, 500));
  byId("sides").replaceChildren(...pair.frames);
  byId("pair").hidden = false;
  document.title = runName() + " beside " + that.name;
  window.addEventListener("message", hearFrame);
  window.addEventListener("hashchange", () => location.reload());
  byId("pair-slider").addEventListener("input", (event) => pair.frames.forEach((frame) => frame.contentWindow.postMessage({ rv_sim: "go", cycle: Number(event.target.value) }, "*")));
  byId("pair-by").addEventListener("change", (event) => { pair.byRetired = event.target.checked; followLeader(0); });
  pair.frames[0].addEventListener("load", () => pair.frames[0].contentWindow.focus());
}

function showNote() {
  const words = pair.shown.filter((each) => each !== undefined).map((each) => "cycle " + each.cycle + ", " + each.retired + " retired");
  if (pair.missing && !pair.shown[1]) words.push(pair.missing + " is no page of a run; 1: this run alone");
  byId("pair-note").textContent = words.join(" | ");
}

function followLeader(k) {
  const { cycle, retired } = pair.shown[k] || {};
  if (cycle === undefined) return;
  pair.frames[1 - k].contentWindow.postMessage(pair.byRetired ? { rv_sim: "retired", retired } : { rv_sim: "go", cycle }, "*");
}

function hearFrame(event) {
  const k = pair.frames.findIndex((frame) => frame.contentWindow === event.source), said = event.data;
  if (k < 0 || !said || typeof said !== "object") return;
  if (said.rv_sim === "turn") { pair.byRetired = byId("pair-by").checked = !pair.byRetired; return followLeader(k); }
  if (said.rv_sim === "other") return pair.frames[1 - k].contentWindow.focus();
  if (said.rv_sim === "alone") return showAlone(k);
  if (said.rv_sim !== "shown") return;
  pair.shown[k] = said;
  if (!said.asked) followLeader(k);
  const both = pair.shown.filter((each) => each !== undefined), slider = byId("pair-slider");
  Object.assign(slider, { min: Math.min(...both.map((each) => each.first)) - 1, max: Math.max(...both.map((each) => each.last)) });
  slider.value = said.cycle;
  showNote();
  if (both.length === 2) pair.frames.forEach((frame, j) => frame.contentWindow.postMessage({ rv_sim: "differ", facts: pair.shown[1 - j].facts }, "*"));
}

// One of the two without the other, where it stands.
function showAlone(k) {
  const [file, hash] = pair.frames[k].src.split("#"), words = new URLSearchParams(hash);
  words.delete("side");
  if (pair.shown[k]) words.set("cycle", pair.shown[k].cycle);
  location.href = file + "#" + words;
}

// In a frame: by cycle or by retired instructions. In a page alone: asks for the other page.
function turnPair() {
  if (framed) return tellPair("turn");
  byId("beside").hidden = false;
  byId("other").focus();
}
// The cursor: buttons, keys, the address of the page, and play.

const settings = { abi: false, speed: 2, size: 1, hide: false, textbook: false, path: false, quiz: false, without: new Set() };
const switches = ["abi", "hide", "textbook", "path"];
const run = new Run(byId("run").textContent);
const view = { run, place: 0, followed: undefined, address: undefined, register: 0, breakpoints: new Set(), line: undefined, before: undefined };
const lastPlace = run.places.length - 1;
let playing = null, writing = null;

function show() {
  const began = performance.now();
  view.line = run.at(view.place);
  view.before = view.place > 0 ? run.at(view.place - 1) : undefined;
  const cycle = run.cycleOf(view.place);
  document.documentElement.dataset.cycle = cycle;
  byId("slider").value = cycle;
  byId("slider").setAttribute("aria-valuetext", view.place === 0 ? "before the first cycle" : "cycle " + cycle);
  if (document.activeElement !== byId("cycle")) byId("cycle").value = cycle;
  note("happened", cycleSentence(run, view.place));
  showAll(view);
  showFollowed();
  document.documentElement.dataset.drawn = (performance.now() - began).toFixed(1);
}

function showFollowed() {
  const followed = view.followed;
  const told = toldEvent(), ask = told ? "" : "Follow an instruction: click on it, or press j.";
  say(told + (followed === undefined ? ask : instructionSentence(run, followed, view.place) + relatives(followed)));
  markFollowed(view);
  drawArrows(view);
}

function relatives(number) {
  const { producers } = run.table[number], isKnown = (each) => !settings.quiz || run.table[each].dispatched <= run.cycleOf(view.place);
  const consumers = run.table[number].consumers.filter(isKnown);
  const some = (numbers) => listed(numbers.slice(0, 6).map((each) => "#" + each));
  const from = producers.map((each) => "#" + each.number + " (" + registerName(each.register) + ")");
  return (from.length ? " Producers: " + listed(from) + "." : "") + (consumers.length ? " Consumers: " + some(consumers) + "." : "");
}

// Goes to a place; the page around a frame asks for one without being told so as if it were the reader's wish.
function go(place, asked) {
  view.place = Math.max(0, Math.min(lastPlace, place));
  show();
  if (settings.quiz) ask();
  tell(asked);
  clearTimeout(writing);
  writing = setTimeout(writeAddress, 200);
}

// Goes to a cycle that was typed: a fraction is cut off, and what is no number leaves the cursor where it is. The box has the cycle then.
function goToCycle(text) {
  if (text !== "") go(Math.trunc(Number(text)) - run.first + 1);
  byId("cycle").value = run.cycleOf(view.place);
}

// The cursor's cycle, the followed instruction and what is shown stand in the page's address, so that a lecture can point to them.
function addressWords() {
  const words = new URLSearchParams(location.hash.slice(1));
  for (const name of ["cycle", "follow", ...switches, "size", "without", "address"]) words.delete(name);
  words.set("cycle", run.cycleOf(view.place));
  if (view.followed !== undefined) words.set("follow", view.followed);
  for (const name of switches) if (settings[name]) words.set(name, "");
  if (settings.size !== 1) words.set("size", settings.size);
  if (settings.without.size) words.set("without", [...settings.without].join(","));
  return words.toString().replace(/=(?=&|$)/g, "");
}

// A browser that was asked too often refuses for a while (WebKit after 100 times in 10 seconds): then it is asked again a second later.
function writeAddress() {
  clearTimeout(writing);
  try { history.replaceState(null, "", "#" + addressWords()); } catch { writing = setTimeout(writeAddress, 1000); }
}

// Opens another run beside this one, which stays at its cursor.
function openBeside(name) {
  writeAddress();
  location.hash = addressWords() + "&beside=" + encodeURIComponent(name);
}

function readAddress() {
  const words = new URLSearchParams(location.hash.slice(1));
  if (besideName()) return location.reload();
  const number = (name) => /^-?[0-9]+$/.test(words.get(name) || "") ? Number(words.get(name)) : undefined;
  const cycle = number("cycle"), followed = number("follow"), at = words.get("address"), size = Number(words.get("size"));
  view.followed = run.table[followed] ? followed : undefined;
  view.address = at && /^[0-9a-f]{1,8}$/i.test(at) ? parseInt(at, 16) : undefined;
  for (const name of switches) settings[name] = words.has(name);
  if (size > 0) sizeType(size);
  settings.without = new Set((words.get("without") || (framed ? framedWithout : "")).split(",").filter((name) => panelNames().includes(name)));
  lecture.stops = readStops(words.get("notes") || byId("notes").textContent);
  findStop(cycle, view.followed);
  view.place = Math.max(0, Math.min(lastPlace, cycle === undefined ? 1 : cycle - run.first + 1));
  settle();
}

// Beside another run there is room for a few panels.
const framedWithout = "source,fetch,predictor,stores,stations,units,bus,csrs,cache,accesses,memory";

// After a change of what is shown.
function settle() {
  for (const name of switches) byId(name).checked = settings[name];
  showPanels();
  showLegend();
  drawSwitches();
  sizePicture(run);
  show();
  tell(true);
}

function turn(name) {
  settings[name] = !settings[name];
  settle();
  writeAddress();
}

function resize(factor) { sizeType(factor === 1 ? 1 : settings.size * factor); settle(); writeAddress(); say("Size of type: " + Math.round(100 * settings.size) + "%."); }

function say(text) { note("following", text); }

function follow(number) {
  view.followed = run.table[number] ? number : undefined;
  if (showsPath()) showWaits(view);
  scrollPicture(view);
  drawPicture(view);
  showPredictor(view);
  showFollowed();
  writeAddress();
}

function followNext(way) {
  const numbers = view.line.in_flight;
  if (view.followed === undefined && numbers.length) return follow(numbers[way > 0 ? 0 : numbers.length - 1]);
  if (view.followed === undefined) return follow(Math.max(run.firstNumber, run.places[view.place].fetchedBefore - 1));
  const last = settings.quiz ? run.places[view.place].fetchedBefore : run.table.length;
  follow(Math.max(run.firstNumber, Math.min(last - 1, view.followed + way)));
}

function isStopped() { return view.place === lastPlace || (view.breakpoints.size > 0 && tests.breakpoint(run.places[view.place])); }

function play(on) {
  clearInterval(playing);
  playing = on ? setInterval(() => { if (view.place < lastPlace) go(view.place + 1); if (isStopped()) play(false); }, 1000 / settings.speed) : null;
  byId("play").setAttribute("aria-pressed", String(Boolean(on)));
  note("play", on ? "pause" : "play");
}

function openPart(id, button) {
  const text = byId(id);
  text.hidden = !text.hidden;
  byId(button).setAttribute("aria-expanded", String(!text.hidden));
  show();
}
function showKeys() { openPart("keys", "help"); }
function showSwitches() {
  openPart("switches", "panels");
  if (!byId("switches").hidden) byId("switches").querySelector("input").focus();
}

function speed(factor) {
  settings.speed = Math.max(0.5, Math.min(32, settings.speed * factor));
  if (playing) play(true);
  say(settings.speed + " cycles a second.");
}

const steps = {
  first: () => go(0), back: () => go(view.place - 1), on: () => go(view.place + 1), last: () => go(lastPlace),
  previous: () => jump(byId("what").value, -1), next: () => jump(byId("what").value, 1),
};

const keys = {
  ArrowLeft: steps.back, ArrowRight: steps.on, Home: steps.first, End: steps.last,
  PageUp: () => go(view.place - 10), PageDown: () => go(view.place + 10),
  " ": () => play(!playing), "+": () => speed(2), "-": () => speed(0.5), n: steps.next, N: steps.previous,
  j: () => followNext(1), k: () => followNext(-1), Escape: () => follow(undefined), "?": showKeys,
  a: () => turn("abi"), h: () => turn("hide"), o: () => turn("textbook"), g: () => byId("cycle").select(), d: () => byId("address").select(),
  "]": () => resize(1.15), "[": () => resize(1 / 1.15), "0": () => resize(1), p: showSwitches,
  b: turnBreakpoint, B: () => jump("breakpoint", 1), l: () => turn("path"), e: stepBefore, E: stepAfter,
  ".": () => goToStop(1), ",": () => goToStop(-1), q: turnQuiz,
  v: () => save(false), V: () => save(true), "2": turnPair, "3": () => tellPair("other"), "1": () => tellPair("alone"),
};
for (const [key, what] of Object.entries({ r: "retirement", w: "wrong", t: "trap", i: "interrupt", s: "stall", c: "access", m: "miss", x: "register", y: "stored" })) {
  keys[key] = () => jump(what, 1);
  keys[key.toUpperCase()] = () => jump(what, -1);
}

function onKey(event) {
  const { tagName, type, id } = event.target;
  const typing = (tagName === "INPUT" && type !== "checkbox") || tagName === "SELECT", isWritten = typing && type !== "range";
  if (event.ctrlKey || event.altKey || event.metaKey) return;
  if (id === "answer" && event.key === "Enter") { event.preventDefault(); return answer(); }
  if (id === "answer" && event.key === "Escape") return turnQuiz();
  // Enter takes what was typed, and gives the keys back to the cursor.
  if (isWritten && event.key === "Enter") { event.target.blur(); return; }
  if (isWritten && event.key !== "Escape") return;
  if (event.key === " " && (tagName === "BUTTON" || tagName === "INPUT")) return;
  if (typing || event.key === "Escape") document.activeElement.blur();
  const act = keys[event.key];
  if (!act) return;
  event.preventDefault();
  act();
}

function onClick(event) {
  const [step, head, instruction, waited] = ["step", "go", "number", "event"].map((name) => event.target.closest("[data-" + name + "]"));
  if (step) steps[step.dataset.step]();
  else if (waited) goFromRow(waited.dataset.event);
  else if (head) go(Number(head.dataset.go) - run.first + 1);
  else if (instruction) follow(Number(instruction.dataset.number));
}

function onSwitch(event) {
  const name = event.target.dataset.switch;
  if (!name) return;
  if (event.target.checked) settings.without.delete(name); else settings.without.add(name);
  showPanels();
  show();
  writeAddress();
}

// Where the run ended before the window, there is nothing to step through, and the panels have nothing to show.
function showNothing() {
  const { cycles, stop } = run.stop;
  byId("tools").hidden = true;
  document.querySelector("main").hidden = true;
  note("happened", "The run ended after " + counted(cycles, "cycle") + " (" + stop + "), before cycle " + run.first + ".");
}

function listen() {
  document.addEventListener("keydown", onKey);
  document.addEventListener("click", onClick);
  byId("switches").addEventListener("change", onSwitch);
  byId("slider").addEventListener("input", (event) => go(Number(event.target.value) - run.first + 1));
  byId("cycle").addEventListener("change", (event) => goToCycle(event.target.value));
  byId("address").addEventListener("change", (event) => goToTyped(event.target.value.trim()));
  for (const name of switches) byId(name).addEventListener("change", () => turn(name));
  byId("play").addEventListener("click", () => play(!playing));
  byId("help").addEventListener("click", showKeys);
  byId("panels").addEventListener("click", showSwitches);
  byId("other").addEventListener("change", (event) => openBeside(event.target.value.trim()));
  byId("picture").addEventListener("pointerover", (event) => { if (event.target.dataset.cycle && event.target.textContent === ".") tellWait(view, event.target); });
  for (const id of scrolled) byId(id).addEventListener("scroll", () => requestAnimationFrame(() => redraw(id)));
  for (const id of Object.keys(tops)) boxOf(id).addEventListener("scroll", () => requestAnimationFrame(() => redrawLong(id)));
  window.addEventListener("hashchange", readAddress);
  window.addEventListener("resize", show);
  window.addEventListener("beforeprint", () => layOutForPrint(view));
  window.addEventListener("afterprint", show);
  window.addEventListener("message", hear);
}

// After the reader scrolled a list or the picture.
function redraw(id) {
  const { scrollTop: top, scrollLeft: left } = byId(id);
  if (top === measures[id].top && left === measures[id].left) return;
  Object.assign(measures[id], { top, left });
  if (id === "picture") drawPicture(view); else drawList(id);
  markFollowed(view, byId(id));
}

function redrawLong(id) {
  tops[id] = boxOf(id).scrollTop;
  (id === "rob" ? showReorderBuffer : showStations)(view);
  markFollowed(view, byId(id));
  markDifferences();
}

function start() {
  document.documentElement.classList.toggle("framed", framed);
  listen();
  for (const id of ["slider", "cycle"]) { byId(id).min = run.first - 1; byId(id).max = run.last; }
  note("range", "of " + run.first + " to " + run.last);
  showMachine(run);
  sizeList("source", run.listing.length);
  sizeList("memory", run.memoryRows.length);
  readAddress();
  document.documentElement.dataset.opened = performance.now().toFixed(0);
}

if (besideName()) startPair(besideName()); else if (run.places.length === 0) showNothing(); else start();
</script>
</body>
</html>
"##;
