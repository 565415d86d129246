//! The fixed text of a page, made by `bin/page-text` of `page.html`, `page.css` and `page.js` beside this file. Edit those.

use crate::parts::PageParts;

static OPENING: &[u8] = b"<!DOCTYPE html>\n\
<html lang=\"en\">\n\
<meta charset=\"utf-8\">\n\
<meta name=\"viewport\" content=\"width=device-width\">\n\
<meta name=\"color-scheme\" content=\"light dark\">\n\
<title>A history of vkernel</title>\n\
<style>\n\
:root{color-scheme:light dark;--paper:light-dark(#fff,#0d1117);--ink:light-dark(#1f2328,#e6edf3);\n\
\x20 --soft:light-dark(#59636e,#9198a1);--line:light-dark(#d8dee4,#2b323b);--band:light-dark(#f6f8fa,#12171e);\n\
\x20 --mark:light-dark(#fff3c4,#3a3312);--warm:light-dark(#eef4ff,#16223a);--send:light-dark(#0550ae,#6cb6ff);\n\
\x20 --reply:light-dark(#116329,#57c46b);--pending:light-dark(#8a5200,#d4a72c);--negative:light-dark(#a40e26,#ff8182);\n\
\x20 --move:light-dark(#6639ba,#c297ff);--ask:light-dark(#0a6e74,#56d4dd);--bad:light-dark(#cf222e,#ff7b72);\n\
\x20 --lost:light-dark(#bc4c00,#f0883e);--idle:light-dark(#d0d7de,#3d444d)}\n\
*{box-sizing:border-box}\n\
html,body{height:100%;margin:0}\n\
body{display:flex;flex-direction:column;background:var(--paper);color:var(--ink);font:13px/1.45 system-ui,\"DejaVu\
\x20Sans\",sans-serif}\n\
header{display:flex;flex-wrap:wrap;gap:6px 10px;align-items:center;padding:6px 12px;\n\
\x20 border-bottom:1px solid var(--line);background:var(--band)}\n\
h1{font-size:14px;margin:0}\n\
h2{font-size:14px;margin:14px 0 4px}\n\
h3{font-size:12px;margin:12px 0 2px;color:var(--soft);font-weight:600}\n\
form{margin:0}\n\
.space{flex:1}\n\
button,input,select{font:inherit;color:inherit;background:var(--paper);border:1px solid var(--line);border-radius:5px;padding:2px\
\x208px}\n\
button{cursor:pointer}\n\
button:hover{border-color:var(--soft)}\n\
:focus-visible{outline:2px solid var(--send);outline-offset:1px}\n\
#chips button{background:var(--mark);margin-right:4px}\n\
main{flex:1;min-height:0;display:flex}\n\
#overview{width:112px;flex:none;border-right:1px solid var(--line);position:relative;cursor:pointer;touch-action:none}\n\
#strip{position:absolute;inset:0;width:100%;height:100%}\n\
#scroller{flex:1;min-width:0;overflow:auto;position:relative;scrollbar-gutter:stable}\n\
#names{position:sticky;min-width:100%;top:0;z-index:2;background:var(--paper);height:46px;border-bottom:1px solid var(--line)}\n\
#names button{position:absolute;border:0;background:none;padding:0;text-align:center;overflow:hidden;\n\
\x20 text-overflow:clip;white-space:nowrap;border-radius:3px}\n\
#names .station{top:2px;height:20px;font-weight:600;background:var(--band)}\n\
#names .process{top:23px;height:20px;font-family:ui-monospace,\"DejaVu Sans Mono\",monospace}\n\
#names .only{background:var(--mark)}\n\
#names .core{position:absolute;top:27px;width:44px;text-align:center;font-size:10px;color:var(--soft)}\n\
#sheet{position:relative;margin-top:8px}\n\
#drawing{position:absolute;left:0;overflow:hidden;font:11px ui-monospace,\"DejaVu Sans Mono\",monospace;pointer-events:none}\n\
#rows{position:absolute;left:0;right:0;margin:0;padding:0;list-style:none}\n\
#rows:focus-visible{outline:none}\n\
#rows li{position:absolute;right:0;left:0;height:24px;line-height:24px;white-space:nowrap;overflow:clip;\n\
\x20 overflow-clip-margin:12px;cursor:default;font-family:ui-monospace,\"DejaVu Sans Mono\",monospace;font-size:12px}\n\
#rows li:hover{background:var(--warm)}\n\
#rows li.chosen{background:var(--mark)}\n\
.band{fill:var(--ink);opacity:.035}\n\
#rows:focus-visible li.chosen{box-shadow:inset 0 0 0 1.5px var(--send)}\n\
#rows i{font-style:normal;color:var(--soft)}\n\
#rows .n{position:absolute;left:0;width:58px;text-align:right}\n\
#rows .own{position:absolute;left:64px;color:var(--soft);font-size:11px}\n\
#rows .skip{position:absolute;left:6px;top:-12px;color:var(--soft)}\n\
.bad{color:var(--bad);font-weight:600}\n\
.lost{color:var(--lost)}\n\
.soft{color:var(--soft)}\n\
.send{color:var(--send)}\n\
.reply{color:var(--reply)}\n\
.pending{color:var(--pending)}\n\
.negative{color:var(--negative)}\n\
.movedata,.moveack,.moverequest,.movebytes,.movenegative{color:var(--move)}\n\
.askpid,.tellpid{color:var(--ask)}\n\
#told{width:clamp(280px,26vw,420px);flex:none;overflow:auto;border-left:1px solid var(--line);padding:8px 14px 30px}\n\
#told h2:first-child{margin-top:2px}\n\
#told p{margin:4px 0}\n\
#told table,dialog table{border-collapse:collapse;width:100%}\n\
#told td,#told th,dialog td{padding:1px 8px 1px 0;vertical-align:top;text-align:left;font-weight:400}\n\
#told td:last-child{overflow-wrap:anywhere}\n\
#told th{color:var(--soft);white-space:nowrap}\n\
#told pre{margin:4px 0;white-space:pre-wrap;overflow-wrap:anywhere;background:var(--band);padding:6px 8px;\n\
\x20 border-radius:5px;font:12px ui-monospace,\"DejaVu Sans Mono\",monospace}\n\
#told a,.go{color:var(--send);cursor:pointer;background:none;border:0;padding:0;text-decoration:underline;\n\
\x20 text-decoration-thickness:1px;text-underline-offset:2px;font:inherit}\n\
#rows li>:last-child{display:block;overflow:hidden;text-overflow:ellipsis}\n\
#told .this{background:var(--mark)}\n\
#told li{white-space:nowrap;overflow:hidden;text-overflow:ellipsis}\n\
#told ul{list-style:none}\n\
#told .wide li{white-space:normal}\n\
dl{display:grid;grid-template-columns:auto 1fr auto 1fr;gap:0 8px;margin:2px 0}\n\
dt{color:var(--soft)}\n\
dd{margin:0;overflow-wrap:anywhere}\n\
#told .bytes{font-size:11px;color:var(--soft)}\n\
#told ul{margin:2px 0;padding-left:0}\n\
.missed{outline:2px solid var(--bad)}\n\
.unseen{position:absolute;clip-path:inset(50%);width:1px;height:1px;overflow:hidden}\n\
dialog{max-width:760px;background:var(--paper);color:var(--ink);border:1px solid var(--line);border-radius:8px}\n\
dialog form{float:right}\n\
dialog th{text-align:left;padding-right:14px;white-space:nowrap}\n\
dialog td:first-child{white-space:nowrap}\n\
kbd,code{font:12px ui-monospace,\"DejaVu Sans Mono\",monospace;border:1px solid var(--line);border-radius:3px;padding:0 4px}\n\
svg text{fill:currentColor}\n\
svg .halo{paint-order:stroke;stroke:var(--paper);stroke-width:3px;stroke-linejoin:round}\n\
svg path,svg line,svg circle,svg rect{vector-effect:non-scaling-stroke}\n\
.kernel{stroke:var(--soft);stroke-width:3}\n\
.thread{stroke:var(--soft);stroke-width:1}\n\
.rowline{stroke:var(--line);stroke-width:1;opacity:.6}\n\
.arrow{fill:none;stroke:currentColor;stroke-width:1.6}\n\
.tip{fill:currentColor}\n\
.faint{opacity:.38}\n\
.again{stroke-dasharray:2 3}\n\
.hot{stroke-width:3.2}\n\
.pending.arrow,.moveack.arrow,.moverequest.arrow{stroke-dasharray:7 3}\n\
.negative.arrow,.movenegative.arrow{stroke-dasharray:2 3}\n\
.askpid.arrow,.tellpid.arrow{stroke-dasharray:8 2 2 2}\n\
.wait{stroke:var(--soft);stroke-width:1.2;stroke-dasharray:1 3;fill:none}\n\
.bar{stroke:none;fill:var(--idle)}\n\
.bar.in-send{fill:var(--send);opacity:.42}\n\
.bar.in-move{fill:var(--move);opacity:.45}\n\
.bar.in-getpid{fill:var(--ask);opacity:.45}\n\
.bar.done{fill:url(#stripes);opacity:1}\n\
.dead{stroke:var(--soft);stroke-width:2;stroke-dasharray:1 5}\n\
.disc{fill:var(--ink)}\n\
.disc.bad{fill:var(--bad)}\n\
.tick{stroke:var(--ink);stroke-width:2.5}\n\
.tick.bad{stroke:var(--bad)}\n\
.blank{stroke:var(--paper);stroke-width:3}\n\
.ring{fill:var(--paper);stroke:var(--ink);stroke-width:1.8}\n\
.square{fill:var(--paper);stroke:currentColor;stroke-width:1.8}\n\
.cross{stroke:var(--lost);stroke-width:2.4;fill:none}\n\
.box{fill:var(--ink);fill-opacity:.06;stroke:var(--ink);stroke-width:1}\n\
#names .corner{position:absolute;left:8px;top:24px;color:var(--soft)}\n\
#strip text{font:bold 11px system-ui}\n\
@media screen and (max-width:900px){\n\
\x20 main{flex-wrap:wrap}\n\
\x20 #overview,#scroller{height:60%}\n\
\x20 #told{width:100%;height:40%;border-left:0;border-top:1px solid var(--line)}\n\
}\n\
@media print{\n\
\x20 @page{size:landscape;margin:10mm}\n\
\x20 main{zoom:.8}\n\
\x20 :root{color-scheme:light!important}\n\
\x20 html,body,main{height:auto;display:block}\n\
\x20 header>:not(h1),#overview,dialog,#live{display:none!important}\n\
\x20 #scroller{overflow:visible}\n\
\x20 #names{position:relative}\n\
\x20 #told{width:auto;border:0;break-before:page;columns:2}\n\
\x20 #told h2:first-child{break-before:avoid}\n\
\x20 *{print-color-adjust:exact;-webkit-print-color-adjust:exact}\n\
}\n\
</style>\n\
<header>\n\
\x20 <h1 id=\"title\">vkernel history</h1>\n\
\x20 <form id=\"go\" role=\"search\">\n\
\x20   <input id=\"jump\" list=\"places\" size=\"38\" autocomplete=\"off\" spellcheck=\"false\"\n\
\x20     aria-label=\"Go to an event, a frame, a process or a Send, or find a word\"\n\
\x20     placeholder=\"Go to 12, 2:4, 2:4.1, 1.1, 1.1#3 or a word\">\n\
\x20   <datalist id=\"places\"></datalist>\n\
\x20 </form>\n\
\x20 <div id=\"chips\" aria-live=\"polite\"></div>\n\
\x20 <span class=\"space\"></span>\n\
\x20 <button id=\"before\" title=\"Problem before this one (p)\">\xe2\x97\x82 problem</button>\n\
\x20 <button id=\"behind\" title=\"Next problem (n)\">problem \xe2\x96\xb8</button>\n\
\x20 <label title=\"What stands in one row with others like it (t)\">fold\n\
\x20   <select id=\"fold\"><option value=\"0\">nothing<option value=\"1\" selected>quiet ticks<option value=\"2\">idle\
\x20events</select>\n\
\x20 </label>\n\
\x20 <button id=\"scheme\" title=\"Light or dark (d)\" aria-label=\"Light or dark\">\xe2\x97\x90</button>\n\
\x20 <button id=\"print\" title=\"Print the part that is looked at\">Print</button>\n\
\x20 <button id=\"help\" title=\"Keys and signs (?)\" aria-label=\"Keys and signs\">?</button>\n\
</header>\n\
<main>\n\
\x20 <nav id=\"overview\" aria-label=\"Overview of the whole history\"><svg id=\"strip\" aria-hidden=\"true\"></svg></nav>\n\
\x20 <section id=\"scroller\" tabindex=\"-1\" aria-label=\"Space-time diagram\">\n\
\x20   <div id=\"names\"></div>\n\
\x20   <div id=\"sheet\">\n\
\x20     <ol id=\"rows\" role=\"listbox\" tabindex=\"0\" aria-label=\"Events. The diagram shows what these lines say.\"></ol>\n\
\x20     <svg id=\"drawing\" aria-hidden=\"true\"></svg>\n\
\x20   </div>\n\
\x20 </section>\n\
\x20 <aside id=\"told\" aria-label=\"What is told of the event\"></aside>\n\
</main>\n\
<div id=\"live\" aria-live=\"polite\" class=\"unseen\"></div>\n\
<dialog id=\"helping\">\n\
\x20 <form method=\"dialog\"><button autofocus>Close</button></form>\n\
\x20 <h2>Keys</h2>\n\
\x20 <table>\n\
\x20   <tr><td><kbd>\xe2\x86\x91</kbd> <kbd>\xe2\x86\x93</kbd> or <kbd>k</kbd> <kbd>j</kbd><td>row before, next row; also Page Up,\
\x20Page Down, Home and End\n\
\x20   <tr><td><kbd>\xe2\x86\x90</kbd> <kbd>\xe2\x86\x92</kbd><td>whence: where the frame left, or the Send's event before;\n\
\x20     where to: where the frame comes, or the Send's next event\n\
\x20   <tr><td><kbd>[</kbd> <kbd>]</kbd><td>the same process's, or the same station's, event before and next\n\
\x20   <tr><td><kbd>p</kbd> <kbd>n</kbd><td>problem before, next problem\n\
\x20   <tr><td><kbd>f</kbd><td>follow the Send of this event alone, and back\n\
\x20   <tr><td><kbd>o</kbd><td>only the process of this event, and back\n\
\x20   <tr><td><kbd>/</kbd><td>go to: an event <code>12</code>, a station's next event <code>2:</code> or its fourth\
\x20<code>2:4</code>,\n\
\x20     a frame <code>2:4.1</code>, only a process <code>1.1</code>, follow its third Send <code>1.1#3</code>,\n\
\x20     a lookup <code>1.1?1</code>; any other word is found in the lines from here on\n\
\x20   <tr><td><kbd>t</kbd> <kbd>d</kbd> <kbd>?</kbd><td>what is folded, light or dark, this help\n\
\x20   <tr><td><kbd>Esc</kbd><td>show all again; what happened in all\n\
\x20 </table>\n\
\x20 <h2>Signs</h2>\n\
\x20 <table id=\"signs\">\n\
\x20   <tr><th scope=\"row\">\xe2\x97\x8f send 2.1<td>a call\n\
\x20   <tr><th scope=\"row\">\xe2\x97\x8b ok<td>a collect, and the answer\n\
\x20   <tr><th scope=\"row\">\xe2\x96\xa1 reply<td>a frame comes; pale where it changes nothing, and so its arrow\n\
\x20   <tr><th scope=\"row\">\xe2\x94\x81<td>a tick; \xc3\x974: four quiet ones\n\
\x20   <tr><th scope=\"row\">coloured bar<td>blocked: grey in a receive, blue in a Send, purple in a move, teal in a lookup\n\
\x20   <tr><th scope=\"row\">striped bar<td>its call has ended, the answer is not collected\n\
\x20   <tr><th scope=\"row\">dots<td>it is dead; small dots across: a message waited in a queue\n\
\x20   <tr><th scope=\"row\">\xe2\x86\x92 dotted<td>the same frame comes again\n\
\x20   <tr><th scope=\"row\">copy 2<td>the same packet, sent a second time\n\
\x20   <tr><th scope=\"row\">\xe2\x9c\x95 lost<td>the frame came nowhere\n\
\x20 </table>\n\
</dialog>\n\
<noscript>The page draws its texts with JavaScript. They stand at its end: a schedule, its report, and its frames.</noscript>\n\
<script type=\"text/plain\" id=\"schedule\">";

static BEFORE_REPORT: &[u8] = b"</script>\n\
<script type=\"text/plain\" id=\"report\">";

static BEFORE_FRAMES: &[u8] = b"</script>\n\
<script type=\"text/plain\" id=\"frames\">";

static ENDING: &[u8] = b"</script>\n\
<script>\n\
\"use strict\";\n\
// The page of a history. It reads the three texts at its end (a schedule, its report, its frames) and draws them. It\n\
// knows no rule of stations: what came of an event, and what each frame holds, the texts say. It goes over the steps\n\
// once, to tell who waits for what since when, as the one-machine kernel has it.\n\
//\n\
//   Small things   numbers, words and tags, for all the others\n\
//   Reading        the texts become a history: stations, processes, events, frames\n\
//   Course         one pass over the steps: Sends and lookups, what processes are blocked in, problems, doubts\n\
//   Words          what an event and a frame are called\n\
//   Layout         which events are shown: rows, lanes, and the arrows by the rows that they cover\n\
//   Diagram        lanes, bars, arrows and marks of the rows that are looked at, and their lines\n\
//   Overview       the strip beside it, of the whole history\n\
//   Aside          what is told of the chosen event, or of all\n\
//   Choosing       what is shown and chosen, and how it changes\n\
//   Listening      keys, clicks, the address, paper; the start\n\
//\n\
// `view` has what is shown, and the layout made of it. Functions ending in `Parts` or named as a sign give text of\n\
// HTML or SVG; those named `draw...` put it into the page.\n\
\n\
// --------------------------------------------------------------------------------------------------- small things\n\
\n\
const NONE = Object.freeze([]);\n\
const byId = id => document.getElementById(id);\n\
const clamp = (value, low, high) => Math.max(low, Math.min(high, value));\n\
const count = (list, test) => list.filter(test).length;\n\
const counted = (number, one, many = `${one}s`) => `${number.toLocaleString(\"en\")} ${number === 1 ? one : many}`;\n\
const ordinal = n => n + ([\"th\", \"st\", \"nd\", \"rd\"][n % 100 > 10 && n % 100 < 14 ? 0 : n % 10] ?? \"th\");\n\
const shortened = (text, most = 24) => text.length > most ? `${text.slice(0, most - 1)}\xe2\x80\xa6` : text;\n\
const escaped = text => String(text).replace(/[&<>\"]/g, sign => `&#${sign.charCodeAt(0)};`);\n\
const joined = (list, parts) => list.map(parts).join(\"\");\n\
const table = rows => `<table>${joined(rows, ([name, text]) => `<tr><th scope=\"row\">${name}<td>${text}`)}</table>`;\n\
\n\
// -------------------------------------------------------------------------------------------------------- reading\n\
\n\
const linesOf = id => byId(id).textContent.split(\"\\n\");\n\
\n\
/** What the opening of a schedule says, and where its first event stands. */\n\
function readOpening(lines) {\n\
\x20 const opening = { times: [\"5\", \"4\", \"8\"], processes: [], byPid: new Map(), stations: new Map() };\n\
\x20 for (let at = 1; ; at++) {\n\
\x20   const [word, ...rest] = (lines[at] ?? \"\").split(\" \");\n\
\x20   if (word === \"times\") opening.times = rest;\n\
\x20   else if (word === \"process\") addProcess(opening, rest[0]);\n\
\x20   else if (word !== \"pool\") return { opening, at };\n\
\x20 }\n\
}\n\
\n\
function addProcess({ processes, byPid, stations }, pid) {\n\
\x20 const host = pid.split(\".\")[0];\n\
\x20 const process = { pid, host, sends: 0, lookups: 0, spans: [], queue: [], events: [] };\n\
\x20 if (!stations.has(host)) stations.set(host, { host, processes: [], events: [] });\n\
\x20 stations.get(host).processes.push(process);\n\
\x20 byPid.set(pid, process);\n\
\x20 processes.push(process);\n\
}\n\
\n\
/** The events, each with its line of the schedule, and the frames. */\n\
function readHistory() {\n\
\x20 const schedule = linesOf(\"schedule\");\n\
\x20 const told = linesOf(\"frames\");\n\
\x20 const { opening, at } = readOpening(schedule);\n\
\x20 const history = {\n\
\x20   ...opening, events: [], frames: [], byName: new Map(), exchanges: new Map(), links: [], doubts: [],\n\
\x20 };\n\
\x20 for (const line of linesOf(\"report\")) {\n\
\x20   if (line.startsWith(\"step \")) addStep(history.events.at(-1), line.slice(5));\n\
\x20   else if (line.startsWith(\"frame \")) addFrame(history, line.split(\" \"), told[history.frames.length + 1] ?? \"\");\n\
\x20   else if (line >= \"0\" && line < \":\") addEvent(history, line, schedule[at + history.events.length] ?? \"\");\n\
\x20 }\n\
\x20 return history;\n\
}\n\
\n\
function addEvent(history, line, scheduled) {\n\
\x20 const index = history.events.length;\n\
\x20 const [number, own] = line.split(\" \", 2);\n\
\x20 const [kind, ...words] = scheduled.split(\" \", 5);\n\
\x20 if (Number(number) !== index + 1 || !scheduled) {\n\
\x20   history.doubts.push(`event ${index + 1}: the report has ${number}, the schedule \"${scheduled}\"`);\n\
\x20 }\n\
\x20 const event = {\n\
\x20   index, own, host: own.slice(0, own.indexOf(\":\")), answer: line.slice(number.length + own.length + 2),\n\
\x20   scheduled, kind, pid: kind === \"call\" || kind === \"collect\" ? words[0] : null,\n\
\x20   steps: NONE, frames: NONE, frame: null, nth: 0, exchanges: NONE, problem: null,\n\
\x20 };\n\
\x20 if (kind === \"deliver\") addComing(history, event, `${words[1]}:${words[2]}.${words[3]}`);\n\
\x20 history.events.push(event);\n\
\x20 history.byName.set(own, event);\n\
}\n\
\n\
/** The frame that a delivery brings, and how many times it has come. */\n\
function addComing(history, event, id) {\n\
\x20 event.id = id;\n\
\x20 event.frame = event.answer === \"missing\" ? null : history.byName.get(id) ?? null;\n\
\x20 if (event.frame) event.nth = event.frame.comes.push(event.index);\n\
}\n\
\n\
function addStep(event, step) {\n\
\x20 if (event.steps === NONE) event.steps = [];\n\
\x20 event.steps.push(step);\n\
}\n\
\n\
/** A frame of the last event: of the report, and of the text of frames: `H:E.O STAMP LAMPORT KIND FIELD...`. */\n\
function addFrame(history, [, id, dest, kind, length], told) {\n\
\x20 const event = history.events.at(-1);\n\
\x20 const [name, stamp, lamport, , ...fields] = told.split(\" \");\n\
\x20 if (told && name !== id) history.doubts.push(`frame ${id}: the text of frames has ${name}`);\n\
\x20 const frame = {\n\
\x20   id, host: event.host, event: event.index, dest, kind, length: Number(length), stamp, lamport, fields,\n\
\x20   comes: [], copy: 1, exchange: null,\n\
\x20 };\n\
\x20 if (event.frames === NONE) event.frames = [];\n\
\x20 event.frames.push(frame);\n\
\x20 history.frames.push(frame);\n\
\x20 history.byName.set(id, frame);\n\
}\n\
\n\
/** The names of the fields of a packet, in the order of kinds in docs/FORMATS.md. */\n\
const FIELDS = {\n\
\x20 send: [\"from\", \"to\", \"number\", \"message\"],\n\
\x20 reply: [\"from\", \"to\", \"number\", \"message\", \"dest\", \"count\"],\n\
\x20 pending: [\"from\", \"to\", \"number\"],\n\
\x20 negative: [\"from\", \"to\", \"number\"],\n\
\x20 movedata: [\"from\", \"to\", \"number\", \"move\", \"dest\", \"total\", \"offset\"],\n\
\x20 moveack: [\"from\", \"to\", \"number\", \"move\", \"received\"],\n\
\x20 moverequest: [\"from\", \"to\", \"number\", \"move\", \"src\", \"total\", \"offset\"],\n\
\x20 movebytes: [\"from\", \"to\", \"number\", \"move\", \"total\", \"offset\"],\n\
\x20 movenegative: [\"from\", \"to\", \"number\", \"move\"],\n\
\x20 askpid: [\"asker\", \"lookup\", \"logical\"],\n\
\x20 tellpid: [\"found\", \"asker\", \"lookup\"],\n\
};\n\
const FROM_SENDER = new Set([\"send\", \"moveack\", \"movebytes\", \"movenegative\"]);\n\
\n\
/** The name of the Send, or of the lookup, that a frame belongs to: the sender's pid and its number. */\n\
function exchangeName({ kind, fields: [first, second, third] }) {\n\
\x20 if (!first) return null;\n\
\x20 if (kind === \"askpid\") return `${first}?${second}`;\n\
\x20 if (kind === \"tellpid\") return `${second}?${third}`;\n\
\x20 return `${FROM_SENDER.has(kind) ? first : second}#${third}`;\n\
}\n\
\n\
// --------------------------------------------------------------------------------------------------------- course\n\
\n\
const FAILURES = new Set([\n\
\x20 \"noprocess\", \"timedout\", \"badsegment\", \"notawaiting\", \"noaccess\", \"badrange\", \"toolong\", \"gone\", \"notfound\",\n\
\x20 \"namesfull\", \"busy\", \"dead\",\n\
]);\n\
\n\
/** Where the words of a call name the sender whose message its caller has. */\n\
const PARTNER_AT = { reply: 1, replysegment: 1, forward: 1, moveto: 0, movefrom: 0 };\n\
\n\
/** What the steps make of each process: what it is blocked in, since when, and for which exchange (Send or lookup). */\n\
class Course {\n\
\x20 constructor(history) {\n\
\x20   this.history = history;\n\
\x20   /** By host and sender, the Send that the host has of that sender. */\n\
\x20   this.kept = new Map();\n\
\x20   /** By what a frame says, how often it was emitted. */\n\
\x20   this.copies = new Map();\n\
\x20   for (const event of history.events) this.event(event);\n\
\x20 }\n\
\n\
\x20 event(event) {\n\
\x20   const { byPid, stations } = this.history;\n\
\x20   stations.get(event.host)?.events.push(event.index);\n\
\x20   if (event.pid) byPid.get(event.pid).events.push(event.index);\n\
\x20   if (event.frame) this.touch(event, event.frame.exchange);\n\
\x20   for (const step of event.steps) this.step(event, step.split(\" \"));\n\
\x20   for (const frame of event.frames) this.frame(event, frame);\n\
\x20   event.problem ??= problemOf(event);\n\
\x20 }\n\
\n\
\x20 frame(event, frame) {\n\
\x20   frame.exchange = this.history.exchanges.get(exchangeName(frame)) ?? null;\n\
\x20   this.touch(event, frame.exchange);\n\
\x20   frame.exchange?.frames.push(frame);\n\
\x20   if (!frame.fields.length || frame.kind === \"pending\" || frame.kind === \"moveack\") return;\n\
\x20   const same = `${frame.host} ${frame.kind} ${frame.fields.join(\" \")}`;\n\
\x20   frame.copy = (this.copies.get(same) ?? 0) + 1;\n\
\x20   this.copies.set(same, frame.copy);\n\
\x20 }\n\
\n\
\x20 step(event, [name, ...words]) {\n\
\x20   const { byPid, exchanges } = this.history;\n\
\x20   const process = byPid.get(words[0]);\n\
\x20   const here = event.pid ?? `k${event.host}`;\n\
\x20   switch (name) {\n\
\x20     case \"call\": return this.call(event, process, words.slice(1));\n\
\x20     case \"arrive\": return this.arrive(event, exchanges.get(`${words[0]}#${words[1]}`));\n\
\x20     case \"take\": return this.take(event, process);\n\
\x20     case \"finish\": return this.end(event, process, \"replied\", here);\n\
\x20     case \"fail\": return this.end(event, process, words[1], here);\n\
\x20     case \"found\": return this.end(event, process, `found ${words[1]}`, here);\n\
\x20     case \"lost\": return this.end(event, process, \"notfound\", here);\n\
\x20     case \"end\": return this.endMove(event, process, words[1], here);\n\
\x20     case \"open\":\n\
\x20     case \"copy\": return this.touch(event, exchanges.get(`${words[0]}#${words[1]}`));\n\
\x20     case \"hear\": return this.touch(event, exchanges.get(`${words[0]}?${words[1]}`));\n\
\x20     case \"collect\": return this.collect(event, process);\n\
\x20   }\n\
\x20 }\n\
\n\
\x20 /** The event belongs to what came of this exchange. */\n\
\x20 touch(event, exchange) {\n\
\x20   if (!exchange || event.exchanges.includes(exchange)) return;\n\
\x20   event.exchanges = [...event.exchanges, exchange];\n\
\x20   exchange.events.push(event.index);\n\
\x20 }\n\
\n\
\x20 begin(event, name, sender, target) {\n\
\x20   const exchange = {\n\
\x20     name, sender, target, begun: event.index, ended: null, outcome: null, state: \"posted\", at: target,\n\
\x20     isLookup: name.includes(\"?\"), events: [], frames: [],\n\
\x20   };\n\
\x20   this.history.exchanges.set(name, exchange);\n\
\x20   this.touch(event, exchange);\n\
\x20   return exchange;\n\
\x20 }\n\
\n\
\x20 /** The process is in this state from here on; a state that lasts no event is forgotten. */\n\
\x20 set(event, process, state, why, exchange) {\n\
\x20   const last = process.spans.at(-1);\n\
\x20   if (last?.to === Infinity) last.to = event.index;\n\
\x20   if (last && last.from === last.to) process.spans.pop();\n\
\x20   if (state !== \"ready\") process.spans.push({ from: event.index, to: Infinity, state, why, exchange });\n\
\x20 }\n\
\n\
\x20 /** Something goes from one lane to another of its station: a message that is taken, a reply, a failure. */\n\
\x20 link(event, fromEvent, fromLane, toLane, kind) {\n\
\x20   this.history.links.push({ from: fromEvent, fromLane, to: event.index, toLane, kind });\n\
\x20 }\n\
\n\
\x20 queue(event, exchange, host, pid) {\n\
\x20   const { stations, byPid } = this.history;\n\
\x20   const key = `${host} ${exchange.sender}`;\n\
\x20   const before = this.kept.get(key);\n\
\x20   if (before && before !== exchange) {\n\
\x20     for (const process of stations.get(host).processes) process.queue = process.queue.filter(one => one !== before);\n\
\x20   }\n\
\x20   this.kept.set(key, exchange);\n\
\x20   const queuedFrom = event.pid ?? `k${host}`;\n\
\x20   Object.assign(exchange, { state: \"queued\", at: pid, queuedIn: event.index, queuedFrom });\n\
\x20   byPid.get(pid)?.queue.push(exchange);\n\
\x20 }\n\
\n\
\x20 arrive(event, exchange) {\n\
\x20   this.touch(event, exchange);\n\
\x20   this.queue(event, exchange, event.host, exchange.target);\n\
\x20 }\n\
\n\
\x20 take(event, process) {\n\
\x20   const exchange = process.queue.shift();\n\
\x20   if (!exchange) return this.doubt(event, `${process.pid} takes, and nothing waits`);\n\
\x20   this.touch(event, exchange);\n\
\x20   exchange.state = \"taken\";\n\
\x20   const kind = exchange.queuedIn === event.index ? \"hand\" : \"wait\";\n\
\x20   this.link(event, exchange.queuedIn, exchange.queuedFrom, process.pid, kind);\n\
\x20   this.set(event, process, \"done\", \"received\", exchange);\n\
\x20 }\n\
\n\
\x20 /** The Send or lookup of this process ends. */\n\
\x20 end(event, process, outcome, from) {\n\
\x20   const exchange = process.spans.at(-1)?.exchange ?? null;\n\
\x20   if (exchange) Object.assign(exchange, { outcome, ended: event.index });\n\
\x20   this.touch(event, exchange);\n\
\x20   this.set(event, process, \"done\", outcome, exchange);\n\
\x20   const kind = FAILURES.has(outcome) ? \"bad\" : \"hand\";\n\
\x20   if (from !== process.pid) this.link(event, event.index, from, process.pid, kind);\n\
\x20 }\n\
\n\
\x20 endMove(event, process, ending, here) {\n\
\x20   const exchange = process.spans.at(-1)?.exchange;\n\
\x20   this.touch(event, exchange);\n\
\x20   this.set(event, process, \"done\", `move ${ending}`, exchange);\n\
\x20   this.link(event, event.index, here, process.pid, ending === \"ok\" ? \"hand\" : \"bad\");\n\
\x20 }\n\
\n\
\x20 collect(event, process) {\n\
\x20   const span = process.spans.at(-1);\n\
\x20   const [first, sender] = event.answer.split(\" \");\n\
\x20   this.touch(event, span?.exchange);\n\
\x20   const isRight = span?.state === \"done\" &&\n\
\x20     (span.why !== \"received\" || sender === span.exchange.sender) &&\n\
\x20     (!FAILURES.has(first) || span.why.endsWith(first));\n\
\x20   if (!isRight) this.doubt(event, `${event.answer} is not what ${process.pid} has`);\n\
\x20   this.set(event, process, \"ready\");\n\
\x20 }\n\
\n\
\x20 call(event, process, [name, ...words]) {\n\
\x20   const { pid, host } = process;\n\
\x20   const isBegun = event.answer === \"begun\";\n\
\x20   if (!isBegun && event.answer !== \"ok\") return;\n\
\x20   const partner = words[PARTNER_AT[name]];\n\
\x20   const held = this.kept.get(`${host} ${partner}`) ?? null;\n\
\x20   this.touch(event, held);\n\
\x20   if (held && (name === \"reply\" || name === \"replysegment\")) held.state = \"replied\";\n\
\x20   if (held && name === \"forward\") this.queue(event, held, host, words[2]);\n\
\x20   if (name === \"exit\") return this.exit(event, process);\n\
\x20   if (!isBegun) return;\n\
\x20   let exchange = held;\n\
\x20   if (name === \"send\") exchange = this.begin(event, `${pid}#${++process.sends}`, pid, words[0]);\n\
\x20   if (name === \"getpid\") exchange = this.begin(event, `${pid}?${++process.lookups}`, pid, `name ${words[0]}`);\n\
\x20   this.set(event, process, \"blocked\", partner || name === \"send\" ? `${name} ${words[0]}` : name, exchange);\n\
\x20   if (name === \"send\" && words[0].split(\".\")[0] === host) this.queue(event, exchange, host, words[0]);\n\
\x20 }\n\
\n\
\x20 /** Who exits is dead, and the senders of its station whose messages are with it are done. */\n\
\x20 exit(event, process) {\n\
\x20   this.set(event, process, \"dead\", \"exit\", null);\n\
\x20   process.queue = [];\n\
\x20   for (const sender of this.history.stations.get(process.host).processes) {\n\
\x20     const span = sender.spans.at(-1);\n\
\x20     const exchange = span?.exchange;\n\
\x20     if (span?.state !== \"blocked\" || exchange?.sender !== sender.pid || exchange.at !== process.pid) continue;\n\
\x20     if (exchange.state !== \"queued\" && exchange.state !== \"taken\") continue;\n\
\x20     this.end(event, sender, \"noprocess\", process.pid);\n\
\x20     event.problem = \"noprocess\";\n\
\x20   }\n\
\x20 }\n\
\n\
\x20 doubt(event, what) {\n\
\x20   this.history.doubts.push(`event ${event.index + 1}: ${what}`);\n\
\x20 }\n\
}\n\
\n\
/** What is wrong with an event, in a word, or nothing. A delivery that does nothing is no problem. */\n\
function problemOf(event) {\n\
\x20 for (const step of event.steps) {\n\
\x20   const last = step.slice(step.lastIndexOf(\" \") + 1);\n\
\x20   if (step.startsWith(\"fail \")) return last;\n\
\x20   if (step.startsWith(\"lost \")) return \"notfound\";\n\
\x20   if (step.startsWith(\"end \") && last !== \"ok\") return `move ${last}`;\n\
\x20 }\n\
\x20 if (event.kind === \"call\" && FAILURES.has(event.answer)) return event.answer;\n\
\x20 return event.answer === \"bad\" || event.answer === \"missing\" ? event.answer : null;\n\
}\n\
\n\
// ---------------------------------------------------------------------------------------------------------- words\n\
\n\
const isLost = frame => frame.comes.length === 0;\n\
const isEmpty = event => event.steps === NONE && event.frames === NONE;\n\
const isQuiet = event => event.kind === \"tick\" && isEmpty(event);\n\
/** A delivery that changes nothing: too old, a copy of what was there, or bad. */\n\
const isIdle = event => event.kind === \"deliver\" && isEmpty(event);\n\
\n\
/** What a frame is called, and from whom it goes to whom. */\n\
function frameWords({ kind, dest, copy, fields: [first, second] }) {\n\
\x20 const between = first ? `${first}\xe2\x86\x92${kind === \"askpid\" ? \"all\" : second}` : `\xe2\x86\x92${dest}`;\n\
\x20 return `${kind} ${between}${copy > 1 ? ` (${ordinal(copy)} copy)` : \"\"}`;\n\
}\n\
\n\
const STEP_WORDS = {\n\
\x20 arrive: () => \"the message arrives\",\n\
\x20 take: ([pid]) => `${pid} takes it`,\n\
\x20 finish: ([pid]) => `${pid} has its reply`,\n\
\x20 fail: ([pid, why]) => `${pid} fails: ${why}`,\n\
\x20 open: ([, , move]) => `move ${move} opens`,\n\
\x20 copy: ([, , , offset, size]) => `${size} bytes are copied at ${offset}`,\n\
\x20 end: ([pid, how]) => `the move of ${pid} ends: ${how}`,\n\
\x20 hear: ([, , pid]) => `${pid} is told`,\n\
\x20 found: ([asker, pid]) => `${asker} has found ${pid}`,\n\
\x20 lost: ([asker]) => `${asker} has found nothing`,\n\
};\n\
\n\
/** An event in a line. */\n\
function lineOf(event) {\n\
\x20 return [ownWords(event), ...stepWords(event), ...emittedWords(event)].join(\" \xc2\xb7 \");\n\
}\n\
\n\
function ownWords(event) {\n\
\x20 const { kind, pid, answer } = event;\n\
\x20 if (kind === \"call\") return `${pid} ${callWords(event)}${answer === \"begun\" ? \"\" : ` \xe2\x86\x92 ${shortened(answer)}`}`;\n\
\x20 if (kind === \"collect\") return `${pid} collects \xe2\x86\x92 ${shortened(answer, 40)}`;\n\
\x20 if (kind === \"tick\") return `tick ${answer.slice(4)}`;\n\
\x20 const what = event.frame ? frameWords(event.frame) : `frame ${event.id}`;\n\
\x20 const effect = answer !== \"taken\" ? `: ${answer}` : isIdle(event) ? \", changes nothing\" : \"\";\n\
\x20 return `${what} comes${event.nth > 1 ? ` a ${ordinal(event.nth)} time` : \"\"}${effect}`;\n\
}\n\
\n\
function callWords(event) {\n\
\x20 const [, , name, ...words] = event.scheduled.split(\" \");\n\
\x20 return [name, ...words.map(one => shortened(one, 16))].join(\" \");\n\
}\n\
\n\
/** The steps in words, without the event's own. */\n\
function stepWords(event) {\n\
\x20 const steps = event.steps.map(step => step.split(\" \"));\n\
\x20 return steps.filter(([name]) => STEP_WORDS[name]).map(([name, ...words]) => STEP_WORDS[name](words));\n\
}\n\
\n\
/** The frames of an event, but for the one that its call is for. */\n\
function emittedWords({ kind, frames }) {\n\
\x20 const lost = count(frames, isLost);\n\
\x20 if (frames.length > 2) return [`emits ${frames.length} frames${lost ? `, ${lost} lost` : \"\"}`];\n\
\x20 if (kind === \"call\" && frames.length === 1) return lost ? [\"lost\"] : [];\n\
\x20 return frames.map(frame => {\n\
\x20   const copy = frame.copy > 1 ? \" again\" : \"\";\n\
\x20   return `emits ${frame.kind} to ${frame.dest}${copy}${isLost(frame) ? \", lost\" : \"\"}`;\n\
\x20 });\n\
}\n\
\n\
/** The event in a sentence. */\n\
function sentenceOf(event) {\n\
\x20 const { kind, pid, host } = event;\n\
\x20 const who = {\n\
\x20   call: `Process ${pid} of station ${host} calls`,\n\
\x20   collect: `Process ${pid} of station ${host} collects`,\n\
\x20   tick: `The clock of station ${host} ticks`,\n\
\x20   deliver: `At station ${host}`,\n\
\x20 };\n\
\x20 return `${who[kind]}: ${lineOf(event)}.`;\n\
}\n\
\n\
// --------------------------------------------------------------------------------------------------------- layout\n\
\n\
/** Sizes in pixels; those of a row and of the head are in page.css too. */\n\
const ROW = 24;\n\
const HEAD = 54;\n\
const GUTTER = 116;\n\
const KERNEL = 22;\n\
const LINE_ROOM = 330;\n\
const LETTER = 6.7;\n\
/** With more processes than these, stations are folded at first. */\n\
const MOST_LANES = 40;\n\
\n\
/** Whether an event may stand in one row with others, by what is folded: nothing, quiet ticks, idle events. */\n\
const FOLDS = [() => false, isQuiet, event => isEmpty(event) && !event.problem];\n\
\n\
const view = {\n\
\x20 history: null, follow: null, only: new Set(), fold: 1, folded: new Set(), chosen: 0, isTold: false,\n\
\x20 isShown: null, rows: [], rowOf: null, stations: [], lanes: new Map(), left: GUTTER, wide: 0, spans: null,\n\
\x20 top: 0, height: 0, bins: 1, looked: [0, 0],\n\
};\n\
const isPart = () => view.follow !== null || view.only.size > 0;\n\
\n\
/** Spans of rows, found by any row they cover: level k holds those of at most 2^k rows, each in one or two places. */\n\
class Spans {\n\
\x20 levels = new Map();\n\
\n\
\x20 add(item, first, last) {\n\
\x20   const level = 32 - Math.clz32(last - first);\n\
\x20   if (!this.levels.has(level)) this.levels.set(level, new Map());\n\
\x20   const places = this.levels.get(level);\n\
\x20   for (let place = first >> level; place <= last >> level; place++) {\n\
\x20     if (!places.has(place)) places.set(place, []);\n\
\x20     places.get(place).push({ item, first, last });\n\
\x20   }\n\
\x20 }\n\
\n\
\x20 /** All that cover one of these rows, each once. */\n\
\x20 over(first, last) {\n\
\x20   const found = new Set();\n\
\x20   for (const [level, places] of this.levels) {\n\
\x20     for (let place = first >> level; place <= last >> level; place++) {\n\
\x20       for (const span of places.get(place) ?? NONE) {\n\
\x20         if (span.last >= first && span.first <= last) found.add(span.item);\n\
\x20       }\n\
\x20     }\n\
\x20   }\n\
\x20   return found;\n\
\x20 }\n\
}\n\
\n\
/** The test whether an event is shown: all are, or those of one exchange, or those of some processes. */\n\
function shownTest() {\n\
\x20 const { follow, only } = view;\n\
\x20 const followed = new Set(follow?.events);\n\
\x20 if (follow) return event => followed.has(event.index);\n\
\x20 if (only.size) return event => pidsOf(event).some(pid => only.has(pid));\n\
\x20 return () => true;\n\
}\n\
\n\
/** The processes that an event is about. */\n\
const pidsOf = event => event.pids ??= findPids(event);\n\
function findPids({ pid, frame, frames, steps, exchanges }) {\n\
\x20 const pids = new Set(pid ? [pid] : []);\n\
\x20 const add = one => pids.add(one);\n\
\x20 for (const { kind, fields } of frame ? [frame, ...frames] : frames) {\n\
\x20   fields.slice(0, kind === \"askpid\" ? 1 : 2).forEach(add);\n\
\x20 }\n\
\x20 for (const step of steps) {\n\
\x20   if (step.startsWith(\"call \")) exchanges.forEach(({ sender, target }) => add(sender).add(target));\n\
\x20   else step.split(\" \").filter(one => view.history.byPid.has(one)).forEach(add);\n\
\x20 }\n\
\x20 return [...pids];\n\
}\n\
\n\
/** Rows of events, `first` to `last`: folded ones, one behind the other, are one row. `skipped` are hidden before. */\n\
function makeRows() {\n\
\x20 const { events } = view.history;\n\
\x20 const isShown = shownTest();\n\
\x20 const isFolded = isPart() ? FOLDS[0] : FOLDS[view.fold];\n\
\x20 const rows = [];\n\
\x20 const rowOf = new Int32Array(events.length + 1);\n\
\x20 let before = -1;\n\
\x20 for (const event of events) {\n\
\x20   const { index } = event;\n\
\x20   if (isShown(event)) {\n\
\x20     const last = rows.at(-1);\n\
\x20     if (last && isFolded(event) && isFolded(events[last.last])) last.last = index;\n\
\x20     else rows.push({ first: index, last: index, skipped: index - 1 - before });\n\
\x20     before = index;\n\
\x20   }\n\
\x20   rowOf[index] = Math.max(0, rows.length - 1);\n\
\x20 }\n\
\x20 rowOf[events.length] = rows.length;\n\
\x20 Object.assign(view, { rows, rowOf, isShown });\n\
}\n\
\n\
/** Arrows of frames that come, and links within stations, by the rows that they cover. */\n\
function makeSpans() {\n\
\x20 const { events, frames, links } = view.history;\n\
\x20 const { rowOf, fold } = view;\n\
\x20 const spans = new Spans();\n\
\x20 const isSeen = index => view.isShown(events[index]);\n\
\x20 const isDrawn = isPart() || fold < 2 ? isSeen : index => isSeen(index) && !isIdle(events[index]);\n\
\x20 for (const frame of frames.filter(({ event }) => isSeen(event))) {\n\
\x20   frame.comes.forEach((to, nth) => {\n\
\x20     if (isDrawn(to)) spans.add({ frame, to, nth }, rowOf[frame.event], rowOf[to]);\n\
\x20   });\n\
\x20 }\n\
\x20 for (const link of links) {\n\
\x20   if (isSeen(link.from) && isSeen(link.to)) spans.add(link, rowOf[link.from], rowOf[link.to]);\n\
\x20 }\n\
\x20 view.spans = spans;\n\
}\n\
\n\
/** The stations that are shown, and the processes of each that have lanes: a folded one has its kernel alone. */\n\
function shownStations() {\n\
\x20 const { history, folded, rows } = view;\n\
\x20 const all = [...history.stations.values()];\n\
\x20 if (!isPart()) return all.map(({ host, processes }) => ({ host, lanes: folded.has(host) ? [] : processes }));\n\
\x20 const events = rows.map(row => history.events[row.first]);\n\
\x20 const hosts = new Set(events.map(({ host }) => host));\n\
\x20 const pids = new Set(events.flatMap(pidsOf));\n\
\x20 const isFolded = host => folded.has(host) && pids.size > MOST_LANES;\n\
\x20 return all\n\
\x20   .map(({ host, processes }) => ({ host, lanes: processes.filter(({ pid }) => pids.has(pid)) }))\n\
\x20   .filter(({ host, lanes }) => hosts.has(host) || lanes.length)\n\
\x20   .map(({ host, lanes }) => ({ host, lanes: isFolded(host) ? [] : lanes }));\n\
}\n\
\n\
/** Where the lanes stand: for each station its kernel, then its processes. */\n\
function makeLanes() {\n\
\x20 const stations = shownStations();\n\
\x20 const { clientWidth } = byId(\"scroller\");\n\
\x20 const processes = stations.reduce((sum, { lanes }) => sum + lanes.length, 0);\n\
\x20 const room = clientWidth - GUTTER - Math.max(LINE_ROOM, clientWidth * 0.38) - stations.length * 2 * KERNEL;\n\
\x20 const wide = processes ? clamp(room / processes, KERNEL, 120) : KERNEL;\n\
\x20 const lanes = new Map();\n\
\x20 let x = GUTTER;\n\
\x20 for (const station of stations) {\n\
\x20   station.start = x;\n\
\x20   station.kernel = x + KERNEL;\n\
\x20   lanes.set(`k${station.host}`, station.kernel);\n\
\x20   station.lanes.forEach(({ pid }, place) => lanes.set(pid, station.kernel + (place + 0.5) * wide + 4));\n\
\x20   x += 2 * KERNEL + station.lanes.length * wide;\n\
\x20   station.end = x;\n\
\x20 }\n\
\x20 Object.assign(view, { stations, lanes, wide, left: x });\n\
\x20 byId(\"sheet\").style.minWidth = `${view.left + LINE_ROOM}px`;\n\
}\n\
const laneOf = key => view.lanes.get(key) ?? view.lanes.get(`k${key.split(\".\")[0]}`);\n\
const kernelOf = host => view.lanes.get(`k${host}`);\n\
const laneAt = event => event.pid ? laneOf(event.pid) : kernelOf(event.host);\n\
\n\
/** Makes rows, lanes and arrows of what is to be shown, and draws what does not depend on where it is scrolled to. */\n\
function remake() {\n\
\x20 makeRows();\n\
\x20 makeLanes();\n\
\x20 makeSpans();\n\
\x20 byId(\"sheet\").style.height = `${view.rows.length * ROW + 12}px`;\n\
\x20 drawNames();\n\
\x20 drawChips();\n\
\x20 drawStrip();\n\
}\n\
\n\
// -------------------------------------------------------------------------------------------------------- diagram\n\
\n\
/** The rows that are looked at, with some more on each side where it is to be scrolled. */\n\
function seen(more) {\n\
\x20 const { scrollTop, clientHeight } = byId(\"scroller\");\n\
\x20 const top = scrollTop - 8;\n\
\x20 const first = Math.max(0, Math.floor(top / ROW) - more);\n\
\x20 const last = Math.min(view.rows.length - 1, Math.ceil((top + clientHeight - HEAD) / ROW) + more);\n\
\x20 return [first, last];\n\
}\n\
\n\
/** Draws the rows that are looked at, and some around them, or just these. */\n\
function draw([first, last] = seen(12)) {\n\
\x20 const drawing = byId(\"drawing\");\n\
\x20 const rows = Array.from({ length: last - first + 1 }, (_, place) => first + place);\n\
\x20 Object.assign(view, { top: first, height: rows.length * ROW + 8 });\n\
\x20 drawing.style.top = `${first * ROW}px`;\n\
\x20 drawing.setAttribute(\"width\", view.left);\n\
\x20 drawing.setAttribute(\"height\", view.height);\n\
\x20 drawing.innerHTML = STRIPES + laneParts(rows) + barParts(first, last) + arrowParts(first, last) +\n\
\x20   joined(rows, lostParts) + joined(rows, markParts);\n\
\x20 byId(\"rows\").innerHTML = joined(rows, rowParts);\n\
\x20 const chosen = byId(\"rows\").querySelector(\".chosen\");\n\
\x20 if (chosen) byId(\"rows\").setAttribute(\"aria-activedescendant\", chosen.id);\n\
\x20 else byId(\"rows\").removeAttribute(\"aria-activedescendant\");\n\
\x20 drawWindow();\n\
}\n\
\n\
const STRIPES = `<defs><pattern id=\"stripes\" width=\"6\" height=\"6\" patternUnits=\"userSpaceOnUse\"\n\
\x20 patternTransform=\"rotate(45)\"><rect width=\"2.5\" height=\"6\" fill=\"var(--soft)\"/></pattern></defs>`;\n\
\n\
const yOf = row => (row - view.top) * ROW + ROW / 2;\n\
\n\
/** A line downwards or across, but for what cannot be seen of it: the dashes of a long one would take long to draw. */\n\
function line(name, x1, y1, x2, y2) {\n\
\x20 const top = -60;\n\
\x20 const bottom = view.height + 60;\n\
\x20 const xAt = y => x1 + (x2 - x1) * (y - y1) / (y2 - y1);\n\
\x20 const [startX, startY] = y1 < top ? [xAt(top), top] : [x1, y1];\n\
\x20 const [endX, endY] = y2 > bottom ? [xAt(bottom), bottom] : [x2, y2];\n\
\x20 return `<line class=\"${name}\" x1=\"${startX}\" y1=\"${startY}\" x2=\"${endX}\" y2=\"${endY}\"/>`;\n\
}\n\
\n\
/** A line with a head, that ends a little before the mark to which it leads. */\n\
function arrow(name, x1, y1, x2, y2) {\n\
\x20 const length = Math.hypot(x2 - x1, y2 - y1) || 1;\n\
\x20 const dx = (x2 - x1) / length;\n\
\x20 const dy = (y2 - y1) / length;\n\
\x20 const [x, y] = [x2 - 5 * dx, y2 - 5 * dy];\n\
\x20 const [backX, backY] = [x - 9 * dx, y - 9 * dy];\n\
\x20 const sides = `L${backX - 4 * dy} ${backY + 4 * dx}L${backX + 4 * dy} ${backY - 4 * dx}`;\n\
\x20 const tip = y <= view.height ? `<path class=\"tip ${name}\" d=\"M${x} ${y}${sides}z\"/>` : \"\";\n\
\x20 return line(`arrow ${name}`, x1, y1, x, y) + tip;\n\
}\n\
\n\
const label = (name, x, y, text, anchor = \"start\") =>\n\
\x20 `<text class=\"halo ${name}\" x=\"${x}\" y=\"${y}\" text-anchor=\"${anchor}\">${escaped(text)}</text>`;\n\
\n\
function laneParts(rows) {\n\
\x20 const { stations, height, left } = view;\n\
\x20 const lanes = stations.map(({ start, end, kernel, lanes }, place) => {\n\
\x20   const band = `<rect x=\"${start}\" width=\"${end - start}\" height=\"${height}\" class=\"band\"/>`;\n\
\x20   const threads = joined(lanes, ({ pid }) => line(\"thread\", laneOf(pid), 0, laneOf(pid), height));\n\
\x20   return (place % 2 === 0 ? band : \"\") + line(\"kernel\", kernel, 0, kernel, height) + threads;\n\
\x20 });\n\
\x20 return lanes.join(\"\") + joined(rows, row => line(\"rowline\", GUTTER, yOf(row), left, yOf(row)));\n\
}\n\
\n\
/** The first of these spans that ends behind the event. */\n\
function firstBehind(spans, event) {\n\
\x20 let low = 0;\n\
\x20 let high = spans.length;\n\
\x20 while (low < high) {\n\
\x20   const middle = (low + high) >> 1;\n\
\x20   if (spans[middle].to > event) high = middle;\n\
\x20   else low = middle + 1;\n\
\x20 }\n\
\x20 return low;\n\
}\n\
\n\
/** What processes are blocked in, done with, and where they are dead. */\n\
function barParts(first, last) {\n\
\x20 const from = view.rows[first]?.first ?? 0;\n\
\x20 const to = view.rows[last]?.last ?? 0;\n\
\x20 let parts = \"\";\n\
\x20 for (const { pid, spans } of view.stations.flatMap(({ lanes }) => lanes)) {\n\
\x20   for (let place = firstBehind(spans, from - 1); spans[place]?.from <= to; place++) {\n\
\x20     parts += bar(spans[place], laneOf(pid));\n\
\x20   }\n\
\x20 }\n\
\x20 return parts;\n\
}\n\
\n\
function bar({ from, to, state, why }, x) {\n\
\x20 const { rowOf, history, height } = view;\n\
\x20 const top = Math.max(-10, yOf(rowOf[from]));\n\
\x20 const bottom = Math.min(height + 2, yOf(rowOf[Math.min(to, history.events.length)]));\n\
\x20 if (state === \"dead\") return line(\"blank\", x, top, x, bottom) + line(\"dead\", x, top, x, bottom);\n\
\x20 if (bottom <= top) return \"\";\n\
\x20 const name = state === \"done\" ? \"done\" : `in-${why.split(\" \")[0].replace(/to$|from$/, \"\")}`;\n\
\x20 return `<rect class=\"bar ${name}\" x=\"${x - 4.5}\" width=\"9\" y=\"${top}\" height=\"${bottom - top}\" rx=\"3\"/>`;\n\
}\n\
\n\
/** How many are drawn that leave before what is looked at and come behind it; of a Send that is chosen, five times. */\n\
const MOST_PASSING = 12;\n\
/** Frames on their way, and what goes within a station. */\n\
function arrowParts(first, last) {\n\
\x20 const { events } = view.history;\n\
\x20 const isIn = row => row >= first && row <= last;\n\
\x20 let parts = \"\";\n\
\x20 let passing = 0;\n\
\x20 for (const one of view.spans.over(first, last)) {\n\
\x20   const from = view.rowOf[one.frame?.event ?? one.from];\n\
\x20   const to = view.rowOf[one.to];\n\
\x20   const ends = count([from, to], isIn);\n\
\x20   if (!one.frame) parts += linkArrow(one, from, to);\n\
\x20   else if (ends < 2 && isIdle(events[one.to])) parts += isIn(to) ? stub(one, to) : \"\";\n\
\x20   else if (ends > 0 || (passing += isHot(one.frame) ? 0.2 : 1) <= MOST_PASSING) parts += frameArrow(one, from, to);\n\
\x20 }\n\
\x20 return parts;\n\
}\n\
\n\
/** Whether the frame is of an exchange of the chosen event. */\n\
function isHot({ exchange }) {\n\
\x20 const { isTold, follow, history, chosen } = view;\n\
\x20 return isTold && exchange !== null && !follow && history.events[chosen].exchanges.includes(exchange);\n\
}\n\
\n\
function frameArrow({ frame, to, nth }, fromRow, toRow) {\n\
\x20 const { events } = view.history;\n\
\x20 const isThick = isHot(frame);\n\
\x20 const faint = isIdle(events[to]) && !isThick ? \" faint\" : \"\";\n\
\x20 const name = `${frame.kind}${faint}${nth > 0 ? \" again\" : \"\"}${isThick ? \" hot\" : \"\"}`;\n\
\x20 return arrow(name, laneAt(events[frame.event]), yOf(fromRow), kernelOf(events[to].host), yOf(toRow));\n\
}\n\
\n\
/** The end of the arrow of a frame that left long ago and changes nothing. */\n\
function stub({ frame, to }, toRow) {\n\
\x20 const { events } = view.history;\n\
\x20 const x = kernelOf(events[to].host);\n\
\x20 const y = yOf(toRow);\n\
\x20 const side = Math.sign(laneAt(events[frame.event]) - x) || 1;\n\
\x20 return arrow(`${frame.kind} faint again`, x + side * 18, y - 13, x, y);\n\
}\n\
\n\
function linkArrow({ fromLane, toLane, kind }, fromRow, toRow) {\n\
\x20 const from = laneOf(fromLane);\n\
\x20 const to = laneOf(toLane);\n\
\x20 if (from === to) return \"\";\n\
\x20 if (kind === \"wait\") return line(\"wait\", from, yOf(fromRow), to, yOf(toRow));\n\
\x20 return arrow(kind, from, yOf(fromRow), to, yOf(toRow));\n\
}\n\
\n\
/** The frames of a row that came nowhere: of each a short arrow on its way, and a cross. */\n\
function lostParts(row) {\n\
\x20 const event = view.history.events[view.rows[row].first];\n\
\x20 return joined(event.frames.filter(isLost), frame => lostArrow(frame, laneAt(event), yOf(row)));\n\
}\n\
\n\
function lostArrow(frame, x, y) {\n\
\x20 const way = (kernelOf(frame.dest) ?? view.left) - x;\n\
\x20 const side = Math.sign(way) || 1;\n\
\x20 const endX = x + side * clamp(Math.abs(way) * 0.4, 26, 46);\n\
\x20 const endY = y + 13;\n\
\x20 const words = label(\"lost\", endX + side * 8, endY + 4, `${frame.kind} lost`, side > 0 ? \"start\" : \"end\");\n\
\x20 return line(`arrow ${frame.kind}${isHot(frame) ? \" hot\" : \"\"}`, x, y, endX, endY) +\n\
\x20   `<path class=\"cross\" d=\"M${endX - 5} ${endY - 5}l10 10m0 -10l-10 10\"/>` + (view.wide > 56 ? words : \"\");\n\
}\n\
\n\
/** The mark of the event of a row, and words where there is room. */\n\
function markParts(row) {\n\
\x20 const { first, last } = view.rows[row];\n\
\x20 const event = view.history.events[first];\n\
\x20 return last > first ? tickRun(first, last, yOf(row)) : mark(event, laneAt(event), yOf(row));\n\
}\n\
\n\
function mark(event, x, y) {\n\
\x20 const { kind, frame, answer, problem } = event;\n\
\x20 const bad = problem ? \"bad\" : \"\";\n\
\x20 const name = bad || (frame?.kind ?? \"\");\n\
\x20 const isFromRight = frame && laneAt(view.history.events[frame.event]) > x;\n\
\x20 const words = labelWords(event);\n\
\x20 const text = words ? label(name, x + 9, isFromRight ? y + 13 : y - 3, words) : \"\";\n\
\x20 if (kind === \"call\") return `<circle class=\"disc ${bad}\" cx=\"${x}\" cy=\"${y}\" r=\"5\"/>${text}`;\n\
\x20 if (kind === \"collect\") return `<circle class=\"ring\" cx=\"${x}\" cy=\"${y}\" r=\"5\"/>${text}`;\n\
\x20 if (kind === \"tick\") return tickMark(x, y, bad) + text;\n\
\x20 const faint = answer === \"taken\" ? \"\" : \"faint\";\n\
\x20 return `<rect class=\"square ${name} ${faint}\" x=\"${x - 5}\" y=\"${y - 5}\" width=\"10\" height=\"10\"/>${text}`;\n\
}\n\
\n\
const tickMark = (x, y, name = \"\") => line(`tick ${name}`, x - 7, y, x + 7, y);\n\
\n\
/** A word or two beside the mark, where there is room. */\n\
function labelWords(event) {\n\
\x20 const { kind, answer, problem } = event;\n\
\x20 if (kind === \"tick\") return problem;\n\
\x20 if (kind === \"deliver\") return view.wide < 70 ? null : comingLabel(event);\n\
\x20 if (view.wide < 48) return null;\n\
\x20 const call = () => callWords(event).split(\" \").slice(0, 2).join(\" \");\n\
\x20 const words = kind === \"collect\" || FAILURES.has(answer) ? answer : call();\n\
\x20 return shortened(words, Math.floor((view.wide / 2 + 14) / LETTER));\n\
}\n\
\n\
function comingLabel({ answer, frame, nth }) {\n\
\x20 if (!frame) return answer;\n\
\x20 if (answer !== \"taken\") return `${frame.kind} ${answer}`;\n\
\x20 if (nth > 1) return `${frame.kind} again`;\n\
\x20 return frame.copy > 1 ? `${frame.kind} copy ${frame.copy}` : frame.kind;\n\
}\n\
\n\
/** Events in one row: a box on the kernel of each station that has some, and how many. */\n\
function tickRun(first, last, y) {\n\
\x20 const counts = new Map();\n\
\x20 for (const { host } of view.history.events.slice(first, last + 1)) counts.set(host, (counts.get(host) ?? 0) + 1);\n\
\x20 return joined([...counts], ([host, number]) => {\n\
\x20   const x = kernelOf(host);\n\
\x20   if (number === 1) return tickMark(x, y);\n\
\x20   return tickMark(x, y - 3) + tickMark(x, y + 3) + label(\"soft\", x + 10, y + 4, `\xc3\x97${number}`);\n\
\x20 });\n\
}\n\
\n\
const RUN_WORDS = {\n\
\x20 tick: [\"quiet tick\"], collect: [\"early collect\"], deliver: [\"idle delivery\", \"idle deliveries\"],\n\
};\n\
/** What stands in one row. */\n\
function runWords(first, last) {\n\
\x20 const kinds = view.history.events.slice(first, last + 1).map(({ kind }) => kind);\n\
\x20 const counts = Object.keys(RUN_WORDS).map(kind => [kind, count(kinds, one => one === kind)]);\n\
\x20 const parts = counts.filter(([, number]) => number).map(([kind, number]) => counted(number, ...RUN_WORDS[kind]));\n\
\x20 return `${parts.join(\", \")}, to event ${last + 1}`;\n\
}\n\
\n\
/** The line of a row, which says all that is drawn. */\n\
function rowParts(row) {\n\
\x20 const { rows, left, isTold, chosen, history } = view;\n\
\x20 const { first, last, skipped } = rows[row];\n\
\x20 const event = history.events[first];\n\
\x20 const isChosen = isTold && first <= chosen && chosen <= last;\n\
\x20 const words = escaped(last > first ? runWords(first, last) : lineOf(event));\n\
\x20 const name = event.problem ? \"bad\" : isEmpty(event) ? \"soft\" : event.frames.some(isLost) ? \"lost\" : \"\";\n\
\x20 const skip = `<i class=\"skip\" title=\"${skipped} events between are hidden\">\xe2\x8b\xae</i>`;\n\
\x20 return `<li id=\"row${row}\" role=\"option\" aria-selected=\"${isChosen}\" aria-posinset=\"${row + 1}\"\n\
\x20   aria-setsize=\"${rows.length}\" class=\"${isChosen ? \"chosen\" : \"\"}\" style=\"top:${row * ROW}px\"\n\
\x20   data-event=\"${first}\" title=\"${words}\">${skipped && isPart() ? skip : \"\"}<i class=\"n\">${first + 1}</i>` +\n\
\x20   `<span class=\"own\">${event.own}</span>` +\n\
\x20   `<span class=\"${name}\" style=\"padding-left:${left + 10}px\">${words}</span></li>`;\n\
}\n\
\n\
/** The names of stations and processes above their lanes. */\n\
function drawNames() {\n\
\x20 byId(\"names\").innerHTML = `<span class=\"corner\">event</span>${joined(view.stations, stationName)}`;\n\
\x20 byId(\"names\").style.width = byId(\"sheet\").style.minWidth;\n\
}\n\
\n\
function stationName({ host, lanes, start, end, kernel }) {\n\
\x20 const isFolded = view.folded.has(host);\n\
\x20 const { processes } = view.history.stations.get(host);\n\
\x20 const name = `${end - start > 70 ? \"station \" : \"\"}${host}${isFolded && !lanes.length ? \" \xe2\x96\xb8\" : \"\"}`;\n\
\x20 const core = `<span class=\"core\" style=\"left:${kernel - KERNEL}px\">kernel</span>`;\n\
\x20 return `<button class=\"station\" data-host=\"${host}\" aria-expanded=\"${!isFolded}\"\n\
\x20   title=\"Fold or unfold station ${host}, of ${counted(processes.length, \"process\", \"processes\")}\"\n\
\x20   style=\"left:${start}px;width:${end - start}px\">${name}</button>` +\n\
\x20   (view.wide > 56 ? core : \"\") + joined(lanes, processName);\n\
}\n\
\n\
function processName({ pid }) {\n\
\x20 const { only, wide } = view;\n\
\x20 const isOnly = only.has(pid);\n\
\x20 return `<button class=\"process ${isOnly ? \"only\" : \"\"}\" aria-pressed=\"${isOnly}\" data-pid=\"${pid}\"\n\
\x20   title=\"Only ${pid}, or with others\" style=\"left:${laneOf(pid) - wide / 2}px;width:${wide}px\">` +\n\
\x20   `${wide < 38 ? pid.split(\".\")[1] : pid}</button>`;\n\
}\n\
\n\
// ------------------------------------------------------------------------------------------------------- overview\n\
\n\
const STRIP = { top: 20, side: 8, marks: 64, mark: 15 };\n\
/** What stands behind the stations: of an event the test, its sign, its colour. */\n\
const STRIP_MARKS = [\n\
\x20 { test: event => event.answer === \"old\" || isIdle(event), sign: \"\xe2\x89\x88\", color: \"var(--pending)\" },\n\
\x20 { test: event => event.frames.some(isLost), sign: \"\xc3\x97\", color: \"var(--lost)\" },\n\
\x20 { test: event => event.problem, sign: \"!\", color: \"var(--bad)\" },\n\
];\n\
\n\
/** The whole history from top to bottom: a column a station, darker where more happens, then what came for nothing,\n\
\x20*  was lost, or failed; before all what is shown, where it is not all. */\n\
function drawStrip() {\n\
\x20 const { clientHeight, clientWidth } = byId(\"overview\");\n\
\x20 const { events, stations } = view.history;\n\
\x20 view.bins = Math.max(1, Math.min(clientHeight - STRIP.top - 6, events.length * 8));\n\
\x20 const marks = STRIP_MARKS.map(({ test, color }, place) =>\n\
\x20   rectangles(binned(test), Boolean, STRIP.marks + place * STRIP.mark, 12, 2, `fill:${color}`));\n\
\x20 if (isPart()) marks.push(rectangles(binned(view.isShown), Boolean, 1, 5, 2, \"fill:var(--ink)\"));\n\
\x20 const heads = STRIP_MARKS.map(({ sign, color }, place) =>\n\
\x20   stripHead(sign, STRIP.marks + place * STRIP.mark + 2, color));\n\
\x20 byId(\"strip\").innerHTML = `<title>\xe2\x89\x88 came for nothing, \xc3\x97 lost, ! failed</title>` +\n\
\x20   stationColumns([...stations.keys()]) + marks.join(\"\") + stripHead(\"stations\", STRIP.side, \"var(--soft)\") +\n\
\x20   heads.join(\"\") + `<rect id=\"window\" class=\"box\" x=\"1\" width=\"${clientWidth - 2}\"/>`;\n\
}\n\
\n\
const stripHead = (text, x, color) => `<text x=\"${x}\" y=\"14\" style=\"fill:${color}\">${text}</text>`;\n\
const binOf = index => Math.floor(index * view.bins / view.history.events.length);\n\
\n\
/** How many of these events fall on each pixel of the overview. */\n\
function binned(test) {\n\
\x20 const bins = new Int32Array(view.bins);\n\
\x20 for (const event of view.history.events) if (test(event)) bins[binOf(event.index)]++;\n\
\x20 return bins;\n\
}\n\
\n\
/** A rectangle for each pixel for which the test holds, as one path. */\n\
function rectangles(bins, test, x, wide, least, style) {\n\
\x20 const high = Math.max(least, view.bins / view.history.events.length);\n\
\x20 let path = \"\";\n\
\x20 bins.forEach((number, bin) => {\n\
\x20   if (test(number)) path += `M${x} ${STRIP.top + bin}h${wide}v${high}h${-wide}z`;\n\
\x20 });\n\
\x20 return `<path d=\"${path}\" style=\"${style}\"/>`;\n\
}\n\
\n\
/** A column for each station, in three shades by how much happens there. */\n\
function stationColumns(hosts) {\n\
\x20 const wide = (STRIP.marks - STRIP.side - 4) / hosts.length;\n\
\x20 const counts = new Map(hosts.map(host => [host, new Int32Array(view.bins)]));\n\
\x20 for (const event of view.history.events) {\n\
\x20   const bins = isQuiet(event) ? null : counts.get(event.host);\n\
\x20   if (bins) bins[binOf(event.index)]++;\n\
\x20 }\n\
\x20 const most = [...counts.values()].reduce((sum, bins) => bins.reduce((a, b) => Math.max(a, b), sum), 1);\n\
\x20 const shade = (bins, place, level) => {\n\
\x20   const test = number => number > level / 3 * most && number <= (level + 1) / 3 * most + 0.01;\n\
\x20   const style = `fill:var(--send);opacity:${0.25 + 0.3 * level}`;\n\
\x20   return rectangles(bins, test, STRIP.side + place * wide, wide - Math.min(2, wide / 4), 1, style);\n\
\x20 };\n\
\x20 return [...counts.values()].map((bins, place) => joined([0, 1, 2], level => shade(bins, place, level))).join(\"\");\n\
}\n\
\n\
/** Where in the overview that stands which is looked at. */\n\
function drawWindow() {\n\
\x20 const box = byId(\"window\");\n\
\x20 const [first, last] = seen(0);\n\
\x20 const { rows, bins, history } = view;\n\
\x20 if (!matchMedia(\"print\").matches) view.looked = [first, last];\n\
\x20 if (!box || !rows.length) return;\n\
\x20 const top = rows[first].first * bins / history.events.length;\n\
\x20 const bottom = (rows[last].last + 1) * bins / history.events.length;\n\
\x20 box.setAttribute(\"y\", STRIP.top + top - 1);\n\
\x20 box.setAttribute(\"height\", Math.max(4, bottom - top + 2));\n\
}\n\
\n\
// ---------------------------------------------------------------------------------------------------------- aside\n\
\n\
const MOST_LISTED = 8;\n\
const goEvent = (index, text = `event ${index + 1}`) => `<button class=\"go\" data-go=\"${index}\">${text}</button>`;\n\
const goSend = ({ name }) => `<button class=\"go\" data-follow=\"${name}\">${name}</button>`;\n\
const listItem = (index, most) =>\n\
\x20 `${goEvent(index, `${index + 1}`)} ${escaped(shortened(lineOf(view.history.events[index]), most))}`;\n\
const failedName = word => FAILURES.has(word) ? \"bad\" : \"\";\n\
const outcomeOf = ({ outcome }) => `<span class=\"${failedName(outcome)}\">${outcome ?? \"still waits\"}</span>`;\n\
\n\
function drawTold() {\n\
\x20 const event = view.history.events[view.chosen];\n\
\x20 byId(\"told\").innerHTML = view.isTold && event ? eventParts(event) : summaryParts();\n\
\x20 byId(\"told\").scrollTop = 0;\n\
}\n\
\n\
function eventParts(event) {\n\
\x20 const { index, own, frame, frames, exchanges } = event;\n\
\x20 const leaving = `<h3>Where to</h3><ul class=\"wide\">${joined(frames, leavingParts)}</ul>`;\n\
\x20 const shown = [frame, ...frames.slice(0, 4)].filter(Boolean);\n\
\x20 return `<h2>Event ${index + 1}${own.endsWith(\"-\") ? \"\" : `, ${own}`}</h2><p>${escaped(sentenceOf(event))}</p>` +\n\
\x20   (frame ? comingParts(event) : \"\") + (frames.length ? leaving : \"\") + textParts(event) +\n\
\x20   joined(exchanges.slice(0, MOST_LISTED), exchange => exchangeParts(exchange, event)) +\n\
\x20   joined(shown, decodedParts) + processParts(event) +\n\
\x20   `<p><button class=\"go\" data-summary>What happened in all</button></p>`;\n\
}\n\
\n\
/** Where the frame that comes has left, and where else it comes. */\n\
function comingParts({ index, frame }) {\n\
\x20 const others = frame.comes.filter(one => one !== index);\n\
\x20 const listed = others.slice(0, MOST_LISTED).map(one => goEvent(one)).join(\", \");\n\
\x20 const more = others.length > MOST_LISTED ? \" and more\" : \"\";\n\
\x20 return `<h3>Whence</h3><p>Frame ${frame.id}, <b class=\"${frame.kind}\">${frameWords(frame)}</b>, left at ` +\n\
\x20   `${goEvent(frame.event)}, ${counted(index - frame.event, \"event\")} before.` +\n\
\x20   `${others.length ? ` It comes also at ${listed}${more}.` : \"\"}</p>`;\n\
}\n\
\n\
/** Where a frame that is emitted comes. */\n\
function leavingParts(frame) {\n\
\x20 const comes = frame.comes.slice(0, MOST_LISTED).map(index => {\n\
\x20   const event = view.history.events[index];\n\
\x20   return `${goEvent(index)} (${event.answer}${isIdle(event) ? \", changes nothing\" : \"\"})`;\n\
\x20 });\n\
\x20 const where = comes.length ? `comes at ${comes.join(\", \")}` : `<span class=\"lost\">comes nowhere</span>`;\n\
\x20 return `<li><b class=\"${frame.kind}\">${frameWords(frame)}</b>: ${where}`;\n\
}\n\
\n\
/** The lines of the event, as the texts have them. */\n\
function textParts({ index, own, answer, scheduled, steps, frames }) {\n\
\x20 const lines = [\n\
\x20   scheduled, `${index + 1} ${own} ${answer}`, ...steps.map(step => `step ${step}`),\n\
\x20   ...frames.map(({ id, dest, kind, length }) => `frame ${id} ${dest} ${kind} ${length}`),\n\
\x20 ];\n\
\x20 return `<h3>As the texts have it</h3><pre>${escaped(lines.map(one => shortened(one, 180)).join(\"\\n\"))}</pre>`;\n\
}\n\
\n\
/** What came of a Send or lookup, and its events, of which only those near this one are listed where there are many. */\n\
function exchangeParts(exchange, event) {\n\
\x20 const { name, sender, target, isLookup, events, frames, begun, ended } = exchange;\n\
\x20 const near = Math.max(0, events.indexOf(event.index) - 12);\n\
\x20 const some = events.length > 30 ? events.slice(near, near + 25) : events;\n\
\x20 const list = joined(some, index => `<li${index === event.index ? ` class=\"this\"` : \"\"}>${listItem(index, 90)}`);\n\
\x20 const what = isLookup ? \"lookup\" : \"Send\";\n\
\x20 const copies = count(frames, frame => frame.copy > 1);\n\
\x20 const follows = view.follow === exchange ? \"Show all again\" : `Follow this ${what} alone`;\n\
\x20 const more = `<p class=\"soft\">${events.length - some.length} more</p>`;\n\
\x20 return `<h2>${isLookup ? \"Lookup\" : \"Send\"} ${goSend(exchange)}</h2>` +\n\
\x20   `<p>${sender} ${isLookup ? \"asks for\" : \"to\"} ${target}: <b>${outcomeOf(exchange)}</b>` +\n\
\x20   `${ended === null ? \"\" : ` after ${counted(ended - begun, \"event\")}`}; ${counted(frames.length, \"frame\")}, ` +\n\
\x20   `of which ${count(frames, isLost)} lost and ${copies} sent again.</p>` +\n\
\x20   `<p><button data-follow=\"${name}\">${follows} (f)</button></p><ul>${list}</ul>` +\n\
\x20   (some.length < events.length ? more : \"\");\n\
}\n\
\n\
/** A frame, decoded. What stands behind its fields are bytes of a process's memory, which are told by their count. */\n\
function decodedParts(frame) {\n\
\x20 const { id, host, dest, kind, length, stamp, lamport, fields } = frame;\n\
\x20 const header = [[\"source\", host], [\"destination\", dest], [\"stamp\", stamp], [\"Lamport\", lamport]];\n\
\x20 const named = fields.map((text, place) => [FIELDS[kind][place], text]);\n\
\x20 const bytes = bytesOf(frame);\n\
\x20 const behind = length - bytes.join(\"\").length / 2;\n\
\x20 return `<h3>Frame ${id}, <span class=\"${kind}\">${kind}</span>, ${counted(length, \"byte\")}</h3>` +\n\
\x20   `<dl>${joined([...header, ...named], ([name, text]) => `<dt>${name}<dd>${text}`)}</dl>` +\n\
\x20   `<pre class=\"bytes\">${bytes.join(\" \")}${behind ? ` and ${counted(behind, \"byte\")} behind` : \"\"}</pre>`;\n\
}\n\
\n\
const SIZES = { number: 8, move: 8, lookup: 8, message: 32, count: 2 };\n\
const hex = (value, size) => Number(value).toString(16).padStart(2 * size, \"0\");\n\
\n\
/** The bytes of a frame up to those behind its fields, as docs/FORMATS.md spells them. */\n\
function bytesOf({ id, host, dest, kind, stamp, lamport, fields }) {\n\
\x20 const [, event, output] = id.split(/[:.]/);\n\
\x20 const number = Object.keys(FIELDS).indexOf(kind) + 1;\n\
\x20 const header = [\n\
\x20   \"564b\", hex(host, 2), dest === \"all\" ? \"ffff\" : hex(dest, 2), hex(stamp, 8), hex(lamport, 8), hex(event, 8),\n\
\x20   hex(output, 2), hex(number, 1),\n\
\x20 ];\n\
\x20 return [...header, ...fields.map((text, place) => fieldBytes(text, FIELDS[kind][place]))];\n\
}\n\
\n\
function fieldBytes(text, name) {\n\
\x20 if (text.includes(\".\")) return text.split(\".\").map(part => hex(part, 2)).join(\"\");\n\
\x20 return name === \"message\" ? text.replace(\"-\", \"\").padEnd(64, \"0\") : hex(text, SIZES[name] ?? 4);\n\
}\n\
\n\
/** What each process that is shown does behind the event. */\n\
function processParts({ index }) {\n\
\x20 const processes = view.stations.flatMap(({ lanes }) => lanes).slice(0, 64);\n\
\x20 if (!processes.length) return \"\";\n\
\x20 const rows = processes.map(({ pid, spans }) => {\n\
\x20   const span = spans[firstBehind(spans, index)];\n\
\x20   return [pid, span?.from <= index ? stateParts(span) : \"ready\"];\n\
\x20 });\n\
\x20 return `<h2>Processes behind this event</h2>${table(rows)}`;\n\
}\n\
\n\
function stateParts({ from, state, why }) {\n\
\x20 const words = { blocked: `blocked in ${why}`, done: `done (${why}), not collected,`, dead: \"dead\" };\n\
\x20 return `${words[state]} since ${goEvent(from)}`;\n\
}\n\
\n\
/** What happened in all, and what to look at first. */\n\
function summaryParts() {\n\
\x20 const { events, exchanges, doubts } = view.history;\n\
\x20 const sends = [...exchanges.values()].filter(({ isLookup }) => !isLookup);\n\
\x20 const problems = events.filter(({ problem }) => problem);\n\
\x20 const longest = sends.toSorted((a, b) => durationOf(b) - durationOf(a));\n\
\x20 const repeated = sends.filter(({ frames }) => frames.some(({ copy }) => copy > 1));\n\
\x20 const busiest = repeated.sort((a, b) => b.frames.length - a.frames.length);\n\
\x20 const doubt = `<p class=\"bad\">The texts do not fit each other: ${escaped(doubts.slice(0, 3).join(\"; \"))}</p>`;\n\
\x20 return `<h2>What happened</h2>${table(summaryRows(sends, problems))}` + (doubts.length ? doubt : \"\") +\n\
\x20   problemParts(problems) + sendParts(\"Sends with most frames\", busiest) + sendParts(\"Longest Sends\", longest);\n\
}\n\
\n\
function summaryRows(sends, problems) {\n\
\x20 const { events, frames, processes, stations, times } = view.history;\n\
\x20 const comes = events.filter(({ kind }) => kind === \"deliver\");\n\
\x20 const ended = outcome => count(sends, one => one.outcome === outcome);\n\
\x20 const answered = (...answers) => count(comes, ({ answer }) => answers.includes(answer));\n\
\x20 return [\n\
\x20   [\"events\", `${events.length}, of which ${count(events, isQuiet)} quiet ticks`],\n\
\x20   [\"stations, processes\", `${stations.size}, ${processes.length}`],\n\
\x20   [\"tries, interval, life\", times.join(\", \")],\n\
\x20   [\"Sends\", `${sends.length}: ${ended(\"replied\")} replied, ${ended(\"timedout\")} timed out, ` +\n\
\x20     `${ended(\"noprocess\")} without process, ${ended(null)} still waiting`],\n\
\x20   [\"frames\", `${frames.length}: ${count(frames, isLost)} lost, ` +\n\
\x20     `${count(frames, one => one.comes.length > 1)} came more than once, ` +\n\
\x20     `${count(frames, one => one.copy > 1)} were sent again`],\n\
\x20   [\"deliveries\", `${comes.length}: ${answered(\"old\")} too old, ${count(comes, isIdle)} changed nothing, ` +\n\
\x20     `${answered(\"bad\", \"missing\")} bad or missing`],\n\
\x20   [\"problems\", problems.length ? `<span class=\"bad\">${problems.length}</span>` : \"none\"],\n\
\x20 ];\n\
}\n\
\n\
function problemParts(problems) {\n\
\x20 if (!problems.length) return \"\";\n\
\x20 const list = joined(problems.slice(0, 60), event => {\n\
\x20   const words = escaped(shortened(lineOf(event), 70));\n\
\x20   return `<li>${goEvent(event.index, `${event.index + 1}`)} <span class=\"bad\">${event.problem}</span> ${words}`;\n\
\x20 });\n\
\x20 const more = `<p class=\"soft\">${problems.length - 60} more: n and p go from one to the next.</p>`;\n\
\x20 return `<h2>Problems</h2><ul>${list}</ul>${problems.length > 60 ? more : \"\"}`;\n\
}\n\
\n\
const durationOf = ({ begun, ended }) => (ended ?? view.history.events.length) - begun;\n\
\n\
function sendParts(title, sends) {\n\
\x20 if (!sends.length) return \"\";\n\
\x20 const list = joined(sends.slice(0, MOST_LISTED), send => `<li>${goSend(send)} to ${send.target} at ` +\n\
\x20   `${goEvent(send.begun, `${send.begun + 1}`)}: ${outcomeOf(send)}, ${counted(durationOf(send), \"event\")}, ` +\n\
\x20   counted(send.frames.length, \"frame\"));\n\
\x20 return `<h2>${title}</h2><ul>${list}</ul>`;\n\
}\n\
\n\
/** What is left out of the history: buttons that bring it back. */\n\
function drawChips() {\n\
\x20 const { follow, only, rows, history } = view;\n\
\x20 const chip = (key, what) => `<button data-clear=\"${key}\" title=\"Show all again\">${what} \xe2\x9c\x95</button>`;\n\
\x20 const chips = joined([...only], pid => chip(pid, `only ${pid}`));\n\
\x20 const shown = `<span class=\"soft\">${rows.length} of ${history.events.length} events</span>`;\n\
\x20 byId(\"chips\").innerHTML = (follow ? chip(\"follow\", `${follow.name} alone`) : chips) + (isPart() ? shown : \"\");\n\
}\n\
\n\
// ------------------------------------------------------------------------------------------------------- choosing\n\
\n\
/** Chooses an event, which may be hidden, and scrolls so that it, or the row before it, is seen. */\n\
function choose(index, isFar = true) {\n\
\x20 const { events } = view.history;\n\
\x20 if (!events.length) return;\n\
\x20 view.chosen = clamp(index, 0, events.length - 1);\n\
\x20 view.isTold = true;\n\
\x20 byId(\"jump\").classList.remove(\"missed\");\n\
\x20 scrollToRow(view.rowOf[view.chosen], isFar);\n\
\x20 draw();\n\
\x20 drawTold();\n\
\x20 byId(\"live\").textContent = `Event ${view.chosen + 1}. ${sentenceOf(events[view.chosen])}`;\n\
\x20 history.replaceState(null, \"\", `#${view.chosen + 1}${view.follow ? `,${view.follow.name}` : \"\"}`);\n\
}\n\
\n\
/** Where the row is not seen, scrolls to it: far to the upper third, else so that it is just seen. */\n\
function scrollToRow(row, isFar) {\n\
\x20 const scroller = byId(\"scroller\");\n\
\x20 const room = scroller.clientHeight - HEAD;\n\
\x20 const top = row * ROW;\n\
\x20 const isAbove = top < scroller.scrollTop;\n\
\x20 if (!isAbove && top + ROW <= scroller.scrollTop + room) return;\n\
\x20 if (isFar) scroller.scrollTop = top - room / 3;\n\
\x20 else scroller.scrollTop = isAbove ? top : top + ROW - room;\n\
}\n\
\n\
/** Changes what is shown, and keeps the chosen event where it is. */\n\
function change(how) {\n\
\x20 how();\n\
\x20 remake();\n\
\x20 const scroller = byId(\"scroller\");\n\
\x20 scroller.scrollTop = view.rowOf[view.chosen] * ROW - (scroller.clientHeight - HEAD) / 3;\n\
\x20 draw();\n\
\x20 drawTold();\n\
}\n\
\n\
function showSummary() {\n\
\x20 view.isTold = false;\n\
\x20 draw();\n\
\x20 drawTold();\n\
}\n\
\n\
function showAll() {\n\
\x20 change(() => {\n\
\x20   view.follow = null;\n\
\x20   view.only.clear();\n\
\x20 });\n\
}\n\
\n\
function toggleFollow(exchange) {\n\
\x20 change(() => {\n\
\x20   view.follow = view.follow === exchange ? null : exchange;\n\
\x20   view.only.clear();\n\
\x20 });\n\
}\n\
\n\
function toggleOnly(pid) {\n\
\x20 change(() => {\n\
\x20   view.follow = null;\n\
\x20   toggle(view.only, pid);\n\
\x20 });\n\
}\n\
\n\
function toggle(set, item) {\n\
\x20 if (!set.delete(item)) set.add(item);\n\
}\n\
\n\
/** Chooses the next event in this direction that is shown and for which the test holds. */\n\
function find(test, way) {\n\
\x20 const { events } = view.history;\n\
\x20 const start = way > 0 ? 0 : events.length - 1;\n\
\x20 for (let index = view.isTold ? view.chosen + way : start; events[index]; index += way) {\n\
\x20   if (test(events[index]) && view.isShown(events[index])) return choose(index);\n\
\x20 }\n\
\x20 byId(\"live\").textContent = \"There is none.\";\n\
\x20 byId(\"jump\").classList.add(\"missed\");\n\
}\n\
\n\
function stepRow(by) {\n\
\x20 const isFrom = view.isTold || !Number.isFinite(by);\n\
\x20 const row = isFrom ? view.rowOf[view.chosen] + by : seen(0)[0];\n\
\x20 const to = view.rows[clamp(row, 0, view.rows.length - 1)];\n\
\x20 if (to) choose(to.first, false);\n\
}\n\
\n\
/** Along the frame, or else along the Send. */\n\
function stepAlong(way) {\n\
\x20 const event = view.history.events[view.chosen];\n\
\x20 if (!event) return;\n\
\x20 const comes = event.frames.flatMap(frame => frame.comes);\n\
\x20 if (way < 0 && event.frame) choose(event.frame.event);\n\
\x20 else if (way > 0 && comes.length) choose(Math.min(...comes));\n\
\x20 else if (event.exchanges.length) stepIn(event.exchanges[0].events, way);\n\
}\n\
\n\
/** To the same process's, or else the same station's, event before or next. */\n\
function stepLane(way) {\n\
\x20 const { byPid, stations, events } = view.history;\n\
\x20 const event = events[view.chosen];\n\
\x20 if (event) stepIn((event.pid ? byPid.get(event.pid) : stations.get(event.host)).events, way);\n\
}\n\
\n\
/** To the one before or behind the chosen event in this list of events. */\n\
function stepIn(list, way) {\n\
\x20 const next = list[list.indexOf(view.chosen) + way];\n\
\x20 if (next !== undefined) choose(next);\n\
}\n\
\n\
/** Goes where a word says: 12, 2:, 2:4, 2:4.1, 1.1, 1.1#3, 1.1?1, or to the next line that has it. */\n\
function go(text) {\n\
\x20 const { byPid, byName, exchanges } = view.history;\n\
\x20 if (/^\\d+$/.test(text)) return choose(Number(text) - 1);\n\
\x20 if (/^\\d+:$/.test(text)) return find(event => `${event.host}:` === text, 1);\n\
\x20 if (byPid.has(text)) return toggleOnly(text);\n\
\x20 if (exchanges.has(text)) return goExchange(exchanges.get(text));\n\
\x20 const named = byName.get(text);\n\
\x20 if (named) return choose(named.index ?? named.event);\n\
\x20 const has = line => line.includes(text);\n\
\x20 if (text) find(event => has(lineOf(event)) || has(event.scheduled) || event.steps.some(has), 1);\n\
}\n\
\n\
function goExchange(exchange) {\n\
\x20 if (view.follow !== exchange) toggleFollow(exchange);\n\
\x20 choose(exchange.begun);\n\
}\n\
\n\
/** Goes where the address says: `#12`, or `#12,1.1#3` where that Send is followed. */\n\
function goAddress() {\n\
\x20 const [event, name] = decodeURIComponent(location.hash.slice(1)).split(\",\");\n\
\x20 if (name) go(name);\n\
\x20 if (event) go(event.replace(/^e(?=\\d+$)/, \"\"));\n\
}\n\
\n\
// ------------------------------------------------------------------------------------------------------ listening\n\
\n\
const KEYS = {\n\
\x20 ArrowDown: () => stepRow(1),\n\
\x20 j: () => stepRow(1),\n\
\x20 ArrowUp: () => stepRow(-1),\n\
\x20 k: () => stepRow(-1),\n\
\x20 PageDown: () => stepRow(20),\n\
\x20 PageUp: () => stepRow(-20),\n\
\x20 Home: () => stepRow(-Infinity),\n\
\x20 End: () => stepRow(Infinity),\n\
\x20 ArrowLeft: () => stepAlong(-1),\n\
\x20 ArrowRight: () => stepAlong(1),\n\
\x20 \"[\": () => stepLane(-1),\n\
\x20 \"]\": () => stepLane(1),\n\
\x20 n: () => find(({ problem }) => problem, 1),\n\
\x20 p: () => find(({ problem }) => problem, -1),\n\
\x20 f: followChosen,\n\
\x20 o: onlyChosen,\n\
\x20 t: foldNext,\n\
\x20 d: changeScheme,\n\
\x20 \"/\": () => byId(\"jump\").focus(),\n\
\x20 \"?\": () => byId(\"helping\").showModal(),\n\
\x20 Escape: () => isPart() ? showAll() : showSummary(),\n\
};\n\
\n\
function followChosen() {\n\
\x20 const exchange = view.follow ?? view.history.events[view.chosen]?.exchanges[0];\n\
\x20 if (exchange) toggleFollow(exchange);\n\
}\n\
\n\
function onlyChosen() {\n\
\x20 const pid = view.history.events[view.chosen]?.pid;\n\
\x20 if (pid) toggleOnly(pid);\n\
}\n\
\n\
function foldNext() {\n\
\x20 byId(\"fold\").value = (view.fold + 1) % FOLDS.length;\n\
\x20 foldChosen();\n\
}\n\
\n\
function foldChosen() {\n\
\x20 change(() => {\n\
\x20   view.fold = Number(byId(\"fold\").value);\n\
\x20 });\n\
}\n\
\n\
function changeScheme() {\n\
\x20 const { style } = document.documentElement;\n\
\x20 const isDark = style.colorScheme\n\
\x20   ? style.colorScheme === \"dark\"\n\
\x20   : matchMedia(\"(prefers-color-scheme: dark)\").matches;\n\
\x20 style.colorScheme = isDark ? \"light\" : \"dark\";\n\
}\n\
\n\
/** What a click does on an element that has this `data-` word, with the word's value. */\n\
const CLICKS = {\n\
\x20 go: index => choose(Number(index)),\n\
\x20 event: index => choose(Number(index), false),\n\
\x20 follow: clickFollow,\n\
\x20 clear: what => what === \"follow\" ? showAll() : toggleOnly(what),\n\
\x20 host: host => change(() => toggle(view.folded, host)),\n\
\x20 pid: toggleOnly,\n\
\x20 summary: showSummary,\n\
};\n\
const CLICKED = Object.keys(CLICKS).map(word => `[data-${word}]`).join();\n\
\n\
function clickFollow(name) {\n\
\x20 const exchange = view.history.exchanges.get(name);\n\
\x20 toggleFollow(exchange);\n\
\x20 const isThere = view.isTold && exchange.events.includes(view.chosen);\n\
\x20 if (view.follow) choose(isThere ? view.chosen : exchange.begun);\n\
}\n\
\n\
function clicked({ target }) {\n\
\x20 const one = target.closest(CLICKED);\n\
\x20 if (!one) return;\n\
\x20 const [word, value] = Object.entries(one.dataset)[0];\n\
\x20 CLICKS[word](value);\n\
\x20 if (!one.isConnected) byId(\"rows\").focus({ preventScroll: true });\n\
}\n\
\n\
function pressed(event) {\n\
\x20 const { key, target } = event;\n\
\x20 if (event.ctrlKey || event.metaKey || event.altKey || byId(\"helping\").open) return;\n\
\x20 if (target.id === \"jump\") {\n\
\x20   if (key === \"Escape\") target.blur();\n\
\x20   return;\n\
\x20 }\n\
\x20 if (target.matches(\"button,select\") && [\"Enter\", \" \", \"ArrowUp\", \"ArrowDown\"].includes(key)) return;\n\
\x20 if (!KEYS[key]) return;\n\
\x20 event.preventDefault();\n\
\x20 KEYS[key]();\n\
}\n\
\n\
function submitted(event) {\n\
\x20 event.preventDefault();\n\
\x20 go(byId(\"jump\").value.trim());\n\
\x20 byId(\"rows\").focus({ preventScroll: true });\n\
}\n\
\n\
/** The overview is pointed at: there the diagram is scrolled to. */\n\
function pointed({ clientY }) {\n\
\x20 const { bins, history, rowOf } = view;\n\
\x20 const { top } = byId(\"overview\").getBoundingClientRect();\n\
\x20 const scroller = byId(\"scroller\");\n\
\x20 const index = Math.floor((clientY - top - STRIP.top) * history.events.length / bins);\n\
\x20 const row = rowOf[clamp(index, 0, history.events.length - 1)];\n\
\x20 scroller.scrollTop = row * ROW - (scroller.clientHeight - HEAD) / 2;\n\
}\n\
\n\
/** The window has another size, or is on paper no more. */\n\
function resized() {\n\
\x20 makeLanes();\n\
\x20 drawNames();\n\
\x20 drawStrip();\n\
\x20 draw();\n\
}\n\
\n\
/** On paper stands what is looked at: its rows are put at the top. */\n\
function forPrint() {\n\
\x20 const [first, last] = view.looked;\n\
\x20 draw(view.looked);\n\
\x20 byId(\"drawing\").style.top = \"0\";\n\
\x20 for (const one of byId(\"rows\").children) one.style.top = `${(Number(one.id.slice(3)) - first) * ROW}px`;\n\
\x20 byId(\"sheet\").style.height = `${(last - first + 1) * ROW + 12}px`;\n\
}\n\
\n\
/** A listener that waits for the next picture, and does its work once for it. */\n\
function oncePerPicture(what) {\n\
\x20 let isDue = false;\n\
\x20 return () => {\n\
\x20   if (!isDue) requestAnimationFrame(() => {\n\
\x20     isDue = false;\n\
\x20     what();\n\
\x20   });\n\
\x20   isDue = true;\n\
\x20 };\n\
}\n\
\n\
function listen() {\n\
\x20 const overview = byId(\"overview\");\n\
\x20 byId(\"scroller\").addEventListener(\"scroll\", oncePerPicture(() => draw()));\n\
\x20 addEventListener(\"resize\", oncePerPicture(resized));\n\
\x20 addEventListener(\"hashchange\", goAddress);\n\
\x20 addEventListener(\"beforeprint\", forPrint);\n\
\x20 addEventListener(\"afterprint\", () => {\n\
\x20   remake();\n\
\x20   draw();\n\
\x20 });\n\
\x20 document.addEventListener(\"click\", clicked);\n\
\x20 document.addEventListener(\"keydown\", pressed);\n\
\x20 byId(\"go\").addEventListener(\"submit\", submitted);\n\
\x20 byId(\"fold\").addEventListener(\"change\", foldChosen);\n\
\x20 byId(\"before\").addEventListener(\"click\", KEYS.p);\n\
\x20 byId(\"behind\").addEventListener(\"click\", KEYS.n);\n\
\x20 byId(\"help\").addEventListener(\"click\", KEYS[\"?\"]);\n\
\x20 byId(\"scheme\").addEventListener(\"click\", changeScheme);\n\
\x20 byId(\"print\").addEventListener(\"click\", () => print());\n\
\x20 overview.addEventListener(\"pointermove\", event => event.buttons && pointed(event));\n\
\x20 overview.addEventListener(\"pointerdown\", event => {\n\
\x20   overview.setPointerCapture(event.pointerId);\n\
\x20   pointed(event);\n\
\x20 });\n\
}\n\
\n\
function show() {\n\
\x20 const { events, stations, processes } = view.history;\n\
\x20 const pids = processes.slice(0, 64).map(({ pid }) => pid);\n\
\x20 const options = [...pids, \"timedout\", \"noprocess\", \"old\", \"forward\", \"moveto\"];\n\
\x20 byId(\"title\").textContent = `${counted(events.length, \"event\")}, ` +\n\
\x20   `${counted(processes.length, \"process\", \"processes\")}, ${counted(stations.size, \"station\")}`;\n\
\x20 byId(\"places\").innerHTML = joined(options, one => `<option value=\"${one}\">`);\n\
\x20 if (processes.length > MOST_LANES) view.folded = new Set(stations.keys());\n\
\x20 remake();\n\
\x20 listen();\n\
\x20 draw();\n\
\x20 drawTold();\n\
\x20 goAddress();\n\
}\n\
\n\
function start() {\n\
\x20 try {\n\
\x20   view.history = readHistory();\n\
\x20   new Course(view.history);\n\
\x20 } catch (error) {\n\
\x20   byId(\"told\").textContent = `The texts do not fit each other: ${error.message}`;\n\
\x20   view.history = null;\n\
\x20 }\n\
\x20 if (view.history) show();\n\
\x20 document.documentElement.dataset.ready = Math.round(performance.now());\n\
}\n\
start();\n\
</script>\n\
</html>\n\
";

/// The fixed text of a page.
pub fn fixed_parts() -> PageParts<'static> {
    PageParts {
        opening: OPENING,
        before_report: BEFORE_REPORT,
        before_frames: BEFORE_FRAMES,
        ending: ENDING,
    }
}
