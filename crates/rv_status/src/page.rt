//! The page for people, as tools/page.py writes it from page/status.html.

/// The bytes of the page.
pub(crate) const PAGE: &[u8] = b"\
<!DOCTYPE html>\n\
<html lang=\"en\">\n\
<head>\n\
<meta charset=\"utf-8\">\n\
<meta name=\"viewport\" content=\"width=device-width, initial-scale=1\">\n\
<meta http-equiv=\"content-security-policy\" content=\"default-src 'none'; style-src 'unsafe-inline\
'; script-src 'unsafe-inline'; img-src data:; connect-src 'self'; base-uri 'none'; form-action '\
none'\">\n\
<title>rv</title>\n\
<link rel=\"icon\" href=\"data:,\">\n\
<style>\n\
:root { color-scheme: light dark; --ink: #1b1d21; --soft: #626a75; --line: #d9dde3; --card: #fff\
; --back: #f4f5f7; --blue: #2463c4;\n\
--green: #1d7f4c; --red: #b3261e; --amber: #915b00 }\n\
@media (prefers-color-scheme: dark) { :root { --ink: #e7e9ec; --soft: #9aa3ae; --line: #363b43; \
--card: #1f2227; --back: #15171a;\n\
--blue: #79a8f5; --green: #63c991; --red: #ff8a80; --amber: #e5b04f } }\n\
* { box-sizing: border-box }\n\
body { margin: 0 auto; max-width: 70rem; padding: 1rem; font: 15px/1.45 system-ui, sans-serif; c\
olor: var(--ink); background: var(--back) }\n\
header { display: flex; flex-wrap: wrap; gap: .25rem 1rem; align-items: baseline }\n\
h1 { font-size: 1.4rem; margin: 0 }\n\
h2 { font-size: 1rem; margin: 1.5rem 0 .4rem }\n\
p { margin: .3rem 0 }\n\
.soft, caption, th { color: var(--soft) }\n\
.good { color: var(--green) }\n\
.bad { color: var(--red) }\n\
#cards { display: flex; flex-wrap: wrap; gap: .6rem; margin-top: 1rem }\n\
.card, figure, .scroll { background: var(--card); border: 1px solid var(--line); border-radius: \
.5rem }\n\
.card { padding: .5rem .7rem; flex: 1 1 8.7rem }\n\
.card b { display: block; font-size: 1.3rem; font-variant-numeric: tabular-nums }\n\
meter { width: 100%; height: .6rem }\n\
figure { margin: 0; padding: .5rem }\n\
svg { width: 100%; height: 150px; display: block }\n\
svg text { font-size: 11px; fill: var(--soft) }\n\
.scroll { overflow-x: auto }\n\
table { border-collapse: collapse; width: 100%; font-variant-numeric: tabular-nums }\n\
caption { text-align: left; padding: .35rem .6rem; caption-side: bottom }\n\
th, td { text-align: right; padding: .25rem .6rem; border-top: 1px solid var(--line); white-spac\
e: nowrap }\n\
th { font-weight: 500; border-top: 0 }\n\
th.words, td.words { text-align: left }\n\
@media (max-width: 40rem) { td.words:last-child { white-space: normal; min-width: 15rem } }\n\
code { font: 13px/1.4 ui-monospace, monospace }\n\
</style>\n\
</head>\n\
<body>\n\
<header><h1>rv</h1><span id=\"state\" class=\"soft\" role=\"status\">asking</span><span id=\"since\" cla\
ss=\"soft\"></span></header>\n\
<p id=\"news\" class=\"bad\"></p>\n\
<div id=\"cards\"></div>\n\
<h2>The last ten minutes</h2>\n\
<figure><svg id=\"picture\" role=\"img\" aria-label=\"Entries a second and open places in the last te\
n minutes\"></svg></figure>\n\
<h2>Requests that wait with no connection</h2>\n\
<p class=\"soft\">Their client is gone, or comes back soon. A hello of a greater incarnation ends \
such a request, for good:</p>\n\
<div class=\"scroll\"><table id=\"unheard\"></table></div>\n\
<h2>Faults and refusals</h2>\n\
<div class=\"scroll\"><table id=\"faults\"></table></div>\n\
<h2>Queues</h2>\n\
<div class=\"scroll\"><table id=\"queues\"></table></div>\n\
<h2>Requests that wait, the oldest first</h2>\n\
<div class=\"scroll\"><table id=\"waiting\"></table></div>\n\
<h2>All numbers</h2>\n\
<div class=\"scroll\"><table id=\"numbers\"></table></div>\n\
<script>\n\
\"use strict\";\n\
const ROWS = 100, EVERY = 2000, LATE = 8000, SPAN = 600;\n\
const at = id => document.getElementById(id);\n\
const make = (name, text, kind) => {\n\
const made = document.createElement(name);\n\
made.textContent = text;\n\
if (kind) made.className = kind;\n\
return made;\n\
};\n\
const count = n => n.toLocaleString(\"en\");\n\
const size = n => n < 1048576 ? count(Math.ceil(n / 1024)) + \" KiB\" : count(Math.round(n / 10485\
76)) + \" MiB\";\n\
const span = s => s < 120 ? s + \" s\" : s < 7200 ? Math.floor(s / 60) + \" min\" : s < 172800 ? Mat\
h.floor(s / 3600) + \" h\" : Math.floor(s / 86400) + \" d\";\n\
// What each kind of fault is.\n\
const FAULTS = {\n\
accept: \"accepts that failed\", account: \"looks that found the account file removed, renamed or c\
ut\",\n\
address: \"connections closed of an address that had as many as it may (--connections-from)\", clo\
ck: \"turns in which the clock could not be read: no wait ends\",\n\
descriptor: \"accepts for which no descriptor was left (ulimit -n)\", idle: \"connections closed th\
at said nothing for long (--idle)\",\n\
line: \"lines that standard error did not take\", link: \"connections that broke\",\n\
memory: \"connections that found no memory\", most_held: \"connections closed that held most when a\
ll held too much (--memory)\",\n\
stall: \"connections closed within a frame, or whose peer took no answer (--stall)\", unwritten: \"\
turns in which lines of the account found no memory\",\n\
refused_bad_text: \"refused 1: no message\", refused_other_epoch: \"refused 2: of another epoch, a\
s after a restart\",\n\
refused_no_session: \"refused 3: a client that said no hello\", refused_old_incarnation: \"refused \
4: a client that was started anew\",\n\
refused_old_number: \"refused 5: an earlier request\", refused_other_call: \"refused 6: another cal\
l under the same number\",\n\
refused_busy: \"refused 7: while another request of the client waits\", refused_gap: \"refused 8: \
a number was left out\",\n\
refused_clients_full: \"refused 9: new clients, where there are as many as may be (--clients)\",\n\
refused_epoch_full: \"refused 10: no room for what would stay (--open)\", refused_no_memory: \"refu\
sed 11: no memory\",\n\
refused_other_version: \"refused 12: another version than the session's\",\n\
};\n\
let heard = 0;\n\
function card(name, value, part, limit, text = count) {\n\
const box = make(\"div\", name, \"card soft\");\n\
const shown = make(\"b\", text(value));\n\
shown.style.color = \"var(--ink)\";\n\
box.append(shown);\n\
if (limit) {\n\
const bar = document.createElement(\"meter\");\n\
Object.assign(bar, { max: limit, high: limit * .8, optimum: 0, value });\n\
box.append(bar, make(\"div\", part + \" \" + text(limit)));\n\
} else if (part) box.append(make(\"div\", part));\n\
return box;\n\
}\n\
function fill(id, heads, rows, none, more) {\n\
const table = at(id), head = document.createElement(\"tr\");\n\
heads.forEach(each => head.append(make(\"th\", each.replace(\"<\", \"\"), each.startsWith(\"<\") ? \"word\
s\" : \"\")));\n\
const shown = rows.slice(0, ROWS).map(row => {\n\
const line = document.createElement(\"tr\");\n\
row.forEach((cell, i) => line.append(make(\"td\", cell, heads[i].startsWith(\"<\") ? \"words\" : \"\")))\
;\n\
return line;\n\
});\n\
const left = more + rows.length - shown.length;\n\
const note = rows.length ? left > 0 ? \"and \" + count(left) + \" more\" : \"\" : none;\n\
table.replaceChildren(...(note ? [make(\"caption\", note)] : []), ...(rows.length ? [head, ...show\
n] : []));\n\
}\n\
function picture(history, now) {\n\
const svg = at(\"picture\"), rates = [], places = [], left = 44, right = Math.max(200, svg.clientW\
idth - 48);\n\
const put = (name, marks, text) => {\n\
const made = document.createElementNS(\"http://www.w3.org/2000/svg\", name);\n\
for (const mark in marks) made.setAttribute(mark, marks[mark]);\n\
if (text !== undefined) made.textContent = text;\n\
svg.append(made);\n\
};\n\
history.forEach((sample, i) => {\n\
if (now - sample[0] > SPAN) return;\n\
places.push([sample[0], sample[2]]);\n\
const before = history[i - 1];\n\
if (before && sample[0] > before[0]) rates.push([sample[0], (sample[1] - before[1]) / (sample[0\
] - before[0])]);\n\
});\n\
svg.setAttribute(\"viewBox\", \"0 0 \" + (right + 48) + \" 150\");\n\
svg.replaceChildren();\n\
put(\"line\", { x1: left, y1: 126, x2: right, y2: 126, stroke: \"var(--line)\" });\n\
[[rates, \"var(--blue)\", \"entries a second\", left, \"end\", -6], [places, \"var(--amber)\", \"open pla\
ces\", right, \"start\", 6]].forEach(drawn => {\n\
const [points, ink, name, side, anchor, off] = drawn, most = Math.max(1, ...points.map(point => \
point[1]));\n\
const path = points.map(point => (right - (now - point[0]) / SPAN * (right - left)).toFixed(1) \
+ \",\" + (126 - point[1] / most * 100).toFixed(1));\n\
put(\"polyline\", { points: path.join(\" \"), fill: \"none\", stroke: ink, \"stroke-width\": 1.6 });\n\
put(\"text\", { x: side + off, y: 30, \"text-anchor\": anchor }, most < 10 ? +most.toFixed(1) : coun\
t(Math.round(most)));\n\
put(\"text\", { x: side + off, y: 130, \"text-anchor\": anchor }, 0);\n\
put(\"text\", { x: side, y: 14, \"text-anchor\": anchor === \"end\" ? \"start\" : \"end\", style: \"fill:\" \
+ ink }, name);\n\
});\n\
put(\"text\", { x: left, y: 144 }, \"10 min ago\");\n\
put(\"text\", { x: right, y: 144, \"text-anchor\": \"end\" }, \"now\");\n\
}\n\
function show(told) {\n\
const n = told.numbers, history = told.history, now = n.rv_uptime_seconds, last = history.slice(\
-2);\n\
const gain = (samples, column) => samples.length < 2 ? 0\n\
: (samples[samples.length - 1][column] - samples[0][column]) / Math.max(1, samples[samples.lengt\
h - 1][0] - samples[0][0]);\n\
at(\"since\").textContent = \"rv \" + told.version + \", epoch \" + n.rv_epoch + \", up for \" + span(no\
w);\n\
const cards = [\n\
card(\"connections\", n.rv_connections, \"of\", n.rv_connections_limit), card(\"clients\", n.rv_client\
s, \"of\", n.rv_clients_limit),\n\
card(\"open places\", n.rv_open_places, \"of\", n.rv_open_places_limit), card(\"buffers\", n.rv_buffer\
_bytes, \"of\", n.rv_buffer_limit_bytes, size),\n\
card(\"waiting\", n.rv_requests_waiting, count(n.rv_requests_unheard) + \" with no connection\"),\n\
card(\"entries\", n.rv_entries_total, count(Math.round(gain(last, 1))) + \" a second\"),\n\
card(\"account\", n.rv_account_bytes_total, n.rv_account_bytes_total ? size(gain(history, 3) * 864\
00) + \" more a day\" : \"none is kept\", 0, size)];\n\
at(\"cards\").replaceChildren(...cards);\n\
picture(history, now);\n\
const who = row => [row[0], row[1], span(Math.max(0, now - Math.floor(row[2] / 1000))), ...row.s\
lice(3, 6)];\n\
const heads = [\"<call\", \"at\", \"waits for\", \"client\", \"incarnation\", \"number\"];\n\
const name = /^rv_(?:fault_(\\w+)|(refused_\\w+))_total$/, faults = Object.entries(n).filter(each \
=> name.test(each[0]) && each[1]);\n\
fill(\"unheard\", [...heads, \"alone for\", \"<what ends it\"], told.unheard.map(row => [...who(row), \
span(Math.max(0, now - Math.floor(row[6] / 1000))),\n\
\"rv call --connect ADDR --client \" + row[3] + \" --incarnation \" + (row[4] + 1) + \" --tries 1 --s\
peak 1 < /dev/null\"]),\n\
\"none\", n.rv_requests_unheard - told.unheard.length);\n\
fill(\"waiting\", heads, told.waiting.map(who), \"none\", n.rv_requests_waiting - told.waiting.lengt\
h);\n\
const kinds = faults.map(each => [each[0].match(name)[1] || each[0].match(name)[2], each[1]]);\n\
fill(\"faults\", [\"<kind\", \"since the start\", \"<what it is\"], kinds.map(each => [each[0], count(ea\
ch[1]), FAULTS[each[0]] || \"\"]), \"none\", 0);\n\
const used = told.queues.filter(row => row[1] + row[2]).sort((a, b) => b[1] + b[2] - a[1] - a[2]\
);\n\
fill(\"queues\", [\"<queue\", \"items\", \"consumers that wait\"], used.map(row => row.map(count)), \"al\
l are empty\", 0);\n\
fill(\"numbers\", [\"<name\", \"value\"], Object.entries(n).map(([name, value]) => [name, count(value)\
]), \"none\", 0);\n\
}\n\
async function renew() {\n\
try {\n\
const answer = await fetch(\"status.json\", { cache: \"no-store\", signal: AbortSignal.timeout(LATE\
) });\n\
if (!answer.ok) throw new Error(\"status \" + answer.status);\n\
show(await answer.json());\n\
heard = Date.now();\n\
at(\"news\").textContent = \"\";\n\
} catch (fault) {\n\
at(\"news\").textContent = \"no answer: \" + fault.message;\n\
}\n\
const fresh = Date.now() - heard < LATE;\n\
at(\"state\").textContent = fresh ? \"turning\" : heard ? \"silent for \" + span(Math.round((Date.now(\
) - heard) / 1000)) : \"silent\";\n\
at(\"state\").className = fresh ? \"good\" : \"bad\";\n\
setTimeout(renew, EVERY);\n\
}\n\
renew();\n\
</script>\n\
</body>\n\
</html>\n\
";
