// The page, as page/make.py makes this file of page/index.html.

/// The page, which asks for `overview` beside it.
pub const PAGE: &str = r#"<!doctype html>
<html lang="en">
<meta charset="utf-8">
<meta name="viewport" content="width=device-width, initial-scale=1">
<title>Topic broker</title>
<link rel="icon" href="data:,">
<style>
:root { color-scheme: light dark; --soft: #5d6670; --line: #0b66c3; --bad: #b3261e; --edge: 1px solid #8884; }
@media (prefers-color-scheme: dark) { :root { background: #14171a; color: #e3e6e9; --soft: #98a1ab; --line: #62b0ff; --bad: #ff8a7d; } }
body { font: 15px/1.45 system-ui, sans-serif; margin: auto; max-width: 72rem; padding: 1rem; }
h1 { font-size: 1.3rem; margin: 0; }
h2 { font-size: 1.05rem; margin: 1.8rem 0 .3rem; }
p, ul { margin: .3rem 0 .8rem; padding: 0; }
p, small, section, th, .more div { color: var(--soft); font-size: .87rem; font-weight: normal; }
.bad { color: var(--bad); }
#gone { font-size: 1.1rem; }
.stale { opacity: .4; }
li { border-left: 3px solid var(--bad); list-style: none; margin: .3rem 0; overflow-wrap: anywhere; padding-left: .6rem; }
#tiles { display: grid; gap: .8rem; grid-template-columns: repeat(4, 1fr); margin: 1rem 0; }
section { border: var(--edge); border-radius: .4rem; min-width: 0; padding: .5rem .8rem; }
b { color: CanvasText; display: block; font-size: 1.5rem; font-weight: 500; }
b, td { font-variant-numeric: tabular-nums; }
input { background: none; border: var(--edge); border-radius: .3rem; color: inherit; font: 16px system-ui; padding: .3rem .6rem; width: 18rem; }
table { border-collapse: collapse; width: 100%; }
tr { border-bottom: var(--edge); cursor: pointer; }
thead tr, .more { cursor: auto; }
th, td { padding: .3rem 0 .3rem 1rem; text-align: right; white-space: nowrap; }
td:first-child { overflow-wrap: anywhere; padding: 0; text-align: left; white-space: normal; width: 99%; }
td:nth-child(2) { display: flex; gap: .4rem; }
td:nth-child(2) small { line-height: 1; min-width: 2.5rem; text-align: left; }
td .name { color: inherit; padding: 0; text-align: left; }
td .name::before { color: var(--soft); content: '+\a0'; }
td .name[aria-expanded=true]::before { content: '\2212\a0'; }
.more div { margin: .15rem 0 .15rem 1rem; }
code { background: #8882; border-radius: .2rem; color: CanvasText; margin-right: .6rem; padding: .05rem .3rem; user-select: all; white-space: pre-wrap; }
svg { display: block; height: 1.6rem; width: 8rem; }
section svg { height: 2.6rem; width: 100%; }
path { fill: none; stroke: var(--line); stroke-width: 1.5; vector-effect: non-scaling-stroke; }
path:first-child { fill: var(--line); opacity: .16; stroke: none; }
button { background: none; border: 0; color: var(--line); font: inherit; padding: .5rem 0; }
@media (max-width: 58rem) {
#tiles, tr { display: grid; gap: .8rem 1.5rem; grid-template-columns: 1fr 1fr; }
tr { padding: .5rem 0; row-gap: 0; }
td { display: flex; justify-content: space-between; padding: 0; }
td:first-child { display: block; grid-column: 1 / 3; width: auto; }
td:nth-child(2) { align-items: center; }
td::before { color: var(--soft); content: attr(title); font-size: .87rem; }
td svg { width: 100%; }
thead { display: none; }
}
</style>
<h1>Topic broker</h1>
<p id="head"></p>
<p id="gone" class="bad" role="status"></p>
<main id="main" hidden>
<ul id="wrong"></ul>
<div id="empty">
<p>There is no topic yet. The first message makes one, and the first consumer gets it:</p>
<p><code>brokerctl publish my-topic hello</code></p>
<p><code>brokerctl consume my-topic my-sub --count 1</code></p>
</div>
<div id="tiles">
<section>Published/s<b></b></section>
<section>Acknowledged/s<b></b></section>
<section>Backlog<b></b></section>
<section>Time of a store<b></b></section>
</div>
<div id="all">
<input id="find" type="search" placeholder="Find a topic or a subscription">
<h2>Subscriptions <small>what hurts first, then the largest backlog; a row opens</small></h2>
<table id="subs"><thead><tr><th><th><th>Backlog<th>Oldest<th>Acknowledged/s<th>Pending<th>Consumers<th>Redelivered<th>Dead letters</table>
<button></button>
<h2>Topics <small>what hurts first, then the fullest; a row opens</small></h2>
<table id="topics"><thead><tr><th><th><th>Published/s<th>Kept<th>Full<th>Producers<th>Refused</table>
<button></button>
<p>Lines begin when this page was opened, or ten minutes ago, and beside each stands its largest value. Topics that nobody uses leave
memory: they are at rest, with the numbers that they had there.</p>
</div>
<p id="counts"></p>
</main>
<template id="line"><svg viewBox="0 0 100 30" preserveAspectRatio="none"><path/><path/></svg></template>
<script>
const EVERY = 2000, KEPT = 300, SPAN = EVERY * KEPT, MOST = 1048576, LONGEST = 72;
const pasts = new Map(), times = [], EMPTY = new Float32Array(KEPT).fill(NaN);
let seen, gone, subs, topics, unread;
let stored, mean = 0;

const get = id => document.getElementById(id);
const [whole, fine] = [0, 1].map(digits => new Intl.NumberFormat('en', { maximumFractionDigits: digits }));
const say = number => (number < 10 ? fine : whole).format(number);
const many = (number, word) => `${say(number)} ${word}${number === 1 ? '' : 's'}`;
const short = name => name.replace(/^persistent:\/\/(public\/default\/)?/, '');
const full = ({ size }) => Math.floor(size / MOST * 100) + ' %', isFull = ({ size }) => size > MOST * 0.8;
const backlogOf = sub => sub.waiting + sub.pending;

const HIDDEN = /[\p{Cc}\p{Cf}\p{Zl}\p{Zp}]/gu;
const hex = letter => letter.codePointAt(0).toString(16).toUpperCase().padStart(4, '0');
const visible = name => name.replace(HIDDEN, letter => `[U+${hex(letter)}]`);
const alone = name => `\u2068${visible(name)}\u2069`;

function cut(name) {
const letters = [...name];
return letters.length > LONGEST ? letters.slice(0, 50).join('') + ' \u2026 ' + letters.slice(-18).join('') : name;
}

function quoted(word) {
if (/^[\w.\/:@%+=,-]+$/.test(word)) return word;
if (!word.match(HIDDEN)) return `'${word.replaceAll("'", "'\\''")}'`;
return `$'${word.replace(/[\\']/g, '\\$&').replace(HIDDEN, letter => '\\U' + hex(letter).padStart(8, '0'))}'`;
}

function command(verb, ...words) {
return ['brokerctl', verb, ...words.some(word => word.startsWith('-')) ? ['--'] : [], ...words.map(quoted)].join(' ');
}

function age(millis) {
const [size, word] = [[864e5, 'day'], [36e5, 'hour'], [6e4, 'minute']].find(unit => millis >= 2 * unit[0]) || [1e3, 'second'];
return many(Math.max(0, Math.floor(millis / size)), word);
}

function bytes(count) {
const [size, word] = [[1e9, 'GB'], [1e6, 'MB'], [1e3, 'kB']].find(unit => count >= unit[0]) || [1, 'bytes'];
return `${say(count / size)} ${word}`;
}

class Rate {
rate = 0;
grow(count, now) {
const took = (now - this.now) / 1000, grown = Math.max(0, count - this.count) / took;
if (took > 0) this.rate += (grown - this.rate) * (this.knows ? Math.min(1, took / 6) : 1);
if (this.rate < 0.05) this.rate = 0;
Object.assign(this, { count, now, rests: count === this.count, knows: took > 0 });
return this.rate;
}
}

class Past {
line = EMPTY.slice();
rates = [new Rate(), new Rate(), new Rate()];
since = {};
constructor(name, now, text) { Object.assign(this, { name, first: now, text, sought: text.toLowerCase() }); }
grow(counts, now) {
return counts.map((count, at) => this.rates[at].grow(count, now))[0];
}
held(what, is, now) {
if (!is) delete this.since[what];
return is ? now - (this.since[what] ??= now) : -1;
}
see(value) { return Object.assign(this, { value, absent: 0 }); }
}

function past(name, now, shown) {
if (!pasts.has(name)) pasts.set(name, new Past(name, now, visible(shown ?? name)));
return pasts.get(name);
}

function step() {
times.push(Date.now());
if (times.length > KEPT) times.shift();
for (const one of pasts.values()) {
one.line.copyWithin(0, 1);
one.line[KEPT - 1] = one.value;
one.value = NaN;
if (++one.absent > KEPT) pasts.delete(one.name);
}
}

const add = (parent, name) => parent.appendChild(document.createElement(name));

function drawing(parent) {
const [area, path] = parent.appendChild(get('line').content.firstChild.cloneNode(true)).children;
return { area, path, top: add(parent, 'small') };
}

function draw({ area, path, top }, line, said = say) {
const end = times.at(-1), span = Math.min(SPAN, Math.max(6e4, end - times[0])), runs = [[]];
const most = line.reduce((most, value) => value > most ? value : most, 0), height = Math.max(most, 5);
times.forEach((time, at) => {
const value = line[KEPT - times.length + at], x = 100 - (end - time) / span * 100;
if (value >= 0 && x >= 0) runs[0].push([x.toFixed(1), (29 - value / height * 27).toFixed(1)]);
else if (runs[0].length) runs.unshift([]);
});
if (!runs[0].length) runs.shift();
path.setAttribute('d', runs.map(run => `M${run.join('L')}`).join(''));
area.setAttribute('d', runs.map(run => `M${run[0][0]},30L${run.join('L')}V30`).join(''));
put(top, most ? said(most) : '');
}

function put(node, value, isBad) {
const text = typeof value === 'number' ? say(value) : value;
if (node.textContent !== text) node.textContent = text;
if (isBad !== undefined) node.className = isBad ? 'bad' : '';
}

function putName(node, name) {
const shown = cut(name);
put(node, shown);
node.title = shown === name ? '' : name;
}

class Table {
rows = new Map();
most = 20;
constructor(root, entriesOf) {
const titles = [...root.rows[0].cells].map(cell => cell.textContent);
Object.assign(this, { titles, entriesOf, body: root.createTBody(), button: root.nextElementSibling });
this.button.onclick = () => { this.most += 100; show(); };
}
row() {
const tr = document.createElement('tr'), [name, line, ...rest] = this.titles.map(title => Object.assign(tr.insertCell(), { title }));
const opener = Object.assign(add(name, 'button'), { className: 'name' }), row = { tr, opener, name: add(opener, 'bdi') };
tr.onclick = () => this.toggle(row);
return Object.assign(row, { line: drawing(line), cells: [add(name, 'small'), ...rest] });
}
toggle(row) {
if (row.more) row.more = row.more.remove();
else {
row.more = Object.assign(document.createElement('tr'), { className: 'more' });
Object.assign(row.more.insertCell(), { colSpan: this.titles.length });
}
show();
}
open({ opener, more }, item) {
opener.ariaExpanded = Boolean(more);
if (!more) return [];
const cell = more.firstChild, entries = this.entriesOf(item);
while (cell.children.length > entries.length) cell.lastChild.remove();
entries.forEach(([text, asked], at) => {
const line = cell.children[at] || add(cell, 'div'), parts = line.children.length ? line.children : [add(line, 'code'), add(line, 'span')];
put(parts[0], asked || '');
parts[0].hidden = !asked;
put(parts[1], text);
});
return [more];
}
show(items, cellsOf) {
const sought = get('find').value.toLowerCase(), found = items.filter(item => item.past.sought.includes(sought));
const shown = found.slice(0, this.most), rows = new Map();
const lines = shown.flatMap(item => {
const row = this.rows.get(item.past.name) || this.row();
rows.set(item.past.name, row);
draw(row.line, item.past.line);
putName(row.name, item.past.text);
cellsOf(item).forEach((cell, place) => put(row.cells[place], ...[cell].flat()));
return [row.tr, ...this.open(row, item)];
});
this.rows = rows;
lines.forEach((line, at) => this.body.rows[at] === line || this.body.insertBefore(line, this.body.rows[at] || null));
while (this.body.rows.length > lines.length) this.body.lastChild.remove();
this.button.hidden = found.length === shown.length;
put(this.button, `More of ${say(found.length)}`);
}
}

const sums = (...parts) => parts.filter(part => part).join(', ');

function sessionsOf(topic, sub) {
const word = short(topic.name), here = topic.sessions?.filter(session => !sub || session.subscription === sub.name) || [];
const lines = here.slice(0, 30).map(session => [
sums(`session ${session.number}, a ${session.role}`, session.address && `from ${session.address}`,
session.producerName && `by the name ${alone(session.producerName)}`, !sub && session.subscription && `of ${alone(session.subscription)}`,
`for ${age(seen.now - session.since)}`, session.pending !== undefined && `${say(session.pending)} pending`,
session.room !== undefined && `room for ${say(session.room)}`),
command('disconnect', word, String(session.number))]);
return here.length > 30 ? [...lines, [`and ${many(here.length - 30, 'session')} more`]] : lines;
}

function ruleOf({ rule }) {
if (!rule) return 'it keeps what the broker was started with';
if (rule.keep) return 'by a rule of its own it keeps all';
return 'by a rule of its own it keeps ' + (rule.messages === undefined ? `what is younger than ${age(rule.millis)}` : `the last ${many(rule.messages, 'message')}`);
}

const restOf = topic => topic.resting ? 'at rest, out of memory: its numbers are the last that it had there' : '';

function subEntries({ topic, sub, past, letters }) {
const words = [short(topic.name), sub.name], [acked, sent, back] = past.rates.map(({ rate }) => say(rate));
return [
[`subscription ${alone(sub.name)} of ${alone(topic.name)}`],
[sums(`${acked} acknowledged, ${sent} delivered and ${back} redelivered a second`, sub.unused !== undefined && `unused for ${age(sub.unused)}`, restOf(topic))],
[`${say(sub.delivered)} delivered, ${many(sub.acknowledgements ?? 0, 'acknowledgement')} and ${many(sub.deaths ?? 0, 'death')} since its topic came into memory`],
[`of the topic, ${ruleOf(topic)}`],
...sessionsOf(topic, sub),
['its next messages', command('peek', ...words)],
['how far it is', command('stats', ...words)],
...letters ? [['its dead letters', command('dead list', ...words)]] : [],
['it goes on from what came within the last hour', command('seek', ...words, '1h')],
['it has done with its next message', command('skip', ...words, '1')],
['it goes, and its backlog with it', command('drop', ...words)],
];
}

function topicEntries({ topic, past }) {
const word = short(topic.name), [published] = past.rates.map(({ rate }) => say(rate)), unstored = topic.gone + topic.kept - topic.durable;
return [
[`topic ${alone(topic.name)}`],
[sums(`${published} published a second`, `${many(topic.published, 'publish').replace(/hs$/, 'hes')} and ${many(topic.duplicates, 'duplicate')} since it came into memory`, restOf(topic))],
[sums(`${many(topic.kept, 'message')} kept`, topic.bytes !== undefined && `of ${bytes(topic.bytes)}`, `${say(topic.gone)} gone`,
unstored > 0 && `${say(unstored)} not stored yet`, topic.kept && topic.oldest !== undefined && `the oldest for ${age(seen.now - topic.oldest)}`, ruleOf(topic))],
...sessionsOf(topic),
['what comes from now on', command('tail', word)],
['another subscription, from its first message on', command('create', word, 'NAME', 'earliest')],
['it keeps what is younger, of what every subscription has acknowledged', command('keep', word, '7d')],
['it goes, with all that it has', command('delete', word)],
];
}

const subTable = new Table(get('subs'), subEntries), topicTable = new Table(get('topics'), topicEntries);
const tiles = [...document.querySelectorAll('section')].map((tile, at) => ({ name: 'tile ' + at, number: tile.lastChild, line: drawing(tile) }));

function wrongOf({ topic, sub, past, size, letters, dlq }, now) {
const waiting = () => say(size) + ' waiting' + (sub.oldest && now - sub.oldest >= 6e4 ? `, the oldest for ${age(now - sub.oldest)}` : '');
const lonely = past.held('lonely', !sub.consumers, now), fromFirst = past.since.lonely === past.first;
const grown = size - past.line[KEPT - 60], stuck = past.held('stuck', sub.waiting && sub.consumers && past.rates[0].rests, now);
const unmoved = past.held('unmoved', sub.dead && sub.dead >= (past.dead ?? 0), now);
past.dead = sub.dead;
return [
size && lonely >= (fromFirst ? 0 : 1e4) && (() => topic.resting ? `nobody is at it and ${waiting()}` :
`no consumer ${lonely < 6e4 ? '' : `for ${age(lonely)} ${fromFirst ? 'or more ' : ''}`}and ${waiting()}`),
stuck >= 6e4 && (() => `nothing acknowledged for ${age(stuck)}, with ${many(sub.consumers, 'consumer')} and ${waiting()}`),
sub.consumers && grown > 1000 && grown > size / 5 && (() => `falls behind, by ${say(grown)} in two minutes, and ${waiting()}`),
unmoved >= 2e4 && (() => `${many(sub.dead, 'dead letter')} could not be moved for ${age(unmoved)}`),
topic.resting && sub.dead && (() => `${many(sub.dead, 'dead letter')} could not be moved, and its topic is at rest`),
letters > sub.dead && (() => `${many(letters - sub.dead, 'dead letter')} in ${alone(short(dlq))}`),
].filter(text => text);
}

function few(items, what, join) {
const all = items.flatMap(({ past, wrong }) => wrong.map(text => ({ past, text }))), most = all.length > 6 ? 5 : 6;
const lines = all.slice(0, most).map(({ past, text }) => [past.text, join + text()]);
return all.length > most ? [...lines, ['', `and ${say(all.length - most)} more ${what}`]] : lines;
}

function tellWrong() {
const { descriptors, mostDescriptors } = seen;
const wrong = [
['', seen.open && 'Everybody who reaches its address may publish, consume and administer here: nobody said that this is meant'],
['', seen.closed && 'Nothing is stored any more: the broker wrote to its standard error why'],
['', seen.full && 'The database takes as much of the disk as it may: publishes are refused'],
['', mean > 200 && `The disk is slow: a store takes ${say(mean)} ms`],
['', descriptors > mostDescriptors * 0.8 && `${say(descriptors)} of ${say(mostDescriptors)} file descriptors are open: it takes no connection behind the last`],
...few(topics, 'topics', ' is '),
...few(subs, 'subscriptions', ': '),
].filter(([, text]) => text);
document.title = (wrong.length ? `(${wrong.length}) ` : '') + 'Topic broker';
const none = unread ? `No subscription looks wrong, but ${many(unread, 'topic')} ${unread === 1 ? 'keeps' : 'keep'} messages that none is to get.` : 'Nothing looks wrong.';
get('wrong').textContent = wrong.length ? '' : none;
for (const [name, text] of wrong) {
const line = add(get('wrong'), 'li');
if (name) putName(add(line, 'bdi'), name);
line.append(text);
}
}

const leftIn = topic => topic ? topic.subscriptions.length ? Math.max(...topic.subscriptions.map(backlogOf)) : topic.kept : 0;

function meet({ count, micros }, took) {
const more = stored ? count - stored.count : 0;
if (more > 0) mean += ((micros - stored.micros) / more / 1000 - mean) / (mean ? 4 : 1);
else mean *= Math.exp(-took / 1e4);
if (mean < 0.05 || more < 0) mean = 0;
stored = { count, micros };
}

const byHurt = (a, b) => (b.wrong.length > 0) - (a.wrong.length > 0) || b.size - a.size || (a.past.name < b.past.name ? -1 : 1);

function take(now, took) {
const names = new Map(seen.topics.map(topic => [topic.name, topic])), letterBoxes = new Set();
meet(seen.stores, took);
const sums = [0, 0, 0, mean];
subs = seen.topics.flatMap(topic => topic.subscriptions.map(sub => {
const dlq = `${topic.name}-${sub.name}-DLQ`, letters = sub.dead + leftIn(names.get(dlq)), size = backlogOf(sub);
const item = { topic, sub, dlq, letters, size, past: past(`${topic.name}\n${sub.name}`, now, `${short(topic.name)} / ${sub.name}`) };
sums[1] += item.past.see(size).grow([topic.gone + sub.acknowledged, sub.delivered, sub.redelivered], now);
sums[2] += size;
if (letters) letterBoxes.add(dlq);
return Object.assign(item, { wrong: wrongOf(item, now) });
}));
topics = seen.topics.map(topic => {
const item = { topic, size: topic.kept, past: past(topic.name, now, short(topic.name)) };
const rate = item.past.grow([topic.published], now);
sums[0] += item.past.see(rate).value;
return Object.assign(item, { wrong: isFull(item) ? [() => full(item) + ' full'] : [] });
});
unread = topics.filter(({ topic }) => topic.kept && !topic.subscriptions.length && !letterBoxes.has(topic.name)).length;
tiles.forEach(({ name }, at) => past(name, now).see(sums[at]));
topics.sort(byHurt);
subs.sort(byHurt);
step();
tellWrong();
}

function showHead() {
const { now, started, memory, database, log, topics } = seen, resting = topics.filter(topic => topic.resting).length;
const since = new Date(started).toLocaleString('en-GB', { dateStyle: 'medium', timeStyle: 'short' });
put(get('head'), sums(`Version ${seen.version}`, `up ${age(now - started)} (since ${since})`, many(seen.sessions, 'session'),
`${many(topics.length - resting, 'topic')} in memory`, resting && `${say(resting)} at rest`, memory && `${bytes(memory)} of memory`,
database && `the database has ${bytes(database)}`, log && `its log ${bytes(log)}`));
const refusals = (seen.refusals || []).map(({ fault, count }) => `F${fault} ${say(count)}`).join(', ');
put(get('counts'), 'Since its start: ' + sums(seen.received !== undefined && `${bytes(seen.received)} from clients`,
seen.sent !== undefined && `${bytes(seen.sent)} to clients`, `${many(seen.silenced || 0, 'session')} ended by silence`, refusals ? `refused ${refusals}` : 'none refused'));
}

function show() {
const { now } = seen;
showHead();
get('empty').hidden = topics.length;
get('all').hidden = !topics.length;
tiles.forEach(({ name, number, line }, at) => {
const all = past(name, now).line, unit = at === 3 ? ' ms' : '';
put(number, say(all.at(-1)) + unit);
draw(line, all, most => `up to ${say(most)}${unit}`);
});
subTable.show(subs, ({ topic, sub, past, size, letters }) => [` ${sub.kind}${topic.resting ? ', at rest' : ''}`, size,
size && sub.oldest ? age(now - sub.oldest) : '', past.rates[0].rate, sub.pending, [sub.consumers, !sub.consumers], sub.redelivered, [letters, letters]]);
topicTable.show(topics, item => [item.topic.resting ? ' at rest' : '', item.past.rates[0].rate, item.size, [full(item), isFull(item)], item.topic.producers,
item.topic.refused]);
}

async function look() {
const begun = Date.now();
let got;
try {
const answer = await fetch('overview', { cache: 'no-store', signal: AbortSignal.timeout(20000) });
got = answer.ok && await answer.json();
} catch { }
setTimeout(look, Math.max(EVERY, 3 * (Date.now() - begun)));
if (got) {
const took = seen ? got.now - seen.now : 0;
seen = got;
gone = 0;
take(got.now, took);
show();
} else if (!gone) {
gone = begun;
step();
}
put(get('gone'), gone ? `The broker has not answered since ${new Date(gone).toLocaleTimeString('en-GB')}, for ${age(Date.now() - gone)}` : '', true);
get('main').className = gone ? 'stale' : '';
get('main').hidden = !seen;
}

get('find').oninput = show;
look();
</script>
</html>
"#;

/// What the browser may do for it, as a `Content-Security-Policy`: run its script, use its style, ask where it came from.
pub const PAGE_POLICY: &str =
    "default-src 'none'; script-src 'sha256-vsOQgetBIk58AJybNwZPniI7lguS8iAaptbxWHO6Dmg='; style-src 'sha256-VcffNi4UDUI0hy6vivduPRLnrIQnjtYoirwWFDrX9F4='; connect-src 'self'; img-src data:; base-uri 'none'; form-action 'none'; frame-ancestors 'none'";
