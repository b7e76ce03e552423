//! The fixed parts of the page of an explained run. The page is the head, the explanation's JSON,
//! the text between it and the state, the state, the text between it and the listing, the listing
//! as a JSON text, and the end. `page/embed` writes this file from the files of `page/`: change
//! those, and run it again.

/// From the page's first byte to its explanation's JSON.
pub const PAGE_HEAD: &str = "\
    <!doctype html>\n\
    <html lang=\"en\">\n\
    <head>\n\
    <meta charset=\"utf-8\">\n\
    <meta name=\"viewport\" content=\"width=device-width, initial-scale=1\">\n\
    <meta http-equiv=\"Content-Security-Policy\"\n  \
    content=\"default-src 'none'; style-src 'unsafe-inline'; script-src 'unsafe-i\
    nline'; img-src data:\">\n\
    <link rel=\"icon\" href=\"data:,\">\n\
    <title>A run explained</title>\n\
    <style>\n\
    :root {\n  \
    color-scheme: light dark;\n  \
    --paper: #ffffff;\n  \
    --panel: #f4f5f7;\n  \
    --ink: #1b1d21;\n  \
    --soft: #4a505a;\n  \
    --line: #8a919c;\n  \
    --accent: #0b57b0;\n  \
    --on-accent: #ffffff;\n  \
    --changed: #fff1c2;\n  \
    --danger: #a3160e;\n  \
    --danger-paper: #fde7e5;\n  \
    --comment: #3f6137;\n  \
    --reach: #0b57b0;\n\
    }\n\
    @media (prefers-color-scheme: dark) {\n  \
    :root {\n    \
    --paper: #14161a;\n    \
    --panel: #1e2127;\n    \
    --ink: #e8eaee;\n    \
    --soft: #b4bac4;\n    \
    --line: #767d89;\n    \
    --accent: #8ab8ff;\n    \
    --on-accent: #10131a;\n    \
    --changed: #3d3512;\n    \
    --danger: #ff9d94;\n    \
    --danger-paper: #411a17;\n    \
    --comment: #9ecb92;\n    \
    --reach: #8ab8ff;\n  \
    }\n\
    }\n\
    * { box-sizing: border-box; }\n\
    html { scroll-padding-top: 7rem; }\n\
    body {\n  \
    margin: 0 auto;\n  \
    padding: 0 0.75rem 2rem;\n  \
    max-width: 96rem;\n  \
    background: var(--paper);\n  \
    color: var(--ink);\n  \
    font: 1rem/1.45 system-ui, sans-serif;\n\
    }\n\
    h1 { margin: 0.75rem 0 0; font-size: 1.4rem; }\n\
    h2 { margin: 1.25rem 0 0.4rem; font-size: 1.15rem; }\n\
    h3 { margin: 0.75rem 0 0.25rem; font-size: 1rem; }\n\
    p { margin: 0.3rem 0; }\n\
    code, .number { font-family: ui-monospace, \"DejaVu Sans Mono\", monospace; f\
    ont-size: 0.85rem; }\n\
    .legend, footer, caption { color: var(--soft); font-size: 0.9rem; }\n\
    button, input, textarea, select { font: inherit; color: inherit; }\n\
    button {\n  \
    min-height: 2.25rem;\n  \
    padding: 0.2rem 0.7rem;\n  \
    border: 1px solid var(--line);\n  \
    border-radius: 0.3rem;\n  \
    background: var(--panel);\n\
    }\n\
    button:disabled { color: var(--soft); border-style: dashed; }\n\
    :focus-visible { outline: 3px solid var(--accent); outline-offset: 2px; }\n\n\
    .position {\n  \
    position: sticky;\n  \
    top: 0;\n  \
    z-index: 1;\n  \
    padding: 0.4rem 0;\n  \
    background: var(--paper);\n  \
    border-bottom: 1px solid var(--line);\n\
    }\n\
    .buttons { display: flex; flex-wrap: wrap; gap: 0.35rem; }\n\
    .slide { display: flex; gap: 0.6rem; align-items: center; }\n\
    .slide input { flex: 1; min-width: 5rem; accent-color: var(--accent); }\n\n\
    .why { padding: 0.25rem 0.75rem 0.75rem; margin-top: 0.75rem; background: var\
    (--panel); }\n\
    .why h2 { margin-top: 0.4rem; }\n\
    .head { font-weight: 600; overflow-wrap: anywhere; }\n\
    .reason {\n  \
    padding: 0.4rem 0.6rem;\n  \
    border-left: 0.3rem solid var(--danger);\n  \
    background: var(--danger-paper);\n  \
    color: var(--danger);\n  \
    font-weight: 600;\n  \
    overflow-wrap: anywhere;\n\
    }\n\n\
    .columns { display: grid; gap: 0 1.25rem; grid-template-columns: minmax(0, 1f\
    r); }\n\
    @media (min-width: 60rem) {\n  \
    .columns { grid-template-columns: minmax(0, 1fr) minmax(0, 1fr); }\n\
    }\n\
    .scroll { max-height: 24rem; overflow: auto; border: 1px solid var(--line); }\n\
    .lines { margin: 0; padding: 0.3rem 0.5rem 0.3rem 4.5rem; }\n\
    .lines li { white-space: pre-wrap; overflow-wrap: anywhere; padding-left: 0.2\
    5rem; }\n\
    .lines li::marker { color: var(--soft); }\n\
    .lines li[aria-current] {\n  \
    background: var(--changed);\n  \
    outline: 2px solid var(--ink);\n  \
    font-weight: 600;\n\
    }\n\
    .lines li[aria-current]::marker { content: \"\\25B6 \" counter(list-item) \" \
    \"; color: var(--ink); }\n\
    .lines li[aria-current].trap { background: var(--danger-paper); outline-color\
    : var(--danger); }\n\
    .label { color: var(--accent); font-weight: 700; }\n\
    .comment { color: var(--comment); font-style: italic; }\n\n\
    table { width: 100%; border-collapse: collapse; }\n\
    caption { text-align: left; padding: 0.2rem 0; }\n\
    th, td { padding: 0.2rem 0.5rem; text-align: left; vertical-align: top; }\n\
    thead th { border-bottom: 2px solid var(--line); font-size: 0.85rem; }\n\
    tbody tr { border-bottom: 1px solid var(--line); }\n\
    .events tbody tr { cursor: pointer; }\n\
    .events button { min-height: 1.6rem; padding: 0 0.5rem; }\n\
    .events .instruction, .events .outcome { overflow-wrap: anywhere; }\n\
    .events tr.marked { color: var(--danger); font-weight: 600; }\n\
    tr[aria-current] { background: var(--changed); outline: 2px solid var(--ink); \
    outline-offset: -2px; }\n\
    tr[aria-current] th::before { content: \"\\25B6 \"; }\n\
    .changed { background: var(--changed); box-shadow: inset 0.3rem 0 0 var(--ink\
    ); }\n\
    .changed.lost { background: var(--danger-paper); box-shadow: inset 0.3rem 0 0 \
    var(--danger); }\n\
    .changed th { padding-left: 0.7rem; }\n\
    .mark { display: block; font-size: 0.8rem; font-weight: 600; }\n\
    h3 .mark { display: inline; }\n\
    .lost .mark { color: var(--danger); }\n\
    .is-tagged, .is-untagged {\n  \
    display: inline-block;\n  \
    min-width: 1.4rem;\n  \
    border: 1px solid var(--ink);\n  \
    border-radius: 0.7rem;\n  \
    text-align: center;\n  \
    font-size: 0.85rem;\n\
    }\n\
    .is-tagged { background: var(--accent); border-color: var(--accent); color: v\
    ar(--on-accent); }\n\
    .is-untagged { border-style: dashed; }\n\
    .values code { overflow-wrap: anywhere; }\n\
    .values .bounds { min-width: 12rem; }\n\
    .type { color: var(--soft); }\n\
    .status { font-weight: 400; }\n\
    .status.trapped { color: var(--danger); font-weight: 600; }\n\
    .bar { display: block; width: 100%; height: 1.1rem; margin: 0.15rem 0; }\n\
    .bar .region { fill: none; stroke: var(--line); vector-effect: non-scaling-st\
    roke; }\n\
    .bar .reach {\n  \
    fill: var(--reach);\n  \
    fill-opacity: 0.45;\n  \
    stroke: var(--reach);\n  \
    stroke-width: 2px;\n  \
    vector-effect: non-scaling-stroke;\n\
    }\n\
    .bar .address { stroke: var(--ink); stroke-width: 2px; vector-effect: non-sca\
    ling-stroke; }\n\n\
    @media (max-width: 47.99rem) {\n  \
    .lines { padding-left: 3.6rem; }\n  \
    .values thead {\n    \
    position: absolute;\n    \
    width: 1px;\n    \
    height: 1px;\n    \
    overflow: hidden;\n    \
    clip-path: inset(50%);\n  \
    }\n  \
    .values, .values tbody, .values caption { display: block; }\n  \
    .values tr {\n    \
    display: grid;\n    \
    grid-template-columns: 5rem 2.4rem minmax(0, 1fr);\n    \
    padding: 0.2rem 0;\n  \
    }\n  \
    .values th { grid-row: span 6; overflow-wrap: anywhere; }\n  \
    .values td { grid-column: 2 / -1; padding: 0 0.25rem; }\n  \
    .values td.tag { grid-column: 2; }\n  \
    .values td.word { grid-column: 3; }\n  \
    .values .bounds { min-width: 0; }\n  \
    .values td.empty { display: none; }\n  \
    .values .from:not(:empty)::before { content: \"from \"; }\n  \
    .events th, .events td { padding-inline: 0.25rem; }\n\
    }\n\
    @media (prefers-reduced-motion: reduce) {\n  \
    * { scroll-behavior: auto; transition: none; animation: none; }\n\
    }\n\
    </style>\n\
    </head>\n\
    <body>\n\
    <header>\n\
    <h1>A run explained</h1>\n\
    <p id=\"summary\"></p>\n\
    <noscript><p>This page needs JavaScript. Without <code>--html</code> the prog\
    ram prints the same as\n\
    text.</p></noscript>\n\
    </header>\n\
    <section class=\"position\" aria-label=\"Position\">\n\
    <div class=\"buttons\">\n\
    <button type=\"button\" id=\"first\">First</button>\n\
    <button type=\"button\" id=\"back\">Back</button>\n\
    <button type=\"button\" id=\"on\">On</button>\n\
    <button type=\"button\" id=\"last\">Last</button>\n\
    <button type=\"button\" id=\"next-marked\">Next trap or cleared tag</button>\n\
    </div>\n\
    <div class=\"slide\">\n\
    <label for=\"slider\">Events done</label>\n\
    <input type=\"range\" id=\"slider\" min=\"0\" max=\"0\" step=\"1\" value=\"0\"\
    >\n\
    <output id=\"place\" for=\"slider\"></output>\n\
    </div>\n\
    </section>\n\
    <main>\n\
    <section class=\"why\" aria-labelledby=\"why-title\">\n\
    <h2 id=\"why-title\">What happened, and why</h2>\n\
    <div id=\"words\" role=\"status\" aria-live=\"polite\"></div>\n\
    <div id=\"facts\"></div>\n\
    </section>\n\
    <div class=\"columns\">\n\
    <section class=\"listing\" aria-labelledby=\"listing-title\">\n\
    <h2 id=\"listing-title\">Listing</h2>\n\
    <div id=\"listing-text\" class=\"scroll\" tabindex=\"0\" role=\"region\"\n  \
    aria-labelledby=\"listing-title\"></div>\n\
    </section>\n\
    <section class=\"event-list\" aria-labelledby=\"events-title\">\n\
    <h2 id=\"events-title\">Events</h2>\n\
    <p><label><input type=\"checkbox\" id=\"only-marked\"> only traps and cleared \
    tags\n\
    <span id=\"count\"></span></label></p>\n\
    <div id=\"events\" class=\"scroll\"></div>\n\
    </section>\n\
    </div>\n\
    <section aria-labelledby=\"harts-title\">\n\
    <h2 id=\"harts-title\">Harts</h2>\n\
    <p class=\"legend\">Each bar shows bounds over the whole address space, in or\
    der: code in the left\n\
    frame and RAM in the right one are to scale, the rest is squeezed. The line i\
    s the address.</p>\n\
    <div id=\"harts\"></div>\n\
    </section>\n\
    <section aria-labelledby=\"memory-title\">\n\
    <h2 id=\"memory-title\">Memory</h2>\n\
    <div id=\"memory\"></div>\n\
    </section>\n\
    </main>\n\
    <footer><p>Keys: Left and Right go from event to event, Home and End to both \
    ends; Up and Down move\n\
    in the list of events.</p></footer>\n\
    <script type=\"application/json\" id=\"explanation\">";

/// Between the explanation's JSON and the state before the first event shown.
pub const PAGE_STATE: &str = "\
    </script>\n\
    <script type=\"application/json\" id=\"state\">";

/// Between that state and the listing's text.
pub const PAGE_LISTING: &str = "\
    </script>\n\
    <script type=\"application/json\" id=\"listing\">";

/// From the end of the listing's text to the page's last byte.
pub const PAGE_END: &str = "\
    </script>\n\
    <script>\n\
    \"use strict\";\n\
    /** Elements, tables, and capabilities as cells and bars: what the view is ma\
    de of. */\n\
    const draw = (() => {\n  \
    const CODE_BASE = 0x10000000n;\n  \
    const RAM_BASE = 0x80000000n;\n  \
    const ADDRESS_SPACE = 1n << 64n;\n  \
    const INSTRUCTION_BYTES = 4n;\n\n  \
    /** Names of permissions by their bit; the standard leaves bits 12 to 14 unus\
    ed. */\n  \
    const PERMISSIONS = [\n    \
    \"global\", \"execute\", \"load\", \"store\", \"load_cap\", \"store_cap\", \"\
    store_local\", \"seal\",\n    \
    \"cinvoke\", \"unseal\", \"sysregs\", \"set_cid\", null, null, null, \"sw0\", \
    \"sw1\", \"sw2\", \"sw3\",\n  \
    ];\n\n  \
    // ---------------------------------------------------------------- elements\n\n  \
    /** A new element with these attributes; text among the children stays text. \
    */\n  \
    function element(name, attributes, ...children) {\n    \
    const made = document.createElement(name);\n    \
    for (const [key, value] of Object.entries(attributes ?? {})) {\n      \
    if (value === true) made.setAttribute(key, \"\");\n      \
    else if (value !== false && value != null) made.setAttribute(key, value);\n    \
    }\n    \
    made.append(...children.filter((child) => child != null));\n    \
    return made;\n  \
    }\n\n  \
    /** The same for a drawing. */\n  \
    function shape(name, attributes, ...children) {\n    \
    const made = document.createElementNS(\"http://www.w3.org/2000/svg\", name);\n    \
    for (const [key, value] of Object.entries(attributes)) made.setAttribute(key, \
    value);\n    \
    made.append(...children);\n    \
    return made;\n  \
    }\n\n  \
    /** A table whose roles hold also where a narrow screen lays its cells out as \
    blocks. */\n  \
    function table(kind, caption, columns, rows) {\n    \
    const heads = columns.map((column) =>\n      \
    element(\"th\", { scope: \"col\", role: \"columnheader\" }, column));\n    \
    return element(\"table\", { class: kind, role: \"table\" },\n      \
    element(\"caption\", {}, caption),\n      \
    element(\"thead\", { role: \"rowgroup\" }, element(\"tr\", { role: \"row\" }, \
    ...heads)),\n      \
    element(\"tbody\", { role: \"rowgroup\" }, ...rows));\n  \
    }\n\n  \
    function row(attributes, name, ...cells) {\n    \
    return element(\"tr\", { role: \"row\", ...attributes },\n      \
    element(\"th\", { scope: \"row\", role: \"rowheader\" }, ...name), ...cells);\n  \
    }\n\n  \
    function cell(kind, ...children) {\n    \
    return element(\"td\", { class: kind, role: \"cell\" }, ...children);\n  \
    }\n\n  \
    function plural(count, one) {\n    \
    return `${count.toLocaleString(\"en\")} ${one}${count === 1 ? \"\" : \"s\"}`;\n  \
    }\n\n  \
    // ------------------------------------------------------------------ values\n\n  \
    function permissionNames(perms) {\n    \
    const bits = parseInt(perms, 16);\n    \
    return PERMISSIONS.filter((name, bit) => name !== null && (bits >> bit) & 1);\n  \
    }\n\n  \
    /** The number in an untagged word whose upper half is zero, else nothing. */\n  \
    function integerOf(value) {\n    \
    const [upper, lower] = value.word.split(\"_\");\n    \
    return !value.tag && /^0+$/.test(upper) ? BigInt(\"0x\" + lower) : null;\n  \
    }\n\n  \
    /**\n   \
    * Where an address lies on a bar from 0 to 100. Code and RAM are drawn to sca\
    le; what lies\n   \
    * below, between and above them is squeezed, but in order: so no bound is cut \
    off.\n   \
    */\n  \
    function scaleOf(image) {\n    \
    const stops = [\n      \
    [0n, 0], [CODE_BASE, 6], [CODE_BASE + INSTRUCTION_BYTES * BigInt(image.code), \
    38],\n      \
    [RAM_BASE, 44], [RAM_BASE + BigInt(image.ram), 94], [ADDRESS_SPACE, 100],\n    \
    ];\n    \
    const at = (address) => {\n      \
    const next = stops.findIndex(([end]) => address <= end);\n      \
    if (next <= 0) return next === 0 ? 0 : 100;\n      \
    const [[from, left], [to, right]] = [stops[next - 1], stops[next]];\n      \
    if (from === to) return right;\n      \
    return left + (right - left) * Number(address - from) / Number(to - from);\n    \
    };\n    \
    return { at, code: [stops[1][1], stops[2][1]], ram: [stops[3][1], stops[4][1]\
    ] };\n  \
    }\n\n  \
    /** Which of code and RAM the bounds reach, in words. */\n  \
    function reachWords(base, top, image) {\n    \
    const meets = (from, bytes) => base < from + bytes && from < top;\n    \
    const words = [];\n    \
    if (meets(CODE_BASE, INSTRUCTION_BYTES * BigInt(image.code))) words.push(\"co\
    de\");\n    \
    if (meets(RAM_BASE, BigInt(image.ram))) words.push(\"RAM\");\n    \
    if (base >= top) return \"reaches no byte\";\n    \
    return words.length ? `reaches ${words.join(\" and \")}` : \"reaches neither \
    code nor RAM\";\n  \
    }\n\n  \
    /** The bounds of a capability as a bar over code and RAM, its address as a l\
    ine. */\n  \
    function bar(value, image) {\n    \
    const scale = scaleOf(image);\n    \
    const [base, top] = [BigInt(\"0x\" + value.base), BigInt(\"0x\" + value.top)]\
    ;\n    \
    const address = BigInt(\"0x\" + value.word.split(\"_\")[1]);\n    \
    const [left, right, place] = [base, top, address].map(scale.at);\n    \
    const region = ([from, to], name) =>\n      \
    shape(\"rect\", { class: `region ${name}`, x: from, y: 3, width: to - from, h\
    eight: 8 });\n    \
    return shape(\"svg\", {\n      \
    class: \"bar\", viewBox: \"0 0 100 14\", preserveAspectRatio: \"none\", role: \
    \"img\",\n      \
    \"aria-label\": reachWords(base, top, image), \"data-base\": value.base, \"da\
    ta-top\": value.top,\n    \
    },\n    \
    region(scale.code, \"code\"), region(scale.ram, \"ram\"),\n    \
    shape(\"rect\", { class: \"reach\", x: left, y: 1, width: Math.max(right - le\
    ft, 0), height: 12 }),\n    \
    shape(\"line\", { class: \"address\", x1: place, x2: place, y1: 0, y2: 14 }))\
    ;\n  \
    }\n\n  \
    /** The cells of a value: tag, word, bounds, what they allow, and where the v\
    alue comes from. */\n  \
    function valueCells(value, image) {\n    \
    const [upper, lower] = value.word.split(\"_\");\n    \
    const number = integerOf(value);\n    \
    const word = [element(\"code\", {}, upper + \"_\", element(\"wbr\"), lower)];\n    \
    if (number !== null) word.push(element(\"span\", { class: \"number\" }, ` = $\
    {number}`));\n    \
    const tag = cell(\"tag\", element(\"span\", { class: value.tag ? \"is-tagged\" \
    : \"is-untagged\" },\n      \
    value.tag ? \"1\" : \"0\"));\n    \
    if (!value.tag) {\n      \
    return [tag, cell(\"word\", ...word), cell(\"bounds empty\"), cell(\"allows e\
    mpty\"),\n        \
    cell(\"from empty\")];\n    \
    }\n    \
    const type = value.type === \"unsealed\" ? \"unsealed\"\n      \
    : value.type === \"sentry\" ? \"sealed: sentry\" : `sealed: type ${value.type\
    }`;\n    \
    return [tag, cell(\"word\", ...word),\n      \
    cell(\"bounds\", element(\"code\", {}, value.base, element(\"wbr\"), \" \", v\
    alue.top),\n        \
    bar(value, image)),\n      \
    cell(\"allows\", permissionNames(value.perms).join(\" \") || \"nothing\",\n        \
    element(\"span\", { class: \"type\" }, ` ${type}`)),\n      \
    cell(\"from\", value.from ?? \"\")];\n  \
    }\n\n  \
    const VALUE_COLUMNS = [\"Tag\", \"Word\", \"Bounds\", \"Allows\", \"From\"];\n  \
    const NULL = { tag: false, word: \"0000000000000000_0000000000000000\" };\n\n  \
    return { NULL, VALUE_COLUMNS, cell, element, plural, row, table, valueCells }\
    ;\n\
    })();\n\n\
    /**\n \
    * The view of one moment of a run: harts, memory, events, the reasons, and th\
    e listing.\n \
    *\n \
    * It draws what it is given and works nothing out: values, facts and reasons \
    are those of the\n \
    * program's JSON. All text is put in as text, so nothing of a listing becomes \
    markup.\n \
    */\n\
    const view = (() => {\n  \
    const { NULL, VALUE_COLUMNS, cell, element, plural, row, table, valueCells } \
    = draw;\n\n  \
    /** Names of a trap's cause by its number. */\n  \
    const CAUSES = [\n    \
    null, \"Tag\", \"Seal\", \"Execute\", \"Load\", \"Store\", \"StoreCap\", \"St\
    oreLocal\", \"Length\",\n    \
    \"Align\", \"Place\", \"Fetch\", \"Type\", \"CInvoke\",\n  \
    ];\n\n  \
    const PCC_NUMBER = 32;\n\n  \
    /** At most so many lines of a listing, events or granules are drawn at once. \
    */\n  \
    const MOST_LINES = 2000;\n  \
    const MOST_EVENTS = 200;\n  \
    const MOST_GRANULES = 256;\n\n  \
    function sameValue(one, other) {\n    \
    return one.word === other.word && one.tag === other.tag && one.from === other\
    .from;\n  \
    }\n\n  \
    // ------------------------------------------------------------------- states\n\n  \
    /**\n   \
    * The places where two states differ: `H:cN`, `H:pcc`, `H:status`, `mem ADDRE\
    SS`. The value says\n   \
    * whether the place lost its tag.\n   \
    */\n  \
    function differences(before, after) {\n    \
    const places = new Map();\n    \
    const compare = (place, old = NULL, now = NULL) => {\n      \
    if (!sameValue(old, now)) places.set(place, old.tag && !now.tag);\n    \
    };\n    \
    const all = (one, other) => new Set([...Object.keys(one), ...Object.keys(othe\
    r)]);\n    \
    after.harts.forEach((hart, number) => {\n      \
    const old = before.harts[number];\n      \
    compare(`${number}:pcc`, old.pcc, hart.pcc);\n      \
    for (const name of all(old.regs, hart.regs)) {\n        \
    compare(`${number}:${name}`, old.regs[name], hart.regs[name]);\n      \
    }\n      \
    if (old.status !== hart.status) places.set(`${number}:status`, false);\n    \
    });\n    \
    for (const address of all(before.mem, after.mem)) {\n      \
    compare(`mem ${address}`, before.mem[address], after.mem[address]);\n    \
    }\n    \
    return places;\n  \
    }\n\n  \
    /** A mark in words beside a name, and the class of its row. */\n  \
    function changeOf(place, changed) {\n    \
    if (!changed.has(place)) return { kind: null, mark: null };\n    \
    const lost = changed.get(place);\n    \
    return {\n      \
    kind: lost ? \"changed lost\" : \"changed\",\n      \
    mark: element(\"span\", { class: \"mark\" }, lost ? \"tag cleared\" : \"chang\
    ed\"),\n    \
    };\n  \
    }\n\n  \
    function registerNumber(name) {\n    \
    return name === \"pcc\" ? PCC_NUMBER : Number(name.slice(1));\n  \
    }\n\n  \
    function registerName(number) {\n    \
    return number === PCC_NUMBER ? \"pcc\" : `c${number}`;\n  \
    }\n\n  \
    function statusWords(hart) {\n    \
    if (hart.status !== \"trapped\") return hart.status;\n    \
    return `trapped: ${CAUSES[hart.cause]} (cause ${hart.cause}), ${registerName(\
    hart.reg)}`;\n  \
    }\n\n  \
    function hartPart(hart, number, state, changed, image, note) {\n    \
    const names = new Set(Object.keys(hart.regs));\n    \
    for (const place of changed.keys()) {\n      \
    const [owner, name] = place.split(\":\");\n      \
    if (owner === String(number) && /^c\\d+$/.test(name)) names.add(name);\n    \
    }\n    \
    const listed = [...names].sort((a, b) => registerNumber(a) - registerNumber(b\
    ));\n    \
    const rows = [\"pcc\", ...listed].map((name) => {\n      \
    const value = name === \"pcc\" ? hart.pcc : hart.regs[name] ?? NULL;\n      \
    const { kind, mark } = changeOf(`${number}:${name}`, changed);\n      \
    return row({ class: kind, \"data-place\": `${number}:${name}` }, [name, mark]\
    ,\n        \
    ...valueCells(value, image));\n    \
    });\n    \
    const status = changeOf(`${number}:status`, changed);\n    \
    const heading = element(\"h3\", { id: `hart-${number}` }, `Hart ${number} `,\n      \
    element(\"span\", { class: `status ${hart.status}` }, statusWords(hart)),\n      \
    status.mark && \" \", status.mark, note && element(\"span\", { class: \"note\" \
    }, ` ${note}`));\n    \
    return element(\"section\", { class: \"hart\", \"aria-labelledby\": `hart-${n\
    umber}` }, heading,\n      \
    table(\"values\", `PCC and registers of hart ${number} that are not null`,\n        \
    [\"Register\", ...VALUE_COLUMNS], rows));\n  \
    }\n\n  \
    /** Draws every hart. `notes` has words for those, by number, that have some. \
    */\n  \
    function showHarts(place, state, changed, image, notes) {\n    \
    place.replaceChildren(...state.harts.map((hart, number) =>\n      \
    hartPart(hart, number, state, changed, image, notes[number])));\n  \
    }\n\n  \
    /** Draws the granules that are tagged or not zero, and those that changed. *\
    /\n  \
    function showMemory(place, state, changed, image, focus) {\n    \
    const addresses = new Set(Object.keys(state.mem));\n    \
    for (const changedPlace of changed.keys()) {\n      \
    if (changedPlace.startsWith(\"mem \")) addresses.add(changedPlace.slice(4));\n    \
    }\n    \
    const all = [...addresses].sort();\n    \
    if (all.length === 0) {\n      \
    place.replaceChildren(element(\"p\", {}, \"Memory is empty: no granule is tag\
    ged or not 0.\"));\n      \
    return;\n    \
    }\n    \
    const at = Math.max(all.findIndex((address) => focus !== null && address >= f\
    ocus), 0);\n    \
    const first = Math.max(0, Math.min(at - MOST_GRANULES / 2, all.length - MOST_\
    GRANULES));\n    \
    const shown = all.slice(first, first + MOST_GRANULES);\n    \
    const rows = shown.map((address) => {\n      \
    const { kind, mark } = changeOf(`mem ${address}`, changed);\n      \
    return row({ class: kind, \"data-place\": `mem ${address}` },\n        \
    [element(\"code\", {}, address), mark], ...valueCells(state.mem[address] ?? N\
    ULL, image));\n    \
    });\n    \
    const caption = shown.length === all.length\n      \
    ? \"Granules that are tagged or not 0\"\n      \
    : `Granules ${first + 1} to ${first + shown.length} of the ${all.length.toLoc\
    aleString(\"en\")}`\n        \
    + \" that are tagged or not 0\";\n    \
    place.replaceChildren(table(\"values\", caption, [\"Granule\", ...VALUE_COLUM\
    NS], rows));\n  \
    }\n\n  \
    // -------------------------------------------------------------------- event\
    s\n\n  \
    function isMarked(event) {\n    \
    return event.outcome === \"trap\" || event.clears !== undefined;\n  \
    }\n\n  \
    /** What came of an event, in a few words. */\n  \
    function outcomeWords(event) {\n    \
    const cleared = Object.keys(event.clears ?? {});\n    \
    if (event.outcome === \"sweep\") return `sweep, ${plural(event.cleared, \"tag\
    \")} cleared`;\n    \
    if (event.outcome === \"trap\") return `trap ${CAUSES[event.cause]}`;\n    \
    return cleared.length ? `${event.outcome}, tag of ${cleared.join(\", \")} cle\
    ared` : event.outcome;\n  \
    }\n\n  \
    function eventWords(event) {\n    \
    if (event.outcome === \"sweep\") return `sweep of bases from ${event.lo} to $\
    {event.hi}`;\n    \
    return event.instruction ?? `fetch at ${event.pc}`;\n  \
    }\n\n  \
    /** A row of the list of events, whose button alone takes the focus. */\n  \
    function eventRow(event, index) {\n    \
    const button = element(\"button\", { type: \"button\", tabindex: -1, \"data-i\
    ndex\": index },\n      \
    String(event.number));\n    \
    return row({ class: isMarked(event) ? \"marked\" : null, \"data-index\": inde\
    x }, [button],\n      \
    cell(\"owner\", event.hart === undefined ? \"all\" : String(event.hart)),\n      \
    cell(\"instruction\", element(\"code\", {}, eventWords(event))),\n      \
    cell(\"outcome\", isMarked(event) ? \"\\u26a0 \" : \"\", outcomeWords(event))\
    );\n  \
    }\n\n  \
    /**\n   \
    * The list of events, of which one is current. Of a long one only a part is d\
    rawn. `pick` is\n   \
    * called with an event's index.\n   \
    */\n  \
    function eventList(place, caption, pick) {\n    \
    let events = [];\n    \
    let listed = [];\n    \
    let drawn = [];\n    \
    let current = -1;\n\n    \
    const buttonOf = (index) => place.querySelector(`button[data-index=\"${index}\
    \"]`);\n\n    \
    /** Draws the part of the list around a place in it. */\n    \
    function draw(around) {\n      \
    const first = Math.max(0, Math.min(around - MOST_EVENTS / 2, listed.length - \
    MOST_EVENTS));\n      \
    drawn = listed.slice(first, first + MOST_EVENTS);\n      \
    const words = drawn.length === listed.length ? caption\n        \
    : `${caption}: ${first + 1} to ${first + drawn.length} of ${listed.length}`;\n      \
    place.replaceChildren(table(\"events\", words, [\"Event\", \"Hart\", \"Instru\
    ction\", \"Outcome\"],\n        \
    drawn.map((index) => eventRow(events[index], index))));\n    \
    }\n\n    \
    /** Takes these events, or those of them alone that trap or clear a tag. */\n    \
    function show(shown, onlyMarked) {\n      \
    events = shown;\n      \
    listed = events.map((_, index) => index)\n        \
    .filter((index) => !onlyMarked || isMarked(events[index]));\n      \
    draw(0);\n      \
    mark(current);\n    \
    }\n\n    \
    /** Makes an event current. One button is in the order of the tab key: its ow\
    n, or the first. */\n    \
    function mark(index) {\n      \
    const at = listed.indexOf(index);\n      \
    const isNear = drawn.includes(index) && (drawn.length === listed.length\n        \
    || (index !== drawn[0] && index !== drawn[drawn.length - 1]));\n      \
    if (at >= 0 && !isNear) draw(at);\n      \
    buttonOf(current)?.closest(\"tr\").removeAttribute(\"aria-current\");\n      \
    for (const button of place.querySelectorAll('button[tabindex=\"0\"]')) button\
    .tabIndex = -1;\n      \
    current = index;\n      \
    const chosen = at >= 0 ? buttonOf(index) : place.querySelector(\"tbody button\
    \");\n      \
    if (chosen) chosen.tabIndex = 0;\n      \
    if (at < 0) return;\n      \
    chosen.closest(\"tr\").setAttribute(\"aria-current\", \"step\");\n      \
    keepInSight(place, chosen.closest(\"tr\"));\n    \
    }\n\n    \
    place.addEventListener(\"click\", (click) => {\n      \
    const made = click.target.closest(\"tbody tr\");\n      \
    if (made) pick(Number(made.dataset.index));\n    \
    });\n    \
    place.addEventListener(\"keydown\", (key) => {\n      \
    const step = { ArrowUp: -1, ArrowDown: 1 }[key.key];\n      \
    if (step === undefined || !key.target.dataset.index) return;\n      \
    key.preventDefault();\n      \
    const next = listed[listed.indexOf(Number(key.target.dataset.index)) + step];\n      \
    if (next === undefined) return;\n      \
    pick(next);\n      \
    buttonOf(next).focus();\n    \
    });\n    \
    return { show, mark };\n  \
    }\n\n  \
    /** Scrolls a part, and not the page, so that a child of it is seen. */\n  \
    function keepInSight(part, child) {\n    \
    const [outer, inner] = [part.getBoundingClientRect(), child.getBoundingClient\
    Rect()];\n    \
    if (inner.top < outer.top + 32) part.scrollTop -= outer.top + 64 - inner.top;\n    \
    else if (inner.bottom > outer.bottom) part.scrollTop += inner.bottom - outer.\
    bottom + 32;\n  \
    }\n\n  \
    // ------------------------------------------------------------------- reason\
    s\n\n  \
    const VERBS = { reads: \"reads\", finds: \"finds\", leaves: \"leaves\", sets: \
    \"sets\" };\n\n  \
    /** The facts of an event as rows: what, where, and the value. */\n  \
    function factRows(event, image) {\n    \
    const rows = [];\n    \
    const values = (kind, prefix) => {\n      \
    for (const [name, value] of Object.entries(event[kind] ?? {})) {\n        \
    rows.push(row({}, [VERBS[kind]], cell(\"owner\", prefix + name), ...valueCell\
    s(value, image)));\n      \
    }\n    \
    };\n    \
    values(\"reads\", \"\");\n    \
    values(\"finds\", \"mem \");\n    \
    values(\"leaves\", \"mem \");\n    \
    values(\"sets\", \"\");\n    \
    return rows;\n  \
    }\n\n  \
    /** The reasons of an event in words: why it trapped, and why each tag was cl\
    eared. */\n  \
    function reasonsOf(event) {\n    \
    const reasons = [];\n    \
    if (event.why !== undefined) reasons.push(`Traps ${CAUSES[event.cause]}: ${ev\
    ent.why}`);\n    \
    for (const [name, why] of Object.entries(event.clears ?? {})) {\n      \
    reasons.push(`Clears ${name}: ${why}`);\n    \
    }\n    \
    return reasons;\n  \
    }\n\n  \
    function headOf(event) {\n    \
    if (event.outcome === \"sweep\") return `Event ${event.number}: ${eventWords(\
    event)}`;\n    \
    const line = event.line === undefined ? \"\" : `, line ${event.line}`;\n    \
    return `Event ${event.number}: hart ${event.hart}${line}: ${eventWords(event)\
    }`;\n  \
    }\n\n  \
    /** Puts an event in words into a live region, and its facts into a table bel\
    ow it. */\n  \
    function showEvent(words, facts, event, image, otherwise) {\n    \
    if (!event) {\n      \
    words.replaceChildren(element(\"p\", { class: \"head\" }, otherwise));\n      \
    facts.replaceChildren();\n      \
    return;\n    \
    }\n    \
    const reasons = reasonsOf(event);\n    \
    words.replaceChildren(\n      \
    element(\"p\", { class: \"head\" }, `${headOf(event)} \\u2014 ${outcomeWords(\
    event)}`),\n      \
    ...reasons.map((reason) => element(\"p\", { class: \"reason\" }, `\\u26a0 ${r\
    eason}`)));\n    \
    const rows = factRows(event, image);\n    \
    const access = event.at\n      \
    && element(\"p\", {}, `Accesses ${plural(event.at.bytes, \"byte\")} at ${even\
    t.at.address}.`);\n    \
    facts.replaceChildren(...[access, rows.length > 0\n      \
    && table(\"values facts\", `What event ${event.number} reads and writes`,\n        \
    [\"Fact\", \"Place\", ...VALUE_COLUMNS], rows)].filter(Boolean));\n  \
    }\n\n  \
    // ------------------------------------------------------------------- listin\
    g\n\n  \
    /** A line with its label, its comment and the rest told apart. */\n  \
    function lineText(text) {\n    \
    const cut = text.indexOf(\"#\");\n    \
    const code = cut < 0 ? text : text.slice(0, cut);\n    \
    const kind = /^[ \\t,]*[A-Za-z_][A-Za-z0-9_]*:[ \\t,]*$/.test(code) ? \"label\
    \"\n      \
    : /^[ \\t,]*\\./.test(code) ? \"directive\" : \"code\";\n    \
    return [element(\"span\", { class: kind }, code),\n      \
    cut < 0 ? null : element(\"span\", { class: \"comment\" }, text.slice(cut))];\n  \
    }\n\n  \
    /** The listing, of which one line is marked. Of a long one only a part is dr\
    awn. */\n  \
    function listing(place, text) {\n    \
    const lines = text.split(\"\\n\
    \");\n    \
    if (lines[lines.length - 1] === \"\") lines.pop();\n    \
    let first = -1;\n\n    \
    function draw(from) {\n      \
    first = from;\n      \
    const items = lines.slice(from, from + MOST_LINES).map((line, index) =>\n        \
    element(\"li\", { value: from + index + 1 }, element(\"code\", {}, ...lineTex\
    t(line))));\n      \
    const rest = lines.length > MOST_LINES ? element(\"p\", {}, `Lines ${from + 1\
    } to `\n        \
    + `${from + items.length} of ${lines.length.toLocaleString(\"en\")}.`) : null\
    ;\n      \
    place.replaceChildren(...[rest, element(\"ol\", { class: \"lines\" }, ...item\
    s)].filter(Boolean));\n    \
    }\n\n    \
    function mark(line, kind) {\n      \
    for (const old of place.querySelectorAll(\"li[aria-current]\")) {\n        \
    old.removeAttribute(\"aria-current\");\n        \
    old.className = \"\";\n      \
    }\n      \
    if (line === undefined) return;\n      \
    if (line <= first || line > first + MOST_LINES) {\n        \
    draw(Math.max(0, Math.min(line - MOST_LINES / 2, lines.length - MOST_LINES)))\
    ;\n      \
    }\n      \
    const item = place.querySelector(`li[value=\"${line}\"]`);\n      \
    if (!item) return;\n      \
    item.setAttribute(\"aria-current\", \"step\");\n      \
    item.className = kind;\n      \
    keepInSight(place, item);\n    \
    }\n\n    \
    draw(0);\n    \
    return { mark };\n  \
    }\n\n  \
    return {\n    \
    differences, eventList, isMarked, listing, sameValue, showEvent, showHarts, s\
    howMemory,\n  \
    };\n\
    })();\n\n\
    /**\n \
    * Goes from state to state by the facts of events, forward and back.\n \
    *\n \
    * The rules: what an event `sets`, `leaves` and `clears` is so; a step that i\
    s done and sets no PCC\n \
    * adds 4 to its PCC's address modulo 2^64; a halt and a trap set the hart's s\
    tatus.\n \
    */\n\
    const replay = (() => {\n  \
    const ADDRESS_SPACE = 1n << 64n;\n\n  \
    const hex64 = (number) => number.toString(16).padStart(16, \"0\");\n\n  \
    const isNull = (value) => !value.tag && /^[0_]+$/.test(value.word);\n\n  \
    /** The PCC after a step that goes on to the next instruction. */\n  \
    function nextPcc(pcc) {\n    \
    const [upper, address] = pcc.word.split(\"_\");\n    \
    const next = (BigInt(\"0x\" + address) + 4n) % ADDRESS_SPACE;\n    \
    return { ...pcc, word: `${upper}_${hex64(next)}` };\n  \
    }\n\n  \
    /** What each place has after an event, in the order in which it is written. \
    */\n  \
    function writesOf(state, event) {\n    \
    const writes = [];\n    \
    for (const [name, value] of Object.entries(event.sets ?? {})) {\n      \
    writes.push([event.hart, name, value]);\n    \
    }\n    \
    for (const [address, value] of Object.entries(event.leaves ?? {})) {\n      \
    writes.push([\"mem\", address, value]);\n    \
    }\n    \
    if (event.outcome === \"sweep\") {\n      \
    for (const name of Object.keys(event.clears ?? {})) {\n        \
    const [owner, place] = name.startsWith(\"mem \") ? [\"mem\", name.slice(4)]\n          \
    : [Number(name.split(\":\")[0]), name.split(\":\")[1]];\n        \
    const { word } = valueAt(state, owner, place);\n        \
    writes.push([owner, place, { tag: false, word }]);\n      \
    }\n    \
    }\n    \
    if (event.outcome === \"done\" && event.sets?.pcc === undefined) {\n      \
    writes.push([event.hart, \"pcc\", nextPcc(state.harts[event.hart].pcc)]);\n    \
    }\n    \
    return writes;\n  \
    }\n\n  \
    function valueAt(state, owner, place) {\n    \
    if (owner === \"mem\") return state.mem[place] ?? draw.NULL;\n    \
    return place === \"pcc\" ? state.harts[owner].pcc : state.harts[owner].regs[p\
    lace] ?? draw.NULL;\n  \
    }\n\n  \
    /** Null values are left out of a state, as reports leave them out. */\n  \
    function put(state, owner, place, value) {\n    \
    if (place === \"pcc\") {\n      \
    state.harts[owner].pcc = value;\n      \
    return;\n    \
    }\n    \
    const values = owner === \"mem\" ? state.mem : state.harts[owner].regs;\n    \
    if (isNull(value)) delete values[place];\n    \
    else values[place] = value;\n  \
    }\n\n  \
    /** The status after an event, as members of a hart; nothing where it goes on \
    running. */\n  \
    function statusAfter(event) {\n    \
    if (event.outcome === \"halt\") return { status: \"halted\" };\n    \
    if (event.outcome === \"trap\") {\n      \
    return { status: \"trapped\", cause: event.cause, reg: event.reg };\n    \
    }\n    \
    return null;\n  \
    }\n\n  \
    function changeStatus(hart, { status, cause, reg }) {\n    \
    delete hart.cause;\n    \
    delete hart.reg;\n    \
    hart.status = status;\n    \
    if (cause !== undefined) Object.assign(hart, { cause, reg });\n  \
    }\n\n  \
    /** Does an event, and gives what undoes it. */\n  \
    function apply(state, event) {\n    \
    const writes = writesOf(state, event);\n    \
    const old = writes.map(([owner, place]) => [owner, place, valueAt(state, owne\
    r, place)]);\n    \
    for (const [owner, place, value] of writes) put(state, owner, place, value);\n    \
    const status = statusAfter(event);\n    \
    const hart = status && state.harts[event.hart];\n    \
    const oldStatus = status && { status: hart.status, cause: hart.cause, reg: ha\
    rt.reg };\n    \
    if (status) changeStatus(hart, status);\n    \
    return { old, status: oldStatus, hart: event.hart };\n  \
    }\n\n  \
    function undo(state, { old, status, hart }) {\n    \
    for (const [owner, place, value] of [...old].reverse()) put(state, owner, pla\
    ce, value);\n    \
    if (status) changeStatus(state.harts[hart], status);\n  \
    }\n\n  \
    /** The places that an event changed, as `view.differences` names them. */\n  \
    function changesOf(state, { old, status, hart }) {\n    \
    const changed = new Map();\n    \
    for (const [owner, place, before] of old) {\n      \
    const now = valueAt(state, owner, place);\n      \
    const name = owner === \"mem\" ? `mem ${place}` : `${owner}:${place}`;\n      \
    if (!view.sameValue(before, now)) {\n        \
    changed.set(name, before.tag && !now.tag);\n      \
    }\n    \
    }\n    \
    if (status) changed.set(`${hart}:status`, false);\n    \
    return changed;\n  \
    }\n\n  \
    /** A run that can be looked at after any count of its events. */\n  \
    function ofRun(opening, events) {\n    \
    const state = structuredClone(opening);\n    \
    const undos = [];\n    \
    /** The state after so many events, and what the last of them changed. */\n    \
    function at(count) {\n      \
    while (undos.length < count) undos.push(apply(state, events[undos.length]));\n      \
    while (undos.length > count) undo(state, undos.pop());\n      \
    const changed = count > 0 ? changesOf(state, undos[count - 1]) : new Map();\n      \
    return { state, changed };\n    \
    }\n    \
    return { at };\n  \
    }\n\n  \
    return { ofRun };\n\
    })();\n\n\
    /** The page of an explained run: reads the three texts that the file holds, \
    and goes by events. */\n\
    (() => {\n  \
    const textOf = (id) => document.getElementById(id).textContent;\n  \
    const part = (id) => document.getElementById(id);\n\n  \
    const { entries, events, image } = JSON.parse(textOf(\"explanation\"));\n  \
    const run = replay.ofRun(JSON.parse(textOf(\"state\")), events);\n  \
    const code = view.listing(part(\"listing-text\"), JSON.parse(textOf(\"listing\
    \")));\n  \
    const list = view.eventList(part(\"events\"), \"Events of the run, in order\"\
    ,\n    \
    (index) => go(index + 1));\n  \
    const slider = part(\"slider\");\n  \
    const marked = events.map((_, index) => index).filter((index) => view.isMarke\
    d(events[index]));\n  \
    let position = -1;\n\n  \
    /** Shows the moment after so many of the events. */\n  \
    function go(count) {\n    \
    const next = Math.min(Math.max(count, 0), events.length);\n    \
    if (next === position) return;\n    \
    position = next;\n    \
    const event = events[position - 1];\n    \
    const { state, changed } = run.at(position);\n    \
    const focus = Object.keys(event?.leaves ?? event?.finds ?? {})[0] ?? event?.a\
    t?.address ?? null;\n    \
    view.showEvent(part(\"words\"), part(\"facts\"), event, image,\n      \
    events.length ? `Before event ${events[0].number}.` : \"No event is shown.\")\
    ;\n    \
    view.showHarts(part(\"harts\"), state, changed, image, { [event?.hart]: \"too\
    k this step\" });\n    \
    view.showMemory(part(\"memory\"), state, changed, image, focus);\n    \
    list.mark(position - 1);\n    \
    code.mark(event?.line, event?.outcome === \"trap\" ? \"trap\" : \"\");\n    \
    slider.value = position;\n    \
    const place = event ? `event ${event.number}` : \"before the first event\";\n    \
    slider.setAttribute(\"aria-valuetext\", place);\n    \
    part(\"place\").textContent = `${position} of ${events.length}`;\n    \
    part(\"first\").disabled = part(\"back\").disabled = position === 0;\n    \
    part(\"last\").disabled = part(\"on\").disabled = position === events.length;\n    \
    part(\"next-marked\").disabled = nextMarked() === undefined;\n  \
    }\n\n  \
    const nextMarked = () => marked.find((index) => index + 1 > position);\n\n  \
    function isTyping(target) {\n    \
    return target.matches(\"input, textarea, select\");\n  \
    }\n\n  \
    function begin() {\n    \
    part(\"summary\").textContent = `${draw.plural(image.harts, \"hart\")}, `\n      \
    + `${draw.plural(image.code, \"instruction\")}, ${draw.plural(image.ram, \"by\
    te\")} of RAM, `\n      \
    + `${draw.plural(entries, \"event\")} in the run`\n      \
    + (events.length < entries ? `, of which ${events.length} are shown.` : \".\"\
    );\n    \
    part(\"count\").textContent = `(${marked.length} of ${events.length})`;\n    \
    slider.max = events.length;\n    \
    list.show(events, false);\n    \
    go(marked.length > 0 ? marked[0] + 1 : Math.min(1, events.length));\n  \
    }\n\n  \
    slider.addEventListener(\"input\", () => go(Number(slider.value)));\n  \
    part(\"first\").addEventListener(\"click\", () => go(0));\n  \
    part(\"back\").addEventListener(\"click\", () => go(position - 1));\n  \
    part(\"on\").addEventListener(\"click\", () => go(position + 1));\n  \
    part(\"last\").addEventListener(\"click\", () => go(events.length));\n  \
    part(\"next-marked\").addEventListener(\"click\", () => go(nextMarked() + 1))\
    ;\n  \
    part(\"only-marked\").addEventListener(\"change\", (change) =>\n    \
    list.show(events, change.target.checked));\n  \
    document.addEventListener(\"keydown\", (key) => {\n    \
    const to = { ArrowLeft: position - 1, ArrowRight: position + 1, Home: 0, End: \
    events.length };\n    \
    if (key.altKey || key.ctrlKey || key.metaKey || isTyping(key.target)) return;\n    \
    if (to[key.key] === undefined) return;\n    \
    key.preventDefault();\n    \
    go(to[key.key]);\n  \
    });\n  \
    begin();\n\
    })();\n\
    </script>\n\
    </body>\n\
    </html>\n";
