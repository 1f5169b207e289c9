//! The style of a page. A browser is told the hash of the whole text, and takes no other.

/// The colours by day. Each word has at least 4.5 to 1 on its ground.
pub const DAY: &str =
    ":root{color-scheme:light dark;--ground:#fbfbfa;--card:#fff;--line:#e3e2de;--text:#1d1d1b;\
--quiet:#5f5e5a;--blue:#1f6fb2;--wash:#1f6fb21f;--good:#1c7c43;--warn:#9a5b00;--bad:#b3261e}";

/// The colours by night.
pub const NIGHT: &str =
    "@media(prefers-color-scheme:dark){:root{--ground:#141413;--card:#1c1c1a;--line:#33322f;\
--text:#ecebe6;--quiet:#a3a29b;--blue:#6db3ee;--wash:#6db3ee26;--good:#63c98b;--warn:#e5a84b;--bad:#ff8a80}}";

/// The frame of the page.
pub const FRAME: &str = "*{box-sizing:border-box}\
body{margin:0;background:var(--ground);color:var(--text);font:15px/1.45 system-ui,sans-serif}\
main,header,footer{max-width:1080px;margin:0 auto;padding:0 20px}header{padding-top:22px}\
header p,section p{margin:0;color:var(--quiet)}h1{font-size:26px;line-height:1.25;font-weight:650;margin:6px 0 4px}\
.mark{display:inline-block;width:.62em;height:.62em;margin-right:.35em;border-radius:50%;background:var(--good)}\
.watch .mark{border-radius:0;background:var(--warn)}.bad .mark{border-radius:0;transform:rotate(45deg);background:var(--bad)}\
h2{font-size:15px;font-weight:650;margin:0 0 8px}\
section{background:var(--card);border:1px solid var(--line);border-radius:10px;padding:14px 16px;margin:16px 0}\
footer{color:var(--quiet);font-size:13px;padding-bottom:28px}a{color:var(--blue)}\
nav{display:flex;flex-wrap:wrap;gap:4px 16px}";

/// The tables. One that is wider than the screen scrolls in its own box.
pub const TABLES: &str = ".wide{overflow-x:auto}\
table{border-collapse:collapse;width:100%;font-variant-numeric:tabular-nums}\
th{font-weight:500;color:var(--quiet);font-size:13px;white-space:nowrap}\
th,td{text-align:right;padding:5px 10px;border-top:1px solid var(--line)}\
thead th{border-top:0;padding-top:0}th:first-child,td:first-child{padding-left:0}\
tbody th,.words{text-align:left}tbody th{color:var(--text);font-size:14px;font-family:ui-monospace,monospace}\
td,tbody th{white-space:nowrap}td.words{color:var(--quiet)}td.words:last-child{white-space:normal;min-width:20em}\
td.bad{color:var(--bad);font-weight:600}td.warn{color:var(--warn);font-weight:600}td.none{color:var(--quiet)}\
summary{color:var(--quiet);padding-top:8px}";

/// The drawings.
pub const DRAWINGS: &str = "figure{margin:0}figure+figure{margin-top:14px}\
figcaption,.ends{display:flex;justify-content:space-between;gap:12px;color:var(--quiet);font-size:13px}\
figcaption b{color:var(--text);font-weight:600}svg{display:block;width:100%}.chart{height:92px;margin-top:4px}\
.bar{width:84px;height:8px;display:inline-block}.axis{stroke:var(--line)}\
.curve{fill:none;stroke:var(--blue);stroke-width:1.6;stroke-linejoin:round}.gap{fill:var(--bad);opacity:.16}\
.track{fill:var(--line)}.fill{fill:var(--blue)}.least{fill:var(--text)}\
@media(max-width:720px){h1{font-size:22px}main,header,footer{padding-left:12px;padding-right:12px}}";

/// What a browser may load for an answer: the style, by its hash, and an icon of no bytes.
pub const POLICY: &str =
    "default-src 'none'; style-src 'sha256-+RrIhKHkC1zN4i4bWd0JK9GRnOU5/7x7RJ+JRs+djvc='; img-src data:; base-uri 'none'; \
form-action 'none'; frame-ancestors 'none'";
