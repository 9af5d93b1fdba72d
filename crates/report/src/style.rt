//! The style sheet of the page.

/// The style sheet: for screens of any width, light and dark, and for print.
pub(crate) const STYLE: &str = "\
:root{color-scheme:light dark;--ground:#fff;--text:#1b1f24;--quiet:#545d68;--bar:#2f6f9f;\
--late:#b3261e;--line:#d0d7de}
@media(prefers-color-scheme:dark){:root{--ground:#15181c;--text:#e6e8ea;--quiet:#a0a9b2;\
--bar:#6fb0df;--late:#ff8f85;--line:#3a4149}}
*{box-sizing:border-box}
body{margin:0 auto;padding:16px;max-width:1200px;background:var(--ground);color:var(--text);\
font:16px/1.45 system-ui,sans-serif}
h1{font-size:1.35rem;margin:0}
h2{font-size:1.1rem;margin:0 0 4px}
header p,.about{color:var(--quiet);margin:0 0 10px;font-size:.875rem}
section{margin:20px 0;min-width:0}
.verdict{font-size:1.1rem;margin:0 0 10px}
p.late,div.late dd{color:var(--late);font-weight:600}
dl{display:grid;grid-template-columns:repeat(auto-fit,minmax(150px,1fr));gap:10px;margin:0}
dl div{border:1px solid var(--line);border-radius:6px;padding:8px 12px}
dt{color:var(--quiet);font-size:.875rem}
dd{margin:0;font-size:clamp(1.4rem,6vw,2rem);line-height:1.2;font-variant-numeric:tabular-nums}
svg{overflow:visible}
svg.chart{display:block;width:100%;font-size:13px}
svg text{fill:var(--text)}
svg rect,svg circle{fill:var(--bar)}
svg line{stroke:var(--bar);stroke-width:2}
.late rect,.late circle{fill:var(--late)}
.late text{fill:var(--late);font-weight:600}
summary{cursor:pointer;color:var(--quiet);font-size:.875rem;padding:6px 0}
summary:focus-visible{outline:2px solid var(--bar);outline-offset:2px}
table{border-collapse:collapse;font-size:.875rem;font-variant-numeric:tabular-nums}
th,td{text-align:left;padding:3px 14px 3px 0;border-bottom:1px solid var(--line);\
font-weight:400;vertical-align:top}
thead th{font-weight:600}
ol{padding-left:0;list-style:none;font-size:.875rem;font-variant-numeric:tabular-nums}
@media(min-width:900px){.charts{display:grid;grid-template-columns:1fr 1fr;gap:0 48px}}
@media print{body{max-width:none;padding:0;font-size:11pt}section,dl div{break-inside:avoid}\
summary{display:none}details::details-content{content-visibility:visible}}
";
