//! The style of a picture, and the shapes of which it is made.

/// The style, for light and for dark paper. A page takes its colours from here too.
pub(crate) const STYLE: &[u8] = b"<style>\n\
:root{--paper:#fff;--ink:#24292f;--soft:#6e7781;--rail:#afb8c1;--arrow:#0a4a9e;--bad:#b42318;\
--good:#116329}\n\
@media (prefers-color-scheme:dark){:root{--paper:#15191e;--ink:#e6edf3;--soft:#9aa4af;\
--rail:#4b5560;--arrow:#79b8ff;--bad:#ff8f85;--good:#6fdd8b}}\n\
svg{background:var(--paper);color:var(--ink);\
font:12px ui-monospace,'DejaVu Sans Mono',Menlo,Consolas,monospace}\n\
text{fill:currentColor;dominant-baseline:middle;stroke:var(--paper);stroke-width:4px;\
stroke-linejoin:round;paint-order:stroke;white-space:pre}\n\
.t{fill:var(--soft);text-anchor:end}\n\
.n{dominant-baseline:auto;transform:translateY(-4px)}\n\
.h,.a{text-anchor:middle}\n\
.h{font-weight:bold}\n\
.a{fill:var(--soft);font-size:11px}\n\
.r{stroke:var(--rail);fill:none}\n\
g path,g use{stroke:var(--arrow);stroke-width:1.5px;fill:none}\n\
.f{fill:var(--arrow)}\n\
.p{fill:var(--paper)}\n\
.failed,.turned,.lost,.withheld,.doubt,.untrusted{--arrow:var(--bad)}\n\
.arrived,.released,.restart{--arrow:var(--good)}\n\
.ignored,.silence,.told{--arrow:var(--soft)}\n\
.failed>path{stroke-dasharray:8 3}\n\
.turned>path{stroke-dasharray:12 3 3 3}\n\
.ignored>path{stroke-dasharray:4 4}\n\
.lost>path{stroke-dasharray:6 5}\n\
.withheld>path{stroke-dasharray:2 5}\n\
.silence>path{stroke-dasharray:1 6;stroke-linecap:round}\n\
</style>\n";

/// The shapes: the tail of an arrow, its heads away from the control station and to it, the ends of
/// those that did not arrive, and the signs of marks. All but `tail` have the names that
/// `fate_name` and `sign_name` return, with the side added to a head; rows have these names as
/// classes.
pub(crate) const SHAPES: &[u8] = b"<defs>\n\
<circle id=\"tail\" r=\"2.5\" class=\"f\"/>\n\
<path id=\"sent-r\" d=\"M-9-5L0 0L-9 5\"/>\n\
<path id=\"sent-l\" d=\"M9-5L0 0L9 5\"/>\n\
<path id=\"heard-r\" class=\"f\" d=\"M0 0L-10-4.5V4.5Z\"/>\n\
<path id=\"heard-l\" class=\"f\" d=\"M0 0L10-4.5V4.5Z\"/>\n\
<path id=\"failed-r\" class=\"p\" d=\"M0 0L-11-5.5V5.5Z\"/>\n\
<path id=\"failed-l\" class=\"p\" d=\"M0 0L11-5.5V5.5Z\"/>\n\
<path id=\"turned-r\" class=\"p\" d=\"M0 0L-7-5.5L-14 0L-7 5.5Z\"/>\n\
<path id=\"turned-l\" class=\"p\" d=\"M0 0L7-5.5L14 0L7 5.5Z\"/>\n\
<circle id=\"ignored-r\" class=\"p\" cx=\"-6\" r=\"5\"/>\n\
<circle id=\"ignored-l\" class=\"p\" cx=\"6\" r=\"5\"/>\n\
<path id=\"lost\" d=\"M-5.5-5.5L5.5 5.5M-5.5 5.5L5.5-5.5\"/>\n\
<path id=\"withheld\" d=\"M-2.5-7V7M2.5-7V7\"/>\n\
<circle id=\"told\" class=\"f\" r=\"3\"/>\n\
<circle id=\"named\" class=\"f\" r=\"3\"/>\n\
<path id=\"arrived\" class=\"f\" d=\"M0-5.5L5.5 0L0 5.5L-5.5 0Z\"/>\n\
<path id=\"doubt\" class=\"p\" d=\"M0-6.5L6.5 0L0 6.5L-6.5 0Z\"/>\n\
<path id=\"released\" d=\"M-6 0L-2 5L6-6\"/>\n\
<path id=\"restart\" d=\"M5-3A6 6 0 1 0 6 1M6-7V-2H1\"/>\n\
<path id=\"untrusted\" class=\"p\" d=\"M-6-6H6V6H-6ZM-3-3L3 3M-3 3L3-3\"/>\n\
</defs>\n";
