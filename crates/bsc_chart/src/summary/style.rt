//! The parts of a page that are the same for all traces.

/// The beginning of a page, with its style. The colours are those of the picture, for light and for
/// dark paper.
pub(crate) const PAGE_START: &[u8] = b"<!DOCTYPE html>\n\
<html xmlns=\"http://www.w3.org/1999/xhtml\" lang=\"en\">\n\
<head>\n\
<meta charset=\"utf-8\"/>\n\
<meta name=\"viewport\" content=\"width=device-width, initial-scale=1\"/>\n\
<meta name=\"color-scheme\" content=\"light dark\"/>\n\
<title>Ladder of a line</title>\n\
<style>\n\
body{margin:1.5rem;background:var(--paper);color:var(--ink);\
font:14px/1.4 system-ui,sans-serif}\n\
.tables{display:flex;flex-wrap:wrap;align-items:flex-start;gap:1.5rem 3rem}\n\
table{border-collapse:collapse;font-variant-numeric:tabular-nums}\n\
caption{padding-bottom:.3rem;text-align:left;font-weight:bold}\n\
th,td{padding:.15rem .7rem;border-top:1px solid var(--rail);text-align:right;font-weight:normal}\n\
th:first-child{padding-left:0;text-align:left}\n\
thead th{border-top:0;color:var(--soft)}\n\
th.text,td.text{text-align:left}\n\
.tables>:first-child :not(thead)>tr:last-child>*{font-weight:bold}\n\
.ladder{margin-top:1.5rem;overflow-x:auto}\n\
</style>\n\
</head>\n\
<body>\n\
<div class=\"tables\">\n";

/// The beginning of the table of the transmissions by kind.
pub(crate) const KINDS_START: &[u8] = b"<table>\n\
<caption>Transmissions</caption>\n\
<thead><tr><th scope=\"col\">kind</th><th scope=\"col\">all</th><th scope=\"col\">lost</th>\
<th scope=\"col\">failed</th><th scope=\"col\">turned</th></tr></thead>\n";

/// The beginning of the table of the stations.
pub(crate) const STATIONS_START: &[u8] = b"<table>\n\
<caption>Stations</caption>\n\
<thead><tr><th scope=\"col\">station</th><th scope=\"col\" class=\"text\">addresses</th>\
<th scope=\"col\">transmissions</th><th scope=\"col\">records arrived</th></tr></thead>\n";

/// The beginning of the table of the time.
pub(crate) const TIMES_START: &[u8] = b"<table>\n\
<caption>Time</caption>\n\
<thead><tr><th scope=\"col\">before</th><th scope=\"col\">milliseconds</th>\
<th scope=\"col\">share</th></tr></thead>\n";

/// The end of the tables, and the beginning of the picture.
pub(crate) const LADDER_START: &[u8] = b"</div>\n<div class=\"ladder\">\n";

/// The end of a page.
pub(crate) const PAGE_END: &[u8] = b"</div>\n</body>\n</html>\n";
