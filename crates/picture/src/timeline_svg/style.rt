//! The colours and shapes of pictures: blue and orange, which nearly everybody tells apart, and a shape or a letter besides.

/// What stands at the beginning of every picture.
pub const STYLE: &str = "<style>\
text{font:12px ui-monospace,SFMono-Regular,Menlo,Consolas,'DejaVu Sans Mono',monospace;fill:#1b1f24;white-space:pre}\
.t,.r{paint-order:stroke;stroke:#fff;stroke-width:3px;stroke-linejoin:round}\
.h{font-size:16px;font-weight:bold}.n{fill:#57606a;text-anchor:end}.r{fill:#57606a;font-style:italic}\
.k{font-weight:bold}.w{font-weight:bold;fill:#fff;text-anchor:middle}.o{font-weight:bold;text-anchor:middle}\
.f{font-weight:bold;fill:#9a3412}\
.paper{fill:#fff;stroke:#d0d7de}.name{fill:#eef1f4;stroke:#d0d7de}.rule{stroke:#e4e8ec}.lane{stroke:#e4e8ec}\
.start{stroke:#57606a;stroke-width:1.5;stroke-dasharray:6 4}.switch{stroke:#1b1f24;stroke-width:2.5}\
.gone{stroke:#9a3412;stroke-width:1.5;stroke-dasharray:2 3}\
.txn{stroke:#8c959f;stroke-width:2}.build{stroke:#8c959f;stroke-width:2;stroke-dasharray:2 3}.done{stroke:#1b1f24;stroke-width:3}\
.ahead{fill:#cfe3f7}.copied{fill:#fbd9b5}.front{stroke:#1b1f24;stroke-width:2}\
.box{fill:#f6f8fa;stroke:#1b1f24}.bad{fill:#fff;stroke:#9a3412;stroke-dasharray:4 3}\
</style>\n";

/// The shapes that are stamped, each in a square of 16 pixels.
pub const SHAPES: &str = "<defs>\
<g id=\"ahead\"><circle cx=\"8\" cy=\"8.5\" r=\"7.5\" fill=\"#0969c8\"/><text class=\"w\" x=\"8\" y=\"13\">A</text></g>\
<g id=\"behind\"><rect x=\"1\" y=\"1.5\" width=\"14\" height=\"14\" fill=\"#bc4c00\"/><text class=\"w\" x=\"8\" y=\"13\">B</text></g>\
<g id=\"no-build\"><path d=\"M8 .5l8 8-8 8-8-8z\" fill=\"#6e7781\"/></g>\
<g id=\"undo-ahead\"><circle cx=\"8\" cy=\"8.5\" r=\"6.5\" fill=\"#fff\" stroke=\"#0969c8\" stroke-width=\"2\"/>\
<text class=\"o\" x=\"8\" y=\"13\">A</text></g>\
<g id=\"undo-behind\"><rect x=\"2\" y=\"2.5\" width=\"12\" height=\"12\" fill=\"#fff\" stroke=\"#bc4c00\" stroke-width=\"2\"/>\
<text class=\"o\" x=\"8\" y=\"13\">B</text></g>\
<g id=\"undo-no-build\"><path d=\"M8 2l6.5 6.5-6.5 6.5-6.5-6.5z\" fill=\"#fff\" stroke=\"#6e7781\" stroke-width=\"2\"/></g>\
<g id=\"insert\"><rect x=\"1.5\" y=\"2\" width=\"13\" height=\"13\" rx=\"4\" fill=\"#fff\" stroke=\"#1b1f24\"/>\
<path d=\"M8 5v7M4.5 8.5h7\" stroke=\"#1b1f24\" stroke-width=\"2\"/></g>\
<g id=\"delete\"><rect x=\"1.5\" y=\"2\" width=\"13\" height=\"13\" rx=\"4\" fill=\"#1b1f24\"/>\
<path d=\"M4.5 8.5h7\" stroke=\"#fff\" stroke-width=\"2\"/></g>\
<g id=\"feed\"><path d=\"M3 3l9 5.5-9 5.5z\" fill=\"#fff\" stroke=\"#1b1f24\" stroke-width=\"1.5\"/></g>\
<g id=\"apply\"><path d=\"M3 3l9 5.5-9 5.5z\" fill=\"#1b1f24\" stroke=\"#1b1f24\" stroke-width=\"1.5\"/></g>\
<g id=\"ready\"><path d=\"M2 9l4.5 5 8-11\" fill=\"none\" stroke=\"#1b1f24\" stroke-width=\"3\"/></g>\
<g id=\"refused\"><path d=\"M3 3.5l10 10M13 3.5l-10 10\" stroke=\"#9a3412\" stroke-width=\"3\"/></g>\
<g id=\"pages\"><path d=\"M0 2h8v13h-8z\" fill=\"#fbd9b5\"/><path d=\"M8 2h8v13h-8z\" fill=\"#cfe3f7\"/>\
<path d=\"M8 2v13\" stroke=\"#1b1f24\" stroke-width=\"2\"/></g>\
</defs>\n";
