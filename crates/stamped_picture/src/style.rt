//! How the boxes look: colours that a colour-blind reader tells apart, on light and dark ground.

/// The style of the SVG.
pub(crate) const STYLE: &str = "svg{font:11px monospace}
text{fill:#000}
.lane rect,.axis rect{fill:none;stroke:#999;stroke-width:0.5}
.lane text,.axis text,.note text{fill:#333}
.note rect{fill:none}
.free rect{fill:#dddddd;stroke:#fff}
.reading rect{fill:#56b4e9;stroke:#fff}
.writing rect{fill:#e69f00;stroke:#fff}
.content rect{fill:#f0e442;stroke:#fff}
.bar rect{fill:#0072b2;stroke:#fff}
.bar text{fill:#fff}
.bad rect{fill:#d55e00;stroke:#000;stroke-width:3}
.mark rect{fill:#000;stroke:#fff}
@media (prefers-color-scheme:dark){.lane text,.axis text,.note text{fill:#eee}.mark rect{fill:#fff;stroke:#000}.bad rect{stroke:#fff}}";
