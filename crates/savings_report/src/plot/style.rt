//! The style of the plot: its fonts, and its colours on light and dark backgrounds.

/// The font rule of the title.
pub const HEADING: &str = "ft";

/// The font rule of notes.
pub const NOTE: &str = "fn";

/// The font rule of the marks of axes.
pub const MARK: &str = "fa";

/// The rules of fonts, of backgrounds, text colours and the lines of the axes, of the lines of the curves, and of the
/// mark of what is saved. Most colour-blind readers can distinguish the colours. If curves overlap, all stay visible:
/// the first curve is wider than the curves drawn on top of it, and two curves are dashed.
pub const RULES: &str = "\
.ft{font-size:170px;font-weight:bold}.fn{font-size:110px}.fa{font-size:110px}
.bg{fill:#f3f4f6}.card{fill:#fff;stroke:#c8cdd4;stroke-width:10}
.ink{fill:#1d2430}.soft{fill:#58626d}
.grid{fill:none;stroke:#dfe3e8;stroke-width:8}.tick{fill:none;stroke:#7b848d;stroke-width:10}
.without,.with,.perfect,.live{fill:none;stroke-linecap:round;stroke-linejoin:round}
.without{stroke:#d55e00;stroke-width:20}
.with{stroke:#0072b2;stroke-width:14}
.perfect{stroke:#009e73;stroke-width:14;stroke-dasharray:56 46}
.live{stroke:#cc79a7;stroke-width:16;stroke-dasharray:1 32}
.guide{fill:none;stroke:#7b848d;stroke-width:8;stroke-dasharray:20 30}.saved{fill:none;stroke:#1d2430;stroke-width:16}
";

/// The rules of backgrounds, text colours and lines for a dark background.
pub const DARK_RULES: &str = "\
.bg{fill:#101418}.card{fill:#1a2027;stroke:#39434e}
.ink{fill:#e8ecf1}.soft{fill:#a4afbb}
.grid{stroke:#333d48}.tick{stroke:#8792a0}
.without{stroke:#e69f00}.with{stroke:#56b4e9}
.perfect{stroke:#2fbf94}.live{stroke:#e3a5c7}
.guide{stroke:#8792a0}.saved{stroke:#e8ecf1}
";
