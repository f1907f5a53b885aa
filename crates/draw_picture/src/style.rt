//! The style of a picture: its lettering, and its colours on light and on dark backgrounds.
ghost use Rattle.draw_picture.specs.Cards.{AddsSome};

use draw_svg::Text;

/// The style rules: lettering, backgrounds with text colours and lines, the colours of groups with the lines of arrows,
/// the colours of objects with those of their serials, and the states of objects' bytes.
const RULES: &str = "\
text{font-family:'DejaVu Sans Mono',Menlo,Consolas,monospace;font-size:110px}
.ft{font-size:170px}.ft,.fs{font-weight:bold}
.bg{fill:#f3f4f6}.card{fill:#fff;stroke:#c8cdd4;stroke-width:10}
.ink{fill:#1d2430}.soft{fill:#58626d}.green{fill:#1b6e3a}
.amber{fill:#9a5200}.red{fill:#a8201a}.blue{fill:#1558a6}
.pg{fill:#fbfbfc;stroke:#7b848d;stroke-width:10}
.no{fill:none;stroke:#a3abb4;stroke-width:10;stroke-dasharray:30 30}
.ro,.rom{fill:url(#held);stroke:#b86500;stroke-width:24}.rom{stroke-width:12}
.hg{fill:#fff6e3}.hs{fill:#d99a3d}
.new{fill:none;stroke:#1769c4;stroke-width:22}
.grid{fill:none;stroke:#dfe3e8;stroke-width:6}
.ahead{fill:#e5ebf4}.made{fill:#a3c4ea}.occ{fill:#4a6a8f}
.pd{fill:#1b6e3a}.pb{fill:#9a5200}.pr{fill:#a8201a}.pm{fill:#1558a6}.pt{fill:#fff}
.k0{fill:#332288}.k1{fill:#b04600}.k2{fill:#117733}.k3{fill:#882255}
.k4{fill:#006d77}.k5{fill:#6b6400}.k6{fill:#93308f}.k7{fill:#444444}
.a0,.a1,.a2,.a3,.a4,.a5,.a6,.a7,.chg,.was{fill:none;stroke-width:16}
.a0{stroke:#332288}.a1{stroke:#b04600}.a2{stroke:#117733}.a3{stroke:#882255}
.a4{stroke:#006d77}.a5{stroke:#6b6400}.a6{stroke:#93308f}.a7{stroke:#444444}
.chg{stroke:#1769c4}.was{stroke:#8f98a2;stroke-width:12;stroke-dasharray:20 30}
.hold{stroke-dasharray:50 30}.bold{stroke-width:34}
.o0{fill:#0072b2;stroke:#0072b2}.o1{fill:#e69f00;stroke:#e69f00}
.o2{fill:#009e73;stroke:#009e73}.o3{fill:#cc79a7;stroke:#cc79a7}
.o4{fill:#56b4e9;stroke:#56b4e9}.o5{fill:#d55e00;stroke:#d55e00}
.o6{fill:#e0d33a;stroke:#e0d33a}.o7{fill:#882255;stroke:#882255}
.o8{fill:#44aa99;stroke:#44aa99}.o9{fill:#999933;stroke:#999933}
.o10{fill:#4b3fa0;stroke:#4b3fa0}.o11{fill:#aa4499;stroke:#aa4499}
.u0,.u7,.u10,.u11{fill:#fff}
.u1,.u2,.u3,.u4,.u5,.u6,.u8,.u9{fill:#000}
rect[class^='o']{stroke-width:0}
.rest{fill-opacity:.28}.restc{fill-opacity:.1}.resto{fill-opacity:.05}
.old{fill-opacity:.18}
rect.copy{fill-opacity:.32;stroke-width:12;stroke-dasharray:30 20}
";

/// The style rules for a dark background: backgrounds with text colours and lines, and the colours of groups.
const DARK_RULES: &str = "\
.bg{fill:#101418}.card{fill:#1a2027;stroke:#39434e}
.ink{fill:#e8ecf1}.soft{fill:#a4afbb}.green{fill:#6fd08c}
.amber{fill:#f0b45c}.red{fill:#ff8f86}.blue{fill:#82b8f5}
.pg{fill:#222a33;stroke:#8792a0}.no{stroke:#5d6875}
.ro,.rom{stroke:#f0a53a}.hg{fill:#2c2517}.hs{fill:#8a5f1e}
.new{stroke:#6cb2ff}.grid{stroke:#333d48}
.ahead{fill:#2a3543}.made{fill:#2f5f96}.occ{fill:#8fb4dd}
.k0{fill:#a9a0f0}.k1{fill:#f09a5a}.k2{fill:#6fc98a}.k3{fill:#e08ab5}
.k4{fill:#5cc8d2}.k5{fill:#d0c750}.k6{fill:#dc8ed8}.k7{fill:#c4c9cf}
.a0{stroke:#a9a0f0}.a1{stroke:#f09a5a}.a2{stroke:#6fc98a}.a3{stroke:#e08ab5}
.a4{stroke:#5cc8d2}.a5{stroke:#d0c750}.a6{stroke:#dc8ed8}.a7{stroke:#c4c9cf}
.chg{stroke:#6cb2ff}.was{stroke:#76818d}.old{fill-opacity:.35}
";

/// The hatching of read-only pages.
const HATCHING: &str = "\
<defs><pattern id='held' width='70' height='70' patternUnits='userSpaceOnUse' patternTransform='rotate(45)'>
<rect class='hg' width='70' height='70'/><rect class='hs' width='20' height='70'/></pattern></defs>
";

/// Adds the style rules, and the hatching of read-only pages.
pub fn add_rules(text: &mut Text)
    ensures { AddsSome text.old text.new }
{
    text.add_style(RULES, DARK_RULES);
    text.add(HATCHING.as_bytes());
}
