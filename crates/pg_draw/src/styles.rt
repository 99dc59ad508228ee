//! How the page looks: colours for light and for dark, and its layout on a screen and on paper.
use crate::pieces::{Piece, print};
use std::alloc::AllocError;

// The colours of a light page, which is printed too.
const LIGHT: &str =
    ":root{color-scheme:light dark;--ground:#f4f3ef;--paper:#fffefb;--ink:#23221f;--soft:#5d5a53;
--rule:#d8d4c9;--box:#e9e6dd;--base:#85817a;--stretch:#1f6fa8;--shrink:#b04a22;--odd:#b03a26;
--wide:#7553a8;--top:#1f7d72;--bottom:#5f7a1f;--notes:#8f6208}
";

// The colours of a dark one.
const DARK: &str =
    "@media screen and (prefers-color-scheme:dark){:root{--ground:#141517;--paper:#1d1f22;--ink:#e7e4dc;
--soft:#a9a69c;--rule:#393b3f;--box:#2d2f34;--base:#7d8086;--stretch:#5fb0e6;--shrink:#ea8a5f;--odd:#f08a76;
--wide:#a98fd8;--top:#55b9ac;--bottom:#a3bf59;--notes:#dba941}}
";

// Text, links and the head of the page.
const TEXT: &str = "*{box-sizing:border-box}
body{margin:0;background:var(--ground);color:var(--ink);font:16px/1.5 system-ui,sans-serif}
header,main{padding:1.25rem clamp(.75rem,3vw,2.5rem);max-width:96rem;margin:0 auto}
header{padding-bottom:0}h1{font-size:1.35rem;line-height:1.3;margin:0;overflow-wrap:anywhere}
h2{font-size:1.05rem;margin:.6rem 0 0;overflow-wrap:anywhere}main h2{flex:1 1 100%;text-align:center}
p{margin:.2rem 0 .5rem}a{color:inherit}
a:focus-visible{outline:3px solid var(--stretch);outline-offset:2px}
.skip{position:absolute;left:-99rem}.skip:focus{left:1rem;top:.4rem;background:var(--paper);padding:.2rem .6rem}
.defs{position:absolute;width:0;height:0}
";

// All pages, small.
const SMALL: &str =
    ".all{display:flex;flex-wrap:wrap;gap:.6rem .7rem;margin:.6rem 0;padding:0;list-style:none}
.all li{display:flex;gap:1px;min-height:4.6rem;content-visibility:auto;contain-intrinsic-size:auto 5.2rem auto 4.6rem}
.all .right{padding-left:2.65rem}
.all a{display:flex;flex-direction:column;width:2.6rem;font-size:.75rem;line-height:1.2;text-align:center;
text-decoration:none}.all svg{background:var(--paper);border:1px solid var(--base);flex:1 1 auto;max-height:4.5rem}
.all a:hover svg{border-color:var(--ink)}
.all i,.kd::before{background:linear-gradient(var(--odd),var(--odd)) 0/calc(var(--b)*1%) 100% no-repeat,var(--rule)}
.all i{height:5px;margin:2px 0}.all .text,.all .other{fill:var(--base)}
.all .wide,.all .top,.all .bottom,.all .notes{fill:var(--c)}
";

// What the marks say.
const KEY: &str =
    ".key{display:flex;flex-wrap:wrap;gap:.35rem 1.1rem;margin:0;padding:0 0 .9rem;list-style:none;
font-size:.82rem;color:var(--soft);border-bottom:1px solid var(--rule)}
.key li[class]::before{content:\"\";display:inline-block;width:.8rem;height:.8rem;margin-right:.4rem;
vertical-align:-.08rem;background:var(--c)}.key svg{display:inline-block;width:.8rem;height:.8rem;margin-right:.4rem;
vertical-align:-.08rem}.kw,.wide{--c:var(--wide)}.kt,.top{--c:var(--top)}.ko,.bottom{--c:var(--bottom)}
.kn,.notes{--c:var(--notes)}.key li.kw::before,.key li.kt::before,.key li.ko::before,.key li.kn::before{
background:none;border:1px solid var(--c);border-left-width:4px}
.key li.kg::before,.key li.kl::before,.key li.kp::before{width:1.4rem;height:0;background:none;
border-top:3px solid var(--ink);vertical-align:.25rem}
.key li.kl::before{border-top:3px dashed var(--odd)}.key li.kp::before{width:.6rem;border-color:var(--base)}
.key li.kd::before{--b:60;width:1.4rem;height:5px;vertical-align:.18rem;background:linear-gradient(var(--odd),var(--odd)) 0/60% 100% no-repeat,var(--rule)}
";

// Pages, side by side.
const PAGES: &str =
    "main{display:flex;flex-wrap:wrap;gap:1.75rem 1.5rem;align-items:flex-start;justify-content:center}
.spread{display:flex;gap:3px;min-width:0;flex:1 1 20rem;max-width:26rem}.two{flex:1 1 36rem;max-width:48rem}
.pair{display:flex;flex-wrap:wrap;gap:.5rem 1.5rem;flex:1 1 100%;max-width:60rem;min-width:0;scroll-margin-top:.5rem}
.step{flex:1 1 100%;display:flex;gap:1rem;justify-content:center;margin:0;padding:.3rem;border-top:1px solid var(--base)}
.page{flex:1 1 0;min-width:0;background:var(--paper);border:1px solid var(--base);content-visibility:auto;
contain-intrinsic-size:auto 24rem auto 44rem;scroll-margin-top:1rem}
.page:target,.pair:target .step{outline:3px solid var(--stretch);outline-offset:2px}
.none{flex:1 1 0;color:var(--soft);text-align:center}
h3{display:flex;flex-wrap:wrap;gap:0 .5rem;align-items:baseline;margin:0;padding:.4rem .8rem;font-size:.95rem;
font-weight:600;border-bottom:1px solid var(--rule)}h3 a{text-decoration:none}
h3 span{color:var(--soft);font-weight:400;font-size:.85rem;overflow-wrap:anywhere}h3>b{margin-left:auto;font-size:.85rem}
.parted h3{border-left:5px solid var(--odd)}.parted .to dd{font-weight:700;text-decoration:underline}
";

// A picture of a page.
const PICTURE: &str =
    "svg{display:block;width:100%;height:auto}.f{fill:none;stroke:var(--rule);stroke-width:25}
.i{fill:var(--c,var(--base));fill-opacity:.12;stroke:var(--c,var(--base));stroke-width:45}.e{fill:var(--c,var(--base))}
.b{fill:var(--box);fill-opacity:.5}.n{fill:var(--base)}.g{fill:none;pointer-events:all}.r{fill:var(--ink)}
.s{fill:url(#hatch);stroke:var(--stretch);stroke-width:45}.h{stroke:var(--stretch);stroke-width:55}
.k{fill:var(--shrink);stroke:var(--shrink);stroke-width:45}
.p{stroke:var(--base);stroke-width:70}.goal,.total{fill:none;stroke:var(--ink);stroke-width:50}
.total{stroke:var(--odd);stroke-dasharray:220 140}svg text{fill:var(--ink);font-family:Georgia,\"Times New Roman\",serif}
svg .c{font:600 800px system-ui,sans-serif}
";

// The numbers below it.
const SUMS: &str =
    ".sums{display:flex;gap:1.4rem;padding:.5rem .8rem .6rem;border-top:1px solid var(--rule)}
dl{flex:1 1 0;margin:0;font-size:.82rem}dl div{display:flex;flex-wrap:wrap;justify-content:space-between;gap:0 .5rem}
dt{color:var(--soft)}dd{margin:0 0 0 auto;text-align:right;font-variant-numeric:tabular-nums}
.odd dt,.odd dd{color:var(--odd);font-weight:700}.wait{margin:0;padding:0 .8rem .6rem;font-size:.82rem}
";

// A narrow screen, and paper.
const OTHER: &str =
    "@media (max-width:56rem){.pair{gap:.5rem .75rem}.sums{gap:.6rem;padding:.5rem}h3{padding:.4rem .5rem}}
@media (max-width:34rem){.two{flex-direction:column;gap:1rem}.spread{flex:1 1 100%}.two .page{flex:none}
.pair .page{flex:1 1 100%}}
@media print{@page{margin:12mm}:root{--ground:#fff;--paper:#fff}body{font-size:9px;line-height:1.3}
header,main{max-width:none;padding:0}h2,h3,h3>b,h3 span,dl,.key,.wait{font-size:1em}.skip,.step a{display:none}
main{display:grid;grid-template-columns:1fr 1fr;gap:4mm;padding:3mm 1px 0}.two,.pair,main h2{grid-column:1/3}
.spread,.pair{max-width:none;break-inside:avoid}.two,.pair{display:grid;grid-template-columns:1fr 1fr;gap:2mm 4mm}
.lone{grid-column:2}.step{grid-column:1/3;padding:0}.page svg{max-height:92mm}dl:only-child{columns:2;column-gap:4mm}
*{print-color-adjust:exact;-webkit-print-color-adjust:exact}.page:has(dl+dl) svg{max-height:82mm}main h2{break-after:avoid}
.page,.all li{content-visibility:visible;break-inside:avoid}.all li{min-height:0}.all svg{max-height:14mm}}
";

/// The styles of the page.
pub fn print_styles(out: &mut Vec<u8>) -> Result<(), AllocError> {
    print(
        out,
        &[
            Piece::Markup("<style>\n"),
            Piece::Markup(LIGHT),
            Piece::Markup(DARK),
            Piece::Markup(TEXT),
            Piece::Markup(SMALL),
            Piece::Markup(KEY),
            Piece::Markup(PAGES),
            Piece::Markup(PICTURE),
            Piece::Markup(SUMS),
            Piece::Markup(OTHER),
            Piece::Markup("</style>\n"),
        ],
    )
}
