//! Texts, and the tokens that the standard tokenizer emits for them.
use super::recording::Setting::{Foreign, Html, Raw};
use super::recording::{Row, Standard, check_all};
use h5_token::states::RawKind;
use std::test::Fail;

#[rattlefmt::skip]
const ROWS: &[Row] = &[
    (Html, "a<!-- x --!>b", "aC( x )b$", " 1 1"),
    (Html, "<!-->x<!--->y", "C()xC()y$", " 1 1 1"),
    (Html, "<!x><?x?></1></>x", "C(x)C(?x?)C(1)x$", " 1 1 1 1"),
    (Html, "<!-- y --", "C( y )$", " 1 1"),
    (Html, "<![CDATA[x]]>", "C([CDATA[x]])$", " 1 1"),
    (Html, "\u{feff}x\r\ny\rz\n<!--\r\n-->", "x\ny\nz\nC(\n)$", " 4 5"),
    (Html, "<!DOCTYPE Html>", "D(html,-,-,false)$", " 1 1"),
    (Html, "<!doctype html public 'a'\"b\">", "D(html,a,b,false)$", " 1 1"),
    (Html, "<!doctype x SYSTEM\t'b'>", "D(x,-,b,false)$", " 1 1"),
    (Html, "<!doctype x\n systen>", "D(x,-,-,true)$", " 1 2"),
    (Html, "<!doctype>", "D(-,-,-,true)$", " 1 1"),
    (Html, "x<!doctype a", "xD(a,-,-,true)$", " 1 1"),
    (Html, "<A c='1' C=2 d=e/f>", "<a c=1 d=e/f !>$", " 1 1"),
    (Html, "</p a=b/>x", "</p a=b/>x$", " 1 1"),
    (Html, "<br/><x-y z>", "<br /><x-y z=>$", " 1 1 1"),
    (Html, "a\0<b \0=\0>", "a[0]<b \u{fffd}=\u{fffd}>$", " 1 1 1"),
    (Html, "x<a b", "x$", " 1"),
    (Html, "1<2</", "1<2</$", " 1"),
    (Html, "&notit;&amp;&amp&x;&am", "\u{ac}it;&&&x;&am$", " 1"),
    (Html, "&NotEqualTilde;", "\u{2242}\u{338}$", " 1"),
    (Html, "&#x41;&#65&#x80;&#;&#x;", "AA\u{20ac}&#;&#x;$", " 1"),
    (Html, "&#xD800;&#x110000;&#99999999999;&#0;", "\u{fffd}\u{fffd}\u{fffd}\u{fffd}$", " 1"),
    (Html, "&#13;\r\nx", "\r\nx$", " 2"),
    (Html, "<a b=\"&notit;&not;&not=&amp\">", "<a b=&notit;\u{ac}&not=&>$", " 1 1"),
    (Raw(RawKind::Rcdata), "<t>a</x>&lt;</T b>&gt;", "<t>a</x><</t b=>>$", " 1 1 1"),
    (Raw(RawKind::Rawtext), "<t>&lt;\0</t/>", "<t>&lt;\u{fffd}</t />$", " 1 1 1"),
    (Raw(RawKind::ScriptData), "<t><!--<script></t></script></t>-->", "<t><!--<script></t></script></t>-->$", " 1 1 1"),
    (Raw(RawKind::ScriptData), "<t><!-- </t >x", "<t><!-- </t>x$", " 1 1 1"),
    (Foreign, "a<![CDATA[<b>&amp;\0]]]>c", "a<b>&amp;[0]]c$", " 1 1"),
    (Foreign, "<![CDATA[x]]", "x]]$", " 1"),
    (Foreign, "<![CDAT", "C([CDAT)$", " 1 1"),
];

#[test]
fn standard_texts(rt: HostRuntime) -> Result<(), Fail> {
    check_all::<Standard>(&rt, rt.alloc(), ROWS)?;
    Ok(())
}
