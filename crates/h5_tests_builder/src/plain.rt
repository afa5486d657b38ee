//! Texts, and the tokens that the plain tokenizer emits for them.
use super::recording::Setting::{Foreign, Html, Raw};
use super::recording::{Plain, Row, check_all};
use h5_plain_tokenizer::laws;
use h5_tests_sinks::Recorder;
use h5_token::states::RawKind;
use std::test::Fail;

#[rattlefmt::skip]
const ROWS: &[Row] = &[
    (Html, "<!DOCTYPE html>", "D(html,-,-,false)$", " 1 1"),
    (Html, "<!doctype HTML public 'a' \"b\" >", "D(html,a,b,false)$", " 1 1"),
    (Html, "<!doctype x system\t'b'>", "D(x,-,b,false)$", " 1 1"),
    (Html, "<!doctype x\n system>\n", "D(x,-,-,true)\n$", " 1 3"),
    (Html, "<!doctype  >", "D(-,-,-,true)$", " 1 1"),
    (Html, "<a b=/>", "<a b=/>$", " 1 1"),
    (Html, "<a b/>", "<a b= />$", " 1 1"),
    (Html, "<A c='1' C=2 =d=e f = g h>", "<a c=1 =d=e f=g h= !>$", " 1 1"),
    (Html, "\n<a b='>' c=\"&lt;\r\n\"/>", "\n<a b=> c=<\n />$", " 2 3"),
    (Html, "</p a=b/>x</1>", "</p>x</1>$", " 1 1"),
    (Html, "a\0<b \0=\0>", "a[0]<b \u{fffd}=\u{fffd}>$", " 1 1 1"),
    (Html, "x<a b", "x$", " 1"),
    (Html, "a<!-- x --><Title>b&amp;c", "aC( x )<title>b&c$", " 1 1 1"),
    (Html, "\u{feff}x\r\ny\rz\n<!--\r\n-->&am", "x\ny\nz\nC(\n)&am$", " 4 5"),
    (Html, "<!x><?x><1<", "<!x><?x><1<$", " 1"),
    (Html, "x<!doctype a", "x$", " 1"),
    (Html, "x<!-- y --", "xC( y --)$", " 1 1"),
    (Html, "<!---->", "C()$", " 1 1"),
    (Html, "<!--->-->", "C(->)$", " 1 1"),
    (Html, "<![CDATA[x]]>", "<![CDATA[x]]>$", " 1"),
    (Html, "\r", "\n$", " 2"),
    (Raw(RawKind::Rcdata), "<t>a</x>&lt;</T b>&gt;", "<t>a</x><</t>>$", " 1 1 1"),
    (Raw(RawKind::Rawtext), "<t>&lt;<!--\0</t/>&gt;", "<t>&lt;<!--\u{fffd}</t>>$", " 1 1 1"),
    (Raw(RawKind::ScriptData), "<t></tt></t", "<t></tt></t$", " 1 1"),
    (Raw(RawKind::ScriptData), "<t>\rx</t ", "<t>\nx$", " 1 2"),
    (Foreign, "a<![CDATA[<b>&amp;\0]]]>c", "a<b>&amp;\u{fffd}]c$", " 1"),
    (Foreign, "<![CDATA[x]]", "x]]$", " 1"),
    (Foreign, "<![CDAT", "<![CDAT$", " 1"),
];

#[test]
fn plain_texts(rt: HostRuntime) -> Result<(), Fail> {
    check_all::<Plain>(&rt, rt.alloc(), ROWS)?;
    Ok(())
}

/// The relation that distinguishes everything that the recorder means.
struct SeesAll;

impl laws::Likeness for SeesAll {
    ghost use Rattle.std.specs.Prelude.{◌≡◌};
    ghost use Rattle.h5_tests_sinks.specs.Answers.{Wishes};

    ghost Seen = { Wishes };

    ghost alike = { λ m n. m ≡ n };
}

#[test]
fn laws_are_of_every_sink() {
    laws::no_errors_and_no_empty_texts::<Recorder>();
    laws::reading_goes_on::<Recorder>();
    laws::readings_join::<Recorder>();
    laws::lines_are_counted::<Recorder>();
    laws::pieces_join::<Recorder>();
    laws::feeds_join::<Recorder>();
    laws::nothing_is_undecided();
    laws::the_end_ends_readings::<Recorder>();
    laws::cuts_of_the_input_agree::<Recorder, SeesAll>();
}
