//! Selectors over the tree of a page: in an arena, and in a block.
use h5_arena::Arena;
use h5_driver::ParseOpts;
use h5_driver::standard::parse_document;
use h5_selectors::{Selector, SelectorError, SelectorProblem};
use h5_tree::{SoundView, Tree};
use h5_tree_block::{View, columns_of_document};
use std::alloc::Global;
use std::process::Abort;
use std::test::Fail;

const PAGE: &str =
    "<!DOCTYPE html><ul id=a class=\"x y\"><li>1<li lang=en-GB>2<li><a href=u>3</a></ul><p title=\"one two\">4<p><a>5</a><p>6<b></b>";

// Selectors, and the number of elements of the page that each selects.
const ROWS: [(&str, usize); 21] = [
    ("li", 3),
    ("ul.x.y#a", 1),
    ("LI[lang|=en]", 1),
    ("p[title~=two], p[TITLE='ONE two' i]", 1),
    (":not(html, head, body, ul, li, a, b)", 3),
    ("b:empty", 1),
    ("ul > li:nth-child(2n+1)", 2),
    ("li:last-child a:link", 1),
    ("ul + p ~ p", 2),
    ("p:has(> a)", 1),
    (":root > :is(head, body):last-of-type", 2),
    ("p:not([title", 2),
    ("[title", 1),
    ("p[title='one two", 1),
    ("li:is(:lang, [lang='en-GB\\", 1),
    ("ul./**/x", 1),
    ("p:/**/last-of-type", 1),
    (":is(li, ::before, p:hover, a[, b)", 3),
    (":is(), :where(li:nope(a, (b])), b)", 1),
    ("p:has(:is(:has(b)))", 0),
    ("*|li, *|*:root", 4),
];

const FORM: &str =
    "<!DOCTYPE html><fieldset disabled><legend><input type=CHECKBOX checked></legend><legend><button></button></legend><input type=radio></fieldset><select><optgroup disabled><option><option selected disabled>";

// Selectors of the states of form controls.
const FORM_ROWS: [(&str, usize); 6] = [
    (":checked", 2),
    (":disabled", 6),
    (":enabled", 2),
    ("legend > :enabled", 1),
    ("legend + legend > :disabled", 1),
    ("option:not([disabled]):disabled", 1),
];

const TEXT: &str =
    "<!DOCTYPE html><div lang=en-GB><b></b><p lang=\"\"></p><p lang=de-Latn-DE></p><svg lang=fr xml:lang=de-CH><g></g></svg></div>";

// Selectors of languages.
const TEXT_ROWS: [(&str, usize); 6] = [
    (":lang(en)", 2),
    ("b:LANG(fr, 'EN-gb')", 1),
    (":lang(de-de)", 1),
    (":lang(d)", 0),
    (":lang('*-CH', fr)", 2),
    (":lang('')", 4),
];

// The block of a tree.
fn packed(alloc: Global, arena: &Arena) -> Result<Vec<u8>, Fail> {
    Ok(columns_of_document(alloc, arena, false)?.pack(alloc)?)
}

fn check<T: Tree>(
    rt: &impl Abort,
    alloc: Global,
    tree: &T,
    root: T::NodeId,
    rows: &[(&str, usize)],
) -> Result<(), Fail> {
    for &(text, count) in rows {
        let found = Selector::parse(alloc, text)?.select(tree, root)?;
        assert_eq!(rt; found.len(), count, "{text}");
    }
    Ok(())
}

// The nearest element that matches is found.
fn check_closest<T: Tree>(
    rt: &impl Abort,
    alloc: Global,
    tree: &T,
    root: T::NodeId,
) -> Result<(), Fail> {
    let links = Selector::parse(alloc, "a")?;
    let Some(link) = links.select_first(tree, root)? else {
        return Err("a link is there".into());
    };
    let lists = Selector::parse(alloc, "ul")?;
    let Some(list) = lists.closest(tree, link)? else {
        return Err("it is in a list".into());
    };
    let classes = Selector::parse(alloc, ".x")?;
    assert!(rt; classes.matches(tree, list)?);
    assert!(rt; !classes.matches(tree, link)?);
    Ok(())
}

// The same elements are found in an arena and in its block.
fn check_both(
    rt: &impl Abort,
    alloc: Global,
    arena: &Arena,
    rows: &[(&str, usize)],
) -> Result<(), Fail> {
    check(rt, alloc, arena, arena.document(), rows)?;
    let block = packed(alloc, arena)?;
    let Some(view) = View::of(block.as_slice()) else {
        return Err("what is packed is a block".into());
    };
    let Some(tree) = SoundView::of(view) else {
        return Err("a packed block is sound".into());
    };
    check(rt, alloc, &tree, 0, rows)
}

fn check_page(
    rt: &impl Abort,
    alloc: Global,
    page: &str,
    rows: &[(&str, usize)],
) -> Result<(), Fail> {
    let arena = parse_document(alloc, Arena::new(alloc)?, ParseOpts::default()).one(page)?;
    check_both(rt, alloc, &arena, rows)
}

fn check_all(rt: &impl Abort, alloc: Global, arena: &Arena) -> Result<(), Fail> {
    check_both(rt, alloc, arena, &ROWS)?;
    check_closest(rt, alloc, arena, arena.document())
}

#[test]
fn elements_are_selected(rt: HostRuntime) -> Result<(), Fail> {
    let sink = Arena::new(rt.alloc())?;
    let arena = parse_document(rt.alloc(), sink, ParseOpts::default()).one(PAGE)?;
    let checked = check_all(&rt, rt.alloc(), &arena);
    drop(arena);
    checked
}

#[test]
fn states_and_languages_are_selected(rt: HostRuntime) -> Result<(), Fail> {
    check_page(&rt, rt.alloc(), FORM, &FORM_ROWS)?;
    check_page(&rt, rt.alloc(), TEXT, &TEXT_ROWS)
}

#[test]
fn an_error_has_its_position(rt: HostRuntime) {
    let fault = SelectorError::Invalid {
        at: 1,
        problem: SelectorProblem::PseudoClass,
    };
    assert!(rt; Selector::parse(rt.alloc(), "p:hover").err() == Some(fault));
    let fault = SelectorError::Invalid {
        at: 7,
        problem: SelectorProblem::Unclosed,
    };
    assert!(rt; Selector::parse(rt.alloc(), "[a='b\\'\n").err() == Some(fault));
}

// A pseudo-class in 32 others is too deep, and 1,000 parts aren't too many.
#[test]
fn selectors_have_limits(rt: HostRuntime) -> Result<(), Fail> {
    let mut nested = String::new(rt.alloc());
    for _level in 0..33 {
        nested.push_str(":not(")?;
    }
    let fault = SelectorError::Invalid {
        at: 160,
        problem: SelectorProblem::TooDeep,
    };
    assert!(rt; Selector::parse(rt.alloc(), nested.as_str()).err() == Some(fault));
    let mut long = String::from_str(rt.alloc(), "p")?;
    for _part in 1..1000 {
        long.push_str(">p")?;
    }
    let arena = Arena::new(rt.alloc())?;
    let selector = Selector::parse(rt.alloc(), long.as_str())?;
    let found = selector.select(&arena, arena.document())?;
    assert!(rt; found.is_empty());
    Ok(())
}
