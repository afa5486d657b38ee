//! Runs of the examples of `docs/CALLING.md`.
use h5_arena::Arena;
use h5_examples::cleaning::cleaned;
use h5_examples::errors::{errors_in, lines_of};
use h5_examples::fragment::{fragment, fragment_in_an_element};
use h5_examples::page::{page, page_in_chunks, page_in_its_encoding};
use h5_examples::serializer::count_elements;
use h5_examples::tokens::tokens_without_a_tree;
use h5_examples::tree::{around, found, outline, reword, tidy};
use std::alloc::Global;
use std::test::Fail;

#[test]
fn pages_and_fragments_are_written(rt: HostRuntime) -> Result<(), Fail> {
    let alloc = rt.alloc();
    let html = page(alloc, "<p>One &amp; two<p>Three")?;
    let expected = "<html><head></head><body><p>One &amp; two</p><p>Three</p></body></html>";
    assert_eq!(rt; html.as_slice(), expected.as_bytes());
    let html = page_in_its_encoding(alloc, b"<meta charset=latin1><p>Caf\xE9")?;
    let expected = "<html><head><meta charset=\"latin1\"></head><body><p>Café</p></body></html>";
    assert_eq!(rt; html.as_slice(), expected.as_bytes());
    let html = fragment(alloc, "<td>1<td>2")?;
    assert_eq!(rt; html.as_slice(), "<td>1</td><td>2</td>".as_bytes());
    let html = fragment_in_an_element(alloc, "ul", "<li>1<li>2")?;
    assert_eq!(rt; html.as_slice(), "<li>1</li><li>2</li>".as_bytes());
    Ok(())
}

/// An example that takes the tree of a page.
#[derive(Clone, Copy)]
enum Example {
    Count,
    Outline,
    Tidy,
    Reword,
}

/// An example, its page, and its resulting text.
#[derive(Clone, Copy)]
struct Row {
    example: Example,
    page: &'static str,
    text: &'static str,
}

const ROWS: [Row; 4] = [
    Row {
        example: Example::Count,
        page: "<!DOCTYPE html>\n<title>Trees &amp; texts</title>\n<p>One\n<ul><li>a<li>b</ul>\n",
        text: "8",
    },
    Row {
        example: Example::Outline,
        page: "<h1>One &amp; <i>two</i></h1><p>x<h2>Three</h2>",
        text: "# One & two\n## Three\n",
    },
    Row {
        example: Example::Tidy,
        page: "<p>a<script>x</script>b <a href=u rel=v>c</a> <a>d</a>",
        text: "<html><head></head><body><p>ab <a href=\"u\" rel=\"nofollow\">c</a> <a>d</a></p></body></html>",
    },
    Row {
        example: Example::Reword,
        page: "<p>x <em class=c>a<b>b</b></em><i>c</i>",
        text: "4 above, 1 before, 1 after: two",
    },
];

// The HTML of a tidied tree.
fn tidied(alloc: Global, arena: &mut Arena) -> Result<String, Fail> {
    tidy(alloc, arena)?;
    Ok(arena.outer_html(arena.document(), true)?)
}

// The surroundings of the first `em` of a reworded tree.
fn reworded(alloc: Global, arena: &mut Arena) -> Result<String, Fail> {
    reword(alloc, arena)?;
    match found(alloc, arena, "em")?.first() {
        Some(id) => Ok(around(alloc, arena, *id)?),
        None => Ok(String::new(alloc)),
    }
}

// Runs an example, and returns its resulting text.
fn text_of(alloc: Global, example: Example, arena: &mut Arena) -> Result<String, Fail> {
    match example {
        Example::Count => {
            let elements = count_elements(arena)?;
            Ok(format!(in alloc; "{elements}")?)
        }
        Example::Outline => Ok(outline(alloc, arena)?),
        Example::Tidy => tidied(alloc, arena),
        Example::Reword => reworded(alloc, arena),
    }
}

// Runs the example of a row over the tree of its page.
fn text_of_row(alloc: Global, row: &Row) -> Result<String, Fail> {
    let mut arena = page_in_chunks(alloc, &mut row.page.as_bytes())?;
    let text = text_of(alloc, row.example, &mut arena);
    drop(arena);
    text
}

#[test]
fn trees_are_read_and_edited(rt: HostRuntime) -> Result<(), Fail> {
    for row in &ROWS {
        let text = text_of_row(rt.alloc(), row)?;
        assert_eq!(rt; text.as_str(), row.text);
    }
    Ok(())
}

#[test]
fn tokens_are_counted(rt: HostRuntime) -> Result<(), Fail> {
    let tags = tokens_without_a_tree(rt.alloc(), b"<p class=a>x<br>y</p>")?;
    assert_eq!(rt; tags, 2);
    Ok(())
}

const ERRORS: &str =
    "1:11: duplicate-attribute\n1:19: end-tag-with-trailing-solidus\n2:8: unknown-named-character-reference\n";

#[test]
fn parse_errors_have_places(rt: HostRuntime) -> Result<(), Fail> {
    let errors = errors_in(rt.alloc(), "<p id=a id=b>x</p/>\n&nosuch;")?;
    let lines = lines_of(rt.alloc(), &errors);
    drop(errors);
    assert_eq!(rt; lines?.as_str(), ERRORS);
    Ok(())
}

const HOSTILE: &str =
    "<!DOCTYPE html>\n<title>A comment</title>\n<!-- not for readers -->\n<h1 onclick=\"run()\">Trees</h1>\n<p style=\"color: red\" title=\"a &lt;note&gt;\">See <a href=\"https://example.org/?a&amp;b\" target=_blank>the page</a>, not <a href=\"javascript:run()\">this</a>.\n<script>if (a < b) { run(\"<p>\"); }</script>\n<style>p { color: red }</style>\n<ul><li>one<li>two &lt;script&gt;</ul>\n<svg><script><a>dropped</a></script><text>kept text</text></svg>\n<img src=x onerror=\"run()\"><strong>strong</strong><br>\n";

const CLEANED: &str =
    "\n\n\n<h1>Trees</h1>\n<p title=\"a &lt;note&gt;\">See <a href=\"https://example.org/?a&amp;b\" rel=\"noopener noreferrer\">the page</a>, not <a rel=\"noopener noreferrer\">this</a>.\n\n\n</p><ul><li>one</li><li>two &lt;script&gt;</li></ul>\n\n<img src=\"x\"><strong>strong</strong><br>\n";

#[test]
fn fragments_are_cleaned(rt: HostRuntime) -> Result<(), Fail> {
    let html = cleaned(rt.alloc(), HOSTILE)?;
    assert_eq!(rt; html.as_str(), CLEANED);
    Ok(())
}
