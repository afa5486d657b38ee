//! The elements of a block that a selector matches. The block is read in place.
ghost use Rattle.std.specs.Prelude.{◌≡◌, ◌≢◌, ◌++◌, ◌<◌, ◌≤◌, Err, IfErr, IfOk, MatchResult, OnOk, false, length, map, true, vec_len};
ghost use Rattle.std.specs.Str.{IsUtf8, chars};
ghost use Rattle.html_tree_builder.specs.Asking.{asked};
ghost use Rattle.html_tree_builder.specs.Fault.{Found, Tells};
ghost use Rattle.h5_c.specs.Selecting.{Answers, AnswersAll, AnswersNumber, AreAllAsked, AreAsked, AreSelected, Checks, HandsOutMessage, HasNode, IsFaultOfOne, IsPut, Refuses, all_asked_in, asked_in, counted_in, first_in, match_in, nearest_from, nearest_in, start_in};
ghost use Rattle.h5_tree_block.specs.Block as b;
ghost use Rattle.h5_tree_block.specs.Packed.{bytes_of_words};
ghost use Rattle.h5_tree_block.specs.Sound.{is_sound};

use super::status::{
    BAD_ARGUMENT, BAD_BLOCK, BAD_SELECTOR, NO_MEMORY, NO_NODE, OK, give, put_words,
};
use h5_tree::SoundView;
use h5_tree::laws::sound_blocks_are_forests;
use h5_tree_block::{NOTHING, TEXT, View};
use html_tree_builder::select::{Selector, SelectorError};
use std::alloc::{AllocError, Global};
use std::fmt::Write;

// The tree of a block that has a node with this number, or the status.
fn tree_of<'a>(block: &'a [u8], node: u32) -> Result<SoundView<'a>, u32>
    ensures tree { IfOk result (λ tree. (tree.view.block.now ≡ block.now) × HasNode block.now node) }
    ensures no_tree { b.is_block block.now ≡ false → result ≡ Err 3 }
    ensures no_node { b.is_block block.now ≡ true → b.nodes_in block.now ≤ node → result ≡ Err 2 }
    ensures not_sound { b.is_block block.now ≡ true → node < b.nodes_in block.now → is_sound block.now ≡ false → result ≡ Err 3 }
    ensures some { HasNode block.now node → IfErr result (λ _. false ≡ true) }
{
    let Some(view) = View::of(block) else {
        return Err(BAD_BLOCK);
    };
    if node >= view.node_count() {
        return Err(NO_NODE);
    }
    match SoundView::of(view) {
        Some(tree) => Ok(tree),
        None => Err(BAD_BLOCK),
    }
}

// The selector of a text, or the status.
fn selector_of(alloc: Global, text: &[u8]) -> Result<Selector, u32>
    ensures selector { IfOk result (λ selector. IsUtf8 text.now × (asked_in text.now ≡ Found (map asked selector))) }
    ensures no_text { ¬ (IsUtf8 text.now) → result ≡ Err 4 }
    ensures refused { IsUtf8 text.now → IfErr result (Refuses (asked_in text.now)) }
{
    let Ok(text) = std::str::from_utf8(text) else {
        return Err(BAD_ARGUMENT);
    };
    match Selector::parse(alloc, text) {
        Ok(selector) => Ok(selector),
        Err(SelectorError::Memory) => Err(NO_MEMORY),
        Err(SelectorError::Invalid { .. }) => Err(BAD_SELECTOR),
    }
}

// A tree, and a selector that is asked of it.
#[derive(Drop)]
struct Query<'a> {
    tree: SoundView<'a>,
    selector: Selector,
}

// The tree of a block that has a node with this number, and the selector of a text; or the status.
fn query_of<'a>(alloc: Global, block: &'a [u8], node: u32, text: &[u8]) -> Result<Query<'a>, u32>
    ensures tree { IfOk result (λ query. (query.tree.view.block.now ≡ block.now) × HasNode block.now node) }
    ensures selector { IfOk result (λ query. IsUtf8 text.now × (asked_in text.now ≡ Found (map asked query.selector))) }
    ensures no_tree { b.is_block block.now ≡ false → result ≡ Err 3 }
    ensures no_node { b.is_block block.now ≡ true → b.nodes_in block.now ≤ node → result ≡ Err 2 }
    ensures not_sound { b.is_block block.now ≡ true → node < b.nodes_in block.now → is_sound block.now ≡ false → result ≡ Err 3 }
    ensures no_text { HasNode block.now node → ¬ (IsUtf8 text.now) → result ≡ Err 4 }
    ensures refused { HasNode block.now node → IsUtf8 text.now → IfErr result (Refuses (asked_in text.now)) }
{
    let tree = tree_of(block, node)?;
    let selector = selector_of(alloc, text)?;
    Ok(Query { tree, selector })
}

impl Query<'_> {
    // 1 if the selector matches a node, else 0.
    fn is_match(&self, node: u32) -> Result<u32, AllocError>
        ensures { IfOk result (λ number. number ≡ match_in self.now.tree.view.block.now node self.now.selector) }
    {
        let is_match = self.selector.matches(&self.tree, node)?;
        Ok(u32::from(is_match))
    }

    // The number of the first element below a node that the selector matches, or `NOTHING`.
    fn first(&self, node: u32) -> Result<u32, AllocError>
        ensures { IfOk result (λ number. number ≡ first_in self.now.tree.view.block.now node self.now.selector) }
    {
        let first = self.selector.select_first(&self.tree, node)?;
        Ok(first.unwrap_or(NOTHING))
    }

    // The number of the nearest of a node and its ancestors that the selector matches, or `NOTHING`.
    fn nearest(&self, node: u32) -> Result<u32, AllocError>
        ensures { IfOk result (λ number. number ≡ nearest_from self.now.tree.view.block.now node self.now.selector) }
    {
        let nearest = self.selector.closest(&self.tree, node)?;
        Ok(nearest.unwrap_or(NOTHING))
    }
}

// The node at which a walk upwards from a node begins: a text isn't a node of the tree, so its parent.
fn start_of(block: &[u8], node: u32) -> u32
    ensures { b.is_block block.now ≡ true → result ≡ start_in block.now node }
{
    match View::of(block) {
        Some(view) if view.kind(node) == TEXT => view.parent(node),
        _ => node,
    }
}

// Returns a number to the caller, unless an allocation failed.
fn put(found: Result<u32, AllocError>, out: &mut u32) -> u32
    ensures { MatchResult found (λ number. (result ≡ 0) × (out.new ≡ number)) (λ _. (result ≡ 1) × (out.new ≡ out.old)) }
{
    match found {
        Ok(number) => {
            *out = number;
            OK
        }
        Err(AllocError) => NO_MEMORY,
    }
}

// The elements below a node that a selector matches, as bytes.
fn bytes_of(
    alloc: Global,
    tree: &SoundView<'_>,
    node: u32,
    selector: &Selector,
) -> Result<Vec<u8>, AllocError>
    ensures { IfOk result (λ bytes. AreSelected tree.now.view.block.now node selector.now bytes.items) }
{
    let found = selector.select(tree, node)?;
    let mut bytes = Vec::new(alloc);
    put_words(&mut bytes, found.as_slice())?;
    Ok(bytes)
}

// The elements below a node that the selector of a text matches, as bytes.
fn selected(
    alloc: Global,
    tree: &SoundView<'_>,
    node: u32,
    text: &str,
) -> Result<Vec<u8>, SelectorError>
    ensures found { IfOk result (λ bytes. AreAsked tree.now.view.block.now node (asked_in text.now) bytes.items) }
    ensures fault { IfErr result (λ fault. Tells (length (chars text.now)) fault (asked_in text.now)) }
{
    let selector = Selector::parse(alloc, text)?;
    match bytes_of(alloc, tree, node, &selector) {
        Ok(bytes) => Ok(bytes),
        Err(AllocError) => Err(SelectorError::Memory),
    }
}

// Appends the number of the elements below a node that a selector matches, and these elements.
fn put_counted(
    bytes: &mut Vec<u8>,
    tree: &SoundView<'_>,
    node: u32,
    selector: &Selector,
) -> Result<(), AllocError>
    requires { node < b.nodes_in tree.now.view.block.now }
    ensures { OnOk result (bytes.new.items ≡ bytes.old.items ++ bytes_of_words (counted_in tree.now.view.block.now node selector.now)) }
{
    let elements = selector.select(tree, node)?;
    // No more elements are below a node than there are numbers up to its end.
    sound_blocks_are_forests();
    put_words(bytes, &[elements.len() as u32])?;
    put_words(bytes, elements.as_slice())?;
    Ok(())
}

// Appends the same for the selector of a text.
fn put_selected(
    alloc: Global,
    bytes: &mut Vec<u8>,
    tree: &SoundView<'_>,
    node: u32,
    text: &str,
) -> Result<(), SelectorError>
    requires { node < b.nodes_in tree.now.view.block.now }
    ensures put { OnOk result (IsPut tree.now.view.block.now node (asked_in text.now) bytes.old.items bytes.new.items) }
    ensures fault { IfErr result (λ fault. Tells (length (chars text.now)) fault (asked_in text.now)) }
{
    let selector = Selector::parse(alloc, text)?;
    match put_counted(bytes, tree, node, &selector) {
        Ok(()) => Ok(()),
        Err(AllocError) => Err(SelectorError::Memory),
    }
}

// The error of one of several selectors: which one, from 1.
#[derive(Drop)]
struct WrongOne {
    number: usize,
    fault: SelectorError,
}

// The same for the selectors of several texts, with a NUL between two.
fn all_selected(
    alloc: Global,
    tree: &SoundView<'_>,
    node: u32,
    texts: &str,
) -> Result<Vec<u8>, WrongOne>
    requires { node < b.nodes_in tree.now.view.block.now }
    ensures found { IfOk result (λ bytes. AreAllAsked tree.now.view.block.now node (all_asked_in texts.now) bytes.items) }
    ensures fault { IfErr result (λ wrong. IsFaultOfOne (all_asked_in texts.now) wrong.fault) }
{
    let mut bytes = Vec::new(alloc);
    let mut number = 0;
    for text in texts.split('\0') {
        number += 1;
        match put_selected(alloc, &mut bytes, tree, node, text) {
            Ok(()) => {}
            Err(fault) => return Err(WrongOne { number, fault }),
        }
    }
    Ok(bytes)
}

// The message about an invalid selector, which is never empty, whatever the error writes. If it is one of several, its number comes first.
fn message_of(
    alloc: Global,
    number: Option<usize>,
    fault: SelectorError,
) -> Result<Vec<u8>, AllocError>
    ensures { IfOk result (λ message. 0 < vec_len message) }
{
    let mut message = String::new(alloc);
    let written = match number {
        Some(number) => write!(message, "selector {number}: {fault}"),
        None => write!(message, "{fault}"),
    };
    if written.is_err() {
        return Err(AllocError);
    }
    if message.is_empty() {
        message.push_str("invalid selector")?;
    }
    Ok(message.into_bytes())
}

// Returns the message about an invalid selector to the caller, unless an allocation failed.
fn give_message(
    alloc: Global,
    number: Option<usize>,
    fault: SelectorError,
    message: &mut *mut u8,
    length: &mut usize,
) -> u32
    ensures status { HandsOutMessage result length.new }
    ensures memory { fault ≡ SelectorError.Memory → result ≡ 1 }
    ensures kept { result ≢ 5 → length.new ≡ length.old }
{
    match fault {
        SelectorError::Memory => NO_MEMORY,
        SelectorError::Invalid { .. } => match give(
            message_of(alloc, number, fault),
            message,
            length,
        ) {
            NO_MEMORY => NO_MEMORY,
            _ => BAD_SELECTOR,
        },
    }
}

/// The elements below a node that a selector matches, in tree order, or a message that says what is wrong with the selector.
#[unsafe(no_mangle)]
pub extern "C" fn hengaruto_select(
    alloc: Global,
    block: &[u8],
    node: u32,
    selector: &[u8],
    found: &mut *mut u8,
    length: &mut usize,
) -> u32
    ensures no_tree { b.is_block block.now ≡ false → result ≡ 3 }
    ensures no_node { b.is_block block.now ≡ true → b.nodes_in block.now ≤ node → result ≡ 2 }
    ensures not_sound { b.is_block block.now ≡ true → node < b.nodes_in block.now → is_sound block.now ≡ false → result ≡ 3 }
    ensures no_text { HasNode block.now node → ¬ (IsUtf8 selector.now) → result ≡ 4 }
    ensures answered { HasNode block.now node → IsUtf8 selector.now → Answers block.now node (asked_in selector.now) result length.new }
    ensures kept { result ≢ 0 → result ≢ 5 → length.new ≡ length.old }
{
    let tree = match tree_of(block, node) {
        Ok(tree) => tree,
        Err(status) => return status,
    };
    let Ok(text) = std::str::from_utf8(selector) else {
        return BAD_ARGUMENT;
    };
    match selected(alloc, &tree, node, text) {
        Ok(bytes) => give(Ok(bytes), found, length),
        Err(fault) => give_message(alloc, None, fault, found, length),
    }
}

/// The elements below a node that each of several selectors matches. The selectors are separated by NULs. Of each, in order, their number is
/// returned, and then they, in tree order; or a message that says which selector is invalid, and what is wrong with it.
#[unsafe(no_mangle)]
pub extern "C" fn hengaruto_select_all(
    alloc: Global,
    block: &[u8],
    node: u32,
    selectors: &[u8],
    found: &mut *mut u8,
    length: &mut usize,
) -> u32
    ensures no_tree { b.is_block block.now ≡ false → result ≡ 3 }
    ensures no_node { b.is_block block.now ≡ true → b.nodes_in block.now ≤ node → result ≡ 2 }
    ensures not_sound { b.is_block block.now ≡ true → node < b.nodes_in block.now → is_sound block.now ≡ false → result ≡ 3 }
    ensures no_text { HasNode block.now node → ¬ (IsUtf8 selectors.now) → result ≡ 4 }
    ensures answered { HasNode block.now node → IsUtf8 selectors.now → AnswersAll block.now node (all_asked_in selectors.now) result length.new }
    ensures kept { result ≢ 0 → result ≢ 5 → length.new ≡ length.old }
{
    let tree = match tree_of(block, node) {
        Ok(tree) => tree,
        Err(status) => return status,
    };
    let Ok(texts) = std::str::from_utf8(selectors) else {
        return BAD_ARGUMENT;
    };
    match all_selected(alloc, &tree, node, texts) {
        Ok(bytes) => give(Ok(bytes), found, length),
        Err(wrong) => give_message(alloc, Some(wrong.number), wrong.fault, found, length),
    }
}

/// The first element that `hengaruto_select` returns, or `NOTHING`.
#[unsafe(no_mangle)]
pub extern "C" fn hengaruto_select_first(
    alloc: Global,
    block: &[u8],
    node: u32,
    selector: &[u8],
    found: &mut u32,
) -> u32
    ensures no_tree { b.is_block block.now ≡ false → result ≡ 3 }
    ensures no_node { b.is_block block.now ≡ true → b.nodes_in block.now ≤ node → result ≡ 2 }
    ensures not_sound { b.is_block block.now ≡ true → node < b.nodes_in block.now → is_sound block.now ≡ false → result ≡ 3 }
    ensures no_text { HasNode block.now node → ¬ (IsUtf8 selector.now) → result ≡ 4 }
    ensures answered { HasNode block.now node → IsUtf8 selector.now → AnswersNumber (first_in block.now node) (asked_in selector.now) result found.new }
    ensures kept { result ≢ 0 → found.new ≡ found.old }
{
    match query_of(alloc, block, node, selector) {
        Ok(query) => put(query.first(node), found),
        Err(status) => status,
    }
}

/// 1 if a selector matches a node, else 0.
#[unsafe(no_mangle)]
pub extern "C" fn hengaruto_matches(
    alloc: Global,
    block: &[u8],
    node: u32,
    selector: &[u8],
    matches: &mut u32,
) -> u32
    ensures no_tree { b.is_block block.now ≡ false → result ≡ 3 }
    ensures no_node { b.is_block block.now ≡ true → b.nodes_in block.now ≤ node → result ≡ 2 }
    ensures not_sound { b.is_block block.now ≡ true → node < b.nodes_in block.now → is_sound block.now ≡ false → result ≡ 3 }
    ensures no_text { HasNode block.now node → ¬ (IsUtf8 selector.now) → result ≡ 4 }
    ensures answered { HasNode block.now node → IsUtf8 selector.now → AnswersNumber (match_in block.now node) (asked_in selector.now) result matches.new }
    ensures kept { result ≢ 0 → matches.new ≡ matches.old }
{
    match query_of(alloc, block, node, selector) {
        Ok(query) => put(query.is_match(node), matches),
        Err(status) => status,
    }
}

/// The nearest of a node and its ancestors that a selector matches, or `NOTHING`.
#[unsafe(no_mangle)]
pub extern "C" fn hengaruto_closest(
    alloc: Global,
    block: &[u8],
    node: u32,
    selector: &[u8],
    found: &mut u32,
) -> u32
    ensures no_tree { b.is_block block.now ≡ false → result ≡ 3 }
    ensures no_node { b.is_block block.now ≡ true → b.nodes_in block.now ≤ node → result ≡ 2 }
    ensures not_sound { b.is_block block.now ≡ true → node < b.nodes_in block.now → is_sound block.now ≡ false → result ≡ 3 }
    ensures no_text { HasNode block.now node → ¬ (IsUtf8 selector.now) → result ≡ 4 }
    ensures answered { HasNode block.now node → IsUtf8 selector.now → AnswersNumber (nearest_in block.now node) (asked_in selector.now) result found.new }
    ensures kept { result ≢ 0 → found.new ≡ found.old }
{
    match query_of(alloc, block, node, selector) {
        Ok(query) => put(query.nearest(start_of(block, node)), found),
        Err(status) => status,
    }
}

/// Returns `OK` if a text is a selector, and otherwise a message that says what is wrong with it.
#[unsafe(no_mangle)]
pub extern "C" fn hengaruto_check_selector(
    alloc: Global,
    selector: &[u8],
    message: &mut *mut u8,
    length: &mut usize,
) -> u32
    ensures no_text { ¬ (IsUtf8 selector.now) → result ≡ 4 }
    ensures checked { IsUtf8 selector.now → Checks (asked_in selector.now) result length.new }
    ensures kept { result ≢ 5 → length.new ≡ length.old }
{
    let Ok(text) = std::str::from_utf8(selector) else {
        return BAD_ARGUMENT;
    };
    match Selector::parse(alloc, text) {
        Ok(_) => OK,
        Err(fault) => give_message(alloc, None, fault, message, length),
    }
}
