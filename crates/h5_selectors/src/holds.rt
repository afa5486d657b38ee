//! Tests of conditions on one element.
ghost use Rattle.std.specs.Prelude.{◌≡◌, ◌+◌, ◌&&◌, ◌≤◌, ◌<◌, IfOk, OnOk, cond, length, map, string_bytes};
ghost use Rattle.std.specs.List.{filter, list_any};
ghost use Rattle.std.specs.Option.{option_map};
ghost use Rattle.h5_selectors.specs.Holds as h;
ghost use Rattle.h5_selectors.specs.AnPlusB.{is_index};
ghost use Rattle.h5_selectors.specs.Languages.{has_language};
ghost use Rattle.h5_selectors.specs.Values.{are_same};
ghost use Rattle.h5_selectors.specs.Query.{context, holds_by};
ghost use Rattle.h5_selectors.specs.Waiting.{AreAdded, AreTested, seen, sum_of, tests_by};
ghost use Rattle.h5_selectors.specs.Ways.{ancestors, counted, led, parent_element};
ghost use Rattle.h5_tree.specs.Elements.{has_name, is_same_type};

use super::languages::{is_in_ranges, language_of};
use super::values::{compares, includes};
use super::ways::{counted, is_root, led, parent_element};
use crate::{AnPlusB, AttrTest, Formula, Side, Way, Written};
use h5_names::{KnownName, LocalName};
use h5_tree::Tree;
use std::alloc::{AllocError, Global};

/// The context of a test: the tree, its quirks mode, and the scope element.
#[derive(Drop)]
pub(crate) struct Query<'a, T: Tree> {
    pub(crate) tree: &'a T,
    pub(crate) scope: Option<T::NodeId>,
    pub(crate) is_quirky: bool,
    pub(crate) alloc: Global,
}

// The name to compare with: for HTML elements, or for others.
fn name_for(written: &Written, in_html: bool) -> &LocalName
    ensures { result.now ≡ h.name_for written.now in_html }
{
    if in_html {
        &written.lower
    } else {
        &written.exact
    }
}

// Returns true if an element has this name.
pub(crate) fn has_name<T: Tree>(query: &Query<'_, T>, id: T::NodeId, written: &Written) -> bool
    ensures { result ≡ has_name (T.forest query.now.tree.now) (h.is_named written.now) (T.number id) }
{
    query
        .tree
        .has_local_name(id, name_for(written, query.tree.is_html_element(id)))
}

// Returns true if an element passes the test of an attribute.
pub(crate) fn has_attr<T: Tree>(query: &Query<'_, T>, id: T::NodeId, test: &AttrTest) -> bool
    ensures { result ≡ holds_by (context (T.forest query.now.tree.now) query.now.is_quirky (option_map T.number query.now.scope)) (Formula.Attr test.now) (T.number id) }
{
    if !query.tree.is_element(id) {
        return false;
    }
    let in_html = query.tree.is_html_element(id);
    let ignores_case = if in_html {
        test.ignores_case_in_html
    } else {
        test.ignores_case
    };
    match query.tree.attr(id, name_for(&test.name, in_html).as_str()) {
        Some(value) => compares(test.operator, ignores_case, test.text.as_str(), value),
        None => false,
    }
}

// Returns true if two texts are equal, ASCII case-insensitively if `ignores_case` is set.
fn are_same(one: &str, other: &str, ignores_case: bool) -> bool
    ensures { result ≡ are_same ignores_case one.now other.now }
{
    if ignores_case {
        one.eq_ignore_ascii_case(other)
    } else {
        one == other
    }
}

pub(crate) fn has_id<T: Tree>(query: &Query<'_, T>, id: T::NodeId, text: &str) -> bool
    ensures { result ≡ h.has_id (T.forest query.now.tree.now) query.now.is_quirky (option_map T.number query.now.scope) text.now (T.number id) }
{
    match query.tree.attr(id, "id") {
        Some(value) => are_same(text, value, query.is_quirky),
        None => false,
    }
}

pub(crate) fn has_class<T: Tree>(query: &Query<'_, T>, id: T::NodeId, text: &str) -> bool
    ensures { result ≡ h.has_class (T.forest query.now.tree.now) query.now.is_quirky (option_map T.number query.now.scope) text.now (T.number id) }
{
    match query.tree.attr(id, "class") {
        Some(value) => includes(text, value, query.is_quirky),
        None => false,
    }
}

pub(crate) fn is_html_element<T: Tree>(query: &Query<'_, T>, id: T::NodeId) -> bool
    ensures { result ≡ holds_by (context (T.forest query.now.tree.now) query.now.is_quirky (option_map T.number query.now.scope)) Formula.Html (T.number id) }
{
    query.tree.is_html_element(id)
}

pub(crate) fn is_link<T: Tree>(query: &Query<'_, T>, id: T::NodeId) -> bool
    ensures { result ≡ holds_by (context (T.forest query.now.tree.now) query.now.is_quirky (option_map T.number query.now.scope)) Formula.Link (T.number id) }
{
    query.tree.is_html_element(id)
        && (query
            .tree
            .has_local_name(id, &LocalName::from_known(KnownName::A))
            || query
                .tree
                .has_local_name(id, &LocalName::from_known(KnownName::Area)))
        && query.tree.attr(id, "href").is_some()
}

pub(crate) fn is_scope<T: Tree>(query: &Query<'_, T>, id: T::NodeId) -> bool
    ensures { result ≡ holds_by (context (T.forest query.now.tree.now) query.now.is_quirky (option_map T.number query.now.scope)) Formula.Scope (T.number id) }
{
    match query.scope {
        Some(scope) => query.tree.is_same_node(scope, id),
        None => is_root(query.tree, id),
    }
}

// Returns true if the language of an element is in one of these ranges.
fn has_language<T: Tree>(
    query: &Query<'_, T>,
    id: T::NodeId,
    ranges: &[String],
) -> Result<bool, AllocError>
    ensures { IfOk result (λ answer. answer ≡ has_language (T.forest query.now.tree.now) (map string_bytes ranges.now) (T.number id)) }
{
    let language = language_of(query.alloc, query.tree, id)?;
    is_in_ranges(query.alloc, ranges, language)
}

/// Adds 1 if `counts` is set.
pub(crate) fn more(count: usize, counts: bool) -> usize
    requires { count < 18446744073709551615 }
    ensures { result ≡ count + cond counts 1 0 }
{
    if counts { count + 1 } else { count }
}

// The number of elements of a list with the name of an element.
#[tactic(auto, using(crate::proofs::Counting::count_more))]
fn count_alike<T: Tree>(query: &Query<'_, T>, id: T::NodeId, list: &[T::NodeId]) -> usize
    ensures { result ≡ length (filter (is_same_type (T.forest query.now.tree.now) (T.number id)) (map T.number list.now)) }
{
    let mut count = 0;
    for other in list {
        count = more(count, is_alike(query, id, *other));
    }
    count
}

/// Returns true if two elements have equal names.
pub(crate) fn is_alike<T: Tree>(query: &Query<'_, T>, id: T::NodeId, other: T::NodeId) -> bool
    ensures { result ≡ is_same_type (T.forest query.now.tree.now) (T.number id) (T.number other) }
{
    query.tree.is_same_type(id, other)
}

/// Returns true if the index of an element among the siblings with its name is one of these.
pub(crate) fn is_nth_of_type<T: Tree>(
    query: &Query<'_, T>,
    id: T::NodeId,
    indices: AnPlusB,
    side: Side,
) -> Result<bool, AllocError>
    ensures { IfOk result (λ answer. answer ≡ holds_by (context (T.forest query.now.tree.now) query.now.is_quirky (option_map T.number query.now.scope)) (Formula.NthOfType indices side) (T.number id)) }
{
    let list = counted(query.alloc, query.tree, side, id)?;
    Ok(indices.has_behind(count_alike(query, id, list.as_slice())))
}

// A condition that waits to be tested on an element.
#[derive(Drop)]
struct Step<'a, N: Copy> {
    formula: &'a Formula,
    id: N,
}

// Lets a condition wait to be tested on each element of a list.
fn wait_for_each<'a, T: Tree>(
    query: &Query<'_, T>,
    waiting: &mut Vec<Step<'a, T::NodeId>>,
    formula: &'a Formula,
    list: &[T::NodeId],
) -> Result<(), AllocError>
    ensures { OnOk result (let c = (context (T.forest query.now.tree.now) query.now.is_quirky (option_map T.number query.now.scope)) in AreAdded c (list_any (holds_by c formula.now) (map T.number list.now)) (sum_of (tests_by c formula.now) (map T.number list.now)) formula.now (seen T.number waiting.old.items) (seen T.number waiting.new.items)) }
{
    for id in list {
        waiting.push(Step { formula, id: *id })?;
    }
    Ok(())
}

// Tests a condition on an element: it holds, or it does if one of those does that wait then.
#[cycle(holds)]
fn tested<'a, T: Tree>(
    formula: &'a Formula,
    query: &Query<'_, T>,
    id: T::NodeId,
    waiting: &mut Vec<Step<'a, T::NodeId>>,
) -> Result<bool, AllocError>
    ensures { IfOk result (λ answer. AreTested (context (T.forest query.now.tree.now) query.now.is_quirky (option_map T.number query.now.scope)) formula.now (T.number id) answer (seen T.number waiting.old.items) (seen T.number waiting.new.items)) }
{
    match formula {
        Formula::Any => Ok(true),
        Formula::Name(written) => Ok(has_name(query, id, written)),
        Formula::Id(text) => Ok(has_id(query, id, text.as_str())),
        Formula::Class(text) => Ok(has_class(query, id, text.as_str())),
        Formula::Attr(test) => Ok(has_attr(query, id, test)),
        Formula::Root => Ok(is_root(query.tree, id)),
        Formula::Scope => Ok(is_scope(query, id)),
        Formula::Empty => Ok(query.tree.is_empty(id)),
        Formula::Link => Ok(is_link(query, id)),
        Formula::Html => Ok(is_html_element(query, id)),
        Formula::Lang(ranges) => has_language(query, id, ranges.as_slice()),
        Formula::NthOfType(indices, side) => is_nth_of_type(query, id, *indices, *side),
        Formula::Nth(indices, side, of) => is_nth(&**of, query, id, *indices, *side),
        Formula::Not(inner) => Ok(!holds(&**inner, query, id)?),
        Formula::And(one, other) => {
            if !holds(&**one, query, id)? {
                return Ok(false);
            }
            waiting.push(Step {
                formula: &**other,
                id,
            })?;
            Ok(false)
        }
        Formula::Or(one, other) => {
            waiting.push(Step {
                formula: &**other,
                id,
            })?;
            waiting.push(Step {
                formula: &**one,
                id,
            })?;
            Ok(false)
        }
        Formula::Leads(way, inner) => {
            let list = led(query.alloc, query.tree, *way, id)?;
            wait_for_each(query, waiting, &**inner, list.as_slice())?;
            Ok(false)
        }
    }
}

/// Returns true if the condition holds for an element.
#[cycle(holds)]
pub(crate) fn holds<T: Tree>(
    formula: &Formula,
    query: &Query<'_, T>,
    id: T::NodeId,
) -> Result<bool, AllocError>
    ensures { IfOk result (λ answer. answer ≡ holds_by (context (T.forest query.now.tree.now) query.now.is_quirky (option_map T.number query.now.scope)) formula.now (T.number id)) }
{
    let mut waiting = Vec::new(query.alloc);
    if tested(formula, query, id, &mut waiting)? {
        return Ok(true);
    }
    'waits: while let Some(step) = waiting.pop() {
        if tested(step.formula, query, step.id, &mut waiting)? {
            return Ok(true);
        }
    }
    Ok(false)
}

/// Returns true if the condition holds for an element, and its index among the siblings for which it also holds is one of these.
#[cycle(holds)]
pub(crate) fn is_nth<T: Tree>(
    of: &Formula,
    query: &Query<'_, T>,
    id: T::NodeId,
    indices: AnPlusB,
    side: Side,
) -> Result<bool, AllocError>
    ensures { IfOk result (λ answer. answer ≡ (holds_by (context (T.forest query.now.tree.now) query.now.is_quirky (option_map T.number query.now.scope)) of.now (T.number id)
        && is_index indices (length (filter (holds_by (context (T.forest query.now.tree.now) query.now.is_quirky (option_map T.number query.now.scope)) of.now) (counted side (T.forest query.now.tree.now) (T.number id))) + 1))) }
{
    if !holds(of, query, id)? {
        return Ok(false);
    }
    let list = counted(query.alloc, query.tree, side, id)?;
    let count = count_holding(of, query, list.as_slice())?;
    Ok(indices.has_behind(count))
}

// The number of elements of a list for which the condition holds.
#[tactic(auto, using(crate::proofs::Counting::count_more))]
#[cycle(holds)]
fn count_holding<T: Tree>(
    formula: &Formula,
    query: &Query<'_, T>,
    list: &[T::NodeId],
) -> Result<usize, AllocError>
    ensures { IfOk result (λ count. count ≡ length (filter (holds_by (context (T.forest query.now.tree.now) query.now.is_quirky (option_map T.number query.now.scope)) formula.now) (map T.number list.now))) }
{
    let mut count = 0;
    'counted: for element in list {
        count = more(count, holds(formula, query, *element)?);
    }
    Ok(count)
}

// Returns true if the condition holds for some element of a list.
fn holds_of_some<T: Tree>(
    formula: &Formula,
    query: &Query<'_, T>,
    list: &[T::NodeId],
) -> Result<bool, AllocError>
    ensures { IfOk result (λ answer. answer ≡ list_any (holds_by (context (T.forest query.now.tree.now) query.now.is_quirky (option_map T.number query.now.scope)) formula.now) (map T.number list.now)) }
{
    'asked: for element in list {
        if holds(formula, query, *element)? {
            return Ok(true);
        }
    }
    Ok(false)
}

// Returns true if the condition holds for some ancestor that is an element.
fn holds_above<T: Tree>(
    formula: &Formula,
    query: &Query<'_, T>,
    id: T::NodeId,
) -> Result<bool, AllocError>
    ensures { IfOk result (λ answer. answer ≡ list_any (holds_by (context (T.forest query.now.tree.now) query.now.is_quirky (option_map T.number query.now.scope)) formula.now) (ancestors (T.forest query.now.tree.now) (T.number id))) }
{
    let mut at = id;
    'upwards: for _step in 0..query.tree.node_count() {
        let Some(parent) = query.tree.parent(at) else {
            return Ok(false);
        };
        if query.tree.is_element(parent) && holds(formula, query, parent)? {
            return Ok(true);
        }
        at = parent;
    }
    Ok(false)
}

// Returns true if the parent is an element for which the condition holds.
fn holds_of_parent<T: Tree>(
    formula: &Formula,
    query: &Query<'_, T>,
    id: T::NodeId,
) -> Result<bool, AllocError>
    ensures { IfOk result (λ answer. answer ≡ list_any (holds_by (context (T.forest query.now.tree.now) query.now.is_quirky (option_map T.number query.now.scope)) formula.now) (parent_element (T.forest query.now.tree.now) (T.number id))) }
{
    match parent_element(query.tree, id) {
        Some(parent) => holds(formula, query, parent),
        None => Ok(false),
    }
}

/// Returns true if the condition holds for some element in this relation to an element.
pub(crate) fn holds_along<T: Tree>(
    formula: &Formula,
    query: &Query<'_, T>,
    way: Way,
    id: T::NodeId,
) -> Result<bool, AllocError>
    ensures { IfOk result (λ answer. answer ≡ list_any (holds_by (context (T.forest query.now.tree.now) query.now.is_quirky (option_map T.number query.now.scope)) formula.now) (led way (T.forest query.now.tree.now) (T.number id))) }
{
    match way {
        Way::Parent => return holds_of_parent(formula, query, id),
        Way::Ancestor => return holds_above(formula, query, id),
        _ => {}
    }
    let list = led(query.alloc, query.tree, way, id)?;
    holds_of_some(formula, query, list.as_slice())
}
