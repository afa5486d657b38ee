//! The calls of a selector.
ghost use Rattle.std.specs.Prelude.{◌≡◌, ◌<◌, ℕ, All, Bool, IfErr, IfOk, IfSome, drop, false, get_or, length, map, not, slice_get};
ghost use Rattle.std.specs.List.{filter};
ghost use Rattle.std.specs.Option.{option_map};
ghost use Rattle.std.specs.Str.{chars};
ghost use Rattle.h5_tree.specs.Elements.{below};
ghost use Rattle.h5_selectors.specs.Asking.{asked};
ghost use Rattle.h5_selectors.specs.Fault.{Found, IsWithin, Tells};
ghost use Rattle.h5_selectors.specs.Grammar.{selectors_of};
ghost use Rattle.h5_selectors.specs.Query.{context, matches_by};
ghost use Rattle.h5_selectors.specs.Selected.{is_match, is_quirky, matching_upwards, scope_in, selected};

use super::holds::{Query, holds};
use super::rows::rows_of;
use super::tables::unmatched;
use super::ways::ancestors;
use crate::{Formula, SelectorError, parse};
use h5_interface::QuirksMode;
use h5_tree::Tree;
use std::alloc::{AllocError, Global};
use std::marker::Model;

/// A list of selectors, as in the prelude of a style rule.
///
/// It can be asked of any tree, as often as needed; an id that isn't a node of the tree leads to nothing. A call changes nothing, and its
/// only error is `AllocError`, if an allocation fails.
pub struct Selector {
    list: Vec<Formula>,
    alloc: Global,
}

impl Drop for Selector {
    fn drop(self) {
        let Selector {
            list: _list,
            alloc: _alloc,
        } = self;
    }
}

impl Model for Selector {
    ghost use Rattle.std.specs.Prelude.{List};
    ghost use Rattle.std.specs.Coded.{codes};
    ghost use Rattle.h5_selectors.specs.contracts.formula.Formula as formula;
    ghost use Rattle.h5_selectors.specs.declared.formula.Formula.{Formula};

    ghost Value = { List Formula };

    ghost coded = { Prim.hlevel (codes, formula.the_row.coded) };

    ghost view = { λ s. s.list.items };
}

// The query of a tree that has this node as its scope, if it is an element.
fn query_in<'a, T: Tree>(alloc: Global, tree: &'a T, id: T::NodeId) -> Query<'a, T>
    ensures tree { T.forest result.tree.now ≡ T.forest tree.now }
    ensures scope { option_map T.number result.scope ≡ scope_in (T.forest tree.now) (T.number id) }
    ensures quirky { result.is_quirky ≡ is_quirky (T.mode tree.now) }
{
    Query {
        tree,
        scope: if tree.is_element(id) { Some(id) } else { None },
        is_quirky: tree.quirks_mode() == QuirksMode::Quirks,
        alloc,
    }
}

// Returns true if one of the selectors matches an element.
fn matches_one<T: Tree>(
    list: &[Formula],
    query: &Query<'_, T>,
    id: T::NodeId,
) -> Result<bool, AllocError>
    ensures { IfOk result (λ answer. answer ≡ matches_by (context (T.forest query.now.tree.now) query.now.is_quirky (option_map T.number query.now.scope)) list.now (T.number id)) }
{
    for formula in list {
        if holds(formula, query, id)? {
            return Ok(true);
        }
    }
    Ok(false)
}

// The nodes of the rows after the first that aren't left over.
fn taken<N: Copy>(alloc: Global, ids: &[N], left: &[bool]) -> Result<Vec<N>, AllocError>
    requires some { 0 < length ids.now }
    requires count { length left.now ≡ length ids.now }
    ensures { IfOk result (λ found. (place : N → ℕ) (test : ℕ → Bool) → ((k : ℕ) → k < length ids.now → get_or left.now k false ≡ not (test (get_or (map place ids.now) k 0)))
        → map place found.items ≡ filter test (map place (drop 1 ids.now))) }
{
    let mut found = Vec::new(alloc);
    for at in 1..ids.len() {
        if !left[at] {
            found.push(ids[at])?;
        }
    }
    Ok(found)
}

// Returns true if a selector depends only on the element itself, so that no other rows are needed.
fn asks_alone(formula: &Formula) -> bool {
    let mut at = formula;
    'further: loop {
        match at {
            Formula::Leads(_, _) | Formula::Nth(_, _, _) | Formula::NthOfType(_, _) => return false,
            Formula::And(one, other) | Formula::Or(one, other) => {
                if !asks_alone(&**one) {
                    return false;
                }
                at = &**other;
            }
            Formula::Not(inner) => at = &**inner,
            _ => return true,
        }
    }
}

// Returns true if each of the selectors depends only on the element itself.
fn all_ask_alone(list: &[Formula]) -> bool {
    for formula in list {
        if !asks_alone(formula) {
            return false;
        }
    }
    true
}

// The elements of a list that one of the selectors matches, each tested alone.
fn all_matching<T: Tree>(
    list: &[Formula],
    query: &Query<'_, T>,
    elements: &[T::NodeId],
) -> Result<Vec<T::NodeId>, AllocError>
    ensures { IfOk result (λ found. map T.number found.items ≡ filter (matches_by (context (T.forest query.now.tree.now) query.now.is_quirky (option_map T.number query.now.scope)) list.now) (map T.number elements.now)) }
{
    let mut found = Vec::new(query.alloc);
    for element in elements {
        if matches_one(list, query, *element)? {
            found.push(*element)?;
        }
    }
    Ok(found)
}

// The first element of a list that one of the selectors matches.
fn first_matching<T: Tree>(
    list: &[Formula],
    query: &Query<'_, T>,
    elements: &[T::NodeId],
) -> Result<Option<T::NodeId>, AllocError>
    ensures { IfOk result (λ found. option_map T.number found ≡ slice_get (filter (matches_by (context (T.forest query.now.tree.now) query.now.is_quirky (option_map T.number query.now.scope)) list.now) (map T.number elements.now)) 0) }
{
    for element in elements {
        if matches_one(list, query, *element)? {
            return Ok(Some(*element));
        }
    }
    Ok(None)
}

// The elements below a node that one of the selectors matches, each tested alone.
fn all_below<T: Tree>(
    list: &[Formula],
    query: &Query<'_, T>,
    id: T::NodeId,
) -> Result<Vec<T::NodeId>, AllocError>
    ensures { IfOk result (λ found. map T.number found.items ≡ filter (matches_by (context (T.forest query.now.tree.now) query.now.is_quirky (option_map T.number query.now.scope)) list.now) (below (T.forest query.now.tree.now) (T.number id))) }
{
    let below = query.tree.descendant_elements(query.alloc, id)?;
    all_matching(list, query, below.as_slice())
}

impl Selector {
    /// Parses a list of selectors, with the meaning that the grammar gives it (Selectors Level 4, section 17, "Grammar"). Fails with
    /// `Invalid` if the text isn't one, with the problem that the grammar finds first from left to right, and its position, in characters.
    /// So the problem is `TooLong` where a selector has more than 1,000 parts, and `TooDeep` at a pseudo-class with arguments that is
    /// inside of 32 others. A compound selector is a part, and so is each id, class, attribute and pseudo-class in it. Fails with `Memory`
    /// if an allocation fails.
    pub fn parse(alloc: Global, text: &str) -> Result<Selector, SelectorError>
        ensures selectors { IfOk result (λ selector. selectors_of (chars text.now) ≡ Found (map asked selector)) }
        ensures place { IfErr result (IsWithin (length (chars text.now))) }
        ensures fault { IfErr result (λ fault. Tells (length (chars text.now)) fault (selectors_of (chars text.now))) }
    {
        Ok(Selector {
            list: parse(alloc, text)?,
            alloc,
        })
    }

    /// Returns true if one of the selectors matches a node. Only elements match. `:scope` is the element itself (DOM standard, section 4.9,
    /// "matches").
    pub fn matches<T: Tree>(&self, tree: &T, id: T::NodeId) -> Result<bool, AllocError>
        ensures { IfOk result (λ answer. answer ≡ is_match (T.forest tree.now) (T.mode tree.now) (T.number id) self.now) }
    {
        if !tree.is_element(id) {
            return Ok(false);
        }
        let query = query_in(self.alloc, tree, id);
        matches_one(self.list.as_slice(), &query, id)
    }

    /// Returns the elements below a node that one of the selectors matches, each once, in tree order. The node itself isn't among them, nor
    /// are elements in the contents of a template. `:scope` is the node or, if that isn't an element, the root (DOM standard, section
    /// 4.2.6, "querySelectorAll").
    pub fn select<T: Tree>(&self, tree: &T, id: T::NodeId) -> Result<Vec<T::NodeId>, AllocError>
        ensures found { IfOk result (λ found. map T.number found.items ≡ selected (T.forest tree.now) (T.mode tree.now) (T.number id) self.now) }
        ensures nodes { IfOk result (λ found. All (λ id. T.number id < (T.forest tree.now).bound) found.items) }
    {
        let query = query_in(self.alloc, tree, id);
        // The shape of the tree is known from here on: elements are nodes.
        let _count = tree.node_count();
        if all_ask_alone(self.list.as_slice()) {
            return all_below(self.list.as_slice(), &query, id);
        }
        let Some(rows) = rows_of(&query, id)? else {
            return all_below(self.list.as_slice(), &query, id);
        };
        let left = unmatched(self.list.as_slice(), &query, &rows)?;
        taken(self.alloc, rows.ids.as_slice(), left.as_slice())
    }

    /// Returns the first element that `select` returns, if any.
    pub fn select_first<T: Tree>(
        &self,
        tree: &T,
        id: T::NodeId,
    ) -> Result<Option<T::NodeId>, AllocError>
        ensures first { IfOk result (λ found. option_map T.number found ≡ slice_get (selected (T.forest tree.now) (T.mode tree.now) (T.number id) self.now) 0) }
        ensures nodes { IfOk result (λ found. IfSome found (λ id. T.number id < (T.forest tree.now).bound)) }
    {
        let query = query_in(self.alloc, tree, id);
        // The shape of the tree is known from here on: elements are nodes.
        let _count = tree.node_count();
        let below = tree.descendant_elements(self.alloc, id)?;
        first_matching(self.list.as_slice(), &query, below.as_slice())
    }

    /// Returns the nearest of a node and its ancestors that one of the selectors matches, if any. `:scope` is the node or, if that isn't an
    /// element, the root (DOM standard, section 4.9, "closest").
    pub fn closest<T: Tree>(&self, tree: &T, id: T::NodeId) -> Result<Option<T::NodeId>, AllocError>
        ensures first { IfOk result (λ found. option_map T.number found ≡ slice_get (matching_upwards (T.forest tree.now) (T.mode tree.now) (T.number id) self.now) 0) }
        ensures nodes { IfOk result (λ found. IfSome found (λ id. T.number id < (T.forest tree.now).bound)) }
    {
        let list = self.list.as_slice();
        let query = query_in(self.alloc, tree, id);
        // The shape of the tree is known from here on: elements are nodes.
        let _count = tree.node_count();
        if tree.is_element(id) && matches_one(list, &query, id)? {
            return Ok(Some(id));
        }
        let above = ancestors(self.alloc, tree, id)?;
        first_matching(list, &query, above.as_slice())
    }
}
