//! Tests of a condition on a node and on all elements below it: one pass over their rows for each part of a selector. The table of a part
//! says for each row if the part holds.
ghost use Rattle.std.specs.Prelude.{◌≡◌, ◌<◌, ◌≤◌, ◌+◌, ◌∷◌, ◌++◌, [], ◌&&◌, ◌||◌, ℕ, All, Bool, IfOk, IfSome, List, OnOk, Option, cond, false, get_or, length, map, nat_lt, not, true, vec_len};
ghost use Rattle.std.specs.List.{filter, list_any};
ghost use Rattle.std.specs.Option.{option_map};
ghost use Rattle.h5_selectors.specs.Query.{context, holds_by, matches_by};
ghost use Rattle.h5_selectors.specs.Rows.{AreRows, node_of};
ghost use Rattle.h5_selectors.specs.Tables.{Counts, CountsAlike, IsTableOf, Narrows, Tells, TellsAhead, counted_at, is_nth_by, leads_out, link_to, stations_of, there, told};
ghost use Rattle.h5_selectors.specs.Ways.{led};
ghost use Rattle.h5_selectors.specs.declared.formula.Formula.{Formula as FormulaAt};
ghost use Rattle.h5_selectors.specs.declared.formula.Way.TheVariants.{Ancestor, Below, Earlier, Later, Parent};
ghost use Rattle.h5_selectors.specs.declared.rows.Links.{Links};

use super::alike::counts_alike;
use super::holds::{Query, holds, holds_along, is_nth, is_nth_of_type, more};
use super::rows::{Links, Rows};
use crate::{AnPlusB, Formula, Side, Way};
use h5_tree::Tree;
use std::alloc::{AllocError, Global};

// A table with this number of equal entries.
fn answers(alloc: Global, count: usize, answer: bool) -> Result<Vec<bool>, AllocError>
    ensures count { IfOk result (λ all. vec_len all ≡ count) }
    ensures all { IfOk result (λ all. (k : ℕ) → k < count → get_or all.items k false ≡ answer) }
{
    let mut all = Vec::with_capacity(alloc, count)?;
    for _at in 0..count {
        all.push(answer)?;
    }
    Ok(all)
}

// The rows that are in one set and not in another.
fn without(alloc: Global, set: &[bool], other: &[bool]) -> Result<Vec<bool>, AllocError>
    requires { length other.now ≡ length set.now }
    ensures count { IfOk result (λ left. vec_len left ≡ length set.now) }
    ensures left { IfOk result (λ left. (k : ℕ) → k < length set.now → get_or left.items k false ≡ (get_or set.now k false && not (get_or other.now k false))) }
{
    let mut left = Vec::with_capacity(alloc, set.len())?;
    for at in 0..set.len() {
        left.push(set[at] && !other[at])?;
    }
    Ok(left)
}

// The rows of a set for which the condition holds, each tested alone.
fn asked<T: Tree>(
    formula: &Formula,
    query: &Query<'_, T>,
    rows: &Rows<T::NodeId>,
    set: &[bool],
) -> Result<Vec<bool>, AllocError>
    requires rows { AreRows T.number (context (T.forest query.now.tree.now) query.now.is_quirky (option_map T.number query.now.scope)) rows.now }
    requires count { length set.now ≡ length rows.now.ids.items }
    ensures count { IfOk result (λ table. vec_len table ≡ length rows.now.ids.items) }
    ensures table { IfOk result (λ table. Narrows T.number (holds_by (context (T.forest query.now.tree.now) query.now.is_quirky (option_map T.number query.now.scope)) formula.now) rows.now set.now table.items) }
{
    let mut table = Vec::with_capacity(query.alloc, set.len())?;
    for at in 0..set.len() {
        let answer = set[at] && holds(formula, query, rows.id(at))?;
        table.push(answer)?;
    }
    Ok(table)
}

// A copy of a set.
fn copied(alloc: Global, set: &[bool]) -> Result<Vec<bool>, AllocError>
    ensures { IfOk result (λ copy. copy.items ≡ set.now) }
{
    let mut copy = Vec::with_capacity(alloc, set.len())?;
    copy.extend_from_slice(set)?;
    Ok(copy)
}

// The entry of a table for a linked row; false without one.
fn told(table: &[bool], link: Option<usize>) -> bool
    ensures { result ≡ told table.now link }
{
    match link {
        Some(row) if row < table.len() => table[row],
        _ => false,
    }
}

// Returns true if a row is in a set, or a linked row is in a table.
fn or_told(is_in: bool, table: &[bool], link: Option<usize>) -> bool
    ensures { result ≡ (is_in || told table.now link) }
{
    is_in || told(table, link)
}

// The elements of a set.
fn elements_in<T: Tree>(
    query: &Query<'_, T>,
    rows: &Rows<T::NodeId>,
    set: &[bool],
) -> Result<Vec<bool>, AllocError>
    requires rows { AreRows T.number (context (T.forest query.now.tree.now) query.now.is_quirky (option_map T.number query.now.scope)) rows.now }
    requires count { length set.now ≡ length rows.now.ids.items }
    ensures count { IfOk result (λ table. vec_len table ≡ length rows.now.ids.items) }
    ensures table { IfOk result (λ table. (test : ℕ → Bool) → Tells T.number test rows.now set.now → TellsAhead T.number (T.forest query.now.tree.now) test Parent rows.now table.items) }
{
    let mut table = Vec::with_capacity(query.alloc, set.len())?;
    for at in 0..set.len() {
        table.push(query.tree.is_element(rows.id(at)) && set[at])?;
    }
    Ok(table)
}

// Returns true if the element of a row or one of its ancestors is in a set of elements. The ancestors of the first row are tested alone.
fn is_above<T: Tree>(
    inner: &Formula,
    query: &Query<'_, T>,
    rows: &Rows<T::NodeId>,
    set: &[bool],
    table: &[bool],
) -> Result<bool, AllocError>
    requires rows { AreRows T.number (context (T.forest query.now.tree.now) query.now.is_quirky (option_map T.number query.now.scope)) rows.now }
    requires count { length set.now ≡ length rows.now.ids.items }
    requires set { TellsAhead T.number (T.forest query.now.tree.now) (holds_by (context (T.forest query.now.tree.now) query.now.is_quirky (option_map T.number query.now.scope)) inner.now) Parent rows.now set.now }
    requires rest { length table.now < length rows.now.ids.items }
    requires table { (k : ℕ) → k < length table.now → get_or table.now k false ≡ there (T.forest query.now.tree.now) (holds_by (context (T.forest query.now.tree.now) query.now.is_quirky (option_map T.number query.now.scope)) inner.now) Ancestor (node_of T.number rows.now k) }
    ensures { IfOk result (λ answer. answer ≡ there (T.forest query.now.tree.now) (holds_by (context (T.forest query.now.tree.now) query.now.is_quirky (option_map T.number query.now.scope)) inner.now) Ancestor (node_of T.number rows.now (length table.now))) }
{
    let at = table.len();
    if set[at] {
        return Ok(true);
    }
    if at == 0 {
        return holds_along(inner, query, Way::Ancestor, rows.id(at));
    }
    Ok(told(table, rows.links(at).parent))
}

// For each row, true if its element or one of its ancestors is in a set of elements.
fn above<T: Tree>(
    inner: &Formula,
    query: &Query<'_, T>,
    rows: &Rows<T::NodeId>,
    set: &[bool],
) -> Result<Vec<bool>, AllocError>
    requires rows { AreRows T.number (context (T.forest query.now.tree.now) query.now.is_quirky (option_map T.number query.now.scope)) rows.now }
    requires count { length set.now ≡ length rows.now.ids.items }
    requires set { TellsAhead T.number (T.forest query.now.tree.now) (holds_by (context (T.forest query.now.tree.now) query.now.is_quirky (option_map T.number query.now.scope)) inner.now) Parent rows.now set.now }
    ensures count { IfOk result (λ table. vec_len table ≡ length rows.now.ids.items) }
    ensures table { IfOk result (λ table. TellsAhead T.number (T.forest query.now.tree.now) (holds_by (context (T.forest query.now.tree.now) query.now.is_quirky (option_map T.number query.now.scope)) inner.now) Ancestor rows.now table.items) }
{
    let mut table = Vec::with_capacity(query.alloc, set.len())?;
    for _row in set {
        let answer = is_above(inner, query, rows, set, table.as_slice())?;
        table.push(answer)?;
    }
    Ok(table)
}

// For each row, true if it or a sibling before it is in a set.
fn earlier<T: Tree>(
    query: &Query<'_, T>,
    rows: &Rows<T::NodeId>,
    set: &[bool],
) -> Result<Vec<bool>, AllocError>
    requires rows { AreRows T.number (context (T.forest query.now.tree.now) query.now.is_quirky (option_map T.number query.now.scope)) rows.now }
    requires count { length set.now ≡ length rows.now.ids.items }
    ensures count { IfOk result (λ table. vec_len table ≡ length rows.now.ids.items) }
    ensures table { IfOk result (λ table. (test : ℕ → Bool) → Tells T.number test rows.now set.now → TellsAhead T.number (T.forest query.now.tree.now) test Earlier rows.now table.items) }
{
    let mut table = Vec::with_capacity(query.alloc, set.len())?;
    for at in 0..set.len() {
        let answer = or_told(set[at], table.as_slice(), rows.links(at).previous);
        table.push(answer)?;
    }
    Ok(table)
}

// For each row, true if it or a sibling after it is in a set.
fn later<T: Tree>(
    query: &Query<'_, T>,
    rows: &Rows<T::NodeId>,
    set: &[bool],
) -> Result<Vec<bool>, AllocError>
    requires rows { AreRows T.number (context (T.forest query.now.tree.now) query.now.is_quirky (option_map T.number query.now.scope)) rows.now }
    requires count { length set.now ≡ length rows.now.ids.items }
    ensures count { IfOk result (λ table. vec_len table ≡ length rows.now.ids.items) }
    ensures table { IfOk result (λ table. (test : ℕ → Bool) → Tells T.number test rows.now set.now → TellsAhead T.number (T.forest query.now.tree.now) test Later rows.now table.items) }
{
    let mut table = answers(query.alloc, set.len(), false)?;
    for step in 0..set.len() {
        let at = set.len() - 1 - step;
        let answer = or_told(set[at], table.as_slice(), rows.links(at).next);
        table[at] = answer;
    }
    Ok(table)
}

// For each row, true if it, a descendant, a sibling after it or a descendant of such a sibling is in a set.
fn under<T: Tree>(
    query: &Query<'_, T>,
    rows: &Rows<T::NodeId>,
    set: &[bool],
) -> Result<Vec<bool>, AllocError>
    requires rows { AreRows T.number (context (T.forest query.now.tree.now) query.now.is_quirky (option_map T.number query.now.scope)) rows.now }
    requires count { length set.now ≡ length rows.now.ids.items }
    ensures count { IfOk result (λ table. vec_len table ≡ length rows.now.ids.items) }
    ensures table { IfOk result (λ table. (test : ℕ → Bool) → Tells T.number test rows.now set.now → TellsAhead T.number (T.forest query.now.tree.now) test Below rows.now table.items) }
{
    let mut table = answers(query.alloc, set.len(), false)?;
    for step in 0..set.len() {
        let at = set.len() - 1 - step;
        let links = rows.links(at);
        let below = or_told(set[at], table.as_slice(), links.first);
        let answer = or_told(below, table.as_slice(), links.next);
        table[at] = answer;
    }
    Ok(table)
}

// The table that is looked up for this relation.
fn ahead<T: Tree>(
    inner: &Formula,
    query: &Query<'_, T>,
    way: Way,
    rows: &Rows<T::NodeId>,
    set: &[bool],
) -> Result<Vec<bool>, AllocError>
    requires rows { AreRows T.number (context (T.forest query.now.tree.now) query.now.is_quirky (option_map T.number query.now.scope)) rows.now }
    requires count { length set.now ≡ length rows.now.ids.items }
    requires set { Tells T.number (holds_by (context (T.forest query.now.tree.now) query.now.is_quirky (option_map T.number query.now.scope)) inner.now) rows.now set.now }
    ensures count { IfOk result (λ table. vec_len table ≡ length rows.now.ids.items) }
    ensures table { IfOk result (λ table. TellsAhead T.number (T.forest query.now.tree.now) (holds_by (context (T.forest query.now.tree.now) query.now.is_quirky (option_map T.number query.now.scope)) inner.now) way rows.now table.items) }
{
    match way {
        Way::Parent => elements_in(query, rows, set),
        Way::Ancestor => {
            let elements = elements_in(query, rows, set)?;
            above(inner, query, rows, elements.as_slice())
        }
        Way::Previous | Way::Next => copied(query.alloc, set),
        Way::Earlier => earlier(query, rows, set),
        Way::Later | Way::Child => later(query, rows, set),
        Way::Below => under(query, rows, set),
    }
}

// The link to the row that is looked up for this relation.
fn link_to(way: Way, links: Links) -> Option<usize>
    ensures { result ≡ link_to way links }
{
    match way {
        Way::Parent | Way::Ancestor => links.parent,
        Way::Previous | Way::Earlier => links.previous,
        Way::Next | Way::Later => links.next,
        Way::Child | Way::Below => links.first,
    }
}

// Returns true if the first row can have elements outside the rows in this relation.
fn leads_out(way: Way) -> bool
    ensures { result ≡ leads_out way }
{
    !matches!(way, Way::Child | Way::Below)
}

// Returns true if a row has to be tested alone: the first one, if it can have elements outside the rows in this relation.
fn is_alone(row: usize, way: Way) -> bool
    ensures { result ≡ false → leads_out way ≡ true → 0 < row }
{
    row == 0 && leads_out(way)
}

// Returns true if an element in this relation to a row is in the set. The first row is tested alone if it can have elements outside the
// rows.
fn is_led<T: Tree>(
    inner: &Formula,
    query: &Query<'_, T>,
    way: Way,
    rows: &Rows<T::NodeId>,
    table: &[bool],
    at: usize,
) -> Result<bool, AllocError>
    requires rows { AreRows T.number (context (T.forest query.now.tree.now) query.now.is_quirky (option_map T.number query.now.scope)) rows.now }
    requires table { TellsAhead T.number (T.forest query.now.tree.now) (holds_by (context (T.forest query.now.tree.now) query.now.is_quirky (option_map T.number query.now.scope)) inner.now) way rows.now table.now }
    requires within { at < length rows.now.ids.items }
    ensures { IfOk result (λ answer. answer ≡ list_any (holds_by (context (T.forest query.now.tree.now) query.now.is_quirky (option_map T.number query.now.scope)) inner.now) (led way (T.forest query.now.tree.now) (node_of T.number rows.now at))) }
{
    if is_alone(at, way) {
        return holds_along(inner, query, way, rows.id(at));
    }
    Ok(told(table, link_to(way, rows.links(at))))
}

// The rows of a set that have an element in this relation in another set.
fn leading<T: Tree>(
    inner: &Formula,
    query: &Query<'_, T>,
    way: Way,
    rows: &Rows<T::NodeId>,
    set: &[bool],
    into: &[bool],
) -> Result<Vec<bool>, AllocError>
    requires rows { AreRows T.number (context (T.forest query.now.tree.now) query.now.is_quirky (option_map T.number query.now.scope)) rows.now }
    requires count { length set.now ≡ length rows.now.ids.items }
    requires into_count { length into.now ≡ length rows.now.ids.items }
    requires into { Tells T.number (holds_by (context (T.forest query.now.tree.now) query.now.is_quirky (option_map T.number query.now.scope)) inner.now) rows.now into.now }
    ensures count { IfOk result (λ table. vec_len table ≡ length rows.now.ids.items) }
    ensures table { IfOk result (λ table. Narrows T.number (λ n. list_any (holds_by (context (T.forest query.now.tree.now) query.now.is_quirky (option_map T.number query.now.scope)) inner.now) (led way (T.forest query.now.tree.now) n)) rows.now set.now table.items) }
{
    let ahead = ahead(inner, query, way, rows, into)?;
    let mut table = Vec::with_capacity(query.alloc, set.len())?;
    for at in 0..set.len() {
        let answer = set[at] && is_led(inner, query, way, rows, ahead.as_slice(), at)?;
        table.push(answer)?;
    }
    Ok(table)
}

/// The count of a row; 0 after the last one.
pub(crate) fn count_of(counts: &[usize], row: usize) -> usize
    ensures { result ≡ get_or counts.now row 0 }
{
    if row < counts.len() { counts[row] } else { 0 }
}

// The count of a linked row, plus 1 if that row is in a set.
fn counted_at(counts: &[usize], set: &[bool], link: Option<usize>) -> usize
    requires { (k : ℕ) → get_or counts.now k 0 < 18446744073709551615 }
    ensures { result ≡ counted_at counts.now set.now link }
{
    match link {
        Some(row) => more(count_of(counts, row), told(set, link)),
        None => 0,
    }
}

// For each row, the number of siblings before it in a set.
fn counts_before<T: Tree>(
    query: &Query<'_, T>,
    rows: &Rows<T::NodeId>,
    set: &[bool],
) -> Result<Vec<usize>, AllocError>
    requires rows { AreRows T.number (context (T.forest query.now.tree.now) query.now.is_quirky (option_map T.number query.now.scope)) rows.now }
    requires count { length set.now ≡ length rows.now.ids.items }
    ensures count { IfOk result (λ counts. vec_len counts ≡ length rows.now.ids.items) }
    ensures counts { IfOk result (λ counts. (test : ℕ → Bool) → Tells T.number test rows.now set.now → Counts T.number (T.forest query.now.tree.now) test Side.First rows.now counts.items) }
{
    let mut counts = Vec::with_capacity(query.alloc, set.len())?;
    for at in 0..set.len() {
        let count = counted_at(counts.as_slice(), set, rows.links(at).previous);
        counts.push(count)?;
    }
    Ok(counts)
}

/// Counts of this number of rows, all 0.
pub(crate) fn zeros(alloc: Global, count: usize) -> Result<Vec<usize>, AllocError>
    ensures count { IfOk result (λ all. vec_len all ≡ count) }
    ensures all { IfOk result (λ all. (k : ℕ) → k < count → get_or all.items k 0 ≡ 0) }
{
    let mut all = Vec::with_capacity(alloc, count)?;
    for _at in 0..count {
        all.push(0)?;
    }
    Ok(all)
}

// For each row, the number of siblings after it in a set.
fn counts_behind<T: Tree>(
    query: &Query<'_, T>,
    rows: &Rows<T::NodeId>,
    set: &[bool],
) -> Result<Vec<usize>, AllocError>
    requires rows { AreRows T.number (context (T.forest query.now.tree.now) query.now.is_quirky (option_map T.number query.now.scope)) rows.now }
    requires count { length set.now ≡ length rows.now.ids.items }
    ensures count { IfOk result (λ counts. vec_len counts ≡ length rows.now.ids.items) }
    ensures counts { IfOk result (λ counts. (test : ℕ → Bool) → Tells T.number test rows.now set.now → Counts T.number (T.forest query.now.tree.now) test Side.Last rows.now counts.items) }
{
    let mut counts = zeros(query.alloc, set.len())?;
    for step in 0..set.len() {
        let at = set.len() - 1 - step;
        let count = counted_at(counts.as_slice(), set, rows.links(at).next);
        counts[at] = count;
    }
    Ok(counts)
}

fn counts<T: Tree>(
    query: &Query<'_, T>,
    rows: &Rows<T::NodeId>,
    side: Side,
    set: &[bool],
) -> Result<Vec<usize>, AllocError>
    requires rows { AreRows T.number (context (T.forest query.now.tree.now) query.now.is_quirky (option_map T.number query.now.scope)) rows.now }
    requires count { length set.now ≡ length rows.now.ids.items }
    ensures count { IfOk result (λ counts. vec_len counts ≡ length rows.now.ids.items) }
    ensures counts { IfOk result (λ counts. (test : ℕ → Bool) → Tells T.number test rows.now set.now → Counts T.number (T.forest query.now.tree.now) test side rows.now counts.items) }
{
    match side {
        Side::First => counts_before(query, rows, set),
        Side::Last => counts_behind(query, rows, set),
    }
}

// Returns true if a row is in a set, and its index among the siblings in the set is one of these. The first row is tested alone.
fn is_placed<T: Tree>(
    of: &Formula,
    query: &Query<'_, T>,
    indices: AnPlusB,
    side: Side,
    rows: &Rows<T::NodeId>,
    among: &[bool],
    counts: &[usize],
    at: usize,
) -> Result<bool, AllocError>
    requires rows { AreRows T.number (context (T.forest query.now.tree.now) query.now.is_quirky (option_map T.number query.now.scope)) rows.now }
    requires among_count { length among.now ≡ length rows.now.ids.items }
    requires among { Tells T.number (holds_by (context (T.forest query.now.tree.now) query.now.is_quirky (option_map T.number query.now.scope)) of.now) rows.now among.now }
    requires counts_count { length counts.now ≡ length rows.now.ids.items }
    requires counts { Counts T.number (T.forest query.now.tree.now) (holds_by (context (T.forest query.now.tree.now) query.now.is_quirky (option_map T.number query.now.scope)) of.now) side rows.now counts.now }
    requires within { at < length rows.now.ids.items }
    ensures { IfOk result (λ answer. answer ≡ is_nth_by (context (T.forest query.now.tree.now) query.now.is_quirky (option_map T.number query.now.scope)) indices side of.now (node_of T.number rows.now at)) }
{
    if at == 0 {
        return is_nth(of, query, rows.id(at), indices, side);
    }
    Ok(among[at] && indices.has_behind(counts[at]))
}

// The rows of a set that are in another one, and whose index among the siblings in that one is one of these.
fn placed<T: Tree>(
    of: &Formula,
    query: &Query<'_, T>,
    indices: AnPlusB,
    side: Side,
    rows: &Rows<T::NodeId>,
    set: &[bool],
    among: &[bool],
) -> Result<Vec<bool>, AllocError>
    requires rows { AreRows T.number (context (T.forest query.now.tree.now) query.now.is_quirky (option_map T.number query.now.scope)) rows.now }
    requires count { length set.now ≡ length rows.now.ids.items }
    requires among_count { length among.now ≡ length rows.now.ids.items }
    requires among { Tells T.number (holds_by (context (T.forest query.now.tree.now) query.now.is_quirky (option_map T.number query.now.scope)) of.now) rows.now among.now }
    ensures count { IfOk result (λ table. vec_len table ≡ length rows.now.ids.items) }
    ensures table { IfOk result (λ table. Narrows T.number (is_nth_by (context (T.forest query.now.tree.now) query.now.is_quirky (option_map T.number query.now.scope)) indices side of.now) rows.now set.now table.items) }
{
    let counts = counts(query, rows, side, among)?;
    let mut table = Vec::with_capacity(query.alloc, set.len())?;
    for at in 0..set.len() {
        let answer = set[at]
            && is_placed(of, query, indices, side, rows, among, counts.as_slice(), at)?;
        table.push(answer)?;
    }
    Ok(table)
}

// Returns true if the index of a row among the siblings with its name is one of these. The first row is tested alone.
fn is_placed_alike<T: Tree>(
    query: &Query<'_, T>,
    indices: AnPlusB,
    side: Side,
    rows: &Rows<T::NodeId>,
    counts: &[usize],
    at: usize,
) -> Result<bool, AllocError>
    requires rows { AreRows T.number (context (T.forest query.now.tree.now) query.now.is_quirky (option_map T.number query.now.scope)) rows.now }
    requires count { length counts.now ≡ length rows.now.ids.items }
    requires counts { CountsAlike T.number (T.forest query.now.tree.now) side rows.now counts.now }
    requires within { at < length rows.now.ids.items }
    ensures { IfOk result (λ answer. answer ≡ holds_by (context (T.forest query.now.tree.now) query.now.is_quirky (option_map T.number query.now.scope)) (FormulaAt.NthOfType indices side) (node_of T.number rows.now at)) }
{
    if at == 0 {
        return is_nth_of_type(query, rows.id(at), indices, side);
    }
    Ok(indices.has_behind(counts[at]))
}

// The rows of a set whose index among the siblings with their name is one of these.
fn placed_alike<T: Tree>(
    query: &Query<'_, T>,
    indices: AnPlusB,
    side: Side,
    rows: &Rows<T::NodeId>,
    set: &[bool],
) -> Result<Vec<bool>, AllocError>
    requires rows { AreRows T.number (context (T.forest query.now.tree.now) query.now.is_quirky (option_map T.number query.now.scope)) rows.now }
    requires count { length set.now ≡ length rows.now.ids.items }
    ensures count { IfOk result (λ table. vec_len table ≡ length rows.now.ids.items) }
    ensures table { IfOk result (λ table. Narrows T.number (holds_by (context (T.forest query.now.tree.now) query.now.is_quirky (option_map T.number query.now.scope)) (FormulaAt.NthOfType indices side)) rows.now set.now table.items) }
{
    let counts = counts_alike(query, rows, side)?;
    let mut table = Vec::with_capacity(query.alloc, set.len())?;
    for at in 0..set.len() {
        let answer = set[at] && is_placed_alike(query, indices, side, rows, counts.as_slice(), at)?;
        table.push(answer)?;
    }
    Ok(table)
}

// The conditions after the combinators along a condition, the nearest first.
fn stations(alloc: Global, formula: &Formula) -> Result<Vec<&Formula>, AllocError>
    ensures { IfOk result (λ stations. map (λ f. f.now) stations.items ≡ stations_of formula.now) }
{
    let mut stations = Vec::new(alloc);
    let mut at = formula;
    'onward: loop {
        match at {
            Formula::And(_, other) => at = &**other,
            Formula::Leads(_, inner) => {
                stations.push(&**inner)?;
                at = &**inner;
            }
            _ => return Ok(stations),
        }
    }
}

// The rows of a set for which one of two conditions holds. The second one may be one of two in turn.
#[cycle(narrowed)]
fn narrowed_any<T: Tree>(
    one: &Formula,
    other: &Formula,
    query: &Query<'_, T>,
    rows: &Rows<T::NodeId>,
    set: &[bool],
) -> Result<Vec<bool>, AllocError>
    requires rows { AreRows T.number (context (T.forest query.now.tree.now) query.now.is_quirky (option_map T.number query.now.scope)) rows.now }
    requires count { length set.now ≡ length rows.now.ids.items }
    ensures count { IfOk result (λ table. vec_len table ≡ length rows.now.ids.items) }
    ensures table { IfOk result (λ table. Narrows T.number (λ n. holds_by (context (T.forest query.now.tree.now) query.now.is_quirky (option_map T.number query.now.scope)) one.now n || holds_by (context (T.forest query.now.tree.now) query.now.is_quirky (option_map T.number query.now.scope)) other.now n) rows.now set.now table.items) }
{
    let first = narrowed(one, query, rows, set)?;
    let mut left = without(query.alloc, set, first.as_slice())?;
    let mut at = other;
    'further: while let Formula::Or(next, last) = at {
        let taken = narrowed(&**next, query, rows, left.as_slice())?;
        left = without(query.alloc, left.as_slice(), taken.as_slice())?;
        at = &**last;
    }
    let taken = narrowed(at, query, rows, left.as_slice())?;
    let rest = without(query.alloc, left.as_slice(), taken.as_slice())?;
    without(query.alloc, set, rest.as_slice())
}

// The rows of a set for which a condition without combinators holds.
#[cycle(narrowed)]
fn narrowed_alone<T: Tree>(
    formula: &Formula,
    query: &Query<'_, T>,
    rows: &Rows<T::NodeId>,
    set: &[bool],
) -> Result<Vec<bool>, AllocError>
    requires rows { AreRows T.number (context (T.forest query.now.tree.now) query.now.is_quirky (option_map T.number query.now.scope)) rows.now }
    requires count { length set.now ≡ length rows.now.ids.items }
    ensures count { IfOk result (λ table. vec_len table ≡ length rows.now.ids.items) }
    ensures table { IfOk result (λ table. Narrows T.number (holds_by (context (T.forest query.now.tree.now) query.now.is_quirky (option_map T.number query.now.scope)) formula.now) rows.now set.now table.items) }
{
    match formula {
        Formula::Or(one, other) => narrowed_any(&**one, &**other, query, rows, set),
        Formula::Not(inner) => {
            let taken = narrowed(&**inner, query, rows, set)?;
            without(query.alloc, set, taken.as_slice())
        }
        Formula::Nth(indices, side, of) => {
            let all = answers(query.alloc, set.len(), true)?;
            let among = narrowed(&**of, query, rows, all.as_slice())?;
            placed(&**of, query, *indices, *side, rows, set, among.as_slice())
        }
        Formula::NthOfType(indices, side) => { placed_alike(query, *indices, *side, rows, set) }
        _ => asked(formula, query, rows, set),
    }
}

// The rows of a set for which the condition holds. `into` is the table of the condition after the next combinator, if there is one.
#[cycle(narrowed)]
fn narrowed_to<T: Tree>(
    formula: &Formula,
    query: &Query<'_, T>,
    rows: &Rows<T::NodeId>,
    set: &[bool],
    into: &[bool],
) -> Result<Vec<bool>, AllocError>
    requires rows { AreRows T.number (context (T.forest query.now.tree.now) query.now.is_quirky (option_map T.number query.now.scope)) rows.now }
    requires count { length set.now ≡ length rows.now.ids.items }
    requires into { IsTableOf T.number (context (T.forest query.now.tree.now) query.now.is_quirky (option_map T.number query.now.scope)) rows.now (stations_of formula.now) into.now }
    ensures count { IfOk result (λ table. vec_len table ≡ length rows.now.ids.items) }
    ensures table { IfOk result (λ table. Narrows T.number (holds_by (context (T.forest query.now.tree.now) query.now.is_quirky (option_map T.number query.now.scope)) formula.now) rows.now set.now table.items) }
{
    let mut left = copied(query.alloc, set)?;
    let mut at = formula;
    'down: while let Formula::And(one, other) = at {
        left = narrowed(&**one, query, rows, left.as_slice())?;
        at = &**other;
    }
    if let Formula::Leads(way, inner) = at {
        return leading(&**inner, query, *way, rows, left.as_slice(), into);
    }
    narrowed_alone(at, query, rows, left.as_slice())
}

// The rows of a set for which the condition holds.
#[cycle(narrowed)]
fn narrowed<T: Tree>(
    formula: &Formula,
    query: &Query<'_, T>,
    rows: &Rows<T::NodeId>,
    set: &[bool],
) -> Result<Vec<bool>, AllocError>
    requires rows { AreRows T.number (context (T.forest query.now.tree.now) query.now.is_quirky (option_map T.number query.now.scope)) rows.now }
    requires count { length set.now ≡ length rows.now.ids.items }
    ensures count { IfOk result (λ table. vec_len table ≡ length rows.now.ids.items) }
    ensures table { IfOk result (λ table. Narrows T.number (holds_by (context (T.forest query.now.tree.now) query.now.is_quirky (option_map T.number query.now.scope)) formula.now) rows.now set.now table.items) }
{
    let mut stations = stations(query.alloc, formula)?;
    let mut into = Vec::new(query.alloc);
    'back: while let Some(station) = stations.pop() {
        let all = answers(query.alloc, set.len(), true)?;
        into = narrowed_to(station, query, rows, all.as_slice(), into.as_slice())?;
    }
    narrowed_to(formula, query, rows, set, into.as_slice())
}

/// The rows that none of the selectors matches.
pub(crate) fn unmatched<T: Tree>(
    list: &[Formula],
    query: &Query<'_, T>,
    rows: &Rows<T::NodeId>,
) -> Result<Vec<bool>, AllocError>
    requires { AreRows T.number (context (T.forest query.now.tree.now) query.now.is_quirky (option_map T.number query.now.scope)) rows.now }
    ensures count { IfOk result (λ left. vec_len left ≡ length rows.now.ids.items) }
    ensures left { IfOk result (λ left. Tells T.number (λ n. not (matches_by (context (T.forest query.now.tree.now) query.now.is_quirky (option_map T.number query.now.scope)) list.now n)) rows.now left.items) }
{
    let mut left = answers(query.alloc, rows.len(), true)?;
    for formula in list {
        let matched = narrowed(formula, query, rows, left.as_slice())?;
        left = without(query.alloc, left.as_slice(), matched.as_slice())?;
    }
    Ok(left)
}
