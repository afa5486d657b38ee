//! Counts the siblings of each row that have the same name.
ghost use Rattle.std.specs.Prelude.{◌≡◌, ◌<◌, ℕ, IfOk, get_or, length, vec_len};
ghost use Rattle.std.specs.Option.{option_map};
ghost use Rattle.h5_selectors.specs.Query.{context};
ghost use Rattle.h5_selectors.specs.Rows.{AreRows};
ghost use Rattle.h5_selectors.specs.Tables.{CountsAlike, IsAlikeBefore, IsAlikeBehind, one_more};
ghost use Rattle.h5_selectors.specs.declared.formula.Side.TheVariants.{First, Last};

use super::holds::{Query, is_alike};
use super::rows::Rows;
use super::tables::{count_of, zeros};
use crate::Side;
use h5_tree::Tree;
use std::alloc::AllocError;

// The nearest row of a sibling before, with the same name.
fn alike_before<T: Tree>(query: &Query<'_, T>, rows: &Rows<T::NodeId>, at: usize) -> Option<usize>
    requires rows { AreRows T.number (context (T.forest query.now.tree.now) query.now.is_quirky (option_map T.number query.now.scope)) rows.now }
    requires some { 0 < at }
    requires within { at < length rows.now.ids.items }
    ensures { IsAlikeBefore T.number (T.forest query.now.tree.now) rows.now at result }
{
    let id = rows.id(at);
    let mut link = rows.links(at).previous;
    'back: while let Some(row) = link {
        if is_alike(query, id, rows.id(row)) {
            return link;
        }
        link = rows.links(row).previous;
    }
    None
}

// The nearest row of a sibling after, with the same name.
fn alike_behind<T: Tree>(query: &Query<'_, T>, rows: &Rows<T::NodeId>, at: usize) -> Option<usize>
    requires rows { AreRows T.number (context (T.forest query.now.tree.now) query.now.is_quirky (option_map T.number query.now.scope)) rows.now }
    requires some { 0 < at }
    requires within { at < length rows.now.ids.items }
    ensures { IsAlikeBehind T.number (T.forest query.now.tree.now) rows.now at result }
{
    let id = rows.id(at);
    let mut link = rows.links(at).next;
    'forth: while let Some(row) = link {
        if is_alike(query, id, rows.id(row)) {
            return link;
        }
        link = rows.links(row).next;
    }
    None
}

// The count of a row plus 1; 0 without a row.
fn one_more(counts: &[usize], link: Option<usize>) -> usize
    requires { (k : ℕ) → get_or counts.now k 0 < 18446744073709551615 }
    ensures { result ≡ one_more counts.now link }
{
    match link {
        Some(row) => count_of(counts, row) + 1,
        None => 0,
    }
}

// For each row, the number of siblings before with the same name.
fn before<T: Tree>(query: &Query<'_, T>, rows: &Rows<T::NodeId>) -> Result<Vec<usize>, AllocError>
    requires { AreRows T.number (context (T.forest query.now.tree.now) query.now.is_quirky (option_map T.number query.now.scope)) rows.now }
    ensures count { IfOk result (λ counts. vec_len counts ≡ length rows.now.ids.items) }
    ensures counts { IfOk result (λ counts. CountsAlike T.number (T.forest query.now.tree.now) First rows.now counts.items) }
{
    let mut counts = zeros(query.alloc, rows.len())?;
    for at in 1..rows.len() {
        let link = alike_before(query, rows, at);
        counts[at] = one_more(counts.as_slice(), link);
    }
    Ok(counts)
}

// For each row, the number of siblings after with the same name.
fn behind<T: Tree>(query: &Query<'_, T>, rows: &Rows<T::NodeId>) -> Result<Vec<usize>, AllocError>
    requires { AreRows T.number (context (T.forest query.now.tree.now) query.now.is_quirky (option_map T.number query.now.scope)) rows.now }
    ensures count { IfOk result (λ counts. vec_len counts ≡ length rows.now.ids.items) }
    ensures counts { IfOk result (λ counts. CountsAlike T.number (T.forest query.now.tree.now) Last rows.now counts.items) }
{
    let mut counts = zeros(query.alloc, rows.len())?;
    for step in 1..rows.len() {
        let at = rows.len() - step;
        let link = alike_behind(query, rows, at);
        counts[at] = one_more(counts.as_slice(), link);
    }
    Ok(counts)
}

/// For each row except the first, the number of siblings on this side with the same name.
pub(crate) fn counts_alike<T: Tree>(
    query: &Query<'_, T>,
    rows: &Rows<T::NodeId>,
    side: Side,
) -> Result<Vec<usize>, AllocError>
    requires { AreRows T.number (context (T.forest query.now.tree.now) query.now.is_quirky (option_map T.number query.now.scope)) rows.now }
    ensures count { IfOk result (λ counts. vec_len counts ≡ length rows.now.ids.items) }
    ensures counts { IfOk result (λ counts. CountsAlike T.number (T.forest query.now.tree.now) side rows.now counts.items) }
{
    match side {
        Side::First => before(query, rows),
        Side::Last => behind(query, rows),
    }
}
