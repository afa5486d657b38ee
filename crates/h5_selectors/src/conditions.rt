//! Makes conditions of others.
ghost use Rattle.std.specs.Prelude.{◌≡◌, IfOk, map, option_map};
ghost use Rattle.h5_selectors.specs.Asking.{AskLeads, AskNot, AskNth, AskOr, asked, both};
ghost use Rattle.h5_selectors.specs.Grammar.{all_of, any_of, both_if};

use super::formula::{AnPlusB, Formula, Side, Way};
use std::alloc::{AllocError, Global};

fn boxed(alloc: Global, formula: Formula) -> Result<Box<Formula>, AllocError>
    ensures { IfOk result (λ kept. kept.value ≡ formula) }
{
    let kept = Box::new(alloc, formula)?;
    Ok(kept)
}

pub(crate) fn negated(alloc: Global, formula: Formula) -> Result<Formula, AllocError>
    ensures { IfOk result (λ made. asked made ≡ AskNot (asked formula)) }
{
    Ok(Formula::Not(boxed(alloc, formula)?))
}

pub(crate) fn both(alloc: Global, one: Formula, other: Formula) -> Result<Formula, AllocError>
    ensures { IfOk result (λ made. asked made ≡ both (asked one) (asked other)) }
{
    if let Formula::Any = &one {
        return Ok(other);
    }
    Ok(Formula::And(boxed(alloc, one)?, boxed(alloc, other)?))
}

pub(crate) fn either(alloc: Global, one: Formula, other: Formula) -> Result<Formula, AllocError>
    ensures { IfOk result (λ made. asked made ≡ AskOr (asked one) (asked other)) }
{
    Ok(Formula::Or(boxed(alloc, one)?, boxed(alloc, other)?))
}

pub(crate) fn along(alloc: Global, way: Way, formula: Formula) -> Result<Formula, AllocError>
    ensures { IfOk result (λ made. asked made ≡ AskLeads way (asked formula)) }
{
    Ok(Formula::Leads(way, boxed(alloc, formula)?))
}

pub(crate) fn nth(
    alloc: Global,
    indices: AnPlusB,
    side: Side,
    of: Formula,
) -> Result<Formula, AllocError>
    ensures { IfOk result (λ made. asked made ≡ AskNth indices side (asked of)) }
{
    Ok(Formula::Nth(indices, side, boxed(alloc, of)?))
}

// All of some conditions. From the last on, so that the depth is that of the second of two.
pub(crate) fn all_of(alloc: Global, list: Vec<Formula>) -> Result<Formula, AllocError>
    ensures { IfOk result (λ made. asked made ≡ all_of (map asked list.items)) }
{
    let mut list = list;
    let Some(last) = list.pop() else {
        return Ok(Formula::Any);
    };
    let mut all = last;
    while let Some(one) = list.pop() {
        all = both(alloc, one, all)?;
    }
    Ok(all)
}

// One of some conditions. Without one, nothing is matched.
pub(crate) fn any_of(alloc: Global, list: Vec<Formula>) -> Result<Formula, AllocError>
    ensures { IfOk result (λ made. asked made ≡ any_of (map asked list.items)) }
{
    let mut list = list;
    let Some(last) = list.pop() else {
        return negated(alloc, Formula::Any);
    };
    let mut all = last;
    while let Some(one) = list.pop() {
        all = either(alloc, one, all)?;
    }
    Ok(all)
}

// The condition, and the other one, if there is one.
pub(crate) fn both_if(
    alloc: Global,
    one: Formula,
    other: Option<Formula>,
) -> Result<Formula, AllocError>
    ensures { IfOk result (λ made. asked made ≡ both_if (asked one) (option_map asked other)) }
{
    match other {
        Some(other) => both(alloc, one, other),
        None => Ok(one),
    }
}
