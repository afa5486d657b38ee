//! The conditions of the pseudo-classes of form controls (HTML standard, section 4.16.3, "Pseudo-classes").
ghost use Rattle.std.specs.Prelude.{◌≡◌, IfOk};
ghost use Rattle.h5_selectors.specs.Asking.{asked};
ghost use Rattle.h5_selectors.specs.Controls as c;

use super::attributes::{Comparison, test_of, written};
use super::conditions::{along, both, either, negated};
use super::formula::{Formula, Operator, Way};
use std::alloc::{AllocError, Global};

// An element with this name.
fn typed(alloc: Global, name: &str) -> Result<Formula, AllocError>
    ensures { IfOk result (λ made. asked made ≡ c.typed name.now) }
{
    Ok(Formula::Name(written(alloc, name)?))
}

// An HTML element for which the condition holds.
fn html(alloc: Global, condition: Formula) -> Result<Formula, AllocError>
    ensures { IfOk result (λ made. asked made ≡ c.html (asked condition)) }
{
    both(alloc, Formula::Html, condition)
}

// An element with this attribute.
fn has(alloc: Global, name: &str) -> Result<Formula, AllocError>
    ensures { IfOk result (λ made. asked made ≡ c.has name.now) }
{
    let name = written(alloc, name)?;
    let compared = Comparison {
        operator: Operator::Exists,
        text: String::new(alloc),
        flag: None,
    };
    Ok(Formula::Attr(test_of(name, compared)))
}

// An element with this value of an attribute, compared ASCII case-insensitively.
fn has_value(alloc: Global, name: &str, value: &str) -> Result<Formula, AllocError>
    ensures { IfOk result (λ made. asked made ≡ c.has_value name.now value.now) }
{
    let name = written(alloc, name)?;
    let compared = Comparison {
        operator: Operator::Equals,
        text: String::from_str(alloc, value)?,
        flag: Some(true),
    };
    Ok(Formula::Attr(test_of(name, compared)))
}

// An `input` that is checked.
fn checked_input(alloc: Global) -> Result<Formula, AllocError>
    ensures { IfOk result (λ made. asked made ≡ c.checked_input) }
{
    let checkbox = has_value(alloc, "type", "checkbox")?;
    let radio = has_value(alloc, "type", "radio")?;
    let types = either(alloc, checkbox, radio)?;
    let checked = both(alloc, has(alloc, "checked")?, types)?;
    both(alloc, typed(alloc, "input")?, checked)
}

// An `option` that is selected.
fn selected_option(alloc: Global) -> Result<Formula, AllocError>
    ensures { IfOk result (λ made. asked made ≡ c.selected_option) }
{
    both(alloc, typed(alloc, "option")?, has(alloc, "selected")?)
}

/// The condition of `:checked`.
#[tactic(auto, unfolding(crate::specs::Controls::checked))]
pub(crate) fn checked(alloc: Global) -> Result<Formula, AllocError>
    ensures { IfOk result (λ made. asked made ≡ c.checked) }
{
    let one = either(alloc, checked_input(alloc)?, selected_option(alloc)?)?;
    html(alloc, one)
}

// An HTML element with this name and the attribute `disabled`.
fn disabled_self(alloc: Global, name: &str) -> Result<Formula, AllocError>
    ensures { IfOk result (λ made. asked made ≡ c.disabled_self name.now) }
{
    let one = both(alloc, typed(alloc, name)?, has(alloc, "disabled")?)?;
    html(alloc, one)
}

fn legend(alloc: Global) -> Result<Formula, AllocError>
    ensures { IfOk result (λ made. asked made ≡ c.legend) }
{
    html(alloc, typed(alloc, "legend")?)
}

// The first `legend` child of an element.
fn first_legend(alloc: Global) -> Result<Formula, AllocError>
    ensures { IfOk result (λ made. asked made ≡ c.first_legend) }
{
    let earlier = along(alloc, Way::Earlier, legend(alloc)?)?;
    both(alloc, legend(alloc)?, negated(alloc, earlier)?)
}

// A child of a `fieldset` with `disabled`, other than its first `legend` child.
fn disabled_child(alloc: Global) -> Result<Formula, AllocError>
    ensures { IfOk result (λ made. asked made ≡ c.disabled_child) }
{
    let below = along(alloc, Way::Parent, disabled_self(alloc, "fieldset")?)?;
    both(alloc, below, negated(alloc, first_legend(alloc)?)?)
}

// Such a child, or an element below it.
#[tactic(auto, unfolding(crate::specs::Controls::in_disabled_fieldset))]
fn in_disabled_fieldset(alloc: Global) -> Result<Formula, AllocError>
    ensures { IfOk result (λ made. asked made ≡ c.in_disabled_fieldset) }
{
    let above = along(alloc, Way::Ancestor, disabled_child(alloc)?)?;
    either(alloc, disabled_child(alloc)?, above)
}

// An element that a `fieldset` disables.
#[tactic(auto, unfolding(crate::specs::Controls::control))]
fn control(alloc: Global) -> Result<Formula, AllocError>
    ensures { IfOk result (λ made. asked made ≡ c.control) }
{
    let mut one = either(alloc, typed(alloc, "textarea")?, typed(alloc, "fieldset")?)?;
    one = either(alloc, typed(alloc, "select")?, one)?;
    one = either(alloc, typed(alloc, "input")?, one)?;
    either(alloc, typed(alloc, "button")?, one)
}

#[tactic(auto, unfolding(crate::specs::Controls::control, crate::specs::Controls::disabled_control))]
fn disabled_control(alloc: Global) -> Result<Formula, AllocError>
    ensures { IfOk result (λ made. asked made ≡ c.disabled_control) }
{
    let by_any = either(alloc, has(alloc, "disabled")?, in_disabled_fieldset(alloc)?)?;
    both(alloc, control(alloc)?, by_any)
}

fn disabled_group(alloc: Global) -> Result<Formula, AllocError>
    ensures { IfOk result (λ made. asked made ≡ c.disabled_group) }
{
    both(alloc, typed(alloc, "optgroup")?, has(alloc, "disabled")?)
}

// An `option` that is disabled by itself or by its parent.
fn disabled_option(alloc: Global) -> Result<Formula, AllocError>
    ensures { IfOk result (λ made. asked made ≡ c.disabled_option) }
{
    let by_parent = along(alloc, Way::Parent, disabled_self(alloc, "optgroup")?)?;
    let by_any = either(alloc, has(alloc, "disabled")?, by_parent)?;
    both(alloc, typed(alloc, "option")?, by_any)
}

/// The condition of `:disabled`.
#[tactic(auto, unfolding(crate::specs::Controls::disabled))]
pub(crate) fn disabled(alloc: Global) -> Result<Formula, AllocError>
    ensures { IfOk result (λ made. asked made ≡ c.disabled) }
{
    let others = either(alloc, disabled_group(alloc)?, disabled_option(alloc)?)?;
    let one = either(alloc, disabled_control(alloc)?, others)?;
    html(alloc, one)
}

/// The condition of `:enabled`.
#[tactic(auto, unfolding(crate::specs::Controls::enabled))]
pub(crate) fn enabled(alloc: Global) -> Result<Formula, AllocError>
    ensures { IfOk result (λ made. asked made ≡ c.enabled) }
{
    let others = either(alloc, typed(alloc, "optgroup")?, typed(alloc, "option")?)?;
    let one = either(alloc, control(alloc)?, others)?;
    let all = both(alloc, one, negated(alloc, disabled(alloc)?)?)?;
    html(alloc, all)
}
