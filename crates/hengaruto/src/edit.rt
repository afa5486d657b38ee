//! Edits a page as the options of `edit` say.
use super::fault::Fault;
use super::output::Refused;
use super::select::tell_selector;
use clap::ArgMatches;
use html_tree_builder::edit::{Edit, EditFault, edit_node};
use html_tree_builder::select::Selector;
use html_tree_builder::token::BuildFault;
use html_tree_builder::{Arena, NodeId, ParseOpts, Parser, parse_fragment_for_element};
use std::alloc::{AllocError, Global};
use std::mem;

// What an option does at each element that its selector matches.
#[derive(Clone, Copy)]
enum Action {
    Remove,
    Unwrap,
    Set,
    Unset,
    Text,
    Before,
    After,
    Append,
    Prepend,
}

const OPTIONS: [(&str, Action); 9] = [
    ("remove", Action::Remove),
    ("unwrap", Action::Unwrap),
    ("set", Action::Set),
    ("unset", Action::Unset),
    ("text", Action::Text),
    ("before", Action::Before),
    ("after", Action::After),
    ("append", Action::Append),
    ("prepend", Action::Prepend),
];

/// An edit that the command line asks for.
#[derive(Drop)]
pub struct Change<'a> {
    // Where it is on the command line, from 1: edits are applied in this order.
    at: usize,
    selector: Selector,
    action: Action,
    // The second and the third value of its option; empty if there is none.
    name: &'a str,
    value: &'a str,
}

// A use of an option, with its values.
fn change_of<'a>(
    rt: &HostRuntime,
    action: Action,
    at: usize,
    values: &[&'a str],
) -> Result<Change<'a>, Refused> {
    let text = values.first().copied().unwrap_or("");
    match Selector::parse(rt.alloc(), text) {
        Ok(selector) => Ok(Change {
            at,
            selector,
            action,
            name: values.get(1).copied().unwrap_or(""),
            value: values.get(2).copied().unwrap_or(""),
        }),
        Err(fault) => Err(Refused {
            status: tell_selector(rt, text, &fault),
        }),
    }
}

// Adds the uses of an option.
fn add_uses<'a>(
    rt: &HostRuntime,
    matches: &ArgMatches<'a>,
    name: &str,
    action: Action,
    changes: &mut Vec<Change<'a>>,
) -> Result<(), Refused> {
    let (Some(uses), Some(places)) = (matches.get_raw_occurrences(name), matches.indices_of(name))
    else {
        return Ok(());
    };
    let mut left = places;
    for values in uses {
        let at = left.first().copied().unwrap_or(0);
        let change = change_of(rt, action, at, values)?;
        if changes.push(change).is_err() {
            return Err(Refused::memory(rt));
        }
        left = left.get(values.len()..).unwrap_or(&[]);
    }
    Ok(())
}

/// The edits that options ask for. Refused if a selector is invalid.
pub fn changes_by<'a>(
    rt: &HostRuntime,
    matches: &ArgMatches<'a>,
) -> Result<Vec<Change<'a>>, Refused> {
    let mut changes = Vec::new(rt.alloc());
    for (name, action) in &OPTIONS {
        add_uses(rt, matches, name, *action, &mut changes)?;
    }
    Ok(changes)
}

// An edit has no other error at an element that is still in the tree; at one that was removed by the same edit, nothing is done.
fn done(edited: Result<(), EditFault>) -> Result<(), AllocError> {
    match edited {
        Err(EditFault::Memory) => Err(AllocError),
        _ => Ok(()),
    }
}

// A parser of the contents of an element. `None` if the node isn't an element.
fn parser_in(
    alloc: Global,
    arena: Arena,
    element: NodeId,
    scripting_enabled: bool,
) -> Result<Option<Parser<Arena>>, BuildFault> {
    if !arena.holds(element) || arena.name(element).is_none() {
        return Ok(None);
    }
    let mut opts = ParseOpts::default();
    opts.tree_builder.scripting_enabled = scripting_enabled;
    opts.tree_builder.quirks_mode = arena.quirks();
    let parser = parse_fragment_for_element(alloc, arena, opts, element, scripting_enabled, None)?;
    Ok(Some(parser))
}

// Parses HTML as the contents of an element, and returns the root that has its nodes.
fn parsed_in(
    alloc: Global,
    arena: &mut Arena,
    element: NodeId,
    html: &str,
    scripting_enabled: bool,
) -> Result<Option<NodeId>, Fault> {
    let whole = mem::replace(arena, Arena::without_errors(alloc)?);
    if !whole.holds(element) || whole.name(element).is_none() {
        *arena = whole;
        return Ok(None);
    }
    let Some(parser) = parser_in(alloc, whole, element, scripting_enabled)? else {
        return Ok(None);
    };
    *arena = parser.one(html)?;
    Ok(arena.fragment_root())
}

// The element in which HTML is parsed: the parent of what is inserted, if that is an element.
fn context_of(arena: &Arena, id: NodeId, action: Action) -> NodeId {
    if !matches!(action, Action::Before | Action::After) || !arena.holds(id) {
        return id;
    }
    match arena.parent(id) {
        Some(parent) if arena.holds(parent) && arena.name(parent).is_some() => parent,
        _ => id,
    }
}

// Inserts the nodes of a fragment at an element.
fn insert_nodes(
    alloc: Global,
    arena: &mut Arena,
    id: NodeId,
    action: Action,
    from: NodeId,
) -> Result<(), EditFault> {
    if !arena.holds(id) || !arena.holds(from) {
        return Ok(());
    }
    match action {
        Action::Before => edit_node(alloc, arena, id, &Edit::InsertBefore { from }),
        Action::After => edit_node(alloc, arena, id, &Edit::InsertAfter { from }),
        Action::Prepend => edit_node(alloc, arena, id, &Edit::Prepend { from }),
        _ => edit_node(alloc, arena, id, &Edit::Append { from }),
    }
}

fn remove(alloc: Global, arena: &mut Arena, id: NodeId) -> Result<(), EditFault> {
    if arena.holds(id) {
        edit_node(alloc, arena, id, &Edit::Remove)
    } else {
        Ok(())
    }
}

// Inserts HTML at an element.
fn insert_html(
    alloc: Global,
    arena: &mut Arena,
    id: NodeId,
    change: &Change<'_>,
    scripting_enabled: bool,
) -> Result<(), Fault> {
    let context = context_of(arena, id, change.action);
    let Some(from) = parsed_in(alloc, arena, context, change.name, scripting_enabled)? else {
        return Ok(());
    };
    done(insert_nodes(alloc, arena, id, change.action, from))?;
    done(remove(alloc, arena, from))?;
    Ok(())
}

// Edits an element without new HTML.
fn edit_alone(
    alloc: Global,
    arena: &mut Arena,
    id: NodeId,
    change: &Change<'_>,
) -> Result<(), EditFault> {
    if !arena.holds(id) {
        return Ok(());
    }
    let (name, value) = (change.name, change.value);
    match change.action {
        Action::Remove => edit_node(alloc, arena, id, &Edit::Remove),
        Action::Unwrap => edit_node(alloc, arena, id, &Edit::Unwrap),
        Action::Set => edit_node(alloc, arena, id, &Edit::SetAttribute { name, value }),
        Action::Unset => edit_node(alloc, arena, id, &Edit::RemoveAttribute { name }),
        _ => edit_node(alloc, arena, id, &Edit::SetText { text: name }),
    }
}

// Edits each of these elements.
fn edit_each(
    alloc: Global,
    arena: &mut Arena,
    found: &[NodeId],
    change: &Change<'_>,
    scripting_enabled: bool,
) -> Result<(), Fault> {
    for id in found {
        match change.action {
            Action::Before | Action::After | Action::Append | Action::Prepend => {
                insert_html(alloc, arena, *id, change, scripting_enabled)?;
            }
            _ => done(edit_alone(alloc, arena, *id, change))?,
        }
    }
    Ok(())
}

// The first of these changes on the command line that comes after a place.
fn next_after<'c, 'a>(changes: &'c [Change<'a>], place: usize) -> Option<&'c Change<'a>> {
    let mut next: Option<&'c Change<'a>> = None;
    for change in changes {
        let is_nearer = match next {
            Some(nearest) => change.at < nearest.at,
            None => true,
        };
        if change.at > place && is_nearer {
            next = Some(change);
        }
    }
    next
}

/// Applies edits in the order of the command line, each at the elements that its selector then matches.
pub fn apply(
    alloc: Global,
    arena: &mut Arena,
    changes: &[Change<'_>],
    scripting_enabled: bool,
) -> Result<(), Fault> {
    let mut place = 0;
    for _ in 0..changes.len() {
        let Some(change) = next_after(changes, place) else {
            return Ok(());
        };
        place = change.at;
        let found = change.selector.select(arena, arena.document())?;
        edit_each(alloc, arena, found.as_slice(), change, scripting_enabled)?;
    }
    Ok(())
}
