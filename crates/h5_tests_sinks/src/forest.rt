//! Tests by the reading calls of an arena that its nodes are a forest.
use h5_arena::{Arena, Child, NodeId};

// The number of times that a node occurs among children.
fn count_of(children: &[Child], id: NodeId) -> usize {
    children
        .iter()
        .filter(|child| matches!(child, Child::Node(node) if *node == id))
        .count()
}

// Returns true if no text is empty, and no text directly follows another.
fn are_parted(children: &[Child]) -> bool {
    let mut behind_text = false;
    for child in children {
        let is_text = match child {
            Child::Text(text) => !text.is_empty(),
            Child::Node(_) => false,
        };
        if behind_text && is_text || matches!(child, Child::Text(_)) && !is_text {
            return false;
        }
        behind_text = is_text;
    }
    true
}

// Returns true if the way up from a node ends.
fn has_top(arena: &Arena, id: NodeId) -> bool {
    let mut node = id;
    for _ in 0..=arena.len() {
        if !arena.holds(node) {
            return false;
        }
        match arena.parent(node) {
            Some(parent) => node = parent,
            None => return true,
        }
    }
    false
}

// Returns true if this is the parent of a node, which occurs once among its children.
fn hangs_once(arena: &Arena, parent: NodeId, id: NodeId) -> bool {
    if !arena.holds(id) || !arena.holds(parent) {
        return false;
    }
    arena.parent(id) == Some(parent) && count_of(arena.children(parent), id) == 1
}

// Returns true if a node and its children are as in a forest.
fn is_in_forest(arena: &Arena, id: NodeId) -> bool {
    if !arena.holds(id) {
        return false;
    }
    let children = arena.children(id);
    if !are_parted(children) || !has_top(arena, id) {
        return false;
    }
    for child in children {
        if let Child::Node(node) = child {
            if !hangs_once(arena, id, *node) {
                return false;
            }
        }
    }
    true
}

/// Returns true if each child has its parent and occurs once among its children, no node is its own ancestor, no text is empty, and no two
/// texts are neighbours.
pub fn is_forest(arena: &Arena) -> bool {
    for index in 0..arena.len() {
        match arena.id(index) {
            Some(id) if is_in_forest(arena, id) => {}
            _ => return false,
        }
    }
    true
}
