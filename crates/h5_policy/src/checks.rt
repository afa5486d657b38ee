//! What the keys of a policy have to agree in.
use super::fault::PolicyFault;
use super::policy::wrong;
use html_tree_builder::clean::may_act;
use std::alloc::Global;
use toml::{Table, Value};

// Returns true if an item of a list is this name.
fn is_name(item: &Value, name: &str) -> bool {
    match item {
        Value::String(text) => text.as_str() == name,
        _ => false,
    }
}

// The items of the list of a key; none if the key is missing.
fn items_of<'a>(table: &'a Table, key: &str) -> &'a [Value] {
    match table.get(key) {
        Some(Value::Array(items)) => items.as_slice(),
        _ => &[],
    }
}

// Returns true if an element is allowed.
fn is_allowed(table: &Table, element: &str) -> bool {
    items_of(table, "elements")
        .iter()
        .any(|item| is_name(item, element))
}

// No element is both allowed and dropped.
fn check_dropped(alloc: Global, table: &Table) -> Result<(), PolicyFault> {
    for item in items_of(table, "dropped") {
        if let Value::String(name) = item
            && is_allowed(table, name.as_str())
        {
            return Err(wrong(format!(in alloc; "element \"{name}\" is both allowed and dropped")));
        }
    }
    Ok(())
}

// Returns true if an attribute can name or use an element of the page around the text, unless ids have a prefix.
fn needs_prefix(name: &str) -> bool {
    matches!(name, "id" | "name") || !may_act("", name)
}

// No attribute in a list needs a prefix.
fn check_names(alloc: Global, items: &[Value]) -> Result<(), PolicyFault> {
    for item in items {
        if let Value::String(name) = item
            && needs_prefix(name.as_str())
        {
            return Err(wrong(format!(in alloc;
                "attribute \"{name}\" can be allowed with a prefix only"
            )));
        }
    }
    Ok(())
}

// Attributes are those of elements that are allowed, and none needs a prefix if there is none.
fn check_attributes_of(alloc: Global, table: &Table, has_prefix: bool) -> Result<(), PolicyFault> {
    let Some(Value::Table(elements)) = table.get("attributes-of") else {
        return Ok(());
    };
    for (element, attributes) in elements {
        if !is_allowed(table, element.as_str()) {
            return Err(wrong(format!(in alloc; "element \"{element}\" is not allowed")));
        }
        if let Value::Array(items) = attributes
            && !has_prefix
        {
            check_names(alloc, items.as_slice())?;
        }
    }
    Ok(())
}

/// Fails with the reason if the keys of a table, each of which is right, contradict each other; with `Memory` if an allocation fails.
pub fn check(alloc: Global, table: &Table) -> Result<(), PolicyFault> {
    let has_prefix = table.contains_key("prefix");
    check_dropped(alloc, table)?;
    if !has_prefix {
        check_names(alloc, items_of(table, "attributes"))?;
    }
    check_attributes_of(alloc, table, has_prefix)
}
