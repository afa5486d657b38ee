//! A policy in TOML.
use super::checks::check;
use super::fault::PolicyFault;
use super::named::{GITHUB, TEXT};
use html_tree_builder::clean::{AllowList, Around, Kind, is_prefix, is_refused, kind_of};
use std::alloc::{AllocError, Global};
use toml::{Table, Value};

// The elements that are dropped with their content if the key `dropped` is missing.
const DROPPED: &[&str] = &[
    "script",
    "style",
    "template",
    "iframe",
    "object",
    "embed",
    "applet",
    "noscript",
    "noembed",
    "noframes",
    "xmp",
    "plaintext",
    "textarea",
    "title",
    "select",
    "head",
    "frameset",
    "audio",
    "video",
    "canvas",
];

// The other elements of HTML that can't be allowed.
const OTHERS: &[&str] = &[
    "acronym",
    "area",
    "base",
    "basefont",
    "bgsound",
    "blink",
    "body",
    "button",
    "command",
    "datalist",
    "form",
    "frame",
    "html",
    "image",
    "input",
    "isindex",
    "keygen",
    "legend",
    "link",
    "listing",
    "map",
    "marquee",
    "math",
    "menuitem",
    "meta",
    "multicol",
    "nextid",
    "nobr",
    "optgroup",
    "option",
    "param",
    "picture",
    "rb",
    "rtc",
    "search",
    "selectedcontent",
    "slot",
    "source",
    "spacer",
    "svg",
    "track",
];

// The greatest depth of elements, which leaves room for the elements of a page: browsers flatten what is nested deeper than 512.
const DEEPEST: u16 = 448;

// The keys that have a list of names.
#[derive(Clone, Copy)]
enum NameKey {
    Elements,
    Dropped,
    Attributes,
    Urls,
    Schemes,
}

// The error for a reason, which takes memory to be written.
pub(crate) fn wrong(reason: Result<String, AllocError>) -> PolicyFault {
    match reason {
        Ok(reason) => PolicyFault::Wrong(reason),
        Err(_) => PolicyFault::Memory,
    }
}

// The error for a key whose value has another type.
fn mismatch(alloc: Global, key: &str, wanted: &str) -> PolicyFault {
    wrong(format!(in alloc; "`{key}` must be {wanted}"))
}

// The line of a text, from 1, at this offset.
fn line_at(text: &[u8], place: usize) -> usize {
    let lines = text.iter().take(place).filter(|b| **b == b'\n').count();
    lines.saturating_add(1)
}

// The error for one of the TOML parser, which has no span only if an allocation failed.
fn reader_fault(text: &[u8], error: toml::de::Error) -> PolicyFault {
    match error.span() {
        Some(span) => PolicyFault::Toml(line_at(text, span.start), error),
        None => PolicyFault::Memory,
    }
}

// The items of a list.
fn items_of<'a>(alloc: Global, key: &str, value: &'a Value) -> Result<&'a [Value], PolicyFault> {
    match value {
        Value::Array(items) => Ok(items.as_slice()),
        _ => Err(mismatch(alloc, key, "an array of strings")),
    }
}

// Refuses a name that isn't in lower case, which no tag or attribute would match.
fn in_lower_case(alloc: Global, name: &str) -> Result<&str, PolicyFault> {
    if name.bytes().any(|byte| byte.is_ascii_uppercase()) {
        return Err(wrong(format!(in alloc; "\"{name}\" must be in lower case")));
    }
    Ok(name)
}

// The name in an item of a list.
fn name_of<'a>(alloc: Global, key: &str, item: &'a Value) -> Result<&'a str, PolicyFault> {
    match item {
        Value::String(name) if name.is_empty() => {
            Err(wrong(format!(in alloc; "`{key}` has an empty name")))
        }
        Value::String(name) => in_lower_case(alloc, name.as_str()),
        _ => Err(mismatch(alloc, key, "an array of strings")),
    }
}

// Refuses an element that has no kind: the sanitizer can't write it safely.
fn ask_for_kind(alloc: Global, name: &str) -> Result<(), PolicyFault> {
    if kind_of(name) == Kind::Unknown {
        return Err(wrong(format!(in alloc; "element \"{name}\" can't be allowed")));
    }
    Ok(())
}

// Allows an element, if it has a kind.
fn add_element(alloc: Global, policy: &mut AllowList, name: &str) -> Result<(), PolicyFault> {
    ask_for_kind(alloc, name)?;
    Ok(policy.add_element(name)?)
}

// Returns true if a name is one of these.
fn is_one_of(names: &[&str], name: &str) -> bool {
    names.iter().any(|other| *other == name)
}

// Returns true if a name is that of an element of HTML, or of a custom element, which has a hyphen.
fn is_element(name: &str) -> bool {
    kind_of(name) != Kind::Unknown
        || name.contains('-')
        || is_one_of(DROPPED, name)
        || is_one_of(OTHERS, name)
}

// Drops an element with its content, if HTML has it.
fn drop_element(alloc: Global, policy: &mut AllowList, name: &str) -> Result<(), PolicyFault> {
    if !is_element(name) {
        return Err(wrong(format!(in alloc; "unknown element \"{name}\"")));
    }
    Ok(policy.drop_element(name)?)
}

// Refuses an attribute that no policy allows.
fn ask_for_attribute(alloc: Global, name: &str) -> Result<(), PolicyFault> {
    if is_refused(name) {
        return Err(wrong(format!(in alloc; "attribute \"{name}\" can't be allowed")));
    }
    Ok(())
}

// Returns true if no attribute that begins so has a meaning in HTML that a page could suffer from.
fn is_harmless_prefix(prefix: &str) -> bool {
    prefix.starts_with("data-") || prefix.starts_with("aria-")
}

// Allows the attributes of a pattern, such as `data-*`, on each element.
fn add_attribute_prefix(
    alloc: Global,
    policy: &mut AllowList,
    prefix: &str,
) -> Result<(), PolicyFault> {
    if !is_harmless_prefix(prefix) {
        return Err(wrong(format!(in alloc;
            "attributes \"{prefix}*\" can't be allowed: expected data-* or aria-*"
        )));
    }
    Ok(policy.add_attribute_prefix(prefix)?)
}

// Allows an attribute on each element, or all of a pattern.
fn add_attribute(alloc: Global, policy: &mut AllowList, name: &str) -> Result<(), PolicyFault> {
    if let Some(prefix) = name.strip_suffix('*') {
        return add_attribute_prefix(alloc, policy, prefix);
    }
    ask_for_attribute(alloc, name)?;
    Ok(policy.add_attribute(name)?)
}

// Returns true if a name is the scheme of a URL: a letter, and then letters, digits, '+', '-' and '.'.
fn is_scheme(name: &str) -> bool {
    name.starts_with(|c: char| c.is_ascii_lowercase())
        && name.bytes().all(|byte| {
            byte.is_ascii_lowercase() || byte.is_ascii_digit() || matches!(byte, b'+' | b'-' | b'.')
        })
}

// Allows a scheme of URLs, unless it is one of scripts.
fn add_scheme(alloc: Global, policy: &mut AllowList, name: &str) -> Result<(), PolicyFault> {
    if matches!(name, "javascript" | "vbscript") {
        return Err(wrong(format!(in alloc; "scheme \"{name}\" can't be allowed")));
    }
    if !is_scheme(name) {
        return Err(wrong(format!(in alloc;
            "invalid scheme \"{name}\": expected a name such as https"
        )));
    }
    Ok(policy.add_scheme(name)?)
}

// Adds a name to the list of a key.
fn add_name(
    alloc: Global,
    policy: &mut AllowList,
    list: NameKey,
    name: &str,
) -> Result<(), PolicyFault> {
    match list {
        NameKey::Elements => add_element(alloc, policy, name),
        NameKey::Dropped => drop_element(alloc, policy, name),
        NameKey::Attributes => add_attribute(alloc, policy, name),
        NameKey::Urls => Ok(policy.add_url_attribute(name)?),
        NameKey::Schemes => add_scheme(alloc, policy, name),
    }
}

// Adds the names of a key.
fn add_names(
    alloc: Global,
    policy: &mut AllowList,
    list: NameKey,
    key: &str,
    value: &Value,
) -> Result<(), PolicyFault> {
    for item in items_of(alloc, key, value)? {
        add_name(alloc, policy, list, name_of(alloc, key, item)?)?;
    }
    Ok(())
}

// Adds the attributes of an element, under this key.
fn add_attributes_at(
    alloc: Global,
    policy: &mut AllowList,
    place: &str,
    element: &str,
    value: &Value,
) -> Result<(), PolicyFault> {
    for item in items_of(alloc, place, value)? {
        let name = name_of(alloc, place, item)?;
        ask_for_attribute(alloc, name)?;
        policy.add_attribute_for(element, name)?;
    }
    Ok(())
}

// Adds the attributes of an element.
fn add_attributes(
    alloc: Global,
    policy: &mut AllowList,
    element: &str,
    value: &Value,
) -> Result<(), PolicyFault> {
    ask_for_kind(alloc, element)?;
    let place = format!(in alloc; "attributes-of.{element}")?;
    add_attributes_at(alloc, policy, place.as_str(), element, value)
}

// Adds the attributes of each element of a table.
fn add_attributes_of(
    alloc: Global,
    policy: &mut AllowList,
    value: &Value,
) -> Result<(), PolicyFault> {
    let Value::Table(table) = value else {
        return Err(mismatch(alloc, "attributes-of", "a table"));
    };
    for (element, attributes) in table {
        add_attributes(alloc, policy, element.as_str(), attributes)?;
    }
    Ok(())
}

// Adds the prefixes of classes. A class may have capitals, but no whitespace.
fn add_classes(alloc: Global, policy: &mut AllowList, value: &Value) -> Result<(), PolicyFault> {
    for item in items_of(alloc, "classes", value)? {
        match item {
            Value::String(prefix) if !prefix.is_empty() && is_prefix(prefix.as_str()) => {
                policy.add_class_prefix(prefix.as_str())?;
            }
            _ => {
                return Err(mismatch(
                    alloc,
                    "classes",
                    "an array of strings that aren't empty and have no whitespace",
                ));
            }
        }
    }
    Ok(())
}

// Sets whether URLs may be relative.
fn set_relative(alloc: Global, policy: &mut AllowList, value: &Value) -> Result<(), PolicyFault> {
    match value {
        Value::Boolean(true) => Ok(()),
        Value::Boolean(false) => {
            policy.deny_relative();
            Ok(())
        }
        _ => Err(mismatch(alloc, "relative", "true or false")),
    }
}

// Sets the attribute `rel` of links.
fn set_rel(alloc: Global, policy: &mut AllowList, value: &Value) -> Result<(), PolicyFault> {
    match value {
        Value::String(rel) => Ok(policy.set_rel(rel.as_str())?),
        _ => Err(mismatch(alloc, "rel", "a string")),
    }
}

// Sets the prefix of ids and names.
fn set_id_prefix(alloc: Global, policy: &mut AllowList, value: &Value) -> Result<(), PolicyFault> {
    match value {
        Value::String(prefix) if !prefix.is_empty() && is_prefix(prefix.as_str()) => {
            Ok(policy.set_id_prefix(prefix.as_str())?)
        }
        _ => Err(mismatch(
            alloc,
            "prefix",
            "a string that isn't empty and has no whitespace",
        )),
    }
}

// Sets which elements may be open around the cleaned text.
fn set_place(alloc: Global, policy: &mut AllowList, value: &Value) -> Result<(), PolicyFault> {
    let around = match value {
        Value::String(place) => match place.as_str() {
            "flow" => Some(Around::nothing()),
            "items" => Some(Around::items()),
            "link" => Some(Around::link()),
            "line" => Some(Around::line()),
            _ => None,
        },
        _ => None,
    };
    match around {
        Some(around) => {
            policy.set_around(around);
            Ok(())
        }
        None => Err(mismatch(alloc, "place", "\"flow\", \"items\", \"link\" or \"line\"")),
    }
}

// Sets how deep elements may be nested.
fn set_depth(alloc: Global, policy: &mut AllowList, value: &Value) -> Result<(), PolicyFault> {
    if let Value::Integer(depth) = value
        && let Ok(depth) = u16::try_from(*depth)
        && depth <= DEEPEST
    {
        policy.set_depth(usize::from(depth));
        return Ok(());
    }
    Err(mismatch(
        alloc,
        "depth",
        "an integer from 0 to 448 (browsers flatten what is nested deeper than 512)",
    ))
}

// Sets the value of a key.
fn set(alloc: Global, policy: &mut AllowList, key: &str, value: &Value) -> Result<(), PolicyFault> {
    match key {
        "elements" => add_names(alloc, policy, NameKey::Elements, key, value),
        "dropped" => add_names(alloc, policy, NameKey::Dropped, key, value),
        "attributes" => add_names(alloc, policy, NameKey::Attributes, key, value),
        "urls" => add_names(alloc, policy, NameKey::Urls, key, value),
        "schemes" => add_names(alloc, policy, NameKey::Schemes, key, value),
        "attributes-of" => add_attributes_of(alloc, policy, value),
        "classes" => add_classes(alloc, policy, value),
        "relative" => set_relative(alloc, policy, value),
        "rel" => set_rel(alloc, policy, value),
        "prefix" => set_id_prefix(alloc, policy, value),
        "place" => set_place(alloc, policy, value),
        "depth" => set_depth(alloc, policy, value),
        _ => Err(wrong(format!(in alloc; "unknown key `{key}`"))),
    }
}

// Sets the values of all keys of a table.
fn set_each(alloc: Global, policy: &mut AllowList, table: &Table) -> Result<(), PolicyFault> {
    for (key, value) in table {
        set(alloc, policy, key.as_str(), value)?;
    }
    if !table.contains_key("elements") {
        return Err(wrong(format!(in alloc; "missing key `elements`")));
    }
    if !table.contains_key("dropped") {
        for name in DROPPED {
            policy.drop_element(name)?;
        }
    }
    Ok(())
}

// The policy of a table.
fn policy_by(alloc: Global, table: &Table) -> Result<AllowList, PolicyFault> {
    let mut policy = AllowList::new(alloc);
    set_each(alloc, &mut policy, table)?;
    check(alloc, table)?;
    Ok(policy)
}

// The text between the first two of these quotes.
fn between(reason: &str, quote: char) -> Option<&str> {
    let (_, behind) = reason.split_once(quote)?;
    let (word, _) = behind.split_once(quote)?;
    Some(word)
}

// The key or the name that a reason is about.
fn subject_of(reason: &str) -> Option<&str> {
    match between(reason, '`') {
        Some(key) => key.rsplit('.').next(),
        None => between(reason, '"'),
    }
}

// Returns true if a line has a word that no other character of a name is next to.
fn has_word(line: &str, word: &str) -> bool {
    line.split(|c: char| !(c.is_alphanumeric() || matches!(c, '-' | '_' | ':' | '*')))
        .any(|part| part == word)
}

// The first line of a text, from 1, that has this word.
fn line_with(text: &[u8], word: &str) -> Option<usize> {
    let text = str::from_utf8(text).ok()?;
    for (above, line) in text.lines().enumerate() {
        if has_word(line, word) {
            return Some(above.saturating_add(1));
        }
    }
    None
}

// The error for a reason, with the first line that has its subject.
fn placed(text: &[u8], reason: String) -> PolicyFault {
    match subject_of(reason.as_str()).and_then(|word| line_with(text, word)) {
        Some(line) => PolicyFault::WrongAt(line, reason),
        None => PolicyFault::Wrong(reason),
    }
}

/// The policy of a text in TOML. Fails with the reason, and the line if it is known, if the text isn't a policy; with `Memory` if an
/// allocation fails.
pub fn policy_of(alloc: Global, text: &[u8]) -> Result<AllowList, PolicyFault> {
    match toml::table_from_slice(alloc, text) {
        Ok(table) => match policy_by(alloc, &table) {
            Err(PolicyFault::Wrong(reason)) => Err(placed(text, reason)),
            answer => answer,
        },
        Err(error) => Err(reader_fault(text, error)),
    }
}

/// The policy of this name, or `None` if there is no such policy. Fails with `Memory` if an allocation fails.
pub fn policy_named(alloc: Global, name: &str) -> Result<Option<AllowList>, PolicyFault> {
    match name {
        "github" => Ok(Some(policy_of(alloc, GITHUB.as_bytes())?)),
        "text" => Ok(Some(policy_of(alloc, TEXT.as_bytes())?)),
        _ => Ok(None),
    }
}
