//! The attributes that are left.
ghost use Rattle.std.specs.Prelude.{◌≡◌, ◌∷◌, ◌++◌, ◌&&◌, [], List, Some, map, not, true, IfOk, OnOk, option_copied, string_bytes};
ghost use Rattle.std.specs.List.{list_all, list_any};
ghost use Rattle.std.specs.Iterator.{Drains, IsFinite};
ghost use Rattle.h5_names.specs.AttributeText.{attribute_text, attribute_texts, is_same_name};
ghost use Rattle.h5_interface.specs.Changes.{has_attribute};
ghost use Rattle.h5_tables.specs.TagSets.{is_one_of};
ghost use Rattle.h5_round_trip.specs.Readable.{is_name_byte};
ghost use Rattle.h5_clean.specs.Policies.{acting_names, as_left, attributes_left, bare, classes_left, fragment_prefixed, id_list_names, id_names, is_name, is_prefix_byte, is_refused, keeps, left_behind, link_prefixed, may_act, may_stay, named_behind, prefix_of, prefixed, refused_names, rel_of, sets, stays, value_left, with_classes, words_prefixed};
ghost use Rattle.h5_clean.specs.Texts.{readable};

use super::lists::{ACTING, ID_LISTS, IDS, REFUSED, is_among};
use super::name_list::begins_with;
use super::policy::Policy;
use super::texts::{readable, text_of_bytes};
use super::urls::is_script;
use h5_names::{Attribute, LocalName, Namespace, QualName};
use h5_serialize::AttrRef;
use std::alloc::{AllocError, Global};

// A byte of a name that is read back as it was written.
fn is_name_byte(b: u8) -> bool
    ensures { result ≡ is_name_byte b }
{
    !(b.is_ascii_uppercase()
        || b.is_ascii_whitespace()
        || matches!(b, b'/' | b'>' | b'=' | b'"' | b'\'' | b'<' | 0))
}

fn are_name_bytes(text: &str) -> bool
    ensures { result ≡ list_all is_name_byte text.now }
{
    text.as_bytes().iter().all(|b| is_name_byte(*b))
}

// The name is read back as it was written.
fn is_name(name: &str) -> bool
    ensures { result ≡ is_name name.now }
{
    !name.is_empty() && are_name_bytes(name)
}

// The name is this one, without prefix and namespace.
fn is_bare(name: &QualName, local: &LocalName) -> bool
    ensures { result ≡ is_same_name name.now (bare local.now) }
{
    name.prefix.is_none() && name.ns == Namespace::none() && name.local == *local
}

fn any_is_bare(attrs: &[Attribute], local: &LocalName) -> bool
    ensures { result ≡ list_any (λ a. is_same_name (attribute_text a).name (bare local.now)) attrs.now }
{
    attrs.iter().any(|attr| is_bare(&attr.name, local))
}

// One of the attributes has this name.
fn has_name(attrs: &[Attribute], local: &LocalName) -> bool
    ensures { result ≡ has_attribute (bare local.now) (attribute_texts attrs.now) }
{
    any_is_bare(attrs, local)
}

// The policy sets this attribute.
fn sets<P: Policy>(policy: &P, element: &str, local: &str) -> bool
    ensures { result ≡ sets (P.rules policy.now) element.now local.now }
{
    element == "a" && local == "rel" && policy.rel().is_some()
}

// The attribute holds a page, a style, a secret, or a list of URLs, or turns an element into another, or uses a map of
// the page.
#[tactic(auto, unfolding(crate::specs::Policies::refused_names))]
fn is_refused_name(local: &str) -> bool
    ensures { result ≡ is_one_of refused_names local.now }
{
    is_among(&REFUSED, local)
}

/// Returns true if an attribute of this name is never allowed, regardless of the policy: event handlers, styles and
/// others.
pub fn is_refused(local: &str) -> bool
    ensures { result ≡ is_refused local.now }
{
    local.starts_with("on") || is_refused_name(local)
}

// By this attribute an element acts on another one of the page.
#[tactic(auto, unfolding(crate::specs::Policies::acting_names))]
fn is_acting_name(local: &str) -> bool
    ensures { result ≡ is_one_of acting_names local.now }
{
    is_among(&ACTING, local)
}

/// Returns true if an attribute of this name is allowed with this prefix of ids. An attribute by which an element acts
/// on another one, such as `for`, is never allowed without a prefix: it could act on an element of the page around the
/// text.
pub fn may_act(prefix: &str, local: &str) -> bool
    ensures { result ≡ may_act prefix.now local.now }
{
    !prefix.is_empty() || !is_acting_name(local)
}

fn may_stay(prefix: &str, local: &str) -> bool
    ensures { result ≡ is_name local.now && (not (is_refused local.now) && may_act prefix.now local.now) }
{
    is_name(local) && !is_refused(local) && may_act(prefix, local)
}

// The attribute has an id, or refers to one.
#[tactic(auto, unfolding(crate::specs::Policies::id_names))]
fn is_id_name(local: &str) -> bool
    ensures { result ≡ is_one_of id_names local.now }
{
    is_among(&IDS, local)
}

// The attribute refers to several ids.
#[tactic(auto, unfolding(crate::specs::Policies::id_list_names))]
fn is_id_list_name(local: &str) -> bool
    ensures { result ≡ is_one_of id_list_names local.now }
{
    is_among(&ID_LISTS, local)
}

fn is_prefix_byte(byte: u8) -> bool
    ensures { result ≡ is_prefix_byte byte }
{
    !(byte.is_ascii_whitespace() || byte == 0)
}

/// Returns true if a prefix has neither ASCII whitespace nor NUL, so that it can be put before a word.
pub fn is_prefix(prefix: &str) -> bool
    ensures { result ≡ list_all is_prefix_byte prefix.now }
{
    prefix.as_bytes().iter().all(|byte| is_prefix_byte(*byte))
}

// The prefix of a policy, or an empty text.
fn prefix_of<P: Policy>(policy: &P) -> &str
    ensures { result.now ≡ prefix_of (P.rules policy.now).prefix }
{
    match policy.prefix() {
        Some(prefix) if is_prefix(prefix) => prefix,
        _ => "",
    }
}

// The text, prefixed unless it already begins with the prefix.
fn prefixed(alloc: Global, prefix: &str, text: &str) -> Result<String, AllocError>
    ensures { IfOk result (λ made. string_bytes made ≡ prefixed prefix.now text.now) }
{
    if text.starts_with(prefix) {
        return String::from_str(alloc, text);
    }
    let mut made = String::from_str(alloc, prefix)?;
    made.push_str(text)?;
    Ok(made)
}

// The text with each word prefixed, unless it already begins with the prefix.
fn words_prefixed(alloc: Global, prefix: &[u8], mut rest: &[u8]) -> Result<Vec<u8>, AllocError>
    ensures { IfOk result (λ made. made.items ≡ words_prefixed prefix.now true rest.entry.now) }
{
    let mut made = Vec::new(alloc);
    let mut begins = true;
    while let [first, behind @ ..] = rest {
        let is_blank = first.is_ascii_whitespace();
        if begins && !is_blank && !rest.starts_with(prefix) {
            made.extend_from_slice(prefix)?;
        }
        made.push(*first)?;
        begins = is_blank;
        rest = behind;
    }
    Ok(made)
}

// Adds a link with the remainder after a leading '#' prefixed, if the remainder isn't empty.
fn push_fragment(made: &mut Vec<u8>, prefix: &[u8], link: &[u8]) -> Result<(), AllocError>
    ensures { OnOk result (made.new.items ≡ made.old.items ++ fragment_prefixed prefix.now link.now) }
{
    if let [first, id @ ..] = link
        && *first == b'#'
        && !id.is_empty()
        && !id.starts_with(prefix)
    {
        made.push(*first)?;
        made.extend_from_slice(prefix)?;
        made.extend_from_slice(id)?;
        return Ok(());
    }
    made.extend_from_slice(link)?;
    Ok(())
}

// The link, prefixed like that after leading C0 controls and spaces.
fn link_prefixed(alloc: Global, prefix: &[u8], mut rest: &[u8]) -> Result<Vec<u8>, AllocError>
    ensures { IfOk result (λ made. made.items ≡ link_prefixed prefix.now rest.entry.now) }
{
    let mut made = Vec::new(alloc);
    while let [first, behind @ ..] = rest
        && *first <= b' '
    {
        made.push(*first)?;
        rest = behind;
    }
    push_fragment(&mut made, prefix, rest)?;
    Ok(made)
}

// Adds a class, if it is left.
fn push_class(made: &mut Vec<u8>, prefixes: &[String], class: &[u8]) -> Result<(), AllocError>
    ensures { OnOk result
        (made.new.items ≡ with_classes (map string_bytes prefixes.now) made.old.items (class.now ∷ [])) }
{
    if class.is_empty() || !begins_with(prefixes, class) {
        return Ok(());
    }
    if !made.is_empty() {
        made.push(b' ')?;
    }
    made.extend_from_slice(class)?;
    Ok(())
}

// The classes that begin with one of the prefixes, with a space between them.
fn classes_with(alloc: Global, prefixes: &[String], mut rest: &[u8]) -> Result<Vec<u8>, AllocError>
    ensures { IfOk result (λ made. made.items ≡ classes_left (Some (map string_bytes prefixes.now)) rest.entry.now) }
{
    let mut made = Vec::new(alloc);
    let mut class = Vec::new(alloc);
    while let [first, behind @ ..] = rest {
        if first.is_ascii_whitespace() {
            push_class(&mut made, prefixes, class.as_slice())?;
            class.clear();
        } else {
            class.push(*first)?;
        }
        rest = behind;
    }
    push_class(&mut made, prefixes, class.as_slice())?;
    Ok(made)
}

// What a policy leaves of the classes of an element.
fn classes_left<P: Policy>(alloc: Global, policy: &P, text: &str) -> Result<String, AllocError>
    ensures { IfOk result (λ made. string_bytes made ≡ classes_left (P.rules policy.now).classes text.now) }
{
    match policy.class_prefixes() {
        Some(prefixes) => text_of_bytes(classes_with(alloc, prefixes, text.as_bytes())?),
        None => String::from_str(alloc, text),
    }
}

// The value, prefixed if the attribute has an id or refers to some, and with the classes that are left.
fn named_behind<P: Policy>(
    alloc: Global,
    policy: &P,
    prefix: &str,
    local: &str,
    text: &str,
) -> Result<String, AllocError>
    ensures { IfOk result (λ made. string_bytes made ≡ named_behind prefix.now (P.rules policy.now).classes local.now text.now) }
{
    if is_id_name(local) {
        prefixed(alloc, prefix, text)
    } else if is_id_list_name(local) {
        text_of_bytes(words_prefixed(alloc, prefix.as_bytes(), text.as_bytes())?)
    } else if local == "href" {
        text_of_bytes(link_prefixed(alloc, prefix.as_bytes(), text.as_bytes())?)
    } else if local == "class" {
        classes_left(alloc, policy, text)
    } else {
        String::from_str(alloc, text)
    }
}

// What is left of an attribute's value.
fn value_left<P: Policy>(
    alloc: Global,
    policy: &P,
    prefix: &str,
    local: &str,
    value: &str,
) -> Result<String, AllocError>
    ensures { IfOk result (λ made. string_bytes made ≡ named_behind prefix.now (P.rules policy.now).classes local.now (readable value.now)) }
{
    let text = readable(alloc, value)?;
    if prefix.is_empty() && local != "class" {
        return Ok(text);
    }
    named_behind(alloc, policy, prefix, local, text.as_str())
}

// The policy keeps an attribute whose value isn't a script.
fn keeps<P: Policy>(policy: &P, element: &str, local: &str, value: &str) -> bool
    ensures { result ≡ keeps (P.rules policy.now) element.now local.now value.now }
{
    !is_script(local, value) && policy.keeps_attribute(element, local, value)
}

// Adds an attribute, if it stays.
fn keep<P: Policy, T: AttrRef>(
    alloc: Global,
    policy: &P,
    element: &str,
    left: &mut Vec<Attribute>,
    attr: &T,
) -> Result<(), AllocError>
    ensures { OnOk result
        (attribute_texts left.new.items ≡ left_behind (P.rules policy.now) element.now (attribute_texts left.old.items) (T.attribute attr.now ∷ [])) }
{
    let name = attr.name();
    let local = name.local.as_str();
    let prefix = prefix_of(policy);
    if name.ns != Namespace::none() || !may_stay(prefix, local) {
        return Ok(());
    }
    let value = value_left(alloc, policy, prefix, local, attr.value())?;
    if keeps(policy, element, local, value.as_str())
        && !sets(policy, element, local)
        && !has_name(left.as_slice(), &name.local)
    {
        left.push(Attribute {
            name: QualName::new(None, Namespace::none(), name.local.clone()?),
            value,
        })?;
    }
    Ok(())
}

fn push_rel(alloc: Global, left: &mut Vec<Attribute>, value: &str) -> Result<(), AllocError>
    ensures { OnOk result (attribute_texts left.new.items ≡ attribute_texts left.old.items ++ rel_of (Some value.now)) }
{
    left.push(Attribute {
        name: QualName::new(None, Namespace::none(), LocalName::new(alloc, "rel")?),
        value: readable(alloc, value)?,
    })?;
    Ok(())
}

// Adds the `rel` of an `a`, if it is set.
fn set_rel<P: Policy>(
    alloc: Global,
    policy: &P,
    left: &mut Vec<Attribute>,
) -> Result<(), AllocError>
    ensures { OnOk result (attribute_texts left.new.items ≡ attribute_texts left.old.items ++ rel_of (P.rules policy.now).rel) }
{
    match policy.rel() {
        Some(value) => push_rel(alloc, left, value),
        None => Ok(()),
    }
}

/// Returns what the policy leaves of an element's attributes. Fails with `AllocError` if an allocation fails.
pub fn attributes_left<P: Policy, T: AttrRef, I: Iterator<Item = T> + Drop>(
    alloc: Global,
    policy: &P,
    element: &str,
    attrs: I,
) -> Result<Vec<Attribute>, AllocError>
    requires can { I.can_next attrs }
    requires ends { IsFinite (I.remaining attrs) }
    ensures { IfOk result (λ left. (all : List _) × Drains I.next_gives attrs all
        × (attribute_texts left.items ≡ attributes_left (P.rules policy.now) element.now (map T.attribute all))) }
{
    let mut left = Vec::new(alloc);
    'attributes: for attr in attrs {
        keep(alloc, policy, element, &mut left, &attr)?;
    }
    if element == "a" {
        set_rel(alloc, policy, &mut left)?;
    }
    Ok(left)
}
