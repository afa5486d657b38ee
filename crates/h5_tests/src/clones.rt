//! Each `clone` that may allocate, with enough memory: its result is equal.
use h5_driver::ParseOpts;
use h5_interface::QuirksMode;
use h5_names::{Attribute, LocalName, Namespace, Prefix, QualName, namespaces};
use h5_serialize::{SerializeOpts, TraversalScope};
use h5_tables::TreeBuilderOpts;
use h5_token::states::{RawKind, State};
use h5_token::{Doctype, Tag, TagKind};
use h5_tokenizer_input::TokenizerOpts;
use std::alloc::{AllocError, Global};
use std::cmp::Ordering;
use std::hash::{DefaultHasher, Hash, Hasher};
use std::process::Abort;
use std::test::Fail;

fn check_equal<T: Eq + Drop>(
    rt: &impl Abort,
    value: &T,
    clone: Result<T, AllocError>,
) -> Result<(), AllocError> {
    let clone = clone?;
    assert!(rt; clone == *value);
    Ok(())
}

fn hash_of<T: Hash>(value: &T) -> u64 {
    let mut hasher = DefaultHasher::new();
    value.hash(&mut hasher);
    hasher.finish()
}

// Returns true if two values are equal, compare as equal, and have the same hash.
fn are_same<T: Ord + Hash>(value: &T, clone: &T) -> bool {
    clone == value && clone.cmp(value) == Ordering::Equal && hash_of(clone) == hash_of(value)
}

fn check_name<T: Ord + Hash + Drop>(
    rt: &impl Abort,
    value: &T,
    clone: Result<T, AllocError>,
) -> Result<(), AllocError> {
    let clone = clone?;
    assert!(rt; are_same(value, &clone));
    Ok(())
}

// An attribute whose name has a prefix, and which HTML doesn't know.
fn attribute(alloc: Global) -> Result<Attribute, AllocError> {
    let value = String::from_str(alloc, "1")?;
    let prefix = Prefix::new(alloc, "p")?;
    let ns = Namespace::new(alloc, "urn:n")?;
    let local = LocalName::from_string(String::from_str(alloc, "x-y")?)?;
    let name = QualName::new(Some(prefix), ns, local);
    Ok(Attribute { name, value })
}

fn names_are_cloned(rt: &impl Abort, attribute: &Attribute) -> Result<(), AllocError> {
    let name = &attribute.name;
    check_name(rt, attribute, attribute.clone())?;
    check_name(rt, name, name.clone())?;
    check_name(rt, &name.ns, name.ns.clone())?;
    check_name(rt, &name.local, name.local.clone())?;
    match &name.prefix {
        Some(prefix) => check_name(rt, prefix, prefix.clone()),
        None => panic!(rt; "no prefix"),
    }
}

fn expanded_names_are_cloned(rt: &impl Abort, name: &QualName) -> Result<(), AllocError> {
    let clone = name.clone()?;
    assert!(rt; are_same(&name.expanded(), &clone.expanded()));
    Ok(())
}

fn tags_are_cloned(rt: &impl Abort, alloc: Global) -> Result<(), AllocError> {
    let mut attrs = Vec::new(alloc);
    attrs.push(attribute(alloc)?)?;
    let tag = Tag {
        kind: TagKind::StartTag,
        name: LocalName::new(alloc, "x-y")?,
        self_closing: false,
        attrs,
        had_duplicate_attributes: false,
    };
    check_equal(rt, &tag, tag.clone())
}

fn doctypes_are_cloned(rt: &impl Abort, alloc: Global) -> Result<(), AllocError> {
    let name = String::from_str(alloc, "html")?;
    let system_id = String::from_str(alloc, "about:legacy-compat")?;
    let doctype = Doctype {
        name: Some(name),
        public_id: None,
        system_id: Some(system_id),
        force_quirks: false,
    };
    check_equal(rt, &doctype, doctype.clone())
}

fn serializer_options_are_cloned(rt: &impl Abort, alloc: Global) -> Result<(), AllocError> {
    let ns = Namespace::new(alloc, namespaces::SVG)?;
    let name = QualName::new(None, ns, LocalName::new(alloc, "style")?);
    let opts = SerializeOpts {
        scripting_enabled: true,
        traversal_scope: TraversalScope::ChildrenOnly(Some(name)),
        create_missing_parent: false,
    };
    check_equal(rt, &opts.traversal_scope, opts.traversal_scope.clone())?;
    check_equal(rt, &opts, opts.clone())
}

fn are_same_options(opts: &TokenizerOpts, clone: &TokenizerOpts) -> bool {
    clone.exact_errors == opts.exact_errors
        && clone.discard_bom == opts.discard_bom
        && clone.initial_state == opts.initial_state
        && clone.last_start_tag_name == opts.last_start_tag_name
}

fn parser_options_are_cloned(rt: &impl Abort, alloc: Global) -> Result<(), AllocError> {
    let tokenizer = TokenizerOpts {
        exact_errors: true,
        discard_bom: false,
        initial_state: Some(State::RawData(RawKind::Rcdata)),
        last_start_tag_name: Some(String::from_str(alloc, "title")?),
    };
    let tree_builder = TreeBuilderOpts {
        exact_errors: true,
        scripting_enabled: false,
        iframe_srcdoc: true,
        drop_doctype: true,
        quirks_mode: QuirksMode::Quirks,
    };
    check_equal(rt, &tree_builder, tree_builder.clone())?;
    let opts = ParseOpts {
        tokenizer,
        tree_builder,
    };
    assert!(rt; are_same_options(&opts.tokenizer, &opts.tokenizer.clone()?));
    let clone = opts.clone()?;
    assert!(rt; are_same_options(&opts.tokenizer, &clone.tokenizer));
    assert!(rt; clone.tokenizer.initial_state != Some(State::Plaintext));
    assert!(rt; clone.tree_builder == opts.tree_builder);
    Ok(())
}

#[test]
fn clones(rt: HostRuntime) -> Result<(), Fail> {
    let alloc = rt.alloc();
    let attribute = attribute(alloc)?;
    names_are_cloned(&rt, &attribute)?;
    expanded_names_are_cloned(&rt, &attribute.name)?;
    tags_are_cloned(&rt, alloc)?;
    doctypes_are_cloned(&rt, alloc)?;
    serializer_options_are_cloned(&rt, alloc)?;
    parser_options_are_cloned(&rt, alloc)?;
    Ok(())
}
