//! The state of a new builder of a fragment, and the tokenizer's state for it (HTML standard, section 13.4, "Parsing
//! HTML fragments").
ghost use Rattle.std.specs.Prelude.{◌≡◌, IfOk, MatchOption, option_map, reverse};
ghost use Rattle.h5_names.specs.KnownNames.{name_text};
ghost use Rattle.h5_interface.specs.Forest.{IsElement, IsForest};
ghost use Rattle.h5_builder_state.specs.Steps.{IsSound, errors_of, world_of};
ghost use Rattle.h5_tree_builder.specs.Fragment.{context_modes, context_world, fragment_world, state_in_context, state_of_local};

use super::first_state::first_state;
use h5_builder_actions::{create_root, reset_insertion_mode};
use h5_builder_state::{State, set_mode};
use h5_interface::TreeSink;
use h5_names::{KnownName, LocalName, QualName};
use h5_tables::{InsertionMode, TreeBuilderOpts, is_html_known};
use h5_token::states::{RawKind, State as ReaderState};
use std::alloc::{AllocError, Global};

fn context_modes(alloc: Global, name: &QualName) -> Result<Vec<InsertionMode>, AllocError>
    ensures { IfOk result (λ modes. reverse modes.items ≡ context_modes name.now) }
{
    let mut modes = Vec::new(alloc);
    if is_html_known(name, KnownName::Template) {
        modes.push(InsertionMode::InTemplate)?;
    }
    Ok(modes)
}

// A state without open elements, in this context; if that is a template, "in template" is the template insertion mode.
#[tactic(auto, unfolding(h5_builder_state::specs::View::world))]
fn context_state<S: TreeSink>(
    sink: &S,
    alloc: Global,
    context: S::Handle,
    form: Option<S::Handle>,
    opts: TreeBuilderOpts,
) -> Result<State<S::Handle>, AllocError>
    requires is_forest { IsForest (S.sees sink.now).forest }
    requires context { IsElement (S.sees sink.now).forest (S.node context) }
    requires form { MatchOption form (Unit {0}) (λ form. IsElement (S.sees sink.now).forest (S.node form)) }
    ensures world { IfOk result (λ state. world_of S.TreeSink sink.now state ≡ context_world (S.sees sink.now) (S.node context) (option_map (λ handle. S.node handle) form) opts) }
    ensures sound { IfOk result (λ state. IsSound S.TreeSink sink.now state) }
{
    let template_modes = context_modes(alloc, sink.elem_name(&context))?;
    let mut state = first_state(sink, alloc, opts);
    state.template_modes = template_modes;
    state.form_elem = form;
    state.context_elem = Some(context);
    Ok(state)
}

/// Returns the state of a builder of a fragment: the root is created, as the document's last child and the only open
/// element, and the insertion mode is reset. Fails with `AllocError` if an allocation fails.
pub fn fragment_state<S: TreeSink>(
    sink: &mut S,
    alloc: Global,
    context: S::Handle,
    form: Option<S::Handle>,
    opts: TreeBuilderOpts,
) -> Result<State<S::Handle>, AllocError>
    requires is_forest { IsForest (S.sees sink.old).forest }
    requires context { IsElement (S.sees sink.old).forest (S.node context) }
    requires form { MatchOption form (Unit {0}) (λ form. IsElement (S.sees sink.old).forest (S.node form)) }
    ensures world { IfOk result (λ state. world_of S.TreeSink sink.new state ≡ fragment_world S.choices (S.sees sink.old) (S.node context) (option_map (λ handle. S.node handle) form) opts) }
    ensures quiet { errors_of S.TreeSink sink.new ≡ errors_of S.TreeSink sink.old }
    ensures sound { IfOk result (λ state. IsSound S.TreeSink sink.new state) }
{
    let mut state = context_state(sink, alloc, context, form, opts)?;
    create_root(sink, &mut state, Vec::new(alloc))?;
    let mode = reset_insertion_mode(sink, &state);
    set_mode(sink, &mut state, mode);
    Ok(state)
}

// The tokenizer's state for an element of this known name.
#[tactic(auto, unfolding(crate::specs::Fragment::state_of_local, crate::specs::Fragment::rcdata_context_names, crate::specs::Fragment::rawtext_context_names, h5_names::specs::KnownNames::name_text))]
fn state_of_known(known: KnownName, scripting: bool) -> ReaderState
    ensures { result ≡ state_of_local scripting (name_text known) }
{
    match known {
        KnownName::Title | KnownName::Textarea => ReaderState::RawData(RawKind::Rcdata),
        KnownName::Style
        | KnownName::Xmp
        | KnownName::Iframe
        | KnownName::Noembed
        | KnownName::Noframes => ReaderState::RawData(RawKind::Rawtext),
        KnownName::Script => ReaderState::RawData(RawKind::ScriptData),
        KnownName::Noscript => {
            if scripting {
                ReaderState::RawData(RawKind::Rawtext)
            } else {
                ReaderState::Data
            }
        }
        KnownName::Plaintext => ReaderState::Plaintext,
        _ => ReaderState::Data,
    }
}

// The tokenizer's state for an HTML element of this name.
#[tactic(auto, using(crate::proofs::FragmentLaws::state_by_known))]
fn state_of_local(name: &LocalName, scripting: bool) -> ReaderState
    ensures { result ≡ state_of_local scripting name.now }
{
    state_of_known(name.known(), scripting)
}

/// Returns the tokenizer's state at the start of a fragment, by the name of its context.
#[tactic(auto, unfolding(h5_tables::specs::TagSets::html_namespace))]
pub fn state_in_context(name: &QualName, scripting: bool) -> ReaderState
    ensures { result ≡ state_in_context scripting name.now }
{
    if name.ns.is_html() {
        state_of_local(&name.local, scripting)
    } else {
        ReaderState::Data
    }
}
