//! Doctypes (HTML standard, section 13.2.6.4.1, "The 'initial' insertion mode").
ghost use Rattle.std.specs.Prelude.{◌<◌, ◌≡◌, IfOk, List, None, OnOk, Option, Some, [], false, option_map, string_bytes, true, unwrap_or, ℕ};
ghost use Rattle.h5_token.specs.TokenText.{doctype_text};
ghost use Rattle.h5_tables.specs.Doctypes.{is_good_doctype, quirks_of};
ghost use Rattle.h5_builder_spec.specs.Run.{doctype_in, judged, with_doctype};
ghost use Rattle.h5_builder_state.specs.Steps.{IsSound, TellsErrors, errors_of, world_of};
ghost use Rattle.h5_tree_builder.specs.Chains.{IsReady, Settles};

use super::turns_taken::Taken;
use h5_builder_state::{
    State, current_mode, report_error, set_mode, set_quirks_mode, tell_message,
};
use h5_interface::TreeSink;
use h5_tables::{InsertionMode, TreeError, doctype_error_and_quirks};
use h5_token::{Doctype, TokenSinkResult};
use std::alloc::{AllocError, Global};

fn text_or_empty(alloc: Global, text: Option<String>) -> String
    ensures { string_bytes result ≡ unwrap_or (option_map string_bytes text) [] }
{
    match text {
        Some(text) => text,
        None => String::new(alloc),
    }
}

// Appends the doctype to the document, unless doctypes are dropped.
#[tactic(auto, unfolding(h5_builder_state::specs::View::world, h5_builder_spec::specs::Run::with_doctype, h5_builder_spec::specs::Changes::insert_doctype))]
fn append_doctype<S: TreeSink>(
    sink: &mut S,
    state: &State<S::Handle>,
    doctype: Doctype,
) -> Result<(), AllocError>
    requires sound { IsSound S.TreeSink sink.old state.now }
    ensures done { OnOk result (world_of S.TreeSink sink.new state.now ≡ with_doctype S.choices (doctype_text doctype) (world_of S.TreeSink sink.old state.now)) }
    ensures quiet { errors_of S.TreeSink sink.new ≡ errors_of S.TreeSink sink.old }
    ensures sound { IsSound S.TreeSink sink.new state.now }
{
    if state.opts.drop_doctype {
        return Ok(());
    }
    let Doctype {
        name,
        public_id,
        system_id,
        force_quirks: _,
    } = doctype;
    sink.append_doctype_to_document(
        text_or_empty(state.alloc, name),
        text_or_empty(state.alloc, public_id),
        text_or_empty(state.alloc, system_id),
    )
}

// Writes a doctype as it could stand in a text.
fn write_doctype(out: &mut String, doctype: &Doctype) -> Result<(), AllocError> {
    out.push_str("<!DOCTYPE")?;
    if let Some(name) = &doctype.name {
        let name = name.as_str();
        write!(out, " {name}")?;
    }
    if let Some(id) = &doctype.public_id {
        let id = id.as_str();
        write!(out, " PUBLIC {id:?}")?;
    } else if doctype.system_id.is_some() {
        out.push_str(" SYSTEM")?;
    }
    if let Some(id) = &doctype.system_id {
        let id = id.as_str();
        write!(out, " {id:?}")?;
    }
    out.push('>')
}

// The exact message for a bad doctype. `None` if exact messages aren't enabled, or if an allocation fails.
fn exact_bad<H>(state: &State<H>, doctype: &Doctype) -> Option<String> {
    if !state.opts.exact_errors {
        return None;
    }
    let name = TreeError::BadDoctype.name();
    let mut out = format!(in state.alloc; "{name}: ").ok()?;
    write_doctype(&mut out, doctype).ok()?;
    Some(out)
}

fn tell_bad<S: TreeSink>(sink: &mut S, state: &State<S::Handle>, doctype: &Doctype)
    ensures told { TellsErrors S.TreeSink sink.old sink.new state.now }
    ensures noted { 0 < errors_of S.TreeSink sink.new }
{
    match exact_bad(state, doctype) {
        Some(message) => tell_message(sink, state, message.as_str()),
        None => report_error(sink, state, TreeError::BadDoctype),
    }
}

// The exact message for a doctype that comes too late. `None` if exact messages aren't enabled, or if an allocation
// fails.
fn exact_late<H>(state: &State<H>) -> Option<String> {
    if !state.opts.exact_errors {
        return None;
    }
    let name = TreeError::LateDoctype.name();
    let mode = state.mode;
    format!(in state.alloc; "{name}: DOCTYPE in insertion mode {mode:?}").ok()
}

fn tell_late<S: TreeSink>(sink: &mut S, state: &State<S::Handle>)
    ensures told { TellsErrors S.TreeSink sink.old sink.new state.now }
    ensures noted { 0 < errors_of S.TreeSink sink.new }
{
    match exact_late(state) {
        Some(message) => tell_message(sink, state, message.as_str()),
        None => report_error(sink, state, TreeError::LateDoctype),
    }
}

// Handles a doctype at the start: it is appended to the document and chooses the quirks mode.
#[tactic(auto, unfolding(h5_builder_spec::specs::Run::judged))]
fn judge_doctype<S: TreeSink>(
    sink: &mut S,
    state: &mut State<S::Handle>,
    doctype: Doctype,
) -> Result<(), AllocError>
    requires sound { IsSound S.TreeSink sink.old state.old }
    ensures done { OnOk result (world_of S.TreeSink sink.new state.new ≡ judged S.choices (doctype_text doctype) (world_of S.TreeSink sink.old state.old)) }
    ensures noted { OnOk result (is_good_doctype (doctype_text doctype) ≡ false → 0 < errors_of S.TreeSink sink.new) }
    ensures quiet { OnOk result (is_good_doctype (doctype_text doctype) ≡ true → errors_of S.TreeSink sink.new ≡ errors_of S.TreeSink sink.old) }
    ensures sound { IsSound S.TreeSink sink.new state.new }
{
    let (is_error, quirks) = doctype_error_and_quirks(&doctype, state.opts.iframe_srcdoc);
    if is_error {
        tell_bad(sink, state, &doctype);
    }
    append_doctype(sink, state, doctype)?;
    set_quirks_mode(sink, state, quirks);
    set_mode(sink, state, InsertionMode::BeforeHtml);
    Ok(())
}

/// Handles a doctype: at the start as above; in any other mode it is a parse error, and changes nothing. It takes no
/// turn. Fails with `AllocError` if an allocation fails.
pub fn take_doctype<S: TreeSink>(
    sink: &mut S,
    state: &mut State<S::Handle>,
    doctype: Doctype,
) -> Result<Taken<S::Handle>, AllocError>
    requires { IsReady S.TreeSink sink.old state.old }
    ensures { Settles S.TreeSink (doctype_in (world_of S.TreeSink sink.old state.old).mode S.choices (doctype_text doctype)) true sink.old state.old sink.new state.new result }
{
    match current_mode(sink, state) {
        InsertionMode::Initial => {
            judge_doctype(sink, state, doctype)?;
            Ok(Taken {
                turns: 0,
                answer: TokenSinkResult::Continue,
            })
        }
        _ => {
            tell_late(sink, state);
            Ok(Taken {
                turns: 0,
                answer: TokenSinkResult::Continue,
            })
        }
    }
}
