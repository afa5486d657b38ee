//! ASCII whitespace (Infra standard), and the runs of a text.
ghost use Rattle.std.specs.Prelude.{◌≡◌, ◌≢◌, ◌<◌, ℕ, [], false, take, slice_index, IsCharBoundary};
ghost use Rattle.h5_builder_spec.specs.Blanks.{all_blank, is_blank, rest_of};
ghost use Rattle.h5_builder_spec.specs.Rows.{SetFramesetOkByText};
ghost use Rattle.h5_builder_spec.specs.Text.{IsRun, all_blanks, splits};
ghost use Rattle.h5_builder_state.specs.Steps.{IsSound, Makes};

use super::state::State;
use h5_interface::TreeSink;
use h5_tables::{InsertionMode, SplitStatus};

fn is_blank_byte(b: u8) -> bool
    ensures { result ≡ is_blank b }
{
    b == b' ' || b == b'\n' || b == b'\t' || b == b'\r' || b == 12
}

/// Returns true if all of a text is ASCII whitespace.
pub fn is_blank_text(text: &str) -> bool
    ensures { result ≡ all_blank text.now }
{
    for b in text.as_bytes() {
        if !is_blank_byte(*b) {
            return false;
        }
    }
    true
}

/// Sets the frameset-ok flag to "not ok" if the text has a character that isn't ASCII whitespace.
#[tactic(auto, unfolding(crate::specs::View::world, h5_builder_spec::specs::Changes::set_frameset_ok_by_text, h5_builder_spec::specs::World::names_of))]
pub fn set_frameset_ok_by_text<S: TreeSink>(sink: &S, state: &mut State<S::Handle>, text: &str)
    requires { IsSound S.TreeSink sink.now state.old }
    ensures { Makes S.TreeSink (SetFramesetOkByText text.now) sink.now state.old sink.now state.new }
{
    state.frameset_ok = state.frameset_ok && is_blank_text(text);
}

// The length of the whitespace at the start of a text.
fn blank_len(text: &str) -> usize
    ensures boundary { IsCharBoundary text.now result }
    ensures blank { rest_of (take result text.now) ≡ [] }
    ensures solid { result ≡ 0 → text.now ≢ [] → is_blank (slice_index text.now 0) ≡ false }
{
    for (i, b) in text.as_bytes().iter().enumerate() {
        if !is_blank_byte(*b) {
            return i;
        }
    }
    text.len()
}

// The length of a text before its first whitespace.
fn solid_len(text: &str) -> usize
    ensures boundary { IsCharBoundary text.now result }
    ensures solid { all_blanks (take result text.now) ≡ [] }
    ensures some { text.now ≢ [] → is_blank (slice_index text.now 0) ≡ false → 0 < result }
{
    for (i, b) in text.as_bytes().iter().enumerate() {
        if is_blank_byte(*b) {
            return i;
        }
    }
    text.len()
}

fn splits_text(mode: InsertionMode) -> bool
    ensures { result ≡ splits mode }
{
    matches!(
        mode,
        InsertionMode::Initial
            | InsertionMode::BeforeHtml
            | InsertionMode::BeforeHead
            | InsertionMode::InHead
            | InsertionMode::InHeadNoscript
            | InsertionMode::AfterHead
            | InsertionMode::InColumnGroup
            | InsertionMode::AfterBody
            | InsertionMode::InFrameset
            | InsertionMode::AfterFrameset
            | InsertionMode::AfterAfterBody
            | InsertionMode::AfterAfterFrameset
    )
}

/// Returns the length of the first run of a text in a mode, outside foreign content, and if it is whitespace.
pub fn first_run(mode: InsertionMode, text: &str) -> (SplitStatus, usize)
    requires { text.now ≢ [] }
    ensures boundary { IsCharBoundary text.now result.1 }
    ensures some { 0 < result.1 }
    ensures run { IsRun mode false result.0 (take result.1 text.now) }
{
    if !splits_text(mode) {
        return (SplitStatus::NotSplit, text.len());
    }
    let blanks = blank_len(text);
    if blanks > 0 {
        return (SplitStatus::Whitespace, blanks);
    }
    (SplitStatus::NotWhitespace, solid_len(text))
}
