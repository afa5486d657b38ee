//! Elements whose content is text (HTML standard, section 13.2.6.2, "Parsing elements that contain only text").
ghost use Rattle.std.specs.Prelude.{◌≡◌, [], ◌∷◌};
ghost use Rattle.h5_token.specs.Reply.{TurnsRaw, reply};
ghost use Rattle.h5_tables.specs.declared.modes.InsertionMode.TheVariants.{Text};
ghost use Rattle.h5_builder_spec.specs.Changes.{save_mode, set_mode};
ghost use Rattle.h5_builder_spec.specs.modes.Shared.{inserts, raw_text};
ghost use Rattle.h5_builder_state.specs.Steps.{IsSound, errors_of, world_of};
ghost use Rattle.h5_builder_state.specs.Turn.{TakesTag};

use h5_builder_actions::insert_tag;
use h5_builder_state::{State, Turn, save_mode, set_answer, set_mode};
use h5_interface::TreeSink;
use h5_tables::{InsertionMode, ProcessResult};
use h5_token::states::RawKind;
use h5_token::{Tag, TokenSinkResult};

/// Saves the mode as the one to return to, and enters the mode "text"; the reply gives the kind of text to the
/// tokenizer.
pub fn to_raw_text_mode<S: TreeSink>(sink: &S, state: &mut State<S::Handle>, kind: RawKind)
    requires { IsSound S.TreeSink sink.now state.old }
    ensures world { world_of S.TreeSink sink.now state.new ≡ set_mode Text (save_mode (world_of S.TreeSink sink.now state.old)) }
    ensures sound { IsSound S.TreeSink sink.now state.new }
    ensures answer { reply S.node state.new.answer ≡ TurnsRaw kind }
{
    save_mode(sink, state);
    set_mode(sink, state, InsertionMode::Text);
    set_answer(sink, state, TokenSinkResult::RawData(kind));
}

/// A start tag of an element whose content is text of this kind.
pub fn parse_raw_data<S: TreeSink>(
    sink: &mut S,
    state: &mut State<S::Handle>,
    tag: Tag,
    kind: RawKind,
) -> Turn
    requires { IsSound S.TreeSink sink.old state.old }
    ensures { TakesTag S.TreeSink (λ tag w. raw_text kind (inserts tag ∷ [])) tag sink.old state.old sink.new state.new result }
{
    insert_tag(sink, state, tag)?;
    to_raw_text_mode(sink, state, kind);
    Ok(ProcessResult::Answer)
}
