//! Queries of a tree builder.
ghost use Rattle.std.specs.Prelude.{◌≡◌, ◌<◌, is_some, true};
ghost use Rattle.h5_tree_builder.specs.Builder.{is_foreign_in};
ghost use Rattle.h5_tree_builder.specs.Fragment.{state_by_context};
ghost use Rattle.h5_tree_builder.specs.Held.{building};

use super::builder::TreeBuilder;
use super::foreign::is_current_foreign;
use super::fragment::state_in_context;
use h5_interface::TreeSink;
use h5_token::states::State;

impl<Handle: Drop, Sink: TreeSink<Handle = Handle> + Drop> TreeBuilder<Handle, Sink> {
    /// Returns the number of turns of the last token that was taken, which is the number of rules that were applied. A
    /// doctype, a parse error and a text that is or becomes empty take none.
    pub fn turns(&self) -> u64
        ensures { result ≡ self.now.turns }
    {
        self.turns
    }

    /// Returns true if a fragment is built, in a context (HTML standard, section 13.4).
    #[tactic(auto, unfolding(h5_builder_state::specs::View::world))]
    pub fn is_fragment(&self) -> bool
        ensures { result ≡ is_some (building Sink.sees Sink.node self.now).view.world.context }
    {
        self.state.context_elem.is_some()
    }

    /// Returns the state in which a tokenizer of the fragment must begin, by the name of its context (HTML standard,
    /// section 13.4): RCDATA for `title` and `textarea`, raw text for `style` and similar, script data for `script`,
    /// raw text for `noscript` if scripting is allowed, and PLAINTEXT for `plaintext`; otherwise data. Doesn't
    /// allocate. The builder must be one of a fragment.
    #[tactic(auto, unfolding(h5_builder_state::specs::View::world))]
    pub fn tokenizer_state_for_context_elem(&self, context_allows_scripting: bool) -> State
        requires { is_some (building Sink.sees Sink.node self.now).view.world.context ≡ true }
        ensures { result ≡ state_by_context context_allows_scripting (building Sink.sees Sink.node self.now).view.world (building Sink.sees Sink.node self.now).view.world.context }
    {
        match &self.state.context_elem {
            Some(context) => {
                state_in_context(self.sink.elem_name(context), context_allows_scripting)
            }
            None => State::Data,
        }
    }

    /// Returns true if an element is open and the adjusted current node isn't in the HTML namespace. A tokenizer then
    /// reads `<![CDATA[` as the start of a CDATA section (HTML standard, section 13.2.5.42, "Markup declaration open
    /// state").
    pub fn adjusted_current_node_present_but_not_in_html_namespace(&self) -> bool
        ensures { result ≡ is_foreign_in (building Sink.sees Sink.node self.now).view.world }
    {
        is_current_foreign(&self.sink, &self.state)
    }

    /// Returns the sink in its current state.
    pub fn into_sink(self) -> Sink
        ensures { result ≡ self.sink }
    {
        let TreeBuilder { sink, .. } = self;
        sink
    }

    /// Reports a parse error to the sink that isn't the builder's. Changes neither forest nor quirks mode.
    #[tactic(auto, unfolding(h5_builder_state::specs::View::world, h5_builder_spec::specs::World::names_of))]
    pub fn report_error(&mut self, message: &str)
        ensures noted { 0 < (building Sink.sees Sink.node self.new).errors }
        ensures view { (building Sink.sees Sink.node self.new).view ≡ (building Sink.sees Sink.node self.old).view }
        ensures turns { self.new.turns ≡ self.old.turns }
    {
        self.sink.parse_error(message);
    }
}
