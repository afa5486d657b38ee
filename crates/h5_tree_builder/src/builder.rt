//! The tree builder.
ghost use Rattle.std.specs.Prelude.{◌≡◌, ◌++◌, [], ◌∷◌, false, true, IfErr, IfOk, MatchOption, is_some, option_map};
ghost use Rattle.h5_interface.specs.Forest.{ChildNode, IsElement, children_of};
ghost use Rattle.h5_token.specs.TokenText.{token_text};
ghost use Rattle.h5_builder_spec.specs.inner.Kept.{Fits, Fitting, HasLists};
ghost use Rattle.h5_builder_spec.specs.Sound.{Sound};
ghost use Rattle.h5_tree_builder.specs.Held.{building};
ghost use Rattle.h5_tree_builder.specs.Builder.{IsKeptWhole, Takes, ended_view, first_building};
ghost use Rattle.h5_tree_builder.specs.Fragment.{first_fragment};

use super::end::pop_all;
use super::first_state::first_state;
use super::fragment::fragment_state;
use super::process_token::{note_line, take_token};
use super::refusal::refuses_in;
use h5_builder_state::{State, current_mode};
use h5_interface::TreeSink;
use h5_tables::TreeBuilderOpts;
use h5_token::{BuildFault, Token, TokenSinkResult};
use std::alloc::Global;
use std::marker::Model;

/// A tree builder over a sink (HTML standard, section 13.2.6, "Tree construction").
///
/// Contracts see it as the world that builder and sink are together, its flags `ended` and `failed`, and the turns of
/// the last token. At every moment, also after a failed allocation, the sink's forest is a forest, the open elements
/// are distinct elements of it, and none is an ancestor, through children or contents, of one nearer to the root.
///
/// Unless an allocation failed, the list of active formatting elements agrees with the stack of open elements. No
/// element is listed twice; listed elements that are open are in the stack's order; and between two markers no open
/// element's entry is newer than that of one that isn't open, and at most three entries are alike.
#[derive(Drop)]
pub struct TreeBuilder<Handle: Drop, Sink: TreeSink<Handle = Handle> + Drop> {
    /// The sink. While tokens come, no one else may change it.
    pub sink: Sink,
    pub(super) state: State<Handle>,
    pub(super) ended: bool,
    pub(super) failed: bool,
    pub(super) turns: u64,
}

impl<Handle: Drop, Sink: TreeSink<Handle = Handle> + Drop> Model for TreeBuilder<Handle, Sink> {
    ghost use Rattle.std.specs.Coded.{codes};
    ghost use Rattle.h5_builder_state.specs.contracts.numbering.Numbering as numbering;
    ghost use Rattle.h5_tree_builder.specs.Held.{Held, IsKept};

    ghost Value = { Held Sink Handle };

    ghost coded = { Prim.hlevel (codes, Sink.code, Handle.code, numbering.the_row.coded) };

    ghost view = { λ b. record { sink = b.sink; state = b.state; ended = b.ended; failed = b.failed; turns = b.turns } };

    ghost invariant = { λ b. IsKept Sink.TreeSink (record { sink = b.sink; state = b.state; ended = b.ended; failed = b.failed; turns = b.turns }) };
}

impl<Handle: Drop, Sink: TreeSink<Handle = Handle> + Drop> TreeBuilder<Handle, Sink> {
    /// Returns a builder of a document. Doesn't allocate, and doesn't change the sink.
    pub fn new(alloc: Global, sink: Sink, opts: TreeBuilderOpts) -> TreeBuilder<Handle, Sink>
        ensures first { building Sink.sees Sink.node result ≡ first_building (Sink.sees sink) opts }
        ensures sink { result.sink ≡ sink }
        ensures fitting { Fitting (building Sink.sees Sink.node result).view.world }
    {
        let _document = sink.get_document();
        let state = first_state(&sink, alloc, opts);
        TreeBuilder {
            sink,
            state,
            ended: false,
            failed: false,
            turns: 0,
        }
    }

    /// Returns a builder of a fragment in this context (HTML standard, section 13.4, "Parsing HTML fragments"). It
    /// creates the root, an `html` without attributes, as the document's last child and the only open element, and
    /// resets the insertion mode by the context. `form_elem`, if given, becomes the form element. Fails with `Memory`
    /// if an allocation fails; the sink is then dropped. `context_elem` and `form_elem` must be elements of the sink's
    /// forest.
    pub fn new_for_fragment(
        alloc: Global,
        sink: Sink,
        context_elem: Handle,
        form_elem: Option<Handle>,
        opts: TreeBuilderOpts,
    ) -> Result<TreeBuilder<Handle, Sink>, BuildFault>
        requires context { IsElement (Sink.sees sink).forest (Sink.node context_elem) }
        requires form { MatchOption form_elem (Unit {0}) (λ form. IsElement (Sink.sees sink).forest (Sink.node form)) }
        ensures first { IfOk result (λ builder. building Sink.sees Sink.node builder ≡ first_fragment Sink.choices (Sink.sees sink) (Sink.node context_elem) (option_map (λ form. Sink.node form) form_elem) opts) }
        ensures fragment { IfOk result (λ builder. is_some (building Sink.sees Sink.node builder).view.world.context ≡ true) }
        ensures last { IfOk result (λ builder. children_of (building Sink.sees Sink.node builder).view.world.forest (Sink.sees sink).forest.document ≡ children_of (Sink.sees sink).forest (Sink.sees sink).forest.document ++ ChildNode (Sink.choices.fresh (Sink.sees sink).forest) ∷ []) }
        ensures fitting { IfOk result (λ builder. Fitting (building Sink.sees Sink.node builder).view.world) }
        ensures memory { IfErr result (λ fault. fault ≡ BuildFault.Memory) }
    {
        let _document = sink.get_document();
        let mut sink = sink;
        let state = fragment_state(&mut sink, alloc, context_elem, form_elem, opts)?;
        Ok(TreeBuilder {
            sink,
            state,
            ended: false,
            failed: false,
            turns: 0,
        })
    }

    /// Takes a token that began in this line, and returns the reply. Fails with `Failed` if an allocation failed
    /// before, with `AfterEnd` after `end`, and with `NotInText` for a start tag, a comment or a null in the mode
    /// "text"; then nothing changes, neither in the builder nor in the sink. Fails with `Memory` if an allocation
    /// fails; `turns` is then that of the previous token.
    ///
    /// After each token that was taken, the list of active formatting elements agrees with the stack of open elements,
    /// and the open elements fit the insertion mode: for example, a `tr` is open in a row, and a `td` or `th` in a
    /// cell.
    #[inline(always)]
    pub fn process_token(
        &mut self,
        token: Token,
        line_number: u64,
    ) -> Result<TokenSinkResult<Handle>, BuildFault>
        ensures takes { Takes Sink.choices Sink.node (token_text token) (building Sink.sees Sink.node self.old) (building Sink.sees Sink.node self.new) result }
        ensures same { IsKeptWhole self.old self.new result }
        ensures ended { self.new.ended ≡ self.old.ended }
        ensures sound { Sound (building Sink.sees Sink.node self.new).view.world }
        ensures lists { (building Sink.sees Sink.node self.new).view.failed ≡ false → HasLists (building Sink.sees Sink.node self.new).view.world }
        ensures fits { (building Sink.sees Sink.node self.new).view.failed ≡ false → (building Sink.sees Sink.node self.new).view.ended ≡ false → Fits (building Sink.sees Sink.node self.new).view.world }
    {
        if self.failed {
            return Err(BuildFault::Failed);
        }
        if self.ended {
            return Err(BuildFault::AfterEnd);
        }
        if refuses_in(current_mode(&self.sink, &self.state), &token) {
            return Err(BuildFault::NotInText);
        }
        note_line(&mut self.sink, &self.state, line_number);
        self.failed = true;
        let taken = take_token(&mut self.sink, &mut self.state, token)?;
        self.turns = taken.turns;
        self.failed = false;
        Ok(taken.answer)
    }

    /// Ends the document: pops all open elements, from the current node on, and notifies the sink of each. The list of
    /// active formatting elements stays. A second call changes nothing.
    pub fn end(&mut self)
        ensures view { (building Sink.sees Sink.node self.new).view ≡ ended_view Sink.choices (building Sink.sees Sink.node self.old).view }
        ensures none { (building Sink.sees Sink.node self.new).view.world.stack ≡ [] }
        ensures again { self.old.ended ≡ true → self.new ≡ self.old }
        ensures turns { self.new.turns ≡ self.old.turns }
        ensures quiet { (building Sink.sees Sink.node self.new).errors ≡ (building Sink.sees Sink.node self.old).errors }
        ensures sound { Sound (building Sink.sees Sink.node self.new).view.world }
        ensures lists { (building Sink.sees Sink.node self.new).view.failed ≡ false → HasLists (building Sink.sees Sink.node self.new).view.world }
    {
        pop_all(&mut self.sink, &mut self.state);
        self.ended = true;
    }

    // Marks the builder as failed after a failed allocation; every later token is refused.
    pub(crate) fn fail(&mut self) -> BuildFault
        ensures memory { result ≡ BuildFault.Memory }
        ensures failed { (building Sink.sees Sink.node self.new).view.failed ≡ true }
        ensures ended { self.new.ended ≡ self.old.ended }
        ensures sound { Sound (building Sink.sees Sink.node self.new).view.world }
        ensures lists { (building Sink.sees Sink.node self.new).view.failed ≡ false → HasLists (building Sink.sees Sink.node self.new).view.world }
    {
        self.failed = true;
        BuildFault::Memory
    }

    pub(crate) fn has_failed(&self) -> bool
        ensures sound { Sound (building Sink.sees Sink.node self.now).view.world }
        ensures lists { (building Sink.sees Sink.node self.now).view.failed ≡ false → HasLists (building Sink.sees Sink.node self.now).view.world }
        ensures fits { (building Sink.sees Sink.node self.now).view.failed ≡ false → (building Sink.sees Sink.node self.now).view.ended ≡ false → Fits (building Sink.sees Sink.node self.now).view.world }
        ensures failed { result ≡ (building Sink.sees Sink.node self.now).view.failed }
    {
        self.failed
    }

    pub(crate) fn alloc(&self) -> Global {
        self.state.alloc
    }
}
