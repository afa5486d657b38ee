//! The state of a new builder (HTML standard, section 13.2.4, "Parse state").
ghost use Rattle.std.specs.Prelude.{◌≡◌, []};
ghost use Rattle.h5_builder_state.specs.Stamps.{AreStamped};
ghost use Rattle.h5_builder_state.specs.Steps.{world_of};
ghost use Rattle.h5_builder_state.specs.Summaries.{IsKept};
ghost use Rattle.h5_tree_builder.specs.Builder.{first_world};

use h5_builder_state::{FormattingList, OpenElements, PendingText, State};
use h5_interface::TreeSink;
use h5_tables::{InsertionMode, Token, TreeBuilderOpts};
use h5_token::TokenSinkResult;
use std::alloc::Global;

// A state without open elements, in the mode "initial".
#[tactic(auto, unfolding(h5_builder_state::specs::View::world))]
pub fn first_state<S: TreeSink>(sink: &S, alloc: Global, opts: TreeBuilderOpts) -> State<S::Handle>
    ensures kept { IsKept result.open_elems [] }
    ensures stamped { AreStamped S.node result.open_elems result.active_formatting }
    ensures world { world_of S.TreeSink sink.now result ≡ first_world (S.sees sink.now) opts }
{
    State {
        opts,
        mode: InsertionMode::Initial,
        orig_mode: None,
        template_modes: Vec::new(alloc),
        pending_table_text: PendingText::new(alloc),
        quirks_mode: opts.quirks_mode,
        open_elems: OpenElements::new(alloc),
        active_formatting: FormattingList::new(alloc),
        head_elem: None,
        form_elem: None,
        frameset_ok: true,
        ignore_lf: false,
        foster_parenting: false,
        context_elem: None,
        again: Token::Eof,
        answer: TokenSinkResult::Continue,
        alloc,
    }
}
