//! A tree builder is a token sink.
use super::builder::TreeBuilder;
use h5_interface::TreeSink;
use h5_token::{BuildFault, Token, TokenSink, TokenSinkResult};

impl<Handle: Drop, Sink: TreeSink<Handle = Handle> + Drop> TokenSink for TreeBuilder<Handle, Sink> {
    ghost use Rattle.h5_builder_spec.specs.Run.{View, after_token, reply_to as reply_of};
    ghost use Rattle.h5_tree_builder.specs.Builder.{ended_view, is_foreign_in};
    ghost use Rattle.h5_tree_builder.specs.Held.{building};

    type Handle = Handle;

    ghost Meaning = { View };

    ghost meaning = { λ b. (building Sink.sees Sink.node b).view };

    ghost node = { Sink.node };

    ghost reply_to = { λ v t. reply_of Sink.choices t v };

    // The lines of tokens don't change what a builder means.
    ghost after = { λ v t line. after_token Sink.choices t v };

    ghost ended = { λ v. ended_view Sink.choices v };

    ghost is_foreign = { λ v. is_foreign_in v.world };

    #[inline(always)]
    fn process_token(
        &mut self,
        token: Token,
        line_number: u64,
    ) -> Result<TokenSinkResult<Handle>, BuildFault> {
        TreeBuilder::process_token(self, token, line_number)
    }

    fn end(&mut self) {
        TreeBuilder::end(self);
    }

    fn adjusted_current_node_present_but_not_in_html_namespace(&self) -> bool {
        TreeBuilder::adjusted_current_node_present_but_not_in_html_namespace(self)
    }
}
