//! Calls of the tree builder that no text causes.
use super::feeding::take_lines;
use h5_arena::{Arena, NodeId};
use h5_tables::TreeBuilderOpts;
use h5_token::{BuildFault, Tag, Token, TokenSink, TokenSinkResult};
use h5_tree_builder::{TreeBuilder, html_elem};
use std::alloc::Global;
use std::process::Abort;
use std::test::Fail;

type ArenaBuilder = TreeBuilder<NodeId, Arena>;

// Makes the calls of a token sink: a text, the end, and a token after it.
fn call_sink<S: TokenSink>(rt: &impl Abort, sink: &mut S, text: String) -> Result<(), BuildFault> {
    let reply = sink.process_token(Token::CharacterTokens(text), 2)?;
    assert!(rt; matches!(reply, TokenSinkResult::Continue));
    assert!(rt; !sink.adjusted_current_node_present_but_not_in_html_namespace());
    sink.end();
    let refusal = sink.process_token(Token::EOFToken, 1).err();
    assert!(rt; refusal == Some(BuildFault::AfterEnd));
    Ok(())
}

fn is_entry(entry: Option<(usize, &NodeId, &Tag)>, place: usize, name: &str) -> bool {
    match entry {
        Some((at, _, tag)) => at == place && tag.name.as_str() == name,
        None => false,
    }
}

// Formatting elements come from the newest on.
fn check_formatting(rt: &impl Abort, builder: &ArenaBuilder) {
    let mut entries = builder.active_formatting_end_to_marker();
    assert!(rt; is_entry(entries.next(), 1, "i"));
    assert!(rt; is_entry(entries.next(), 0, "b"));
    assert!(rt; entries.next().is_none());
    assert!(rt; entries.next().is_none());
}

fn make_calls(rt: &impl Abort, alloc: Global, builder: &mut ArenaBuilder) -> Result<(), Fail> {
    assert!(rt; !builder.is_fragment());
    take_lines(builder, alloc, "S b\nS i")?;
    check_formatting(rt, builder);
    call_sink(rt, builder, String::from_str(alloc, "x")?)?;
    Ok(())
}

#[test]
fn calls_of_a_builder_succeed(rt: HostRuntime) -> Result<(), Fail> {
    assert!(rt; *html_elem(&[3u8, 4, 5]) == 3);
    let arena = Arena::new(rt.alloc())?;
    let mut builder = TreeBuilder::new(rt.alloc(), arena, TreeBuilderOpts::default());
    let made = make_calls(&rt, rt.alloc(), &mut builder);
    drop(builder);
    made
}
