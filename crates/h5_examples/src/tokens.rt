//! Tokens without a tree.
use html_tree_builder::standard::Tokenizer;
use html_tree_builder::token::{BuildFault, TagKind, Token, TokenSink, TokenSinkResult};
use html_tree_builder::utf8::Utf8LossyDecoder;
use html_tree_builder::{BufferQueue, TokenizerOpts};
use std::alloc::Global;

/// Counts start tags.
#[derive(Drop)]
struct Counter {
    tags: u64,
}

impl TokenSink for Counter {
    ghost use Rattle.std.specs.Prelude.{false};
    ghost use Rattle.html_tree_builder.specs.Reply.{Continues};

    type Handle = ();

    ghost Meaning = { Unit {0} };

    ghost meaning = { λ _. tt };

    ghost node = { λ _. 0 };

    ghost reply_to = { λ _ _. Continues };

    ghost after = { λ _ _ _. tt };

    ghost ended = { λ _. tt };

    ghost is_foreign = { λ _. false };

    fn process_token(
        &mut self,
        token: Token,
        _line_number: u64,
    ) -> Result<TokenSinkResult<()>, BuildFault> {
        if let Token::TagToken(tag) = token {
            if tag.kind == TagKind::StartTag {
                self.tags = self.tags.saturating_add(1);
            }
        }
        Ok(TokenSinkResult::Continue)
    }

    fn end(&mut self) {}

    fn adjusted_current_node_present_but_not_in_html_namespace(&self) -> bool {
        false
    }
}

// Feeds a text.
fn feed(
    tokenizer: &mut Tokenizer<Counter>,
    queue: &mut BufferQueue,
    text: String,
) -> anyhow::Result<()> {
    queue.push_back(text)?;
    tokenizer.feed(queue)?;
    Ok(())
}

// Feeds all bytes and the end.
fn feed_bytes(
    alloc: Global,
    tokenizer: &mut Tokenizer<Counter>,
    queue: &mut BufferQueue,
    bytes: &[u8],
) -> anyhow::Result<()> {
    let mut decoder = Utf8LossyDecoder::new(alloc);
    feed(tokenizer, queue, decoder.decode(bytes)?)?;
    feed(tokenizer, queue, String::from_str(alloc, decoder.finish())?)?;
    tokenizer.end()?;
    Ok(())
}

/// Counts the start tags in these bytes.
pub fn tokens_without_a_tree(alloc: Global, bytes: &[u8]) -> anyhow::Result<u64> {
    let mut tokenizer = Tokenizer::new(alloc, Counter { tags: 0 }, TokenizerOpts::default());
    let mut queue = BufferQueue::new(alloc);
    feed_bytes(alloc, &mut tokenizer, &mut queue, bytes)?;
    Ok(tokenizer.sink.tags)
}
