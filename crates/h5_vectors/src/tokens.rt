//! A tree builder that processes tokens, and its replies.
use super::made::Made;
use super::parsers::{Builder, new_builder, state_in};
use super::run::Cut;
use super::settings::Settings;
use anyhow::{Result, bail};
use h5_arena::NodeId;
use h5_interface::TreeSink;
use h5_print::{Item, parse, print_answer, print_refusal, print_tree};
use h5_tests_sinks::is_forest;
use h5_token::states::State;
use h5_token::{BuildFault, Token};
use h5_tree_builder::Reply;
use std::alloc::{AllocError, Global};
use std::fmt::Write;
use std::mem;

/// A tree builder, the number of tokens so far, and the lines of replies and of turns.
struct Taker {
    builder: Builder,
    /// The initial tokenizer state of a fragment.
    state: Option<State>,
    number: u64,
    /// Tokens that are processed as a list when it is complete.
    waiting: Vec<(Token, u64)>,
    replies: String,
    turns: String,
    /// The number of elements that the sink was informed of at the end.
    pops: usize,
    alloc: Global,
}

impl Drop for Taker {
    fn drop(self) {
        let Taker {
            builder: _builder,
            state: _state,
            number: _number,
            waiting: _waiting,
            replies: _replies,
            turns: _turns,
            pops: _pops,
            alloc: _alloc,
        } = self;
    }
}

fn one_token(alloc: Global, token: Token, line: u64) -> Result<Vec<(Token, u64)>, AllocError> {
    Ok(vec![in alloc; (token, line)]?)
}

// Appends the characters of a text, each as a text.
fn put_characters(
    alloc: Global,
    tokens: &mut Vec<(Token, u64)>,
    text: &str,
    line: u64,
) -> Result<(), AllocError> {
    for character in text.chars() {
        let character = character.to_string(alloc)?;
        tokens.push((Token::CharacterTokens(character), line))?;
    }
    Ok(())
}

// The characters of a text, each as a text.
fn characters_in(alloc: Global, text: &str, line: u64) -> Result<Vec<(Token, u64)>, AllocError> {
    let mut tokens = Vec::new(alloc);
    put_characters(alloc, &mut tokens, text, line)?;
    Ok(tokens)
}

// The characters of a text, each as a text; an empty text is unchanged.
fn characters_of_text(
    alloc: Global,
    text: String,
    line: u64,
) -> Result<Vec<(Token, u64)>, AllocError> {
    if text.is_empty() {
        one_token(alloc, Token::CharacterTokens(text), line)
    } else {
        characters_in(alloc, text.as_str(), line)
    }
}

// A token; for a text, its characters.
fn characters_of(alloc: Global, token: Token, line: u64) -> Result<Vec<(Token, u64)>, AllocError> {
    match token {
        Token::CharacterTokens(text) => characters_of_text(alloc, text, line),
        other => one_token(alloc, other, line),
    }
}

impl Taker {
    // A new tree builder with these settings.
    fn new(alloc: Global, settings: &Settings) -> Result<Taker> {
        let builder = new_builder(alloc, settings, usize::MAX)?;
        Ok(Taker {
            state: state_in(&builder, settings),
            builder,
            number: 0,
            waiting: Vec::new(alloc),
            replies: String::new(alloc),
            turns: String::new(alloc),
            pops: 0,
            alloc,
        })
    }

    // The line of a reply to the last token, if it has one.
    fn line_of(&self, reply: &Reply<NodeId>) -> Result<String> {
        let mut line = String::new(self.alloc);
        match reply {
            Reply::Answer(answer) => print_answer(&mut line, self.number, answer)?,
            Reply::Refused(BuildFault::Memory | BuildFault::Failed) => bail!("out of memory"),
            Reply::Refused(fault) => print_refusal(&mut line, self.number, *fault)?,
        }
        Ok(line)
    }

    // Adds the reply to a token.
    fn note(&mut self, reply: &Reply<NodeId>) -> Result<()> {
        let line = self.line_of(reply)?;
        self.replies.push_str(line.as_str())?;
        Ok(())
    }

    // Adds the reply to a character of a token, if it differs from the last one.
    fn note_other(&mut self, last: &mut String, reply: &Reply<NodeId>) -> Result<()> {
        let line = self.line_of(reply)?;
        if line.as_str() != last.as_str() {
            self.replies.push_str(line.as_str())?;
        }
        *last = line;
        Ok(())
    }

    // Adds the replies to the characters of one token, each different one once.
    fn note_each(&mut self, replies: &[Reply<NodeId>]) -> Result<()> {
        let mut last = String::new(self.alloc);
        for reply in replies {
            self.note_other(&mut last, reply)?;
        }
        Ok(())
    }

    fn reply_to(&mut self, token: Token, line: u64) -> Reply<NodeId> {
        match self.builder.process_token(token, line) {
            Ok(answer) => Reply::Answer(answer),
            Err(fault) => Reply::Refused(fault),
        }
    }

    // Adds the number of turns of the last token.
    fn note_turns(&mut self) -> Result<(), AllocError> {
        let (number, turns) = (self.number, self.builder.turns());
        writeln!(self.turns, "{number} {turns}")
    }

    // Processes a token whole.
    fn take_whole(&mut self, token: Token, line: u64) -> Result<()> {
        self.number = self.number.saturating_add(1);
        let reply = self.reply_to(token, line);
        self.note(&reply)?;
        Ok(self.note_turns()?)
    }

    // Processes a token; for a text, its characters.
    fn take_characters(&mut self, token: Token, line: u64) -> Result<()> {
        self.number = self.number.saturating_add(1);
        let tokens = characters_of(self.alloc, token, line)?;
        let replies = self.builder.process_all(tokens)?;
        self.note_each(replies.as_slice())
    }

    // Adds the replies to a list of tokens.
    fn note_all(&mut self, replies: &[Reply<NodeId>]) -> Result<()> {
        for reply in replies {
            self.number = self.number.saturating_add(1);
            self.note(reply)?;
        }
        Ok(())
    }

    // Processes the waiting tokens, as a list.
    fn take_waiting(&mut self) -> Result<()> {
        let tokens = mem::replace(&mut self.waiting, Vec::new(self.alloc));
        let replies = self.builder.process_all(tokens)?;
        self.note_all(replies.as_slice())
    }

    // Processes a token, or adds it to the waiting ones if tokens are given as a list.
    fn take_token(&mut self, token: Token, line: u64, cut: Cut) -> Result<()> {
        match cut {
            Cut::List => Ok(self.waiting.push((token, line))?),
            Cut::Characters => self.take_characters(token, line),
            _ => self.take_whole(token, line),
        }
    }

    // Processes the waiting tokens if tokens are given as a list.
    fn take_list(&mut self, cut: Cut) -> Result<()> {
        match cut {
            Cut::List => self.take_waiting(),
            _ => Ok(()),
        }
    }

    // Processes an end.
    fn take_end(&mut self, cut: Cut) -> Result<()> {
        self.take_list(cut)?;
        self.end();
        Ok(())
    }

    // Processes an item.
    fn take_item(&mut self, item: Item, cut: Cut) -> Result<()> {
        match item {
            Item::Token(token, line) => self.take_token(token, line, cut),
            Item::End => self.take_end(cut),
        }
    }

    // Processes the items of lines.
    fn take_items(&mut self, lines: &str, cut: Cut) -> Result<()> {
        for item in parse(self.alloc, lines)? {
            self.take_item(item, cut)?;
        }
        self.take_list(cut)
    }

    // Ends the tree builder.
    fn end(&mut self) {
        let before = self.builder.sink.pops();
        self.builder.end();
        let told = self.builder.sink.pops().saturating_sub(before);
        self.pops = self.pops.saturating_add(told);
    }

    // The results.
    fn into_made(self) -> Made {
        let Taker {
            builder,
            state,
            number: _number,
            waiting: _waiting,
            replies,
            turns,
            pops,
            alloc: _alloc,
        } = self;
        let arena = builder.into_sink().finish();
        Made::by_tokens(arena, state, replies, turns, pops)
    }

    // Ends the tree builder, and returns the results.
    fn finish(self) -> Made {
        let mut taker = self;
        taker.end();
        taker.into_made()
    }
}

/// The results of the tokens of lines with this split: whole, each text by its characters, or all up to an end as a list.
pub fn run_tokens(alloc: Global, settings: &Settings, lines: &str, cut: Cut) -> Result<Made> {
    let mut taker = Taker::new(alloc, settings)?;
    taker.take_items(lines, cut)?;
    Ok(taker.finish())
}
