//! A tokenizer of any kind over a sink that writes its tokens down.
use h5_standard_tokenizer::{Errors, ReportingTokenizer};
use h5_tests_sinks::{Answer, Recorder};
use h5_token::BuildFault;
use h5_token::states::RawKind;
use h5_tokenizer_input::{BufferQueue, TokenizerOpts, TokenizerResult};
use std::alloc::{AllocError, Global};
use std::process::Abort;

/// A tokenizer over a recorder.
pub trait Recording: Drop {
    fn over(alloc: Global, sink: Recorder, opts: TokenizerOpts) -> Self;

    fn feed(&mut self, input: &mut BufferQueue) -> Result<TokenizerResult<u8>, BuildFault>;

    fn end(&mut self) -> Result<(), BuildFault>;

    fn sink(&self) -> &Recorder;
}

/// The plain tokenizer.
pub type Plain = h5_plain_tokenizer::Tokenizer<Recorder>;

/// The standard tokenizer.
pub type Standard = h5_standard_tokenizer::Tokenizer<Recorder>;

/// The standard tokenizer that reports errors, of which it stores three.
pub type Telling = ReportingTokenizer<Recorder, Errors>;

impl Recording for h5_plain_tokenizer::Tokenizer<Recorder> {
    fn over(alloc: Global, sink: Recorder, opts: TokenizerOpts) -> Self {
        h5_plain_tokenizer::Tokenizer::new(alloc, sink, opts)
    }

    fn feed(&mut self, input: &mut BufferQueue) -> Result<TokenizerResult<u8>, BuildFault> {
        h5_plain_tokenizer::Tokenizer::feed(self, input)
    }

    fn end(&mut self) -> Result<(), BuildFault> {
        h5_plain_tokenizer::Tokenizer::end(self)
    }

    fn sink(&self) -> &Recorder {
        &self.sink
    }
}

impl Recording for h5_standard_tokenizer::Tokenizer<Recorder> {
    fn over(alloc: Global, sink: Recorder, opts: TokenizerOpts) -> Self {
        h5_standard_tokenizer::Tokenizer::new(alloc, sink, opts)
    }

    fn feed(&mut self, input: &mut BufferQueue) -> Result<TokenizerResult<u8>, BuildFault> {
        h5_standard_tokenizer::Tokenizer::feed(self, input)
    }

    fn end(&mut self) -> Result<(), BuildFault> {
        h5_standard_tokenizer::Tokenizer::end(self)
    }

    fn sink(&self) -> &Recorder {
        &self.sink
    }
}

impl Recording for ReportingTokenizer<Recorder, Errors> {
    fn over(alloc: Global, sink: Recorder, opts: TokenizerOpts) -> Self {
        ReportingTokenizer::new(alloc, sink, Errors::new(alloc, 3), opts)
    }

    fn feed(&mut self, input: &mut BufferQueue) -> Result<TokenizerResult<u8>, BuildFault> {
        ReportingTokenizer::feed(self, input)
    }

    fn end(&mut self) -> Result<(), BuildFault> {
        ReportingTokenizer::end(self)
    }

    fn sink(&self) -> &Recorder {
        &self.sink
    }
}

/// Appends a chunk to a queue.
pub fn queued(alloc: Global, queue: &mut BufferQueue, chunk: &str) -> Result<(), AllocError> {
    queue.push_back(String::from_str(alloc, chunk)?)
}

/// A tokenizer with the default options, over a recorder with this reply.
pub fn new_tokenizer<R: Recording>(alloc: Global, foreign: bool, answer: Answer) -> R {
    R::over(
        alloc,
        Recorder::new(alloc, foreign, answer),
        TokenizerOpts::default(),
    )
}

fn feed_chunk<R: Recording>(
    tokenizer: &mut R,
    queue: &mut BufferQueue,
    chunk: String,
) -> Result<(), BuildFault> {
    queue.push_back(chunk)?;
    tokenizer.feed(queue)?;
    Ok(())
}

/// Feeds a text whole, or character by character, and then the end.
pub fn feed<R: Recording>(
    alloc: Global,
    tokenizer: &mut R,
    text: &str,
    whole: bool,
) -> Result<(), BuildFault> {
    let mut queue = BufferQueue::new(alloc);
    if whole {
        feed_chunk(tokenizer, &mut queue, String::from_str(alloc, text)?)?;
    } else {
        for c in text.chars() {
            feed_chunk(tokenizer, &mut queue, c.to_string(alloc)?)?;
        }
    }
    tokenizer.end()
}

/// The sink of a text.
#[derive(Clone, Copy)]
pub enum Setting {
    /// In HTML; replies with "continue".
    Html,
    /// In foreign content; replies with "continue".
    Foreign,
    /// In HTML; replies to start tags with the state of this raw text.
    Raw(RawKind),
}

impl Setting {
    fn answer(self) -> Answer {
        match self {
            Setting::Html | Setting::Foreign => Answer::ReadsOn,
            Setting::Raw(kind) => Answer::TurnsRaw(kind),
        }
    }
}

/// The sink, a text, the written tokens, and the lines of the tokens that aren't texts.
pub type Row = (Setting, &'static str, &'static str, &'static str);

// Checks the written tokens of a text that is fed whole, or character by character.
fn check<R: Recording>(
    rt: &impl Abort,
    alloc: Global,
    (setting, text, tokens, lines): Row,
    whole: bool,
) -> Result<(), BuildFault> {
    let foreign = matches!(setting, Setting::Foreign);
    let mut tokenizer: R = new_tokenizer(alloc, foreign, setting.answer());
    let fed = feed(alloc, &mut tokenizer, text, whole);
    let found = tokenizer.sink();
    assert_eq!(rt; found.text.as_str(), tokens, "{text}, at once: {whole}");
    assert_eq!(rt; found.lines.as_str(), lines, "{text}, at once: {whole}");
    drop(tokenizer);
    fed
}

/// Checks the written tokens of the text of each row.
pub fn check_all<R: Recording>(
    rt: &impl Abort,
    alloc: Global,
    rows: &[Row],
) -> Result<(), BuildFault> {
    for &row in rows {
        check::<R>(rt, alloc, row, true)?;
        check::<R>(rt, alloc, row, false)?;
    }
    Ok(())
}
