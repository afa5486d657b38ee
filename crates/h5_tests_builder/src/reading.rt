//! Results of a tokenizer's calls: where a token stops it, where it begins in a raw text, after the end, and out of memory. Each is tried
//! with both tokenizers.
use super::recording::{Plain, Recording, Standard, new_tokenizer, queued};
use h5_tests_sinks::{Answer, Recorder};
use h5_token::BuildFault;
use h5_token::states::{RawKind, State};
use h5_tokenizer_input::{BufferQueue, TokenizerOpts, TokenizerResult};
use std::alloc::Global;
use std::process::Abort;
use std::test::Fail;

fn stops<R: Recording>(
    rt: &impl Abort,
    tokenizer: &mut R,
    queue: &mut BufferQueue,
) -> Result<(), BuildFault> {
    let stopped = match tokenizer.feed(queue)? {
        TokenizerResult::Script(handle) => handle == 7,
        _ => false,
    };
    assert!(rt; stopped);
    assert_eq!(rt; queue.as_str(), "b</s>");
    assert_eq!(rt; tokenizer.sink().text.as_str(), "a<s>");
    Ok(())
}

fn goes_on<R: Recording>(
    rt: &impl Abort,
    tokenizer: &mut R,
    queue: &mut BufferQueue,
) -> Result<(), BuildFault> {
    assert!(rt; matches!(tokenizer.feed(queue)?, TokenizerResult::Done));
    assert!(rt; queue.is_empty());
    Ok(())
}

// After the end nothing is read.
fn ends<R: Recording>(
    rt: &impl Abort,
    alloc: Global,
    tokenizer: &mut R,
    queue: &mut BufferQueue,
) -> Result<(), BuildFault> {
    tokenizer.end()?;
    assert_eq!(rt; tokenizer.end().err(), Some(BuildFault::AfterEnd));
    queued(alloc, queue, "x")?;
    assert!(rt; matches!(tokenizer.feed(queue), Err(BuildFault::AfterEnd)));
    assert_eq!(rt; queue.as_str(), "x");
    assert_eq!(rt; tokenizer.sink().text.as_str(), "a<s>b</s>$");
    Ok(())
}

fn read_to_end<R: Recording>(
    rt: &impl Abort,
    alloc: Global,
    tokenizer: &mut R,
) -> Result<(), BuildFault> {
    let mut queue = BufferQueue::new(alloc);
    queued(alloc, &mut queue, "a<s>b</s>")?;
    stops(rt, tokenizer, &mut queue)?;
    goes_on(rt, tokenizer, &mut queue)?;
    ends(rt, alloc, tokenizer, &mut queue)
}

fn stops_at_a_script<R: Recording>(rt: &impl Abort, alloc: Global) -> Result<(), BuildFault> {
    let mut tokenizer: R = new_tokenizer(alloc, false, Answer::Stops);
    let read = read_to_end(rt, alloc, &mut tokenizer);
    drop(tokenizer);
    read
}

#[test]
fn a_script_stops_a_tokenizer(rt: HostRuntime) -> Result<(), Fail> {
    stops_at_a_script::<Plain>(&rt, rt.alloc())?;
    stops_at_a_script::<Standard>(&rt, rt.alloc())?;
    Ok(())
}

fn begins_in_a_raw_text<R: Recording>(rt: &impl Abort, alloc: Global) -> Result<(), BuildFault> {
    let opts = TokenizerOpts {
        exact_errors: false,
        discard_bom: true,
        initial_state: Some(State::RawData(RawKind::Rcdata)),
        last_start_tag_name: Some(String::from_str(alloc, "title")?),
    };
    let mut queue = BufferQueue::new(alloc);
    queued(alloc, &mut queue, "a<b>&amp;</title><b>")?;
    let mut tokenizer = R::over(alloc, Recorder::new(alloc, false, Answer::ReadsOn), opts);
    let fed = tokenizer.feed(&mut queue);
    assert_eq!(rt; tokenizer.sink().text.as_str(), "a<b>&</title><b>");
    assert_eq!(rt; tokenizer.sink().lines.as_str(), " 1 1");
    drop(tokenizer);
    fed?;
    Ok(())
}

#[test]
fn a_tokenizer_begins_in_a_raw_text(rt: HostRuntime) -> Result<(), Fail> {
    begins_in_a_raw_text::<Plain>(&rt, rt.alloc())?;
    begins_in_a_raw_text::<Standard>(&rt, rt.alloc())?;
    Ok(())
}

// Feeds both chunks and the end. Returns the first error of the tokenizer.
fn first_fault<R: Recording>(
    tokenizer: &mut R,
    queue: &mut BufferQueue,
    alloc: Global,
) -> Option<BuildFault> {
    for &chunk in &[
        "a<!-- b",
        " --><c d='e' f>&amp;\r</g><!doctype h public 'i' 'j'>\0k<!-- l",
    ] {
        if queued(alloc, queue, chunk).is_err() {
            return None;
        }
        if let Err(fault) = tokenizer.feed(queue) {
            return Some(fault);
        }
    }
    tokenizer.end().err()
}

fn fails_for_good<R: Recording>(rt: &impl Abort, alloc: Global) {
    let mut tokenizer: R = new_tokenizer(alloc, false, Answer::ReadsOn);
    let mut queue = BufferQueue::new(alloc);
    if let Some(fault) = first_fault(&mut tokenizer, &mut queue, alloc) {
        assert_eq!(rt; fault, BuildFault::Memory);
        assert!(rt; matches!(tokenizer.feed(&mut queue), Err(BuildFault::Failed)));
        assert_eq!(rt; tokenizer.end().err(), Some(BuildFault::Failed));
    }
}

#[test]
fn out_of_memory_a_tokenizer_fails_for_good(rt: HostRuntime) {
    fails_for_good::<Plain>(&rt, rt.alloc());
    fails_for_good::<Standard>(&rt, rt.alloc());
}
