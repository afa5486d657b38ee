//! Writers that fail, at each write in turn.
use super::serialize::{Step, WALKS, Walk, breaking, make};
use super::trees::{DOCUMENT, build_document};
use h5_arena::Arena;
use h5_serialize::{HtmlSerializer, Serialize, SerializeFault, SerializeOpts, TraversalScope};
use h5_tests_sinks::{Broken, all_calls_fail};
use std::alloc::{AllocError, Global};
use std::process::Abort;
use std::test::Fail;

// Makes one call. If none of its writes fails it returns this result; if one does, `Write`; and from then on `Failed`, with nothing
// written.
fn take(
    rt: &impl Abort,
    alloc: Global,
    serializer: &mut HtmlSerializer<Broken>,
    step: Step<'_>,
    answer: Result<(), SerializeFault>,
) {
    let had_failed = serializer.writer.has_failed();
    let length = serializer.writer.bytes().len();
    let given = make(serializer, alloc, step);
    let expected = match (had_failed, serializer.writer.has_failed()) {
        (true, _) => Err(SerializeFault::Failed),
        (false, true) => Err(SerializeFault::Write),
        (false, false) => answer,
    };
    assert_eq!(rt; given, expected);
    assert!(rt; !had_failed || serializer.writer.bytes().len() == length);
}

// Makes the calls of a walk.
fn take_all(
    rt: &impl Abort,
    alloc: Global,
    serializer: &mut HtmlSerializer<Broken>,
    steps: &[Step<'_>],
    refused: &[usize],
) {
    for (place, step) in steps.iter().enumerate() {
        let answer = if refused.contains(&place) {
            Err(SerializeFault::NoParent)
        } else {
            Ok(())
        };
        take(rt, alloc, serializer, *step, answer);
    }
}

// Returns true if no write failed; then the whole text was written. Else a prefix of it was, and each call fails and writes nothing.
fn is_whole(
    rt: &impl Abort,
    alloc: Global,
    serializer: &mut HtmlSerializer<Broken>,
    text: &str,
) -> Result<bool, AllocError> {
    if !serializer.writer.has_failed() {
        assert_eq!(rt; serializer.writer.bytes(), text.as_bytes());
        return Ok(true);
    }
    assert!(rt; text.as_bytes().starts_with(serializer.writer.bytes()));
    let length = serializer.writer.bytes().len();
    assert!(rt; all_calls_fail(alloc, serializer)?);
    assert_eq!(rt; serializer.writer.bytes().len(), length);
    Ok(false)
}

// The walk, whose write after the given number of others fails. Returns true if none did.
fn walk_is_whole(
    rt: &impl Abort,
    alloc: Global,
    (options, steps, refused, text): Walk,
    before: usize,
) -> Result<bool, SerializeFault> {
    let mut serializer = breaking(alloc, options.opts(alloc)?, before)?;
    take_all(rt, alloc, &mut serializer, steps, refused);
    let whole = is_whole(rt, alloc, &mut serializer, text);
    drop(serializer);
    Ok(whole?)
}

// Lets each write fail in turn, until none fails.
fn each_write_fails(rt: &impl Abort, alloc: Global, walk: Walk) -> Result<(), SerializeFault> {
    for before in 0..100 {
        if walk_is_whole(rt, alloc, walk, before)? {
            assert!(rt; before > 0);
            return Ok(());
        }
    }
    assert!(rt; false, "a write failed in each run");
    Ok(())
}

#[test]
fn each_write_of_a_walk_fails_in_turn(rt: HostRuntime) -> Result<(), Fail> {
    for &walk in &WALKS {
        each_write_fails(&rt, rt.alloc(), walk)?;
    }
    Ok(())
}

// The walk of an arena's document, in the same way.
fn document_is_whole(
    rt: &impl Abort,
    alloc: Global,
    arena: &Arena,
    before: usize,
) -> Result<bool, SerializeFault> {
    let mut serializer = breaking(alloc, SerializeOpts::default(), before)?;
    let document = arena.at(arena.document());
    let given = document.serialize(&mut serializer, TraversalScope::ChildrenOnly(None));
    let expected = if serializer.writer.has_failed() {
        Err(SerializeFault::Write)
    } else {
        Ok(())
    };
    assert_eq!(rt; given, expected);
    let whole = is_whole(rt, alloc, &mut serializer, DOCUMENT);
    drop(serializer);
    Ok(whole?)
}

fn each_write_of_document_fails(
    arena: &mut Arena,
    alloc: Global,
    rt: &impl Abort,
) -> Result<(), Fail> {
    build_document(arena, alloc, rt)?;
    for before in 0..100 {
        if document_is_whole(rt, alloc, arena, before)? {
            assert!(rt; before > 4);
            return Ok(());
        }
    }
    assert!(rt; false, "a write failed in each run");
    Ok(())
}

#[test]
fn each_write_of_a_document_fails_in_turn(rt: HostRuntime) -> Result<(), Fail> {
    let mut arena = Arena::new(rt.alloc())?;
    let checked = each_write_of_document_fails(&mut arena, rt.alloc(), &rt);
    drop(arena);
    checked
}
