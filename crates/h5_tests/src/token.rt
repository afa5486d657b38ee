//! The message of an error, and a token sink over another one.
use h5_tests_sinks::{Closing, Counting};
use h5_token::{BuildFault, Token, TokenSink, TokenSinkResult};
use std::alloc::{AllocError, AllocFailed};
use std::test::Fail;

#[test]
fn faults_say_what_is_wrong(rt: HostRuntime) -> Result<(), Fail> {
    assert_eq!(rt;
        format!(in rt.alloc(); "{}", BuildFault::Memory)?.as_str(),
        "out of memory"
    );
    assert!(rt; BuildFault::from(AllocError) == BuildFault::Memory);
    assert!(rt; BuildFault::from(AllocFailed { value: 'x' }) == BuildFault::Memory);
    Ok(())
}

#[test]
fn a_sink_stands_over_a_sink(rt: HostRuntime) -> Result<(), Fail> {
    let mut sink = Counting::new(Closing::new());
    let answer = sink
        .process_token(Token::EOFToken, 1)
        .map_err(|_| "refused")?;
    assert!(rt; matches!(answer, TokenSinkResult::Continue));
    sink.end();
    assert!(rt; sink.process_token(Token::NullCharacterToken, 1).is_err());
    assert_eq!(rt; sink.taken(), 2);
    assert!(rt; !sink.adjusted_current_node_present_but_not_in_html_namespace());
    Ok(())
}
