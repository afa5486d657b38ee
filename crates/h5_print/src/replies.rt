//! Quirks modes, and replies to tokens.
ghost use Rattle.std.specs.Prelude.{◌≡◌, ◌++◌, ◌∷◌, [], codes, OnOk};
ghost use Rattle.std.specs.Fmt.{decimal};
ghost use Rattle.std.specs.String.{string_bytes};
ghost use Rattle.h5_token.specs.Reply.{Refuses, reply};
ghost use Rattle.h5_print.specs.Escapes.{escape};
ghost use Rattle.h5_print.specs.Replies.{fault_line, mode_name, numbered, quirks_line, raw_name, reply_line};

use super::escapes::write_escapes;
use h5_interface::QuirksMode;
use h5_token::states::RawKind;
use h5_token::{BuildFault, TokenSinkResult};
use std::alloc::AllocError;

fn mode_name(mode: QuirksMode) -> &'static str
    ensures { result.now ≡ mode_name mode }
{
    match mode {
        QuirksMode::Quirks => "Quirks",
        QuirksMode::LimitedQuirks => "LimitedQuirks",
        QuirksMode::NoQuirks => "NoQuirks",
    }
}

/// Appends the line of a quirks mode: `quirks: ` and its name. Fails with `AllocError` if an allocation fails; then a part of it may have
/// been written.
pub fn print_quirks(out: &mut String, mode: QuirksMode) -> Result<(), AllocError>
    ensures { OnOk result (string_bytes out.new ≡ string_bytes out.old ++ quirks_line mode) }
{
    out.push_str("quirks: ")?;
    out.push_str(mode_name(mode))?;
    out.push_str("\n")
}

fn raw_name(kind: RawKind) -> &'static str
    ensures { result.now ≡ raw_name kind }
{
    match kind {
        RawKind::Rcdata => "Rcdata",
        RawKind::Rawtext => "Rawtext",
        RawKind::ScriptData => "ScriptData",
    }
}

// The number of a token, at the start of its line.
fn print_number(out: &mut String, number: u64) -> Result<(), AllocError>
    ensures { OnOk result (string_bytes out.new ≡ string_bytes out.old ++ (decimal number ++ 32 ∷ [])) }
{
    write!(out, "{number} ")
}

fn print_line(out: &mut String, number: u64, name: &str) -> Result<(), AllocError>
    ensures { OnOk result (string_bytes out.new ≡ string_bytes out.old ++ numbered number name.now) }
{
    print_number(out, number)?;
    out.push_str(name)?;
    out.push_str("\n")
}

fn print_raw(out: &mut String, number: u64, kind: RawKind) -> Result<(), AllocError>
    ensures { OnOk result (string_bytes out.new
        ≡ string_bytes out.old ++ numbered number (codes "RawData(" ++ raw_name kind ++ codes ")")) }
{
    print_number(out, number)?;
    out.push_str("RawData(")?;
    out.push_str(raw_name(kind))?;
    out.push_str(")\n")
}

fn print_encoding(out: &mut String, number: u64, encoding: &str) -> Result<(), AllocError>
    ensures { OnOk result (string_bytes out.new
        ≡ string_bytes out.old ++ numbered number (codes "EncodingIndicator \"" ++ escape encoding.now ++ codes "\"")) }
{
    print_number(out, number)?;
    out.push_str("EncodingIndicator \"")?;
    write_escapes(out, encoding)?;
    out.push_str("\"\n")
}

/// Appends the line of the reply to the token with this number: `Script`, `Plaintext`, `RawData` with its kind, or `EncodingIndicator` with
/// its text. `Continue` has no line. Fails with `AllocError` if an allocation fails; then a part of it may have been written.
pub fn print_answer<Handle>(
    out: &mut String,
    number: u64,
    answer: &TokenSinkResult<Handle>,
) -> Result<(), AllocError>
    ensures { OnOk result (string_bytes out.new
        ≡ string_bytes out.old ++ reply_line number (reply (λ _. 0) answer.now)) }
{
    match answer {
        TokenSinkResult::Continue => Ok(()),
        TokenSinkResult::Script(_) => print_line(out, number, "Script"),
        TokenSinkResult::Plaintext => print_line(out, number, "Plaintext"),
        TokenSinkResult::RawData(kind) => print_raw(out, number, *kind),
        TokenSinkResult::EncodingIndicator(encoding) => {
            print_encoding(out, number, encoding.as_str())
        }
    }
}

/// Appends the line of an error of the token with this number: `AfterEnd` or `NotInText`. Errors that end a run have no line. Fails with
/// `AllocError` if an allocation fails; then a part of it may have been written.
pub fn print_refusal(out: &mut String, number: u64, fault: BuildFault) -> Result<(), AllocError>
    ensures { OnOk result (string_bytes out.new
        ≡ string_bytes out.old ++ reply_line number (Refuses fault)) }
{
    match fault {
        BuildFault::AfterEnd => print_line(out, number, "AfterEnd"),
        BuildFault::NotInText => print_line(out, number, "NotInText"),
        BuildFault::Memory => Ok(()),
        BuildFault::Failed => Ok(()),
    }
}
