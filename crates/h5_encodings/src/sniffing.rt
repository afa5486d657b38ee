//! The encoding of a page.
ghost use Rattle.std.specs.Prelude.{◌≡◌, take, IfOk};
ghost use Rattle.h5_encodings.specs.Sniffing.{encoding_of, marked};

use super::cut::begins;
use super::encoding::{Encoding, SingleByte};
use super::prescan::prescan;
use std::alloc::{AllocError, Global};

/// What is known about a page's encoding apart from its bytes.
#[derive(Clone, Copy, Debug, PartialEq, Eq)]
pub struct EncodingOpts {
    /// The encoding that the transport declares, for example in a `Content-Type` header.
    pub transport: Option<Encoding>,
    /// The encoding to use if neither the transport nor the page declares one.
    pub default: Encoding,
}

impl Default for EncodingOpts {
    ghost use Rattle.std.specs.Prelude.{◌≡◌};
    ghost use Rattle.h5_encodings.specs.Sniffing.{default_opts};

    ghost is_default = { λ opts. opts ≡ default_opts };

    /// No transport encoding; the default is windows-1252.
    fn default() -> EncodingOpts {
        EncodingOpts {
            transport: None,
            default: Encoding::SingleByte(SingleByte::Windows1252),
        }
    }
}

/// Where a page's encoding comes from.
#[derive(Clone, Copy, Debug, PartialEq, Eq)]
pub enum Source {
    /// A byte order mark.
    Mark,
    /// The transport.
    Transport,
    /// A declaration in the page.
    Meta,
    /// The default.
    Default,
}

// Returns the encoding of a byte order mark at the start.
fn marked(bytes: &[u8]) -> Option<Encoding>
    ensures { result ≡ marked bytes.now }
{
    if begins(bytes, b"\xEF\xBB\xBF") {
        Some(Encoding::Utf8)
    } else if begins(bytes, b"\xFE\xFF") {
        Some(Encoding::Utf16be)
    } else if begins(bytes, b"\xFF\xFE") {
        Some(Encoding::Utf16le)
    } else {
        None
    }
}

// Returns the encoding of a page with these first bytes.
#[tactic(auto, unfolding(crate::specs::Sniffing::encoding_of))]
fn encoding_of(
    alloc: Global,
    opts: EncodingOpts,
    bytes: &[u8],
) -> Result<(Encoding, Source), AllocError>
    ensures { IfOk result (λ found. found ≡ encoding_of opts bytes.now) }
{
    if let Some(encoding) = marked(bytes) {
        return Ok((encoding, Source::Mark));
    }
    if let Some(encoding) = opts.transport {
        return Ok((encoding, Source::Transport));
    }
    match prescan(alloc, bytes)? {
        Some(encoding) => Ok((encoding, Source::Meta)),
        None => Ok((opts.default, Source::Default)),
    }
}

// Returns the first `count` bytes.
fn first(bytes: &[u8], count: usize) -> &[u8]
    ensures { result.now ≡ take count bytes.now }
{
    if count < bytes.len() {
        let (front, _) = bytes.split_at(count);
        front
    } else {
        bytes
    }
}

/// Returns the encoding of a page, determined by its first 1,024 bytes, and where the encoding comes from: a byte order mark,
/// the transport, a declaration in the page, or the default. Later bytes don't matter (HTML standard, section 13.2.3.2,
/// "Determining the character encoding"). Fails with `AllocError` if an allocation fails.
pub fn sniff(
    alloc: Global,
    opts: EncodingOpts,
    bytes: &[u8],
) -> Result<(Encoding, Source), AllocError>
    ensures { IfOk result (λ found. found ≡ encoding_of opts (take 1024 bytes.now)) }
{
    encoding_of(alloc, opts, first(bytes, 1024))
}
