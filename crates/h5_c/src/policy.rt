//! Cleaning by the policy of a text, which `h5_policy` reads. No contract says what a text means as a policy: that is tested.
ghost use Rattle.std.specs.Prelude.{◌≡◌, ◌≢◌, ◌<◌, IfOk, vec_len};
ghost use Rattle.std.specs.Str.Lossy.{utf8_lossy};
ghost use Rattle.html_tree_builder.specs.AllowLists.{table_rules};
ghost use Rattle.html_tree_builder.specs.Cleaned.{IsCleaned};
ghost use Rattle.h5_c.specs.Policies.{CleansOrRefuses};

use super::status::{BAD_POLICY, NO_MEMORY, give};
use h5_policy::{PolicyFault, policy_of};
use html_tree_builder::clean::{AllowList, clean};
use std::alloc::{AllocError, Global};
use std::fmt::Write;

fn cleaned_by(alloc: Global, html: &[u8], policy: &AllowList) -> Result<Vec<u8>, AllocError>
    ensures { IfOk result (λ left. IsCleaned (table_rules policy.now) (utf8_lossy html.now) left.items) }
{
    let html = String::from_utf8_lossy(alloc, html)?;
    let left = clean(alloc, html.as_str(), policy)?;
    Ok(left.into_bytes())
}

// The message about an invalid policy, which is never empty, whatever the error writes.
fn message_of(alloc: Global, fault: PolicyFault) -> Result<Vec<u8>, AllocError>
    ensures { IfOk result (λ message. 0 < vec_len message) }
{
    let mut message = String::new(alloc);
    if write!(message, "{fault}").is_err() {
        return Err(AllocError);
    }
    if message.is_empty() {
        message.push_str("invalid policy")?;
    }
    Ok(message.into_bytes())
}

/// What the policy of a text allows of a fragment, as HTML, or a message that says what is wrong with the policy, and on which line if that is
/// known.
#[unsafe(no_mangle)]
pub extern "C" fn hengaruto_clean_by(
    alloc: Global,
    html: &[u8],
    policy: &[u8],
    cleaned_html: &mut *mut u8,
    length: &mut usize,
) -> u32
    ensures answered { CleansOrRefuses (utf8_lossy html.now) result length.new }
    ensures kept { result ≢ 0 → result ≢ 6 → length.new ≡ length.old }
{
    match policy_of(alloc, policy) {
        Ok(policy) => give(cleaned_by(alloc, html, &policy), cleaned_html, length),
        Err(PolicyFault::Memory) => NO_MEMORY,
        Err(fault) => match give(message_of(alloc, fault), cleaned_html, length) {
            NO_MEMORY => NO_MEMORY,
            _ => BAD_POLICY,
        },
    }
}
