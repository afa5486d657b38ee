//! Attributes in the common form `name="value"`.
ghost use Rattle.std.specs.Prelude.{◌≡◌, ◌<◌, ◌≤◌, IfSome, Some, length, take};
ghost use Rattle.h5_markup.specs.Ending.{walk};
ghost use Rattle.h5_markup.specs.declared.ending.Inside.TheVariants.{BeforeAttributeName};

use super::cut::{Class, first_byte, first_index};

// The length of the first attribute in bytes, if it has this form and its closing quote is there.
fn quoted_len(bytes: &[u8]) -> Option<usize>
    ensures some { IfSome result (λ n. 0 < n) }
    ensures within { IfSome result (λ n. n ≤ length bytes.now) }
    ensures walked { IfSome result (λ n. walk BeforeAttributeName (take n bytes.now) ≡ Some BeforeAttributeName) }
{
    let name = first_index(bytes, Class::AttributeNameEnd, true);
    let (_, behind) = bytes.split_at(name);
    match behind {
        [b'=', b'"', ..] => {
            let (_, inner) = behind.split_at(2);
            let value = first_byte(inner, b'"');
            if name == 0 || value == inner.len() {
                return None;
            }
            Some(name + value + 3)
        }
        _ => None,
    }
}

/// A number of bytes that can be passed at once where an attribute may begin: ASCII whitespace, slashes, and attributes of this form.
pub(crate) fn passed_len(bytes: &[u8]) -> usize
    ensures within { result ≤ length bytes.now }
    ensures walked { walk BeforeAttributeName (take result bytes.now) ≡ Some BeforeAttributeName }
{
    let mut n = 0;
    'attributes: loop {
        let (_, rest) = bytes.split_at(n);
        let between = first_index(rest, Class::BetweenAttributes, false);
        let (_, behind) = rest.split_at(between);
        match quoted_len(behind) {
            None => return n + between,
            Some(quoted) => n += between + quoted,
        }
    }
}
