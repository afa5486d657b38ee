//! Attributes written `name="value"` or `name='value'`, without references. Most are.

ghost use Rattle.std.specs.Prelude.{◌≡◌, ◌∷◌, IfSome};
ghost use Rattle.h5_tokenizer_spec.specs.Signs.{equals_sign, sign_of};
ghost use Rattle.h5_tokenizer_states.specs.Quoted.{IsQuoted};

use super::runs::{Run, count_run};
use h5_tokenizer_spec::Quote;

/// A quoted attribute, the newlines of its value, and what follows it.
#[derive(Drop)]
pub struct QuotedAttribute<'a> {
    pub name: &'a str,
    pub value: &'a str,
    pub lines: u64,
    pub rest: &'a str,
}

// Returns the quote of the value after a `=`, and what follows it.
fn open_value<'a>(text: &'a str) -> Option<(Quote, &'a str)>
    ensures { IfSome result (λ opened. text.now ≡ equals_sign ∷ (sign_of opened.0 ∷ opened.1.now)) }
{
    match text.as_bytes() {
        [b'=', b'"', ..] => Some((Quote::Double, text.split_at(2).1)),
        [b'=', b'\'', ..] => Some((Quote::Single, text.split_at(2).1)),
        _ => None,
    }
}

// Returns what follows the quote that ends a value.
fn close_value<'a>(quote: Quote, text: &'a str) -> Option<&'a str>
    ensures { IfSome result (λ rest. text.now ≡ sign_of quote ∷ rest.now) }
{
    match (quote, text.as_bytes()) {
        (Quote::Double, [b'"', ..]) => Some(text.split_at(1).1),
        (Quote::Single, [b'\'', ..]) => Some(text.split_at(1).1),
        _ => None,
    }
}

/// Returns the attribute at the start, if it is quoted, has no references, and its closing quote is there.
pub fn find_quoted<'a>(text: &'a str) -> Option<QuotedAttribute<'a>>
    ensures { IfSome result (λ found. IsQuoted text.now found.name.now found.value.now found.lines found.rest.now) }
{
    let (n, _) = count_run(Run::AttributeName, text);
    if n == 0 {
        return None;
    }
    let (name, behind) = text.split_at(n);
    let (quote, inner) = open_value(behind)?;
    let (m, lines) = count_run(Run::Quoted(quote), inner);
    let (value, end) = inner.split_at(m);
    let rest = close_value(quote, end)?;
    Some(QuotedAttribute {
        name,
        value,
        lines,
        rest,
    })
}
