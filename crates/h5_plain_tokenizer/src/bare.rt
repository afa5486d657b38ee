//! Tags with only a name, found faster.
ghost use Rattle.std.specs.Prelude.{◌≡◌, IfSome};
ghost use Rattle.h5_tokenizer_input.specs.Lines.{newlines_passed};
ghost use Rattle.h5_plain_tokenizer.specs.Bare.{BeginsBare};

use super::front::Mode;
use super::state::Search;
use h5_token::TagKind;

/// Returns the kind and the name of the tag at the start of the text, and what follows it, if the tag has only a name and no
/// search for its end has begun.
#[inline(always)]
pub fn find_bare<'a>(
    mode: Mode,
    search: Option<Search>,
    text: &'a str,
) -> Option<(TagKind, &'a str, &'a str)>
    ensures begins { IfSome result (λ tag. BeginsBare mode text.now tag.0 tag.1.now tag.2.now) }
    ensures line { IfSome result (λ tag. newlines_passed text.now tag.2.now ≡ 0) }
{
    if search.is_some() {
        return None;
    }
    match mode {
        Mode::Data => h5_markup::find_bare(text),
        _ => None,
    }
}
