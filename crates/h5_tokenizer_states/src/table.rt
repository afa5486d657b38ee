//! The named character references by their numbers, which are their indices in the table.
ghost use Rattle.std.specs.Prelude.{◌≡◌, ◌<◌, ◌≤◌};
ghost use Rattle.h5_tokenizer_states.specs.Numbered.{
  all_names,
  all_texts,
  how_many,
  name_begin,
  name_of,
  text_begin,
  text_of,
};

use super::numbers::{NAME_BEGINS, NAMES, TEXT_BEGINS, TEXTS};

/// The number of references.
pub const COUNT: usize = 2231;

#[tactic(auto, unfolding(crate::specs::Numbered::all_names))]
fn all_names() -> &'static [u8]
    ensures { result.now ≡ all_names }
{
    &NAMES
}

#[tactic(auto, unfolding(crate::specs::Numbered::all_texts))]
fn all_texts() -> &'static str
    ensures { result.now ≡ all_texts }
{
    TEXTS
}

// Returns the start of a name; for `COUNT`, the end of the last name.
#[tactic(auto, unfolding(crate::specs::Numbered::name_begin))]
fn name_begin(number: usize) -> usize
    requires { number ≤ how_many }
    ensures { result ≡ name_begin number }
{
    NAME_BEGINS[number] as usize
}

// Returns the start of a text; for `COUNT`, the end of the last text.
#[tactic(auto, unfolding(crate::specs::Numbered::text_begin))]
fn text_begin(number: usize) -> usize
    requires { number ≤ how_many }
    ensures { result ≡ text_begin number }
{
    TEXT_BEGINS[number] as usize
}

/// Returns a reference's name, without its `&`.
pub fn name(number: usize) -> &'static [u8]
    requires { number < how_many }
    ensures { result.now ≡ name_of number }
{
    let from = name_begin(number);
    let to = name_begin(number + 1);
    &all_names()[from..to]
}

/// Returns a reference's text, which is one or two characters.
pub fn text(number: usize) -> &'static str
    requires { number < how_many }
    ensures { result.now ≡ text_of number }
{
    let from = text_begin(number);
    let to = text_begin(number + 1);
    &all_texts()[from..to]
}
