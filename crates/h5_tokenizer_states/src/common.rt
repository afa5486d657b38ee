//! The most frequent names, found by their bytes alone. `write_table.py` writes this file.
ghost use Rattle.std.specs.Prelude.{◌≡◌, ◌<◌, true, IfSome};
ghost use Rattle.h5_tokenizer_spec.specs.References.{ends_in};
ghost use Rattle.h5_tokenizer_spec.specs.Signs.{semicolon};
ghost use Rattle.h5_tokenizer_spec.specs.Words.{begins, same};
ghost use Rattle.h5_tokenizer_states.specs.Numbered.{how_many, name_of};

/// Returns the number of a common name that a text begins with. The name ends in a semicolon, so no longer name is there.
#[tactic(auto, using(crate::proofs::CommonLemmas::common_names))]
pub fn common(text: &[u8]) -> Option<usize>
    ensures within_table { IfSome result (λ number. number < how_many) }
    ensures closed { IfSome result (λ number. ends_in semicolon (name_of number) ≡ true) }
    ensures in_front { IfSome result (λ number. begins same (name_of number) text.now ≡ true) }
{
    // each name, with its number in the table
    match text {
        [b'a', b'm', b'p', b';', ..] => Some(657),
        [b'l', b't', b';', ..] => Some(1390),
        [b'g', b't', b';', ..] => Some(1135),
        [b'q', b'u', b'o', b't', b';', ..] => Some(1754),
        [b'n', b'b', b's', b'p', b';', ..] => Some(1469),
        _ => None,
    }
}
