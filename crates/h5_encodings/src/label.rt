//! Encodings by their labels.
ghost use Rattle.std.specs.Prelude.{◌≡◌};
ghost use Rattle.h5_encodings.specs.Labels.{encoding_labelled, is_same_word, labelled_in, past_blanks, rows_of, up_to_blanks};

use super::encoding::Encoding;
use super::labels::LABELS;

/// Returns true if the texts are equal in any ASCII case.
pub fn is_same_word(text: &[u8], word: &[u8]) -> bool
    ensures { result ≡ is_same_word text.now word.now }
{
    text.eq_ignore_ascii_case(word)
}

// Returns the encoding of the first row with this label.
fn labelled_in(table: &[(&str, Encoding)], text: &[u8]) -> Option<Encoding>
    ensures { result ≡ labelled_in (rows_of table.now) text.now }
{
    for &(label, encoding) in table {
        if is_same_word(text, label.as_bytes()) {
            return Some(encoding);
        }
    }
    None
}

// Removes ASCII whitespace from both ends.
fn trimmed(text: &[u8]) -> &[u8]
    ensures { result.now ≡ up_to_blanks (past_blanks text.now) }
{
    text.trim_ascii()
}

impl Encoding {
    /// Returns the encoding of a label, or `None` if it isn't one. ASCII case and ASCII whitespace at the ends are ignored
    /// (Encoding Standard, section 4.2, "Names and labels", "get an encoding").
    #[tactic(auto, unfolding(crate::specs::Labels::all_labels))]
    pub fn for_label(label: &[u8]) -> Option<Encoding>
        ensures { result ≡ encoding_labelled label.now }
    {
        labelled_in(&LABELS, trimmed(label))
    }
}
