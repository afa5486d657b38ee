//! Parses attribute selectors (Selectors Level 4, section 6, "Attribute selectors").
ghost use Rattle.std.specs.Prelude.{◌≡◌, IfOk, option_map, string_bytes};
ghost use Rattle.std.specs.Str.{str_to_ascii_lowercase};
ghost use Rattle.h5_selectors.specs.Attributes.{attribute_at, comparison, comparison_at, flag_at, is_caseless, operator_at, required_operator_at, test_by, test_text, value_at};
ghost use Rattle.h5_selectors.specs.Reads.{Reads};
ghost use Rattle.h5_selectors.specs.Tokens.{reading};

use super::fault::{Refusal, SelectorProblem};
use super::formula::{AttrTest, Operator, Written};
use super::scan::{Scan, is_quote};
use h5_names::LocalName;
use std::alloc::{AllocError, Global};

// The attributes whose values HTML compares ASCII case-insensitively (HTML standard, section 4.16.2).
static CASELESS: [&str; 46] = [
    "accept",
    "accept-charset",
    "align",
    "alink",
    "axis",
    "bgcolor",
    "charset",
    "checked",
    "clear",
    "codetype",
    "color",
    "compact",
    "declare",
    "defer",
    "dir",
    "direction",
    "disabled",
    "enctype",
    "face",
    "frame",
    "hreflang",
    "http-equiv",
    "lang",
    "language",
    "link",
    "media",
    "method",
    "multiple",
    "nohref",
    "noresize",
    "noshade",
    "nowrap",
    "readonly",
    "rel",
    "rev",
    "rules",
    "scope",
    "scrolling",
    "selected",
    "shape",
    "target",
    "text",
    "type",
    "valign",
    "valuetype",
    "vlink",
];

// Returns true if HTML compares the values of this attribute ASCII case-insensitively.
#[tactic(auto, unfolding(crate::specs::Attributes::is_caseless))]
fn is_caseless(name: &str) -> bool
    ensures { result ≡ is_caseless name.now }
{
    CASELESS.contains(&name)
}

/// A name in its spelling, and in ASCII lower case.
pub(crate) fn written(alloc: Global, text: &str) -> Result<Written, AllocError>
    ensures { IfOk result (λ written. (written.exact ≡ text.now) × (written.lower ≡ str_to_ascii_lowercase text.now)) }
{
    let lower = text.to_ascii_lowercase(alloc)?;
    Ok(Written {
        exact: LocalName::new(alloc, text)?,
        lower: LocalName::from_string(lower)?,
    })
}

// An operator at the start of a text, and the text after it.
#[tactic(auto, unfolding(crate::specs::Attributes::operator_at))]
fn operator_at(text: &[char]) -> Option<(Operator, &[char])>
    ensures { option_map (λ found. reading found.0 found.1.now) result ≡ operator_at text.now }
{
    match text {
        ['=', rest @ ..] => Some((Operator::Equals, rest)),
        ['~', '=', rest @ ..] => Some((Operator::Includes, rest)),
        ['|', '=', rest @ ..] => Some((Operator::Dash, rest)),
        ['^', '=', rest @ ..] => Some((Operator::Begins, rest)),
        ['$', '=', rest @ ..] => Some((Operator::Ends, rest)),
        ['*', '=', rest @ ..] => Some((Operator::Contains, rest)),
        _ => None,
    }
}

// A comparison of an attribute's value: the operator, the text, and the flag for case, if there is one.
#[derive(Drop)]
pub(crate) struct Comparison {
    pub(crate) operator: Operator,
    pub(crate) text: String,
    pub(crate) flag: Option<bool>,
}

impl<'a> Scan<'a> {
    #[tactic(auto, unfolding(crate::specs::Attributes::required_operator_at))]
    fn operator(&mut self) -> Result<Operator, Refusal>
        ensures { Reads (λ operator. operator) result self.new.rest.now (required_operator_at self.old.rest.now) }
    {
        match operator_at(self.rest) {
            Some((operator, rest)) => {
                self.rest = rest;
                Ok(operator)
            }
            None => Err(self.refusal(SelectorProblem::Operator)),
        }
    }

    // A string or a name.
    #[tactic(auto, unfolding(crate::specs::Attributes::value_at))]
    pub(crate) fn value(&mut self, alloc: Global) -> Result<String, Refusal>
        ensures { Reads string_bytes result self.new.rest.now (value_at self.old.rest.now) }
    {
        self.skip_blanks();
        match self.peek() {
            Some(quote) if is_quote(quote) => {
                self.skip();
                self.string(alloc, quote)
            }
            _ => self.name_or(alloc, SelectorProblem::Value),
        }
    }

    // The flag after a value, if there is one: true to ignore case.
    #[tactic(auto, unfolding(crate::specs::Attributes::flag_at))]
    fn flag(&mut self, alloc: Global) -> Result<Option<bool>, Refusal>
        ensures { Reads (λ flag. flag) result self.new.rest.now (flag_at self.old.rest.now) }
    {
        self.skip_blanks();
        if !self.is_at_name() {
            return Ok(None);
        }
        let here = *self;
        let name = self.name_rest(alloc)?;
        match name.as_str() {
            "i" | "I" => Ok(Some(true)),
            "s" | "S" => Ok(Some(false)),
            _ => Err(here.refusal(SelectorProblem::Flag)),
        }
    }

    // The comparison of a value. Without one, `]` or the end follows.
    #[tactic(auto, unfolding(crate::specs::Attributes::comparison_at))]
    fn comparison(&mut self, alloc: Global) -> Result<Comparison, Refusal>
        ensures { Reads (λ c. comparison c.operator (string_bytes c.text) c.flag) result self.new.rest.now (comparison_at self.old.rest.now) }
    {
        if matches!(self.peek(), Some(']') | None) {
            return Ok(Comparison {
                operator: Operator::Exists,
                text: String::new(alloc),
                flag: None,
            });
        }
        let operator = self.operator()?;
        let text = self.value(alloc)?;
        let flag = self.flag(alloc)?;
        Ok(Comparison {
            operator,
            text,
            flag,
        })
    }

    /// An attribute selector, from after `[` to after `]`.
    #[tactic(auto, unfolding(crate::specs::Attributes::attribute_at))]
    pub(crate) fn attribute(&mut self, alloc: Global) -> Result<AttrTest, Refusal>
        ensures { Reads test_text result self.new.rest.now (attribute_at self.old.rest.now) }
    {
        self.skip_blanks();
        self.no_namespace()?;
        let text = self.name_or(alloc, SelectorProblem::Name)?;
        let name = written(alloc, text.as_str())?;
        self.no_namespace()?;
        self.skip_blanks();
        let compared = self.comparison(alloc)?;
        self.close(']', SelectorProblem::Flag)?;
        Ok(test_of(name, compared))
    }
}

/// The test of an attribute with this name.
pub(crate) fn test_of(name: Written, compared: Comparison) -> AttrTest
    ensures { test_text result ≡ test_by name.exact name.lower (comparison compared.operator (string_bytes compared.text) compared.flag) }
{
    let is_caseless = is_caseless(name.lower.as_str());
    AttrTest {
        name,
        operator: compared.operator,
        text: compared.text,
        ignores_case: compared.flag.unwrap_or(false),
        ignores_case_in_html: compared.flag.unwrap_or(is_caseless),
    }
}
