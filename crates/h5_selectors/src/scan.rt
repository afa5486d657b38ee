//! Reads names, strings and numbers at the start of a text (CSS Syntax Level 3, section 4.3).
ghost use Rattle.std.specs.Prelude.{◌≡◌, ◌≤◌, ◌==◌, [], ◌∷◌, ◌++◌, ◌&&◌, ◌||◌, if◌then◌else◌, IfNone, IfOk, MatchOption, OnOk, drop, length, map, option_to_list, reverse, slice_get, string_bytes};
ghost use Rattle.std.specs.Char.{to_ascii_lowercase};
ghost use Rattle.std.specs.Str.{encode_utf8_all};
ghost use Rattle.std.specs.Bool.{OnFalse};
ghost use Rattle.h5_selectors.specs.Reads.{Reads};
ghost use Rattle.h5_selectors.specs.Tokens.{appended, begins, begins_name, begins_with, behind_blank, behind_blanks, behind_comment, behind_comments, blank_at, char_of, closed_at, comment_at, cleaned, digit_at, escape_at, is_at_name, is_blank, is_escape, is_in_name, is_newline, is_spaced, behind_string, behind_values, closing_of, component_at, ends, missing_behind, name_at, name_piece_at, named_or, number_at, number_within, pieces, reading, string_at, string_piece_at, unqualified_at};
ghost use Rattle.h5_selectors.specs.declared.fault.Refusal.TheVariants.{Invalid};

use super::fault::{Refusal, SelectorProblem};
use std::alloc::{AllocError, Global};

/// The text that is left.
#[derive(Clone, Copy)]
pub(crate) struct Scan<'a> {
    pub(crate) rest: &'a [char],
}

fn is_newline(c: char) -> bool
    ensures { result ≡ is_newline c }
{
    matches!(c, '\n' | '\r' | '\x0c')
}

fn is_blank(c: char) -> bool
    ensures { result ≡ is_blank c }
{
    matches!(c, ' ' | '\t') || is_newline(c)
}

// Returns true for a character that can begin a name.
fn begins_name(c: char) -> bool
    ensures { result ≡ begins_name c }
{
    matches!(c, 'a'..='z' | 'A'..='Z' | '_' | '\0') || c >= '\u{80}'
}

// Returns true for a character that can continue a name.
fn is_in_name(c: char) -> bool
    ensures { result ≡ is_in_name c }
{
    begins_name(c) || matches!(c, '0'..='9' | '-')
}

// The character with this number, or U+FFFD if there is none.
fn char_of(number: u32) -> char
    ensures { result ≡ char_of number }
{
    if number == 0 {
        return '\u{fffd}';
    }
    char::from_u32(number).unwrap_or('\u{fffd}')
}

// Replaces a NUL with U+FFFD.
fn cleaned(c: char) -> char
    ensures { result ≡ cleaned c }
{
    if c == '\0' { '\u{fffd}' } else { c }
}

// The text after a comment, from after its `/*`. A comment that isn't closed extends to the end.
fn behind_comment(within: &[char]) -> &[char]
    ensures { result.now ≡ behind_comment within.now }
{
    for at in 0..within.len() {
        if let ['*', '/', behind @ ..] = &within[at..] {
            return behind;
        }
    }
    &[]
}

// A number with another digit. The result is at most the greatest number.
fn appended(number: Option<u32>, radix: u32, digit: u32) -> u32
    ensures { result ≡ appended radix number digit }
{
    number
        .unwrap_or(0)
        .saturating_mul(radix)
        .saturating_add(digit)
}

// Adds a character to a text, if there is one.
fn push_piece(text: &mut String, piece: Option<char>) -> Result<(), AllocError>
    ensures { OnOk result (string_bytes text.new ≡ string_bytes text.old ++ encode_utf8_all (option_to_list piece)) }
{
    if let Some(c) = piece {
        text.push(c)?;
    }
    Ok(())
}

pub(crate) fn is_quote(c: char) -> bool
    ensures { result ≡ (c == 34 || c == 39) }
{
    matches!(c, '"' | '\'')
}

// Returns true for a character that ends component values outside of all brackets.
fn is_component_end(c: char) -> bool
    ensures { result ≡ (c == 44 || c == 41) }
{
    matches!(c, ',' | ')')
}

fn begins_newline(text: &[char]) -> bool
    ensures { result ≡ begins is_newline text.now }
{
    text.first().is_some_and(|c| is_newline(*c))
}

// The bracket that closes a bracket.
fn closing_of(c: char) -> Option<char>
    ensures { result ≡ closing_of c }
{
    match c {
        '(' => Some(')'),
        '[' => Some(']'),
        '{' => Some('}'),
        _ => None,
    }
}

// Adds the bracket that an opening bracket misses, and removes the last one that is missing if it is found.
fn note_bracket(missing: &mut Vec<char>, c: char) -> Result<(), AllocError>
    ensures { OnOk result (reverse missing.new.items ≡ missing_behind c (reverse missing.old.items)) }
{
    if missing.last().copied() == Some(c) {
        missing.pop();
        return Ok(());
    }
    if let Some(closing) = closing_of(c) {
        missing.push(closing)?;
    }
    Ok(())
}

impl<'a> Scan<'a> {
    pub(crate) fn peek(&self) -> Option<char>
        ensures { result ≡ slice_get self.now.rest.now 0 }
    {
        self.rest.first().copied()
    }

    /// Skips the first character.
    pub(crate) fn skip(&mut self)
        ensures { self.new.rest.now ≡ drop 1 self.old.rest.now }
    {
        if let Some((_, rest)) = self.rest.split_first() {
            self.rest = rest;
        }
    }

    /// Skips the first character if it is this one, and returns true if it is.
    pub(crate) fn take(&mut self, wanted: char) -> bool
        ensures found { result ≡ begins_with wanted self.old.rest.now }
        ensures rest { self.new.rest.now ≡ (if begins_with wanted self.old.rest.now then drop 1 self.old.rest.now else self.old.rest.now) }
    {
        if self.peek() == Some(wanted) {
            self.skip();
            return true;
        }
        false
    }

    /// Skips the first character if it is this one, and returns true if it is, or at the end.
    pub(crate) fn take_or_end(&mut self, wanted: char) -> bool
        ensures found { result ≡ ends wanted self.old.rest.now }
        ensures rest { self.new.rest.now ≡ (if ends wanted self.old.rest.now then drop 1 self.old.rest.now else self.old.rest.now) }
    {
        self.rest.is_empty() || self.take(wanted)
    }

    // Skips a comment, if there is one, and returns true if there is.
    fn skip_comment(&mut self) -> bool
        ensures found { comment_at self.old.rest.now ≡ (if result then Some (reading [] self.new.rest.now) else None) }
        ensures none { OnFalse result (self.new.rest.now ≡ self.old.rest.now) }
    {
        let ['/', '*', within @ ..] = self.rest else {
            return false;
        };
        self.rest = behind_comment(within);
        true
    }

    // Skips whitespace or a comment, if there is one. Returns the whitespace, or nothing for a comment.
    fn blank(&mut self) -> Option<Option<char>>
        ensures piece { MatchOption result (blank_at self.old.rest.now ≡ None) (λ c. blank_at self.old.rest.now ≡ Some (reading (option_to_list c) self.new.rest.now)) }
        ensures none { IfNone result (self.new.rest.now ≡ self.old.rest.now) }
    {
        match self.rest {
            [c, rest @ ..] if is_blank(*c) => {
                self.rest = rest;
                Some(Some(*c))
            }
            _ => self.skip_comment().then_some(None),
        }
    }

    /// Skips comments.
    #[tactic(auto, unfolding(crate::specs::Tokens::behind_comments))]
    pub(crate) fn skip_comments(&mut self)
        ensures { self.new.rest.now ≡ behind_comments self.old.rest.now }
    {
        for _step in 0..self.rest.len() {
            if !self.skip_comment() {
                return;
            }
        }
    }

    /// Skips whitespace and comments, and returns true if there was whitespace.
    #[tactic(auto, unfolding(crate::specs::Tokens::blanks))]
    pub(crate) fn skip_blanks(&mut self) -> bool
        ensures found { result ≡ is_spaced self.old.rest.now }
        ensures rest { self.new.rest.now ≡ behind_blanks self.old.rest.now }
    {
        let mut found = false;
        for _step in 0..self.rest.len() {
            let Some(blank) = self.blank() else {
                return found;
            };
            found |= blank.is_some();
        }
        found
    }

    /// Returns true if a name follows.
    pub(crate) fn is_at_name(&self) -> bool
        ensures { result ≡ is_at_name self.now.rest.now }
    {
        match self.rest {
            ['-', '-', ..] => true,
            ['-', '\\', c, ..] => !is_newline(*c),
            ['-', '\\'] => true,
            ['-', c, ..] => begins_name(*c),
            ['\\', c, ..] => !is_newline(*c),
            ['\\'] => true,
            [c, ..] => begins_name(*c),
            [] => false,
        }
    }

    // Reads a digit, if there is one, and returns its value.
    fn digit(&mut self, radix: u32) -> Option<u32>
        requires { (2 ≤ radix) × (radix ≤ 36) }
        ensures digit { MatchOption result (digit_at radix self.old.rest.now ≡ None) (λ digit. digit_at radix self.old.rest.now ≡ Some (reading (digit ∷ []) self.new.rest.now)) }
        ensures none { IfNone result (self.new.rest.now ≡ self.old.rest.now) }
    {
        let digit = self.peek().and_then(|c| c.to_digit(radix))?;
        self.skip();
        Some(digit)
    }

    // Reads up to `most` digits, if there are any. The number is at most the greatest one.
    #[tactic(auto, unfolding(crate::specs::Tokens::number_within))]
    fn number(&mut self, radix: u32, most: usize) -> Option<u32>
        requires { (2 ≤ radix) × (radix ≤ 36) }
        ensures value { result ≡ (number_within radix most self.old.rest.now).value }
        ensures rest { self.new.rest.now ≡ (number_within radix most self.old.rest.now).rest }
    {
        let mut number = None;
        for _step in 0..most {
            let Some(digit) = self.digit(radix) else {
                return number;
            };
            number = Some(appended(number, radix, digit));
        }
        number
    }

    // Reads an escape from after its `\`, and returns its character.
    #[tactic(auto, unfolding(crate::specs::Tokens::escape_at))]
    fn escaped(&mut self) -> char
        ensures value { result ≡ (escape_at self.old.rest.now).value }
        ensures rest { self.new.rest.now ≡ (escape_at self.old.rest.now).rest }
    {
        let [first, behind @ ..] = self.rest else {
            return '\u{fffd}';
        };
        let Some(number) = self.number(16, 6) else {
            self.rest = behind;
            return cleaned(*first);
        };
        self.skip_one_blank();
        char_of(number)
    }

    // Skips one whitespace, if there is one.
    fn skip_one_blank(&mut self)
        ensures { self.new.rest.now ≡ behind_blank self.old.rest.now }
    {
        if let ['\r', '\n', rest @ ..] = self.rest {
            self.rest = rest;
        } else if self.peek().is_some_and(is_blank) {
            self.skip();
        }
    }

    // Reads a character of a name, or an escape, if there is one.
    fn name_piece(&mut self) -> Option<char>
        ensures piece { MatchOption result (name_piece_at self.old.rest.now ≡ None) (λ c. name_piece_at self.old.rest.now ≡ Some (reading (c ∷ []) self.new.rest.now)) }
        ensures none { IfNone result (self.new.rest.now ≡ self.old.rest.now) }
    {
        match self.rest {
            ['\\', c, ..] if is_newline(*c) => None,
            ['\\', rest @ ..] => {
                self.rest = rest;
                Some(self.escaped())
            }
            [c, rest @ ..] if is_in_name(*c) => {
                self.rest = rest;
                Some(cleaned(*c))
            }
            _ => None,
        }
    }

    /// Reads the characters of a name, if there are any.
    #[tactic(auto, unfolding(crate::specs::Tokens::name_at))]
    pub(crate) fn name_rest(&mut self, alloc: Global) -> Result<String, AllocError>
        ensures name { IfOk result (λ name. string_bytes name ≡ encode_utf8_all (name_at self.old.rest.now).value) }
        ensures rest { OnOk result (self.new.rest.now ≡ (name_at self.old.rest.now).rest) }
    {
        let mut name = String::new(alloc);
        for _step in 0..self.rest.len() {
            let Some(c) = self.name_piece() else {
                return Ok(name);
            };
            name.push(c)?;
        }
        Ok(name)
    }

    /// Reads the characters of a name, if there are any, in ASCII lower case.
    #[tactic(auto, unfolding(crate::specs::Tokens::name_at))]
    pub(crate) fn lower_name(&mut self, alloc: Global) -> Result<Vec<char>, AllocError>
        ensures name { IfOk result (λ name. name.items ≡ map to_ascii_lowercase (name_at self.old.rest.now).value) }
        ensures rest { OnOk result (self.new.rest.now ≡ (name_at self.old.rest.now).rest) }
    {
        let mut name = Vec::new(alloc);
        for _step in 0..self.rest.len() {
            let Some(c) = self.name_piece() else {
                return Ok(name);
            };
            name.push(c.to_ascii_lowercase())?;
        }
        Ok(name)
    }

    // Reads a character or an escape of a string, or a `\` before a newline or the end, which has no character.
    fn string_piece(&mut self, quote: char) -> Option<Option<char>>
        ensures piece { MatchOption result (string_piece_at quote self.old.rest.now ≡ None) (λ c. string_piece_at quote self.old.rest.now ≡ Some (reading (option_to_list c) self.new.rest.now)) }
        ensures none { IfNone result (self.new.rest.now ≡ self.old.rest.now) }
    {
        match self.rest {
            ['\\', '\r', '\n', rest @ ..] => {
                self.rest = rest;
                Some(None)
            }
            ['\\', c, rest @ ..] if is_newline(*c) => {
                self.rest = rest;
                Some(None)
            }
            ['\\'] => {
                self.rest = &[];
                Some(None)
            }
            ['\\', rest @ ..] => {
                self.rest = rest;
                Some(Some(self.escaped()))
            }
            [c, rest @ ..] if *c != quote && !is_newline(*c) => {
                self.rest = rest;
                Some(Some(cleaned(*c)))
            }
            _ => None,
        }
    }

    // Reads the characters of a string.
    fn string_body(&mut self, alloc: Global, quote: char) -> Result<String, AllocError>
        ensures text { IfOk result (λ text. string_bytes text ≡ encode_utf8_all (pieces (string_piece_at quote) self.old.rest.now).value) }
        ensures rest { OnOk result (self.new.rest.now ≡ (pieces (string_piece_at quote) self.old.rest.now).rest) }
    {
        let mut text = String::new(alloc);
        for _step in 0..self.rest.len() {
            let Some(piece) = self.string_piece(quote) else {
                return Ok(text);
            };
            push_piece(&mut text, piece)?;
        }
        Ok(text)
    }

    /// Reads a string from after its quote to the other quote, or to the end.
    #[tactic(auto, unfolding(crate::specs::Tokens::string_at))]
    pub(crate) fn string(&mut self, alloc: Global, quote: char) -> Result<String, Refusal>
        ensures { Reads string_bytes result self.new.rest.now (string_at quote self.old.rest.now) }
    {
        let text = self.string_body(alloc, quote)?;
        if self.take_or_end(quote) {
            return Ok(text);
        }
        Err(self.refusal(SelectorProblem::Unclosed))
    }

    /// Reads decimal digits, if there are any. The number is at most the greatest one.
    pub(crate) fn digits(&mut self) -> Option<u32>
        ensures value { result ≡ (number_at self.old.rest.now).value }
        ensures rest { self.new.rest.now ≡ (number_at self.old.rest.now).rest }
    {
        self.number(10, self.rest.len())
    }

    /// The refusal with this problem at the current place.
    pub(crate) fn refusal(&self, problem: SelectorProblem) -> Refusal
        ensures { result ≡ Invalid (length self.now.rest.now) problem }
    {
        Refusal::Invalid {
            left: self.rest.len(),
            problem,
        }
    }

    /// Reads a name. Without one there is this problem.
    #[tactic(auto, unfolding(crate::specs::Tokens::named_or))]
    pub(crate) fn name_or(
        &mut self,
        alloc: Global,
        problem: SelectorProblem,
    ) -> Result<String, Refusal>
        ensures { Reads string_bytes result self.new.rest.now (named_or problem self.old.rest.now) }
    {
        if !self.is_at_name() {
            return Err(self.refusal(problem));
        }
        let name = self.name_rest(alloc)?;
        Ok(name)
    }

    /// Succeeds if no namespace prefix follows, before or after a name.
    #[tactic(auto, unfolding(crate::specs::Tokens::unqualified_at))]
    pub(crate) fn no_namespace(&self) -> Result<(), Refusal>
        ensures { Reads (λ _. tt) result self.now.rest.now (unqualified_at self.now.rest.now) }
    {
        match self.rest {
            ['|', '=', ..] => Ok(()),
            ['|', ..] | ['*', '|', ..] => Err(self.refusal(SelectorProblem::Namespace)),
            _ => Ok(()),
        }
    }

    /// Reads a closing bracket, which the end stands for. Without one there is this problem.
    #[tactic(auto, unfolding(crate::specs::Tokens::closed_at))]
    pub(crate) fn close(&mut self, bracket: char, problem: SelectorProblem) -> Result<(), Refusal>
        ensures { Reads (λ _. tt) result self.new.rest.now (closed_at bracket problem self.old.rest.now) }
    {
        self.skip_blanks();
        if self.take_or_end(bracket) {
            return Ok(());
        }
        Err(self.refusal(problem))
    }

    // Skips a string from after its quote. A newline ends it before the other quote.
    fn skip_string(&mut self, alloc: Global, quote: char) -> Result<(), AllocError>
        ensures { OnOk result (self.new.rest.now ≡ behind_string quote self.old.rest.now) }
    {
        let _text = self.string_body(alloc, quote)?;
        self.take(quote);
        Ok(())
    }

    // Returns true if an escape follows.
    fn is_escape(&self) -> bool
        ensures { result ≡ is_escape self.now.rest.now }
    {
        match self.rest {
            ['\\', behind @ ..] => !begins_newline(behind),
            _ => false,
        }
    }

    // Skips a comment, an escape, a string or another character of component values, and notes the brackets that are missing after it.
    // Returns false at their end.
    fn skip_component(&mut self, alloc: Global, missing: &mut Vec<char>) -> Result<bool, AllocError>
        ensures found { IfOk result (λ found. component_at (reverse missing.old.items) self.old.rest.now
            ≡ (if found then Some (reading (reverse missing.new.items) self.new.rest.now) else None)) }
        ensures none { IfOk result (λ found. OnFalse found (self.new.rest.now ≡ self.old.rest.now)) }
    {
        if self.skip_comment() {
            return Ok(true);
        }
        if self.is_escape() {
            self.skip();
            let _character = self.escaped();
            return Ok(true);
        }
        let Some(c) = self.peek() else {
            return Ok(false);
        };
        if is_quote(c) {
            self.skip();
            self.skip_string(alloc, c)?;
            return Ok(true);
        }
        if missing.is_empty() && is_component_end(c) {
            return Ok(false);
        }
        self.skip();
        note_bracket(missing, c)?;
        Ok(true)
    }

    /// Skips component values, up to a comma or a closing bracket.
    pub(crate) fn skip_values(&mut self, alloc: Global) -> Result<(), AllocError>
        ensures { OnOk result (self.new.rest.now ≡ behind_values self.old.rest.now) }
    {
        let mut missing = Vec::new(alloc);
        for _step in 0..self.rest.len() {
            if !self.skip_component(alloc, &mut missing)? {
                return Ok(());
            }
        }
        Ok(())
    }
}
