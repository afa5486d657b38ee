//! Parses selectors (Selectors Level 4, sections 4.1 and 17). Each combinator becomes a relation: backwards or, inside `:has()`, forwards.
ghost use Rattle.std.specs.Prelude.{◌≡◌, ◌-◌, ◌==◌, [], ◌∷◌, ◌++◌, IfErr, IfOk, MatchResult, None, OnOk, Some, bytes_eq, codes, false, length, map, option_map, option_to_list, string_bytes, true};
ghost use Rattle.std.specs.Str.{chars};
ghost use Rattle.h5_selectors.specs.Asking.{AskAnd, AskNthOfType, asked};
ghost use Rattle.h5_selectors.specs.Fault.{Found, IsWithin, Tells};
ghost use Rattle.h5_selectors.specs.Grammar.{all_of, any_of, arguments_within, backwards, both_if, alone, commas_at, complex_at, compound_at, forgiven_at, forgiving_list_at, forwards, function_at, is_limit, item_at, languages_at, left_out, link_asked, links_at, list_at, nth_child_at, of_at, plain_by, pseudo_class_at, range_item, relative_at, selector_at, selectors_of, simple_at, simples_at, top_at};
ghost use Rattle.h5_selectors.specs.PseudoClasses.{end_child, first, function_of, plain_of};
ghost use Rattle.h5_selectors.specs.Reads.{Fails, Takes};
ghost use Rattle.h5_selectors.specs.declared.fault.Refusal.TheVariants.{Invalid};
ghost use Rattle.h5_selectors.specs.declared.fault.SelectorProblem.TheVariants.{TooLong};
ghost use Rattle.h5_selectors.specs.declared.formula.Side.TheVariants.{First, Last};

use super::combinators::{Link, backwards, forwards};
use super::conditions::{all_of, along, any_of, both, both_if, negated, nth};
use super::controls::{checked, disabled, enabled};
use super::fault::{Refusal, SelectorError, SelectorProblem};
use super::formula::{AnPlusB, Formula, Side, Way};
use super::scan::Scan;
use std::alloc::{AllocError, Global};

// The greatest number of parts of a selector, including nested selectors: a compound selector is one, and so is each id, class, attribute
// and pseudo-class in it.
const MOST_PARTS: u32 = 1000;

// The greatest number of pseudo-classes with arguments in each other.
const MOST_LEVELS: u32 = 32;

const FIRST: AnPlusB = AnPlusB {
    step: 0,
    falls: false,
    offset: 1,
    is_under: false,
};

// The first or the last child.
fn first_child(alloc: Global, side: Side) -> Result<Formula, AllocError>
    ensures { IfOk result (λ made. asked made ≡ end_child side) }
{
    nth(alloc, FIRST, side, Formula::Any)
}

// The condition of a pseudo-class without arguments, by its name in lower case.
#[tactic(auto, unfolding(crate::specs::PseudoClasses::plain_of))]
fn plain(alloc: Global, name: &str, begin: Scan<'_>) -> Result<Formula, Refusal>
    ensures { MatchResult result (λ made. plain_of name.now ≡ Some (asked made)) (λ refusal. Fails refusal (plain_by name.now (length begin.entry.rest.now) (plain_of name.now))) }
{
    match name {
        "root" => Ok(Formula::Root),
        "scope" => Ok(Formula::Scope),
        "empty" => Ok(Formula::Empty),
        "any-link" | "link" => Ok(Formula::Link),
        "checked" => Ok(checked(alloc)?),
        "disabled" => Ok(disabled(alloc)?),
        "enabled" => Ok(enabled(alloc)?),
        "first-child" => Ok(first_child(alloc, Side::First)?),
        "last-child" => Ok(first_child(alloc, Side::Last)?),
        "only-child" => Ok(only_child(alloc)?),
        "first-of-type" => Ok(Formula::NthOfType(FIRST, Side::First)),
        "last-of-type" => Ok(Formula::NthOfType(FIRST, Side::Last)),
        "only-of-type" => Ok(only_of_type(alloc)?),
        "before" | "after" | "first-line" | "first-letter" => {
            Err(begin.refusal(SelectorProblem::PseudoElement))
        }
        _ => Err(begin.refusal(SelectorProblem::PseudoClass)),
    }
}

fn only_child(alloc: Global) -> Result<Formula, AllocError>
    ensures { IfOk result (λ made. asked made ≡ AskAnd (end_child First) (end_child Last)) }
{
    both(
        alloc,
        first_child(alloc, Side::First)?,
        first_child(alloc, Side::Last)?,
    )
}

fn only_of_type(alloc: Global) -> Result<Formula, AllocError>
    ensures { IfOk result (λ made. asked made ≡ AskAnd (AskNthOfType first First) (AskNthOfType first Last)) }
{
    both(
        alloc,
        Formula::NthOfType(FIRST, Side::First),
        Formula::NthOfType(FIRST, Side::Last),
    )
}

// A list of a condition, or an empty one.
fn listed(alloc: Global, formula: Option<Formula>) -> Result<Vec<Formula>, AllocError>
    ensures { IfOk result (λ list. map asked list.items ≡ option_to_list (option_map asked formula)) }
{
    let mut list = Vec::new(alloc);
    if let Some(formula) = formula {
        list.push(formula)?;
    }
    Ok(list)
}

// Adds a condition to a list, if there is one.
fn add(list: &mut Vec<Formula>, formula: Option<Formula>) -> Result<(), AllocError>
    ensures { OnOk result (map asked list.new.items ≡ map asked list.old.items ++ option_to_list (option_map asked formula)) }
{
    if let Some(formula) = formula {
        list.push(formula)?;
    }
    Ok(())
}

// A pseudo-class with arguments.
#[derive(Clone, Copy)]
enum Function {
    Not,
    Is,
    Has,
    NthChild(Side),
    NthOfType(Side),
    Lang,
}

// The pseudo-class with this name in lower case.
#[tactic(auto, unfolding(crate::specs::PseudoClasses::function_of))]
fn function_of(name: &str) -> Option<Function>
    ensures { result ≡ function_of name.now }
{
    match name {
        "not" => Some(Function::Not),
        "is" | "where" => Some(Function::Is),
        "has" => Some(Function::Has),
        "nth-child" => Some(Function::NthChild(Side::First)),
        "nth-last-child" => Some(Function::NthChild(Side::Last)),
        "nth-of-type" => Some(Function::NthOfType(Side::First)),
        "nth-last-of-type" => Some(Function::NthOfType(Side::Last)),
        "lang" => Some(Function::Lang),
        _ => None,
    }
}

// Returns true for the name before the selectors in `:nth-child()`.
fn is_of(name: &[char]) -> bool
    ensures { result ≡ bytes_eq name.now (codes "of") }
{
    matches!(name, ['o', 'f'])
}

// Returns true for a problem that isn't forgiven.
fn is_limit(problem: SelectorProblem) -> bool
    ensures { result ≡ is_limit problem }
{
    matches!(problem, SelectorProblem::TooLong | SelectorProblem::TooDeep)
}

// The place of a selector.
#[derive(Clone, Copy)]
struct Nesting {
    // How deep selectors may still be nested in it.
    room: u32,
    is_in_has: bool,
}

// A parser, with the number of parts that are left.
#[derive(Drop)]
struct Parser<'a> {
    scan: Scan<'a>,
    parts: u32,
    alloc: Global,
}

impl<'a> Parser<'a> {
    fn count_part(&mut self) -> Result<(), Refusal>
        ensures refused { IfErr result (λ refusal. (refusal ≡ Invalid (length self.old.scan.rest.now) TooLong) × ((self.old.parts == 0) ≡ true)) }
        ensures counted { OnOk result ((self.old.parts == 0) ≡ false) }
        ensures parts { OnOk result (self.new.parts ≡ self.old.parts - 1) }
        ensures scan { self.new.scan ≡ self.old.scan }
    {
        if self.parts == 0 {
            return Err(self.scan.refusal(SelectorProblem::TooLong));
        }
        self.parts -= 1;
        Ok(())
    }

    // Skips a selector that is left out, which begins at `begin`, with its parts.
    fn leave_out(&mut self, begin: Scan<'a>, parts: u32) -> Result<Option<Formula>, Refusal>
        ensures { Takes (λ found. option_to_list (option_map asked found)) result self.new.parts self.new.scan.rest.now (left_out parts begin.entry.rest.now) }
    {
        self.scan = begin;
        self.parts = parts;
        self.scan.skip_values(self.alloc)?;
        Ok(None)
    }

    // A language range, and the whitespace after it.
    #[tactic(auto, unfolding(crate::specs::Grammar::range_at))]
    fn range(&mut self) -> Result<String, Refusal>
        ensures { Takes string_bytes result self.new.parts self.new.scan.rest.now (range_item self.old.parts self.old.scan.rest.now) }
    {
        let range = self.scan.value(self.alloc)?;
        self.scan.skip_blanks();
        Ok(range)
    }

    // The language ranges after the first, each after a comma.
    fn more_ranges(&mut self, first: String) -> Result<Vec<String>, Refusal>
        ensures { Takes (λ ranges. map string_bytes ranges.items) result self.new.parts self.new.scan.rest.now
            (commas_at (alone range_item) (string_bytes first ∷ []) self.old.parts self.old.scan.rest.now) }
    {
        let mut ranges = Vec::new(self.alloc);
        ranges.push(first)?;
        for _step in 0..self.scan.rest.len() {
            if !self.scan.take(',') {
                return Ok(ranges);
            }
            ranges.push(self.range()?)?;
        }
        Ok(ranges)
    }

    // The condition of `:lang()`.
    #[tactic(auto, unfolding(crate::specs::Grammar::languages_at))]
    fn languages(&mut self) -> Result<Formula, Refusal>
        ensures { Takes asked result self.new.parts self.new.scan.rest.now (languages_at self.old.parts self.old.scan.rest.now) }
    {
        let first = self.range()?;
        let ranges = self.more_ranges(first)?;
        Ok(Formula::Lang(ranges))
    }

    // The arguments of a pseudo-class, which begins at `begin`.
    #[cycle(parse)]
    #[tactic(auto, unfolding(crate::specs::Grammar::arguments_within, crate::specs::Grammar::arguments_by))]
    fn arguments(
        &mut self,
        function: Function,
        begin: Scan<'a>,
        nesting: Nesting,
    ) -> Result<Formula, Refusal>
        ensures { Takes asked result self.new.parts self.new.scan.rest.now (arguments_within nesting.room nesting.is_in_has function (length begin.entry.rest.now) self.old.parts self.old.scan.rest.now) }
    {
        if nesting.room == 0 {
            return Err(begin.refusal(SelectorProblem::TooDeep));
        }
        let inner = Nesting {
            room: nesting.room - 1,
            is_in_has: nesting.is_in_has,
        };
        match function {
            Function::Not => {
                let list = self.list(false, inner)?;
                Ok(negated(self.alloc, list)?)
            }
            Function::Is => self.forgiving_list(inner),
            Function::Has if nesting.is_in_has => Err(begin.refusal(SelectorProblem::NestedHas)),
            Function::Has => self.list(
                true,
                Nesting {
                    room: inner.room,
                    is_in_has: true,
                },
            ),
            Function::NthChild(side) => self.nth_child(side, inner),
            Function::NthOfType(side) => {
                Ok(Formula::NthOfType(self.scan.indices(self.alloc)?, side))
            }
            Function::Lang => self.languages(),
        }
    }

    // The condition of `:nth-child()` or `:nth-last-child()`.
    #[cycle(parse)]
    #[tactic(auto, unfolding(crate::specs::Grammar::nth_child_at))]
    fn nth_child(&mut self, side: Side, nesting: Nesting) -> Result<Formula, Refusal>
        ensures { Takes asked result self.new.parts self.new.scan.rest.now (nth_child_at (arguments_within nesting.room nesting.is_in_has) side self.old.parts self.old.scan.rest.now) }
    {
        let indices = self.scan.indices(self.alloc)?;
        let of = self.of(nesting)?;
        Ok(nth(self.alloc, indices, side, of)?)
    }

    // The condition on the siblings that are counted.
    #[cycle(parse)]
    #[tactic(auto, unfolding(crate::specs::Grammar::of_at))]
    fn of(&mut self, nesting: Nesting) -> Result<Formula, Refusal>
        ensures { Takes asked result self.new.parts self.new.scan.rest.now (of_at (arguments_within nesting.room nesting.is_in_has) self.old.parts self.old.scan.rest.now) }
    {
        self.scan.skip_blanks();
        if !self.scan.is_at_name() {
            return Ok(Formula::Any);
        }
        let here = self.scan;
        let name = self.scan.lower_name(self.alloc)?;
        if !is_of(name.as_slice()) {
            return Err(here.refusal(SelectorProblem::AnPlusB));
        }
        self.list(false, nesting)
    }

    // A pseudo-class with arguments, by its name in lower case, from after its `(` to after its `)`.
    #[cycle(parse)]
    #[tactic(auto, unfolding(crate::specs::Grammar::function_at))]
    fn function(
        &mut self,
        name: &str,
        begin: Scan<'a>,
        nesting: Nesting,
    ) -> Result<Formula, Refusal>
        ensures { Takes asked result self.new.parts self.new.scan.rest.now (function_at (arguments_within nesting.room nesting.is_in_has) name.now (length begin.entry.rest.now) self.old.parts self.old.scan.rest.now) }
    {
        let Some(function) = function_of(name) else {
            return Err(begin.refusal(SelectorProblem::PseudoClass));
        };
        let formula = self.arguments(function, begin, nesting)?;
        self.scan.close(')', SelectorProblem::Rest)?;
        Ok(formula)
    }

    // A pseudo-class, from after its `:`.
    #[cycle(parse)]
    #[tactic(auto, unfolding(crate::specs::Grammar::pseudo_class_at))]
    fn pseudo_class(&mut self, begin: Scan<'a>, nesting: Nesting) -> Result<Formula, Refusal>
        ensures { Takes asked result self.new.parts self.new.scan.rest.now (pseudo_class_at (arguments_within nesting.room nesting.is_in_has) (length begin.entry.rest.now) self.old.parts self.old.scan.rest.now) }
    {
        if self.scan.peek() == Some(':') {
            return Err(begin.refusal(SelectorProblem::PseudoElement));
        }
        let name = self.scan.name_or(self.alloc, SelectorProblem::Name)?;
        let lower = name.as_str().to_ascii_lowercase(self.alloc)?;
        if self.scan.take('(') {
            return self.function(lower.as_str(), begin, nesting);
        }
        plain(self.alloc, lower.as_str(), begin)
    }

    // An id, a class, an attribute or a pseudo-class, if there is one.
    #[cycle(parse)]
    #[tactic(auto, unfolding(crate::specs::Grammar::simple_at))]
    fn simple(&mut self, nesting: Nesting) -> Result<Option<Formula>, Refusal>
        ensures { Takes (option_map asked) result self.new.parts self.new.scan.rest.now (simple_at (arguments_within nesting.room nesting.is_in_has) self.old.parts self.old.scan.rest.now) }
    {
        let begin = self.scan;
        let Some(c) = begin.peek() else {
            return Ok(None);
        };
        if !matches!(c, '#' | '.' | '[' | ':') {
            return Ok(None);
        }
        self.count_part()?;
        self.scan.skip();
        let formula = match c {
            '#' => Formula::Id(self.scan.name_or(self.alloc, SelectorProblem::Name)?),
            '.' => {
                self.scan.skip_comments();
                Formula::Class(self.scan.name_or(self.alloc, SelectorProblem::Name)?)
            }
            '[' => Formula::Attr(self.scan.attribute(self.alloc)?),
            _ => {
                self.scan.skip_comments();
                self.pseudo_class(begin, nesting)?
            }
        };
        Ok(Some(formula))
    }

    // The type, if there is one, and all ids, classes, attributes and pseudo-classes that follow.
    #[cycle(parse)]
    fn simples(&mut self, begun: Option<Formula>, nesting: Nesting) -> Result<Vec<Formula>, Refusal>
        ensures { Takes (λ all. map asked all.items) result self.new.parts self.new.scan.rest.now
            (simples_at (arguments_within nesting.room nesting.is_in_has) (option_to_list (option_map asked begun)) self.old.parts self.old.scan.rest.now) }
    {
        let mut all = listed(self.alloc, begun)?;
        for _step in 0..self.scan.rest.len() {
            self.scan.skip_comments();
            let Some(next) = self.simple(nesting)? else {
                return Ok(all);
            };
            all.push(next)?;
        }
        Ok(all)
    }

    // A compound selector.
    #[cycle(parse)]
    #[tactic(auto, unfolding(crate::specs::Grammar::compound_at))]
    fn compound(&mut self, nesting: Nesting) -> Result<Formula, Refusal>
        ensures { Takes asked result self.new.parts self.new.scan.rest.now (compound_at (arguments_within nesting.room nesting.is_in_has) self.old.parts self.old.scan.rest.now) }
    {
        self.count_part()?;
        let begun = self.scan.type_or_any(self.alloc)?;
        let all = self.simples(begun, nesting)?;
        if all.is_empty() {
            return Err(self.scan.refusal(SelectorProblem::Selector));
        }
        Ok(all_of(self.alloc, all)?)
    }

    // Combinators, each followed by a compound selector.
    #[cycle(parse)]
    fn links(&mut self, nesting: Nesting) -> Result<Vec<Link>, Refusal>
        ensures { Takes (λ links. map link_asked links.items) result self.new.parts self.new.scan.rest.now (links_at (arguments_within nesting.room nesting.is_in_has) self.old.parts self.old.scan.rest.now) }
    {
        let mut links = Vec::new(self.alloc);
        for _step in 0..self.scan.rest.len() {
            let Some(combinator) = self.scan.combinator() else {
                return Ok(links);
            };
            let compound = self.compound(nesting)?;
            links.push(Link {
                combinator,
                compound,
            })?;
        }
        Ok(links)
    }

    // A complex selector.
    #[cycle(parse)]
    #[tactic(auto, unfolding(crate::specs::Grammar::complex_at))]
    fn complex(&mut self, nesting: Nesting) -> Result<Formula, Refusal>
        ensures { Takes asked result self.new.parts self.new.scan.rest.now (complex_at (arguments_within nesting.room nesting.is_in_has) self.old.parts self.old.scan.rest.now) }
    {
        self.scan.skip_blanks();
        let first = self.compound(nesting)?;
        let links = self.links(nesting)?;
        Ok(backwards(self.alloc, first, links)?)
    }

    // A relative selector.
    #[cycle(parse)]
    #[tactic(auto, unfolding(crate::specs::Grammar::relative_at))]
    fn relative(&mut self, nesting: Nesting) -> Result<Formula, Refusal>
        ensures { Takes asked result self.new.parts self.new.scan.rest.now (relative_at (arguments_within nesting.room nesting.is_in_has) self.old.parts self.old.scan.rest.now) }
    {
        let leading = self.scan.leading_combinator();
        let first = self.compound(nesting)?;
        let links = self.links(nesting)?;
        let further = forwards(self.alloc, links)?;
        let all = both_if(self.alloc, first, further)?;
        Ok(along(self.alloc, leading.forth(), all)?)
    }

    // One selector of a list.
    #[cycle(parse)]
    fn selector(&mut self, is_relative: bool, nesting: Nesting) -> Result<Formula, Refusal>
        ensures { Takes asked result self.new.parts self.new.scan.rest.now (selector_at (arguments_within nesting.room nesting.is_in_has) is_relative self.old.parts self.old.scan.rest.now) }
    {
        if is_relative {
            return self.relative(nesting);
        }
        self.complex(nesting)
    }

    // A list of selectors, separated by commas.
    #[cycle(parse)]
    #[tactic(auto, unfolding(crate::specs::Grammar::list_at))]
    fn list(&mut self, is_relative: bool, nesting: Nesting) -> Result<Formula, Refusal>
        ensures { Takes asked result self.new.parts self.new.scan.rest.now (list_at (arguments_within nesting.room nesting.is_in_has) is_relative self.old.parts self.old.scan.rest.now) }
    {
        let first = self.selector(is_relative, nesting)?;
        let all = self.others(first, is_relative, nesting)?;
        Ok(any_of(self.alloc, all)?)
    }

    // A selector, and those that follow, each after a comma.
    #[cycle(parse)]
    fn others(
        &mut self,
        first: Formula,
        is_relative: bool,
        nesting: Nesting,
    ) -> Result<Vec<Formula>, Refusal>
        ensures { Takes (λ all. map asked all.items) result self.new.parts self.new.scan.rest.now
            (commas_at (item_at (arguments_within nesting.room nesting.is_in_has) is_relative) (asked first ∷ []) self.old.parts self.old.scan.rest.now) }
    {
        let mut all = Vec::new(self.alloc);
        all.push(first)?;
        for _step in 0..self.scan.rest.len() {
            if !self.scan.take(',') {
                return Ok(all);
            }
            let next = self.selector(is_relative, nesting)?;
            all.push(next)?;
        }
        Ok(all)
    }

    // A selector of a forgiving list. One that is invalid is left out, with its parts.
    #[cycle(parse)]
    #[tactic(auto, unfolding(crate::specs::Grammar::forgiven_at))]
    fn forgiven(&mut self, nesting: Nesting) -> Result<Option<Formula>, Refusal>
        ensures { Takes (λ found. option_to_list (option_map asked found)) result self.new.parts self.new.scan.rest.now
            (forgiven_at (arguments_within nesting.room nesting.is_in_has) self.old.parts self.old.scan.rest.now) }
    {
        let begin = self.scan;
        let parts = self.parts;
        match self.complex(nesting) {
            Ok(found) => {
                if self.scan.is_selector_end() {
                    return Ok(Some(found));
                }
                self.leave_out(begin, parts)
            }
            Err(Refusal::Invalid { left, problem }) => {
                if is_limit(problem) {
                    return Err(Refusal::Invalid { left, problem });
                }
                self.leave_out(begin, parts)
            }
            Err(Refusal::Memory) => Err(Refusal::Memory),
        }
    }

    // A forgiving list of selectors, which may be empty.
    #[cycle(parse)]
    #[tactic(auto, unfolding(crate::specs::Grammar::forgiving_list_at))]
    fn forgiving_list(&mut self, nesting: Nesting) -> Result<Formula, Refusal>
        ensures { Takes asked result self.new.parts self.new.scan.rest.now (forgiving_list_at (arguments_within nesting.room nesting.is_in_has) self.old.parts self.old.scan.rest.now) }
    {
        let first = self.forgiven(nesting)?;
        let all = self.others_forgiven(first, nesting)?;
        Ok(any_of(self.alloc, all)?)
    }

    // A selector, if it is valid, and those that follow, each after a comma.
    #[cycle(parse)]
    fn others_forgiven(
        &mut self,
        first: Option<Formula>,
        nesting: Nesting,
    ) -> Result<Vec<Formula>, Refusal>
        ensures { Takes (λ all. map asked all.items) result self.new.parts self.new.scan.rest.now
            (commas_at (forgiven_at (arguments_within nesting.room nesting.is_in_has)) (option_to_list (option_map asked first)) self.old.parts self.old.scan.rest.now) }
    {
        let mut all = listed(self.alloc, first)?;
        for _step in 0..self.scan.rest.len() {
            if !self.scan.take(',') {
                return Ok(all);
            }
            let next = self.forgiven(nesting)?;
            add(&mut all, next)?;
        }
        Ok(all)
    }
}

// The place of a selector that isn't nested.
const TOP: Nesting = Nesting {
    room: MOST_LEVELS,
    is_in_has: false,
};

// The selectors after the first, each after a comma. Each has its own number of parts.
fn more_selectors(parser: &mut Parser<'_>, first: Formula) -> Result<Vec<Formula>, Refusal>
    ensures { Takes (λ list. map asked list.items) result parser.new.parts parser.new.scan.rest.now
        (commas_at top_at (asked first ∷ []) parser.old.parts parser.old.scan.rest.now) }
{
    let mut list = Vec::new(parser.alloc);
    list.push(first)?;
    for _step in 0..parser.scan.rest.len() {
        if !parser.scan.take(',') {
            return Ok(list);
        }
        parser.parts = MOST_PARTS;
        list.push(parser.complex(TOP)?)?;
    }
    Ok(list)
}

// The selectors of a whole text.
#[tactic(auto, unfolding(crate::specs::Grammar::selectors_of))]
fn selectors(alloc: Global, characters: &[char]) -> Result<Vec<Formula>, Refusal>
    ensures { MatchResult result (λ list. selectors_of characters.now ≡ Found (map asked list.items)) (λ refusal. Fails refusal (selectors_of characters.now)) }
{
    let mut parser = Parser {
        scan: Scan { rest: characters },
        parts: MOST_PARTS,
        alloc,
    };
    let first = parser.complex(TOP)?;
    let list = more_selectors(&mut parser, first)?;
    if !parser.scan.rest.is_empty() {
        return Err(parser.scan.refusal(SelectorProblem::Rest));
    }
    Ok(list)
}

// The characters of a text.
fn characters_of(alloc: Global, text: &str) -> Result<Vec<char>, AllocError>
    ensures { IfOk result (λ characters. characters.items ≡ chars text.now) }
{
    text.chars().collect(alloc)
}

/// Parses a list of selectors (Selectors Level 4, section 17, "Grammar"). Fails with `Invalid` if the text isn't one, or if a selector has
/// more than 1,000 parts or 32 levels: with the first problem that the grammar has for the text, and its offset. Fails with `Memory` if an
/// allocation fails.
pub fn parse(alloc: Global, text: &str) -> Result<Vec<Formula>, SelectorError>
    ensures selectors { IfOk result (λ list. selectors_of (chars text.now) ≡ Found (map asked list.items)) }
    ensures place { IfErr result (IsWithin (length (chars text.now))) }
    ensures fault { IfErr result (λ fault. Tells (length (chars text.now)) fault (selectors_of (chars text.now))) }
{
    let Ok(characters) = characters_of(alloc, text) else {
        return Err(SelectorError::Memory);
    };
    match selectors(alloc, characters.as_slice()) {
        Ok(list) => Ok(list),
        Err(refusal) => Err(refusal.in_text(characters.len())),
    }
}
