//! Types and combinators of selectors (Selectors Level 4, sections 5 and 15).
ghost use Rattle.std.specs.Prelude.{◌≡◌, IfNone, IfOk, MatchOption, None, Some, if◌then◌else◌, map, option_map};
ghost use Rattle.h5_selectors.specs.Asking.{asked, back, behind_any_namespace, combinator_at, forth, has_any_namespace, leading_at, prefixed_type_at, sign_at, type_at, unprefixed_type_at};
ghost use Rattle.h5_selectors.specs.Grammar.{backwards, forwards, is_selector_end, link_asked};
ghost use Rattle.h5_selectors.specs.Reads.{Reads};
ghost use Rattle.h5_selectors.specs.Tokens.{behind_blanks, reading};

use super::attributes::written;
use super::conditions::{along, both, both_if};
use super::fault::{Refusal, SelectorProblem};
use super::formula::{Formula, Way};
use super::scan::Scan;
use std::alloc::{AllocError, Global};

// A combinator between two compound selectors.
#[derive(Clone, Copy)]
pub(crate) enum Combinator {
    Descendant,
    Child,
    NextSibling,
    SubsequentSibling,
}

impl Combinator {
    fn back(self) -> Way
        ensures { result ≡ back self }
    {
        match self {
            Combinator::Descendant => Way::Ancestor,
            Combinator::Child => Way::Parent,
            Combinator::NextSibling => Way::Previous,
            Combinator::SubsequentSibling => Way::Earlier,
        }
    }

    pub(crate) fn forth(self) -> Way
        ensures { result ≡ forth self }
    {
        match self {
            Combinator::Descendant => Way::Below,
            Combinator::Child => Way::Child,
            Combinator::NextSibling => Way::Next,
            Combinator::SubsequentSibling => Way::Later,
        }
    }
}

impl<'a> Scan<'a> {
    // Skips `*|`, the prefix of any namespace, and returns true if it is there.
    fn skip_any_namespace(&mut self) -> bool
        ensures found { result ≡ has_any_namespace self.old.rest.now }
        ensures rest { self.new.rest.now ≡ (if has_any_namespace self.old.rest.now then behind_any_namespace self.old.rest.now else self.old.rest.now) }
    {
        let mut scan = *self;
        if !scan.take('*') {
            return false;
        }
        scan.skip_comments();
        if !scan.take('|') {
            return false;
        }
        scan.skip_comments();
        *self = scan;
        true
    }

    // A type selector or `*`, which a prefix requires.
    #[tactic(auto, unfolding(crate::specs::Asking::prefixed_type_at))]
    fn prefixed_type(&mut self, alloc: Global) -> Result<Option<Formula>, Refusal>
        ensures { Reads (option_map asked) result self.new.rest.now (prefixed_type_at self.old.rest.now) }
    {
        if self.is_at_name() {
            let name = self.name_rest(alloc)?;
            self.no_namespace()?;
            return Ok(Some(Formula::Name(written(alloc, name.as_str())?)));
        }
        if self.take('*') {
            return Ok(Some(Formula::Any));
        }
        Err(self.refusal(SelectorProblem::Name))
    }

    // A type selector or `*` without a prefix, if there is one.
    #[tactic(auto, unfolding(crate::specs::Asking::unprefixed_type_at))]
    fn unprefixed_type(&mut self, alloc: Global) -> Result<Option<Formula>, Refusal>
        ensures { Reads (option_map asked) result self.new.rest.now (unprefixed_type_at self.old.rest.now) }
    {
        if self.is_at_name() {
            let name = self.name_rest(alloc)?;
            self.no_namespace()?;
            return Ok(Some(Formula::Name(written(alloc, name.as_str())?)));
        }
        self.no_namespace()?;
        if self.take('*') {
            return Ok(Some(Formula::Any));
        }
        Ok(None)
    }

    // A type selector or `*`, if there is one.
    #[tactic(auto, unfolding(crate::specs::Asking::type_at))]
    pub(crate) fn type_or_any(&mut self, alloc: Global) -> Result<Option<Formula>, Refusal>
        ensures { Reads (option_map asked) result self.new.rest.now (type_at self.old.rest.now) }
    {
        if self.skip_any_namespace() {
            return self.prefixed_type(alloc);
        }
        self.unprefixed_type(alloc)
    }

    // `>`, `+` or `~`, with the whitespace after it, if there is one.
    fn sign(&mut self) -> Option<Combinator>
        ensures sign { MatchOption result (sign_at self.old.rest.now ≡ None) (λ c. sign_at self.old.rest.now ≡ Some (reading c self.new.rest.now)) }
        ensures none { IfNone result (self.new.rest.now ≡ self.old.rest.now) }
    {
        let found = match self.peek() {
            Some('>') => Combinator::Child,
            Some('+') => Combinator::NextSibling,
            Some('~') => Combinator::SubsequentSibling,
            _ => return None,
        };
        self.skip();
        self.skip_blanks();
        Some(found)
    }

    // A combinator, if there is one.
    #[tactic(auto, unfolding(crate::specs::Asking::combinator_at))]
    pub(crate) fn combinator(&mut self) -> Option<Combinator>
        ensures found { MatchOption result (combinator_at self.old.rest.now ≡ None) (λ c. combinator_at self.old.rest.now ≡ Some (reading c self.new.rest.now)) }
        ensures none { IfNone result (self.new.rest.now ≡ behind_blanks self.old.rest.now) }
    {
        let is_blank = self.skip_blanks();
        if let Some(found) = self.sign() {
            return Some(found);
        }
        match self.peek() {
            None | Some(',') | Some(')') => None,
            _ if is_blank => Some(Combinator::Descendant),
            _ => None,
        }
    }

    // A combinator before a selector; the descendant combinator if there is none.
    #[tactic(auto, unfolding(crate::specs::Asking::leading_at))]
    pub(crate) fn leading_combinator(&mut self) -> Combinator
        ensures found { result ≡ (leading_at self.old.rest.now).value }
        ensures rest { self.new.rest.now ≡ (leading_at self.old.rest.now).rest }
    {
        self.skip_blanks();
        match self.sign() {
            Some(found) => found,
            None => Combinator::Descendant,
        }
    }

    // Returns true at the end of a selector in a list of arguments.
    pub(crate) fn is_selector_end(&self) -> bool
        ensures { result ≡ is_selector_end self.now.rest.now }
    {
        matches!(self.peek(), Some(',' | ')') | None)
    }
}

// A combinator, and the condition of the compound selector after it.
#[derive(Drop)]
pub(crate) struct Link {
    pub(crate) combinator: Combinator,
    pub(crate) compound: Formula,
}

// The condition of a selector: on its last element, and from there backwards.
pub(crate) fn backwards(
    alloc: Global,
    first: Formula,
    links: Vec<Link>,
) -> Result<Formula, AllocError>
    ensures { IfOk result (λ made. asked made ≡ backwards (asked first) (map link_asked links.items)) }
{
    let mut all = first;
    for link in links {
        let before = along(alloc, link.combinator.back(), all)?;
        all = both(alloc, link.compound, before)?;
    }
    Ok(all)
}

// The condition of combinators from an element on.
pub(crate) fn forwards(alloc: Global, links: Vec<Link>) -> Result<Option<Formula>, AllocError>
    ensures { IfOk result (λ made. option_map asked made ≡ forwards (map link_asked links.items) None) }
{
    let mut links = links;
    let mut further = None;
    while let Some(link) = links.pop() {
        let all = both_if(alloc, link.compound, further)?;
        further = Some(along(alloc, link.combinator.forth(), all)?);
    }
    Ok(further)
}
