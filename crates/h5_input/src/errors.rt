//! The parse errors of a page, in the order of their lines.
use super::tree_errors::TreeMessage;
use html_tree_builder::standard::{Errors, LocatedError};
use std::alloc::{AllocError, Global};

/// The parse errors of a page: the first ones, and how many there are.
pub struct PageErrors {
    // Those of tokenization.
    told: Errors,
    // The first of tree construction.
    built: Vec<TreeMessage>,
    // How many of tree construction there are.
    built_count: u64,
}

impl Drop for PageErrors {
    fn drop(self) {
        let PageErrors {
            told: _told,
            built: _built,
            built_count: _built_count,
        } = self;
    }
}

impl PageErrors {
    /// The errors of tokenization, and of tree construction the first ones and the number of all.
    pub(crate) fn new(told: Errors, built: Vec<TreeMessage>, built_count: u64) -> PageErrors {
        PageErrors {
            told,
            built,
            built_count,
        }
    }

    /// Returns true if an allocation failed for one of tokenization, of which at most `limit` are kept.
    pub(crate) fn is_cut(&self, limit: usize) -> bool {
        let is_full = self.told.kept().len() >= limit;
        self.told.more() > 0 && !is_full
    }

    /// The first errors, at most `limit`: by line, and in one line those of tokenization before those of tree construction. Fails if an
    /// allocation fails.
    pub fn first(&self, alloc: Global, limit: usize) -> Result<Vec<PageError<'_>>, AllocError> {
        let mut first = Vec::new(alloc);
        let mut waiting = Waiting {
            told: self.told.kept(),
            built: self.built.as_slice(),
        };
        for _ in 0..limit {
            match waiting.next() {
                Some(error) => first.push(error)?,
                None => break,
            }
        }
        Ok(first)
    }

    /// How many there are.
    pub fn count(&self) -> u64 {
        let kept = self.told.kept().len() as u64;
        kept.saturating_add(self.told.more())
            .saturating_add(self.built_count)
    }
}

// Errors that are still to be printed, in their order.
#[derive(Drop)]
struct Waiting<'a> {
    told: &'a [LocatedError],
    built: &'a [TreeMessage],
}

/// An error of a page.
#[derive(Clone, Copy)]
pub enum PageError<'a> {
    /// One of tokenization, with its place.
    Text(LocatedError),
    /// One of tree construction: the line of its token, its name, and what its message says, which may be nothing.
    Tree {
        line: u64,
        name: &'a str,
        message: &'a str,
    },
}

impl<'a> Waiting<'a> {
    // Returns true if the next one is of tokenization: in one line these come first.
    fn is_text_next(&self) -> bool {
        match (self.told.first(), self.built.first()) {
            (Some(told), Some(built)) => told.at.line <= built.line,
            (Some(_), None) => true,
            (None, _) => false,
        }
    }

    // The next one of tokenization.
    fn next_text(&mut self) -> Option<PageError<'a>> {
        let (told, rest) = self.told.split_first()?;
        self.told = rest;
        Some(PageError::Text(*told))
    }

    // The next one of the tree.
    fn next_tree(&mut self) -> Option<PageError<'a>> {
        let (built, rest) = self.built.split_first()?;
        self.built = rest;
        Some(PageError::Tree {
            line: built.line,
            name: built.name.as_str(),
            message: built.text.as_str(),
        })
    }

    // The next one.
    fn next(&mut self) -> Option<PageError<'a>> {
        if self.is_text_next() {
            self.next_text()
        } else {
            self.next_tree()
        }
    }
}
