//! The tree of a page, for its text and its links.
ghost use Rattle.std.specs.Prelude.{◌≡◌, IfOk, string_bytes};
ghost use Rattle.html_tree_builder.specs.ArenaModel.{arena_choices, new_arena, seen_of};
ghost use Rattle.html_tree_builder.specs.Options.{default_options};
ghost use Rattle.html_tree_builder.specs.StandardTexts.{ParsesDocument};

use html_tree_builder::serialize::SerializeFault;
use html_tree_builder::token::BuildFault;
use html_tree_builder::{Arena, ParseOpts, parse_document};
use std::alloc::{AllocError, Global};

// The only error of a parser that hasn't failed is a failed allocation.
fn refused(_fault: BuildFault) -> AllocError
    requires { _fault ≡ BuildFault.Memory }
{
    AllocError
}

/// Converts an error: a serializer into memory only fails if an allocation fails.
pub(crate) fn unwritten(_fault: SerializeFault) -> AllocError {
    AllocError
}

/// Returns the tree of a page. Fails with `AllocError` if an allocation fails.
pub(crate) fn tree_of(alloc: Global, page: String) -> Result<Arena, AllocError>
    ensures { IfOk result (λ arena. ParsesDocument arena_choices (seen_of new_arena) default_options (string_bytes page) (seen_of arena)) }
{
    let parser = parse_document(alloc, Arena::new(alloc)?, ParseOpts::default());
    match parser.one_owned(page) {
        Ok(arena) => Ok(arena),
        Err(fault) => Err(refused(fault)),
    }
}
