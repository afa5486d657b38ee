//! The library for C: the functions of `c/include/hengaruto.h`.
//!
//! A tree is returned as one block of bytes, which the caller frees, and every other call reads a block as a slice. So no call gets a pointer
//! to memory that the library holds. `parse` and `parse_bytes` make blocks, `read` has their reads and their HTML, `by_name` those of attributes
//! and elements by their names, `select` selectors, `page`
//! the calls for whole pages, `listing` their errors, metadata and headings, `policy` cleaning by the caller's policy, and `encoding` pages
//! that aren't UTF-8. `status` has the statuses, and returns bytes to the caller.
#![tactic(auto)]

mod by_name;
mod encoding;
mod listing;
mod page;
mod parse;
mod parse_bytes;
mod policy;
mod read;
mod select;
mod status;
