//! The rules of tree construction, without code: definitions, and the lemmas by which the crates of code prove their
//! contracts (HTML standard, section 13.2). A rule maps a token and a world to a row. The world is all that rules read
//! and change: the forest, the stack of open elements, the insertion mode and the flags. The row has the changes, how
//! the turn ends, and that it is quiet (it reports no parse error). The crate depends on names, tokens, the forest and
//! its changes, and the tables; the laws of turns and of whole runs are in `h5_builder_laws`.
//!
//! Begin with `specs/World.antt` and `specs/Rows.antt`, then read one mode, such as `specs/modes/InFrameset.antt`.
//! `specs/Settle.antt` has the turns of a token, `specs/Run.antt` the run of a list of tokens. Of the folders of
//! `specs/`, `modes` has the rules, `stack` the stack of open elements, `formatting` the list of active formatting
//! elements and the adoption agency, `insertion` the places of insertion, and `fitting` what a mode says about the open
//! elements. `proofs/` goes from lists and names (`entries`, `roles`, `fitting`) to worlds (`changes`, `adoption`) and
//! rules (`rows`, `modes`).
//!
//! The modules `lists` (stack and list) and `fits` (what modes say about the open elements) have laws.
#![tactic(auto)]

pub mod fits;
pub mod lists;
