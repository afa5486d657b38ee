//! Laws of tree construction, and plain documents, without code. The crate depends on the rules in `h5_builder_spec`. Begin
//! with `specs/Plain.antt` (the documents and their tokens, without any mode) and `specs/Rebuilding.antt` (the meaning
//! of "rebuilt"), then read `src/laws.rt`.
//!
//! `laws` has the laws of rebuilding: the tokens of a plain document, with their texts split in any way, rebuild that
//! document.
//!
//! `mode_laws` has laws of the rules: each token preserves what a builder keeps, how a text is split doesn't matter, a
//! token has one chain of turns, and their number has a bound. Of the folders of `proofs/`, `modes` has what the rules
//! of a mode preserve of the open elements and of the lists, `kept` the same over all rules, `replies` what rules list
//! and reply, `turns` where each turn leads and how many there are, and `cuts` texts and lists of tokens, which
//! `specs/Cuts.antt` defines. `proofs/ModeRuleLaws.antt` has a record of what is proved about the rule of each mode.
#![tactic(auto)]

pub mod laws;
pub mod mode_laws;
