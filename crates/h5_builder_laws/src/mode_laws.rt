//! Laws of the rules, each the contract of a function that does nothing. They hold for any sink.
ghost use Rattle.std.specs.Prelude.{◌≡◌, ◌≤◌, ◌<◌, ◌+◌, ℕ, List, [], ◌++◌, length};
ghost use Rattle.h5_token.specs.Joins.{join};
ghost use Rattle.h5_token.specs.TokenText.{TokenText};
ghost use Rattle.h5_interface.specs.SinkChoices.{SinkChoices};
ghost use Rattle.h5_builder_spec.specs.formatting.FormattingList.{after_marker, nodes_of};
ghost use Rattle.h5_builder_spec.specs.inner.Lists.{OpenFirst};
ghost use Rattle.h5_builder_spec.specs.stack.Order.{IsIn};
ghost use Rattle.h5_tables.specs.TurnText.{EofTurn, HasText, TurnText};
ghost use Rattle.h5_tables.specs.declared.modes.InsertionMode.TheVariants.{Initial};
ghost use Rattle.h5_builder_laws.specs.Cuts.{CutsAgree};
ghost use Rattle.h5_builder_spec.specs.modes.ForeignContent.{dispatch};
ghost use Rattle.h5_builder_spec.specs.formatting.Formatting.{reconstruct_active_formatting_elements};
ghost use Rattle.h5_builder_spec.specs.inner.Kept.{IsFitting, Fits};
ghost use Rattle.h5_builder_spec.specs.Run.{View, after_all, after_token, replies, told_all};
ghost use Rattle.h5_builder_spec.specs.Settle.{IsOneChain, by_row, settle};
ghost use Rattle.h5_builder_spec.specs.Sound.{Sound};
ghost use Rattle.h5_builder_spec.specs.World.{World};

/// If a builder keeps what it should (`IsFitting`; it may have ended or failed), a list of tokens, and the list with
/// its neighbouring texts joined, give one view, one reply to each token that isn't a text, and to each text of a run
/// the run's reply. So how a run of text is split doesn't matter.
pub fn cuts_agree()
    ensures { (choices : SinkChoices) (tokens : List TokenText) (view : View) → IsFitting view → CutsAgree choices tokens view }
{}

/// If two lists of tokens differ only in how their texts are split, they give one view from every view that a builder
/// keeps.
pub fn cuts_of_one_list_agree()
    ensures { (choices : SinkChoices) (tokens others : List TokenText) (view : View) → IsFitting view → join tokens ≡ join others → after_all choices tokens view ≡ after_all choices others view }
{}

/// If a builder keeps what it should (it is sound, the list agrees with the stack, and the open elements fit the mode),
/// it does so after any token.
pub fn what_is_kept_stays()
    ensures { (choices : SinkChoices) (token : TokenText) (view : View) → IsFitting view → IsFitting (after_token choices token view) }
{}

/// The run of one list followed by another is the run of the first and then, from the view that it leaves, of the
/// second. The same holds for the replies, so the replies to a prefix of a list are a prefix of its replies.
pub fn runs_join()
    ensures view { (choices : SinkChoices) (tokens more : List TokenText) (view : View) → after_all choices (tokens ++ more) view ≡ after_all choices more (after_all choices tokens view) }
    ensures told { (choices : SinkChoices) (tokens more : List TokenText) (view : View) → told_all choices (tokens ++ more) view ≡ told_all choices tokens view ++ told_all choices more (after_all choices tokens view) }
    ensures replies { (choices : SinkChoices) (tokens more : List TokenText) (view : View) → replies choices (tokens ++ more) view ≡ replies choices tokens view ++ replies choices more (after_all choices tokens view) }
{}

/// If a builder is sound and fits its mode (`Fits`), as between tokens, then a token has exactly one chain of turns,
/// and its effect is that of the chain: one turn by its rule and, if that ends in "again", the chain from there. A text
/// must not be empty.
pub fn a_token_has_one_chain()
    ensures one { (choices : SinkChoices) (t : TurnText) (w : World) → Sound w → HasText t → Fits w → IsOneChain choices t w }
    ensures turn { (choices : SinkChoices) (t : TurnText) (w : World) → Sound w → HasText t → Fits w →
        settle choices t w ≡ by_row choices (settle choices t) t (dispatch choices t w) w }
{}

/// A token takes at least one turn, and at most sixteen more than elements are open. In the mode "initial", without
/// template insertion modes, the end of the file takes six.
pub fn turns_are_few()
    ensures some { (choices : SinkChoices) (t : TurnText) (w : World) → 0 < (settle choices t w).turns }
    ensures few { (choices : SinkChoices) (t : TurnText) (w : World) → (settle choices t w).turns ≤ 16 + length w.stack }
    ensures end_alone { (choices : SinkChoices) (w : World) → w.mode ≡ Initial → w.template_modes ≡ [] → (settle choices EofTurn w).turns ≡ 6 }
{}

/// If, after the last marker, no listed element that isn't open is older than one that is, then after reconstructing
/// all elements listed there are open.
pub fn reconstructed_elements_are_open()
    ensures { (choices : SinkChoices) (w : World) → OpenFirst w.stack (after_marker w.formatting) → (n : ℕ) → IsIn n (nodes_of (after_marker (reconstruct_active_formatting_elements choices w).formatting)) → IsIn n (reconstruct_active_formatting_elements choices w).stack }
{}
