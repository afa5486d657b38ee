//! The laws of the states and of readings. Each is the contract of a function that does nothing.
ghost use Rattle.std.specs.Prelude.{◌≡◌, ℕ, ◌<◌, ◌≤◌, List};
ghost use Rattle.h5_tokenizer_spec.specs.Machine.{turn};
ghost use Rattle.h5_tokenizer_spec.specs.Rank.{rank, Meets};
ghost use Rattle.h5_tokenizer_spec.specs.References.{Reference};
ghost use Rattle.h5_tokenizer_spec.specs.States.{State};
ghost use Rattle.h5_tokenizer_spec.specs.Turn.{Reconsumed};

use h5_token::TokenSink;
pub use h5_tokenizer_input::Likeness;

/// A byte gets at most three rows: if a row reconsumes it, its rank is smaller in the next state, and a rank is at most two.
/// This holds for all states, any table of references and any name of the last start tag.
pub fn a_byte_meets_three_rows()
    ensures falls { (table : List Reference) (last : List ℕ) (state : State) (x : ℕ) (text : List ℕ) (next : State) →
        (turn table last state x).outcome ≡ Reconsumed text next → rank next x < rank state x }
    ensures small { (state : State) (x : ℕ) → rank state x ≤ 2 }
    ensures three { (table : List Reference) (last : List ℕ) (x n : ℕ) (s t : State) → Meets table last x n s t → n ≤ 3 }
{}

ghost use Rattle.std.specs.Prelude.{Bool, true, [], ◌∷◌, ◌++◌};
ghost use Rattle.h5_token.specs.Reply.{Reply, TurnsRaw};
ghost use Rattle.h5_token.specs.TokenText.{TokenText, EndOfFile};
ghost use Rattle.h5_token.specs.declared.states.RawKind.{RawKind};
ghost use Rattle.h5_tokenizer_input.specs.Proper.{AreProper};
ghost use Rattle.h5_tokenizer_input.specs.Answers.{goes_on, refuses};
ghost use Rattle.h5_tokenizer_spec.specs.RawTexts.{IsRaw, RawBehind};
ghost use Rattle.h5_tokenizer_spec.specs.Reading.{ReaderPlace, Read, Step, chosen_state};

/// If an input was read, it is read in the same way whatever follows it. So a chunk that is read early is read as in the whole
/// input.
pub fn reading_goes_on<S: TokenSink>()
    ensures { (table : List Reference) (p : ReaderPlace) (m : S.Meaning) (xs : List ℕ) (ts : List TokenText) (reply : Reply)
        (q : ReaderPlace) (n : S.Meaning) (ys more : List ℕ) →
        Read table S.reply_to S.after S.is_foreign p m xs ts reply q n ys
        → Read table S.reply_to S.after S.is_foreign p m (xs ++ more) ts reply q n (ys ++ more) }
{}

/// A reading and another from where it ended are together a reading of both lists of tokens. After its last reply, tokenization
/// goes on exactly if it goes on after the second reading.
pub fn readings_join<S: TokenSink>()
    ensures { (table : List Reference) (p : ReaderPlace) (m : S.Meaning) (xs : List ℕ) (ts : List TokenText) (reply : Reply)
        (q : ReaderPlace) (n : S.Meaning) (ys : List ℕ) (us : List TokenText) (next : Reply) (r : ReaderPlace) (o : S.Meaning) (zs : List ℕ) →
        Read table S.reply_to S.after S.is_foreign p m xs ts reply q n ys
        → goes_on reply ≡ true
        → Read table S.reply_to S.after S.is_foreign q n ys us next r o zs
        → (last : Reply) × ((goes_on last ≡ goes_on next) × Read table S.reply_to S.after S.is_foreign p m xs (ts ++ us) last r o zs) }
{}

/// A reading emits no parse errors and no empty texts, over any token sink.
pub fn no_errors_and_no_empty_texts<S: TokenSink>()
    ensures { (table : List Reference) (p : ReaderPlace) (m : S.Meaning) (xs : List ℕ) (ts : List TokenText) (reply : Reply)
        (q : ReaderPlace) (n : S.Meaning) (ys : List ℕ) →
        Read table S.reply_to S.after S.is_foreign p m xs ts reply q n ys → AreProper ts }
{}

/// The state that a reply chooses for a raw element, such as `title`, `style` or `script`, emits only texts up to an end tag.
/// So does each state that a step from it reaches after a text or without a token.
pub fn raw_elements_have_texts_and_an_end_tag<S: TokenSink>()
    ensures chosen { (kind : RawKind) → IsRaw (chosen_state (TurnsRaw kind)) }
    ensures step { (table : List Reference) (p : ReaderPlace) (m : S.Meaning) (xs : List ℕ) (ts : List TokenText) (reply : Reply)
        (q : ReaderPlace) (n : S.Meaning) (ys : List ℕ) →
        IsRaw p.state → Step table S.reply_to S.after S.is_foreign p m xs ts reply q n ys → RawBehind ts q.state }
{}

ghost use Rattle.std.specs.Prelude.{Ok, false};
ghost use Rattle.h5_token.specs.Joins.{join};
ghost use Rattle.h5_tokenizer_input.specs.Blindness.{IsBlindToCuts};
ghost use Rattle.h5_tokenizer_spec.specs.End.{Closes, last_tokens};
ghost use Rattle.h5_tokenizer_spec.specs.Whole.{IsCounted, IsReadToEnd, Readings, ReadsAll, ReadsToEnd};

/// Nothing is buffered between two chunks. From any place, over any meaning, any input can be read to its end, or up to a reply
/// after which tokenization doesn't go on. So a tokenizer stores a place, and no bytes.
pub fn nothing_is_held<S: TokenSink>()
    ensures { (table : List Reference) (p : ReaderPlace) (m : S.Meaning) (xs : List ℕ) → ReadsAll table S.reply_to S.after S.is_foreign p m xs }
{}

/// Readings, followed by one of what they left and of more input, are readings of the whole input.
pub fn pieces_join<S: TokenSink>()
    ensures { (table : List Reference) (p : ReaderPlace) (m : S.Meaning) (xs : List ℕ) (ts : List TokenText) (q : ReaderPlace) (n : S.Meaning)
        (ys more : List ℕ) (us : List TokenText) (reply : Reply) (r : ReaderPlace) (o : S.Meaning) (zs : List ℕ) →
        Readings table S.reply_to S.after S.is_foreign p m xs ts q n ys
        → Read table S.reply_to S.after S.is_foreign q n (ys ++ more) us reply r o zs
        → refuses reply ≡ false
        → Readings table S.reply_to S.after S.is_foreign p m (xs ++ more) (ts ++ us) r o zs }
{}

/// Readings of all the input, and then the end, read the input to its end.
pub fn the_end_ends_readings<S: TokenSink>()
    ensures { (table : List Reference) (p : ReaderPlace) (m : S.Meaning) (xs : List ℕ) (ts : List TokenText) (q : ReaderPlace) (n o : S.Meaning) →
        Readings table S.reply_to S.after S.is_foreign p m xs ts q n []
        → Closes S.reply_to S.after S.ended table q n o (Ok tt)
        → ReadsToEnd table S.reply_to S.after S.is_foreign S.ended p m xs (ts ++ (last_tokens table q ++ EndOfFile ∷ [])) o }
{}

/// Any input can be read to its end over a token sink that refuses no token.
pub fn any_input_is_read_to_its_end<S: TokenSink>()
    ensures { ((m : S.Meaning) (t : TokenText) → refuses (S.reply_to m t) ≡ false)
        → (table : List Reference) (p : ReaderPlace) (m : S.Meaning) (xs : List ℕ) →
        IsReadToEnd table S.reply_to S.after S.is_foreign S.ended p m xs }
{}

/// A reading passes a prefix of the input, and ends in the line in which it began plus the newlines of that prefix. So do
/// readings. CARRIAGE RETURN LINE FEED is one newline, even if an earlier reading passed the CARRIAGE RETURN.
pub fn lines_are_counted<S: TokenSink>()
    ensures reading { (table : List Reference) (p : ReaderPlace) (m : S.Meaning) (xs : List ℕ) (ts : List TokenText) (reply : Reply)
        (q : ReaderPlace) (n : S.Meaning) (ys : List ℕ) →
        p.line ≤ u64.MAX → Read table S.reply_to S.after S.is_foreign p m xs ts reply q n ys → IsCounted p xs q ys }
    ensures readings { (table : List Reference) (p : ReaderPlace) (m : S.Meaning) (xs : List ℕ) (ts : List TokenText)
        (q : ReaderPlace) (n : S.Meaning) (ys : List ℕ) →
        p.line ≤ u64.MAX → Readings table S.reply_to S.after S.is_foreign p m xs ts q n ys → IsCounted p xs q ys }
{}

/// How an input is split doesn't matter: two readings of it to its end, over two equivalent meanings of a sink, emit lists of
/// tokens that differ only in how texts are split, and leave equivalent meanings.
///
/// This holds for every equivalence that equal tokens keep, whose equivalent meanings give equal replies, and which depends
/// neither on how texts are split nor on lines.
pub fn cuts_of_the_input_agree<S: TokenSink, L: Likeness>()
    ensures { (see : S.Meaning → L.Seen) →
        IsBlindToCuts S.reply_to S.after S.is_foreign S.ended (λ m n. L.alike (see m) (see n))
        → (table : List Reference) (p : ReaderPlace) (m n : S.Meaning) (xs : List ℕ) (ts us : List TokenText) (k l : S.Meaning) →
        L.alike (see m) (see n)
        → ReadsToEnd table S.reply_to S.after S.is_foreign S.ended p m xs ts k
        → ReadsToEnd table S.reply_to S.after S.is_foreign S.ended p n xs us l
        → (join ts ≡ join us) × L.alike (see k) (see l) }
{}

ghost use Rattle.std.specs.Prelude.{length};
ghost use Rattle.h5_tokenizer_spec.specs.ReferenceTable.{references};
ghost use Rattle.h5_tokenizer_spec.specs.TableOrder.{are_behind, are_references};

/// The table of named character references has 2,231 names, in order, so no name appears twice. A name is a letter, followed by
/// letters and digits, and then a semicolon or none. The text of each isn't empty.
pub fn references_are_in_order()
    ensures order { are_behind [] references ≡ true }
    ensures names { are_references references ≡ true }
    ensures count { length references ≡ 2231 }
{}

ghost use Rattle.h5_tokenizer_spec.specs.Ahead.{AreIgnoredInDoctype, AreTakenInComment, LeavesLetters};
ghost use Rattle.h5_tokenizer_spec.specs.Comments.{begins_opening};
ghost use Rattle.h5_tokenizer_spec.specs.Doctypes.{begins_keyword};
ghost use Rattle.h5_tokenizer_spec.specs.References.{is_beginning, longest};

/// The standard looks ahead in three states. Here the state stores what was seen. If the standard would read that again in
/// another state, that state takes it as it is: the bogus comment state takes what wasn't an opening, and the bogus DOCTYPE
/// state ignores what wasn't a keyword. What was seen after the longest name of a character reference, or without a name, is
/// letters and digits, which are text in each return state.
pub fn what_was_seen_is_taken_as_it_is()
    ensures opening { (table : List Reference) (last seen : List ℕ) → begins_opening seen ≡ true → AreTakenInComment table last seen }
    ensures keyword { (table : List Reference) (last seen : List ℕ) → begins_keyword seen ≡ true → AreIgnoredInDoctype table last seen }
    ensures name { (seen : List ℕ) → is_beginning references seen ≡ true → LeavesLetters seen (longest references seen) }
{}

ghost use Rattle.h5_tokenizer_spec.specs.declared.position.Spot.{Spot};
ghost use Rattle.h5_tokenizer_spec.specs.Telling.{Reached, Reaches, IsReadSo, at_first};
ghost use Rattle.h5_tokenizer_spec.specs.declared.position.LocatedError.{LocatedError};

/// A reading with errors, without its errors, is a reading of the tokens that it emits.
pub fn what_tells_errors_reads<S: TokenSink>()
    ensures { (table : List Reference) (p : ReaderPlace) (s : Spot) (m : S.Meaning) (xs : List ℕ) (r : Reached S.Meaning) (told : List LocatedError) →
        Reaches table S.reply_to S.after S.is_foreign (at_first p s m xs) r told
        → IsReadSo table S.reply_to S.after S.is_foreign p m xs r }
{}

/// The errors of a chunk, followed by those of what it left and of more input, are those of the whole input.
pub fn told_pieces_join<S: TokenSink>()
    ensures { (table : List Reference) (p : ReaderPlace) (s : Spot) (m : S.Meaning) (xs more : List ℕ) (q r : Reached S.Meaning) (told errors : List LocatedError) →
        Reaches table S.reply_to S.after S.is_foreign (at_first p s m xs) q told
        → goes_on q.reply ≡ true → q.text ≡ []
        → Reaches table S.reply_to S.after S.is_foreign (at_first q.place q.spot q.meaning (q.rest ++ more)) r errors
        → Reaches table S.reply_to S.after S.is_foreign (at_first p s m (xs ++ more)) r (told ++ errors) }
{}

ghost use Rattle.h5_tokenizer_spec.specs.WholeTelling.{Tellings, TellsToEnd};

/// Readings with their errors, followed by one of what they left and of more input, are readings of the whole input, even if a
/// reply stopped one of them.
pub fn tellings_join<S: TokenSink>()
    ensures { (table : List Reference) (p : ReaderPlace) (s : Spot) (m : S.Meaning) (xs : List ℕ) (told : List LocatedError) (q : ReaderPlace) (t : Spot)
        (n : S.Meaning) (ys more : List ℕ) (r : Reached S.Meaning) (errors : List LocatedError) →
        Tellings table S.reply_to S.after S.is_foreign p s m xs told q t n ys
        → Reaches table S.reply_to S.after S.is_foreign (at_first q t n (ys ++ more)) r errors
        → refuses r.reply ≡ false → r.text ≡ []
        → Tellings table S.reply_to S.after S.is_foreign p s m (xs ++ more) (told ++ errors) r.place r.spot r.meaning r.rest }
{}

/// How an input is split doesn't matter for its errors: two readings of it to its end, over two equivalent meanings of a sink,
/// report the same errors, in the same order, at the same positions.
///
/// This holds for every equivalence of meanings for which `cuts_of_the_input_agree` holds.
pub fn cuts_tell_the_same_errors<S: TokenSink, L: Likeness>()
    ensures { (see : S.Meaning → L.Seen) →
        IsBlindToCuts S.reply_to S.after S.is_foreign S.ended (λ m n. L.alike (see m) (see n))
        → (table : List Reference) (p : ReaderPlace) (s : Spot) (m n : S.Meaning) (xs : List ℕ) (told others : List LocatedError) →
        L.alike (see m) (see n)
        → TellsToEnd table S.reply_to S.after S.is_foreign p s m xs told
        → TellsToEnd table S.reply_to S.after S.is_foreign p s n xs others
        → told ≡ others }
{}
