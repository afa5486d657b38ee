//! The laws of readings. Each is the contract of a function that does nothing.
ghost use Rattle.std.specs.Prelude.{◌≡◌, ℕ, Bool, true, List, ◌++◌};
ghost use Rattle.h5_token.specs.Reply.{Reply};
ghost use Rattle.h5_token.specs.TokenText.{TokenText};
ghost use Rattle.h5_tokenizer_input.specs.Proper.{AreProper};
ghost use Rattle.h5_tokenizer_input.specs.Answers.{goes_on, refuses};
ghost use Rattle.h5_plain_tokenizer.specs.Front.{ReaderPlace};
ghost use Rattle.h5_plain_tokenizer.specs.Read.{Read};

use h5_token::TokenSink;
pub use h5_tokenizer_input::Likeness;

/// A reading emits no parse errors and no empty texts, over any token sink.
pub fn no_errors_and_no_empty_texts<S: TokenSink>()
    ensures { (p : ReaderPlace) (m : S.Meaning) (xs : List ℕ) (ts : List TokenText) (reply : Reply) (q : ReaderPlace) (n : S.Meaning) (ys : List ℕ) →
        Read S.reply_to S.after S.is_foreign p m xs ts reply q n ys → AreProper ts }
{}

/// If an input was read, it is read in the same way whatever follows it. So a chunk that is read early is read as in the whole
/// input.
pub fn reading_goes_on<S: TokenSink>()
    ensures { (p : ReaderPlace) (m : S.Meaning) (xs : List ℕ) (ts : List TokenText) (reply : Reply) (q : ReaderPlace) (n : S.Meaning) (ys more : List ℕ) →
        Read S.reply_to S.after S.is_foreign p m xs ts reply q n ys
        → Read S.reply_to S.after S.is_foreign p m (xs ++ more) ts reply q n (ys ++ more) }
{}

/// A reading and another from where it ended are together a reading of both lists of tokens. If the second reading's last reply
/// lets tokenization go on, so does that of both.
pub fn readings_join<S: TokenSink>()
    ensures { (p : ReaderPlace) (m : S.Meaning) (xs : List ℕ) (ts : List TokenText) (reply : Reply) (q : ReaderPlace) (n : S.Meaning) (ys : List ℕ)
        (us : List TokenText) (next : Reply) (r : ReaderPlace) (o : S.Meaning) (zs : List ℕ) →
        Read S.reply_to S.after S.is_foreign p m xs ts reply q n ys
        → goes_on reply ≡ true
        → Read S.reply_to S.after S.is_foreign q n ys us next r o zs
        → (last : Reply) × ((goes_on next ≡ true → goes_on last ≡ true) × Read S.reply_to S.after S.is_foreign p m xs (ts ++ us) last r o zs) }
{}

ghost use Rattle.std.specs.Prelude.{◌≤◌, [], Ok, false};
ghost use Rattle.h5_tokenizer_input.specs.Lines.{line_behind};
ghost use Rattle.h5_tokenizer_input.specs.Blindness.{IsBlindToCuts};
ghost use Rattle.h5_tokenizer_input.specs.declared.result.TokenizerResult.{TokenizerResult};
ghost use Rattle.h5_plain_tokenizer.specs.End.{Closes, settle};
ghost use Rattle.h5_token.specs.Joins.{join};
ghost use Rattle.h5_plain_tokenizer.specs.Read.{IsUndecided};
ghost use Rattle.h5_plain_tokenizer.specs.Outcome.{Feeds};
ghost use Rattle.h5_plain_tokenizer.specs.ReaderText.{ReaderText};
ghost use Rattle.h5_plain_tokenizer.specs.Whole.{closing, HasRead, Readings, ReadsToEnd};

/// Readings, followed by one of what they left and of more input, are readings of the whole input. So calls of `feed` one after
/// another read all that was fed, with its chunks joined.
pub fn pieces_join<S: TokenSink>()
    ensures { (p : ReaderPlace) (m : S.Meaning) (xs : List ℕ) (ts : List TokenText) (q : ReaderPlace) (n : S.Meaning) (ys more : List ℕ)
        (us : List TokenText) (reply : Reply) (r : ReaderPlace) (o : S.Meaning) (zs : List ℕ) →
        Readings S.reply_to S.after S.is_foreign p m xs ts q n ys
        → Read S.reply_to S.after S.is_foreign q n (ys ++ more) us reply r o zs
        → refuses reply ≡ false
        → Readings S.reply_to S.after S.is_foreign p m (xs ++ more) (ts ++ us) r o zs }
{}

/// If a call of `feed` succeeds after readings, all that was fed has been read, except what the tokenizer holds and what is in
/// the queue.
pub fn feeds_join<S: TokenSink>()
    ensures { (p : ReaderPlace) (m : S.Meaning) (xs more : List ℕ) (q : ReaderPlace) (n : S.Meaning) (ys : List ℕ)
        (new : ReaderText) (o : S.Meaning) (queue : List ℕ) (answer : TokenizerResult S.Handle) →
        HasRead S.reply_to S.after S.is_foreign p m xs q n ys
        → Feeds S.reply_to S.after S.is_foreign S.node q n (ys ++ more) new o queue (Ok answer)
        → HasRead S.reply_to S.after S.is_foreign p m (xs ++ more) new.place o (new.held ++ queue) }
{}

/// A reading ends in the line in which it began plus the newlines of what it read, and so do readings. The line after what is
/// left is then the line after the whole input. So if a reading begins in line 1, the line of each token is 1 plus the newlines
/// before its first character, and that of the end-of-file token is 1 plus all newlines.
pub fn lines_are_counted<S: TokenSink>()
    ensures reading { (p : ReaderPlace) (m : S.Meaning) (xs : List ℕ) (ts : List TokenText) (reply : Reply) (q : ReaderPlace) (n : S.Meaning) (ys : List ℕ) →
        p.line ≤ u64.MAX → Read S.reply_to S.after S.is_foreign p m xs ts reply q n ys → q.line ≡ line_behind p.line xs ys }
    ensures readings { (p : ReaderPlace) (m : S.Meaning) (xs : List ℕ) (ts : List TokenText) (q : ReaderPlace) (n : S.Meaning) (ys : List ℕ) →
        p.line ≤ u64.MAX → Readings S.reply_to S.after S.is_foreign p m xs ts q n ys
        → (q.line ≡ line_behind p.line xs ys) × (line_behind q.line ys [] ≡ line_behind p.line xs []) }
{}

/// If no input is left, nothing is decided.
pub fn nothing_is_undecided()
    ensures { (p : ReaderPlace) (foreign : Bool) → IsUndecided p foreign [] }
{}

/// Readings up to an undecided suffix, and then the end, read the input to its end.
pub fn the_end_ends_readings<S: TokenSink>()
    ensures { (p : ReaderPlace) (m : S.Meaning) (xs : List ℕ) (ts : List TokenText) (q : ReaderPlace) (n : S.Meaning) (ys : List ℕ) (o : S.Meaning) →
        Readings S.reply_to S.after S.is_foreign p m xs ts q n ys
        → IsUndecided q (S.is_foreign n) ys
        → Closes S.reply_to S.after S.is_foreign S.ended q n ys o (Ok tt)
        → ReadsToEnd S.reply_to S.after S.is_foreign S.ended p m xs (ts ++ closing (settle q.mode q.last (S.is_foreign n) ys)) o }
{}

/// How an input is split doesn't matter: two readings of it to its end, over two equivalent meanings of a sink, emit lists of
/// tokens that differ only in how texts are split, and leave equivalent meanings.
///
/// This holds for every equivalence that equal tokens keep, whose equivalent meanings give equal replies, and which depends
/// neither on how texts are split nor on lines.
pub fn cuts_of_the_input_agree<S: TokenSink, L: Likeness>()
    ensures { (see : S.Meaning → L.Seen) →
        IsBlindToCuts S.reply_to S.after S.is_foreign S.ended (λ m n. L.alike (see m) (see n))
        → (p : ReaderPlace) (m n : S.Meaning) (xs : List ℕ) (ts us : List TokenText) (k l : S.Meaning) →
        L.alike (see m) (see n)
        → ReadsToEnd S.reply_to S.after S.is_foreign S.ended p m xs ts k
        → ReadsToEnd S.reply_to S.after S.is_foreign S.ended p n xs us l
        → (join ts ≡ join us) × L.alike (see k) (see l) }
{}
