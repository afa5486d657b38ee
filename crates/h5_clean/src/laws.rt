//! The laws of cleaning, each the contract of a function that does nothing. "What is left" is what a policy's rules
//! allow of a text or of a tree.
ghost use Rattle.std.specs.Prelude.{◌≡◌, ◌≢◌, ◌++◌, ℕ, Bool, false, true, List, []};
ghost use Rattle.std.specs.Str.{is_utf8};
ghost use Rattle.h5_names.specs.AttributeText.{AttributeText};
ghost use Rattle.h5_names.specs.declared.qualified.QualName.{QualName};
ghost use Rattle.h5_interface.specs.Seen.{Seen};
ghost use Rattle.h5_interface.specs.SinkChoices.{SinkChoices};
ghost use Rattle.h5_tokenizer_spec.specs.Reading.{ReaderPlace};
ghost use Rattle.h5_builder_spec.specs.Run.{View};
ghost use Rattle.h5_builder_spec.specs.inner.Kept.{Fitting};
ghost use Rattle.h5_builder_laws.specs.Rebuilding.{HoldsDocument};
ghost use Rattle.h5_builder_laws.specs.Staying.{IsBox};
ghost use Rattle.h5_round_trip.specs.Inside.{IsInData, ReadsOn, StaysRead, text_before};
ghost use Rattle.h5_driver.specs.Boxes.{KeepsBox};
ghost use Rattle.h5_driver.specs.Options.{options_with};
ghost use Rattle.h5_driver.specs.Parsing.{IsParsing, Parsing, ProcessedAll, joined, text_of as text_read, view_of};
ghost use Rattle.h5_driver.specs.PlainFragments.{FragmentStands, IsBodyContext};
ghost use Rattle.h5_driver.specs.StandardTexts.{ParsesFragment};
ghost use Rattle.h5_driver.specs.WholeTexts.{ParsesFragmentBy};
ghost use Rattle.h5_driver.specs.BuilderSink.{after, replies};
ghost use Rattle.h5_clean.specs.Cleaned.{BuildsFragment, IsClean, IsCleaned};
ghost use Rattle.h5_standard_tokenizer.specs.Mark.{behind_mark};
ghost use Rattle.h5_serialize.specs.Walk.{text_of_each};
ghost use Rattle.h5_builder_laws.specs.Plain.{ArePlain, Flow, IsPlain, Nodes, nothing_open};
ghost use Rattle.h5_round_trip.specs.Readable.{AreReadable, CanBeRead, IsReadable};
ghost use Rattle.h5_round_trip.specs.Written.{written_fragment};
ghost use Rattle.h5_clean.specs.Calls.{after_call, first_state, text_of};
ghost use Rattle.h5_clean.specs.Pass.{AllLet, IsWithin, cleaned, first_place, with_first};
ghost use Rattle.h5_clean.specs.Places.{around};
ghost use Rattle.h5_clean.specs.AllowLists.{LeadWell, Table, table_rules};
ghost use Rattle.h5_clean.specs.Policies.{ArePrefixed, MayStay, Rules, RunNoScripts, attributes_left};
ghost use Rattle.h5_clean.specs.Source.{Source, calls_before, source_of};
ghost use Rattle.h5_clean.specs.Texts.{readable, without_marks};

use h5_arena::laws::calls_stand_around_those_of_children;
use h5_driver::Reader;
use h5_driver::laws::{fragments_come_back, fragments_come_back_over, pages_keep_boxes};
use h5_round_trip::laws::standard::texts_stay_in_their_box;

/// If a text is UTF-8, what is left of it is read back as it was written. If a text is read back like that, all of it
/// is left.
pub fn what_is_left_of_a_text_can_be_read()
    ensures left { (text : List ℕ) → is_utf8 text ≡ true → IsReadable (readable text) }
    ensures same { (text : List ℕ) → IsReadable text → readable text ≡ text }
{}

/// The attributes that are left of an element have no namespace and distinct names, and are read back as they were
/// written; all of them are left again.
pub fn what_is_left_of_attributes_can_be_read()
    ensures plain { (rules : Rules) (element : List ℕ) (attrs : List AttributeText) → ArePlain (attributes_left rules element attrs) }
    ensures readable { (rules : Rules) (element : List ℕ) (attrs : List AttributeText) → AreReadable (attributes_left rules element attrs) }
    ensures again { (rules : Rules) (element : List ℕ) (attrs : List AttributeText) →
        attributes_left rules element (attributes_left rules element attrs) ≡ attributes_left rules element attrs }
{}

/// No attribute that is left begins with `on`, is one of `refused_names`, such as `style` or `srcdoc`, or is one of
/// `acting_names` without a prefix, regardless of the rules.
pub fn what_is_left_of_attributes_may_stay()
    ensures { (rules : Rules) (element : List ℕ) (attrs : List AttributeText) → MayStay rules (attributes_left rules element attrs) }
{}

/// If a prefix is set, each id in the attributes that are left begins with it: in `id` and `name`, and in those that
/// refer to one or several ids.
pub fn what_is_left_of_names_is_prefixed()
    ensures { (rules : Rules) (element : List ℕ) (attrs : List AttributeText) → ArePrefixed rules (attributes_left rules element attrs) }
{}

/// No URL that is left in an attribute of HTML has the scheme `javascript` or `vbscript`, regardless of the rules. By the
/// rules of a table each is relative, if the table allows that, or begins with '#', or has a listed scheme, even if the
/// table doesn't say that the attribute holds a URL.
pub fn what_is_left_of_urls_leads_well()
    ensures no_script { (rules : Rules) (element : List ℕ) (attrs : List AttributeText) → RunNoScripts (attributes_left rules element attrs) }
    ensures listed { (table : Table) (element : List ℕ) (attrs : List AttributeText) → LeadWell table (attributes_left (table_rules table) element attrs) }
{}

/// What is left of a tree is a plain fragment that can be read, that doesn't begin with U+FEFF, and that the rules
/// allow completely.
pub fn what_is_left_fits()
    ensures around { (rules : Rules) (source : Source) → IsPlain true (Flow false (around (first_place rules))) (cleaned rules source) }
    ensures plain { (rules : Rules) (source : Source) → IsPlain true (Flow false nothing_open) (cleaned rules source) }
    ensures readable { (rules : Rules) (source : Source) → CanBeRead (cleaned rules source) }
    ensures allowed { (rules : Rules) (source : Source) → AllLet rules (cleaned rules source) × IsWithin rules.depth (cleaned rules source) }
    ensures unmarked { (rules : Rules) (source : Source) → with_first without_marks (cleaned rules source) ≡ cleaned rules source }
{}

/// If a plain fragment can be read, doesn't begin with U+FEFF, and the rules allow it completely, all of it is left.
pub fn what_fits_is_left()
    ensures { (rules : Rules) (nodes : Nodes) → IsPlain true (Flow false (around (first_place rules))) nodes → CanBeRead nodes
        → AllLet rules nodes → IsWithin rules.depth nodes → with_first without_marks nodes ≡ nodes
        → cleaned rules (source_of nodes) ≡ nodes }
{}

/// Cleaning again what is left of a tree doesn't change it.
pub fn cleaning_again_takes_nothing()
    ensures { (rules : Rules) (source : Source) → cleaned rules (source_of (cleaned rules source)) ≡ cleaned rules source }
{
    what_is_left_fits();
    what_fits_is_left();
}

/// A cleaner writes, for the calls of a tree, the text of what is left of the tree.
pub fn what_is_left_is_written()
    ensures { (rules : Rules) (source : Source) → text_of_each after_call text_of (first_state rules) (calls_before source [])
        ≡ written_fragment (cleaned rules source) }
{}

/// If two trees have the same calls, they are equal.
pub fn calls_tell_of_one_tree()
    ensures { (one other : Source) → calls_before one [] ≡ calls_before other [] → one ≡ other }
{}

/// If the first text of a plain fragment doesn't begin with U+FEFF, neither does the fragment's text.
pub fn texts_of_fragments_are_unmarked()
    ensures { (nodes : Nodes) → IsPlain true (Flow false nothing_open) nodes → CanBeRead nodes → with_first without_marks nodes ≡ nodes
        → behind_mark true (written_fragment nodes) ≡ written_fragment nodes }
{}

/// What is left of a text, by given rules, is unique.
pub fn what_is_left_of_a_text_is_one_text()
    ensures { (rules : Rules) (html x y : List ℕ) → IsCleaned rules html x → IsCleaned rules html y → x ≡ y }
{}

/// If `out` is what the rules leave of `html`, then any parser of fragments over the standard tokenizer, with default
/// options, with or without scripting, over a sink with only its document, in the context of an HTML element by which
/// the mode is "in body", builds from `out` exactly what the rules allow of the tree of `html`. How `out` is split
/// doesn't matter (`h5_driver::laws::pieces_then_finish`).
pub fn what_is_left_comes_back()
    ensures { (rules : Rules) (html out : List ℕ) (cleaned_is : IsCleaned rules html out)
        (choices : SinkChoices) (seen told : Seen) (name : QualName) (attrs : List AttributeText) (scripting allows_scripting : Bool) →
        HoldsDocument seen.forest → IsBodyContext name → ParsesFragment choices seen (options_with scripting) name attrs allows_scripting out told
        → FragmentStands told.forest (cleaned rules cleaned_is.source) }
{
    fragments_come_back();
}

/// As above, over any `Reader`, including the plain tokenizer.
pub fn what_is_left_comes_back_over<R: Reader>()
    ensures { (rules : Rules) (html out : List ℕ) (cleaned_is : IsCleaned rules html out)
        (seen told : Seen) (name : QualName) (attrs : List AttributeText) (scripting allows_scripting : Bool) →
        HoldsDocument seen.forest → IsBodyContext name
        → ParsesFragmentBy R.Reads R.first R.Sink.choices seen (options_with scripting) name attrs allows_scripting out told
        → FragmentStands told.forest (cleaned rules cleaned_is.source) }
{
    fragments_come_back_over::<R>();
}

/// If `out` is what the rules leave of `html`, the standard's tokenizer is in the data state, and the builder is in the
/// middle of a page at an element in which no more is open than the rules say (`IsBox`), then `out` is read up to the
/// remainder, which must not be empty, as the allowed tree. After it the open elements, the mode and the list of active
/// formatting elements are unchanged, and the allowed tree follows that element's children.
pub fn what_is_left_stays_in_its_box()
    ensures { (choices : SinkChoices) (rules : Rules) (html out : List ℕ) (cleaned_is : IsCleaned rules html out)
        (foreign : View → Bool) (place : ReaderPlace) (view : View) (box : IsBox (around (first_place rules)) view.world) (rest : List ℕ) →
        IsInData place → Fitting view.world → view.ended ≡ false → view.failed ≡ false → rest ≢ []
        → (text_before (cleaned rules cleaned_is.source) rest ≡ out ++ rest)
        × StaysRead IsInData (ReadsOn (replies choices) (after choices) foreign) place view (around (first_place rules)) box (cleaned rules cleaned_is.source) rest }
{
    texts_stay_in_their_box();
}

/// If `out` is what the rules leave of `html`, and a parser has taken the beginning of a page in any chunks, is in the data
/// state, and its builder is at an element in which no more is open than the rules say (`IsBox`), then `out` changes
/// nothing of the page but that element, which gets the allowed tree: what follows is built from the same open elements,
/// mode and list of active formatting elements as without `out`. This holds for any `Reader`.
pub fn what_is_left_stays_in_a_page<R: Reader>()
    ensures { (rules : Rules) (html out : List ℕ) (cleaned_is : IsCleaned rules html out)
        (chunks : List (List ℕ)) (first now : Parsing R) (box : IsBox (around (first_place rules)) (view_of R.Reader now).world) (rest : List ℕ) →
        ProcessedAll R.Reader chunks first now → IsParsing R.Reader first → first.failed ≡ false → IsParsing R.Reader now → now.failed ≡ false → now.waiting ≡ []
        → R.IsInData (text_read R.Reader now) → rest ≢ []
        → (text_before (cleaned rules cleaned_is.source) rest ≡ out ++ rest)
        × KeepsBox R.IsInData R.Readings R.Reads R.Sink.choices (text_read R.Reader first) (view_of R.Reader first) (first.waiting ++ joined chunks)
        (text_read R.Reader now) (view_of R.Reader now) (around (first_place rules)) box (cleaned rules cleaned_is.source) rest }
{
    pages_keep_boxes::<R>();
}

/// If a result is cleaned again by the same rules, it doesn't change.
pub fn a_cleaned_text_stays()
    ensures { (rules : Rules) (html out again : List ℕ) → IsCleaned rules html out → IsCleaned rules out again → again ≡ out }
{
    calls_stand_around_those_of_children();
    fragments_come_back();
}

/// If a text is parsed as a fragment that the rules allow completely, the result is the text of that fragment.
pub fn a_clean_text_stays()
    ensures { (rules : Rules) (html out : List ℕ) (nodes : Nodes) → IsClean rules nodes → BuildsFragment html nodes
        → IsCleaned rules html out → out ≡ written_fragment nodes }
{
    calls_stand_around_those_of_children();
}
