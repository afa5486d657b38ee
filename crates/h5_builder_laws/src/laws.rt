//! The laws of rebuilding, each the contract of a function that does nothing.
ghost use Rattle.std.specs.Prelude.{◌≡◌, List};
ghost use Rattle.h5_token.specs.TokenText.{TokenText};
ghost use Rattle.h5_interface.specs.SinkChoices.{SinkChoices};
ghost use Rattle.h5_builder_spec.specs.Run.{View};
ghost use Rattle.h5_builder_laws.specs.Boxes.{BodiesAreBoxes, BoxNamesLeadToBoxes, StartTagsLeadToBoxes};
ghost use Rattle.h5_builder_laws.specs.Rebuilding.{RebuildsAll, RebuildsFragments};
ghost use Rattle.h5_builder_laws.specs.Staying.{StayInBox};

/// If the tokens of a plain document, with their texts split in any way, are run from a new builder with the default
/// options over a sink with its document alone, the builder makes exactly that document, in no-quirks mode. The reply
/// to the start tag of a title switches to its text; all others are "go on". No parse error is reported if no
/// whitespace text is in a table.
///
/// A plain document has a head, which is empty or holds a `title` of one text, and a body of texts, no two of them
/// adjacent, and of elements of HTML, each at a place where its start tag closes nothing that is open. So a block, a
/// table, an `hr` or a paragraph isn't in a `p`. A heading isn't in a `p`, nor a child of a heading. An `li` isn't in
/// another `li`, and a `dd` or `dt` isn't in another one of these, unless an element between them other than `address`,
/// `dialog` and `div` ends the search for it. An `a` isn't in an `a`. A table has captions, column groups, sections,
/// rows and cells at their places, and whitespace texts. Formatting elements, and phrases (elements without a rule by
/// their name), are anywhere in flow.
///
/// A tree builder drops a newline right after the start tag of a `pre`; so the tokens have a newline at the start of a
/// `pre` twice (`as_written` in `specs/Plain.antt`).
pub fn documents_are_rebuilt()
    ensures { (choices : SinkChoices) (tokens : List TokenText) (view : View) → RebuildsAll choices tokens view }
{}

/// If the tokens of plain nodes, with their texts split in any way, are run from a new builder of a fragment in a
/// context by which the mode is "in body", such as `div` or `body`, the builder makes exactly these nodes below the
/// root.
pub fn fragments_are_rebuilt()
    ensures { (choices : SinkChoices) (tokens : List TokenText) (view : View) → RebuildsFragments choices tokens view }
{}

/// If a builder, of a document or of a fragment, is in the middle of a page at an element that takes nodes of flow
/// (`IsBox`), the tokens of nodes that fit there leave the same elements open, the same mode and the same list of
/// active formatting elements. In the forest only that element has changed: these nodes follow its children.
pub fn nodes_stay_in_their_box()
    ensures { (choices : SinkChoices) (tokens : List TokenText) (view : View) → StayInBox choices tokens view }
{}

/// If a builder is in the middle of a page at an element that takes nodes of flow (`IsBox`), the start tags of phrases,
/// blocks, items, terms, and of a table, its sections, rows and cells or its caption, each of them where it closes nothing
/// (`held_behind`), lead to an element that takes nodes of flow.
pub fn start_tags_lead_to_boxes()
    ensures { (choices : SinkChoices) → StartTagsLeadToBoxes choices }
{}

/// From an element that takes nodes of flow, in which nothing is open, the start tag of an element that is a box by its
/// name (`is_box_name`) leads to an element that takes nodes of flow.
pub fn box_names_lead_to_boxes()
    ensures { (choices : SinkChoices) → BoxNamesLeadToBoxes choices }
{}

/// The tokens of a document up to the start tag of its body, in whose head there is nothing or a `title` of one text, lead
/// from a new builder, over a sink with its document alone, to an element that takes nodes of flow, in which nothing is
/// open: the body.
pub fn bodies_are_boxes()
    ensures { (choices : SinkChoices) → BodiesAreBoxes choices }
{}
