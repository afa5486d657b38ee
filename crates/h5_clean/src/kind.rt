//! The kinds of elements, by their names.
ghost use Rattle.std.specs.Prelude.{◌≡◌};
ghost use Rattle.h5_tables.specs.TagSets.{cell_names, heading_names, is_one_of};
ghost use Rattle.h5_builder_laws.specs.Plain.{barrier_names, inline_names, mark_names, open_block_names, part_names, phrase_names, ruby_text_names, term_names};
ghost use Rattle.h5_clean.specs.Kinds.{early_barrier_names, early_phrase_names, kind_in, kind_of, late_barrier_names, late_phrase_names, lone_rows};

/// What the rules of "in body" and of tables distinguish (HTML standard, section 13.2.6.4).
#[derive(Clone, Copy, Debug, PartialEq, Eq)]
pub enum Kind {
    /// `address`, `dialog`, `div`: a block that doesn't end the search for a list item.
    Division,
    /// `article`, `section`, `ul` and others: a block that ends it.
    Barrier,
    /// `pre`.
    Preformatted,
    /// `p`.
    Paragraph,
    /// `h1` to `h6`.
    Heading,
    /// `li`.
    Item,
    /// `dd`, `dt`.
    Describing,
    /// `hr`.
    Ruled,
    /// `br`, `img`, `wbr`.
    Break,
    /// `b`, `em` and the other formatting elements, except `a` and `nobr`.
    Formatted,
    /// `span`, `abbr` and other elements without a rule by their name.
    Phrase,
    /// `ruby`.
    Ruby,
    /// `rp`, `rt`.
    RubyText,
    /// `a`.
    Link,
    /// `table`.
    Table,
    /// `caption`.
    Caption,
    /// `colgroup`.
    ColumnGroup,
    /// `col`.
    Column,
    /// `tbody`, `tfoot`, `thead`.
    Section,
    /// `tr`.
    TableRow,
    /// `td`, `th`.
    Cell,
    /// Any other name.
    Unknown,
}

// The names of phrases: two parts, and then all.
#[tactic(auto, unfolding(crate::specs::Kinds::early_phrase_names))]
fn is_early_phrase(name: &str) -> bool
    ensures { result ≡ is_one_of early_phrase_names name.now }
{
    matches!(
        name,
        "abbr" | "bdi" | "bdo" | "cite" | "data" | "del" | "dfn" | "ins" | "kbd" | "label"
    )
}

#[tactic(auto, unfolding(crate::specs::Kinds::late_phrase_names))]
fn is_late_phrase(name: &str) -> bool
    ensures { result ≡ is_one_of late_phrase_names name.now }
{
    matches!(
        name,
        "mark"
            | "meter"
            | "output"
            | "progress"
            | "q"
            | "samp"
            | "span"
            | "sub"
            | "sup"
            | "time"
            | "var"
    )
}

fn is_phrase(name: &str) -> bool
    ensures { result ≡ is_one_of phrase_names name.now }
{
    is_early_phrase(name) || is_late_phrase(name)
}

#[tactic(auto, unfolding(h5_builder_laws::specs::Plain::inline_names))]
fn is_formatting(name: &str) -> bool
    ensures { result ≡ is_one_of inline_names name.now }
{
    matches!(
        name,
        "b" | "big"
            | "code"
            | "em"
            | "font"
            | "i"
            | "s"
            | "small"
            | "strike"
            | "strong"
            | "tt"
            | "u"
    )
}

#[tactic(auto, unfolding(h5_builder_laws::specs::Plain::open_block_names))]
fn is_division(name: &str) -> bool
    ensures { result ≡ is_one_of open_block_names name.now }
{
    matches!(name, "address" | "dialog" | "div")
}

// The names of blocks that end the search for a list item: two parts, and then all.
#[tactic(auto, unfolding(crate::specs::Kinds::early_barrier_names))]
fn is_early_barrier(name: &str) -> bool
    ensures { result ≡ is_one_of early_barrier_names name.now }
{
    matches!(
        name,
        "article"
            | "aside"
            | "blockquote"
            | "center"
            | "details"
            | "dir"
            | "dl"
            | "fieldset"
            | "figcaption"
            | "figure"
    )
}

#[tactic(auto, unfolding(crate::specs::Kinds::late_barrier_names))]
fn is_late_barrier(name: &str) -> bool
    ensures { result ≡ is_one_of late_barrier_names name.now }
{
    matches!(
        name,
        "footer"
            | "header"
            | "hgroup"
            | "main"
            | "menu"
            | "nav"
            | "ol"
            | "section"
            | "summary"
            | "ul"
    )
}

fn is_barrier(name: &str) -> bool
    ensures { result ≡ is_one_of barrier_names name.now }
{
    is_early_barrier(name) || is_late_barrier(name)
}

#[tactic(auto, unfolding(h5_builder_laws::specs::Plain::mark_names))]
fn is_break(name: &str) -> bool
    ensures { result ≡ is_one_of mark_names name.now }
{
    matches!(name, "br" | "img" | "wbr")
}

#[tactic(auto, unfolding(h5_tables::specs::TagSets::cell_names))]
fn is_cell(name: &str) -> bool
    ensures { result ≡ is_one_of cell_names name.now }
{
    matches!(name, "td" | "th")
}

#[tactic(auto, unfolding(h5_tables::specs::TagSets::heading_names))]
fn is_heading(name: &str) -> bool
    ensures { result ≡ is_one_of heading_names name.now }
{
    matches!(name, "h1" | "h2" | "h3" | "h4" | "h5" | "h6")
}

#[tactic(auto, unfolding(h5_builder_laws::specs::Plain::term_names))]
fn is_term(name: &str) -> bool
    ensures { result ≡ is_one_of term_names name.now }
{
    matches!(name, "dd" | "dt")
}

#[tactic(auto, unfolding(h5_builder_laws::specs::Plain::part_names))]
fn is_part(name: &str) -> bool
    ensures { result ≡ is_one_of part_names name.now }
{
    matches!(name, "tbody" | "tfoot" | "thead")
}

#[tactic(auto, unfolding(h5_builder_laws::specs::Plain::ruby_text_names))]
fn is_ruby_text(name: &str) -> bool
    ensures { result ≡ is_one_of ruby_text_names name.now }
{
    matches!(name, "rp" | "rt")
}

// The kind of a name that isn't in a set above.
#[tactic(auto, unfolding(crate::specs::Kinds::lone_rows))]
fn kind_alone(name: &str) -> Kind
    ensures { result ≡ kind_in lone_rows name.now }
{
    match name {
        "a" => Kind::Link,
        "p" => Kind::Paragraph,
        "li" => Kind::Item,
        "tr" => Kind::TableRow,
        "pre" => Kind::Preformatted,
        "hr" => Kind::Ruled,
        "table" => Kind::Table,
        "caption" => Kind::Caption,
        "colgroup" => Kind::ColumnGroup,
        "col" => Kind::Column,
        "ruby" => Kind::Ruby,
        _ => Kind::Unknown,
    }
}

/// Returns the kind of a name.
#[tactic(auto, unfolding(crate::specs::Kinds::set_rows))]
pub fn kind_of(name: &str) -> Kind
    ensures { result ≡ kind_of name.now }
{
    if is_phrase(name) {
        Kind::Phrase
    } else if is_formatting(name) {
        Kind::Formatted
    } else if is_division(name) {
        Kind::Division
    } else if is_barrier(name) {
        Kind::Barrier
    } else if is_break(name) {
        Kind::Break
    } else if is_cell(name) {
        Kind::Cell
    } else if is_heading(name) {
        Kind::Heading
    } else if is_term(name) {
        Kind::Describing
    } else if is_part(name) {
        Kind::Section
    } else if is_ruby_text(name) {
        Kind::RubyText
    } else {
        kind_alone(name)
    }
}
