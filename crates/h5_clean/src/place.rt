//! Places for nodes.
ghost use Rattle.std.specs.Prelude.{◌≡◌, false, true};
ghost use Rattle.h5_clean.specs.Places.{fits, fits_at, fits_in_flow, inside, nowhere};
ghost use Rattle.h5_clean.specs.Places as places;

use super::kind::Kind;

/// In flow, directly in a table or a part of one, or where nothing is allowed.
#[derive(Clone, Copy, Debug, PartialEq, Eq)]
pub enum Spot {
    /// In a body, a block, a cell, a phrase: wherever any text is allowed.
    InFlow,
    /// In a `table`.
    InTable,
    /// In a `colgroup`.
    InColumns,
    /// In a `tbody`, `tfoot` or `thead`.
    InSection,
    /// In a `tr`.
    InRow,
    /// In an element that is dropped with its content, and in one that has no content.
    Nowhere,
}

/// A spot, what is open there as far as the rules of "in body" need it, and how much deeper elements may be nested.
#[derive(Clone, Copy, Debug, PartialEq, Eq)]
pub struct Place {
    pub spot: Spot,
    /// A `p` is open.
    pub in_p: bool,
    /// The parent is a heading.
    pub in_heading: bool,
    /// An `li` is open, and no other element ends the search for it.
    pub in_item: bool,
    /// A `dd` or `dt` is open, and no other element ends the search for it.
    pub in_description: bool,
    /// An `a` is open.
    pub in_link: bool,
    /// The parent is a `ruby`.
    pub in_ruby: bool,
    pub room: usize,
}

/// What may be open around a text in the page that it is put into, as far as the rules of "in body" need it.
#[derive(Clone, Copy, Debug, PartialEq, Eq)]
pub struct Around {
    /// A `p`.
    pub in_p: bool,
    /// A heading, as the parent.
    pub in_heading: bool,
    /// An `li`, and no other element ends the search for it.
    pub in_item: bool,
    /// A `dd` or `dt`, and no other element ends the search for it.
    pub in_description: bool,
    /// An `a`.
    pub in_link: bool,
}

impl Around {
    /// Nothing: the text is a fragment by itself, or is directly in an element that ends the search for list items.
    pub fn nothing() -> Around
        ensures { result ≡ record { in_p = false; in_heading = false; in_item = false; in_description = false; in_link = false } }
    {
        Around {
            in_p: false,
            in_heading: false,
            in_item: false,
            in_description: false,
            in_link: false,
        }
    }

    /// A list item or a description, for example if comments are list items.
    pub fn items() -> Around
        ensures { result ≡ record { in_p = false; in_heading = false; in_item = true; in_description = true; in_link = false } }
    {
        let mut around = Around::nothing();
        around.in_item = true;
        around.in_description = true;
        around
    }

    /// A list item or a description, and a link.
    pub fn link() -> Around
        ensures { result ≡ record { in_p = false; in_heading = false; in_item = true; in_description = true; in_link = true } }
    {
        let mut around = Around::items();
        around.in_link = true;
        around
    }

    /// All of them: the text is in a line of a `p`, a heading or a link, so it has no blocks.
    pub fn line() -> Around
        ensures { result ≡ record { in_p = true; in_heading = true; in_item = true; in_description = true; in_link = true } }
    {
        let mut around = Around::link();
        around.in_p = true;
        around.in_heading = true;
        around
    }
}

impl Place {
    /// Returns the place in flow with this open around it, and room for this depth.
    pub fn first(around: Around, room: usize) -> Place
        ensures { result ≡ record { spot = Spot.InFlow; in_p = around.in_p; in_heading = around.in_heading; in_item = around.in_item; in_description = around.in_description; in_link = around.in_link; in_ruby = false; room = room } }
    {
        Place {
            spot: Spot::InFlow,
            in_p: around.in_p,
            in_heading: around.in_heading,
            in_item: around.in_item,
            in_description: around.in_description,
            in_link: around.in_link,
            in_ruby: false,
            room,
        }
    }

    fn fits_in_flow(&self, kind: Kind) -> bool
        ensures { result ≡ fits_in_flow kind self.now }
    {
        match kind {
            Kind::Division
            | Kind::Barrier
            | Kind::Preformatted
            | Kind::Paragraph
            | Kind::Ruled
            | Kind::Table => !self.in_p,
            Kind::Heading => !self.in_p && !self.in_heading,
            Kind::Item => !self.in_p && !self.in_item,
            Kind::Describing => !self.in_p && !self.in_description,
            Kind::Break | Kind::Formatted | Kind::Phrase | Kind::Ruby => true,
            Kind::RubyText => self.in_ruby,
            Kind::Link => !self.in_link,
            Kind::Caption
            | Kind::ColumnGroup
            | Kind::Column
            | Kind::Section
            | Kind::TableRow
            | Kind::Cell
            | Kind::Unknown => false,
        }
    }

    fn fits_at(&self, kind: Kind) -> bool
        ensures { result ≡ fits_at self.now.spot kind self.now }
    {
        match self.spot {
            Spot::InFlow => self.fits_in_flow(kind),
            Spot::InTable => matches!(kind, Kind::Caption | Kind::ColumnGroup | Kind::Section),
            Spot::InColumns => matches!(kind, Kind::Column),
            Spot::InSection => matches!(kind, Kind::TableRow),
            Spot::InRow => matches!(kind, Kind::Cell),
            Spot::Nowhere => false,
        }
    }

    /// Returns true if an element of this kind fits here.
    pub fn fits(&self, kind: Kind) -> bool
        ensures { result ≡ fits kind self.now }
    {
        self.room > 0 && self.fits_at(kind)
    }

    // One element deeper, at this spot.
    fn directly(&self, spot: Spot) -> Place
        ensures { result ≡ places.directly spot self.now }
    {
        let mut place = *self;
        place.spot = spot;
        place.room = self.room.saturating_sub(1);
        place
    }

    // In flow, where nothing around counts as open.
    fn alone(&self) -> Place
        ensures { result ≡ places.alone self.now }
    {
        Place::first(Around::nothing(), self.room.saturating_sub(1))
    }

    // Inside an element that doesn't end the search for a list item.
    fn within(&self) -> Place
        ensures { result ≡ places.within self.now }
    {
        let mut place = self.directly(Spot::InFlow);
        place.in_heading = false;
        place.in_ruby = false;
        place
    }

    // Inside an element that ends the search for a list item.
    fn behind(&self) -> Place
        ensures { result ≡ places.behind self.now }
    {
        let mut place = self.within();
        place.in_item = false;
        place.in_description = false;
        place
    }

    /// Returns a place where nothing is allowed.
    pub fn nowhere(&self) -> Place
        ensures { result ≡ nowhere self.now }
    {
        self.directly(Spot::Nowhere)
    }

    /// Returns the place of the content of an element of this kind.
    pub fn inside(&self, kind: Kind) -> Place
        ensures { result ≡ inside kind self.now }
    {
        let mut place = match kind {
            Kind::Division
            | Kind::Paragraph
            | Kind::Formatted
            | Kind::Phrase
            | Kind::Ruby
            | Kind::RubyText
            | Kind::Link => self.within(),
            Kind::Barrier | Kind::Preformatted | Kind::Heading | Kind::Item | Kind::Describing =>
                self.behind(),
            Kind::Caption | Kind::Cell => self.alone(),
            Kind::Table => self.directly(Spot::InTable),
            Kind::ColumnGroup => self.directly(Spot::InColumns),
            Kind::Section => self.directly(Spot::InSection),
            Kind::TableRow => self.directly(Spot::InRow),
            Kind::Ruled | Kind::Break | Kind::Column | Kind::Unknown => self.nowhere(),
        };
        match kind {
            Kind::Paragraph => place.in_p = true,
            Kind::Heading => place.in_heading = true,
            Kind::Item => place.in_item = true,
            Kind::Describing => place.in_description = true,
            Kind::Ruby => place.in_ruby = true,
            Kind::Link => place.in_link = true,
            _ => {}
        }
        place
    }
}
