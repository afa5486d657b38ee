//! The laws of texts and links. Each is the contract of a function that does nothing.
ghost use Rattle.std.specs.Prelude.{◌≡◌, ℕ, List};
ghost use Rattle.h5_page.specs.Links.{LinkText};
ghost use Rattle.h5_page.specs.LinksOfPage.{AreLinksOf};
ghost use Rattle.h5_page.specs.TextOfPage.{IsTextOf};

use html_tree_builder::laws::a_text_has_one_tree;
use html_tree_builder::{Arena, StandardReader};

/// A page has one text.
pub fn a_page_has_one_text()
    ensures { (page x y : List ℕ) → IsTextOf page x → IsTextOf page y → x ≡ y }
{
    a_text_has_one_tree::<StandardReader<Arena>>();
}

/// A page has one list of links.
pub fn a_page_has_one_list_of_links()
    ensures { (page : List ℕ) (x y : List LinkText) → AreLinksOf page x → AreLinksOf page y → x ≡ y }
{
    a_text_has_one_tree::<StandardReader<Arena>>();
}
