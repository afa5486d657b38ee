//! Lists of names, each once: the definitions in `specs/` name them.
ghost use Rattle.std.specs.Prelude.{◌≡◌};
ghost use Rattle.h5_tables.specs.TagSets.{is_one_of};
ghost use Rattle.h5_clean.specs.Lists.{texts_of};

// The default policy: elements that have a kind, but aren't allowed.
pub static UNNAMED: [&str; 11] = [
    "center", "dialog", "dir", "fieldset", "big", "font", "label", "meter", "output", "progress",
    "menu",
];

// The default policy: elements that are dropped with their content, such as a script, a style, a frame, or media.
#[rattlefmt::skip]
pub static DROPPED: [&str; 20] = [
    "script", "style", "template", "iframe", "object", "embed", "applet", "noscript", "noembed", "noframes", "xmp", "plaintext",
    "textarea", "title", "select", "head", "frameset", "audio", "video", "canvas",
];

// The default policy: attributes that any element keeps.
pub static GLOBAL: [&str; 3] = ["title", "lang", "dir"];

// The default policy: elements, and the attributes that they keep.
pub static KEEPINGS: [(&str, &[&str]); 14] = [
    ("a", &["href"]),
    ("img", &["src", "alt", "width", "height"]),
    ("td", &["colspan", "rowspan", "headers"]),
    ("th", &["colspan", "rowspan", "headers", "scope"]),
    ("col", &["span"]),
    ("colgroup", &["span"]),
    ("ol", &["start", "reversed", "type"]),
    ("li", &["value"]),
    ("time", &["datetime"]),
    ("del", &["datetime"]),
    ("ins", &["datetime"]),
    ("data", &["value"]),
    ("details", &["open"]),
    ("code", &["class"]),
];

// The default policy: elements that keep `align`, and elements that keep `cite`.
pub static ALIGNED: [&str; 11] = [
    "td", "th", "p", "div", "img", "h1", "h2", "h3", "h4", "h5", "h6",
];

pub static CITING: [&str; 4] = ["blockquote", "q", "del", "ins"];

// Attributes that hold a page, a style, a secret, or a list of URLs, or turn an element into another, or use a map of the page.
#[rattlefmt::skip]
pub static REFUSED: [&str; 13] = [
    "srcdoc", "style", "nonce", "is", "slot", "srcset", "imagesrcset", "http-equiv", "xlink:href", "ping", "attributionsrc", "archive",
    "usemap",
];

// Attributes by which an element acts on another one of the page.
#[rattlefmt::skip]
pub static ACTING: [&str; 5] = ["for", "form", "popovertarget", "commandfor", "interestfor"];

// Attributes that have an id, or refer to one.
#[rattlefmt::skip]
pub static IDS: [&str; 9] = [
    "id", "name", "for", "form", "list", "popovertarget", "commandfor", "interestfor", "aria-activedescendant",
];

// Attributes that refer to several ids.
#[rattlefmt::skip]
pub static ID_LISTS: [&str; 9] = [
    "headers", "itemref", "aria-labelledby", "aria-describedby", "aria-controls", "aria-owns", "aria-details", "aria-flowto",
    "aria-errormessage",
];

// Attributes that hold a URL in HTML.
#[rattlefmt::skip]
pub static URLS: [&str; 18] = [
    "href", "src", "cite", "action", "background", "classid", "codebase", "data", "dynsrc", "formaction", "icon", "itemid", "itemtype",
    "longdesc", "lowsrc", "manifest", "poster", "profile",
];

/// Returns true if a name is one of these.
pub fn is_among(names: &[&str], name: &str) -> bool
    ensures { result ≡ is_one_of (texts_of names.now) name.now }
{
    for other in names {
        if *other == name {
            return true;
        }
    }
    false
}
