//! The policies with a name.

/// What GitHub allows in a README, after the list of its library `html-pipeline`. Ids and names get the prefix that GitHub gives them.
pub const GITHUB: &str = r#"
elements = ["h1", "h2", "h3", "h4", "h5", "h6", "br", "b", "i", "strong", "em", "a", "pre", "code", "img", "tt", "div",
    "ins", "del", "sup", "sub", "p", "ol", "ul", "table", "thead", "tbody", "tfoot", "blockquote", "dl", "dt", "dd", "kbd",
    "q", "samp", "var", "hr", "li", "tr", "td", "th", "s", "strike", "summary", "details", "caption", "figure",
    "figcaption", "abbr", "bdo", "cite", "dfn", "mark", "small", "span", "time", "wbr",
    "ruby", "rt", "rp"]
attributes = ["abbr", "accept", "accept-charset", "accesskey", "action", "align", "alt", "aria-describedby", "aria-hidden",
    "aria-label", "aria-labelledby", "axis", "border", "cellpadding", "cellspacing", "char", "charoff", "charset",
    "checked", "clear", "cols", "colspan", "color", "compact", "coords", "datetime", "dir", "disabled", "enctype", "for",
    "frame", "headers", "height", "hreflang", "hspace", "ismap", "label", "lang", "maxlength", "media", "method",
    "multiple", "name", "nohref", "noshade", "nowrap", "open", "progress", "prompt", "readonly", "rel", "rev", "role",
    "rows", "rowspan", "rules", "scope", "selected", "shape", "size", "span", "start", "summary", "tabindex", "target",
    "title", "type", "valign", "value", "vspace", "width", "itemprop"]
schemes = ["http", "https", "mailto", "xmpp", "github-windows", "github-mac", "irc", "ircs"]
rel = "nofollow"
prefix = "user-content-"

[attributes-of]
a = ["href"]
img = ["src", "longdesc"]
div = ["itemscope", "itemtype"]
blockquote = ["cite"]
del = ["cite"]
ins = ["cite"]
q = ["cite"]
"#;

/// The default policy as a table, except for two things: of several classes of a `code` those that begin with `language-` are kept, and an
/// image may have a URL with the scheme `mailto`, which browsers don't show.
pub const TEXT: &str = r#"
elements = ["a", "abbr", "address", "article", "aside", "b", "bdi", "bdo", "blockquote", "br", "caption", "cite", "code", "col",
    "colgroup", "data", "dd", "del", "details", "dfn", "div", "dl", "dt", "em", "figcaption", "figure", "footer", "h1", "h2",
    "h3", "h4", "h5", "h6", "header", "hgroup", "hr", "i", "img", "ins", "kbd", "li", "main", "mark", "nav", "ol", "p", "pre",
    "q", "rp", "rt", "ruby", "s", "samp", "section", "small", "span", "strike", "strong", "sub", "summary", "sup", "table", "tbody", "td", "tfoot",
    "th", "thead", "time", "tr", "tt", "u", "ul", "var", "wbr"]
attributes = ["title", "lang", "dir"]
classes = ["language-"]
schemes = ["http", "https", "mailto"]
rel = "noopener noreferrer"

[attributes-of]
a = ["href"]
blockquote = ["cite"]
code = ["class"]
col = ["span"]
colgroup = ["span"]
data = ["value"]
del = ["cite", "datetime"]
details = ["open"]
div = ["align"]
h1 = ["align"]
h2 = ["align"]
h3 = ["align"]
h4 = ["align"]
h5 = ["align"]
h6 = ["align"]
img = ["src", "alt", "width", "height", "align"]
ins = ["cite", "datetime"]
li = ["value"]
ol = ["start", "reversed", "type"]
p = ["align"]
q = ["cite"]
td = ["colspan", "rowspan", "headers", "align"]
th = ["colspan", "rowspan", "headers", "scope", "align"]
time = ["datetime"]
"#;
