//! Tables of identifiers of doctypes.

// The pairs of a public and a system identifier that aren't errors.
pub static GOOD_IDENTIFIERS: [(Option<&str>, Option<&str>); 8] = [
    (None, None),
    (None, Some("about:legacy-compat")),
    (Some("-//W3C//DTD HTML 4.0//EN"), None),
    (
        Some("-//W3C//DTD HTML 4.0//EN"),
        Some("http://www.w3.org/TR/REC-html40/strict.dtd"),
    ),
    (Some("-//W3C//DTD HTML 4.01//EN"), None),
    (
        Some("-//W3C//DTD HTML 4.01//EN"),
        Some("http://www.w3.org/TR/html4/strict.dtd"),
    ),
    (
        Some("-//W3C//DTD XHTML 1.0 Strict//EN"),
        Some("http://www.w3.org/TR/xhtml1/DTD/xhtml1-strict.dtd"),
    ),
    (
        Some("-//W3C//DTD XHTML 1.1//EN"),
        Some("http://www.w3.org/TR/xhtml11/DTD/xhtml11.dtd"),
    ),
];

// The identifiers that mean quirks, in lower case.
pub static QUIRKY_PUBLIC_IDS: [&str; 3] = [
    "-//w3o//dtd w3 html strict 3.0//en//",
    "-/w3c/dtd html 4.0 transitional/en",
    "html",
];

pub static QUIRKY_SYSTEM_IDS: [&str; 1] = [
    "http://www.ibm.com/data/dtd/v11/ibmxhtml1-transitional.dtd",
];

// The prefixes of public identifiers that mean quirks.
pub static QUIRKY_PUBLIC_PREFIXES: [&str; 54] = [
    "-//ietf//dtd html//",
    "-//ietf//dtd html 2.0//",
    "-//ietf//dtd html 2.0 level 1//",
    "-//ietf//dtd html 2.0 level 2//",
    "-//ietf//dtd html 2.0 strict//",
    "-//ietf//dtd html 2.0 strict level 1//",
    "-//ietf//dtd html 2.0 strict level 2//",
    "-//ietf//dtd html 2.1e//",
    "-//ietf//dtd html 3.0//",
    "-//ietf//dtd html 3.2 final//",
    "-//ietf//dtd html 3.2//",
    "-//ietf//dtd html 3//",
    "-//ietf//dtd html strict//",
    "-//ietf//dtd html level 0//",
    "-//ietf//dtd html level 1//",
    "-//ietf//dtd html level 2//",
    "-//ietf//dtd html level 3//",
    "-//ietf//dtd html strict level 0//",
    "-//ietf//dtd html strict level 1//",
    "-//ietf//dtd html strict level 2//",
    "-//ietf//dtd html strict level 3//",
    "-//w3c//dtd html 3 1995-03-24//",
    "-//w3c//dtd html 3.2 draft//",
    "-//w3c//dtd html 3.2 final//",
    "-//w3c//dtd html 3.2//",
    "-//w3c//dtd html 3.2s draft//",
    "-//w3c//dtd html 4.0 frameset//",
    "-//w3c//dtd html 4.0 transitional//",
    "-//w3c//dtd html experimental 19960712//",
    "-//w3c//dtd html experimental 970421//",
    "-//microsoft//dtd internet explorer 2.0 html strict//",
    "-//microsoft//dtd internet explorer 2.0 html//",
    "-//microsoft//dtd internet explorer 2.0 tables//",
    "-//microsoft//dtd internet explorer 3.0 html strict//",
    "-//microsoft//dtd internet explorer 3.0 html//",
    "-//microsoft//dtd internet explorer 3.0 tables//",
    "-//o'reilly and associates//dtd html 2.0//",
    "-//o'reilly and associates//dtd html extended 1.0//",
    "-//o'reilly and associates//dtd html extended relaxed 1.0//",
    "-//netscape comm. corp.//dtd html//",
    "-//netscape comm. corp.//dtd strict html//",
    "-//sun microsystems corp.//dtd hotjava html//",
    "-//sun microsystems corp.//dtd hotjava strict html//",
    "-//webtechs//dtd mozilla html//",
    "-//webtechs//dtd mozilla html 2.0//",
    "-//advasoft ltd//dtd html 3.0 aswedit + extensions//",
    "-//as//dtd html 3.0 aswedit + extensions//",
    "-//metrius//dtd metrius presentational//",
    "-//softquad software//dtd hotmetal pro 6.0::19990601::extensions to html 4.0//",
    "-//softquad//dtd hotmetal pro 4.0::19971010::extensions to html 4.0//",
    "-//spyglass//dtd html 2.0 extended//",
    "-//sq//dtd html 2.0 hotmetal + extensions//",
    "-//w3c//dtd w3 html//",
    "-//w3o//dtd w3 html 3.0//",
];

// The prefixes that mean limited quirks.
pub static LIMITED_QUIRKY_PUBLIC_PREFIXES: [&str; 2] = [
    "-//w3c//dtd xhtml 1.0 frameset//",
    "-//w3c//dtd xhtml 1.0 transitional//",
];

// The prefixes that mean limited quirks with a system identifier, and quirks without one.
pub static HTML4_PUBLIC_PREFIXES: [&str; 2] = [
    "-//w3c//dtd html 4.01 frameset//",
    "-//w3c//dtd html 4.01 transitional//",
];
