//! Parse errors of tree construction, their messages and their names.
ghost use Rattle.std.specs.Prelude.{◌≡◌};
ghost use Rattle.h5_tables.specs.TreeErrors.{tree_error_message, tree_error_name};

/// A parse error of tree construction (HTML standard, section 13.2.6, "Tree construction").
#[derive(Clone, Copy, Debug, PartialEq, Eq)]
pub enum TreeError {
    /// A start tag, and no doctype came before.
    StartTagBeforeDoctype,
    /// An end tag, and no doctype came before.
    EndTagBeforeDoctype,
    /// A text, and no doctype came before.
    TextBeforeDoctype,
    /// The input ends, and no doctype came before.
    EofBeforeDoctype,
    /// An end tag before the `html`.
    EndTagBeforeHtml,
    /// An end tag between the `html` and the `head`.
    EndTagBeforeHead,
    /// A start tag `html` inside the `html`.
    SecondHtml,
    /// A start tag `head` inside the `head`.
    SecondHead,
    /// A tag that a `noscript` in the head may not contain.
    TagInHeadNoscript,
    /// A text in a `noscript` in the head.
    TextInHeadNoscript,
    /// The input ends in a `noscript` in the head.
    EofInHeadNoscript,
    /// The start tag of an element of the head, after the head.
    StartTagAfterHead,
    /// Another start tag that the insertion mode doesn't expect.
    UnexpectedStartTag,
    /// Another end tag that the insertion mode doesn't expect.
    UnexpectedEndTag,
    /// Another text that the insertion mode doesn't expect.
    UnexpectedText,
    /// A comment that the insertion mode doesn't expect.
    UnexpectedComment,
    /// A U+0000 that the insertion mode doesn't expect.
    UnexpectedNull,
    /// The input ends where the insertion mode doesn't expect it.
    UnexpectedEof,
    /// A start tag `a`, and an `a` is in the list of active formatting elements.
    NestedLinks,
    /// A start tag `image`, which stands for `img`.
    ImageStartTag,
    /// An end tag `br`, which stands for the start tag.
    BrEndTag,
    /// An end tag of a formatting element that isn't the current node.
    FormattingElementNotCurrent,
    /// A start tag `select` in a `select`.
    SelectInSelect,
    /// A start tag `input` in a `select`.
    InputInSelect,
    /// The start tag of an element that goes before the table.
    StartTagInTable,
    /// An end tag in a table, of an element that isn't part of it.
    EndTagInTable,
    /// A text that goes before the table.
    TextInTable,
    /// A start tag `table` in a table, outside its cells.
    TableInTable,
    /// A hidden `input` in a table, outside its cells.
    HiddenInputInTable,
    /// A start tag `form` in a table, outside its cells.
    FormInTable,
    /// A cell with no row around it.
    CellInTableBody,
    /// An end tag that a `tbody`, `tfoot` or `thead` may not contain.
    EndTagInTableBody,
    /// An end tag that a row may not contain.
    EndTagInTableRow,
    /// The start tag of an element of HTML in SVG or MathML, which it closes.
    HtmlElementInForeignContent,
    /// A start tag after the body.
    StartTagAfterBody,
    /// An end tag after the body.
    EndTagAfterBody,
    /// A text after the body.
    TextAfterBody,
    /// A start tag that a `frameset` may not contain.
    StartTagInFrameset,
    /// An end tag that a `frameset` may not contain.
    EndTagInFrameset,
    /// A text in a `frameset`.
    TextInFrameset,
    /// A start tag after the `frameset`.
    StartTagAfterFrameset,
    /// An end tag after the `frameset`.
    EndTagAfterFrameset,
    /// A text after the `frameset`.
    TextAfterFrameset,
    /// A start tag after the `html`.
    StartTagAfterHtml,
    /// An end tag after the `html`.
    EndTagAfterHtml,
    /// A text after the `html`.
    TextAfterHtml,
    /// A doctype whose name or identifiers aren't accepted.
    BadDoctype,
    /// A doctype after the start of the document.
    LateDoctype,
    /// An element is closed while another is open in it.
    UnexpectedOpenElement,
    /// An element is open at the end of the body, and its end tag may not be omitted.
    OpenElementAtEndOfBody,
    /// An end tag `body` with no `body` in scope.
    BodyEndTagWithoutBody,
    /// An end tag `html` with no `body` in scope.
    HtmlEndTagWithoutBody,
    /// An end tag, and a special element is nearer to the current node than the element to close.
    SpecialElementBeforeTheOneToClose,
    /// A form in a form.
    NestedForms,
    /// An end tag `form`, and there is no form element pointer.
    NoFormElementToClose,
    /// An end tag `form`, and the element of the form element pointer isn't in scope.
    FormElementOutOfScope,
    /// An end tag `form` in a template with no `form` in scope.
    NoFormToClose,
    /// A `nobr` in a `nobr`.
    NestedNobr,
    /// A heading in a heading.
    NestedHeadings,
    /// An option or an `optgroup` in an option or an `optgroup`.
    NestedOptions,
    /// A button in a button.
    NestedButtons,
    /// An `hr` in an option.
    HrInOption,
    /// An end tag `p` with no `p` in scope.
    NoParagraphToClose,
    /// An end tag of a heading with no heading in scope.
    NoHeadingToClose,
    /// A start tag with a `/` at its end, whose element isn't void.
    SelfClosingTagWithContent,
    /// The input ends in an element that has only text, such as `script`.
    EofInText,
    /// The input ends in a `template`.
    EofInTemplate,
    /// The input ends in a `frameset`.
    EofInFrameset,
}

impl TreeError {
    /// The message that a sink receives, unless the option `exact_errors` is on.
    pub fn message(self) -> &'static str
        ensures { result.now ≡ tree_error_message self }
    {
        match self {
            TreeError::BadDoctype => "Bad DOCTYPE",
            TreeError::LateDoctype => "DOCTYPE in body",
            TreeError::UnexpectedOpenElement => "unexpected open element",
            TreeError::OpenElementAtEndOfBody => "unexpected open tag at the end of the body",
            TreeError::BodyEndTagWithoutBody => "</body> with no <body> in scope",
            TreeError::HtmlEndTagWithoutBody => "</html> with no <body> in scope",
            TreeError::SpecialElementBeforeTheOneToClose =>
                "special element before the one to close",
            TreeError::NestedForms => "nested forms",
            TreeError::NoFormElementToClose => "no form element to close",
            TreeError::FormElementOutOfScope => "the form element isn't in scope",
            TreeError::NoFormToClose => "no <form> to close",
            TreeError::NestedNobr => "a <nobr> in a <nobr>",
            TreeError::NestedHeadings => "a heading in a heading",
            TreeError::NestedOptions => "nested options",
            TreeError::NestedButtons => "nested buttons",
            TreeError::HrInOption => "hr in option",
            TreeError::NoParagraphToClose => "no <p> to close",
            TreeError::NoHeadingToClose => "no heading to close",
            TreeError::SelfClosingTagWithContent =>
                "self-closing start tag of an element that has content",
            TreeError::EofInText => "unexpected end of input in a text",
            TreeError::EofInTemplate => "end of file in a template",
            TreeError::EofInFrameset => "end of file in a frameset",
            _ => "Unexpected token",
        }
    }

    /// The name, in the form of the standard's names.
    pub fn name(self) -> &'static str
        ensures { result.now ≡ tree_error_name self }
    {
        match self {
            TreeError::StartTagBeforeDoctype => "expected-doctype-but-got-start-tag",
            TreeError::EndTagBeforeDoctype => "expected-doctype-but-got-end-tag",
            TreeError::TextBeforeDoctype => "expected-doctype-but-got-chars",
            TreeError::EofBeforeDoctype => "expected-doctype-but-got-eof",
            TreeError::EndTagBeforeHtml => "unexpected-end-tag-before-html",
            TreeError::EndTagBeforeHead => "end-tag-after-implied-root",
            TreeError::SecondHtml => "non-html-root",
            TreeError::SecondHead => "two-heads-are-not-better-than-one",
            TreeError::TagInHeadNoscript => "unexpected-inhead-noscript-tag",
            TreeError::TextInHeadNoscript => "char-in-head-noscript",
            TreeError::EofInHeadNoscript => "eof-in-head-noscript",
            TreeError::StartTagAfterHead => "unexpected-start-tag-out-of-my-head",
            TreeError::UnexpectedStartTag => "unexpected-start-tag",
            TreeError::UnexpectedEndTag => "unexpected-end-tag",
            TreeError::UnexpectedText => "unexpected-char",
            TreeError::UnexpectedComment => "unexpected-comment",
            TreeError::UnexpectedNull => "unexpected-null",
            TreeError::UnexpectedEof => "unexpected-eof",
            TreeError::NestedLinks => "unexpected-start-tag-implies-end-tag",
            TreeError::ImageStartTag => "unexpected-start-tag-treated-as",
            TreeError::BrEndTag => "unexpected-end-tag-treated-as",
            TreeError::FormattingElementNotCurrent => "adoption-agency-1.3",
            TreeError::SelectInSelect => "unexpected-select-in-select",
            TreeError::InputInSelect => "unexpected-input-in-select",
            TreeError::StartTagInTable => "unexpected-start-tag-implies-table-voodoo",
            TreeError::EndTagInTable => "unexpected-end-tag-implies-table-voodoo",
            TreeError::TextInTable => "unexpected-char-implies-table-voodoo",
            TreeError::TableInTable => "unexpected-start-tag-implies-end-tag",
            TreeError::HiddenInputInTable => "unexpected-hidden-input-in-table",
            TreeError::FormInTable => "unexpected-form-in-table",
            TreeError::CellInTableBody => "unexpected-cell-in-table-body",
            TreeError::EndTagInTableBody => "unexpected-end-tag-in-table-body",
            TreeError::EndTagInTableRow => "unexpected-end-tag-in-table-row",
            TreeError::HtmlElementInForeignContent => "unexpected-html-element-in-foreign-content",
            TreeError::StartTagAfterBody => "unexpected-start-tag-after-body",
            TreeError::EndTagAfterBody => "unexpected-end-tag-after-body",
            TreeError::TextAfterBody => "unexpected-char-after-body",
            TreeError::StartTagInFrameset => "unexpected-start-tag-in-frameset",
            TreeError::EndTagInFrameset => "unexpected-end-tag-in-frameset",
            TreeError::TextInFrameset => "unexpected-char-in-frameset",
            TreeError::StartTagAfterFrameset => "unexpected-start-tag-after-frameset",
            TreeError::EndTagAfterFrameset => "unexpected-end-tag-after-frameset",
            TreeError::TextAfterFrameset => "unexpected-char-after-frameset",
            TreeError::StartTagAfterHtml => "expected-eof-but-got-start-tag",
            TreeError::EndTagAfterHtml => "expected-eof-but-got-end-tag",
            TreeError::TextAfterHtml => "expected-eof-but-got-char",
            TreeError::BadDoctype => "bad-doctype",
            TreeError::LateDoctype => "late-doctype",
            TreeError::UnexpectedOpenElement => "unexpected-open-element",
            TreeError::OpenElementAtEndOfBody => "open-element-at-end-of-body",
            TreeError::BodyEndTagWithoutBody => "body-end-tag-without-body",
            TreeError::HtmlEndTagWithoutBody => "html-end-tag-without-body",
            TreeError::SpecialElementBeforeTheOneToClose =>
                "special-element-before-the-one-to-close",
            TreeError::NestedForms => "nested-forms",
            TreeError::NoFormElementToClose => "no-form-element-to-close",
            TreeError::FormElementOutOfScope => "form-element-out-of-scope",
            TreeError::NoFormToClose => "no-form-to-close",
            TreeError::NestedNobr => "nested-nobr",
            TreeError::NestedHeadings => "nested-headings",
            TreeError::NestedOptions => "nested-options",
            TreeError::NestedButtons => "nested-buttons",
            TreeError::HrInOption => "hr-in-option",
            TreeError::NoParagraphToClose => "no-p-to-close",
            TreeError::NoHeadingToClose => "no-heading-to-close",
            TreeError::SelfClosingTagWithContent =>
                "non-void-html-element-start-tag-with-trailing-solidus",
            TreeError::EofInText => "eof-in-text",
            TreeError::EofInTemplate => "eof-in-template",
            TreeError::EofInFrameset => "eof-in-frameset",
        }
    }
}
