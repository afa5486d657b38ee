//! Borrowed attributes.
ghost use Rattle.std.specs.Prelude.{◌≡◌};
ghost use Rattle.h5_names.specs.AttributeText.{AttributeText, attribute_text};

use h5_names::{Attribute, QualName};

/// A borrowed attribute of a start tag: its name, and its value.
pub trait AttrRef: Drop {
    // The attribute, independent of where its texts are in memory.
    ghost attribute: { Self → AttributeText };

    /// The name.
    fn name(&self) -> &QualName
        ensures { result.now ≡ (attribute self.now).name };

    /// The value.
    fn value(&self) -> &str
        ensures { result.now ≡ (attribute self.now).value };
}

impl AttrRef for (&QualName, &str) {
    ghost attribute = { λ pair. record { name = pair.0.now; value = pair.1.now } };

    fn name(&self) -> &QualName {
        self.0
    }

    fn value(&self) -> &str {
        self.1
    }
}

impl AttrRef for &Attribute {
    ghost attribute = { λ attribute. attribute_text attribute.now };

    fn name(&self) -> &QualName {
        &self.name
    }

    fn value(&self) -> &str {
        self.value.as_str()
    }
}
