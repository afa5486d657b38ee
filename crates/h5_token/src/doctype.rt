//! Doctypes.
ghost use Rattle.std.specs.Prelude.{◌≡◌, IfOk};

use std::alloc::AllocError;

/// A doctype token (HTML standard, section 13.2.5, "Tokenization"). A missing part is `None`.
#[derive(Debug, Drop, PartialEq, Eq)]
pub struct Doctype {
    pub name: Option<String>,
    pub public_id: Option<String>,
    pub system_id: Option<String>,
    pub force_quirks: bool,
}

impl Doctype {
    ghost use Rattle.h5_token.specs.TokenText.{doctype_text};

    /// Returns an equal doctype. Fails with `AllocError` if an allocation fails.
    pub fn clone(&self) -> Result<Doctype, AllocError>
        ensures { IfOk result (λ doctype. doctype_text doctype ≡ doctype_text self.now) }
    {
        Ok(Doctype {
            name: clone_part(&self.name)?,
            public_id: clone_part(&self.public_id)?,
            system_id: clone_part(&self.system_id)?,
            force_quirks: self.force_quirks,
        })
    }
}

ghost use Rattle.h5_token.specs.OptionalText.{optional_text};

fn clone_part(part: &Option<String>) -> Result<Option<String>, AllocError>
    ensures { IfOk result (λ copy. optional_text copy ≡ optional_text part.now) }
{
    match part {
        Some(text) => Ok(Some(text.clone()?)),
        None => Ok(None),
    }
}
