//! Elements with special serializations.
ghost use Rattle.std.specs.Prelude.{◌≡◌};
ghost use Rattle.h5_serialize.specs.Names.{is_html, is_void, is_raw_name};

use h5_names::{KnownName, LocalName, QualName};
use h5_tables::NameSet;

/// Returns true for an HTML element.
pub fn is_html(name: &QualName) -> bool
    ensures { result ≡ is_html name.now }
{
    name.ns.is_html()
}

/// Returns true for a void element.
pub fn is_void(name: &QualName) -> bool
    ensures { result ≡ is_void name.now }
{
    is_html(name) && NameSet::Void.holds(&name.local)
}

/// Returns true if the text of an HTML element with this local name is written unescaped.
pub fn is_raw_name(scripting_enabled: bool, local: &LocalName) -> bool
    ensures { result ≡ is_raw_name scripting_enabled local.now }
{
    NameSet::RawText.holds(local) || (scripting_enabled && local.is(KnownName::Noscript))
}
