//! The form owner of a new element (HTML standard, section 13.2.6.1, create an element for a token).
ghost use Rattle.std.specs.Prelude.{◌≡◌, [], MatchOption, codes, option_map};
ghost use Rattle.std.specs.List.{list_any};
ghost use Rattle.h5_names.specs.AttributeText.{attribute_text, attribute_texts, is_same_text};
ghost use Rattle.h5_names.specs.KnownNames.{name_text};
ghost use Rattle.h5_interface.specs.Forest.{IsNode};
ghost use Rattle.h5_interface.specs.NewElement.{is_expanded};
ghost use Rattle.h5_tables.specs.TagSets.{is_one_of};
ghost use Rattle.h5_builder_spec.specs.insertion.FormOwner.{form_associatable_names, form_owner, may_have_owner, names_a_form};
ghost use Rattle.h5_builder_state.specs.Steps.{IsSound, world_of};

use h5_builder_state::{State, has_open_template};
use h5_interface::TreeSink;
use h5_names::{Attribute, KnownName, LocalName};

// The local name is this known name.
#[tactic(auto, using(crate::proofs::FormLaws::same_turned))]
fn is_known(local: &LocalName, known: KnownName) -> bool
    ensures { result ≡ is_same_text (name_text known) local.now }
{
    local.is(known)
}

// The local name is `output`.
fn is_output(local: &LocalName) -> bool
    ensures { result ≡ is_same_text (codes "output") local.now }
{
    "output" == local.as_str()
}

// An element of this name may have a form owner.
#[tactic(auto, unfolding(h5_builder_spec::specs::insertion::FormOwner::form_associatable_names))]
fn is_form_associatable(local: &LocalName) -> bool
    ensures { result ≡ is_one_of form_associatable_names local.now }
{
    is_known(local, KnownName::Button)
        || is_known(local, KnownName::Fieldset)
        || is_known(local, KnownName::Img)
        || is_known(local, KnownName::Input)
        || is_known(local, KnownName::Object)
        || is_output(local)
        || is_known(local, KnownName::Select)
        || is_known(local, KnownName::Textarea)
}

// The attribute is `form`, in no namespace.
fn is_form(attribute: &Attribute) -> bool
    ensures { result ≡ is_expanded [] (codes "form") (attribute_text attribute.now).name }
{
    attribute.name.ns.as_str().is_empty() && attribute.name.local.is(KnownName::Form)
}

fn any_is_form(attrs: &[Attribute]) -> bool
    ensures { result ≡ list_any (λ a. is_expanded [] (codes "form") (attribute_text a).name) attrs.now }
{
    attrs.iter().any(|attribute| is_form(attribute))
}

// One of these attributes is `form`.
fn names_a_form(attrs: &[Attribute]) -> bool
    ensures { result ≡ names_a_form (attribute_texts attrs.now) }
{
    any_is_form(attrs)
}

// The form element may be the owner of an element of this name, with these attributes; for an `img` regardless of its
// attributes.
fn may_have_owner(local: &LocalName, attrs: &[Attribute]) -> bool
    ensures { result ≡ may_have_owner local.now (attribute_texts attrs.now) }
{
    is_form_associatable(local) && (local.is(KnownName::Img) || !names_a_form(attrs))
}

/// Returns a handle of the form element, if it becomes the owner of a new element of this name, with these attributes;
/// `None` if a template is open.
#[tactic(auto, unfolding(h5_builder_state::specs::View::world, h5_builder_spec::specs::insertion::FormOwner::form_owner))]
#[inline(always)]
pub(crate) fn form_owner<S: TreeSink>(
    sink: &S,
    state: &State<S::Handle>,
    local: &LocalName,
    attrs: &[Attribute],
) -> Option<S::Handle>
    requires { IsSound S.TreeSink sink.now state.now }
    ensures owner { option_map S.node result ≡ form_owner local.now (attribute_texts attrs.now) (world_of S.TreeSink sink.now state.now) }
    ensures node { MatchOption result (Unit {0}) (λ form. IsNode (world_of S.TreeSink sink.now state.now).forest (S.node form)) }
{
    match &state.form_elem {
        Some(form) => {
            if may_have_owner(local, attrs) && !has_open_template(sink, state) {
                Some(sink.clone_handle(form))
            } else {
                None
            }
        }
        None => None,
    }
}
