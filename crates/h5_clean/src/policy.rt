//! The policy: what is allowed.
ghost use Rattle.std.specs.Prelude.{◌≡◌, map, option_copied, string_bytes};
ghost use Rattle.std.specs.Option.{option_map};

use super::place::Around;

/// Decides which elements and attributes are allowed. Each result must be a function of the policy and of the
/// arguments.
///
/// Regardless of the policy, an element whose name has no kind is never allowed, nor is an attribute with a namespace,
/// one whose name begins with `on`, or another one that `is_refused`, nor a URL with the scheme `javascript` or
/// `vbscript`. Without a prefix, `for` and other attributes by which an element acts on another one aren't allowed.
pub trait Policy {
    ghost use Rattle.h5_clean.specs.Policies.{Rules};

    // All results.
    ghost rules: { Self → Rules };

    /// Returns true if an HTML element of this local name is allowed, if it fits at its place.
    fn allows(&self, element: &str) -> bool
        ensures { result ≡ (rules self.now).names element.now };

    /// Returns true if an element that isn't allowed is dropped with its content. Otherwise its content replaces it.
    fn drops(&self, element: &str) -> bool
        ensures { result ≡ (rules self.now).drops element.now };

    /// Returns true if an element keeps an attribute of this name and value. The value is the one that would be left;
    /// if the attribute has an id, or refers to some, it is prefixed.
    fn keeps_attribute(&self, element: &str, attribute: &str, value: &str) -> bool
        ensures { result ≡ (rules self.now).keeps element.now attribute.now value.now };

    /// Returns the value that the attribute `rel` of each `a` is set to, if it is set.
    fn rel(&self) -> Option<&str>
        ensures { option_copied result ≡ (rules self.now).rel };

    /// Returns the prefix of ids, if there is one. If no id of the page begins with it, no id of the text is one of the
    /// page. It is put before an id that doesn't begin with it: in each `id` and `name`, in attributes that refer to
    /// ids, such as `for` and `headers`, and after a leading '#' in `href`. A prefix with ASCII whitespace or NUL is
    /// ignored.
    fn prefix(&self) -> Option<&str>
        ensures { option_copied result ≡ (rules self.now).prefix };

    /// Returns the prefixes of the classes that are left, if each class of an element is left or dropped by itself: a class
    /// that begins with none of them is dropped. Otherwise `class` is kept or not as a whole.
    fn class_prefixes(&self) -> Option<&[String]>
        ensures { option_map (map string_bytes) (option_copied result) ≡ (rules self.now).classes };

    /// Returns what may be open around the text at the place that it is put into. At the top, an element that would
    /// close it isn't allowed.
    fn around(&self) -> Around
        ensures { result ≡ (rules self.now).around };

    /// Returns the maximal depth of elements.
    fn depth(&self) -> usize
        ensures { result ≡ (rules self.now).depth };
}
