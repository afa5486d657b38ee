//! The rows of doctypes (HTML standard, sections 13.2.5.53 to 13.2.5.68).

ghost use Rattle.std.specs.Prelude.{◌≡◌, ◌<◌, IfOk, OnOk, IfSome, IfNone, [], ◌∷◌, ◌++◌, List, ℕ, true, map, string_bytes};
ghost use Rattle.std.specs.Char.{to_ascii_lowercase};
ghost use Rattle.std.specs.Option.{option_map};
ghost use Rattle.h5_token.specs.OptionalText.{optional_text};
ghost use Rattle.h5_token.specs.TokenText.{DoctypeText, doctype_text};
ghost use Rattle.h5_tokenizer_spec.specs.Construction.{nameless, new_doctype, with_identifier, doctype_named_further, identifier_further, quirky};
ghost use Rattle.h5_tokenizer_spec.specs.Doctypes as d;
ghost use Rattle.h5_tokenizer_spec.specs.Machine.{turn};
ghost use Rattle.h5_tokenizer_spec.specs.References.{Reference};
ghost use Rattle.h5_tokenizer_states.specs.StateOf.{doctype_state_of};
ghost use Rattle.h5_tokenizer_states.specs.Wide.{doctype_takes_wide};
ghost use Rattle.h5_tokenizer_states.specs.OutcomeOf.{DoesDoctype, DoesDoctypeSeen, after_identifier};

use super::machine_state::{DoctypeState, MachineState};
use super::signs::{
    REPLACEMENT, begins_folded, is_blank, is_folded, push_byte, push_lowered, sign_of,
};
use super::transition::{CurrentToken, Transition};
use h5_token::Doctype;
use h5_tokenizer_spec::{Identifier, Quote, TextKind};
use std::alloc::AllocError;

const HANDS: Transition = Transition::Emitted(CurrentToken::Doctype, TextKind::Data);

fn goes(state: DoctypeState) -> Transition
    ensures { result ≡ Transition.Consumed (MachineState.Doctype state) }
{
    Transition::Consumed(MachineState::Doctype(state))
}

/// Returns a new doctype without a name. Allocates nothing.
pub fn nameless() -> Doctype
    ensures { doctype_text result ≡ nameless }
{
    Doctype {
        name: None,
        public_id: None,
        system_id: None,
        force_quirks: true,
    }
}

/// Returns a new doctype with this name so far.
pub fn new_doctype(name: String) -> Doctype
    ensures { doctype_text result ≡ new_doctype (string_bytes name) }
{
    Doctype {
        name: Some(name),
        public_id: None,
        system_id: None,
        force_quirks: false,
    }
}

// Sets an identifier to the empty string.
fn begin_identifier(id: Identifier, doctype: &mut Doctype, empty: String)
    requires { string_bytes empty ≡ [] }
    ensures { doctype_text doctype.new ≡ with_identifier id (doctype_text doctype.old) }
{
    match id {
        Identifier::Public => doctype.public_id = Some(empty),
        Identifier::System => doctype.system_id = Some(empty),
    }
}

// 13.2.5.53 DOCTYPE state
fn begin_doctype(b: u8) -> Transition
    ensures { (doctype : DoctypeText) → DoesDoctype result doctype (d.doctype_state b) }
{
    if is_blank(b) {
        return goes(DoctypeState::BeforeDoctypeName);
    }
    Transition::Reconsumed(MachineState::Doctype(DoctypeState::BeforeDoctypeName))
}

// 13.2.5.54 Before DOCTYPE name state
fn before_doctype_name(
    doctype: &mut Doctype,
    empty: String,
    b: u8,
) -> Result<Transition, AllocError>
    requires ascii { b < 128 }
    requires empty { string_bytes empty ≡ [] }
    ensures { IfOk result (λ transition. DoesDoctype transition (doctype_text doctype.new) (d.before_doctype_name_state b)) }
{
    if is_blank(b) {
        return Ok(goes(DoctypeState::BeforeDoctypeName));
    }
    if b == b'>' {
        *doctype = nameless();
        return Ok(HANDS);
    }
    let mut name = empty;
    if b == 0 {
        name.push_str(REPLACEMENT)?;
    } else {
        push_byte(&mut name, b.to_ascii_lowercase())?;
    }
    *doctype = new_doctype(name);
    Ok(goes(DoctypeState::DoctypeName))
}

// 13.2.5.55 DOCTYPE name state
fn doctype_name(doctype: &mut Doctype, seen: &mut String, b: u8) -> Result<Transition, AllocError>
    requires { b < 128 }
    ensures { IfOk result (λ transition. DoesDoctypeSeen transition (doctype_text doctype.new) (string_bytes seen.new) (d.doctype_name_state (doctype_text doctype.old) b)) }
{
    if is_blank(b) {
        seen.clear();
        return Ok(goes(DoctypeState::AfterDoctypeName));
    }
    if b == b'>' {
        return Ok(HANDS);
    }
    if b == 0 {
        push_doctype_name(doctype, REPLACEMENT)?;
    } else {
        push_name_byte(doctype, b)?;
    }
    Ok(goes(DoctypeState::DoctypeName))
}

/// Appends to the name, with letters in lower case.
pub fn push_doctype_name(doctype: &mut Doctype, more: &str) -> Result<(), AllocError>
    ensures { OnOk result (doctype_text doctype.new ≡ doctype_named_further (map to_ascii_lowercase more.now) (doctype_text doctype.old)) }
{
    match &mut doctype.name {
        Some(name) => push_lowered(name, more),
        None => Ok(()),
    }
}

// Appends an ASCII byte to the name, a letter in lower case.
fn push_name_byte(doctype: &mut Doctype, b: u8) -> Result<(), AllocError>
    requires { b < 128 }
    ensures { OnOk result (doctype_text doctype.new ≡ doctype_named_further (to_ascii_lowercase b ∷ []) (doctype_text doctype.old)) }
{
    match &mut doctype.name {
        Some(name) => push_byte(name, b.to_ascii_lowercase()),
        None => Ok(()),
    }
}

// Appends to a part, if it exists.
fn push_part(part: &mut Option<String>, more: &str) -> Result<(), AllocError>
    ensures { OnOk result (optional_text part.new ≡ option_map (λ text. text ++ more.now) (optional_text part.old)) }
{
    match part {
        Some(text) => text.push_str(more),
        None => Ok(()),
    }
}

// Appends an ASCII byte to a part, if it exists.
fn push_part_byte(part: &mut Option<String>, b: u8) -> Result<(), AllocError>
    requires { b < 128 }
    ensures { OnOk result (optional_text part.new ≡ option_map (λ text. text ++ b ∷ []) (optional_text part.old)) }
{
    match part {
        Some(text) => push_byte(text, b),
        None => Ok(()),
    }
}

/// Appends to the identifier.
pub fn push_identifier(id: Identifier, doctype: &mut Doctype, more: &str) -> Result<(), AllocError>
    ensures { OnOk result (doctype_text doctype.new ≡ identifier_further id more.now (doctype_text doctype.old)) }
{
    match id {
        Identifier::Public => push_part(&mut doctype.public_id, more),
        Identifier::System => push_part(&mut doctype.system_id, more),
    }
}

// Appends an ASCII byte to the identifier.
fn push_identifier_byte(id: Identifier, doctype: &mut Doctype, b: u8) -> Result<(), AllocError>
    requires { b < 128 }
    ensures { OnOk result (doctype_text doctype.new ≡ identifier_further id (b ∷ []) (doctype_text doctype.old)) }
{
    match id {
        Identifier::Public => push_part_byte(&mut doctype.public_id, b),
        Identifier::System => push_part_byte(&mut doctype.system_id, b),
    }
}

// Returns true if one of the keywords begins with this.
fn begins_keyword(seen: &str) -> bool
    ensures { result ≡ d.begins_keyword seen.now }
{
    begins_folded(seen, b"public") || begins_folded(seen, b"system")
}

// Handles what isn't a keyword, and doesn't begin one.
fn without_keyword(doctype: &mut Doctype) -> Transition
    ensures transition { result ≡ Transition.Reconsumed (MachineState.Doctype DoctypeState.BogusDoctype) }
    ensures doctype { doctype_text doctype.new ≡ quirky (doctype_text doctype.old) }
{
    doctype.force_quirks = true;
    Transition::Reconsumed(MachineState::Doctype(DoctypeState::BogusDoctype))
}

// 13.2.5.56 After DOCTYPE name state
fn after_doctype_name(
    doctype: &mut Doctype,
    seen: &mut String,
    b: u8,
) -> Result<Transition, AllocError>
    ensures { IfOk result (λ transition. DoesDoctypeSeen transition (doctype_text doctype.new) (string_bytes seen.new) (d.after_doctype_name_state (doctype_text doctype.old) (string_bytes seen.old) b)) }
{
    if seen.is_empty() && is_blank(b) {
        return Ok(goes(DoctypeState::AfterDoctypeName));
    }
    if seen.is_empty() && b == b'>' {
        return Ok(HANDS);
    }
    if b >= 128 {
        return Ok(without_keyword(doctype));
    }
    push_byte(seen, b)?;
    if is_folded(seen.as_str(), b"public") {
        return Ok(goes(DoctypeState::AfterDoctypeKeyword(Identifier::Public)));
    }
    if is_folded(seen.as_str(), b"system") {
        return Ok(goes(DoctypeState::AfterDoctypeKeyword(Identifier::System)));
    }
    if begins_keyword(seen.as_str()) {
        return Ok(goes(DoctypeState::AfterDoctypeName));
    }
    Ok(without_keyword(doctype))
}

// Begins an identifier in these quotes.
fn begins_identifier(
    id: Identifier,
    quote: Quote,
    doctype: &mut Doctype,
    empty: String,
) -> Transition
    requires { string_bytes empty ≡ [] }
    ensures transition { result ≡ Transition.Consumed (MachineState.Doctype (DoctypeState.DoctypeIdentifier id quote)) }
    ensures doctype { doctype_text doctype.new ≡ with_identifier id (doctype_text doctype.old) }
{
    begin_identifier(id, doctype, empty);
    goes(DoctypeState::DoctypeIdentifier(id, quote))
}

// Handles a missing identifier.
fn without_identifier(id: Identifier, doctype: &mut Doctype) -> Transition
    ensures transition { result ≡ HANDS }
    ensures doctype { doctype_text doctype.new ≡ quirky (doctype_text doctype.old) }
{
    doctype.force_quirks = true;
    HANDS
}

// Handles missing quotes.
fn without_quote(id: Identifier, doctype: &mut Doctype) -> Transition
    ensures transition { result ≡ Transition.Reconsumed (MachineState.Doctype DoctypeState.BogusDoctype) }
    ensures doctype { doctype_text doctype.new ≡ quirky (doctype_text doctype.old) }
{
    doctype.force_quirks = true;
    Transition::Reconsumed(MachineState::Doctype(DoctypeState::BogusDoctype))
}

// 13.2.5.57, 63: After DOCTYPE public keyword state, After DOCTYPE system keyword state
fn after_doctype_keyword(id: Identifier, doctype: &mut Doctype, empty: String, b: u8) -> Transition
    requires { string_bytes empty ≡ [] }
    ensures { DoesDoctype result (doctype_text doctype.new) (d.after_doctype_keyword_state id (doctype_text doctype.old) b) }
{
    if is_blank(b) {
        return goes(DoctypeState::BeforeDoctypeIdentifier(id));
    }
    match b {
        b'"' => begins_identifier(id, Quote::Double, doctype, empty),
        b'\'' => begins_identifier(id, Quote::Single, doctype, empty),
        b'>' => without_identifier(id, doctype),
        _ => without_quote(id, doctype),
    }
}

// 13.2.5.58, 64: Before DOCTYPE public identifier state, Before DOCTYPE system identifier state
fn before_doctype_identifier(
    id: Identifier,
    doctype: &mut Doctype,
    empty: String,
    b: u8,
) -> Transition
    requires { string_bytes empty ≡ [] }
    ensures { DoesDoctype result (doctype_text doctype.new) (d.before_doctype_identifier_state id (doctype_text doctype.old) b) }
{
    if is_blank(b) {
        return goes(DoctypeState::BeforeDoctypeIdentifier(id));
    }
    match b {
        b'"' => begins_identifier(id, Quote::Double, doctype, empty),
        b'\'' => begins_identifier(id, Quote::Single, doctype, empty),
        b'>' => without_identifier(id, doctype),
        _ => without_quote(id, doctype),
    }
}

fn after_identifier(id: Identifier) -> DoctypeState
    ensures { result ≡ after_identifier id }
{
    match id {
        Identifier::Public => DoctypeState::AfterDoctypePublicIdentifier,
        Identifier::System => DoctypeState::AfterDoctypeSystemIdentifier,
    }
}

// 13.2.5.59, 60, 65, 66: DOCTYPE public and system identifier (double-quoted) and (single-quoted) state
fn doctype_identifier(
    id: Identifier,
    quote: Quote,
    doctype: &mut Doctype,
    b: u8,
) -> Result<Transition, AllocError>
    requires { b < 128 }
    ensures { IfOk result (λ transition. DoesDoctype transition (doctype_text doctype.new) (d.doctype_identifier_state id quote (doctype_text doctype.old) b)) }
{
    if b == sign_of(quote) {
        return Ok(goes(after_identifier(id)));
    }
    match b {
        0 => {
            push_identifier(id, doctype, REPLACEMENT)?;
            Ok(goes(DoctypeState::DoctypeIdentifier(id, quote)))
        }
        b'>' => {
            doctype.force_quirks = true;
            Ok(HANDS)
        }
        _ => {
            push_identifier_byte(id, doctype, b)?;
            Ok(goes(DoctypeState::DoctypeIdentifier(id, quote)))
        }
    }
}

// 13.2.5.61 After DOCTYPE public identifier state
fn after_doctype_public_identifier(doctype: &mut Doctype, empty: String, b: u8) -> Transition
    requires { string_bytes empty ≡ [] }
    ensures { DoesDoctype result (doctype_text doctype.new) (d.after_doctype_public_identifier_state (doctype_text doctype.old) b) }
{
    if is_blank(b) {
        return goes(DoctypeState::BetweenDoctypeIdentifiers);
    }
    match b {
        b'>' => HANDS,
        b'"' => begins_identifier(Identifier::System, Quote::Double, doctype, empty),
        b'\'' => begins_identifier(Identifier::System, Quote::Single, doctype, empty),
        _ => without_quote(Identifier::System, doctype),
    }
}

// 13.2.5.62 Between DOCTYPE public and system identifiers state
fn between_doctype_identifiers(doctype: &mut Doctype, empty: String, b: u8) -> Transition
    requires { string_bytes empty ≡ [] }
    ensures { DoesDoctype result (doctype_text doctype.new) (d.between_doctype_identifiers_state (doctype_text doctype.old) b) }
{
    if is_blank(b) {
        return goes(DoctypeState::BetweenDoctypeIdentifiers);
    }
    match b {
        b'>' => HANDS,
        b'"' => begins_identifier(Identifier::System, Quote::Double, doctype, empty),
        b'\'' => begins_identifier(Identifier::System, Quote::Single, doctype, empty),
        _ => without_quote(Identifier::System, doctype),
    }
}

// 13.2.5.67 After DOCTYPE system identifier state
fn after_doctype_system_identifier(b: u8) -> Transition
    ensures { (doctype : DoctypeText) → DoesDoctype result doctype (d.after_doctype_system_identifier_state doctype b) }
{
    if is_blank(b) {
        return goes(DoctypeState::AfterDoctypeSystemIdentifier);
    }
    if b == b'>' {
        return HANDS;
    }
    Transition::Reconsumed(MachineState::Doctype(DoctypeState::BogusDoctype))
}

// 13.2.5.68 Bogus DOCTYPE state
fn bogus_doctype(b: u8) -> Transition
    ensures { (doctype : DoctypeText) → DoesDoctype result doctype (d.bogus_doctype_state doctype b) }
{
    if b == b'>' {
        return HANDS;
    }
    goes(DoctypeState::BogusDoctype)
}

/// The row of a doctype state.
pub fn doctype_turn(
    state: DoctypeState,
    doctype: &mut Doctype,
    seen: &mut String,
    b: u8,
) -> Result<Transition, AllocError>
    requires { doctype_takes_wide state ≡ true → b < 128 }
    ensures { IfOk result (λ transition. (table : List Reference) (last : List ℕ) → DoesDoctypeSeen transition (doctype_text doctype.new) (string_bytes seen.new)
        (turn table last (doctype_state_of state (doctype_text doctype.old) (string_bytes seen.old)) b)) }
{
    let empty = String::new(*seen.allocator());
    match state {
        DoctypeState::BeginDoctype => Ok(begin_doctype(b)),
        DoctypeState::BeforeDoctypeName => before_doctype_name(doctype, empty, b),
        DoctypeState::DoctypeName => doctype_name(doctype, seen, b),
        DoctypeState::AfterDoctypeName => after_doctype_name(doctype, seen, b),
        DoctypeState::AfterDoctypeKeyword(id) => Ok(after_doctype_keyword(id, doctype, empty, b)),
        DoctypeState::BeforeDoctypeIdentifier(id) => {
            Ok(before_doctype_identifier(id, doctype, empty, b))
        }
        DoctypeState::DoctypeIdentifier(id, quote) => doctype_identifier(id, quote, doctype, b),
        DoctypeState::AfterDoctypePublicIdentifier => {
            Ok(after_doctype_public_identifier(doctype, empty, b))
        }
        DoctypeState::BetweenDoctypeIdentifiers => {
            Ok(between_doctype_identifiers(doctype, empty, b))
        }
        DoctypeState::AfterDoctypeSystemIdentifier => Ok(after_doctype_system_identifier(b)),
        DoctypeState::BogusDoctype => Ok(bogus_doctype(b)),
    }
}
