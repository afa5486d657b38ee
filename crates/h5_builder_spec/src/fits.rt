//! Laws of what modes say about the open elements (HTML standard, section 13.2.4.1), and of the changes that preserve
//! it. Each is the contract of a function that does nothing. Names have the newest first.
ghost use Rattle.std.specs.Prelude.{◌≡◌, ◌<◌, ◌≤◌, [], ◌∷◌, ◌++◌, ℕ, Bool, List, length, true, false, codes};
ghost use Rattle.std.specs.List.{list_any};
ghost use Rattle.h5_names.specs.declared.qualified.QualName.{QualName};
ghost use Rattle.h5_tables.specs.TagSets.{is_cell, is_default_scope, is_html_named, is_special, is_table_body_context, is_table_row_context, is_table_scope};
ghost use Rattle.h5_tables.specs.declared.modes.InsertionMode.{InsertionMode};
ghost use Rattle.h5_tables.specs.declared.modes.InsertionMode.TheVariants.{AfterFrameset, AfterHead, BeforeHead, BeforeHtml, InBody, InCaption, InCell, InColumnGroup, InFrameset, InHead, InHeadNoscript, InRow, InTable, InTableBody, InTableText, InTemplate, Text};
ghost use Rattle.h5_builder_spec.specs.formatting.FormattingNames.{html_name};
ghost use Rattle.h5_builder_spec.specs.stack.Scope.{comes_before_special, cut_names, down_names, drop_while, has_template, in_scope, is_implied_but, later_names};
ghost use Rattle.h5_builder_spec.specs.reset.SituationChanges.{start_of, with_head, with_last_mode, with_saved, with_template, without_template};
ghost use Rattle.h5_builder_spec.specs.inner.Contexts.{Under};
ghost use Rattle.h5_builder_spec.specs.inner.Fits.{Known, goes_by_body, is_before_root, is_table_mode, is_template_mode, is_whole, may_be_left, takes_template};
ghost use Rattle.h5_builder_spec.specs.reset.Situation.{Situation};
ghost use Rattle.h5_builder_spec.specs.inner.Floors.{Grounded, Left};
ghost use Rattle.h5_builder_spec.specs.inner.Frames.{AllPlain, Frame};
ghost use Rattle.h5_builder_spec.specs.inner.NamesFit.{ModeBelow, NamesFit, TableMode};
ghost use Rattle.h5_builder_spec.specs.reset.Roles.{is_html_element, BodyRole, CaptionRole, CellRole, ColgroupRole, FramesetRole, HeadRole, HtmlRole, PlainRole, Role, RowRole, SectionRole, TableRole, TemplateRole, is_floor_name, role_of, role_of_local, roles};
ghost use Rattle.h5_builder_spec.specs.reset.ResetByRoles.{reset};
ghost use Rattle.h5_builder_spec.specs.formatting.Adoption.{FormattingElement, FurthestBlock};
ghost use Rattle.h5_builder_spec.specs.formatting.AdoptionAgency.{MayAdopt};
ghost use Rattle.h5_builder_spec.specs.modes.InTableBody.{is_table_section};
ghost use Rattle.h5_builder_spec.specs.stack.Root.{IsRootOpen, RootIsHtml};
ghost use Rattle.h5_builder_spec.specs.World.{World, name_in};

/// If two changes one after the other preserve what modes say about the open elements, both together do.
pub fn frames_compose()
    ensures { (a b c : List Role) → Frame a b → Frame b c → Frame a c }
{}

/// These changes preserve what modes say about the open elements: a plain name is pushed while some element is open
/// (`pushed`); plain names are popped while they pass; a plain name is removed from anywhere, or inserted as the next
/// newer one after a plain one; names are popped up to and including a plain name, if it is in a scope that ends
/// wherever the default scope ends, or if no special name is newer.
pub fn plain_names_come_and_go()
    ensures pushed { (n x : QualName) (ns : List QualName) → role_of n ≡ PlainRole → Frame (roles (x ∷ ns)) (roles (n ∷ x ∷ ns)) }
    ensures popped { (p : QualName → Bool) → ((n : QualName) → p n ≡ true → role_of n ≡ PlainRole) → (ns : List QualName) → Frame (roles ns) (roles (drop_while p ns)) }
    ensures taken_out { (ls rs : List QualName) (x : QualName) → role_of x ≡ PlainRole → Frame (roles (ls ++ x ∷ rs)) (roles (ls ++ rs)) }
    ensures put_on { (ls rs : List QualName) (c y : QualName) → role_of c ≡ PlainRole → role_of y ≡ PlainRole → Frame (roles (ls ++ y ∷ rs)) (roles (ls ++ c ∷ y ∷ rs)) }
    ensures closed { (is stop : QualName → Bool) (ns : List QualName) → ((n : QualName) → is n ≡ true → role_of n ≡ PlainRole) → ((n : QualName) → stop n ≡ false → is_default_scope n ≡ false) → in_scope is stop ns ≡ true → Frame (roles ns) (roles (cut_names is ns)) }
    ensures ended { (local : List ℕ) (ns : List QualName) → role_of_local local ≡ PlainRole → comes_before_special local ns ≡ true → Frame (roles ns) (roles (cut_names (is_html_named local) (drop_while (is_implied_but local) ns))) }
{}

/// A round of the adoption agency preserves it as well. On the stack `ts ++ b ∷ (ms ++ f ∷ rest)`, with the furthest
/// block b and the formatting element f, the names between are replaced by no more plain ones, f is removed, and c is
/// inserted as the next newer one after b.
pub fn a_round_of_adoption_is_a_frame()
    ensures { (w : Bool) (ts ms ks rest : List QualName) (b f c : QualName) → role_of f ≡ PlainRole → role_of c ≡ PlainRole → is_default_scope b ≡ false → list_any is_special ms ≡ false → AllPlain (roles ks) → length ks ≤ length ms → Grounded w (roles (ts ++ b ∷ (ms ++ f ∷ rest))) → Under (roles (ts ++ b ∷ (ms ++ f ∷ rest))) → Frame (roles (ts ++ b ∷ (ms ++ f ∷ rest))) (roles (ts ++ c ∷ b ∷ (ks ++ rest))) }
{}

/// The furthest block of a round is an element of HTML: the special elements of MathML and SVG end the scope that the
/// formatting element is in.
pub fn a_furthest_block_is_html()
    ensures { (name : List ℕ) (f : FormattingElement) (k : FurthestBlock) (w : World) → MayAdopt name f k w → is_html_element (name_in w.forest k.block) ≡ true }
{}

/// If a row group is in table scope, the root isn't popped with the element that is current after the stack is cleared
/// back to a table body context.
pub fn a_closed_row_group_is_not_the_root()
    ensures { (ns : List QualName) → in_scope is_table_section is_table_scope ns ≡ true → IsRootOpen ns → IsRootOpen (later_names (down_names is_table_body_context ns)) }
{}

/// In the modes that handle tokens by the rules of "in body", a frame leaves the open elements fitting the mode. In "in
/// body" the same holds for popping up to and including a name that no floor has, if no special name is newer.
pub fn frames_keep_the_fit()
    ensures framed { (s : Situation) (m : InsertionMode) (old new : List QualName) → goes_by_body m ≡ true → Frame (roles old) (roles new) → NamesFit s m old → NamesFit s m new }
    ensures ended { (s : Situation) (local : List ℕ) (ns : List QualName) → is_floor_name (role_of_local local) ≡ false → comes_before_special local ns ≡ true → NamesFit s InBody ns → NamesFit s InBody (cut_names (is_html_named local) (drop_while (is_implied_but local) ns)) }
{}

/// The root is an `html`, and it is open once it has been created.
pub fn the_root_stays()
    ensures html { (s : Situation) (m : InsertionMode) (ns : List QualName) → NamesFit s m ns → RootIsHtml ns }
    ensures open { (s : Situation) (m : InsertionMode) (ns : List QualName) → is_before_root m ≡ false → NamesFit s m ns → 0 < length ns }
{}

/// The mode that a reset chooses fits the open elements, also those that remain after a template is closed; and so does
/// the mode in which the parser of a fragment begins.
pub fn a_reset_fits()
    ensures reset { (s : Situation) (ns : List QualName) → Left (is_whole s.context) (roles ns) → Known s (roles ns) → NamesFit s (reset s (roles ns)) ns }
    ensures fragment { (c : QualName) → NamesFit (start_of (role_of c)) (reset (start_of (role_of c)) (roles (html_name (codes "html") ∷ []))) (html_name (codes "html") ∷ []) }
{}

/// The modes before the body: the root, the head, a `noscript` in the head, and the body are opened.
pub fn the_head_fits()
    ensures root { (s : Situation) (ns : List QualName) → NamesFit s BeforeHtml ns → NamesFit s BeforeHead (html_name (codes "html") ∷ ns) }
    ensures head { (s : Situation) (n : QualName) (ns : List QualName) → role_of n ≡ HeadRole → NamesFit s BeforeHead ns → NamesFit (with_head s) InHead (n ∷ ns) }
    ensures after_head { (s : Situation) (ns : List QualName) → NamesFit s InHead ns → NamesFit s AfterHead (later_names ns) }
    ensures noscript { (s : Situation) (n : QualName) (ns : List QualName) → is_html_named (codes "noscript") n ≡ true → NamesFit s InHead ns → NamesFit s InHeadNoscript (n ∷ ns) }
    ensures after_noscript { (s : Situation) (ns : List QualName) → NamesFit s InHeadNoscript ns → NamesFit s InHead (later_names ns) }
    ensures body { (s : Situation) (n : QualName) (ns : List QualName) → role_of n ≡ BodyRole → NamesFit s AfterHead ns → NamesFit s InBody (n ∷ ns) }
{}

/// A mode that is left for a text fits again when it is resumed. The text is in an HTML element with a plain name, or
/// in a table.
pub fn texts_fit()
    ensures begun { (s : Situation) (m : InsertionMode) (x n : QualName) (ns : List QualName) → may_be_left m ≡ true → role_of x ≡ PlainRole → is_html_element x ≡ true → NamesFit s m (n ∷ ns) → NamesFit (with_saved m s) Text (x ∷ n ∷ ns) }
    ensures ended { (s : Situation) (ns : List QualName) → NamesFit s Text ns → ModeBelow s ns }
    ensures in_table { (s : Situation) (m : InsertionMode) (ns : List QualName) → is_table_mode m ≡ true → NamesFit s m ns → NamesFit (with_saved m s) InTableText ns }
    ensures table_again { (s : Situation) (ns : List QualName) → NamesFit s InTableText ns → TableMode s ns }
{}

/// A caption, a column group, a section, a row or a cell is inserted, after the stack was cleared back to its context.
pub fn parts_of_tables_are_put()
    ensures caption { (s : Situation) (ns : List QualName) (n : QualName) → role_of n ≡ CaptionRole → NamesFit s InTable ns → NamesFit s InCaption (n ∷ down_names is_table_scope ns) }
    ensures colgroup { (s : Situation) (ns : List QualName) (n : QualName) → role_of n ≡ ColgroupRole → NamesFit s InTable ns → NamesFit s InColumnGroup (n ∷ down_names is_table_scope ns) }
    ensures section { (s : Situation) (ns : List QualName) (n : QualName) → role_of n ≡ SectionRole → NamesFit s InTable ns → NamesFit s InTableBody (n ∷ down_names is_table_scope ns) }
    ensures row { (s : Situation) (ns : List QualName) (n : QualName) → role_of n ≡ RowRole → NamesFit s InTableBody ns → NamesFit s InRow (n ∷ down_names is_table_body_context ns) }
    ensures cell { (s : Situation) (ns : List QualName) (n : QualName) → role_of n ≡ CellRole → NamesFit s InRow ns → NamesFit s InCell (n ∷ down_names is_table_row_context ns) }
{}

/// Parts of tables are closed if they are in table scope; in the mode "in cell" a cell always is.
pub fn parts_of_tables_are_closed()
    ensures caption { (s : Situation) (ns : List QualName) → in_scope (is_html_named (codes "caption")) is_table_scope ns ≡ true → NamesFit s InCaption ns → NamesFit s InTable (cut_names (is_html_named (codes "caption")) ns) }
    ensures colgroup { (s : Situation) (ns : List QualName) (n : QualName) → role_of n ≡ ColgroupRole → NamesFit s InColumnGroup (n ∷ ns) → NamesFit s InTable ns }
    ensures section { (s : Situation) (ns : List QualName) (local : List ℕ) → role_of_local local ≡ SectionRole → in_scope (is_html_named local) is_table_scope ns ≡ true → NamesFit s InTableBody ns → NamesFit s InTable (later_names (down_names is_table_body_context ns)) }
    ensures row { (s : Situation) (ns : List QualName) → in_scope (is_html_named (codes "tr")) is_table_scope ns ≡ true → NamesFit s InRow ns → NamesFit s InTableBody (later_names (down_names is_table_row_context ns)) }
    ensures cell { (s : Situation) (ns : List QualName) → NamesFit s InCell ns → NamesFit s InRow (cut_names is_cell ns) }
{}

/// Tables and templates are inserted and closed, and the mode that a reset then chooses fits. In a template, the
/// template insertion mode is replaced by another.
pub fn tables_and_templates_fit()
    ensures table { (s : Situation) (ns : List QualName) (m : InsertionMode) (n x : QualName) → goes_by_body m ≡ true → role_of n ≡ TableRole → NamesFit s m (x ∷ ns) → NamesFit s InTable (n ∷ x ∷ ns) }
    ensures table_closed { (s : Situation) (ns : List QualName) (m : InsertionMode) → goes_by_body m ≡ true → in_scope (is_html_named (codes "table")) is_table_scope ns ≡ true → NamesFit s m ns → NamesFit s (reset s (roles (cut_names (is_html_named (codes "table")) ns))) (cut_names (is_html_named (codes "table")) ns) }
    ensures template { (s : Situation) (ns : List QualName) (m : InsertionMode) (n : QualName) → takes_template m ≡ true → role_of n ≡ TemplateRole → NamesFit s m ns → NamesFit (with_template s) InTemplate (n ∷ ns) }
    ensures template_closed { (s : Situation) (ns : List QualName) (m : InsertionMode) → goes_by_body m ≡ true → has_template ns ≡ true → NamesFit s m ns → NamesFit (without_template s) (reset (without_template s) (roles (cut_names (is_html_named (codes "template")) ns))) (cut_names (is_html_named (codes "template")) ns) }
    ensures other { (s : Situation) (ns : List QualName) (m : InsertionMode) → is_template_mode m ≡ true → NamesFit s InTemplate ns → NamesFit (with_last_mode m s) m ns }
{}

/// Framesets: after the head, in place of the body, in another frameset, closed while the root stays open, and left.
pub fn framesets_fit()
    ensures after_head { (s : Situation) (n : QualName) (ns : List QualName) → role_of n ≡ FramesetRole → NamesFit s AfterHead ns → NamesFit s InFrameset (n ∷ ns) }
    ensures in_place_of_body { (s : Situation) (ns : List QualName) (n r : QualName) → role_of n ≡ FramesetRole → role_of r ≡ HtmlRole → s.frameset_ok ≡ true → Known s (roles ns) → NamesFit s InFrameset (n ∷ r ∷ []) }
    ensures pushed { (s : Situation) (ns : List QualName) (n x : QualName) → role_of n ≡ FramesetRole → NamesFit s InFrameset (x ∷ ns) → NamesFit s InFrameset (n ∷ x ∷ ns) }
    ensures popped { (s : Situation) (ns : List QualName) (n x : QualName) → NamesFit s InFrameset (n ∷ x ∷ ns) → NamesFit s InFrameset (x ∷ ns) }
    ensures left { (s : Situation) (ns : List QualName) → NamesFit s InFrameset ns → NamesFit s AfterFrameset ns }
{}
