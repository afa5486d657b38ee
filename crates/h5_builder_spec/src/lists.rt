//! Laws of the stack of open elements and of the list of active formatting elements (HTML standard, sections 13.2.4.2
//! and 13.2.4.3). Each is the contract of a function that does nothing, and states the meaning of a definition in a
//! second way. Stack, list and names have the newest first.
ghost use Rattle.std.specs.Prelude.{◌≡◌, ◌≤◌, ◌<◌, ◌↔◌, ◌++◌, ℕ, suc, Bool, true, false, List, [], ◌∷◌, length, map, drop, Option, Some, None, IsTrue};
ghost use Rattle.std.specs.List.{list_any};
ghost use Rattle.h5_names.specs.declared.qualified.QualName.{QualName};
ghost use Rattle.h5_token.specs.TokenText.{IsAlike, TagText};
ghost use Rattle.h5_interface.specs.Forest.{ElementNode, Forest, IsNode, kind_of};
ghost use Rattle.h5_interface.specs.SinkChoices.{Rearranges};
ghost use Rattle.h5_tables.specs.TagSets.{is_one_of, is_special, formatting_names};
ghost use Rattle.h5_builder_spec.specs.formatting.Adoption.{FormattingElement, FurthestBlock, IsCloneOf, adopted, clones_wanted, furthest_block, inserted_after, newer_than, newest_named, older_than, replaced, replaced_by, to_clone, without_node};
ghost use Rattle.h5_builder_spec.specs.formatting.FormattingList.{EachEntry, ElementEntry, Entry, MarkerEntry, after_marker, clear_to_marker, closed_front, count_alike, is_alike, nodes_of, open_rest, push_formatting, reconstructed, without_entry};
ghost use Rattle.h5_builder_spec.specs.formatting.FormattingNames.{AllFormatting, AllOfTags, IsPlain};
ghost use Rattle.h5_builder_spec.specs.formatting.Fresh.{AreFresh, Makes};
ghost use Rattle.h5_builder_spec.specs.formatting.InnerLoop.{MayWalk, walked};
ghost use Rattle.h5_builder_spec.specs.inner.Lists.{FewAlike, Lists, OpenFirst};
ghost use Rattle.h5_builder_spec.specs.stack.Order.{Distinct, IsIn, IsOrdered, but_first};
ghost use Rattle.h5_builder_spec.specs.formatting.Places.{EarliestGoes, FurthestBlockAt, NewestNamedAt, RewindsTo};
ghost use Rattle.h5_builder_spec.specs.stack.Scope.{cut_names, cut_through, down_names, drop_while, first_passes, in_scope, second_is};
ghost use Rattle.h5_builder_spec.specs.stack.Splits.{HasCurrent, HasInScope, HasSecond, PopsAll, PopsDownTo, PopsThrough};

/// The test "have a particular element in scope" (HTML standard, section 13.2.4.2) holds exactly if there is such an
/// element, and no newer one ends the scope.
pub fn scope_reaches_to_the_first_end()
    ensures has { (is ends : QualName → Bool) (names : List QualName) → in_scope is ends names ≡ true → HasInScope is ends names }
    ensures only { (is ends : QualName → Bool) (names : List QualName) → HasInScope is ends names → in_scope is ends names ≡ true }
{}

/// Popping while the current node is such an element (HTML standard, section 13.2.6.3, "generate implied end tags")
/// removes all such elements up to the first one that isn't such an element. No other list remains after that.
pub fn popping_while_takes_all_such()
    ensures takes { (is : QualName → Bool) (names : List QualName) → PopsAll is names (drop_while is names) }
    ensures only { (is : QualName → Bool) (names left : List QualName) → PopsAll is names left → left ≡ drop_while is names }
{}

/// "Pop elements until such an element has been popped": if there is one, the newest is the last that is popped, and no
/// other list remains after that; if there is none, nothing remains. Elements and names are popped in equal numbers, so
/// the remaining elements have the remaining names.
pub fn popping_through_takes_the_newest_such()
    ensures takes { (is : QualName → Bool) (names : List QualName) → list_any is names ≡ true → PopsThrough is names (cut_names is names) }
    ensures only { (is : QualName → Bool) (names left : List QualName) → PopsThrough is names left → left ≡ cut_names is names }
    ensures none { (is : QualName → Bool) (names : List QualName) → list_any is names ≡ false → cut_names is names ≡ [] }
    ensures elements { (is : QualName → Bool) (names left : List QualName) (s : List ℕ) (k : PopsThrough is names left) → cut_through is names s ≡ drop (suc (length k.newer)) s }
    ensures names { (is : QualName → Bool) (name : ℕ → QualName) (s : List ℕ) → map name (cut_through is (map name s) s) ≡ cut_names is (map name s) }
{}

/// "Clear the stack back to" such an element (HTML standard, section 13.2.6.4.9) pops all elements that are newer than
/// the newest such element, or all elements if there is none. No other list remains after that.
pub fn popping_down_stops_at_the_newest_such()
    ensures takes { (is : QualName → Bool) (names : List QualName) → PopsDownTo is names (down_names is names) }
    ensures only { (is : QualName → Bool) (names left : List QualName) → PopsDownTo is names left → left ≡ down_names is names }
{}

/// The tests of the second element from the root on, and of the current node, hold exactly if that element is one.
pub fn ends_of_the_stack_are_seen()
    ensures second { (local : List ℕ) (names : List QualName) → second_is local names ≡ true → HasSecond local names }
    ensures second_only { (local : List ℕ) (names : List QualName) → HasSecond local names → second_is local names ≡ true }
    ensures current { (is : QualName → Bool) (names : List QualName) → first_passes is names ≡ true → HasCurrent is names }
    ensures current_only { (is : QualName → Bool) (names : List QualName) → HasCurrent is names → first_passes is names ≡ true }
{}

/// The test `is_alike` holds exactly for tags that are alike: kind and name are equal, and the attributes are equal in
/// some order.
pub fn the_test_is_likeness()
    ensures told { (x y : TagText) → is_alike x y ≡ true → IsAlike x y }
    ensures telling { (x y : TagText) → IsAlike x y → is_alike x y ≡ true }
{}

/// "Push onto the list of active formatting elements" (HTML standard, section 13.2.4.3): if three entries after the
/// last marker are alike to the tag already, the earliest of them is removed, otherwise none is. If at most three were
/// alike to any tag before, this holds after it.
pub fn pushing_keeps_three_alike()
    ensures full { (n : ℕ) (t : TagText) (l : List Entry) → 3 ≤ count_alike t l → (left : List Entry) × ((push_formatting n t l ≡ ElementEntry n t ∷ left) × EarliestGoes t l left) }
    ensures free { (n : ℕ) (t : TagText) (l : List Entry) → count_alike t l < 3 → push_formatting n t l ≡ ElementEntry n t ∷ l }
    ensures few { (n : ℕ) (t : TagText) (l : List Entry) → ((u : TagText) → FewAlike u l) → (u : TagText) → FewAlike u (push_formatting n t l) }
{}

/// Stack and list continue to agree after each single change: an element that isn't listed is pushed; the current node,
/// or all up to and including an element, are popped; an element that isn't listed is removed from the stack; an entry
/// is removed from the list, and its element, or all down to that element, from the stack; a marker is pushed; the list
/// is cleared up to the last marker.
pub fn single_changes_keep_lists()
    ensures pushed { (n : ℕ) (s : List ℕ) (l : List Entry) → ¬ (IsIn n (nodes_of l)) → Lists s l → Lists (n ∷ s) l }
    ensures popped { (s : List ℕ) (l : List Entry) → Distinct s → Lists s l → Lists (but_first s) l }
    ensures cut { (is : QualName → Bool) (names : List QualName) (s : List ℕ) (l : List Entry) → Distinct s → Lists s l → Lists (cut_through is names s) l }
    ensures front_cut { (a s : List ℕ) (l : List Entry) → Distinct (a ++ s) → Lists (a ++ s) l → Lists s l }
    ensures node_left { (n : ℕ) (s : List ℕ) (l : List Entry) → ¬ (IsIn n (nodes_of l)) → Lists s l → Lists (without_node n s) l }
    ensures entry_left { (n : ℕ) (s : List ℕ) (l : List Entry) → Lists s l → Lists s (without_entry n l) }
    ensures both_left { (n : ℕ) (s : List ℕ) (l : List Entry) → Lists s l → Lists (without_node n s) (without_entry n l) }
    ensures closed { (n : ℕ) (s : List ℕ) (l : List Entry) → IsIn n s → Distinct s → Lists s l → Lists (older_than n s) (without_entry n l) }
    ensures marked { (s : List ℕ) (l : List Entry) → Lists s l → Lists s (MarkerEntry ∷ l) }
    ensures cleared { (s : List ℕ) (l : List Entry) → Lists s l → Lists s (clear_to_marker l) }
{}

/// Stack and list continue to agree if a new formatting element is pushed onto both while every entry after the last
/// marker is open.
pub fn formatting_keeps_lists()
    ensures { (n : ℕ) (t : TagText) (s : List ℕ) (l : List Entry) → ((x : ℕ) → IsIn x (nodes_of (after_marker l)) → IsIn x s) → ¬ (IsIn n (nodes_of l)) → Lists s l → Lists (n ∷ s) (push_formatting n t l) }
{}

/// "Reconstruct the active formatting elements" (HTML standard, section 13.2.4.3) creates new elements for exactly the
/// entries that rewinding passes. Stack and list continue to agree.
pub fn reconstructing_keeps_lists()
    ensures rewinds { (s : List ℕ) (l : List Entry) → RewindsTo s l (closed_front s l) (open_rest s l) }
    ensures only { (s : List ℕ) (l front rest : List Entry) → RewindsTo s l front rest → front ≡ closed_front s l }
    ensures keeps { (fresh s : List ℕ) (l : List Entry) → length fresh ≡ length (closed_front s l) → AreFresh fresh s l → Lists s l → Lists (fresh ++ s) (reconstructed fresh s l) }
{}

/// After reconstructing, every entry after the last marker is open, if before it none that wasn't open was older than
/// one that was. Reconstructing again creates no element and changes nothing.
pub fn reconstructing_opens_all()
    ensures opens { (fresh s : List ℕ) (l : List Entry) → length fresh ≡ length (closed_front s l) → OpenFirst s (after_marker l) → (n : ℕ) → IsIn n (nodes_of (after_marker (reconstructed fresh s l))) → IsIn n (fresh ++ s) }
    ensures again { (fresh s : List ℕ) (l : List Entry) → length fresh ≡ length (closed_front s l) → closed_front (fresh ++ s) (reconstructed fresh s l) ≡ [] }
    ensures nothing { (s : List ℕ) (l : List Entry) → closed_front s l ≡ [] → reconstructed [] s l ≡ l }
    ensures twice { (fresh s : List ℕ) (l : List Entry) → length fresh ≡ length (closed_front s l) → reconstructed [] (fresh ++ s) (reconstructed fresh s l) ≡ reconstructed fresh s l }
{}

/// The adoption agency (HTML standard, section 13.2.6.4.7) takes as the formatting element the newest one of the name
/// after the last marker, and as the furthest block the oldest special one of the elements that are newer than that.
pub fn adopting_looks_where_it_should()
    ensures element { (name : List ℕ) (l : List Entry) (f : FormattingElement) → newest_named name l ≡ Some f → NewestNamedAt name f l }
    ensures no_element { (name : List ℕ) (l : List Entry) → newest_named name l ≡ None → EachEntry (λ n t. ¬ (t.name ≡ name)) (after_marker l) }
    ensures block { (special : ℕ → Bool) (s : List ℕ) (k : FurthestBlock) → furthest_block special s ≡ Some k → FurthestBlockAt special k s }
    ensures no_block { (special : ℕ → Bool) (s : List ℕ) → furthest_block special s ≡ None → list_any special s ≡ false }
{}

/// The open elements are those newer than an element, the element, and those older than it; without the element, both
/// parts remain. A new entry is the next newer one after that of an element. If an entry is removed from the list, the
/// others remain.
pub fn elements_and_entries_are_found()
    ensures parts { (n : ℕ) (s : List ℕ) → IsIn n s → s ≡ newer_than n s ++ n ∷ older_than n s }
    ensures node_left { (n : ℕ) (s : List ℕ) → IsIn n s → without_node n s ≡ newer_than n s ++ older_than n s }
    ensures inserted { (n : ℕ) (e : Entry) (t : TagText) (newer older : List Entry) → ¬ (IsIn n (nodes_of newer)) → inserted_after n e (newer ++ ElementEntry n t ∷ older) ≡ newer ++ (e ∷ ElementEntry n t ∷ older) }
    ensures entry_left { (n : ℕ) (t : TagText) (newer older : List Entry) → ¬ (IsIn n (nodes_of newer)) → without_entry n (newer ++ ElementEntry n t ∷ older) ≡ newer ++ older }
{}

/// Replacing the elements between at once has the same result as the inner loop of the adoption agency, which visits
/// them one by one and clones at most three.
pub fn the_inner_loop_replaces_at_once()
    ensures { (between clones : List ℕ) (l : List Entry) → MayWalk 3 between clones l → replaced (replaced_by between (to_clone l between) clones) l ≡ walked 3 between clones l }
{}

/// Stack and list continue to agree after a pass of the adoption agency, if no special element is listed.
pub fn adopting_keeps_lists()
    ensures { (special : ℕ → Bool) (name : List ℕ) (f : FormattingElement) (clones : List ℕ) (c : ℕ) (s : List ℕ) (l : List Entry) →
        newest_named name l ≡ Some f → IsIn f.node s → Distinct s → ((n : ℕ) → special n ≡ true → ¬ (IsIn n (nodes_of l))) →
        length clones ≡ length (clones_wanted special f s l) → AreFresh (c ∷ clones) s l → Lists s l →
        Lists (adopted special f clones c s l).stack (adopted special f clones c s l).formatting }
{}

/// The list continues to have only formatting elements if it is cleared, if an entry is removed, or one with such a
/// name is pushed, after reconstructing, and after a pass of the adoption agency.
pub fn changes_keep_formatting_names()
    ensures cleared { (l : List Entry) → AllFormatting l → AllFormatting (clear_to_marker l) }
    ensures entry_left { (n : ℕ) (l : List Entry) → AllFormatting l → AllFormatting (without_entry n l) }
    ensures pushed { (n : ℕ) (t : TagText) (l : List Entry) → IsTrue (is_one_of formatting_names t.name) → AllFormatting l → AllFormatting (push_formatting n t l) }
    ensures reconstructed { (fresh s : List ℕ) (l : List Entry) → AllFormatting l → AllFormatting (reconstructed fresh s l) }
    ensures adopted { (special : ℕ → Bool) (name : List ℕ) (f : FormattingElement) (clones : List ℕ) (c : ℕ) (s : List ℕ) (l : List Entry) →
        newest_named name l ≡ Some f → AllFormatting l → AllFormatting (adopted special f clones c s l).formatting }
{}

/// Open elements that are ordered are distinct. Listed elements are HTML elements that aren't special. They continue to
/// have their tags' names in a rearranged forest, and after a pass of the adoption agency whose clones are of the same
/// kind as their originals. New nodes of a forest are neither open nor listed.
pub fn listed_elements_are_plain()
    ensures distinct { (up : ℕ → Option ℕ) (s : List ℕ) → IsOrdered up s → Distinct s }
    ensures plain { (f : Forest) (l : List Entry) → AllOfTags f l → AllFormatting l → (n : ℕ) → IsIn n (nodes_of l) → IsPlain f n }
    ensures not_special { (f : Forest) (l : List Entry) → AllOfTags f l → AllFormatting l → (n : ℕ) (name : QualName) → kind_of f n ≡ Some (ElementNode name) → is_special name ≡ true → ¬ (IsIn n (nodes_of l)) }
    ensures rearranged { (f g : Forest) (l : List Entry) → Rearranges f g → AllOfTags f l → AllOfTags g l }
    ensures adopted { (special : ℕ → Bool) (name : List ℕ) (e : FormattingElement) (clones : List ℕ) (c : ℕ) (s : List ℕ) (l : List Entry) (f g : Forest) →
        newest_named name l ≡ Some e → ((n : ℕ) → IsNode f n → kind_of g n ≡ kind_of f n) →
        ((y x : ℕ) → IsCloneOf (clones_wanted special e s l) clones y x → kind_of g y ≡ kind_of f x) → kind_of g c ≡ kind_of f e.node →
        AllOfTags f l → AllOfTags g (adopted special e clones c s l).formatting }
    ensures fresh { (f : Forest) (clones : List ℕ) (c : ℕ) (s : List ℕ) (l : List Entry) → Makes f (clones ++ c ∷ []) → ((n : ℕ) → IsIn n s → IsNode f n) → AllOfTags f l → AreFresh (c ∷ clones) s l }
{}
