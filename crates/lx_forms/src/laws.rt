//! Laws of listings in forms.

ghost use Rattle.std.specs.Prelude.{◌≡◌, ◌++◌, ◌↔◌, ℕ, All, Contains, List, Some, true};
ghost use Rattle.std.specs.List.{filter, flat_map};
ghost use Rattle.lx_scan.specs.declared.item.Item.{Item};
ghost use Rattle.lx_piece.specs.Plans.{IsPlan, Planned, files_of, items_of};
ghost use Rattle.lx_line.specs.Lines.{kind_text};
ghost use Rattle.lx_listing.specs.Listings.{listing_of};
ghost use Rattle.lx_forms.specs.Choosing.{HasKindOf, selected_by, stands_by_one_of};
ghost use Rattle.lx_forms.specs.Forms.{PlainForm, bare_form, is_selected};
ghost use Rattle.lx_forms.specs.FormLaws.{IsJoined, form_behind, form_of_front};
ghost use Rattle.lx_forms.specs.FormListings.{line_in, lines_in, listing_in};

/// States a law: in the form without options, a plan's listing is the plain listing.
pub fn bare_listings_are_listings()
    ensures { (plan : Planned) → listing_in bare_form plan ≡ listing_of plan }
{}

/// States a law: in every form, the listing of joined files is that of the front ones followed by that of the rest. The rest's first number is raised
/// by the number of front files. Each part has the names of its own files.
pub fn listings_join()
    ensures { (form : PlainForm) (front rest whole : Planned) → IsJoined front rest whole →
        listing_in form whole ≡ listing_in (form_of_front form (files_of front)) front ++ listing_in (form_behind form (files_of front)) rest }
{}

/// States a law: words select the items whose kind the listing shows by one of them (`-` for an Echo). So if words select what is printed, the lines
/// of a file are those of its selected items, in order.
pub fn words_select_by_kind()
    ensures items { (plan : Planned) (words : List (List ℕ)) (item : Item) → HasKindOf plan.table item →
        (is_selected (selected_by plan.table words) item ≡ true) ↔ Contains words (kind_text plan item) }
    ensures all { (plan : Planned) (file : ℕ) → IsPlan plan
        → All (HasKindOf plan.table) (items_of plan file) }
    ensures lines { (form : PlainForm) (plan : Planned) (words : List (List ℕ)) (file : ℕ) → IsPlan plan → form.only ≡ Some (selected_by plan.table words) →
        lines_in form plan file (items_of plan file) ≡ flat_map (line_in form plan file) (filter (stands_by_one_of plan words) (items_of plan file)) }
{}
