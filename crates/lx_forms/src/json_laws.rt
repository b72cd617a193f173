//! Laws on the meaning of a listing's JSON lines.

ghost use Rattle.std.specs.Prelude.{◌≡◌, ◌++◌, ◌∷◌, ◌↔◌, ℕ, List, IsUtf8, Some, true};
ghost use Rattle.std.specs.Str.{is_utf8};
ghost use Rattle.json.specs.Json.{document};
ghost use Rattle.lx_scan.specs.declared.item.Item.{Item};
ghost use Rattle.lx_piece.specs.Plans.{Planned};
ghost use Rattle.lx_forms.specs.Forms.{PlainForm};
ghost use Rattle.lx_forms.specs.JsonLines.{json_cut_line, json_line};
ghost use Rattle.lx_forms.specs.JsonValues.{AreSmall, cut_said, item_said, object_of};

/// States a law: each JSON line is one object (RFC 8259). It gives exactly the members of the item, or of the file whose reading failed, in this
/// order.
pub fn json_lines_are_objects()
    ensures items { (form : PlainForm) (plan : Planned) (file : ℕ) (item : Item) → AreSmall (item_said form plan file item) →
        document (json_line form plan file item) ≡ Some (object_of (item_said form plan file item)) }
    ensures cut { (form : PlainForm) (file : ℕ) → AreSmall (cut_said form file) →
        document (json_cut_line form file) ≡ Some (object_of (cut_said form file)) }
{}

/// States a law: the test for UTF-8 (RFC 3629) holds exactly for the bytes of characters.
pub fn strings_are_utf8()
    ensures { (bytes : List ℕ) → (is_utf8 bytes ≡ true) ↔ IsUtf8 bytes }
{}
