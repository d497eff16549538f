//! Laws of the definitions that the contracts cite.
ghost use Rattle.std.specs.Prelude.{◌≡◌, ℕ, List, Result};
ghost use Rattle.serde_json.specs.Data.{Data};
ghost use Rattle.streetmap_placing.specs.Text.{IsReadAs};
ghost use Rattle.streetmap_placing.specs.Value.{value_of};
ghost use Rattle.streetmap_placing.specs.declared.fault.PlacingFault.{PlacingFault};
ghost use Rattle.streetmap_placing.specs.declared.numbers.Numbers.{Numbers};

/// A text is read as one value, or with one fault: no two of the conditions hold at once.
pub fn text_is_read_once()
    ensures { (numbers : Numbers) (text : List ℕ) (r s : Result Data PlacingFault)
        → IsReadAs numbers text r → IsReadAs numbers text s → r ≡ s }
{}

/// Each text is read as the value that the function gives, or refused with its fault.
pub fn each_text_is_read()
    ensures { (numbers : Numbers) (text : List ℕ)
        → IsReadAs numbers text (value_of numbers text) }
{}
