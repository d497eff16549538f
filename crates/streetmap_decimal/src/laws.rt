//! Laws of the definitions that the contracts cite.
ghost use Rattle.std.specs.Prelude.{◌≡◌, ℕ, ◌<◌, ◌^◌, ℤ, pos, ◌≤ℤ◌, ◌<ℤ◌, unsigned_abs};
ghost use Rattle.std.specs.Prelude.{List, Result, Ok, Err};
ghost use Rattle.streetmap_grid.specs.Range.{IsCoordinate};
ghost use Rattle.streetmap_decimal.specs.NumberText.{Means};
ghost use Rattle.streetmap_decimal.specs.Grid.{IsNearest, Places, PlacesText};
ghost use Rattle.streetmap_decimal.specs.Nearest.{IsNearestToText, IsOffGrid};
ghost use Rattle.streetmap_decimal.specs.Placements.{placed_text};
ghost use Rattle.streetmap_decimal.specs.declared.fault.DecimalFault.{DecimalFault};
ghost use Rattle.streetmap_decimal.specs.declared.fault.DecimalFault.TheVariants.{OutOfGrid};
ghost use Rattle.streetmap_decimal.specs.declared.rounding.Rounding.{Rounding};

/// A text means at most one mantissa and one exponent.
pub fn text_means_one_decimal()
    ensures { (text : List ℕ) (m e n f : ℤ) → Means text m e → Means text n f
        → (m ≡ n) × (e ≡ f) }
{}

/// One whole number is the nearest.
pub fn one_number_is_nearest()
    ensures { (z g h : ℤ) → IsNearest z g → IsNearest z h → g ≡ h }
{}

/// If the shift is 0 and the scale 1, a coordinate that is whole stays as it is.
pub fn whole_number_stays()
    ensures { (rounding : Rounding) (g : ℤ) → IsCoordinate g
        → Places (pos 0) (pos (10 ^ 9)) rounding g (pos 0) (Ok g) }
{}

/// A text gives one number of the grid, or one fault: no two of the conditions hold at once.
pub fn text_is_placed_once()
    ensures { (shift scale : ℤ) (rounding : Rounding) (text : List ℕ)
        (r s : Result ℤ DecimalFault)
        → PlacesText shift scale rounding text r → PlacesText shift scale rounding text s → r ≡ s }
{}

/// The result of a text is the nearest whole number to its exact value, half away from zero, also
/// if it has digits after the 18th decimal place.
pub fn placed_text_is_nearest()
    ensures { (shift scale : ℤ) (rounding : Rounding) (text : List ℕ) (g : ℤ)
        → pos 0 ≤ℤ scale
        → PlacesText shift scale rounding text (Ok g) → IsNearestToText shift scale text g }
{}

/// A text that is refused as out of the grid has no coordinate as the nearest whole number to its
/// exact value, for every shift and scale that an option may have.
pub fn refused_text_is_off_grid()
    ensures { (shift scale : ℤ) (rounding : Rounding) (text : List ℕ)
        → unsigned_abs shift < 10 ^ 36 → pos 0 <ℤ scale → unsigned_abs scale < 10 ^ 36
        → PlacesText shift scale rounding text (Err OutOfGrid) → IsOffGrid shift scale text }
{}

/// Each text gives a number of the grid, or a fault: the one that the function gives.
pub fn each_text_is_placed()
    ensures { (shift scale : ℤ) (rounding : Rounding) (text : List ℕ)
        → PlacesText shift scale rounding text (placed_text shift scale rounding text) }
{}
