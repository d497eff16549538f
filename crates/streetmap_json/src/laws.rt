// Laws of JSON texts.
ghost use Rattle.std.specs.Prelude.{◌≡◌, ◌≢◌, ℕ, List, [], ◌∷◌, ◌++◌, ◌<◌, ◌≤◌, length};
ghost use Rattle.std.specs.Prelude.{false, ◌==◌, Some, IsTrue};
ghost use Rattle.std.specs.List.{list_all};
ghost use Rattle.json.specs.Ascii as ascii;
ghost use Rattle.serde_json.specs.Data.{Data, depth};
ghost use Rattle.serde_json.specs.Read.{read, max_depth};
ghost use Rattle.serde_json.specs.Written.{compact_text};
ghost use Rattle.streetmap_json.specs.ExactData.{is_exact};
ghost use Rattle.streetmap_json.specs.JsonText.{json_value};
ghost use Rattle.streetmap_json.specs.NumberText.{are_signed_digits, are_zeros, unsigned_zero};
ghost use Rattle.streetmap_json.specs.NumberText.{whole_text, is_in_number, starts_number};
ghost use Rattle.streetmap_json.specs.NumberText.{with_whole_numbers, IsStringBody};

/// The compact text of exact data, at most 127 levels deep, reads as that data, and the change of
/// numbers leaves it as it is.
pub fn written_text_reads_again()
    ensures reads { (d : Data) → IsTrue (is_exact d) → depth d ≤ max_depth
        → read (compact_text d) ≡ Some d }
    ensures kept { (d : Data) → IsTrue (is_exact d)
        → with_whole_numbers (compact_text d) ≡ compact_text d }
    ensures again { (d : Data) → IsTrue (is_exact d) → depth d ≤ max_depth
        → json_value (compact_text d) ≡ Some d }
{}

/// A number text is read without its fraction if it is digits, with or without a minus before them,
/// a point and one zero or more, and as it is in every other case; and `-0` is read as `0`.
pub fn number_text_is_read_whole()
    ensures fraction { (whole zeros : List ℕ) → IsTrue (are_signed_digits whole)
        → IsTrue (are_zeros zeros) → whole_text (whole ++ ascii.dot ∷ zeros) ≡ unsigned_zero whole }
    ensures other { (s : List ℕ)
        → ((whole zeros : List ℕ) → s ≡ whole ++ ascii.dot ∷ zeros
        → IsTrue (are_signed_digits whole) → IsTrue (are_zeros zeros) → ⊥)
        → whole_text s ≡ unsigned_zero s }
{}

/// A text is changed token by token: each longest run of number bytes is changed as that number
/// text is read. Strings, with an end or without, and all other bytes stay as they are.
pub fn text_is_changed_by_token()
    ensures number { (s rest : List ℕ) → 0 < length s → IsTrue (list_all is_in_number s)
        → starts_number rest ≡ false → with_whole_numbers (s ++ rest)
        ≡ whole_text s ++ with_whole_numbers rest }
    ensures string { (s rest : List ℕ) → IsStringBody s
        → with_whole_numbers (ascii.quote ∷ s ++ ascii.quote ∷ rest)
        ≡ ascii.quote ∷ s ++ ascii.quote ∷ with_whole_numbers rest }
    ensures unended { (s : List ℕ) → IsStringBody s
        → with_whole_numbers (ascii.quote ∷ s) ≡ ascii.quote ∷ s }
    ensures escaping { (s : List ℕ) → IsStringBody s
        → with_whole_numbers (ascii.quote ∷ s ++ ascii.backslash ∷ [])
        ≡ ascii.quote ∷ s ++ ascii.backslash ∷ [] }
    ensures other { (b : ℕ) (rest : List ℕ) → is_in_number b ≡ false
        → (b == ascii.quote) ≡ false
        → with_whole_numbers (b ∷ rest) ≡ b ∷ with_whole_numbers rest }
    ensures none { with_whole_numbers [] ≡ [] }
{}
