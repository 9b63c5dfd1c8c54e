// What holds of all bytes and all messages.
ghost use Rattle.std.specs.Prelude.{◌≡◌, ◌<◌, ◌^◌, ℕ, ℤ, Bool, List, [], ◌∷◌, Option, FitsSigned, length};
ghost use Rattle.std.specs.Int.{w32};
ghost use Rattle.std.specs.List.{AllByRecursion};
ghost use Rattle.vortex_wire.specs.Canonical.{canonical, run_of};
ghost use Rattle.vortex_wire.specs.Messages.{Chosen, Integer, Row, Several, Spells, Value, Whole};
ghost use Rattle.vortex_wire.specs.Tables.{dict_rows, v1_rows, v2_rows};

/// Bytes spell one message at most, whatever the table of its fields.
pub fn one_message()
    ensures { (rows : List Row) (bytes : List ℕ) (a b : List Value) → Spells rows bytes a → Spells rows bytes b → a ≡ b }
{}

/// The canonical bytes of a message spell it.
pub fn canonical_spells()
    ensures dict { (len : ℕ) (ptype : ℤ) (nullable : Option Bool) → len < 2 ^ 32 → FitsSigned w32 ptype →
        Spells dict_rows (canonical dict_rows (Whole len ∷ Integer ptype ∷ Chosen nullable ∷ [])) (Whole len ∷ Integer ptype ∷ Chosen nullable ∷ []) }
    ensures v1 { (ptype : ℤ) (count : ℕ) → FitsSigned w32 ptype → count < 2 ^ 32 →
        Spells v1_rows (canonical v1_rows (Integer ptype ∷ Whole count ∷ [])) (Integer ptype ∷ Whole count ∷ []) }
    ensures v2 { (ptype : ℤ) (lower : List ℤ) → FitsSigned w32 ptype → AllByRecursion (FitsSigned w32) lower → length (run_of lower) < 2 ^ 64 →
        Spells v2_rows (canonical v2_rows (Integer ptype ∷ Several lower ∷ [])) (Integer ptype ∷ Several lower ∷ []) }
{}
