//! What holds of the meaning of any list of bytes.

ghost use Rattle.std.specs.Prelude.{ℕ, List, map};
ghost use Rattle.cook_bits.specs.Names.{File};
ghost use Rattle.reversal.specs.SideData.{AreNames};
ghost use Rattle.cook_restore.specs.Meaning.{meaning_of};

/// The names of the files that a package means are relative, rise, and none is under another.
pub fn files_are_in_order()
    ensures { (bytes : List ℕ) → AreNames (map (λ (file : File). file.0) (meaning_of bytes).files) }
{}
