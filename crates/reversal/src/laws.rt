//! What holds of the definitions of side data, whatever the records.

ghost use Rattle.std.specs.Prelude.{◌≡◌, ℕ, ◌+◌, List, All, Ok, length};
ghost use Rattle.reversal.specs.declared.record.FileRecord.{FileRecord as Recorded};
ghost use Rattle.reversal.specs.SideData.{AreNames, AreRecords, FitsTypes, HasSum, all_parts_len, names_of, side_data_len, side_data_of};
ghost use Rattle.reversal.specs.SideReading.{side_read};

/// The side data of records of their shape, with names in order, is read as these records.
pub fn n8()
    ensures { (records : List Recorded) → AreRecords records → All FitsTypes records → side_read (side_data_of records) ≡ Ok records }
{}

/// The length of side data follows from the names and from what frames and waves have beside them.
pub fn side_data_length()
    ensures { (records : List Recorded) → All HasSum records → length (side_data_of records) ≡ side_data_len (names_of records) + all_parts_len records }
{}

/// The names of records that are read are relative, rise, and none is under another.
pub fn names_are_in_order()
    ensures { (bytes : List ℕ) (records : List Recorded) → side_read bytes ≡ Ok records → AreNames (names_of records) }
{}
