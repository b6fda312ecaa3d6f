//! Bytes are one map or have one first fault.

ghost use Rattle.std.specs.Prelude.{◌≡◌, ◌%◌, ◌≤◌, ◌++◌, ◌⊎◌, ◌↔◌, ℕ, List, length};
ghost use Rattle.map_bytes.specs.declared.rules.MapFault.{MapFault as Fault};
ghost use Rattle.map_bytes.specs.Formats.{AreBytes, laid};
ghost use Rattle.map_bytes.specs.Tables.{map_format};
ghost use Rattle.map_bytes.specs.Maps.{StackMap, MapRecord, record_bytes, IsMap, IsMapOf};
ghost use Rattle.map_bytes.specs.Faults.{Begins, IsFirstFault};
ghost use Rattle.map_bytes.specs.Fits.{MapFits};

/// Bytes are at most one map.
pub fn one_map()
    ensures { (bytes : List ℕ) (one other : StackMap) → IsMapOf bytes one → IsMapOf bytes other → one ≡ other }
{}

/// Bytes have at most one first fault.
pub fn one_fault()
    ensures { (bytes : List ℕ) (one other : Fault) → IsFirstFault bytes one → IsFirstFault bytes other → one ≡ other }
{}

/// Bytes are a map, or have a first fault and are none.
pub fn map_or_fault()
    ensures either { (bytes : List ℕ) → AreBytes bytes → ((map : StackMap) × IsMapOf bytes map) ⊎ ((fault : Fault) × IsFirstFault bytes fault) }
    ensures not_both { (bytes : List ℕ) (map : StackMap) (fault : Fault) → IsMapOf bytes map → IsFirstFault bytes fault → ⊥ }
{}

/// No longer list of allowed numbers than that before the first fault has fields that are a front of the bytes.
pub fn longest_front()
    ensures { (bytes : List ℕ) (fault : Fault) (is : IsFirstFault bytes fault) (others more : List ℕ) → Begins map_format others
        → bytes ≡ laid map_format others ++ more → length others ≤ length is.numbers }
{}

/// The numbers of a map are allowed by the table of fields exactly where each number fits and the counts agree.
pub fn numbers_fit()
    ensures { (map : StackMap) → IsMap map ↔ MapFits map }
{}

/// A record has a multiple of 8 bytes, so padding may be counted from the first byte of the map or of the record.
pub fn aligned_records()
    ensures { (one : MapRecord) → length (record_bytes one) % 8 ≡ 0 }
{}
