//! Which function the next record belongs to.

ghost use Rattle.std.specs.Prelude.{◌≡◌, ◌≤◌, ◌<◌, ◌*◌, ◌+◌, ◌∷◌, List, length};
ghost use Rattle.map_bytes.specs.Maps.{MapRecord, counted_records};
ghost use Rattle.map_bytes.specs.Reads.{functions_read};
ghost use Rattle.map_bytes.specs.Entries.{entries_of};

use crate::records::function_entry;

/// The function whose records are being read, how many of these are left, and the entries of the functions behind it.
#[derive(Clone, Copy, Debug)]
pub(crate) struct Owner<'a> {
    pub(crate) functions: &'a [u8],
    pub(crate) functions_left: u32,
    pub(crate) address: u64,
    pub(crate) frame_bytes: u64,
    pub(crate) left: u64,
    ghost room: { 24 * functions_left ≤ length functions.now },
}

impl<'a> Owner<'a> {
    ghost use Rattle.stackmap_view.specs.Owners.{owned, owner_entry};

    // Before the first of so many functions.
    pub(crate) fn before(functions: &'a [u8], count: u32) -> Owner<'a>
        requires { 24 * count ≤ length functions.now }
        ensures functions { functions_read result.functions_left result.functions.now ≡ functions_read count functions.now }
        ensures none { (owner_entry result).records ≡ 0 }
    {
        Owner {
            functions,
            functions_left: count,
            address: 0,
            frame_bytes: 0,
            left: 0,
        }
    }

    // At the next function.
    fn next_function(&self) -> Owner<'a>
        requires { 0 < self.now.functions_left }
        ensures entry { owned result ≡ functions_read self.now.functions_left self.now.functions.now }
        ensures fewer { result.functions_left < self.now.functions_left }
    {
        let entry = function_entry(self.functions);
        let (_entry, functions) = self.functions.split_at(24);
        Owner {
            functions,
            functions_left: self.functions_left - 1,
            address: entry.address,
            frame_bytes: entry.frame_bytes,
            left: entry.records,
        }
    }

    // At the first function that has a record left, if there is one.
    pub(crate) fn with_record(&self) -> Owner<'a>
        ensures same { (records : List MapRecord) → entries_of (owned result) records ≡ entries_of (owned self.now) records }
        ensures counted { counted_records (owned result) ≡ counted_records (owned self.now) }
        ensures some { 0 < counted_records (owned self.now) → 0 < result.left }
    {
        let mut current = *self;
        'skipping: while current.left == 0 && current.functions_left > 0 {
            current = current.next_function();
        }
        current
    }

    // Behind one more record.
    pub(crate) fn behind_one(&self) -> Owner<'a>
        requires { 0 < self.now.left }
        ensures left { result.left + 1 ≡ self.now.left }
        ensures same { owned result ≡ record (owner_entry self.now) { records = result.left } ∷ functions_read self.now.functions_left self.now.functions.now }
    {
        Owner {
            functions: self.functions,
            functions_left: self.functions_left,
            address: self.address,
            frame_bytes: self.frame_bytes,
            left: self.left - 1,
        }
    }
}
