ghost use Rattle.std.specs.Prelude.{◌≡◌, ◌+◌, ◌<◌, ◌≤◌, length, IfOk, IfErr, IsSome, None};
ghost use Rattle.std.specs.Option.{option_copied};
ghost use Rattle.std.specs.Vec.{vec_len, vec_capacity};
ghost use Rattle.ipam_records.specs.Datastore.{row_key, row_of, with_row, without_row};
ghost use Rattle.ipam_records.specs.KeyRef.{owned_key};
ghost use Rattle.ipam_store.specs.Places.{Ascend, IsPlace, IsGap};

use ipam_records::{KeyRef, Record};

/// Where the row of the key is, or where it would go.
fn place(rows: &[(u64, Record)], key: &KeyRef<'_>) -> Result<usize, usize>
    requires { Ascend rows.now }
    ensures found { IfOk result (IsPlace rows.now (owned_key key.now)) }
    ensures absent { IfErr result (IsGap rows.now (owned_key key.now)) }
{
    rows.binary_search_by(|row| KeyRef::of_record(&row.1).compare(key))
}

/// The row of the key, if there is one.
pub(crate) fn find<'a>(rows: &'a [(u64, Record)], key: &KeyRef<'_>) -> Option<&'a (u64, Record)>
    requires { Ascend rows.now }
    ensures { option_copied result ≡ row_of (owned_key key.now) rows.now }
{
    match place(rows, key) {
        Ok(place) => Some(&rows[place]),
        Err(_) => None,
    }
}

/// Puts in a row, in place of the one of its key if there is one. Takes no memory.
pub(crate) fn put(rows: &mut Vec<(u64, Record)>, row: (u64, Record))
    requires ascend { Ascend rows.old.items }
    requires room { row_of (row_key row) rows.old.items ≡ None → vec_len rows.old < vec_capacity rows.old }
    ensures rows { rows.new.items ≡ with_row row rows.old.items }
    ensures replaced { IsSome (row_of (row_key row) rows.old.items) → length rows.new.items ≡ length rows.old.items }
    ensures added { row_of (row_key row) rows.old.items ≡ None → length rows.new.items ≡ length rows.old.items + 1 }
    ensures some { 1 ≤ length rows.new.items }
    ensures capacity { vec_capacity rows.new ≡ vec_capacity rows.old }
{
    match place(rows, &KeyRef::of_record(&row.1)) {
        Ok(place) => rows[place] = row,
        Err(place) => {
            if rows.insert(place, row).is_err() {
                unreachable!()
            }
        }
    }
}

/// Takes out the row of the key, if there is one.
pub(crate) fn remove(rows: &mut Vec<(u64, Record)>, key: &KeyRef<'_>)
    requires { Ascend rows.old.items }
    ensures rows { rows.new.items ≡ without_row (owned_key key.now) rows.old.items }
    ensures fewer { length rows.new.items ≤ length rows.old.items }
    ensures capacity { vec_capacity rows.new ≡ vec_capacity rows.old }
{
    if let Ok(place) = place(rows, key) {
        rows.remove(place);
    }
}
