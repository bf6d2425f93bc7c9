//! Columns written: a vector more at the end, or marked vectors taken out.

ghost use Rattle.std.specs.Prelude.{◌≡◌, ◌≤◌, ◌<◌, ◌-◌, ◌++◌, [], length, map, All, replicate, take, count_by, not, vec_len, vec_items, OnOk, OnErr};
ghost use Rattle.dominance_lanes.specs.Columns.{unmarked, HasLength};
ghost use Rattle.dominance_lanes.specs.Groups.{with_row};

use std::alloc::{AllocError, Global};

/// Puts empty columns behind those that are there, up to so many.
pub fn complete(alloc: Global, columns: &mut Vec<Vec<u64>>, width: usize) -> Result<(), AllocError>
    requires { vec_len columns.old ≤ width }
    ensures more { map vec_items columns.new.items ≡ map vec_items columns.old.items ++ replicate (vec_len columns.new - vec_len columns.old) [] }
    ensures bound { vec_len columns.new ≤ width }
    ensures whole { OnOk result (vec_len columns.new ≡ width) }
{
    while columns.len() < width {
        columns.push(Vec::new(alloc))?;
    }
    Ok(())
}

/// Cuts each column down to so many numbers.
fn truncate_each(columns: &mut [Vec<u64>], len: usize)
    ensures { map vec_items columns.new ≡ map (take len) (map vec_items columns.old) }
{
    for column in columns.iter_mut() {
        column.truncate(len);
    }
}

/// Puts each number of a vector behind its column. Where memory is wanted on the way, what was put is taken off again.
pub fn push_row(columns: &mut [Vec<u64>], v: &[u64], len: usize) -> Result<(), AllocError>
    requires width { length v.now ≡ length columns.old }
    requires even { All (HasLength len) (map vec_items columns.old) }
    ensures ok { OnOk result (map vec_items columns.new ≡ with_row (map vec_items columns.old) v.now) }
    ensures err { OnErr result (map vec_items columns.new ≡ map vec_items columns.old) }
{
    for (j, number) in v.iter().enumerate() {
        if columns[j].push(*number).is_err() {
            truncate_each(columns, len);
            return Err(AllocError);
        }
    }
    Ok(())
}

/// Takes the marked numbers out of a column.
fn keep_in(column: &mut Vec<u64>, marks: &[bool])
    requires { length marks.now ≡ vec_len column.old }
    ensures { column.new.items ≡ unmarked marks.now column.old.items }
{
    let mut kept = 0;
    for (k, mark) in marks.iter().enumerate() {
        if !*mark {
            column[kept] = column[k];
            kept += 1;
        }
    }
    column.truncate(kept);
}

/// Takes the marked numbers out of each column.
pub fn keep_each(columns: &mut [Vec<u64>], marks: &[bool])
    requires { All (HasLength (length marks.now)) (map vec_items columns.old) }
    ensures { map vec_items columns.new ≡ map (unmarked marks.now) (map vec_items columns.old) }
{
    for column in columns.iter_mut() {
        keep_in(column, marks);
    }
}

/// How many places aren't marked.
pub fn count_kept(marks: &[bool]) -> usize
    ensures { result ≡ count_by not marks.now }
{
    let mut kept = 0;
    for mark in marks {
        if !*mark {
            kept += 1;
        }
    }
    kept
}
