// Whether the rows of a range fit: a loop over the rows of a set, and a recursion for the rows beneath each.
ghost use Rattle.std.specs.Prelude.{◌≡◌, ℕ, ◌<◌, ◌≤◌, min, false, map, length, IfErr, ◌==◌};
ghost use Rattle.refusal.specs.Firsts.{verdict_of};
ghost use Rattle.layout.specs.Places.{own_fault, first_misfit};

use crate::row::{Misfit, Row, RowFault, RowView};

// Whether a row fits at place k in a set that ends at `end`, where so many levels are left.
fn check_row(view: RowView, k: usize, end: usize, room: u32) -> Result<(), RowFault>
    requires { k < end }
    ensures { result ≡ verdict_of (own_fault view k end (room == 0)) }
{
    if view.unnamed {
        return Err(RowFault::NameMissing);
    }
    let next = view.end as usize;
    if view.broken || next <= k || next > end {
        return Err(RowFault::Broken);
    }
    if view.leaf && next != k + 1 {
        return Err(RowFault::Broken);
    }
    if room == 0 {
        return Err(RowFault::TooDeep);
    }
    Ok(())
}

// Kept, a loop by hand: the next row of a set stands at the end of the row before it, where no iterator goes. Beneath the
// last row of a set, the loop goes on one level lower, so that a chain costs no call for each of its rows.
fn check_set<R: Row>(rows: &[R], start: usize, end: usize, room: u32) -> Result<(), Misfit>
    requires within { end ≤ length rows.now }
    requires ordered { start ≤ end }
    ensures { result ≡ verdict_of (first_misfit (map R.Row.seen rows.now) start end room) }
{
    let mut i = start;
    let mut left = room;
    while i < end {
        let view = rows[i].view();
        check_row(view, i, end, left).map_err(|fault| Misfit { fault, row: i + 1 })?;
        let next = view.end as usize;
        if next == end {
            left -= 1;
            i += 1;
        } else {
            // A row with none beneath it costs no call.
            if next > i + 1 {
                check_set(rows, i + 1, next, left - 1)?;
            }
            i = next;
        }
    }
    Ok(())
}

/// Whether the rows from `start` up to `end` fit into a forest at most `room` deep; else the first that does not. A
/// range that reaches past the rows ends with them.
pub fn check_range<R: Row>(rows: &[R], start: usize, end: usize, room: u32) -> Result<(), Misfit>
    ensures inside { IfErr result (λ m. m.row ≤ length rows.now) }
    ensures first { result ≡ verdict_of (first_misfit (map R.Row.seen rows.now) (min start (min end (length rows.now))) (min end (length rows.now)) room) }
{
    let end = end.min(rows.len());
    check_set(rows, start.min(end), end, room)
}
