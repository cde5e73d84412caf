// A row of records in the caller's storage, of which the first `count` slots are in use: generic over
// the kind of record. The row and its count are parameters, since the caller keeps them apart and
// lends the row anew to each call.
#![tactic(auto)]

ghost use Rattle.std.specs.Prelude.{◌≡◌};
ghost use Rattle.rows.specs.Rows.{put_in, take_out};

// Puts `item` in at `place`; what stood there and after it moves one slot on, and every slot past
// the new count keeps its content. Where the row is full or the place lies above the count,
// nothing changes.
pub fn put_in<T: Copy>(row: &mut [T], count: usize, place: usize, item: T)
    ensures { row.new ≡ put_in row.old count place item }
{
    if place <= count && count < row.len() {
        row[count] = item;
        row[place..count + 1].rotate_right(1);
    }
}

// Takes out what stands at `place`; what stood after it moves one slot back, and every slot at or
// past the new count keeps its content. Where the place is not below the count, or the count is
// above the row's length, nothing changes.
pub fn take_out<T: Copy>(row: &mut [T], count: usize, place: usize)
    ensures { row.new ≡ take_out row.old count place }
{
    if place < count && count <= row.len() {
        let last = row[count - 1];
        row[place..count].rotate_left(1);
        row[count - 1] = last;
    }
}
