//! Lists that change in place: a part is replaced, and what comes after it is moved. No memory is
//! asked for.

ghost use Rattle.std.specs.Prelude.{◌≡◌, ℕ, ◌+◌, ◌-◌, ◌^◌, ◌<◌, ◌≤◌, ◌++◌, All, length, take, drop, map, slice_index, vec_len, vec_capacity};
ghost use Rattle.snl_lists.specs.Moves.{moved, replaced, replaced_and_moved};

// Puts other items in the place of as many.
fn overwrite<T: Copy + Drop>(list: &mut Vec<T>, start: usize, made: &[T])
    requires { start + length made.now ≤ vec_len list.old }
    ensures items { list.new.items ≡ replaced list.old.items start (start + length made.now) made.now }
    ensures len { vec_len list.new ≡ vec_len list.old }
    ensures capacity { vec_capacity list.new ≡ vec_capacity list.old }
{
    list[start..start + made.len()].copy_from_slice(made);
}

// Puts these items between others. There is room for them.
fn insert<T: Copy + Drop>(list: &mut Vec<T>, at: usize, made: &[T])
    requires within { at ≤ vec_len list.old }
    requires room { vec_len list.old + length made.now ≤ vec_capacity list.old }
    ensures items { list.new.items ≡ replaced list.old.items at at made.now }
    ensures capacity { vec_capacity list.old ≤ vec_capacity list.new }
{
    list.extend_from_slice(made).unwrap();
    list[at..].rotate_right(made.len());
}

// Takes the items from `start` up to `stop` away.
fn remove<T: Copy + Drop>(list: &mut Vec<T>, start: usize, stop: usize)
    requires range { start ≤ stop }
    requires within { stop ≤ vec_len list.old }
    ensures items { list.new.items ≡ take start list.old.items ++ drop stop list.old.items }
    ensures capacity { vec_capacity list.new ≡ vec_capacity list.old }
{
    let len = list.len();
    list[start..].rotate_left(stop - start);
    list.truncate(len - (stop - start));
}

/// Puts other items in the place of those from `start` up to `stop`. There is room for them. What
/// comes after moves once.
pub fn replace<T: Copy + Drop>(list: &mut Vec<T>, start: usize, stop: usize, made: &[T])
    requires range { start ≤ stop }
    requires within { stop ≤ vec_len list.old }
    requires room { vec_len list.old + length made.now ≤ vec_capacity list.old }
    ensures { list.new.items ≡ replaced list.old.items start stop made.now }
{
    let shared = made.len().min(stop - start);
    overwrite(list, start, &made[..shared]);
    if shared < made.len() {
        insert(list, stop, &made[shared..]);
    } else {
        remove(list, start + shared, stop);
    }
}

// Moves places, as the bytes from `old_stop` on are moved to `new_stop`.
fn shift_all(places: &mut [u32], old_stop: u32, new_stop: u32)
    requires after { (i : ℕ) → i < length places.old → old_stop ≤ slice_index places.old i }
    requires fits { (i : ℕ) → i < length places.old → (slice_index places.old i - old_stop) + new_stop < 2 ^ 32 }
    ensures { places.new ≡ moved old_stop new_stop places.old }
{
    for place in places {
        *place = *place - old_stop + new_stop;
    }
}

/// Moves the places from one number on, as the bytes from `old_stop` on are moved to `new_stop`.
pub fn shift(places: &mut Vec<u32>, from: usize, old_stop: u32, new_stop: u32)
    requires from { from ≤ vec_len places.old }
    requires after { (i : ℕ) → i < length (drop from places.old.items) → old_stop ≤ slice_index (drop from places.old.items) i }
    requires fits { (i : ℕ) → i < length (drop from places.old.items) → (slice_index (drop from places.old.items) i - old_stop) + new_stop < 2 ^ 32 }
    ensures { places.new.items ≡ take from places.old.items ++ moved old_stop new_stop (drop from places.old.items) }
{
    shift_all(&mut places[from..], old_stop, new_stop);
}

/// Puts other places in the place of those from `start` up to `stop`, and moves those after, as the
/// bytes from `old_stop` on are moved to `new_stop`. There is room for them.
pub fn replace_and_shift(
    places: &mut Vec<u32>,
    start: usize,
    stop: usize,
    made: &[u32],
    old_stop: u32,
    new_stop: u32,
)
    requires range { start ≤ stop }
    requires within { stop ≤ vec_len places.old }
    requires room { vec_len places.old + length made.now ≤ vec_capacity places.old }
    requires after { (i : ℕ) → i < length (drop stop places.old.items) → old_stop ≤ slice_index (drop stop places.old.items) i }
    requires fits { (i : ℕ) → i < length (drop stop places.old.items) → (slice_index (drop stop places.old.items) i - old_stop) + new_stop < 2 ^ 32 }
    ensures { places.new.items ≡ replaced_and_moved places.old.items start stop made.now old_stop new_stop }
{
    replace(places, start, stop, made);
    shift(places, start + made.len(), old_stop, new_stop);
}
