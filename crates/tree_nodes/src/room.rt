//! Lists that are filled within their room.
ghost use Rattle.std.specs.Prelude.{◌≡◌, ◌<◌, ◌≤◌, ◌+◌, [], length, take, drop, vec_len, vec_capacity};
ghost use Rattle.std.specs.List.{insert};

/// Puts a value at that place.
pub fn insert_reserved<T: Drop>(into: &mut Vec<T>, place: usize, value: T)
    requires within { place ≤ vec_len into.old }
    requires room { vec_len into.old < vec_capacity into.old }
    ensures items { into.new.items ≡ insert into.old.items place value }
    ensures len { vec_len into.new ≡ vec_len into.old + 1 }
    ensures room { vec_capacity into.old ≤ vec_capacity into.new }
{
    let _ = into.insert(place, value);
}

/// Moves what stands from that place on to a list that has nothing. What is moved is taken from the end, so nothing else moves.
pub fn move_tail<T>(from: &mut Vec<T>, into: &mut Vec<T>, place: usize)
    requires within { place ≤ length from.old.items }
    requires empty { into.old.items ≡ [] }
    requires room { length from.old.items ≤ vec_capacity into.old + place }
    ensures kept { from.new.items ≡ take place from.old.items }
    ensures moved { into.new.items ≡ drop place from.old.items }
    ensures kept_len { length from.new.items ≡ place }
    ensures moved_len { length into.new.items + place ≡ length from.old.items }
    ensures from_room { vec_capacity from.new ≡ vec_capacity from.old }
    ensures into_room { vec_capacity into.new ≡ vec_capacity into.old }
{
    while from.len() > place {
        into.push_reserved(from.take_last());
    }
    into.reverse();
}
