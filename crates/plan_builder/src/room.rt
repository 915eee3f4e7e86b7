//! Lists that grow in room that was reserved before.
ghost use Rattle.std.specs.Prelude.{◌≡◌, ◌+◌, ◌<◌, ◌≤◌, [], ◌∷◌, ◌++◌, replicate, vec_len, vec_capacity};

/// Appends an item where there is room.
pub fn append<T: Drop>(items: &mut Vec<T>, item: T)
    requires { vec_len items.old < vec_capacity items.old }
    ensures items { items.new.items ≡ items.old.items ++ item ∷ [] }
    ensures capacity { vec_capacity items.old ≤ vec_capacity items.new }
{
    match items.push(item) {
        Ok(()) => (),
        Err(_) => unreachable!(),
    }
}

/// Appends so many copies of an item where there is room.
pub fn append_copies<T: Copy>(items: &mut Vec<T>, item: T, count: u32)
    requires { vec_len items.old + count ≤ vec_capacity items.old }
    ensures items { items.new.items ≡ items.old.items ++ replicate count item }
    ensures capacity { vec_capacity items.old ≤ vec_capacity items.new }
{
    for _ in 0..count {
        append(items, item);
    }
}
