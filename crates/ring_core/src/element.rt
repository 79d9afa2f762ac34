// Lists by place, with nothing beyond their ends.
ghost use Rattle.std.specs.Prelude.{◌≡◌, slice_set};
ghost use Rattle.ring_core.specs.Found.{IsFound};

/// What stands at this place, or none where the list ends before it.
pub fn found<T: Copy>(list: &[T], at: usize) -> Option<T>
    ensures { IsFound list.now at result }
{
    if at < list.len() {
        Some(list[at])
    } else {
        None
    }
}

/// Puts the value at this place, where there is one.
pub fn put<T: Drop>(list: &mut Vec<T>, at: usize, new: T)
    ensures { list.new.items ≡ slice_set list.old.items at new }
{
    if at < list.len() {
        list[at] = new;
    }
}
