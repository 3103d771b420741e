//! Elements of a slice moved by one place.
ghost use Rattle.std.specs.Prelude.{◌≡◌, ◌+◌, ◌-◌, ◌<◌, ◌≤◌, length};
ghost use Rattle.side_store.specs.Shifts.{opened, closed};

/// Puts `item` at `from`, with what stands from there up to `to` moved one place on.
pub fn open<T: Copy>(items: &mut [T], from: usize, to: usize, item: T)
    requires order { from ≤ to }
    requires room { to < length items.old }
    ensures { items.new ≡ opened items.old from to item }
{
    items.copy_within(from..to, from + 1);
    items[from] = item;
}

/// Takes away what stands at `from`, with what stands after it and before `to` moved one place back.
pub fn close<T: Copy>(items: &mut [T], from: usize, to: usize)
    requires order { from < to }
    requires room { to ≤ length items.old }
    ensures { items.new ≡ closed items.old from to }
{
    items.copy_within(from + 1..to, from);
}
