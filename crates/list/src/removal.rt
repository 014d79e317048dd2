// Removal from a place on, which moves what stands behind down, and one element put for another.
ghost use Rattle.std.specs.Prelude.{◌≡◌, ◌+◌, ◌-◌, ◌≤◌, ◌++◌, length, take, drop, slice_set};
ghost use Rattle.list.specs.Held.{held, free, capacity};

use crate::List;

impl<'a, T: Copy> List<'a, T> {
    /// Takes `count` elements out from a place on, or as many as stand there, and brings those behind them down.
    pub fn remove(&mut self, at: usize, count: usize)
        ensures without_them { held self.new ≡ take at (held self.old) ++ drop (at + count) (held self.old) }
        ensures free_behind { free self.new ≡ take count (drop at (held self.old)) ++ free self.old }
        ensures counted { self.new.len ≡ length (held self.new) }
        ensures same_capacity { capacity self.new ≡ capacity self.old }
        ensures same_memory { self.new.items.ghost_name ≡ self.old.items.ghost_name }
    {
        let end = self.len;
        let at = at.min(end);
        let count = count.min(end - at);
        take_out(self.items, at, count, end);
        self.len = end - count;
    }

    /// Another element at a place; nothing where none is held there.
    pub fn replace(&mut self, at: usize, x: T)
        ensures that_place { held self.new ≡ slice_set (held self.old) at x }
        ensures others_as_before { free self.new ≡ free self.old }
        ensures counted { self.new.len ≡ self.old.len }
        ensures same_capacity { capacity self.new ≡ capacity self.old }
        ensures same_memory { self.new.items.ghost_name ≡ self.old.items.ghost_name }
    {
        if at < self.len {
            self.items[at] = x;
        }
    }
}

// Brings the elements down that stand behind `count` elements at a place, and those behind them; `end` are held.
fn take_out<T: Copy>(items: &mut [T], at: usize, count: usize, end: usize)
    requires { (at + count ≤ end) × (end ≤ length items.old) }
    ensures held_without { take (end - count) items.new ≡ take at (take end items.old) ++ drop (at + count) (take end items.old) }
    ensures free_behind { drop (end - count) items.new ≡ take count (drop at (take end items.old)) ++ drop end items.old }
{
    items[at..end].rotate_left(count);
}
