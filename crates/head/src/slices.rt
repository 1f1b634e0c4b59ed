// Writing into slices: what the library's slices have no method for.
ghost use Rattle.std.specs.Prelude.{◌≡◌, ◌≤◌, length, slice_set};
ghost use Rattle.camera.specs.Registers.{over};

// Exchanges the item at a place, and nothing past the end.
pub(crate) fn put<T: Copy>(items: &mut [T], place: usize, item: T)
    ensures after { items.new ≡ slice_set items.old place item }
{
    // `get_mut` was tried: it promises nothing of what the slice holds afterwards.
    if place < items.len() {
        items[place] = item;
    }
}

// Lays words over the front of others.
pub(crate) fn lay(target: &mut [u16], words: &[u16])
    requires { length words.now ≤ length target.old }
    ensures after { target.new ≡ over words.now target.old }
{
    target[..words.len()].copy_from_slice(words);
}
