// Room for one element more in a slice.
ghost use Rattle.std.specs.Prelude.{◌≡◌, ◌-◌, ◌<◌, length, take};
ghost use Rattle.std.specs.List.{insert};

// Moves the elements from `i` on up by one, over the last, and puts `s` at `i`.
pub fn open_at<T: Copy>(part: &mut [T], i: usize, s: T)
    requires { i < length part.old }
    ensures { part.new ≡ insert (take (length part.old - 1) part.old) i s }
{
    let last = part.len() - 1;
    part.copy_within(i..last, i + 1);
    part[i] = s;
}
