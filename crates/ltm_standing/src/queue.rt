//! Numbers one behind another, which leave at the front.
ghost use Rattle.std.specs.Prelude.{◌≡◌, ◌≤◌, drop};
ghost use Rattle.std.specs.Prelude.{vec_len};

/// Takes numbers away at the front; those behind move up.
pub(crate) fn take_front<T: Copy + Drop>(numbers: &mut Vec<T>, count: usize)
    requires { count ≤ vec_len numbers.old }
    ensures { numbers.new.items ≡ drop count numbers.old.items }
{
    let left = numbers.len() - count;
    numbers.as_mut_slice().copy_within(count.., 0);
    numbers.truncate(left);
}
