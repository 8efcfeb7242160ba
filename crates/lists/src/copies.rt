// Inner functions of the layers above: values copied from slice to slice.
ghost use Rattle.std.specs.Prelude.{◌≡◌, length};

// Copies the values to as many places. By a loop: where this is called the compiler makes std's `copy_from_slice` a call of memmove,
// which the archive for C is not to need.
pub fn copy<T: Copy>(from: &[T], to: &mut [T])
    requires { length to.old ≡ length from.now }
    ensures { to.new ≡ from.now }
{
    for (i, value) in from.iter().enumerate() {
        to[i] = *value;
    }
}
