// A slice of numbers cleared.
ghost use Rattle.std.specs.Prelude.{◌≡◌, length};
ghost use Rattle.complex.specs.Matrices.{zeros};

// All +0.
pub fn clear(s: &mut [f64])
    ensures { s.new ≡ zeros (length s.old) }
{
    s.fill(0.0);
}
