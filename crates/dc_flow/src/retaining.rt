// The buses that are retained, by a mark for each bus.
ghost use Rattle.std.specs.Prelude.{◌≡◌, ◌≤◌, length, replicate};
ghost use Rattle.dc_flow.specs.Dc as spec;
ghost use Rattle.dc_flow.specs.Inner.Rows as rows;

// Sets the mark of each listed bus that has one, so that no bus is looked for in the list.
pub fn mark(list: &[usize], marks: &mut [usize])
    requires { marks.old ≡ replicate (length marks.old) 0 }
    ensures { rows.Marked list.now marks.new }
{
    for bus in list {
        if *bus < marks.len() {
            marks[*bus] = 1;
        }
    }
}

// The buses without a mark, at the front of a cleared slice; answers how many there are.
pub fn keep(n: usize, interior: &[usize], marks: &[usize], retained: &mut [usize]) -> usize
    requires { (retained.old ≡ replicate n 0)
        × (n ≤ length marks.now)
        × rows.Marked interior.now marks.now }
    ensures count { result ≡ length (spec.retained_of n interior.now) }
    ensures output { retained.new ≡ spec.retained_slice n interior.now }
{
    let mut count = 0;
    for k in 0..n {
        if marks[k] == 0 {
            retained[count] = k;
            count += 1;
        }
    }
    count
}
