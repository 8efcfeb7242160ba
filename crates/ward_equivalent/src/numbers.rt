// The buses of a Ward study by number: their rows, and the refusals 7 and 8.
ghost use Rattle.std.specs.Prelude.{◌≡◌, ◌++◌, ◌+◌, ◌≤◌, length, drop};
ghost use Rattle.lists.specs.Buses as buses;
ghost use Rattle.refusals.specs.Refusals.{outcome};
ghost use Rattle.ward_equivalent.specs.Numbers as ward;

use lists::checks::{all_below, repeats};
use lists::numbers;
use refusals::Refusal;

// The rows of the external, the internal and the boundary buses one after the other, at the front of a longer list; the rest of it stays.
fn join_rows(ns: &[u32], internal: &[u32], external: &[u32], boundary: &[u32], rows: &mut [usize])
    requires { length external.now + (length internal.now + length boundary.now) ≤ length rows.old }
    ensures { rows.new ≡ (buses.rows_in ns.now external.now ++
        (buses.rows_in ns.now internal.now ++ buses.rows_in ns.now boundary.now))
        ++ drop (length external.now + (length internal.now + length boundary.now)) rows.old }
{
    let e = external.len();
    let i = e + internal.len();
    let b = i + boundary.len();
    numbers::rows_of(ns, external, &mut rows[0..e]);
    numbers::rows_of(ns, internal, &mut rows[e..i]);
    numbers::rows_of(ns, boundary, &mut rows[i..b]);
}

// The same. Refused with 7 where a bus is outside the numbers, with 8 where a number or a bus stands twice.
pub fn placed(
    ns: &[u32],
    internal: &[u32],
    external: &[u32],
    boundary: &[u32],
    rows: &mut [usize],
) -> Result<(), Refusal>
    requires { length external.now + (length internal.now + length boundary.now) ≤ length rows.old }
    ensures { (rows.new ≡ (buses.rows_in ns.now external.now ++
        (buses.rows_in ns.now internal.now ++ buses.rows_in ns.now boundary.now))
        ++ drop (length external.now + (length internal.now + length boundary.now)) rows.old)
        × (result ≡ outcome (ward.bus_refusal ns.now (external.now ++ (internal.now ++ boundary.now)))) }
{
    join_rows(ns, internal, external, boundary, rows);
    let k = external.len() + (internal.len() + boundary.len());
    if !all_below(ns.len(), &rows[0..k]) {
        return Err(Refusal::NoSuchBus);
    }
    if repeats(ns) || repeats(&rows[0..k]) {
        return Err(Refusal::BusTwice);
    }
    Ok(())
}
