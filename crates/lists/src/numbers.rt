// The numbers that buses have on a drawing, one for each row, looked up.
ghost use Rattle.std.specs.Prelude.{◌≡◌, length};
ghost use Rattle.lists.specs.Buses as buses;

// The row of the bus with this number, or nothing.
pub fn find(numbers: &[u32], bus: u32) -> Option<usize>
    ensures { result ≡ buses.found_in bus numbers.now }
{
    numbers.iter().position(|number| *number == bus)
}

// The row of the bus with this number, or the count of rows where none has it.
fn row_of(numbers: &[u32], bus: u32) -> usize
    ensures { result ≡ buses.place bus numbers.now }
{
    find(numbers, bus).unwrap_or(numbers.len())
}

// The rows of the listed buses, in the list's order.
pub fn rows_of(numbers: &[u32], list: &[u32], rows: &mut [usize])
    requires { length list.now ≡ length rows.old }
    ensures { rows.new ≡ buses.rows_in numbers.now list.now }
{
    for (i, bus) in list.iter().enumerate() {
        rows[i] = row_of(numbers, *bus);
    }
}
