// Inner functions of the equivalents: counts against the limit, and lists of buses. Callers of the library have no use for them.
ghost use Rattle.std.specs.Prelude.{◌≡◌};
ghost use Rattle.std.specs.List.{list_all};
ghost use Rattle.lists.specs.Buses as buses;
ghost use Rattle.lists.specs.Limits as limits;

use refusals::LIMIT;

// Whether one of the counts is above the limit.
pub fn over(n: usize, a: usize, b: usize, c: usize) -> bool
    ensures { result ≡ limits.over n a b c }
{
    n > LIMIT || a > LIMIT || b > LIMIT || c > LIMIT
}

// Whether every bus of the list is below n.
pub fn all_below(n: usize, list: &[usize]) -> bool
    ensures { result ≡ buses.all_below n list.now }
{
    list.iter().all(|bus| *bus < n)
}

// Whether a bus, told by its row or its number, stands twice in the list.
pub fn repeats<T: PartialEq>(list: &[T]) -> bool
    ensures { result ≡ buses.repeats_by T.eq list.now }
{
    for (i, bus) in list.iter().enumerate() {
        if list[i + 1..].contains(bus) {
            return true;
        }
    }
    false
}

// Whether every place holds this value. The whole list is looked through, without an early end, so that the loop runs on several at once.
pub fn all_are<T: PartialEq + Copy>(places: &[T], value: T) -> bool
    ensures { result ≡ list_all (λ place. T.eq place value) places.now }
{
    let mut all = true;
    for place in places {
        all &= *place == value;
    }
    all
}
