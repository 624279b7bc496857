// A total read of a lent column.
#![tactic(auto)]

ghost use Rattle.std.specs.Prelude.{◌≡◌, get_or};

// The element at an index; past the end the value given for it.
pub fn at<T: Copy>(column: &[T], i: usize, past: T) -> T
    ensures { result ≡ get_or column.now i past }
{
    column.get(i).copied().unwrap_or(past)
}
