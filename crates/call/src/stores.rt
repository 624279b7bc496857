// Columns that are written entry by entry.
ghost use Rattle.std.specs.Prelude.{ℕ, ◌<◌, ◌-◌, min, ◌≡◌, map, length, get_or, replicate, All};
ghost use Rattle.std.proofs.lemmas.List.Edits.{sets};

// ---- from end to end

// Each entry by its index.
pub(crate) fn fill_each<T: Copy, F: Fn(usize) -> T>(column: &mut [T], entry: F)
    requires { (i : ℕ) → i < length column.old → F.pre entry i }
    ensures { (f : ℕ → T) → ((i : ℕ) (x : T) → i < length column.old → F.post entry i x → x ≡ f i)
        → (i : ℕ) (d : T) → i < length column.old → get_or column.new i d ≡ f i }
{
    for i in 0..column.len() {
        column[i] = entry(i);
    }
}

// ---- from place n on; past the end nothing is written

// How many of some entries there is space for.
pub(crate) fn space_for(count: usize, n: usize, len: usize) -> usize
    ensures { result ≡ min count (len - n) }
{
    if len <= n {
        return 0;
    }
    if count < len - n { count } else { len - n }
}

// A value for each item.
pub(crate) fn put_each<T: Copy, F: Fn(T) -> u32>(
    items: &[T],
    n: usize,
    column: &mut [u32],
    value: F,
)
    requires { All (λ x. F.pre value x) items.now }
    ensures { (f : T → ℕ) → All (λ x. (r : ℕ) → F.post value x r → r ≡ f x) items.now
        → column.new ≡ sets column.old n (map f items.now) }
{
    let end = space_for(items.len(), n, column.len());
    for k in 0..end {
        column[n + k] = value(items[k]);
    }
}

// One value so many times.
pub(crate) fn put_same(value: u32, count: usize, n: usize, column: &mut [u32])
    ensures { column.new ≡ sets column.old n (replicate count value) }
{
    let end = space_for(count, n, column.len());
    for k in 0..end {
        column[n + k] = value;
    }
}
