// Whether two lent parts of one length are the same.
ghost use Rattle.std.specs.Prelude.{◌≡◌, ◌&&◌, true};
ghost use Rattle.std.specs.List.{fold, zip};

// Every item is compared, with no way out of the loop: so the compiler compares many at once.
pub fn same<T: PartialEq>(one: &[T], other: &[T]) -> bool
    ensures { result ≡ fold (λ same p. same && T.eq p.0 p.1) true (zip one.now other.now) }
{
    one.iter()
        .zip(other)
        .fold(true, |alike, (x, y)| alike & (x == y))
}
