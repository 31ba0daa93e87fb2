// Where a stretch of pages ends.
ghost use Rattle.std.specs.Prelude.{◌≡◌, ◌-◌, ◌<◌, length};
ghost use Rattle.reach.specs.Reach.{first_such, stored_top};

// The first page from `from` on whose stored separator is `top`, or the last page.
pub fn stretch_end(separators: &[u8], top: u8, from: usize) -> usize
    requires { from < length separators.now }
    ensures { result ≡ first_such (stored_top separators.now top) from (length separators.now - 1 - from) }
{
    let last = separators.len() - 1;
    for page in from..last {
        if separators[page] == top {
            return page;
        }
    }
    last
}
