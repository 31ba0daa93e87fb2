// What comes of placing pages anew.

// The page that the call answers; the first unsound page; or a star is carried past the last page. Refusals leave the file as it was.
#[derive(Clone, Copy)]
pub enum Outcome {
    On(usize),
    Unsound(usize),
    Overflows,
}
