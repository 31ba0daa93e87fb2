// A star to be removed: its home, the page that the separators name for it, and its place there.
#[derive(Clone, Copy)]
pub struct HeldStar {
    pub number: u32,
    pub home: u32,
    pub page: usize,
    pub place: u32,
}
