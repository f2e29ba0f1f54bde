// The numbers of an opening whose point lies in a stretch: how many coordinates the point has, the view, and the prefix that was found, as
// in `BitRingSwitch`.
#[derive(Clone, Copy, Debug, PartialEq, Eq)]
pub struct Opened {
    pub variables: usize,
    pub view: Option<usize>,
    pub prefix: (usize, usize),
}
