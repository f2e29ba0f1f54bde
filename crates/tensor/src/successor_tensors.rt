use coordinates::per_coordinate::PerCoordinate;
use level::level::Level;

// The tensors that are sent for a successor claim: the carry and the last. Each has a lifetime of its own, since two that are lent apart,
// as parts of one scratch are, fit no struct of one.
#[derive(Clone, Copy)]
pub struct SuccessorTensors<'a, 'b, L: Level> {
    pub carry: PerCoordinate<'a, L>,
    pub last: PerCoordinate<'b, L>,
}
