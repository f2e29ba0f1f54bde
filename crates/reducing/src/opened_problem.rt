ghost use Rattle.std.specs.Prelude.{◌≡◌, map};

use level::level::Level;
use opening::bit_ring_switch::BitRingSwitch;
use problem::problem::Problem;
use reduction::layout::Layout;
use reduction::opened::Opened;

// A problem whose opening was put into a stretch of elements: the opening at its point, and its numbers in the stretch.
#[derive(Drop)]
pub struct OpenedProblem<'a, L: Level> {
    pub problem: &'a Problem<L>,
    pub reduction: BitRingSwitch<'a, L>,
    pub layout: Layout<L>,
    pub opened: Opened,
    pub ghost point: { map L.means reduction.point.now ≡ map L.means problem.now.point.items },
    pub ghost view: { reduction.view ≡ problem.now.view },
}
