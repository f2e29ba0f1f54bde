ghost use Rattle.reduction.specs.AnswerLaws.{AnswersStand};

use level::level::Level;

// What the answers of a stretch are where it holds the packed elements of a table of bits and its tensors: both claims are multilinear values of
// the bits, the initial sum is the sum of packed elements times weights over the slot, and the weights are those of the batching point.
pub fn answers_stand<L: Level>()
    ensures { AnswersStand L.Level }
{}
