ghost use Rattle.std.specs.Prelude.{◌≡◌, IfOk};
ghost use Rattle.refusals.specs.Refusals.{refused};
ghost use Rattle.job_rules.specs.JobRefusals.{job_refusal, out_of_stage};
ghost use Rattle.job_rules.specs.Requests.{request};
ghost use Rattle.job_rules.specs.Stages.{stage_after};

use crate::call::Call;
use crate::faults::JobFault;
use level::level::Level;

// How far a job has come.
#[derive(Clone, Copy, Debug, PartialEq, Eq)]
pub enum Stage {
    Bare,
    Packed,
    Opened,
    Worked,
    Batched,
}

impl Stage {
    // The stage after a call, where this one allows it: that to which a step leads, and this one after a question.
    pub fn admit<L: Level>(self, call: &Call<'_, L>) -> Result<Stage, JobFault>
        ensures refusal { refused job_refusal result ≡ out_of_stage self (request L.means call.now) }
        ensures stage { IfOk result (λ s. s ≡ stage_after self (request L.means call.now)) }
    {
        match (self, call) {
            (_, Call::Pack(_)) => Ok(Stage::Packed),
            (Stage::Bare, _) => Err(JobFault::OutOfStage),
            (_, Call::Open(_) | Call::OpenWithSuccessor(_, _)) => Ok(Stage::Opened),
            (Stage::Packed, _) => Err(JobFault::OutOfStage),
            (_, Call::Work) => Ok(Stage::Worked),
            (Stage::Opened, _) => Err(JobFault::OutOfStage),
            (_, Call::Batch(_) | Call::BatchWithSuccessor(_, _)) => Ok(Stage::Batched),
            (_, Call::IncomingClaim | Call::SuccessorClaim) => Ok(self),
            (Stage::Worked, _) => Err(JobFault::OutOfStage),
            (
                Stage::Batched,
                Call::InitialSum | Call::WeightCount | Call::Weight(_) | Call::ClosingValue(_),
            ) => Ok(self),
        }
    }
}

#[cfg(test)]
mod tests {
    use super::*;
    use doubling::bit::Bit;
    use doubling::doubling::Doubling;

    // The level of log width 3 over the bit.
    type Eight = Doubling<Doubling<Doubling<Bit>>>;

    #[test]
    fn work_waits_for_an_opening(rt: HostRuntime) {
        assert_eq!(rt;
            Stage::Packed.admit::<Eight>(&Call::Work),
            Err(JobFault::OutOfStage)
        );
        assert_eq!(rt;
            Stage::Batched.admit::<Eight>(&Call::Work),
            Ok(Stage::Worked)
        );
    }
}
