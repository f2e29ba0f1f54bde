ghost use Rattle.std.specs.Prelude.{◌≡◌};
ghost use Rattle.job_rules.specs.JobRefusals.{job_refusal};
ghost use Rattle.job_rules.specs.declared.faults.JobFault.TheVariants.{Packing, RingSwitch};

use refusals::faults::{BitPackingError, BitRingSwitchError};

// Why a job refuses a call.
#[derive(Clone, Copy, Debug, PartialEq, Eq)]
pub enum JobFault {
    // The job's stage does not allow the call.
    OutOfStage,
    Packing(BitPackingError),
    // The log of how many cells the bytes have is above the capacity, told as 0 where there is none.
    OverCapacity { needed: usize, capacity: usize },
    // The point has more coordinates than the capacity.
    PointOverCapacity { n: usize, capacity: usize },
    RingSwitch(BitRingSwitchError),
}

impl JobFault {
    // The number that stands for the fault where it is reported. A method, as that of each kind.
    pub fn number(self) -> u8
        ensures { result ≡ (job_refusal self).number }
    {
        match self {
            JobFault::OutOfStage => 7,
            JobFault::Packing(fault) => fault.number(),
            JobFault::OverCapacity { .. } => 12,
            JobFault::PointOverCapacity { .. } => 15,
            JobFault::RingSwitch(fault) => fault.number(),
        }
    }
}

impl From<BitPackingError> for JobFault {
    ghost from_gives = { λ error r. r ≡ Packing error };

    fn from(error: BitPackingError) -> JobFault {
        JobFault::Packing(error)
    }
}

impl From<BitRingSwitchError> for JobFault {
    ghost from_gives = { λ error r. r ≡ RingSwitch error };

    fn from(error: BitRingSwitchError) -> JobFault {
        JobFault::RingSwitch(error)
    }
}
