ghost use Rattle.std.specs.Prelude.{◌≡◌};
ghost use Rattle.refusals.specs.Refusals.{packing_refusal, ring_switch_refusal, refusal_of};
ghost use Rattle.refusals.specs.declared.faults.StepRefusal.TheVariants.{Packing, RingSwitch};

// Why bytes are not packed.
#[derive(Clone, Copy, Debug, PartialEq, Eq)]
pub enum BitPackingError {
    // The level has more than 128 coordinates.
    LevelTooWide,
    // The level's elements are narrower than a byte.
    SubByteLevel { bits: usize },
    // The number of cells, told as 2^64 - 1 where it is larger, is no power of two.
    NotAHypercube { cells: u64 },
    // The bytes do not fill one element.
    TooShort { needed: usize, actual: usize },
}

// Why a reduction is not set up, or a step of it not taken.
#[derive(Clone, Copy, Debug, PartialEq, Eq)]
pub enum BitRingSwitchError {
    // The view names more row variables than the point has coordinates.
    RowVariables {
        row_variables: usize,
        num_variables: usize,
    },
    // The point has fewer coordinates than one packed element absorbs.
    PointTooNarrow {
        needed: usize,
        actual: usize,
    },
    // The packing is over another number of variables than the reduction.
    WidthMismatch {
        expected: usize,
        actual: usize,
    },
    // A challenge is missing, or was given where no successor tensors are sent. The value told is whether they are sent.
    SuccessorBatching {
        expected: bool,
    },
    // The batching point has another number of coordinates than one packed element absorbs.
    BatchWidthMismatch {
        expected: usize,
        actual: usize,
    },
    // A successor claim was asked for without a view.
    NoSuccessorView,
    // There is no weight of this index.
    WeightIndex {
        count: usize,
        index: usize,
    },
    // The closing point has another number of coordinates than the slot.
    ClosingWidth {
        expected: usize,
        actual: usize,
    },
}

// Why a step is refused, whichever step it is.
#[derive(Clone, Copy, Debug, PartialEq, Eq)]
pub enum StepRefusal {
    Packing(BitPackingError),
    RingSwitch(BitRingSwitchError),
}

impl BitPackingError {
    // The number that stands for the fault where it is reported: a report tells a refusal by number. A method, since `u8::from` would not say
    // which number.
    pub fn number(self) -> u8
        ensures { result ≡ (packing_refusal self).number }
    {
        match self {
            BitPackingError::LevelTooWide => 8,
            BitPackingError::SubByteLevel { .. } => 9,
            BitPackingError::NotAHypercube { .. } => 10,
            BitPackingError::TooShort { .. } => 11,
        }
    }
}

impl BitRingSwitchError {
    // The number that stands for the fault where it is reported: a report tells a refusal by number. A method, since `u8::from` would not say
    // which number.
    pub fn number(self) -> u8
        ensures { result ≡ (ring_switch_refusal self).number }
    {
        match self {
            BitRingSwitchError::RowVariables { .. } => 13,
            BitRingSwitchError::PointTooNarrow { .. } => 14,
            BitRingSwitchError::WidthMismatch { .. } => 16,
            BitRingSwitchError::SuccessorBatching { .. } => 17,
            BitRingSwitchError::BatchWidthMismatch { .. } => 18,
            BitRingSwitchError::NoSuccessorView => 19,
            BitRingSwitchError::WeightIndex { .. } => 20,
            BitRingSwitchError::ClosingWidth { .. } => 21,
        }
    }
}

impl StepRefusal {
    // The number that stands for the fault, a method as that of each kind.
    pub fn number(self) -> u8
        ensures { result ≡ (refusal_of self).number }
    {
        match self {
            StepRefusal::Packing(fault) => fault.number(),
            StepRefusal::RingSwitch(fault) => fault.number(),
        }
    }
}

impl From<BitPackingError> for StepRefusal {
    ghost from_gives = { λ error r. r ≡ Packing error };

    fn from(error: BitPackingError) -> StepRefusal {
        StepRefusal::Packing(error)
    }
}

impl From<BitRingSwitchError> for StepRefusal {
    ghost from_gives = { λ error r. r ≡ RingSwitch error };

    fn from(error: BitRingSwitchError) -> StepRefusal {
        StepRefusal::RingSwitch(error)
    }
}
