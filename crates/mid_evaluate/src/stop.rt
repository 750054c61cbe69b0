// Why a part of a run goes no further.
use crate::answer::Ending;
use kit_base::Failure;

/// Why a part of a run goes no further: memory ran out, or the run has ended.
pub(crate) type Stop = Failure<Ending>;
