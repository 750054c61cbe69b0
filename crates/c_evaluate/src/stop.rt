// Why a step answers nothing.
use c_meaning::End;
use kit_base::Failure;

/// Why a part of a step gives nothing: memory ran out, or the run is over there.
pub(crate) type Stop = Failure<End>;
