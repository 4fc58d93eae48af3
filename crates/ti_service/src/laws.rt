//! The law that the promise of `ServiceCalls::dispose` depends on.

/// A word that an environment's seat asked last to be 0 is 0, until the thread ends. So the next environment of a number reads
/// no word of the last one.
#[tactic(auto, using(crate::proofs::Words::cleared_reads_zero))]
pub fn cleared_words_read_zero()
    ensures { ClearedReadsZero }
{}

ghost use Rattle.ti_service.specs.Leaving.{ClearedReadsZero};
