//! What holds of residuals, of the samples restored from them and of the choice. Each function does nothing: its contract
//! is the law, which a proof elsewhere can cite.

ghost use Rattle.flac_predict.specs.Laws.{FixedIsRestored, LinearIsRestored, FixedIsKept, LinearIsKept, FixedCounts, LinearCounts, FixedRestoredCounts, LinearRestoredCounts, FixedIsSmall, LinearIsSmall, BankIsLinear, BestIsCandidate, BestIsLight, ParameterIsBest, CandidateIsBest};

/// Samples are restored from their warm-up and their residuals.
pub fn samples_are_restored()
    ensures fixed { FixedIsRestored }
    ensures linear { LinearIsRestored }
{}

/// The residuals of restored samples are those that they were restored from.
pub fn residuals_are_kept()
    ensures fixed { FixedIsKept }
    ensures linear { LinearIsKept }
{}

/// How many residuals and samples there are.
pub fn counts()
    ensures fixed { FixedCounts }
    ensures linear { LinearCounts }
    ensures fixed_restored { FixedRestoredCounts }
    ensures linear_restored { LinearRestoredCounts }
{}

/// The writer's sets can be written, and its residuals have at most 29 bits.
pub fn residuals_are_small()
    ensures sets { BankIsLinear }
    ensures fixed { FixedIsSmall }
    ensures linear { LinearIsSmall }
{}

/// The choice is a candidate, and takes at most the header's bits more than the samples themselves.
pub fn choice_is_light()
    ensures candidate { BestIsCandidate }
    ensures light { BestIsLight }
{}

/// The parameter and the choice are the first of those that cost least.
pub fn choice_is_first()
    ensures parameter { ParameterIsBest }
    ensures candidate { CandidateIsBest }
{}
