// Laws of calls and call sequences, with nothing to run.
ghost use Rattle.calls.specs.Laws.{LawsOfSequences};
ghost use Rattle.calls.specs.Progress.{EightMeansUnacknowledged, Progress};
ghost use Rattle.calls.specs.ShortLaws.{SplitSequences, StillBusyMeansSpent};

// In every call sequence the camera is never hung and its count is right, a get answers what was last put, and
// neighbouring sets of different attributes may change places.
pub fn laws_of_sequences()
    ensures stands { LawsOfSequences }
{}

// A call sequence is the same run at once or in two parts.
pub fn sequences_split()
    ensures stands { SplitSequences }
{}

// A call that is refused since the camera is still busy has made every status read of its budget, each in vain.
pub fn still_busy_means_spent()
    ensures stands { StillBusyMeansSpent }
{}

// A fault of the bus comes from an access that was not acknowledged.
pub fn eights_are_unacknowledged()
    ensures stands { EightMeansUnacknowledged }
{}

// Where every access is acknowledged, a command with enough budget is answered.
pub fn commands_are_answered()
    ensures stands { Progress }
{}
