// What the two ends do together: a law of the line, with nothing to run.
ghost use Rattle.link.specs.Ends.{AccessesCross};

// Over the line an access is what it is on the bus below.
pub fn accesses_cross()
    ensures stands { AccessesCross }
{}
