// Tests in order, of which the first that fails decides: the definition that the refusals of every layer rest on. This
// crate has definitions and proofs only, in specs/ and proofs/.
#![tactic(auto)]
