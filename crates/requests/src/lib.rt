// The requests of document 02, said of what the calls answer and write: for each a file of statements in specs/ and one
// of proofs in proofs/. No code, and no code stands on it.
#![tactic(auto)]
