// The demands, said of what the calls answer and write, and the refusal table in words: definitions in specs/,
// theorems in proofs/. No code, and no code stands on it.
#![tactic(auto)]
