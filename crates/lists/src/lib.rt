// Lists by enumeration: definitions in specs/, laws in proofs/. No code.
#![tactic(auto)]
