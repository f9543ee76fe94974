// What the calls answer and write, as their contracts cite it: definitions in specs/, their laws in proofs/. No code.
#![tactic(auto)]
