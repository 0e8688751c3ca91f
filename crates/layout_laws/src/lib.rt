// What layouts mean, and why the three layouts keep their laws: definitions and proofs, no program code.
#![tactic(auto)]
