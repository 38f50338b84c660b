// The theorem, in proofs/Demands.antt: all promises of crates/promises hold, and every call takes every input and ends. It takes from each function its
// proof that it does. No code.
#![tactic(auto)]
