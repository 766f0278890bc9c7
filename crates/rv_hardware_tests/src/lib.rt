//! What the definition of the hardware computes of short programs, and that runs of the definition report just that.
//! All of it stands in `proofs/`.
#![tactic(auto)]
