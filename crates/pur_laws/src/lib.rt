//! Laws on truth values, lists, options and texts that the standard library lacks and several crates need. No code: what
//! stands in `proofs/` is cited by the proofs of the crates above.
#![tactic(auto)]
