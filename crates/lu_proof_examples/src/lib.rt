//! Worked examples, computed: turns of a target and of a client, whole scenarios, and stories of objects. Each claim holds by
//! computing both sides, so a rule that says anything else is refused.
//!
//! These are proofs alone, one for each notion; the program plays its scenarios byte for byte.
#![tactic(auto)]
