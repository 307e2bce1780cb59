//! The run of a scenario, as one who performs it makes it: what a turn makes of the nodes of a run, of its disks and of its
//! printed lines, over the definitions of a run (`lu_spec_run`); and the steps (`specs/Steps`), said of all disks of which no call
//! so far fails, since whoever performs a scenario doesn't know which will fail. Definitions and proofs alone.
#![tactic(auto)]
