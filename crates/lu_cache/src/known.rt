//! What a call is told from what is known.

use lu_base::Cookies;
use lu_msg::Answer;

/// An answer that is known, and the locks under which it is.
#[derive(Debug, PartialEq, Eq, Drop)]
pub struct Known {
    /// What the metadata target would answer.
    pub answer: Answer,
    /// The cookies of these locks, of the metadata target, rising and each once.
    pub locks: Cookies,
}
