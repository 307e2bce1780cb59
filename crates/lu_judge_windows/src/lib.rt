//! What the lines so far say of boots, commits and recovery windows: which lives are back, what they learned, and which
//! transactions a close loses; and the locks that targets gave and that lives hold.
#![tactic(auto)]

mod counted;
mod fates;
mod given;
mod handed;
mod held;
mod holdings;
mod joins;
mod learned;
mod lists;
mod losses;
mod marks;
mod offers;
mod slices;
mod transactions;
mod wholes;
mod windows;

pub use held::HeldLocks;
pub use wholes::{Lost, lost_in};
pub use windows::Windows;
