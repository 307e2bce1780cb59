//! The judge of the law of glimpses, over tables of its own: the plain machine over what stands of a past, when objects were
//! seen with sizes, the locks that targets gave, and where calls began.
#![tactic(auto)]

mod begins;
mod counts;
mod glimpses;
mod histories;
mod items;
mod locks;
mod sightings;
mod tables;
mod wanted;

pub use begins::Begins;
pub use counts::{Counts, counts_in};
pub use glimpses::first_in_glimpse;
pub use histories::History;
pub use items::Item;
pub use locks::Locks;
pub use sightings::Sightings;
