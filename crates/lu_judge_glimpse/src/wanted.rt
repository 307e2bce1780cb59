//! Sizes that are told and must be those of objects at the end of the turn.

ghost use Rattle.std.specs.Prelude.{◌≡◌, ℕ, ◌++◌, OnOk, IsSome};
ghost use Rattle.lu_spec_laws.specs.Words.Pasts.{Past};
ghost use Rattle.lu_spec_laws.specs.Words.Glimpses.{machine_cut};
ghost use Rattle.lu_judge_glimpse.specs.Sightings.{since_in};
ghost use Rattle.lu_judge_glimpse.specs.Histories.{ShowsHistory};
ghost use Rattle.lu_judge_glimpse.specs.Wanted.{wanted_of, meets, lesser, IsLeast};

use crate::{History, Sightings};
use lu_base::{Fid, Memory};

/// A size that was told, and wasn't seen before since the call began.
#[derive(Clone, Copy, Debug)]
pub(crate) struct Wanted {
    /// The place of the line, from 0, that told it.
    pub(crate) place: usize,
    pub(crate) file: Option<Fid>,
    pub(crate) stripe: usize,
    pub(crate) size: u64,
}

/// Of sizes that a line tells for the stripes of a file, those that weren't seen since the call began, after what was
/// wanted already.
pub(crate) fn want(
    wanted: &mut Vec<Wanted>,
    sightings: &Sightings,
    file: Option<Fid>,
    begun: usize,
    place: usize,
    sizes: &[u64],
) -> Result<(), Memory>
    ensures wanted { OnOk result (wanted.new.items ≡ wanted.old.items
        ++ wanted_of (λ stripe size. since_in sightings.now file stripe size begun) place file 0 sizes.now) }
{
    let mut stripe = 0;
    while stripe < sizes.len() {
        let size = sizes[stripe];
        if !sightings.since(file, stripe, size, begun) {
            wanted.push(Wanted {
                place,
                file,
                stripe,
                size,
            })?;
        }
        stripe += 1;
    }
    Ok(())
}

/// Whether the object has the size that is wanted; no file has none.
fn is_met(history: &History, wanted: &Wanted) -> bool
    requires built { IsSome history.now.machine }
    ensures met { (past : Past) → ShowsHistory history.now past
        → result ≡ meets (machine_cut history.now.osts past) wanted.now }
{
    match wanted.file {
        Some(fid) => history.size(fid, wanted.stripe) == wanted.size,
        None => false,
    }
}

/// The lesser place.
fn lesser(first: Option<usize>, place: usize) -> Option<usize>
    ensures { result ≡ lesser first place }
{
    match first {
        Some(other) if other <= place => Some(other),
        _ => Some(place),
    }
}

/// The place of the first line that told a size which no object has now.
pub(crate) fn first_unmet(history: &History, wanted: &[Wanted]) -> Option<usize>
    requires built { IsSome history.now.machine }
    ensures first { (past : Past) → ShowsHistory history.now past
        → IsLeast (meets (machine_cut history.now.osts past)) wanted.now result }
{
    let mut first = None;
    for one in wanted {
        if !is_met(history, one) {
            first = lesser(first, one.place);
        }
    }
    first
}
