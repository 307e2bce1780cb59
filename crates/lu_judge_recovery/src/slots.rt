//! The lives with slots at a target.

ghost use Rattle.std.specs.Prelude.{◌≡◌, [], ◌∷◌, ◌++◌, filter, IfOk, OnOk};
ghost use Rattle.lu_spec_laws.specs.Words.Pasts.{Past};
ghost use Rattle.lu_spec_laws.specs.Words.Slots.{has_slot, first_lives, joined_lives, slots};
ghost use Rattle.lu_judge_pass.specs.Ledgers.{ShowsLedger};
ghost use Rattle.lu_judge_windows.specs.Windows.{ShowsWindows};
ghost use Rattle.lu_judge_recovery.specs.Clients.{count_of};

use lu_base::{Lives, Memory, Who};
use lu_judge_pass::Ledger;
use lu_judge_windows::Windows;
use std::alloc::Global;

/// Adds the life where it has a slot.
fn add(
    lives: &mut Lives,
    windows: &Windows<'_>,
    ledger: &Ledger<'_>,
    target: u16,
    who: Who,
) -> Result<(), Memory>
    ensures added { OnOk result ((past : Past) → ShowsLedger ledger.now past → ShowsWindows windows.now past
        → lives.new ≡ lives.old ++ filter (has_slot target past) (who ∷ [])) }
{
    if windows.has_slot(ledger, target, who) {
        return lives.push(who);
    }
    Ok(())
}

/// The client before this one; none before client 0.
fn previous(client: u16) -> Option<u16>
    ensures { count_of result ≡ client }
{
    if client == 0 {
        return None;
    }
    Some(client - 1)
}

/// Adds life 1 of each client up to the greatest one, where it has a slot.
fn add_first(
    lives: &mut Lives,
    windows: &Windows<'_>,
    ledger: &Ledger<'_>,
    target: u16,
    greatest: Option<u16>,
) -> Result<(), Memory>
    ensures added { OnOk result ((past : Past) → ShowsLedger ledger.now past → ShowsWindows windows.now past
        → lives.new ≡ lives.old ++ filter (has_slot target past) (first_lives (count_of greatest))) }
{
    let mut next = greatest;
    while let Some(client) = next {
        add(lives, windows, ledger, target, Who { client, life: 1 })?;
        next = previous(client);
    }
    Ok(())
}

/// Adds the lives that joined, the last one first, where they have slots.
fn add_joined(
    lives: &mut Lives,
    windows: &Windows<'_>,
    ledger: &Ledger<'_>,
    target: u16,
) -> Result<(), Memory>
    ensures added { OnOk result ((past : Past) → ShowsLedger ledger.now past → ShowsWindows windows.now past
        → lives.new ≡ lives.old ++ filter (has_slot target past) (joined_lives target past)) }
{
    let joined = windows.joined_lives(target);
    let mut place = joined.len();
    while place > 0 {
        place -= 1;
        add(lives, windows, ledger, target, joined[place])?;
    }
    Ok(())
}

/// The lives with slots at the target, where this is the trace's greatest client.
pub fn slots(
    alloc: Global,
    windows: &Windows<'_>,
    ledger: &Ledger<'_>,
    target: u16,
    greatest: Option<u16>,
) -> Result<Lives, Memory>
    ensures slots { IfOk result (λ lives. (past : Past) → ShowsLedger ledger.now past → ShowsWindows windows.now past
        → lives ≡ slots (count_of greatest) target past) }
{
    let mut lives = Lives::new(alloc);
    add_first(&mut lives, windows, ledger, target, greatest)?;
    add_joined(&mut lives, windows, ledger, target)?;
    Ok(lives)
}
