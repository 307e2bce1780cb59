//! Commits.

ghost use Rattle.std.specs.Prelude.{◌≡◌, ◌==◌, ◌||◌, IsTrue, ◌↔◌};
ghost use Rattle.lu_spec_laws.specs.Words.Pasts.{Past};
ghost use Rattle.lu_spec_laws.specs.Laws.Recovery.{stands, CommitAt};
ghost use Rattle.lu_judge_windows.specs.Windows.{ShowsWindows};

use lu_base::Txn;
use lu_judge_windows::Windows;

/// Whether the number is 0 or that of a transaction of the target that stands.
fn may_stand(windows: &Windows<'_>, target: u16, number: Txn) -> bool
    ensures stands { (past : Past) → ShowsWindows windows.now past
        → result ≡ (number.0 == 0 || stands target past number.0) }
{
    number.0 == 0 || windows.stands(target, number.0)
}

/// Whether the target may commit up to this number, next: it is 0 or stands, and isn't below the last one.
pub fn allows_commit(windows: &Windows<'_>, target: u16, number: Txn) -> bool
    ensures decided { (past : Past) → ShowsWindows windows.now past
        → IsTrue result ↔ CommitAt target past number.0 }
{
    if !may_stand(windows, target, number) {
        return false;
    }
    windows.committed(target) <= number.0
}
