//! The lives whose time to give a lock back is over.

ghost use Rattle.std.specs.Prelude.{◌≡◌, [], fold, position, IfOk, OnOk};
ghost use Rattle.lu_spec_entries.specs.Words.{same_life};
ghost use Rattle.lu_spec_target.specs.Lives.{with_life};
ghost use Rattle.lu_target_locks.specs.Reminding.{stands_from, with_holder_of};

use lu_base::{Cookie, Lives, Memory, Who};
use lu_lockspace::Lockspace;
use std::alloc::Global;

/// Whether a life is this one, or stands behind it.
fn stands_from(who: Who, life: Who) -> bool
    ensures { result ≡ stands_from who life }
{
    who == life || (who.client < life.client || (who.client == life.client && who.life < life.life))
}

/// Whether they are one life.
fn is_same(who: Who, life: Who) -> bool
    ensures { result ≡ same_life who life }
{
    who == life
}

/// Where the first of these stands that is this life or stands behind it; none where all stand ahead of it.
fn place_of(who: Who, lives: &[Who]) -> Option<usize>
    ensures { result ≡ position (stands_from who) lives.now }
{
    lives.iter().position(|life| stands_from(who, *life))
}

/// Puts a life in its place among others, once.
fn add_life(lives: &mut Vec<Who>, who: Who) -> Result<(), Memory>
    ensures added { OnOk result (lives.new.items ≡ with_life who lives.old.items) }
{
    match place_of(who, lives) {
        Some(place) => {
            if !is_same(who, lives[place]) {
                lives.insert(place, who)?;
            }
            Ok(())
        }
        None => {
            lives.push(who)?;
            Ok(())
        }
    }
}

/// Adds the life of the lock of this cookie.
fn add_holder(lives: &mut Vec<Who>, space: &Lockspace, cookie: Cookie) -> Result<(), Memory>
    ensures added { OnOk result (lives.new.items ≡ with_holder_of space.now lives.old.items cookie) }
{
    match space.find(cookie) {
        Some(lock) => add_life(lives, lock.ask.who),
        None => Ok(()),
    }
}

/// The lives of the locks of these cookies, by client and life, each once.
pub(crate) fn holders(alloc: Global, space: &Lockspace, cookies: &[Cookie]) -> Result<Lives, Memory>
    ensures holders { IfOk result (λ lives. lives ≡ fold (with_holder_of space.now) [] cookies.now) }
{
    let mut lives = Vec::new(alloc);
    for cookie in cookies {
        add_holder(&mut lives, space, *cookie)?;
    }
    Ok(Lives::from(lives))
}
