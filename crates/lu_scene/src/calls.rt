//! Reading calls.

ghost use Rattle.std.specs.Prelude.{◌≡◌, ℕ, map};
ghost use Rattle.lu_scene.specs.Gives.{Gives};
ghost use Rattle.lu_scene.specs.Calls.{one_path, two_paths, handle_at, one_handle, striped_of, create_of, chmod_of, open_of, read_of, write_of, cut_of, call_of};

use super::faults::{Fault, LineError};
use super::fields::{count_at, data_at, mode_at, number_at, number_in, path_at};
use super::words::CallName;
use lu_base::{MOST_CALL_BYTES, MOST_POSITION, Path};
use lu_msg::Call;
use std::alloc::Global;

/// The greatest handle.
const MOST_HANDLE: u64 = 15;

/// The greatest stripe size that a call asks for, in bytes.
const MOST_STRIPE_SIZE: u64 = 1 << 32;

/// One path.
fn one_path(alloc: Global, words: &[&[u8]]) -> Result<Path, LineError>
    ensures path { Gives result (one_path (map (λ w. w.now) words.now)) }
{
    match words {
        [word] => path_at(alloc, word),
        _ => Err(LineError::Bad(Fault::Fields)),
    }
}

/// Two paths.
fn two_paths(alloc: Global, words: &[&[u8]]) -> Result<(Path, Path), LineError>
    ensures paths { Gives result (two_paths (map (λ w. w.now) words.now)) }
{
    match words {
        [first, second] => {
            let old = path_at(alloc, first)?;
            let new = path_at(alloc, second)?;
            Ok((old, new))
        }
        _ => Err(LineError::Bad(Fault::Fields)),
    }
}

/// The number of a handle.
fn handle_at(word: &[u8]) -> Result<u8, LineError>
    ensures handle { Gives result (handle_at word.now) }
{
    let handle = number_in(word, 0, MOST_HANDLE)?;
    Ok(handle as u8)
}

/// A handle.
fn one_handle(words: &[&[u8]]) -> Result<u8, LineError>
    ensures handle { Gives result (one_handle (map (λ w. w.now) words.now)) }
{
    match words {
        [word] => handle_at(word),
        _ => Err(LineError::Bad(Fault::Fields)),
    }
}

/// A `create` of a path, a stripe size and a number of stripes.
fn striped_of(alloc: Global, word: &[u8], second: &[u8], third: &[u8]) -> Result<Call, LineError>
    ensures call { Gives result (striped_of word.now second.now third.now) }
{
    let path = path_at(alloc, word)?;
    let size = number_in(second, 0, MOST_STRIPE_SIZE)?;
    let count = count_at(third)?;
    Ok(Call::Create {
        path,
        stripes: Some((size, count)),
    })
}

/// A `create`: a path, and perhaps a stripe size and a number of stripes.
fn create_of(alloc: Global, words: &[&[u8]]) -> Result<Call, LineError>
    ensures call { Gives result (create_of (map (λ w. w.now) words.now)) }
{
    match words {
        [word] => {
            let path = path_at(alloc, word)?;
            Ok(Call::Create {
                path,
                stripes: None,
            })
        }
        [word, second, third] => striped_of(alloc, word, second, third),
        _ => Err(LineError::Bad(Fault::Fields)),
    }
}

/// A `chmod`: a path and a mode.
fn chmod_of(alloc: Global, words: &[&[u8]]) -> Result<Call, LineError>
    ensures call { Gives result (chmod_of (map (λ w. w.now) words.now)) }
{
    match words {
        [word, second] => {
            let path = path_at(alloc, word)?;
            let mode = mode_at(second)?;
            Ok(Call::Chmod { path, mode })
        }
        _ => Err(LineError::Bad(Fault::Fields)),
    }
}

/// An `open`: a handle and a path.
fn open_of(alloc: Global, words: &[&[u8]]) -> Result<Call, LineError>
    ensures call { Gives result (open_of (map (λ w. w.now) words.now)) }
{
    match words {
        [word, second] => {
            let handle = handle_at(word)?;
            let path = path_at(alloc, second)?;
            Ok(Call::Open { handle, path })
        }
        _ => Err(LineError::Bad(Fault::Fields)),
    }
}

/// A `read`: a handle, a position and a number of bytes.
fn read_of(words: &[&[u8]]) -> Result<Call, LineError>
    ensures call { Gives result (read_of (map (λ w. w.now) words.now)) }
{
    match words {
        [word, second, third] => {
            let handle = handle_at(word)?;
            let offset = number_at(second)?;
            let length = number_in(third, 1, MOST_CALL_BYTES)?;
            if offset <= MOST_POSITION && offset + length <= MOST_POSITION {
                Ok(Call::Read {
                    handle,
                    offset,
                    length,
                })
            } else {
                Err(LineError::Bad(Fault::Number))
            }
        }
        _ => Err(LineError::Bad(Fault::Fields)),
    }
}

/// A `write`: a handle, a position and the bytes.
fn write_of(alloc: Global, words: &[&[u8]]) -> Result<Call, LineError>
    ensures call { Gives result (write_of (map (λ w. w.now) words.now)) }
{
    match words {
        [word, second, third] => {
            let handle = handle_at(word)?;
            let offset = number_at(second)?;
            let bytes = data_at(alloc, third)?;
            let length = bytes.len() as u64;
            if length <= MOST_POSITION && offset <= MOST_POSITION - length {
                Ok(Call::Write {
                    handle,
                    offset,
                    bytes,
                })
            } else {
                Err(LineError::Bad(Fault::Number))
            }
        }
        _ => Err(LineError::Bad(Fault::Fields)),
    }
}

/// A `cut`: a handle and a size.
fn cut_of(words: &[&[u8]]) -> Result<Call, LineError>
    ensures call { Gives result (cut_of (map (λ w. w.now) words.now)) }
{
    match words {
        [word, second] => {
            let handle = handle_at(word)?;
            let size = number_in(second, 0, MOST_POSITION)?;
            Ok(Call::Cut { handle, size })
        }
        _ => Err(LineError::Bad(Fault::Fields)),
    }
}

/// The call of this name with these words after it.
pub fn call_of(alloc: Global, name: CallName, words: &[&[u8]]) -> Result<Call, LineError>
    ensures call { Gives result (call_of name (map (λ w. w.now) words.now)) }
{
    match name {
        CallName::Lookup => Ok(Call::Lookup(one_path(alloc, words)?)),
        CallName::Stat => Ok(Call::Stat(one_path(alloc, words)?)),
        CallName::List => Ok(Call::List(one_path(alloc, words)?)),
        CallName::Layout => Ok(Call::Layout(one_path(alloc, words)?)),
        CallName::Mkdir => Ok(Call::Mkdir(one_path(alloc, words)?)),
        CallName::Create => create_of(alloc, words),
        CallName::Link => {
            let (old, new) = two_paths(alloc, words)?;
            Ok(Call::Link { old, new })
        }
        CallName::Unlink => Ok(Call::Unlink(one_path(alloc, words)?)),
        CallName::Rmdir => Ok(Call::Rmdir(one_path(alloc, words)?)),
        CallName::Rename => {
            let (old, new) = two_paths(alloc, words)?;
            Ok(Call::Rename { old, new })
        }
        CallName::Chmod => chmod_of(alloc, words),
        CallName::Open => open_of(alloc, words),
        CallName::Close => Ok(Call::Close(one_handle(words)?)),
        CallName::Read => read_of(words),
        CallName::Write => write_of(alloc, words),
        CallName::Cut => cut_of(words),
        CallName::Flush => Ok(Call::Flush(one_handle(words)?)),
        CallName::Glimpse => Ok(Call::Glimpse(one_handle(words)?)),
    }
}
