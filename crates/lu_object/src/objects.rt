//! The bytes of one stripe of a file, by offset.

ghost use Rattle.std.specs.Prelude.{◌≡◌, ◌≤◌, ◌+◌, ◌^◌, [], length, map, IfOk, IfSome, IfNone, OnOk, OnErr};
ghost use Rattle.std.specs.Option.{unwrap_or};
ghost use Rattle.lu_spec_machine.specs.Places.{RisingFrom, inside, end_of};
ghost use Rattle.lu_spec_machine.specs.Objects.{put_bytes, cut_bytes, object_size};
ghost use Rattle.lu_object.specs.Reading.{read_from};

use lu_base::{Bytes, Extent, Memory};
use lu_page::Places;
use std::alloc::Global;
use std::marker::Model;

/// An object: the bytes of one stripe of a file, by offset. Offsets count from 0, in bytes; not each has a byte. A
/// contract sees the list of pairs of offset and byte, in rising offset.
#[derive(Drop)]
pub struct Object {
    bytes: Places<u8>,
}

impl Model for Object {
    ghost use Rattle.lu_spec_machine.specs.Objects.{Object as SpecObject};
    ghost use Rattle.lu_spec_machine.specs.Places.{RisingFrom};

    ghost Value = { SpecObject };

    ghost view = { λ object. object.bytes };

    ghost invariant = { λ object. RisingFrom 0 object.bytes };
}

/// Bytes where they are, and 0 where there is none.
fn with_zeros(alloc: Global, found: &[Option<u8>]) -> Result<Bytes, Memory>
    ensures bytes { IfOk result (λ bytes. bytes ≡ map (λ byte. unwrap_or byte 0) found.now) }
{
    let bytes: Vec<u8> = found.iter().map(|byte| byte.unwrap_or(0)).collect(alloc)?;
    Ok(Bytes::from(bytes))
}

impl Object {
    /// An object without bytes. It takes no memory yet.
    pub fn new(alloc: Global) -> Object
        ensures empty { result ≡ [] }
    {
        Object {
            bytes: Places::new(alloc),
        }
    }

    /// Puts bytes at the offsets from `at` on, over what was there. They end at or below 2^40. After want of memory
    /// the object is as before.
    pub fn write(&mut self, at: u64, from: &[u8]) -> Result<(), Memory>
        requires fits { at + length from.now ≤ 2 ^ 40 }
        ensures written { OnOk result (self.new ≡ put_bytes at from.now self.old) }
        ensures kept { OnErr result (self.new ≡ self.old) }
    {
        if from.is_empty() {
            return Ok(());
        }
        self.bytes.lay(at, from)
    }

    /// The bytes at so many offsets from `at` on, which end at or below 2^40: up to the last of them that has one,
    /// and those without a byte as 0. None where none of them has a byte.
    pub fn read(&self, alloc: Global, at: u64, len: usize) -> Result<Bytes, Memory>
        requires fits { at + len ≤ 2 ^ 40 }
        ensures read { IfOk result (λ bytes. bytes ≡ read_from at len self.now) }
        ensures rises { RisingFrom 0 self.now }
    {
        let _ = &self.bytes;
        if len == 0 {
            return Ok(Bytes::new(alloc));
        }
        let end = self.bytes.end_in(Extent {
            first: at,
            last: at + (len as u64 - 1),
        });
        let found = self.bytes.read(alloc, at, end.saturating_sub(at))?;
        with_zeros(alloc, &found)
    }

    /// Ends the object at `n`, at most 2^40: all bytes from there on go, and the one before `n` is made 0 where there
    /// is none, so that `n` is its size. After want of memory the object is as before.
    pub fn cut(&mut self, n: u64) -> Result<(), Memory>
        requires fits { n ≤ 2 ^ 40 }
        ensures cut { OnOk result (self.new ≡ cut_bytes n self.old) }
        ensures kept { OnErr result (self.new ≡ self.old) }
    {
        if n > 0 && self.bytes.at(n - 1).is_none() {
            self.bytes.lay(n - 1, &[0])?;
        }
        self.bytes.keep_below(n);
        Ok(())
    }

    /// The greatest offset of the range, in order, that has a byte. It takes no memory.
    pub fn last_in(&self, part: Extent) -> Option<u64>
        requires ordered { part.first ≤ part.last }
        ensures last { IfSome result (λ offset. offset + 1 ≡ end_of (inside part self.now)) }
        ensures none { IfNone result (inside part self.now ≡ []) }
    {
        match self.bytes.end_in(part) {
            0 => None,
            end => Some(end - 1),
        }
    }

    /// One past the last offset that has a byte, or 0. It takes no memory.
    pub fn size(&self) -> u64
        ensures size { result ≡ object_size self.now }
    {
        self.bytes.end()
    }
}
