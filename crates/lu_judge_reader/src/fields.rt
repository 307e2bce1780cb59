//! Values, of the words that are next.

ghost use Rattle.std.specs.Prelude.{◌≡◌, ◌≤◌, ◌<◌, ◌==◌, ◌^◌, All, IfOk, length};
ghost use Rattle.std.specs.List.{list_any};
ghost use Rattle.lu_base.specs.Texts.{IsName, IsPath};
ghost use Rattle.lu_trace.specs.WellFormed.{Fits, IsCount, IsReplyLock, IsStriped, AreTerms};
ghost use Rattle.lu_scene.specs.Fields.{number_of, path_of};
ghost use Rattle.lu_judge_reader.specs.Reading.{Gives, Reads, one};
ghost use Rattle.lu_judge_reader.specs.Values.{small_of, up_to, pair_of, who_of, node_of, target_of, at_of, tagged_of, size_of, object_of, inode_of, extent_of, mode_of, cause_of, octal_of, rights_of, count_of, bytes_of};
ghost use Rattle.lu_judge_reader.specs.Lists.{seen_of, sizes_of, locks_of, names_of, layout_of};
ghost use Rattle.lu_judge_reader.specs.Parts.{names_rest, policy_of, terms};

use super::data::bytes_of;
use super::faults::LineFault;
use super::lists::{layout_of, locks_of, names_of, seen_of, sizes_of};
use super::values::{
    at_of, cause_of, count_of, extent_of, inode_of, mode_of, node_of, number_of, object_of,
    octal_of, octet_of, page_of, pair_of, path_of, rights_of, short_of, size_of, tagged_of,
    target_of, up_to, who_of,
};
use super::words::Words;
use lu_base::{
    At, Bytes, Cause, Extent, Locks, Mode, Names, Node, Numbers, Path, Policy, Resource, Who, Xid,
};
use lu_layout::Layout;
use std::alloc::Global;

impl<'a> Words<'a> {
    /// A number.
    pub fn number(&mut self) -> Result<u64, LineFault>
        ensures read { Reads result self.new (one number_of self.old) }
    {
        number_of(self.word()?)
    }

    /// A number below 2^32.
    pub fn short(&mut self) -> Result<u32, LineFault>
        ensures read { Reads result self.new (one (small_of 32) self.old) }
    {
        short_of(self.word()?)
    }

    /// A number below 2^8.
    pub fn octet(&mut self) -> Result<u8, LineFault>
        ensures read { Reads result self.new (one (small_of 8) self.old) }
    {
        octet_of(self.word()?)
    }

    /// A number of a boot and a count.
    pub fn pair(&mut self) -> Result<u64, LineFault>
        ensures read { Reads result self.new (one pair_of self.old) }
    {
        pair_of(self.alloc, self.word()?)
    }

    /// A life.
    pub fn who(&mut self) -> Result<Who, LineFault>
        ensures read { Reads result self.new (one who_of self.old) }
    {
        who_of(self.alloc, self.word()?)
    }

    /// A node.
    pub fn node(&mut self) -> Result<Node, LineFault>
        ensures read { Reads result self.new (one node_of self.old) }
    {
        node_of(self.word()?)
    }

    /// A target's number.
    pub fn target(&mut self) -> Result<u16, LineFault>
        ensures read { Reads result self.new (one target_of self.old) }
    {
        target_of(self.word()?)
    }

    /// A turn.
    pub fn at(&mut self) -> Result<At, LineFault>
        ensures read { Reads result self.new (one at_of self.old) }
    {
        at_of(self.alloc, self.word()?)
    }

    /// A request's number and its tag.
    pub fn tagged(&mut self) -> Result<(Xid, u8), LineFault>
        ensures read { Reads result self.new (one tagged_of self.old) }
    {
        tagged_of(self.alloc, self.word()?)
    }

    /// Transactions that were seen.
    pub fn seen(&mut self) -> Result<Numbers, LineFault>
        ensures read { Reads result self.new (one seen_of self.old) }
        ensures fits { IfOk result (All (Fits 64)) }
    {
        seen_of(self.alloc, self.word()?)
    }

    /// Sizes of objects.
    pub fn sizes(&mut self) -> Result<Numbers, LineFault>
        ensures read { Reads result self.new (one sizes_of self.old) }
        ensures fits { IfOk result (All (Fits 64)) }
    {
        sizes_of(self.alloc, self.word()?)
    }

    /// A path.
    pub fn path(&mut self) -> Result<Path, LineFault>
        ensures read { Reads result self.new (one path_of self.old) }
        ensures fits { IfOk result IsPath }
    {
        path_of(self.alloc, self.word()?)
    }

    /// Bytes.
    pub fn bytes(&mut self) -> Result<Bytes, LineFault>
        ensures read { Reads result self.new (one bytes_of self.old) }
        ensures fits { IfOk result (All (Fits 8)) }
    {
        bytes_of(self.alloc, self.word()?)
    }

    /// A size, or none.
    pub fn size(&mut self) -> Result<Option<u64>, LineFault>
        ensures read { Reads result self.new (one size_of self.old) }
    {
        size_of(self.word()?)
    }

    /// An object.
    pub fn object(&mut self) -> Result<Resource, LineFault>
        ensures read { Reads result self.new (one object_of self.old) }
    {
        object_of(self.alloc, self.word()?)
    }

    /// A range.
    pub fn extent(&mut self) -> Result<Extent, LineFault>
        ensures read { Reads result self.new (one extent_of self.old) }
    {
        extent_of(self.alloc, self.word()?)
    }

    /// A lock's mode.
    pub fn mode(&mut self) -> Result<Mode, LineFault>
        ensures read { Reads result self.new (one mode_of self.old) }
    {
        mode_of(self.word()?)
    }

    /// Why a life was evicted.
    pub fn cause(&mut self) -> Result<Cause, LineFault>
        ensures read { Reads result self.new (one cause_of self.old) }
    {
        cause_of(self.word()?)
    }

    /// A number below 2^16 in octal.
    pub fn octal(&mut self) -> Result<u16, LineFault>
        ensures read { Reads result self.new (one octal_of self.old) }
    {
        octal_of(self.word()?)
    }

    /// A number below 2^12 in octal.
    pub fn rights(&mut self) -> Result<u16, LineFault>
        ensures read { Reads result self.new (one rights_of self.old) }
        ensures fits { IfOk result (λ n. n < 2 ^ 12) }
    {
        rights_of(self.word()?)
    }

    /// A number of stripes.
    pub fn count(&mut self) -> Result<i32, LineFault>
        ensures read { Reads result self.new (one count_of self.old) }
        ensures fits { IfOk result IsCount }
    {
        count_of(self.word()?)
    }

    /// The number of a page.
    pub fn page(&mut self) -> Result<u64, LineFault>
        ensures read { Reads result self.new (one (small_of 28) self.old) }
        ensures fits { IfOk result (λ n. n < 2 ^ 28) }
    {
        page_of(self.word()?)
    }

    /// A layout.
    pub fn layout(&mut self) -> Result<Layout, LineFault>
        ensures read { Reads result self.new (one layout_of self.old) }
        ensures fits { IfOk result IsStriped }
    {
        layout_of(self.alloc, self.word()?)
    }

    /// A number up to this one.
    pub fn up_to(&mut self, most: u64) -> Result<u64, LineFault>
        ensures read { Reads result self.new (one (up_to most) self.old) }
        ensures most { IfOk result (λ n. n ≤ most) }
    {
        up_to(most, self.word()?)
    }

    /// The number of a handle.
    pub fn handle(&mut self) -> Result<u8, LineFault>
        ensures read { Reads result self.new (one (up_to 15) self.old) }
        ensures most { IfOk result (λ n. n ≤ 15) }
    {
        let handle = self.up_to(15)?;
        Ok(handle as u8)
    }

    /// The locks that a reply to this life grants.
    pub fn locks(&mut self, who: Who) -> Result<Locks, LineFault>
        ensures read { Reads result self.new (one (locks_of who) self.old) }
        ensures fits { IfOk result (All (IsReplyLock who)) }
    {
        locks_of(self.alloc, who, self.word()?)
    }

    /// The words that are left, as so many names.
    pub fn names(&mut self, count: u64) -> Result<Names, LineFault>
        ensures read { Reads result self.new (names_rest count self.old) }
        ensures fits { IfOk result (All IsName) }
        ensures count { IfOk result (λ names. length names < 2 ^ 63) }
    {
        names_of(self.alloc, count, self.rest())
    }

    /// What a lock is on, its mode and its bits or range.
    #[tactic(auto, unfolding(crate::specs::Parts::terms))]
    pub fn terms(&mut self) -> Result<(Resource, Mode, Policy), LineFault>
        ensures read { Reads result self.new (terms self.old) }
        ensures fits { IfOk result (λ on. AreTerms on.0 on.2) }
    {
        let resource = self.word()?;
        let mode = self.mode()?;
        policy_of(self.alloc, resource, mode, self.word()?)
    }
}

/// Whether a word has a slash.
fn has_slash(word: &[u8]) -> bool
    ensures slash { result ≡ list_any (λ b. b == 47) word.now }
{
    word.iter().any(|b| *b == b'/')
}

/// What a lock of this mode is on, and its bits or range.
fn policy_of(
    alloc: Global,
    resource: &[u8],
    mode: Mode,
    policy: &[u8],
) -> Result<(Resource, Mode, Policy), LineFault>
    ensures read { Gives result (policy_of resource.now mode policy.now) }
    ensures fits { IfOk result (λ on. AreTerms on.0 on.2) }
{
    if has_slash(resource) {
        let object = object_of(alloc, resource)?;
        let extent = extent_of(alloc, policy)?;
        return Ok((object, mode, Policy::Range(extent)));
    }
    let inode = inode_of(alloc, resource)?;
    let bits = octet_of(policy)?;
    Ok((inode, mode, Policy::Bits(bits)))
}
