//! A service, its meaning and its laws.

ghost use Rattle.std.specs.Prelude.{◌≡◌, ◌↔◌, ◌<◌, ◌≤◌, ◌/◌, true, IsTrue, IfOk, OnOk, OnErr};
ghost use Rattle.lu_base.specs.declared.ids.Txn.{Txn as SpecTxn};
ghost use Rattle.lu_spec_machine.specs.Objects.{page_size};

use lu_base::{Bytes, Extent, Lock, Memory, Resource, Txn, Who};
use lu_msg::{Answer, Op};
use lu_part::{Parts, Wants};
use std::alloc::Global;

/// The kind of a target, and of its service.
#[derive(Clone, Copy, Debug, PartialEq, Eq)]
pub enum Kind {
    /// The metadata target: it serves the names of a file system.
    Mdt,
    /// An object storage target: it serves objects.
    Ost,
}

/// What a target serves. It performs operations one after another; each gets an answer, which the contents
/// decide.
pub trait Service {
    ghost use Rattle.lu_service.specs.declared.services.Kind.{Kind as SpecKind};
    ghost use Rattle.lu_service.specs.Contents.{Contents, asked, most_bytes};
    ghost use Rattle.lu_service.specs.declared.services.Kind.TheVariants.{Mdt, Ost};
    ghost use Rattle.lu_service.specs.Acts.{Acts, IsLawful};
    ghost use Rattle.lu_service.specs.Takes.{Takes, Performs};
    ghost use Rattle.lu_service.specs.Serving.{IsRepeatable, IsLockOf};
    ghost use Rattle.lu_service.specs.Names.{names};
    ghost use Rattle.lu_service.specs.Objects.{objects};

    // Its kind.
    ghost kind: { SpecKind };

    // What it holds.
    ghost contents: { Self → Contents };

    // What the operations answer, touch, write, grant and change, and what is read.
    ghost acts: { Acts };

    /// Performs an operation of a life, as transaction `number` if it makes one, which is then above all numbers
    /// used before. A refusal, and after want of memory everything, leaves the contents as they were.
    fn apply(&mut self, alloc: Global, number: Txn, who: Who, op: &Op) -> Result<Answer, Memory>
        requires performs { Performs kind op.now }
        requires above { acts.changes (contents self.old) (asked number who op.now) ≡ true
            → (contents self.old).last < number.0 }
        ensures answer { IfOk result (λ answer. answer
            ≡ acts.answer (contents self.old) (asked number who op.now)) }
        ensures after { OnOk result (contents self.new
            ≡ acts.after (contents self.old) (asked number who op.now)) }
        ensures kept { OnErr result (contents self.new ≡ contents self.old) };

    /// Whether the operation would make a transaction.
    fn changes(&self, who: Who, op: &Op) -> bool
        requires takes { Takes kind op.now }
        ensures changes { (number : SpecTxn)
            → result ≡ acts.changes (contents self.now) (asked number who op.now) };

    /// The parts that the operation would touch, in the order in which it looks at them. A `get` touches its page,
    /// as if a lock covered it; an `enqueue` touches nothing before it is granted.
    fn touches(&self, alloc: Global, who: Who, op: &Op) -> Result<Parts, Memory>
        requires takes { Takes kind op.now }
        ensures touches { IfOk result (λ parts. (number : SpecTxn)
            → parts ≡ acts.touches (contents self.now) (asked number who op.now)) };

    /// The parts that the operation would write, none where it is refused.
    fn writes(&self, alloc: Global, who: Who, op: &Op) -> Result<Parts, Memory>
        requires takes { Takes kind op.now }
        ensures writes { IfOk result (λ parts. (number : SpecTxn)
            → parts ≡ acts.writes (contents self.now) (asked number who op.now)) };

    /// The locks that would come with the answer, in order, none where it is refused or makes a transaction.
    fn grants(&self, alloc: Global, who: Who, op: &Op) -> Result<Wants, Memory>
        requires takes { Takes kind op.now }
        ensures grants { IfOk result (λ wants. (number : SpecTxn)
            → wants ≡ acts.grants (contents self.now) (asked number who op.now)) };

    /// Forgets the opens of a life.
    fn forget(&mut self, who: Who)
        ensures forgotten { contents self.new ≡ acts.forgotten (contents self.old) who };

    /// What a `get` reads of an object under a lock on `part`, offsets in one page of 4,096 bytes that end at or
    /// below 2^40: the bytes from the page's start to the last one that is there in that part, those before the part
    /// and those that aren't there as 0, and none where none is there in it. The metadata target has no bytes.
    fn read(&self, alloc: Global, resource: Resource, part: Extent) -> Result<Bytes, Memory>
        requires ordered { part.first ≤ part.last }
        requires page { part.last / page_size ≡ part.first / page_size }
        requires end { part.last < most_bytes }
        ensures read { IfOk result (λ bytes. bytes
            ≡ acts.read (contents self.now) resource (part.first / page_size) part) };

    /// Whether it may be asked about an operation: one of its kind, with fields in their bounds.
    fn accepts(&self, op: &Op) -> bool
        ensures accepts { IsTrue result ↔ Takes kind op.now };

    /// Whether an operation may be performed again after a boot: one that it performs, and of objects one that changes
    /// them.
    fn repeats(&self, op: &Op) -> bool
        ensures repeats { IsTrue result ↔ IsRepeatable kind op.now };

    /// Whether a lock may be one of its target's: those on names are for reading.
    fn accepts_lock(&self, lock: &Lock) -> bool
        ensures accepts { IsTrue result ↔ IsLockOf kind lock.now };

    /// Whether requests wait at the target until what they touch is free, as those on names do. Elsewhere locks wait,
    /// each in the queue of its object.
    fn requests_wait(&self) -> bool
        ensures waits { IsTrue result ↔ kind ≡ Mdt };

    // The laws of footprints.
    ghost lawful: { IsLawful acts kind };

    // The metadata target serves the names of a file system.
    ghost serves_names: { kind ≡ Mdt → acts ≡ names };

    // An object storage target serves objects.
    ghost serves_objects: { kind ≡ Ost → acts ≡ objects };
}
