//! The texts of nodes, of a lock's mode and of octal numbers. Each function here appends one text;
//! after want of memory a part of it may stand.

ghost use Rattle.std.specs.Prelude.{◌≡◌, ◌++◌, OnOk};
ghost use Rattle.lu_base.specs.Values.{client_text, target_text, node_text, mode_text, octal_text};

use super::faults::Memory;
use super::ids::{Node, TargetId};
use super::locks::Mode;
use super::sequence::Bytes;
use super::text::put_number;

/// A client: `c` and its number.
pub fn put_client(out: &mut Bytes, client: u16) -> Result<(), Memory>
    ensures put { OnOk result (out.new ≡ out.old ++ client_text client) }
{
    out.push(b'c')?;
    put_number(out, u64::from(client))
}

/// A target: `t` and its number.
pub fn put_target(out: &mut Bytes, target: TargetId) -> Result<(), Memory>
    ensures put { OnOk result (out.new ≡ out.old ++ target_text target.0) }
{
    out.push(b't')?;
    put_number(out, u64::from(target.0))
}

/// A client or a target.
pub fn put_node(out: &mut Bytes, node: Node) -> Result<(), Memory>
    ensures put { OnOk result (out.new ≡ out.old ++ node_text node) }
{
    match node {
        Node::Client(client) => put_client(out, client),
        Node::Target(target) => put_target(out, TargetId(target)),
    }
}

/// A lock's mode.
pub fn put_mode(out: &mut Bytes, mode: Mode) -> Result<(), Memory>
    ensures put { OnOk result (out.new ≡ out.old ++ mode_text mode) }
{
    match mode {
        Mode::EX => out.extend(b"EX"),
        Mode::PW => out.extend(b"PW"),
        Mode::PR => out.extend(b"PR"),
        Mode::CW => out.extend(b"CW"),
        Mode::CR => out.extend(b"CR"),
        Mode::NL => out.extend(b"NL"),
    }
}

/// A number in octal, as the mode of a directory or a file.
#[tactic(auto, using(crate::proofs::Octal::octal_digit))]
pub fn put_octal(out: &mut Bytes, number: u16) -> Result<(), Memory>
    ensures put { OnOk result (out.new ≡ out.old ++ octal_text number) }
{
    if number < 8 {
        return out.push(b'0' + number as u8);
    }
    put_octal(out, number / 8)?;
    out.push(b'0' + (number % 8) as u8)
}
