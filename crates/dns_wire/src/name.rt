//! Reads names in a message, and follows their pointers (RFC 1035 4.1.4).
ghost use Rattle.std.specs.Prelude.{◌≡◌, ◌+◌, ◌≤◌, ◌<◌, length, get_or, slice_get, Some, None, IfOk, IfErr, IsErr, IfSome, IsNone};
ghost use Rattle.dns_spec.specs.ComputedNames.{name_at};
ghost use Rattle.dns_spec.specs.MessageFaults.{NameFault, step_fault, pointer_fault};
ghost use Rattle.dns_wire.specs.Labels.{StepAt, PointerAt, NoRunAt};
ghost use Rattle.dns_wire.specs.WireFault.{fault_code};

use crate::message::HEADER_OCTETS;
use crate::wire_fault::WireFault;
use dns_name::{Label, Name};

// What is at an offset in a name.
#[derive(Drop)]
pub(crate) enum NameStep<'a> {
    // The root's length, which ends the name.
    End,
    Label(Label<'a>),
    // A pointer to the offset where the rest of the name begins.
    Jump(usize),
}

/// The name at offset `at` of a message, in the case received, and the offset after it there: after
/// the root's length, or after the first pointer.
///
/// A pointer has to lead to an offset after the header and before the run of labels that it ends,
/// so reading terminates. The first fault is reported: a missing octet, reserved bits, a pointer
/// without its second octet or with an invalid target, a label cut short, or a label that makes the
/// name too long.
pub(crate) fn read_name(message: &[u8], at: usize) -> Result<(Name, usize), WireFault>
    requires { at ≤ length message.now }
    ensures name { IfOk result (λ read. name_at message.now at ≡ Some (read.0, read.1)) }
    ensures within { IfOk result (λ read. read.1 ≤ length message.now) }
    ensures none { IsErr result → name_at message.now at ≡ None }
    ensures fault { IfErr result (λ fault. NameFault message.now at (fault_code fault)) }
{
    let mut name = Name::root();
    let mut run = at;
    let mut offset = at;
    let mut end = None;
    'steps: loop {
        match step_at(message, run, offset)? {
            NameStep::End => return Ok((name, end.unwrap_or(offset + 1))),
            NameStep::Label(label) => {
                let length = label.octets().len();
                if !name.push(label) {
                    return Err(WireFault::LongName);
                }
                offset += 1 + length;
            }
            NameStep::Jump(target) => {
                end = Some(end.unwrap_or(offset + 2));
                run = target;
                offset = target;
            }
        }
    }
}

// What is at `offset`, in a run of labels that began at offset `run`.
pub(crate) fn step_at(message: &[u8], run: usize, offset: usize) -> Result<NameStep<'_>, WireFault>
    ensures step { IfOk result (λ step. StepAt message.now run offset step) }
    ensures none { IsErr result → NoRunAt message.now run offset }
    ensures fault { IfErr result (λ fault.
        step_fault message.now run offset (slice_get message.now offset) ≡ fault_code fault) }
{
    let octet = message.get(offset).ok_or(WireFault::Short)?;
    match *octet {
        0 => Ok(NameStep::End),
        1..=63 => {
            let (_, rest) = message.split_at(offset + 1);
            let Some((octets, _)) = rest.split_at_checked(usize::from(*octet)) else {
                return Err(WireFault::Short);
            };
            match Label::new(octets) {
                Some(label) => Ok(NameStep::Label(label)),
                None => unreachable!(),
            }
        }
        64..=191 => Err(WireFault::ReservedLabel),
        192..=255 => Ok(NameStep::Jump(pointer_at(message, run, offset)?)),
    }
}

// The target of the pointer at `offset`, whose first octet is at least 192.
fn pointer_at(message: &[u8], run: usize, offset: usize) -> Result<usize, WireFault>
    requires inside { offset < length message.now }
    requires high { 192 ≤ get_or message.now offset 0 }
    ensures jump { IfOk result (λ target. PointerAt message.now run offset target) }
    ensures none { IsErr result → NoRunAt message.now run offset }
    ensures fault { IfErr result (λ fault. pointer_fault run (get_or message.now offset 0)
        (slice_get message.now (offset + 1)) ≡ fault_code fault) }
{
    let second = message.get(offset + 1).ok_or(WireFault::Short)?;
    let target = (usize::from(message[offset]) - 192) * 256 + usize::from(*second);
    if target < HEADER_OCTETS || target >= run {
        return Err(WireFault::BadPointer);
    }
    Ok(target)
}
