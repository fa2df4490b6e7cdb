//! Checks whether a message spells a suffix at an offset, following pointers (RFC 1035 4.1.4).
ghost use Rattle.std.specs.Prelude.{◌≡◌, ◌≤◌, ◌∷◌, ◌++◌, length, take, drop, IsTrue, IfSome, IsNone};
ghost use Rattle.dns_spec.specs.Names.{Octets};
ghost use Rattle.dns_wire.specs.Kept.{SpelledAt, SpellsSuffix, HasAt};

use crate::name::{NameStep, step_at};
use dns_name::are_equal;

/// Whether the name that a message spells at an offset has these octets as its wire form.
pub(crate) fn is_spelled(message: &[u8], at: usize, suffix: &[u8]) -> bool
    ensures yes { IsTrue result → SpellsSuffix message.now at suffix.now }
    ensures no { SpelledAt message.now at suffix.now → IsTrue result }
{
    let mut run = at;
    let mut offset = at;
    let mut rest = suffix;
    'steps: loop {
        let Ok(step) = step_at(message, run, offset) else {
            return false;
        };
        match step {
            // Only the root has a wire form of one octet.
            NameStep::End => return rest.len() == 1,
            NameStep::Label(label) => {
                let Some(after) = after_label(rest, label.octets()) else {
                    return false;
                };
                rest = after;
                offset += 1 + label.octets().len();
            }
            NameStep::Jump(target) => {
                if has_at(message, target, rest) {
                    return true;
                }
                run = target;
                offset = target;
            }
        }
    }
}

fn has_at(message: &[u8], at: usize, octets: &[u8]) -> bool
    ensures { IsTrue result → HasAt message.now at octets.now }
{
    message
        .split_at_checked(at)
        .and_then(|(_, rest)| rest.split_at_checked(octets.len()))
        .is_some_and(|(front, _)| are_equal(front, octets))
}

// The octets of `wire` after the label, if `wire` begins with the label's length and octets.
fn after_label<'a>(wire: &'a [u8], label: &[u8]) -> Option<&'a [u8]>
    ensures some { IfSome result (λ rest. wire.now ≡ length label.now ∷ (label.now ++ rest.now)) }
    ensures none { IsNone result → (rest : Octets)
        → wire.now ≡ length label.now ∷ (label.now ++ rest) → ⊥ }
{
    let (length, rest) = wire.split_first()?;
    if usize::from(*length) != label.len() {
        return None;
    }
    let (front, after) = rest.split_at_checked(label.len())?;
    are_equal(front, label).then_some(after)
}
