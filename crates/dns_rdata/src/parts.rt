//! The parts of data: runs of octets, and names.
ghost use Rattle.std.specs.Prelude.{◌≡◌, ◌≤◌, map, length, All, IfSome, IsNone};
ghost use Rattle.std.specs.Option.{is_some};
ghost use Rattle.std.specs.Iterator.{YieldsFirstBy, item_count};
ghost use Rattle.dns_spec.specs.Data.{Valid, parts, cut, field_front, octets_front, domain, are_strings};
ghost use Rattle.dns_rdata.specs.TypeRows.{field_of, fields_in};
ghost use Rattle.dns_rdata.specs.NameFront.{StandsAfterLabels, HasNoLabels};
ghost use Rattle.dns_rdata.specs.Parts.{Cuts, shown_part, with_octets, HasName};

use crate::rdata::Rdata;
use crate::rtype::RType;
use crate::table::{Field, fields_of_type};
use std::marker::Model;

// RFC 1035 2.3.4
const MAX_LABEL: u8 = 63;

const MAX_NAME: usize = 255;

/// A borrowed part of data.
#[derive(Clone, Copy, Debug, PartialEq, Eq)]
pub enum Part<'a> {
    /// Octets that contain no name: numbers, an address or strings.
    Octets(&'a [u8]),
    /// A domain name without compression, in its wire form (RFC 1035 3.1).
    Name(&'a [u8]),
}

/// The remaining parts of data, in order.
#[derive(Drop)]
pub struct Parts<'a> {
    fields: &'static [Field],
    octets: &'a [u8],
}

impl<'a> Model for Parts<'a> {
    ghost use Rattle.dns_rdata.specs.Parts.{PartList, parts_left, AreCut};

    ghost Value = { PartList };

    ghost view = { λ p. parts_left p.fields.now p.octets.now };

    ghost invariant = { λ p. AreCut p.fields.now p.octets.now };
}

impl Rdata {
    /// The parts of valid data, in order: runs of octets and names, at most seven, all borrowed.
    /// Names may be in either case. Data of a type without a mnemonic is one run of octets.
    pub fn parts(rtype: RType, octets: &[u8]) -> Parts<'_>
        requires { Valid rtype.0 octets.now }
        ensures parts { result ≡ parts rtype.0 octets.now }
        ensures names { All HasName result }
        ensures count { length result ≤ 7 }
    {
        Parts {
            fields: fields_of_type(rtype),
            octets,
        }
    }
}

impl<'a> Iterator for Parts<'a> {
    type Item = Part<'a>;

    ghost next_gives = { YieldsFirstBy shown_part (λ s. map with_octets s) };

    ghost remaining = { item_count (λ s. map with_octets s) };

    fn next(&mut self) -> Option<Part<'a>> {
        let (field, fields) = self.fields.split_first()?;
        let (part, rest) = first_part(*field, self.octets)?;
        self.fields = fields;
        self.octets = rest;
        Some(part)
    }
}

pub(crate) fn are_cut(fields: &[Field], octets: &[u8]) -> bool
    ensures { result ≡ is_some (cut (fields_in fields.now) octets.now) }
{
    let mut fields = fields;
    let mut rest = octets;
    'fields: while let Some((field, others)) = fields.split_first() {
        let Some((_, after)) = first_part(*field, rest) else {
            return false;
        };
        fields = others;
        rest = after;
    }
    rest.is_empty()
}

/// Cuts the field at the beginning of the octets: returns it as a part, and the octets after it.
/// `None` if the octets do not begin with a valid field of this kind.
pub fn first_part(field: Field, octets: &[u8]) -> Option<(Part<'_>, &[u8])>
    ensures { Cuts result (field_front (field_of field) octets.now) }
{
    match field {
        Field::U16 => first_run(octets, 2),
        Field::U32 | Field::Ipv4 => first_run(octets, 4),
        Field::Ipv6 => first_run(octets, 16),
        Field::Domain => first_name(octets),
        Field::String => first_run(octets, 1 + usize::from(*octets.first()?)),
        // RFC 1035 3.3.14
        Field::Strings if octets.is_empty() || !are_strings(octets) => None,
        Field::Strings | Field::Anything => Some((Part::Octets(octets), &[])),
    }
}

fn first_run(octets: &[u8], count: usize) -> Option<(Part<'_>, &[u8])>
    ensures { Cuts result (octets_front count octets.now) }
{
    let (run, rest) = octets.split_at_checked(count)?;
    Some((Part::Octets(run), rest))
}

// RFC 1035 3.1
pub(crate) fn first_name(octets: &[u8]) -> Option<(Part<'_>, &[u8])>
    ensures { Cuts result (field_front domain octets.now) }
{
    let after = after_labels(octets)?;
    let (name, rest) = octets.split_at(octets.len() - after.len());
    if name.len() > MAX_NAME {
        return None;
    }
    Some((Part::Name(name), rest))
}

// The octets after the labels, of 1 to 63 octets each, and the root's length 0. `None` if the
// octets do not begin with these; a pointer is no label.
fn after_labels(octets: &[u8]) -> Option<&[u8]>
    ensures some { IfSome result (λ after. StandsAfterLabels octets.now after.now) }
    ensures none { IsNone result → HasNoLabels octets.now }
{
    let mut rest = octets;
    'labels: loop {
        let (length, others) = rest.split_first()?;
        if *length == 0 {
            return Some(others);
        }
        if *length > MAX_LABEL {
            return None;
        }
        let (_, after) = others.split_at_checked(usize::from(*length))?;
        rest = after;
    }
}

// Whether the octets are character-strings, one after another (RFC 1035 3.3).
fn are_strings(octets: &[u8]) -> bool
    ensures { result ≡ are_strings 0 octets.now }
{
    let mut rest = octets;
    'strings: while let Some((length, others)) = rest.split_first() {
        let Some((_, after)) = others.split_at_checked(usize::from(*length)) else {
            return false;
        };
        rest = after;
    }
    true
}
