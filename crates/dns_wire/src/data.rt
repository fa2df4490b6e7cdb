//! Reads the data of records, whose names may be compressed (RFC 1035 3.3 and 4.1.4).
ghost use Rattle.std.specs.Prelude.{◌≡◌, ◌+◌, ◌≤◌, length, Some, None, IfOk, IfErr};
ghost use Rattle.dns_spec.specs.MessageFaults.{FieldFault, FieldsFault};
ghost use Rattle.dns_spec.specs.Reading.{data_at, data_fields, field_at};
ghost use Rattle.dns_rdata.specs.TypeRows.{field_of};
ghost use Rattle.dns_wire.specs.FieldReads.{IsFieldRead};
ghost use Rattle.dns_wire.specs.Read.{IsWireData};
ghost use Rattle.dns_wire.specs.WireFault.{UnlessNoMemory, fault_code};

use crate::message::CLASS_IN;
use crate::name::read_name;
use crate::wire_fault::WireFault;
use dns_rdata::{Field, Part, RType, fields_of_type, first_part};
use std::alloc::Global;

/// Reads the data of a record, from offset `at` up to offset `end`, and returns it without
/// compression.
///
/// Data of a class other than IN is any octets. Fails with `BadData` if the octets do not exactly
/// fill the fields of the type. A name is read from the whole message, so its own faults are
/// reported before it is found to extend past `end`.
#[tactic(auto, unfolding(dns_spec::specs::Reading::fields_at))]
pub(crate) fn read_data(
    alloc: Global,
    message: &[u8],
    rtype: RType,
    rclass: u16,
    at: usize,
    end: usize,
) -> Result<Vec<u8>, WireFault>
    requires ordered { at ≤ end }
    requires within { end ≤ length message.now }
    requires short { end ≤ at + 65535 }
    ensures ok { IfOk result
        (λ read. data_at message.now rtype.0 rclass at end ≡ Some read.items) }
    ensures valid { IfOk result (λ read. IsWireData rtype.0 rclass read.items) }
    ensures err { IfErr result
        (λ fault. UnlessNoMemory fault (data_at message.now rtype.0 rclass at end ≡ None)) }
    ensures fault { IfErr result (λ fault. UnlessNoMemory fault
        (FieldsFault message.now (data_fields rtype.0 rclass) at end (fault_code fault))) }
{
    let mut data = Vec::new(alloc);
    let mut offset = at;
    // Types have their own forms only in class IN.
    let mut fields = if rclass == CLASS_IN {
        fields_of_type(rtype)
    } else {
        &[Field::Anything]
    };
    'fields: while let Some((field, others)) = fields.split_first() {
        offset = read_field(message, *field, offset, end, &mut data)?;
        fields = others;
    }
    if offset != end {
        return Err(WireFault::BadData);
    }
    Ok(data)
}

// Appends the field at offset `at` to `written`, and returns the offset after the field, at most
// `end`. A domain name is appended without compression.
fn read_field(
    message: &[u8],
    field: Field,
    at: usize,
    end: usize,
    written: &mut Vec<u8>,
) -> Result<usize, WireFault>
    requires ordered { at ≤ end }
    requires within { end ≤ length message.now }
    ensures ok { IfOk result
        (λ offset. IsFieldRead message.now (field_of field) at end
        written.old.items written.new.items offset) }
    ensures err { IfErr result
        (λ fault. UnlessNoMemory fault (field_at message.now (field_of field) at end ≡ None)) }
    ensures fault { IfErr result (λ fault. UnlessNoMemory fault
        (FieldFault message.now (field_of field) at (fault_code fault))) }
{
    if let Field::Domain = field {
        let (name, offset) = read_name(message, at)?;
        if offset > end {
            return Err(WireFault::BadData);
        }
        written.extend_from_slice(name.octets())?;
        return Ok(offset);
    }
    let (_, rest) = message.split_at(at);
    let (own, _) = rest.split_at(end - at);
    let Some((part, after)) = first_part(field, own) else {
        return Err(WireFault::BadData);
    };
    let (Part::Octets(octets) | Part::Name(octets)) = part;
    written.extend_from_slice(octets)?;
    Ok(end - after.len())
}
