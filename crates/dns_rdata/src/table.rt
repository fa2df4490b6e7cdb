//! The table of the types that have a mnemonic, with the fields of their data.
ghost use Rattle.std.specs.Prelude.{◌≡◌, map};
ghost use Rattle.std.specs.Option.{option_map};
ghost use Rattle.std.specs.List.{find};
ghost use Rattle.dns_spec.specs.Data.{type_table, row_of, fields_of};
ghost use Rattle.dns_spec.specs.DataText.{are_strings_alone};
ghost use Rattle.dns_spec.specs.TypeText.{row_by_mnemonic};
ghost use Rattle.dns_rdata.specs.TypeRows.{row_for, fields_in, has_number, has_mnemonic};

use crate::rtype::RType;

/// A field of data. In text each field is one word, except `Strings` and `Anything`, which may be
/// more.
#[derive(Clone, Copy, Debug)]
pub enum Field {
    /// A number of 16 bits.
    U16,
    /// A number of 32 bits.
    U32,
    /// An IPv4 address (RFC 1035 3.4.1).
    Ipv4,
    /// An IPv6 address (RFC 3596 2.2).
    Ipv6,
    /// A domain name.
    Domain,
    /// A character-string (RFC 1035 3.3).
    String,
    /// One or more character-strings, a word each, up to the end of the data. A type with this
    /// field has no other.
    Strings,
    /// Any octets, up to the end of the data: the only field of a type without a mnemonic.
    Anything,
}

/// A type that has a mnemonic.
pub(crate) struct TypeRow {
    pub(crate) number: u16,
    pub(crate) mnemonic: &'static [u8],
    pub(crate) fields: &'static [Field],
    /// Whether names in the data are compressed (RFC 3597 4).
    pub(crate) compresses: bool,
}

macro_rules! type_row {
    ($rtype:ident, $mnemonic:expr, [$($field:ident)*], compresses: $compresses:expr) => {
        TypeRow {
            number: RType::$rtype.0,
            mnemonic: $mnemonic,
            fields: &[$(Field::$field),*],
            compresses: $compresses,
        }
    };
}

// RFC 1035 3.3 and 3.4, RFC 3596 2.2, RFC 2782
const TYPES: [TypeRow; 10] = [
    type_row!(A, b"A", [Ipv4], compresses: false),
    type_row!(NS, b"NS", [Domain], compresses: true),
    type_row!(CNAME, b"CNAME", [Domain], compresses: true),
    type_row!(SOA, b"SOA", [Domain Domain U32 U32 U32 U32 U32], compresses: true),
    type_row!(PTR, b"PTR", [Domain], compresses: true),
    type_row!(HINFO, b"HINFO", [String String], compresses: false),
    type_row!(MX, b"MX", [U16 Domain], compresses: true),
    type_row!(TXT, b"TXT", [Strings], compresses: false),
    type_row!(AAAA, b"AAAA", [Ipv6], compresses: false),
    type_row!(SRV, b"SRV", [U16 U16 U16 Domain], compresses: false),
];

/// The table, by rising type number.
pub(crate) fn types() -> &'static [TypeRow]
    ensures { map row_for result.now ≡ type_table }
{
    &TYPES
}

/// The row of a type. `None` if the type has no mnemonic.
pub(crate) fn row_of_type(rtype: RType) -> Option<&'static TypeRow>
    ensures { option_map (λ r. row_for r.now) result ≡ row_of rtype.0 }
{
    numbered_row(types(), rtype.0)
}

fn numbered_row(rows: &[TypeRow], number: u16) -> Option<&TypeRow>
    ensures { option_map (λ r. r.now) result ≡ find (has_number number) rows.now }
{
    rows.iter().find(|row| row.number == number)
}

/// The fields of the data of a type. A type without a mnemonic has one field, of any octets (RFC
/// 3597 3).
pub fn fields_of_type(rtype: RType) -> &'static [Field]
    ensures { fields_in result.now ≡ fields_of rtype.0 }
{
    match row_of_type(rtype) {
        Some(row) => row.fields,
        None => &[Field::Anything],
    }
}

/// Whether the only field is `Strings` (RFC 1035 3.3.14).
pub(crate) fn is_strings(fields: &[Field]) -> bool
    ensures { result ≡ are_strings_alone (fields_in fields.now) }
{
    matches!(fields, [Field::Strings])
}

/// The row of the type whose mnemonic a word is, in any case.
pub(crate) fn row_of_mnemonic(word: &[u8]) -> Option<&'static TypeRow>
    ensures { option_map (λ r. row_for r.now) result ≡ row_by_mnemonic word.now }
{
    named_row(types(), word)
}

fn named_row<'a>(rows: &'a [TypeRow], word: &[u8]) -> Option<&'a TypeRow>
    ensures { option_map (λ r. r.now) result ≡ find (has_mnemonic word.now) rows.now }
{
    rows.iter()
        .find(|row| word.eq_ignore_ascii_case(row.mnemonic))
}
