//! Laws of the text in which records and zones are printed.

ghost use Rattle.std.specs.Prelude.{◌≡◌, ◌<◌, ◌≤◌, ◌↔◌, IsTrue, List, All, length};
ghost use Rattle.std.specs.List.{flat_map};
ghost use Rattle.std.specs.List.Sorted.{IsPermutation};
ghost use Rattle.dns_spec.specs.Names.{Octets, DomainName, folded};
ghost use Rattle.dns_spec.specs.Records.{ResourceRecord, HoldSameRecords, ZoneContents, zone_of, ordered_zone};
ghost use Rattle.dns_spec.specs.ZoneText.{most_octets};
ghost use Rattle.dns_spec.specs.Meaning.{records, Means, most_records};
ghost use Rattle.dns_spec.specs.Report.{Options, Report, Reports, zone_report};
ghost use Rattle.dns_spec.specs.ZonePrinted.{IsReadRecord, HasZoneType, record_line, printed_records, zone_text};

/// The text printed for records means these records, in the same order, whatever the origin (RFC
/// 1035 section 5), provided that the records are as read from a file (`IsReadRecord`), have types
/// that a zone may contain, are at most 100,000, and have a text of at most 16,777,216 octets.
pub fn printed_records_are_read_back()
    ensures { (o : DomainName) (rs : List ResourceRecord) → All IsReadRecord rs
        → All HasZoneType rs → length rs ≤ most_records
        → length (flat_map record_line rs) ≤ most_octets
        → Means o (flat_map record_line rs) (records rs) }
{}

/// The canonical text of a zone means the zone's records, in the order in which they are printed.
/// The conditions are those of `printed_records_are_read_back`.
pub fn zone_text_means_the_zone()
    ensures { (z : ZoneContents) (o : DomainName) → All IsReadRecord z.records
        → All HasZoneType z.records → length z.records ≤ most_records
        → length (zone_text z) ≤ most_octets
        → Means o (zone_text z) (records (printed_records z))
        × IsPermutation z.records (printed_records z) }
{}

/// The report of a zone stays the same if its records are put in canonical order.
pub fn order_of_records_changes_no_report()
    ensures { (options : Options) (o : DomainName) (rs : List ResourceRecord)
        → zone_report options (ordered_zone o rs) ≡ zone_report options (zone_of o rs) }
{}

/// Two lists of the same records, in any order and with or without duplicates, make the same zone
/// in canonical order, with the same canonical text and the same report (RFC 2181 section 5, RFC
/// 4034 section 6), provided that the records are as read from a file (`IsReadRecord`). Their types
/// and their number do not matter.
pub fn one_zone_has_one_text()
    ensures { (options : Options) (o : DomainName) (rs ss : List ResourceRecord)
        → All IsReadRecord rs → HoldSameRecords rs ss
        → (ordered_zone o rs ≡ ordered_zone o ss)
        × (zone_text (zone_of o rs) ≡ zone_text (zone_of o ss))
        × (zone_report options (zone_of o rs) ≡ zone_report options (zone_of o ss)) }
{}

/// Two files for the same origin that mean the same records, in any order and with or without
/// duplicates, have the same report, whatever the options.
pub fn files_of_one_zone_have_one_report()
    ensures { (o : DomainName) (t u : Octets) (rs ss : List ResourceRecord)
        → Means (folded o) t (records rs) → Means (folded o) u (records ss)
        → HoldSameRecords rs ss → (options : Options) (report : Report)
        → Reports o t options report ↔ Reports o u options report }
{}

/// The records that a text means satisfy `IsReadRecord`, have types that a zone may contain, and
/// are at most 100,000, as the other laws here require, provided that the octets of the origin are
/// below 256, as they are in every program.
pub fn records_of_a_text_are_as_read()
    ensures { (o : DomainName) (t : Octets) (rs : List ResourceRecord) → All (All (λ x. x < 256)) o
        → Means o t (records rs)
        → All IsReadRecord rs × All HasZoneType rs × (length rs ≤ most_records) }
{}

/// The canonical text of the zone that a file means has the same report as the file, whatever the
/// options, provided that this text has at most 16,777,216 octets and the octets of the origin are
/// below 256.
pub fn canonical_text_has_the_report_of_its_file()
    ensures { (o : DomainName) (t : Octets) (rs : List ResourceRecord) → All (All (λ x. x < 256)) o
        → Means (folded o) t (records rs)
        → length (zone_text (zone_of o rs)) ≤ most_octets → (options : Options) (report : Report)
        → Reports o (zone_text (zone_of o rs)) options report ↔ Reports o t options report }
{}

/// Printing twice is the same as printing once: if the zone of a file passes, the text printed for
/// it passes too and is printed unchanged, provided that this text has at most 16,777,216 octets
/// and the octets of the origin are below 256.
pub fn printing_twice_is_printing_once()
    ensures { (o : DomainName) (t : Octets) (options : Options) (report : Report)
        → All (All (λ x. x < 256)) o → Reports o t options report
        → IsTrue options.is_printing → IsTrue report.passes → length report.output ≤ most_octets
        → Reports o report.output options report }
{}

/// Two zones with the same canonical text contain the same records, each equally often, provided
/// that the records are as read from a file (`IsReadRecord`) and have types that a zone may
/// contain, each zone has at most 100,000 records, and the text has at most 16,777,216 octets. The
/// origins may differ, since the text does not state them.
pub fn zones_with_one_text_hold_the_same_records()
    ensures { (y z : ZoneContents) → All IsReadRecord y.records → All HasZoneType y.records
        → length y.records ≤ most_records
        → All IsReadRecord z.records → All HasZoneType z.records → length z.records ≤ most_records
        → length (zone_text y) ≤ most_octets → zone_text y ≡ zone_text z
        → IsPermutation y.records z.records }
{}
