//! Laws of what the text of a zone file means.

ghost use Rattle.std.specs.Prelude.{◌≡◌, ◌≢◌, ◌≤◌, ◌++◌, ℕ, List, [], length};
ghost use Rattle.dns_spec.specs.Names.{Octets, DomainName};
ghost use Rattle.dns_spec.specs.FileFaults.{FileFault, too_long};
ghost use Rattle.dns_spec.specs.ZoneText.{most_octets, Extent, beginning, Entry};
ghost use Rattle.dns_spec.specs.Meaning.{Meaning, Nothing, records, fault_at, Means};
ghost use Rattle.dns_spec.specs.Records.{ResourceRecord};
ghost use Rattle.dns_spec.specs.AllFaults.{EntryFault, AllFaults};
ghost use Rattle.dns_spec.specs.Laws.{OctetsMean, meaning_by};

/// A text has at most one meaning: its records, or one fault (RFC 1035 section 5).
pub fn text_has_one_meaning()
    ensures { (o : DomainName) (text : Octets) (m n : Meaning)
        → Means o text m → Means o text n → m ≡ n }
{}

/// Every text has a meaning.
pub fn no_text_is_without_a_meaning()
    ensures { (o : DomainName) (text : Octets) → Nothing (Means o text) → ⊥ }
{}

/// If the octets `front`, after the entries `earlier` and before more text, mean a fault other than
/// `too_long`, then `front ++ more` means the same fault on the same line, whatever `more` is, and
/// whether or not it is all of the remaining text.
pub fn beginning_decides()
    ensures { (o : DomainName) (earlier : List Entry) (extent : Extent) (front more : Octets)
        (fault : FileFault) (line : ℕ)
        → OctetsMean o earlier beginning front (fault_at fault line) → fault ≢ too_long
        → OctetsMean o earlier extent (front ++ more) (fault_at fault line) }
{}

/// If a prefix of a text has at most 16,777,216 octets and means a fault other than `too_long`, the
/// whole text means that fault, on the same line.
pub fn faulty_beginning_makes_a_faulty_text()
    ensures { (o : DomainName) (front more : Octets) (fault : FileFault) (line : ℕ)
        → length front ≤ most_octets
        → OctetsMean o [] beginning front (fault_at fault line) → fault ≢ too_long
        → Means o (front ++ more) (fault_at fault line) }
{}

/// The first of all faults of a text is the fault that the text means, on the line on which the
/// faulty entry begins. A text without faults means the records of its entries.
pub fn first_of_all_faults_is_the_meaning()
    ensures { (o : DomainName) (text : Octets) (found : List EntryFault)
        (rs : List ResourceRecord) → AllFaults o text found rs
        → Means o text (meaning_by text found rs) }
{}

/// A text that means records has no fault, and its entries give these records.
pub fn text_of_records_has_no_fault()
    ensures { (o : DomainName) (text : Octets) (rs : List ResourceRecord)
        → Means o text (records rs) → AllFaults o text [] rs }
{}

/// A text has at most one list of all faults, and at most one list of records beside it.
pub fn text_has_one_list_of_faults()
    ensures { (o : DomainName) (text : Octets) (found others : List EntryFault)
        (rs ss : List ResourceRecord) → AllFaults o text found rs → AllFaults o text others ss
        → (found ≡ others) × (rs ≡ ss) }
{}
