//! Reads names from the text of zone files (RFC 1035 5.1).
ghost use Rattle.std.specs.Prelude.{◌≡◌, ◌≢◌, true, if◌then◌else◌, IsNone, ◌↔◌, [], ◌∷◌, ◌≤◌, length, IsTrue, IfOk, IfErr, OnOk, OnErr, Ok, IfSome, ◌<◌};
ghost use Rattle.dns_spec.specs.Names.{Octets, DomainName, is_label, folded};
ghost use Rattle.dns_spec.specs.NameText.{SpellsName, digits_front, name_fault};
ghost use Rattle.dns_name.specs.NameFault.{fault_code};
ghost use Rattle.dns_name.specs.TextForm.{ReadsLabel, PushesLabel, HasFault, IsNoLength, SpellsIff, spelled_as, Gives, digit_at, octet_at, is_label_end, Appended, SpellsFolded};

use crate::label::Label;
use crate::name::Name;
use arrayvec::ArrayVec;

// A label has at most 63 octets. One more octet is stored, so that a label that is too long is
// detected.
const KEPT_OCTETS: usize = 64;

/// Why a word does not spell a name.
#[derive(Clone, Copy, Debug, PartialEq, Eq)]
pub enum NameFault {
    /// A label is empty, as in `a..b`, or the word is empty.
    EmptyLabel = 1,
    /// A label has more than 63 octets (RFC 1035 2.3.4).
    LabelTooLong,
    /// The name, with the origin if it is relative, has more than 255 octets on the wire (RFC 1035
    /// 2.3.4).
    NameTooLong,
    /// A backslash begins no escape: neither `\X`, with a printable X that is no digit, nor `\DDD`,
    /// three digits up to 255.
    BadEscape,
}

impl NameFault {
    /// The number of the fault, 1 to 4 in the order of the variants.
    pub fn code(self) -> u8
        ensures { result ≡ fault_code self }
    {
        self as u8
    }
}

impl Name {
    /// The name that a word of a zone file spells, relative to `origin` (RFC 1035 5.1).
    ///
    /// `@` alone is the origin and `.` alone the root. A word without a final dot continues with
    /// the labels of the origin: `www` at `example.` is `www.example.` The case of letters is
    /// kept. An octet is spelled as itself, as `\X` or as `\DDD`.
    ///
    /// Labels are checked from the left. Within a label, a bad escape is reported before an empty
    /// label or one that is too long. A name that is too long is reported only if all its labels
    /// are valid.
    pub fn read_text(word: &[u8], origin: &Name) -> Result<Name, NameFault>
        ensures name { (n : DomainName) → (result ≡ Ok n) ↔ SpellsName origin.now word.now n }
        ensures which { IfErr result (λ fault. fault_code fault ≡ name_fault word.now) }
    {
        let mut name = Name::root();
        name.spell_as_written(word, origin)?;
        Ok(name)
    }

    // Sets the name to the one that `read_text` returns. After a fault the name is unspecified. Out
    // of line: if it were inlined into `spell`, its buffer would be cleared for each word.
    #[cold]
    #[inline(never)]
    fn spell_as_written(&mut self, word: &[u8], origin: &Name) -> Result<(), NameFault>
        ensures ok { OnOk result (SpellsName origin.now word.now self.new) }
        ensures only { OnOk result
            ((n : DomainName) → SpellsName origin.now word.now n → n ≡ self.new) }
        ensures fault { OnErr result
            ((n : DomainName) → SpellsName origin.now word.now n → ⊥) }
        ensures which { IfErr result (λ fault. fault_code fault ≡ name_fault word.now) }
    {
        if word.is_empty() {
            return Err(NameFault::EmptyLabel);
        }
        if word == b"@".as_slice() {
            self.copy_from(&origin.borrowed());
            return Ok(());
        }
        self.clear();
        if word == b".".as_slice() {
            return Ok(());
        }
        spell_labels(self, word, origin)
    }

    /// Sets the name to the one that a word spells, in lower case, like `read_text` and then
    /// `fold`. A word without an escape is read in one pass.
    ///
    /// After a fault the name is unspecified, but in lower case.
    pub fn spell(&mut self, word: &[u8], origin: &Name) -> Result<(), NameFault>
        ensures ok { OnOk result (SpellsFolded origin.now word.now self.new) }
        ensures only { OnOk result
            ((n : DomainName) → SpellsName origin.now word.now n → folded n ≡ self.new) }
        ensures fault { OnErr result
            ((n : DomainName) → SpellsName origin.now word.now n → ⊥) }
        ensures low { folded self.new ≡ self.new }
        ensures which { IfErr result (λ fault. fault_code fault ≡ name_fault word.now) }
    {
        if word == b"@".as_slice() {
            self.copy_from(&origin.borrowed());
            self.fold_in_place();
            return Ok(());
        }
        if self.spell_plain(word, origin) {
            return Ok(());
        }
        let spelled = self.spell_as_written(word, origin);
        self.fold_in_place();
        spelled
    }
}

// Adds the labels that the word spells to `name`, which must be the root, and then those of the
// origin if the word is relative.
fn spell_labels(name: &mut Name, word: &[u8], origin: &Name) -> Result<(), NameFault>
    requires some { word.now ≢ [] }
    requires root { name.old ≡ [] }
    ensures iff { SpellsIff origin.now word.now (spelled_as result name.new) }
    ensures which { IfErr result (λ fault. fault_code fault ≡ name_fault word.now) }
{
    let mut fits = true;
    let mut rest = word;
    'labels: while !rest.is_empty() {
        let (label_fits, end) = push_label(name, rest)?;
        fits &= label_fits;
        let Some((_, others)) = end.split_first() else {
            fits &= name.append(origin);
            return check_fits(fits);
        };
        rest = others;
    }
    check_fits(fits)
}

fn check_fits(fits: bool) -> Result<(), NameFault>
    ensures { result ≡ (if fits then Ok tt else Err NameFault.NameTooLong) }
{
    if fits {
        Ok(())
    } else {
        Err(NameFault::NameTooLong)
    }
}

// Reads the label at the beginning of the text, and adds it to the name if it fits.
//
// Returns whether the label fits, and the text after the label, which is empty or begins with a
// dot.
fn push_label<'a>(name: &mut Name, text: &'a [u8]) -> Result<(bool, &'a [u8]), NameFault>
    ensures ok { IfOk result (λ x. PushesLabel text.now name.old x.0 x.1.now name.new) }
    ensures err { IfErr result (λ fault. HasFault text.now (fault_code fault)) }
{
    let Some((octets, end)) = label_text(text) else {
        return Err(NameFault::BadEscape);
    };
    Ok((push_octets(name, octets.as_slice())?, end))
}

// Adds the label with these octets to the name if it fits, and returns whether it does.
fn push_octets(name: &mut Name, octets: &[u8]) -> Result<bool, NameFault>
    ensures label { IfOk result (λ _. IsTrue (is_label octets.now)) }
    ensures ok { IfOk result (λ fits. Appended name.old (octets.now ∷ []) fits name.new) }
    ensures err { IfErr result (λ fault. IsNoLength octets.now (fault_code fault)) }
{
    if octets.is_empty() {
        return Err(NameFault::EmptyLabel);
    }
    let label = Label::new(octets).ok_or(NameFault::LabelTooLong)?;
    Ok(name.push(label))
}

// The first 64 octets, or fewer, of the label at the beginning of the text, and the text after the
// label. `None` if the label contains a bad escape.
fn label_text(text: &[u8]) -> Option<(ArrayVec<u8, KEPT_OCTETS>, &[u8])>
    ensures some { IfSome result (λ x. ReadsLabel text.now x.0.items x.1.now) }
    ensures end { IfSome result (λ x. IsTrue (is_label_end x.1.now)) }
    ensures none { IsNone result → HasFault text.now 4 }
{
    let mut octets = ArrayVec::new();
    let mut rest = text;
    'octets: while !at_label_end(rest) {
        let (octet, others) = first_octet(rest)?;
        if !octets.is_full() {
            octets.push(octet);
        }
        rest = others;
    }
    Some((octets, rest))
}

/// The octet that the text begins with, and the text after its spelling: the octet itself, `\X` or
/// `\DDD` (RFC 1035 5.1).
///
/// `None` at the end of the text, and if a backslash begins no escape. A dot is an octet like any
/// other.
#[tactic(auto, unfolding(crate::specs::TextForm::octet_at))]
pub fn first_octet(text: &[u8]) -> Option<(u8, &[u8])>
    ensures { Gives result (octet_at text.now) }
{
    let (first, rest) = text.split_first()?;
    if *first != b'\\' {
        return Some((*first, rest));
    }
    let (escaped, end) = rest.split_first()?;
    if escaped.is_ascii_digit() {
        return decimal(rest);
    }
    if *escaped < b' ' || *escaped > b'~' {
        return None;
    }
    Some((*escaped, end))
}

fn decimal(text: &[u8]) -> Option<(u8, &[u8])>
    ensures { Gives result (digits_front text.now) }
{
    let (hundreds, text) = first_digit(text)?;
    let (tens, text) = first_digit(text)?;
    let (ones, text) = first_digit(text)?;
    let value = u8::try_from(100 * hundreds + 10 * tens + ones).ok()?;
    Some((value, text))
}

/// The value of the decimal digit at the beginning of the text, and the text after it. `None` if
/// there is no digit.
pub fn first_digit(text: &[u8]) -> Option<(u16, &[u8])>
    ensures value { Gives result (digit_at text.now) }
    ensures bound { IfSome result (λ x. x.0 < 10) }
{
    let (first, rest) = text.split_first()?;
    if !first.is_ascii_digit() {
        return None;
    }
    Some((u16::from(*first - b'0'), rest))
}

fn at_label_end(text: &[u8]) -> bool
    ensures { result ≡ is_label_end text.now }
{
    text.first().is_none_or(|first| *first == b'.')
}
