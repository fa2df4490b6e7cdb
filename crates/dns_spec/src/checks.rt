//! Laws of the checks of a zone.

ghost use Rattle.std.specs.Prelude.{◌≡◌, ℕ, ◌↔◌, ◌||◌, ◌++◌, IsTrue, List};
ghost use Rattle.std.specs.List.Sorted.{IsPermutation, IsStrictlySortedBy};
ghost use Rattle.std.specs.List.{Contains};
ghost use Rattle.dns_spec.specs.Names.{DomainName, folded};
ghost use Rattle.dns_spec.specs.Records.{ResourceRecord, ZoneContents};
ghost use Rattle.dns_spec.specs.Checks.{is_origin, is_owner, fails, faults, fault_order};
ghost use Rattle.dns_spec.specs.AllFaults.{is_lasting};

/// For a name in lower case, `faults` lists a fault with this owner and a given code if and only if
/// the name fails the check with that code.
pub fn fault_stands_where_its_check_fails()
    ensures { (z : ZoneContents) (n : DomainName) (code : ℕ) → folded n ≡ n
        → Contains (faults z) (record { owner = n; code = code }) ↔ IsTrue (fails z n code) }
{}

/// A name that fails a check is the origin or owns a record, so checking the origin and all owners
/// finds all faults.
pub fn what_fails_is_the_origin_or_an_owner()
    ensures { (z : ZoneContents) (n : DomainName) (code : ℕ) → IsTrue (fails z n code)
        → IsTrue (is_origin z n || is_owner z n) }
{}

/// `faults` lists no fault twice, and is sorted by owner in canonical order, then by code.
pub fn faults_stand_once_in_order()
    ensures { (z : ZoneContents) → IsStrictlySortedBy fault_order (faults z) }
{}

/// The faults of a zone do not depend on the order of its records.
pub fn faults_do_not_depend_on_order()
    ensures { (o : DomainName) (xs ys : List ResourceRecord) → IsPermutation xs ys
        → faults (record { origin = o; records = xs })
        ≡ faults (record { origin = o; records = ys }) }
{}

/// No further record removes a fault whose code is not `Z01`, `Z04` or `Z10`: each zone with these
/// records and more, in any order, has that fault too. The owner is in lower case.
pub fn lasting_faults_stay_with_more_records()
    ensures { (o : DomainName) (rs more ss : List ResourceRecord) (n : DomainName) (code : ℕ)
        → folded n ≡ n → IsTrue (is_lasting code) → IsPermutation (rs ++ more) ss
        → Contains (faults (record { origin = o; records = rs }))
        (record { owner = n; code = code })
        → Contains (faults (record { origin = o; records = ss }))
        (record { owner = n; code = code }) }
{}
