//! The faults of a zone, ordered by owner, then by code.

pub(crate) mod context;
pub(crate) mod owner;
pub(crate) mod target;

ghost use Rattle.std.specs.Prelude.{◌≡◌, ◌≤◌, ◌++◌, length, IfOk, OnOk};
ghost use Rattle.std.specs.List.{list_any};
ghost use Rattle.dns_spec.specs.Names.{folded};
ghost use Rattle.dns_spec.specs.Records.{ZoneContents};
ghost use Rattle.dns_spec.specs.Checks.{faults};
ghost use Rattle.dns_spec.specs.Meaning.{most_records};
ghost use Rattle.dns_zone.specs.ZoneForm.{AreOrdered};
ghost use Rattle.dns_zone.specs.KeyForm.{name_key};
ghost use Rattle.dns_zone.specs.OwnerKeysForm.{key_in, AreKeyed};
ghost use Rattle.dns_zone.specs.NamesForm.{IsChecked, owner_of};
ghost use Rattle.dns_zone.specs.FaultForm.{failed_from, faults_of, numbered_owner};
ghost use Rattle.dns_zone.specs.ReportedForm.{reported_at};

use crate::build_fault::CheckFault;
use crate::checks::context::CheckContext;
use crate::checks::owner::Owner;
use crate::checks::target::LastTarget;
use crate::names::{CheckedName, checked_names};
use crate::order::owner_keys::OwnerKeys;
use crate::store::stored::StoredRecord;
use dns_name::NameRef;
use std::alloc::{AllocError, Global};

/// The faults of a zone, ordered by owner, then by code. All owners are checked, and the origin
/// even if it owns nothing.
///
/// Fails only if allocation fails.
#[tactic(auto, using(crate::proofs::Common::wire_some))]
pub(crate) fn faults<'a>(
    alloc: Global,
    origin: &'a NameRef<'a>,
    records: &'a [StoredRecord],
    keyed: &'a OwnerKeys,
) -> Result<Vec<CheckFault>, AllocError>
    requires ordered { AreOrdered records.now }
    requires few { length records.now ≤ most_records }
    requires lower { folded origin.now ≡ origin.now }
    requires origin { key_in keyed.now.keys.items 0 origin.now ≡ name_key origin.now }
    requires keyed { AreKeyed keyed.now.keys.items records.now keyed.now.starts.items }
    ensures { IfOk result (λ found. faults_of
        (record { origin = origin.now; records = records.now }) found.items
        ≡ faults (record { origin = origin.now; records = records.now })) }
{
    let (key, _) = keyed.keys.as_slice().split_at(origin.octets().len() - 1);
    let names = checked_names(alloc, origin, key, records, keyed)?;
    let context = CheckContext {
        origin,
        key,
        records,
        names: names.as_slice(),
    };
    let mut found = Vec::new(alloc);
    let mut last = LastTarget::new();
    'names: for one in names.as_slice() {
        last.pass_name();
        report(&context, one, &mut last, &mut found)?;
    }
    Ok(found)
}

fn report<'a>(
    context: &'a CheckContext<'a>,
    one: &'a CheckedName<'a>,
    last: &mut LastTarget,
    found: &mut Vec<CheckFault>,
) -> Result<(), AllocError>
    requires { IsChecked context.now (owner_of context.now one.now) one.now }
    ensures { OnOk result (faults_of context.now found.new.items
        ≡ faults_of context.now found.old.items
        ++ reported_at context.now (owner_of context.now one.now)) }
{
    let name = context.name(one);
    let own = context.own(one);
    let owner = Owner {
        context,
        name: &name,
        key: one.key,
        own,
        is_below_cut: 0 < one.cut && one.cut < one.key.len(),
        is_apex: one.key == context.key(),
    };
    if owner.is_plain() {
        return Ok(());
    }
    add_failed(owner_number(one), &owner.judged(last), found)
}

// The number of a checked name as the owner of a fault.
fn owner_number(one: &CheckedName<'_>) -> u32
    requires { one.now.first ≤ one.now.end }
    ensures { (z : ZoneContents) → one.now.end ≤ length z.records
        → numbered_owner z result ≡ owner_of z one.now }
{
    if one.first < one.end {
        one.first + 1
    } else {
        0
    }
}

// Adds a fault for each check that failed. `failed` has an entry for each code, from code 1 on.
fn add_failed(owner: u32, failed: &[bool], found: &mut Vec<CheckFault>) -> Result<(), AllocError>
    requires { length failed.now ≤ 254 }
    ensures { OnOk result (found.new.items ≡ found.old.items ++ failed_from owner 1 failed.now) }
{
    // A fast path: most names fail no check.
    if failed == [false; 15].as_slice() {
        return Ok(());
    }
    let mut rest = failed;
    let mut code = 1;
    'checks: while let Some((fails, others)) = rest.split_first() {
        if *fails {
            found.push(CheckFault { owner, code })?;
        }
        rest = others;
        code += 1;
    }
    Ok(())
}
