// Totals of objects, and their limits.
ghost use Rattle.std.specs.Prelude.{◌≡◌, ◌<◌, ◌≤◌, ◌+◌, ◌^◌, length, sum_by, Option};
ghost use Rattle.om_resolve.specs.Totals.{amount as amount_of};
ghost use Rattle.om_resolve.specs.Targets.{section_size as size_of_section};
ghost use Rattle.om_resolve.specs.Causes.{Checks, over, long_object, limit_causes, commons_size as size_of_commons, data_size as size_of_data};
ghost use Rattle.om_resolve.specs.Linked.{IsLinked};

use crate::causes::{ResolveErr, Which};
use crate::linked::Linked;
use crate::prefixes::text_size;
use crate::scans::{common_size, rounded};
use om_object::words::section;
use om_object::{Object, Parts};

/// What is added up over objects.
#[derive(Clone, Copy, PartialEq, Eq, Debug)]
pub(crate) enum Total {
    /// The bytes of text.
    Text,
    /// The bytes of regions, each rounded up to a multiple of 8.
    Data,
    /// The external symbols.
    Symbols,
}

/// The rounded size of the section of a number.
fn section_size(p: &Parts, number: u32) -> u128
    ensures value { result ≡ size_of_section p.now number }
    ensures small { result ≤ 2 ^ 65 }
{
    match section(p, number) {
        None => 0,
        Some(s) => rounded(s.size),
    }
}

/// The bytes of an object's regions, each rounded.
fn data_size(p: &Parts) -> u128
    ensures value { result ≡ size_of_data p.now }
    ensures small { result ≤ 2 ^ 68 }
{
    let small = section_size(p, 4) + section_size(p, 5) + section_size(p, 8) + section_size(p, 9);
    let large = section_size(p, 2) + section_size(p, 3) + section_size(p, 6) + section_size(p, 15);
    small + large
}

/// How much an object adds to a total.
fn amount(p: &Parts, total: Total) -> u128
    ensures value { result ≡ amount_of total p.now }
    ensures small { result ≤ 2 ^ 68 }
{
    match total {
        Total::Text => u128::from(text_size(p)),
        Total::Data => data_size(p),
        Total::Symbols => p.symbols.as_slice().len() as u128,
    }
}

/// A total over all objects.
pub(crate) fn sum_of(objects: &[Object], total: Total) -> u128
    requires { length objects.now < 2 ^ 32 }
    ensures value { result ≡ sum_by (amount_of total) objects.now }
    ensures small { result ≤ 2 ^ 100 }
{
    let mut sum: u128 = 0;
    for i in 0..objects.len() {
        sum += amount(objects[i].parts(), total);
    }
    sum
}

/// The bytes of all commons that define names, each rounded.
pub(crate) fn commons_size(l: &Linked<'_>) -> u128
    requires { IsLinked l.now }
    ensures value { result ≡ size_of_commons l.now.objects.now }
    ensures small { result ≤ 2 ^ 100 }
{
    let mut sum: u128 = 0;
    for k in 0..l.known.len() {
        sum += common_size(l.definition(k as u32));
    }
    sum
}

/// Tests a total against its limit.
pub(crate) fn check_total(which: Which, limit: u128, total: u128) -> Result<(), ResolveErr>
    ensures { Checks (over which limit total) result }
{
    if total > limit {
        return Err(ResolveErr::Limit { which, total });
    }
    Ok(())
}

/// Tests the texts, each by itself.
pub(crate) fn check_texts(objects: &[Object]) -> Result<(), ResolveErr>
    ensures { Checks (long_object objects.now) result }
{
    for i in 0..objects.len() {
        let size = text_size(objects[i].parts());
        if let Err(cause) = check_total(Which::ObjText, 4_194_304, u128::from(size)) {
            return Err(cause);
        }
    }
    Ok(())
}

/// Tests all totals in their order.
pub(crate) fn check_limits(l: &Linked<'_>) -> Result<(), ResolveErr>
    requires { IsLinked l.now }
    ensures { Checks (limit_causes l.now.objects.now) result }
{
    let text = sum_of(l.objects, Total::Text);
    let data = sum_of(l.objects, Total::Data) + commons_size(l);
    let symbols = sum_of(l.objects, Total::Symbols);
    if let Err(cause) = check_total(Which::Objects, 256, l.objects.len() as u128) {
        return Err(cause);
    }
    if let Err(cause) = check_total(Which::Text, 16_777_216, text) {
        return Err(cause);
    }
    if let Err(cause) = check_texts(l.objects) {
        return Err(cause);
    }
    if let Err(cause) = check_total(Which::Data, 33_554_432, data) {
        return Err(cause);
    }
    check_total(Which::Symbols, 1_000_000, symbols)
}
