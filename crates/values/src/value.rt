// Rules 3.4 and 3.5: the value of a key at a time, in one pass over the records, and a read.
// The key's updates so far are kept, and applied where a commit stands.
ghost use Rattle.std.specs.Prelude.{◌≡◌, ◌≤◌};
ghost use Rattle.rules.specs.Limits.{most_records};
ghost use Rattle.rules.specs.Effects.{writes as writes_to};
ghost use Rattle.rules.specs.Values.{row_value, value_at, value as value_in, read_in};
ghost use Rattle.record.specs.Records.{records_of};
ghost use Rattle.values.specs.Base.{base_rows};
ghost use Rattle.values.specs.Pass.{Unwritten, Does, read_on};

use crate::base::BaseRows;
use crate::kept::Kept;
use journal::Journal;
use record::Records;
use rules::{Record, Value};

// An update of the key. The key is tested first: few records have it.
fn writes(r: Record, k: u32) -> bool
    ensures { result ≡ writes_to k r }
{
    r.key == k && r.is_update()
}

// Where the key's first update stands, or used: what commits before it changes nothing of the key.
fn first_update(records: Records<'_>, k: u32) -> usize
    ensures { Unwritten records.entry k result }
{
    for i in 0..records.used {
        if writes(records.at(i), k) {
            return i;
        }
    }
    records.used
}

// The value of k at t. All updates of the key stay behind in what is kept.
fn settle<const N: usize>(
    records: Records<'_>,
    start: Value,
    k: u32,
    t: u64,
    kept: &mut Kept<N>,
) -> Value
    requires { (records.used ≤ N) × (kept.old.count ≡ 0) }
    ensures { (result ≡ value_in start k t (records_of records.entry)) × Does k (records_of records.entry) kept.new.transactions kept.new.kinds kept.new.amounts kept.new.count }
{
    let mut v = start;
    for i in first_update(records, k)..records.used {
        let r = records.at(i);
        if r.settles(t) {
            v = kept.effects(r.transaction, v);
        }
        if writes(r, k) {
            kept.push(r);
        }
    }
    v
}

// The value of k at t out of at most N records.
fn value_of<const N: usize>(records: Records<'_>, start: Value, k: u32, t: u64) -> Value
    requires { (records.used ≤ N) × (N ≤ most_records) }
    ensures { result ≡ value_in start k t (records_of records.entry) }
{
    let mut kept = Kept::<N>::none();
    settle(records, start, k, t, &mut kept)
}

// The value of k at t; start is the value of its base row.
pub fn value(records: Records<'_>, start: Value, k: u32, t: u64) -> Value
    requires { records.used ≤ most_records }
    ensures { result ≡ value_in start k t (records_of records.entry) }
{
    if records.used <= Journal::FEW {
        value_of::<{ Journal::FEW }>(records, start, k, t)
    } else {
        value_of::<{ Journal::RECORDS }>(records, start, k, t)
    }
}

// A read of k in transaction n out of at most N records: its own effects are applied out of those kept.
fn read_of<const N: usize>(
    records: Records<'_>,
    start: Value,
    n: u32,
    snapshot: u64,
    k: u32,
) -> Value
    requires { (records.used ≤ N) × (N ≤ most_records) }
    ensures { result ≡ read_on start (records_of records.entry) n snapshot k }
{
    let mut kept = Kept::<N>::none();
    let v = settle(records, start, k, snapshot, &mut kept);
    kept.effects(n, v)
}

// A read of k in transaction n; start is the value of its base row.
fn read(records: Records<'_>, start: Value, n: u32, snapshot: u64, k: u32) -> Value
    requires { records.used ≤ most_records }
    ensures { result ≡ read_on start (records_of records.entry) n snapshot k }
{
    if records.used <= Journal::FEW {
        read_of::<{ Journal::FEW }>(records, start, n, snapshot, k)
    } else {
        read_of::<{ Journal::RECORDS }>(records, start, n, snapshot, k)
    }
}

// The value of k's base row, or absent.
pub fn base_value(base: BaseRows<'_>, k: u32) -> Value
    ensures { result ≡ row_value (base_rows base.entry) k }
{
    let Some(i) = column::find(base.keys, base.count, k) else {
        return None;
    };
    Some(base.values[i])
}

// The value of k at t, over the base.
pub fn value_at(base: BaseRows<'_>, records: Records<'_>, k: u32, t: u64) -> Value
    requires { records.used ≤ most_records }
    ensures { result ≡ value_at (base_rows base.entry) (records_of records.entry) t k }
{
    value(records, base_value(base, k), k, t)
}

// A read of k in transaction n: the value at the snapshot, then its own effects on k in order.
pub fn read_in(base: BaseRows<'_>, records: Records<'_>, n: u32, snapshot: u64, k: u32) -> Value
    requires { records.used ≤ most_records }
    ensures { result ≡ read_in (base_rows base.entry) (records_of records.entry) n snapshot k }
{
    read(records, base_value(base, k), n, snapshot, k)
}
