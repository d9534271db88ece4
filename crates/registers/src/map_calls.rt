// The calls of the map store. Each is lent the head by value and the four version columns, keys, times, values and marks, one by one as the C interface
// has them; assign and add are two, since an effect is an enum.
ghost use Rattle.std.specs.Prelude.{◌≡◌};
ghost use Rattle.rules.specs.Calls.{Begin, Update, Abort};
ghost use Rattle.versions.specs.Versions.{columns};
ghost use Rattle.map_store.specs.Shape.{empty_head};
ghost use Rattle.map_store.specs.CallContracts.{Answered, Committed, read_reply, lookup_reply, ListedAt, Checkpointed};
ghost use Rattle.registers.specs.Answer.{Answers, Returns};

use crate::MapResult;
use answer::shown::Answer;
use map_store::MapHead;
use rules::Effect;

// The head of an empty store.
pub fn registers_map_empty() -> MapHead
    ensures { result ≡ empty_head }
{
    MapHead::empty()
}

// Begins a transaction that reads as of a time, and answers its number. Refusals 1, 4, 5, 6, 7.
pub fn registers_map_begin(
    h: MapHead,
    keys: &[u32],
    times: &[u64],
    values: &[u32],
    marks: &[u8],
    time: u64,
) -> MapResult
    ensures { Returns (λ a head. Answered (Begin time) h (columns keys.now times.now values.now marks.now) a head) result.head result.answer }
{
    map_store::begin::begin(h, keys, times, values, marks, time).into()
}

// A running transaction gives a key a value. Refusals 1, 2, 3, 8.
pub fn registers_map_assign(
    h: MapHead,
    keys: &[u32],
    times: &[u64],
    values: &[u32],
    marks: &[u8],
    transaction: u32,
    key: u32,
    value: u32,
) -> MapResult
    ensures { Returns (λ a head. Answered (Update transaction key (Effect.Assign value)) h (columns keys.now times.now values.now marks.now) a head) result.head result.answer }
{
    let e = Effect::Assign(value);
    map_store::update::update(h, keys, times, values, marks, transaction, key, e).into()
}

// A running transaction adds to a key. Refusals 1, 2, 3, 8.
pub fn registers_map_add(
    h: MapHead,
    keys: &[u32],
    times: &[u64],
    values: &[u32],
    marks: &[u8],
    transaction: u32,
    key: u32,
    amount: u32,
) -> MapResult
    ensures { Returns (λ a head. Answered (Update transaction key (Effect.Add amount)) h (columns keys.now times.now values.now marks.now) a head) result.head result.answer }
{
    let e = Effect::Add(amount);
    map_store::update::update(h, keys, times, values, marks, transaction, key, e).into()
}

// Ends a running transaction; its updates have no effect. Refusals 1, 2.
pub fn registers_map_abort(
    h: MapHead,
    keys: &[u32],
    times: &[u64],
    values: &[u32],
    marks: &[u8],
    transaction: u32,
) -> MapResult
    ensures { Returns (λ a head. Answered (Abort transaction) h (columns keys.now times.now values.now marks.now) a head) result.head result.answer }
{
    map_store::abort::abort(h, keys, times, values, marks, transaction).into()
}

// Commits a running transaction at a time later than last. Refusals 1, 2, 10, 11, 12.
pub fn registers_map_commit(
    h: MapHead,
    keys: &mut [u32],
    times: &mut [u64],
    values: &mut [u32],
    marks: &mut [u8],
    transaction: u32,
    time: u64,
) -> MapResult
    ensures { Returns (λ a head. Committed transaction time h (columns keys.old times.old values.old marks.old) a head (columns keys.new times.new values.new marks.new)) result.head result.answer }
{
    map_commit::commit(h, keys, times, values, marks, transaction, time).into()
}

// The value of a key as a running transaction sees it, or absent. Refusals 1, 2, 3.
pub fn registers_map_read(
    h: MapHead,
    keys: &[u32],
    times: &[u64],
    values: &[u32],
    marks: &[u8],
    transaction: u32,
    key: u32,
) -> Answer
    ensures { Answers (λ a. a ≡ read_reply transaction key h (columns keys.now times.now values.now marks.now)) result }
{
    map_store::read::read(h, keys, times, values, marks, transaction, key).into()
}

// The committed value of a key at a time, or absent. Refusals 1, 3, 4, 5.
pub fn registers_map_lookup(
    h: MapHead,
    keys: &[u32],
    times: &[u64],
    values: &[u32],
    marks: &[u8],
    key: u32,
    time: u64,
) -> Answer
    ensures { Answers (λ a. a ≡ lookup_reply key time h (columns keys.now times.now values.now marks.now)) result }
{
    map_store::lookup::lookup(h, keys, times, values, marks, key, time).into()
}

// The list at a time, into two lent columns, keys and values; answers the count of rows. Refusals 1, 4, 5, 12.
pub fn registers_map_list(
    h: MapHead,
    keys: &[u32],
    times: &[u64],
    values: &[u32],
    marks: &[u8],
    time: u64,
    listed: &mut [u32],
    contents: &mut [u32],
) -> Answer
    ensures { Answers (λ a. ListedAt time h (columns keys.now times.now values.now marks.now) listed.old contents.old a listed.new contents.new) result }
{
    map_list::list(h, keys, times, values, marks, time, listed, contents).into()
}

// Low becomes a time; kept are the versions after it and, for each key, its newest at or before it. Refusals 1, 4, 5, 9.
pub fn registers_map_checkpoint(
    h: MapHead,
    keys: &mut [u32],
    times: &mut [u64],
    values: &mut [u32],
    marks: &mut [u8],
    time: u64,
) -> MapResult
    ensures { Returns (λ a head. Checkpointed time h (columns keys.old times.old values.old marks.old) a head (columns keys.new times.new values.new marks.new)) result.head result.answer }
{
    map_checkpoint::checkpoint(h, keys, times, values, marks, time).into()
}
