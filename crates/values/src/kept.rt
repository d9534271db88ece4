// The updates of one key that a pass over the records kept.
ghost use Rattle.std.specs.Prelude.{◌≡◌, ◌<◌, ◌≤◌};
ghost use Rattle.values.specs.Pass.{kept_step, kept_effects, Grown};

use rules::{Effect, Record, Value};

// A column for each number of an update, the oldest update first. One column of structs would take twelve bytes for each update in place of nine, and
// c/registers.h has the stack that a read and a lookup take.
#[derive(Drop)]
pub(crate) struct Kept<const N: usize> {
    pub(crate) transactions: [u32; N],
    pub(crate) kinds: [u8; N],
    pub(crate) amounts: [u32; N],
    pub(crate) count: usize,
    ghost few: { count ≤ N },
}

// One update: its effect where it is the transaction's.
fn kept_step(transaction: u32, kind: u8, amount: u32, n: u32, old: Value) -> Value
    ensures { result ≡ kept_step transaction kind amount n old }
{
    if transaction != n {
        return old;
    }
    if kind == Record::ASSIGN {
        return rules::apply(Effect::Assign(amount), old);
    }
    rules::apply(Effect::Add(amount), old)
}

impl<const N: usize> Kept<N> {
    pub(crate) fn none() -> Self
        ensures { result.count ≡ 0 }
    {
        Kept {
            transactions: [0; N],
            kinds: [0; N],
            amounts: [0; N],
            count: 0,
        }
    }

    // One more.
    pub(crate) fn push(&mut self, r: Record)
        requires { self.old.count < N }
        ensures { Grown r self.old.transactions self.old.kinds self.old.amounts self.old.count self.new.transactions self.new.kinds self.new.amounts self.new.count }
    {
        let at = self.count;
        self.transactions[at] = r.transaction;
        self.kinds[at] = r.kind;
        self.amounts[at] = r.value;
        self.count = at + 1;
    }

    // What those of one transaction make of a value, in their order.
    pub(crate) fn effects(&self, n: u32, old: Value) -> Value
        ensures { result ≡ kept_effects self.now.transactions self.now.kinds self.now.amounts n self.now.count old }
    {
        let mut v = old;
        for i in 0..self.count {
            v = kept_step(self.transactions[i], self.kinds[i], self.amounts[i], n, v);
        }
        v
    }
}
