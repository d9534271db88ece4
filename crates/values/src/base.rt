// The base rows that a call is lent.
ghost use Rattle.std.specs.Prelude.{◌≡◌};
ghost use Rattle.rules.specs.Columns.{Rows};

// A column of keys and one of values, and how many rows stand in both: the columns are lent with free cells behind, and `column::find` takes the count.
#[derive(Clone, Copy)]
pub struct BaseRows<'a> {
    pub keys: &'a [u32],
    pub values: &'a [u32],
    pub count: usize,
    ghost there: { Rows keys.now values.now count },
}

impl<'a> BaseRows<'a> {
    pub fn new(keys: &'a [u32], values: &'a [u32], count: usize) -> Self
        requires { Rows keys.now values.now count }
        ensures { (result.keys.now ≡ keys.now) × (result.values.now ≡ values.now) × (result.count ≡ count) }
    {
        BaseRows {
            keys,
            values,
            count,
        }
    }
}
