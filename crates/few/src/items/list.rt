ghost use Rattle.std.specs.Prelude.{◌≡◌, [], ◌∷◌, ◌++◌, length, if◌then◌else◌, Decides, Some, None, nat_le, nat_lt};
ghost use Rattle.std.specs.Option.{option_map};
ghost use Rattle.std.specs.Cmp.Lexicographic.{pointwise, lists_per};
ghost use Rattle.std.specs.Cmp.{on_per};
ghost use Rattle.few.specs.Listed.{listed};

use super::Few;

impl<T: Copy + Default, const N: usize> Few<T, N> {
    pub fn new() -> Few<T, N>
        ensures { listed result ≡ [] }
    {
        Few {
            items: [T::default(); N],
            len: 0,
        }
    }

    // Nothing where there are more than N.
    pub fn of(items: &[T]) -> Option<Few<T, N>>
        ensures { option_map listed result ≡ (if nat_le (length items.now) N then Some items.now else None) }
    {
        let len = items.len();
        if len > N {
            return None;
        }
        let mut all = [T::default(); N];
        all[..len].copy_from_slice(items);
        Some(Few { items: all, len })
    }
}

impl<T: Copy, const N: usize> Few<T, N> {
    // Where there is no room left, nothing is done.
    pub fn push(&mut self, item: T)
        ensures { listed self.new ≡ (if nat_lt (length (listed self.old)) N then listed self.old ++ item ∷ [] else listed self.old) }
    {
        let next = self.len;
        if next < N {
            self.items[next] = item;
            self.len = next + 1;
        }
    }

    pub fn as_slice(&self) -> &[T]
        ensures { result.now ≡ listed self.now }
    {
        &self.items[..self.len]
    }

    pub fn len(&self) -> usize
        ensures { result ≡ length (listed self.now) }
    {
        self.as_slice().len()
    }
}

impl<T: Copy + Default, const N: usize> Default for Few<T, N> {
    ghost is_default = { λ few. listed few ≡ [] };

    fn default() -> Few<T, N> {
        Few::new()
    }
}

// Equal when the items are, one by one, whatever lies behind them.
impl<T: Copy + PartialEq, const N: usize> PartialEq for Few<T, N> {
    ghost eq = { λ a b. pointwise T.eq (listed a) (listed b) };

    ghost laws = { on_per listed (lists_per T.laws) };

    fn eq(&self, other: &Few<T, N>) -> bool
        ensures value { result ≡ pointwise T.eq (listed self.now) (listed other.now) }
        ensures means { ((x y : T) → Decides (T.eq x y) (x ≡ y)) → Decides result (listed self.now ≡ listed other.now) }
    {
        self.as_slice() == other.as_slice()
    }
}
