ghost use Rattle.std.specs.Prelude.{◌≡◌, [], ◌∷◌, ◌++◌, length, if◌then◌else◌, Decides, Some, None, nat_le, nat_lt, min};
ghost use Rattle.std.specs.Option.{option_map};
ghost use Rattle.std.specs.Cmp.Lexicographic.{pointwise, lists_per};
ghost use Rattle.std.specs.Cmp.{on_per};
ghost use Rattle.few.specs.Shown.{shown};

use super::Short;

impl<T: Copy + Default, const N: usize> Short<T, N> {
    pub fn new() -> Short<T, N>
        ensures { shown result ≡ [] }
    {
        Short {
            items: [T::default(); N],
            len: 0,
        }
    }

    // Nothing where there are more than N, or more than 255.
    pub fn of(items: &[T]) -> Option<Short<T, N>>
        ensures { option_map shown result ≡ (if nat_le (length items.now) (min N 255) then Some items.now else None) }
    {
        let len = items.len();
        if len > N || len > 255 {
            return None;
        }
        let mut all = [T::default(); N];
        all[..len].copy_from_slice(items);
        Some(Short {
            items: all,
            len: len as u8,
        })
    }
}

impl<T: Copy, const N: usize> Short<T, N> {
    // Where there is no room left, nothing is done.
    pub fn push(&mut self, item: T)
        ensures { shown self.new ≡ (if nat_lt (length (shown self.old)) (min N 255) then shown self.old ++ item ∷ [] else shown self.old) }
    {
        let next = self.len as usize;
        if next < N && self.len < 255 {
            self.items[next] = item;
            self.len += 1;
        }
    }

    pub fn as_slice(&self) -> &[T]
        ensures { result.now ≡ shown self.now }
    {
        &self.items[..self.len as usize]
    }

    pub fn len(&self) -> usize
        ensures { result ≡ length (shown self.now) }
    {
        self.as_slice().len()
    }
}

impl<T: Copy + Default, const N: usize> Default for Short<T, N> {
    ghost is_default = { λ short. shown short ≡ [] };

    fn default() -> Short<T, N> {
        Short::new()
    }
}

// Equal when the items are, one by one, whatever lies behind them.
impl<T: Copy + PartialEq, const N: usize> PartialEq for Short<T, N> {
    ghost eq = { λ a b. pointwise T.eq (shown a) (shown b) };

    ghost laws = { on_per shown (lists_per T.laws) };

    fn eq(&self, other: &Short<T, N>) -> bool
        ensures value { result ≡ pointwise T.eq (shown self.now) (shown other.now) }
        ensures means { ((x y : T) → Decides (T.eq x y) (x ≡ y)) → Decides result (shown self.now ≡ shown other.now) }
    {
        self.as_slice() == other.as_slice()
    }
}
