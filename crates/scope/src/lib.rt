#![tactic(auto)]

ghost use Rattle.std.specs.Prelude.{◌≡◌, ◌+◌, ◌<◌, ◌≤◌, ◌↔◌, ◌∷◌, IsOk, OnOk, OnErr, length, take, drop, slice_set, if◌then◌else◌, nat_lt};
ghost use Rattle.battery.specs.Tree.{find, bind as bound};
ghost use Rattle.scope.specs.Bound.{scope_of};

// A name and what it is bound to. Entries stand in the order in which they were bound.
#[derive(Clone, Copy, Default)]
pub struct Entry<T> {
    pub name: u32,
    pub value: T,
}

// There is no room for what was to be bound.
#[derive(Clone, Copy, PartialEq, Debug)]
pub struct Full;

// What the newest entry of a name holds.
pub fn newest<T: Copy>(entries: &[Entry<T>], name: u32) -> Option<T>
    ensures { result ≡ find (scope_of entries.now) name }
{
    let entry = entries.iter().rev().find(|entry| entry.name == name)?;
    Some(entry.value)
}

// Binds one name more behind the first `len` entries; where there is no room, nothing changes.
pub fn bind<T: Copy>(entries: &mut [Entry<T>], len: usize, name: u32, value: T) -> Result<(), Full>
    ensures told { IsOk result ↔ (len < length entries.old) }
    ensures list { entries.new ≡ (if nat_lt len (length entries.old) then slice_set entries.old len (record { name = name; value = value }) else entries.old) }
    ensures below { take len entries.new ≡ take len entries.old }
    ensures scope { OnOk result (scope_of (take (len + 1) entries.new) ≡ (name, value) ∷ scope_of (take len entries.old)) }
{
    if len >= entries.len() {
        return Err(Full);
    }
    entries[len] = Entry { name, value };
    Ok(())
}

// Binds the names from `first` on to the values, in order, behind the first `len` entries; where
// there is no room, or there are more values than names of 16 bits, nothing changes.
pub fn bind_all<T: Copy>(
    entries: &mut [Entry<T>],
    len: usize,
    first: u16,
    values: &[T],
) -> Result<(), Full>
    ensures told { IsOk result ↔ ((length values.now ≤ 65536) × (len + length values.now ≤ length entries.old)) }
    ensures refused { OnErr result (entries.new ≡ entries.old) }
    ensures below { take len entries.new ≡ take len entries.old }
    ensures scope { OnOk result (scope_of (take (len + length values.now) entries.new) ≡ bound first values.now (scope_of (take len entries.old))) }
    ensures behind { drop (len + length values.now) entries.new ≡ drop (len + length values.now) entries.old }
{
    let room = entries.len();
    if values.len() > 65536 || len > room || values.len() > room - len {
        return Err(Full);
    }
    // Two slices go side by side: a zip over a lent part of the entries would say no more.
    for (i, value) in values.iter().enumerate() {
        entries[len + i] = Entry {
            name: first as u32 + i as u32,
            value: *value,
        };
    }
    Ok(())
}

#[cfg(test)]
mod tests {
    use super::*;

    #[test]
    fn newest_of_two(rt: HostRuntime) {
        let mut entries = [Entry::<u8>::default(); 2];
        assert_eq!(rt; bind(&mut entries, 0, 3, 1), Ok(()));
        assert_eq!(rt; bind(&mut entries, 1, 3, 2), Ok(()));
        assert_eq!(rt; bind(&mut entries, 2, 3, 4), Err(Full));
        assert_eq!(rt; newest(&entries, 3), Some(2));
    }

    #[test]
    fn bound_in_order(rt: HostRuntime) {
        let mut entries = [Entry::<u8>::default(); 3];
        assert_eq!(rt; bind_all(&mut entries, 1, 7, &[5, 6]), Ok(()));
        assert_eq!(rt; bind_all(&mut entries, 2, 8, &[8, 9]), Err(Full));
        assert_eq!(rt; newest(&entries, 8), Some(6));
    }
}
