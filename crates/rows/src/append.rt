// An entry written into the list.
ghost use Rattle.std.specs.Prelude.{◌≡◌, List, ◌∷◌, ◌++◌, ℕ, ◌+◌, ◌*◌, ◌<◌, ◌≤◌, length, take, drop};

// The words of a slice, from a place on. Word by word: by `copy_from_slice` the archive would want `memmove` of those who link it.
pub fn copy(list: &mut [u32], at: usize, slice: &[u32])
    requires { at + length slice.now ≤ length list.old }
    ensures { list.new ≡ take at list.old ++ (slice.now ++ drop (at + length slice.now) list.old) }
{
    for k in 0..slice.len() {
        list[at + k] = slice[k];
    }
}

// h, s, address and data of an entry, from a place on.
pub fn append(list: &mut [u32], at: usize, h: u32, s: u32, address: &[u32], data: &[u32])
    requires { (at + (2 + length address.now + length «data».now) ≤ length list.old) × (length address.now ≤ 16) × (length «data».now ≤ 32) }
    ensures { list.new ≡ take at list.old ++ ((h ∷ s ∷ (address.now ++ «data».now)) ++ drop (at + (2 + length address.now + length «data».now)) list.old) }
{
    list[at] = h;
    list[at + 1] = s;
    let next = at + 2;
    copy(list, next, address);
    copy(list, next + address.len(), data);
}
