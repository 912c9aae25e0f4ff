// Look, over a store, a list and an address that are already tested.
#![tactic(auto)]

ghost use Rattle.std.specs.Prelude.{◌≡◌, ◌+◌, ◌*◌, ◌<◌, ◌≤◌, length};
ghost use Rattle.model.specs.Record.{cell_words, size, entry_at};
ghost use Rattle.model.specs.Access.{Look};
ghost use Rattle.addresses.specs.Contract.{shape, Looks};
ghost use Rattle.addresses.specs.Words.{WordDid};

use conditions::Builder;
use semantics::Sizes;

// The entries of a list: their sizes, how many there are, and their words. Of which store those are nodes is not here: `Looks` asks it where the store is.
#[derive(Clone, Copy)]
pub struct Entries<'a> {
    pub sizes: Sizes,
    pub count: usize,
    pub list: &'a [u32],
}

impl<'a> Entries<'a> {
    // The words of entry j.
    fn entry(self, j: usize) -> &'a [u32]
        requires { (self.sizes.n ≤ 8) × (self.sizes.w ≤ 16) × (j * size (shape self.sizes 0) + size (shape self.sizes 0) ≤ length self.list.now) }
        ensures { result.now ≡ entry_at (shape self.entry.sizes 0) self.entry.list.now j }
    {
        let size = ranges::entry_words(self.sizes);
        let at = j * size;
        &self.list[at..at + size]
    }
}

// Look(a), into a word: what the entries make of it, oldest first.
pub fn look(build: &mut Builder, entries: Entries, address: &[u32], word: &mut [u32])
    requires { Looks entries.sizes entries.count build.old.store.count entries.list.now address.now × (length word.old ≡ cell_words (shape entries.sizes 0)) }
    ensures { WordDid build.old build.new word.new (Look (shape entries.entry.sizes entries.entry.count) entries.entry.list.now address.now) }
{
    let z = entries.sizes;
    let inside = addresses::narrow(build, z.n as usize, address, 1);
    word.fill(1);
    for j in 0..entries.count {
        merging::look_entry(build, z, inside, entries.entry(j), word);
    }
    merging::settle(build, inside, word);
}
