// What a check and an assert build: a look, compared with data.
#![tactic(auto)]

ghost use Rattle.std.specs.Prelude.{◌≡◌, ◌*◌, ◌<◌, length};
ghost use Rattle.conditions.specs.Builder.{Did};
ghost use Rattle.model.specs.Record.{cell_words};
ghost use Rattle.model.specs.Access.{Assert, Check};
ghost use Rattle.building.specs.Contract.{Nodes, Looks};
ghost use Rattle.comparisons.specs.Contract.{AssertBuiltDid};

use building::{ControlNode, Entries};
use conditions::Builder;
use model::Fields;

// What an assert builds before its entry.
#[derive(Clone, Copy)]
pub struct AssertBuilt {
    pub condition: u32,
    pub not_b: u32,
    pub keep: u32,
}

// The check condition that a check builds. The word is its caller's scratch, for the look: what it holds afterwards is left open.
pub fn check_builds(
    r: Fields,
    list: &[u32],
    build: &mut Builder,
    b: ControlNode,
    address: &[u32],
    data: &[u32],
    word: &mut [u32],
) -> u32
    requires { Looks r.sizes r.entries build.old.store.count list.now address.now × (length word.old ≡ cell_words r) × (length «data».now ≡ cell_words r) × Nodes build.old.store.count «data».now × (b.0 < build.old.store.count) × (r.checked < build.old.store.count) }
    ensures { Did build.old build.new result (Check r list.now b.0 address.now «data».now) }
{
    let entries = Entries {
        sizes: r.sizes,
        count: r.entries as usize,
        list,
    };
    building::look(build, entries, address, word);
    let c = building::inside(build, word, data);
    let x = build.not(b.0);
    let y = build.or(x, c);
    build.and(r.checked, y)
}

// The assert condition that an assert builds, and what decides whether it is kept. The word is scratch likewise.
pub fn assert_builds(
    r: Fields,
    list: &[u32],
    build: &mut Builder,
    b: ControlNode,
    address: &[u32],
    data: &[u32],
    word: &mut [u32],
) -> AssertBuilt
    requires { Looks r.sizes r.entries build.old.store.count list.now address.now × (length word.old ≡ cell_words r) × (length «data».now ≡ cell_words r) × Nodes build.old.store.count «data».now × (b.0 < build.old.store.count) × (r.asserted < build.old.store.count) }
    ensures { AssertBuiltDid build.old build.new result (Assert r list.now b.0 address.now «data».now) }
{
    let entries = Entries {
        sizes: r.sizes,
        count: r.entries as usize,
        list,
    };
    building::look(build, entries, address, word);
    let x = building::inside(build, data, word);
    let not_b = build.not(b.0);
    let y = build.or(not_b, x);
    let condition = build.and(r.asserted, y);
    let c = building::inside(build, word, data);
    let z = build.and(x, c);
    let keep = build.or(not_b, z);
    AssertBuilt {
        condition,
        not_b,
        keep,
    }
}
