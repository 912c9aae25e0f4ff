// Whether some assignment makes nodes false together, or true together, found without making nodes: the tests of rows 6 and 7.
#![tactic(auto)]

ghost use Rattle.std.specs.Prelude.{◌≡◌, ◌<◌};
ghost use Rattle.meets.specs.Meet.{judge_of, meets, Settles, Asks, neither, together, noted_in, with_note, judge_noted, NotesHold};

use nodes::Diagrams;

// Notes of what was found not to meet, three nodes to a number.
pub type Notes = [u64; 32768];

// Whether three nodes by themselves meet at the terminal t. None: they do as their parts do.
#[tactic(auto, unfolding(crate::specs::Meet::judge_of))]
fn judge(t: u32, f: u32, g: u32, h: u32) -> Option<bool>
    requires { t < 2 }
    ensures { result ≡ judge_of t f g h }
{
    let u = 1 - t;
    if (f == u) | (g == u) | (h == u) {
        return Some(false);
    }
    if (f == t) & (g == t) & (h == t) {
        return Some(true);
    }
    None
}

// Whether the notes have three nodes.
#[tactic(auto, unfolding(crate::specs::Meet::noted_in))]
fn noted(notes: &Notes, f: u32, g: u32, h: u32) -> bool
    requires { (f < 16384) × (g < 16384) × (h < 16384) }
    ensures { result ≡ noted_in notes.now f g h }
{
    notes[diagrams::slot(f, g, h)] == diagrams::key(f, g, h)
}

// Puts three nodes into the notes.
fn note(notes: &mut Notes, f: u32, g: u32, h: u32)
    requires { (f < 16384) × (g < 16384) × (h < 16384) }
    ensures { notes.new ≡ with_note notes.old f g h }
{
    let i = diagrams::slot(f, g, h);
    notes[i] = diagrams::key(f, g, h);
}

// The same by the notes, or else by the nodes themselves.
#[tactic(auto, unfolding(crate::specs::Meet::judge_noted))]
fn judge_noted(notes: &Notes, t: u32, f: u32, g: u32, h: u32) -> Option<bool>
    requires { (t < 2) × (f < 16384) × (g < 16384) × (h < 16384) }
    ensures { result ≡ judge_noted notes.now t f g h }
{
    if noted(notes, f, g, h) {
        return Some(false);
    }
    judge(t, f, g, h)
}

// Whether some assignment takes three nodes to the terminal t, with notes of what does not meet.
fn meets_in(d: Diagrams, notes: &mut Notes, t: u32, f: u32, g: u32, h: u32) -> bool
    requires { Asks d.words.now d.count t f g h × NotesHold d.words.now t notes.old }
    ensures { (result ≡ meets d.entry.words.now t f g h) × NotesHold d.entry.words.now t notes.new }
{
    if let Some(met) = judge_noted(notes, t, f, g, h) {
        return met;
    }
    let p = diagrams::divide(d, f, g, h);
    if meets_in(d, notes, t, p.f0, p.g0, p.h0) {
        return true;
    }
    if meets_in(d, notes, t, p.f1, p.g1, p.h1) {
        return true;
    }
    note(notes, f, g, h);
    false
}

// The same, with new notes: each number in them is three nodes of which one is the other terminal.
fn meets_anew(d: Diagrams, t: u32, f: u32, g: u32, h: u32) -> bool
    requires { Asks d.words.now d.count t f g h }
    ensures { result ≡ meets d.entry.words.now t f g h }
{
    let none = diagrams::key(1 - t, 0, 0);
    let mut notes: Notes = [none; 32768];
    meets_in(d, &mut notes, t, f, g, h)
}

// Whether some assignment takes three nodes to the terminal t, by their parts, in as many steps as are left: none where these are not enough.
fn meets_within(d: Diagrams, left: &mut u32, t: u32, f: u32, g: u32, h: u32) -> Option<bool>
    requires { Asks d.words.now d.count t f g h }
    ensures { Settles result (meets d.entry.words.now t f g h) }
{
    if let Some(met) = judge(t, f, g, h) {
        return Some(met);
    }
    *left = left.checked_sub(1)?;
    let p = diagrams::divide(d, f, g, h);
    if meets_within(d, left, t, p.f0, p.g0, p.h0)? {
        return Some(true);
    }
    meets_within(d, left, t, p.f1, p.g1, p.h1)
}

// The same with no bound. Most nodes need few steps, and notes are made for the others alone.
fn meet(d: Diagrams, t: u32, f: u32, g: u32, h: u32) -> bool
    requires { Asks d.words.now d.count t f g h }
    ensures { result ≡ meets d.entry.words.now t f g h }
{
    let mut left = 1024;
    match meets_within(d, &mut left, t, f, g, h) {
        Some(met) => met,
        None => meets_anew(d, t, f, g, h),
    }
}

// Whether some assignment makes the pair of h and l neither.
#[tactic(auto, unfolding(crate::specs::Meet::neither))]
pub fn neither(d: Diagrams, h: u32, l: u32) -> bool
    requires { (h < d.count) × (l < d.count) }
    ensures { result ≡ neither d.entry.words.now h l }
{
    meet(d, 0, h, l, 0)
}

// Whether some assignment makes three nodes true together.
#[tactic(auto, unfolding(crate::specs::Meet::together))]
pub fn together(d: Diagrams, f: u32, g: u32, h: u32) -> bool
    requires { (f < d.count) × (g < d.count) × (h < d.count) }
    ensures { result ≡ together d.entry.words.now f g h }
{
    meet(d, 1, f, g, h)
}
