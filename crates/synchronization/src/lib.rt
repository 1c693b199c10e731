// Explicit synchronization: rules 4 to 8. x is event a, y is event b.
#![tactic(auto)]

ghost use Rattle.std.specs.Prelude.{◌≤◌, ◌<◌, ◌≡◌, cond, ◌&&◌, ◌||◌, eqb};
ghost use Rattle.masks.specs.Bit.{bit};
ghost use Rattle.table.specs.Events.{capacity, reading_kind, writing_kind, fence, fencetso};
ghost use Rattle.table.specs.Annotations.{rvtso, ztso, annotations, acquire_sc, release_sc, acquiring, releasing, pr, pw, sr, sw};
ghost use Rattle.model.specs.Rules.{rule4, rule8};

use table::{Event, EventNo, Kind, Model, Table};

// Bits of `flags`: the annotations of a memory event, the sets of a fence.
#[derive(Clone, Copy)]
pub struct Flag;

impl Flag {
    const ACQUIRE_PC: u32 = 0;

    const ACQUIRE_SC: u32 = 1;

    const RELEASE_PC: u32 = 2;

    const RELEASE_SC: u32 = 3;

    pub const PR: u32 = 0;

    pub const PW: u32 = 1;

    pub const SR: u32 = 2;

    pub const SW: u32 = 3;
}

pub fn flagged(e: Event, k: u32) -> bool
    requires { k < 32 }
    ensures { result ≡ bit e.flags k }
{
    masks::has(e.flags as u32, k)
}

// Fence f orders x before y: "a reads and pr or a writes and pw, with b reads and sr or b writes and sw".
fn fence_orders(x: Event, f: Event, y: Event) -> bool
    ensures { result ≡ (
        eqb f.kind fence
        && (reading_kind x.kind && pr f.flags || writing_kind x.kind && pw f.flags)
        && (reading_kind y.kind && sr f.flags || writing_kind y.kind && sw f.flags)) }
{
    (f.kind == Kind::FENCE)
        & (table::reads(x) & flagged(f, Flag::PR) | table::writes(x) & flagged(f, Flag::PW))
        & (table::reads(y) & flagged(f, Flag::SR) | table::writes(y) & flagged(f, Flag::SW))
}

// "fence.tso, where event a reads or both write"
fn tso_orders(x: Event, f: Event, y: Event) -> bool
    ensures { result ≡ (eqb f.kind fencetso && (reading_kind x.kind || writing_kind x.kind && writing_kind y.kind)) }
{
    (f.kind == Kind::FENCE_TSO) & (table::reads(x) | table::writes(x) & table::writes(y))
}

// "A fence between"
pub fn rule4(t: Table, a: EventNo, b: EventNo) -> bool
    requires { (a.0 < capacity) × (b.0 < capacity) × (t.count ≤ capacity) }
    ensures { result ≡ rule4 t a.0 b.0 }
{
    let x = t.events[a.0 as usize];
    let y = t.events[b.0 as usize];
    for m in 0..t.count {
        let f = t.events[m as usize];
        if table::between(a, x, EventNo(m), f, b, y)
            & (fence_orders(x, f, y) | tso_orders(x, f, y))
        {
            return true;
        }
    }
    false
}

// What RVTSO adds to what an event carries.
#[derive(Clone, Copy)]
struct Tso;

impl Tso {
    // Acquire-RCpc.
    const LOAD: u8 = 1;

    // Release-RCpc.
    const STORE: u8 = 4;

    // Acquire-RCsc and release-RCsc.
    const AMO: u8 = 10;
}

fn ztso(kind: u8) -> u8
    ensures { result ≡ ztso kind }
{
    if (kind == Kind::LOAD) | (kind == Kind::LR) {
        return Tso::LOAD;
    }
    if (kind == Kind::STORE) | (kind == Kind::SC) {
        return Tso::STORE;
    }
    if kind == Kind::AMO {
        return Tso::AMO;
    }
    0
}

fn added(model: u8, kind: u8) -> u8
    ensures { result ≡ cond (eqb model rvtso) (ztso kind) 0 }
{
    if model == Model::RVTSO { ztso(kind) } else { 0 }
}

// The annotations of a memory event, as the rules read them.
pub fn annotations(model: u8, e: Event) -> u8
    ensures { result ≡ annotations model e }
{
    e.flags | added(model, e.kind)
}

// Annotations have this one.
fn annotated(flags: u8, k: u32) -> bool
    requires { k < 32 }
    ensures { result ≡ bit flags k }
{
    masks::has(flags as u32, k)
}

// They have an acquire, of either kind.
pub fn acquires(flags: u8) -> bool
    ensures { result ≡ acquiring flags }
{
    annotated(flags, Flag::ACQUIRE_PC) | annotated(flags, Flag::ACQUIRE_SC)
}

// They have a release.
pub fn releases(flags: u8) -> bool
    ensures { result ≡ releasing flags }
{
    annotated(flags, Flag::RELEASE_PC) | annotated(flags, Flag::RELEASE_SC)
}

// They have an RCsc one.
pub fn rcsc(flags: u8) -> bool
    ensures { result ≡ (acquire_sc flags || release_sc flags) }
{
    annotated(flags, Flag::ACQUIRE_SC) | annotated(flags, Flag::RELEASE_SC)
}

// "a has an acquire.": x are its annotations.
pub fn rule5(x: u8) -> bool
    ensures { result ≡ acquiring x }
{
    acquires(x)
}

// "b has a release.": y are its annotations.
pub fn rule6(y: u8) -> bool
    ensures { result ≡ releasing y }
{
    releases(y)
}

// "Both have an RCsc annotation."
pub fn rule7(x: u8, y: u8) -> bool
    ensures { result ≡ ((acquire_sc x || release_sc x) && (acquire_sc y || release_sc y)) }
{
    rcsc(x) & rcsc(y)
}

// "a is the LR paired with SC b."
pub fn rule8(t: Table, a: EventNo, b: EventNo) -> bool
    requires { (a.0 < capacity) × (b.0 < capacity) × (t.count ≤ capacity) }
    ensures { result ≡ rule8 t a.0 b.0 }
{
    table::paired(t, a, b)
}
