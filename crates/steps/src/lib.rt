// One step of the machine for RVTSO, behind a list of steps.
#![tactic(auto)]

ghost use Rattle.std.specs.Prelude.{◌<◌, ◌≡◌, not, ◌&&◌, IfSome, SomeIff, length, eqb};
ghost use Rattle.lists.specs.Below.{lowest, some};
ghost use Rattle.masks.specs.Bit.{bit};
ghost use Rattle.table.specs.Counts.{Small};
ghost use Rattle.table.specs.Events.{capacity, hart};
ghost use Rattle.model.specs.Axioms.{breaks_pair};
ghost use Rattle.machine.specs.Machine.{unsure};
ghost use Rattle.steps.specs.Steps.{Made, Room, OfBuffers, IsNewest, may_read, returned_by, Issues, Drains, Steps, Begun, RunsAs};
ghost use Rattle.steps.specs.Replies.{IfTso, step_reply, stepped_by};

use event_sets::{HARTS, Sets};
use masks::{has, highest_set, less, mask_if, one};
use reads_from::{NOTHING, returned_from};
use refusals::Refusal;
use successors::SLOTS;
use table::{EventNo, Kind, Model, Table};

// A table of model 1, and what its steps are told by: sets of its events, and for each event the mask of its steady predecessors.
#[derive(Clone, Copy)]
struct Machine {
    table: Table,
    sets: Sets,
    pred: [u32; SLOTS],
}

// What the steps so far have done, beside the order and the returned list: masks of the events that aren't issued and of those
// in a buffer; how many the order has.
#[derive(Clone, Copy)]
struct Done {
    left: u32,
    held: u32,
    len: usize,
}

// A step that was taken: its event, and what is done with it.
#[derive(Clone, Copy)]
struct Taken {
    event: EventNo,
    done: Done,
}

// A step that is answered: its event, and what a returned list holds for it.
#[derive(Clone, Copy)]
pub struct StepTaken {
    pub event: u8,
    pub entry: u8,
}

// The lowest event of hart h in the mask. Any number may be a hart's.
fn first_of(t: Table, m: u32, h: u64) -> Option<EventNo>
    requires { t.count < capacity }
    ensures { let e = lowest t.count (λ e. eqb (hart t e) h && bit m e) in SomeIff result (e < t.count) (record { 0 = e }) }
{
    for e in 0..t.count {
        let y = t.events[e as usize];
        if (u64::from(y.hart) == h) & has(m, e as u32) {
            return Some(EventNo(e));
        }
    }
    None
}

// The newest store in the buffer of r's hart to r's location.
fn newest(m: Machine, held: u32, r: EventNo) -> Option<EventNo>
    requires { Made m × (r.0 < m.table.count) }
    ensures inside { IfSome result (λ w. w.0 < m.table.count) }
    ensures newest { OfBuffers m.table held (λ s. IsNewest m.table s r.0 result) }
{
    let t = m.table;
    let y = t.events[r.0 as usize];
    let s = m.sets;
    let own = held & s.harts[y.hart as usize] & s.locations[y.location.0 as usize];
    if own == 0 {
        None
    } else {
        Some(EventNo(highest_set(own) as u8))
    }
}

// The store w is an SC, or depends on a buffered one: no mask names a plain store.
fn unsure(m: Machine, held: u32, w: EventNo) -> bool
    requires { Made m × (w.0 < m.table.count) }
    ensures { OfBuffers m.table held (λ s. result ≡ unsure m.table s w.0) }
{
    let t = m.table;
    let z = t.events[w.0 as usize];
    (z.kind == Kind::SC) | (held & (z.addr | z.data) != 0)
}

// The reader r may issue, where w is that newest store.
fn may_read(m: Machine, held: u32, r: EventNo, w: Option<EventNo>) -> bool
    requires { Made m × (r.0 < m.table.count) × IfSome w (λ e. e.0 < m.table.count) }
    ensures { OfBuffers m.table held (λ s. result ≡ may_read m.table s r.0 w) }
{
    if held & m.pred[r.0 as usize] != 0 {
        return false;
    }
    match w {
        Some(w) => !unsure(m, held, w),
        None => true,
    }
}

// What the reader r returns from.
fn returned(t: Table, gmo: &[u8], r: EventNo, w: Option<EventNo>) -> u8
    requires { (r.0 < t.count) × (t.count < capacity) }
    ensures { result ≡ returned_by t gmo.now r.0 w }
{
    let y = t.events[r.0 as usize];
    match w {
        Some(w) if y.kind != Kind::AMO => w.0,
        _ => returns::last_writer(t, gmo, y.location),
    }
}

// Atomicity allows e as the last of the order.
fn atomic(t: Table, rf: &[u8], gmo: &[u8], e: EventNo) -> bool
    requires { (e.0 < t.count) × (t.count < capacity) × (length rf.now ≡ t.count) }
    ensures { result ≡ not (some t.count (λ l. breaks_pair t rf.now gmo.now l e.0)) }
{
    for l in 0..t.count {
        if atomicity::breaks_pair(t, rf, gmo, EventNo(l), e) {
            return false;
        }
    }
    true
}

// A hart issues its next event e.
fn issue(m: Machine, done: Done, order: &mut [u8], rf: &mut [u8], e: EventNo) -> Option<Taken>
    requires { Made m × (e.0 < m.table.count) × Room done order.old rf.old }
    ensures { Issues m.table done order.old rf.old e.0 order.new rf.new result }
{
    let t = m.table;
    let y = t.events[e.0 as usize];
    let bit = one(e.0 as u32);
    let left = less(done.left, bit);
    let len = done.len;
    if !table::reads(y) {
        let held = done.held | mask_if(table::writes(y), bit);
        let done = Done { left, held, len };
        return Some(Taken { event: e, done });
    }
    let held = done.held;
    let w = newest(m, held, e);
    if !may_read(m, held, e, w) {
        return None;
    }
    rf[e.0 as usize] = returned(t, &order[..len], e, w);
    order[len] = e.0;
    let len = len + 1;
    let done = Done { left, held, len };
    Some(Taken { event: e, done })
}

// A hart drains its oldest buffered store e.
fn drain(m: Machine, done: Done, order: &mut [u8], rf: &[u8], e: EventNo) -> Option<Taken>
    requires { Made m × (e.0 < m.table.count) × Room done order.old rf.now }
    ensures { Drains m.table done order.old rf.now e.0 order.new result }
{
    let t = m.table;
    let n = t.count as usize;
    let at = done.len;
    order[at] = e.0;
    let len = at + 1;
    if !atomic(t, &rf[..n], &order[..len], e) {
        return None;
    }
    let left = done.left;
    let held = less(done.held, one(e.0 as u32));
    let done = Done { left, held, len };
    Some(Taken { event: e, done })
}

// The step b.
fn take(m: Machine, done: Done, order: &mut [u8], rf: &mut [u8], b: u64) -> Option<Taken>
    requires { Made m × Room done order.old rf.old }
    ensures { Steps m.table done order.old rf.old b order.new rf.new result }
{
    if b < HARTS as u64 {
        let e = first_of(m.table, done.left, b)?;
        return issue(m, done, order, rf, e);
    }
    let e = first_of(m.table, done.held, b - HARTS as u64)?;
    drain(m, done, order, &*rf, e)
}

// The steps of a list, from the start.
fn run(m: Machine, steps: &[u8], order: &mut [u8], rf: &mut [u8]) -> Option<Done>
    requires { Made m × Begun m.table order.old rf.old }
    ensures { RunsAs m.table steps.now order.new rf.new result }
{
    let mut done = Done {
        left: u32::MAX,
        held: 0,
        len: 0,
    };
    for &b in steps {
        done = take(m, done, order, rf, u64::from(b))?.done;
    }
    Some(done)
}

// The step b behind the list.
fn step_behind(m: Machine, steps: &[u8], b: u64) -> Result<StepTaken, Refusal>
    requires { Made m }
    ensures { stepped_by result ≡ step_reply m.table steps.now b }
{
    let mut order = [0u8; SLOTS];
    let mut rf = [NOTHING; SLOTS];
    let done = run(m, steps, &mut order, &mut rf).ok_or(Refusal::Line(24))?;
    let taken = take(m, done, &mut order, &mut rf, b).ok_or(Refusal::Line(24))?;
    Ok(StepTaken {
        event: taken.event.0,
        entry: returned_from(&rf, taken.event),
    })
}

// The step b of a table behind a list of steps: 24, or its event and that event's entry.
pub fn answer(t: Table, steps: &[u8], b: u64) -> Result<StepTaken, Refusal>
    requires { Small t × IfTso t }
    ensures { stepped_by result ≡ step_reply t steps.now b }
{
    if t.model != Model::RVTSO {
        return Err(Refusal::Line(24));
    }
    let sets = event_sets::of_table(t);
    let pred = precedence::predecessors(t, sets);
    step_behind(
        Machine {
            table: t,
            sets,
            pred,
        },
        steps,
        b,
    )
}
