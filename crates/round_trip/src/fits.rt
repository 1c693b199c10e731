// What the types say: each number of a table and each byte of a slice is within its type. The functions do nothing; their
// promises hold of every value that the types allow.
ghost use Rattle.std.specs.Prelude.{◌^◌, ◌<◌, ◌≡◌, length};
ghost use Rattle.writer.specs.Fits.{Bytes, EventFits, ValuesFit, TableFits};
ghost use Rattle.round_trip.specs.Slots.{EventsFit};

use table::{Event, LocationNo, Table};

fn byte(x: u8)
    ensures { x < 2 ^ 8 }
{}

fn value(x: u16)
    ensures { x < 2 ^ 16 }
{}

fn mask(x: u32)
    ensures { x < 2 ^ 32 }
{}

fn location(x: LocationNo)
    ensures { x.0 < 2 ^ 8 }
{
    byte(x.0)
}

fn event(e: Event)
    ensures { EventFits e }
{
    byte(e.kind);
    byte(e.hart);
    let place = e.location;
    location(place);
    byte(e.flags);
    mask(e.addr);
    mask(e.data);
    mask(e.ctrl);
    value(e.read);
    value(e.written);
    byte(e.operation);
    byte(e.operand);
}

fn values(v: [u16; table::LOCATIONS])
    ensures { ValuesFit v }
{
    for x in v {
        value(x);
    }
}

fn events(v: [Event; table::CAPACITY])
    ensures { EventsFit v }
{
    for e in v {
        event(e);
    }
}

pub fn table(t: Table)
    ensures { TableFits t }
{
    byte(t.harts);
    byte(t.locations);
    byte(t.count);
    byte(t.stated);
    byte(t.model);
    let initial = t.initial;
    values(initial);
    let list = t.events;
    events(list);
    let finals = t.finals;
    values(finals);
}

pub fn bytes(s: &[u8])
    ensures { Bytes s.now }
{
    for b in s {
        byte(*b);
    }
}
