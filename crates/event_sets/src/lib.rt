// The sets of a table's events, as masks: made in one pass over the events, so that what is asked of pairs of events elsewhere
// can be asked of whole sets.
#![tactic(auto)]

ghost use Rattle.std.specs.Prelude.{◌≡◌};
ghost use Rattle.table.specs.Counts.{Small};
ghost use Rattle.event_sets.specs.Sets.{sets_of};

use edition::EditionOne;
use masks::{one, one_if};
use table::{Kind, LOCATIONS, Table};

// Room for the harts of every edition.
pub const HARTS: usize = EditionOne::HARTS;

// Bit k stands for event k. An entry for each hart and each location: its events.
#[derive(Clone, Copy)]
pub struct Sets {
    pub readers: u32,
    pub writers: u32,
    pub acquires: u32,
    pub releases: u32,
    pub rcscs: u32,
    // The LRs and SCs.
    pub reserving: u32,
    pub harts: [u32; HARTS],
    pub locations: [u32; LOCATIONS],
}

pub fn of_table(t: Table) -> Sets
    requires { Small t }
    ensures { result ≡ sets_of t }
{
    let mut readers: u32 = 0;
    let mut writers: u32 = 0;
    let mut acquires: u32 = 0;
    let mut releases: u32 = 0;
    let mut rcscs: u32 = 0;
    let mut reserving: u32 = 0;
    let mut harts = [0u32; HARTS];
    let mut locations = [0u32; LOCATIONS];
    for k in 0..t.count {
        let e = t.events[k as usize];
        readers |= one_if(table::reads(e), k);
        writers |= one_if(table::writes(e), k);
        let flags = synchronization::annotations(t.model, e);
        acquires |= one_if(synchronization::acquires(flags), k);
        releases |= one_if(synchronization::releases(flags), k);
        rcscs |= one_if(synchronization::rcsc(flags), k);
        reserving |= one_if((e.kind == Kind::LR) | (e.kind == Kind::SC), k);
        let bit = one(k as u32);
        let h = e.hart as usize;
        harts[h] |= bit;
        let x = e.location.0 as usize;
        locations[x] |= bit;
    }
    Sets {
        readers,
        writers,
        acquires,
        releases,
        rcscs,
        reserving,
        harts,
        locations,
    }
}
