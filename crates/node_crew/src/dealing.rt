//! The dealing of stations into crews, and back.

ghost use Rattle.std.specs.Prelude.{◌≡◌, ◌<◌, ◌+◌, ◌*◌, ◌/◌, ◌^◌, [], ◌∷◌, ◌++◌, IfOk, OnOk, length, map};
ghost use Rattle.node_crew.specs.Crews.{joined};
ghost use Rattle.stations.specs.Stations.{fixed};

use crate::crews::Crew;
use hpf_base::OutOfMemory;
use sendable_nodes::Node;
use stations::Station;
use std::alloc::Global;
use std::mem;

// Where a crew begins, when stations are dealt into so many crews as evenly as can be.
fn first_of(crew: usize, stations: usize, crews: usize) -> usize
    requires crew { crew < 2 ^ 32 }
    requires stations { stations < 2 ^ 32 }
    requires some { 0 < crews }
    ensures { result ≡ crew * stations / crews }
{
    crew * stations / crews
}

// The crew ends here, and the next one begins.
fn end_crew(
    alloc: Global,
    crews: &mut Vec<Crew>,
    crew: &mut Vec<Station<Node>>,
) -> Result<(), OutOfMemory>
    ensures crews { OnOk result (crews.new.items ≡ crews.old.items ++ map fixed crew.old.items ∷ []) }
    ensures crew { OnOk result (crew.new.items ≡ []) }
{
    let stations = mem::replace(crew, Vec::new(alloc));
    crews.push(Crew { stations })?;
    Ok(())
}

/// The stations dealt into so many crews of neighbours: all crews but the last one, and the last one. Of n stations crew t of c has those from
/// t * n / c up to (t + 1) * n / c, so none is empty where there are as many stations as crews.
pub(crate) fn crews_of(
    alloc: Global,
    stations: Vec<Station<Node>>,
    count: usize,
) -> Result<(Vec<Crew>, Crew), OutOfMemory>
    requires count { (0 < count) × (count < 2 ^ 32) }
    requires few { length stations.items < 2 ^ 32 }
    ensures joined { IfOk result (λ r. joined r.0.items ++ r.1 ≡ map fixed stations.items) }
    ensures count { IfOk result (λ r. length r.0.items < count) }
{
    let all = stations.len();
    let mut crews = Vec::new(alloc);
    let mut crew = Vec::new(alloc);
    let mut place = 0;
    for station in stations {
        if place == first_of(crews.len() + 1, all, count) {
            end_crew(alloc, &mut crews, &mut crew)?;
        }
        crew.push(station)?;
        place += 1;
    }
    Ok((crews, Crew { stations: crew }))
}

/// The stations of all crews, in order.
pub(crate) fn stations_of(
    alloc: Global,
    crews: Vec<Crew>,
) -> Result<Vec<Station<Node>>, OutOfMemory>
    ensures { IfOk result (λ stations. map fixed stations.items ≡ joined crews.items) }
{
    let mut all = Vec::new(alloc);
    for crew in crews {
        let mut stations = crew.stations;
        all.append(&mut stations)?;
    }
    Ok(all)
}
