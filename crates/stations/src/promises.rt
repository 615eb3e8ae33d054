//! Laws of stations that have ended, as functions that do nothing.

ghost use Rattle.std.specs.Prelude.{◌≡◌, ℕ, List, map, slice_get, Some};
ghost use Rattle.letters.specs.declared.letter.Letter.{Letter};
ghost use Rattle.node_law.specs.NodeSteps.{NodeSteps, sent};
ghost use Rattle.node_law.specs.Phases.{Lockstep, all_moves};
ghost use Rattle.pair_mailbox.specs.Ends.{Outgoing, Incoming};
ghost use Rattle.stations.specs.Ended.{AllEnded, AreStationsOf, ArePassed, AreLast};
ghost use Rattle.stations.specs.Stations.{StationState};

/// Stations of phased nodes that have all ended, and whose letters were passed in order, have the last nodes of the lockstep run. On
/// each queue exactly the letters of that run were sent, in order, and all of them were taken.
pub fn law_of_stations<N>()
    ensures last { (S : NodeSteps N Letter) (from : List N) (ss : List (StationState N)) → AllEnded S ss → AreStationsOf from ss → ArePassed ss
        → AreLast S from (map (λ (s : StationState N). s.node) ss) }
    ensures letters { (S : NodeSteps N Letter) (from : List N) (ss : List (StationState N)) → AllEnded S ss → AreStationsOf from ss → ArePassed ss
        → (run : Lockstep S (slice_get from)) (p q : ℕ) (s t : StationState N) → slice_get ss p ≡ Some s → slice_get ss q ≡ Some t
        → (o : Outgoing) × (i : Incoming) × (slice_get s.outs q ≡ Some o) × (slice_get t.ins p ≡ Some i)
        × (o.sent ≡ sent q (all_moves run.phases run.last p)) × (i.taken ≡ o.sent) }
{}
