//! How each object was visited by the iterations so far.

ghost use Rattle.std.specs.Prelude.{◌≡◌, ◌<◌, OnOk, length, []};
ghost use Rattle.nest_clash.specs.Visits.{Untouched, touched_by};
ghost use Rattle.visited_objects.specs.Visits.{in_row, touched, touched_in_row, visit, visits_of};

use std::alloc::{AllocError, Global};
use std::marker::Model;

/// How an object was visited: not at all; read so far, by this iteration first; written by this iteration, which alone touched it; or two
/// iterations interfere in it, of which these are the first two.
#[derive(Clone, Copy)]
pub enum Visit {
    Untouched,
    Read(u32),
    Written(u32),
    Met(u32, u32),
}

/// A visit after one more touch, by an iteration that isn't before those that touched the object.
pub fn touched_by(before: Visit, iteration: u32, writes: bool) -> Visit
    ensures { visit result ≡ touched_by iteration (visit before) writes }
{
    match before {
        Visit::Untouched => first_touch(iteration, writes),
        Visit::Read(a) => {
            if a == iteration {
                return first_touch(iteration, writes);
            }
            if writes {
                return Visit::Met(a, iteration);
            }
            before
        }
        Visit::Written(a) => {
            if a == iteration {
                return before;
            }
            Visit::Met(a, iteration)
        }
        Visit::Met(_, _) => before,
    }
}

/// After the first touch of an object.
fn first_touch(iteration: u32, writes: bool) -> Visit
    ensures { visit result ≡ touched_by iteration Untouched writes }
{
    if writes {
        Visit::Written(iteration)
    } else {
        Visit::Read(iteration)
    }
}

/// The visits of the elements of an array in array element order, or that of a scalar. Elements beyond the last one that was touched have
/// none yet.
#[derive(Drop)]
pub struct Row {
    visits: Vec<Visit>,
}

impl Model for Row {
    ghost use Rattle.std.specs.Prelude.{List};
    ghost use Rattle.visited_objects.specs.declared.visits.Visit.{Visit};

    ghost Value = { List Visit };

    ghost view = { λ r. r.visits.items };
}

impl Row {
    /// One without visits.
    fn new(alloc: Global) -> Row
        ensures { result ≡ [] }
    {
        Row {
            visits: Vec::new(alloc),
        }
    }

    /// The visits, by place. It takes no memory.
    pub fn visits(&self) -> &[Visit]
        ensures { result.now ≡ self.now }
    {
        &self.visits
    }

    /// Notes a touch of the object at a place.
    fn touch(&mut self, iteration: u32, place: usize, writes: bool) -> Result<(), AllocError>
        ensures { OnOk result (in_row self.new ≡ touched_in_row iteration (in_row self.old) place writes) }
    {
        self.reach(place)?;
        self.visits[place] = touched_by(self.visits[place], iteration, writes);
        Ok(())
    }

    /// Has an object at a place, from now on.
    fn reach(&mut self, place: usize) -> Result<(), AllocError>
        ensures there { OnOk result (place < length self.new) }
        ensures same { in_row self.new ≡ in_row self.old }
    {
        if place < self.visits.len() {
            return Ok(());
        }
        self.make_room(place)?;
        self.visits.resize(place, Visit::Untouched)?;
        self.visits.push(Visit::Untouched)?;
        Ok(())
    }

    /// Has memory for an object at a place. It is a quarter more than that needs and not twice as much, since a row may have as many objects
    /// as an array has elements.
    fn make_room(&mut self, place: usize) -> Result<(), AllocError>
        ensures { self.new ≡ self.old }
    {
        if place < self.visits.capacity() {
            return Ok(());
        }
        let objects = place.saturating_add(place / 4).saturating_add(4);
        let more = objects - self.visits.len();
        self.visits.reserve_exact(more)
    }
}

/// How all objects were visited: a row for each name, as far as one was touched.
#[derive(Drop)]
pub struct Visits {
    rows: Vec<Row>,
}

impl Model for Visits {
    ghost use Rattle.std.specs.Prelude.{List};
    ghost use Rattle.visited_objects.specs.declared.visits.Visit.{Visit};

    ghost Value = { List (List Visit) };

    ghost view = { λ v. v.rows.items };
}

impl Visits {
    /// One in which all objects are untouched. It takes no memory.
    pub fn new(alloc: Global) -> Visits
        ensures { result ≡ [] }
    {
        Visits {
            rows: Vec::new(alloc),
        }
    }

    /// The rows, by name. It takes no memory.
    pub fn rows(&self) -> &[Row]
        ensures { result.now ≡ self.now }
    {
        &self.rows
    }

    /// Notes that an iteration, which isn't before those that touched the object, touches it.
    pub fn touch(
        &mut self,
        iteration: u32,
        name: usize,
        place: usize,
        writes: bool,
    ) -> Result<(), AllocError>
        ensures { OnOk result (visits_of self.new ≡ touched iteration (visits_of self.old) (record { name = name; place = place; writes = writes })) }
    {
        self.reach(name)?;
        self.rows[name].touch(iteration, place, writes)?;
        Ok(())
    }

    /// Has a row for a name, from now on.
    fn reach(&mut self, name: usize) -> Result<(), AllocError>
        ensures there { OnOk result (name < length self.new) }
        ensures same { visits_of self.new ≡ visits_of self.old }
    {
        let alloc = *self.rows.allocator();
        while self.rows.len() <= name {
            self.rows.push(Row::new(alloc))?;
        }
        Ok(())
    }
}
