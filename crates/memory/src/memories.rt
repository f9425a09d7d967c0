// The memory of a line: clearing it, and reading and writing its places. Where a slice has no such
// place, reading gives what a cleared place holds, and writing does nothing.
ghost use Rattle.std.specs.Prelude.{◌≡◌, slice_index_or, slice_set};
ghost use Rattle.memory.specs.Contents.{wiped};

use crate::records::{BroadcastRecord, CaseRecord, Stage};
use plan::Plan;

/// What all processes of a line keep, in slices that the caller lends. A line uses the first
/// places of each, as many as its plan needs, and leaves the others alone. Any contents are
/// legal: opening clears what is needed.
#[derive(Drop)]
pub struct Memory<'a> {
    /// For each process, what it keeps of each subject of each originator, as `place_of` has it.
    pub broadcasts: &'a mut [BroadcastRecord],
    /// For each broadcast record the bodies heard: an echo of each sender, then a ready of each.
    pub bodies: &'a mut [Option<u64>],
    /// For each process, what it keeps of each case, as `case_place` has it.
    pub cases: &'a mut [CaseRecord],
    /// For each process, the serial of the item that it announces next.
    pub serials: &'a mut [u8],
}

fn wipe<T: Copy>(places: &mut [T], need: usize, blank: T)
    ensures { places.new ≡ wiped need blank places.old }
{
    let end = need.min(places.len());
    for place in places[..end].iter_mut() {
        *place = blank;
    }
}

// What stands at a place, or the blank behind the last one.
fn read<T: Copy>(places: &[T], at: usize, blank: T) -> T
    ensures { result ≡ slice_index_or places.now at blank }
{
    places.get(at).copied().unwrap_or(blank)
}

fn write<T: Copy>(places: &mut [T], at: usize, value: T)
    ensures { places.new ≡ slice_set places.old at value }
{
    if at < places.len() {
        places[at] = value;
    }
}

impl<'a> Memory<'a> {
    ghost use Rattle.memory.specs.Places.{enough};
    ghost use Rattle.memory.specs.Contents.{held, cleared, stage_at, case_at, serial_at, with_case, with_serial};

    /// Whether each slice is as long as the plan needs.
    pub fn is_enough(&self, plan: &Plan) -> bool
        ensures { result ≡ enough plan.now (held self.now) }
    {
        let needs = plan.needs();
        needs.broadcast_records <= self.broadcasts.len()
            && needs.body_places <= self.bodies.len()
            && needs.case_records <= self.cases.len()
            && needs.next_serials <= self.serials.len()
    }

    /// Clears the places that the plan needs, or those of them that are there.
    pub fn clear(&mut self, plan: &Plan)
        ensures { held self.new ≡ cleared plan.now (held self.old) }
    {
        let needs = plan.needs();
        let silent = BroadcastRecord::SILENT;
        wipe(self.broadcasts, needs.broadcast_records, silent);
        wipe(self.bodies, needs.body_places, None);
        wipe(self.cases, needs.case_records, CaseRecord::UNOPENED);
        wipe(self.serials, needs.next_serials, 0);
    }

    /// The stage of the broadcast record at this place, silent where there is none.
    pub fn stage(&self, at: usize) -> Stage
        ensures { result ≡ stage_at (held self.now) at }
    {
        read(self.broadcasts, at, BroadcastRecord::SILENT).stage
    }

    /// The case record at this place, an unopened one where there is none.
    pub fn case_record(&self, at: usize) -> CaseRecord
        ensures { result ≡ case_at (held self.now) at }
    {
        read(self.cases, at, CaseRecord::UNOPENED)
    }

    /// Puts a case record at this place, if there is one.
    pub fn set_case_record(&mut self, at: usize, record: CaseRecord)
        ensures { held self.new ≡ with_case at «record» (held self.old) }
    {
        write(self.cases, at, record);
    }

    /// The next serial of a process, 0 where it has no place.
    pub fn next_serial(&self, process: usize) -> u8
        ensures { result ≡ serial_at (held self.now) process }
    {
        read(self.serials, process, 0)
    }

    /// Sets the next serial of a process, if it has a place.
    pub fn set_next_serial(&mut self, process: usize, serial: u8)
        ensures { held self.new ≡ with_serial process serial (held self.old) }
    {
        write(self.serials, process, serial);
    }
}
