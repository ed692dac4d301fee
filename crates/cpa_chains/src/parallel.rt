//! The partials of all lines by several threads: lines and the room for their joints are halved
//! until one part is left. What they give is what one thread gives, proved with
//! `proofs/Halving.antt`.

ghost use Rattle.std.specs.Prelude.{◌≡◌, ◌+◌, ◌<◌, ◌≤◌, ◌++◌, length, map, vec_len, vec_capacity};
ghost use Rattle.std.specs.Prelude.{IfOk};
ghost use Rattle.std.specs.List.{AllByRecursion, AllZip};
ghost use Rattle.std.specs.Thread.{IsSync};
ghost use Rattle.cpa_audit.specs.Cuts.{cut};
ghost use Rattle.cpa_cnf.specs.Lines.{IsRefutation};
ghost use Rattle.cpa_chains.specs.Interpolants.{IsInterpolant, NameEarlier};
ghost use Rattle.cpa_chains.specs.Partials.{partials_of};
ghost use Rattle.cpa_chains.specs.Rooms.{IsRoomFor, partial_in};
ghost use Rattle.cpa_chains.specs.Tables.{FitsTable, partial_by};

use crate::folding::fill;
use crate::partial::{Joint, Partial};
use crate::sides::variables_of_b;
use cpa_audit::Gate;
use cpa_cnf::{Cnf, Line};
use cpa_ints::Seq;
use std::alloc::{AllocError, Global};
use std::thread::{Threads, join_mut};

/// A partial under construction: there is room for its joints.
#[derive(Drop)]
struct Room {
    first: u32,
    joints: Vec<Joint>,
}

/// Neighbouring parts of the work.
#[derive(Clone, Copy)]
struct Parts {
    first: u32,
    count: u32,
}

/// Room for the partial of a line.
fn room_for(alloc: Global, line: &Line) -> Result<Room, AllocError>
    ensures { IfOk result (IsRoomFor line.now) }
{
    let joints = Vec::with_capacity(alloc, line.steps.len())?;
    Ok(Room {
        first: line.first,
        joints,
    })
}

/// Room for the partial of each line.
fn rooms_for(alloc: Global, log: &[Line]) -> Result<Vec<Room>, AllocError>
    ensures { IfOk result (λ rooms. AllZip IsRoomFor log.now rooms.items) }
{
    let mut rooms = Vec::with_capacity(alloc, log.len())?;
    for line in log {
        rooms.push(room_for(alloc, line)?)?;
    }
    Ok(rooms)
}

/// Fills the room of a line.
fn fill_room(table: &[bool], line: &Line, room: &mut Room)
    requires fits { FitsTable table.now line.now }
    requires room { IsRoomFor line.now room.old }
    ensures { partial_in room.new ≡ partial_by table.now line.now }
{
    fill(table, line.steps.as_slice(), &mut room.joints);
}

/// Fills the rooms of a run of lines.
fn fill_run(table: &[bool], lines: &[Line], rooms: &mut [Room])
    requires fit { AllByRecursion (FitsTable table.now) lines.now }
    requires rooms { AllZip IsRoomFor lines.now rooms.old }
    ensures { map partial_in rooms.new ≡ map (partial_by table.now) lines.now }
{
    for i in 0..lines.len() {
        fill_room(table, &lines[i], &mut rooms[i]);
    }
}

/// How many of the lines the first so many of the parts take.
fn share(lines: usize, front: u32, parts: u32) -> usize
    requires some { 0 < parts }
    requires inside { front ≤ parts }
    ensures value { result ≡ cut lines parts front }
    ensures within { result ≤ lines }
{
    (u128::from(front) * lines as u128 / u128::from(parts)) as usize
}

/// Fills the rooms of the lines, cut into as many runs as there are parts.
#[cycle(parts)]
fn fill_parts<R: Threads + Sync, G: Gate>(
    rt: &R,
    gate: &G,
    table: &[bool],
    parts: Parts,
    lines: &[Line],
    rooms: &mut [Room],
)
    requires some { 0 < parts.count }
    requires few { parts.first + parts.count ≤ 64 }
    requires fit { AllByRecursion (FitsTable table.now) lines.now }
    requires rooms { AllZip IsRoomFor lines.now rooms.old }
    ensures { map partial_in rooms.new ≡ map (partial_by table.now) lines.now }
{
    if parts.count == 1 {
        gate.enter(parts.first);
        fill_run(table, lines, rooms);
        return;
    }
    let half = parts.count / 2;
    let middle = share(lines.len(), half, parts.count);
    let (front_lines, back_lines) = lines.split_at(middle);
    let (front, back) = rooms.split_at_mut(middle);
    let front_parts = Parts {
        first: parts.first,
        count: half,
    };
    let back_parts = Parts {
        first: parts.first + half,
        count: parts.count - half,
    };
    fill_halves(
        rt,
        gate,
        table,
        front_parts,
        back_parts,
        front_lines,
        back_lines,
        front,
        back,
    );
}

/// Fills two neighbouring rows of rooms, each a thread's work.
#[cycle(parts)]
fn fill_halves<R: Threads + Sync, G: Gate>(
    rt: &R,
    gate: &G,
    table: &[bool],
    front_parts: Parts,
    back_parts: Parts,
    front_lines: &[Line],
    back_lines: &[Line],
    front: &mut [Room],
    back: &mut [Room],
)
    requires some { (0 < front_parts.count) × (0 < back_parts.count) }
    requires few { (front_parts.first + front_parts.count ≤ 64)
        × (back_parts.first + back_parts.count ≤ 64) }
    requires front_fit { AllByRecursion (FitsTable table.now) front_lines.now }
    requires back_fit { AllByRecursion (FitsTable table.now) back_lines.now }
    requires front_rooms { AllZip IsRoomFor front_lines.now front.old }
    requires back_rooms { AllZip IsRoomFor back_lines.now back.old }
    ensures front { map partial_in front.new ≡ map (partial_by table.now) front_lines.now }
    ensures back { map partial_in back.new ≡ map (partial_by table.now) back_lines.now }
{
    join_mut(
        rt,
        &mut ||
            requires { IsSync R.row × IsSync G.row × (0 < front_parts.count)
                × (front_parts.first + front_parts.count ≤ 64)
                × AllByRecursion (FitsTable table.now) front_lines.now
                × AllZip IsRoomFor front_lines.now front.now }
            ensures { map partial_in front.exit.now
                ≡ map (partial_by table.entry.now) front_lines.entry.now }
        { fill_parts(rt, gate, table, front_parts, front_lines, front) },
        &mut ||
            requires { IsSync R.row × IsSync G.row × (0 < back_parts.count)
                × (back_parts.first + back_parts.count ≤ 64)
                × AllByRecursion (FitsTable table.now) back_lines.now
                × AllZip IsRoomFor back_lines.now back.now }
            ensures { map partial_in back.exit.now
                ≡ map (partial_by table.entry.now) back_lines.entry.now }
        { fill_parts(rt, gate, table, back_parts, back_lines, back) },
    );
}

/// Fills the rooms of all lines by so many parts.
fn fill_all<R: Threads + Sync, G: Gate>(
    rt: &R,
    gate: &G,
    table: &[bool],
    workers: u32,
    log: &[Line],
    rooms: &mut Vec<Room>,
)
    requires workers { (0 < workers) × (workers ≤ 64) }
    requires fit { AllByRecursion (FitsTable table.now) log.now }
    requires rooms { AllZip IsRoomFor log.now rooms.old.items }
    ensures { map partial_in rooms.new.items ≡ map (partial_by table.now) log.now }
{
    let parts = Parts {
        first: 0,
        count: workers,
    };
    fill_parts(rt, gate, table, parts, log, rooms.as_mut_slice());
}

/// Adds the partials that stand in the rooms, for which there is room.
fn gather(rooms: Vec<Room>, list: &mut Vec<Partial>)
    requires { vec_len list.old + vec_len rooms ≤ vec_capacity list.old }
    ensures { list.new.items ≡ list.old.items ++ map partial_in rooms.items }
{
    for room in rooms {
        list.push_reserved(Partial {
            first: room.first,
            joints: Seq::from_vec(room.joints),
        });
    }
}

/// The same list as that of `partials`, for every number of workers and every gate. The lines are
/// cut into as many runs, which are halved and joined, and part p tells the gate as it begins. All
/// memory is taken before the first join.
pub fn partials_par<R: Threads + Sync, G: Gate>(
    rt: &R,
    alloc: Global,
    cnf: &Cnf,
    sides: &[bool],
    log: &[Line],
    workers: u32,
    gate: &G,
) -> Result<Vec<Partial>, AllocError>
    requires sides { length sides.now ≡ length cnf.now.clauses }
    requires refutes { IsRefutation cnf.now log.now }
    requires workers { (0 < workers) × (workers ≤ 64) }
    ensures list { IfOk result (λ list. list.items ≡ partials_of cnf.now sides.now log.now) }
    ensures interpolant { IfOk result (λ list. IsInterpolant cnf.now sides.now list.items) }
    ensures order { IfOk result (λ list. NameEarlier (length cnf.now.clauses) list.items) }
{
    let table = variables_of_b(alloc, cnf, sides)?;
    let mut rooms = rooms_for(alloc, log)?;
    let mut list = Vec::with_capacity(alloc, log.len())?;
    fill_all(rt, gate, &table, workers, log, &mut rooms);
    gather(rooms, &mut list);
    Ok(list)
}
