//! The variables on which two formulas meet, and the bits that these are: `names_of` and `bits_of`
//! of specs/Meetings. Proved with `proofs/naming/`.

ghost use Rattle.std.specs.Prelude.{◌≡◌, ◌<◌, ◌≤◌, ◌+◌, ◌^◌, length, IfOk};
ghost use Rattle.std.specs.List.{AllByRecursion};
ghost use Rattle.cpa_ints.specs.Integers.{width};
ghost use Rattle.cpa_interpolant_names.specs.Meetings.{named, noted, shared_bits, names_of};
ghost use Rattle.cpa_interpolant_names.specs.Meetings.{bits_of};
ghost use Rattle.cpa_interpolant_names.specs.Meetings.{Fits, StandsBelow};

use crate::gathering::Meeting;
use cpa_interpolant_bits::Bit;
use std::alloc::{AllocError, Global};

/// Names the bits of a cell behind the cut by those before it.
fn name(names: &mut [Option<u32>], meeting: Meeting)
    requires fits { Fits (length names.old) meeting }
    ensures { names.new ≡ named names.old meeting (width meeting.ty) }
{
    for place in 0..meeting.ty.width() {
        names[meeting.behind as usize + place as usize] = Some(meeting.before + place);
    }
}

/// For each variable of the formula of the part behind the cut the one of the part before it that
/// has the same value: those of the bits of the program's cells.
pub fn names_of(
    alloc: Global,
    vars: u32,
    meetings: &[Meeting],
) -> Result<Vec<Option<u32>>, AllocError>
    requires fits { AllByRecursion (Fits vars) meetings.now }
    ensures { IfOk result (λ names. names.items ≡ names_of vars meetings.now) }
{
    let mut names = vec![in alloc; None; vars as usize]?;
    for meeting in meetings {
        name(&mut names, *meeting);
    }
    Ok(names)
}

/// Notes the bits of a cell that both parts read.
fn note(bits: &mut [Option<Bit>], meeting: Meeting)
    requires fits { StandsBelow (length bits.old) meeting }
    ensures { bits.new ≡ noted bits.old meeting (width meeting.ty) }
{
    for place in 0..meeting.ty.width() {
        bits[meeting.before as usize + place as usize] = Some(Bit {
            cell: meeting.cell,
            ty: meeting.ty,
            place,
        });
    }
}

/// Notes the bits of a cell, where both parts read it.
fn note_shared(bits: &mut [Option<Bit>], meeting: Meeting)
    requires fits { StandsBelow (length bits.old) meeting }
    ensures { bits.new ≡ noted bits.old meeting (shared_bits meeting) }
{
    if meeting.is_shared {
        note(bits, meeting);
    }
}

/// For each variable of the formula of the part before the cut the bit of the program's cell that
/// it is, where both parts read the cell.
pub fn bits_of(
    alloc: Global,
    vars: u32,
    meetings: &[Meeting],
) -> Result<Vec<Option<Bit>>, AllocError>
    requires fits { AllByRecursion (StandsBelow vars) meetings.now }
    ensures { IfOk result (λ bits. bits.items ≡ bits_of vars meetings.now) }
{
    let mut bits = vec![in alloc; None; vars as usize]?;
    for meeting in meetings {
        note_shared(&mut bits, *meeting);
    }
    Ok(bits)
}
