// A delta applied to a packed assignment.
#![tactic(auto)]

ghost use Rattle.std.specs.Prelude.{◌≡◌};
ghost use Rattle.output.specs.Output.{outcome};
ghost use Rattle.packed_apply.specs.ApplyOutcome.{apply_outcome};

use packed::ASSIGNMENT_HEAD;
use packed_overlay::Row;
use refusal::Refusal;

// Writes the packed assignment `assignment` with the delta applied. Tested in order: both lent forms (20), a slot's room (15), the output's (21). A refusal leaves the
// output as it was.
pub fn apply(assignment: &[u8], delta: &[u8], out: &mut [u8]) -> Result<usize, Refusal>
    ensures { outcome result out.new ≡ apply_outcome assignment.now delta.now out.old }
{
    let (_, count) = packed::read_whole(assignment).ok_or(Refusal::MalformedInput)?;
    let (losses, gains) = packed_delta::read_delta(delta).ok_or(Refusal::MalformedInput)?;
    let kept = Row {
        at: ASSIGNMENT_HEAD,
        left: count,
    };
    let lost = Row {
        at: packed_delta::HEAD,
        left: losses,
    };
    let gained = Row {
        at: packed_delta::HEAD + packed_delta::ID * losses,
        left: gains,
    };
    let limit = packed::SLOT - ASSIGNMENT_HEAD;
    let fit = packed_overlay::overlay_fit(assignment, kept, delta, lost, gained, limit);
    let (n, size) = fit.ok_or(Refusal::AssignmentTooLong)?;
    if out.len() < ASSIGNMENT_HEAD + size {
        return Err(Refusal::ResultTooLong);
    }
    packed_overlay::write_overlay(assignment, kept, delta, lost, gained, out, ASSIGNMENT_HEAD);
    slice_int::write_u16(out, packed::ASSIGNMENT_COUNT, n as u16);
    slice_int::write_u64(out, 0, slice_int::read_u64(delta, 0));
    Ok(ASSIGNMENT_HEAD + size)
}
