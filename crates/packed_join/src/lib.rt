// Two deltas joined to one.
#![tactic(auto)]

ghost use Rattle.std.specs.Prelude.{◌≡◌, true, ◌+◌, ◌*◌, ◌^◌, ◌<◌};
ghost use Rattle.output.specs.Output.{outcome};
ghost use Rattle.packed_delta.specs.Delta.{delta_head, id_size, decode_delta, is_delta};
ghost use Rattle.packed_delta.specs.Join.{join};
ghost use Rattle.packed_join.specs.JoinRows.{rows_of, rows_of_delta};
ghost use Rattle.packed_join.specs.JoinOutcome.{joined_delta, join_outcome};

use packed_overlay::Row;
use refusal::Refusal;

// The most that a 16-bit count says.
const MAX_COUNT: usize = 65535;

// The rows of a delta's lost ids and gained records.
#[derive(Clone, Copy)]
struct Rows {
    lost: Row,
    gained: Row,
}

fn rows_of(losses: usize, gains: usize) -> Rows
    requires { delta_head + id_size * losses < 2 ^ 64 }
    ensures { result ≡ rows_of losses gains }
{
    let lost = Row {
        at: packed_delta::HEAD,
        left: losses,
    };
    let gained = Row {
        at: packed_delta::HEAD + packed_delta::ID * losses,
        left: gains,
    };
    Rows { lost, gained }
}

// Writes the delta d joined with the delta e behind it, whose rows are given.
fn write_join(d: &[u8], a: Rows, e: &[u8], b: Rows, out: &mut [u8]) -> Result<usize, Refusal>
    requires d_value { is_delta d.now ≡ true }
    requires e_value { is_delta e.now ≡ true }
    requires a_value { (a ≡ rows_of_delta d.now) × (b ≡ rows_of_delta e.now) }
    ensures { outcome result out.new ≡ joined_delta (join (decode_delta d.now) (decode_delta e.now)) out.old }
{
    let d_lost = a.lost;
    let d_gained = a.gained;
    let e_lost = b.lost;
    let e_gained = b.gained;
    let losses = packed_overlay::union_count(d, d_lost, e, e_lost);
    if MAX_COUNT < losses {
        return Err(Refusal::ResultTooLong);
    }
    let head = packed_delta::HEAD + packed_delta::ID * losses;
    if out.len() < head {
        return Err(Refusal::ResultTooLong);
    }
    let room = out.len() - head;
    let fit = packed_overlay::overlay_fit(d, d_gained, e, e_lost, e_gained, room);
    let (gains, size) = fit.ok_or(Refusal::ResultTooLong)?;
    if MAX_COUNT < gains {
        return Err(Refusal::ResultTooLong);
    }
    packed_overlay::write_overlay(d, d_gained, e, e_lost, e_gained, out, head);
    packed_overlay::write_union(d, d_lost, e, e_lost, out, packed_delta::HEAD);
    slice_int::write_u16(out, packed_delta::GAINED_COUNT, gains as u16);
    slice_int::write_u16(out, packed_delta::LOST_COUNT, losses as u16);
    slice_int::write_u64(out, 0, slice_int::read_u64(e, 0));
    Ok(head + size)
}

// Writes the delta d joined with the delta e behind it. Tested in order: both lent forms (20), the counts and the output's room (21). A refusal leaves the output as
// it was.
pub fn join(d: &[u8], e: &[u8], out: &mut [u8]) -> Result<usize, Refusal>
    ensures { outcome result out.new ≡ join_outcome d.now e.now out.old }
{
    let (losses, gains) = packed_delta::read_delta(d).ok_or(Refusal::MalformedInput)?;
    let (more_losses, more_gains) = packed_delta::read_delta(e).ok_or(Refusal::MalformedInput)?;
    let a = rows_of(losses, gains);
    let b = rows_of(more_losses, more_gains);
    write_join(d, a, e, b, out)
}
