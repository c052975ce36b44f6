// The assignment of a session's message, an update or a response, taken into a buffer of one slot below the session's topic.
//
// A message in its usual form is told in one walk, without a scan before it. Any other is scanned by `wire_messages` first, and `take_assignment` is for what that finds valid.
#![tactic(auto)]

ghost use Rattle.std.specs.Prelude.{◌≡◌, true, ◌≤◌, length};
ghost use Rattle.wire.specs.Fields.{fields_of};
ghost use Rattle.wire_values.specs.Values.{merged_fields};
ghost use Rattle.wire_readers.specs.Messages.{read_assignment};
ghost use Rattle.packed.specs.Assignment.{slot_size};
ghost use Rattle.session.specs.Store.{min_store, slot};
ghost use Rattle.session.specs.Identity.{is_identity};
ghost use Rattle.session_intake.specs.Taken.{AssignmentField, content_in, TopicEnd, Answers, OrderedMessageIs};

use refusal::Refusal;
use session_store::IDENTITY_HEAD;

// Where the topic ends, which starts at the place 7 of the store.
fn topic_end(store: &[u8]) -> usize
    requires { (min_store ≤ length store.now) × (is_identity (slot store.now 0) ≡ true) }
    ensures { TopicEnd store.now result }
{
    IDENTITY_HEAD + slice_int::read_u16(store, 0) as usize
}

// A message of field 1, a number, and field n, its assignment, and nothing else: that number, and the size of the packed assignment, which nothing
// refuses. None of any other message; what the buffer holds then is free.
pub fn take_ordered_message(store: &[u8], m: &[u8], n: u8, b: &mut [u8]) -> Option<(u64, usize)>
    requires min_store_in_bounds { (min_store ≤ length store.now) × (is_identity (slot store.now 0) ≡ true) }
    requires assignment_field { AssignmentField n × (length b.old ≡ slot_size) }
    ensures { OrderedMessageIs store.now m.now n result b.new }
{
    let (head, at) = wire_ordered::number_at(1, m, 0)?;
    let (from, to) = wire_ordered::part_at(n, m, at)?;
    if to < m.len() {
        return None;
    }
    let end = topic_end(store);
    let (_, size) = intake_ordered::take_ordered(&m[from..to], &store[IDENTITY_HEAD..end], b)?;
    Some((head, size))
}

// The assignment in field n of any message, whose epoch is given. What a refusal leaves in the buffer is free.
pub fn take_assignment(
    store: &[u8],
    m: &[u8],
    n: u64,
    epoch: u64,
    b: &mut [u8],
) -> Result<usize, Refusal>
    requires min_store_in_bounds { (min_store ≤ length store.now) × (is_identity (slot store.now 0) ≡ true) }
    requires assignment_field { AssignmentField n × (length b.old ≡ slot_size) }
    requires epoch_value { epoch ≡ (read_assignment (merged_fields n (fields_of m.now))).layout_epoch }
    ensures { Answers result b.new (content_in store.now n m.now) }
{
    let end = topic_end(store);
    intake::take_in(m, n, &store[IDENTITY_HEAD..end], epoch, b)
}
