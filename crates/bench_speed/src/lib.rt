// What the benchmarks call of the pieces of an update, and the text check: one exported function for each piece that is measured.
#![tactic(auto)]

use wire_schema::MessageKind;

// 0 where the update is valid, 1 where it is refused.
#[unsafe(no_mangle)]
pub extern "C" fn speed_first_fault(message: &[u8]) -> u8 {
    let kind = MessageKind::CommandScalableTopicAssignmentUpdate;
    u8::from(wire_messages::first_fault(kind, message).is_err())
}

// 0 where the text is UTF-8, else 1.
#[unsafe(no_mangle)]
pub extern "C" fn speed_text(text: &[u8]) -> u8 {
    u8::from(!utf8::is_utf8(text))
}

// The size of the packed assignment that an update comes to below the parent, 0 where it is refused.
#[unsafe(no_mangle)]
pub extern "C" fn speed_take_in(message: &[u8], parent: &[u8]) -> usize {
    let mut b = [0u8; packed::SLOT];
    let head = wire_readers::read_update(message);
    intake::take_in(message, 2, parent, head.layout_epoch, &mut b).unwrap_or(0)
}

// The same of an assignment by the one walk over its usual form; 0 where nothing is told of it.
#[unsafe(no_mangle)]
pub extern "C" fn speed_take_ordered(assignment: &[u8], parent: &[u8]) -> usize {
    let mut b = [0u8; packed::SLOT];
    if !utf8::is_utf8(parent) {
        return 0;
    }
    intake_ordered::take_ordered(assignment, parent, &mut b).map_or(0, |(_, size)| size)
}
