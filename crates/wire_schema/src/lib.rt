// The eight messages: their kinds, and their fields as the table of specs/Schema has them.
//
// What the first fault of a message is stands in specs/FirstFault, over these fields. The reading that finds it is `wire_messages`.
#![tactic(auto)]

ghost use Rattle.std.specs.Prelude.{◌≡◌};
ghost use Rattle.wire_schema.specs.Schema.{value_for, fits_wire, levels};

use refusal::Refusal;
use wire::WireType;

// The messages, under the names of PulsarApi.proto.
#[derive(Clone, Copy)]
pub enum MessageKind {
    CommandScalableTopicAssignmentUpdate,
    CommandScalableTopicSubscribeResponse,
    ScalableConsumerAssignment,
    ScalableAssignedSegment,
    IntRange,
    CommandWatchScalableTopicsUpdate,
    ScalableTopicsSnapshot,
    ScalableTopicsDiff,
}

// What a field holds.
#[derive(Clone, Copy)]
pub enum ValueKind {
    // The field is unknown.
    Any,
    Number,
    Text,
    Message(MessageKind),
}

// What field f of a message of the kind holds.
pub fn field_value(kind: MessageKind, f: u64) -> ValueKind
    ensures { result ≡ value_for kind f }
{
    match kind {
        MessageKind::CommandScalableTopicAssignmentUpdate => match f {
            1 => ValueKind::Number,
            2 => ValueKind::Message(MessageKind::ScalableConsumerAssignment),
            _ => ValueKind::Any,
        },
        MessageKind::CommandScalableTopicSubscribeResponse => match f {
            1 => ValueKind::Number,
            2 => ValueKind::Number,
            3 => ValueKind::Text,
            4 => ValueKind::Message(MessageKind::ScalableConsumerAssignment),
            _ => ValueKind::Any,
        },
        MessageKind::ScalableConsumerAssignment => match f {
            1 => ValueKind::Number,
            2 => ValueKind::Message(MessageKind::ScalableAssignedSegment),
            _ => ValueKind::Any,
        },
        MessageKind::ScalableAssignedSegment => match f {
            1 => ValueKind::Number,
            2 => ValueKind::Number,
            3 => ValueKind::Number,
            4 => ValueKind::Text,
            5 => ValueKind::Message(MessageKind::IntRange),
            _ => ValueKind::Any,
        },
        MessageKind::IntRange => match f {
            1 => ValueKind::Number,
            2 => ValueKind::Number,
            _ => ValueKind::Any,
        },
        MessageKind::CommandWatchScalableTopicsUpdate => match f {
            1 => ValueKind::Number,
            2 => ValueKind::Message(MessageKind::ScalableTopicsSnapshot),
            3 => ValueKind::Message(MessageKind::ScalableTopicsDiff),
            4 => ValueKind::Number,
            5 => ValueKind::Text,
            _ => ValueKind::Any,
        },
        MessageKind::ScalableTopicsSnapshot => match f {
            1 => ValueKind::Text,
            _ => ValueKind::Any,
        },
        MessageKind::ScalableTopicsDiff => match f {
            1 => ValueKind::Text,
            2 => ValueKind::Text,
            _ => ValueKind::Any,
        },
    }
}

fn is_len(w: WireType) -> bool
    ensures { result ≡ fits_wire ValueKind.Text w }
{
    matches!(w, WireType::Len)
}

// A field that holds such a value may have the wire type.
pub fn fits_wire(v: ValueKind, w: WireType) -> bool
    ensures { result ≡ fits_wire v w }
{
    match v {
        ValueKind::Any => true,
        ValueKind::Number => matches!(w, WireType::Varint),
        ValueKind::Text => is_len(w),
        ValueKind::Message(_) => is_len(w),
    }
}

// How deep messages are nested in one of the kind, itself counted.
pub fn nesting(kind: MessageKind) -> usize
    ensures { result ≡ levels kind }
{
    match kind {
        MessageKind::CommandScalableTopicAssignmentUpdate => 4,
        MessageKind::CommandScalableTopicSubscribeResponse => 4,
        MessageKind::ScalableConsumerAssignment => 3,
        MessageKind::ScalableAssignedSegment => 2,
        MessageKind::IntRange => 1,
        MessageKind::CommandWatchScalableTopicsUpdate => 2,
        MessageKind::ScalableTopicsSnapshot => 1,
        MessageKind::ScalableTopicsDiff => 1,
    }
}
