// The ids, ranges and kinds of types.rs and scalable_consumer.rs that messages, packed lists and calls share.
//
// Everything here is plain data, passed by value. A `KeyRange` that `KeyRange::new` made lies in the 16-bit key space and is not reversed;
// the type itself does not say so, and nobody relies on it unasked.
#![tactic(auto)]

ghost use Rattle.std.specs.Prelude.{◌≡◌, false};
ghost use Rattle.topic_types.specs.KeyRanges.{new_key_range};
ghost use Rattle.topic_types.specs.ConsumerTypes.{to_wire, from_wire};

// A segment's id, unique within its topic.
#[derive(Clone, Copy)]
pub struct SegmentId(pub u64);

// The number of the link to the controller; only a higher one replaces it.
#[derive(Clone, Copy)]
pub struct ControllerIncarnation(pub u64);

// The lowest and the highest value of the 16-bit key space.
pub const MIN_HASH: u32 = 0;

pub const MAX_HASH: u32 = 65535;

// The values from start to end, both included.
#[derive(Clone, Copy)]
pub struct KeyRange {
    pub start: u32,
    pub end: u32,
}

// Why two numbers are no range of the key space. The kinds are numbered 1, 2, 3 in this order.
#[derive(Clone, Copy)]
pub enum KeyRangeError {
    // The start lies above MAX_HASH.
    StartOutOfBounds { start: u32 },
    // The end lies above MAX_HASH.
    EndOutOfBounds { end: u32 },
    // The end lies below the start.
    Reversed { start: u32, end: u32 },
}

impl KeyRange {
    // The whole key space.
    pub const FULL: Self = Self {
        start: MIN_HASH,
        end: MAX_HASH,
    };

    // The range from start to end: the start is tested first, then the end, then their order.
    pub fn new(start: u32, end: u32) -> Result<KeyRange, KeyRangeError>
        ensures { result ≡ new_key_range start end }
    {
        if MAX_HASH < start {
            return Err(KeyRangeError::StartOutOfBounds { start });
        }
        if MAX_HASH < end {
            return Err(KeyRangeError::EndOutOfBounds { end });
        }
        if end < start {
            return Err(KeyRangeError::Reversed { start, end });
        }
        Ok(KeyRange { start, end })
    }
}

// Which kind of consumer registers with the controller.
#[derive(Clone, Copy)]
pub enum ScalableConsumerType {
    Stream,
    Checkpoint,
}

impl ScalableConsumerType {
    // The integer on the wire.
    pub fn to_pb_i32(self) -> i32
        ensures { result ≡ to_wire self }
    {
        match self {
            ScalableConsumerType::Stream => 0,
            ScalableConsumerType::Checkpoint => 1,
        }
    }

    // The kind of an integer of the wire; an unknown one is a stream.
    pub fn from_pb_i32(value: i32) -> ScalableConsumerType
        ensures { result ≡ from_wire value }
    {
        if value == 1 {
            ScalableConsumerType::Checkpoint
        } else {
            ScalableConsumerType::Stream
        }
    }
}
