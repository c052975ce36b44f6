// The classes of a name's bytes.
ghost use Rattle.std.specs.Prelude.{◌≡◌};
ghost use Rattle.name_parents.specs.Classes.{class_of, Sorts};

pub const OTHER: u8 = 0;

pub const DIGIT: u8 = 1;

pub const HEX_LETTER: u8 = 2;

pub const SLASH: u8 = 3;

pub const DASH: u8 = 4;

pub const QUESTION: u8 = 5;

pub const HASH: u8 = 6;

const CLASSES: [u8; 256] = [
    // 0x00
    0, 0, 0, 0, 0, 0, 0, 0, 0, 0, 0, 0, 0, 0, 0, 0,
    // 0x10
    0, 0, 0, 0, 0, 0, 0, 0, 0, 0, 0, 0, 0, 0, 0, 0,
    // 0x20
    0, 0, 0, 6, 0, 0, 0, 0, 0, 0, 0, 0, 0, 4, 0, 3,
    // 0x30
    1, 1, 1, 1, 1, 1, 1, 1, 1, 1, 0, 0, 0, 0, 0, 5,
    // 0x40
    0, 0, 0, 0, 0, 0, 0, 0, 0, 0, 0, 0, 0, 0, 0, 0,
    // 0x50
    0, 0, 0, 0, 0, 0, 0, 0, 0, 0, 0, 0, 0, 0, 0, 0,
    // 0x60
    0, 2, 2, 2, 2, 2, 2, 0, 0, 0, 0, 0, 0, 0, 0, 0,
    // 0x70
    0, 0, 0, 0, 0, 0, 0, 0, 0, 0, 0, 0, 0, 0, 0, 0,
    // 0x80
    0, 0, 0, 0, 0, 0, 0, 0, 0, 0, 0, 0, 0, 0, 0, 0,
    // 0x90
    0, 0, 0, 0, 0, 0, 0, 0, 0, 0, 0, 0, 0, 0, 0, 0,
    // 0xA0
    0, 0, 0, 0, 0, 0, 0, 0, 0, 0, 0, 0, 0, 0, 0, 0,
    // 0xB0
    0, 0, 0, 0, 0, 0, 0, 0, 0, 0, 0, 0, 0, 0, 0, 0,
    // 0xC0
    0, 0, 0, 0, 0, 0, 0, 0, 0, 0, 0, 0, 0, 0, 0, 0,
    // 0xD0
    0, 0, 0, 0, 0, 0, 0, 0, 0, 0, 0, 0, 0, 0, 0, 0,
    // 0xE0
    0, 0, 0, 0, 0, 0, 0, 0, 0, 0, 0, 0, 0, 0, 0, 0,
    // 0xF0
    0, 0, 0, 0, 0, 0, 0, 0, 0, 0, 0, 0, 0, 0, 0, 0,
];

// The table, for a walk that looks bytes up in it: a constant that is read at an index is built anew for each byte.
pub fn classes() -> [u8; 256]
    ensures { Sorts result }
{
    CLASSES
}

// The class of a byte, by the table that is lent.
pub fn class_in(table: &[u8; 256], b: u8) -> u8
    requires { Sorts table.now }
    ensures { result ≡ class_of b }
{
    let i = b as usize;
    table[i]
}

// The class of a byte.
pub fn class_of(b: u8) -> u8
    ensures { result ≡ class_of b }
{
    let i = b as usize;
    CLASSES[i]
}
