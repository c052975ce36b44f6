// Parents of names: `topic://` and a path of tenant, namespace and local name, without '?' and '#'. A name's bytes are sorted into classes by
// a table.
#![tactic(auto)]

mod class;

ghost use Rattle.std.specs.Prelude.{◌≡◌, ◌+◌, ◌≤◌, length, drop};
ghost use Rattle.name_parents.specs.Classes.{Sorts};
ghost use Rattle.name_parents.specs.Parents.{is_path, is_parent, passed};

pub use class::{DASH, DIGIT, HEX_LETTER, SLASH, class_of};
use class::{QUESTION, class_in, classes};

// "topic://" as a number of 8 bytes.
const TOPIC_SCHEME: u64 = 0x746F_7069_633A_2F2F;

// The bytes of "topic://", before a parent's path.
pub const SCHEME: usize = 8;

// The place of the first byte from a place on whose class is the lowest or one above it, '-' aside, or the end.
fn stop_from(table: &[u8; 256], s: &[u8], from: usize, lowest: u8) -> usize
    requires from_in_bounds { from ≤ length s.now }
    requires sorts { Sorts table.now }
    ensures { result ≡ from + passed lowest (drop from s.now) }
{
    let mut i = from;
    while i < s.len() {
        let class = class_in(table, s[i]);
        if lowest <= class && class != DASH {
            return i;
        }
        i += 1;
    }
    i
}

// What stands behind a place is a path of tenant, namespace and local name: none is empty, none has '?' or '#', and the last does not end in '/'. Each
// byte is looked at once: tenant and namespace end at a '/', the local name has no '?' or '#' up to the end.
fn is_path_from(s: &[u8], from: usize) -> bool
    requires { from ≤ length s.now }
    ensures { result ≡ is_path (drop from s.now) }
{
    let end = s.len();
    let table = classes();
    let a = stop_from(&table, s, from, SLASH);
    if a == from {
        return false;
    }
    if end <= a {
        return false;
    }
    if class_in(&table, s[a]) != SLASH {
        return false;
    }
    let b = stop_from(&table, s, a + 1, SLASH);
    if b == a + 1 {
        return false;
    }
    if end <= b + 1 {
        return false;
    }
    if class_in(&table, s[b]) != SLASH {
        return false;
    }
    if class_in(&table, s[end - 1]) == SLASH {
        return false;
    }
    stop_from(&table, s, b + 1, QUESTION) == end
}

// The part is a path.
pub fn is_path(p: &[u8]) -> bool
    ensures { result ≡ is_path p.now }
{
    is_path_from(p, 0)
}

// The text is a parent.
pub fn is_parent(s: &[u8]) -> bool
    ensures { result ≡ is_parent s.now }
{
    if s.len() < SCHEME {
        return false;
    }
    if slice_int::read_u64(s, 0) != TOPIC_SCHEME {
        return false;
    }
    is_path_from(s, SCHEME)
}
