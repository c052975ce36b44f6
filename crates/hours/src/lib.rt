// Pass hours and terms (02, request f): whether a second is open by a contract, and the earliest open second not before
// a given one.
//
// The packed contract stands in specs/Contract. Each term costs one walk over the windows, so a call takes at most 64
// times 28 steps, wherever the second lies.
#![tactic(auto)]

ghost use Rattle.std.specs.Prelude.{◌≡◌, true, ◌+◌, ◌*◌, ◌≤◌, ◌<◌, length, drop};
ghost use Rattle.hours.specs.Contract.{span_of, spans_of, ok_spans};
ghost use Rattle.hours.specs.Hours.{holds, any_holds, open_answer, Earliest};
ghost use Rattle.hours.specs.Steps.{shape_of, wait_for, least_wait, first_in, first_of};

use refusal::Refusal;

// The seconds of a week. Second 0 is the start of a Saturday, and so of a week.
const WEEK: u64 = 604800;

const MAX_TERMS: usize = 64;

const MAX_WINDOWS: usize = 28;

// The bytes before the terms; of a term or a window.
const HEAD: usize = 4;

const SPAN: usize = 16;

// Stands for none: no term holds it, since ends are outside.
const LARGEST: u64 = u64::MAX;

// A term or a weekly window: the start is inside, the end is outside.
#[derive(Clone, Copy)]
pub struct Span {
    pub start: u64,
    pub end: u64,
}

// The span in the 16 bytes from a place on.
fn span_at(s: &[u8], at: usize) -> Span
    requires { at + 16 ≤ length s.now }
    ensures { result ≡ span_of (drop at s.now) }
{
    let start = slice_int::read_u64(s, at);
    let end = slice_int::read_u64(s, at + 8);
    Span { start, end }
}

// Each of the n spans from a place on ends after its start and by the limit.
fn spans_ok(s: &[u8], at: usize, n: usize, limit: u64) -> bool
    requires { at + 16 * n ≤ length s.now }
    ensures { result ≡ ok_spans limit (spans_of n (drop at s.now)) }
{
    for i in 0..n {
        let span = span_at(s, at + SPAN * i);
        if span.end <= span.start || limit < span.end {
            return false;
        }
    }
    true
}

// Whether the span holds the second.
fn in_span(span: Span, second: u64) -> bool
    ensures { result ≡ holds span second }
{
    span.start <= second && second < span.end
}

// Some of the n spans from a place on holds the second.
fn any_holds(s: &[u8], at: usize, n: usize, second: u64) -> bool
    requires { at + 16 * n ≤ length s.now }
    ensures { result ≡ any_holds (spans_of n (drop at s.now)) second }
{
    for i in 0..n {
        if in_span(span_at(s, at + SPAN * i), second) {
            return true;
        }
    }
    false
}

// Counts, lengths, and every span: what 35 tests. The number of terms and of windows; None where it is broken.
fn read_contract(contract: &[u8]) -> Option<(usize, usize)>
    ensures { result ≡ shape_of contract.now }
{
    if contract.len() < HEAD {
        return None;
    }
    let terms = slice_int::read_u16(contract, 0) as usize;
    let windows = slice_int::read_u16(contract, 2) as usize;
    if terms <= MAX_TERMS
        && windows <= MAX_WINDOWS
        && contract.len() == HEAD + SPAN * (terms + windows)
        && spans_ok(contract, HEAD, terms, LARGEST)
        && spans_ok(contract, HEAD + SPAN * terms, windows, WEEK)
    {
        Some((terms, windows))
    } else {
        None
    }
}

// Whether some term and some weekly window hold the second.
pub fn is_open(contract: &[u8], second: u64) -> Result<bool, Refusal>
    ensures { result ≡ open_answer contract.now second }
{
    let (terms, windows) = read_contract(contract).ok_or(Refusal::InvalidContract)?;
    let in_term = any_holds(contract, HEAD, terms, second);
    Ok(in_term && any_holds(contract, HEAD + SPAN * terms, windows, second % WEEK))
}

// From a moment of the week to the window: it is there, or comes this week, or next week.
fn wait_for(window: Span, moment: u64) -> u64
    requires { (window.start < window.end) × (window.end ≤ 604800) × (moment < 604800) }
    ensures { result ≡ wait_for window moment }
{
    if moment < window.start {
        window.start - moment
    } else if moment < window.end {
        0
    } else {
        WEEK - moment + window.start
    }
}

// From a moment of the week to the first of the n windows from a place on.
fn least_wait(s: &[u8], at: usize, n: usize, moment: u64) -> u64
    requires { (at + 16 * n ≤ length s.now) × (moment < 604800)
        × (ok_spans 604800 (spans_of n (drop at s.now)) ≡ true) }
    ensures { result ≡ least_wait (spans_of n (drop at s.now)) moment }
{
    let mut least = LARGEST;
    for i in 0..n {
        least = least.min(wait_for(span_at(s, at + SPAN * i), moment));
    }
    least
}

// The first open second of one term, not before the second given; the largest number where there is none.
fn first_in(s: &[u8], at: usize, n: usize, term: Span, second: u64) -> u64
    requires { (at + 16 * n ≤ length s.now) × (ok_spans 604800 (spans_of n (drop at s.now)) ≡ true) }
    ensures { result ≡ first_in term (spans_of n (drop at s.now)) second }
{
    let low = term.start.max(second);
    if term.end <= low {
        return LARGEST;
    }
    let wait = least_wait(s, at, n, low % WEEK);
    if wait < term.end - low {
        low + wait
    } else {
        LARGEST
    }
}

// The first of all terms.
fn first_of(s: &[u8], terms: usize, windows: usize, second: u64) -> u64
    requires { (4 + 16 * (terms + windows) ≤ length s.now)
        × (ok_spans 604800 (spans_of windows (drop (4 + 16 * terms) s.now)) ≡ true) }
    ensures { result ≡ first_of (spans_of terms (drop 4 s.now))
        (spans_of windows (drop (4 + 16 * terms) s.now)) second }
{
    let at = HEAD + SPAN * terms;
    let mut first = LARGEST;
    for i in 0..terms {
        first = first.min(first_in(s, at, windows, span_at(s, HEAD + SPAN * i), second));
    }
    first
}

// The earliest open second not before the one given; None where no second from it on is open.
pub fn earliest_open(contract: &[u8], second: u64) -> Result<Option<u64>, Refusal>
    ensures { Earliest contract.now second result }
{
    let (terms, windows) = read_contract(contract).ok_or(Refusal::InvalidContract)?;
    let first = first_of(contract, terms, windows, second);
    if first == LARGEST {
        Ok(None)
    } else {
        Ok(Some(first))
    }
}
