// The lines of a trace, each added to a text.
ghost use Rattle.std.specs.Prelude.{◌≡◌, ◌<◌, ◌≤◌, ◌+◌, ◌*◌, ◌++◌, ◌^◌, ℕ};
ghost use Rattle.std.specs.Prelude.{length, map, take, slice_get, Some, is_some, if◌then◌else◌};
ghost use Rattle.std.specs.Prelude.{IfOk, OnOk, All, IsTrue, codes};
ghost use Rattle.std.specs.List.{flat_map};
ghost use Rattle.std.specs.Fmt.{decimal};
ghost use Rattle.cy_msg.specs.declared.token.Token.{Token};
ghost use Rattle.cy_trace_text.specs.TraceText.{title, played_line, roles_text, out_text};
ghost use Rattle.cy_trace.specs.LineParts.{value_text, overflow_word, told, told_text, tape_start};
ghost use Rattle.cy_comp.specs.Summary.{numbers_of};
ghost use Rattle.cy_trace_text.specs.TraceText.{call_lines, end_line};
ghost use Rattle.cy_trace_text.specs.private.Summaries.{numbers_text, summary_text};
ghost use Rattle.cy_trace_text.specs.Parts.{opening_text};
ghost use Rattle.cy_trace_text.specs.TraceText.{component_with, tape_line};
ghost use Rattle.cy_trace_text.specs.private.TapeLines.{started_line};
ghost use Rattle.cy_trace_text.specs.private.OutsAfter.{outs_after};

use crate::numeral::{Numeral, put_kept};
use crate::page::{ROOM, put_byte, put_number, put_signed, put_word};
use crate::start::{LineStart, are_short, line_starts, put_start};
use cy_comp::{CallSummary, Calls, Out, Plan, TupleSeqs};
use cy_fuse::Overflow;
use cy_msg::{Names, Token, push_quoted};
use itoa::{Buffer, Integer};
use std::alloc::{AllocError, Global};

// How many lines are gathered before they are added to the text. They are gathered from their first
// one on, as the calls and messages stand, so that these come from memory in order.
const AT_ONCE: usize = 16;

// A number in decimal.
fn push_number<I: Integer>(to: &mut Vec<u8>, number: I) -> Result<(), AllocError>
    ensures { OnOk result (to.new.items ≡ to.old.items ++ I.text number) }
{
    to.extend_from_slice(Buffer::new().format(number).as_bytes())
}

// The title.
fn push_title(to: &mut Vec<u8>, version: u32) -> Result<(), AllocError>
    ensures { OnOk result (to.new.items ≡ to.old.items ++ title version) }
{
    to.extend_from_slice(b"cyber-trace ")?;
    push_number(to, version)?;
    to.extend_from_slice(b"\n")
}

// The title, and how many messages were played and shadowed.
pub(crate) fn push_head(
    to: &mut Vec<u8>,
    version: u32,
    played: u32,
    shadowed: u32,
) -> Result<(), AllocError>
    ensures { OnOk result (to.new.items
        ≡ to.old.items ++ (title version ++ played_line played shadowed)) }
{
    push_title(to, version)?;
    push_played(to, played, shadowed)
}

// How many messages were played and shadowed.
fn push_played(to: &mut Vec<u8>, played: u32, shadowed: u32) -> Result<(), AllocError>
    ensures { OnOk result (to.new.items ≡ to.old.items ++ played_line played shadowed) }
{
    to.extend_from_slice(b"played ")?;
    push_number(to, played)?;
    to.extend_from_slice(b" shadowed ")?;
    push_number(to, shadowed)?;
    to.extend_from_slice(b"\n")
}

// A value, where there is one.
#[inline(always)]
fn put_value(page: &mut [u8; ROOM], at: usize, value: Option<i64>) -> usize
    requires { at + 22 ≤ 4096 }
    ensures text { take result page.new ≡ take at page.old ++ value_text value }
    ensures end { result ≤ at + 22 }
{
    match value {
        None => at,
        Some(value) => {
            let at = put_byte(page, at, b'=');
            put_signed(page, at, value)
        }
    }
}

// What a call put out, behind so many earlier outputs.
#[inline(always)]
fn put_out(
    page: &mut [u8; ROOM],
    at: usize,
    before: usize,
    out: &Option<Out>,
    numeral: &Numeral,
) -> usize
    requires countable { before + 1 < 2 ^ 64 }
    requires room { at + 63 ≤ 4096 }
    ensures text { take result page.new ≡ take at page.old ++ out_text before out.now }
    ensures end { result ≤ at + 63 }
{
    match out {
        None => put_byte(page, at, b'-'),
        Some(out) => {
            let at = put_kept(page, at, before as u64 + 1, numeral);
            let at = put_byte(page, at, b'@');
            let at = put_number(page, at, out.time);
            put_value(page, at, out.whole)
        }
    }
}

// The number of a message of a tuple.
#[inline(always)]
fn put_seq(page: &mut [u8; ROOM], at: usize, seq: u32, numeral: &Numeral) -> usize
    requires { at + 21 ≤ 4096 }
    ensures text { take result page.new ≡ take at page.old ++ codes " " ++ decimal seq }
    ensures end { result ≤ at + 21 }
{
    let at = put_byte(page, at, b' ');
    put_kept(page, at, u64::from(seq), numeral)
}

// The numbers of the messages of a tuple.
#[inline(always)]
fn put_seqs(page: &mut [u8; ROOM], at: usize, seqs: &TupleSeqs, numeral: &Numeral) -> usize
    requires { at + 84 ≤ 4096 }
    ensures text { take result page.new ≡ take at page.old ++ numbers_text (numbers_of seqs.now) }
    ensures end { result ≤ at + 84 }
{
    match *seqs {
        TupleSeqs::One(a) => put_seq(page, at, a, numeral),
        TupleSeqs::Two(a, b) => {
            let at = put_seq(page, at, a, numeral);
            put_seq(page, at, b, numeral)
        }
        TupleSeqs::Three(a, b, c) => {
            let at = put_seq(page, at, a, numeral);
            let at = put_seq(page, at, b, numeral);
            put_seq(page, at, c, numeral)
        }
        TupleSeqs::Four(a, b, c, d) => {
            let at = put_seq(page, at, a, numeral);
            let at = put_seq(page, at, b, numeral);
            let at = put_seq(page, at, c, numeral);
            put_seq(page, at, d, numeral)
        }
    }
}

// A call, behind so many outputs of earlier calls. Its position is mostly the one behind that of
// the call before, and where a component has one reader, its tail, its message and its output
// mostly have that number too.
#[inline(always)]
fn put_call(
    page: &mut [u8; ROOM],
    at: usize,
    before: usize,
    call: &CallSummary,
    numeral: &mut Numeral,
) -> usize
    requires countable { before + 1 < 2 ^ 64 }
    requires room { at + 195 ≤ 4096 }
    ensures text { take result page.new ≡ take at page.old ++ summary_text before call.now }
    ensures end { result ≤ at + 195 }
{
    *numeral = numeral.moved_to(call.position);
    let at = put_word(page, at, b"call ");
    let at = put_kept(page, at, call.position, numeral);
    let at = put_byte(page, at, b'/');
    let at = put_kept(page, at, call.tail, numeral);
    let at = put_seqs(page, at, &call.seqs, numeral);
    let at = put_byte(page, at, b' ');
    let at = put_out(page, at, before, &call.out, numeral);
    put_byte(page, at, b'\n')
}

// The outputs of a call.
fn outs_of(call: &CallSummary) -> usize
    ensures count { result ≡ (if is_some call.now.out then 1 else 0) }
    ensures few { result ≤ 1 }
{
    if call.out.is_some() { 1 } else { 0 }
}

// Calls, behind so many outputs of earlier calls: where their lines end, and the outputs up to
// their end.
#[inline(always)]
fn put_calls(
    page: &mut [u8; ROOM],
    before: usize,
    calls: Calls<'_>,
    numeral: &mut Numeral,
) -> (usize, usize)
    requires countable { before + length calls < 2 ^ 64 }
    requires room { 195 * length calls ≤ 4096 }
    ensures text { take result.0 page.new ≡ call_lines before calls.entry }
    ensures end { result.0 ≤ 4096 }
    ensures after { result.1 ≡ outs_after before calls.entry }
{
    let mut at = 0;
    let mut after = before;
    let mut rest = calls;
    while let Some(call) = rest.next() {
        at = put_call(page, at, after, &call, numeral);
        after += outs_of(&call);
    }
    (at, after)
}

// Calls, behind so many outputs of earlier ones.
pub(crate) fn push_call_lines(
    to: &mut Vec<u8>,
    before: usize,
    calls: Calls<'_>,
) -> Result<(), AllocError>
    requires { before + length calls < 2 ^ 64 }
    ensures { OnOk result (to.new.items ≡ to.old.items ++ call_lines before calls.entry) }
{
    let mut page = [0; ROOM];
    let mut numeral = Numeral::zero();
    let mut before = before;
    let mut left = calls.len();
    let mut rest = calls;
    while left > 0 {
        let count = left.min(AT_ONCE);
        let (some, others) = rest.split_at(count);
        let (end, after) = put_calls(&mut page, before, some, &mut numeral);
        to.extend_from_slice(&page[..end])?;
        before = after;
        left -= count;
        rest = others;
    }
    Ok(())
}

// A digit for each arrival, its role.
fn push_roles(to: &mut Vec<u8>, roles: &[u8]) -> Result<(), AllocError>
    requires { (n r : ℕ) → slice_get roles.now n ≡ Some r → r < 10 }
    ensures { OnOk result (to.new.items ≡ to.old.items ++ roles_text roles.now) }
{
    if roles.is_empty() {
        return to.extend_from_slice(b"-");
    }
    push_digits(to, roles)
}

// The digits alone, none where there is no arrival.
fn push_digits(to: &mut Vec<u8>, roles: &[u8]) -> Result<(), AllocError>
    requires { (n r : ℕ) → slice_get roles.now n ≡ Some r → r < 10 }
    ensures { OnOk result (to.new.items ≡ to.old.items ++ map (λ n. 48 + n) roles.now) }
{
    to.reserve(roles.len())?;
    for role in roles {
        to.push(b'0' + *role)?;
    }
    Ok(())
}

// Whether a component has ended, and where its next fetch would begin.
pub(crate) fn push_end_line(to: &mut Vec<u8>, ended: bool, next: u128) -> Result<(), AllocError>
    ensures { OnOk result (to.new.items ≡ to.old.items ++ end_line ended next) }
{
    let state = if ended { "FINISHED" } else { "DATA_WAIT" };
    to.extend_from_slice(b"end ")?;
    to.extend_from_slice(state.as_bytes())?;
    to.extend_from_slice(b" next ")?;
    push_number(to, next)?;
    to.extend_from_slice(b"\n")
}

// The word for where a component goes on.
fn overflow_word(overflow: Overflow) -> &'static str
    ensures { result.now ≡ overflow_word overflow }
{
    match overflow {
        Overflow::Newest => "NEWEST",
        Overflow::Oldest => "OLDEST",
    }
}

// What the line of a component tells of its overflow.
fn push_told(to: &mut Vec<u8>, version: u32, overflow: Overflow) -> Result<(), AllocError>
    ensures { OnOk result (to.new.items ≡ to.old.items ++ told_text (told version overflow)) }
{
    if version == 1 {
        return Ok(());
    }
    to.extend_from_slice(b" overflow ")?;
    to.extend_from_slice(overflow_word(overflow).as_bytes())
}

// A component before its calls: its name and its overflow, and what arrived.
pub(crate) fn push_opening(
    to: &mut Vec<u8>,
    version: u32,
    plan: &Plan,
    roles: &[u8],
) -> Result<(), AllocError>
    requires { (n r : ℕ) → slice_get roles.now n ≡ Some r → r < 10 }
    ensures { OnOk result (to.new.items
        ≡ to.old.items ++ opening_text version plan.now roles.now) }
{
    to.extend_from_slice(b"component ")?;
    push_quoted(to, plan.name.as_str().as_bytes(), true)?;
    push_told(to, version, plan.overflow)?;
    to.extend_from_slice(b"\nroles ")?;
    push_roles(to, roles)?;
    to.extend_from_slice(b"\n")
}

// A component: its opening, its calls, and its end.
pub(crate) fn push_component(
    to: &mut Vec<u8>,
    version: u32,
    plan: &Plan,
    roles: &[u8],
    calls: Calls<'_>,
    ended: bool,
) -> Result<(), AllocError>
    requires { (n r : ℕ) → slice_get roles.now n ≡ Some r → r < 10 }
    ensures { OnOk result (to.new.items ≡ to.old.items
        ++ component_with version plan.now roles.now calls.entry ended) }
{
    push_opening(to, version, plan, roles)?;
    let (_count, next) = (calls.len(), calls.next_cursor());
    push_call_lines(to, 0, calls)?;
    push_end_line(to, ended, next)
}

// A message of the tape, but for what the lines of its channel begin with.
#[inline(always)]
fn put_end(page: &mut [u8; ROOM], at: usize, token: &Token, numeral: &Numeral) -> usize
    requires { at + 21 ≤ 4096 }
    ensures text { take result page.new ≡ take at page.old ++ decimal token.now.seq ++ codes "\n" }
    ensures end { result ≤ at + 21 }
{
    let at = put_kept(page, at, u64::from(token.seq), numeral);
    put_byte(page, at, b'\n')
}

// Messages of the tape, where the lines of each channel begin so. Answers where their lines end. A
// number is mostly that of the message before, which comes of it, or the next one.
#[inline(always)]
fn put_tape(
    page: &mut [u8; ROOM],
    starts: &[LineStart],
    tape: &[Token],
    numeral: &mut Numeral,
) -> usize
    requires known { All (λ t. t.channel < length starts.now) tape.now }
    requires short { All (λ s. length s.text ≤ 100) starts.now }
    requires room { 121 * length tape.now ≤ 4096 }
    ensures text { take result page.new
        ≡ flat_map (started_line (map (λ s. s.text) starts.now)) tape.now }
    ensures end { result ≤ 4096 }
{
    let mut at = 0;
    for token in tape {
        *numeral = numeral.moved_to(u64::from(token.seq));
        at = put_start(page, at, &starts[token.channel as usize]);
        at = put_end(page, at, token, numeral);
    }
    at
}

// Messages of the tape, some lines at a time.
fn push_short(to: &mut Vec<u8>, starts: &[LineStart], tape: &[Token]) -> Result<(), AllocError>
    requires known { All (λ t. t.channel < length starts.now) tape.now }
    requires short { All (λ s. length s.text ≤ 100) starts.now }
    ensures { OnOk result (to.new.items ≡ to.old.items
        ++ flat_map (started_line (map (λ s. s.text) starts.now)) tape.now) }
{
    let mut page = [0; ROOM];
    let mut numeral = Numeral::zero();
    let mut rest = tape;
    while !rest.is_empty() {
        let (some, others) = rest.split_at(rest.len().min(AT_ONCE));
        let end = put_tape(&mut page, starts, some, &mut numeral);
        to.extend_from_slice(&page[..end])?;
        rest = others;
    }
    Ok(())
}

// Messages of the tape, line by line.
fn push_long(to: &mut Vec<u8>, starts: &[LineStart], tape: &[Token]) -> Result<(), AllocError>
    requires { All (λ t. t.channel < length starts.now) tape.now }
    ensures { OnOk result (to.new.items ≡ to.old.items
        ++ flat_map (started_line (map (λ s. s.text) starts.now)) tape.now) }
{
    let mut page = [0; ROOM];
    for token in tape {
        to.extend_from_slice(starts[token.channel as usize].text.as_slice())?;
        let end = put_end(&mut page, 0, token, &Numeral::zero());
        to.extend_from_slice(&page[..end])?;
    }
    Ok(())
}

// The messages of the tape.
pub(crate) fn push_tape_lines(
    alloc: Global,
    to: &mut Vec<u8>,
    names: &Names,
    tape: &[Token],
) -> Result<(), AllocError>
    requires { (n : ℕ) (t : Token) → slice_get tape.now n ≡ Some t → t.channel < length names.now }
    ensures { OnOk result (to.new.items ≡ to.old.items ++ flat_map (tape_line names.now) tape.now) }
{
    let starts = line_starts(alloc, names)?;
    if are_short(&starts) {
        push_short(to, &starts, tape)
    } else {
        push_long(to, &starts, tape)
    }
}
