// The call whose line bytes begin with.
ghost use Rattle.std.specs.Prelude.{◌≡◌, ◌≤◌, ◌+◌, ◌++◌, ◌∷◌, length, IfSome, codes, Some, None};
ghost use Rattle.std.specs.Fmt.{decimal};
ghost use Rattle.cy_trace.specs.private.Fronts.{BeginsWith, BeginsWithParts};
ghost use Rattle.cy_trace.specs.Taking.{TakesCalls};
ghost use Rattle.cy_trace.specs.TraceForm.{output_text, IsOutput};
ghost use Rattle.cy_trace.specs.declared.line.Line.TheVariants as line;

use crate::front::{front_byte, front_number, front_short, front_value, front_word};
use crate::{Calls, Seqs, TraceCall, TraceOutput};

// What a call put out, of this number, behind which the bytes stand.
#[inline(always)]
fn front_output(seq: u32, bytes: &[u8]) -> Option<(TraceOutput, &[u8])>
    ensures { IfSome result (λ p. (decimal seq ++ 64 ∷ bytes.now
        ≡ output_text (Some p.0) ++ p.1.now) × IsOutput (Some p.0)) }
{
    let (time, rest) = front_number(bytes)?;
    let (value, rest) = front_value(rest)?;
    Some((TraceOutput { seq, time, value }, rest))
}

// The numbers of the messages of a call, and what it put out.
#[inline(always)]
fn front_parts(bytes: &[u8]) -> Option<(Seqs, Option<TraceOutput>, &[u8])>
    ensures { IfSome result (λ p. BeginsWithParts bytes.now p.0 p.1 p.2.now) }
{
    let mut seqs = Seqs::new();
    let mut rest = bytes;
    while let Some(word) = front_byte(rest, b' ') {
        if let Some(more) = front_byte(word, b'-') {
            return Some((seqs, None, more));
        }
        let (number, more) = front_short(word)?;
        if let Some(timing) = front_byte(more, b'@') {
            let (out, more) = front_output(number, timing)?;
            return Some((seqs, Some(out), more));
        }
        if !seqs.push(number) {
            return None;
        }
        rest = more;
    }
    None
}

// The call whose line the bytes begin with, and what stands behind the line.
#[inline(always)]
fn front_call(bytes: &[u8]) -> Option<(TraceCall, &[u8])>
    ensures { IfSome result (λ p. BeginsWith bytes.now (line.Call p.0) p.1.now) }
{
    let rest = front_word(bytes, b"call ")?;
    let (position, rest) = front_number(rest)?;
    let rest = front_byte(rest, b'/')?;
    let (tail, rest) = front_number(rest)?;
    let (seqs, out, rest) = front_parts(rest)?;
    if seqs.as_slice().is_empty() {
        return None;
    }
    let rest = front_byte(rest, b'\n')?;
    Some((
        TraceCall {
            position,
            tail,
            seqs,
            out,
        },
        rest,
    ))
}

/// Takes the calls whose lines the bytes begin with, as far as there is memory and the lines are
/// written as a trace has them. Answers what stands behind these lines, and the number of the next
/// line, where `line` is that of the first one.
pub fn take_calls<'a>(calls: &mut Calls, bytes: &'a [u8], line: u32) -> (&'a [u8], u32)
    requires { line + length bytes.now ≤ 4294967295 }
    ensures { TakesCalls bytes.now result.0.now calls.old calls.new line result.1 }
{
    let mut rest = bytes;
    let mut next = line;
    while let Some((call, more)) = front_call(rest) {
        if !calls.is_added(&call) {
            return (rest, next);
        }
        rest = more;
        next += 1;
    }
    (rest, next)
}
