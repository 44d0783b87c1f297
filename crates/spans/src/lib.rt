// A part of a slice that is handed back.
#![tactic(auto)]

ghost use Rattle.std.specs.Prelude.{◌≡◌};
ghost use Rattle.wire.specs.Lists.{within};
ghost use Rattle.spans.specs.Spans.{span_of, span_in};

// Where a part starts, and how many bytes it has.
#[repr(C)]
#[derive(Clone, Copy)]
pub struct Span {
    pub start: usize,
    pub length: usize,
}

// The part of `s` that the span says, or the empty part at its start where it has no such part.
pub fn handed(s: &[u8], span: Span) -> &[u8]
    ensures result_value { result.now ≡ span_of s.now (span_in s.now span) }
    ensures ref_ptr_value { result.ref_ptr ≡ within s.entry.ref_ptr (span_in s.now span).start }
{
    let start = span.start;
    let length = span.length;
    if s.len() < length {
        return &s[0..0];
    }
    if s.len() - length < start {
        return &s[0..0];
    }
    let end = start + length;
    &s[start..end]
}
