// Over the head of a provider, and over an authority, each by its place in a section: nothing is read past the slice, whatever
// end is told.
#![tactic(auto)]

ghost use Rattle.std.specs.Prelude.{◌≡◌};
ghost use Rattle.wire.specs.Verdict.{reached};
ghost use Rattle.length_field.specs.Lengths.{block_end};
ghost use Rattle.rnt.specs.Reading.{named_end, info_place, authority_verdict, provider_head};
ghost use Rattle.rnt_heads.specs.Heads.{end_in, headed};

use wire::verdict::Refusal;

mod head;

// Where a provider's authorities begin and where they end, with it.
#[derive(Drop)]
pub struct Headed {
    pub first: usize,
    pub end: usize,
}

// Over the length, the name and the descriptors of the provider at a place of a payload that ends at `end`: 42 to 45.
pub fn past_head(s: &[u8], end: usize, at: u16) -> Result<Headed, Refusal>
    ensures { result ≡ headed (provider_head s.now (end_in s.now end) at) (named_end s.now (info_place at)) (block_end s.now at) }
{
    let e = head::smaller(end, s.len());
    head::past_provider_head(s, e, at as usize)
}

// Over the authority at a place of a provider that ends at `end`: 46.
pub fn past_authority(s: &[u8], end: usize, at: u16) -> Result<usize, Refusal>
    ensures { result ≡ reached (authority_verdict s.now (end_in s.now end) at) (named_end s.now at) }
{
    let e = head::smaller(end, s.len());
    head::past_named(
        s,
        e,
        at as usize,
        Refusal::AUTHORITY_CUT,
        Refusal::AUTHORITY_CUT,
    )
}
