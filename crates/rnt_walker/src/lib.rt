// Walking over a resolution notification section, by what a reading demands: the places of its providers and of their
// authorities.
#![tactic(auto)]

pub mod walk;

// The bytes of the section, the number of its providers, and of the provider that was asked for its place, the number of its
// authorities and the place of the one that was asked for. What there is none of has the place 0, and no authorities.
#[derive(Drop)]
pub struct RntPlaces {
    pub total: usize,
    pub providers: usize,
    pub provider_at: usize,
    pub authorities: usize,
    pub authority_at: usize,
}
