// Providers and authorities, by number and by place.
ghost use Rattle.std.specs.Prelude.{◌≡◌};
ghost use Rattle.flat_answers.specs.Providers.{no_provider, no_authority, provider_answer, provider_found_answer, authority_answer, authority_found_answer};

use flat_refusal::fine;
use rnt::{CridAuthority, ResolutionProvider};
use rnt_entries::AuthorityFound;
use rnt_providers::ProviderRead;
use spans::Span;
use wire::verdict::Refusal;

#[repr(C)]
#[derive(Drop)]
pub struct ProviderAnswer {
    pub refusal: Refusal,
    pub provider: ResolutionProvider,
    pub number_of_authorities: usize,
}

// A provider by place: how many authorities it has was not looked at.
#[repr(C)]
#[derive(Drop)]
pub struct ProviderFoundAnswer {
    pub refusal: Refusal,
    pub provider: ResolutionProvider,
}

#[repr(C)]
#[derive(Drop)]
pub struct AuthorityAnswer {
    pub refusal: Refusal,
    pub authority: CridAuthority,
}

// An authority by place, and the place behind it.
#[repr(C)]
#[derive(Drop)]
pub struct AuthorityFoundAnswer {
    pub refusal: Refusal,
    pub authority: CridAuthority,
    pub next: u16,
}

fn no_provider() -> ResolutionProvider
    ensures { result ≡ no_provider }
{
    ResolutionProvider {
        reserved_info_length: 0,
        name: Span {
            start: 0,
            length: 0,
        },
        reserved_descriptors_length: 0,
        descriptors: Span {
            start: 0,
            length: 0,
        },
        authorities_at: 0,
        end: 0,
    }
}

fn no_authority() -> CridAuthority
    ensures { result ≡ no_authority }
{
    CridAuthority {
        name: Span {
            start: 0,
            length: 0,
        },
        reserved: 0,
        crid_authority_policy: 0,
        descriptors: Span {
            start: 0,
            length: 0,
        },
    }
}

impl ProviderAnswer {
    pub fn of(read: Result<ProviderRead, Refusal>) -> ProviderAnswer
        ensures { result ≡ provider_answer read }
    {
        match read {
            Ok(
                ProviderRead {
                    provider,
                    number_of_authorities,
                },
            ) => ProviderAnswer {
                refusal: fine(),
                provider,
                number_of_authorities,
            },
            Err(refusal) => ProviderAnswer {
                refusal,
                provider: no_provider(),
                number_of_authorities: 0,
            },
        }
    }
}

impl ProviderFoundAnswer {
    pub fn of(found: Result<ResolutionProvider, Refusal>) -> ProviderFoundAnswer
        ensures { result ≡ provider_found_answer found }
    {
        match found {
            Ok(provider) => ProviderFoundAnswer {
                refusal: fine(),
                provider,
            },
            Err(refusal) => ProviderFoundAnswer {
                refusal,
                provider: no_provider(),
            },
        }
    }
}

impl AuthorityAnswer {
    pub fn of(read: Result<CridAuthority, Refusal>) -> AuthorityAnswer
        ensures { result ≡ authority_answer read }
    {
        match read {
            Ok(authority) => AuthorityAnswer {
                refusal: fine(),
                authority,
            },
            Err(refusal) => AuthorityAnswer {
                refusal,
                authority: no_authority(),
            },
        }
    }
}

impl AuthorityFoundAnswer {
    pub fn of(found: Result<AuthorityFound, Refusal>) -> AuthorityFoundAnswer
        ensures { result ≡ authority_found_answer found }
    {
        match found {
            Ok(AuthorityFound { authority, next }) => AuthorityFoundAnswer {
                refusal: fine(),
                authority,
                next,
            },
            Err(refusal) => AuthorityFoundAnswer {
                refusal,
                authority: no_authority(),
                next: 0,
            },
        }
    }
}
