// How many bytes a locator has.
#![tactic(auto)]

ghost use Rattle.std.specs.Prelude.{◌≡◌, ◌+◌, ◌≤◌};
ghost use Rattle.locator.specs.Syntax.{inline_length, id_length, component_length, window_length, service_length, identifier_length, windows_length, locator_length};

use locator::{DvbBinaryLocator, DvbLocatorIdentifier, DvbLocatorService, DvbLocatorWindows};

fn service_length(service: DvbLocatorService) -> usize
    ensures { (result ≡ service_length service) × (result ≤ inline_length) }
{
    match service {
        DvbLocatorService::Triplet { .. } => DvbBinaryLocator::TRIPLET,
        DvbLocatorService::Full { .. } => DvbBinaryLocator::INLINE,
    }
}

fn identifier_length(identifier: DvbLocatorIdentifier) -> usize
    ensures { (result ≡ identifier_length identifier) × (result ≤ id_length + component_length) }
{
    match identifier {
        DvbLocatorIdentifier::None => 0,
        DvbLocatorIdentifier::EventId { .. } => DvbBinaryLocator::ID,
        DvbLocatorIdentifier::TvaIdEit { .. } => DvbBinaryLocator::ID,
        DvbLocatorIdentifier::TvaIdPes { .. } => DvbBinaryLocator::ID + DvbBinaryLocator::COMPONENT,
    }
}

fn windows_length(windows: Option<DvbLocatorWindows>) -> usize
    ensures { (result ≡ windows_length windows) × (result ≤ window_length) }
{
    match windows {
        None => 0,
        Some(DvbLocatorWindows { .. }) => DvbBinaryLocator::WINDOWS,
    }
}

// How many bytes it has.
pub fn length_of(locator: DvbBinaryLocator) -> usize
    ensures { result ≡ locator_length locator }
{
    let service = locator.service;
    let identifier = locator.identifier;
    let windows = locator.windows;
    DvbBinaryLocator::HEAD
        + service_length(service)
        + DvbBinaryLocator::TIMES
        + identifier_length(identifier)
        + windows_length(windows)
}
