// What is checked of a locator before it is written. The two stand apart, since a link has checks of its own between them.
#![tactic(auto)]

ghost use Rattle.std.specs.Prelude.{◌≡◌};
ghost use Rattle.locator.specs.Syntax.{are_here, are_due};
ghost use Rattle.locator.specs.Checks.{check_service, check_widths, check_fields, check_windows};

use field::Field;
use locator::{DvbBinaryLocator, DvbLocatorIdentifier, DvbLocatorService, DvbLocatorWindows};
use wire::verdict::{Refusal, first_of};

// Refusal 22 of the field with the lowest rank that is too wide.
pub fn check_fields(locator: DvbBinaryLocator) -> Result<(), Refusal>
    ensures { result ≡ check_fields locator }
{
    let service = locator.service;
    let windows = locator.windows;
    let later = first_of(check_service(service), check_widths(windows));
    first_of(
        Field::START_DATE.check(locator.start_date as usize),
        first_of(
            Field::LOCATOR_RESERVED.check(locator.reserved as usize),
            later,
        ),
    )
}

// Refusal 24 if windows are present against the rule, or missing.
pub fn check_windows(locator: DvbBinaryLocator) -> Result<(), Refusal>
    ensures { result ≡ check_windows locator }
{
    let identifier = locator.identifier;
    let windows = locator.windows;
    if here(windows) != due(identifier, locator.scheduled_time_reliability) {
        return Err(Refusal {
            number: Refusal::AGAINST_RULE,
            first: 0,
            second: 0,
        });
    }
    Ok(())
}

fn check_service(service: DvbLocatorService) -> Result<(), Refusal>
    ensures { result ≡ check_service service }
{
    match service {
        DvbLocatorService::Triplet {
            dvb_service_triplet_id,
        } => Field::TRIPLET_ID.check(dvb_service_triplet_id as usize),
        DvbLocatorService::Full {
            reserved_inline_service,
            ..
        } => Field::INLINE_RESERVED.check(reserved_inline_service as usize),
    }
}

fn check_widths(windows: Option<DvbLocatorWindows>) -> Result<(), Refusal>
    ensures { result ≡ check_widths windows }
{
    match windows {
        None => Ok(()),
        Some(
            DvbLocatorWindows {
                early_start_window,
                late_end_window,
            },
        ) => first_of(
            Field::EARLY_START.check(early_start_window as usize),
            Field::LATE_END.check(late_end_window as usize),
        ),
    }
}

fn here(windows: Option<DvbLocatorWindows>) -> bool
    ensures { result ≡ are_here windows }
{
    match windows {
        None => false,
        Some(DvbLocatorWindows { .. }) => true,
    }
}

// Windows are due exactly if there is no identifier and reliability is set.
fn due(identifier: DvbLocatorIdentifier, reliability: bool) -> bool
    ensures { result ≡ are_due identifier reliability }
{
    match identifier {
        DvbLocatorIdentifier::None => reliability,
        DvbLocatorIdentifier::EventId { .. } => false,
        DvbLocatorIdentifier::TvaIdEit { .. } => false,
        DvbLocatorIdentifier::TvaIdPes { .. } => false,
    }
}
